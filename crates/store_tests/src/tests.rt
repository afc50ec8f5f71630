// The files, and what each tests or gives the others.
//
//   asserts   assertions that are proved once
//   tables    the libraries that keep the tables, up to the store in one hand
//   locks     the store with a lock for each table
//   threads   the libraries by which threads work together on it
mod asserts;
mod locks;
mod tables;
mod threads;
