// The files, and what each tests or gives the others.
//
//   table     two tables, and changes of them
//   stage     a store of these with its line, by calls that end the process where they fail
//   calls     each call of the store, on one thread
//   worked    worked calls of two open transactions
//   threads   a lock that is held, commits that are watched, a wait for a move
mod calls;
mod stage;
mod table;
mod threads;
mod worked;
