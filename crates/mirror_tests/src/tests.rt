// The files, and what each tests or gives the others.
//
//   files          SQLite files in memory, and what they show
//   rounds         runs that are kept, one epoch after another
//   following      files behind streams that are cut, and in epochs of each size
//   failing        logs that fail: files that are opened again, and what was confirmed
//   folder         what is left of a file, as files of the system
//   lines          lines of JSON, and writes of them that fail
mod failing;
mod files;
mod folder;
mod following;
mod lines;
mod rounds;
