#![tactic(auto)]

// A SQLite file: opened, closed, and a copy of it put in a place.
//
// A `SqliteFile` is the kit's connection over a file of the system. While it is open nobody else can read
// the file: the kit holds its lock. So whoever wants readers makes copies: `copy_file` takes the file and
// its log as they are between two transactions, brings the log into the copy, and puts the copy in its
// place by a rename. A reader sees the old copy or the new one.
//
// What is promised: each call is safe. Which bytes a file has is the system's to say.
//
//   file   `SqliteFile`
//   copy   `copy_file`, `CopyFault`
//
// It stands on the kit's `sqlite`, whose connection to a file is costly to prove about: this crate alone
// has one by value.
mod copy;
mod file;

pub use copy::{CopyFault, copy_file};
pub use file::SqliteFile;
