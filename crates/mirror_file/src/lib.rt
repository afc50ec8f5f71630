#![tactic(auto)]

// A SQLite file that has the tables of a catalog, and how far in the publisher's log it has come.
//
// The file has a table for each table of the catalog, and `pgapply_position`, a table of one row: the end
// of the last commit that it has, the texts that made its tables, by which a file of another catalog is
// told apart, and the system whose stream it follows. `open` makes them in a file that has none, or reads what is there: the rows become the start
// tables of a run. `follow` writes commits and their position.
//
// What is promised. `follow` runs the statements that commits ask for (`asked_by` of `mirror_statements`)
// in one transaction: then the committed database is the one before with these run. One that is refused
// changes nothing, and a crash leaves the database before it or the one behind it. The tables that `open`
// answers are of the catalog. That they have the file's rows no clause says, since none says what a text
// means to SQL.
//
//   opening    `open`, `Opened`: the tables and the position of a file; `note_system`
//   reading    the rows of a table
//   following  `follow`: commits are written
//   fault      `FileFault`
//
// It stands on `mirror_statements` for statements, `sql_batch` for their transaction, `catalog` and
// `change` for tables, and on the kit's `sqlite`.
mod fault;
mod following;
mod opening;
mod reading;

pub use fault::FileFault;
pub use following::follow;
pub use opening::{Opened, note_system, open};
