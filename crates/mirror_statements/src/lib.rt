#![tactic(auto)]

// The statements of SQL by which a file follows commits.
//
// A file that follows a stream has a table for each table of the catalog, and a table of one row for its
// position. For each table there is one text to insert a row, one to update the row at a key, one to
// delete it and one to delete all. A change of the journal is one of these texts with its values; commits
// are the statements of their changes, and then one that sets the position to the end of the last.
//
// What is promised. `batch_of` answers the statements that a definition says (`asked_by` in
// `specs/Asked.antt`). What a text means to SQL no clause says: the texts are made of a catalog at run
// time. Tests hold them against tables.
//
//   commit      `Commit`, a commit that is to be followed
//   values      values as SQL has them
//   batch       `batch_of`, the statements of commits
//   texts       the texts for a table
//   refused     `Refused`, why statements aren't made
//
//   specs/Asked   the statements that commits ask for
//
// It stands on `model` for changes, `world` for commits, and `sql_batch` and the kit's `sqlite`.
mod batch;
mod commit;
mod refused;
mod texts;
mod values;

pub use batch::{FileStatements, TableStatements, batch_of};
pub use commit::Commit;
pub use refused::Refused;
pub use texts::TableTexts;
