#![tactic(auto)]

// Commits as lines of JSON, for whoever feeds a search index or a queue by them.
//
// `JsonLines` has a copy of the tables and follows a stream's commits on it, since an update names only the
// columns that it writes. What a change did is told by what takes it back, `change`'s inverse: the key of
// the row that it met, and where the row stands now. So a change that met no row has no line, and the row
// of a line is read from the tables behind its change.
//
// What is promised. The rows are those behind the changes so far. Whole lines are appended, each the
// tokens of JSON as the kit's `json` prints them, and a line feed. A batch that is refused appends nothing,
// and leaves the rows: its changes are logged as those of an open transaction are, and taken back. Once it
// is done the log is settled, so that no slot of a row stays that is gone. What a line says no clause says.
//
//   json_lines  `JsonLines`: the changes of commits are made
//   done        the lines of a change that was made
//   deed        what it did, as its inverse tells it
//   line        what a line says, in JSON
//   fault       `JsonFault`
//
//   specs/Followed, Lines   rows behind commits, lines behind bytes
//
// It stands on `undo` and `indexes` for the tables, `mirror_statements` for commits, `catalog` for names,
// and on the kit's `json`.
mod deed;
mod done;
mod fault;
mod json_lines;
mod line;

pub use fault::JsonFault;
pub use json_lines::JsonLines;
