#![tactic(auto)]

// Statements of SQL, all of them in one transaction.
//
// A batch is a list of statements, each with the values of its parameters. It is run in one transaction
// of its own, over any store of the kit's `sqlite`: a file, or memory.
//
// What is promised. Where a batch was run, the committed database is the one before with its statements
// run, one after another (`RunInOne` in `specs/Batches.antt`). One that is refused changes nothing. A
// crash meanwhile leaves the database before it or the one behind it. What a statement's text means is
// told by `sqlite` (`Executes`): a proof computes it of a text that is written out alone.
//
// It is said where the disk is clean, as all that `sqlite` says of values. No clause says that a batch
// is not refused: a body that answers that memory was would meet these.
//
//   batch   `BoundStatement`, `run_in_one`
//
//   specs/Batches   statements that ran, in one transaction
//
// It stands on the kit's `sqlite`.
mod batch;

pub use batch::{BoundStatement, run_in_one};
