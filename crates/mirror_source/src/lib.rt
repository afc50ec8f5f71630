#![tactic(auto)]

// A stream as a file follows it: without the transactions that the file has already, and in epochs.
//
// A stream that is read again begins before the position of the file that followed it. `Epochs` is a
// source that leaves out each transaction that committed before that position, and what the relations and
// types in it tell goes on outside of it. That a transaction between Begin and Commit is one of these, its
// Begin says; of a streamed one its commit alone, which comes last: so the stream is scanned first
// (`find_applied`), where it can be read twice.
//
// An epoch ends behind so many commits or bytes, where no transaction is open. The next one begins with
// the relations that were told until there, so a run over it knows them: a publisher tells each but once.
//
// What is promised: `Epochs` is a source, with the contract of `frames`; each call is safe and returns.
// Which messages are left out, and where an epoch ends, no clause says.
//
//   epochs    `Epochs`, the source; `Limits`, `Cut`
//   applied   `Applied`, what of a stream a file has already
//   edges     what is open where a stream has come to, and the relations that it told
//   notice    whose stream it is
//   scan      `find_applied`, the streamed transactions that a file has
//   frame     a frame, and the message in it
//
// It stands on `frames` for sources.
mod applied;
mod edges;
mod epochs;
mod frame;
mod notice;
mod scan;

pub use applied::Applied;
pub use epochs::{Cut, Epochs, Limits};
pub use scan::find_applied;
