#![tactic(auto)]

// A run whose commits are kept elsewhere as they come.
//
// The run is `leader`'s, with workers and one watcher, a `CommitWriter`, which hands each commit to where
// it is kept. The run begins with the tables and the position of what was kept before. Its status updates
// say at least that position, and no more than was kept.
//
// What is promised: the run is one of its catalog from its start tables (`IsSomeRun` of `mirror_laws`, whose
// law says what runs leave one behind another); and unless keeping stopped, just its commits were kept.
//
//   round   `run_round`, a run whose commits are kept; `run_round_on`, by what is lent
//   lent    what is lent to a run
//
// It stands on `leader` for runs, `mirror_writer` for the watcher, and `mirror_devices` for the sinks.
mod lent;
mod round;

pub use mirror_writer::{Between, CommitWriter, FileKeep, Keep, Keeping, LineKeep, Nothing, Stop};
pub use round::{Progress, Round, Setting, run_round, run_round_on};
