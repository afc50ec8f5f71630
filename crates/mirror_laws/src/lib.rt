#![tactic(auto)]

// What runs leave that go on one behind another, each from the tables of the one before.
//
// A mirror ends its run now and then, so that its journal doesn't grow, and begins the next from the
// tables that the file has. It is the same as one run: this is a law of what a run promises (`RunsBy` of
// `leader`), however many workers and watchers each run has, and whatever ended it.
//
//   laws               the law as a contract, which the check of this crate proves
//   specs/Statements   the law as a statement
//
// It has no code but the law. It stands on `leader` and `run` for runs.
pub mod laws;
