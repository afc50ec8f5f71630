#![tactic(auto)]

// The log that takes a transaction's changes back.
//
// Each change that was done has its inverse. The log keeps them, oldest first. `undo_to` puts those
// since a mark back, the newest first: the tables are then as at the mark. It takes no memory and
// succeeds, so room for an inverse is made by `reserve` before its change is tried, and what the
// tables need to take a row back they kept from the change itself.
//
// Others may have changed the tables at other places in between, and those changes stay: what the
// caller owes is only that each inverse can be put back once those after it are. A change that was
// just applied keeps that so, as `laws` says.
//
// Once a transaction has committed, `settle` gives up what the undo would have needed: the empty
// slots of the keys that it left.
//
//   log      `UndoLog`
//   laws     what its callers rest on
pub mod laws;
pub mod log;

pub use log::UndoLog;
