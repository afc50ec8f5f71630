// Where a stream stands while it is read: what a program says of a run beside its report.
//
// What is promised: a run over a `Watched` source is one over the source itself. Each read is one read of the
// source, gives what that gave, and fails where that failed; at most it asks for fewer bytes. What a `Trace`
// says is no part of any contract: it goes by the same bytes as the run, and tests show it.
//
// How it works. `frame` follows the frames of the bytes that pass and keeps the front of the one that comes;
// `front` reads the ids and names there; `trace` counts frames, commits and changes, and notes in which
// transaction and at which relation the last frame is. Where it is asked to stop at frames, a read ends at a
// frame's edge, so that the run has handled each frame before the next is read: when it ends, the last frame
// that was read is the one that it ended at.
//
// It stands on `frames` for the source, and on `model` for the names of ids.
#![tactic(auto)]

mod frame;
mod front;
mod place;
mod trace;
mod watched;

pub use place::{Counts, Place, Relation};
pub use trace::Trace;
pub use watched::{Watched, Watcher};
