#![tactic(auto)]

// The devices of a run whose tables are kept in a file.
//
// A sink whose status updates say no more than the file has, so that nothing is confirmed to the publisher
// before it lies on the disk. A sink by which a run that goes on
// from a position says at least that position. And a source and a sink that are lent to one run after
// another.
//
// What is promised. All keep the contracts of `frames` for sinks and sources whole. `Held` tells its
// sink a status update only where it has seen that the file has come so far: that is what its private call
// `tell` asks for. Where a status update says how far the log was flushed is found
// (`updates_are_found`).
//
// How it works. A `Reached` is an `Origin` of positions that were reached. An `Arrival` publishes there,
// and a sink has a loader of it, which never knows more than was published. A sink that waits is woken
// behind each, and where the `Arrival` is dropped: then it fails, and a run ends as for any device.
//
//   reached  `Reached`, how far the file has come; `Arrival`, who tells it
//   held     `Held`, the sink that confirms no more than the file has
//   resumed  `Resumed`, the sink of a run that goes on from a position
//   update   status updates among the bytes that are sent
//   pace     `Pace`, whether a run waits for the file; `AtHand`
//   paced    `Paced`, the source that asks for an update before it waits
//   lent     `LentSource`, `LentSink`: devices that are lent to a run
//   laws     what follows of the definitions
//
//   specs/Updates   where a status update says how far the log was flushed
//   specs/Reached   how far the file has come
//   specs/Statements   the law as a statement, which `laws` promises
//
// It stands on `frames` for sources and sinks, and on `origin` for waiting.
mod held;
pub mod laws;
mod lent;
mod pace;
mod paced;
mod reached;
mod resumed;
mod update;

pub use held::Held;
pub use lent::{LentSink, LentSource};
pub use pace::{AtHand, Pace};
pub use paced::Paced;
pub use reached::{Arrival, Reached};
pub use resumed::Resumed;
