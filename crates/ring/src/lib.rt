#![tactic(auto)]

// A bounded ring between two threads: one sends items, the other takes each, works on it and then
// acknowledges it.
//
// A slot is free again only once its item was acknowledged, so the sender knows how far the taker
// came, and an item that was taken and not acknowledged is not lost. Of a ring, since it was made or
// reopened:
//
//   - what was acknowledged is a beginning of what was sent, at most the capacity shorter;
//   - `take` gives the first item that was not acknowledged, the same again until `ack`;
//   - where both ends meet, what was acknowledged followed by what is left is what was sent;
//   - `acked` is not above what was sent, nor below what the sender had seen;
//   - `doomed` is true only if the sender doomed the taker.
//
// `specs/Ends` says what each end knows, call by call, and `Meets` brings the two together. A sender
// never waits: a full ring hands the item back. A taker waits in `wait_more` alone: it looks for some
// microseconds, and then sleeps. Only `Ring::new` can be refused. That a taker wakes is tested, and no
// clause says it.
//
// Inside, both ends step on one table of three words (items acknowledged, items sent, the doom) and
// as many slots as the ring has room for. Each step is one load or one store, never tried again.
// `specs/Flow` is the rule that holds between any two steps, of all words, slots and of what each end
// knows; `specs/Steps` is what each step tells. The counts go on over a ring's life, so that nothing
// has to be set back where it is reopened.
//
//   pair       `Ring::new`
//   sender     `Sender`, `Full`
//   taker      `Taker`
//   ends       `meet`, `Ends`
//   protocol   the table's words, its rule and its steps
//
// It stands on `atomic_table` for the steps, on `crossbeam_utils` for the taker's sleep, and on
// `model` for `OutOfMemory`.
mod ends;
mod pair;
mod protocol;
mod sender;
mod taker;

pub use ends::{Ends, meet};
pub use pair::Ring;
pub use sender::{Full, Sender};
pub use taker::Taker;
