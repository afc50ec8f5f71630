#![tactic(auto)]

// A worker: it applies one transaction while its items come.
//
// It is given a `Job`, the ticket of an open transaction and the end of a worker's ring from which the
// transaction's items come. It does each item in the store and then acknowledges it. The type of a
// job keeps that what the transaction has done are the items acknowledged, in order, and that a
// change of it that waits or clashed is the first item after them. So when the job comes back and
// both ends of the ring meet, the items done and those left are the items sent.
//
// `work` holds no lock of the store between calls, and does so many items before it comes back that
//
//   - the transaction's commit was read: `Last`, which is no item of it and is not acknowledged;
//   - or it is told to give up, by the ring's doom;
//   - or the store is stopped, by a clash of this very transaction or by others;
//   - or memory is refused for an item.
//
// It says which, and the job shows it. An item that was not done stays the one taken.
//
// A worker waits for its next item, for a cell that another transaction holds, for a lock of the
// store in a call, and where its gate holds it: who wakes it stands in docs/architecture.md, with the
// order of the locks. A wake that comes early is kept: a ring keeps it, and the store counts its
// moves. Each release of holds, each stop and each doom counts one under the journal's lock and wakes
// all that wait for one, and a worker reads the count before it looks for a doom and tries its change
// again. An ordinary item lets no cell go, so it counts none. A worker that goes to wait tells its
// gate first, so that the leader of a run can look whether all wait.
//
//   job        `Job`
//   item       `WorkItem`, what goes through the ring
//   gate       `Gate`, who is told how far a worker came
//   progress   `work`, `work_on`
//   tries      one item in the store
//   ended      why a worker came back
//   outbox     `Outbox`, where the leader gives the items of a worker's transaction
//   hidden     `wait_for_ever`, for what only a lock hides
//   names      `RingNames`, which rings, and `OutboxNames`, which lists; with the store's names they
//              stand in the types of all of these
//
// `specs/Working` says what a job knows and what work makes of it, `specs/WorkingLemmas` what follows of
// its items and events; `specs/Outbox` says what is known of an outbox. It stands on `table_locks` for
// the store, on `ring` for the items, on `tokens` for what the leader knows of an outbox, and on
// `model`.
mod ended;
mod gate;
mod hidden;
mod item;
mod job;
mod names;
mod outbox;
mod progress;
mod tries;

pub use ended::Ended;
pub use gate::{Gate, Point};
pub use hidden::wait_for_ever;
pub use item::WorkItem;
pub use job::Job;
pub use names::{OutboxNames, RingNames};
pub use outbox::{Collected, Outbox, OutboxEvent, lock_outbox};
pub use progress::{work, work_on};
