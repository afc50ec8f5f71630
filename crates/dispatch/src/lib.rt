#![tactic(auto)]

// The open transactions of a run whose streamed transactions have workers: which worker has which, and
// what was given to it.
//
// A streamed transaction goes by a worker: the leader gives its items to the worker's outbox, and the
// worker does them. What comes between Begin and Commit, and what was spooled, the leader applies
// itself. It alone opens, commits and aborts, and it commits only what has done all that was given to
// it. Before it waits it announces that, and then looks at all that may have moved: whether the store
// was stopped, whether nothing more can come, and whether memory was refused to a worker.
//
//   transactions   which are open and where, with the store
//   handle         the leader's side of a worker
//   slot           where a ticket lies that came back
//   shared         what leader and workers share: the store, what wakes the leader, each worker's part
//   ends           the ends that a store gives
//   parts          what workers are made of, before and after they have names
//   positions      the position that is published behind each commit
//
// `specs/Handle` says what a leader knows of a worker, `specs/Standing` what is there of each transaction
// and what each call makes of it, `specs/Parts` what a worker is made of.
//
// It stands on `table_locks`' store, on `worker`, `ring` and `tokens` for a worker, `worker_threads` for
// mailboxes, `origin` for the position, and `run` for the ends of a run.
mod ends;
mod handle;
mod parts;
mod positions;
mod shared;
mod slot;
mod transactions;

pub use handle::WorkerHandle;
pub use parts::{LeaderEnds, Parts, WorkerPool, make_handles, make_parts};
pub use positions::{Positions, RunNames};
pub use shared::{OpenGate, Shared, WorkerShared};
pub use slot::Slot;
pub use transactions::{Left, Transactions};
