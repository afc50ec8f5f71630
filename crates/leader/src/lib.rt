#![tactic(auto)]

// A run whose streamed transactions have workers.
//
// A leader takes each item of the stream and never waits for a worker but at its commit, its abort and
// the end of the run; a worker waits for nobody but those that hold a cell, and for its items. Who
// waits for whom, who wakes it, and in which order locks are taken: docs/architecture.md.
//
// Before the leader waits it announces that, and looks at all that may have moved. It looks too whether
// the store was stopped, whether nothing more can come, and whether memory was refused to a worker, whose
// transaction keeps what it holds: each ends the run.
//
// Those who watch a run read what is committed, each in a thread of its own, and the position that the
// leader publishes behind each commit. Nobody waits for them but the end of their threads.
//
//   lead           what each item of the stream does, with the session
//   ending         the end of a run, decided, and what is open undone, once all workers have given up
//   watching       those who watch a run
//   chief          a leader beside its workers and those who watch it, as a value
//   threads        the run
//
// It stands on `dispatch` for which transaction is open and where, `run` for the loop over a stream and
// the ends of a run, `run_laws` for what a run with workers is, `session` for what messages ask for,
// `table_locks` for the store, `worker_threads` for threads, and `snapshot` and `origin` for those who
// watch. All that a caller of a run needs stands here, as in `run`.
mod chief;
mod ending;
mod lead;
mod threads;
mod watching;

pub use dispatch::OpenGate;
pub use origin::Position;
pub use run::{
    ByteStr, Catalog, CatalogFault, Change, Changes, ChangesIter, Clock, Config, Devices, End,
    Entry, Failed, FrameFault, KeptText, Key, KeyValues, Lsn, MsgFault, OutOfMemory, Outcome,
    ReadSource, RelFault, Row, RowView, Seed, SessionFault, Sink, Source, StillClock, TableDef,
    TableId, Tables, Value, ValueRef, Walk, WriteSink, Xid, report, run_spooled, run_spooled_on,
};
pub use snapshot::{ReadFault, Reader, TakeEntries, Watch};
pub use table_locks::StoreNames;
pub use threads::{open_gates, run, run_on};
pub use watching::NoWatch;
pub use worker::{Gate, Point};
