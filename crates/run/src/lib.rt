#![tactic(auto)]

// From a replication stream to exact tables, one transaction at a time; and what a run is, with threads
// or without.
//
// A run reads frames from a source, takes each item in stream order, and leaves the tables, the
// journal of commits, the position and why it ended. Changes of a transaction between Begin and
// Commit are applied as they come; those of a streamed transaction are kept by the session and
// applied at its Stream Commit, so commits keep the stream's order. Whatever ends a run, the work of
// open transactions is undone before it is answered: the tables are those of the commits.
//
//   stream    reads the items of a stream, and sends status updates
//   handler   what takes the items of a stream, as that loop knows it
//   applier   what each item does, where no transaction has a worker
//   outcome   what a run is given and what it leaves; the journal; the clock
//   end       why a run ended
//   advice    what an end means, and what to do about it, as text
//   printing  the report: the rows, the position and the end as text
//
// A status update goes to the sink after each commit, and after each keepalive that wants a reply
// (PostgreSQL manual: Streaming Replication Protocol, Standby status update).
//
// `specs/Run` says what a run leaves: the items that it handled are a beginning of those of the bytes,
// each lawful after those before it, up to the first cause of an end; the journal is the commits among
// them, and the tables are their surviving changes applied in commit order. `run_spooled_on` ensures it, from
// the public contracts of the layers below alone: an item leads from what the run keeps for one
// progress to what it keeps for the next (`specs/Applier`).
//
// What a caller of a run needs of the layers below stands here too: sources and sinks, the catalog, the
// tables with their keys, rows and values, and the faults that an end names.
//
// It stands on `frames` for the stream, `session` for what its messages ask for, `engine` for a store
// whose transactions come one at a time, and `catalog` for the names of tables. A run whose streamed
// transactions have workers is `leader`'s: it goes by the same loop, with a handler of its own.
mod advice;
mod applier;
mod end;
mod handler;
mod outcome;
mod printing;
mod stream;

pub use bytes::ByteStr;
pub use catalog::{Catalog, CatalogFault, TableDef};
pub use end::End;
pub use engine::{Changes, ChangesIter, Entry};
pub use frames::{Failed, FrameFault, Lsn, ReadSource, Sink, Source, WriteSink};
pub use handler::{Handler, written_with};
pub use indexes::{Seed, Tables};
pub use messages::MsgFault;
pub use model::{Change, KeptText, Key, KeyValues, OutOfMemory, Row, TableId, Value, ValueRef};
pub use outcome::{Clock, Config, Outcome, StillClock};
pub use printing::report;
pub use relcache::RelFault;
pub use rows::{RowView, Walk};
pub use savepoint::Xid;
pub use session::SessionFault;
pub use stream::{Devices, read_all, run_spooled, run_spooled_on};
