#![tactic(auto)]

// A store: several open transactions on one live set of tables, and the journal of those that were
// committed.
//
// A `Store` has the live tables with the work of all open transactions (`live_tables`), and the journal,
// whose entries keep what stood before them. A clause sees the world that it stands for (`world`), and each
// call is a step of that world. Who opens a transaction gets its `Ticket`, and who opens and ends them has the
// `Line`: what they list is known by proofs alone, and a call that has one of them shows that it is
// the store's own list (`tokens`). So whoever gives the store back and takes it again still knows
// what its transaction has done.
//
// Where one hand has the store and its line, and transactions come one at a time (`serial`), no cell is
// held and no ticket made: a commit is what the calls of a store come to.
//
//   store               `Store`: each call with its ticket or line
//   serial              `SerialStore`: a store whose transactions come one at a time
//   open_work           the tables with the open work of such a store, and what takes it back
//   shut                the end of a store in which transactions are still open
//   as_part             what a store is asked beside that is a part of another
//   tickets, events     `Ticket`, `Line`, `Seen`, and what they list
//   entry               a committed transaction as the journal has it
//   rows_after          what stood in a table before entries of the journal
//
//   specs/Engine, EngineCode      a store as its callers see it; what its type keeps
//   specs/ShutLemmas                a store that is given up while transactions are open
//   specs/Serial, SerialInside, SerialLemmas    a store whose transactions come one at a time
//   specs/OpenWork                  its open work
//   specs/FirstClash, FirstClashLemmas        changes one after another, and the first that clashes
//   specs/Events, EventLemmas       the world that tickets and line tell
//   specs/StoreLemmas               what the type keeps, once a call has altered the parts
//   specs/EntryLemmas               what entries keep, put back
//   specs/KnownLemmas               what is known of a table's rows
//
// It stands on `live_tables` for the tables and the open transactions, on `world` for the definitions, on
// `change`, `undo` and `indexes` for a store of one transaction at a time, and on `tokens`.
mod as_part;
mod entry;
mod events;
mod open_work;
mod rows_after;
mod serial;
mod shut;
mod store;
mod tickets;

pub use entry::{Changes, ChangesIter, Entry};
pub use events::{Event, LineEvent};
pub use live_tables::{Acted, EngineFault, NotSettled, Stop, Verdict};
pub use serial::SerialStore;
pub use store::{Store, stop_of};
pub use tickets::{Line, Seen, Ticket};
