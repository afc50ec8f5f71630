#![tactic(auto)]

// Committed reads while transactions are open.
//
// A `Reader` reads a store that others work on, under the locks of the tables that it reads and then
// the journal's, and the position that they publish. It never shows what isn't committed. What it has
// seen of the store's line says what its answers are (`specs/Reads`): each is that of the commits that
// it has seen then, which begin with all that it had seen before. So no answer is older than one before
// it. `rows_at` answers by these commits too, up to the one that ends at a position of the publisher's
// log; and since each commit ends above the ones before it, that is one list of rows.
//
// That what a reader has seen is a beginning of the store's line is what the line's tokens say
// (`table_locks::Seen`): whoever takes the reader's parts back and looks learns it. A reader belongs to
// one store, by the names in its type, so its calls ask nothing of their caller.
//
// A read that is refused for its table or for memory has seen nothing more. One that finds no commit
// at its position has seen all commits of then, or it could not say so.
//
//   reader    `Reader`
//   watch     `Watch`, who reads while a run goes on
//   fault     `ReadFault`
//   taking    `TakeEntries`, who takes entries of a journal (`reader/changes` gives them); `give_behind`
//   laws      what follows of what a reader has seen
//
//   specs/Reads      what a reader knows, and what its answers tell
//   specs/Statements       the law as a statement, which `laws` promises
//   specs/ReadLemmas   one number of commits ends at a position
//
// Each read holds the locks of its tables for as long as it takes, and a reader may wait for them;
// `position` may wait for whoever publishes. It stands on `table_locks` for the store and on `origin`
// for the position.
mod fault;
pub mod laws;
mod reader;
mod taking;
mod watch;

pub use fault::ReadFault;
pub use reader::Reader;
pub use taking::{TakeEntries, give_behind};
pub use watch::Watch;
