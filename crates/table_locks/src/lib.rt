#![tactic(auto)]

// A store with a lock for each table, and one for the journal.
//
// Under a table's lock lies the table's part (`table_parts`): its committed rows, and what each
// open transaction did there. Under the journal's lies what is no table's
// (`parted_store::Journal`). A call takes the locks of the tables that it needs, in the catalog's
// order, and the journal's last, holds each to its end, and hands the parts on to a call of
// `parted_store`, whose contract says: in every world that has these parts it is the step of
// `world`, and the parts of other tables stay. So two transactions that work on different tables
// never wait for one another, and of each lock no more is known than what its type keeps.
//
//   names        `StoreNames`, which tickets, lists, keys and rows belong to one store
//   commits      `TableCommit`, a commit in one table, which proofs alone know
//   table_part   `TablePart`, what lies under a table's lock
//   journal      `Journal`, what lies under the journal's
//   ticket       `Ticket`, the right to work on an open transaction
//   locks        guards of several tables, and their parts, lent and put back
//   store        `Store`
//   acting       a change is tried
//   back         a subtransaction is rolled back, or named
//   ends         a commit and an abort
//   reading      committed rows, and what was seen of the line
//   several      those of several tables, all after the same commits
//   entries      positions among the journal's entries
//   whole        the end, where all is one world again
//   meeting      what a table's part and all tickets tell of one another
//   stuck        who waits for whom, by all tickets
//   stopping     a store in which all wait is stopped
//   hidden       `wait_for_ever`, for what only a lock hides
//   made         `Made`, what a store is made of before its names are chosen
//   closing      the end of a store
//   moving       the rows of one table, moved out of tables and into them
//
//   specs/TableStates, Journals, Tickets    what the types keep
//   specs/Reading                     what a reader sees
//   specs/Starts, Closing, Moving     what a store is made of, and what is left of it
//   specs/..Lemmas                    what follows, from one call to the next
mod acting;
mod back;
mod closing;
mod commits;
mod ends;
mod entries;
mod hidden;
mod journal;
mod locks;
mod made;
mod meeting;
mod moving;
mod names;
mod reading;
mod several;
mod stopping;
mod store;
mod stuck;
mod table_part;
mod ticket;
mod truncating;
mod whole;

pub use commits::TableCommit;
pub use engine::Entry;
pub use journal::Journal;
pub use made::Made;
pub use names::StoreNames;
pub use parted_store::{Line, Seen};
pub use store::Store;
pub use table_part::TablePart;
pub use ticket::Ticket;
pub use whole::Found;
