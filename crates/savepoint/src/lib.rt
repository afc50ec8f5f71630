#![tactic(auto)]

// What an open transaction has done, and what a rollback to a savepoint leaves of it.
//
// A streamed transaction is a list of items: changes, relation and type messages that only name a
// subtransaction, and rollbacks of subtransactions. The first item that names a subtransaction sets
// its savepoint, and the rollback of a subtransaction drops its items and all later ones, so the
// items that survive are a cut of the list (PostgreSQL manual: Logical Replication Message Formats,
// Stream Abort; SAVEPOINT, ROLLBACK TO SAVEPOINT). `model`'s `specs/Survivors` says which they are, by
// the list alone.
//
// The code keeps a mark at each savepoint and cuts back to it. `Savepoints` is that list of marks,
// for any kind of mark: to find one costs a look-up, and a cut the marks that it drops, so neither
// grows with the transaction. `specs/Savepoints` says which savepoints items set, and
// `proofs/Cutting` that they are one with the definition: the mark of a subtransaction stands where
// its first item stands, and a cut to it leaves the items before that one and their savepoints. Its
// lemmas are for whoever keeps items or their effects beside the marks.
//
// `TxRecord` is what an open transaction keeps: the items that survive, the mark of each savepoint,
// and the undo log of its changes. Its `cut` leaves the survivors of the definition, and `roll_back`
// undoes the changes that it drops as well. Room for an item and its inverse is made before the
// change is tried, and for a mark when it is set, so a rollback takes no memory.
//
//   mark         `Mark`: what stood before a savepoint
//   savepoints   `Savepoints`: marks in the order in which they were set, found by subtransaction
//   record       `TxRecord`
//
// It stands on `undo` for the log, and on `model` for the items and which of them survive.
mod mark;
mod record;
mod savepoints;

pub use mark::Mark;
pub use model::{CommitInfo, Item, Lsn, Xid};
pub use record::TxRecord;
pub use savepoints::Savepoints;
