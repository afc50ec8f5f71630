#![tactic(auto)]

// The rows of one table, by primary key.
//
// A row lies in a slot. Taking the row leaves the slot, empty, until `settle` of its key, so what
// was taken can be put back without memory: the step that may be refused, making the slot, was
// done before. That is what lets a rollback always succeed.
//
// A store is seen as two finite maps: `rows`, from keys to the rows that stand there, and `slots`,
// from each key that has a slot, filled or empty, to the slot's number. A slot keeps its number
// for as long as it is there, and no two have the same, so an index can name a row by a plain
// number, and needs no memory to do so.
//
//   store      the trait `RowStore`: what an index asks of a store, whichever way rows are kept
//   ordered    `OrderedRows`, the first form: an ordered map
//   hashed     `HashedRows`, the second form: slots that are found by a hash of the key, beside the
//              keys in key order; tables use it
//   key_order  `KeyOrder`, the keys in key order: a run of those that came in order, beside a tree
//   view       a row of a store, as it is read: column by column
//   walk       `Walk`: the rows one after another
pub mod hashed;
mod key_order;
pub mod ordered;
pub mod store;
pub mod view;
pub mod walk;

pub use hashed::HashedRows;
pub use ordered::OrderedRows;
pub use store::{RowStore, SlotNumber};
pub use view::RowView;
pub use walk::Walk;
