#![tactic(auto)]

// The types that the definitions speak of, and the definitions over them.
//
// A subscriber keeps tables of rows, and a change alters them. This crate says what these are: a
// value, a row, a key, the definition of a table, a change, a cell, an item of a transaction; and in
// `specs/` which rows a change leaves, what it is refused for, what takes it back, and which items
// of a transaction survive its rollbacks. It has no input, no clock and no
// thread. Each layer above cites its words, so that "the tables" means the same in each of them:
//
//   specs/Types          each type of columns: how a value is read and printed
//   specs/Value, Key     the order of values and of keys
//   specs/ValueRef       a value as it is read
//   specs/Packed         how columns lie in one block of memory
//   specs/Patch          what an update does to each column
//   specs/Definition     what a table's definition says
//   specs/Rows           all rows of all tables as one finite map; valid rows
//   specs/Effect         what a change does, and what takes it back
//   specs/Cells          cells, and those that a row fills
//   specs/Hashing        hashes of values and of cells
//   specs/HasherInput    what a hasher is fed of a key
//   specs/Footprint      the cells that a change looks up or alters
//   specs/CellContents   when two states of the rows have the same in a cell
//   specs/Survivors      the items of a transaction that survive its rollbacks
//
// The laws of these words are lemmas of `specs/` too, where the layers above can cite them:
//
//   specs/ExactLemmas          values, keys and places that tie are equal
//   specs/EditLemmas       what stands at a place after edits; what stood, put back, restores
//   specs/TakenLemmas      values are taken exactly where a row has them
//   specs/ValidLemmas      what keeps rows valid
//   specs/EffectLemmas     the effects and inverses of the four changes
//   specs/FrameLemmas      a change leaves each cell outside its footprint
//   specs/AlikeLemmas      where rows are the same in its footprint, it does the same
//   specs/SerialLemmas     lists of changes that share no cell come in any order
//   specs/SurvivorLemmas   what one more item does to the changes that survive
//   specs/Statements, CellStatements   the main ones as statements, which `laws`, `cell_laws` promise
pub mod cell;
pub mod cell_laws;
pub mod change;
pub(crate) mod columns;
pub mod hashing;
pub mod item;
pub mod key;
pub mod laws;
pub mod memory;
pub(crate) mod packed;
pub mod patch;
pub mod row;
pub mod table_def;
pub mod types;
pub mod value;
pub mod value_ref;

pub use cell::Cell;
pub use change::{Change, TableIds};
pub use item::{CommitInfo, Item, Lsn, MOST_OPEN, Xid};
pub use key::{Key, KeyValues};
pub use memory::OutOfMemory;
pub use patch::{ColumnPatch, ColumnPatchRef, Patch, PatchBuilder};
pub use row::{Row, RowBuilder};
pub use table_def::{Column, ColumnType, KeyColumns, TableDef};
pub use types::text::KeptText;
pub use value::Value;
pub use value_ref::ValueRef;

/// A table's place in the catalog, from 0.
pub type TableId = usize;
