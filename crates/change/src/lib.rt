#![tactic(auto)]

// What a change does to the tables, and what takes it back.
//
// `apply` does a change, or refuses it and leaves the tables as they were. Which of the two, and
// why, is the word of `model`'s definitions, which look through all rows: a change is done with its
// edits, skipped because no row stands at its key, or it clashes, with a null in the primary key or
// in the least key in which its row agrees with another. Want of memory may stand in place of any
// answer, and then too the tables are as they were.
//
// A change that was done comes with its inverse: what stood where it altered the tables. `put_back`
// puts that back. It takes no memory and succeeds, wherever the tables are still as the change left
// them at those places and will be valid again; changes at other places may have come in between.
// Rows and every unique look-up are then as before the change.
//
// Inside, each step asks `indexes`: the key and the unique values are looked up before anything is
// altered, and what the inverse keeps is copied first, so the one step that alters comes last. An
// inverse keeps the row that went, as it was handed out; a wipe moves whole tables out, and no row
// is copied.
//
// Where transactions share live tables, `footprint` tells the cells that a change looks up or alters,
// to be held before it is made, and `any_cell` whether one of them passes a test: it reads each where
// it lies, and takes no memory.
//
//   footprint    the cells that a change looks up or alters
//   search       `any_cell`: whether one of them passes a test
//   cell_ref     `CellRef`: a cell that is read in place, and its order
//   reading      `PatchedRow`: a row as a patch leaves it, read in place
//   outcome      `apply`, its answers, and the four changes
//   inverse      `Inverse`, `put_back` and `turn_back`
//   laying       what stood before a change, laid under what is known of a table
pub mod cell_ref;
pub mod footprint;
pub mod inverse;
mod laying;
pub mod outcome;
pub mod reading;
pub mod search;

pub use cell_ref::{CellRef, KeyRef};
pub use inverse::{Inverse, MovedKeys, Wiped, put_back, turn_back};
pub use model::{Change, ColumnPatch, Patch, TableIds};
pub use outcome::{Applied, Clash, apply};
pub use reading::PatchedRow;
pub use search::{CellTest, any_cell};
