#![tactic(auto)]

// The catalog: which tables the subscriber has, read from a TOML document.
//
// `Catalog::read` answers the tables that a text describes, or the least fault that applies to the
// text, wherever in it the faults stand. A catalog that is read is valid: no name is empty, no table
// or column stands twice, each key has columns of its table, each once, and each default is null or
// of its column's type. `Catalog::tables` hands this on, so no layer above tests it again. Beside
// that, only memory can refuse a text.
//
// What a TOML document is rests on `toml`, whose contract gives the document of a text as a value.
// From there the reader goes in three steps, and the definitions in `specs` in the same three:
//
// - `document` reads the fields of the whole document into drafts of tables. It looks at nothing but
//   which fields there are and of what kind.
// - `checks` looks for what is wrong with the drafts: each fault over all tables, before the next.
// - `definitions` makes the definitions of tables from drafts that no fault applies to.
//
// The definitions of these steps are tests and recursions, as the code is. `laws` says the rules apart
// from them, by which field is there and what stands in which place of an array: which tables a
// document describes, what is wrong with a text for each fault, and what its catalog then has.
//
// The types of the tables are those of `model`, and stand here for the layers above: `TableDef` with
// its parts, and `Value`, `Row` and `Key`, with the one order of values and of keys.
mod catalog;
mod checks;
mod definitions;
mod document;
mod draft;
mod fault;
pub mod laws;

pub use catalog::Catalog;
pub use fault::CatalogFault;
pub use model::{Column, ColumnType, Key, KeyColumns, Row, TableDef, TableId, Value};
