#![tactic(auto)]

// Tables: rows with a primary key and unique keys.
//
// All tables are seen as one finite map from (table, primary key) to row, with the columns of each
// table's keys. The type keeps it valid: each row stands at its own key, which holds no null, and
// no two rows of a table have the same values in a unique key, nulls aside.
//
// Inside, each table is a store of rows and one map of hashes for each unique key, from its values
// to the number of the row's slot. So a unique value is looked up, and never searched for, and an
// entry is written without memory. What the hashes begin with is a seed that a caller may choose. A
// slot and an entry outlive their row, empty, until `settle` gives up a row's, or `release` that of
// one cell: the tables have `room` for what was there, and each change has a restoring form that needs
// room alone, takes no memory and succeeds. `wipe` moves a table's whole content out, and `unwipe`
// moves it back; no row is copied. A table is made when it is first written to: until then, and once
// it was emptied, it reads as an empty one that copies of the tables share.
//
//   tables       `Tables`, all of a catalog
//   lazy         one of them, made or not; `Contents`, what was moved out of one
//   table        `Table`, one that is made
//   unique       the index of a unique key
//   refused      why a row does not come into its table
//   kept_values  what an entry of an index keeps: a row, in which its values lie
//   sought       what an index is asked for: values as they lie in a row
//   seed         what the hashes of indexes begin with
//   columns      a row's values in the columns of a key, of any row that is read in place
pub mod columns;
mod kept_values;
mod lazy;
mod refused;
pub mod seed;
mod sought;
pub mod table;
pub mod tables;
mod unique;

pub use lazy::Contents;
pub use refused::Refused;
pub use seed::Seed;
pub use table::Table;
pub use tables::Tables;
