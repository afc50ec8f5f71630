#![tactic(auto)]

// The part of a table in a store whose tables lie apart.
//
// A part is a store of its own, in which only one table is ever written to: it has the committed rows of
// its table, and of each open transaction what it did there. What a call is in the part it is in every
// world of which that is a part, and the parts of other tables stay: by the laws of `world_parts`. So
// whoever has the parts that a call needs can make it, whatever others do meanwhile in other tables.
//
// No table can be told of a savepoint that is set while another table is worked on. So a change comes
// under the latest mark of its transaction, in place of its own subtransaction, and a rollback goes back
// to the first of the part's marks that it drops.
//
//   part      `Part`, and its calls
//   several   what it is asked where a change is one of several tables
//   entries   positions among its entries
//
// It stands on `engine` for a store, and on `world_parts` for the laws of parts.
mod entries;
pub mod part;
mod several;

pub use part::Part;
pub use several::{Attempt, Attempted};
