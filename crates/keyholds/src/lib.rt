#![tactic(auto)]

// What open transactions hold, so that no two of them change what the other reads.
//
// A change looks up and alters cells: the rows at some keys, the values of some unique keys, whole
// tables. Its transaction holds them, absent ones too, until it ends or is rolled back to a
// savepoint before the change. Two cells overlap if they are equal or one is the whole of the
// other's table (`model`, specs/Cells), and no two transactions hold cells that overlap: before a
// transaction takes cells, `free_for` says which other one is in its way, and the type of `Holds`
// keeps that none is.
//
// Callers see, of each transaction, the list of what it holds: each cell once, in the order in
// which it was first held, with what the caller says stood there then. So a mark is a number, how
// many cells are held, and a release to it leaves just those held before it. The cells past a mark
// may also go one by one, from the last to the first, and each is given back to the caller.
//
// Each cell that is held lies in a map of hashes with the transaction that holds it and its address
// in that transaction's list, so a cell is looked up by a few reads, and so is the table that it lies
// in as a whole; until a table was held as a whole, none is looked for. A second map counts the cells
// that each transaction holds in each table: who stands before and who behind one that asks for a
// table as a whole. To let go takes a look-up for each cell that goes, and none where nobody else
// holds anything. Room is made when a cell is taken: no other call takes memory but `keys_held`, which
// makes a list of the keys at which places of a table are held.
//
//   counts      how many cells each transaction holds in each table
//   hashed      cells with their hashes
//   address     what is kept of where each cell stands
//   addresses   where each cell that is held stands, and who holds one that overlaps
//   sought      what stands for a cell that is looked for, so that nobody has to make one
//   holds       `Holds`
//   laws        what is held once cells are taken: as a set, from the front, and apart from others
//
// It stands on `model` for cells and their overlap.
mod address;
mod addresses;
mod counts;
mod hashed;
mod holds;
pub mod laws;
mod sought;

pub use holds::Holds;
pub use model::{Cell, Xid};
pub use sought::{SoughtCell, SoughtRow};
