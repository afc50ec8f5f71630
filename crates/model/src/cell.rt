// What a change may look up or alter, as small as two transactions can share.
ghost use Rattle.std.specs.Prelude.{◌≡◌, IfOk};
ghost use Rattle.model.specs.Cells.{table_of};
ghost use Rattle.model.specs.Hashing.{hash_cell};

use crate::TableId;
use crate::hashing::{hash_key, hash_natural};
use crate::key::Key;
use crate::memory::OutOfMemory;

/// A place in the tables that a transaction can hold, whether a row is there or not.
///
/// Rows come before values of unique keys, and those before whole tables; then the fields decide.
#[derive(PartialEq, Eq, PartialOrd, Ord, Debug, Drop)]
pub enum Cell {
    /// The row at a primary key.
    Row(TableId, Key),
    /// The values of a unique key, by the key's number from 1.
    Uniq(TableId, usize, Key),
    /// A whole table.
    Whole(TableId),
}

impl Cell {
    /// The table that it lies in.
    pub fn table(&self) -> TableId
        ensures { result ≡ table_of self.now }
    {
        match self {
            Cell::Row(table, _) | Cell::Uniq(table, _, _) | Cell::Whole(table) => *table,
        }
    }

    /// Its hash: of its values, its table and the number of its unique key. Equal cells have one.
    pub fn hash(&self) -> u64
        ensures { result ≡ hash_cell self.now }
    {
        match self {
            Cell::Row(table, key) => hash_natural(hash_key(key), *table as u64),
            Cell::Uniq(table, number, values) => {
                let hash = hash_natural(hash_key(values), *table as u64);
                hash_natural(hash, *number as u64)
            }
            Cell::Whole(table) => hash_natural(0, *table as u64),
        }
    }

    /// An equal cell. The values of its key are shared, and not copied.
    pub fn copy(&self) -> Result<Cell, OutOfMemory>
        ensures { IfOk result (λ c. c ≡ self.now) }
    {
        match self {
            Cell::Row(table, key) => Ok(Cell::Row(*table, key.copy()?)),
            Cell::Uniq(table, number, values) => Ok(Cell::Uniq(*table, *number, values.copy()?)),
            Cell::Whole(table) => Ok(Cell::Whole(*table)),
        }
    }
}
