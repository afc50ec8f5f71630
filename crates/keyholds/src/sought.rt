// What is looked for among the cells that are held.
ghost use Rattle.std.specs.Prelude.{◌≡◌};
ghost use Rattle.model.specs.declared.cell.Cell.{Cell as AnyCell};
ghost use Rattle.model.specs.Cells.{table_of};
ghost use Rattle.model.specs.CellOrder.{cell_cmp};
ghost use Rattle.model.specs.Hashing.{hash_cell};

use model::hashing::{hash_key, hash_natural};
use model::{Cell, Key, TableId};
use std::cmp::Ordering;

/// What stands for a cell and need not be one: its values may lie in a row, so that nobody has to
/// make a key of them.
pub trait SoughtCell {
    // The cell that it stands for.
    ghost cell: { Self → AnyCell };

    /// The table that the cell lies in.
    fn table(&self) -> TableId
        ensures { result ≡ table_of (cell self.now) };

    /// The order of the cell and another. It takes no memory.
    fn compare(&self, other: &Cell) -> Ordering
        ensures { result ≡ cell_cmp (cell self.now) other.now };

    /// The hash of the cell. It takes no memory.
    fn hash(&self) -> u64
        ensures { result ≡ hash_cell (cell self.now) };
}

impl SoughtCell for Cell {
    ghost cell = { λ c. c };

    fn table(&self) -> TableId {
        Cell::table(self)
    }

    fn compare(&self, other: &Cell) -> Ordering {
        self.cmp(other)
    }

    fn hash(&self) -> u64 {
        Cell::hash(self)
    }
}

/// The row at a primary key that somebody else has.
#[derive(Clone, Copy, Debug)]
pub struct SoughtRow<'a> {
    /// Its table.
    pub table: TableId,
    /// Its key.
    pub key: &'a Key,
}

impl<'a> SoughtCell for SoughtRow<'a> {
    ghost use Rattle.model.specs.declared.cell.Cell.TheVariants.{Row};

    ghost cell = { λ s. Row s.table s.key.now };

    fn table(&self) -> TableId {
        self.table
    }

    fn compare(&self, other: &Cell) -> Ordering {
        match other {
            Cell::Row(table, key) => match self.table.cmp(table) {
                Ordering::Equal => self.key.cmp(key),
                differ => differ,
            },
            Cell::Uniq(_, _, _) | Cell::Whole(_) => Ordering::Less,
        }
    }

    fn hash(&self) -> u64 {
        hash_natural(hash_key(self.key), self.table as u64)
    }
}
