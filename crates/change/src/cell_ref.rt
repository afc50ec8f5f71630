// A cell that is read in place, and its order among those that are kept.
ghost use Rattle.std.specs.Prelude.{◌≡◌};
ghost use Rattle.model.specs.Key.{key_cmp};
ghost use Rattle.model.specs.Cells.{overlaps, table_of};
ghost use Rattle.model.specs.CellOrder.{cell_cmp};
ghost use Rattle.model.specs.Hashing.{hash_of, hash_cell};
ghost use Rattle.change.specs.Reading.{cell_read, values_read};

use crate::reading::{PatchedRow, hash_values};
use indexes::columns::compare_key;
use model::hashing::{hash_key, hash_natural};
use model::{Cell, Key, TableId};
use std::cmp::Ordering;
use std::collections::btree_map::Comparable;

/// The values of a key, read in place.
#[derive(Clone, Copy, Debug)]
pub enum KeyRef<'a> {
    /// A key's own.
    Key(&'a Key),
    /// Those that a row has in these columns.
    Columns(&'a [usize], PatchedRow<'a>),
}

/// A cell, read in place: what a search among kept cells can be asked for without memory.
#[derive(Clone, Copy, Debug)]
pub enum CellRef<'a> {
    /// The row at a primary key.
    Row(TableId, KeyRef<'a>),
    /// The values of a unique key, by the key's number from 1.
    Uniq(TableId, usize, KeyRef<'a>),
    /// A whole table.
    Whole(TableId),
}

impl<'a> KeyRef<'a> {
    /// The order of these values and a key. It takes no memory.
    pub fn order(self, key: &Key) -> Ordering
        ensures { result ≡ key_cmp (values_read self.entry) key.now }
    {
        match self {
            KeyRef::Key(own) => own.cmp(key),
            KeyRef::Columns(columns, row) => compare_key(columns, &row, key),
        }
    }

    // The hash of these values.
    fn hash(self) -> u64
        ensures { result ≡ hash_of (values_read self.entry) }
    {
        match self {
            KeyRef::Key(own) => hash_key(own),
            KeyRef::Columns(columns, row) => hash_values(columns, row),
        }
    }
}

impl<'a> CellRef<'a> {
    /// The table that it lies in.
    pub fn table(self) -> TableId
        ensures { result ≡ table_of (cell_read self.entry) }
    {
        match self {
            CellRef::Row(table, _) | CellRef::Uniq(table, _, _) | CellRef::Whole(table) => table,
        }
    }

    /// Its hash, which is that of an equal cell that is kept. It takes no memory.
    pub fn hash(self) -> u64
        ensures { result ≡ hash_cell (cell_read self.entry) }
    {
        match self {
            CellRef::Row(table, key) => hash_natural(key.hash(), table as u64),
            CellRef::Uniq(table, number, values) => {
                let hash = hash_natural(values.hash(), table as u64);
                hash_natural(hash, number as u64)
            }
            CellRef::Whole(table) => hash_natural(0, table as u64),
        }
    }

    /// The order of this cell and one that is kept. It takes no memory.
    pub fn order(self, cell: &Cell) -> Ordering
        ensures { result ≡ cell_cmp (cell_read self.entry) cell.now }
    {
        match (self, cell) {
            (CellRef::Row(table, own), Cell::Row(other, key)) => match table.cmp(other) {
                Ordering::Equal => own.order(key),
                differ => differ,
            },
            (CellRef::Uniq(table, i, own), Cell::Uniq(other, j, values)) => {
                match (table, i).cmp(&(*other, *j)) {
                    Ordering::Equal => own.order(values),
                    differ => differ,
                }
            }
            (CellRef::Whole(table), Cell::Whole(other)) => table.cmp(other),
            (CellRef::Row(_, _), _) | (CellRef::Uniq(_, _, _), Cell::Whole(_)) => Ordering::Less,
            (CellRef::Whole(_), _) | (CellRef::Uniq(_, _, _), Cell::Row(_, _)) => Ordering::Greater,
        }
    }

    /// Whether it overlaps a cell that is kept. It takes no memory.
    pub fn overlaps(self, cell: &Cell) -> bool
        ensures { result ≡ overlaps (cell_read self.entry) cell.now }
    {
        match (self, cell) {
            (CellRef::Whole(table), _) => table == cell.table(),
            (_, Cell::Whole(table)) => self.table() == *table,
            (CellRef::Row(table, own), Cell::Row(other, key)) => {
                table == *other && own.order(key).is_eq()
            }
            (CellRef::Uniq(table, i, own), Cell::Uniq(other, j, values)) => {
                table == *other && i == *j && own.order(values).is_eq()
            }
            _ => false,
        }
    }
}

impl<'a> Comparable<Cell> for CellRef<'a> {
    ghost use Rattle.change.specs.Between.{le_lt_trans};
    ghost use Rattle.model.specs.CellOrder.{cell_cmp, cell_cmp_total};
    ghost use Rattle.change.specs.Reading.{cell_read};

    ghost compare = { λ q k. cell_cmp (cell_read q) k };

    ghost respects_cmp = { λ q. cell_cmp_total.congr (cell_read q) };

    ghost below_greater = { λ q. le_lt_trans cell_cmp_total (cell_read q) };

    fn compare(&self, key: &Cell) -> Ordering {
        self.order(key)
    }
}
