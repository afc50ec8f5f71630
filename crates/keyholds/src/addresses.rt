// Where each cell that is held stands, and who holds one that overlaps.
ghost use Rattle.std.specs.Prelude.{◌≡◌, ◌≢◌, ℕ, ◌+◌, ◌<◌, List, OnOk, OnErr, MatchOption, None};
ghost use Rattle.model.specs.declared.cell.Cell.{Cell as AnyCell};
ghost use Rattle.std.specs.Ordering.{eq_by_cmp};
ghost use Rattle.model.specs.declared.cell.Cell.TheVariants.{Whole};
ghost use Rattle.model.specs.CellOrder.{cell_cmp};
ghost use Rattle.model.specs.Cells.{table_of, overlaps};
ghost use Rattle.std.specs.List.{list_any};
ghost use Rattle.keyholds.specs.Counts.{count_in};
ghost use Rattle.keyholds.specs.Holds.{IsFreeCell, IsCellHeldBy};
ghost use Rattle.keyholds.specs.Addresses.{address_at, AreAddresses, IsAlone, IsHeldAt, TellsAt, AddsAddress, RemovesAddress, SameAddresses, HasNoAddresses};

use crate::Xid;
use crate::address::{Address, Addresses};
use crate::counts::Counts;
use crate::hashed::{Asked, HashedCell};
use crate::sought::SoughtCell;
use model::{Cell, OutOfMemory};
use std::alloc::Global;
use std::collections::HashMap;

impl Addresses {
    /// Nothing is held.
    pub(crate) fn new(alloc: Global) -> Addresses
        ensures { HasNoAddresses result }
    {
        Addresses {
            addresses: HashMap::new(alloc),
            counts: Counts::new(alloc),
            had_whole: false,
        }
    }

    /// Where a cell stands, if it is held.
    pub(crate) fn find<C: SoughtCell>(&self, cell: &C) -> Option<Address>
        ensures { result ≡ address_at self.now (C.cell cell.now) }
    {
        if !self.had_whole && is_whole(cell) {
            return None;
        }
        self.addresses.get(Asked::of(cell)).copied()
    }

    /// One cell more, which isn't held yet. Refused for memory, nothing changes.
    pub(crate) fn add(&mut self, cell: Cell, address: Address) -> Result<(), OutOfMemory>
        requires absent { address_at self.old cell ≡ None }
        requires small { count_in self.old.counts.counts (table_of cell) address.xid < usize.MAX }
        ensures ok { OnOk result (AddsAddress cell address self.old self.new) }
        ensures err { OnErr result (SameAddresses self.old self.new) }
    {
        let (table, is_whole) = (cell.table(), is_whole(&cell));
        self.counts.add(table, address.xid)?;
        self.had_whole = self.had_whole || is_whole;
        let cell = HashedCell::of(cell);
        if self.addresses.insert(cell, address).is_err() {
            self.counts.remove_one(table, address.xid);
            return Err(OutOfMemory);
        }
        Ok(())
    }

    /// One cell of a transaction less.
    pub(crate) fn remove(&mut self, cell: &Cell, xid: Xid)
        ensures { RemovesAddress cell.now xid self.old self.new }
    {
        self.addresses.remove(Asked::of(cell));
        self.counts.remove_one(cell.table(), xid);
    }

    /// Another transaction that holds a cell which overlaps this one, if there is one.
    pub(crate) fn other_holder<C: SoughtCell>(&self, xid: Xid, cell: &C) -> Option<Xid>
        ensures { (held : ℕ → List AnyCell) → AreAddresses held self.now
            → MatchOption result (IsFreeCell held xid (C.cell cell.now)) (IsCellHeldBy held xid (C.cell cell.now)) }
    {
        let table = cell.table();
        if is_whole(cell) {
            return self.counts.other(table, xid);
        }
        match self.other_at(xid, cell) {
            Some(other) => Some(other),
            None => self.other_at(xid, &Cell::Whole(table)),
        }
    }

    /// Whether this transaction holds a cell that overlaps another one.
    pub(crate) fn overlaps_one<C: SoughtCell>(&self, holder: Xid, cell: &C) -> bool
        ensures { (held : ℕ → List AnyCell) → AreAddresses held self.now
            → result ≡ list_any (overlaps (C.cell cell.now)) (held holder) }
    {
        let table = cell.table();
        if is_whole(cell) {
            return self.counts.count(table, holder) > 0;
        }
        if self.is_at(holder, cell) {
            return true;
        }
        self.is_at(holder, &Cell::Whole(table))
    }

    // Whether this transaction holds just this cell.
    fn is_at<C: SoughtCell>(&self, holder: Xid, cell: &C) -> bool
        ensures { TellsAt holder (C.cell cell.now) self.now result }
    {
        match self.find(cell) {
            Some(address) if address.xid == holder => true,
            _ => false,
        }
    }

    // The transaction that holds just this cell, if it is another.
    fn other_at<C: SoughtCell>(&self, xid: Xid, cell: &C) -> Option<Xid>
        ensures { MatchOption result (IsAlone xid (C.cell cell.now) self.now) (IsHeldAt xid (C.cell cell.now) self.now) }
    {
        match self.find(cell) {
            Some(address) if address.xid != xid => Some(address.xid),
            _ => None,
        }
    }
}

// Whether it is a table as a whole.
fn is_whole<C: SoughtCell>(cell: &C) -> bool
    ensures { result ≡ eq_by_cmp cell_cmp (C.cell cell.now) (Whole (table_of (C.cell cell.now))) }
{
    cell.compare(&Cell::Whole(cell.table())).is_eq()
}
