// The holds of all open transactions.
ghost use Rattle.std.specs.Prelude.{◌≡◌, ◌≢◌, ℕ, ◌<◌, ◌↔◌, List, ◌++◌, ◌∷◌, [], take, length, ◌≤◌, None, OnOk, OnErr, IfOk, IfSome, IfNone, IsNone, All, Contains};
ghost use Rattle.std.specs.Map.{keys_of};
ghost use Rattle.model.specs.declared.cell.Cell.{Cell as AnyCell};
ghost use Rattle.model.specs.declared.cell.Cell.TheVariants.{Row};
ghost use Rattle.model.specs.declared.key.Key.{Key as AnyKey};
ghost use Rattle.keyholds.specs.Holds.{holds_of, cells_held, with_hold, with_holds, HasNoEmptyList, IsFreeCell, IsCellHeldBy, IsFirstHeldBy, AreDisjoint, BeforeImageAt, ReleasesLast};
ghost use Rattle.model.specs.Cells.{table_of, overlaps};
ghost use Rattle.std.specs.List.{list_any};
ghost use Rattle.keyholds.specs.Counts.{count_in};
ghost use Rattle.keyholds.specs.Addresses.{address_at, AreAddresses, with_cells, AddsAddress, SameAddresses};
ghost use Rattle.keyholds.specs.Lists.{listed, SameLists, SetsList, HasRoom, AddsKeys};

use crate::Xid;
use crate::address::{Address, Addresses};
use crate::sought::SoughtCell;
use model::{Cell, Key, OutOfMemory, TableId};
use std::alloc::Global;
use std::collections::BTreeMap;
use std::marker::Model;

/// What each open transaction holds: cells, each with what stood there when it was first held.
///
/// A clause sees it as a finite map from a transaction to the list of its cells, in the order in
/// which they were first held; one that holds nothing has no entry. No two transactions hold cells
/// that overlap. A cell is looked up by its hash.
#[derive(Debug, Drop)]
pub struct Holds<S> {
    lists: BTreeMap<Xid, Vec<(Cell, S)>>,
    addresses: Addresses,
    alloc: Global,
}

impl<S> Model for Holds<S> {
    ghost use Rattle.std.specs.Prelude.{List};
    ghost use Rattle.std.specs.Ordering.{nat_cmp};
    ghost use Rattle.std.specs.FinMap as finite;
    ghost use Rattle.std.specs.Coded.{coded_ℕ, coded_list, coded×};
    ghost use Rattle.model.specs.declared.cell.Cell.{Cell as AnyCell};
    ghost use Rattle.model.specs.contracts.cell.Cell as cell_type;

    ghost Value = { finite.FinMap nat_cmp (List (AnyCell × S)) };

    ghost coded = { finite.code coded_ℕ (coded_list (coded× cell_type.the_row.coded S.code)) };

    ghost use Rattle.keyholds.specs.Lists.{lists_seen};
    ghost use Rattle.keyholds.specs.Holds.{cells_held};
    ghost use Rattle.keyholds.specs.Addresses.{AreAddresses};

    ghost view = { λ h. lists_seen h.lists };

    ghost invariant = { λ h. AreAddresses (cells_held (lists_seen h.lists)) h.addresses };
}

impl<S: Drop> Holds<S> {
    /// Nothing is held. It takes no memory.
    pub fn new(alloc: Global) -> Holds<S>
        ensures { (xid : ℕ) → holds_of result xid ≡ [] }
    {
        Holds {
            lists: BTreeMap::new(alloc),
            addresses: Addresses::new(alloc),
            alloc,
        }
    }

    /// Another transaction that holds a cell which overlaps one of these. It is one that has the
    /// first of them that another has. It takes no memory.
    pub fn free_for(&self, xid: Xid, cells: &[Cell]) -> Option<Xid>
        ensures free { IsNone result ↔ All (IsFreeCell (cells_held self.now) xid) cells.now }
        ensures first { IfSome result (IsFirstHeldBy (cells_held self.now) xid cells.now) }

        // No two transactions hold cells that overlap.
        ensures apart { AreDisjoint (cells_held self.now) }
    {
        let addresses = &self.addresses;
        for cell in cells {
            if let Some(other) = addresses.other_holder(xid, cell) {
                return Some(other);
            }
        }
        None
    }

    /// Another transaction that holds a cell which overlaps this one. It takes no memory.
    pub fn other_holder(&self, xid: Xid, cell: &Cell) -> Option<Xid>
        ensures free { IfNone result (IsFreeCell (cells_held self.now) xid cell.now) }
        ensures held { IfSome result (IsCellHeldBy (cells_held self.now) xid cell.now) }
        ensures apart { AreDisjoint (cells_held self.now) }
    {
        self.other_holder_of(xid, cell)
    }

    /// The same for a cell that nobody has made: what stands for it is compared in place.
    pub fn other_holder_of<C: SoughtCell>(&self, xid: Xid, sought: &C) -> Option<Xid>
        ensures free { IfNone result (IsFreeCell (cells_held self.now) xid (C.cell sought.now)) }
        ensures held { IfSome result (IsCellHeldBy (cells_held self.now) xid (C.cell sought.now)) }
        ensures apart { AreDisjoint (cells_held self.now) }
    {
        self.addresses.other_holder(xid, sought)
    }

    /// Whether this transaction holds a cell that overlaps one that nobody has made. It takes no
    /// memory.
    pub fn overlaps_one<C: SoughtCell>(&self, holder: Xid, sought: &C) -> bool
        ensures { result ≡ list_any (overlaps (C.cell sought.now)) (cells_held self.now holder) }
    {
        self.addresses.overlaps_one(holder, sought)
    }

    /// Who holds a cell, and what stood there when it was first held, if it is held. It takes no
    /// memory.
    pub fn held_at<C: SoughtCell>(&self, sought: &C) -> Option<(Xid, &S)>
        ensures held { IfSome result (λ found. Contains (holds_of self.now found.0) (C.cell sought.now, found.1.now)) }
        ensures free { IfNone result ((xid : ℕ) → Contains (cells_held self.now xid) (C.cell sought.now) → ⊥) }
    {
        let address = self.addresses.find(sought)?;
        let list = self.lists.get(&address.xid)?;
        let (_, before_image) = &list[address.index];
        Some((address.xid, before_image))
    }

    /// What stood at a cell when it was first held, if it is held. It takes no memory.
    pub fn before_image(&self, cell: &Cell) -> Option<&S>
        ensures held { IfSome result (λ before_image. BeforeImageAt self.now cell.now before_image.now) }
        ensures free { IfNone result ((xid : ℕ) → Contains (cells_held self.now xid) cell.now → ⊥) }
    {
        let (_, before_image) = self.held_at(cell)?;
        Some(before_image)
    }

    /// The keys of the places of a table that are held, whoever holds them: one walk of all that is
    /// held.
    pub fn keys_held(&self, table: TableId) -> Result<Vec<Key>, OutOfMemory>
        ensures all { IfOk result (λ keys. (xid : ℕ) (key : AnyKey) → Contains (cells_held self.now xid) (Row table key) → Contains keys.items key) }
        ensures held { IfOk result (λ keys. All (λ key. (xid : ℕ) × Contains (cells_held self.now xid) (Row table key)) keys.items) }
    {
        let mut keys = Vec::new(self.alloc);
        for (_, list) in &self.lists {
            push_keys(&mut keys, list.as_slice(), table)?;
        }
        Ok(keys)
    }

    /// Holds these cells too, each with what stood there; one that the transaction holds already
    /// stays as it is. Refused for memory, nothing changes.
    ///
    /// What the caller owes is that no other transaction holds a cell that overlaps one of them.
    pub fn take(&mut self, xid: Xid, cells: Vec<(Cell, S)>) -> Result<(), OutOfMemory>
        requires { All (IsFreeCell (cells_held self.old) xid) (keys_of cells.items) }
        ensures ok { OnOk result (holds_of self.new xid ≡ with_holds (holds_of self.old xid) cells.items) }
        ensures others { (other : ℕ) → other ≢ xid → holds_of self.new other ≡ holds_of self.old other }
        ensures err { OnErr result (self.new ≡ self.old) }
    {
        let mark = self.mark(xid);
        if self.take_each(xid, cells).is_err() {
            self.release_since(xid, mark);
            return Err(OutOfMemory);
        }
        Ok(())
    }

    // The same; refused for memory, the cells that it took are held.
    fn take_each(&mut self, xid: Xid, cells: Vec<(Cell, S)>) -> Result<(), OutOfMemory>
        requires { All (IsFreeCell (cells_held self.old) xid) (keys_of cells.items) }
        ensures ok { OnOk result (holds_of self.new xid ≡ with_holds (holds_of self.old xid) cells.items) }
        ensures first { take (length (holds_of self.old xid)) (holds_of self.new xid) ≡ holds_of self.old xid }
        ensures others { (other : ℕ) → other ≢ xid → holds_of self.new other ≡ holds_of self.old other }
    {
        for (cell, before_image) in cells {
            self.take_one(xid, cell, before_image)?;
        }
        Ok(())
    }

    // One cell more, unless the transaction holds it already. Refused for memory, nothing changes.
    fn take_one(&mut self, xid: Xid, cell: Cell, before_image: S) -> Result<(), OutOfMemory>
        requires { IsFreeCell (cells_held self.old) xid cell }
        ensures ok { OnOk result (holds_of self.new xid ≡ with_hold (holds_of self.old xid) (cell, before_image)) }
        ensures others { (other : ℕ) → other ≢ xid → holds_of self.new other ≡ holds_of self.old other }
        ensures err { OnErr result (holds_of self.new xid ≡ holds_of self.old xid) }
    {
        if self.addresses.find(&cell).is_some() {
            return Ok(());
        }
        hold_cell(
            &mut self.lists,
            &mut self.addresses,
            self.alloc,
            xid,
            (cell, before_image),
        )
    }

    /// How many cells a transaction holds. It takes no memory.
    pub fn mark(&self, xid: Xid) -> usize
        ensures count { result ≡ length (holds_of self.now xid) }
        ensures filled { HasNoEmptyList self.now }
    {
        match self.lists.get(&xid) {
            Some(list) => list.len(),
            None => 0,
        }
    }

    /// Lets go the cells that a transaction holds past so many: those that it took since it held
    /// that many. It takes no memory.
    pub fn release_since(&mut self, xid: Xid, mark: usize)
        ensures own { holds_of self.new xid ≡ take mark (holds_of self.old xid) }
        ensures others { (other : ℕ) → other ≢ xid → holds_of self.new other ≡ holds_of self.old other }
        ensures filled { HasNoEmptyList self.new }
    {
        if let Some(list) = self.lists.get_mut(&xid) {
            release_from(list, &mut self.addresses, xid, mark);
        }
    }

    /// Lets go the cell that a transaction took last, if it holds more than so many, and gives it
    /// back. It takes no memory.
    pub fn release_last(&mut self, xid: Xid, mark: usize) -> Option<Cell>
        ensures own { ReleasesLast mark (holds_of self.old xid) (holds_of self.new xid) result }
        ensures others { (other : ℕ) → other ≢ xid → holds_of self.new other ≡ holds_of self.old other }
        ensures filled { HasNoEmptyList self.new }
        ensures apart { AreDisjoint (cells_held self.new) }
    {
        let list = self.lists.get_mut(&xid)?;
        pop_past(list, &mut self.addresses, xid, mark)
    }

    /// Lets go all that a transaction holds. It takes no memory.
    pub fn release_all(&mut self, xid: Xid)
        ensures own { holds_of self.new xid ≡ [] }
        ensures others { (other : ℕ) → other ≢ xid → holds_of self.new other ≡ holds_of self.old other }
        ensures filled { HasNoEmptyList self.new }
    {
        let Some(mut list) = self.lists.remove(&xid) else {
            return;
        };
        // Where nobody holds anything any more, no cell has to be looked for.
        if self.lists.is_empty() {
            self.addresses = Addresses::new(self.alloc);
            return;
        }
        release_from(&mut list, &mut self.addresses, xid, 0);
    }
}

// The keys of the places of a table among these cells come behind the others.
fn push_keys<S: Drop>(
    keys: &mut Vec<Key>,
    list: &[(Cell, S)],
    table: TableId,
) -> Result<(), OutOfMemory>
    ensures { OnOk result (AddsKeys table (keys_of list.now) keys.old.items keys.new.items) }
{
    for (cell, _) in list {
        if let Cell::Row(its, key) = cell {
            if *its == table {
                keys.push(key.copy()?)?;
            }
        }
    }
    Ok(())
}

// One cell more for a transaction, which isn't held yet. Refused for memory, nothing changes.
fn hold_cell<S: Drop>(
    lists: &mut BTreeMap<Xid, Vec<(Cell, S)>>,
    addresses: &mut Addresses,
    alloc: Global,
    xid: Xid,
    hold: (Cell, S),
) -> Result<(), OutOfMemory>
    requires absent { address_at addresses.old hold.0 ≡ None }
    requires counted { count_in addresses.old.counts.counts (table_of hold.0) xid ≤ length (listed lists.old xid) }
    ensures list { OnOk result (SetsList xid (listed lists.old xid ++ hold ∷ []) lists.old lists.new) }
    ensures address { OnOk result (AddsAddress hold.0 (record { xid = xid; index = length (listed lists.old xid) }) addresses.old addresses.new) }
    ensures same_lists { OnErr result (SameLists lists.old lists.new) }
    ensures same_addresses { OnErr result (SameAddresses addresses.old addresses.new) }
{
    let cell = hold.0.copy()?;
    let index = make_room(lists, alloc, xid)?;
    addresses.add(cell, Address { xid, index })?;
    push(lists, xid, hold);
    Ok(())
}

// Room for one more cell in a transaction's list, and how many are in it. No list changes.
fn make_room<S: Drop>(
    lists: &mut BTreeMap<Xid, Vec<(Cell, S)>>,
    alloc: Global,
    xid: Xid,
) -> Result<usize, OutOfMemory>
    ensures same { SameLists lists.old lists.new }
    ensures room { OnOk result (HasRoom lists.new xid) }
    ensures count { IfOk result (λ index. index ≡ length (listed lists.old xid)) }
    ensures small { IfOk result (λ index. index < usize.MAX) }
{
    if let Some(list) = lists.get_mut(&xid) {
        list.reserve(1)?;
        return Ok(list.len());
    }
    let mut list = Vec::new(alloc);
    list.reserve(1)?;
    lists.insert(xid, list)?;
    Ok(0)
}

// One cell more at the end of a transaction's list, into room that was made before.
fn push<S: Drop>(lists: &mut BTreeMap<Xid, Vec<(Cell, S)>>, xid: Xid, hold: (Cell, S))
    requires { HasRoom lists.old xid }
    ensures { SetsList xid (listed lists.old xid ++ hold ∷ []) lists.old lists.new }
{
    if let Some(list) = lists.get_mut(&xid) {
        list.push_reserved(hold);
    }
}

// Cuts a transaction's list to so many cells; the others are at no address any more.
fn release_from<S: Drop>(
    list: &mut Vec<(Cell, S)>,
    addresses: &mut Addresses,
    xid: Xid,
    mark: usize,
)
    ensures items { list.new.items ≡ take mark list.old.items }
    ensures addresses { (held : ℕ → List AnyCell) → held xid ≡ keys_of list.old.items
        → AreAddresses held addresses.old
        → AreAddresses (with_cells held xid (keys_of list.new.items)) addresses.new }
{
    while pop_past(list, addresses, xid, mark).is_some() {}
}

// Takes the last cell off a transaction's list, if more than so many are in it; it is at no address
// any more.
fn pop_past<S: Drop>(
    list: &mut Vec<(Cell, S)>,
    addresses: &mut Addresses,
    xid: Xid,
    mark: usize,
) -> Option<Cell>
    ensures items { ReleasesLast mark list.old.items list.new.items result }
    ensures addresses { (held : ℕ → List AnyCell) → AreAddresses (with_cells held xid (keys_of list.old.items)) addresses.old
        → AreAddresses (with_cells held xid (keys_of list.new.items)) addresses.new }
{
    if list.len() <= mark {
        return None;
    }
    let (cell, _) = list.pop()?;
    addresses.remove(&cell, xid);
    Some(cell)
}
