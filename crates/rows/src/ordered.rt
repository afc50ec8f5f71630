// Rows in an ordered map of slots.
ghost use Rattle.std.specs.Prelude.{◌≡◌, ◌≢◌, ℕ, OnOk, OnErr, IfOk, IfSome, IfNone, IsSome, Some, None, false, is_some, if◌then◌else◌, length, ◌<◌, ◌^◌};
ghost use Rattle.std.specs.FinMap as map;
ghost use Rattle.slab.specs.Slab as slab;
ghost use Rattle.slab.specs.Slab.{SameValues};
ghost use Rattle.model.specs.declared.key.Key.{Key as Values};
ghost use Rattle.rows.specs.Kept.{KeepsSlots, IsNumbered, IsSlotted};
ghost use Rattle.rows.specs.Ordered.{AddsName};
ghost use Rattle.rows.specs.Slots.{found, with_row_at, row_at, number_at, SameBeside, without_empty, number_of_empty};

use crate::store::{RowStore, SlotNumber, next_number};
use crate::view::RowView;
use crate::walk::Walk;
use model::{Key, OutOfMemory, Row};
use slab::Slab;
use std::alloc::{AllocError, Global};
use std::collections::BTreeMap;
use std::marker::Model;
use std::mem;

/// A place for a row. It keeps its number while it is there, filled or empty.
#[derive(Debug, Drop)]
pub(crate) struct Slot {
    number: SlotNumber,
    row: Option<Row>,
}

/// The rows of one table by primary key, each in a slot of an ordered map.
#[derive(Debug, Drop)]
pub struct OrderedRows {
    slots: BTreeMap<Key, Slot>,
    // The key of each slot, at the slot's number.
    keys: Slab<Key>,
    alloc: Global,
}

impl Slot {
    // The row in it, as it is read.
    pub(crate) fn view(&self) -> Option<RowView<'_>>
        ensures { result ≡ self.now.row }
    {
        match &self.row {
            Some(row) => Some(RowView::of_row(row)),
            None => None,
        }
    }
}

impl Clone for Slot {
    ghost is_clone = { λ slot other. other ≡ slot };

    fn clone(&self) -> Result<Slot, AllocError> {
        Ok(Slot {
            number: self.number,
            row: self.row.clone()?,
        })
    }
}

impl Model for OrderedRows {
    ghost use Rattle.rows.specs.Kept.{Kept};

    ghost Value = { Kept };

    ghost use Rattle.rows.specs.KeptCode.{kept_code};

    ghost coded = { kept_code };

    ghost use Rattle.rows.specs.Slots.{numbers_in};
    ghost use Rattle.rows.specs.Ordered.{kept_in, IsNamed};

    ghost view = { kept_in };

    ghost invariant = { λ a. IsNamed (numbers_in a.slots.entries) a.keys };
}

impl OrderedRows {
    /// No rows, and no slots.
    pub fn new(alloc: Global) -> OrderedRows
        ensures { result ≡ record { rows = map.empty; slots = map.empty } }
    {
        OrderedRows {
            slots: BTreeMap::new(alloc),
            keys: Slab::new(alloc),
            alloc,
        }
    }

    // The slot of a key that has none.
    fn make_slot(&mut self, key: &Key) -> Result<SlotNumber, OutOfMemory>
        requires { map.get self.old.slots key.now ≡ None }
        ensures rows { self.new.rows ≡ self.old.rows }
        ensures slots { KeepsSlots self.old.slots self.new.slots }
        ensures ok { IfOk result (λ number. map.get self.new.slots key.now ≡ Some number) }
        ensures numbered { IsNumbered self.new.slots }
    {
        add_slot(&mut self.slots, &mut self.keys, key)
    }

    /// The same rows in the same slots.
    pub fn copy(&self) -> Result<OrderedRows, OutOfMemory>
        ensures { IfOk result (λ copy. copy ≡ self.now) }
    {
        Ok(OrderedRows {
            slots: self.slots.clone()?,
            keys: self.keys.clone()?,
            alloc: self.alloc,
        })
    }
}

impl RowStore for OrderedRows {
    ghost kept = { λ rows. rows };

    #[tactic(auto, using(crate::proofs::Slots::found_row))]
    fn get(&self, key: &Key) -> Option<RowView<'_>> {
        match self.slots.get(key) {
            Some(slot) => slot.view(),
            None => None,
        }
    }

    fn slot(&self, key: &Key) -> Option<SlotNumber> {
        number_of(&self.slots, key)
    }

    fn key_at(&self, number: SlotNumber) -> Option<&Key> {
        self.keys.get(number as usize)
    }

    fn reserve(&mut self, key: &Key) -> Result<SlotNumber, OutOfMemory> {
        match self.slot(key) {
            Some(number) => Ok(number),
            None => self.make_slot(key),
        }
    }

    fn put(&mut self, key: &Key, row: Row) -> Result<(), OutOfMemory> {
        self.reserve(key)?;
        self.restore(key, row);
        Ok(())
    }

    fn replace(&mut self, key: &Key, row: Row) -> Option<Row> {
        set_row(&mut self.slots, key, Some(row))
    }

    fn take(&mut self, key: &Key) -> Option<Row> {
        set_row(&mut self.slots, key, None)
    }

    fn restore(&mut self, key: &Key, row: Row) {
        self.replace(key, row);
    }

    fn settle(&mut self, key: &Key) {
        drop_slot(&mut self.slots, &mut self.keys, key);
    }

    fn walk(&self) -> Walk<'_> {
        Walk::over(self.slots.values())
    }

    fn wipe(&mut self) -> OrderedRows {
        let alloc = self.alloc;
        mem::replace(self, OrderedRows::new(alloc))
    }
}

// The number of a key's slot, if it has one.
fn number_of(slots: &BTreeMap<Key, Slot>, key: &Key) -> Option<SlotNumber>
    ensures { result ≡ number_at (found slots.now.entries key.now) }
{
    match slots.get(key) {
        Some(slot) => Some(slot.number),
        None => None,
    }
}

// A row or none into the slot at a key, if it has one. The answer is what was in it.
fn set_row(slots: &mut BTreeMap<Key, Slot>, key: &Key, row: Option<Row>) -> Option<Row>
    ensures row { result ≡ row_at (found slots.old.entries key.now) }
    ensures here { found slots.new.entries key.now ≡ with_row_at row (found slots.old.entries key.now) }
    ensures beside { SameBeside slots.old.entries slots.new.entries key.now }
{
    match slots.get_mut(key) {
        Some(slot) => mem::replace(&mut slot.row, row),
        None => None,
    }
}

// An empty slot for a key that has none. The answer is its number, which no slot had.
fn add_slot(
    slots: &mut BTreeMap<Key, Slot>,
    keys: &mut Slab<Key>,
    key: &Key,
) -> Result<SlotNumber, OutOfMemory>
    requires { found slots.old.entries key.now ≡ None }
    ensures beside { SameBeside slots.old.entries slots.new.entries key.now }
    ensures ok { IfOk result (λ number. (found slots.new.entries key.now ≡ Some (record { number = number; row = None })) × AddsName keys.old keys.new number key.now) }
    ensures err { OnErr result ((found slots.new.entries key.now ≡ None) × SameValues keys.old keys.new) }
{
    let own = key.copy()?;
    let name = key.copy()?;
    keys.reserve(1)?;
    let number = next_number(keys)?;
    slots.insert(own, Slot { number, row: None })?;
    keys.insert_reserved(name);
    Ok(number)
}

// No slot at a key, and no key for its number, where no row is in it.
fn drop_slot(slots: &mut BTreeMap<Key, Slot>, keys: &mut Slab<Key>, key: &Key)
    ensures beside { SameBeside slots.old.entries slots.new.entries key.now }
    ensures here { found slots.new.entries key.now ≡ without_empty (found slots.old.entries key.now) }
    ensures names { (other : ℕ) → number_of_empty (found slots.old.entries key.now) ≢ Some other → slab.get keys.new other ≡ slab.get keys.old other }
    ensures name { (other : ℕ) → number_of_empty (found slots.old.entries key.now) ≡ Some other → slab.get keys.new other ≡ None }
{
    let Some(slot) = slots.get(key) else {
        return;
    };
    if slot.row.is_some() {
        return;
    }
    let number = slot.number;
    slots.remove(key);
    keys.try_remove(number as usize);
}
