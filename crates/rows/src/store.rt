// What tables ask of a store of rows, whichever way it keeps them.
ghost use Rattle.std.specs.Prelude.{◌≡◌, ◌≢◌, OnOk, OnErr, IfOk, IfSome, IfNone, IsSome, Some, is_some, if◌then◌else◌, length, ◌<◌, ◌^◌};
ghost use Rattle.std.specs.FinMap as map;
ghost use Rattle.model.specs.declared.key.Key.{Key as Values};
ghost use Rattle.rows.specs.Kept.{Kept, KeepsSlots, IsNumbered, IsSlotted};

use crate::hashed::HashedRows;
use crate::view::RowView;
use crate::walk::Walk;
use model::{Key, OutOfMemory, Row};
use slab::Slab;
use std::hash::BuildHasher;

/// The number of a slot, from 0. It takes half a word wherever an index or the key order keeps one; a
/// store that had a slot for each is refused memory for another.
pub type SlotNumber = u32;

/// A store of rows by primary key. `reserve` and `put` alone may be refused, and then change no
/// row; the other calls take no memory and succeed.
pub trait RowStore: Drop {
    /// The rows by their keys, and the slots.
    ghost kept: { Self → Kept };

    /// The row at a key.
    fn get(&self, key: &Key) -> Option<RowView<'_>>
        ensures { result ≡ map.get (kept self.now).rows key.now };

    /// The number of a key's slot, if it has one.
    fn slot(&self, key: &Key) -> Option<SlotNumber>
        ensures number { result ≡ map.get (kept self.now).slots key.now }
        ensures numbered { IsNumbered (kept self.now).slots }
        ensures slotted { IsSlotted (kept self.now) };

    /// The key whose slot has this number.
    fn key_at(&self, number: SlotNumber) -> Option<&Key>
        ensures found { IfSome result (λ key. map.get (kept self.now).slots key.now ≡ Some number) }
        ensures missed { IfNone result ((key : Values) → map.get (kept self.now).slots key ≢ Some number) };

    /// Makes a slot for a key that has none.
    fn reserve(&mut self, key: &Key) -> Result<SlotNumber, OutOfMemory>
        ensures rows { (kept self.new).rows ≡ (kept self.old).rows }
        ensures slots { KeepsSlots (kept self.old).slots (kept self.new).slots }
        ensures ok { IfOk result (λ number. map.get (kept self.new).slots key.now ≡ Some number) }
        ensures numbered { IsNumbered (kept self.new).slots };

    /// Puts a row at a key.
    fn put(&mut self, key: &Key, row: Row) -> Result<(), OutOfMemory>
        ensures ok { OnOk result ((kept self.new).rows ≡ map.insert (kept self.old).rows key.now row) }
        ensures slots { KeepsSlots (kept self.old).slots (kept self.new).slots }
        ensures slot { OnOk result (IsSome (map.get (kept self.new).slots key.now)) }
        ensures err { OnErr result ((kept self.new).rows ≡ (kept self.old).rows) };

    /// Puts a row into its key's slot, and answers the one that was there.
    fn replace(&mut self, key: &Key, row: Row) -> Option<Row>
        requires { IsSome (map.get (kept self.old).slots key.now) }
        ensures stood { result ≡ map.get (kept self.old).rows key.now }
        ensures rows { (kept self.new).rows ≡ map.insert (kept self.old).rows key.now row }
        ensures slots { (kept self.new).slots ≡ (kept self.old).slots };

    /// Takes the row out of its slot. The slot stays.
    fn take(&mut self, key: &Key) -> Option<Row>
        ensures row { result ≡ map.get (kept self.old).rows key.now }
        ensures rows { (kept self.new).rows ≡ map.remove (kept self.old).rows key.now }
        ensures slots { (kept self.new).slots ≡ (kept self.old).slots };

    /// Puts a row into its key's slot.
    fn restore(&mut self, key: &Key, row: Row)
        requires { IsSome (map.get (kept self.old).slots key.now) }
        ensures rows { (kept self.new).rows ≡ map.insert (kept self.old).rows key.now row }
        ensures slots { (kept self.new).slots ≡ (kept self.old).slots };

    /// Drops the slot of a key where no row is in it.
    fn settle(&mut self, key: &Key)
        ensures rows { (kept self.new).rows ≡ (kept self.old).rows }
        ensures slots { (kept self.new).slots ≡ (if is_some (map.get (kept self.old).rows key.now) then (kept self.old).slots else map.remove (kept self.old).slots key.now) };

    /// The rows, in key order.
    fn walk(&self) -> Walk<'_>
        ensures rows { result ≡ map.values (kept self.now).rows }
        ensures fits { length result < 2 ^ 63 };

    /// Moves all rows and slots out. No row is copied.
    fn wipe(&mut self) -> Self
    where
        Self: Sized,
        ensures out { kept result ≡ kept self.old }
        ensures left { kept self.new ≡ record { rows = map.empty; slots = map.empty } };
}

impl<H: BuildHasher + Drop + Copy> RowStore for HashedRows<H> {
    ghost kept = { λ rows. rows };

    fn get(&self, key: &Key) -> Option<RowView<'_>> {
        HashedRows::get(self, key)
    }

    fn slot(&self, key: &Key) -> Option<SlotNumber> {
        HashedRows::slot(self, key)
    }

    fn key_at(&self, number: SlotNumber) -> Option<&Key> {
        HashedRows::key_at(self, number)
    }

    fn reserve(&mut self, key: &Key) -> Result<SlotNumber, OutOfMemory> {
        HashedRows::reserve(self, key)
    }

    fn put(&mut self, key: &Key, row: Row) -> Result<(), OutOfMemory> {
        HashedRows::put(self, key, row)
    }

    fn replace(&mut self, key: &Key, row: Row) -> Option<Row> {
        HashedRows::replace(self, key, row)
    }

    fn take(&mut self, key: &Key) -> Option<Row> {
        HashedRows::take(self, key)
    }

    fn restore(&mut self, key: &Key, row: Row) {
        HashedRows::restore(self, key, row);
    }

    fn settle(&mut self, key: &Key) {
        HashedRows::settle(self, key);
    }

    fn walk(&self) -> Walk<'_> {
        HashedRows::walk(self)
    }

    fn wipe(&mut self) -> HashedRows<H> {
        HashedRows::wipe(self)
    }
}

// The number of the next slot that is made, if it is one.
pub(crate) fn next_number<T>(slots: &Slab<T>) -> Result<SlotNumber, OutOfMemory>
    ensures { IfOk result (λ number. number ≡ slots.now.vacant_key) }
{
    match SlotNumber::try_from(slots.vacant_key()) {
        Ok(number) => Ok(number),
        Err(_) => Err(OutOfMemory),
    }
}
