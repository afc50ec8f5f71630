// Rows in slots that are found by a hash of the key.
ghost use Rattle.std.specs.Prelude.{◌≡◌, ◌≢◌, ℕ, OnOk, OnErr, IfOk, IfSome, IfNone, IsSome, Some, None, is_some, if◌then◌else◌, length, ◌<◌, ◌^◌};
ghost use Rattle.std.specs.FinMap as map;
ghost use Rattle.std.specs.HashMap as hash;
ghost use Rattle.std.specs.Ordering.{eq_by_cmp};
ghost use Rattle.std.specs.Option.{option_copied};
ghost use Rattle.slab.specs.Slab as slab;
ghost use Rattle.slab.specs.Slab.{SameValues};
ghost use Rattle.model.specs.Key.{key_cmp};
ghost use Rattle.model.specs.declared.key.Key.{Key as Values};
ghost use Rattle.rows.specs.Kept.{HasNumber, KeepsSlots, IsNumbered, IsSlotted};
ghost use Rattle.rows.specs.Hashed.{row_for, row_of, key_of, number_for, number_to_drop, SetsRow, AddsSlot, DropsSlot, Renumbers, SameNumbers, Unnumbers, SameKeys, GivesNumber};
ghost use Rattle.rows.specs.Slots.{with_row};

use crate::key_order::KeyOrder;
use crate::store::{SlotNumber, next_number};
use crate::view::RowView;
use crate::walk::Walk;
use model::{Key, OutOfMemory, Row};
use slab::Slab;
use std::alloc::{AllocError, Global};
use std::collections::HashMap;
use std::collections::hash_map::Entry;
use std::hash::{BuildHasher, BuildHasherDefault, FoldHasher};
use std::marker::Model;
use std::mem;

/// A place for a row, with its key. It keeps its number while it is there, filled or empty. A clause
/// sees its key and the row's values.
#[derive(Debug, Drop)]
pub(crate) struct HashedSlot {
    key: Key,
    row: Option<Row>,
}

/// The rows of one table by primary key, each in a slot that is found by a hash of its key.
///
/// Beside the slots lie the keys in key order, so that `walk` needs no memory. Whatever the hasher,
/// the answers are the same; one with a fixed seed, as the default, is not for keys that somebody
/// else chooses.
#[derive(Debug, Drop)]
pub struct HashedRows<H: BuildHasher = BuildHasherDefault<FoldHasher>> {
    // The number of each key's slot, by the key's hash, and in key order.
    numbers: HashMap<Key, SlotNumber, H>,
    order: KeyOrder,
    slots: Slab<HashedSlot>,
    alloc: Global,
}

impl Model for HashedSlot {
    ghost use Rattle.rows.specs.KeyedSlot.{KeyedSlot};

    ghost Value = { KeyedSlot };

    ghost view = { λ s. record { key = s.key; row = s.row } };
}

impl<H: BuildHasher> Model for HashedRows<H> {
    ghost use Rattle.rows.specs.Kept.{Kept};

    ghost Value = { Kept };

    ghost use Rattle.rows.specs.KeptCode.{kept_code};

    ghost coded = { kept_code };

    ghost use Rattle.rows.specs.Hashed.{kept_by, IsFound};

    ghost view = { λ a. kept_by a.slots a.order };

    ghost invariant = { λ a. IsFound a.numbers a.order a.slots };
}

impl HashedSlot {
    // The empty slot of a key.
    fn of_key(key: Key) -> HashedSlot
        ensures { result ≡ record { key = key; row = None } }
    {
        HashedSlot { key, row: None }
    }

    // Its key.
    fn key(&self) -> &Key
        ensures { result.now ≡ self.now.key }
    {
        &self.key
    }

    // The row in it, as it is read.
    fn view(&self) -> Option<RowView<'_>>
        ensures { result ≡ self.now.row }
    {
        match &self.row {
            Some(row) => Some(RowView::of_row(row)),
            None => None,
        }
    }

    // Puts a row or none in. The answer is what was in it.
    fn replace(&mut self, row: Option<Row>) -> Option<Row>
        ensures stood { result ≡ self.old.row }
        ensures set { self.new ≡ record self.old { row = row } }
    {
        mem::replace(&mut self.row, row)
    }
}

impl<H: BuildHasher + Drop> HashedRows<H> {
    /// No rows, and no slots.
    pub fn with_hasher(alloc: Global, hasher: H) -> HashedRows<H>
        ensures { result ≡ record { rows = map.empty; slots = map.empty } }
    {
        HashedRows {
            numbers: HashMap::with_hasher(alloc, hasher),
            order: KeyOrder::new(alloc),
            slots: Slab::new(alloc),
            alloc,
        }
    }

    /// The row at a key.
    pub fn get(&self, key: &Key) -> Option<RowView<'_>>
        ensures { result ≡ map.get self.now.rows key.now }
    {
        view_at(&self.slots, number_of(&self.numbers, key))
    }

    /// The number of a key's slot, if it has one.
    pub fn slot(&self, key: &Key) -> Option<SlotNumber>
        ensures number { result ≡ map.get self.now.slots key.now }

        // No two slots have one number, and each row lies in a slot.
        ensures numbered { IsNumbered self.now.slots }
        ensures slotted { IsSlotted self.now }
    {
        number_of(&self.numbers, key)
    }

    /// The key whose slot has this number.
    pub fn key_at(&self, number: SlotNumber) -> Option<&Key>
        ensures found { IfSome result (λ key. map.get self.now.slots key.now ≡ Some number) }
        ensures missed { IfNone result ((key : Values) → map.get self.now.slots key ≢ Some number) }
    {
        key_in(&self.slots, number)
    }

    /// The row in the slot of a number, if one is in it.
    pub fn row_at(&self, number: SlotNumber) -> Option<RowView<'_>>
        ensures { (key : Values) → map.get self.now.slots key ≡ Some number → result ≡ map.get self.now.rows key }
    {
        view_at(&self.slots, Some(number))
    }

    /// Puts a row into the slot of a number, and answers the one that was there. It takes no
    /// memory, and looks for no key.
    pub fn replace_at(&mut self, number: SlotNumber, row: Row) -> Option<Row>
        requires { HasNumber self.old.slots number }
        ensures stood { (key : Values) → map.get self.old.slots key ≡ Some number → result ≡ map.get self.old.rows key }
        ensures rows { (key : Values) → map.get self.old.slots key ≡ Some number → self.new.rows ≡ map.insert self.old.rows key row }
        ensures slots { self.new.slots ≡ self.old.slots }
    {
        self.set_at(number, Some(row))
    }

    /// Takes the row out of the slot of a number. The slot stays. It takes no memory, and looks for
    /// no key.
    pub fn take_at(&mut self, number: SlotNumber) -> Option<Row>
        requires { HasNumber self.old.slots number }
        ensures row { (key : Values) → map.get self.old.slots key ≡ Some number → result ≡ map.get self.old.rows key }
        ensures rows { (key : Values) → map.get self.old.slots key ≡ Some number → self.new.rows ≡ map.remove self.old.rows key }
        ensures slots { self.new.slots ≡ self.old.slots }
    {
        self.set_at(number, None)
    }

    // Puts a row or none into the slot of a number. The answer is what was in it.
    fn set_at(&mut self, number: SlotNumber, row: Option<Row>) -> Option<Row>
        requires { HasNumber self.old.slots number }
        ensures stood { (key : Values) → map.get self.old.slots key ≡ Some number → result ≡ map.get self.old.rows key }
        ensures rows { (key : Values) → map.get self.old.slots key ≡ Some number → self.new.rows ≡ with_row self.old.rows key (row) }
        ensures slots { self.new.slots ≡ self.old.slots }
    {
        set_row(&mut self.slots, number, row)
    }

    /// Puts a row into its key's slot. It takes no memory.
    pub fn restore(&mut self, key: &Key, row: Row)
        requires { IsSome (map.get self.old.slots key.now) }
        ensures rows { self.new.rows ≡ map.insert self.old.rows key.now row }
        ensures slots { self.new.slots ≡ self.old.slots }
    {
        self.replace(key, row);
    }

    /// Puts a row into its key's slot, and answers the one that was there. It takes no memory.
    pub fn replace(&mut self, key: &Key, row: Row) -> Option<Row>
        requires { IsSome (map.get self.old.slots key.now) }
        ensures stood { result ≡ map.get self.old.rows key.now }
        ensures rows { self.new.rows ≡ map.insert self.old.rows key.now row }
        ensures slots { self.new.slots ≡ self.old.slots }
    {
        let number = self.slot(key)?;
        self.replace_at(number, row)
    }

    /// Takes the row out of its slot. The slot stays, and it takes no memory.
    pub fn take(&mut self, key: &Key) -> Option<Row>
        ensures row { result ≡ map.get self.old.rows key.now }
        ensures rows { self.new.rows ≡ map.remove self.old.rows key.now }
        ensures slots { self.new.slots ≡ self.old.slots }
    {
        let number = self.slot(key)?;
        self.take_at(number)
    }

    /// Makes a slot for a key that has none. A refusal changes no row and no slot.
    pub fn reserve(&mut self, key: &Key) -> Result<SlotNumber, OutOfMemory>
        ensures rows { self.new.rows ≡ self.old.rows }
        ensures slots { KeepsSlots self.old.slots self.new.slots }
        ensures ok { IfOk result (λ number. map.get self.new.slots key.now ≡ Some number) }
        ensures numbered { IsNumbered self.new.slots }
    {
        find_or_add(&mut self.numbers, &mut self.order, &mut self.slots, key)
    }

    /// Makes room for so many more slots: making them moves none that is there. A refusal changes no
    /// row and no slot.
    pub fn make_room(&mut self, additional: usize) -> Result<(), OutOfMemory>
        ensures { self.new ≡ self.old }
    {
        make_room_for(&mut self.numbers, &mut self.slots, additional)
    }

    /// Puts a row at a key. A refusal changes no row and no slot.
    pub fn put(&mut self, key: &Key, row: Row) -> Result<(), OutOfMemory>
        ensures ok { OnOk result (self.new.rows ≡ map.insert self.old.rows key.now row) }
        ensures slots { KeepsSlots self.old.slots self.new.slots }
        ensures slot { OnOk result (IsSome (map.get self.new.slots key.now)) }
        ensures err { OnErr result (self.new.rows ≡ self.old.rows) }
    {
        let number = self.reserve(key)?;
        self.replace_at(number, row);
        Ok(())
    }

    /// Drops the slot of a key where no row is in it. It takes no memory.
    pub fn settle(&mut self, key: &Key)
        ensures rows { self.new.rows ≡ self.old.rows }
        ensures slots { self.new.slots ≡ (if is_some (map.get self.old.rows key.now) then self.old.slots else map.remove self.old.slots key.now) }
    {
        drop_slot(&mut self.numbers, &mut self.order, &mut self.slots, key);
    }

    /// The rows, in key order. It takes no memory.
    pub fn walk(&self) -> Walk<'_>
        ensures rows { result ≡ map.values self.now.rows }
        ensures fits { length result < 2 ^ 63 }
    {
        Walk::over_numbers(self.order.numbers(), &self.slots)
    }
}

impl<H: BuildHasher + Drop + Copy> HashedRows<H> {
    /// The same rows in the same slots. What a row keeps is shared, and not copied.
    pub fn copy(&self) -> Result<HashedRows<H>, OutOfMemory>
        ensures { IfOk result (λ copy. copy ≡ self.now) }
    {
        Ok(HashedRows {
            numbers: self.numbers.clone()?,
            order: self.order.copy()?,
            slots: self.slots.clone()?,
            alloc: self.alloc,
        })
    }

    /// Moves all rows and slots out. No row is copied, and it takes no memory.
    pub fn wipe(&mut self) -> HashedRows<H>
        ensures out { result ≡ self.old }
        ensures left { self.new ≡ record { rows = map.empty; slots = map.empty } }
    {
        let alloc = self.alloc;
        let hasher = *self.numbers.hasher();
        mem::replace(self, HashedRows::with_hasher(alloc, hasher))
    }
}

impl HashedRows {
    /// No rows, and no slots, with the hasher of fixed seed.
    pub fn new(alloc: Global) -> HashedRows
        ensures { result ≡ record { rows = map.empty; slots = map.empty } }
    {
        HashedRows::with_hasher(alloc, BuildHasherDefault::new())
    }
}

impl Clone for HashedSlot {
    ghost is_clone = { λ slot other. other ≡ slot };

    fn clone(&self) -> Result<HashedSlot, AllocError> {
        Ok(HashedSlot {
            key: self.key.clone()?,
            row: copy_stored(&self.row)?,
        })
    }
}

// The row in a slot again, if one is in it.
fn copy_stored(row: &Option<Row>) -> Result<Option<Row>, AllocError>
    ensures { IfOk result (λ copy. copy ≡ row.now) }
{
    match row {
        None => Ok(None),
        Some(row) => match row.copy() {
            Ok(copy) => Ok(Some(copy)),
            Err(OutOfMemory) => Err(AllocError),
        },
    }
}

// The number of a key's slot, if it has one.
fn number_of<H: BuildHasher + Drop>(
    numbers: &HashMap<Key, SlotNumber, H>,
    key: &Key,
) -> Option<SlotNumber>
    ensures { result ≡ hash.get (eq_by_cmp key_cmp) numbers.now key.now }
{
    numbers.get(key).copied()
}

// The key of the slot of a number, if there is one.
fn key_in(slots: &Slab<HashedSlot>, number: SlotNumber) -> Option<&Key>
    ensures { option_copied result ≡ key_of (slab.get slots.now number) }
{
    match slots.get(number as usize) {
        Some(slot) => Some(slot.key()),
        None => None,
    }
}

// The row in the slot of a number, as it is read.
pub(crate) fn view_at(slots: &Slab<HashedSlot>, number: Option<SlotNumber>) -> Option<RowView<'_>>
    ensures { result ≡ row_for slots.now number }
{
    slots.get(number? as usize)?.view()
}

// A row or none into the slot of a number, if there is one. The answer is what was in it.
fn set_row(slots: &mut Slab<HashedSlot>, number: SlotNumber, row: Option<Row>) -> Option<Row>
    ensures row { result ≡ row_of (slab.get slots.old number) }
    ensures set { SetsRow slots.old slots.new number (row) }
{
    match slots.get_mut(number as usize) {
        Some(slot) => slot.replace(row),
        None => None,
    }
}

// The number of a key's slot; where it has none, of an empty one that is made. The key is hashed once.
fn find_or_add<H: BuildHasher + Drop>(
    numbers: &mut HashMap<Key, SlotNumber, H>,
    order: &mut KeyOrder,
    slots: &mut Slab<HashedSlot>,
    key: &Key,
) -> Result<SlotNumber, OutOfMemory>
    requires { number_for order.old key.now ≡ hash.get (eq_by_cmp key_cmp) numbers.old key.now }
    ensures ok { IfOk result (GivesNumber (hash.get (eq_by_cmp key_cmp) numbers.old key.now) numbers.old numbers.new order.old order.new slots.old slots.new key.now) }
    ensures err { OnErr result (SameKeys numbers.old numbers.new order.old order.new slots.old slots.new) }
{
    match numbers.entry(key.copy()?)? {
        Entry::Occupied(entry) => Ok(*entry.get()),
        Entry::Vacant(entry) => match add_slot(order, slots, key) {
            Ok(number) => {
                entry.insert(number);
                Ok(number)
            }
            Err(e) => {
                // The map is given back, as the proof wants it.
                entry.into_key();
                Err(e)
            }
        },
    }
}

// An empty slot for a key that has none. The answer is its number, which no slot had.
fn add_slot(
    order: &mut KeyOrder,
    slots: &mut Slab<HashedSlot>,
    key: &Key,
) -> Result<SlotNumber, OutOfMemory>
    requires { number_for order.old key.now ≡ None }
    ensures slots { IfOk result (λ number. AddsSlot slots.old slots.new number key.now) }
    ensures order { IfOk result (λ number. Renumbers (number_for order.old) (number_for order.new) key.now (Some number)) }
    ensures same_slots { OnErr result ((number : ℕ) → slab.get slots.new number ≡ slab.get slots.old number) }
    ensures same_order { OnErr result (SameNumbers (number_for order.old) (number_for order.new)) }
{
    let own = key.copy()?;
    let slot = HashedSlot::of_key(key.copy()?);
    slots.reserve(1)?;
    let number = next_number(slots)?;
    order.insert(own, number)?;
    slots.insert_reserved(slot);
    Ok(number)
}

// Room for so many more keys and slots.
fn make_room_for<H: BuildHasher + Drop>(
    numbers: &mut HashMap<Key, SlotNumber, H>,
    slots: &mut Slab<HashedSlot>,
    additional: usize,
) -> Result<(), OutOfMemory>
    ensures same_slots { (number : ℕ) → slab.get slots.new number ≡ slab.get slots.old number }
    ensures same_hashed { SameNumbers (hash.get (eq_by_cmp key_cmp) numbers.old) (hash.get (eq_by_cmp key_cmp) numbers.new) }
{
    numbers.reserve(additional)?;
    slots.reserve(additional)?;
    Ok(())
}

// No slot of a key, where no row is in it.
fn drop_slot<H: BuildHasher + Drop>(
    numbers: &mut HashMap<Key, SlotNumber, H>,
    order: &mut KeyOrder,
    slots: &mut Slab<HashedSlot>,
    key: &Key,
)
    ensures slots { DropsSlot slots.old slots.new (number_to_drop slots.old (hash.get (eq_by_cmp key_cmp) numbers.old key.now)) }
    ensures order { Unnumbers (number_for order.old) (number_for order.new) key.now (number_to_drop slots.old (hash.get (eq_by_cmp key_cmp) numbers.old key.now)) }
    ensures hashed { Unnumbers (hash.get (eq_by_cmp key_cmp) numbers.old) (hash.get (eq_by_cmp key_cmp) numbers.new) key.now (number_to_drop slots.old (hash.get (eq_by_cmp key_cmp) numbers.old key.now)) }
{
    let Some(number) = number_of_empty(numbers, slots, key) else {
        return;
    };
    numbers.remove(key);
    order.remove(key);
    slots.try_remove(number as usize);
}

// The number of a key's slot, if no row is in it.
fn number_of_empty<H: BuildHasher + Drop>(
    numbers: &HashMap<Key, SlotNumber, H>,
    slots: &Slab<HashedSlot>,
    key: &Key,
) -> Option<SlotNumber>
    ensures { result ≡ number_to_drop slots.now (hash.get (eq_by_cmp key_cmp) numbers.now key.now) }
{
    let number = number_of(numbers, key);
    match view_at(slots, number) {
        Some(_) => None,
        None => number,
    }
}
