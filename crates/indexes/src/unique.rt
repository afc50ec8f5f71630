// The index of a unique key.
ghost use Rattle.std.specs.Prelude.{◌≡◌, ◌+◌, ◌<◌, ◌^◌, not, map, length, IfOk, OnOk, OnErr, IsSome, is_some, if◌then◌else◌, Some, None, true, false};
ghost use Rattle.std.specs.Option.{unwrap_or};
ghost use Rattle.std.specs.Ordering.{eq_by_cmp};
ghost use Rattle.model.specs.Rows.{values_in};
ghost use Rattle.indexes.specs.Columns.{present};
ghost use Rattle.model.specs.Key.{key_cmp};
ghost use Rattle.indexes.specs.Unique.{plain, HasNone, held, held_by, entry_at, with_number, SameApart, KeepsEntries, HasEntry, SetsEntry, PutsEntry, DropsEntry, SettlesEntry, KeepsSlots, HasSlot, Sets, Puts, Settles, ReleasesValues, EachStep, EachHasSlot, EachAgrees, is_used, first_used};
ghost use Rattle.indexes.specs.Refused.{Tells};

use crate::columns::{agree, has_values};
use crate::kept_values::{KeptValues, SharedColumns};
use crate::refused::Refused;
use crate::seed::Seed;
use crate::sought::Sought;
use model::{Key, OutOfMemory, Row};
use rows::SlotNumber;
use std::alloc::Global;
use std::collections::HashMap;

// A unique key's columns, and from its values to the number of the slot that the row with these
// values lies in. An entry whose row went stays, with no number, until it is settled.
#[derive(Debug, Drop)]
pub(crate) struct Unique {
    pub(crate) columns: SharedColumns,
    pub(crate) entries: HashMap<KeptValues, Option<SlotNumber>, Seed>,
}

impl Unique {
    // The index of a unique key over these columns, with no entries.
    pub(crate) fn new(alloc: Global, columns: &[usize], seed: Seed) -> Result<Unique, OutOfMemory>
        ensures columns { IfOk result (λ unique. unique.columns ≡ columns.now) }
        ensures none { IfOk result HasNone }
    {
        Ok(Unique {
            columns: SharedColumns::of(alloc, columns)?,
            entries: HashMap::with_hasher(alloc, seed),
        })
    }

    // The index of the same unique key with the same entries.
    fn copy(&self) -> Result<Unique, OutOfMemory>
        ensures { IfOk result (λ copy. plain copy ≡ plain self.now) }
    {
        Ok(Unique {
            columns: self.columns.clone()?,
            entries: self.entries.clone()?,
        })
    }

    // The number of the slot that the row with these values lies in.
    pub(crate) fn find(&self, values: &Key) -> Option<SlotNumber>
        ensures { result ≡ held self.now.entries values.now }
    {
        match self.entries.get(values) {
            Some(number) => *number,
            None => None,
        }
    }

    // The number of the slot that a row with the same values as this one lies in.
    pub(crate) fn find_duplicate(&self, row: &Row) -> Option<SlotNumber>
        ensures { result ≡ held_by self.now.entries (values_in self.now.columns row.now) }
    {
        find_row(self.columns.as_slice(), &self.entries, row)
    }

    // Makes an entry for a row's values, if it has them all and there is none.
    fn reserve(&mut self, row: &Row) -> Result<(), OutOfMemory>
        ensures kept { KeepsSlots self.old self.new }
        ensures ok { OnOk result (HasSlot row.now self.new) }
    {
        reserve_entry(&self.columns, &mut self.entries, row)
    }

    // Writes a number, or none, at a row's values, if there is an entry for them.
    fn set(&mut self, row: &Row, number: Option<SlotNumber>)
        ensures { Sets row.now number self.old self.new }
    {
        set_entry(self.columns.as_slice(), &mut self.entries, row, number);
    }

    // Puts a number at a row's values, if it has them all, with an entry for it if there is none. Where
    // a number is there, it stays, and the answer names this key.
    fn put(&mut self, row: &Row, number: SlotNumber, key: usize) -> Result<(), Refused>
        ensures ok { OnOk result (Puts row.now number self.old self.new) }
        ensures err { OnErr result (KeepsSlots self.old self.new) }
        ensures told { Tells (if is_used row.now self.old then Some key else None) result }
    {
        put_entry(&self.columns, &mut self.entries, row, number, key)
    }

    // Makes room for so many more entries.
    fn make_room(&mut self, additional: usize) -> Result<(), OutOfMemory>
        ensures { KeepsSlots self.old self.new }
    {
        make_room_for(&mut self.entries, additional)
    }

    // Drops the entry for a row's values if it has no number.
    fn settle(&mut self, row: &Row)
        ensures { Settles row.now self.old self.new }
    {
        settle_entry(self.columns.as_slice(), &mut self.entries, row);
    }

    // Drops the entry for these values if it has no number.
    pub(crate) fn release(&mut self, values: &Key)
        ensures { ReleasesValues values.now self.old self.new }
    {
        release_entry(&mut self.entries, values);
    }
}

pub(crate) fn copy_numbers(alloc: Global, numbers: &[usize]) -> Result<Vec<usize>, OutOfMemory>
    ensures { IfOk result (λ copy. copy.items ≡ numbers.now) }
{
    let mut copy = Vec::new(alloc);
    for number in numbers {
        copy.push(*number)?;
    }
    Ok(copy)
}

// Each index again, with the same entries.
pub(crate) fn copy_each(alloc: Global, uniques: &[Unique]) -> Result<Vec<Unique>, OutOfMemory>
    ensures { IfOk result (λ copies. map plain copies.items ≡ map plain uniques.now) }
{
    let mut copies = Vec::new(alloc);
    for unique in uniques {
        copies.push(unique.copy()?)?;
    }
    Ok(copies)
}

// Whether two rows have the same values in each index.
pub(crate) fn agree_in_each(uniques: &[Unique], row: &Row, other: &Row) -> bool
    ensures { result ≡ true → EachAgrees row.now other.now uniques.now }
{
    for unique in uniques {
        if !agree(unique.columns.as_slice(), row, other) {
            return false;
        }
    }
    true
}

// An entry in each index for a row's values there.
pub(crate) fn reserve_each(uniques: &mut Vec<Unique>, row: &Row) -> Result<(), OutOfMemory>
    ensures kept { EachStep KeepsSlots uniques.old.items uniques.new.items }
    ensures ok { OnOk result (EachHasSlot row.now uniques.new.items) }
{
    reserve_all(uniques.as_mut_slice(), row)
}

fn reserve_all(uniques: &mut [Unique], row: &Row) -> Result<(), OutOfMemory>
    ensures kept { EachStep KeepsSlots uniques.old uniques.new }
    ensures ok { OnOk result (EachHasSlot row.now uniques.new) }
{
    for unique in uniques.iter_mut() {
        unique.reserve(row)?;
    }
    Ok(())
}

// Room for so many more entries in each index.
pub(crate) fn make_room_in_each(
    uniques: &mut Vec<Unique>,
    additional: usize,
) -> Result<(), OutOfMemory>
    ensures { EachStep KeepsSlots uniques.old.items uniques.new.items }
{
    make_room_in_all(uniques.as_mut_slice(), additional)
}

fn make_room_in_all(uniques: &mut [Unique], additional: usize) -> Result<(), OutOfMemory>
    ensures { EachStep KeepsSlots uniques.old uniques.new }
{
    for unique in uniques.iter_mut() {
        unique.make_room(additional)?;
    }
    Ok(())
}

// A number, or none, at a row's values in each index.
pub(crate) fn set_each(uniques: &mut Vec<Unique>, row: &Row, number: Option<SlotNumber>)
    ensures { EachStep (Sets row.now number) uniques.old.items uniques.new.items }
{
    set_all(uniques.as_mut_slice(), row, number);
}

fn set_all(uniques: &mut [Unique], row: &Row, number: Option<SlotNumber>)
    ensures { EachStep (Sets row.now number) uniques.old uniques.new }
{
    for unique in uniques.iter_mut() {
        unique.set(row, number);
    }
}

// A number at a row's values in each index, where none is. Where one is in some index, the answer
// names the least such key, by its number from 1; refused for it or for memory, no number comes.
pub(crate) fn put_each(
    uniques: &mut Vec<Unique>,
    row: &Row,
    number: SlotNumber,
) -> Result<(), Refused>
    ensures ok { OnOk result (EachStep (Puts row.now number) uniques.old.items uniques.new.items) }
    ensures err { OnErr result (EachStep KeepsSlots uniques.old.items uniques.new.items) }
    ensures told { Tells (first_used row.now 1 uniques.old.items) result }
{
    put_all(uniques.as_mut_slice(), row, number, 1)
}

// The same, of keys that are numbered from `key`.
fn put_all(uniques: &mut [Unique], row: &Row, number: SlotNumber, key: usize) -> Result<(), Refused>
    requires { key + length uniques.old < 2 ^ 64 }
    ensures ok { OnOk result (EachStep (Puts row.now number) uniques.old uniques.new) }
    ensures err { OnErr result (EachStep KeepsSlots uniques.old uniques.new) }
    ensures told { Tells (first_used row.now key uniques.old) result }
{
    let Some((unique, rest)) = uniques.split_first_mut() else {
        return Ok(());
    };
    unique.put(row, number, key)?;
    let put = put_all(rest, row, number, key + 1);
    if put.is_err() {
        unique.set(row, None);
    }
    put
}

// In each index, drops the entry for a row's values if it has no number.
pub(crate) fn settle_each(uniques: &mut Vec<Unique>, row: &Row)
    ensures { EachStep (Settles row.now) uniques.old.items uniques.new.items }
{
    settle_all(uniques.as_mut_slice(), row);
}

fn settle_all(uniques: &mut [Unique], row: &Row)
    ensures { EachStep (Settles row.now) uniques.old uniques.new }
{
    for unique in uniques.iter_mut() {
        unique.settle(row);
    }
}

fn find_row(
    columns: &[usize],
    entries: &HashMap<KeptValues, Option<SlotNumber>, Seed>,
    row: &Row,
) -> Option<SlotNumber>
    ensures { result ≡ held_by entries.now (values_in columns.now row.now) }
{
    if !has_values(columns, row) {
        return None;
    }
    match entries.get(Sought::of(columns, row)) {
        Some(number) => *number,
        None => None,
    }
}

fn reserve_entry(
    columns: &SharedColumns,
    entries: &mut HashMap<KeptValues, Option<SlotNumber>, Seed>,
    row: &Row,
) -> Result<(), OutOfMemory>
    ensures kept { KeepsEntries entries.old entries.new }
    ensures ok { OnOk result (HasEntry columns.now row.now entries.new) }
{
    if entries.contains_key(Sought::of(columns.as_slice(), row)) {
        return Ok(());
    }
    if let Some(values) = KeptValues::from_row(columns, row)? {
        add_entry(entries, values)?;
    }
    Ok(())
}

// Room for so many more entries.
fn make_room_for(
    entries: &mut HashMap<KeptValues, Option<SlotNumber>, Seed>,
    additional: usize,
) -> Result<(), OutOfMemory>
    ensures { KeepsEntries entries.old entries.new }
{
    entries.reserve(additional)?;
    Ok(())
}

// An entry with no number, for values that have none.
fn add_entry(
    entries: &mut HashMap<KeptValues, Option<SlotNumber>, Seed>,
    values: KeptValues,
) -> Result<(), OutOfMemory>
    requires { entry_at entries.old values ≡ None }
    ensures kept { KeepsEntries entries.old entries.new }
    ensures ok { OnOk result (IsSome (entry_at entries.new values)) }
{
    entries.insert(values, None)?;
    Ok(())
}

fn put_entry(
    columns: &SharedColumns,
    entries: &mut HashMap<KeptValues, Option<SlotNumber>, Seed>,
    row: &Row,
    number: SlotNumber,
    key: usize,
) -> Result<(), Refused>
    ensures ok { OnOk result (PutsEntry columns.now row.now number entries.old entries.new) }
    ensures err { OnErr result (KeepsEntries entries.old entries.new) }
    ensures told { Tells (if is_some (held_by entries.old (values_in columns.now row.now)) then Some key else None) result }
{
    if let Some(values) = KeptValues::from_row(columns, row)? {
        if !fill_entry(entries, values, number)? {
            return Err(Refused::Taken(key));
        }
    }
    Ok(())
}

// A number in the entry for some values, which comes if there is none. The answer is whether it came:
// one that is there stays. Where there is an entry, it keeps the row that it has. The values are hashed
// once.
fn fill_entry(
    entries: &mut HashMap<KeptValues, Option<SlotNumber>, Seed>,
    values: KeptValues,
    number: SlotNumber,
) -> Result<bool, OutOfMemory>
    ensures here { OnOk result (entry_at entries.new values ≡ Some (Some (unwrap_or (held entries.old values) number))) }
    ensures beside { SameApart values entries.old entries.new }
    ensures came { IfOk result (λ came. is_some (held entries.old values) ≡ not came) }
    ensures err { OnErr result (KeepsEntries entries.old entries.new) }
{
    let entry = entries.entry(values)?.or_insert(None);
    if entry.is_some() {
        return Ok(false);
    }
    *entry = Some(number);
    Ok(true)
}

fn set_entry(
    columns: &[usize],
    entries: &mut HashMap<KeptValues, Option<SlotNumber>, Seed>,
    row: &Row,
    number: Option<SlotNumber>,
)
    ensures { SetsEntry columns.now row.now number entries.old entries.new }
{
    if has_values(columns, row) {
        write_entry(entries, Sought::of(columns, row), number);
    }
}

// Writes a number, or none, at some values, if there is an entry for them.
fn write_entry(
    entries: &mut HashMap<KeptValues, Option<SlotNumber>, Seed>,
    values: Sought<'_>,
    number: Option<SlotNumber>,
)
    ensures here { entry_at entries.new (present values.entry.columns.now values.entry.row.now) ≡ with_number number (entry_at entries.old (present values.entry.columns.now values.entry.row.now)) }
    ensures beside { SameApart (present values.entry.columns.now values.entry.row.now) entries.old entries.new }
{
    if let Some(entry) = entries.get_mut(values) {
        *entry = number;
    }
}

fn settle_entry(
    columns: &[usize],
    entries: &mut HashMap<KeptValues, Option<SlotNumber>, Seed>,
    row: &Row,
)
    ensures { SettlesEntry columns.now row.now entries.old entries.new }
{
    if has_values(columns, row) {
        drop_entry(entries, Sought::of(columns, row));
    }
}

// Drops the entry for some values if it has no number.
fn drop_entry(entries: &mut HashMap<KeptValues, Option<SlotNumber>, Seed>, values: Sought<'_>)
    ensures { DropsEntry (present values.entry.columns.now values.entry.row.now) entries.old entries.new }
{
    if let Some(None) = entries.get(values) {
        entries.remove(values);
    }
}

// The same, for values that lie in a key.
fn release_entry(entries: &mut HashMap<KeptValues, Option<SlotNumber>, Seed>, key: &Key)
    ensures { DropsEntry key.now entries.old entries.new }
{
    if let Some(None) = entries.get(key) {
        entries.remove(key);
    }
}
