// One table: its rows, and an index for each unique key.
ghost use Rattle.std.specs.Prelude.{◌≡◌, ◌≢◌, ◌+◌, ◌-◌, ◌<◌, ◌≤◌, IfOk, OnOk, OnErr, IfSome, IfNone, IsSome, Some, None, true, [], length, ◌^◌};
ghost use Rattle.std.specs.FinMap as finite;
ghost use Rattle.std.specs.Box.{box_value};
ghost use Rattle.std.specs.List.{AllByRecursion, Contains};
ghost use Rattle.model.specs.Rows.{values_in, keys_of};
ghost use Rattle.indexes.specs.Unique.{HasNone, columns_of};
ghost use Rattle.model.specs.declared.key.Key.{Key as AnyKey};
ghost use Rattle.indexes.specs.Table.{Spot, IsSound, IsOfSettled, IsFilled, ReleasesSpot, HasValues, IsDuplicate, KeepsValues, NoClash, KeepsSpots, spots_of, unique_at, TellsTaken};

use crate::columns::key_of;
use crate::refused::Refused;
use crate::seed::Seed;
use crate::unique::{
    Unique, agree_in_each, copy_each, copy_numbers, make_room_in_each, put_each, reserve_each,
    set_each, settle_each,
};
use model::{Key, OutOfMemory, Row, TableDef};
use rows::{HashedRows, RowView, Walk};
use std::alloc::Global;
use std::marker::Model;

/// One table: rows with a primary key and unique keys. A clause sees its keys' columns, its rows by
/// their keys, and its room.
#[derive(Debug, Drop)]
pub struct Table {
    primary: Vec<usize>,
    uniques: Vec<Unique>,
    rows: HashedRows<Seed>,
    seed: Seed,
    alloc: Global,
}

impl Model for Table {
    ghost use Rattle.indexes.specs.Table.{TableContent};

    ghost Value = { TableContent };

    ghost use Rattle.indexes.specs.Codes.{table_code};

    ghost coded = { table_code };

    ghost use Rattle.indexes.specs.Indexed.{content_of, IsIndexed};

    ghost view = { content_of };

    ghost invariant = { λ a. IsIndexed a.primary.items a.rows a.uniques.items };
}

impl Table {
    /// The empty table of a definition, whose indexes hash from a seed.
    pub fn of_definition(
        alloc: Global,
        definition: &TableDef,
        seed: Seed,
    ) -> Result<Table, OutOfMemory>
        ensures keys { IfOk result (λ table. table.keys ≡ keys_of definition.now) }
        ensures empty { IfOk result (λ table. table.rows ≡ finite.empty) }
        ensures room { IfOk result (λ table. table.room ≡ []) }
        ensures sound { IfOk result IsSound }
    {
        let mut uniques = Vec::new(alloc);
        for columns in definition.uniques() {
            uniques.push(Unique::new(alloc, columns.numbers(), seed)?)?;
        }
        let primary = copy_numbers(alloc, definition.primary().numbers())?;
        Ok(Table::empty(alloc, primary, uniques, seed))
    }

    /// An equal table.
    pub fn copy(&self) -> Result<Table, OutOfMemory>
        ensures { IfOk result (λ copy. copy ≡ self.now) }
    {
        Ok(Table {
            primary: copy_numbers(self.alloc, self.primary.as_slice())?,
            uniques: copy_each(self.alloc, self.uniques.as_slice())?,
            rows: self.rows.copy()?,
            seed: self.seed,
            alloc: self.alloc,
        })
    }

    // An equal table, in a box of its own.
    pub(crate) fn boxed_copy(&self) -> Result<Box<Table>, OutOfMemory>
        ensures { IfOk result (λ copy. box_value copy ≡ self.now) }
    {
        Ok(Box::new(self.alloc, self.copy()?)?)
    }

    fn empty(alloc: Global, primary: Vec<usize>, uniques: Vec<Unique>, seed: Seed) -> Table
        requires { AllByRecursion HasNone uniques.items }
        ensures keys { result.keys ≡ record { primary = primary.items; uniques = columns_of uniques.items } }
        ensures empty { result.rows ≡ finite.empty }
        ensures room { result.room ≡ [] }
        ensures sound { IsSound result }
    {
        Table {
            primary,
            uniques,
            rows: HashedRows::with_hasher(alloc, seed),
            seed,
            alloc,
        }
    }

    /// How many unique keys it has.
    pub fn unique_count(&self) -> usize
        ensures { result ≡ length self.now.keys.uniques }
    {
        self.uniques.len()
    }

    /// Tells a proof what its type keeps: each row stands at its own key, no two agree in a unique key,
    /// and there is room for what they fill. It does nothing.
    pub fn recall_invariant(&self)
        ensures { IsSound self.now }
    {
        let _count = self.uniques.len();
    }

    /// The row at a key.
    pub fn get(&self, key: &Key) -> Option<RowView<'_>>
        ensures { result ≡ finite.get self.now.rows key.now }
    {
        self.rows.get(key)
    }

    /// The rows, in key order. It takes no memory.
    pub fn walk(&self) -> Walk<'_>
        ensures rows { result ≡ finite.values self.now.rows }
        ensures fits { length result < 2 ^ 63 }
    {
        self.rows.walk()
    }

    /// A row's primary key; none if a value of it is null.
    pub fn key_of(&self, row: &Row) -> Result<Option<Key>, OutOfMemory>
        ensures { IfOk result (λ key. key ≡ values_in self.now.keys.primary row.now) }
    {
        key_of(self.alloc, self.primary.as_slice(), row)
    }

    /// The columns of its primary key. It takes no memory.
    pub fn primary_columns(&self) -> &[usize]
        ensures { result.now ≡ self.now.keys.primary }
    {
        self.primary.as_slice()
    }

    /// The columns of a unique key, by its number from 1. It takes no memory.
    pub fn unique_columns(&self, number: usize) -> &[usize]
        requires { (1 ≤ number) × (number ≤ length self.now.keys.uniques) }
        ensures { result.now ≡ unique_at self.now.keys number }
    {
        self.uniques[number - 1].columns.as_slice()
    }

    /// A row's values in a unique key, by the key's number from 1; none if one of them is null.
    pub fn unique_of(&self, number: usize, row: &Row) -> Result<Option<Key>, OutOfMemory>
        requires { (1 ≤ number) × (number ≤ length self.now.keys.uniques) }
        ensures { IfOk result (λ key. key ≡ values_in (unique_at self.now.keys number) row.now) }
    {
        key_of(self.alloc, self.unique_columns(number), row)
    }

    /// The key of the row that has these values in a unique key, by the key's number from 1. It
    /// takes no memory.
    pub fn find_unique(&self, number: usize, values: &Key) -> Option<&Key>
        requires { (1 ≤ number) × (number ≤ length self.now.keys.uniques) }
        ensures found { IfSome result (λ key. HasValues self.now.rows (unique_at self.now.keys number) key.now values.now) }
        ensures missed { IfNone result ((key : AnyKey) → ¬ HasValues self.now.rows (unique_at self.now.keys number) key values.now) }
    {
        match self.uniques[number - 1].find(values) {
            Some(slot) => self.rows.key_at(slot),
            None => None,
        }
    }

    /// The key of the row that agrees with this one in a unique key, by the key's number from 1. It
    /// takes no memory.
    pub fn find_duplicate(&self, number: usize, row: &Row) -> Option<&Key>
        requires { (1 ≤ number) × (number ≤ length self.now.keys.uniques) }
        ensures found { IfSome result (λ key. IsDuplicate self.now.rows (unique_at self.now.keys number) key.now row.now) }
        ensures missed { IfNone result ((key : AnyKey) → ¬ IsDuplicate self.now.rows (unique_at self.now.keys number) key row.now) }
    {
        match self.uniques[number - 1].find_duplicate(row) {
            Some(slot) => self.rows.key_at(slot),
            None => None,
        }
    }

    // Makes the slot of a key, and the entries of a row's unique values.
    fn reserve(&mut self, key: &Key, row: &Row) -> Result<(), OutOfMemory>
        requires { values_in self.old.keys.primary row.now ≡ Some key.now }
        ensures keys { self.new.keys ≡ self.old.keys }
        ensures rows { self.new.rows ≡ self.old.rows }
        ensures kept { KeepsSpots self.old.room self.new.room }
        ensures ok { OnOk result (KeepsSpots (spots_of self.new.keys row.now) self.new.room) }
        ensures sound { IsSound self.new }
    {
        self.rows.reserve(key)?;
        reserve_each(&mut self.uniques, row)
    }

    /// Makes room for so many more rows: putting them moves none that is there. A refusal changes no
    /// row.
    pub fn make_room(&mut self, additional: usize) -> Result<(), OutOfMemory>
        ensures keys { self.new.keys ≡ self.old.keys }
        ensures rows { self.new.rows ≡ self.old.rows }
        ensures kept { KeepsSpots self.old.room self.new.room }
        ensures sound { IsSound self.new }
    {
        self.rows.make_room(additional)?;
        make_room_in_each(&mut self.uniques, additional)
    }

    /// Takes a `remove` back: puts a row at its key, where there is room for it. It takes no memory.
    pub fn put_back(&mut self, key: &Key, row: Row)
        requires own_key { values_in self.old.keys.primary row ≡ Some key.now }
        requires free { finite.get self.old.rows key.now ≡ None }
        requires unique { NoClash self.old.keys self.old.rows row }
        requires room { KeepsSpots (spots_of self.old.keys row) self.old.room }
        ensures keys { self.new.keys ≡ self.old.keys }
        ensures rows { self.new.rows ≡ finite.insert self.old.rows key.now row }
        ensures kept { KeepsSpots self.old.room self.new.room }
        ensures sound { IsSound self.new }
    {
        let number = self.rows.slot(key);
        set_each(&mut self.uniques, &row, number);
        self.rows.restore(key, row);
    }

    /// The row at a key goes. It takes no memory.
    pub fn remove(&mut self, key: &Key) -> Row
        requires { IsSome (finite.get self.old.rows key.now) }
        ensures keys { self.new.keys ≡ self.old.keys }
        ensures rows { self.new.rows ≡ finite.remove self.old.rows key.now }
        ensures stood { finite.get self.old.rows key.now ≡ Some result }
        ensures kept { KeepsSpots self.old.room self.new.room }
        ensures sound { IsSound self.new }
    {
        match self.rows.take(key) {
            Some(row) => {
                set_each(&mut self.uniques, &row, None);
                row
            }
            None => unreachable!(),
        }
    }

    /// A row comes into the table. Where it agrees with another in a key, the least such key is named.
    /// A refusal changes no row.
    pub fn put(&mut self, key: &Key, row: Row) -> Result<(), Refused>
        requires { values_in self.old.keys.primary row ≡ Some key.now }
        ensures keys { self.new.keys ≡ self.old.keys }
        ensures ok { OnOk result (self.new.rows ≡ finite.insert self.old.rows key.now row) }
        ensures err { OnErr result (self.new.rows ≡ self.old.rows) }
        ensures told { TellsTaken self.old.keys self.old.rows key.now row result }
        ensures kept { KeepsSpots self.old.room self.new.room }
        ensures room { OnOk result (KeepsSpots (spots_of self.new.keys row) self.new.room) }
        ensures sound { IsSound self.new }
    {
        let number = self.rows.reserve(key)?;
        if self.rows.row_at(number).is_some() {
            return Err(Refused::Taken(0));
        }
        put_each(&mut self.uniques, &row, number)?;
        self.rows.replace_at(number, row);
        Ok(())
    }

    /// Takes a `replace` back: the row at `new_key` goes, and this one comes to `key` again, where
    /// there is room for it. It takes no memory.
    pub fn replace_back(&mut self, new_key: &Key, key: &Key, row: Row) -> Row
        requires there { IsSome (finite.get self.old.rows new_key.now) }
        requires own_key { values_in self.old.keys.primary row ≡ Some key.now }
        requires free { finite.get (finite.remove self.old.rows new_key.now) key.now ≡ None }
        requires unique { NoClash self.old.keys (finite.remove self.old.rows new_key.now) row }
        requires room { KeepsSpots (spots_of self.old.keys row) self.old.room }
        ensures keys { self.new.keys ≡ self.old.keys }
        ensures rows { self.new.rows ≡ finite.insert (finite.remove self.old.rows new_key.now) key.now row }
        ensures stood { finite.get self.old.rows new_key.now ≡ Some result }
        ensures kept { KeepsSpots self.old.room self.new.room }
        ensures sound { IsSound self.new }
    {
        let stood = self.remove(new_key);
        self.put_back(key, row);
        stood
    }

    // Whether a row has the values of the one at a key in each unique key.
    fn keeps_values(&self, key: &Key, row: &Row) -> Result<bool, OutOfMemory>
        ensures values { IfOk result (λ kept. kept ≡ true → KeepsValues self.now key.now row.now) }
        ensures sound { IsSound self.now }
    {
        self.recall_invariant();
        match self.rows.get(key) {
            Some(stood) => {
                let stood = stood.to_row()?;
                Ok(agree_in_each(self.uniques.as_slice(), row, &stood))
            }
            None => Ok(false),
        }
    }

    // A row takes the place of the one at its key, whose unique values it has: no index changes.
    fn swap(&mut self, key: &Key, row: Row) -> Row
        requires there { IsSome (finite.get self.old.rows key.now) }
        requires own_key { values_in self.old.keys.primary row ≡ Some key.now }
        requires values { KeepsValues self.old key.now row }
        ensures keys { self.new.keys ≡ self.old.keys }
        ensures rows { self.new.rows ≡ finite.insert self.old.rows key.now row }
        ensures stood { finite.get self.old.rows key.now ≡ Some result }
        ensures kept { KeepsSpots self.old.room self.new.room }
        ensures room { KeepsSpots (spots_of self.new.keys row) self.new.room }
        ensures sound { IsSound self.new }
    {
        match self.rows.replace(key, row) {
            Some(stood) => stood,
            None => unreachable!(),
        }
    }

    /// A row takes the place of the one at a key, and may have another key. The answer is the row
    /// that stood there. A refusal changes no row.
    pub fn replace(&mut self, key: &Key, new_key: &Key, row: Row) -> Result<Row, OutOfMemory>
        requires there { IsSome (finite.get self.old.rows key.now) }
        requires own_key { values_in self.old.keys.primary row ≡ Some new_key.now }
        requires free { finite.get (finite.remove self.old.rows key.now) new_key.now ≡ None }
        requires unique { NoClash self.old.keys (finite.remove self.old.rows key.now) row }
        ensures keys { self.new.keys ≡ self.old.keys }
        ensures ok { OnOk result (self.new.rows ≡ finite.insert (finite.remove self.old.rows key.now) new_key.now row) }
        ensures stood { IfOk result (λ stood. finite.get self.old.rows key.now ≡ Some stood) }
        ensures err { OnErr result (self.new.rows ≡ self.old.rows) }
        ensures kept { KeepsSpots self.old.room self.new.room }
        ensures room { OnOk result (KeepsSpots (spots_of self.new.keys row) self.new.room) }
        ensures sound { IsSound self.new }
    {
        if *key == *new_key && self.keeps_values(key, &row)? {
            return Ok(self.swap(key, row));
        }
        self.reserve(new_key, &row)?;
        Ok(self.replace_back(key, new_key, row))
    }

    /// Takes a `put` back: the row at a key goes. It takes no memory.
    pub fn take_back(&mut self, key: &Key)
        requires { IsSome (finite.get self.old.rows key.now) }
        ensures keys { self.new.keys ≡ self.old.keys }
        ensures rows { self.new.rows ≡ finite.remove self.old.rows key.now }
        ensures kept { KeepsSpots self.old.room self.new.room }
        ensures sound { IsSound self.new }
    {
        self.remove(key);
    }

    /// Drops the slot of a key and the entries of a row's unique values, where they are empty. It
    /// takes no memory.
    pub fn settle(&mut self, key: &Key, row: &Row)
        ensures keys { self.new.keys ≡ self.old.keys }
        ensures rows { self.new.rows ≡ self.old.rows }
        ensures gone { (s : Spot) → IsOfSettled self.old.keys key.now row.now s → ¬ IsFilled self.old.keys self.old.rows s → ¬ Contains self.new.room s }
        ensures fewer { KeepsSpots self.new.room self.old.room }
        ensures others { (s : Spot) → ¬ Contains (spots_of self.old.keys row.now) s → s ≢ (0, key.now) → Contains self.old.room s → Contains self.new.room s }
        ensures sound { IsSound self.new }
    {
        self.rows.settle(key);
        settle_each(&mut self.uniques, row);
    }

    /// Drops the slot of a key where no row is in it. It takes no memory.
    pub fn release_key(&mut self, key: &Key)
        ensures released { ReleasesSpot self.old self.new (0, key.now) }
        ensures sound { IsSound self.new }
    {
        self.rows.settle(key);
    }

    /// Drops the entry of values in a unique key, by the key's number from 1, where no row has them.
    /// For a number that is no unique key's it does nothing. It takes no memory.
    pub fn release_values(&mut self, number: usize, values: &Key)
        ensures released { 1 ≤ number → ReleasesSpot self.old self.new (number, values.now) }
        ensures no_key { ¬ ((1 ≤ number) × (number ≤ length self.old.keys.uniques)) → self.new ≡ self.old }
        ensures sound { IsSound self.new }
    {
        if 1 <= number && number <= self.uniques.len() {
            self.uniques[number - 1].release(values);
        }
    }
}
