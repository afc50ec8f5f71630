// A table that isn't there until it is written to.
ghost use Rattle.std.specs.Prelude.{◌≡◌, ◌≢◌, ◌<◌, ◌≤◌, ◌^◌, [], Some, None, length, IfOk, OnOk, OnErr, IfSome, IfNone, IsSome};
ghost use Rattle.std.specs.FinMap as finite;
ghost use Rattle.std.specs.Box.{box_value};
ghost use Rattle.std.specs.List.{Contains};
ghost use Rattle.model.specs.Rows.{values_in, keys_of};
ghost use Rattle.model.specs.declared.key.Key.{Key as AnyKey};
ghost use Rattle.indexes.specs.Table.{Spot, IsSound, IsOfSettled, IsFilled, ReleasesSpot, HasValues, IsDuplicate, NoClash, KeepsSpots, spots_of, unique_at, TellsTaken};

use crate::refused::Refused;
use crate::seed::Seed;
use crate::table::Table;
use model::{Key, OutOfMemory, Row, TableDef};
use rows::{RowView, Walk};
use std::alloc::Global;
use std::marker::Model;
use std::mem;
use std::sync::Arc;

/// A table that is made when it is first written to. Until then it reads as an empty one, its pattern,
/// which its copies share. A clause sees it as a table.
#[derive(Debug, Drop)]
pub(crate) struct LazyTable {
    pattern: Arc<Table>,
    made: Option<Box<Table>>,
}

impl Model for LazyTable {
    ghost use Rattle.std.specs.Prelude.{option_map};
    ghost use Rattle.std.specs.Arc.{arc_value};
    ghost use Rattle.std.specs.Box.{box_value};
    ghost use Rattle.indexes.specs.Table.{TableContent};

    ghost Value = { TableContent };

    ghost use Rattle.indexes.specs.Codes.{table_code};

    ghost coded = { table_code };

    ghost use Rattle.indexes.specs.Lazy.{shown, IsLazy};

    ghost view = { λ a. shown (arc_value a.pattern) (option_map box_value a.made) };

    ghost invariant = { λ a. IsLazy (arc_value a.pattern) (option_map box_value a.made) };
}

/// A table's whole content, moved out of it. A clause sees it as a table by itself.
#[derive(Debug, Drop)]
pub struct Contents {
    table: LazyTable,
}

impl Model for Contents {
    ghost use Rattle.indexes.specs.Table.{TableContent, IsSound};
    ghost use Rattle.indexes.specs.Codes.{table_code};

    ghost Value = { TableContent };

    ghost coded = { table_code };

    ghost view = { λ a. a.table };

    ghost invariant = { λ a. IsSound a.table };
}

impl Contents {
    /// The row that the table held at a key. It takes no memory.
    pub fn get(&self, key: &Key) -> Option<RowView<'_>>
        ensures { result ≡ finite.get self.now.rows key.now }
    {
        self.table.get(key)
    }

    /// The rows that the table held, in key order. It takes no memory.
    pub fn walk(&self) -> Walk<'_>
        ensures rows { result ≡ finite.values self.now.rows }
        ensures fits { length result < 2 ^ 63 }
        ensures sound { IsSound self.now }
    {
        self.table.recall_invariant();
        self.table.walk()
    }

    /// A row's primary key; none if a value of it is null.
    pub fn key_of(&self, row: &Row) -> Result<Option<Key>, OutOfMemory>
        ensures { IfOk result (λ key. key ≡ values_in self.now.keys.primary row.now) }
    {
        self.table.key_of(row)
    }
}

impl LazyTable {
    /// The empty table of a definition, whose indexes hash from a seed.
    pub(crate) fn of_definition(
        alloc: Global,
        definition: &TableDef,
        seed: Seed,
    ) -> Result<LazyTable, OutOfMemory>
        ensures keys { IfOk result (λ table. table.keys ≡ keys_of definition.now) }
        ensures empty { IfOk result (λ table. table.rows ≡ finite.empty) }
        ensures sound { IfOk result IsSound }
    {
        let pattern = Table::of_definition(alloc, definition, seed)?;
        Ok(LazyTable {
            pattern: Arc::new(alloc, pattern)?,
            made: None,
        })
    }

    /// An equal table. It takes memory only if somebody wrote to this one.
    pub(crate) fn copy(&self) -> Result<LazyTable, OutOfMemory>
        ensures { IfOk result (λ copy. copy ≡ self.now) }
    {
        let pattern = Arc::try_clone(&self.pattern)?;
        match &self.made {
            Some(table) => Ok(LazyTable {
                pattern,
                made: Some(table.boxed_copy()?),
            }),
            None => Ok(LazyTable {
                pattern,
                made: None,
            }),
        }
    }

    /// An empty table with the same keys. It takes no memory.
    pub(crate) fn emptied(&self) -> Result<LazyTable, OutOfMemory>
        ensures keys { IfOk result (λ table. table.keys ≡ self.now.keys) }
        ensures empty { IfOk result (λ table. table.rows ≡ finite.empty) }
        ensures sound { IfOk result IsSound }
    {
        Ok(LazyTable {
            pattern: Arc::try_clone(&self.pattern)?,
            made: None,
        })
    }

    // The table that it reads as.
    fn shown(&self) -> &Table
        ensures { result.now ≡ self.now }
    {
        match &self.made {
            Some(table) => table,
            None => &self.pattern,
        }
    }

    // Takes the table out, made now if nobody wrote to it before: what takes memory is here alone. A
    // refusal changes nothing.
    fn take(&mut self) -> Result<Box<Table>, OutOfMemory>
        ensures keys { self.new.keys ≡ self.old.keys }
        ensures ok { IfOk result (λ table. box_value table ≡ self.old) }
        ensures err { OnErr result (self.new ≡ self.old) }
    {
        match self.made.take() {
            Some(table) => Ok(table),
            None => self.pattern.boxed_copy(),
        }
    }

    /// How many unique keys it has.
    pub(crate) fn unique_count(&self) -> usize
        ensures { result ≡ length self.now.keys.uniques }
    {
        self.shown().unique_count()
    }

    /// Tells a proof what its type keeps, as a table's does. It does nothing.
    pub(crate) fn recall_invariant(&self)
        ensures { IsSound self.now }
    {
        self.shown().recall_invariant();
    }

    /// The row at a key.
    pub(crate) fn get(&self, key: &Key) -> Option<RowView<'_>>
        ensures { result ≡ finite.get self.now.rows key.now }
    {
        self.shown().get(key)
    }

    /// The rows, in key order. It takes no memory.
    pub(crate) fn walk(&self) -> Walk<'_>
        ensures rows { result ≡ finite.values self.now.rows }
        ensures fits { length result < 2 ^ 63 }
    {
        self.shown().walk()
    }

    /// A row's primary key; none if a value of it is null.
    pub(crate) fn key_of(&self, row: &Row) -> Result<Option<Key>, OutOfMemory>
        ensures { IfOk result (λ key. key ≡ values_in self.now.keys.primary row.now) }
    {
        self.shown().key_of(row)
    }

    /// The columns of its primary key. It takes no memory.
    pub(crate) fn primary_columns(&self) -> &[usize]
        ensures { result.now ≡ self.now.keys.primary }
    {
        self.shown().primary_columns()
    }

    /// The columns of a unique key, by its number from 1. It takes no memory.
    pub(crate) fn unique_columns(&self, number: usize) -> &[usize]
        requires { (1 ≤ number) × (number ≤ length self.now.keys.uniques) }
        ensures { result.now ≡ unique_at self.now.keys number }
    {
        self.shown().unique_columns(number)
    }

    /// A row's values in a unique key, by the key's number from 1; none if one of them is null.
    pub(crate) fn unique_of(&self, number: usize, row: &Row) -> Result<Option<Key>, OutOfMemory>
        requires { (1 ≤ number) × (number ≤ length self.now.keys.uniques) }
        ensures { IfOk result (λ key. key ≡ values_in (unique_at self.now.keys number) row.now) }
    {
        self.shown().unique_of(number, row)
    }

    /// The key of the row that has these values in a unique key, by the key's number from 1. It
    /// takes no memory.
    pub(crate) fn find_unique(&self, number: usize, values: &Key) -> Option<&Key>
        requires { (1 ≤ number) × (number ≤ length self.now.keys.uniques) }
        ensures found { IfSome result (λ key. HasValues self.now.rows (unique_at self.now.keys number) key.now values.now) }
        ensures missed { IfNone result ((key : AnyKey) → ¬ HasValues self.now.rows (unique_at self.now.keys number) key values.now) }
    {
        self.shown().find_unique(number, values)
    }

    /// The key of the row that agrees with this one in a unique key, by the key's number from 1. It
    /// takes no memory.
    pub(crate) fn find_duplicate(&self, number: usize, row: &Row) -> Option<&Key>
        requires { (1 ≤ number) × (number ≤ length self.now.keys.uniques) }
        ensures found { IfSome result (λ key. IsDuplicate self.now.rows (unique_at self.now.keys number) key.now row.now) }
        ensures missed { IfNone result ((key : AnyKey) → ¬ IsDuplicate self.now.rows (unique_at self.now.keys number) key row.now) }
    {
        self.shown().find_duplicate(number, row)
    }

    /// Makes room for so many more rows: putting them moves none that is there. A refusal changes no
    /// row.
    pub(crate) fn make_room(&mut self, additional: usize) -> Result<(), OutOfMemory>
        ensures keys { self.new.keys ≡ self.old.keys }
        ensures rows { self.new.rows ≡ self.old.rows }
        ensures kept { KeepsSpots self.old.room self.new.room }
        ensures sound { IsSound self.new }
    {
        self.recall_invariant();
        let mut table = self.take()?;
        let made = table.make_room(additional);
        self.made = Some(table);
        made
    }

    /// Takes a `remove` back: puts a row at its key, where there is room for it. It takes no memory.
    pub(crate) fn put_back(&mut self, key: &Key, row: Row)
        requires own_key { values_in self.old.keys.primary row ≡ Some key.now }
        requires free { finite.get self.old.rows key.now ≡ None }
        requires unique { NoClash self.old.keys self.old.rows row }
        requires room { KeepsSpots (spots_of self.old.keys row) self.old.room }
        ensures keys { self.new.keys ≡ self.old.keys }
        ensures rows { self.new.rows ≡ finite.insert self.old.rows key.now row }
        ensures kept { KeepsSpots self.old.room self.new.room }
        ensures sound { IsSound self.new }
    {
        match &mut self.made {
            Some(table) => table.put_back(key, row),
            None => unreachable!(),
        }
    }

    /// The row at a key goes. It takes no memory.
    pub(crate) fn remove(&mut self, key: &Key) -> Row
        requires { IsSome (finite.get self.old.rows key.now) }
        ensures keys { self.new.keys ≡ self.old.keys }
        ensures rows { self.new.rows ≡ finite.remove self.old.rows key.now }
        ensures stood { finite.get self.old.rows key.now ≡ Some result }
        ensures kept { KeepsSpots self.old.room self.new.room }
        ensures sound { IsSound self.new }
    {
        match &mut self.made {
            Some(table) => table.remove(key),
            None => unreachable!(),
        }
    }

    /// A row comes into the table. Where it agrees with another in a key, the least such key is named.
    /// A refusal changes no row.
    pub(crate) fn put(&mut self, key: &Key, row: Row) -> Result<(), Refused>
        requires { values_in self.old.keys.primary row ≡ Some key.now }
        ensures keys { self.new.keys ≡ self.old.keys }
        ensures ok { OnOk result (self.new.rows ≡ finite.insert self.old.rows key.now row) }
        ensures err { OnErr result (self.new.rows ≡ self.old.rows) }
        ensures told { TellsTaken self.old.keys self.old.rows key.now row result }
        ensures kept { KeepsSpots self.old.room self.new.room }
        ensures room { OnOk result (KeepsSpots (spots_of self.new.keys row) self.new.room) }
        ensures sound { IsSound self.new }
    {
        self.recall_invariant();
        let mut table = self.take()?;
        let put = table.put(key, row);
        self.made = Some(table);
        put
    }

    /// Takes a `replace` back: the row at `new_key` goes, and this one comes to `key` again, where
    /// there is room for it. It takes no memory.
    pub(crate) fn replace_back(&mut self, new_key: &Key, key: &Key, row: Row) -> Row
        requires there { IsSome (finite.get self.old.rows new_key.now) }
        requires own_key { values_in self.old.keys.primary row ≡ Some key.now }
        requires free { finite.get (finite.remove self.old.rows new_key.now) key.now ≡ None }
        requires unique { NoClash self.old.keys (finite.remove self.old.rows new_key.now) row }
        requires room { KeepsSpots (spots_of self.old.keys row) self.old.room }
        ensures keys { self.new.keys ≡ self.old.keys }
        ensures rows { self.new.rows ≡ finite.insert (finite.remove self.old.rows new_key.now) key.now row }
        ensures stood { finite.get self.old.rows new_key.now ≡ Some result }
        ensures kept { KeepsSpots self.old.room self.new.room }
        ensures sound { IsSound self.new }
    {
        match &mut self.made {
            Some(table) => table.replace_back(new_key, key, row),
            None => unreachable!(),
        }
    }

    /// A row takes the place of the one at a key, and may have another key. The answer is the row
    /// that stood there. A refusal changes no row.
    pub(crate) fn replace(&mut self, key: &Key, new_key: &Key, row: Row) -> Result<Row, OutOfMemory>
        requires there { IsSome (finite.get self.old.rows key.now) }
        requires own_key { values_in self.old.keys.primary row ≡ Some new_key.now }
        requires free { finite.get (finite.remove self.old.rows key.now) new_key.now ≡ None }
        requires unique { NoClash self.old.keys (finite.remove self.old.rows key.now) row }
        ensures keys { self.new.keys ≡ self.old.keys }
        ensures ok { OnOk result (self.new.rows ≡ finite.insert (finite.remove self.old.rows key.now) new_key.now row) }
        ensures stood { IfOk result (λ stood. finite.get self.old.rows key.now ≡ Some stood) }
        ensures err { OnErr result (self.new.rows ≡ self.old.rows) }
        ensures kept { KeepsSpots self.old.room self.new.room }
        ensures room { OnOk result (KeepsSpots (spots_of self.new.keys row) self.new.room) }
        ensures sound { IsSound self.new }
    {
        match &mut self.made {
            Some(table) => table.replace(key, new_key, row),
            None => unreachable!(),
        }
    }

    /// All rows go, moved out with their room: none is copied. A refusal changes nothing. It takes no
    /// memory.
    pub(crate) fn wipe(&mut self) -> Result<Contents, OutOfMemory>
        ensures keys { self.new.keys ≡ self.old.keys }
        ensures empty { OnOk result (self.new.rows ≡ finite.empty) }
        ensures out { IfOk result (λ contents. contents ≡ self.old) }
        ensures err { OnErr result (self.new ≡ self.old) }
        ensures sound { IsSound self.new }
    {
        self.recall_invariant();
        let emptied = self.emptied()?;
        Ok(Contents {
            table: mem::replace(self, emptied),
        })
    }

    /// Takes a `wipe` back: moves the content in again, in place of an empty table of the same keys.
    /// It takes no memory.
    pub(crate) fn unwipe(&mut self, contents: Contents)
        requires keys { contents.keys ≡ self.old.keys }
        requires empty { (key : AnyKey) → finite.get self.old.rows key ≡ None }
        ensures back { self.new ≡ contents }
        ensures sound { IsSound self.new }
    {
        *self = contents.table;
    }

    /// Drops the slot of a key and the entries of a row's unique values, where they are empty. It
    /// takes no memory.
    pub(crate) fn settle(&mut self, key: &Key, row: &Row)
        ensures keys { self.new.keys ≡ self.old.keys }
        ensures rows { self.new.rows ≡ self.old.rows }
        ensures gone { (s : Spot) → IsOfSettled self.old.keys key.now row.now s → ¬ IsFilled self.old.keys self.old.rows s → ¬ Contains self.new.room s }
        ensures fewer { KeepsSpots self.new.room self.old.room }
        ensures others { (s : Spot) → ¬ Contains (spots_of self.old.keys row.now) s → s ≢ (0, key.now) → Contains self.old.room s → Contains self.new.room s }
        ensures sound { IsSound self.new }
    {
        if let Some(table) = &mut self.made {
            table.settle(key, row);
        }
    }

    /// Drops the slot of a key where no row is in it. It takes no memory.
    pub(crate) fn release_key(&mut self, key: &Key)
        ensures released { ReleasesSpot self.old self.new (0, key.now) }
        ensures sound { IsSound self.new }
    {
        if let Some(table) = &mut self.made {
            table.release_key(key);
        }
    }

    /// Drops the entry of values in a unique key, by the key's number from 1, where no row has them.
    /// For a number that is no unique key's it does nothing. It takes no memory.
    pub(crate) fn release_values(&mut self, number: usize, values: &Key)
        ensures released { 1 ≤ number → ReleasesSpot self.old self.new (number, values.now) }
        ensures no_key { ¬ ((1 ≤ number) × (number ≤ length self.old.keys.uniques)) → self.new ≡ self.old }
        ensures sound { IsSound self.new }
    {
        if let Some(table) = &mut self.made {
            table.release_values(number, values);
        }
    }
}
