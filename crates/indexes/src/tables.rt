// All tables of a catalog.
ghost use Rattle.std.specs.Prelude.{◌≡◌, ◌≢◌, ℕ, ◌+◌, List, false, slice_get, ◌<◌, ◌≤◌, IfOk, OnOk, OnErr, IfSome, IsSome, Some, None, length, map, is_some, ◌^◌};
ghost use Rattle.std.specs.List.{Contains};
ghost use Rattle.std.specs.FinMap as finite;
ghost use Rattle.model.specs.declared.key.Key.{Key as AnyKey};
ghost use Rattle.model.specs.declared.row.Row.{Row as AnyRow};
ghost use Rattle.model.specs.declared.cell.Cell.{Cell as AnyCell};
ghost use Rattle.model.specs.declared.cell.Cell.TheVariants.{Row as RowCell, Uniq};
ghost use Rattle.model.specs.Cells.{cells_of, table_of};
ghost use Rattle.model.specs.Rows.{IsValid, keys_at, keys_of, key_of, values_in, are_taken};
ghost use Rattle.model.specs.TableRows.{rows_of_table};
ghost use Rattle.model.specs.Effect.{first_taken, are_taken_unless_null};
ghost use Rattle.indexes.specs.Table.{cells_in};
ghost use Rattle.indexes.specs.Refused.{Tells};
ghost use Rattle.indexes.specs.Content.{least_taken, KeepsCells, HasRoom, unique_columns, IsTable, SameElsewhere, SameRoomElsewhere, ReleasesCell};

use crate::lazy::{Contents, LazyTable};
use crate::refused::Refused;
use crate::seed::Seed;
use catalog::Catalog;
use model::{Cell, Key, OutOfMemory, Row, TableDef};
use rows::{RowView, Walk};
use std::alloc::Global;
use std::marker::Model;
use std::mem;

/// The tables of a catalog, in its order. A clause sees their keys' columns, all rows by table and
/// key, and the cells that there is room for.
#[derive(Debug, Drop)]
pub struct Tables {
    tables: Vec<LazyTable>,
}

impl Model for Tables {
    ghost use Rattle.indexes.specs.Content.{Content};

    ghost Value = { Content };

    ghost use Rattle.indexes.specs.Codes.{content_code};

    ghost coded = { content_code };

    ghost use Rattle.indexes.specs.Gathered.{gathered, AllSound};

    ghost view = { λ a. gathered a.tables.items };

    ghost invariant = { λ a. AllSound a.tables.items };
}

impl Tables {
    /// The tables of a catalog, all empty. Their indexes hash from the fixed seed.
    pub fn empty(alloc: Global, catalog: &Catalog) -> Result<Tables, OutOfMemory>
        ensures schema { IfOk result (λ tables. tables.schema ≡ map keys_of catalog.now) }
        ensures rows { IfOk result (λ tables. tables.rows ≡ finite.empty) }
    {
        Tables::with_seed(alloc, catalog.tables(), Seed::fixed())
    }

    /// Empty tables of these definitions. Their indexes hash from the fixed seed.
    pub fn of_definitions(alloc: Global, definitions: &[TableDef]) -> Result<Tables, OutOfMemory>
        ensures schema { IfOk result (λ tables. tables.schema ≡ map keys_of definitions.now) }
        ensures empty { IfOk result (λ tables. tables.rows ≡ finite.empty) }
    {
        Tables::with_seed(alloc, definitions, Seed::fixed())
    }

    /// Empty tables of these definitions, whose indexes hash from a seed.
    pub fn with_seed(
        alloc: Global,
        definitions: &[TableDef],
        seed: Seed,
    ) -> Result<Tables, OutOfMemory>
        ensures schema { IfOk result (λ tables. tables.schema ≡ map keys_of definitions.now) }
        ensures empty { IfOk result (λ tables. tables.rows ≡ finite.empty) }
    {
        let mut tables = Vec::new(alloc);
        for definition in definitions {
            tables.push(LazyTable::of_definition(alloc, definition, seed)?)?;
        }
        Ok(Tables { tables })
    }

    /// Equal tables.
    pub fn copy(&self) -> Result<Tables, OutOfMemory>
        ensures { IfOk result (λ copy. copy ≡ self.now) }
    {
        let alloc = *self.tables.allocator();
        let mut tables = Vec::new(alloc);
        for table in &self.tables {
            tables.push(table.copy()?)?;
        }
        Ok(Tables { tables })
    }

    /// Empty tables with the same keys. No row is copied.
    pub fn blank(&self) -> Result<Tables, OutOfMemory>
        ensures schema { IfOk result (λ blank. blank.schema ≡ self.now.schema) }
        ensures empty { IfOk result (λ blank. blank.rows ≡ finite.empty) }
    {
        let alloc = *self.tables.allocator();
        let mut tables = Vec::new(alloc);
        for table in &self.tables {
            tables.push(table.emptied()?)?;
        }
        Ok(Tables { tables })
    }

    /// How many tables there are.
    pub fn len(&self) -> usize
        ensures { result ≡ length self.now.schema }
    {
        self.tables.len()
    }

    /// Tells a proof what their type keeps: the rows are valid, each is of a table, and there is room
    /// for what it fills. It does nothing.
    pub fn recall_invariant(&self)
        ensures valid { IsValid self.now.schema self.now.rows }
        ensures known { (table : ℕ) (key : AnyKey) (row : AnyRow) → finite.get self.now.rows (table, key) ≡ Some row → table < length self.now.schema }
        ensures room { (table : ℕ) (key : AnyKey) (row : AnyRow) → finite.get self.now.rows (table, key) ≡ Some row → HasRoom self.now.room self.now.schema table row }
    {
        let _count = self.tables.len();
    }

    /// How many unique keys a table has.
    pub fn unique_count(&self, table: usize) -> usize
        requires { table < length self.now.schema }
        ensures { result ≡ length (keys_at self.now.schema table).uniques }
    {
        self.tables[table].unique_count()
    }

    /// The rows of a table, in key order. It takes no memory.
    pub fn walk(&self, table: usize) -> Walk<'_>
        requires { table < length self.now.schema }
        ensures rows { result ≡ rows_of_table self.now.rows table }
        ensures fits { length result < 2 ^ 63 }
    {
        self.tables[table].walk()
    }

    /// A row's primary key; none if a value of it is null.
    pub fn key_of(&self, table: usize, row: &Row) -> Result<Option<Key>, OutOfMemory>
        requires { table < length self.now.schema }
        ensures { IfOk result (λ key. key ≡ key_of self.now.schema table row.now) }
    {
        self.tables[table].key_of(row)
    }

    /// The columns of a table's primary key. It takes no memory.
    pub fn primary_columns(&self, table: usize) -> &[usize]
        requires { table < length self.now.schema }
        ensures { result.now ≡ (keys_at self.now.schema table).primary }
    {
        self.tables[table].primary_columns()
    }

    /// The columns of a unique key, by its number from 1. It takes no memory.
    pub fn unique_columns(&self, table: usize, number: usize) -> &[usize]
        requires known { table < length self.now.schema }
        requires number { (1 ≤ number) × (number ≤ length (keys_at self.now.schema table).uniques) }
        ensures { result.now ≡ unique_columns self.now.schema table number }
    {
        self.tables[table].unique_columns(number)
    }

    /// A row's values in a unique key, by the key's number from 1; none if one of them is null.
    pub fn unique_of(
        &self,
        table: usize,
        number: usize,
        row: &Row,
    ) -> Result<Option<Key>, OutOfMemory>
        requires known { table < length self.now.schema }
        requires number { (1 ≤ number) × (number ≤ length (keys_at self.now.schema table).uniques) }
        ensures { IfOk result (λ key. key ≡ values_in (unique_columns self.now.schema table number) row.now) }
    {
        self.tables[table].unique_of(number, row)
    }

    /// The row at a key. It takes no memory.
    pub fn get(&self, table: usize, key: &Key) -> Option<RowView<'_>>
        requires { table < length self.now.schema }
        ensures { result ≡ finite.get self.now.rows (table, key.now) }
    {
        self.tables[table].get(key)
    }

    /// The key of the row that has these values in a unique key, by the key's number from 1: what a
    /// search of all rows finds. It takes no memory.
    pub fn find_unique(&self, table: usize, number: usize, values: &Key) -> Option<&Key>
        requires known { table < length self.now.schema }
        requires number { (1 ≤ number) × (number ≤ length (keys_at self.now.schema table).uniques) }
        ensures taken { is_some result ≡ are_taken self.now.rows table (unique_columns self.now.schema table number) values.now }
        ensures key { IfSome result (λ key. (row : AnyRow) × (finite.get self.now.rows (table, key.now) ≡ Some row)
            × (values_in (unique_columns self.now.schema table number) row ≡ Some values.now)) }
    {
        self.tables[table].find_unique(number, values)
    }

    /// The key of the row that agrees with this one in a unique key, by the key's number from 1: what
    /// a search of all rows finds. It takes no memory.
    pub fn find_duplicate(&self, table: usize, number: usize, row: &Row) -> Option<&Key>
        requires known { table < length self.now.schema }
        requires number { (1 ≤ number) × (number ≤ length (keys_at self.now.schema table).uniques) }
        ensures taken { is_some result ≡ are_taken_unless_null self.now.rows table (unique_columns self.now.schema table number) (values_in (unique_columns self.now.schema table number) row.now) }
        ensures key { IfSome result (λ key. (values : AnyKey) × (values_in (unique_columns self.now.schema table number) row.now ≡ Some values)
            × (duplicate : AnyRow) × (finite.get self.now.rows (table, key.now) ≡ Some duplicate) × (values_in (unique_columns self.now.schema table number) duplicate ≡ Some values)) }
    {
        self.tables[table].find_duplicate(number, row)
    }

    /// Makes room for so many more rows of a table: putting them moves none that is there. A refusal
    /// changes no row.
    pub fn make_room(&mut self, table: usize, additional: usize) -> Result<(), OutOfMemory>
        requires { table < length self.old.schema }
        ensures schema { self.new.schema ≡ self.old.schema }
        ensures rows { self.new.rows ≡ self.old.rows }
        ensures kept { KeepsCells self.old.room self.new.room }
    {
        let table = &mut self.tables[table];
        table.make_room(additional)
    }

    /// A row comes into its table. Where it agrees with another in a key, the least such key is named.
    /// A refusal changes no row.
    pub fn put(&mut self, table: usize, key: Key, row: Row) -> Result<(), Refused>
        requires known { table < length self.old.schema }
        requires own_key { key_of self.old.schema table row ≡ Some key }
        ensures schema { self.new.schema ≡ self.old.schema }
        ensures ok { OnOk result (self.new.rows ≡ finite.insert self.old.rows (table, key) row) }
        ensures err { OnErr result (self.new.rows ≡ self.old.rows) }
        ensures told { Tells (least_taken self.old.schema self.old.rows table key row) result }

        // No cell goes from the room, and those of the row are in it.
        ensures kept { KeepsCells self.old.room self.new.room }
        ensures room { OnOk result (HasRoom self.new.room self.new.schema table row) }
    {
        let table = &mut self.tables[table];
        table.put(&key, row)
    }

    /// A row takes the place of the one at a key, and may have another key. The answer is the row
    /// that stood there. A refusal changes no row.
    pub fn replace(
        &mut self,
        table: usize,
        key: &Key,
        new_key: Key,
        row: Row,
    ) -> Result<Row, OutOfMemory>
        requires known { table < length self.old.schema }
        requires there { IsSome (finite.get self.old.rows (table, key.now)) }
        requires own_key { key_of self.old.schema table row ≡ Some new_key }
        requires free { finite.get (finite.remove self.old.rows (table, key.now)) (table, new_key) ≡ None }
        requires unique { first_taken (finite.remove self.old.rows (table, key.now)) table row 1 (keys_at self.old.schema table).uniques ≡ None }
        ensures schema { self.new.schema ≡ self.old.schema }
        ensures ok { OnOk result (self.new.rows ≡ finite.insert (finite.remove self.old.rows (table, key.now)) (table, new_key) row) }
        ensures stood { IfOk result (λ stood. finite.get self.old.rows (table, key.now) ≡ Some stood) }
        ensures err { OnErr result (self.new.rows ≡ self.old.rows) }

        // No cell goes from the room, and those of the row are in it.
        ensures kept { KeepsCells self.old.room self.new.room }
        ensures room { OnOk result (HasRoom self.new.room self.new.schema table row) }
    {
        let table = &mut self.tables[table];
        table.replace(key, &new_key, row)
    }

    /// The row at a key goes. It takes no memory.
    pub fn remove(&mut self, table: usize, key: &Key) -> Row
        requires known { table < length self.old.schema }
        requires there { IsSome (finite.get self.old.rows (table, key.now)) }
        ensures schema { self.new.schema ≡ self.old.schema }
        ensures rows { self.new.rows ≡ finite.remove self.old.rows (table, key.now) }
        ensures stood { finite.get self.old.rows (table, key.now) ≡ Some result }
        ensures kept { KeepsCells self.old.room self.new.room }
    {
        let table = &mut self.tables[table];
        table.remove(key)
    }

    /// All rows of a table go, moved out with its room: none is copied. A refusal changes nothing.
    pub fn wipe(&mut self, table: usize) -> Result<Contents, OutOfMemory>
        requires { table < length self.old.schema }
        ensures schema { self.new.schema ≡ self.old.schema }
        ensures empty { OnOk result ((key : AnyKey) → finite.get self.new.rows (table, key) ≡ None) }
        ensures elsewhere { SameElsewhere self.old.rows self.new.rows table }
        ensures room_elsewhere { SameRoomElsewhere self.old.room self.new.room table }

        // The content is what was there.
        ensures keys { IfOk result (λ contents. contents.keys ≡ keys_at self.old.schema table) }
        ensures out { IfOk result (λ contents. IsTable self.old.rows table contents.rows) }
        ensures room_out { IfOk result (λ contents. (c : AnyCell) → table_of c ≡ table → Contains self.old.room c → Contains (cells_in table contents) c) }
        ensures err { OnErr result (self.new ≡ self.old) }
    {
        let table = &mut self.tables[table];
        table.wipe()
    }

    /// Takes a `put` back. It takes no memory.
    pub fn take_back(&mut self, table: usize, key: &Key)
        requires known { table < length self.old.schema }
        requires there { IsSome (finite.get self.old.rows (table, key.now)) }
        ensures schema { self.new.schema ≡ self.old.schema }
        ensures rows { self.new.rows ≡ finite.remove self.old.rows (table, key.now) }
        ensures kept { KeepsCells self.old.room self.new.room }
    {
        self.remove(table, key);
    }

    /// Takes a `remove` back, where there is room for the row. It takes no memory.
    pub fn put_back(&mut self, table: usize, key: &Key, row: Row)
        requires known { table < length self.old.schema }
        requires own_key { key_of self.old.schema table row ≡ Some key.now }
        requires free { finite.get self.old.rows (table, key.now) ≡ None }
        requires unique { first_taken self.old.rows table row 1 (keys_at self.old.schema table).uniques ≡ None }
        requires room { HasRoom self.old.room self.old.schema table row }
        ensures schema { self.new.schema ≡ self.old.schema }
        ensures rows { self.new.rows ≡ finite.insert self.old.rows (table, key.now) row }
        ensures kept { KeepsCells self.old.room self.new.room }
    {
        let table = &mut self.tables[table];
        table.put_back(key, row);
    }

    /// Takes a `replace` back, where there is room for the row: the row at `new_key` goes, and this
    /// one comes to `key` again. It takes no memory.
    pub fn replace_back(&mut self, table: usize, new_key: &Key, key: Key, row: Row)
        requires known { table < length self.old.schema }
        requires there { IsSome (finite.get self.old.rows (table, new_key.now)) }
        requires own_key { key_of self.old.schema table row ≡ Some key }
        requires free { finite.get (finite.remove self.old.rows (table, new_key.now)) (table, key) ≡ None }
        requires unique { first_taken (finite.remove self.old.rows (table, new_key.now)) table row 1 (keys_at self.old.schema table).uniques ≡ None }
        requires room { HasRoom self.old.room self.old.schema table row }
        ensures schema { self.new.schema ≡ self.old.schema }
        ensures rows { self.new.rows ≡ finite.insert (finite.remove self.old.rows (table, new_key.now)) (table, key) row }
        ensures kept { KeepsCells self.old.room self.new.room }
    {
        let table = &mut self.tables[table];
        table.replace_back(new_key, &key, row);
    }

    /// Takes a `wipe` back: moves the content in again. It takes no memory.
    pub fn unwipe(&mut self, table: usize, contents: Contents)
        requires known { table < length self.old.schema }
        requires keys { contents.keys ≡ keys_at self.old.schema table }
        requires empty { (key : AnyKey) → finite.get self.old.rows (table, key) ≡ None }
        ensures schema { self.new.schema ≡ self.old.schema }
        ensures rows { IsTable self.new.rows table contents.rows }
        ensures elsewhere { SameElsewhere self.old.rows self.new.rows table }
        ensures room { KeepsCells (cells_in table contents) self.new.room }
        ensures room_elsewhere { SameRoomElsewhere self.old.room self.new.room table }
    {
        let table = &mut self.tables[table];
        table.unwipe(contents);
    }

    /// Exchanges the rows of a table with those that it has there, where the tables have the same
    /// keys. None is copied, and it takes no memory.
    pub fn exchange(&mut self, table: usize, other: &mut Tables)
        requires known { table < length self.old.schema }
        requires keys { other.old.schema ≡ self.old.schema }
        ensures schema { self.new.schema ≡ self.old.schema }
        ensures rows { (key : AnyKey) → finite.get self.new.rows (table, key) ≡ finite.get other.old.rows (table, key) }
        ensures elsewhere { SameElsewhere self.old.rows self.new.rows table }

        // The same of the other tables.
        ensures schema_there { other.new.schema ≡ other.old.schema }
        ensures rows_there { (key : AnyKey) → finite.get other.new.rows (table, key) ≡ finite.get self.old.rows (table, key) }
        ensures elsewhere_there { SameElsewhere other.old.rows other.new.rows table }
    {
        let here = &mut self.tables[table];
        let there = &mut other.tables[table];
        mem::swap(here, there);
    }

    /// Drops the slot of a key and the entries of a row's unique values, where they are empty. It
    /// takes no memory.
    pub fn settle(&mut self, table: usize, key: &Key, row: &Row)
        requires { table < length self.old.schema }
        ensures schema { self.new.schema ≡ self.old.schema }
        ensures rows { self.new.rows ≡ self.old.rows }

        // Where no row stands at the key, its slot goes; where no row has the row's values in a unique
        // key, their entry goes.
        ensures slot { finite.get self.old.rows (table, key.now) ≡ None → ¬ Contains self.new.room (RowCell table key.now) }
        ensures values { (i : ℕ) (columns : List ℕ) (values : AnyKey) → slice_get (keys_at self.old.schema table).uniques i ≡ Some columns
            → values_in columns row.now ≡ Some values → are_taken self.old.rows table columns values ≡ false → ¬ Contains self.new.room (Uniq table (i + 1) values) }

        // No other cell goes from the room, and none comes.
        ensures fewer { KeepsCells self.new.room self.old.room }
        ensures others { (c : AnyCell) → ¬ Contains (cells_of self.old.schema table row.now) c → c ≢ RowCell table key.now → Contains self.old.room c → Contains self.new.room c }
    {
        let table = &mut self.tables[table];
        table.settle(key, row);
    }

    /// Gives up a cell that no row fills: the slot of a key, or the entry of values in a unique key. A
    /// cell that a row fills stays, and so does a whole table's. It takes no memory.
    pub fn release(&mut self, cell: &Cell)
        ensures { ReleasesCell self.old self.new cell.now }
    {
        match cell {
            Cell::Row(table, key) => {
                if let Some(table) = self.tables.get_mut(*table) {
                    table.release_key(key);
                }
            }
            Cell::Uniq(table, number, values) => {
                if let Some(table) = self.tables.get_mut(*table) {
                    table.release_values(*number, values);
                }
            }
            Cell::Whole(_) => {}
        }
    }
}
