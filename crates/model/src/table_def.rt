// The definition of a table.
ghost use Rattle.std.specs.Prelude.{◌≡◌};

use crate::value::Value;
use bytes::ByteStr;
use std::marker::Model;

/// The type of a column.
#[derive(Clone, Copy, Debug, PartialEq, Eq)]
pub enum ColumnType {
    Int,
    Text,
    Bool,
}

/// A column of a table.
#[derive(Debug, Drop)]
pub struct Column {
    pub name: ByteStr,
    pub kind: ColumnType,
}

/// Column numbers of a key, in the key's order. A clause sees the list of them.
#[derive(Debug, Drop)]
pub struct KeyColumns {
    numbers: Vec<usize>,
}

impl Model for KeyColumns {
    ghost use Rattle.std.specs.Prelude.{List, ℕ};

    ghost Value = { List ℕ };

    ghost view = { λ k. k.numbers.items };
}

impl KeyColumns {
    /// The key over these columns. It takes no memory.
    pub fn from_numbers(numbers: Vec<usize>) -> KeyColumns
        ensures { result ≡ numbers.items }
    {
        KeyColumns { numbers }
    }

    /// The column numbers, from 0, in the key's order.
    pub fn numbers(&self) -> &[usize]
        ensures { result.now ≡ self.now }
    {
        self.numbers.as_slice()
    }
}

/// The definition of a table: its names, its columns with their defaults, its primary key and its
/// unique keys. A clause sees it as a `Definition`.
#[derive(Debug, Drop)]
pub struct TableDef {
    namespace: ByteStr,
    name: ByteStr,
    columns: Vec<Column>,
    defaults: Vec<Option<Value>>,
    primary: KeyColumns,
    uniques: Vec<KeyColumns>,
}

impl Model for TableDef {
    ghost use Rattle.model.specs.Definition.{Definition};

    ghost Value = { Definition };

    ghost view = { λ t. record { namespace = t.namespace; name = t.name; columns = t.columns.items; defaults = t.defaults.items; primary = t.primary; uniques = t.uniques.items } };
}

impl TableDef {
    /// The definition of these parts. It takes no memory.
    pub fn new(
        namespace: ByteStr,
        name: ByteStr,
        columns: Vec<Column>,
        defaults: Vec<Option<Value>>,
        primary: KeyColumns,
        uniques: Vec<KeyColumns>,
    ) -> TableDef
        ensures { result ≡ record { namespace = namespace; name = name; columns = columns.items; defaults = defaults.items; primary = primary; uniques = uniques.items } }
    {
        TableDef {
            namespace,
            name,
            columns,
            defaults,
            primary,
            uniques,
        }
    }

    /// The schema that it lies in.
    pub fn namespace(&self) -> &ByteStr
        ensures { result.now ≡ self.now.namespace }
    {
        &self.namespace
    }

    /// Its name in the schema.
    pub fn name(&self) -> &ByteStr
        ensures { result.now ≡ self.now.name }
    {
        &self.name
    }

    /// Its columns, in order.
    pub fn columns(&self) -> &[Column]
        ensures { result.now ≡ self.now.columns }
    {
        self.columns.as_slice()
    }

    /// The default of each column; `None` is null.
    pub fn defaults(&self) -> &[Option<Value>]
        ensures { result.now ≡ self.now.defaults }
    {
        self.defaults.as_slice()
    }

    /// The columns of its primary key.
    pub fn primary(&self) -> &KeyColumns
        ensures { result.now ≡ self.now.primary }
    {
        &self.primary
    }

    /// The columns of each of its unique keys.
    pub fn uniques(&self) -> &[KeyColumns]
        ensures { result.now ≡ self.now.uniques }
    {
        self.uniques.as_slice()
    }
}
