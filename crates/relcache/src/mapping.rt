// How the columns of a table are filled from a relation's tuples.

ghost use Rattle.std.specs.Prelude.{◌≡◌, option_copied, option_map};

use model::{ColumnType, TableId, Value};
use std::marker::Model;

/// A value of a tuple: its place, from 0, and the type that its text is read by.
#[derive(Clone, Copy, Debug)]
pub struct Field {
    pub place: usize,
    pub kind: ColumnType,
}

/// Where the value of a table's column comes from.
#[derive(Debug, Drop)]
pub enum ColumnSource {
    /// The relation publishes the column.
    Sent(Field),
    /// It doesn't, so an inserted row has this default; `None` is null.
    Default(Option<Value>),
}

/// How the tuples of a relation become rows of a table.
///
/// It is made once for a relation, by [`RelCache::resolve`](crate::RelCache::resolve), and holds what
/// planning a row needs, so that no name is looked up for a row. A clause sees it as the record
/// `Mapped`.
#[derive(Debug, Drop)]
pub struct Mapping {
    table: TableId,
    published: usize,
    columns: Vec<ColumnSource>,
    key: Option<Vec<Field>>,
}

impl Model for Mapping {
    ghost use Rattle.std.specs.Prelude.{option_map};
    ghost use Rattle.relcache.specs.Mapping.{Mapped, made_of};

    ghost Value = { Mapped };

    ghost view = { λ m.
        made_of m.table m.published m.columns.items (option_map (λ fields. fields.items) m.key) };
}

impl Mapping {
    ghost use Rattle.relcache.specs.Mapping.{made_of};

    /// The mapping of these parts. It takes no memory.
    pub(crate) fn new(
        table: TableId,
        published: usize,
        columns: Vec<ColumnSource>,
        key: Option<Vec<Field>>,
    ) -> Mapping
        ensures { result
            ≡ made_of table published columns.items (option_map (λ fields. fields.items) key) }
    {
        Mapping {
            table,
            published,
            columns,
            key,
        }
    }

    /// The table's place in the catalog.
    pub fn table(&self) -> TableId
        ensures { result ≡ self.now.table }
    {
        self.table
    }

    /// How many columns the relation publishes.
    pub(crate) fn published(&self) -> usize
        ensures { result ≡ self.now.published }
    {
        self.published
    }

    /// Where the value of each column of the table comes from.
    pub(crate) fn columns(&self) -> &[ColumnSource]
        ensures { result.now ≡ self.now.columns }
    {
        self.columns.as_slice()
    }

    /// The fields of the primary key, if the relation flags all of its columns as key.
    pub(crate) fn key(&self) -> Option<&[Field]>
        ensures { option_copied result ≡ self.now.key }
    {
        match &self.key {
            Some(fields) => Some(fields.as_slice()),
            None => None,
        }
    }
}
