// What a document says of a table, before it is asked whether that makes a catalog.
use bytes::ByteStr;
use model::{ColumnType, Value};
use std::marker::Model;

/// A column's default, as a document has it.
#[derive(Debug, Drop)]
pub(crate) enum DefaultDraft {
    /// None is given.
    Missing,
    /// An integer, a string or a boolean.
    Given(Value),
    /// A value of another kind, which no column can hold.
    OtherKind,
}

/// A column, as a document has it.
#[derive(Debug, Drop)]
pub(crate) struct ColumnDraft {
    pub name: ByteStr,
    pub kind: ColumnType,
    pub default: DefaultDraft,
}

/// What an array of a document describes, item by item. A clause sees the list of it.
#[derive(Debug, Drop)]
pub(crate) struct Listed<T> {
    pub items: Vec<T>,
}

impl<T> Model for Listed<T> {
    ghost use Rattle.std.specs.Prelude.{List};

    ghost Value = { List T };

    ghost view = { λ l. l.items.items };
}

/// The column names of a key.
pub(crate) type KeyDraft = Listed<ByteStr>;

/// A table, as a document has it.
#[derive(Debug, Drop)]
pub(crate) struct TableDraft {
    pub namespace: ByteStr,
    pub name: ByteStr,
    pub columns: Listed<ColumnDraft>,
    pub primary: KeyDraft,
    pub uniques: Listed<KeyDraft>,
}
