//! Tuples: the columns of a row as they are sent ('TupleData' in the PostgreSQL manual's Logical Replication
//! Message Formats).

ghost use Rattle.std.specs.Prelude.{◌≡◌, ◌^◌, ◌<◌, length};

use crate::text::Text;
use std::marker::Model;

/// One column of a tuple.
#[derive(Debug, Drop)]
pub enum Column {
    /// A null.
    Null,
    /// A long value that the update did not change, and that is not sent.
    Unchanged,
    /// A value in its text form.
    Text(Text),
}

/// The columns of one row, few enough for their signed 16 bit count. A clause sees the list of them.
#[derive(Debug, Drop)]
pub struct Tuple {
    columns: Vec<Column>,
}

impl Model for Tuple {
    ghost use Rattle.std.specs.Prelude.{List, ◌^◌, ◌<◌, length};
    ghost use Rattle.messages.specs.declared.tuple.Column.{Column};

    ghost Value = { List Column };

    ghost view = { λ t. t.columns.items };

    ghost invariant = { λ t. length t.columns.items < 2 ^ 15 };
}

impl Tuple {
    /// The columns as a tuple.
    pub fn new(columns: Vec<Column>) -> Tuple
        requires { length columns.items < 2 ^ 15 }
        ensures { result ≡ columns.items }
    {
        Tuple { columns }
    }

    /// The columns, in the order in which they were sent.
    pub fn columns(&self) -> &[Column]
        ensures value { result.now ≡ self.now }
        ensures bound { length self.now < 2 ^ 15 }
    {
        self.columns.as_slice()
    }
}

/// The row that an update or a delete looks up.
#[derive(Debug, Drop)]
pub enum OldTuple {
    /// 'K': the old key, with nulls in the other columns.
    Key(Tuple),
    /// 'O': the whole old row, sent under `REPLICA IDENTITY FULL`.
    Full(Tuple),
}
