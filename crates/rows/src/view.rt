// A row of a store, as it is read.
ghost use Rattle.std.specs.Prelude.{◌≡◌, ◌<◌, length, IfOk};
ghost use Rattle.std.specs.Option.{option_map};
ghost use Rattle.model.specs.Rows.{value_at};
ghost use Rattle.model.specs.ValueRef.{read_value};

use model::{OutOfMemory, Row, ValueRef};
use std::marker::Model;

/// A row of a store. A clause sees its values in the table's column order; none is null.
#[derive(Debug, Drop)]
pub struct RowView<'a> {
    row: &'a Row,
}

impl<'a> Model for RowView<'a> {
    ghost use Rattle.std.specs.Prelude.{List, Option};
    ghost use Rattle.model.specs.declared.value.Value.{Value as Single};

    ghost Value = { List (Option Single) };

    ghost view = { λ v. v.row.now };
}

impl<'a> RowView<'a> {
    /// The view of a row.
    pub fn of_row(row: &'a Row) -> RowView<'a>
        ensures { result ≡ row.now }
    {
        RowView { row }
    }

    /// How many columns it has.
    pub fn len(&self) -> usize
        ensures { result ≡ length self.now }
    {
        self.row.len()
    }

    /// The value in a column, from 0; `None` is null.
    pub fn column(&self, number: usize) -> Option<ValueRef<'a>>
        requires { number < length self.now }
        ensures { option_map read_value result ≡ value_at self.now number }
    {
        self.row.column(number)
    }

    /// An equal row of its own, which shares all that the row has.
    pub fn to_row(&self) -> Result<Row, OutOfMemory>
        ensures { IfOk result (λ row. row ≡ self.now) }
    {
        self.row.copy()
    }
}
