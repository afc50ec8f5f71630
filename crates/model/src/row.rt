// A row of a table, in one block of memory.
ghost use Rattle.std.specs.Prelude.{◌≡◌, ◌∷◌, ◌++◌, ◌<◌, [], length, IfOk, OnOk};
ghost use Rattle.std.specs.Option.{option_map};
ghost use Rattle.model.specs.Patch.{row_given};
ghost use Rattle.model.specs.Rows.{value_at};
ghost use Rattle.model.specs.ValueRef.{read_value};

use crate::columns::{Columns, ColumnsBuilder};
use crate::memory::OutOfMemory;
use crate::patch::ColumnPatchRef;
use crate::value::Value;
use crate::value_ref::ValueRef;
use std::alloc::{AllocError, Global};
use std::fmt;
use std::fmt::{Debug, Formatter};
use std::marker::Model;

/// A row's values in the table's column order; `None` is null. A clause sees the list of them.
///
/// Its texts are its own, so it keeps no buffer alive from which they were read. Copies of a row
/// share all that it has: a change, the journal and a table have it once. The texts of one row are
/// at most 4 GiB; a message of the protocol is at most 2 GiB.
#[derive(Drop)]
pub struct Row {
    // As an update of all columns has them.
    columns: Columns,
}

/// A row in the making: its columns come one after another. A clause sees the list of those that
/// came.
#[derive(Debug, Drop)]
pub struct RowBuilder {
    columns: ColumnsBuilder,
}

impl Model for Row {
    ghost use Rattle.std.specs.Prelude.{List, Option};
    ghost use Rattle.model.specs.declared.value.Value.{Value as Single};

    ghost Value = { List (Option Single) };

    ghost use Rattle.model.specs.Patch.{row_given};

    ghost view = { λ r. row_given r.columns };
}

impl Model for RowBuilder {
    ghost use Rattle.std.specs.Prelude.{List, Option};
    ghost use Rattle.model.specs.declared.value.Value.{Value as Single};

    ghost Value = { List (Option Single) };

    ghost use Rattle.model.specs.Patch.{row_given};

    ghost view = { λ b. row_given b.columns };
}

impl Row {
    /// The row with these values. Their texts are copied.
    pub fn from_values(values: Vec<Option<Value>>) -> Result<Row, OutOfMemory>
        ensures { IfOk result (λ row. row ≡ values.items) }
    {
        let alloc = *values.allocator();
        let values = values.as_slice();
        let mut row = RowBuilder::with_room(alloc, values.len(), text_len(values))?;
        for value in values {
            row.push(ValueRef::of_column(value))?;
        }
        row.finish()
    }

    /// How many columns it has.
    pub fn len(&self) -> usize
        ensures { result ≡ length self.now }
    {
        self.columns.len()
    }

    /// The value in a column, from 0; `None` is null.
    pub fn column(&self, number: usize) -> Option<ValueRef<'_>>
        requires { number < length self.now }
        ensures { option_map read_value result ≡ value_at self.now number }
    {
        self.columns.column(number).patched(None)
    }

    /// The value in a column, from 0; `None` is null, or that the row has no such column.
    pub fn get(&self, number: usize) -> Option<ValueRef<'_>>
        ensures { option_map read_value result ≡ value_at self.now number }
    {
        if number < self.len() {
            self.column(number)
        } else {
            None
        }
    }

    // The row that an update of all columns leaves.
    pub(crate) fn of_columns(columns: Columns) -> Row
        ensures { result ≡ row_given columns }
    {
        Row { columns }
    }

    /// An equal row. All is shared, and nothing copied.
    pub fn copy(&self) -> Result<Row, OutOfMemory>
        ensures { IfOk result (λ r. r ≡ self.now) }
    {
        Ok(self.clone()?)
    }
}

impl Clone for Row {
    ghost use Rattle.std.specs.Prelude.{◌≡◌};

    ghost is_clone = { λ row other. other ≡ row };

    fn clone(&self) -> Result<Row, AllocError> {
        Ok(Row {
            columns: self.columns.clone()?,
        })
    }
}

// A list of its values.
impl Debug for Row {
    fn fmt<W: fmt::Write>(&self, f: &mut Formatter<W>) -> fmt::Result {
        let mut values = f.debug_list();
        for number in 0..self.len() {
            values.entry(&self.get(number));
        }
        values.finish()
    }
}

impl RowBuilder {
    /// No columns yet, with room for so many, and for so many bytes of texts.
    pub fn with_room(alloc: Global, columns: usize, bytes: usize) -> Result<RowBuilder, OutOfMemory>
        ensures { IfOk result (λ row. row ≡ []) }
    {
        Ok(RowBuilder {
            columns: ColumnsBuilder::with_room(alloc, columns, bytes)?,
        })
    }

    /// One more column; `None` is null. A text is copied.
    pub fn push(&mut self, value: Option<ValueRef<'_>>) -> Result<(), OutOfMemory>
        ensures { OnOk result (self.new ≡ self.old ++ option_map read_value value.entry ∷ []) }
    {
        self.columns.push(ColumnPatchRef::of_value(value))
    }

    /// The row with the columns that came.
    pub fn finish(self) -> Result<Row, OutOfMemory>
        ensures { IfOk result (λ row. row ≡ self) }
    {
        Ok(Row {
            columns: self.columns.finish()?,
        })
    }
}

// How many bytes the texts of a row have, or the greatest number where they are more.
fn text_len(values: &[Option<Value>]) -> usize {
    let mut len: usize = 0;
    for value in values {
        if let Some(Value::Text(text)) = value {
            len = len.saturating_add(text.as_str().len());
        }
    }
    len
}
