// What an update does to a row.
ghost use Rattle.std.specs.Prelude.{◌≡◌, ◌∷◌, ◌++◌, [], None, false, length, IfOk, OnOk};
ghost use Rattle.std.specs.List.{list_any};
ghost use Rattle.std.specs.Option.{option_map};
ghost use Rattle.model.specs.Patch.{read_column, column_at, patch_value, is_kept, all_given};
ghost use Rattle.model.specs.ValueRef.{read_value};

use crate::columns::{Columns, ColumnsBuilder};
use crate::memory::OutOfMemory;
use crate::row::Row;
use crate::value::Value;
use crate::value_ref::ValueRef;
use std::alloc::Global;
use std::fmt;
use std::fmt::{Debug, Formatter};
use std::marker::Model;

/// What an update does to a column.
#[derive(Clone, Debug, Drop)]
pub enum ColumnPatch {
    /// The column stays as it is: it was not published, or its long value was not sent again.
    Keep,
    /// The column becomes null.
    Null,
    /// The column gets this value.
    Value(Value),
}

/// What an update does to a column, as it is read. A text is lent.
#[derive(Clone, Copy, Debug)]
pub enum ColumnPatchRef<'a> {
    /// The column stays as it is.
    Keep,
    /// The column becomes null.
    Null,
    /// The column gets this value.
    Value(ValueRef<'a>),
}

impl<'a> ColumnPatchRef<'a> {
    /// One that is lent.
    pub fn of(column: &'a ColumnPatch) -> ColumnPatchRef<'a>
        ensures { read_column result ≡ column.now }
    {
        match column {
            ColumnPatch::Keep => ColumnPatchRef::Keep,
            ColumnPatch::Null => ColumnPatchRef::Null,
            ColumnPatch::Value(value) => ColumnPatchRef::Value(ValueRef::of(value)),
        }
    }

    /// The column becomes this; `None` is null.
    pub fn of_value(value: Option<ValueRef<'a>>) -> ColumnPatchRef<'a>
        ensures given { is_kept (read_column result) ≡ false }
        ensures value { patch_value (read_column result) None ≡ option_map read_value value.entry }
    {
        match value {
            None => ColumnPatchRef::Null,
            Some(value) => ColumnPatchRef::Value(value),
        }
    }

    /// Whether the column is kept.
    pub fn is_kept(self) -> bool
        ensures { result ≡ is_kept (read_column self.entry) }
    {
        matches!(self, ColumnPatchRef::Keep)
    }

    /// The column after the update; `None` is null.
    pub fn patched(self, old: Option<ValueRef<'a>>) -> Option<ValueRef<'a>>
        ensures { option_map read_value result ≡ patch_value (read_column self.entry) (option_map read_value old.entry) }
    {
        match self {
            ColumnPatchRef::Keep => old,
            ColumnPatchRef::Null => None,
            ColumnPatchRef::Value(value) => Some(value),
        }
    }
}

/// What an update does to each column, in the table's column order. A clause sees the list of it.
///
/// Its texts are its own. Copies of a patch share all that it has, and so does the row that it leaves
/// where it keeps no column. Its texts are at most 4 GiB, as those of a row.
#[derive(Drop)]
pub struct Patch {
    columns: Columns,
}

/// A patch in the making: its columns come one after another. A clause sees the list of those that
/// came.
#[derive(Debug, Drop)]
pub struct PatchBuilder {
    columns: ColumnsBuilder,
}

impl Model for Patch {
    ghost use Rattle.std.specs.Prelude.{List};
    ghost use Rattle.model.specs.declared.patch.ColumnPatch.{ColumnPatch};

    ghost Value = { List ColumnPatch };

    ghost view = { λ p. p.columns };
}

impl Model for PatchBuilder {
    ghost use Rattle.std.specs.Prelude.{List};
    ghost use Rattle.model.specs.declared.patch.ColumnPatch.{ColumnPatch};

    ghost Value = { List ColumnPatch };

    ghost view = { λ b. b.columns };
}

impl Patch {
    /// The patch with these columns. Their texts are copied.
    pub fn from_columns(columns: Vec<ColumnPatch>) -> Result<Patch, OutOfMemory>
        ensures { IfOk result (λ patch. patch ≡ columns.items) }
    {
        let alloc = *columns.allocator();
        let columns = columns.as_slice();
        let mut patch = PatchBuilder::with_room(alloc, columns.len(), text_len(columns))?;
        for column in columns {
            patch.push(ColumnPatchRef::of(column))?;
        }
        patch.finish()
    }

    /// How many columns it has.
    pub fn len(&self) -> usize
        ensures { result ≡ length self.now }
    {
        self.columns.len()
    }

    /// What it does to a column, from 0; one past its end is kept.
    pub fn column(&self, number: usize) -> ColumnPatchRef<'_>
        ensures { read_column result ≡ column_at self.now number }
    {
        if number < self.len() {
            self.columns.column(number)
        } else {
            ColumnPatchRef::Keep
        }
    }

    /// The row that it leaves of one with as many columns, where it keeps none of them. All is shared,
    /// and nothing copied.
    pub fn whole_row(&self) -> Result<Option<Row>, OutOfMemory>
        ensures { IfOk result (λ row. row ≡ all_given self.now) }
    {
        if self.keeps_any() {
            return Ok(None);
        }
        Ok(Some(Row::of_columns(self.columns.clone()?)))
    }

    // Whether it keeps a column.
    fn keeps_any(&self) -> bool
        ensures { result ≡ list_any is_kept self.now }
    {
        for number in 0..self.len() {
            if self.column(number).is_kept() {
                return true;
            }
        }
        false
    }

    /// An equal patch. All is shared, and nothing copied.
    pub fn copy(&self) -> Result<Patch, OutOfMemory>
        ensures { IfOk result (λ p. p ≡ self.now) }
    {
        Ok(Patch {
            columns: self.columns.clone()?,
        })
    }
}

// A list of what it does to each column.
impl Debug for Patch {
    fn fmt<W: fmt::Write>(&self, f: &mut Formatter<W>) -> fmt::Result {
        let mut columns = f.debug_list();
        for number in 0..self.len() {
            columns.entry(&self.column(number));
        }
        columns.finish()
    }
}

impl PatchBuilder {
    /// No columns yet, with room for so many, and for so many bytes of texts.
    pub fn with_room(
        alloc: Global,
        columns: usize,
        bytes: usize,
    ) -> Result<PatchBuilder, OutOfMemory>
        ensures { IfOk result (λ patch. patch ≡ []) }
    {
        Ok(PatchBuilder {
            columns: ColumnsBuilder::with_room(alloc, columns, bytes)?,
        })
    }

    /// One more column. A text is copied.
    pub fn push(&mut self, column: ColumnPatchRef<'_>) -> Result<(), OutOfMemory>
        ensures { OnOk result (self.new ≡ self.old ++ read_column column.entry ∷ []) }
    {
        self.columns.push(column)
    }

    /// The patch with the columns that came.
    pub fn finish(self) -> Result<Patch, OutOfMemory>
        ensures { IfOk result (λ patch. patch ≡ self) }
    {
        Ok(Patch {
            columns: self.columns.finish()?,
        })
    }
}

// How many bytes the texts of columns have, or the greatest number where they are more.
fn text_len(columns: &[ColumnPatch]) -> usize {
    let mut len: usize = 0;
    for column in columns {
        if let ColumnPatch::Value(Value::Text(text)) = column {
            len = len.saturating_add(text.as_str().len());
        }
    }
    len
}
