// A row as a patch leaves it, read in place.
ghost use Rattle.std.specs.Prelude.{◌≡◌, IfOk};
ghost use Rattle.std.specs.Option.{option_map};
ghost use Rattle.model.specs.Rows.{is_key, value_at, values_in};
ghost use Rattle.model.specs.Effect.{patch_row};
ghost use Rattle.model.specs.Footprint.{both_have};
ghost use Rattle.model.specs.Patch.{read_column, column_at};
ghost use Rattle.model.specs.ValueRef.{read_value};
ghost use Rattle.indexes.specs.Columns.{present};
ghost use Rattle.model.specs.Hashing.{hash_of, hash_value as hashed_value};
ghost use Rattle.change.specs.Reading.{patch_read, read_row};

use indexes::columns::{ReadRow, compare_key, has_values};
use model::hashing::{hash_number, hash_text};
use model::{ColumnPatchRef, Key, OutOfMemory, Patch, Row, RowBuilder, ValueRef};
use rows::RowView;
use std::alloc::Global;

/// A row, and a patch of it. It is read as the row that the patch leaves, and nothing is copied.
#[derive(Clone, Copy, Debug)]
pub struct PatchedRow<'a> {
    row: &'a RowView<'a>,
    patch: Option<&'a Patch>,
}

impl<'a> PatchedRow<'a> {
    /// The row itself, which nothing patches.
    pub fn of_row(row: &'a RowView<'a>) -> PatchedRow<'a>
        ensures { read_row result ≡ row.now }
    {
        PatchedRow { row, patch: None }
    }

    /// The row as the patch leaves it.
    pub fn new(row: &'a RowView<'a>, patch: &'a Patch) -> PatchedRow<'a>
        ensures { read_row result ≡ patch_row patch.now row.now }
    {
        PatchedRow {
            row,
            patch: Some(patch),
        }
    }

    /// An equal row of its own. The texts are copied.
    pub fn to_row(self, alloc: Global) -> Result<Row, OutOfMemory>
        ensures { IfOk result (λ row. row ≡ read_row self.entry) }
    {
        let mut row = RowBuilder::with_room(alloc, self.row.len(), self.text_len())?;
        for column in 0..self.row.len() {
            row.push(self.column(column))?;
        }
        row.finish()
    }

    // How many bytes its texts have, or the greatest number where they are more.
    fn text_len(self) -> usize {
        let mut len: usize = 0;
        for column in 0..self.row.len() {
            if let Some(ValueRef::Text(text)) = self.column(column) {
                len = len.saturating_add(text.len());
            }
        }
        len
    }

    /// The value in a column, from 0; `None` is null, and past the row's end.
    pub fn column(self, number: usize) -> Option<ValueRef<'a>>
        ensures { option_map read_value result ≡ value_at (read_row self.entry) number }
    {
        if number >= self.row.len() {
            return None;
        }
        match self.patched(number) {
            ColumnPatchRef::Keep => self.row.column(number),
            ColumnPatchRef::Null => None,
            ColumnPatchRef::Value(value) => Some(value),
        }
    }

    // What the patch does to a column, from 0.
    fn patched(self, number: usize) -> ColumnPatchRef<'a>
        ensures { read_column result ≡ column_at (patch_read self.entry.patch) number }
    {
        match self.patch {
            None => ColumnPatchRef::Keep,
            Some(patch) => patch.column(number),
        }
    }
}

impl<'a> ReadRow for PatchedRow<'a> {
    ghost use Rattle.change.specs.Reading.{read_row};

    ghost read = { read_row };

    fn value_at(&self, column: usize) -> Option<ValueRef<'_>> {
        self.column(column)
    }
}

// Whether both rows have the same values in these columns, none of them null.
pub(crate) fn has_same(columns: &[usize], old: PatchedRow<'_>, new: PatchedRow<'_>) -> bool
    ensures { result ≡ both_have (values_in columns.now (read_row old.entry)) (values_in columns.now (read_row new.entry)) }
{
    for column in columns {
        match (old.column(*column), new.column(*column)) {
            (Some(before), Some(after)) if before.compare(after).is_eq() => {}
            _ => return false,
        }
    }
    true
}

// Whether the values in these columns are those of a key, none of them null.
pub(crate) fn has_key(columns: &[usize], row: PatchedRow<'_>, key: &Key) -> bool
    ensures { result ≡ is_key (values_in columns.now (read_row row.entry)) key.now }
{
    has_values(columns, &row) && compare_key(columns, &row, key).is_eq()
}

// The hash of the values that a row has in some columns, nulls left out.
pub(crate) fn hash_values(columns: &[usize], row: PatchedRow<'_>) -> u64
    ensures { result ≡ hash_of (present columns.now (read_row row.entry)) }
{
    let mut hash = 0;
    for column in columns {
        if let Some(value) = row.column(*column) {
            hash = hash_value(hash, value);
        }
    }
    hash
}

// A hash with one more value, as it is read.
fn hash_value(hash: u64, value: ValueRef<'_>) -> u64
    ensures { result ≡ hashed_value hash (read_value value.entry) }
{
    match value {
        ValueRef::Int(number) => hash_number(hash, number),
        ValueRef::Text(text) => hash_text(hash, text),
        ValueRef::Bool(_) => hash,
    }
}
