// A row's values in the columns of a key, of a row that is kept or one that is read in place.
ghost use Rattle.std.specs.Prelude.{◌≡◌, true, IfOk, is_some};
ghost use Rattle.std.specs.Option.{option_map};
ghost use Rattle.model.specs.declared.row.Row.{Row as Record};
ghost use Rattle.model.specs.Key.{key_cmp};
ghost use Rattle.model.specs.Rows.{value_at, values_in};
ghost use Rattle.model.specs.ValueRef.{read_value};
ghost use Rattle.indexes.specs.Columns.{present};

use model::{Key, KeyValues, OutOfMemory, Row, Value, ValueRef};
use std::alloc::Global;
use std::cmp::Ordering;
use std::slice;

/// What is read as a row, column by column, and need not be one.
pub trait ReadRow {
    // The row that it is read as.
    ghost read: { Self → Record };

    /// The value in a column, from 0; `None` is null, and past the row's end.
    fn value_at(&self, column: usize) -> Option<ValueRef<'_>>
        ensures { option_map read_value result ≡ value_at (read self.now) column };
}

impl ReadRow for Row {
    ghost read = { λ row. row };

    #[inline]
    fn value_at(&self, column: usize) -> Option<ValueRef<'_>> {
        self.get(column)
    }
}

/// Whether none of these columns is null.
pub fn has_values<R: ReadRow>(columns: &[usize], row: &R) -> bool
    ensures { result ≡ is_some (values_in columns.now (R.read row.now)) }
{
    for column in columns {
        if row.value_at(*column).is_none() {
            return false;
        }
    }
    true
}

// Whether two rows have the same values, or nulls, in these columns.
pub(crate) fn agree(columns: &[usize], row: &Row, other: &Row) -> bool
    ensures { result ≡ true → values_in columns.now row.now ≡ values_in columns.now other.now }
{
    for column in columns {
        if !agree_at(*column, row, other) {
            return false;
        }
    }
    true
}

fn agree_at(column: usize, row: &Row, other: &Row) -> bool
    ensures { result ≡ true → value_at row.now column ≡ value_at other.now column }
{
    match (row.get(column), other.get(column)) {
        (Some(own), Some(others)) => own.compare(others).is_eq(),
        (None, None) => true,
        _ => false,
    }
}

/// The values in these columns as a key of its own; none if one of them is null. Texts are copied.
pub fn key_of<R: ReadRow>(
    alloc: Global,
    columns: &[usize],
    row: &R,
) -> Result<Option<Key>, OutOfMemory>
    ensures { IfOk result (λ key. key ≡ values_in columns.now (R.read row.now)) }
{
    if let [column] = columns {
        return match row.value_at(*column) {
            Some(value) => Ok(Some(Key::from_value(alloc, value.to_value(alloc)?)?)),
            None => Ok(None),
        };
    }
    let mut values = Vec::with_capacity(alloc, columns.len())?;
    for column in columns {
        match row.value_at(*column) {
            Some(value) => values.push(value.to_value(alloc)?)?,
            None => return Ok(None),
        }
    }
    Ok(Some(Key::from_values(values)?))
}

/// The order of the values that a row has in some columns, nulls left out, and a key.
#[inline(never)]
pub fn compare_key<R: ReadRow>(columns: &[usize], row: &R, key: &Key) -> Ordering
    ensures { result ≡ key_cmp (present columns.now (R.read row.now)) key.now }
{
    match key.values() {
        KeyValues::Int(number) => {
            let value = Value::Int(number);
            compare_values(columns, row, slice::from_ref(&value))
        }
        KeyValues::List(values) => compare_values(columns, row, values),
    }
}

fn compare_values<R: ReadRow>(columns: &[usize], row: &R, key: &[Value]) -> Ordering
    ensures { result ≡ key_cmp (present columns.now (R.read row.now)) key.now }
{
    let mut rest = key;
    for column in columns {
        let Some(value) = row.value_at(*column) else {
            continue;
        };
        let Some((first, tail)) = rest.split_first() else {
            return Ordering::Greater;
        };
        match value.compare(ValueRef::of(first)) {
            Ordering::Equal => rest = tail,
            other => return other,
        }
    }
    if rest.is_empty() {
        Ordering::Equal
    } else {
        Ordering::Less
    }
}
