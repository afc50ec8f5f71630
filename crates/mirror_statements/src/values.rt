// Values as SQL has them.
ghost use Rattle.std.specs.Prelude.{◌≡◌, ◌++◌, ◌∷◌, [], map, OnOk};
ghost use Rattle.std.specs.Option.{option_map};
ghost use Rattle.model.specs.KeyCode.{values_lent};
ghost use Rattle.model.specs.Patch.{read_column};
ghost use Rattle.model.specs.ValueRef.{read_value};
ghost use Rattle.sqlite.specs.Values.{bound, bound_value};
ghost use Rattle.sqlite_value.specs.Value.{owned};
ghost use Rattle.mirror_statements.specs.Asked.{sql_column, sql_value, sql_patch, patch_values};

use model::{ColumnPatchRef, KeyValues, OutOfMemory, Patch, Row, Value, ValueRef};
use sqlite::types::ValueRef as SqlRef;

// A column's value; null where there is none, and a truth as a number.
fn sql_column<'a>(value: Option<ValueRef<'a>>) -> SqlRef<'a>
    ensures { bound_value (owned result) ≡ sql_column (option_map read_value value.entry) }
{
    match value {
        None => SqlRef::Null,
        Some(ValueRef::Int(number)) => SqlRef::Int(number),
        Some(ValueRef::Text(text)) => SqlRef::Text(text.as_bytes()),
        Some(ValueRef::Bool(truth)) => SqlRef::Int(i64::from(truth)),
    }
}

/// Appends the columns of a row.
pub fn push_row<'a>(row: &'a Row, into: &mut Vec<SqlRef<'a>>) -> Result<(), OutOfMemory>
    ensures { OnOk result (bound into.new.items ≡ bound into.old.items ++ map sql_column row.now) }
{
    for number in 0..row.len() {
        into.push(sql_column(row.column(number)))?;
    }
    Ok(())
}

/// Appends the values of a key.
pub fn push_key<'a>(key: KeyValues<'a>, into: &mut Vec<SqlRef<'a>>) -> Result<(), OutOfMemory>
    ensures { OnOk result (bound into.new.items ≡ bound into.old.items ++ map sql_value (values_lent key.entry)) }
{
    match key {
        KeyValues::Int(number) => {
            into.push(SqlRef::Int(number))?;
            Ok(())
        }
        KeyValues::List(values) => push_values(values, into),
    }
}

// Appends values.
fn push_values<'a>(values: &'a [Value], into: &mut Vec<SqlRef<'a>>) -> Result<(), OutOfMemory>
    ensures { OnOk result (bound into.new.items ≡ bound into.old.items ++ map sql_value values.now) }
{
    for value in values {
        into.push(sql_column(Some(ValueRef::of(value))))?;
    }
    Ok(())
}

/// Appends what an update does to each column: whether it writes it, and what.
pub fn push_patch<'a>(patch: &'a Patch, into: &mut Vec<SqlRef<'a>>) -> Result<(), OutOfMemory>
    ensures { OnOk result (bound into.new.items ≡ bound into.old.items ++ patch_values patch.now) }
{
    for number in 0..patch.len() {
        let (writes, value) = sql_patch(patch.column(number));
        into.push(writes)?;
        into.push(value)?;
    }
    Ok(())
}

// What an update does to a column: 1 and the value where it writes one, else 0.
fn sql_patch<'a>(column: ColumnPatchRef<'a>) -> (SqlRef<'a>, SqlRef<'a>)
    ensures { bound (result.0 ∷ result.1 ∷ []) ≡ sql_patch (read_column column.entry) }
{
    match column {
        ColumnPatchRef::Keep => (SqlRef::Int(0), SqlRef::Null),
        ColumnPatchRef::Null => (SqlRef::Int(1), SqlRef::Null),
        ColumnPatchRef::Value(value) => (SqlRef::Int(1), sql_column(Some(value))),
    }
}
