// What the columns of a tuple make: a row, a patch, a key.

ghost use Rattle.std.specs.Prelude.{◌≡◌, option_and_then, ok_or, slice_get};
ghost use Rattle.relcache.specs.Answer.{Answers, AnswersPatch, AnswersRead};
ghost use Rattle.relcache.specs.Planning as spec;
ghost use Rattle.relcache.specs.declared.fault.RelFault.TheVariants.{BadValue};

use crate::fault::RelFault;
use crate::mapping::{ColumnSource, Field, Mapping};
use crate::values::{sent_patch, sent_value};
use messages::{Column, Tuple};
use model::{
    ColumnPatchRef, ColumnType, Key, Patch, PatchBuilder, Row, RowBuilder, Value, ValueRef,
};
use std::alloc::Global;

/// The value of a field; `None` is null.
fn field_value<'a>(tuple: &'a [Column], field: &Field) -> Result<Option<ValueRef<'a>>, RelFault>
    ensures { AnswersRead result (ok_or (spec.field_value tuple.now field.now) BadValue) }
{
    match tuple.get(field.place) {
        Some(column) => sent_value(field.kind, column),
        None => Err(RelFault::BadValue),
    }
}

/// What an update does to a field.
fn field_patch<'a>(tuple: &'a [Column], field: &Field) -> Result<ColumnPatchRef<'a>, RelFault>
    ensures { AnswersPatch result (ok_or (spec.field_patch tuple.now field.now) BadValue) }
{
    match tuple.get(field.place) {
        Some(column) => sent_patch(field.kind, column),
        None => Err(RelFault::BadValue),
    }
}

/// A column of an inserted row.
fn column_value<'a>(
    tuple: &'a [Column],
    source: &'a ColumnSource,
) -> Result<Option<ValueRef<'a>>, RelFault>
    ensures { AnswersRead result (ok_or (spec.column_value tuple.now source.now) BadValue) }
{
    match source {
        ColumnSource::Sent(field) => field_value(tuple, field),
        ColumnSource::Default(value) => Ok(ValueRef::of_column(value)),
    }
}

/// A column of an updated row.
fn column_patch<'a>(
    tuple: &'a [Column],
    source: &ColumnSource,
) -> Result<ColumnPatchRef<'a>, RelFault>
    ensures { AnswersPatch result (ok_or (spec.column_patch tuple.now source.now) BadValue) }
{
    match source {
        ColumnSource::Sent(field) => field_patch(tuple, field),
        ColumnSource::Default(_) => Ok(ColumnPatchRef::Keep),
    }
}

/// An inserted row.
pub(crate) fn row_of(alloc: Global, m: &Mapping, tuple: &Tuple) -> Result<Row, RelFault>
    ensures { Answers result (ok_or (spec.row_of m.now tuple.now) BadValue) }
{
    let (sources, tuple) = (m.columns(), tuple.columns());
    let mut row = RowBuilder::with_room(alloc, sources.len(), text_len(sources, tuple))?;
    for source in sources {
        row.push(column_value(tuple, source)?)?;
    }
    Ok(row.finish()?)
}

/// How many bytes the texts of an inserted row have, or the greatest number where they are more. No
/// value is read for it.
fn text_len(sources: &[ColumnSource], tuple: &[Column]) -> usize {
    let mut len: usize = 0;
    for source in sources {
        len = len.saturating_add(source_text_len(source, tuple));
    }
    len
}

/// How many bytes a column's text has; zero where the column isn't a text.
fn source_text_len(source: &ColumnSource, tuple: &[Column]) -> usize {
    match source {
        ColumnSource::Sent(field) if field.kind == ColumnType::Text => sent_len(tuple.get(
            field.place,
        )),
        ColumnSource::Default(Some(Value::Text(text))) => text.as_str().len(),
        _ => 0,
    }
}

/// How many bytes were sent for a column.
fn sent_len(column: Option<&Column>) -> usize {
    match column {
        Some(Column::Text(text)) => text.as_str().len(),
        _ => 0,
    }
}

/// How many bytes the texts have that are sent, or the greatest number where they are more.
fn sent_text_len(sources: &[ColumnSource], tuple: &[Column]) -> usize {
    let mut len: usize = 0;
    for source in sources {
        if let ColumnSource::Sent(_) = source {
            len = len.saturating_add(source_text_len(source, tuple));
        }
    }
    len
}

/// The patch of an update.
pub(crate) fn patch_of(alloc: Global, m: &Mapping, tuple: &Tuple) -> Result<Patch, RelFault>
    ensures { Answers result (ok_or (spec.patch_of m.now tuple.now) BadValue) }
{
    let (sources, tuple) = (m.columns(), tuple.columns());
    let mut patch = PatchBuilder::with_room(alloc, sources.len(), sent_text_len(sources, tuple))?;
    for source in sources {
        patch.push(column_patch(tuple, source)?)?;
    }
    Ok(patch.finish()?)
}

/// The key that a row is looked up by. A bad value anywhere in it goes before a null.
pub(crate) fn lookup_key(alloc: Global, fields: &[Field], tuple: &[Column]) -> Result<Key, RelFault>
    ensures { Answers result (spec.lookup_key fields.now tuple.now) }
{
    let mut values = Vec::with_capacity(alloc, fields.len())?;
    let mut has_null = false;
    for field in fields {
        match field_value(tuple, field)? {
            Some(value) => values.push(value.to_value(alloc)?)?,
            None => has_null = true,
        }
    }
    if has_null {
        Err(RelFault::NullKey)
    } else {
        Ok(Key::from_values(values)?)
    }
}
