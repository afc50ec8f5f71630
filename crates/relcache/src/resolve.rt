// Which table a relation stands for, and how its columns are filled.

ghost use Rattle.std.specs.Prelude.{◌≡◌, position, slice_get, option_copied, option_map, IfOk};
ghost use Rattle.std.specs.Option.{option_flatten};
ghost use Rattle.std.specs.List.{list_any, list_all};
ghost use Rattle.relcache.specs.Answer.{Answers};
ghost use Rattle.relcache.specs.Mapping as spec;

use crate::fault::RelFault;
use crate::mapping::{ColumnSource, Field, Mapping};
use crate::published::{Published, PublishedColumn};
use bytes::ByteStr;
use model::{Column, TableDef, TableId, Value};
use std::alloc::{AllocError, Global};

/// The namespace that an empty one of a relation stands for.
const SYSTEM_CATALOG: &str = "pg_catalog";

/// The namespace that a relation names.
fn namespace_of(r: &Published) -> &str
    ensures { result.now ≡ spec.namespace_of r.now.namespace }
{
    if r.namespace.is_empty() {
        SYSTEM_CATALOG
    } else {
        r.namespace.as_str()
    }
}

/// Whether the table has the relation's namespace and name.
fn is_table_of(r: &Published, table: &TableDef) -> bool
    ensures { result ≡ spec.is_table_of r.now table.now }
{
    table.namespace().as_str() == namespace_of(r) && *table.name() == r.name
}

/// The place of the relation's table in the catalog.
fn table_place(r: &Published, tables: &[TableDef]) -> Option<TableId>
    ensures { result ≡ position (spec.is_table_of r.now) tables.now }
{
    tables.iter().position(|table| is_table_of(r, table))
}

/// The relation's table, after its place in the catalog.
fn table_of<'a>(r: &Published, tables: &'a [TableDef]) -> Option<(TableId, &'a TableDef)>
    ensures { option_map (λ t. (t.0, t.1.now)) result ≡ spec.table_of r.now tables.now }
{
    let place = table_place(r, tables)?;
    let table = tables.get(place)?;
    Some((place, table))
}

/// Whether the table has a column of this name.
fn has_column(columns: &[Column], sent: &PublishedColumn) -> bool
    ensures { result ≡ spec.has_column columns.now sent.now }
{
    columns.iter().any(|column| column.name == sent.name)
}

/// Whether the table has all published columns.
fn has_columns(columns: &[Column], sent: &[PublishedColumn]) -> bool
    ensures { result ≡ list_all (spec.has_column columns.now) sent.now }
{
    sent.iter().all(|column| has_column(columns, column))
}

/// Whether one of the columns has this name.
fn is_named_among(name: &ByteStr, columns: &[PublishedColumn]) -> bool
    ensures { result ≡ list_any (spec.is_named name.now) columns.now }
{
    columns.iter().any(|column| column.name == *name)
}

/// Whether some column is published twice.
fn has_twice(sent: &[PublishedColumn]) -> bool
    ensures { result ≡ spec.has_twice sent.now }
{
    for (place, column) in sent.iter().enumerate() {
        if is_named_among(&column.name, &sent[place + 1..]) {
            return true;
        }
    }
    false
}

/// The field of a column whose values stand at this place.
fn field_at(column: &Column, place: usize) -> Field
    ensures { result ≡ spec.field_at column.now place }
{
    Field {
        place,
        kind: column.kind,
    }
}

/// The place of the published column of this name.
fn place_of(sent: &[PublishedColumn], name: &ByteStr) -> Option<usize>
    ensures { result ≡ position (spec.is_named name.now) sent.now }
{
    sent.iter().position(|column| column.name == *name)
}

/// The same, if the relation flags it as key.
fn key_place_of(sent: &[PublishedColumn], name: &ByteStr) -> Option<usize>
    ensures { result ≡ position (spec.is_key_named name.now) sent.now }
{
    sent.iter()
        .position(|column| column.name == *name && column.is_key)
}

/// The field that the table's column is sent in.
fn field_of(sent: &[PublishedColumn], column: &Column) -> Option<Field>
    ensures { result ≡ spec.field_of sent.now column.now }
{
    match place_of(sent, &column.name) {
        Some(place) => Some(field_at(column, place)),
        None => None,
    }
}

/// The same, if the relation flags the column as key.
fn key_field_of(sent: &[PublishedColumn], column: &Column) -> Option<Field>
    ensures { result ≡ spec.key_field_of sent.now column.now }
{
    match key_place_of(sent, &column.name) {
        Some(place) => Some(field_at(column, place)),
        None => None,
    }
}

/// Where the column's value comes from; `default` is none for a null.
fn source_of(
    sent: &[PublishedColumn],
    column: &Column,
    default: Option<&Value>,
) -> Result<ColumnSource, AllocError>
    ensures { IfOk result
        (λ source. source ≡ spec.source_of sent.now column.now (option_copied default.entry)) }
{
    match field_of(sent, column) {
        Some(field) => Ok(ColumnSource::Sent(field)),
        None => match default {
            Some(value) => Ok(ColumnSource::Default(Some(value.clone()?))),
            None => Ok(ColumnSource::Default(None)),
        },
    }
}

/// The default of the column in this place; none for a null.
fn default_at(defaults: &[Option<Value>], place: usize) -> Option<&Value>
    ensures { option_copied result ≡ option_flatten (slice_get defaults.now place) }
{
    match defaults.get(place) {
        Some(default) => default.as_ref(),
        None => None,
    }
}

/// Where the value of each of the table's columns comes from.
fn sources_of(
    alloc: Global,
    sent: &[PublishedColumn],
    table: &TableDef,
) -> Result<Vec<ColumnSource>, AllocError>
    ensures { IfOk result
        (λ sources. sources.items ≡ spec.sources_of sent.now table.now.columns table.now.defaults) }
{
    let columns = table.columns();
    let defaults = table.defaults();
    let mut sources = Vec::with_capacity(alloc, columns.len())?;
    for (place, column) in columns.iter().enumerate() {
        let source = source_of(sent, column, default_at(defaults, place))?;
        sources.push(source)?;
    }
    Ok(sources)
}

/// The field of the primary key's column of this number.
fn key_field_at(sent: &[PublishedColumn], columns: &[Column], number: usize) -> Option<Field>
    ensures { result ≡ spec.key_field_at sent.now columns.now number }
{
    match columns.get(number) {
        Some(column) => key_field_of(sent, column),
        None => None,
    }
}

/// The field of each of the primary key's columns, if all are flagged as key.
fn key_of(
    alloc: Global,
    sent: &[PublishedColumn],
    table: &TableDef,
) -> Result<Option<Vec<Field>>, AllocError>
    ensures { IfOk result
        (λ key. option_map (λ fields. fields.items) key ≡ spec.key_of sent.now table.now) }
{
    let columns = table.columns();
    let numbers = table.primary().numbers();
    let mut fields = Vec::with_capacity(alloc, numbers.len())?;
    for number in numbers {
        match key_field_at(sent, columns, *number) {
            Some(field) => fields.push(field)?,
            None => return Ok(None),
        }
    }
    Ok(Some(fields))
}

/// The mapping of a relation to a table.
fn mapping_of(
    alloc: Global,
    r: &Published,
    place: TableId,
    table: &TableDef,
) -> Result<Mapping, AllocError>
    ensures { IfOk result (λ m. m ≡ spec.mapped r.now (place, table.now)) }
{
    let columns = sources_of(alloc, r.columns.as_slice(), table)?;
    let key = key_of(alloc, r.columns.as_slice(), table)?;
    Ok(Mapping::new(place, r.columns.len(), columns, key))
}

/// The mapping of a relation to its table among these.
pub(crate) fn map_relation(
    alloc: Global,
    r: &Published,
    tables: &[TableDef],
) -> Result<Mapping, RelFault>
    ensures { Answers result (spec.map_relation tables.now r.now) }
{
    let Some((place, table)) = table_of(r, tables) else {
        return Err(RelFault::TableMissing);
    };
    if !has_columns(table.columns(), r.columns.as_slice()) {
        return Err(RelFault::ColumnMissing);
    }
    if has_twice(r.columns.as_slice()) {
        return Err(RelFault::ColumnCount);
    }
    Ok(mapping_of(alloc, r, place, table)?)
}
