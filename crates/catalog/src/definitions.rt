// Makes the definitions of tables from drafts that no fault applies to.
ghost use Rattle.std.specs.Prelude.{◌≡◌, IfOk, map};
ghost use Rattle.catalog.specs.Definitions.{column_from, column_number, default_from, definition_from, key_from};

use crate::draft::{ColumnDraft, DefaultDraft, KeyDraft, TableDraft};
use bytes::ByteStr;
use model::{Column, KeyColumns, OutOfMemory, TableDef, Value};
use std::alloc::Global;

/// The definitions of the tables.
pub(crate) fn define_tables(
    alloc: Global,
    tables: &[TableDraft],
) -> Result<Vec<TableDef>, OutOfMemory>
    ensures { IfOk result (λ v. v.items ≡ map definition_from tables.now) }
{
    let mut definitions = Vec::with_capacity(alloc, tables.len())?;
    for table in tables {
        definitions.push(define_table(alloc, table)?)?;
    }
    Ok(definitions)
}

fn define_table(alloc: Global, table: &TableDraft) -> Result<TableDef, OutOfMemory>
    ensures { IfOk result (λ t. t ≡ definition_from table.now) }
{
    let columns = table.columns.items.as_slice();
    Ok(TableDef::new(
        table.namespace.clone()?,
        table.name.clone()?,
        define_columns(alloc, columns)?,
        define_defaults(alloc, columns)?,
        define_key(alloc, columns, &table.primary)?,
        define_keys(alloc, columns, table.uniques.items.as_slice())?,
    ))
}

fn define_columns(alloc: Global, columns: &[ColumnDraft]) -> Result<Vec<Column>, OutOfMemory>
    ensures { IfOk result (λ v. v.items ≡ map column_from columns.now) }
{
    let mut definitions = Vec::with_capacity(alloc, columns.len())?;
    for column in columns {
        definitions.push(Column {
            name: column.name.clone()?,
            kind: column.kind,
        })?;
    }
    Ok(definitions)
}

fn define_defaults(
    alloc: Global,
    columns: &[ColumnDraft],
) -> Result<Vec<Option<Value>>, OutOfMemory>
    ensures { IfOk result (λ v. v.items ≡ map default_from columns.now) }
{
    let mut defaults = Vec::with_capacity(alloc, columns.len())?;
    for column in columns {
        defaults.push(define_default(column)?)?;
    }
    Ok(defaults)
}

fn define_default(column: &ColumnDraft) -> Result<Option<Value>, OutOfMemory>
    ensures { IfOk result (λ d. d ≡ default_from column.now) }
{
    match &column.default {
        DefaultDraft::Given(value) => Ok(Some(value.copy()?)),
        DefaultDraft::Missing | DefaultDraft::OtherKind => Ok(None),
    }
}

fn define_keys(
    alloc: Global,
    columns: &[ColumnDraft],
    keys: &[KeyDraft],
) -> Result<Vec<KeyColumns>, OutOfMemory>
    ensures { IfOk result (λ v. v.items ≡ map (key_from columns.now) keys.now) }
{
    let mut definitions = Vec::with_capacity(alloc, keys.len())?;
    for key in keys {
        definitions.push(define_key(alloc, columns, key)?)?;
    }
    Ok(definitions)
}

fn define_key(
    alloc: Global,
    columns: &[ColumnDraft],
    key: &KeyDraft,
) -> Result<KeyColumns, OutOfMemory>
    ensures { IfOk result (λ k. k ≡ key_from columns.now key.now) }
{
    let names = key.items.as_slice();
    let mut numbers = Vec::with_capacity(alloc, names.len())?;
    for name in names {
        numbers.push(column_number(columns, name))?;
    }
    Ok(KeyColumns::from_numbers(numbers))
}

/// The number of the column with the name, or how many columns there are where none has it.
fn column_number(columns: &[ColumnDraft], name: &ByteStr) -> usize
    ensures { result ≡ column_number columns.now name.now }
{
    for (number, column) in columns.iter().enumerate() {
        if *name == column.name {
            return number;
        }
    }
    columns.len()
}
