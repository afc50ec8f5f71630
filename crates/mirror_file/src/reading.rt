// The rows of a table.
ghost use Rattle.std.specs.Prelude.{◌≡◌, ◌<◌, length};

use crate::fault::FileFault;
use change::apply;
use indexes::Tables;
use model::{Change, ColumnType, Row, RowBuilder, TableDef, TableId, ValueRef};
use sqlite::types::ValueRef as SqlRef;
use sqlite::{Alter, Connection};
use std::alloc::Global;

/// Puts the rows of a table of the file, which this text reads, into the tables.
pub fn read_rows<S: Alter>(
    alloc: Global,
    conn: &mut Connection<S>,
    select: &str,
    definition: &TableDef,
    table: TableId,
    tables: &mut Tables,
) -> Result<(), FileFault>
    requires { table < length tables.old.schema }
    ensures { tables.new.schema ≡ tables.old.schema }
{
    let mut rows = conn.query(select, &[])?;
    for _ in 0..u64::MAX {
        let Some(row) = rows.next()? else {
            return Ok(());
        };
        let row = read_row(alloc, &row, definition, table)?;
        put_row(alloc, table, row, tables)?;
    }
    Ok(())
}

// Puts a row into its table.
fn put_row(alloc: Global, table: TableId, row: Row, tables: &mut Tables) -> Result<(), FileFault>
    requires { table < length tables.old.schema }
    ensures { tables.new.schema ≡ tables.old.schema }
{
    apply(alloc, tables, &Change::Put { table, row })?;
    Ok(())
}

// A row of the file as one of its table.
fn read_row(
    alloc: Global,
    from: &sqlite::Row,
    definition: &TableDef,
    table: TableId,
) -> Result<Row, FileFault> {
    let mut row = RowBuilder::with_room(alloc, definition.columns().len(), 0)?;
    for (number, column) in definition.columns().iter().enumerate() {
        let Some(value) = read_value(column.kind, from.get_ref(number)?) else {
            return Err(FileFault::Row(table));
        };
        row.push(value)?;
    }
    Ok(row.finish()?)
}

// A value of the file as one of a column of this type, null too; none where it is no such value.
fn read_value<'a>(kind: ColumnType, value: SqlRef<'a>) -> Option<Option<ValueRef<'a>>> {
    match (kind, value) {
        (_, SqlRef::Null) => Some(None),
        (ColumnType::Int, SqlRef::Int(number)) => Some(Some(ValueRef::Int(number))),
        (ColumnType::Bool, SqlRef::Int(0)) => Some(Some(ValueRef::Bool(false))),
        (ColumnType::Bool, SqlRef::Int(1)) => Some(Some(ValueRef::Bool(true))),
        (ColumnType::Text, SqlRef::Text(bytes)) => {
            Some(Some(ValueRef::Text(std::str::from_utf8(bytes).ok()?)))
        }
        _ => None,
    }
}
