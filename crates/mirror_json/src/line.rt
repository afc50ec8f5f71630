// The line of a change.
ghost use Rattle.std.specs.Prelude.{◌≡◌, OnOk, IfOk};
ghost use Rattle.mirror_json.specs.Lines.{AppendsLines};

use crate::deed::Deed;
use json::Writer;
use model::{Column, Key, KeyColumns, KeyValues, Lsn, Row, TableDef, ValueRef, Xid};
use std::alloc::{AllocError, Global};

// What a line says.
#[derive(Clone, Copy, Debug)]
pub(crate) struct ChangeLine<'a> {
    pub(crate) table: &'a TableDef,
    pub(crate) deed: Deed<'a>,
    // The row behind the change.
    pub(crate) row: Option<&'a Row>,
    pub(crate) xid: Xid,
    // Where the log goes on behind its commit.
    pub(crate) end: Lsn,
}

impl ChangeLine<'_> {
    // Behind these bytes, the line. Refused, they are gone.
    pub(crate) fn behind(&self, alloc: Global, bytes: Vec<u8>) -> Result<Vec<u8>, AllocError>
        ensures { IfOk result (λ longer. AppendsLines bytes.items longer.items) }
    {
        let mut writer = Writer::new(bytes);
        self.write_object(alloc, &mut writer)?;
        let mut longer = writer.into_inner();
        longer.push(b'\n')?;
        Ok(longer)
    }

    // Writes what it says, as an object.
    fn write_object(&self, alloc: Global, writer: &mut Writer) -> Result<(), AllocError>
        ensures { OnOk result (writer.new.before ≡ writer.old.before) }
    {
        writer.begin_object()?;
        writer.key("table")?;
        writer.string(table_name(alloc, self.table)?.as_str())?;
        writer.key("kind")?;
        writer.string(self.deed.kind())?;
        if let Some(key) = self.deed.key() {
            writer.key("key")?;
            write_key(writer, self.table.columns(), self.table.primary(), key)?;
        }
        if let Some(row) = self.row {
            writer.key("row")?;
            write_row(writer, self.table.columns(), row)?;
        }
        writer.key("xid")?;
        writer.u64(u64::from(self.xid))?;
        writer.key("lsn")?;
        writer.string(lsn_text(alloc, self.end)?.as_str())?;
        writer.end_object()
    }
}

// The name of a table, behind that of its schema.
fn table_name(alloc: Global, table: &TableDef) -> Result<String, AllocError> {
    let namespace = table.namespace().as_str();
    let name = table.name().as_str();
    format!(in alloc; "{namespace}.{name}")
}

// An LSN as PostgreSQL writes it.
fn lsn_text(alloc: Global, lsn: Lsn) -> Result<String, AllocError> {
    let high = lsn >> 32;
    let low = lsn & 0xffff_ffff;
    format!(in alloc; "{high:X}/{low:X}")
}

// Writes a key by the names of its columns.
fn write_key(
    writer: &mut Writer,
    columns: &[Column],
    numbers: &KeyColumns,
    key: &Key,
) -> Result<(), AllocError>
    ensures { OnOk result (writer.new.before ≡ writer.old.before) }
{
    writer.begin_object()?;
    for (place, number) in numbers.numbers().iter().enumerate() {
        if let Some(column) = columns.get(*number) {
            writer.key(column.name.as_str())?;
            write_value(writer, key_value(key, place))?;
        }
    }
    writer.end_object()
}

// The value at a place of a key.
fn key_value(key: &Key, place: usize) -> Option<ValueRef<'_>> {
    match key.values() {
        KeyValues::Int(number) => Some(ValueRef::Int(number)),
        KeyValues::List(values) => Some(ValueRef::of(values.get(place)?)),
    }
}

// Writes a row by the names of its columns.
fn write_row(writer: &mut Writer, columns: &[Column], row: &Row) -> Result<(), AllocError>
    ensures { OnOk result (writer.new.before ≡ writer.old.before) }
{
    writer.begin_object()?;
    for (number, column) in columns.iter().enumerate() {
        writer.key(column.name.as_str())?;
        write_value(writer, row.get(number))?;
    }
    writer.end_object()
}

// Writes a column's value, or null.
fn write_value(writer: &mut Writer, value: Option<ValueRef<'_>>) -> Result<(), AllocError>
    ensures { OnOk result (writer.new.before ≡ writer.old.before) }
{
    match value {
        None => writer.null(),
        Some(ValueRef::Int(number)) => writer.i64(number),
        Some(ValueRef::Text(text)) => writer.string(text),
        Some(ValueRef::Bool(truth)) => writer.boolean(truth),
    }
}
