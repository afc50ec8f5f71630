// The report of a run: the rows of each table, the position and the end, as text.
mod names;
mod text;

ghost use Rattle.std.specs.Prelude.{◌≡◌, ◌<◌, ◌^◌, ◌++◌, length, map, flat_map, OnOk, OnErr};
ghost use Rattle.model.specs.Rows.{keys_of};
ghost use Rattle.run.specs.Report.{name_text, row_text, table_text, tables_text, table_name, end_text, report_text};

use crate::end::End;
use crate::outcome::Outcome;
use catalog::Catalog;
use indexes::Tables;
use model::{OutOfMemory, TableDef, TableId, types};
use names::{frame_fault, message_fault, relation_fault, session_fault};
use rows::{RowView, Walk};
use std::alloc::{AllocError, Global};
use text::{push_lsn, push_number, push_value};

/// Appends the report: for each table a line with its name and number of rows, and its rows in key
/// order; then the position; then the end. Refused for memory, it leaves `out` as it was.
pub fn report(
    alloc: Global,
    outcome: &Outcome,
    catalog: &Catalog,
    out: &mut Vec<u8>,
) -> Result<(), OutOfMemory>
    requires { outcome.now.tables.schema ≡ map keys_of catalog.now }
    ensures ok { OnOk result (out.new.items ≡ out.old.items ++ report_text catalog.now outcome.now.tables.rows outcome.now.position outcome.now.end) }
    ensures err { OnErr result (out.new.items ≡ out.old.items) }
{
    let mut text = Vec::new(alloc);
    push_report(&mut text, outcome, catalog)?;
    if out.is_empty() {
        *out = text;
        return Ok(());
    }
    out.extend_from_slice(text.as_slice())?;
    Ok(())
}

fn push_report(text: &mut Vec<u8>, outcome: &Outcome, catalog: &Catalog) -> Result<(), OutOfMemory>
    requires { outcome.now.tables.schema ≡ map keys_of catalog.now }
    ensures { OnOk result (text.new.items ≡ text.old.items ++ report_text catalog.now outcome.now.tables.rows outcome.now.position outcome.now.end) }
{
    push_tables(text, &outcome.tables, catalog.tables())?;
    text.extend_from_slice(b"position ")?;
    push_lsn(text, outcome.position)?;
    text.push(b'\n')?;
    push_end(text, outcome.end, catalog.tables())?;
    text.push(b'\n')?;
    Ok(())
}

/// All tables, in the catalog's order.
fn push_tables(
    text: &mut Vec<u8>,
    tables: &Tables,
    definitions: &[TableDef],
) -> Result<(), OutOfMemory>
    requires { tables.now.schema ≡ map keys_of definitions.now }
    ensures { OnOk result (text.new.items ≡ text.old.items ++ tables_text definitions.now tables.now.rows) }
{
    for (table, definition) in definitions.iter().enumerate() {
        let count = count(tables.walk(table));
        push_table(text, definition, count, tables.walk(table))?;
    }
    Ok(())
}

/// A table: its name, the number of its rows, and the rows in key order.
fn push_table(
    text: &mut Vec<u8>,
    definition: &TableDef,
    count: usize,
    rows: Walk<'_>,
) -> Result<(), OutOfMemory>
    requires { count ≡ length rows }
    ensures { OnOk result (text.new.items ≡ text.old.items ++ table_text definition.now rows.entry) }
{
    text.extend_from_slice(b"table ")?;
    push_name(text, definition)?;
    text.push(b' ')?;
    push_number(text, count as u64)?;
    text.push(b'\n')?;
    push_rows(text, rows)
}

/// How many rows a walk has left.
fn count(rows: Walk<'_>) -> usize
    requires { length rows < 2 ^ 63 }
    ensures { result ≡ length rows.entry }
{
    rows.count()
}

/// The rows in key order, each in a line.
fn push_rows(text: &mut Vec<u8>, rows: Walk<'_>) -> Result<(), OutOfMemory>
    ensures { OnOk result (text.new.items ≡ text.old.items ++ flat_map row_text rows.entry) }
{
    for row in rows {
        push_row(text, &row)?;
    }
    Ok(())
}

/// The namespace and the name of a table.
fn push_name(text: &mut Vec<u8>, definition: &TableDef) -> Result<(), AllocError>
    ensures { OnOk result (text.new.items ≡ text.old.items ++ name_text definition.now) }
{
    types::text::push(text, definition.namespace().as_str())?;
    text.push(b'.')?;
    types::text::push(text, definition.name().as_str())
}

/// A row's values, divided by `|`.
fn push_row(text: &mut Vec<u8>, row: &RowView<'_>) -> Result<(), AllocError>
    ensures { OnOk result (text.new.items ≡ text.old.items ++ row_text row.now) }
{
    for column in 0..row.len() {
        if column > 0 {
            text.push(b'|')?;
        }
        push_value(text, row.column(column))?;
    }
    Ok(text.push(b'\n')?)
}

/// Why the run ended, and with what.
fn push_end(text: &mut Vec<u8>, end: End, definitions: &[TableDef]) -> Result<(), AllocError>
    ensures { OnOk result (text.new.items ≡ text.old.items ++ end_text definitions.now end) }
{
    match end {
        End::Clean => text.extend_from_slice(b"end 0 Clean"),
        End::Frame(fault) => push_words(text, b"end 1 Frame ", frame_fault(fault)),
        End::Msg(fault) => push_words(text, b"end 2 Msg ", message_fault(fault)),
        End::Session(fault) => push_words(text, b"end 3 Session ", session_fault(fault)),
        End::Rel(fault) => push_words(text, b"end 4 Rel ", relation_fault(fault)),
        End::Unique { table, key } => {
            text.extend_from_slice(b"end 5 Unique ")?;
            push_table_name(text, table, definitions)?;
            text.push(b' ')?;
            push_number(text, key as u64)
        }
        End::NullKey { table } => {
            text.extend_from_slice(b"end 6 NullKey ")?;
            push_table_name(text, table, definitions)
        }
        End::HeldKey { xid, holder } => {
            text.extend_from_slice(b"end 7 HeldKey ")?;
            push_number(text, u64::from(xid))?;
            text.push(b' ')?;
            push_number(text, u64::from(holder))
        }
        End::OutOfMemory => text.extend_from_slice(b"end 8 OutOfMemory"),
    }
}

fn push_words(text: &mut Vec<u8>, words: &[u8], name: &str) -> Result<(), AllocError>
    ensures { OnOk result (text.new.items ≡ text.old.items ++ words.now ++ name.now) }
{
    text.extend_from_slice(words)?;
    text.extend_from_slice(name.as_bytes())
}

/// The name of the table with this number.
fn push_table_name(
    text: &mut Vec<u8>,
    table: TableId,
    definitions: &[TableDef],
) -> Result<(), AllocError>
    ensures { OnOk result (text.new.items ≡ text.old.items ++ table_name definitions.now table) }
{
    match definitions.get(table) {
        Some(definition) => push_name(text, definition),
        None => Ok(()),
    }
}
