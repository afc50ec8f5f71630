// Tables, rows and changes in plain words: what the tests write, and what the crates
// are given.
ghost use Rattle.std.specs.Prelude.{IsTrue, ℕ};
ghost use Rattle.model.specs.Named.{NamesTables};

use bytes::ByteStr;
use indexes::Tables;
use model::{
    Change, ColumnPatch, KeptText, Key, KeyColumns, OutOfMemory, Patch, Row, TableDef, TableId,
    TableIds, Value, ValueRef,
};
use rows::RowView;
use std::alloc::Global;
use std::fmt::Write;
use std::process::Abort;

/// What a column has: `\N` is null, a number is an int, and all else is a text.
pub(crate) type Word = &'static str;

/// What the three columns of a row have.
pub(crate) type Words = (Word, Word, Word);

pub(crate) const NULL: Word = r"\N";

/// A column that an update leaves as it is.
pub(crate) const KEPT: Word = "-";

/// A change. Each table has three columns, of which the first is its primary key.
#[derive(Clone, Copy, Debug)]
pub(crate) enum Call {
    Put(TableId, Words),
    Set(TableId, Word, Words),
    Remove(TableId, Word),
    Wipe(&'static [TableId]),
}

pub(crate) fn value(alloc: Global, word: Word) -> Result<Option<Value>, OutOfMemory> {
    match word.parse::<i64>() {
        Ok(number) => Ok(Some(Value::Int(number))),
        Err(_) if word == NULL => Ok(None),
        Err(_) => Ok(Some(Value::Text(KeptText::from_str(alloc, word)?))),
    }
}

/// The key of this value.
pub(crate) fn key(alloc: Global, word: Word) -> Result<Key, OutOfMemory> {
    let mut values = Vec::new(alloc);
    if let Some(value) = value(alloc, word)? {
        values.push(value)?;
    }
    Key::from_values(values)
}

fn row(alloc: Global, words: &Words) -> Result<Row, OutOfMemory> {
    let mut values = Vec::new(alloc);
    for word in [words.0, words.1, words.2] {
        values.push(value(alloc, word)?)?;
    }
    Row::from_values(values)
}

fn column_patch(alloc: Global, word: Word) -> Result<ColumnPatch, OutOfMemory> {
    if word == KEPT {
        return Ok(ColumnPatch::Keep);
    }
    match value(alloc, word)? {
        None => Ok(ColumnPatch::Null),
        Some(value) => Ok(ColumnPatch::Value(value)),
    }
}

fn patch(alloc: Global, words: &Words) -> Result<Patch, OutOfMemory> {
    let mut columns = Vec::new(alloc);
    for word in [words.0, words.1, words.2] {
        columns.push(column_patch(alloc, word)?)?;
    }
    Patch::from_columns(columns)
}

/// The change as the crates are given it.
pub(crate) fn change(alloc: Global, call: &Call) -> Result<Change, OutOfMemory> {
    match call {
        Call::Put(table, words) => Ok(Change::Put {
            table: *table,
            row: row(alloc, words)?,
        }),
        Call::Set(table, id, words) => Ok(Change::Set {
            table: *table,
            key: key(alloc, id)?,
            patch: patch(alloc, words)?,
        }),
        Call::Remove(table, id) => Ok(Change::Remove {
            table: *table,
            key: key(alloc, id)?,
        }),
        Call::Wipe(tables) => Ok(Change::Wipe {
            tables: TableIds::from_ids(tables.to_vec(alloc)?),
        }),
    }
}

/// Whether the tables of a change are among the first so many.
pub(crate) fn are_there(count: usize, c: &Change) -> bool
    ensures { IsTrue result → NamesTables count c.now }
{
    match c {
        Change::Put { table, .. } | Change::Set { table, .. } | Change::Remove { table, .. } => {
            *table < count
        }
        Change::Wipe { tables } => tables.ids().iter().all(|table| *table < count),
    }
}

/// Empty tables, each with these columns as unique keys.
pub(crate) fn empty_tables(alloc: Global, uniques: &[&[usize]]) -> Result<Tables, OutOfMemory> {
    let mut definitions = Vec::new(alloc);
    for columns in uniques {
        definitions.push(definition(alloc, columns)?)?;
    }
    Tables::of_definitions(alloc, definitions.as_slice())
}

fn definition(alloc: Global, columns: &[usize]) -> Result<TableDef, OutOfMemory> {
    let mut uniques = Vec::new(alloc);
    for column in columns {
        uniques.push(KeyColumns::from_numbers(vec![in alloc; *column]?))?;
    }
    Ok(TableDef::new(
        ByteStr::new(),
        ByteStr::new(),
        Vec::new(alloc),
        Vec::new(alloc),
        KeyColumns::from_numbers(vec![in alloc; 0]?),
        uniques,
    ))
}

/// A table's rows in key order, divided by blanks: `1|a|n 2|b|n`.
pub(crate) fn rows_of(
    rt: &impl Abort,
    alloc: Global,
    t: &Tables,
    table: TableId,
) -> Result<String, OutOfMemory> {
    assert!(rt; table < t.len());
    let mut out = String::new(alloc);
    for row in t.walk(table) {
        push_row(&mut out, &row)?;
    }
    Ok(out)
}

/// These rows, as `rows_of` has them.
pub(crate) fn rows_text(alloc: Global, rows: &[Row]) -> Result<String, OutOfMemory> {
    let mut out = String::new(alloc);
    for row in rows {
        push_row(&mut out, &RowView::of_row(row))?;
    }
    Ok(out)
}

fn push_row(out: &mut String, row: &RowView<'_>) -> Result<(), OutOfMemory> {
    if !out.is_empty() {
        out.push(' ')?;
    }
    for column in 0..row.len() {
        if column > 0 {
            out.push('|')?;
        }
        push_value(out, row.column(column))?;
    }
    Ok(())
}

fn push_value(out: &mut String, value: Option<ValueRef<'_>>) -> Result<(), OutOfMemory> {
    match value {
        None => out.push_str(NULL)?,
        Some(ValueRef::Int(number)) => write!(out, "{number}")?,
        Some(ValueRef::Text(text)) => out.push_str(text)?,
        Some(ValueRef::Bool(truth)) => write!(out, "{truth}")?,
    }
    Ok(())
}

/// Whether a row has these words.
pub(crate) fn is_row(words: &Words, row: &RowView<'_>) -> bool {
    row.len() == 3
        && is_value(words.0, row.column(0))
        && is_value(words.1, row.column(1))
        && is_value(words.2, row.column(2))
}

fn is_value(word: Word, found: Option<ValueRef<'_>>) -> bool {
    match (word.parse::<i64>(), found) {
        (Ok(number), Some(ValueRef::Int(other))) => number == other,
        (Err(_), Some(ValueRef::Text(other))) => word == other,
        (Err(_), None) => word == NULL,
        _ => false,
    }
}
