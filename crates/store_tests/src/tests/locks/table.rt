// The tables of these tests: two of an int, which is the primary key, a text, which is a unique key, and a
// text.
ghost use Rattle.std.specs.Prelude.{◌≡◌, ◌<◌, [], IfOk, length};
ghost use Rattle.std.specs.FinMap as finite;
ghost use Rattle.model.specs.Named.{NamesTables};
ghost use Rattle.world_parts.specs.ByTable.{IsIn};
ghost use Rattle.table_locks.specs.Truncating.{IsTruncate};
ghost use Rattle.store_tests.specs.Names.{HasNames};

use bytes::ByteStr;
use indexes::Tables;
use model::{
    Change, ColumnPatch, KeptText, Key, KeyColumns, OutOfMemory, Patch, Row, TableDef, TableId,
    TableIds, Value, ValueRef,
};
use parted_store::Line;
use std::alloc::Global;
use table_locks::Made;

pub(super) const FIRST: TableId = 0;

pub(super) const SECOND: TableId = 1;

pub(super) static BOTH: [TableId; 2] = [FIRST, SECOND];

fn definition(alloc: Global) -> Result<TableDef, OutOfMemory> {
    Ok(TableDef::new(
        ByteStr::new(),
        ByteStr::new(),
        Vec::new(alloc),
        Vec::new(alloc),
        KeyColumns::from_numbers(vec![in alloc; 0]?),
        vec![in alloc; KeyColumns::from_numbers(vec![in alloc; 1]?)]?,
    ))
}

// Both, empty.
fn empty_tables(alloc: Global) -> Result<Tables, OutOfMemory>
    ensures two { IfOk result (λ tables. length tables.schema ≡ 2) }
    ensures empty { IfOk result (λ tables. tables.rows ≡ finite.empty) }
{
    Tables::of_definitions(alloc, &[definition(alloc)?, definition(alloc)?])
}

/// What a store of these is made of, and its line.
pub(super) fn empty_store(alloc: Global) -> Result<(Made, Line), OutOfMemory>
    ensures names { IfOk result (λ made. HasNames made.0) }
    ensures two { IfOk result (λ made. length made.0.blank.schema ≡ 2) }
    ensures line { IfOk result (λ made. made.1 ≡ made.0.journal.part.line) }
    ensures none { IfOk result (λ made. made.1.list ≡ []) }
{
    match Made::of_tables(alloc, empty_tables(alloc)?) {
        Ok(made) => Ok(made),
        Err(_) => Err(OutOfMemory),
    }
}

pub(super) fn key(alloc: Global, id: i64) -> Result<Key, OutOfMemory> {
    Key::from_value(alloc, Value::Int(id))
}

/// A row of this id comes.
pub(super) fn put(alloc: Global, table: TableId, id: i64) -> Result<Change, OutOfMemory>
    requires { table < 2 }
    ensures names { IfOk result (NamesTables 2) }
    ensures its { IfOk result (IsIn table) }
{
    let values = vec![in alloc; Some(Value::Int(id)), None, None]?;
    Ok(Change::Put {
        table,
        row: Row::from_values(values)?,
    })
}

/// A row of the first table comes, of this id and email.
pub(super) fn put_first(alloc: Global, id: i64, email: &str) -> Result<Change, OutOfMemory>
    ensures names { IfOk result (NamesTables 2) }
    ensures its { IfOk result (IsIn 0) }
{
    let email = Value::Text(KeptText::from_str(alloc, email)?);
    let values = vec![in alloc; Some(Value::Int(id)), Some(email), None]?;
    Ok(Change::Put {
        table: FIRST,
        row: Row::from_values(values)?,
    })
}

/// The row of the first table at this id has another note.
pub(super) fn set_first(alloc: Global, id: i64) -> Result<Change, OutOfMemory>
    ensures names { IfOk result (NamesTables 2) }
    ensures its { IfOk result (IsIn 0) }
{
    let note = ColumnPatch::Value(Value::Text(KeptText::from_str(alloc, "v")?));
    let columns = vec![in alloc; ColumnPatch::Keep, ColumnPatch::Keep, note]?;
    Ok(Change::Set {
        table: FIRST,
        key: key(alloc, id)?,
        patch: Patch::from_columns(columns)?,
    })
}

/// All rows of the first table go.
pub(super) fn wipe_first(alloc: Global) -> Result<Change, OutOfMemory>
    ensures names { IfOk result (NamesTables 2) }
    ensures its { IfOk result (IsIn 0) }
{
    let ids = vec![in alloc; FIRST]?;
    Ok(Change::Wipe {
        tables: TableIds::from_ids(ids),
    })
}

/// A row goes.
pub(super) fn remove(alloc: Global, table: TableId, id: i64) -> Result<Change, OutOfMemory>
    requires { table < 2 }
    ensures names { IfOk result (NamesTables 2) }
    ensures its { IfOk result (IsIn table) }
{
    Ok(Change::Remove {
        table,
        key: key(alloc, id)?,
    })
}

/// All rows of both go.
pub(super) fn wipe_both(alloc: Global) -> Result<Change, OutOfMemory>
    ensures names { IfOk result (NamesTables 2) }
    ensures truncate { IfOk result IsTruncate }
{
    let ids = vec![in alloc; FIRST, SECOND]?;
    Ok(Change::Wipe {
        tables: TableIds::from_ids(ids),
    })
}

/// The id of a row.
pub(super) fn id_of(row: &Row) -> Option<i64> {
    match row.get(0) {
        Some(ValueRef::Int(id)) => Some(id),
        _ => None,
    }
}
