// The table of these tests: an int, which is its primary key, and another; and what a store of it is
// made of.
ghost use Rattle.std.specs.Prelude.{◌≡◌, [], IfOk, length};
ghost use Rattle.std.specs.FinMap as finite;
ghost use Rattle.model.specs.Named.{NamesTables};
ghost use Rattle.store_tests.specs.Names.{HasNames};

use bytes::ByteStr;
use indexes::Tables;
use model::{Change, Key, KeyColumns, OutOfMemory, Row, TableDef, TableId, Value};
use std::alloc::Global;
use table_locks::{Line, Made};

pub(super) const TABLE: TableId = 0;

// The table, empty.
fn empty_tables(alloc: Global) -> Result<Tables, OutOfMemory>
    ensures one { IfOk result (λ tables. length tables.schema ≡ 1) }
    ensures empty { IfOk result (λ tables. tables.rows ≡ finite.empty) }
{
    let table = TableDef::new(
        ByteStr::new(),
        ByteStr::new(),
        Vec::new(alloc),
        Vec::new(alloc),
        KeyColumns::from_numbers(vec![in alloc; 0]?),
        Vec::new(alloc),
    );
    Tables::of_definitions(alloc, &[table])
}

/// What a store of it is made of, and its line.
pub(super) fn empty_store(alloc: Global) -> Result<(Made, Line), OutOfMemory>
    ensures names { IfOk result (λ made. HasNames made.0) }
    ensures one { IfOk result (λ made. length made.0.blank.schema ≡ 1) }
    ensures line { IfOk result (λ made. made.1 ≡ made.0.journal.part.line) }
    ensures none { IfOk result (λ made. made.1.list ≡ []) }
{
    match Made::of_tables(alloc, empty_tables(alloc)?) {
        Ok(made) => Ok(made),
        Err(_) => Err(OutOfMemory),
    }
}

pub(super) fn key(alloc: Global, id: i64) -> Result<Key, OutOfMemory> {
    Key::from_value(alloc, Value::Int(id))
}

/// A row comes.
pub(super) fn put(alloc: Global, id: i64, note: i64) -> Result<Change, OutOfMemory>
    ensures { IfOk result (NamesTables 1) }
{
    let values = vec![in alloc; Some(Value::Int(id)), Some(Value::Int(note))]?;
    Ok(Change::Put {
        table: TABLE,
        row: Row::from_values(values)?,
    })
}
