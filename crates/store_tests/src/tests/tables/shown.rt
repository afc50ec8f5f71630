// What tables show: their rows, and what each look-up of a text in a unique key finds.
use crate::tests::tables::calls::{Word, key, rows_of};
use indexes::Tables;
use model::{Key, OutOfMemory, TableId};
use std::alloc::Global;
use std::fmt::Write;
use std::process::Abort;

/// The key of the row that has this text in a unique key, by its number.
fn holder(
    rt: &impl Abort,
    alloc: Global,
    t: &Tables,
    (table, number): (TableId, usize),
    text: Word,
) -> Result<Option<Key>, OutOfMemory> {
    assert!(rt; table < t.len());
    assert!(rt; 1 <= number && number <= t.unique_count(table));
    let values = key(alloc, text)?;
    match t.find_unique(table, number, &values) {
        None => Ok(None),
        Some(key) => Ok(Some(key.copy()?)),
    }
}

/// What each look-up of a text in a unique key finds.
fn show_holders(
    rt: &impl Abort,
    alloc: Global,
    t: &Tables,
    (table, number): (TableId, usize),
    out: &mut String,
) -> Result<(), OutOfMemory> {
    for text in ["a", "b", "c", "m", "n", "w"] {
        let key = holder(rt, alloc, t, (table, number), text)?;
        write!(out, "{number} {text}: {key:?}\n")?;
    }
    Ok(())
}

fn show_table(
    rt: &impl Abort,
    alloc: Global,
    t: &Tables,
    table: TableId,
    out: &mut String,
) -> Result<(), OutOfMemory> {
    assert!(rt; table < t.len());
    let rows = rows_of(rt, alloc, t, table)?;
    write!(out, "{table}: {rows}\n")?;
    for number in 1..=t.unique_count(table) {
        show_holders(rt, alloc, t, (table, number), out)?;
    }
    Ok(())
}

/// All rows, and what each look-up of a text in a unique key finds.
pub(crate) fn shown(rt: &impl Abort, alloc: Global, t: &Tables) -> Result<String, OutOfMemory> {
    let mut out = String::new(alloc);
    for table in 0..t.len() {
        show_table(rt, alloc, t, table, &mut out)?;
    }
    Ok(out)
}
