// The rows of a table, but at some keys what stands there in their place.
ghost use Rattle.std.specs.Prelude.{◌≡◌, ◌<◌, ◌++◌, Some, length, IfOk, OnOk};
ghost use Rattle.model.specs.declared.key.Key.{Key as AnyKey};
ghost use Rattle.model.specs.Rows.{key_of};
ghost use Rattle.live_tables.specs.Merged.{row_list, AreMerged, PutsUpTo, PutsRest};

use indexes::Tables;
use model::{Key, OutOfMemory, Row, TableId};
use std::alloc::Global;
use std::collections::BTreeMap;

/// The rows of a table in key order, as copies, but at these keys what stands beside them: one walk
/// of the table, and of the keys beside it.
pub(crate) fn merge_rows(
    alloc: Global,
    tables: &Tables,
    table: TableId,
    stands: BTreeMap<Key, Option<Row>>,
) -> Result<Vec<Row>, OutOfMemory>
    requires known { table < length tables.now.schema }
    ensures { IfOk result (λ rows. AreMerged tables.now.rows table stands rows.items) }
{
    tables.recall_invariant();
    // That the keys ascend is a clause of their count.
    let _stands = stands.len();
    let mut left = stands;
    let mut rows = Vec::new(alloc);
    for row in tables.walk(table) {
        let row = row.to_row()?;
        if !put_up_to_row(&mut rows, &mut left, tables, table, &row)? {
            rows.push(row)?;
        }
    }
    put_rest(&mut rows, left)?;
    Ok(rows)
}

// Puts the rows that stand at the keys up to a row's own behind the others, and takes these keys out.
// The answer is whether the row's own key was among them. Where no key is left, its own isn't asked
// for.
fn put_up_to_row(
    rows: &mut Vec<Row>,
    stands: &mut BTreeMap<Key, Option<Row>>,
    tables: &Tables,
    table: TableId,
    row: &Row,
) -> Result<bool, OutOfMemory>
    requires known { table < length tables.now.schema }
    ensures { IfOk result (λ found. (key : AnyKey)
        → key_of tables.now.schema table row.now ≡ Some key
        → PutsUpTo key rows.old.items stands.old.entries found rows.new.items stands.new.entries) }
{
    if stands.is_empty() {
        return Ok(false);
    }
    match tables.key_of(table, row)? {
        Some(key) => put_up_to(rows, stands, &key),
        None => Ok(false),
    }
}

// Puts the rows that stand at the keys up to this one behind the others, and takes these keys out.
// The answer is whether the key itself was among them.
fn put_up_to(
    rows: &mut Vec<Row>,
    stands: &mut BTreeMap<Key, Option<Row>>,
    key: &Key,
) -> Result<bool, OutOfMemory>
    ensures { IfOk result (λ found. PutsUpTo key.now rows.old.items stands.old.entries found rows.new.items stands.new.entries) }
{
    while let Some((first, _)) = stands.first_key_value() {
        let order = first.cmp(key);
        if order.is_gt() {
            return Ok(false);
        }
        let Some((_, row)) = stands.pop_first() else {
            unreachable!()
        };
        put_row(rows, row)?;
        if order.is_eq() {
            return Ok(true);
        }
    }
    Ok(false)
}

// Puts the rows that stand at these keys behind the others.
fn put_rest(rows: &mut Vec<Row>, stands: BTreeMap<Key, Option<Row>>) -> Result<(), OutOfMemory>
    ensures { OnOk result (PutsRest rows.old.items stands.entries rows.new.items) }
{
    for (_, row) in stands {
        put_row(rows, row)?;
    }
    Ok(())
}

// Puts a row, if there is one, behind the others.
fn put_row(rows: &mut Vec<Row>, row: Option<Row>) -> Result<(), OutOfMemory>
    ensures { OnOk result (rows.new.items ≡ rows.old.items ++ row_list row) }
{
    if let Some(row) = row {
        rows.push(row)?;
    }
    Ok(())
}
