// That cells are held where memory is there, and that a refusal changes nothing.
use crate::tests::asserts::{assert_holds, assert_same};
use keyholds::{Cell, Holds, Xid};
use model::{Key, OutOfMemory, TableId, Value};
use std::alloc::Global;
use std::process::Abort;

const ACCOUNTS: TableId = 0;

const BRANCHES: TableId = 1;

fn row(alloc: Global, table: TableId, key: i64) -> Result<Cell, OutOfMemory> {
    Ok(Cell::Row(table, Key::from_value(alloc, Value::Int(key))?))
}

/// Takes a cell, or answers the transaction that is in its way.
fn hold(
    alloc: Global,
    holds: &mut Holds<i64>,
    xid: Xid,
    cell: Cell,
    stood: i64,
) -> Result<Option<Xid>, OutOfMemory> {
    if let Some(other) = holds.other_holder(xid, &cell) {
        return Ok(Some(other));
    }
    let mut cells = Vec::new(alloc);
    cells.push((cell, stood))?;
    holds.take(xid, cells)?;
    Ok(None)
}

/// Takes a cell. A refusal changes nothing, and then memory is there.
fn take_or_refuse(
    rt: &impl Abort,
    alloc: Global,
    holds: &mut Holds<i64>,
    (xid, table, key): (Xid, TableId, i64),
) -> Result<(), OutOfMemory> {
    let before = holds.mark(xid);
    let cell = row(alloc, table, key)?;
    let again = row(alloc, table, key)?;
    if hold(alloc, holds, xid, cell, key).is_err() {
        assert_same(rt, holds.mark(xid), before, xid);
        assert_same(rt, holds.before_image(&again), None, xid);
        assert_same(rt, holds.other_holder(702, &again), None, xid);
        let held = hold(alloc, holds, xid, again, key);
        assert_same(rt, held, Ok(None), xid);
        return Err(OutOfMemory);
    }
    assert_holds(rt, holds.mark(xid) > before, xid);
    assert_same(rt, holds.other_holder(702, &again), Some(xid), xid);
    Ok(())
}

/// Two transactions take cells, up to the first refusal.
fn take_until_refused(rt: &impl Abort, alloc: Global) -> Result<(), OutOfMemory> {
    let mut holds = Holds::new(alloc);
    for taken in [
        (700u32, ACCOUNTS, 1i64),
        (701, ACCOUNTS, 2),
        (700, BRANCHES, 1),
    ] {
        take_or_refuse(rt, alloc, &mut holds, taken)?;
    }
    Ok(())
}

// Where memory is refused nothing is held, and the same call succeeds later.
#[test]
fn cells_where_memory_is_refused(rt: HostRuntime) {
    if take_until_refused(&rt, rt.alloc()).is_err() {
        let again = take_until_refused(&rt, rt.alloc());
        assert_holds(&rt, again.is_ok(), "memory is there again");
    }
}
