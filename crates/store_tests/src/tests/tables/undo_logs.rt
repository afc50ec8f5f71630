// That an undo gives the rows and look-ups at its mark, wherever memory is refused before it.
ghost use Rattle.std.specs.Prelude.{length, ◌≤◌};
ghost use Rattle.model.specs.Named.{NamesTables};
ghost use Rattle.undo.specs.Undo.{CanUndo};

use crate::tests::asserts::{assert_holds, assert_same};
use crate::tests::tables::calls::Call::{Put, Remove, Set, Wipe};
use crate::tests::tables::calls::{Call, are_there, change, empty_tables, key};
use crate::tests::tables::shown::shown;
use change::Clash;
use indexes::Tables;
use model::{Key, OutOfMemory, TableId};
use std::alloc::Global;
use std::process::Abort;
use std::test::Fail;
use undo::UndoLog;

// A table of an int, which is the primary key, and two texts, the first of them unique.
const ACCOUNTS: TableId = 0;

fn run(
    rt: &impl Abort,
    alloc: Global,
    log: &mut UndoLog,
    t: &mut Tables,
    call: &Call,
) -> Result<(), Clash>
    requires { CanUndo t.old log.old.inverses }
    ensures { CanUndo t.new log.new.inverses }
{
    let change = change(alloc, call)?;
    assert!(rt; are_there(t.len(), &change));
    log.apply(alloc, t, &change)
}

fn run_all(
    rt: &impl Abort,
    alloc: Global,
    log: &mut UndoLog,
    t: &mut Tables,
    calls: &[Call],
) -> Result<(), Clash>
    requires { CanUndo t.old log.old.inverses }
    ensures { CanUndo t.new log.new.inverses }
{
    for call in calls {
        run(rt, alloc, log, t, call)?;
    }
    Ok(())
}

fn undo_to(log: &mut UndoLog, t: &mut Tables, mark: usize)
    requires mark { mark ≤ length log.old.inverses }
    requires can { CanUndo t.old log.old.inverses }
{
    log.undo_to(t, mark);
}

/// The table with the rows `1|a|n` and `2|b|n`.
fn filled(rt: &impl Abort, alloc: Global) -> Result<Tables, Clash> {
    let mut t = empty_tables(alloc, &[&[1]])?;
    let mut log = UndoLog::new(alloc);
    run_all(rt, alloc, &mut log, &mut t, &ROWS)?;
    Ok(t)
}

/// The table shows this.
fn shows(rt: &impl Abort, alloc: Global, t: &Tables, wanted: &str) -> Result<(), OutOfMemory> {
    let found = shown(rt, alloc, t)?;
    assert_same(rt, found.as_str(), wanted, "shown");
    Ok(())
}

/// The first row stands at its key and in the unique key. So much is looked at without memory.
fn has_the_first(rt: &impl Abort, t: &Tables, id: &Key, email: &Key, calls: &[Call]) {
    assert!(rt; ACCOUNTS < t.len());
    assert!(rt; 1 <= t.unique_count(ACCOUNTS));
    let holder = t.find_unique(ACCOUNTS, 1, email);
    assert_same(rt, holder, Some(id), calls);
    assert_holds(rt, t.get(ACCOUNTS, id).is_some(), calls);
}

/// Runs calls, up to the first that is refused, and undoes what was done: all is as it was first.
fn run_and_undo(rt: &impl Abort, alloc: Global, calls: &[Call]) -> Result<(), Clash> {
    let mut t = filled(rt, alloc)?;
    let mut log = UndoLog::new(alloc);
    let id = key(alloc, "1")?;
    let email = key(alloc, "a")?;
    let answer = run_all(rt, alloc, &mut log, &mut t, calls);
    undo_to(&mut log, &mut t, 0);
    // Memory may be refused from here on.
    assert_same(rt, log.mark(), 0, calls);
    has_the_first(rt, &t, &id, &email, calls);
    is_as_first(rt, alloc, &t)?;
    answer
}

fn is_as_first(rt: &impl Abort, alloc: Global, t: &Tables) -> Result<(), Clash> {
    let first = filled(rt, alloc)?;
    let wanted = shown(rt, alloc, &first)?;
    shows(rt, alloc, t, wanted.as_str())?;
    Ok(())
}

const ROWS: [Call; 2] = [
    Put(ACCOUNTS, ("1", "a", "n")),
    Put(ACCOUNTS, ("2", "b", "n")),
];

// Changes of each kind: the row that was removed comes again and goes, the other moves and clashes.
static CHANGES: [Call; 7] = [
    Remove(ACCOUNTS, "1"),
    Put(ACCOUNTS, ("3", "a", "n")),
    Set(ACCOUNTS, "2", ("4", "c", r"\N")),
    Remove(ACCOUNTS, "3"),
    Put(ACCOUNTS, ("2", "b", "n")),
    Wipe(&[ACCOUNTS]),
    Put(ACCOUNTS, ("5", "a", "n")),
];

static COMES_AND_GOES: [Call; 3] = [
    Remove(ACCOUNTS, "1"),
    Put(ACCOUNTS, ("3", "a", "n")),
    Remove(ACCOUNTS, "3"),
];

static EMPTIED_AND_CLASHING: [Call; 3] = [
    Wipe(&[ACCOUNTS]),
    Put(ACCOUNTS, ("5", "a", "n")),
    Put(ACCOUNTS, ("6", "a", "n")),
];

#[test]
fn an_undo_gives_the_first_rows(rt: HostRuntime) -> Result<(), Fail> {
    let alloc = rt.alloc();
    for calls in [
        &COMES_AND_GOES[..],
        &EMPTIED_AND_CLASHING[..2],
        &CHANGES[..],
    ] {
        run_and_undo(&rt, alloc, calls)?;
    }
    let answer = run_and_undo(&rt, alloc, &EMPTIED_AND_CLASHING);
    let clash = Clash::Unique {
        table: ACCOUNTS,
        key: 1,
    };
    assert_same(&rt, answer, Err(clash), "the same email");
    Ok(())
}

// Whichever call memory is refused in, the undo of those before it succeeds.
#[test]
fn an_undo_where_memory_is_refused(rt: HostRuntime) {
    if let Err(clash) = run_and_undo(&rt, rt.alloc(), &CHANGES) {
        assert_same(&rt, clash, Clash::OutOfMemory, "refused");
    }
}
