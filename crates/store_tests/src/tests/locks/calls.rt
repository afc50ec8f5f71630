// Each call of the store, on one thread.
ghost use Rattle.std.specs.Prelude.{◌≡◌, ◌<◌, [], length};
ghost use Rattle.table_locks.specs.Starts.{AreNames};

use crate::tests::locks::stage::{Stage, has_ids};
use crate::tests::locks::table::{FIRST, SECOND, empty_store, key, put, remove, wipe_both};
use crate::tests::locks::worked;
use engine::Stop;
use indexes::Tables;
use model::{OutOfMemory, TableId};
use parted_store::Line;
use std::alloc::Global;
use std::marker::Brand;
use std::process::Abort;
use std::sync::Wait;
use std::test::Fail;
use table_locks::{Made, Store, StoreNames, Ticket};

// Changes wait for one another at a key alone, a rollback lets go, and a read has what was committed.
fn work<N: StoreNames, R: Abort + Wait>(mut stage: Stage<'_, N, R>) -> Line
    ensures { result.name ≡ N.line }
{
    let mut seen = stage.watch();
    let alloc = stage.alloc;
    let one = stage.got(put(alloc, FIRST, 1));
    let five = stage.got(put(alloc, SECOND, 5));
    let gone = stage.got(remove(alloc, FIRST, 1));
    let mut first = stage.open(700);
    let mut other = stage.open(900);
    stage.does(&mut first, 700, FIRST, &one);
    stage.touches(&mut first, 711);
    stage.does(&mut first, 711, SECOND, &five);
    stage.waits(&mut other, FIRST, &gone, 700);
    stage.has(&mut seen, &[], &[]);
    stage.goes_back(&mut first, 711);
    let end = stage.commits(first);
    stage.does(&mut other, 900, FIRST, &gone);
    stage.has(&mut seen, &[1], &[]);
    let at = stage.got(key(alloc, 1));
    let found = stage.got(stage.store.get(stage.rt, &mut seen, FIRST, &at));
    assert!(stage.rt; found.is_some());
    let later = stage.commits(other);
    stage.has(&mut seen, &[], &[]);
    let found = stage.store.rows_at(stage.rt, alloc, &mut seen, FIRST, end);
    let Some(rows) = stage.got(found) else {
        panic!(stage.rt; "no commit ends there")
    };
    assert!(stage.rt; has_ids(&rows, &[1]) && end < later);
    stage.into_line()
}

// A truncate of both tables holds both, and an abort brings the rows back.
fn truncate<N: StoreNames, R: Abort + Wait>(mut stage: Stage<'_, N, R>) -> Line
    ensures { result.name ≡ N.line }
{
    let mut seen = stage.watch();
    let alloc = stage.alloc;
    let one = stage.got(put(alloc, FIRST, 1));
    let two = stage.got(put(alloc, SECOND, 2));
    let nine = stage.got(put(alloc, SECOND, 9));
    let both = stage.got(wipe_both(alloc));
    let mut first = stage.open(700);
    stage.does(&mut first, 700, FIRST, &one);
    stage.does(&mut first, 700, SECOND, &two);
    stage.commits(first);
    let mut emptied = stage.open(701);
    let mut other = stage.open(702);
    stage.truncates(&mut emptied, &both);
    stage.waits(&mut other, SECOND, &nine, 701);
    stage.aborts(emptied);
    stage.does(&mut other, 702, SECOND, &nine);
    stage.commits(other);
    stage.has(&mut seen, &[1], &[2, 9]);
    stage.into_line()
}

// Who has all tickets learns that nothing stopped the store, also where a transaction waits.
fn meet<N: StoreNames, R: Abort + Wait>(mut stage: Stage<'_, N, R>) -> Line
    ensures { result.name ≡ N.line }
{
    let alloc = stage.alloc;
    let one = stage.got(put(alloc, FIRST, 1));
    let two = stage.got(put(alloc, SECOND, 2));
    let mut first = stage.open(700);
    let mut other = stage.open(701);
    let idle = stage.open(702);
    stage.does(&mut first, 711, FIRST, &one);
    stage.does(&mut other, 701, SECOND, &two);
    stage.waits(&mut other, FIRST, &one, 700);
    let mut tickets = Vec::new(alloc);
    assert!(stage.rt; tickets.push(first).is_ok());
    assert!(stage.rt; tickets.push(other).is_ok());
    assert!(stage.rt; tickets.push(idle).is_ok());
    let stop = end_all(&mut stage, tickets);
    assert!(stage.rt; stop.is_none());
    stage.into_line()
}

// Meets these and ends them. Answers what stopped the store.
fn end_all<N: StoreNames, R: Abort + Wait>(
    stage: &mut Stage<'_, N, R>,
    mut tickets: Vec<Ticket<N>>,
) -> Option<Stop> {
    let stop = stage.meets(tickets.as_mut_slice());
    for ticket in tickets {
        stage.aborts(ticket);
    }
    stop
}

// A clash stops the store.
fn clash<N: StoreNames, R: Abort + Wait>(mut stage: Stage<'_, N, R>) -> Line
    ensures { result.name ≡ N.line }
{
    let alloc = stage.alloc;
    let one = stage.got(put(alloc, FIRST, 1));
    let mut first = stage.open(700);
    stage.does(&mut first, 700, FIRST, &one);
    stage.commits(first);
    let mut other = stage.open(701);
    stage.fails(&mut other, FIRST, &one);
    stage.opens_not(702);
    stage.fails(&mut other, FIRST, &one);
    let mut tickets = Vec::new(alloc);
    assert!(stage.rt; tickets.push(other).is_ok());
    let stop = end_all(&mut stage, tickets);
    assert!(stage.rt; matches!(stop, Some(Stop::Clash(701, _))));
    stage.into_line()
}

// How many rows there are of a table.
fn count_rows(tables: &Tables, table: TableId) -> usize
    requires { table < length tables.now.schema }
{
    let mut count: usize = 0;
    for _ in tables.walk(table) {
        count = count.saturating_add(1);
    }
    count
}

// What is played over a new store.
#[derive(Clone, Copy)]
enum Scenario {
    Work,
    Truncate,
    Meet,
    Clash,
    RemoveBehindASet,
    LookUp,
    CommitBeside,
    KeepAValue,
    WaitForEachOther,
    EmptyATable,
}

// How many commits it leaves, and how many rows of each table.
fn left_by(which: Scenario) -> (usize, usize, usize) {
    match which {
        Scenario::Work => (2, 0, 0),
        Scenario::Truncate => (2, 1, 2),
        Scenario::Meet => (0, 0, 0),
        Scenario::Clash => (1, 1, 0),
        Scenario::RemoveBehindASet => (3, 1, 0),
        Scenario::LookUp => (3, 3, 0),
        Scenario::CommitBeside => (2, 3, 0),
        Scenario::KeepAValue | Scenario::WaitForEachOther | Scenario::EmptyATable => (1, 2, 0),
    }
}

// The names of the store are known only here.
fn play_named<N: StoreNames, R: Abort + Wait>(
    rt: &R,
    alloc: Global,
    made: Made,
    line: Line,
    which: Scenario,
) -> Result<(), Fail>
    requires names { AreNames N.shares N.line N.tables N.schema N.start made }
    requires line { line ≡ made.journal.part.line }
    requires none { line.list ≡ [] }
    requires two { length N.schema ≡ 2 }
{
    let Ok(store) = Store::<N>::new(alloc, made) else {
        return Err(OutOfMemory)?;
    };
    let stage = Stage::new(rt, alloc, &store, line);
    let line = match which {
        Scenario::Work => work(stage),
        Scenario::Truncate => truncate(stage),
        Scenario::Meet => meet(stage),
        Scenario::Clash => clash(stage),
        Scenario::RemoveBehindASet => worked::remove_behind_a_set(stage),
        Scenario::LookUp => worked::look_up(stage),
        Scenario::CommitBeside => worked::commit_beside(stage),
        Scenario::KeepAValue => worked::keep_a_value(stage),
        Scenario::WaitForEachOther => worked::wait_for_each_other(stage),
        Scenario::EmptyATable => worked::empty_a_table(stage),
    };
    let (tables, entries) = store.close(rt, line);
    let left = (
        entries.len(),
        count_rows(&tables, FIRST),
        count_rows(&tables, SECOND),
    );
    assert!(rt; left == left_by(which));
    Ok(())
}

fn play<R: Abort + Wait>(rt: &R, alloc: Global, which: Scenario) -> Result<(), Fail> {
    let (made, line) = empty_store(alloc)?;
    play_named::<Brand, R>(rt, alloc, made, line, which)
}

#[test]
fn changes_wait_at_a_key_alone(rt: HostRuntime) -> Result<(), Fail> {
    play(&rt, rt.alloc(), Scenario::Work)
}

#[test]
fn a_truncate_holds_both_tables(rt: HostRuntime) -> Result<(), Fail> {
    play(&rt, rt.alloc(), Scenario::Truncate)
}

#[test]
fn who_has_all_tickets_learns_what_the_store_is(rt: HostRuntime) -> Result<(), Fail> {
    play(&rt, rt.alloc(), Scenario::Meet)
}

#[test]
fn a_clash_stops_the_store(rt: HostRuntime) -> Result<(), Fail> {
    play(&rt, rt.alloc(), Scenario::Clash)
}

static WORKED: [Scenario; 6] = [
    Scenario::RemoveBehindASet,
    Scenario::LookUp,
    Scenario::CommitBeside,
    Scenario::KeepAValue,
    Scenario::WaitForEachOther,
    Scenario::EmptyATable,
];

#[test]
fn worked_calls_have_their_answers(rt: HostRuntime) -> Result<(), Fail> {
    for which in &WORKED {
        play(&rt, rt.alloc(), *which)?;
    }
    Ok(())
}
