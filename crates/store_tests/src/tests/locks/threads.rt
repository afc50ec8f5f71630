// Threads at one store: nobody waits for the lock of a table that it doesn't name, who reads two
// tables sees the same commits in both, and who waits for a move is woken.
ghost use Rattle.std.specs.Prelude.{◌≡◌, [], length};
ghost use Rattle.table_locks.specs.Starts.{AreNames};

use crate::tests::locks::stage::Stage;
use crate::tests::locks::table::{BOTH, FIRST, SECOND, empty_store, key, put};
use model::OutOfMemory;
use parted_store::{Line, Seen};
use std::alloc::Global;
use std::marker::Brand;
use std::process::Abort;
use std::sync::Wait;
use std::sync::atomic::{AtomicBool, Ordering};
use std::test::Fail;
use std::thread;
use std::thread::Threads;
use std::time::{Clock, Duration};
use table_locks::{Made, Store, StoreNames};

// How often a thread looks before it gives up, which fails the test.
const TURNS: u32 = 1000000;

// How many transactions are committed while another thread reads.
const COMMITS: u32 = 50;

// Comes back once the flag is set.
fn await_flag<R: Abort + Clock>(rt: &R, flag: &AtomicBool) {
    for _ in 0..TURNS {
        if flag.load(Ordering::SeqCst) {
            return;
        }
        thread::sleep(rt, Duration::from_micros(10));
    }
    panic!(rt; "waited for too long")
}

// Holds the lock of the first table until others have worked on the second.
fn hold<N: StoreNames, R: Abort + Wait + Clock>(
    rt: &R,
    store: &Store<N>,
    held: &AtomicBool,
    done: &AtomicBool,
)
    requires { length N.schema ≡ 2 }
{
    let guard = store.lock_table(rt, FIRST);
    held.store(true, Ordering::SeqCst);
    await_flag(rt, done);
    drop(guard);
}

// Changes, commits and reads a row of the second table while the lock of the first is held.
fn work_beside<N: StoreNames, R: Abort + Wait + Clock>(
    mut stage: Stage<'_, N, R>,
    held: &AtomicBool,
    done: &AtomicBool,
) {
    await_flag(stage.rt, held);
    let mut seen = stage.watch();
    let five = stage.got(put(stage.alloc, SECOND, 5));
    let at = stage.got(key(stage.alloc, 5));
    let mut ticket = stage.open(700);
    stage.acts(&mut ticket, &five);
    stage.commits(ticket);
    let found = stage.got(stage.store.get(stage.rt, &mut seen, SECOND, &at));
    assert!(stage.rt; found.is_some());
    stage.has_in(&mut seen, SECOND, &[5]);
    done.store(true, Ordering::SeqCst);
}

// Commits a row of each table by one transaction after another.
fn commit_all<N: StoreNames, R: Abort + Wait>(mut stage: Stage<'_, N, R>) {
    for xid in 0..COMMITS {
        let one = stage.got(put(stage.alloc, FIRST, xid as i64));
        let other = stage.got(put(stage.alloc, SECOND, xid as i64));
        let mut ticket = stage.open(xid);
        stage.does(&mut ticket, xid, FIRST, &one);
        stage.does(&mut ticket, xid, SECOND, &other);
        stage.commits(ticket);
        thread::yield_now();
    }
}

// Reads both tables until all commits are seen: each time as many rows of the one as of the other.
fn read_all<N: StoreNames, R: Abort + Wait>(rt: &R, alloc: Global, store: &Store<N>, mut seen: Seen)
    requires two { length N.schema ≡ 2 }
    requires name { seen.name ≡ N.line }
{
    let mut count = 0;
    for _ in rt.forever() {
        let Ok(rows) = store.rows_of(rt, alloc, &mut seen, &BOTH) else {
            panic!(rt; "no memory")
        };
        let [first, second] = rows.as_slice() else {
            panic!(rt; "not two tables")
        };
        assert!(rt; first.len() == second.len() && first.len() >= count);
        count = first.len();
        if count == COMMITS as usize {
            return;
        }
        thread::yield_now();
    }
    unreachable!()
}

// What is played over a new store.
#[derive(Clone, Copy)]
enum Scenario {
    Beside,
    Watched,
    Moves,
}

// The names of the store are known only here.
fn play_named<N: StoreNames + Send + Sync, R: Abort + Threads + Wait + Clock + Sync>(
    rt: &R,
    alloc: Global,
    made: Made,
    line: Line,
    which: Scenario,
) -> Result<(), Fail>
    requires names { AreNames N.shares N.line N.tables N.schema N.start made }
    requires line { line ≡ made.journal.part.line }
    requires none { line.list ≡ [] }
    requires two { length N.schema ≡ 2 }
{
    let Ok(store) = Store::<N>::new(alloc, made) else {
        return Err(OutOfMemory)?;
    };
    let stage = Stage::new(rt, alloc, &store, line);
    let (held, done) = (AtomicBool::new(false), AtomicBool::new(false));
    let store = &store;
    match which {
        Scenario::Beside => {
            thread::join(
                rt,
                || hold(rt, store, &held, &done),
                || work_beside(stage, &held, &done),
            );
        }
        Scenario::Watched => {
            let seen = stage.watch();
            thread::join(
                rt,
                || commit_all(stage),
                || read_all(rt, alloc, store, seen),
            );
        }
        Scenario::Moves => {
            let moves = store.moves(rt);
            thread::join(rt, || store.wait_past(rt, moves), || store.tell_move(rt));
            assert!(rt; store.moves(rt) == moves.wrapping_add(1));
        }
    }
    Ok(())
}

fn play<R: Abort + Threads + Wait + Clock + Sync>(
    rt: &R,
    alloc: Global,
    which: Scenario,
) -> Result<(), Fail> {
    let (made, line) = empty_store(alloc)?;
    play_named::<Brand, R>(rt, alloc, made, line, which)
}

#[test]
fn a_lock_holds_nobody_up_at_another_table(rt: HostRuntime) -> Result<(), Fail> {
    play(&rt, rt.alloc(), Scenario::Beside)
}

#[test]
fn a_commit_is_seen_in_both_tables_or_in_neither(rt: HostRuntime) -> Result<(), Fail> {
    for _ in 0..20 {
        play(&rt, rt.alloc(), Scenario::Watched)?;
    }
    Ok(())
}

#[test]
fn who_waits_for_a_move_is_woken(rt: HostRuntime) -> Result<(), Fail> {
    for _ in 0..100 {
        play(&rt, rt.alloc(), Scenario::Moves)?;
    }
    Ok(())
}
