// What is refused, when, and that nothing comes of it: what later calls, the journal and the tables show.
use super::scene::{ACCOUNTS, SAME_EMAIL, SAME_ID, Scene};
use super::script::Step::{
    Aborts, Clashes, Commits, Does, DoesNot, GoesBack, Opens, OpensNot, Skips, TouchesNot, Waits,
};
use super::script::{Step, play, play_on};
use crate::tests::tables::calls::Call;
use crate::tests::tables::calls::Call::{Put, Remove, Set, Wipe};
use change::Clash;
use engine::{EngineFault, NotSettled, Stop};
use model::Xid;
use std::alloc::Global;
use std::process::Abort;
use std::test::Fail;
use testing::asserts::assert_same;

const NULL_KEY: Clash = Clash::NullKey { table: ACCOUNTS };

// A number that is open does not open again.
const OPENED_AGAIN: [Step; 7] = [
    Does(700, 700, Put(ACCOUNTS, ("3", "c", "n"))),
    OpensNot(700, EngineFault::AlreadyOpen),
    Does(700, 700, Put(ACCOUNTS, ("4", "d", "n"))),
    Commits(700, "1|a|n 2|b|n 3|c|n 4|d|n"),
    Opens(700),
    Does(700, 700, Remove(ACCOUNTS, "3")),
    Commits(700, "1|a|n 2|b|n 4|d|n"),
];

// With the numbers below 4096 open.
static FULL: [Step; 7] = [
    OpensNot(5000, EngineFault::TooManyOpen),
    OpensNot(4095, EngineFault::AlreadyOpen),
    Does(4095, 4095, Put(ACCOUNTS, ("3", "c", "n"))),
    Aborts(0),
    Opens(5000),
    OpensNot(0, EngineFault::TooManyOpen),
    Aborts(5000),
];

fn open_all(alloc: Global, scene: &mut Scene, first: Xid, end: Xid) -> Result<(), EngineFault> {
    for xid in first..end {
        scene.open(alloc, xid)?;
    }
    Ok(())
}

fn commit_all(rt: &impl Abort, scene: &mut Scene, first: Xid, end: Xid) {
    for xid in first..end {
        scene.commit(rt, xid);
    }
}

#[test]
fn no_more_than_4096_are_open(rt: HostRuntime) -> Result<(), Fail> {
    let alloc = rt.alloc();
    let mut scene = Scene::worked(&rt, alloc, &[])?;
    open_all(alloc, &mut scene, 0, 4096)?;
    play_on(&rt, alloc, &mut scene, &FULL)?;
    // Each has room for its entry: none of them is refused one.
    commit_all(&rt, &mut scene, 1, 4096);
    scene.ends_with(&rt, alloc, "1|a|n 2|b|n 3|c|n", 4095)
}

// A change that is held leaves nothing.
const HELD: [Step; 10] = [
    Does(700, 700, Set(ACCOUNTS, "1", ("-", "-", "v"))),
    Does(900, 900, Put(ACCOUNTS, ("3", "c", "n"))),
    // It would take the fifth place and its email, and no longer hold the first.
    Waits(900, 911, Set(ACCOUNTS, "1", ("5", "e", "-")), 700),
    Waits(900, 911, Wipe(&[ACCOUNTS]), 700),
    Does(701, 701, Put(ACCOUNTS, ("5", "e", "n"))),
    // No savepoint was set: the item of the top transaction that comes next stays.
    Does(900, 900, Put(ACCOUNTS, ("4", "d", "n"))),
    GoesBack(900, 911),
    Commits(900, "1|a|n 2|b|n 3|c|n 4|d|n"),
    Aborts(700),
    Commits(701, "1|a|n 2|b|n 3|c|n 4|d|n 5|e|n"),
];

// Held goes before a clash and a skip.
const HELD_FIRST: [Step; 13] = [
    Does(700, 700, Remove(ACCOUNTS, "1")),
    Waits(900, 900, Put(ACCOUNTS, ("1", "f", "n")), 700),
    Waits(900, 900, Put(ACCOUNTS, ("6", "a", "n")), 700),
    Waits(900, 900, Put(ACCOUNTS, (r"\N", "a", "n")), 700),
    Waits(900, 900, Put(ACCOUNTS, ("2", "a", "n")), 700),
    Waits(900, 900, Set(ACCOUNTS, "1", ("-", "-", "v")), 700),
    Waits(900, 900, Set(ACCOUNTS, "2", ("1", "-", "-")), 700),
    Waits(900, 900, Set(ACCOUNTS, "2", ("-", "a", "-")), 700),
    Waits(900, 900, Remove(ACCOUNTS, "1"), 700),
    Waits(900, 900, Wipe(&[ACCOUNTS]), 700),
    Commits(700, "2|b|n"),
    Skips(900, 900, Remove(ACCOUNTS, "1")),
    Commits(900, "2|b|n"),
];

/// A change clashes and stops the store, after others of the same transaction. The store opens nothing
/// and does nothing then, and stopped goes before any other fault. What is open goes on to end. The
/// change that clashed is no item and set no savepoint.
const fn clashing(call: Call, clash: Clash) -> [Step; 18] {
    [
        Does(700, 700, Put(ACCOUNTS, ("7", "g", "n"))),
        Does(900, 900, Put(ACCOUNTS, ("3", "c", "n"))),
        Does(900, 911, Put(ACCOUNTS, ("4", "d", "n"))),
        Clashes(900, 912, call, clash),
        OpensNot(700, EngineFault::Stopped),
        OpensNot(901, EngineFault::Stopped),
        DoesNot(700, 700, Put(ACCOUNTS, ("8", "h", "n"))),
        DoesNot(900, 900, Put(ACCOUNTS, ("8", "h", "n"))),
        DoesNot(700, 700, Put(ACCOUNTS, ("1", "a", "n"))),
        DoesNot(900, 900, Put(ACCOUNTS, ("1", "a", "n"))),
        DoesNot(700, 700, Remove(ACCOUNTS, "7")),
        DoesNot(900, 900, Remove(ACCOUNTS, "7")),
        DoesNot(700, 700, Wipe(&[ACCOUNTS])),
        DoesNot(900, 900, Wipe(&[ACCOUNTS])),
        TouchesNot(700, 711),
        GoesBack(900, 912),
        Aborts(700),
        Commits(900, "1|a|n 2|b|n 3|c|n 4|d|n"),
    ]
}

static CLASHES: [(Call, Clash); 11] = [
    (Put(ACCOUNTS, (r"\N", "h", "n")), NULL_KEY),
    (Put(ACCOUNTS, (r"\N", "b", "n")), NULL_KEY),
    (Put(ACCOUNTS, ("2", "h", "n")), SAME_ID),
    (Put(ACCOUNTS, ("2", "a", "n")), SAME_ID),
    (Put(ACCOUNTS, ("3", "h", "n")), SAME_ID),
    (Put(ACCOUNTS, ("8", "b", "n")), SAME_EMAIL),
    (Put(ACCOUNTS, ("8", "d", "n")), SAME_EMAIL),
    (Set(ACCOUNTS, "1", (r"\N", "-", "-")), NULL_KEY),
    (Set(ACCOUNTS, "1", ("2", "b", "-")), SAME_ID),
    (Set(ACCOUNTS, "1", ("-", "b", "-")), SAME_EMAIL),
    (Set(ACCOUNTS, "4", ("8", "a", "-")), SAME_EMAIL),
];

#[test]
fn a_clash_stops_the_store(rt: HostRuntime) -> Result<(), Fail> {
    for &(call, clash) in &CLASHES {
        play(&rt, rt.alloc(), &[700, 900], &clashing(call, clash))?;
    }
    Ok(())
}

// A stopped store rolls back, and ends what is open.
const STOPPED: [Step; 9] = [
    Does(700, 700, Put(ACCOUNTS, ("3", "c", "n"))),
    Does(700, 711, Remove(ACCOUNTS, "1")),
    Does(701, 701, Put(ACCOUNTS, ("4", "d", "n"))),
    Clashes(900, 900, Put(ACCOUNTS, ("2", "h", "n")), SAME_ID),
    GoesBack(700, 711),
    Commits(700, "1|a|n 2|b|n 3|c|n"),
    Aborts(900),
    OpensNot(900, EngineFault::Stopped),
    Aborts(701),
];

/// The transactions that are open at first, and the calls.
static SCRIPTS: [(&[Xid], &[Step]); 4] = [
    (&[700], &OPENED_AGAIN),
    (&[700, 701, 900], &HELD),
    (&[700, 900], &HELD_FIRST),
    (&[700, 701, 900], &STOPPED),
];

#[test]
fn a_refusal_leaves_nothing(rt: HostRuntime) -> Result<(), Fail> {
    for (open, steps) in &SCRIPTS {
        play(&rt, rt.alloc(), *open, *steps)?;
    }
    Ok(())
}

#[test]
fn each_refusal_says_why(rt: HostRuntime) -> Result<(), Fail> {
    let faults = format!(in rt.alloc();
        "{}; {}; {}; {}; {}",
        EngineFault::AlreadyOpen,
        EngineFault::TooManyOpen,
        EngineFault::Clash(SAME_EMAIL),
        EngineFault::Stopped,
        EngineFault::OutOfMemory
    )?;
    assert_same(
        faults.as_str(),
        "a transaction of that number is open; 4096 transactions are open, and no more can be; the change clashes, and the store is stopped: a row of table 0 agrees with another in key 1 (0 is the primary key, and the first table); the store is stopped: what is open can be rolled back, committed and aborted; the system had no memory for it",
        "faults",
    )?;
    let stops = format!(in rt.alloc();
        "{}; {}; {}",
        Stop::Clash(700, NULL_KEY),
        Stop::Held(900, 700),
        NotSettled
    )?;
    assert_same(
        stops.as_str(),
        "a change of transaction 700 clashed: a row of table 0 has a null in its primary key (0 is the first table); transaction 900 waits for a row or key that transaction 700 holds, and nothing can come that lets it go; more can come that lets the waiting change go",
        "stops",
    )?;
    Ok(())
}
