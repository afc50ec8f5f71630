// Calls where memory is refused. Each answers so, and what it leaves can't be told from a store that was
// never asked: the same calls have the same answers in both from then on, and both end with the same
// tables. `rt try --test --fail-alloc 1..` refuses each allocation in turn.
use super::scene::{ACCOUNTS, Deed, NAMES, Scene, TABLES, WORKED};
use crate::tests::asserts::{assert_holds, assert_same};
use crate::tests::tables::calls::Call::{self, Put, Remove, Set, Wipe};
use crate::tests::tables::calls::{Word, Words, is_row, key, rows_of};
use engine::{Acted, EngineFault, NotSettled};
use indexes::Tables;
use model::{OutOfMemory, TableId, Xid};
use std::alloc::Global;
use std::fmt::Write;
use std::process::Abort;

/// A call that takes memory.
#[derive(Clone, Copy, Debug)]
enum Step {
    Make(Deed),
    Live(TableId, Word),
    Committed(TableId, Word),
    CommittedRows(TableId),
    RowsAfter(TableId, usize),
}

/// Calls one after another, each of which may be refused, behind some that aren't.
#[derive(Clone, Copy, Debug)]
struct Play {
    begin: &'static [Deed],
    steps: &'static [Step],
}

// Two transactions open over two accounts and one more that was committed: rows that come, change, move, go
// and are not there, one that waits, and an emptied table.
static SIDE_BY_SIDE: Play = Play {
    begin: &[
        Deed::Open(699),
        Deed::Open(700),
        Deed::Open(701),
        Deed::Act(699, 699, Put(ACCOUNTS, ("3", "c", "n"))),
        Deed::Commit(699),
    ],
    steps: &[
        Step::Make(Deed::Act(701, 701, Put(ACCOUNTS, ("4", "d", "n")))),
        Step::Make(Deed::Open(702)),
        Step::Make(Deed::Touch(700, 711)),
        Step::Make(Deed::Act(700, 711, Set(ACCOUNTS, "1", ("5", "e", "-")))),
        Step::Make(Deed::Act(700, 712, Set(ACCOUNTS, "2", ("-", "-", "v")))),
        Step::Live(ACCOUNTS, "5"),
        Step::Committed(ACCOUNTS, "1"),
        Step::Make(Deed::Act(700, 713, Remove(ACCOUNTS, "2"))),
        Step::Make(Deed::Act(700, 713, Set(ACCOUNTS, "9", ("-", "-", "v")))),
        Step::Make(Deed::Act(702, 702, Remove(ACCOUNTS, "5"))),
        Step::Make(Deed::Act(702, 712, Set(NAMES, "a", ("-", "-", "v")))),
        Step::RowsAfter(ACCOUNTS, 1),
        Step::Make(Deed::Open(703)),
        Step::Make(Deed::Act(701, 721, Wipe(&[NAMES]))),
        Step::Make(Deed::Touch(701, 722)),
        Step::Make(Deed::Act(701, 722, Set(ACCOUNTS, "4", ("-", "g", "v")))),
        Step::Make(Deed::Act(703, 703, Wipe(&[ACCOUNTS]))),
        Step::Committed(ACCOUNTS, "2"),
        Step::CommittedRows(ACCOUNTS),
        Step::Live(ACCOUNTS, "4"),
        Step::RowsAfter(ACCOUNTS, 0),
    ],
};

// One that is alone does the same to rows and tables, and reads; what it holds is made as another opens.
static SECOND_OPENS: Play = Play {
    begin: &[Deed::Open(700)],
    steps: &[
        Step::Make(Deed::Act(700, 700, Put(ACCOUNTS, ("4", "d", "n")))),
        Step::Make(Deed::Act(700, 700, Set(ACCOUNTS, "1", ("5", "e", "-")))),
        Step::Make(Deed::Act(700, 700, Remove(ACCOUNTS, "2"))),
        Step::Committed(ACCOUNTS, "1"),
        Step::Make(Deed::Act(700, 700, Put(ACCOUNTS, ("2", "b", "v")))),
        Step::Make(Deed::Act(700, 700, Wipe(&[NAMES]))),
        Step::CommittedRows(ACCOUNTS),
        Step::Make(Deed::Open(701)),
        Step::Make(Deed::Act(701, 701, Put(ACCOUNTS, ("3", "c", "n")))),
        Step::Make(Deed::Act(701, 701, Remove(ACCOUNTS, "1"))),
        Step::Committed(ACCOUNTS, "2"),
    ],
};

// The same as its first subtransaction is named.
static NAMES_ONE: Play = Play {
    begin: &[Deed::Open(700)],
    steps: &[
        Step::Make(Deed::Act(700, 700, Remove(ACCOUNTS, "1"))),
        Step::Make(Deed::Act(700, 700, Put(ACCOUNTS, ("4", "a", "n")))),
        Step::Make(Deed::Act(700, 700, Set(ACCOUNTS, "2", ("6", "-", "v")))),
        Step::Make(Deed::Act(700, 712, Set(ACCOUNTS, "6", ("-", "g", "-")))),
        Step::Committed(ACCOUNTS, "1"),
        Step::Make(Deed::Open(701)),
        Step::Make(Deed::Act(701, 722, Put(ACCOUNTS, ("7", "b", "n")))),
    ],
};

// What ends the transactions that may be open then, in two parts.
static ROLLBACKS: [Deed; 2] = [Deed::BackTo(700, 712), Deed::BackTo(701, 722)];

static COMMITS: [Deed; 2] = [Deed::Commit(700), Deed::Commit(701)];

// What another transaction tries, to tell who holds each place.
static TRIES: [Call; 19] = [
    Remove(ACCOUNTS, "1"),
    Remove(ACCOUNTS, "2"),
    Remove(ACCOUNTS, "3"),
    Remove(ACCOUNTS, "4"),
    Remove(ACCOUNTS, "5"),
    Remove(ACCOUNTS, "6"),
    Remove(ACCOUNTS, "7"),
    Remove(ACCOUNTS, "8"),
    Remove(ACCOUNTS, "9"),
    Put(ACCOUNTS, ("8", "g", "n")),
    Put(ACCOUNTS, ("8", "f", "n")),
    Put(ACCOUNTS, ("8", "e", "n")),
    Put(ACCOUNTS, ("8", "d", "n")),
    Put(ACCOUNTS, ("8", "c", "n")),
    Put(ACCOUNTS, ("8", "b", "n")),
    Put(ACCOUNTS, ("8", "a", "n")),
    Set(NAMES, "a", ("-", "-", "v")),
    Wipe(&[NAMES]),
    Wipe(&[ACCOUNTS]),
];

static IDS: [Word; 9] = ["1", "2", "3", "4", "5", "6", "7", "8", "9"];

/// Reads, and says nothing of what.
fn read(rt: &impl Abort, alloc: Global, scene: &Scene, step: &Step) -> Result<(), EngineFault> {
    match step {
        Step::Make(_) => {}
        Step::Live(table, id) => {
            let key = key(alloc, id)?;
            scene.live(rt, *table, &key)?;
        }
        Step::Committed(table, id) => {
            let key = key(alloc, id)?;
            scene.committed(rt, *table, &key)?;
        }
        Step::CommittedRows(table) => {
            scene.committed_rows(rt, alloc, *table)?;
        }
        Step::RowsAfter(table, entries) => {
            scene.rows_after(rt, alloc, *table, *entries)?;
        }
    }
    Ok(())
}

/// What a call answers, but for what it reads.
fn make(
    rt: &impl Abort,
    alloc: Global,
    scene: &mut Scene,
    step: &Step,
) -> Result<Acted, EngineFault> {
    if let Step::Make(deed) = step {
        return scene.make(rt, alloc, deed);
    }
    read(rt, alloc, scene, step)?;
    Ok(Acted::Done)
}

/// A store over two accounts. A new store that is refused hands its tables back as they were.
fn new_scene(rt: &impl Abort, alloc: Global) -> Result<Scene, EngineFault> {
    let (tables, _) = Scene::worked(rt, alloc, &[])?.close(rt);
    match Scene::new(rt, alloc, tables) {
        Ok(scene) => Ok(scene),
        Err(tables) => {
            let rows = rows_of(rt, alloc, &tables, ACCOUNTS)?;
            assert_same(rt, rows.as_str(), WORKED, "handed back");
            Err(EngineFault::OutOfMemory)
        }
    }
}

/// The same once a play has begun.
fn begun(rt: &impl Abort, alloc: Global, play: &Play) -> Result<Scene, EngineFault> {
    let mut scene = new_scene(rt, alloc)?;
    scene.make_all(rt, alloc, play.begin)?;
    Ok(scene)
}

/// The same, after its first so many calls.
fn stepped(
    rt: &impl Abort,
    alloc: Global,
    play: &Play,
    count: usize,
) -> Result<Scene, EngineFault> {
    let mut scene = begun(rt, alloc, play)?;
    for step in play.steps.iter().take(count) {
        make(rt, alloc, &mut scene, step)?;
    }
    Ok(scene)
}

/// Each row that is live or committed.
fn show_places(
    rt: &impl Abort,
    alloc: Global,
    scene: &Scene,
    out: &mut String,
) -> Result<(), EngineFault> {
    for id in &IDS {
        let key = key(alloc, id)?;
        let live = scene.live(rt, ACCOUNTS, &key)?;
        let committed = scene.committed(rt, ACCOUNTS, &key)?;
        write!(out, "{id}: {live:?} {committed:?}\n")?;
    }
    Ok(())
}

/// The rows of each table that are committed, and those after each number of commits.
fn show_rows(
    rt: &impl Abort,
    alloc: Global,
    scene: &Scene,
    table: TableId,
    out: &mut String,
) -> Result<(), EngineFault> {
    let rows = scene.committed_rows(rt, alloc, table)?;
    write!(out, "{table}: {rows:?}\n")?;
    for entries in 0..=scene.store.journal().len() {
        let rows = scene.rows_after(rt, alloc, table, entries)?;
        write!(out, "{table} after {entries}: {rows:?}\n")?;
    }
    Ok(())
}

fn show_journal(scene: &Scene, out: &mut String) -> Result<(), EngineFault> {
    for entry in scene.store.journal() {
        write!(out, "{} {}:", entry.xid, entry.end)?;
        for change in entry.changes.iter() {
            write!(out, " {change:?}")?;
        }
    }
    write!(out, "\n{:?}\n", scene.stop())?;
    Ok(())
}

/// What a store reads, and its journal.
fn show_reads(
    rt: &impl Abort,
    alloc: Global,
    scene: &Scene,
    out: &mut String,
) -> Result<(), EngineFault> {
    show_places(rt, alloc, scene, out)?;
    for table in 0..TABLES {
        show_rows(rt, alloc, scene, table, out)?;
    }
    show_journal(scene, out)
}

/// What another transaction is answered at each place, which tells who holds it.
fn show_holds(
    rt: &impl Abort,
    alloc: Global,
    scene: &mut Scene,
    out: &mut String,
) -> Result<(), EngineFault> {
    scene.open(alloc, 799)?;
    for call in &TRIES {
        let answer = scene.act(rt, alloc, 799, 790, call);
        write!(out, "{call:?}: {answer:?} {:?}\n", scene.stop())?;
        scene.back_to(rt, 799, 790);
    }
    scene.abort(rt, 799);
    Ok(())
}

/// The rows, and the key of the row that a look-up of each email finds.
fn show_tables(
    rt: &impl Abort,
    alloc: Global,
    t: &Tables,
    out: &mut String,
) -> Result<(), OutOfMemory> {
    for table in 0..TABLES {
        let rows = rows_of(rt, alloc, t, table)?;
        write!(out, "{rows}\n")?;
    }
    assert!(rt; t.len() == TABLES && t.unique_count(ACCOUNTS) == 1);
    for email in ["a", "b", "c", "d", "e", "f", "g"] {
        let sought = key(alloc, email)?;
        write!(out, "{email}: {:?}\n", t.find_unique(ACCOUNTS, 1, &sought))?;
    }
    Ok(())
}

/// The transaction that a rollback or a commit ends, or a part of it.
fn ended_by(deed: &Deed) -> Option<Xid> {
    match deed {
        Deed::BackTo(xid, _) | Deed::Commit(xid) => Some(*xid),
        _ => None,
    }
}

/// Makes the calls of transactions that are open.
fn make_open(
    rt: &impl Abort,
    alloc: Global,
    scene: &mut Scene,
    deeds: &[Deed],
) -> Result<(), EngineFault> {
    for deed in deeds {
        if let Some(xid) = ended_by(deed)
            && scene.is_open(xid)
        {
            scene.make(rt, alloc, deed)?;
        }
    }
    Ok(())
}

/// Some transactions are rolled back and committed, and the others aborted.
fn end_in_parts(
    rt: &impl Abort,
    alloc: Global,
    scene: &mut Scene,
    out: &mut String,
) -> Result<(), EngineFault> {
    for deeds in [&ROLLBACKS, &COMMITS] {
        make_open(rt, alloc, scene, deeds)?;
        show_reads(rt, alloc, scene, out)?;
    }
    for xid in [702, 703] {
        if scene.is_open(xid) {
            scene.abort(rt, xid);
        }
    }
    Ok(())
}

/// What a store ends with.
fn show_ended(
    rt: &impl Abort,
    alloc: Global,
    scene: Scene,
    out: &mut String,
) -> Result<(), EngineFault> {
    let (tables, journal) = scene.close(rt);
    write!(out, "{}\n", journal.len())?;
    show_tables(rt, alloc, &tables, out)?;
    Ok(())
}

/// What a store reads, who holds what, and what it reads once some transactions are rolled back and
/// committed and the others aborted.
fn show_open(
    rt: &impl Abort,
    alloc: Global,
    scene: &mut Scene,
    out: &mut String,
) -> Result<(), EngineFault> {
    show_reads(rt, alloc, scene, out)?;
    show_holds(rt, alloc, scene, out)?;
    end_in_parts(rt, alloc, scene, out)
}

/// All that can be told of a store: that, and what it ends with.
fn told(rt: &impl Abort, alloc: Global, scene: Scene) -> Result<String, EngineFault> {
    let mut scene = scene;
    let mut out = String::new(alloc);
    show_open(rt, alloc, &mut scene, &mut out)?;
    show_ended(rt, alloc, scene, &mut out)?;
    Ok(out)
}

/// Two stores show the same.
fn read_alike(
    rt: &impl Abort,
    alloc: Global,
    one: &Scene,
    other: &Scene,
    step: &Step,
) -> Result<(), EngineFault> {
    let mut shown = String::new(alloc);
    show_reads(rt, alloc, one, &mut shown)?;
    let mut wanted = String::new(alloc);
    show_reads(rt, alloc, other, &mut wanted)?;
    assert_same(rt, shown.as_str(), wanted.as_str(), step);
    Ok(())
}

/// A store shows what one shows that was never asked, after so many calls.
fn shows_as_stepped(
    rt: &impl Abort,
    alloc: Global,
    scene: &Scene,
    play: &Play,
    (count, step): (usize, &Step),
) -> Result<(), EngineFault> {
    let same = stepped(rt, alloc, play, count)?;
    read_alike(rt, alloc, scene, &same, step)
}

/// All that can be told of two stores is the same.
fn told_alike(
    rt: &impl Abort,
    alloc: Global,
    (one, other): (Scene, Scene),
    step: &Step,
) -> Result<(), EngineFault> {
    let wanted = told(rt, alloc, other)?;
    let left = told(rt, alloc, one)?;
    assert_same(rt, left.as_str(), wanted.as_str(), step);
    Ok(())
}

/// A call has the same answer in two stores, and all that can be told then is the same.
fn answers_alike(
    rt: &impl Abort,
    alloc: Global,
    one: Scene,
    other: Scene,
    step: &Step,
) -> Result<(), EngineFault> {
    let (mut one, mut other) = (one, other);
    let again = make(rt, alloc, &mut one, step);
    let answer = make(rt, alloc, &mut other, step);
    assert_same(rt, again, answer, step);
    told_alike(rt, alloc, (one, other), step)
}

/// A call was refused, after so many. It answers the same now as in a store that was never asked, and
/// all that can be told then is the same.
fn was_refused(
    rt: &impl Abort,
    alloc: Global,
    scene: Scene,
    play: &Play,
    (count, step): (usize, &Step),
) -> Result<(), EngineFault> {
    shows_as_stepped(rt, alloc, &scene, play, (count, step))?;
    let never_asked = stepped(rt, alloc, play, count)?;
    answers_alike(rt, alloc, scene, never_asked, step)
}

/// Makes these calls up to the first that is refused, and tells how many came before it.
fn first_refused<'a>(
    rt: &impl Abort,
    alloc: Global,
    scene: &mut Scene,
    steps: &'a [Step],
) -> Option<(usize, &'a Step)> {
    for (count, step) in steps.iter().enumerate() {
        if let Err(fault) = make(rt, alloc, scene, step) {
            assert_same(rt, fault, EngineFault::OutOfMemory, step);
            return Some((count, step));
        }
    }
    None
}

/// Makes the calls up to the first that is refused. Then memory is there again.
fn step_until_refused(rt: &impl Abort, alloc: Global, play: &Play) -> Result<(), EngineFault> {
    let mut scene = begun(rt, alloc, play)?;
    match first_refused(rt, alloc, &mut scene, play.steps) {
        Some(refused) => was_refused(rt, alloc, scene, play, refused),
        None => Ok(()),
    }
}

/// Where one of all allocations is refused, a play goes on as though its call had never come.
fn stands_refusals(rt: &impl Abort, alloc: Global, play: &Play) {
    if let Err(fault) = step_until_refused(rt, alloc, play) {
        assert_same(rt, fault, EngineFault::OutOfMemory, "refused");
    }
}

#[test]
fn calls_where_memory_is_refused(rt: HostRuntime) {
    stands_refusals(&rt, rt.alloc(), &SIDE_BY_SIDE);
}

#[test]
fn a_second_open_where_memory_is_refused(rt: HostRuntime) {
    stands_refusals(&rt, rt.alloc(), &SECOND_OPENS);
}

#[test]
fn a_first_savepoint_where_memory_is_refused(rt: HostRuntime) {
    stands_refusals(&rt, rt.alloc(), &NAMES_ONE);
}

/// Whether the accounts are these.
fn has_accounts(t: &Tables, wanted: &[Words]) -> bool {
    if ACCOUNTS >= t.len() {
        return false;
    }
    let mut count = 0;
    for row in t.walk(ACCOUNTS) {
        match wanted.get(count) {
            Some(words) if is_row(words, &row) => count += 1,
            _ => return false,
        }
    }
    count == wanted.len()
}

// Two wait for each other and a third has done more, which the store is told of.
static THREE_OPEN: [Deed; 5] = [
    Deed::Open(702),
    Deed::Act(700, 700, Set(ACCOUNTS, "1", ("-", "e", "-"))),
    Deed::Act(700, 711, Set(ACCOUNTS, "2", ("5", "f", "-"))),
    Deed::Act(701, 701, Put(ACCOUNTS, ("4", "d", "n"))),
    Deed::Act(702, 702, Remove(ACCOUNTS, "3")),
];

static WAITING: [(Deed, Xid); 2] = [
    (Deed::Act(700, 712, Remove(ACCOUNTS, "4")), 701),
    (Deed::Act(701, 722, Remove(ACCOUNTS, "1")), 700),
];

static ENDS: [Deed; 4] = [
    Deed::BackTo(700, 711),
    Deed::Commit(700),
    Deed::Commit(702),
    Deed::Abort(701),
];

static ENDED: [Words; 2] = [("1", "e", "n"), ("2", "b", "n")];

fn have_all_wait(rt: &impl Abort, alloc: Global, scene: &mut Scene) -> Result<(), EngineFault> {
    scene.make_all(rt, alloc, &THREE_OPEN)?;
    for (deed, holder) in &WAITING {
        let answer = scene.make(rt, alloc, deed)?;
        assert_same(rt, answer, Acted::Held(*holder), deed);
    }
    Ok(())
}

fn waiting(rt: &impl Abort, alloc: Global) -> Result<Scene, EngineFault> {
    let mut scene = begun(rt, alloc, &SIDE_BY_SIDE)?;
    have_all_wait(rt, alloc, &mut scene)?;
    Ok(scene)
}

/// From here on nothing is made.
fn end_waiting(rt: &impl Abort, alloc: Global, scene: Scene) -> Result<(), EngineFault> {
    let mut scene = scene;
    let unsettled = scene.stop_held(700, &[]);
    assert_same(rt, unsettled, Err(NotSettled), "more can come");
    let settled = scene.stop_held(700, &[(702, 1)]);
    assert_same(rt, settled, Ok(701), "all wait");
    scene.make_all(rt, alloc, &ENDS)?;
    let (tables, journal) = scene.close(rt);
    assert_holds(rt, has_accounts(&tables, &ENDED), "the accounts");
    assert_same(rt, journal.len(), 3, "entries");
    Ok(())
}

// What rolls back, commits, aborts and stops takes no memory: so it does what it does where all memory is
// refused from the last call on that took some.
#[test]
fn ends_where_memory_is_refused(rt: HostRuntime) {
    match waiting(&rt, rt.alloc()) {
        Ok(scene) => {
            let ended = end_waiting(&rt, rt.alloc(), scene);
            assert_holds(&rt, ended.is_ok(), "an end takes no memory");
        }
        Err(fault) => assert_same(&rt, fault, EngineFault::OutOfMemory, "refused"),
    }
}
