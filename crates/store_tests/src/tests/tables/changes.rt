// That the calls succeed with ample memory, what they then answer, and that what was done is taken back.
ghost use Rattle.change.specs.Applied.{IfDone};
ghost use Rattle.change.specs.Inverse.{CanPutBack};

use self::Answer::{Agrees, Done, NullKey, Skipped};
use crate::tests::asserts::{assert_holds, assert_same};
use crate::tests::tables::calls::Call::{Put, Remove, Set, Wipe};
use crate::tests::tables::calls::{Call, Words, are_there, change, empty_tables};
use crate::tests::tables::shown::shown;
use change::{Applied, Clash, apply, put_back};
use indexes::Tables;
use model::TableId;
use std::alloc::Global;
use std::process::Abort;
use std::test::Fail;

// Tables of an int, which is the primary key, and two texts: with one unique key over the first
// text, with none, and with one over each text.
pub(crate) const ONE_UNIQUE: TableId = 0;

pub(crate) const NO_UNIQUE: TableId = 1;

pub(crate) const TWO_UNIQUES: TableId = 2;

const UNIQUES: [&[usize]; 3] = [&[1], &[], &[1, 2]];

// What each of them holds at first.
const ROWS: [Words; 3] = [("1", "a", "n"), ("2", "b", "m"), ("3", r"\N", r"\N")];

#[derive(Clone, Copy, Debug, PartialEq)]
enum Answer {
    Done,
    Skipped,
    /// Its row would agree with another in this key of this table.
    Agrees(TableId, usize),
    NullKey(TableId),
    NoMemory,
}

fn run(rt: &impl Abort, alloc: Global, t: &mut Tables, call: &Call) -> Result<Applied, Clash>
    ensures { IfDone result (λ i. CanPutBack t.new i) }
{
    let change = change(alloc, call)?;
    assert!(rt; are_there(t.len(), &change));
    apply(alloc, t, &change)
}

/// Each table with its rows.
pub(crate) fn filled(rt: &impl Abort, alloc: Global) -> Result<Tables, Clash> {
    let mut t = empty_tables(alloc, &UNIQUES)?;
    for table in 0..UNIQUES.len() {
        for row in ROWS {
            run(rt, alloc, &mut t, &Put(table, row))?;
        }
    }
    Ok(t)
}

/// What a change comes to. It is taken back where it was done, and until then the tables show it.
fn tried(
    rt: &impl Abort,
    alloc: Global,
    t: &mut Tables,
    call: &Call,
    before: &str,
) -> Result<Answer, Fail> {
    match run(rt, alloc, t, call) {
        Ok(Applied::Done(inverse)) => {
            let after = shown(rt, alloc, t)?;
            assert_holds(rt, after.as_str() != before, call);
            put_back(t, inverse);
            Ok(Answer::Done)
        }
        Ok(Applied::Skipped) => Ok(Answer::Skipped),
        Err(Clash::Unique { table, key }) => Ok(Answer::Agrees(table, key)),
        Err(Clash::NullKey { table }) => Ok(Answer::NullKey(table)),
        Err(Clash::OutOfMemory) => Ok(Answer::NoMemory),
    }
}

/// Each change has its answer on the tables as they were first, and is taken back whole.
fn answers(rt: &impl Abort, alloc: Global, cases: &[(Call, Answer)]) -> Result<(), Fail> {
    let mut t = filled(rt, alloc)?;
    let before = shown(rt, alloc, &t)?;
    for (call, want) in cases {
        let answer = tried(rt, alloc, &mut t, call, before.as_str())?;
        assert_same(rt, answer, *want, call);
        let after = shown(rt, alloc, &t)?;
        assert_same(rt, after.as_str(), before.as_str(), call);
    }
    Ok(())
}

static PUTS: [(Call, Answer); 15] = [
    (Put(NO_UNIQUE, ("4", "a", "n")), Done),
    (Put(NO_UNIQUE, ("2", "a", "n")), Agrees(NO_UNIQUE, 0)),
    (Put(NO_UNIQUE, (r"\N", "a", "n")), NullKey(NO_UNIQUE)),
    (Put(ONE_UNIQUE, ("4", "c", "n")), Done),
    (Put(ONE_UNIQUE, ("4", r"\N", r"\N")), Done),
    (Put(ONE_UNIQUE, ("4", "a", "w")), Agrees(ONE_UNIQUE, 1)),
    (Put(ONE_UNIQUE, ("1", "a", "w")), Agrees(ONE_UNIQUE, 0)),
    (Put(ONE_UNIQUE, (r"\N", "a", "w")), NullKey(ONE_UNIQUE)),
    (Put(TWO_UNIQUES, ("4", "c", "w")), Done),
    (Put(TWO_UNIQUES, ("4", r"\N", "w")), Done),
    (Put(TWO_UNIQUES, ("4", "c", "m")), Agrees(TWO_UNIQUES, 2)),
    (Put(TWO_UNIQUES, ("4", r"\N", "m")), Agrees(TWO_UNIQUES, 2)),
    (Put(TWO_UNIQUES, ("4", "b", "n")), Agrees(TWO_UNIQUES, 1)),
    (Put(TWO_UNIQUES, ("3", "b", "n")), Agrees(TWO_UNIQUES, 0)),
    (Put(TWO_UNIQUES, (r"\N", "b", "n")), NullKey(TWO_UNIQUES)),
];

static SETS: [(Call, Answer); 13] = [
    (Set(ONE_UNIQUE, "1", ("-", "b", "-")), Agrees(ONE_UNIQUE, 1)),
    (Set(ONE_UNIQUE, "1", ("2", "b", "-")), Agrees(ONE_UNIQUE, 0)),
    (Set(ONE_UNIQUE, "2", ("-", "b", "w")), Done),
    (Set(ONE_UNIQUE, "7", (r"\N", "-", "-")), Skipped),
    (Set(ONE_UNIQUE, "1", (r"\N", "-", "-")), NullKey(ONE_UNIQUE)),
    (Set(ONE_UNIQUE, "1", (r"\N", "b", "-")), NullKey(ONE_UNIQUE)),
    (Set(ONE_UNIQUE, "1", ("4", "-", "-")), Done),
    (Set(ONE_UNIQUE, "1", ("-", r"\N", "-")), Done),
    (Set(NO_UNIQUE, "1", ("-", "b", "-")), Done),
    (Set(NO_UNIQUE, "1", ("2", "-", "-")), Agrees(NO_UNIQUE, 0)),
    (
        Set(TWO_UNIQUES, "3", ("-", "-", "n")),
        Agrees(TWO_UNIQUES, 2),
    ),
    (
        Set(TWO_UNIQUES, "3", ("-", "b", "n")),
        Agrees(TWO_UNIQUES, 1),
    ),
    (Set(TWO_UNIQUES, "1", ("4", "a", "w")), Done),
];

static REMOVES_AND_WIPES: [(Call, Answer); 6] = [
    (Remove(TWO_UNIQUES, "1"), Done),
    (Remove(ONE_UNIQUE, "3"), Done),
    (Remove(ONE_UNIQUE, "4"), Skipped),
    (Wipe(&[ONE_UNIQUE]), Done),
    (Wipe(&[TWO_UNIQUES, NO_UNIQUE]), Done),
    (Wipe(&[ONE_UNIQUE, ONE_UNIQUE]), Done),
];

#[test]
fn changes_have_their_answers(rt: HostRuntime) -> Result<(), Fail> {
    answers(&rt, rt.alloc(), &PUTS)?;
    answers(&rt, rt.alloc(), &SETS)?;
    answers(&rt, rt.alloc(), &REMOVES_AND_WIPES)
}

// Changes of each kind, one after another.
static CHANGES: [Call; 4] = [
    Put(TWO_UNIQUES, ("4", "c", "w")),
    Set(TWO_UNIQUES, "1", ("5", "-", "v")),
    Remove(TWO_UNIQUES, "2"),
    Wipe(&[TWO_UNIQUES, ONE_UNIQUE]),
];

/// Each table with its rows, and then these changes.
fn changed(rt: &impl Abort, alloc: Global, calls: &[Call]) -> Result<Tables, Clash> {
    let mut t = filled(rt, alloc)?;
    for call in calls {
        run(rt, alloc, &mut t, call)?;
    }
    Ok(t)
}

/// The change behind these was refused: it changed nothing, and the same change succeeds now.
fn was_refused(
    rt: &impl Abort,
    alloc: Global,
    t: &mut Tables,
    (done, call): (&[Call], &Call),
) -> Result<(), Clash> {
    let never_asked = changed(rt, alloc, done)?;
    let before = shown(rt, alloc, &never_asked)?;
    let after = shown(rt, alloc, t)?;
    assert_same(rt, after.as_str(), before.as_str(), call);
    let again = run(rt, alloc, t, call);
    assert_holds(rt, matches!(again, Ok(Applied::Done(_))), call);
    Ok(())
}

/// Tries the changes up to the first that is refused.
fn change_until_refused(rt: &impl Abort, alloc: Global) -> Result<(), Clash> {
    let mut t = filled(rt, alloc)?;
    for (count, call) in CHANGES.iter().enumerate() {
        if let Err(clash) = run(rt, alloc, &mut t, call) {
            assert_same(rt, clash, Clash::OutOfMemory, call);
            return was_refused(rt, alloc, &mut t, (&CHANGES[..count], call));
        }
    }
    Ok(())
}

// Where memory is refused a change says so, nothing has changed, and the same change succeeds later.
#[test]
fn changes_where_memory_is_refused(rt: HostRuntime) {
    if let Err(clash) = change_until_refused(&rt, rt.alloc()) {
        assert_same(&rt, clash, Clash::OutOfMemory, "refused");
    }
}
