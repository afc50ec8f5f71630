// Transactions that are in each other's way, by schedules that gates hold: two that wait for each other,
// one that is aborted at each of its items, and one of three that clashes at each of its places. All open
// work is undone, a hundred times.
use super::commits::BEGUN;
use super::gates::{Due, Hold, Place, Sign, Withheld, doors};
use super::left::assert_left;
use super::runs::{Plan, config_of, run_by, run_unwatched};
use super::worked::{FIRST, NOTE, P, SECOND, THIRD, unnamed};
use leader::{End, Lsn, OutOfMemory, Point, Xid};
use std::alloc::Global;
use std::rt::Clock as Host;
use std::sync::Wait;
use std::test::Fail;
use std::thread::Threads;
use streams::{Column, Message, Stream, Tuple};
use testing::asserts::{assert_holds, assert_same};

const TIMES: u32 = 100;

const V: Column = Column::Text("v");

const W: Column = Column::Text("w");

const A: Column = Column::Text("a");

const B: Column = Column::Text("b");

// Each has updated one row of the two, and comes to the other's.
const ONE_EACH: &[Message] = &[
    Message::Start(700, true),
    Message::Update(700, (Column::Number(1), A, V)),
    Message::Stop,
    Message::Start(701, true),
    Message::Update(701, (Column::Number(2), B, V)),
    Message::Stop,
    Message::Start(700, false),
    Message::Update(700, (Column::Number(2), B, W)),
];

const OTHERS: &[Message] = &[
    Message::Stop,
    Message::Start(701, false),
    Message::Update(701, (Column::Number(1), A, W)),
];

const FIRST_COMMIT: &[Message] = &[Message::Stop, Message::StreamCommit(700, 0x200, 0x220)];

// Appends the inserts of rows with so many keys.
fn push_rows(stream: &mut Stream, xid: Xid, first: u32, count: u32) -> Result<(), OutOfMemory> {
    for number in 0..count {
        stream.push(&Message::Insert(xid, unnamed(first.saturating_add(number))))?;
    }
    Ok(())
}

fn push_all(stream: &mut Stream, messages: &[Message]) -> Result<(), OutOfMemory> {
    for message in messages {
        stream.push(message)?;
    }
    Ok(())
}

// The two, each with so many inserts behind its second update.
fn crossed(alloc: Global, inserts: u32) -> Result<Stream, OutOfMemory> {
    let mut stream = Stream::of(alloc, &[P, ONE_EACH])?;
    push_rows(&mut stream, 700, 1000, inserts)?;
    push_all(&mut stream, OTHERS)?;
    push_rows(&mut stream, 701, 2000, inserts)?;
    push_all(&mut stream, FIRST_COMMIT)?;
    Ok(stream)
}

// Each waits before its second item until the other has done its first.
const CROSSED: [Hold; 2] = [
    Hold {
        place: Place(700, Point::Before(2)),
        until: 1,
    },
    Hold {
        place: Place(701, Point::Before(2)),
        until: 0,
    },
];

const HELD: End = End::HeldKey {
    xid: 700,
    holder: 701,
};

fn cross<'a, R: Threads + Wait + Sync + Host>(
    rt: &'a R,
    alloc: Global,
    stream: &'a [u8],
    ring: usize,
) -> Result<(), Fail> {
    let signs = [
        Sign::new(Place(700, Point::After(1))),
        Sign::new(Place(701, Point::After(1))),
    ];
    let source = Withheld::new(rt, (stream, &[]), Due::Now);
    let gates = doors(rt, alloc, &signs, &CROSSED, 2)?;
    let ran = run_unwatched(rt, alloc, source, &config_of(2, ring), gates)?;
    assert_left(&ran.outcome, (BEGUN, 0x140), HELD, "crossed")
}

#[test]
fn each_waits_for_the_other(rt: HostRuntime) -> Result<(), Fail> {
    let alone = crossed(rt.alloc(), 0)?;
    let with_more = crossed(rt.alloc(), 200)?;
    for _ in 0..TIMES {
        cross(&rt, rt.alloc(), alone.bytes(), 64)?;
        cross(&rt, rt.alloc(), with_more.bytes(), 1)?;
    }
    Ok(())
}

// Four rows of a transaction that is aborted.
const FOUR_ROWS: &[Message] = &[
    Message::Start(700, true),
    Message::Insert(700, (Column::Number(10), Column::Null, NOTE)),
    Message::Insert(700, (Column::Number(11), Column::Null, NOTE)),
    Message::Insert(700, (Column::Number(12), Column::Null, NOTE)),
    Message::Insert(700, (Column::Number(13), Column::Null, NOTE)),
    Message::Stop,
];

const ABORT: &[Message] = &[Message::Abort(700, 700)];

// It is given the worker that the abort has freed.
const NEXT: &[Message] = &[
    Message::Start(703, true),
    Message::Insert(703, THIRD),
    Message::Stop,
    Message::StreamCommit(703, 0x200, 0x220),
];

const WITH_THIRD: &[Tuple] = &[FIRST, SECOND, THIRD];

// The abort is withheld until the worker has done so many items. By one worker another transaction comes
// behind it.
fn abort_at<R: Threads + Wait + Sync + Host>(
    rt: &R,
    alloc: Global,
    (front, back): (&Stream, &Stream),
    items: u64,
    (workers, ring): (usize, usize),
) -> Result<(), Fail> {
    let signs = [
        Sign::new(Place(700, Point::After(items))),
        Sign::new(Place(703, Point::After(1))),
    ];
    let due = if items == 0 {
        Due::Now
    } else {
        Due::Passed(&signs[0])
    };
    let source = Withheld::new(rt, (front.bytes(), back.bytes()), due);
    let gates = doors(rt, alloc, &signs, &[], workers)?;
    let ran = run_unwatched(rt, alloc, source, &config_of(workers, ring), gates)?;
    let has_next = workers == 1;
    assert_same(signs[1].is_passed(), has_next, "the next one's worker")?;
    let left = if has_next {
        (WITH_THIRD, 0x220)
    } else {
        (BEGUN, 0x140)
    };
    assert_left(&ran.outcome, left, End::Clean, items)
}

// Aborts at each item, each a hundred times.
fn abort_everywhere<R: Threads + Wait + Sync + Host>(
    rt: &R,
    alloc: Global,
    back: &[&[Message]],
    (workers, ring): (usize, usize),
) -> Result<(), Fail> {
    let front = Stream::of(alloc, &[P, FOUR_ROWS])?;
    let back = Stream::of(alloc, back)?;
    for items in 0..5 {
        for _ in 0..TIMES {
            abort_at(rt, alloc, (&front, &back), items, (workers, ring))?;
        }
    }
    Ok(())
}

#[test]
fn an_abort_behind_each_item(rt: HostRuntime) -> Result<(), Fail> {
    for ring in [1, 64] {
        abort_everywhere(&rt, rt.alloc(), &[ABORT], (2, ring))?;
        abort_everywhere(&rt, rt.alloc(), &[ABORT, NEXT], (1, ring))?;
    }
    Ok(())
}

// Three transactions of four rows each, in blocks of one row by turns.
const OPEN: u32 = 3;

const ROWS_EACH: u32 = 4;

// The rows of all in the order of their commits.
static ALL: [Tuple; 10] = [
    FIRST,
    SECOND,
    (Column::Number(10), Column::Null, NOTE),
    (Column::Number(11), Column::Null, NOTE),
    (Column::Number(12), Column::Null, NOTE),
    (Column::Number(13), Column::Null, NOTE),
    (Column::Number(20), Column::Null, NOTE),
    (Column::Number(21), Column::Null, NOTE),
    (Column::Number(22), Column::Null, NOTE),
    (Column::Number(23), Column::Null, NOTE),
];

static ENDS: [Lsn; 3] = [0x140, 0x220, 0x320];

const COMMITS: &[Message] = &[
    Message::StreamCommit(700, 0x200, 0x220),
    Message::StreamCommit(701, 0x300, 0x320),
    Message::StreamCommit(702, 0x400, 0x420),
];

// Their stream, where the row of this number (of one transaction after the other) has a key that is taken.
fn by_turns(alloc: Global, clashing: u32) -> Result<Stream, OutOfMemory> {
    let mut stream = Stream::of(alloc, &[P])?;
    for turn in 0..ROWS_EACH {
        for number in 0..OPEN {
            let key = if number * ROWS_EACH + turn == clashing {
                1
            } else {
                10 * number + 10 + turn
            };
            let xid = 700 + number;
            stream.push(&Message::Start(xid, turn == 0))?;
            stream.push(&Message::Insert(xid, unnamed(key)))?;
            stream.push(&Message::Stop)?;
        }
    }
    push_all(&mut stream, COMMITS)?;
    Ok(stream)
}

const TAKEN: End = End::Unique { table: 0, key: 0 };

// A beginning of the transactions that commit before the one that clashes has its rows there.
fn clash_at<R: Threads + Wait + Sync + Host>(
    rt: &R,
    alloc: Global,
    stream: &Stream,
    clashing: u32,
    seed: u32,
) -> Result<(), Fail> {
    let plan = Plan::new(stream.bytes(), config_of(3, 64));
    let ran = run_by(rt, alloc, &plan, u64::from(seed))?;
    let before = (clashing / ROWS_EACH) as usize;
    let made = ran.commits().len();
    assert_holds(1 <= made && made <= before + 1, clashing)?;
    let made = made.clamp(1, 3) - 1;
    let rows = 2 + 4 * made;
    assert_left(&ran.outcome, (&ALL[..rows], ENDS[made]), TAKEN, clashing)
}

#[test]
fn a_clash_at_each_place_of_three_transactions(rt: HostRuntime) -> Result<(), Fail> {
    for clashing in 0..OPEN * ROWS_EACH {
        let stream = by_turns(rt.alloc(), clashing)?;
        for seed in 0..TIMES {
            clash_at(&rt, rt.alloc(), &stream, clashing, seed)?;
        }
    }
    Ok(())
}
