// Runs to which memory is refused, with workers and without: they end so or as they end with it, the
// journal is a beginning of what it is with it, and the tables are those of the journal. Where memory was
// refused before a byte was read, they are the start tables.
//
// `tools/refuse.py` refuses each allocation in turn, and then all from each one on: so what is looked at is
// made before the run. What a test itself is refused says nothing.
use super::commits::{CLASH, Case, REFUSED};
use super::gates::{Due, Place, Sign, Withheld, doors};
use super::left::{Commit, Email, assert_made, emails};
use super::runs::{Plan, Ran, catalog, config_of, run_by, run_over, run_unwatched, tables_of};
use super::worked::{EMPTIED, LET_GO, MOVED, NOTE, NULLS, P, ROLLED_BACK, TWO_NULLS, unnamed};
use leader::{Config, End, OutOfMemory, Outcome, Point, Xid, open_gates};
use std::alloc::Global;
use std::process::Abort;
use std::rt::Clock as Host;
use std::sync::Wait;
use std::test::Fail;
use std::thread::Threads;
use streams::{Column, Message, Stream, Tuple};
use testing::accounts::RELATION;
use testing::asserts::assert_holds;

// A run of the case, with the emails by which its rows are looked up. Err says that the test was refused.
fn run_case<R: Threads + Wait + Sync>(
    rt: &R,
    alloc: Global,
    case: &Case<'_>,
    config: Config,
) -> Result<(Outcome, Vec<Email>), OutOfMemory> {
    let emails = emails(alloc)?;
    let stream = Stream::of(alloc, case.parts)?;
    let catalog = catalog(alloc)?;
    let start = tables_of(rt, alloc, &catalog, case.before)?;
    let gates = open_gates(alloc, config.workers)?;
    // (the sink keeps three updates)
    let mut sent = Vec::with_capacity(alloc, 256)?;
    let plan = Plan::new(stream.bytes(), config);
    let outcome = run_over(rt, alloc, &catalog, start, &plan, gates, &mut sent);
    Ok((outcome, emails))
}

// What the run left is a beginning of what it leaves with all of its memory, or all of it.
fn assert_lawful(outcome: &Outcome, emails: &[Email], case: &Case<'_>) -> Result<(), Fail> {
    assert_made(outcome, case.commits, case.start, emails, case.name)?;
    let is_whole = outcome.end == case.end && outcome.journal.len() == case.commits.len();
    assert_holds(is_whole || outcome.end == End::OutOfMemory, case.name)
}

#[test]
fn worked_streams_whatever_memory_is_refused(rt: HostRuntime) -> Result<(), Fail> {
    for case in &REFUSED {
        for workers in [0, 2] {
            let config = config_of(workers, 1);
            let Ok((outcome, emails)) = run_case(&rt, rt.alloc(), case, config) else {
                return Ok(());
            };
            assert_lawful(&outcome, emails.as_slice(), case)?;
        }
    }
    Ok(())
}

// Two streamed transactions of 500 rows each, of which the second commits first.
#[derive(Drop)]
struct Thousand {
    inserts: Vec<Message>,
    rows: Vec<Tuple>,
}

const HALF: usize = 500;

impl Thousand {
    fn new(alloc: Global) -> Result<Thousand, OutOfMemory> {
        let mut inserts = Vec::with_capacity(alloc, 2 * HALF)?;
        let mut rows = Vec::with_capacity(alloc, 2 * HALF)?;
        for key in 1..1001u32 {
            let xid: Xid = if key <= 500 { 700 } else { 701 };
            inserts.push(Message::Insert(xid, unnamed(key)))?;
            rows.push(unnamed(key))?;
        }
        Ok(Thousand { inserts, rows })
    }
}

// The first 500 of a list, and the rest.
fn halves<T>(list: &[T]) -> (&[T], &[T]) {
    list.split_at(HALF.min(list.len()))
}

const OPEN_700: &[Message] = &[
    Message::Start(700, true),
    Message::Other(b'R', 700, RELATION),
];

const OPEN_701: &[Message] = &[Message::Stop, Message::Start(701, true)];

const COMMITS: &[Message] = &[
    Message::Stop,
    Message::StreamCommit(701, 0x200, 0x220),
    Message::StreamCommit(700, 0x300, 0x320),
];

// A run of the two, which by one worker has the second spooled. False says that the test was refused.
fn is_played<R: Threads + Wait + Sync>(
    rt: &R,
    alloc: Global,
    config: Config,
) -> Result<bool, Fail> {
    let Ok(thousand) = Thousand::new(alloc) else {
        return Ok(false);
    };
    let (first, second) = halves(thousand.inserts.as_slice());
    let (_, second_rows) = halves(thousand.rows.as_slice());
    let later = Commit {
        stamp: (701, 0x200, 0x220),
        changes: second,
        rows: second_rows,
    };
    let all = Commit {
        stamp: (700, 0x300, 0x320),
        changes: first,
        rows: thousand.rows.as_slice(),
    };
    let case = Case {
        name: "two transactions of 500 rows",
        before: &[],
        start: &[],
        parts: &[OPEN_700, first, OPEN_701, second, COMMITS],
        commits: &[later, all],
        end: End::Clean,
    };
    let Ok((outcome, emails)) = run_case(rt, alloc, &case, config) else {
        return Ok(false);
    };
    assert_lawful(&outcome, emails.as_slice(), &case)?;
    Ok(true)
}

#[test]
fn a_thousand_rows_by_a_worker_whatever_memory_is_refused(rt: HostRuntime) -> Result<(), Fail> {
    let _ = is_played(&rt, rt.alloc(), config_of(1, 1))?;
    Ok(())
}

#[test]
fn a_thousand_rows_spooled_whatever_memory_is_refused(rt: HostRuntime) -> Result<(), Fail> {
    let _ = is_played(&rt, rt.alloc(), config_of(0, 1))?;
    Ok(())
}

// A worked stream; what is reported after so many of its commits, but for the end; and how it ends.
struct Reported {
    parts: &'static [&'static [Message]],
    after: &'static [&'static str],
    end: End,
}

const EMPTY: &str = "table public.accounts 0\nposition 0/0\n";

const BEGUN: &str = "table public.accounts 2\n1|a|n\n2|b|n\nposition 0/140\n";

// Nulls, rollbacks that cut much and nothing, a key that moves, and two clashes.
static REPORTED: [Reported; 6] = [
    Reported {
        parts: NULLS,
        after: &[
            EMPTY,
            "table public.accounts 3\n1|a|n\n2|b|\\N\n3|\\N|\nposition 0/120\n",
        ],
        end: End::Clean,
    },
    Reported {
        parts: ROLLED_BACK,
        after: &[EMPTY, "table public.accounts 1\n1|a|n\nposition 0/220\n"],
        end: End::Clean,
    },
    Reported {
        parts: LET_GO,
        after: AFTER,
        end: End::Clean,
    },
    Reported {
        parts: TWO_NULLS,
        after: &[
            EMPTY,
            BEGUN,
            "table public.accounts 4\n1|a|n\n2|b|n\n3|\\N|n\n4|\\N|n\nposition 0/220\n",
        ],
        end: CLASH,
    },
    Reported {
        parts: MOVED,
        after: &[
            EMPTY,
            BEGUN,
            "table public.accounts 2\n2|b|n\n9|a|n\nposition 0/220\n",
        ],
        end: End::Clean,
    },
    Reported {
        parts: EMPTIED,
        after: &[
            EMPTY,
            BEGUN,
            "table public.accounts 2\n1|a|n\n2|b|n\nposition 0/220\n",
        ],
        end: CLASH,
    },
];

// Of the row that a rollback lets go, and of the beginning that it shares with the run below.
const AFTER: &[&str] = &[
    EMPTY,
    BEGUN,
    "table public.accounts 2\n1|a|w\n2|b|n\nposition 0/220\n",
    "table public.accounts 3\n1|a|w\n2|b|n\n3|c|n\nposition 0/320\n",
];

// What is left is that of the commits. A run ends so, or for want of memory, or with all commits having
// read all: where the worker was refused what its first item needs, it holds nothing. Memory that is
// refused to the sink, which keeps what it is given, ends a run as a device does that fails.
fn is_exact(rt: &impl Abort, ran: &Ran, after: &[&str], end: End) {
    let commits = ran.commits().len();
    let Some(report) = after.get(commits) else {
        panic!(rt; "a commit too many")
    };
    assert!(rt; ran.report.as_slice().starts_with(report.as_bytes()));
    match ran.outcome.end {
        End::OutOfMemory | End::Frame(_) => {}
        End::Clean => assert!(rt; commits + 1 == after.len()),
        other => assert!(rt; other == end),
    }
}

#[test]
fn runs_by_workers_where_memory_is_refused(rt: HostRuntime) {
    for reported in &REPORTED {
        let Ok(stream) = Stream::of(rt.alloc(), reported.parts) else {
            return;
        };
        let plan = Plan::new(stream.bytes(), config_of(2, 1));
        let Ok(ran) = run_by(&rt, rt.alloc(), &plan, 1) else {
            return;
        };
        is_exact(&rt, &ran, reported.after, reported.end);
    }
}

// The worker of 700 holds the row that 900 needs, and has more to do.
const HELD: &[Message] = &[
    Message::Start(700, true),
    Message::Update(700, (Column::Number(1), Column::Kept, Column::Text("v"))),
    Message::Insert(711, (Column::Number(3), Column::Text("c"), NOTE)),
    Message::Insert(712, (Column::Number(4), Column::Text("d"), NOTE)),
    Message::Stop,
];

const WAITING: &[Message] = &[
    Message::Begin(900, 0x200),
    Message::Update(0, (Column::Number(1), Column::Kept, Column::Text("w"))),
    Message::Commit(0x200, 0x220),
];

// A run over the stream whose back comes once the worker has its row, or after a while.
fn held_run<R: Threads + Wait + Sync + Host>(rt: &R, alloc: Global) -> Result<Ran, OutOfMemory> {
    let front = Stream::of(alloc, &[P, HELD])?;
    let back = Stream::of(alloc, &[WAITING])?;
    let signs = [Sign::new(Place(700, Point::After(1)))];
    let gates = doors(rt, alloc, &signs, &[], 2)?;
    let due = Due::PassedOrLate(&signs[0]);
    let source = Withheld::new(rt, (front.bytes(), back.bytes()), due);
    run_unwatched(rt, alloc, source, &config_of(2, 1), gates)
}

// The leader doesn't wait for a worker that memory was refused to.
#[test]
fn a_holder_to_which_memory_is_refused(rt: HostRuntime) {
    let Ok(ran) = held_run(&rt, rt.alloc()) else {
        return;
    };
    let held = End::HeldKey {
        xid: 900,
        holder: 700,
    };
    is_exact(&rt, &ran, &AFTER[..3], held);
}
