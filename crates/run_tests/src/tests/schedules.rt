// Streams whose schedule is held: by gates at which a worker waits, and by bytes that are withheld until
// a worker came somewhere.
use super::gates::{Due, Hold, Place, Sign, Withheld, doors};
use super::runs::{Ran, config_of, reports, run_unwatched};
use super::worked::{NOTE, P};
use leader::{OutOfMemory, Point};
use std::alloc::Global;
use std::rt::Clock as Host;
use std::sync::Wait;
use std::thread::Threads;
use streams::{Column, Message, Stream, Tuple};

/// A stream whose back is withheld until a place was passed, or one where a worker waits at places until
/// another is passed.
struct Case {
    name: &'static str,
    front: &'static [&'static [Message]],
    back: &'static [Message],
    sign: Option<Place>,
    holds: &'static [Hold],
    report: &'static str,
}

const AFTER_FIRST: Place = Place(700, Point::After(1));

// Where 701 comes to its insert, it waits for the delete.
const SECOND: &[Hold] = &[Hold {
    place: Place(701, Point::Before(1)),
    until: 0,
}];

const SEVENTH: Tuple = (Column::Number(7), Column::Text("g"), NOTE);

// A row with the email of another, and the first row with another note.
const CLASHING: Tuple = (Column::Number(3), Column::Text("b"), NOTE);

const NOTED: Tuple = (Column::Number(1), Column::Text("a"), Column::Text("v"));

const START: &[Message] = &[Message::Start(700, true)];

// 700 deletes the first row, and 701 inserts one with its email.
const DELETE_AND_INSERT: &[Message] = &[
    Message::Start(700, true),
    Message::DeleteAt(700, b'K', (Column::Number(1), Column::Null, Column::Null)),
    Message::Stop,
    Message::Start(701, true),
    Message::Insert(701, (Column::Number(3), Column::Text("a"), NOTE)),
    Message::Stop,
];

// The commits of the two, in either order.
const FIRST_700: &[Message] = &[
    Message::StreamCommit(700, 0x200, 0x220),
    Message::StreamCommit(701, 0x300, 0x320),
];

const FIRST_701: &[Message] = &[
    Message::StreamCommit(701, 0x200, 0x220),
    Message::StreamCommit(700, 0x300, 0x320),
];

static CASES: [Case; 6] = [
    Case {
        name: "the leader needs what a worker holds",
        front: &[P, START, &[Message::Update(700, SEVENTH), Message::Stop]],
        back: &[
            Message::Begin(900, 0x200),
            Message::Insert(0, SEVENTH),
            Message::Commit(0x200, 0x220),
        ],
        sign: Some(AFTER_FIRST),
        holds: &[],
        report: "table public.accounts 2\n1|a|n\n2|b|n\nposition 0/140\nend 7 HeldKey 900 700\n",
    },
    Case {
        name: "a worker waits for one that commits first",
        front: &[P, DELETE_AND_INSERT],
        back: FIRST_700,
        sign: None,
        holds: SECOND,
        report: "table public.accounts 2\n2|b|n\n3|a|n\nposition 0/320\nend 0 Clean\n",
    },
    Case {
        name: "a worker waits for one that commits later",
        front: &[P, DELETE_AND_INSERT],
        back: FIRST_701,
        sign: None,
        holds: SECOND,
        report: "table public.accounts 2\n1|a|n\n2|b|n\nposition 0/140\nend 7 HeldKey 701 700\n",
    },
    // Were its work done at its commit alone, the place would never be passed.
    Case {
        name: "work that is done before its commit",
        front: &[P, START, &[Message::Update(700, NOTED), Message::Stop]],
        back: &[Message::StreamCommit(700, 0x200, 0x220)],
        sign: Some(AFTER_FIRST),
        holds: &[],
        report: "table public.accounts 2\n1|a|v\n2|b|n\nposition 0/220\nend 0 Clean\n",
    },
    Case {
        name: "a clash in work that is rolled back later",
        front: &[
            P,
            START,
            &[
                Message::Insert(711, CLASHING),
                Message::Stop,
                Message::Abort(700, 711),
            ],
        ],
        back: &[Message::StreamCommit(700, 0x200, 0x220)],
        sign: None,
        holds: &[],
        report: "table public.accounts 2\n1|a|n\n2|b|n\nposition 0/140\nend 5 Unique public.accounts 1\n",
    },
    Case {
        name: "a clash in work that is still open at the end",
        front: &[P, START, &[Message::Insert(700, CLASHING), Message::Stop]],
        back: &[],
        sign: Some(Place(700, Point::Clash(1))),
        holds: &[],
        report: "table public.accounts 2\n1|a|n\n2|b|n\nposition 0/140\nend 5 Unique public.accounts 1\n",
    },
];

// What a run leaves whose schedule is held.
fn run_held<R: Threads + Wait + Sync + Host>(
    rt: &R,
    alloc: Global,
    case: &Case,
    workers: usize,
) -> Result<Ran, OutOfMemory> {
    let front = Stream::of(alloc, case.front)?;
    let back = Stream::of(alloc, &[case.back])?;
    let signs = [Sign::new(case.sign.unwrap_or(AFTER_FIRST))];
    let gates = doors(rt, alloc, &signs, case.holds, workers)?;
    let due = if case.sign.is_some() {
        Due::Passed(&signs[0])
    } else {
        Due::Now
    };
    let source = Withheld::new(rt, (front.bytes(), back.bytes()), due);
    run_unwatched(rt, alloc, source, &config_of(workers, 1), gates)
}

#[test]
fn schedules_that_gates_hold(rt: HostRuntime) -> Result<(), OutOfMemory> {
    for case in &CASES {
        for workers in 2..5 {
            for _ in 0..40 {
                let ran = run_held(&rt, rt.alloc(), case, workers)?;
                reports(&rt, &ran, case.report.as_bytes(), case.name);
            }
        }
    }
    Ok(())
}
