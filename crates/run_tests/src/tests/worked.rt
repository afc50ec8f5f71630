// Streams that end the same on each schedule, worked by hand, and what is reported of them.
use super::runs::{reports, same_by_all};
use leader::OutOfMemory;
use streams::{Column, Message, Stream, Tuple, WHOLE};
use testing::accounts::RELATION;

pub const NOTE: Column = Column::Text("n");

/// The row that is inserted first.
pub const FIRST: Tuple = (Column::Number(1), Column::Text("a"), NOTE);

pub const SECOND: Tuple = (Column::Number(2), Column::Text("b"), NOTE);

pub const THIRD: Tuple = (Column::Number(3), Column::Text("c"), NOTE);

/// The first row with another note, and with a third.
pub const NOTED_V: Tuple = (Column::Number(1), Column::Text("a"), Column::Text("v"));

pub const NOTED_W: Tuple = (Column::Number(1), Column::Text("a"), Column::Text("w"));

/// A row without an email.
pub fn unnamed(key: u32) -> Tuple {
    (Column::Number(key), Column::Null, NOTE)
}

pub const UNNAMED_THIRD: Tuple = (Column::Number(3), Column::Null, NOTE);

pub const UNNAMED_FOURTH: Tuple = (Column::Number(4), Column::Null, NOTE);

/// The relation of the table, outside of a block.
pub const LEARNT: Message = Message::Other(b'R', 0, RELATION);

/// Commits two rows at 0/140.
pub const P: &[Message] = &[
    Message::Begin(500, 0x100),
    LEARNT,
    Message::Insert(0, FIRST),
    Message::Insert(0, SECOND),
    Message::Commit(0x100, 0x140),
];

/// Commits one row at 0/120: 258 bytes, in frames that end at 51, 146, 202 and 258.
pub const ONE_INSERT: &[Message] = &[
    Message::Begin(900, 0x100),
    LEARNT,
    Message::Insert(0, FIRST),
    Message::Commit(0x100, 0x120),
];

// Opens 700, with a row of its own and one of the subtransaction 711.
const OPENED: &[Message] = &[
    Message::Start(700, true),
    Message::Other(b'R', 700, RELATION),
    Message::Insert(700, FIRST),
    Message::Insert(711, SECOND),
];

// One more row of 700, at the end of the block.
const THIRD_TOO: &[Message] = &[Message::Insert(700, THIRD), Message::Stop];

const COMMIT_700: &[Message] = &[Message::StreamCommit(700, 0x200, 0x220)];

// Two transactions of what stands between: their commits end at 0/220 and at 0/320.
const BEGIN: &[Message] = &[Message::Begin(600, 0x200)];

const COMMIT: &[Message] = &[Message::Commit(0x200, 0x220)];

const BEGIN_LATER: &[Message] = &[Message::Begin(601, 0x300)];

const COMMIT_LATER: &[Message] = &[Message::Commit(0x300, 0x320)];

/// The inserts of the stream below.
pub const OF_NULLS: [Message; 3] = [
    Message::Insert(0, FIRST),
    Message::Insert(0, (Column::Number(2), Column::Text("b"), Column::Null)),
    Message::Insert(0, (Column::Number(3), Column::Null, Column::Text(""))),
];

/// Nulls and empty texts.
pub const NULLS: &[&[Message]] = &[
    &[Message::Begin(900, 0x100), LEARNT],
    &OF_NULLS,
    &[Message::Commit(0x100, 0x120)],
];

/// A subtransaction is rolled back, and with it what its transaction did behind its savepoint.
pub const ROLLED_BACK: &[&[Message]] = &[
    OPENED,
    THIRD_TOO,
    &[Message::Abort(700, 711)],
    COMMIT_700,
];

/// A row that a rollback lets go is taken by another transaction.
pub const LET_GO: &[&[Message]] = &[
    P,
    &[
        Message::Start(700, true),
        Message::Update(711, NOTED_V),
        Message::Stop,
        Message::Abort(700, 711),
        Message::Begin(900, 0x200),
        Message::Update(0, NOTED_W),
        Message::Commit(0x200, 0x220),
        Message::Start(700, false),
    ],
    THIRD_TOO,
    &[Message::StreamCommit(700, 0x300, 0x320)],
];

/// The inserts of the stream below.
pub const TWO_UNNAMED: [Message; 2] = [
    Message::Insert(0, UNNAMED_THIRD),
    Message::Insert(0, UNNAMED_FOURTH),
];

/// Two rows have no email, and then one has that of another.
pub const TWO_NULLS: &[&[Message]] = &[
    P,
    BEGIN,
    &TWO_UNNAMED,
    COMMIT,
    BEGIN_LATER,
    &[Message::Insert(0, (Column::Number(5), Column::Text("b"), NOTE))],
    COMMIT_LATER,
];

/// The update of the stream below.
pub const MOVE: Message = Message::UpdateAt(
    0,
    b'K',
    (Column::Number(1), Column::Null, Column::Null),
    (Column::Number(9), Column::Text("a"), Column::Kept),
);

/// An update gives a row another key.
pub const MOVED: &[&[Message]] = &[P, BEGIN, &[MOVE], COMMIT];

/// A truncate is rolled back, so an email is taken again.
pub const EMPTIED: &[&[Message]] = &[
    P,
    &[
        Message::Start(700, true),
        Message::Other(b'T', 711, WHOLE),
        Message::Insert(711, (Column::Number(5), Column::Text("a"), NOTE)),
        Message::Stop,
        Message::Abort(700, 711),
    ],
    COMMIT_700,
    BEGIN_LATER,
    &[Message::Insert(0, (Column::Number(6), Column::Text("a"), NOTE))],
    COMMIT_LATER,
];

/// The publisher ends the stream while a transaction is open.
pub const STILL_OPEN: &[&[Message]] = &[
    P,
    &[Message::Start(700, true)],
    THIRD_TOO,
    &[Message::Raw(b"c\x00\x00\x00\x04")],
];

/// A stream and its report.
pub struct Row {
    pub name: &'static str,
    pub parts: &'static [&'static [Message]],
    pub report: &'static str,
}

/// The worked streams.
pub static ROWS: [Row; 19] = [
    Row {
        name: "an empty input",
        parts: &[],
        report: "table public.accounts 0\nposition 0/0\nend 0 Clean\n",
    },
    Row {
        name: "nulls and empty texts",
        parts: NULLS,
        report: "table public.accounts 3\n1|a|n\n2|b|\\N\n3|\\N|\nposition 0/120\nend 0 Clean\n",
    },
    Row {
        name: "a rolled back subtransaction",
        parts: ROLLED_BACK,
        report: "table public.accounts 1\n1|a|n\nposition 0/220\nend 0 Clean\n",
    },
    Row {
        name: "the rollback of an unknown subtransaction",
        parts: &[OPENED, THIRD_TOO, &[Message::Abort(700, 712)], COMMIT_700],
        report: "table public.accounts 3\n1|a|n\n2|b|n\n3|c|n\nposition 0/220\nend 0 Clean\n",
    },
    Row {
        name: "a subtransaction named again after its rollback",
        parts: &[
            OPENED,
            &[
                Message::Stop,
                Message::Abort(700, 711),
                Message::Start(700, false),
                Message::Insert(711, (Column::Number(4), Column::Text("d"), NOTE)),
                Message::Stop,
                Message::StreamCommit(700, 0x200, 0x220),
            ],
        ],
        report: "table public.accounts 2\n1|a|n\n4|d|n\nposition 0/220\nend 0 Clean\n",
    },
    Row {
        name: "a row let go by a rollback",
        parts: LET_GO,
        report: "table public.accounts 3\n1|a|w\n2|b|n\n3|c|n\nposition 0/320\nend 0 Clean\n",
    },
    Row {
        name: "two nulls in a unique key, then a clash",
        parts: TWO_NULLS,
        report: "table public.accounts 4\n1|a|n\n2|b|n\n3|\\N|n\n4|\\N|n\nposition 0/220\nend 5 Unique public.accounts 1\n",
    },
    Row {
        name: "an update that moves a key",
        parts: MOVED,
        report: "table public.accounts 2\n2|b|n\n9|a|n\nposition 0/220\nend 0 Clean\n",
    },
    Row {
        name: "a truncate rolled back, and then a clash",
        parts: EMPTIED,
        report: "table public.accounts 2\n1|a|n\n2|b|n\nposition 0/220\nend 5 Unique public.accounts 1\n",
    },
    Row {
        name: "a commit that is not newer",
        parts: &[
            P,
            &[Message::Begin(600, 0x130), Message::Commit(0x130, 0x140)],
        ],
        report: "table public.accounts 2\n1|a|n\n2|b|n\nposition 0/140\nend 3 Session OldCommit\n",
    },
    Row {
        name: "work that is still open at CopyDone",
        parts: STILL_OPEN,
        report: "table public.accounts 2\n1|a|n\n2|b|n\nposition 0/140\nend 0 Clean\n",
    },
    Row {
        name: "an input that is cut short",
        parts: &[&[Message::Raw(b"d\x00\x00")]],
        report: "table public.accounts 0\nposition 0/0\nend 1 Frame Truncated\n",
    },
    Row {
        name: "a two-phase message",
        parts: &[&[Message::Other(b'b', 0, b"")]],
        report: "table public.accounts 0\nposition 0/0\nend 2 Msg TwoPhase\n",
    },
    Row {
        name: "an update of a missing row",
        parts: &[
            P,
            BEGIN,
            &[Message::Update(0, (Column::Number(7), Column::Text("g"), Column::Text("v")))],
            COMMIT,
        ],
        report: "table public.accounts 2\n1|a|n\n2|b|n\nposition 0/220\nend 0 Clean\n",
    },
    Row {
        name: "an insert with escapes",
        parts: &[
            P,
            BEGIN,
            &[Message::Insert(
                0,
                (Column::Text("+07"), Column::Text("\\N"), Column::Text("")),
            )],
            COMMIT,
        ],
        report: "table public.accounts 3\n1|a|n\n2|b|n\n7|\\\\N|\nposition 0/220\nend 0 Clean\n",
    },
    Row {
        name: "a null in the primary key",
        parts: &[
            P,
            BEGIN,
            &[Message::Insert(0, (Column::Null, Column::Text("g"), NOTE))],
            COMMIT,
        ],
        report: "table public.accounts 2\n1|a|n\n2|b|n\nposition 0/140\nend 6 NullKey public.accounts\n",
    },
    Row {
        name: "a keepalive that wants a reply",
        parts: &[ONE_INSERT, &[Message::Keepalive(0x200, true)]],
        report: "table public.accounts 1\n1|a|n\nposition 0/120\nend 0 Clean\n",
    },
    Row {
        name: "a block of an unknown transaction",
        parts: &[&[Message::Start(700, false)]],
        report: "table public.accounts 0\nposition 0/0\nend 3 Session UnknownTransaction\n",
    },
    Row {
        name: "an abort of an unknown transaction",
        parts: &[&[Message::Abort(700, 700)]],
        report: "table public.accounts 0\nposition 0/0\nend 0 Clean\n",
    },
];

#[test]
fn rows_by_any_number_of_workers(rt: HostRuntime) -> Result<(), OutOfMemory> {
    for row in &ROWS {
        let stream = Stream::of(rt.alloc(), row.parts)?;
        let ran = same_by_all(&rt, rt.alloc(), stream.bytes(), 3, row.name)?;
        reports(&rt, &ran, row.report.as_bytes(), row.name);
    }
    Ok(())
}
