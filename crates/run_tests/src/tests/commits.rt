// What each commit of some worked streams leaves: its changes, and the rows behind it.
use super::left::Commit;
use super::worked::{
    EMPTIED, FIRST, LEARNT, LET_GO, MOVE, MOVED, NOTE, NOTED_W, NULLS, OF_NULLS, P, ROLLED_BACK,
    SECOND, STILL_OPEN, THIRD, TWO_NULLS, TWO_UNNAMED, UNNAMED_FOURTH, UNNAMED_THIRD,
};
use leader::End;
use streams::{Column, Message, Tuple, WHOLE};

/// A stream over tables in which some messages left rows, its commits, and its end.
#[derive(Clone, Copy)]
pub struct Case<'a> {
    pub name: &'static str,
    pub before: &'a [Message],
    pub start: &'a [Tuple],
    pub parts: &'a [&'a [Message]],
    pub commits: &'a [Commit<'a>],
    pub end: End,
}

// One over empty tables that ends Clean.
const PLAIN: Case<'static> = Case {
    name: "",
    before: &[],
    start: &[],
    parts: &[],
    commits: &[],
    end: End::Clean,
};

/// The end by an email that another row has.
pub const CLASH: End = End::Unique { table: 0, key: 1 };

/// The rows that `P` leaves.
pub const BEGUN: &[Tuple] = &[FIRST, SECOND];

/// The commit of `P`.
pub const FIRST_COMMIT: Commit<'static> = Commit {
    stamp: (500, 0x100, 0x140),
    changes: &[Message::Insert(0, FIRST), Message::Insert(0, SECOND)],
    rows: BEGUN,
};

// A delete of the third row, by its key.
const DELETE_THIRD: Message = Message::DeleteAt(
    700,
    b'K',
    (Column::Number(3), Column::Null, Column::Null),
);

const OF_ROLLED_BACK: Case<'static> = Case {
    name: "a rolled back subtransaction",
    before: &[],
    start: &[],
    parts: ROLLED_BACK,
    commits: &[Commit {
        stamp: (700, 0x200, 0x220),
        changes: &[Message::Insert(700, FIRST)],
        rows: &[FIRST],
    }],
    end: End::Clean,
};

const OF_LET_GO: Case<'static> = Case {
    name: "a row let go by a rollback",
    before: &[],
    start: &[],
    parts: LET_GO,
    commits: &[
        FIRST_COMMIT,
        Commit {
            stamp: (900, 0x200, 0x220),
            changes: &[Message::Update(0, NOTED_W)],
            rows: &[NOTED_W, SECOND],
        },
        Commit {
            stamp: (700, 0x300, 0x320),
            changes: &[Message::Insert(700, THIRD)],
            rows: &[NOTED_W, SECOND, THIRD],
        },
    ],
    end: End::Clean,
};

const OF_MOVED: Case<'static> = Case {
    name: "an update that moves a key",
    before: &[],
    start: &[],
    parts: MOVED,
    commits: &[
        FIRST_COMMIT,
        Commit {
            stamp: (600, 0x200, 0x220),
            changes: &[MOVE],
            rows: &[SECOND, (Column::Number(9), Column::Text("a"), NOTE)],
        },
    ],
    end: End::Clean,
};

/// The streams to which memory is refused. The last is of changes of each kind over tables that have rows:
/// what is refused before a byte is read leaves these.
pub static REFUSED: [Case<'static>; 7] = [
    Case {
        name: "nulls and empty texts",
        parts: NULLS,
        commits: &[Commit {
            stamp: (900, 0x100, 0x120),
            changes: &OF_NULLS,
            rows: &[
                FIRST,
                (Column::Number(2), Column::Text("b"), Column::Null),
                (Column::Number(3), Column::Null, Column::Text("")),
            ],
        }],
        ..PLAIN
    },
    OF_ROLLED_BACK,
    OF_LET_GO,
    Case {
        name: "two nulls in a unique key, then a clash",
        parts: TWO_NULLS,
        commits: &[
            FIRST_COMMIT,
            Commit {
                stamp: (600, 0x200, 0x220),
                changes: &TWO_UNNAMED,
                rows: &[FIRST, SECOND, UNNAMED_THIRD, UNNAMED_FOURTH],
            },
        ],
        end: CLASH,
        ..PLAIN
    },
    OF_MOVED,
    Case {
        name: "a truncate rolled back, and then a clash",
        parts: EMPTIED,
        commits: &[
            FIRST_COMMIT,
            Commit {
                stamp: (700, 0x200, 0x220),
                changes: &[],
                rows: BEGUN,
            },
        ],
        end: CLASH,
        ..PLAIN
    },
    Case {
        name: "changes of each kind over tables with rows",
        before: P,
        start: BEGUN,
        parts: &[&[
            Message::Begin(600, 0x200),
            LEARNT,
            Message::Other(b'T', 0, WHOLE),
            Message::Insert(0, THIRD),
            Message::Commit(0x200, 0x220),
            Message::Start(700, true),
            DELETE_THIRD,
            Message::Insert(700, SECOND),
            Message::Stop,
            Message::StreamCommit(700, 0x300, 0x320),
        ]],
        commits: &[
            Commit {
                stamp: (600, 0x200, 0x220),
                changes: &[Message::Other(b'T', 0, WHOLE), Message::Insert(0, THIRD)],
                rows: &[THIRD],
            },
            Commit {
                stamp: (700, 0x300, 0x320),
                changes: &[DELETE_THIRD, Message::Insert(700, SECOND)],
                rows: &[SECOND],
            },
        ],
        ..PLAIN
    },
];

/// The streams that are cut at each byte.
pub static CUT: [Case<'static>; 4] = [
    OF_ROLLED_BACK,
    OF_LET_GO,
    OF_MOVED,
    Case {
        name: "work that is still open at CopyDone",
        parts: STILL_OPEN,
        commits: &[FIRST_COMMIT],
        ..PLAIN
    },
];
