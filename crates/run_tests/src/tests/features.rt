// What a real publisher sends beside changes: relations and types that first name a subtransaction and
// come again, empty blocks, rollbacks of what was never named, positions that fall, keepalives inside of
// a block, notices, origins, logged messages, whole old rows, columns that are not sent, options of a
// truncate, and work that is open at the end.
use super::runs::{reports, same_by_all};
use super::worked::{FIRST, NOTE};
use leader::OutOfMemory;
use std::alloc::Global;
use streams::{Column, Message, Stream, Tuple, WHOLE, append};
use testing::accounts::RELATION;

const ORIGIN: &[u8] = b"\x00\x00\x00\x00\x00\x00\x00\x00elsewhere\x00";

const TYPE: &[u8] = b"\x00\x00\x40\x00\x00number\x00";

// Any bytes that a program of the publisher logged, inside of a transaction and outside.
const LOGGED: &[u8] = b"\x01\x00\x00\x00\x00\x00\x00\x00\x00log\x00\x00\x00\x00\x02\xff\x00";

const LOGGED_OUTSIDE: &[u8] =
    b"\x00\x00\x00\x00\x00\x00\x00\x00\x00log\x00\x00\x00\x00\x02\xff\x00";

// All rows of the table and of those that refer to it, and its numbers begin anew.
const CASCADING: &[u8] = b"\x00\x00\x00\x01\x03\x00\x00\x40\x01";

const NOTICE: &[u8] = b"N\x00\x00\x00\x06hi";

const A: Column = Column::Text("a");

const FIFTH: Tuple = (Column::Number(5), Column::Text("e"), NOTE);

// An old tuple that has the key alone.
const SECOND: Tuple = (Column::Number(2), Column::Null, Column::Null);

// Two blocks of two transactions, among them what a publisher sends on its own account.
const BLOCKS: &[Message] = &[
    Message::At(0x500),
    Message::Begin(600, 0x100),
    Message::Other(b'O', 0, ORIGIN),
    Message::Other(b'R', 0, RELATION),
    Message::Insert(0, FIRST),
    Message::Insert(0, (Column::Number(2), Column::Text("b"), NOTE)),
    Message::Commit(0x100, 0x140),
    Message::Keepalive(0x150, true),
    Message::At(0x300),
    Message::Start(700, true),
    Message::Other(b'R', 711, RELATION),
    Message::Other(b'Y', 712, TYPE),
    Message::Stop,
    Message::Start(700, false),
    Message::Stop,
    Message::Raw(NOTICE),
    Message::Start(701, true),
    Message::Other(b'Y', 701, TYPE),
    Message::Insert(701, FIFTH),
    Message::Keepalive(0x310, true),
    Message::Stop,
    Message::Abort(700, 799),
    Message::Abort(700, 798),
];

// Subtransactions that are rolled back, and others.
const SUBTRANSACTIONS: &[Message] = &[
    Message::Start(700, false),
    Message::Insert(712, (Column::Number(3), Column::Text("c"), NOTE)),
    Message::Other(b'M', 712, LOGGED),
    Message::UpdateAt(713, b'O', FIRST, (Column::Number(1), Column::Kept, A)),
    Message::UpdateAt(713, b'K', SECOND, (Column::Number(4), Column::Kept, A)),
    Message::Stop,
    Message::Other(b'M', 0, LOGGED_OUTSIDE),
    Message::Abort(700, 713),
    Message::Start(700, false),
    Message::Other(b'R', 714, RELATION),
    Message::Other(b'T', 714, CASCADING),
    Message::Insert(714, (Column::Number(9), A, NOTE)),
    Message::Stop,
    Message::Abort(700, 714),
    Message::Start(700, false),
    Message::DeleteAt(700, b'K', SECOND),
    Message::Insert(715, (Column::Number(6), Column::Null, NOTE)),
    Message::Stop,
];

// Commits, and what is still open at the end.
const COMMITS: &[Message] = &[
    Message::StreamCommit(701, 0x200, 0x220),
    Message::StreamCommit(700, 0x300, 0x320),
    Message::At(0),
    Message::Begin(601, 0x400),
    Message::Other(b'R', 0, RELATION),
    Message::DeleteAt(0, b'O', FIFTH),
    Message::Insert(0, (Column::Number(7), Column::Null, NOTE)),
    Message::Commit(0x400, 0x420),
    Message::Start(702, true),
    Message::Insert(702, (Column::Number(8), Column::Text("h"), NOTE)),
    Message::Stop,
    Message::Keepalive(0x450, false),
    Message::Raw(NOTICE),
];

pub const FEATURES: &[&[Message]] = &[BLOCKS, SUBTRANSACTIONS, COMMITS];

const REPORT: &str =
    "table public.accounts 4\n1|a|n\n3|c|n\n6|\\N|n\n7|\\N|n\nposition 0/420\nend 0 Clean\n";

// The position in each update: two keepalives want a reply. The log was seen up to 0/500.
const POSITIONS: [u64; 6] = [0x140, 0x140, 0x140, 0x220, 0x320, 0x420];

// What is sent: an update after each commit, and after each keepalive that wants a reply.
fn updates(alloc: Global) -> Result<Vec<u8>, OutOfMemory> {
    let mut updates = Vec::new(alloc);
    let seen = 0x500u64.to_be_bytes();
    let clock = 5u64.to_be_bytes();
    for position in POSITIONS {
        let applied = position.to_be_bytes();
        append(
            &mut updates,
            &[
                b"d\x00\x00\x00\x26r",
                &seen,
                &applied,
                &applied,
                &clock,
                b"\x00",
            ],
        )?;
    }
    Ok(updates)
}

#[test]
fn what_a_real_publisher_sends(rt: HostRuntime) -> Result<(), OutOfMemory> {
    let stream = Stream::of(rt.alloc(), FEATURES)?;
    let want = updates(rt.alloc())?;
    let ran = same_by_all(&rt, rt.alloc(), stream.bytes(), 10, "a real publisher")?;
    reports(&rt, &ran, REPORT.as_bytes(), "a real publisher");
    assert!(rt; ran.sent.as_slice() == want.as_slice());
    Ok(())
}
