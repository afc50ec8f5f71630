// What of a stream is left out, since a file has it, and whose stream it is.
use super::OrFail;
use super::epochs::read_epoch;
use mirror_source::{Applied, Epochs, Limits, find_applied};
use model::Lsn;
use std::alloc::Global;
use std::test::Fail;
use streams::story::{TOLD, push_all, push_parts, stream_of};
use streams::{Column, Message, Stream};
use testing::accounts::RELATION;
use testing::asserts::{assert_holds, assert_same};
use testing::devices::Pieces;

/// All in one epoch.
const WHOLE: Limits = Limits {
    commits: u64::MAX,
    bytes: u64::MAX,
    most: u64::MAX,
};

/// Where a file is, and what of the stream is handed on: these messages, and the parts from one on.
/// The relations that are told in what is left out stand outside of it.
struct Case {
    position: Lsn,
    front: &'static [Message],
    from: usize,
}

static CASES: [Case; 4] = [
    Case {
        position: 0x140,
        front: &[TOLD],
        from: 1,
    },
    Case {
        position: 0x220,
        front: &[
            TOLD,
            Message::Keepalive(0x140, true),
            Message::Start(700, true),
            Message::Other(b'R', 700, RELATION),
            Message::Insert(
                700,
                (Column::Number(4), Column::Text("d"), Column::Text("x")),
            ),
            Message::Insert(711, (Column::Number(5), Column::Text("e"), Column::Null)),
            Message::Stop,
        ],
        from: 2,
    },
    Case {
        position: 0x320,
        front: &[
            TOLD,
            Message::Keepalive(0x140, true),
            TOLD,
            Message::Keepalive(0x220, true),
        ],
        from: 3,
    },
    Case {
        position: 0x720,
        front: &[
            TOLD,
            Message::Keepalive(0x140, true),
            TOLD,
            Message::Keepalive(0x220, true),
            Message::Keepalive(0x320, true),
            Message::Keepalive(0x420, true),
            Message::Keepalive(0x520, true),
            Message::Keepalive(0x620, true),
        ],
        from: 7,
    },
];

/// What is handed on of a stream behind a position.
fn handed_on(alloc: Global, bytes: &[u8], position: Lsn) -> Result<Vec<u8>, Fail> {
    let xids = find_applied(alloc, Pieces::new(bytes, 55), position)?;
    let applied = Applied::new(position, xids);
    let mut epochs = Epochs::new(alloc, Pieces::new(bytes, 99), applied, WHOLE)?;
    Ok(read_epoch(alloc, &mut epochs)?)
}

#[test]
fn what_a_file_has_is_left_out(rt: HostRuntime) {
    let stream = stream_of(rt.alloc(), 7).or_fail(&rt);
    for case in &CASES {
        let read = handed_on(rt.alloc(), stream.bytes(), case.position).or_fail(&rt);
        let mut want = Stream::new(rt.alloc());
        push_all(&mut want, case.front).or_fail(&rt);
        push_parts(&mut want, case.from, 8).or_fail(&rt);
        assert_same(read.as_slice(), want.bytes(), case.position).or_fail(&rt);
    }
}

/// A copy of rows as `publisher` puts it, whose commit ends where it begins, and the first commit of the
/// slot, which may begin there.
const COPIED: [Message; 4] = [
    Message::Begin(2, 0x100),
    TOLD,
    Message::Insert(0, (Column::Number(1), Column::Text("a"), Column::Null)),
    Message::Commit(0x100, 0x100),
];

const BEHIND: [Message; 3] = [
    Message::Begin(500, 0x100),
    Message::Insert(0, (Column::Number(2), Column::Text("b"), Column::Null)),
    Message::Commit(0x100, 0x140),
];

/// Where a file is, and what of these is handed on.
static COPIES: [(Lsn, &[Message], &[Message]); 4] = [
    (0, &COPIED, &BEHIND),
    (0xFF, &COPIED, &BEHIND),
    (0x100, &[TOLD], &BEHIND),
    (0x140, &[TOLD], &[]),
];

#[test]
fn a_copy_that_a_file_ends_with_is_left_out(rt: HostRuntime) {
    let mut stream = Stream::new(rt.alloc());
    push_all(&mut stream, &COPIED).or_fail(&rt);
    push_all(&mut stream, &BEHIND).or_fail(&rt);
    for (position, front, rest) in &COPIES {
        let read = handed_on(rt.alloc(), stream.bytes(), *position).or_fail(&rt);
        let mut want = Stream::new(rt.alloc());
        push_all(&mut want, *front).or_fail(&rt);
        push_all(&mut want, *rest).or_fail(&rt);
        assert_same(read.as_slice(), want.bytes(), *position).or_fail(&rt);
    }
}

/// A notice as `publisher` puts it at the front, and one of another kind.
const OF_SYSTEM: &[u8] =
    b"N\0\0\0\x45SNOTICE\0C00000\0Mpublication \"p\" through slot \"s\" of system 7421\0\0";

const OF_ELSE: &[u8] = b"N\0\0\0\x1bSNOTICE\0C00000\0Mhello\0\0";

/// A front of a stream, and whose stream that says it is.
static FRONTS: [(&[Message], Option<&str>); 4] = [
    (&[Message::Raw(OF_SYSTEM)], Some("7421")),
    (&[Message::Raw(OF_ELSE)], None),
    (&[Message::Keepalive(0x100, false)], None),
    (&[], None),
];

#[test]
fn whose_stream_it_is(rt: HostRuntime) {
    for (front, want) in &FRONTS {
        let mut stream = Stream::new(rt.alloc());
        push_all(&mut stream, *front).or_fail(&rt);
        push_parts(&mut stream, 0, 1).or_fail(&rt);
        let source = Pieces::new(stream.bytes(), 30);
        let applied = Applied::new(0, Vec::new(rt.alloc()));
        let mut epochs = Epochs::new(rt.alloc(), source, applied, WHOLE).or_fail(&rt);
        let system = epochs.system().or_fail(&rt);
        assert_holds(system.as_ref().map(|text| text.as_str()) == *want, "system").or_fail(&rt);
        let read = read_epoch(rt.alloc(), &mut epochs).or_fail(&rt);
        assert_same(read.as_slice(), stream.bytes(), "stream").or_fail(&rt);
    }
}
