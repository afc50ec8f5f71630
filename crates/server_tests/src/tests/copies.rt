// What is made of rows that are there as a slot is made, and of a file that an earlier capture left.
use super::OrFail;
use super::script::{Behind, Message, connect, say, say_row, spell};
use server::copy::copy_rows;
use server::fault::Fault;
use server::kept::{aborts, read_kept};
use server::relay::{Output, Relayed};
use server::report::read_report;
use server::shown::Shown;
use std::alloc::Global;
use std::test::Fail;
use testing::asserts::{assert_holds, assert_same};

/// Keeps all frames.
#[derive(Drop)]
struct Frames<'a>(&'a mut Vec<u8>);

impl Output for Frames<'_> {
    fn put(&mut self, frames: &[u8]) -> Result<(), Fault> {
        self.0.extend_from_slice(frames)?;
        Ok(())
    }

    fn tell(&mut self, _put: &Relayed, _due: bool, _updates: &mut Vec<u8>) -> Result<bool, Fault> {
        Ok(true)
    }

    fn confirmed(&self) -> u64 {
        0
    }
}

/// The answers to one question after another: the tables, the columns of the first, its rows, those of the
/// second, whose rows are filtered, and the end of the transaction. Rows of a copy end in a line feed.
static ANSWERS: [(&[&str], &[&[u8]]); 6] = [
    (
        &["7|public|accounts|d|f|\\N", "9|shop|odd \"t\"|f|t|(id > 5)"],
        &[],
    ),
    (&["id|23|4294967295|t", "note|1043|13|f"], &[]),
    (&[], &[b"1\tab\\tc\n", b"2\t\\N\n"]),
    (&["id|25|4294967295|t"], &[]),
    (&[], &[b"\\\\N\\b\\f\\v\\r\\n\\.\n"]),
    (&[], &[]),
];

/// The copy of these as the manual spells it, by Python's `struct`: a transaction that ends at 16.
static COPIED: [Message<'static>; 7] = [
    (
        b'd',
        b"w\x00\x00\x00\x00\x00\x00\x00\x10\x00\x00\x00\x00\x00\x00\x00\x10\x00\x00\x00\x00\x00\x00\x00\x00B\x00\x00\x00\x00\x00\x00\x00\x10\x00\x00\x00\x00\x00\x00\x00\x00\x00\x00\x00\x02",
    ),
    (
        b'd',
        b"w\x00\x00\x00\x00\x00\x00\x00\x10\x00\x00\x00\x00\x00\x00\x00\x10\x00\x00\x00\x00\x00\x00\x00\x00R\x00\x00\x00\x07public\x00accounts\x00d\x00\x02\x01id\x00\x00\x00\x00\x17\xff\xff\xff\xff\x00note\x00\x00\x00\x04\x13\x00\x00\x00\x0d",
    ),
    (
        b'd',
        b"w\x00\x00\x00\x00\x00\x00\x00\x10\x00\x00\x00\x00\x00\x00\x00\x10\x00\x00\x00\x00\x00\x00\x00\x00I\x00\x00\x00\x07N\x00\x02t\x00\x00\x00\x011t\x00\x00\x00\x04ab\x09c",
    ),
    (
        b'd',
        b"w\x00\x00\x00\x00\x00\x00\x00\x10\x00\x00\x00\x00\x00\x00\x00\x10\x00\x00\x00\x00\x00\x00\x00\x00I\x00\x00\x00\x07N\x00\x02t\x00\x00\x00\x012n",
    ),
    (
        b'd',
        b"w\x00\x00\x00\x00\x00\x00\x00\x10\x00\x00\x00\x00\x00\x00\x00\x10\x00\x00\x00\x00\x00\x00\x00\x00R\x00\x00\x00\x09shop\x00odd \"t\"\x00f\x00\x01\x01id\x00\x00\x00\x00\x19\xff\xff\xff\xff",
    ),
    (
        b'd',
        b"w\x00\x00\x00\x00\x00\x00\x00\x10\x00\x00\x00\x00\x00\x00\x00\x10\x00\x00\x00\x00\x00\x00\x00\x00I\x00\x00\x00\x09N\x00\x01t\x00\x00\x00\x08\\N\x08\x0c\x0b\x0d\x0a.",
    ),
    (
        b'd',
        b"w\x00\x00\x00\x00\x00\x00\x00\x10\x00\x00\x00\x00\x00\x00\x00\x10\x00\x00\x00\x00\x00\x00\x00\x00C\x00\x00\x00\x00\x00\x00\x00\x00\x10\x00\x00\x00\x00\x00\x00\x00\x10\x00\x00\x00\x00\x00\x00\x00\x00",
    ),
];

/// What copies the rows.
static COPIES: [&str; 2] = [
    "COPY (SELECT \"id\", \"note\" FROM ONLY \"public\".\"accounts\") TO STDOUT\0",
    "COPY (SELECT \"id\" FROM \"shop\".\"odd \"\"t\"\"\" WHERE (id > 5)) TO STDOUT\0",
];

fn spell_answers(alloc: Global) -> Result<Vec<u8>, Fail> {
    let mut input = Vec::new(alloc);
    for (rows, lines) in &ANSWERS {
        for row in *rows {
            say_row(&mut input, *row)?;
        }
        for line in *lines {
            say(&mut input, b'd', *line)?;
        }
        say(&mut input, b'C', b"\0")?;
        say(&mut input, b'Z', b"I")?;
    }
    Ok(input)
}

/// Copies the rows of a server that answers so. What it was asked goes to `sent`, the frames to `put`.
fn copied(alloc: Global, sent: &mut Vec<u8>, put: &mut Vec<u8>) -> Result<Relayed, Fail> {
    let input = spell_answers(alloc)?;
    let mut relayed = Relayed::NOTHING;
    let mut connection = connect(input.as_slice(), 50, Behind::Close, sent)?;
    copy_rows(&mut connection, "p", 16, &mut Frames(put), &mut relayed)?;
    Ok(relayed)
}

fn assert_copied(alloc: Global, put: &[u8], relayed: Relayed) -> Result<(), Fail> {
    let want = spell(alloc, &[&COPIED])?;
    assert_same(put, want.as_slice(), "copied")?;
    let all = Relayed {
        frames: COPIED.len() as u64,
        bytes: want.len() as u64,
        position: 16,
        committed: 16,
    };
    assert_same(relayed, all, "relayed")
}

fn assert_asked(alloc: Global, sent: &[u8]) -> Result<(), Fail> {
    let asked = String::from_utf8_lossy(alloc, sent)?;
    for copy in &COPIES {
        assert_holds(asked.as_str().find(*copy).is_some(), *copy)?;
    }
    Ok(())
}

#[test]
fn rows_that_are_there_are_a_transaction(rt: HostRuntime) {
    let mut sent = Vec::new(rt.alloc());
    let mut put = Vec::new(rt.alloc());
    let relayed = copied(rt.alloc(), &mut sent, &mut put).or_fail(&rt);
    assert_copied(rt.alloc(), put.as_slice(), relayed).or_fail(&rt);
    assert_asked(rt.alloc(), sent.as_slice()).or_fail(&rt);
}

/// What a captured file has behind its title: a transaction, and streamed ones, of which one commits, one
/// aborts, two are open at the end, and the last of these in a block.
static CAPTURED: [Message<'static>; 17] = [
    (
        b'd',
        b"w\x00\x00\x00\x00\x00\x00\x00\x10\x00\x00\x00\x00\x00\x00\x00\x10\x00\x00\x00\x00\x00\x00\x00\x00B\x00\x00\x00\x00\x00\x00\x000\x00\x00\x00\x00\x00\x00\x00\x00\x00\x00\x02\xbc",
    ),
    (
        b'd',
        b"w\x00\x00\x00\x00\x00\x00\x00 \x00\x00\x00\x00\x00\x00\x00 \x00\x00\x00\x00\x00\x00\x00\x00I",
    ),
    (
        b'd',
        b"w\x00\x00\x00\x00\x00\x00\x00@\x00\x00\x00\x00\x00\x00\x00@\x00\x00\x00\x00\x00\x00\x00\x00C\x00\x00\x00\x00\x00\x00\x00\x000\x00\x00\x00\x00\x00\x00\x00@\x00\x00\x00\x00\x00\x00\x00\x00",
    ),
    (
        b'd',
        b"w\x00\x00\x00\x00\x00\x00\x00H\x00\x00\x00\x00\x00\x00\x00H\x00\x00\x00\x00\x00\x00\x00\x00S\x00\x00\x02\xbd\x01",
    ),
    (
        b'd',
        b"w\x00\x00\x00\x00\x00\x00\x00H\x00\x00\x00\x00\x00\x00\x00H\x00\x00\x00\x00\x00\x00\x00\x00I",
    ),
    (
        b'd',
        b"w\x00\x00\x00\x00\x00\x00\x00P\x00\x00\x00\x00\x00\x00\x00P\x00\x00\x00\x00\x00\x00\x00\x00E",
    ),
    (
        b'd',
        b"w\x00\x00\x00\x00\x00\x00\x00X\x00\x00\x00\x00\x00\x00\x00X\x00\x00\x00\x00\x00\x00\x00\x00S\x00\x00\x02\xbe\x01",
    ),
    (
        b'd',
        b"w\x00\x00\x00\x00\x00\x00\x00X\x00\x00\x00\x00\x00\x00\x00X\x00\x00\x00\x00\x00\x00\x00\x00E",
    ),
    (
        b'd',
        b"w\x00\x00\x00\x00\x00\x00\x00`\x00\x00\x00\x00\x00\x00\x00`\x00\x00\x00\x00\x00\x00\x00\x00A\x00\x00\x02\xbd\x00\x00\x02\xc1\x00\x00\x00\x00\x00\x00\x00\x00\x00\x00\x00\x00\x00\x00\x00\x00",
    ),
    (
        b'd',
        b"w\x00\x00\x00\x00\x00\x00\x00p\x00\x00\x00\x00\x00\x00\x00p\x00\x00\x00\x00\x00\x00\x00\x00c\x00\x00\x02\xbd\x00\x00\x00\x00\x00\x00\x00\x00h\x00\x00\x00\x00\x00\x00\x00p\x00\x00\x00\x00\x00\x00\x00\x00",
    ),
    (
        b'd',
        b"w\x00\x00\x00\x00\x00\x00\x00q\x00\x00\x00\x00\x00\x00\x00q\x00\x00\x00\x00\x00\x00\x00\x00S\x00\x00\x02\xbe\x00",
    ),
    (
        b'd',
        b"w\x00\x00\x00\x00\x00\x00\x00r\x00\x00\x00\x00\x00\x00\x00r\x00\x00\x00\x00\x00\x00\x00\x00E",
    ),
    (
        b'd',
        b"w\x00\x00\x00\x00\x00\x00\x00s\x00\x00\x00\x00\x00\x00\x00s\x00\x00\x00\x00\x00\x00\x00\x00S\x00\x00\x02\xbf\x01",
    ),
    (
        b'd',
        b"w\x00\x00\x00\x00\x00\x00\x00t\x00\x00\x00\x00\x00\x00\x00t\x00\x00\x00\x00\x00\x00\x00\x00E",
    ),
    (
        b'd',
        b"w\x00\x00\x00\x00\x00\x00\x00u\x00\x00\x00\x00\x00\x00\x00u\x00\x00\x00\x00\x00\x00\x00\x00A\x00\x00\x02\xbe\x00\x00\x02\xbe\x00\x00\x00\x00\x00\x00\x00\x00\x00\x00\x00\x00\x00\x00\x00\x00",
    ),
    (
        b'd',
        b"w\x00\x00\x00\x00\x00\x00\x00v\x00\x00\x00\x00\x00\x00\x00v\x00\x00\x00\x00\x00\x00\x00\x00S\x00\x00\x02\xc0\x01",
    ),
    (
        b'd',
        b"w\x00\x00\x00\x00\x00\x00\x00w\x00\x00\x00\x00\x00\x00\x00w\x00\x00\x00\x00\x00\x00\x00\x00I",
    ),
];

const TITLE: &[u8] = b"N\0\0\0\x05\0";

/// Where what can be kept ends, and what is open there.
static EDGES: [(usize, &[u32], u64); 9] = [
    (6, &[], 0),
    (144, &[], 64),
    (242, &[701], 64),
    (309, &[701, 702], 64),
    (364, &[701, 702], 64),
    (424, &[702], 112),
    (491, &[702], 112),
    (558, &[702, 703], 112),
    (613, &[703], 112),
];

/// The last of these edges within so many bytes.
fn edge_at(count: usize) -> (usize, &'static [u32], u64) {
    let mut last = EDGES[0];
    for edge in &EDGES {
        if edge.0 <= count {
            last = *edge;
        }
    }
    last
}

/// The title, and these messages.
fn captured(alloc: Global) -> Result<Vec<u8>, Fail> {
    let mut file = TITLE.to_vec(alloc)?;
    file.extend_from_slice(spell(alloc, &[&CAPTURED])?.as_slice())?;
    Ok(file)
}

/// Asserts that a file is kept up to its last edge.
fn assert_kept(alloc: Global, file: &[u8]) -> Result<(), Fail> {
    let (kept, is_copied) = read_kept(alloc, file, TITLE, b"")?;
    let (length, open, committed) = edge_at(file.len());
    assert_same(kept.length, length as u64, file.len())?;
    assert_same(kept.open.as_slice(), open, file.len())?;
    assert_same((kept.committed, is_copied), (committed, false), file.len())
}

/// Asserts that nothing is kept of what stands behind the last edge.
fn assert_tail(alloc: Global, file: &[u8], tail: &[u8]) -> Result<(), Fail> {
    let mut longer = file.to_vec(alloc)?;
    longer.extend_from_slice(tail)?;
    let (kept, is_copied) = read_kept(alloc, longer.as_slice(), b"", TITLE)?;
    let last = EDGES[EDGES.len() - 1].0 as u64;
    assert_same((kept.length, is_copied), (last, true), tail.len())
}

#[test]
fn a_file_that_is_cut_anywhere_is_kept_to_an_edge(rt: HostRuntime) {
    let file = captured(rt.alloc()).or_fail(&rt);
    for count in TITLE.len()..=file.len() {
        assert_kept(rt.alloc(), file.as_slice().get(..count).unwrap_or(&[])).or_fail(&rt);
    }
    for tail in &TAILS {
        assert_tail(rt.alloc(), file.as_slice(), *tail).or_fail(&rt);
    }
}

/// What isn't kept: what stands behind the end of a stream, what no server sends, and what a machine that went
/// down may leave.
static TAILS: [&[u8]; 3] = [
    b"c\0\0\0\x04N\0\0\0\x05\0",
    b"Q\0\0\0\x05\0N\0\0\0\x05\0",
    b"\0\0\0\0\0\0N\0\0\0\x05\0",
];

/// Files that are of something else.
static OTHERS: [&[u8]; 4] = [b"", b"N\0\0\0\x06\0\0", b"d\0\0\0\x16k", b"[[table]]\n"];

#[test]
fn a_file_of_something_else_is_refused(rt: HostRuntime) -> Result<(), Fail> {
    for (case, file) in OTHERS.iter().enumerate() {
        match read_kept(rt.alloc(), *file, TITLE, b"") {
            Err(Fault::OtherCapture) => {}
            _ => return Err(Fail::new(case)),
        }
    }
    Ok(())
}

/// A Stream Abort of transaction 702 at 119, by Python's `struct`.
const ABORT: Message<'static> = (
    b'd',
    b"w\x00\x00\x00\x00\x00\x00\x00w\x00\x00\x00\x00\x00\x00\x00w\x00\x00\x00\x00\x00\x00\x00\x00A\x00\x00\x02\xbe\x00\x00\x02\xbe\x00\x00\x00\x00\x00\x00\x00w\x00\x00\x00\x00\x00\x00\x00\x00",
);

#[test]
fn what_is_open_is_aborted(rt: HostRuntime) {
    let frames = aborts(rt.alloc(), &[702], 119).or_fail(&rt);
    let want = spell(rt.alloc(), &[&[ABORT]]).or_fail(&rt);
    assert_same(frames.as_slice(), want.as_slice(), "aborts").or_fail(&rt);
}

#[test]
fn what_a_terminal_would_obey_is_spelled(rt: HostRuntime) {
    let text = format!(in rt.alloc(); "{}", Shown("a\u{1b}[31m\n\u{9b}\u{202e}\u{e4}\"'")).or_fail(
        &rt,
    );
    assert_same(
        text.as_str(),
        "a\\u001B[31m\\u000A\\u009B\\u202E\u{e4}\"'",
        "shown",
    )
    .or_fail(&rt);
    let report = read_report(rt.alloc(), b"S\x1b\0C2800\x0a\0M\x1b]0;owned\x07\0\0").or_fail(&rt);
    let fault = format!(in rt.alloc(); "{}", Fault::Server(report)).or_fail(&rt);
    assert_same(
        fault.as_str(),
        "Server: \\u001B 2800\\u000A: \\u001B]0;owned\\u0007",
        "report",
    )
    .or_fail(&rt);
}
