// How streams come: in pieces, cut short, from a source or to a sink that fails; and catalogs that are refused.
use crate::tests::runs::{CONFIG, framed, printed, printed_from, push_frame, push_frames, spelled};
use leader::{Config, StillClock};
use pgapply_command::execute::{Ended, execute};
use std::alloc::Global;
use std::ops::Range;
use std::random::RandomSource;
use std::sync::Wait;
use std::test::Fail;
use std::thread::Threads;
use testing::accounts::{CATALOG, thousand_rows};
use testing::asserts::{assert_holds, assert_same};
use testing::devices::Pieces;

/// B(900,0/100), the relation, I(1,a,n) and C(0/100,0/120).
pub static ONE_INSERT: [&str; 4] = [
    "420000000000000100000000000000000000000384",
    "52000040017075626c6963006163636f756e7473006400030169640000000017ffffffff00656d61696c0000000019ffffffff006e6f74650000000019ffffffff",
    "49000040014e000374000000013174000000016174000000016e",
    "4300000000000000010000000000000001200000000000000000",
];

const REPORT: &str = "table public.accounts 1\n1|a|n\nposition 0/120\nend 0 Clean\n";

/// The status update after the commit, with the clock at 5.
pub const UPDATE: &str =
    "6400000026720000000000000120000000000000012000000000000001200000000000000005\
    00";

/// A keepalive at 0/200 that wants a reply, and the status update that answers it.
pub const KEEPALIVE: &str = "64000000166b0000000000000200000000000000000001";

pub const REPLY: &str =
    "6400000026720000000000000200000000000000012000000000000001200000000000000005\
    00";

/// S(700,1), the relation, 700:I(1,a,n), E and c(700,0/200,0/220).
static STREAMED: [&str; 5] = [
    "53000002bc01",
    "52000002bc000040017075626c6963006163636f756e7473006400030169640000000017ffffffff00656d61696c0000000019ffffffff006e6f74650000000019ffffffff",
    "49000002bc000040014e000374000000013174000000016174000000016e",
    "45",
    "63000002bc00000000000000020000000000000002200000000000000000",
];

/// The same, each payload in an XLogData frame.
const STREAMED_FRAMES: &str =
    "64000000237700000000000000000000000000000000000000000000000053000002bc0164000000627700000000000000000000000000000000000000000000000052000002bc000040017075626c6963006163636f756e7473006400030169640000000017ffffffff00656d61696c0000000019ffffffff006e6f74650000000019ffffffff640000003b7700000000000000000000000000000000000000000000000049000002bc000040014e000374000000013174000000016174000000016e640000001e7700000000000000000000000000000000000000000000000045640000003b7700000000000000000000000000000000000000000000000063000002bc00000000000000020000000000000002200000000000000000";

#[test]
fn pieces_of_each_length(rt: HostRuntime) -> Result<(), Fail> {
    let stream = framed(rt.alloc(), &ONE_INSERT)?;
    assert_same(stream.len(), 258, "stream")?;
    for size in 1..=stream.len() {
        let (ended, out, _) = printed(&rt, rt.alloc(), stream.as_slice(), size, &CONFIG);
        assert_same(out.as_slice(), REPORT.as_bytes(), size)?;
        assert_same(ended.status, 0, "status")?;
    }
    Ok(())
}

/// The frames of these payloads, and a keepalive that wants a reply between them.
fn with_keepalive(alloc: Global, before: &[&str], behind: &[&str]) -> Result<Vec<u8>, Fail> {
    let mut stream = framed(alloc, before)?;
    let keepalive = hex::decode(alloc, KEEPALIVE)?;
    stream.extend_from_slice(keepalive.as_slice())?;
    push_frames(&mut stream, alloc, behind)?;
    Ok(stream)
}

/// This is printed of a stream, with this status, and these updates are written back.
fn assert_printed<R: Threads + Wait + RandomSource + Sync>(
    rt: &R,
    alloc: Global,
    stream: &[u8],
    (report, status): (&str, u8),
    updates: &[&str],
) -> Result<(), Fail> {
    let updates = spelled(alloc, updates)?;
    let (ended, out, written) = printed(rt, alloc, stream, usize::MAX, &CONFIG);
    assert_same(out.as_slice(), report.as_bytes(), "out")?;
    assert_same(ended.status, status, "status")?;
    assert_same(written.as_slice(), updates.as_slice(), "written")
}

#[test]
fn updates_after_a_commit_and_a_keepalive(rt: HostRuntime) -> Result<(), Fail> {
    let stream = with_keepalive(rt.alloc(), &ONE_INSERT, &[])?;
    assert_printed(
        &rt,
        rt.alloc(),
        stream.as_slice(),
        (REPORT, 0),
        &[UPDATE, REPLY],
    )
}

/// The update that answers a keepalive at 0/200 inside of a block, and the one after the commit at 0/220.
const REPLY_IN_BLOCK: &str =
    "640000002672000000000000020000000000000000000000000000000000000000000000000500";

const UPDATE_AT_220: &str =
    "640000002672000000000000022000000000000002200000000000000220000000000000000500";

#[test]
fn a_keepalive_inside_of_a_block(rt: HostRuntime) -> Result<(), Fail> {
    let stream = with_keepalive(rt.alloc(), &STREAMED[..2], &STREAMED[2..])?;
    let report = "table public.accounts 1\n1|a|n\nposition 0/220\nend 0 Clean\n";
    let updates = [REPLY_IN_BLOCK, UPDATE_AT_220];
    assert_printed(&rt, rt.alloc(), stream.as_slice(), (report, 0), &updates)
}

#[test]
fn a_keepalive_behind_a_clash_is_not_answered(rt: HostRuntime) -> Result<(), Fail> {
    // The insert comes a second time.
    let payloads = [ONE_INSERT[0], ONE_INSERT[1], ONE_INSERT[2], ONE_INSERT[2]];
    let stream = with_keepalive(rt.alloc(), &payloads, &[])?;
    let report = "table public.accounts 0\nposition 0/0\nend 5 Unique public.accounts 0\n";
    assert_printed(&rt, rt.alloc(), stream.as_slice(), (report, 3), &[])
}

#[test]
fn work_that_is_open_at_copy_done_is_undone(rt: HostRuntime) -> Result<(), Fail> {
    let begun = framed(rt.alloc(), &ONE_INSERT[..3])?;
    let streamed = framed(rt.alloc(), &STREAMED[..3])?;
    for open in [begun, streamed] {
        let mut stream = open;
        stream.extend_from_slice(b"c\x00\x00\x00\x04")?;
        let (ended, out, written) = printed(
            &rt,
            rt.alloc(),
            stream.as_slice(),
            usize::MAX,
            &CONFIG,
        );
        let want = "table public.accounts 0\nposition 0/0\nend 0 Clean\n";
        assert_same(out.as_slice(), want.as_bytes(), "out")?;
        assert_same(ended.status, 0, "status")?;
        assert_same(written.len(), 0, "written")?;
    }
    Ok(())
}

/// Appends the insert of a row with this key, a null and the text `n` into a block.
fn push_insert(stream: &mut Vec<u8>, alloc: Global, xid: u32, key: u32) -> Result<(), Fail> {
    let text = format!(in alloc; "{key}")?;
    let length = u32::try_from(text.len()).ok().ok_or("a key's length")?;
    let mut payload = Vec::new(alloc);
    payload.push(b'I')?;
    payload.extend_from_slice(&xid.to_be_bytes())?;
    payload.extend_from_slice(b"\x00\x00\x40\x01N\x00\x03t")?;
    payload.extend_from_slice(&length.to_be_bytes())?;
    payload.extend_from_slice(text.as_bytes())?;
    payload.extend_from_slice(b"nt\x00\x00\x00\x01n")?;
    push_frame(stream, payload.as_slice())
}

/// Appends the inserts of rows with these keys.
fn push_inserts(
    stream: &mut Vec<u8>,
    alloc: Global,
    xid: u32,
    keys: Range<u32>,
) -> Result<(), Fail> {
    for key in keys {
        push_insert(stream, alloc, xid, key)?;
    }
    Ok(())
}

/// Two streamed transactions of five hundred inserts each, of which the second commits first.
fn a_thousand_inserts(alloc: Global) -> Result<Vec<u8>, Fail> {
    let mut stream = framed(alloc, &STREAMED[..2])?;
    push_inserts(&mut stream, alloc, 700, 1..501)?;
    push_frames(&mut stream, alloc, &["45", "53000002bd01"])?;
    push_inserts(&mut stream, alloc, 701, 501..1001)?;
    let commits = [
        "45",
        "63000002bd00000000000000020000000000000002200000000000000000",
        "63000002bc00000000000000030000000000000003200000000000000000",
    ];
    push_frames(&mut stream, alloc, &commits)?;
    Ok(stream)
}

#[test]
fn a_thousand_items_of_two_streamed_transactions(rt: HostRuntime) -> Result<(), Fail> {
    let stream = a_thousand_inserts(rt.alloc())?;
    let want = thousand_rows(rt.alloc())?;
    let (ended, out, _) = printed(&rt, rt.alloc(), stream.as_slice(), 4096, &CONFIG);
    assert_same(out.as_slice(), want.as_bytes(), "out")?;
    assert_same(ended.status, 0, "status")
}

/// The update after the commit at 0/220 of a stream whose greatest position is 0/500.
const UPDATE_AT_500: &str =
    "640000002672000000000000050000000000000002200000000000000220000000000000000500";

// The first frame's start is 0/500, and the positions of those after it are 0.
#[test]
fn positions_that_fall(rt: HostRuntime) -> Result<(), Fail> {
    let mut stream = framed(rt.alloc(), &STREAMED)?;
    if let Some(byte) = stream.get_mut(12) {
        *byte = 5;
    }
    let (_, _, written) = printed(&rt, rt.alloc(), stream.as_slice(), usize::MAX, &CONFIG);
    let update = hex::decode(rt.alloc(), UPDATE_AT_500)?;
    assert_same(written.as_slice(), update.as_slice(), "written")
}

/// Whether a frame of the stream ends at this place.
fn is_edge(stream: &[u8], place: usize) -> bool {
    let mut rest = stream;
    let mut at = 0usize;
    for _ in 0..=stream.len() {
        if at >= place {
            return at == place;
        }
        let Some(length) = rest.get(4) else {
            return false;
        };
        let frame = usize::from(*length).saturating_add(1);
        at = at.saturating_add(frame);
        rest = rest.get(frame..).unwrap_or(&[]);
    }
    false
}

#[test]
fn a_streamed_transaction_cut_at_each_byte(rt: HostRuntime) -> Result<(), Fail> {
    let stream = framed(rt.alloc(), &STREAMED)?;
    for cut in 0..=stream.len() {
        let (ended, out, _) = printed(&rt, rt.alloc(), &stream[..cut], usize::MAX, &CONFIG);
        let want = if cut == stream.len() {
            "table public.accounts 1\n1|a|n\nposition 0/220\nend 0 Clean\n"
        } else if is_edge(stream.as_slice(), cut) {
            "table public.accounts 0\nposition 0/0\nend 0 Clean\n"
        } else {
            "table public.accounts 0\nposition 0/0\nend 1 Frame Truncated\n"
        };
        assert_same(out.as_slice(), want.as_bytes(), cut)?;
        assert_same(
            ended.status,
            if is_edge(stream.as_slice(), cut) {
                0
            } else {
                2
            },
            "status",
        )?;
    }
    Ok(())
}

/// A sink that fails at each write.
#[derive(Drop)]
struct Broken {
    failures: u64,
}

impl frames::Sink for Broken {
    ghost use Rattle.std.specs.Prelude.{None, true};

    ghost contents = { λ _. None };

    ghost failures = { λ b. b.failures };

    ghost failed_last = { λ _. true };

    fn write_some(&mut self, _buf: &[u8]) -> Result<usize, frames::Failed> {
        self.failures = self.failures.saturating_add(1);
        Err(frames::Failed)
    }
}

/// What is printed of a stream by devices that fail: the source at this read.
fn printed_by<R: Threads + Wait + RandomSource + Sync>(
    rt: &R,
    alloc: Global,
    stream: &[u8],
    reads_before_failure: u64,
    out: &mut Vec<u8>,
) -> Ended {
    execute(
        rt,
        alloc,
        true,
        &CONFIG,
        CATALOG.as_bytes(),
        Pieces::with_reads(stream, 40, reads_before_failure),
        Broken { failures: 0 },
        StillClock(5),
        out,
    )
}

#[test]
fn devices_that_fail(rt: HostRuntime) -> Result<(), Fail> {
    let stream = framed(rt.alloc(), &ONE_INSERT)?;
    // 258 bytes in pieces of 40: the commit's frame is whole with the seventh.
    for read in 0..7 {
        let mut out = Vec::new(rt.alloc());
        let ended = printed_by(&rt, rt.alloc(), stream.as_slice(), read, &mut out);
        let want = "table public.accounts 0\nposition 0/0\nend 1 Frame Device\n";
        assert_same(out.as_slice(), want.as_bytes(), read)?;
        assert_same(ended.status, 2, "status")?;
    }
    // The commit stands where its update can't be sent.
    let mut out = Vec::new(rt.alloc());
    let ended = printed_by(&rt, rt.alloc(), stream.as_slice(), u64::MAX, &mut out);
    let want = "table public.accounts 1\n1|a|n\nposition 0/120\nend 1 Frame Device\n";
    assert_same(out.as_slice(), want.as_bytes(), "out")?;
    assert_same(ended.status, 2, "status")
}

#[test]
fn catalogs_that_are_refused(rt: HostRuntime) -> Result<(), Fail> {
    let cases: [(&[u8], &str); 9] = [
        (b"\xff", "pgapply: catalog NotToml"),
        (b"[[table]", "pgapply: catalog NotToml"),
        (b"tables = 1\n", "pgapply: catalog UnknownField"),
        (
            b"[[table]]\nnamespace = \"a\"\nname = \"b\"\n[[table.column]]\nname = \"c\"\ntype = \"int\"\n",
            "pgapply: catalog NoPrimaryKey",
        ),
        (
            b"[[table]]\nnamespace = \"a\"\nname = \"b\"\nprimary = [\"c\"]\n[[table.column]]\nname = \"c\"\ntype = \"int\"\n[[table]]\nnamespace = \"a\"\nname = \"b\"\nprimary = [\"c\"]\n[[table.column]]\nname = \"c\"\ntype = \"int\"\n",
            "pgapply: catalog DuplicateTable",
        ),
        (
            b"[[table]]\nnamespace = \"a\"\nname = \"b\"\nprimary = [\"c\"]\n[[table.column]]\nname = \"c\"\ntype = \"int\"\n[[table.column]]\nname = \"c\"\ntype = \"int\"\n",
            "pgapply: catalog DuplicateColumn",
        ),
        (
            b"[[table]]\nnamespace = \"a\"\nname = \"b\"\nprimary = [\"d\"]\n[[table.column]]\nname = \"c\"\ntype = \"int\"\n",
            "pgapply: catalog KeyColumnUnknown",
        ),
        (
            b"[[table]]\nnamespace = \"a\"\nname = \"b\"\nprimary = [\"c\"]\n[[table.column]]\nname = \"c\"\ntype = \"int\"\ndefault = \"x\"\n",
            "pgapply: catalog BadDefault",
        ),
        (
            b"[[table]]\nnamespace = \"a\"\nname = \"b\"\nprimary = [\"c\"]\nunique = [[\"c\"], [\"c\"], [\"c\"], [\"c\"], [\"c\"], [\"c\"], [\"c\"], [\"c\"], [\"c\"], [\"c\"], [\"c\"], [\"c\"], [\"c\"], [\"c\"], [\"c\"], [\"c\"], [\"c\"]]\n[[table.column]]\nname = \"c\"\ntype = \"int\"\n",
            "pgapply: catalog OverLimit",
        ),
    ];
    let config = Config {
        workers: 2,
        ..CONFIG
    };
    for (catalog, line) in &cases {
        let (ended, out, _) = printed_from(&rt, rt.alloc(), catalog, Pieces::new(&[], 1), &config);
        assert_same(ended.line, *line, "line")?;
        assert_same(ended.status, 1, "status")?;
        assert_same(out.len(), 0, "out")?;
    }
    Ok(())
}

// Where memory is refused the run says so, and prints the tables of the commits before or nothing at all.
#[test]
fn a_run_where_memory_is_refused(rt: HostRuntime) -> Result<(), Fail> {
    let Ok(stream) = hex::decode(rt.alloc(), STREAMED_FRAMES) else {
        return Ok(());
    };
    let (ended, out, _) = printed(&rt, rt.alloc(), stream.as_slice(), 64, &CONFIG);
    match ended.status {
        0 => {
            let want = "table public.accounts 1\n1|a|n\nposition 0/220\nend 0 Clean\n";
            assert_same(out.as_slice(), want.as_bytes(), "out")?;
        }
        // Refused to the sink, which keeps the bytes that it is given: the device failed after the commit.
        2 => {
            let want = "table public.accounts 1\n1|a|n\nposition 0/220\nend 1 Frame Device\n";
            assert_same(out.as_slice(), want.as_bytes(), "out")?;
            assert_same(ended.line, "", "line")?;
        }
        // The catalog was read, and memory refused in the run, before or after its commit.
        4 if !out.is_empty() => {
            let none = "table public.accounts 0\nposition 0/0\nend 8 OutOfMemory\n";
            let one = "table public.accounts 1\n1|a|n\nposition 0/220\nend 8 OutOfMemory\n";
            assert_same(ended.line, "", "line")?;
            assert_holds(
                out.as_slice() == none.as_bytes() || out.as_slice() == one.as_bytes(),
                "out",
            )?;
        }
        _ => {
            assert_same(ended.status, 4, "status")?;
            assert_same(ended.line, "pgapply: out of memory", "line")?;
            assert_same(out.len(), 0, "out")?;
        }
    }
    Ok(())
}
