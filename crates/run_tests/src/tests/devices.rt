// Runs by workers over devices that fail. Each read fails in turn, and each write: they end as the run
// without workers does, whose contract says how. A sink takes a part of what it is given, and fails; and a
// connection fails at each read.
use super::commits::FIRST_COMMIT;
use super::features::FEATURES;
use super::left::{Commit, assert_left, left};
use super::runs::{Plan, Ran, config_of, is_same, run_by, run_unwatched};
use super::worked::{FIRST, ONE_INSERT, P, ROWS, SECOND, THIRD, UNNAMED_FOURTH};
use leader::{End, FrameFault, OutOfMemory, ReadSource, open_gates};
use std::alloc::Global;
use std::io;
use std::io::{ErrorKind, Read, Write};
use std::net::{TcpListener, TcpStream};
use std::process::Abort;
use std::rt::Clock as Host;
use std::sync::Wait;
use std::test::Fail;
use std::thread::Threads;
use streams::{Message, Stream, Tuple};
use tcp::Retried;
use testing::asserts::assert_same;

const FAILED: End = End::Frame(FrameFault::Device);

// The run by two workers is that without one. Answers whether the device failed.
fn fails_alike<R: Threads + Wait + Abort + Sync + Host>(
    rt: &R,
    alloc: Global,
    mut plan: Plan<'_>,
    name: &str,
) -> Result<bool, OutOfMemory> {
    let alone = run_by(rt, alloc, &plan, 0)?;
    plan.config = config_of(2, 1);
    let ran = run_by(rt, alloc, &plan, plan.reads ^ plan.writes)?;
    is_same(rt, &ran, &alone, name);
    Ok(ran.outcome.end == FAILED)
}

// How many calls of a device there are: each fails in turn, from the first on, until a run has none that
// does.
fn count_calls<R: Threads + Wait + Abort + Sync + Host>(
    rt: &R,
    alloc: Global,
    stream: &[u8],
    are_reads: bool,
    name: &str,
) -> Result<u64, OutOfMemory> {
    for call in 0..1000u64 {
        let mut plan = Plan::new(stream, config_of(0, 1));
        plan.size = 64;
        if are_reads {
            plan.reads = call;
        } else {
            plan.writes = call;
        }
        if !fails_alike(rt, alloc, plan, name)? {
            return Ok(call);
        }
    }
    Ok(1000)
}

// How many reads there are, and how many writes.
fn count_both<R: Threads + Wait + Abort + Sync + Host>(
    rt: &R,
    alloc: Global,
    parts: &[&[Message]],
    name: &str,
) -> Result<(u64, u64), OutOfMemory> {
    let stream = Stream::of(alloc, parts)?;
    let reads = count_calls(rt, alloc, stream.bytes(), true, name)?;
    let writes = count_calls(rt, alloc, stream.bytes(), false, name)?;
    Ok((reads, writes))
}

#[test]
fn each_read_and_each_write_fails(rt: HostRuntime) -> Result<(), OutOfMemory> {
    for row in &ROWS {
        let (reads, writes) = count_both(&rt, rt.alloc(), row.parts, row.name)?;
        assert!(rt; reads < 100 && writes < 10, "{}", row.name);
    }
    Ok(())
}

#[test]
fn each_read_and_each_write_of_a_real_stream_fails(rt: HostRuntime) -> Result<(), OutOfMemory> {
    let (reads, writes) = count_both(&rt, rt.alloc(), FEATURES, "a real stream")?;
    assert!(rt; reads > 20 && reads < 100 && writes == 6);
    Ok(())
}

// Three commits and two keepalives that want a reply: five status updates, of 39 bytes each.
const MORE: &[Message] = &[
    Message::Keepalive(0x150, true),
    Message::Start(700, true),
    Message::Insert(700, THIRD),
    Message::Keepalive(0x160, true),
    Message::Stop,
    Message::StreamCommit(700, 0x200, 0x220),
    Message::Begin(900, 0x300),
    Message::Insert(0, UNNAMED_FOURTH),
    Message::Commit(0x300, 0x320),
];

const UPDATE: usize = 39;

// How many commits stand when each update is sent.
const COMMITTED: [usize; 5] = [1, 1, 1, 2, 3];

static COMMITS: [Commit<'static>; 3] = [
    FIRST_COMMIT,
    Commit {
        stamp: (700, 0x200, 0x220),
        changes: &[Message::Insert(700, THIRD)],
        rows: &[FIRST, SECOND, THIRD],
    },
    Commit {
        stamp: (900, 0x300, 0x320),
        changes: &[Message::Insert(0, UNNAMED_FOURTH)],
        rows: &[FIRST, SECOND, THIRD, UNNAMED_FOURTH],
    },
];

// A run whose writes take so many bytes, and fail after so many. `sent` is what is sent where none fails.
fn fails_at_write<R: Threads + Wait + Sync + Host>(
    rt: &R,
    alloc: Global,
    stream: &[u8],
    sent: &[u8],
    (taken, writes): (usize, usize),
) -> Result<(), Fail> {
    let mut plan = Plan::new(stream, config_of(2, 1));
    plan.taken = taken;
    plan.writes = writes as u64;
    let ran = run_by(rt, alloc, &plan, plan.writes)?;
    let each = UPDATE.div_ceil(taken.max(1));
    let (whole, parts) = (writes / each.max(1), writes % each.max(1));
    let (end, commits) = match COMMITTED.get(whole) {
        Some(commits) => (FAILED, *commits),
        None => (End::Clean, 3),
    };
    let length = whole
        .saturating_mul(UPDATE)
        .saturating_add(parts.saturating_mul(taken));
    assert_same(Some(ran.sent.as_slice()), sent.get(..length), writes)?;
    assert_left(&ran.outcome, left(&COMMITS, &[], commits), end, writes)
}

#[test]
fn each_write_takes_a_part_or_fails(rt: HostRuntime) -> Result<(), Fail> {
    let stream = Stream::of(rt.alloc(), &[P, MORE])?;
    let bytes = stream.bytes();
    let whole = run_by(&rt, rt.alloc(), &Plan::new(bytes, config_of(2, 1)), 0)?;
    let sent = whole.sent.as_slice();
    assert_same(sent.len(), 5 * UPDATE, "sent")?;
    for taken in 1..=UPDATE {
        for writes in 0..=UPDATE.div_ceil(taken).saturating_mul(5) {
            fails_at_write(&rt, rt.alloc(), bytes, sent, (taken, writes))?;
        }
    }
    Ok(())
}

// A connection that gives a byte a read, and breaks after so many.
#[derive(Drop)]
struct Breaking<'a> {
    stream: &'a TcpStream,
    reads: usize,
}

impl Read for Breaking<'_> {
    fn read(&mut self, buf: &mut [u8]) -> io::Result<usize> {
        if self.reads == 0 {
            return Err(io::Error::from(ErrorKind::ConnectionReset));
        }
        self.reads -= 1;
        let count = buf.len().min(1);
        let mut stream = self.stream;
        stream.read(&mut buf[..count])
    }
}

static ONE_ROW: [Tuple; 1] = [FIRST];

// A run by two workers of what comes over a connection, which breaks after so many reads.
fn follow<R: Threads + Wait + Sync>(
    rt: &R,
    alloc: Global,
    stream: &TcpStream,
    reads: usize,
) -> Result<Ran, OutOfMemory> {
    let source = ReadSource::new(Retried::new(Breaking { stream, reads }));
    let gates = open_gates(alloc, 2)?;
    run_unwatched(rt, alloc, source, &config_of(2, 1), gates)
}

#[test]
fn each_read_of_a_connection_fails(rt: HostRuntime) -> Result<(), Fail> {
    let stream = Stream::of(rt.alloc(), &[ONE_INSERT])?;
    let bytes = stream.bytes();
    let listener = TcpListener::bind(&rt, "127.0.0.1:0")?;
    let address = format!(in rt.alloc(); "{}", listener.local_addr()?)?;
    for reads in 0..=bytes.len() {
        let near = TcpStream::connect(&rt, address.as_str())?;
        let (mut far, _) = listener.accept()?;
        far.write_all(bytes)?;
        let ran = follow(&rt, rt.alloc(), &near, reads)?;
        let left = if reads == bytes.len() {
            (&ONE_ROW[..], 0x120)
        } else {
            (&ONE_ROW[..0], 0)
        };
        assert_left(&ran.outcome, left, FAILED, reads)?;
    }
    Ok(())
}
