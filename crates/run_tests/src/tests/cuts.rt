// Streams that are cut at each byte, and reads that fail: what is left is that of the commits before.
use super::commits::{CUT, Case};
use super::left::{assert_left, left};
use super::runs::{Plan, config_of, run_by};
use super::worked::{FIRST, ONE_INSERT};
use leader::{End, FrameFault, Lsn, OutOfMemory};
use std::alloc::Global;
use std::rt::Clock as Host;
use std::sync::Wait;
use std::test::Fail;
use std::thread::Threads;
use streams::{Message, Stream, Tuple};
use testing::asserts::assert_same;

// Of one insert, and where its frames end.
const LENGTH: usize = 258;

const EDGES: [usize; 5] = [0, 51, 146, 202, LENGTH];

const TRUNCATED: End = End::Frame(FrameFault::Truncated);

const FAILED: End = End::Frame(FrameFault::Device);

static ONE_ROW: [Tuple; 1] = [FIRST];

// What is left of so many bytes, or of so many reads of a byte.
fn after(bytes: usize) -> (&'static [Tuple], Lsn) {
    if bytes == LENGTH {
        (&ONE_ROW, 0x120)
    } else {
        (&ONE_ROW[..0], 0)
    }
}

// The stream cut at a length.
fn cut_at<R: Threads + Wait + Sync + Host>(
    rt: &R,
    alloc: Global,
    stream: &[u8],
    length: usize,
    workers: usize,
) -> Result<(), Fail> {
    let plan = Plan::new(&stream[..length.min(stream.len())], config_of(workers, 1));
    let ran = run_by(rt, alloc, &plan, length as u64)?;
    let end = if EDGES.contains(&length) {
        End::Clean
    } else {
        TRUNCATED
    };
    assert_left(&ran.outcome, after(length), end, length)
}

// The stream byte by byte, until so many reads were made.
fn fails_after<R: Threads + Wait + Sync + Host>(
    rt: &R,
    alloc: Global,
    stream: &[u8],
    reads: usize,
    workers: usize,
) -> Result<(), Fail> {
    let mut plan = Plan::new(stream, config_of(workers, 1));
    plan.size = 1;
    plan.reads = reads as u64;
    let ran = run_by(rt, alloc, &plan, plan.reads)?;
    assert_left(&ran.outcome, after(reads), FAILED, reads)
}

#[test]
fn one_insert_cut_at_each_length_and_failing_at_each_read(rt: HostRuntime) -> Result<(), Fail> {
    let stream = Stream::of(rt.alloc(), &[ONE_INSERT])?;
    assert_same(stream.bytes().len(), LENGTH, "bytes")?;
    for workers in [0, 2] {
        for length in 0..=LENGTH {
            cut_at(&rt, rt.alloc(), stream.bytes(), length, workers)?;
            fails_after(&rt, rt.alloc(), stream.bytes(), length, workers)?;
        }
    }
    Ok(())
}

// Where a message ends, and how many commits there are up to there.
#[derive(Clone, Copy)]
struct Edge {
    at: usize,
    commits: usize,
}

// The stream, and where its messages end.
fn with_edges(alloc: Global, parts: &[&[Message]]) -> Result<(Stream, Vec<Edge>), OutOfMemory> {
    let mut stream = Stream::new(alloc);
    let mut edges = Vec::new(alloc);
    let mut commits = 0usize;
    edges.push(Edge { at: 0, commits })?;
    for part in parts {
        for message in *part {
            stream.push(message)?;
            if matches!(message, Message::Commit(..) | Message::StreamCommit(..)) {
                commits = commits.saturating_add(1);
            }
            let at = stream.bytes().len();
            edges.push(Edge { at, commits })?;
        }
    }
    Ok((stream, edges))
}

// The last edge up to a place.
fn last_edge(edges: &[Edge], place: usize) -> Edge {
    let mut last = Edge { at: 0, commits: 0 };
    for edge in edges {
        if edge.at <= place {
            last = *edge;
        }
    }
    last
}

// The stream cut behind so many bytes, by two workers.
fn cut_behind<R: Threads + Wait + Sync + Host>(
    rt: &R,
    alloc: Global,
    case: &Case<'_>,
    (bytes, edges): (&[u8], &[Edge]),
) -> Result<(), Fail> {
    let cut = bytes.len();
    let edge = last_edge(edges, cut);
    let end = if edge.at == cut {
        End::Clean
    } else {
        TRUNCATED
    };
    let ran = run_by(rt, alloc, &Plan::new(bytes, config_of(2, 1)), cut as u64)?;
    assert_same(ran.commits().len(), edge.commits, case.name)?;
    let want = left(case.commits, case.start, edge.commits);
    assert_left(&ran.outcome, want, end, cut)
}

#[test]
fn worked_streams_cut_at_each_byte(rt: HostRuntime) -> Result<(), Fail> {
    for case in &CUT {
        let (stream, edges) = with_edges(rt.alloc(), case.parts)?;
        let bytes = stream.bytes();
        for cut in 0..=bytes.len() {
            let front = (&bytes[..cut], edges.as_slice());
            cut_behind(&rt, rt.alloc(), case, front)?;
        }
    }
    Ok(())
}
