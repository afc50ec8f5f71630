// Lines of JSON.
use super::failing::most_flushed;
use super::rounds::{Ended, Plan, catalog, epochs_of, run_epoch};
use leader::{Catalog, OutOfMemory, Tables};
use mirror_run::LineKeep;
use std::alloc::Global;
use std::io;
use std::io::{ErrorKind, Write};
use std::sync::Wait;
use std::test::Fail;
use std::thread::Threads;
use std::time::Clock;
use streams::story::{LEFT, Left, stream_of};
use testing::asserts::{assert_holds, assert_same};

/// Takes lines, and fails behind so many writes.
#[derive(Drop)]
struct FailingWriter<'a> {
    text: &'a mut Vec<u8>,
    writes: u64,
}

impl Write for FailingWriter<'_> {
    fn write(&mut self, buf: &[u8]) -> io::Result<usize> {
        if self.writes == 0 || self.text.extend_from_slice(buf).is_err() {
            return Err(io::Error::from(ErrorKind::Other));
        }
        self.writes -= 1;
        Ok(buf.len())
    }

    fn flush(&mut self) -> io::Result<()> {
        Ok(())
    }
}

/// The lines of the first commits.
fn lines_of(alloc: Global, commits: usize) -> Result<String, Fail> {
    let mut text = String::new(alloc);
    for left in LEFT.iter().take(commits.saturating_add(1)) {
        text.push_str(left.lines)?;
    }
    Ok(text)
}

/// A run whose commits are kept as lines alone, which fail behind so many writes.
fn run_lines<R: Threads + Wait + Sync + Clock>(
    rt: &R,
    alloc: Global,
    catalog: &Catalog,
    writes: u64,
    text: &mut Vec<u8>,
    sent: &mut Vec<u8>,
) -> Result<Ended, OutOfMemory> {
    let stream = stream_of(alloc, 7)?;
    let plan = Plan {
        stream: stream.bytes(),
        epoch: 100,
        batch: 1,
    };
    let mut epochs = epochs_of(alloc, &plan, 0)?;
    let writer = FailingWriter { text, writes };
    let mut keep = LineKeep::new(alloc, Tables::empty(alloc, catalog)?, catalog, writer);
    let start = Tables::empty(alloc, catalog)?;
    let ended = run_epoch(
        rt,
        alloc,
        catalog,
        start,
        0,
        1,
        &mut epochs,
        &mut keep,
        sent,
    )?;
    Ok(ended)
}

/// Lines that fail behind so many writes are those of as many commits, and no more was confirmed.
fn assert_lines<R: Threads + Wait + Sync + Clock>(
    rt: &R,
    alloc: Global,
    commits: usize,
    left: &Left,
) -> Result<(), Fail> {
    let catalog = catalog(alloc)?;
    let mut text = Vec::new(alloc);
    let mut sent = Vec::new(alloc);
    let ended = run_lines(rt, alloc, &catalog, commits as u64, &mut text, &mut sent)?;
    let want = lines_of(alloc, commits)?;
    assert_same(text.as_slice(), want.as_str().as_bytes(), commits)?;
    assert_same(ended.progress.position, left.position, commits)?;
    assert_same(ended.progress.stop.is_none(), commits == 7, commits)?;
    assert_holds(most_flushed(sent.as_slice()) <= left.position, commits)
}

#[test]
fn lines_of_each_commit_and_whole_ones_alone(rt: HostRuntime) -> Result<(), Fail> {
    for (commits, left) in LEFT.iter().enumerate() {
        assert_lines(&rt, rt.alloc(), commits, left)?;
    }
    Ok(())
}
