// Logs that fail: files that are opened again, and what was confirmed.
use super::files::{Store, open_again, open_new, position_of};
use super::following::assert_file;
use super::rounds::{Plan, follow};
use leader::{End, Lsn};
use sqlite::Connection;
use std::alloc::Global;
use std::sync::Wait;
use std::test::Fail;
use std::thread::Threads;
use std::time::Clock;
use streams::story::{LEFT, Left, stream_of};
use testing::asserts::{assert_holds, assert_same};

/// The most that a status update among these says of what was flushed.
pub fn most_flushed(sent: &[u8]) -> Lsn {
    let mut most = 0;
    for update in sent.chunks(39) {
        if let [
            _,
            _,
            _,
            _,
            _,
            b'r',
            _,
            _,
            _,
            _,
            _,
            _,
            _,
            _,
            a,
            b,
            c,
            d,
            e,
            f,
            g,
            h,
            ..
        ] = update
        {
            most = most.max(u64::from_be_bytes([*a, *b, *c, *d, *e, *f, *g, *h]));
        }
    }
    most
}

/// What the commit at a position left.
pub fn left_at(position: Lsn) -> Result<&'static Left, Fail> {
    for left in &LEFT {
        if left.position == position {
            return Ok(left);
        }
    }
    Err("a position of no commit".into())
}

/// A file whose log fails behind so many calls follows the stream, is opened again, has what some
/// commit left, and no status update said more. Then it goes on. Answers whether the log failed at
/// all.
fn fails_behind<R: Threads + Wait + Sync + Clock>(
    rt: &R,
    alloc: Global,
    plan: &Plan<'_>,
    calls: u64,
) -> Result<bool, Fail> {
    let Some(mut conn) = open_new(alloc, calls) else {
        return Ok(true);
    };
    let mut sent = Vec::new(alloc);
    let has_failed = match follow(rt, alloc, &mut conn, plan, &mut sent) {
        Ok(ended) => ended.progress.stop.is_some(),
        Err(_) => true,
    };
    let mut conn = open_again(alloc, conn)?;
    assert_begun(alloc, &mut conn, most_flushed(sent.as_slice()), calls)?;
    let ended = follow(rt, alloc, &mut conn, plan, &mut sent)?;
    assert_same(ended.end, End::Clean, calls)?;
    assert_file(alloc, &mut conn, &LEFT[7], calls)?;
    Ok(has_failed)
}

/// The file has what a commit left, and that is no less than what was confirmed; or nothing yet.
fn assert_begun(
    alloc: Global,
    conn: &mut Connection<Store>,
    confirmed: Lsn,
    calls: u64,
) -> Result<(), Fail> {
    match position_of(conn) {
        Ok(position) => {
            assert_holds(confirmed <= position, calls)?;
            assert_file(alloc, conn, left_at(position)?, calls)
        }
        Err(_) => assert_same(confirmed, 0, calls),
    }
}

#[test]
fn a_log_that_fails_behind_each_fifth_call(rt: HostRuntime) -> Result<(), Fail> {
    let stream = stream_of(rt.alloc(), 7)?;
    let plan = Plan {
        stream: stream.bytes(),
        epoch: 3,
        batch: 1,
    };
    for turn in 0..40 {
        let calls = 20 + 5 * turn;
        if !fails_behind(&rt, rt.alloc(), &plan, calls)? {
            return assert_holds(turn > 5, calls);
        }
    }
    Err("a log that fails however many calls there were".into())
}

#[test]
fn all_is_confirmed_once_it_is_kept(rt: HostRuntime) -> Result<(), Fail> {
    let stream = stream_of(rt.alloc(), 7)?;
    for (epoch, batch) in [(1, 1), (100, 1), (100, 100)] {
        let plan = Plan {
            stream: stream.bytes(),
            epoch,
            batch,
        };
        let mut conn = super::following::new_file(rt.alloc())?;
        let mut sent = Vec::new(rt.alloc());
        follow(&rt, rt.alloc(), &mut conn, &plan, &mut sent)?;
        assert_same(most_flushed(sent.as_slice()), 0x720, epoch)?;
    }
    Ok(())
}
