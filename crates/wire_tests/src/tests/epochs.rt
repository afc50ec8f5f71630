// Where an epoch ends, and what it begins with.
use super::OrFail;
use frames::{Failed, Source};
use mirror_source::{Applied, Cut, Epochs, Limits};
use std::alloc::Global;
use std::test::Fail;
use streams::Stream;
use streams::story::{TOLD, push_parts, stream_of};
use testing::asserts::{assert_holds, assert_same};
use testing::devices::Pieces;

/// Behind how many commits an epoch ends, and the parts that each has, from one up to another.
struct Case {
    commits: u64,
    epochs: &'static [(usize, usize)],
}

static CASES: [Case; 4] = [
    Case {
        commits: 1,
        epochs: &[(0, 1), (1, 3), (3, 4), (4, 5), (5, 6), (6, 7), (7, 8)],
    },
    Case {
        commits: 2,
        epochs: &[(0, 3), (3, 5), (5, 7), (7, 8)],
    },
    Case {
        commits: 7,
        epochs: &[(0, 7), (7, 8)],
    },
    Case {
        commits: 8,
        epochs: &[(0, 8)],
    },
];

/// Behind so many commits.
fn behind(commits: u64) -> Limits {
    Limits {
        commits,
        bytes: u64::MAX,
        most: u64::MAX,
    }
}

/// What is left of an epoch.
pub fn read_epoch<R: Source + Drop>(
    alloc: Global,
    epochs: &mut Epochs<R>,
) -> Result<Vec<u8>, Failed> {
    let mut read = Vec::new(alloc);
    let mut buf = [0u8; 100];
    for _ in 0..u64::MAX {
        let count = epochs.read_some(&mut buf)?;
        let some = buf.get(..count).unwrap_or(&[]);
        if count == 0 || read.extend_from_slice(some).is_err() {
            break;
        }
    }
    Ok(read)
}

/// The epoch has these parts, behind the relation if it isn't the first, and it ended so.
fn assert_epoch<R: Source + Drop>(
    alloc: Global,
    epochs: &mut Epochs<R>,
    from: usize,
    to: usize,
    cut: Cut,
) -> Result<(), Fail> {
    let mut want = Stream::new(alloc);
    if from > 0 {
        want.push(&TOLD)?;
    }
    push_parts(&mut want, from, to)?;
    let read = read_epoch(alloc, epochs)?;
    assert_same(read.as_slice(), want.bytes(), from)?;
    assert_same(epochs.cut(), cut, from)?;
    epochs.begin_next()?;
    Ok(())
}

/// The epochs of the stream, of a file that has nothing of it.
fn assert_epochs(alloc: Global, bytes: &[u8], case: &Case) -> Result<(), Fail> {
    let applied = Applied::new(0, Vec::new(alloc));
    let source = Pieces::new(bytes, 77);
    let mut epochs = Epochs::new(alloc, source, applied, behind(case.commits))?;
    for (from, to) in case.epochs {
        let cut = if *to == 8 { Cut::AtEnd } else { Cut::AtLimit };
        assert_epoch(alloc, &mut epochs, *from, *to, cut)?;
    }
    Ok(())
}

#[test]
fn epochs_of_so_many_commits(rt: HostRuntime) {
    let stream = stream_of(rt.alloc(), 7).or_fail(&rt);
    for case in &CASES {
        assert_epochs(rt.alloc(), stream.bytes(), case).or_fail(&rt);
    }
}

#[test]
fn an_epoch_ends_behind_so_many_bytes(rt: HostRuntime) {
    let first = stream_of(rt.alloc(), 1).or_fail(&rt);
    let stream = stream_of(rt.alloc(), 7).or_fail(&rt);
    let limits = Limits {
        commits: u64::MAX,
        bytes: first.bytes().len() as u64,
        most: u64::MAX,
    };
    let applied = Applied::new(0, Vec::new(rt.alloc()));
    let source = Pieces::new(stream.bytes(), 4096);
    let mut epochs = Epochs::new(rt.alloc(), source, applied, limits).or_fail(&rt);
    assert_epoch(rt.alloc(), &mut epochs, 0, 1, Cut::AtLimit).or_fail(&rt);
}

#[test]
fn what_stays_open_all_along_fills_an_epoch(rt: HostRuntime) {
    let stream = stream_of(rt.alloc(), 3).or_fail(&rt);
    let limits = Limits {
        commits: 1,
        bytes: 1,
        most: 600,
    };
    let applied = Applied::new(0x140, Vec::new(rt.alloc()));
    let source = Pieces::new(stream.bytes(), 4096);
    let mut epochs = Epochs::new(rt.alloc(), source, applied, limits).or_fail(&rt);
    for _ in 0..9 {
        let _read = read_epoch(rt.alloc(), &mut epochs).or_fail(&rt);
        if epochs.cut() != Cut::AtLimit {
            break;
        }
        epochs.begin_next().or_fail(&rt);
    }
    assert_same(epochs.cut(), Cut::Full, "cut").or_fail(&rt);
}

#[test]
fn a_source_that_fails_at_each_read(rt: HostRuntime) {
    let stream = stream_of(rt.alloc(), 7).or_fail(&rt);
    for reads in 0..20 {
        let source = Pieces::with_reads(stream.bytes(), 60, reads);
        let applied = Applied::new(0, Vec::new(rt.alloc()));
        let mut epochs = Epochs::new(rt.alloc(), source, applied, behind(8)).or_fail(&rt);
        assert_holds(read_epoch(rt.alloc(), &mut epochs).is_err(), reads).or_fail(&rt);
        assert_holds(epochs.read_some(&mut [0u8; 9]).is_err(), reads).or_fail(&rt);
    }
}
