// What `--progress` says, by a clock of the test's own.
use crate::tests::devices::ONE_INSERT;
use crate::tests::runs::framed;
use pgapply_command::progress::Progress;
use std::alloc::Global;
use std::cell::{Cell, RefCell};
use std::fmt::{Display, Write};
use std::io;
use std::rt::Clock;
use std::test::Fail;
use std::time::Duration;
use testing::asserts::assert_same;
use trace::{Trace, Watcher};

/// Has a clock that a test moves, and keeps what is said on standard error.
#[derive(Drop)]
pub(super) struct Host {
    millis: Cell<u64>,
    said: RefCell<String>,
}

impl Host {
    /// It begins a day after the clock's start.
    pub(super) fn new(alloc: Global) -> Host {
        Host {
            millis: Cell::new(86_400_000),
            said: RefCell::new(String::new(alloc)),
        }
    }

    /// What was said.
    pub(super) fn into_said(self) -> String {
        self.said.into_inner()
    }

    fn wait(&self, millis: u64) {
        self.millis.set(self.millis.get().saturating_add(millis));
    }
}

impl Clock for Host {
    fn monotonic(&self) -> io::Result<Duration> {
        Ok(Duration::from_millis(self.millis.get()))
    }

    fn since_1970(&self) -> io::Result<Duration> {
        self.monotonic()
    }
}

impl Eprint for Host {
    fn eprint<D: Display + Drop>(&self, value: D) -> io::Result<()> {
        // Without memory some of it is lost, and the test fails.
        if let Ok(mut said) = self.said.try_borrow_mut() {
            let _kept = write!(said, "{value}");
        }
        Ok(())
    }

    fn eprintln<D: Display + Drop>(&self, value: D) -> io::Result<()> {
        self.eprint(value)?;
        self.eprint("\n")
    }
}

/// What is said of a stream of 258 bytes that comes in seven pieces, each some milliseconds behind the one
/// before.
fn said(alloc: Global, wanted: bool, millis: u64) -> Result<String, Fail> {
    let host = Host::new(alloc);
    let stream = framed(alloc, &ONE_INSERT)?;
    let mut trace = Trace::new(alloc);
    let mut progress = Progress::new(&host, wanted);
    for piece in stream.as_slice().chunks(40) {
        host.wait(millis);
        trace.pass(piece);
        progress.look(&trace);
    }
    progress.say(&trace);
    drop(progress);
    Ok(host.into_said())
}

#[test]
fn how_far_a_stream_was_read(rt: HostRuntime) -> Result<(), Fail> {
    // Begin has 51 bytes, the relation 95, the insert 56 and the commit 56. A rate is of whole kilobytes.
    let cases: [(u64, &str); 4] = [
        // A line with each second piece, and one at the end.
        (
            500,
            "pgapply: 1 s, 80 bytes, 0 commits, 0 changes, position 0/0, 0 kB/s\n\
            pgapply: 2 s, 160 bytes, 0 commits, 0 changes, position 0/0, 0 kB/s\n\
            pgapply: 3 s, 240 bytes, 0 commits, 1 changes, position 0/0, 0 kB/s\n\
            pgapply: 3 s, 258 bytes, 1 commits, 1 changes, position 0/120, 0 kB/s\n",
        ),
        // It takes 994 milliseconds, and then 140, so only the end is said.
        (
            142,
            "pgapply: 0 s, 258 bytes, 1 commits, 1 changes, position 0/120, 0 kB/s\n",
        ),
        (
            20,
            "pgapply: 0 s, 258 bytes, 1 commits, 1 changes, position 0/120, 1 kB/s\n",
        ),
        // A clock that stands.
        (
            0,
            "pgapply: 0 s, 258 bytes, 1 commits, 1 changes, position 0/120, 258 kB/s\n",
        ),
    ];
    for (millis, want) in &cases {
        let said = said(rt.alloc(), true, *millis)?;
        assert_same(said.as_str(), *want, millis)?;
    }
    assert_same(said(rt.alloc(), false, 500)?.as_str(), "", "said")
}
