// A sink of a run that goes on from a position of the publisher's log.
ghost use Rattle.std.specs.Prelude.{◌≡◌, true};
ghost use Rattle.frames.specs.Device.{HasFailed};

use crate::update::{FRAME_LEN, flushed, raise};
use frames::{Failed, Sink, send_status};
use model::Lsn;
use std::alloc::Global;

/// A sink of a run that goes on from a position: each status update says at least that position. A
/// run's own position is 0 until its first commit. It fails where memory is refused for an update.
#[derive(Drop)]
pub struct Resumed<W: Sink> {
    alloc: Global,
    sink: W,
    from: Lsn,
    failures: u64,
    failed_last: bool,
}

impl<W: Sink> Resumed<W> {
    /// Over this sink, from this position on.
    pub fn new(alloc: Global, sink: W, from: Lsn) -> Resumed<W>
        ensures { (result.sink ≡ sink) × (result.from ≡ from) }
    {
        Resumed {
            alloc,
            sink,
            from,
            failures: 0,
            failed_last: false,
        }
    }

    // A call has failed.
    fn fail(&mut self) -> Failed
        ensures failed { HasFailed self.old.failures self.new.failures }
        ensures last { self.new.failed_last ≡ true }
    {
        self.failures = self.failures.saturating_add(1);
        self.failed_last = true;
        Failed
    }
}

impl<W: Sink> Sink for Resumed<W> {
    ghost use Rattle.std.specs.Prelude.{None};

    ghost contents = { λ _. None };

    ghost failures = { λ s. s.failures };

    ghost failed_last = { λ s. s.failed_last };

    fn write_some(&mut self, buf: &[u8]) -> Result<usize, Failed> {
        self.failed_last = false;
        match flushed(buf) {
            Some(lsn) if lsn < self.from && buf.len() == FRAME_LEN => {
                match send_status(self.alloc, &raise(buf, self.from), &mut self.sink) {
                    Ok(()) => Ok(buf.len()),
                    Err(_) => Err(self.fail()),
                }
            }
            _ => match self.sink.write_some(buf) {
                Ok(count) => Ok(count),
                Err(_) => Err(self.fail()),
            },
        }
    }
}
