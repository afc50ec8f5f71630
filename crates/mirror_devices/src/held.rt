// A sink whose status updates say no more than a file has.
ghost use Rattle.std.specs.Prelude.{◌≡◌, ◌<◌, ◌≤◌, None, IfOk, length, true};
ghost use Rattle.model.specs.Beginning.{last_end};
ghost use Rattle.frames.specs.Device.{HasFailed};
ghost use Rattle.mirror_devices.specs.Updates.{flushed_in};

use crate::pace::Pace;
use crate::reached::Reached;
use crate::update::{FRAME_LEN, flushed, lower};
use frames::{Failed, Sink, Status, send_status};
use origin::Loader;
use std::alloc::Global;
use std::sync::Wait;

/// A sink whose status updates say at most how far a file has come, whatever a run has applied. Where more of
/// the stream is at hand an update says what the file has by then; else it waits until the file has it all. It
/// fails where the file goes no further before, and where memory is refused for an update.
#[derive(Drop)]
pub struct Held<'a, R: Wait, W: Sink> {
    rt: &'a R,
    alloc: Global,
    reached: &'a Reached,
    pace: &'a Pace,
    loader: Loader,
    sink: W,
    failures: u64,
    failed_last: bool,
    ghost own: { loader.origin ≡ reached.now },
}

impl<'a, R: Wait, W: Sink> Held<'a, R, W> {
    /// Over this sink; it learns from the loader how far the file has come.
    pub fn new(
        rt: &'a R,
        alloc: Global,
        reached: &'a Reached,
        pace: &'a Pace,
        loader: Loader,
        sink: W,
    ) -> Held<'a, R, W>
        requires { loader.origin ≡ reached.now }
        ensures { (result.loader ≡ loader) × (result.sink ≡ sink) }
    {
        Held {
            rt,
            alloc,
            reached,
            pace,
            loader,
            sink,
            failures: 0,
            failed_last: false,
        }
    }

    // Tells the sink a status update, which says no more than was reached.
    fn tell(&mut self, status: &Status) -> Result<(), Failed>
        requires { status.now.flushed ≤ last_end self.old.loader.ends }
        ensures failures { self.new.failures ≡ self.old.failures }
        ensures last { self.new.failed_last ≡ self.old.failed_last }
    {
        match send_status(self.alloc, status, &mut self.sink) {
            Ok(()) => Ok(()),
            Err(_) => Err(Failed),
        }
    }

    // Hands on bytes that are no status update.
    fn pass(&mut self, bytes: &[u8]) -> Result<usize, Failed>
        requires { flushed_in bytes.now ≡ None }
        ensures within { IfOk result (λ n. n ≤ length bytes.now) }
        ensures takes { IfOk result (λ n. 0 < length bytes.now → 0 < n) }
        ensures failures { self.new.failures ≡ self.old.failures }
        ensures last { self.new.failed_last ≡ self.old.failed_last }
    {
        self.sink.write_some(bytes)
    }

    // A call has failed.
    fn fail(&mut self) -> Failed
        ensures failed { HasFailed self.old.failures self.new.failures }
        ensures last { self.new.failed_last ≡ true }
    {
        self.failures = self.failures.saturating_add(1);
        self.failed_last = true;
        Failed
    }
}

impl<R: Wait, W: Sink> Sink for Held<'_, R, W> {
    ghost use Rattle.std.specs.Prelude.{None};

    ghost contents = { λ _. None };

    ghost failures = { λ s. s.failures };

    ghost failed_last = { λ s. s.failed_last };

    fn write_some(&mut self, buf: &[u8]) -> Result<usize, Failed> {
        self.failed_last = false;
        match flushed(buf) {
            Some(lsn) if buf.len() == FRAME_LEN => {
                let waits = !self.pace.has_more();
                let reached = if waits {
                    self.reached.wait_for(self.rt, &mut self.loader, lsn)
                } else {
                    self.reached.load(self.rt, &mut self.loader)
                };
                if waits && reached < lsn {
                    return Err(self.fail());
                }
                self.pace.note_behind(reached < lsn);
                match self.tell(&lower(buf, reached)) {
                    Ok(()) => Ok(buf.len()),
                    Err(_) => Err(self.fail()),
                }
            }
            Some(_) => Err(self.fail()),
            None => match self.pass(buf) {
                Ok(count) => Ok(count),
                Err(_) => Err(self.fail()),
            },
        }
    }
}
