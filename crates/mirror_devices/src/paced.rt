// A source that asks its run for a status update before it waits.
ghost use Rattle.std.specs.Prelude.{◌≡◌, ◌≤◌, true, length};
ghost use Rattle.frames.specs.Device.{HasFailed};

use crate::pace::{AtHand, Pace};
use frames::{Failed, Source};

/// A keepalive that wants a reply, and says nothing of the log (PostgreSQL manual: Streaming Replication
/// Protocol, Primary keepalive message).
const ASK: [u8; 23] = [
    b'd', 0, 0, 0, 22, b'k', 0, 0, 0, 0, 0, 0, 0, 0, 0, 0, 0, 0, 0, 0, 0, 0, 1,
];

/// A source that is lent to a run, and tells its pace. Before it waits for more of the stream where a status
/// update said less than was applied, it gives a keepalive of its own, so that another one goes out.
#[derive(Drop)]
pub struct Paced<'a, S: Source + AtHand> {
    source: &'a mut S,
    pace: &'a Pace,
    /// How much of the keepalive was given.
    given: usize,
    left: u64,
    failures: u64,
    failed_last: bool,
}

impl<'a, S: Source + AtHand> Paced<'a, S> {
    /// It is lent this one.
    pub fn new(source: &'a mut S, pace: &'a Pace) -> Paced<'a, S> {
        Paced {
            source,
            pace,
            given: ASK.len(),
            left: u64::MAX,
            failures: 0,
            failed_last: false,
        }
    }

    // Gives what is left of the keepalive.
    fn hand(&mut self, buf: &mut [u8]) -> usize
        ensures within { result ≤ length buf.old }
        ensures length { length buf.new ≡ length buf.old }
        ensures left { self.new.left ≡ self.old.left }
        ensures failures { self.new.failures ≡ self.old.failures }
        ensures last { self.new.failed_last ≡ self.old.failed_last }
    {
        let there = ASK.get(self.given..).unwrap_or(&[]);
        let count = there.len().min(buf.len());
        buf[..count].copy_from_slice(&there[..count]);
        self.given = self.given.saturating_add(count);
        count
    }

    // A call has failed.
    fn fail(&mut self) -> Failed
        ensures failed { HasFailed self.old.failures self.new.failures }
        ensures last { self.new.failed_last ≡ true }
    {
        self.failures = self.failures.saturating_add(1);
        self.failed_last = true;
        Failed
    }
}

impl<S: Source + AtHand> Source for Paced<'_, S> {
    ghost use Rattle.std.specs.Prelude.{None};

    ghost remaining = { λ _. None };

    ghost reads_left = { λ s. s.left };

    ghost failures = { λ s. s.failures };

    ghost failed_last = { λ s. s.failed_last };

    fn read_some(&mut self, buf: &mut [u8]) -> Result<usize, Failed> {
        if self.left == 0 {
            return Err(self.fail());
        }
        if self.given >= ASK.len() && self.pace.is_behind() && !self.source.has_more() {
            self.given = 0;
            self.pace.note_more(false);
        }
        self.left -= 1;
        self.failed_last = false;
        if self.given < ASK.len() {
            return Ok(self.hand(buf));
        }
        match self.source.read_some(buf) {
            Ok(count) => {
                self.pace.note_more(self.source.has_more());
                Ok(count)
            }
            Err(_) => Err(self.fail()),
        }
    }
}
