// What `--progress` says: a line about once a second, and one at the end.
use std::fmt;
use std::fmt::{Debug, Formatter};
use std::rt::Clock;
use std::time::Instant;
use trace::{Trace, Watcher};

/// How often a line is said: milliseconds.
const PAUSE: u64 = 1000;

/// Says on standard error how far a stream was read. Where that can't be written, or the clock can't be
/// read, nothing is said.
#[derive(Drop)]
pub struct Progress<H: Clock + Eprint> {
    host: H,
    /// None where nothing is to be said.
    began: Option<Instant>,
    /// When a line was last said: milliseconds since it began.
    said: u64,
}

impl<H: Clock + Eprint> Debug for Progress<H> {
    fn fmt<W: fmt::Write>(&self, f: &mut Formatter<W>) -> fmt::Result {
        f.debug_struct("Progress").finish_non_exhaustive()
    }
}

impl<H: Clock + Eprint> Progress<H> {
    /// It begins now, and says nothing unless it is `wanted`.
    pub fn new(host: H, wanted: bool) -> Progress<H> {
        let began = if wanted {
            Instant::now(&host).ok()
        } else {
            None
        };
        Progress {
            host,
            began,
            said: 0,
        }
    }

    /// Milliseconds since it began.
    fn elapsed(&self) -> Option<u64> {
        let elapsed = self.began?.elapsed(&self.host).ok()?;
        u64::try_from(elapsed.as_millis()).ok()
    }

    /// Says how far the stream was read, if anything is to be said.
    pub fn say(&self, trace: &Trace) {
        if let Some(millis) = self.elapsed() {
            let counts = trace.counts();
            let bytes = counts.bytes;
            let commits = counts.commits;
            let changes = counts.changes;
            let high = counts.position >> 32;
            let low = counts.position & 0xffff_ffff;
            let rate = bytes / millis.max(1);
            let seconds = millis / 1000;
            let _said = eprintln!(self.host;
                "pgapply: {seconds} s, {bytes} bytes, {commits} commits, {changes} changes, position {high:X}/{low:X}, {rate} kB/s"
            );
        }
    }
}

impl<H: Clock + Eprint> Watcher for Progress<H> {
    fn look(&mut self, trace: &Trace) {
        if let Some(millis) = self.elapsed() {
            if millis.saturating_sub(self.said) >= PAUSE {
                self.said = millis;
                self.say(trace);
            }
        }
    }
}
