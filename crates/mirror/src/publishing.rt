// Copies of the file, put where readers find them.
use leader::Lsn;
use mirror_command::events::{Event, say};
use mirror_command::options::Publishing;
use mirror_run::Between;
use sqlite_file::copy_file;
use std::time::{Duration, Instant};

/// Puts a copy of a file in its place, each so many seconds.
#[derive(Drop)]
pub struct Copies<'a> {
    rt: &'a HostRuntime,
    from: &'a str,
    asked: Option<Publishing<'a>>,
    /// When the last copy was tried.
    tried: Option<Instant>,
    /// The position of the last copy.
    position: Option<Lsn>,
}

impl<'a> Copies<'a> {
    /// Of this file, where copies are asked for.
    pub fn new(rt: &'a HostRuntime, from: &'a str, asked: Option<Publishing<'a>>) -> Copies<'a> {
        Copies {
            rt,
            from,
            asked,
            tried: None,
            position: None,
        }
    }

    /// Puts a copy in its place, unless the last one is of this position, or nothing has come yet.
    pub fn publish(&mut self, position: Lsn) {
        let Some(asked) = self.asked else {
            return;
        };
        if position == 0 || self.position == Some(position) {
            return;
        }
        match copy_file(self.rt, self.from, asked.to) {
            Ok(()) => {
                self.position = Some(position);
                say(self.rt, Event::Published(asked.to, position));
            }
            Err(fault) => {
                say(self.rt, Event::NotPublished(asked.to));
                let _said = eprintln!(self.rt; "mirror: {fault}");
            }
        }
        self.tried = Instant::now(self.rt).ok();
    }

    // Whether a copy is due.
    fn is_due(&self, every: u64) -> bool {
        match &self.tried {
            None => true,
            Some(tried) => match tried.elapsed(self.rt) {
                Ok(passed) => passed >= Duration::from_secs(every),
                Err(_) => false,
            },
        }
    }
}

impl Between for Copies<'_> {
    fn pass(&mut self, position: Lsn) -> bool {
        let Some(asked) = self.asked else {
            return false;
        };
        if position == 0 || self.position == Some(position) {
            return false;
        }
        if self.is_due(asked.every) {
            self.publish(position);
        }
        self.position != Some(position)
    }
}
