// A stream that is given in epochs.
ghost use Rattle.std.specs.Prelude.{◌≡◌, ◌<◌, ◌≤◌, true, false, length, IfOk, OnOk, OnErr};
ghost use Rattle.frames.specs.Device.{HasFailed};

use crate::applied::Applied;
use crate::edges::Edges;
use crate::frame::FrameReader;
use crate::notice::system_in;
use frames::{Failed, Source};
use mirror_devices::AtHand;
use std::alloc::{AllocError, Global};

/// How much of a stream one epoch has.
#[derive(Clone, Copy, Debug, PartialEq, Eq)]
pub struct Limits {
    /// Behind so many commits an epoch ends, where no transaction is open.
    pub commits: u64,
    /// And behind so many bytes.
    pub bytes: u64,
    /// Behind so many bytes it ends wherever it is.
    pub most: u64,
}

/// Why an epoch ended.
#[derive(Clone, Copy, Debug, PartialEq, Eq)]
pub enum Cut {
    /// The stream ended, or failed.
    AtEnd,
    /// It has as much as an epoch is to have, and no transaction is open.
    AtLimit,
    /// It has as much as an epoch may have, and a transaction was open all along.
    Full,
}

/// A stream without what a file has already, in epochs: a run over one of them keeps no more than that.
/// Each epoch begins with the relations that the publisher told in those before it. Once a read has failed,
/// each one fails.
#[derive(Drop)]
pub struct Epochs<R: Source + Drop> {
    alloc: Global,
    frames: FrameReader<R>,
    applied: Applied,
    edges: Edges,
    limits: Limits,
    cut: Cut,
    /// How many commits were there before this epoch, and how many bytes it has.
    before: u64,
    bytes: u64,
    /// Whether a frame was read that has not passed yet.
    is_ahead: bool,
    /// What is handed on, and how much of it was.
    ready: Vec<u8>,
    at: usize,
    left: u64,
    failures: u64,
    failed_last: bool,
    /// Whether a part of the stream may be lost: then nothing more is handed on.
    is_broken: bool,
}

impl<R: Source + Drop> Epochs<R> {
    /// The first epoch of a source of which nothing was read.
    pub fn new(
        alloc: Global,
        source: R,
        applied: Applied,
        limits: Limits,
    ) -> Result<Epochs<R>, AllocError> {
        Ok(Epochs {
            alloc,
            frames: FrameReader::new(alloc, source)?,
            applied,
            edges: Edges::new(alloc),
            limits,
            cut: Cut::AtEnd,
            before: 0,
            bytes: 0,
            is_ahead: false,
            ready: Vec::new(alloc),
            at: 0,
            left: u64::MAX,
            failures: 0,
            failed_last: false,
            is_broken: false,
        })
    }

    /// The identifier of the system whose stream it is, where a notice at its front says it. It reads the
    /// first frame, and is called before anything else is read.
    pub fn system(&mut self) -> Result<Option<String>, Failed> {
        if self.frames.advance().is_err() {
            self.is_broken = true;
            return Err(Failed);
        }
        self.is_ahead = true;
        system_in(self.alloc, self.frames.frame()).map_err(|_| Failed)
    }

    /// Why the epoch ended.
    pub fn cut(&self) -> Cut {
        self.cut
    }

    /// Begins the next epoch behind this one. Refused, nothing of the stream is lost.
    pub fn begin_next(&mut self) -> Result<(), AllocError> {
        self.ready.clear();
        self.at = 0;
        self.edges.push_relations(&mut self.ready)?;
        self.cut = Cut::AtEnd;
        self.before = self.edges.commits();
        self.bytes = 0;
        Ok(())
    }

    // Reads on until something is there to be handed on, or the epoch ends.
    fn fill(&mut self) -> Result<(), Failed>
        ensures left { self.new.left ≡ self.old.left }
        ensures failures { self.new.failures ≡ self.old.failures }
    {
        self.ready.clear();
        self.at = 0;
        for _ in 0..u64::MAX {
            self.cut = self.judge();
            if self.cut != Cut::AtEnd {
                break;
            }
            if !self.is_ahead {
                self.frames.advance()?;
            }
            self.is_ahead = false;
            if self.frames.frame().is_empty() {
                break;
            }
            if self.pass().is_err() {
                return Err(Failed);
            }
            if !self.ready.is_empty() {
                break;
            }
        }
        Ok(())
    }

    // Whether the epoch ends here.
    fn judge(&self) -> Cut {
        let commits = self.edges.commits().saturating_sub(self.before);
        let is_closed = self.edges.is_closed();
        if is_closed && (commits >= self.limits.commits || self.bytes >= self.limits.bytes) {
            Cut::AtLimit
        } else if !is_closed && self.bytes >= self.limits.most {
            Cut::Full
        } else {
            Cut::AtEnd
        }
    }

    // The frame that was read passes.
    fn pass(&mut self) -> Result<(), AllocError>
        ensures left { self.new.left ≡ self.old.left }
        ensures failures { self.new.failures ≡ self.old.failures }
    {
        let frame = self.frames.frame();
        self.bytes = self.bytes.saturating_add(frame.len() as u64);
        self.applied.pass(frame, &mut self.ready)?;
        self.edges.note(self.ready.as_slice())
    }

    // Hands on what is ready.
    fn hand(&mut self, buf: &mut [u8]) -> usize
        ensures within { result ≤ length buf.old }
        ensures length { length buf.new ≡ length buf.old }
        ensures left { self.new.left ≡ self.old.left }
        ensures failures { self.new.failures ≡ self.old.failures }
        ensures last { self.new.failed_last ≡ self.old.failed_last }
    {
        let there = self.ready.get(self.at..).unwrap_or(&[]);
        let count = there.len().min(buf.len());
        buf[..count].copy_from_slice(&there[..count]);
        self.at = self.at.saturating_add(count);
        count
    }

    // A call has failed.
    fn fail(&mut self) -> Failed
        ensures failed { HasFailed self.old.failures self.new.failures }
        ensures last { self.new.failed_last ≡ true }
    {
        self.failures = self.failures.saturating_add(1);
        self.failed_last = true;
        Failed
    }
}

impl<R: Source + Drop> AtHand for Epochs<R> {
    fn has_more(&self) -> bool {
        self.at < self.ready.len() || self.is_ahead || self.frames.has_more()
    }
}

impl<R: Source + Drop> Source for Epochs<R> {
    ghost use Rattle.std.specs.Prelude.{None};

    ghost remaining = { λ _. None };

    ghost reads_left = { λ s. s.left };

    ghost failures = { λ s. s.failures };

    ghost failed_last = { λ s. s.failed_last };

    fn read_some(&mut self, buf: &mut [u8]) -> Result<usize, Failed> {
        if self.left == 0 || self.is_broken {
            return Err(self.fail());
        }
        if self.at >= self.ready.len() && self.fill().is_err() {
            self.is_broken = true;
            return Err(self.fail());
        }
        self.failed_last = false;
        self.left -= 1;
        Ok(self.hand(buf))
    }
}
