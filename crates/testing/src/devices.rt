// Devices in memory, each of which fails from one call on if a test wants it.
ghost use Rattle.std.specs.Prelude.{◌<◌};

use frames::{Failed, Sink, Source};

/// Gives a stream in pieces of one length, and fails from one read on.
#[derive(Drop)]
pub struct Pieces<'a> {
    bytes: &'a [u8],
    size: usize,
    reads_before_failure: u64,
    failures: u64,
    failed_last: bool,
}

impl<'a> Pieces<'a> {
    /// No read fails.
    pub fn new(bytes: &'a [u8], size: usize) -> Pieces<'a> {
        Pieces::with_reads(bytes, size, u64::MAX)
    }

    /// So many reads succeed, and those behind them fail.
    pub fn with_reads(bytes: &'a [u8], size: usize, reads: u64) -> Pieces<'a> {
        Pieces {
            bytes,
            size,
            reads_before_failure: reads,
            failures: 0,
            failed_last: false,
        }
    }

    /// How often it has failed.
    pub fn failures(&self) -> u64 {
        self.failures
    }
}

impl Source for Pieces<'_> {
    ghost use Rattle.std.specs.Prelude.{None, length};

    ghost remaining = { λ _. None };

    ghost reads_left = { λ p. length p.bytes.now };

    ghost failures = { λ p. p.failures };

    ghost failed_last = { λ p. p.failed_last };

    fn read_some(&mut self, buf: &mut [u8]) -> Result<usize, Failed> {
        self.failed_last = self.reads_before_failure == 0;
        if self.failed_last {
            self.failures = self.failures.saturating_add(1);
            return Err(Failed);
        }
        self.reads_before_failure -= 1;
        let count = self.size.min(self.bytes.len()).min(buf.len());
        let (front, rest) = self.bytes.split_at(count);
        buf[..count].copy_from_slice(front);
        self.bytes = rest;
        Ok(count)
    }
}

/// Keeps what it takes, at most so many bytes a write, and fails from one write on, or where memory is refused.
#[derive(Drop)]
pub struct Kept<'a> {
    bytes: &'a mut Vec<u8>,
    size: usize,
    writes_before_failure: u64,
    failures: u64,
    failed_last: bool,
    ghost takes: { 0 < size },
}

impl<'a> Kept<'a> {
    /// No write fails, and each takes all.
    pub fn new(bytes: &'a mut Vec<u8>) -> Kept<'a> {
        Kept::with_writes(bytes, usize::MAX, u64::MAX)
    }

    /// So many writes of at most this size, one at least, succeed, and those behind them fail.
    pub fn with_writes(bytes: &'a mut Vec<u8>, size: usize, writes: u64) -> Kept<'a> {
        Kept {
            bytes,
            size: size.max(1),
            writes_before_failure: writes,
            failures: 0,
            failed_last: false,
        }
    }
}

impl Sink for Kept<'_> {
    ghost use Rattle.std.specs.Prelude.{Some};

    ghost contents = { λ k. Some k.bytes.now.items };

    ghost failures = { λ k. k.failures };

    ghost failed_last = { λ k. k.failed_last };

    fn write_some(&mut self, buf: &[u8]) -> Result<usize, Failed> {
        let count = buf.len().min(self.size);
        self.failed_last = self.writes_before_failure == 0
            || self.bytes.extend_from_slice(&buf[..count]).is_err();
        if self.failed_last {
            self.failures = self.failures.saturating_add(1);
            return Err(Failed);
        }
        self.writes_before_failure -= 1;
        Ok(count)
    }
}
