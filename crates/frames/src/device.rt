// Where the bytes come from and where they go.
ghost use Rattle.std.specs.Prelude.{◌≡◌, ℕ, ◌<◌, ◌≤◌, Bool, true, false, List, Option, IfOk, OnOk, OnErr, is_err, take, length};
ghost use Rattle.std.specs.Io.KnownBytes.{Consumes, Keeps, Appends, IsAtEnd};
ghost use Rattle.frames.specs.Device.{HasFailed};

use std::io::{Read, Write};
use thiserror::Error;

/// A read or a write failed.
#[derive(Clone, Copy, Debug, PartialEq, Eq, Error)]
#[error("a read or a write failed")]
pub struct Failed;

/// Gives the bytes of a stream, some at a time.
pub trait Source {
    /// The bytes that it is still to give, where it tells them. A file or a socket doesn't.
    ghost remaining: { Self → Option (List ℕ) };
    /// A number that falls with each read that gives bytes, so a source can't give bytes for ever.
    ghost reads_left: { Self → ℕ };
    /// How often it has failed, up to `u64::MAX`.
    ghost failures: { Self → ℕ };
    /// Whether its last call failed.
    ghost failed_last: { Self → Bool };

    /// Reads some bytes into the front of `buf`, and answers how many: 0 only at the end of the input, or where `buf`
    /// is empty.
    fn read_some(&mut self, buf: &mut [u8]) -> Result<usize, Failed>
        ensures within { IfOk result (λ n. n ≤ length buf.old) }
        ensures bytes { IfOk result (λ n. Consumes (remaining self.old) (remaining self.new) (take n buf.new)) }
        ensures end { IfOk result (λ n. n ≡ 0 → 0 < length buf.old → IsAtEnd (remaining self.new)) }
        ensures falls { IfOk result (λ n. 0 < n → reads_left self.new < reads_left self.old) }
        ensures works { OnOk result (failures self.new ≡ failures self.old) }
        ensures failed { OnErr result (HasFailed (failures self.old) (failures self.new)) }
        ensures last { failed_last self.new ≡ is_err result }
        ensures kept { OnErr result (Keeps (remaining self.old) (remaining self.new)) };
}

/// Takes the bytes of a stream, some at a time.
pub trait Sink {
    /// The bytes that it has taken, where it tells them. A file or a socket doesn't.
    ghost contents: { Self → Option (List ℕ) };
    /// How often it has failed, up to `u64::MAX`.
    ghost failures: { Self → ℕ };
    /// Whether its last call failed.
    ghost failed_last: { Self → Bool };

    /// Takes some bytes off the front of `buf`, and answers how many: at least one, unless `buf` is empty.
    fn write_some(&mut self, buf: &[u8]) -> Result<usize, Failed>
        ensures within { IfOk result (λ n. n ≤ length buf.now) }
        ensures takes { IfOk result (λ n. 0 < length buf.now → 0 < n) }
        ensures bytes { IfOk result (λ n. Appends (contents self.old) (contents self.new) (take n buf.now)) }
        ensures works { OnOk result (failures self.new ≡ failures self.old) }
        ensures failed { OnErr result (HasFailed (failures self.old) (failures self.new)) }
        ensures last { failed_last self.new ≡ is_err result }
        ensures kept { OnErr result (Keeps (contents self.old) (contents self.new)) };
}

/// How the calls of a device went. They are counted down from `u64::MAX`; it fails where none is left.
#[derive(Debug, Drop)]
struct Calls {
    left: u64,
    failures: u64,
    failed_last: bool,
}

impl Calls {
    /// No call yet.
    fn new() -> Calls
        ensures { result ≡ record { left = u64.MAX; failures = 0; failed_last = false } }
    {
        Calls {
            left: u64::MAX,
            failures: 0,
            failed_last: false,
        }
    }

    /// A call has worked.
    fn work(&mut self)
        requires { 0 < self.old.left }
        ensures falls { self.new.left < self.old.left }
        ensures works { self.new.failures ≡ self.old.failures }
        ensures last { self.new.failed_last ≡ false }
    {
        self.left -= 1;
        self.failed_last = false;
    }

    /// A call has failed.
    fn fail(&mut self) -> Failed
        ensures failed { HasFailed self.old.failures self.new.failures }
        ensures last { self.new.failed_last ≡ true }
    {
        self.failures = self.failures.saturating_add(1);
        self.failed_last = true;
        Failed
    }
}

/// A source over a reader. It counts its reads down from `u64::MAX`, and then fails.
#[derive(Debug, Drop)]
pub struct ReadSource<R> {
    reader: R,
    calls: Calls,
}

impl<R: Read> ReadSource<R> {
    /// A source that has read nothing yet.
    pub fn new(reader: R) -> ReadSource<R>
        ensures bytes { ⟦<ReadSource<R> as Source>⟧.remaining result ≡ R.remaining reader }
        ensures reads { ⟦<ReadSource<R> as Source>⟧.reads_left result ≡ u64.MAX }
        ensures failures { ⟦<ReadSource<R> as Source>⟧.failures result ≡ 0 }
        ensures last { ⟦<ReadSource<R> as Source>⟧.failed_last result ≡ false }
    {
        ReadSource {
            reader,
            calls: Calls::new(),
        }
    }
}

impl<R: Read> Source for ReadSource<R> {
    ghost remaining = { λ s. R.remaining s.reader };

    ghost reads_left = { λ s. s.calls.left };

    ghost failures = { λ s. s.calls.failures };

    ghost failed_last = { λ s. s.calls.failed_last };

    fn read_some(&mut self, buf: &mut [u8]) -> Result<usize, Failed> {
        if self.calls.left > 0 {
            if let Ok(count) = self.reader.read(buf) {
                self.calls.work();
                return Ok(count);
            }
        }
        Err(self.calls.fail())
    }
}

/// A sink over a writer. It counts its writes down from `u64::MAX`, and then fails; a write that takes nothing fails
/// too.
#[derive(Debug, Drop)]
pub struct WriteSink<W> {
    writer: W,
    calls: Calls,
}

impl<W: Write> WriteSink<W> {
    /// A sink that has written nothing yet.
    pub fn new(writer: W) -> WriteSink<W>
        ensures bytes { ⟦<WriteSink<W> as Sink>⟧.contents result ≡ W.contents writer }
        ensures failures { ⟦<WriteSink<W> as Sink>⟧.failures result ≡ 0 }
        ensures last { ⟦<WriteSink<W> as Sink>⟧.failed_last result ≡ false }
    {
        WriteSink {
            writer,
            calls: Calls::new(),
        }
    }
}

impl<W: Write> Sink for WriteSink<W> {
    ghost contents = { λ s. W.contents s.writer };

    ghost failures = { λ s. s.calls.failures };

    ghost failed_last = { λ s. s.calls.failed_last };

    fn write_some(&mut self, buf: &[u8]) -> Result<usize, Failed> {
        if self.calls.left > 0 {
            match self.writer.write(buf) {
                Ok(count) if count > 0 || buf.is_empty() => {
                    self.calls.work();
                    return Ok(count);
                }
                Ok(_) | Err(_) => {}
            }
        }
        Err(self.calls.fail())
    }
}
