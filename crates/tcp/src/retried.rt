// Reads and writes that a signal interrupts are tried again.
ghost use Rattle.std.specs.Prelude.{◌≡◌, ◌≢◌, ◌↔◌, IsTrue, IfErr, IsErrAnd};
ghost use Rattle.std.specs.Io.{ReadsAtMost, WritesAtMost};
ghost use Rattle.std.specs.Io.KnownBytes.{ReadConsumes, WriteAppends, Keeps};
ghost use Rattle.std.specs.IoError.{error_kind};

use std::io;
use std::io::{ErrorKind, Read, Write};

/// How often one call is tried.
const TRIES: u32 = 1_000_000;

/// A reader or a writer over one whose calls a signal may interrupt: they are tried again. One that is
/// interrupted a million times in a row has timed out.
#[derive(Debug, Drop)]
pub struct Retried<S> {
    stream: S,
}

impl<S> Retried<S> {
    /// Over this stream.
    pub fn new(stream: S) -> Retried<S>
        ensures { result.stream ≡ stream }
    {
        Retried { stream }
    }
}

/// A signal interrupted the call that answered this.
fn is_interrupted<T>(answer: &io::Result<T>) -> bool
    ensures { IsTrue result ↔ IsErrAnd answer.now (λ e. error_kind e ≡ ErrorKind.Interrupted) }
{
    match answer {
        Ok(_) => false,
        Err(error) => error.kind() == ErrorKind::Interrupted,
    }
}

/// Returns the first answer of a call that no signal interrupted.
macro_rules! retry {
    ($call:expr) => {{
        for _ in 0..TRIES {
            let answer = $call;
            if !is_interrupted(&answer) {
                return answer;
            }
        }
        Err(io::Error::from(ErrorKind::TimedOut))
    }};
}

impl<R: Read> Read for Retried<R> {
    ghost remaining = { λ r. R.remaining r.stream };

    fn read(&mut self, buf: &mut [u8]) -> io::Result<usize>
        ensures bound { ReadsAtMost result buf.new }
        ensures bytes { ReadConsumes (R.remaining self.old.stream) (R.remaining self.new.stream) result buf.new }
        ensures retried { IfErr result (λ e. error_kind e ≢ ErrorKind.Interrupted) }
    {
        retry!(self.stream.read(buf))
    }
}

impl<W: Write> Write for Retried<W> {
    ghost contents = { λ w. W.contents w.stream };

    fn write(&mut self, buf: &[u8]) -> io::Result<usize>
        ensures bound { WritesAtMost result buf.now }
        ensures bytes { WriteAppends (W.contents self.old.stream) (W.contents self.new.stream) result buf.now }
        ensures retried { IfErr result (λ e. error_kind e ≢ ErrorKind.Interrupted) }
    {
        retry!(self.stream.write(buf))
    }

    fn flush(&mut self) -> io::Result<()>
        ensures bytes { Keeps (W.contents self.old.stream) (W.contents self.new.stream) }
        ensures retried { IfErr result (λ e. error_kind e ≢ ErrorKind.Interrupted) }
    {
        retry!(self.stream.flush())
    }
}
