// Devices that are lent to a run.
ghost use Rattle.std.specs.Prelude.{◌≡◌};

use frames::{Failed, Sink, Source};

/// A source that is lent to a run: what the run leaves of it is there for the next.
#[derive(Drop)]
pub struct LentSource<'a, S: Source> {
    source: &'a mut S,
}

impl<'a, S: Source> LentSource<'a, S> {
    /// It is lent this one.
    pub fn new(source: &'a mut S) -> LentSource<'a, S>
        ensures { ⟦<LentSource<'a, S> as Source>⟧.remaining result ≡ S.remaining source.old }
    {
        LentSource { source }
    }
}

impl<S: Source> Source for LentSource<'_, S> {
    ghost remaining = { λ l. S.remaining l.source.now };

    ghost reads_left = { λ l. S.reads_left l.source.now };

    ghost failures = { λ l. S.failures l.source.now };

    ghost failed_last = { λ l. S.failed_last l.source.now };

    fn read_some(&mut self, buf: &mut [u8]) -> Result<usize, Failed> {
        self.source.read_some(buf)
    }
}

/// A sink that is lent to a run.
#[derive(Drop)]
pub struct LentSink<'a, W: Sink> {
    sink: &'a mut W,
}

impl<'a, W: Sink> LentSink<'a, W> {
    /// It is lent this one.
    pub fn new(sink: &'a mut W) -> LentSink<'a, W>
        ensures { ⟦<LentSink<'a, W> as Sink>⟧.contents result ≡ W.contents sink.old }
    {
        LentSink { sink }
    }
}

impl<W: Sink> Sink for LentSink<'_, W> {
    ghost contents = { λ l. W.contents l.sink.now };

    ghost failures = { λ l. W.failures l.sink.now };

    ghost failed_last = { λ l. W.failed_last l.sink.now };

    fn write_some(&mut self, buf: &[u8]) -> Result<usize, Failed> {
        self.sink.write_some(buf)
    }
}
