// A source that is watched.
ghost use Rattle.std.specs.Prelude.{◌≡◌, ◌<◌, ◌≤◌};

use crate::trace::Trace;
use frames::{Failed, Source};

/// Looks at a stream now and then, while it is read.
pub trait Watcher {
    /// More bytes have passed.
    fn look(&mut self, trace: &Trace);
}

/// A source whose bytes pass a trace.
#[derive(Debug, Drop)]
pub struct Watched<'a, R: Source, V: Watcher> {
    source: R,
    trace: &'a mut Trace,
    watcher: &'a mut V,
    /// Whether a read ends at a frame's edge.
    stops: bool,
}

impl<'a, R: Source, V: Watcher> Watched<'a, R, V> {
    /// A source that gives what `source` gives, from where that is. Where it `stops` at frames, no read
    /// goes past a frame's edge.
    pub fn new(
        source: R,
        trace: &'a mut Trace,
        watcher: &'a mut V,
        stops: bool,
    ) -> Watched<'a, R, V>
        ensures bytes { ⟦<Watched<'a, R, V> as Source>⟧.remaining result ≡ R.remaining source }
        ensures reads { ⟦<Watched<'a, R, V> as Source>⟧.reads_left result ≡ R.reads_left source }
        ensures failures { ⟦<Watched<'a, R, V> as Source>⟧.failures result ≡ R.failures source }
        ensures last { ⟦<Watched<'a, R, V> as Source>⟧.failed_last result ≡ R.failed_last source }
    {
        Watched {
            source,
            trace,
            watcher,
            stops,
        }
    }

    /// How many bytes may be read at once, of so many that are asked for.
    fn limit(&self, asked: usize) -> usize
        ensures within { result ≤ asked }
        ensures some { 0 < asked → 0 < result }
    {
        if self.stops {
            usize::try_from(self.trace.missing())
                .unwrap_or(usize::MAX)
                .min(asked)
        } else {
            asked
        }
    }
}

impl<R: Source, V: Watcher> Source for Watched<'_, R, V> {
    ghost remaining = { λ w. R.remaining w.source };

    ghost reads_left = { λ w. R.reads_left w.source };

    ghost failures = { λ w. R.failures w.source };

    ghost failed_last = { λ w. R.failed_last w.source };

    fn read_some(&mut self, buf: &mut [u8]) -> Result<usize, Failed> {
        let limit = self.limit(buf.len());
        let count = self.source.read_some(&mut buf[..limit])?;
        self.trace.pass(&buf[..count]);
        self.watcher.look(self.trace);
        Ok(count)
    }
}
