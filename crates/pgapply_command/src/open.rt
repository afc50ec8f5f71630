// Which transactions are open where a stream stops: what it has of them is undone.
use crate::progress::Progress;
use model::Xid;
use std::alloc::Global;
use std::rt::Clock;
use trace::{Place, Trace, Watcher};

/// Looks at a stream for `--verbose` and for `--progress`.
#[derive(Drop)]
pub struct Looks<H: Clock + Eprint> {
    /// Says how far it was read.
    pub progress: Progress<H>,
    /// Which transactions are open.
    pub open: Open,
}

impl<H: Clock + Eprint> Watcher for Looks<H> {
    fn look(&mut self, trace: &Trace) {
        self.progress.look(trace);
        self.open.look(trace);
    }
}

/// Keeps which transactions are open, of a trace that stops at each frame. A message counts once the next
/// begins: what a run ends at it did not take.
#[derive(Debug, Drop)]
pub struct Open {
    xids: Vec<Xid>,
    last: Option<Place>,
    /// Whether memory was refused, so that none is known.
    is_lost: bool,
}

impl Open {
    /// No transaction is open.
    pub fn new(alloc: Global) -> Open {
        Open {
            xids: Vec::new(alloc),
            last: None,
            is_lost: false,
        }
    }

    /// Takes where the stream stands.
    pub fn look(&mut self, trace: &Trace) {
        let place = trace.place();
        if let Some(last) = self.last
            && last.offset != place.offset
        {
            self.take(last);
        }
        self.last = Some(place);
    }

    /// How many are open behind the last message, which was taken if the run ended well. None if that is not
    /// known.
    pub fn count(&mut self, has_taken: bool) -> Option<usize> {
        if has_taken && let Some(last) = self.last.take() {
            self.take(last);
        }
        if self.is_lost {
            None
        } else {
            Some(self.xids.len())
        }
    }

    fn take(&mut self, place: Place) {
        let (Some(message), Some(xid)) = (place.message, place.xid) else {
            return;
        };
        match message {
            "Begin" | "Stream Start" => {
                if !self.xids.contains(&xid) {
                    self.is_lost = self.is_lost || self.xids.push(xid).is_err();
                }
            }
            "Commit" | "Stream Commit" => self.xids.retain(|open| *open != xid),
            "Stream Abort" if place.sub == Some(xid) => self.xids.retain(|open| *open != xid),
            _ => {}
        }
    }
}
