// Whether a run waits for the file that follows it.
use std::sync::atomic::{AtomicBool, Ordering};

/// Whether more of a stream is at hand, and whether a status update said less than was applied: what the
/// source and the sink of a run tell each other. As long as more is at hand the run doesn't wait for the file,
/// so commits gather there; before it waits for more of the stream, it waits for the file.
#[derive(Drop)]
pub struct Pace {
    has_more: AtomicBool,
    is_behind: AtomicBool,
}

impl Pace {
    /// Nothing is at hand, and no update said less.
    pub fn new() -> Pace {
        Pace {
            has_more: AtomicBool::new(false),
            is_behind: AtomicBool::new(false),
        }
    }

    /// More is at hand, or not.
    pub(crate) fn note_more(&self, has_more: bool) {
        self.has_more.store(has_more, Ordering::SeqCst);
    }

    pub(crate) fn has_more(&self) -> bool {
        self.has_more.load(Ordering::SeqCst)
    }

    /// An update said less than was applied, or all of it.
    pub(crate) fn note_behind(&self, is_behind: bool) {
        self.is_behind.store(is_behind, Ordering::SeqCst);
    }

    pub(crate) fn is_behind(&self) -> bool {
        self.is_behind.load(Ordering::SeqCst)
    }
}

/// A source that knows whether it can give more without waiting.
pub trait AtHand {
    /// Whether it can.
    fn has_more(&self) -> bool;
}
