// Frames of 100 bytes: a header of five, XLogData's 25, and 70 of payload.

ghost use Rattle.std.specs.Prelude.{◌≡◌, ◌<◌, []};

use crate::LAP;
use crate::counts::Counts;
use frames::{CopyItem, Failed, FrameFault, Frames, Source};
use std::alloc::{AllocError, Global};

const HEADERS: &[u8] = b"d\0\0\0\x63w\0\0\0\0\0\0\0\0\0\0\0\0\0\0\0\0\0\0\0\0\0\0\0\0";

const PAYLOAD: &[u8] = b"a payload of seventy bytes, which is about what an insert of a row has";

/// The frames of one lap.
fn lap_of_frames(alloc: Global) -> Result<Vec<u8>, AllocError> {
    let mut lap = Vec::new(alloc);
    for _ in 0..LAP {
        lap.extend_from_slice(HEADERS)?;
        lap.extend_from_slice(PAYLOAD)?;
    }
    Ok(lap)
}

/// Hands out all that was read, and counts it.
fn count_items(frames: &mut Frames, counts: &mut Counts)
    ensures { frames.new.items ≡ [] }
{
    while let Some(item) = frames.next() {
        if let CopyItem::Wal { payload, .. } = item {
            counts.add(payload.len());
        }
    }
}

/// Feeds the laps in pieces of this many bytes.
pub fn feed(alloc: Global, laps: u64, piece: usize) -> Result<Counts, FrameFault> {
    let lap = lap_of_frames(alloc)?;
    let mut frames = Frames::new(alloc);
    let mut counts = Counts::new();
    for _ in 0..laps {
        for bytes in lap.chunks(piece.max(1)) {
            frames.feed(bytes)?;
            count_items(&mut frames, &mut counts);
        }
    }
    frames.finish()?;
    Ok(counts)
}

/// A source over bytes, which gives at most so many of them a read.
#[derive(Drop)]
struct Pieces<'a> {
    unread: &'a [u8],
    piece: usize,
    ghost gives: { 0 < piece },
}

impl Source for Pieces<'_> {
    ghost use Rattle.std.specs.Prelude.{length, Some, false};

    ghost remaining = { λ s. Some s.unread.now };

    ghost reads_left = { λ s. length s.unread.now };

    ghost failures = { λ _. 0 };

    ghost failed_last = { λ _. false };

    fn read_some(&mut self, buf: &mut [u8]) -> Result<usize, Failed> {
        let unread = self.unread;
        let count = unread.len().min(buf.len()).min(self.piece);
        buf[..count].copy_from_slice(&unread[..count]);
        self.unread = &unread[count..];
        Ok(count)
    }
}

/// Pulls the laps from a source that gives this many bytes a read.
pub fn pull(alloc: Global, laps: u64, piece: usize) -> Result<Counts, FrameFault> {
    let lap = lap_of_frames(alloc)?;
    let mut frames = Frames::new(alloc);
    let mut counts = Counts::new();
    for _ in 0..laps {
        let mut source = Pieces {
            unread: &lap,
            piece: piece.max(1),
        };
        'pulls: while frames.pull(&mut source)? {
            count_items(&mut frames, &mut counts);
        }
    }
    frames.finish()?;
    Ok(counts)
}
