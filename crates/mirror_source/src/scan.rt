// The streamed transactions that a file has.
use crate::frame::{FrameReader, int32_at, int64_at, message_of};
use frames::{Failed, Source};
use model::{Lsn, Xid};
use std::alloc::Global;

/// The streamed transactions of a stream that committed before a position, by their numbers in order. The
/// stream is read to its end.
pub fn find_applied<R: Source + Drop>(
    alloc: Global,
    source: R,
    position: Lsn,
) -> Result<Vec<Xid>, Failed> {
    let mut found = Vec::new(alloc);
    let Ok(mut frames) = FrameReader::new(alloc, source) else {
        return Err(Failed);
    };
    for _ in 0..u64::MAX {
        frames.advance()?;
        if frames.frame().is_empty() {
            break;
        }
        let message = message_of(frames.frame());
        if message.first() == Some(&b'c')
            && int64_at(message, 6) < position
            && found.push(int32_at(message, 1)).is_err()
        {
            return Err(Failed);
        }
    }
    found.sort_unstable();
    Ok(found)
}
