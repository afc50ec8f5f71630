// Frames of a stream, each read whole, and the message in one.
use frames::{Failed, MAX_LENGTH, Source};
use std::alloc::{AllocError, Global};

/// How many bytes stand before the message of an XLogData frame: its header, the positions and the time.
const BEFORE_MESSAGE: usize = 30;

/// How many bytes the tag and the length of a frame have.
const HEADER: usize = 5;

/// The tags of frames: CopyData, CopyDone, ErrorResponse, NoticeResponse, ParameterStatus.
const TAGS: &[u8] = b"dcENS";

/// How many bytes are read at once.
const CHUNK: usize = 64 * 1024;

/// Reads frames whole.
#[derive(Drop)]
pub struct FrameReader<R: Source + Drop> {
    source: R,
    /// What was read at once, and where what is left of it begins and ends.
    chunk: Vec<u8>,
    at: usize,
    end: usize,
    frame: Vec<u8>,
}

impl<R: Source + Drop> FrameReader<R> {
    /// Nothing was read yet.
    pub fn new(alloc: Global, source: R) -> Result<FrameReader<R>, AllocError> {
        let mut chunk = Vec::new(alloc);
        chunk.resize(CHUNK, 0)?;
        Ok(FrameReader {
            source,
            chunk,
            at: 0,
            end: 0,
            frame: Vec::new(alloc),
        })
    }

    /// Reads the next frame. At the end of the input there is what is left of one, and then nothing.
    pub fn advance(&mut self) -> Result<(), Failed> {
        self.frame.clear();
        self.fill(HEADER)?;
        let size = match self.frame.as_slice() {
            [tag, a, b, c, d] => size_of(*tag, u32::from_be_bytes([*a, *b, *c, *d])),
            _ => 0,
        };
        self.fill(size)
    }

    /// The frame that was read.
    pub fn frame(&self) -> &[u8] {
        self.frame.as_slice()
    }

    /// Whether more was read than the frames so far.
    pub fn has_more(&self) -> bool {
        self.at < self.end
    }

    // Reads until the frame has so many bytes, or the input ends.
    fn fill(&mut self, size: usize) -> Result<(), Failed> {
        for _ in 0..u64::MAX {
            let missing = size.saturating_sub(self.frame.len());
            if missing == 0 {
                break;
            }
            let there = self.chunk.get(self.at..self.end).unwrap_or(&[]);
            let taken = there.get(..missing).unwrap_or(there);
            if self.frame.extend_from_slice(taken).is_err() {
                return Err(Failed);
            }
            self.at = self.at.saturating_add(taken.len());
            if self.at >= self.end && missing > taken.len() {
                self.at = 0;
                self.end = self.source.read_some(&mut self.chunk)?;
                if self.end == 0 {
                    break;
                }
            }
        }
        Ok(())
    }
}

// How many bytes a frame of this tag and length has. Of what is no frame the header alone is handed on:
// whoever applies the stream refuses it by that.
fn size_of(tag: u8, length: u32) -> usize {
    if TAGS.contains(&tag) && length <= MAX_LENGTH {
        (length as usize).saturating_add(1)
    } else {
        HEADER
    }
}

/// The message in a frame of XLogData; empty in any other.
pub fn message_of(frame: &[u8]) -> &[u8] {
    match (frame.first(), frame.get(5)) {
        (Some(b'd'), Some(b'w')) => frame.get(BEFORE_MESSAGE..).unwrap_or(&[]),
        _ => &[],
    }
}

/// The number of four bytes at this place; 0 where there are fewer.
pub fn int32_at(bytes: &[u8], at: usize) -> u32 {
    match bytes.get(at..).unwrap_or(&[]) {
        [a, b, c, d, ..] => u32::from_be_bytes([*a, *b, *c, *d]),
        _ => 0,
    }
}

/// The number of eight bytes at this place; 0 where there are fewer.
pub fn int64_at(bytes: &[u8], at: usize) -> u64 {
    match bytes.get(at..).unwrap_or(&[]) {
        [a, b, c, d, e, f, g, h, ..] => u64::from_be_bytes([*a, *b, *c, *d, *e, *f, *g, *h]),
        _ => 0,
    }
}

/// Appends a frame without the transaction's number that stands behind the tag of its message, as it is
/// outside of a streamed block.
pub fn push_unstreamed(frame: &[u8], out: &mut Vec<u8>) -> Result<(), AllocError> {
    let length = int32_at(frame, 1).saturating_sub(4);
    out.push(b'd')?;
    out.extend_from_slice(&length.to_be_bytes())?;
    out.extend_from_slice(frame.get(5..BEFORE_MESSAGE + 1).unwrap_or(&[]))?;
    out.extend_from_slice(frame.get(BEFORE_MESSAGE + 5..).unwrap_or(&[]))
}
