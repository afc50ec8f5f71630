// A file that a capture left: what it is of, and how far it can be kept, so that another goes on behind it.
use crate::fault::Fault;
use crate::marks::{Mark, Phase};
use crate::report::write_report;
use crate::stream::{Sent, Subscription, read_frame};
use crate::wire;
use crate::wire::{HEADER, declared_length};
use std::alloc::Global;
use std::io::{BufReader, ErrorKind, Read};

/// The first frame of a captured file, and of what a follower is given: a notice, which readers skip. It says
/// what the stream is of, and whether it begins with a copy of the rows.
pub fn label(
    alloc: Global,
    asked: &Subscription<'_>,
    identifier: &str,
    is_copied: bool,
) -> Result<Vec<u8>, Fault> {
    let publication = asked.publication;
    let slot = asked.slot.name;
    let copy = if is_copied {
        ", with a copy of its rows"
    } else {
        ""
    };
    let text = format!(in alloc;
        "publication {publication:?} through slot {slot:?} of system {identifier}{copy}"
    )?;
    write_report(alloc, b'N', "NOTICE", "00000", text.as_str())
}

/// What of a file can be kept: whole frames up to its last edge outside of transactions and of blocks.
#[derive(Debug, Drop)]
pub struct Kept {
    /// How many bytes these are.
    pub length: u64,
    /// The greatest place of the log that any whole frame of the file named.
    pub position: u64,
    /// The greatest place at which a commit ends.
    pub committed: u64,
    /// The streamed transactions that are open there.
    pub open: Vec<u32>,
}

/// Reads a captured file whose first frame is one of these labels. It answers what can be kept of it, and
/// whether it begins with a copy of the rows.
pub fn read_kept<R: Read + Drop>(
    alloc: Global,
    file: R,
    plain: &[u8],
    copied: &[u8],
) -> Result<(Kept, bool), Fault> {
    let mut source = BufReader::new(alloc, file).map_err(Fault::CannotRead)?;
    let mut frame = Vec::new(alloc);
    match next_frame(&mut source, &mut frame) {
        Ok(true) => {}
        Ok(false) | Err(Fault::Nonsense(_)) => return Err(Fault::OtherCapture),
        Err(fault) => return Err(fault),
    }
    let is_copied = frame.as_slice() == copied;
    if !is_copied && frame.as_slice() != plain {
        return Err(Fault::OtherCapture);
    }
    let mut going = Going::new(alloc, frame.len() as u64);
    for _ in 0..u64::MAX {
        match next_frame(&mut source, &mut frame) {
            Ok(true) => {
                if !going.take(frame.as_slice())? {
                    break;
                }
            }
            // What a machine that went down left behind its last frame.
            Ok(false) | Err(Fault::Nonsense(_)) => break,
            Err(fault) => return Err(fault),
        }
    }
    Ok((going.kept(), is_copied))
}

/// Reads the next frame. It answers whether there is a whole one.
fn next_frame<R: Read + Drop>(
    source: &mut BufReader<R>,
    frame: &mut Vec<u8>,
) -> Result<bool, Fault> {
    let mut header = [0u8; HEADER];
    if !fill(source, &mut header)? {
        return Ok(false);
    }
    let length = declared_length(&header)?;
    frame.clear();
    frame.extend_from_slice(&header)?;
    frame.resize(length, 0)?;
    match frame.as_mut_slice().get_mut(HEADER..) {
        Some(rest) => fill(source, rest),
        None => Ok(true),
    }
}

/// Fills the buffer. It answers whether there were so many bytes.
fn fill<R: Read + Drop>(source: &mut BufReader<R>, buf: &mut [u8]) -> Result<bool, Fault> {
    match source.read_exact(buf) {
        Ok(()) => Ok(true),
        Err(error) if error.kind() == ErrorKind::UnexpectedEof => Ok(false),
        Err(error) => Err(Fault::CannotRead(error)),
    }
}

/// Where the reading of a file stands.
#[derive(Drop)]
struct Going {
    kept: Kept,
    /// How many bytes were read.
    offset: u64,
    phase: Phase,
    /// The transaction that opened in the block that is going on.
    fresh: Option<u32>,
}

impl Going {
    fn new(alloc: Global, offset: u64) -> Going {
        Going {
            kept: Kept {
                length: offset,
                position: 0,
                committed: 0,
                open: Vec::new(alloc),
            },
            offset,
            phase: Phase::Outside,
            fresh: None,
        }
    }

    /// Takes a whole frame. It answers whether the stream goes on behind it.
    fn take(&mut self, frame: &[u8]) -> Result<bool, Fault> {
        let Ok(sent) = read_frame(frame) else {
            return Ok(false);
        };
        match sent {
            Sent::Data { start, end, mark } => {
                self.kept.position = self.kept.position.max(start).max(end);
                self.note(mark)?;
            }
            Sent::Keepalive { end, .. } => self.kept.position = self.kept.position.max(end),
            Sent::Skipped => {}
            Sent::Done | Sent::Shutdown | Sent::Error => return Ok(false),
        }
        self.offset = self.offset.saturating_add(frame.len() as u64);
        if self.phase == Phase::Outside {
            self.kept.length = self.offset;
            self.fresh = None;
        }
        Ok(true)
    }

    fn note(&mut self, mark: Mark) -> Result<(), Fault> {
        self.phase = self.phase.after(mark);
        match mark {
            Mark::StreamStart { xid } => {
                if !self.kept.open.contains(&xid) {
                    self.kept.open.push(xid)?;
                    self.fresh = Some(xid);
                }
            }
            Mark::StreamCommit { xid, .. } => self.kept.open.retain(|open| *open != xid),
            Mark::StreamAbort {
                xid,
                subtransaction,
            } => {
                if xid == subtransaction {
                    self.kept.open.retain(|open| *open != xid);
                }
            }
            Mark::Begin { .. } | Mark::Commit { .. } | Mark::StreamStop | Mark::Other => {}
        }
        self.kept.committed = self.kept.committed.max(mark.commit_end().unwrap_or(0));
        Ok(())
    }

    /// What can be kept. A transaction that opened in a block that is cut off isn't open.
    fn kept(self) -> Kept {
        let mut kept = self.kept;
        if let Some(fresh) = self.fresh {
            kept.open.retain(|open| *open != fresh);
        }
        kept
    }
}

/// Frames that end these streamed transactions, which the server sends again from their beginnings: a
/// Stream Abort of each, at this place of the log.
pub fn aborts(alloc: Global, open: &[u32], position: u64) -> Result<Vec<u8>, Fault> {
    let mut frames = Vec::new(alloc);
    for xid in open {
        let mut message = Vec::new(alloc);
        message.push(b'A')?;
        message.extend_from_slice(&xid.to_be_bytes())?;
        message.extend_from_slice(&xid.to_be_bytes())?;
        message.extend_from_slice(&position.to_be_bytes())?;
        message.extend_from_slice(&[0; 8])?;
        let frame = wire::data(alloc, position, message.as_slice())?;
        frames.extend_from_slice(frame.as_slice())?;
    }
    Ok(frames)
}
