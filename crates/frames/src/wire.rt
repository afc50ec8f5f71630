// Frames on the wire: the header's checks, and the item in a whole frame.
ghost use Rattle.std.specs.Prelude.{◌≡◌, ◌<◌, ◌≤◌, length, IfNone, IfSome, IfErr};
ghost use Rattle.frames.specs.Wire.{int32, int64, header_fault, copy_item, copy_data};
ghost use Rattle.frames.specs.Reads.{IsStreamFault};
ghost use Rattle.frames.specs.Steps.{TakesFrame};

use crate::{CopyItem, FrameFault, MAX_LENGTH};
use bytes::{Bytes, BytesMut};

const COPY_DATA: u8 = b'd';

const COPY_DONE: u8 = b'c';

const NOTICE_RESPONSE: u8 = b'N';

const PARAMETER_STATUS: u8 = b'S';

const ERROR_RESPONSE: u8 = b'E';

const XLOG_DATA: u8 = b'w';

const KEEPALIVE: u8 = b'k';

#[tactic(auto, unfolding(crate::specs::Wire::int32))]
fn int32(bytes: &[u8]) -> u32
    requires { length bytes.now ≡ 4 }
    ensures { result ≡ int32 bytes.now }
{
    u32::from_be_bytes([bytes[0], bytes[1], bytes[2], bytes[3]])
}

#[tactic(auto, unfolding(crate::specs::Wire::int64))]
fn int64(bytes: &[u8]) -> u64
    requires { length bytes.now ≡ 8 }
    ensures { result ≡ int64 bytes.now }
{
    u64::from_be_bytes([
        bytes[0], bytes[1], bytes[2], bytes[3], bytes[4], bytes[5], bytes[6], bytes[7],
    ])
}

#[tactic(auto, unfolding(crate::specs::Wire::header_fault))]
fn header_fault(tag: u8, len: u32) -> Option<FrameFault>
    ensures fault { result ≡ header_fault tag len }
    ensures least { IfNone result (tag ≡ copy_data → 5 ≤ len) }
    ensures kind { IfSome result IsStreamFault }
{
    let least = match tag {
        COPY_DATA => 5,
        COPY_DONE | NOTICE_RESPONSE | PARAMETER_STATUS | ERROR_RESPONSE => 4,
        _ => return Some(FrameFault::UnknownFrame),
    };
    if len < least || len > i32::MAX as u32 || (tag == COPY_DONE && len != 4) {
        return Some(FrameFault::BadLength);
    }
    if len > MAX_LENGTH {
        return Some(FrameFault::TooLarge);
    }
    None
}

// The item in the content of a CopyData frame.
#[tactic(auto, unfolding(crate::specs::Wire::copy_item))]
fn copy_item(mut content: Bytes) -> Result<CopyItem, FrameFault>
    requires { 0 < length content }
    ensures item { result ≡ copy_item content }
    ensures kind { IfErr result IsStreamFault }
{
    let bytes = content.as_slice();
    match bytes[0] {
        XLOG_DATA => {
            if bytes.len() < 25 {
                return Err(FrameFault::BadLength);
            }
            let start = int64(&bytes[1..9]);
            let end = int64(&bytes[9..17]);
            content.advance(25);
            Ok(CopyItem::Wal {
                start,
                end,
                payload: content,
            })
        }
        KEEPALIVE => {
            if bytes.len() != 18 {
                return Err(FrameFault::BadLength);
            }
            Ok(CopyItem::Keepalive {
                end: int64(&bytes[1..9]),
                reply: bytes[17] != 0,
            })
        }
        _ => Err(FrameFault::UnknownCopyTag),
    }
}

/// What was taken off the unread bytes.
#[derive(Drop)]
pub(crate) enum Taken {
    /// Nothing: less than a whole frame is there.
    Part,
    /// A frame that is skipped.
    Skipped,
    /// A frame with an item.
    Given(CopyItem),
    /// CopyDone.
    Closing,
}

// Takes the first frame off, if it is whole.
#[tactic(auto, unfolding(crate::specs::Stream::front, crate::specs::Stream::frame_front))]
pub(crate) fn take_frame(unread: &mut BytesMut) -> Result<Taken, FrameFault>
    ensures frame { TakesFrame result unread.old.items unread.new.items }
    ensures kind { IfErr result IsStreamFault }
{
    let bytes = unread.as_slice();
    if bytes.len() < 5 {
        return Ok(Taken::Part);
    }
    let tag = bytes[0];
    let len = int32(&bytes[1..5]);
    if let Some(fault) = header_fault(tag, len) {
        return Err(fault);
    }
    let len = len as usize;
    if bytes.len() <= len {
        return Ok(Taken::Part);
    }
    match tag {
        COPY_DATA => {
            let mut frame = unread.freeze_to(len + 1)?;
            frame.advance(5);
            Ok(Taken::Given(copy_item(frame)?))
        }
        COPY_DONE => Ok(Taken::Closing),
        ERROR_RESPONSE => Err(FrameFault::ServerError),
        _ => {
            unread.advance(len + 1);
            Ok(Taken::Skipped)
        }
    }
}
