// Status updates among the bytes that are sent.
ghost use Rattle.std.specs.Prelude.{◌≡◌, ◌≤◌, length};
ghost use Rattle.frames.specs.Wire.{int64};
ghost use Rattle.mirror_devices.specs.Updates.{flushed_in};

use frames::Status;

/// How many bytes the frame of a status update has.
pub const FRAME_LEN: usize = 39;

/// Up to where a status update says that the log was flushed; none where the bytes are no whole frame
/// of one.
pub fn flushed(bytes: &[u8]) -> Option<u64>
    ensures { result ≡ flushed_in bytes.now }
{
    if bytes.len() == FRAME_LEN && bytes[0] == b'd' && bytes[5] == b'r' {
        Some(int64(&bytes[14..22]))
    } else {
        None
    }
}

#[tactic(auto, unfolding(frames::specs::Wire::int64))]
fn int64(bytes: &[u8]) -> u64
    requires { length bytes.now ≡ 8 }
    ensures { result ≡ int64 bytes.now }
{
    u64::from_be_bytes([
        bytes[0], bytes[1], bytes[2], bytes[3], bytes[4], bytes[5], bytes[6], bytes[7],
    ])
}

/// The status update in a frame, which says that no more than a position was flushed and applied.
pub fn lower(frame: &[u8], to: u64) -> Status
    requires { length frame.now ≡ 39 }
    ensures { (result.flushed ≤ to) × (result.applied ≤ to) }
{
    Status {
        written: int64(&frame[6..14]),
        flushed: int64(&frame[14..22]).min(to),
        applied: int64(&frame[22..30]).min(to),
        clock: int64(&frame[30..38]).cast_signed(),
    }
}

/// The status update in a frame, where it says less than a position with that position in its place.
pub fn raise(frame: &[u8], from: u64) -> Status
    requires { length frame.now ≡ 39 }
    ensures { (from ≤ result.written) × ((from ≤ result.flushed) × (from ≤ result.applied)) }
{
    Status {
        written: int64(&frame[6..14]).max(from),
        flushed: int64(&frame[14..22]).max(from),
        applied: int64(&frame[22..30]).max(from),
        clock: int64(&frame[30..38]).cast_signed(),
    }
}
