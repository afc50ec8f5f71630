// Status updates, which tell the server how far its log was written, flushed and applied here.
ghost use Rattle.std.specs.Prelude.{ℕ, List, ◌≡◌, ◌≢◌, ◌⊎◌, ◌++◌, true, Err, IsOkUnless, IfErr, IfOk, OnOk, OnErr};
ghost use Rattle.std.specs.Io.KnownBytes.{Appends, Keeps};
ghost use Rattle.frames.specs.Status.{status_frame};
ghost use Rattle.frames.specs.Wire.{spelled32, spelled64};
ghost use Rattle.frames.specs.Device.{HasFailed};

use crate::{FrameFault, Lsn, Sink};
use std::alloc::{AllocError, Global};

/// How far the server's log has come here (PostgreSQL manual: Streaming Replication Protocol, Standby status update).
/// The clock is in microseconds since 2000-01-01.
#[derive(Clone, Copy, Debug, PartialEq, Eq)]
pub struct Status {
    pub written: Lsn,
    pub flushed: Lsn,
    pub applied: Lsn,
    pub clock: i64,
}

#[tactic(auto, unfolding(crate::specs::Wire::spelled32))]
fn put_int32(out: &mut Vec<u8>, n: u32) -> Result<(), AllocError>
    ensures { OnOk result (out.new.items ≡ out.old.items ++ spelled32 n) }
{
    out.extend_from_slice(&n.to_be_bytes())
}

#[tactic(auto, unfolding(crate::specs::Wire::spelled64))]
fn put_int64(out: &mut Vec<u8>, n: u64) -> Result<(), AllocError>
    ensures { OnOk result (out.new.items ≡ out.old.items ++ spelled64 n) }
{
    out.extend_from_slice(&n.to_be_bytes())
}

fn status_frame(alloc: Global, s: &Status) -> Result<Vec<u8>, AllocError>
    ensures { IfOk result (λ frame. frame.items ≡ status_frame s.now) }
{
    let mut frame = Vec::with_capacity(alloc, 39)?;
    frame.push(b'd')?;
    put_int32(&mut frame, 38)?;
    frame.push(b'r')?;
    put_int64(&mut frame, s.written)?;
    put_int64(&mut frame, s.flushed)?;
    put_int64(&mut frame, s.applied)?;
    put_int64(&mut frame, s.clock.cast_unsigned())?;
    frame.push(0)?;
    Ok(frame)
}

/// Appends the frame of a status update. Only memory refuses it.
pub fn write_status(s: &Status, out: &mut Vec<u8>) -> Result<(), FrameFault>
    ensures ok { OnOk result (out.new.items ≡ out.old.items ++ status_frame s.now) }
    ensures only { IsOkUnless result FrameFault.OutOfMemory }
    ensures err { OnErr result (out.new.items ≡ out.old.items) }
{
    let frame = status_frame(*out.allocator(), s)?;
    out.extend_from_slice(&frame)?;
    Ok(())
}

/// Sends the frame of a status update, in as many writes as the sink needs. It is refused where the sink fails, or
/// memory. Where the sink failed a beginning of the frame went out, where memory was refused nothing.
pub fn send_status<W: Sink>(alloc: Global, s: &Status, w: &mut W) -> Result<(), FrameFault>
    ensures ok { OnOk result
        (Appends (W.contents w.old) (W.contents w.new) (status_frame s.now)) }
    ensures only { IfErr result
        (λ fault. (fault ≡ FrameFault.Device) ⊎ (fault ≡ FrameFault.OutOfMemory)) }
    ensures device { result ≡ Err FrameFault.Device
        → HasFailed (W.failures w.old) (W.failures w.new) × (W.failed_last w.new ≡ true) }
    ensures part { result ≡ Err FrameFault.Device → (sent : List ℕ) × (rest : List ℕ)
        × (status_frame s.now ≡ sent ++ rest) × Appends (W.contents w.old) (W.contents w.new) sent }
    ensures memory { result ≡ Err FrameFault.OutOfMemory → Keeps (W.contents w.old) (W.contents w.new) }
    ensures works { result ≢ Err FrameFault.Device → W.failures w.new ≡ W.failures w.old }
{
    let frame = status_frame(alloc, s)?;
    let mut rest = frame.as_slice();
    while !rest.is_empty() {
        let Ok(count) = w.write_some(rest) else {
            return Err(FrameFault::Device);
        };
        rest = &rest[count..];
    }
    Ok(())
}
