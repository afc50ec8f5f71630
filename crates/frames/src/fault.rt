// What refuses the input, or ends it.
ghost use Rattle.std.specs.Prelude.{◌≡◌};
ghost use Rattle.frames.specs.declared.fault.FrameFault.TheVariants.{OutOfMemory};

use std::alloc::AllocError;
use thiserror::Error;

/// Why frames can't be read further, or a status update can't be written.
#[derive(Clone, Copy, Debug, PartialEq, Eq, Error)]
pub enum FrameFault {
    /// A frame with a tag that no server sends here. It comes once the five bytes of tag and length are there.
    #[error("unknown frame")]
    UnknownFrame,
    /// A length that can't be: of a frame, found once its five header bytes are there, or of the
    /// content of a CopyData frame, found once the frame is whole.
    #[error("bad length")]
    BadLength,
    /// A length field over [`crate::MAX_LENGTH`], found once the five header bytes are there.
    #[error("frame too large")]
    TooLarge,
    /// The input ended inside a frame. Only `Frames::finish` answers it.
    #[error("input ended inside a frame")]
    Truncated,
    /// A CopyData frame that is neither XLogData nor a keepalive, found once the frame is whole.
    #[error("unknown copy data")]
    UnknownCopyTag,
    /// The server sent an ErrorResponse.
    #[error("error from the server")]
    ServerError,
    /// The source or the sink failed.
    #[error("device failed")]
    Device,
    /// A growth was refused.
    #[error("out of memory")]
    OutOfMemory,
}

impl From<AllocError> for FrameFault {
    ghost from_gives = { λ _ e. e ≡ OutOfMemory };

    fn from(_error: AllocError) -> FrameFault {
        FrameFault::OutOfMemory
    }
}
