//! Why a payload is no message.

ghost use Rattle.std.specs.Prelude.{◌≡◌};
ghost use Rattle.messages.specs.declared.fault.MsgFault.TheVariants.{OutOfMemory};

use std::alloc::{AllocError, AllocFailed};
use thiserror::Error;

/// What is wrong with a payload, or that memory was refused.
#[derive(Clone, Copy, Debug, PartialEq, Eq, Error)]
pub enum MsgFault {
    /// The first byte is the tag of no message.
    #[error("unknown message tag")]
    UnknownTag = 1,
    /// The payload ends inside a field, or before the zero byte of a string.
    #[error("the message ends too early")]
    Short = 2,
    /// Bytes stand after the message's last field.
    #[error("bytes after the message")]
    Trailing = 3,
    /// No tuple stands where one must, or a column is of an unknown kind.
    #[error("bad kind of tuple or column")]
    BadTupleKind = 4,
    /// A name, a prefix or a text value is not UTF-8.
    #[error("text that is not UTF-8")]
    BadText = 5,
    /// A column holds a binary value, which this subscriber never asks for.
    #[error("binary column")]
    BinaryColumn = 6,
    /// A flag byte, an option byte or a replica identity has a value that is not defined.
    #[error("bad flag")]
    BadFlag = 7,
    /// A count or a length is negative.
    #[error("negative count")]
    NegativeCount = 8,
    /// A message of a two-phase transaction, which this subscriber never asks for.
    #[error("two-phase message")]
    TwoPhase = 9,
    /// Memory was refused.
    #[error("out of memory")]
    OutOfMemory = 10,
}

impl From<AllocError> for MsgFault {
    ghost from_gives = { λ _ e. e ≡ OutOfMemory };

    fn from(_error: AllocError) -> MsgFault {
        MsgFault::OutOfMemory
    }
}

impl<T: Drop> From<AllocFailed<T>> for MsgFault {
    ghost from_gives = { λ _ e. e ≡ OutOfMemory };

    fn from(_error: AllocFailed<T>) -> MsgFault {
        MsgFault::OutOfMemory
    }
}
