// Why commits have no lines.
use change::Clash;
use model::OutOfMemory;
use std::alloc::{AllocError, AllocFailed};
use thiserror::Error;

/// Why commits have no lines.
#[derive(Clone, Copy, Debug, PartialEq, Eq, Error)]
pub enum JsonFault {
    /// A change names a table that isn't there.
    #[error("a change names an unknown table")]
    UnknownTable,
    /// A change would break a key: these are no commits behind those before.
    #[error("a change breaks a key: {0}")]
    Key(Clash),
    /// The system had no memory for the lines.
    #[error("out of memory")]
    OutOfMemory,
}

impl From<Clash> for JsonFault {
    fn from(clash: Clash) -> JsonFault {
        match clash {
            Clash::OutOfMemory => JsonFault::OutOfMemory,
            Clash::Unique { .. } | Clash::NullKey { .. } => JsonFault::Key(clash),
        }
    }
}

impl From<OutOfMemory> for JsonFault {
    fn from(_e: OutOfMemory) -> JsonFault {
        JsonFault::OutOfMemory
    }
}

impl From<AllocError> for JsonFault {
    fn from(_e: AllocError) -> JsonFault {
        JsonFault::OutOfMemory
    }
}

impl<T: Drop> From<AllocFailed<T>> for JsonFault {
    fn from(_e: AllocFailed<T>) -> JsonFault {
        JsonFault::OutOfMemory
    }
}
