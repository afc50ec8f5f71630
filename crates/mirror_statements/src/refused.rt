// Why statements aren't made.
use model::OutOfMemory;
use std::alloc::{AllocError, AllocFailed};
use thiserror::Error;

/// Why no statements are made of commits.
#[derive(Clone, Copy, Debug, PartialEq, Eq, Error)]
pub enum Refused {
    /// A change names a table that isn't there.
    #[error("a change names an unknown table")]
    UnknownTable,
    /// The system had no memory for the statements.
    #[error("out of memory")]
    OutOfMemory,
}

impl From<OutOfMemory> for Refused {
    fn from(_e: OutOfMemory) -> Refused {
        Refused::OutOfMemory
    }
}

impl From<AllocError> for Refused {
    fn from(_e: AllocError) -> Refused {
        Refused::OutOfMemory
    }
}

impl<T: Drop> From<AllocFailed<T>> for Refused {
    fn from(_e: AllocFailed<T>) -> Refused {
        Refused::OutOfMemory
    }
}
