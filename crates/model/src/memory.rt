// The one error of a call that can fail for memory alone.
use std::alloc::{AllocError, AllocFailed};
use std::error::Error;
use std::fmt;

/// The system had no memory for a growth that the call needed.
#[derive(Clone, Copy, Debug, PartialEq, Eq)]
pub struct OutOfMemory;

impl Error for OutOfMemory {}

impl fmt::Display for OutOfMemory {
    fn fmt<W: fmt::Write>(&self, f: &mut fmt::Formatter<W>) -> fmt::Result {
        write!(f, "memory was refused")
    }
}

impl From<AllocError> for OutOfMemory {
    fn from(_e: AllocError) -> OutOfMemory {
        OutOfMemory
    }
}

impl<T: Drop> From<AllocFailed<T>> for OutOfMemory {
    fn from(_e: AllocFailed<T>) -> OutOfMemory {
        OutOfMemory
    }
}
