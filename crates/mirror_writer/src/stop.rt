// Why commits are kept no further.
use mirror_file::FileFault;
use mirror_json::JsonFault;
use model::{Lsn, OutOfMemory};
use snapshot::ReadFault;
use std::io;
use thiserror::Error;

/// Why commits are kept no further. What was kept stands at its position.
#[derive(Clone, Copy, Debug, Error)]
pub enum Stop {
    /// The file can't be written.
    #[error("{0}")]
    File(FileFault),
    /// No lines can be made.
    #[error("no lines can be made: {0}")]
    Lines(JsonFault),
    /// Lines can't be written.
    #[error("cannot write lines: {0}")]
    Io(io::Error),
    /// The stream has a commit that was kept already: it ends at the first position, and what is kept is at
    /// the second.
    #[error("the stream has a commit again that the file has: it begins before the file's position")]
    OldCommit(Lsn, Lsn),
    /// The system had no memory for what is to be written.
    #[error("out of memory")]
    OutOfMemory,
}

impl From<FileFault> for Stop {
    fn from(fault: FileFault) -> Stop {
        Stop::File(fault)
    }
}

impl From<JsonFault> for Stop {
    fn from(fault: JsonFault) -> Stop {
        Stop::Lines(fault)
    }
}

impl From<io::Error> for Stop {
    fn from(error: io::Error) -> Stop {
        Stop::Io(error)
    }
}

impl From<OutOfMemory> for Stop {
    fn from(_e: OutOfMemory) -> Stop {
        Stop::OutOfMemory
    }
}

impl From<ReadFault> for Stop {
    fn from(_fault: ReadFault) -> Stop {
        Stop::OutOfMemory
    }
}
