// Why a file can't be used.
use change::Clash;
use mirror_statements::Refused;
use model::{OutOfMemory, TableId};
use sqlite::{Error as SqlError, ErrorCode};
use std::alloc::{AllocError, AllocFailed};
use thiserror::Error;

/// Why a file can't be opened, or can't follow.
#[derive(Clone, Copy, Debug, PartialEq, Eq, Error)]
pub enum FileFault {
    /// SQLite refuses it.
    #[error("SQLite: {0}")]
    Sqlite(SqlError),
    /// Its tables were made for another catalog.
    #[error("its tables are of another catalog: take the catalog that made it, or begin a new file")]
    OtherCatalog,
    /// A row of it is none of its table in the catalog, which has this place there.
    #[error("a row of table {0} (0 is the first) is none of the catalog's: begin a new file")]
    Row(TableId),
    /// A row of it stands twice in a key, or has a null in its primary key.
    #[error("its rows break a key: {0}: begin a new file")]
    Key(Clash),
    /// A commit names a table that it hasn't.
    #[error("a commit names a table that it has not")]
    UnknownTable,
    /// The system had no memory.
    #[error("out of memory")]
    OutOfMemory,
}

impl From<SqlError> for FileFault {
    fn from(error: SqlError) -> FileFault {
        match error {
            SqlError::SqliteFailure(ErrorCode::OutOfMemory) => FileFault::OutOfMemory,
            _ => FileFault::Sqlite(error),
        }
    }
}

impl From<Refused> for FileFault {
    fn from(refused: Refused) -> FileFault {
        match refused {
            Refused::UnknownTable => FileFault::UnknownTable,
            Refused::OutOfMemory => FileFault::OutOfMemory,
        }
    }
}

impl From<Clash> for FileFault {
    fn from(clash: Clash) -> FileFault {
        match clash {
            Clash::OutOfMemory => FileFault::OutOfMemory,
            Clash::Unique { .. } | Clash::NullKey { .. } => FileFault::Key(clash),
        }
    }
}

impl From<OutOfMemory> for FileFault {
    fn from(_e: OutOfMemory) -> FileFault {
        FileFault::OutOfMemory
    }
}

impl From<AllocError> for FileFault {
    fn from(_e: AllocError) -> FileFault {
        FileFault::OutOfMemory
    }
}

impl<T: Drop> From<AllocFailed<T>> for FileFault {
    fn from(_e: AllocFailed<T>) -> FileFault {
        FileFault::OutOfMemory
    }
}
