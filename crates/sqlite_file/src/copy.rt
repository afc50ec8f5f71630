// A copy of a file is put in its place.
use crate::file::SqliteFile;
use sqlite::Error as SqlError;
use std::alloc::AllocError;
use std::fs::{self, OpenOptions};
use std::io::{self, ErrorKind, Seek, SeekFrom, Write};
use thiserror::Error;

/// Why no copy was put in its place. What stood there stands there still.
#[derive(Clone, Copy, Debug, Error)]
pub enum CopyFault {
    /// A file can't be read or written.
    #[error("{0}")]
    Io(io::Error),
    /// SQLite refuses the copy.
    #[error("SQLite: {0}")]
    Sqlite(SqlError),
    /// The system had no memory.
    #[error("out of memory")]
    OutOfMemory,
}

impl From<io::Error> for CopyFault {
    fn from(error: io::Error) -> CopyFault {
        CopyFault::Io(error)
    }
}

impl From<SqlError> for CopyFault {
    fn from(error: SqlError) -> CopyFault {
        CopyFault::Sqlite(error)
    }
}

impl From<AllocError> for CopyFault {
    fn from(_e: AllocError) -> CopyFault {
        CopyFault::OutOfMemory
    }
}

/// Puts a copy of a SQLite file, as its last commit left it, in a place. The file may be open, but nothing
/// may write it meanwhile. A reader of that place sees what stood there before, or the copy whole.
pub fn copy_file(rt: &HostRuntime, from: &str, to: &str) -> Result<(), CopyFault> {
    let alloc = rt.alloc();
    let log = format!(in alloc; "{from}-wal")?;
    let made = format!(in alloc; "{to}.new")?;
    let made_log = format!(in alloc; "{to}.new-wal")?;
    remove(rt, made.as_str())?;
    remove(rt, made_log.as_str())?;
    fs::copy(rt, from, made.as_str())?;
    fs::copy(rt, log.as_str(), made_log.as_str())?;
    SqliteFile::open(rt, made.as_str())?.close()?;
    remove(rt, made_log.as_str())?;
    settle(rt, made.as_str())?;
    fs::rename(rt, made.as_str(), to)?;
    Ok(())
}

// Removes a file, if it is there.
fn remove(rt: &HostRuntime, path: &str) -> io::Result<()> {
    match fs::remove_file(rt, path) {
        Err(error) if error.kind() == ErrorKind::NotFound => Ok(()),
        removed => removed,
    }
}

// Marks a file whose log was taken in as one without a log, so that a reader needs none beside it (SQLite's
// file format: bytes 18 and 19 are 1), and has it written to the disk.
fn settle(rt: &HostRuntime, path: &str) -> io::Result<()> {
    let mut file = OpenOptions::new().write(true).open(rt, path)?;
    file.seek(SeekFrom::Start(18))?;
    file.write_all(&[1, 1])?;
    file.sync_all()
}
