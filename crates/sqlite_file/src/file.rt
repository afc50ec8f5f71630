// A file that is open.
use sqlite::{Connection, Error, File, FileStore};

/// A SQLite file that is open. Nobody else can read it meanwhile.
pub struct SqliteFile {
    conn: Connection<FileStore<File>>,
}

impl SqliteFile {
    /// Opens the file, or makes it. The whole file is read, and checked.
    pub fn open(rt: &HostRuntime, path: &str) -> Result<SqliteFile, Error> {
        Ok(SqliteFile {
            conn: Connection::open(rt, path)?,
        })
    }

    /// The connection.
    pub fn connection(&mut self) -> &mut Connection<FileStore<File>> {
        &mut self.conn
    }

    /// Copies the log into the file, and closes both.
    pub fn close(self) -> Result<(), Error> {
        let SqliteFile { conn } = self;
        conn.close()
    }
}

impl Drop for SqliteFile {
    fn drop(self) {
        let SqliteFile { conn: _ } = self;
    }
}
