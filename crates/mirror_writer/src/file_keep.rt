// Commits are kept in a SQLite file.
ghost use Rattle.std.specs.Prelude.{◌≡◌};

use crate::keep::Keep;
use crate::stop::Stop;
use mirror_file::{FileFault, follow, note_system};
use mirror_statements::{Commit, FileStatements};
use model::Lsn;
use sqlite::{Alter, Connection};
use std::alloc::Global;

/// Keeps commits in a SQLite file: some of them and their end in one transaction.
#[derive(Drop)]
pub struct FileKeep<'a, S: Alter> {
    alloc: Global,
    conn: &'a mut Connection<S>,
    file: &'a FileStatements,
}

impl<'a, S: Alter> FileKeep<'a, S> {
    /// In the file of this connection, by these statements.
    pub fn new(
        alloc: Global,
        conn: &'a mut Connection<S>,
        file: &'a FileStatements,
    ) -> FileKeep<'a, S>
        ensures { result.file.now ≡ file.now }
    {
        FileKeep { alloc, conn, file }
    }

    /// Notes whose stream the file follows from now on: the identifier of its system.
    pub fn note_system(&mut self, system: &str) -> Result<(), FileFault> {
        note_system(self.conn, system)
    }
}

impl<S: Alter> Keep for FileKeep<'_, S> {
    ghost use Rattle.mirror_writer.specs.Kept.{HasFollowed};

    ghost has_kept = { λ k commits. HasFollowed S.Store k.file.now.tables.items k.file.now.position.text commits k.conn.now };

    fn begin(&mut self) {}

    fn keep(&mut self, commits: &[Commit], end: Lsn) -> Result<(), Stop> {
        follow(self.alloc, self.conn, self.file, commits, end)?;
        Ok(())
    }
}
