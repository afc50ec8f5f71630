// Commits are written to a file.
ghost use Rattle.std.specs.Prelude.{◌≡◌, IsTrue, OnOk, OnErr};
ghost use Rattle.sqlite.specs.State.{HasCleanDisk, Survives};
ghost use Rattle.sqlite.specs.Held.{state};
ghost use Rattle.sql_batch.specs.Batches.{RunInOne, IsBehind};
ghost use Rattle.mirror_statements.specs.Asked.{asked_by};

use crate::fault::FileFault;
use mirror_statements::{Commit, FileStatements, batch_of};
use model::Lsn;
use sql_batch::run_in_one;
use sqlite::{Alter, Connection};
use std::alloc::Global;

/// Writes what commits ask for, and the position at the end of the last, in one transaction. One that is
/// refused changes nothing of what the connection shows; but a commit that answered an error may stand on
/// the disk, so open the file again and read its position.
pub fn follow<S: Alter>(
    alloc: Global,
    conn: &mut Connection<S>,
    file: &FileStatements,
    commits: &[Commit],
    end: Lsn,
) -> Result<(), FileFault>
    ensures all { HasCleanDisk (state S.Store conn.new) → OnOk result
        (RunInOne S.Store (asked_by file.now.tables.items file.now.position.text commits.now end) conn.old (state S.Store conn.new).committed) }
    ensures none { HasCleanDisk (state S.Store conn.new) → IsTrue (state S.Store conn.new).is_open
        → OnErr result (((state S.Store conn.new).now ≡ (state S.Store conn.old).now) × ((state S.Store conn.new).committed ≡ (state S.Store conn.old).committed)) }
    ensures crash { Survives (state S.Store conn.old) (state S.Store conn.new)
        (IsBehind S.Store (asked_by file.now.tables.items file.now.position.text commits.now end) conn.old) }
{
    let statements = batch_of(alloc, file, commits, end)?;
    run_in_one(conn, statements.as_slice())?;
    Ok(())
}
