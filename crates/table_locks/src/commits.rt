// The commits of a table, as the journal's part and the table's own know them.
use model::{Change, Lsn};
use std::collections::LinkedList;
use std::marker::Model;

/// A commit in one table, for proofs alone: where the log goes on behind it, and its changes there
/// that survived. No value of it is made.
#[derive(Debug, Drop)]
pub struct TableCommit {
    end: Lsn,
    changes: LinkedList<Change>,
}

impl Model for TableCommit {
    ghost use Rattle.world_parts.specs.Lines.{TableCommit as Commit};
    ghost use Rattle.table_locks.specs.Codes.{commit_code};

    ghost Value = { Commit };

    ghost coded = { commit_code };

    ghost view = { λ c. record { end = c.end; changes = c.changes } };
}
