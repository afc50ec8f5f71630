// A commit that is to be followed.
ghost use Rattle.std.specs.Prelude.{List};

use model::{Change, Lsn, Xid};
use std::marker::Model;

/// A commit that is to be followed. A clause sees it as the world tells it.
#[derive(Debug, Drop)]
pub struct Commit {
    pub xid: Xid,
    /// Its changes that survived its rollbacks, in order, skipped ones too.
    pub changes: Vec<Change>,
    /// Where its commit stands in the publisher's log.
    pub commit: Lsn,
    /// Where the log goes on behind it.
    pub end: Lsn,
}

impl Model for Commit {
    ghost use Rattle.world.specs.World.{Entry};

    ghost Value = { Entry };

    ghost view = { λ c. record { xid = c.xid; changes = c.changes.items; commit = c.commit; end = c.end } };
}
