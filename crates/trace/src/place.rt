// What a trace says: how much passed, and where the last frame stands.
use model::{Lsn, Xid};

/// How much of a stream was read.
#[derive(Clone, Copy, Debug, PartialEq, Eq)]
pub struct Counts {
    pub bytes: u64,
    /// Whole frames.
    pub frames: u64,
    /// Commits, of streamed transactions too.
    pub commits: u64,
    /// Inserts, updates, deletes and truncates.
    pub changes: u64,
    /// The end LSN of the last commit, or 0.
    pub position: Lsn,
}

/// The last frame, as far as it is known.
#[derive(Clone, Copy, Debug, PartialEq, Eq)]
pub struct Place {
    /// How many bytes of the stream stand before it.
    pub offset: u64,
    /// Where its piece of the publisher's log starts.
    pub start: Option<Lsn>,
    /// The name of its message.
    pub message: Option<&'static str>,
    /// The transaction that it belongs to, of a streamed one the whole.
    pub xid: Option<Xid>,
    /// The subtransaction.
    pub sub: Option<Xid>,
    /// The OID of the relation, of a truncate the first.
    pub relation: Option<u32>,
}

/// A relation that the stream described.
#[derive(Debug, Drop)]
pub struct Relation {
    pub oid: u32,
    pub namespace: String,
    pub name: String,
}
