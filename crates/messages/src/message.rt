//! The messages of protocol version 4: one variant a tag ('Logical Replication Message Formats' in the
//! PostgreSQL manual). Times are microseconds since 2000-01-01.

use crate::relation::{Relation, Truncate, TypeName};
use crate::row::{Delete, Insert, Update};
use crate::text::{Content, Name};

/// A position in the publisher's log.
pub type Lsn = u64;

/// A transaction of the publisher, or a subtransaction.
pub type Xid = u32;

/// An object of the publisher, as a relation or a type.
pub type Oid = u32;

/// One message. Where a message names a transaction or subtransaction only in a block of a streamed
/// transaction, its xid is there exactly then.
#[derive(Debug, Drop)]
pub enum Message {
    Begin(Begin),
    Commit(Commit),
    Origin(Origin),
    Relation {
        xid: Option<Xid>,
        relation: Relation,
    },
    TypeName(TypeName),
    Insert(Insert),
    Update(Update),
    Delete(Delete),
    Truncate(Truncate),
    Message(LogicalMessage),
    StreamStart(StreamStart),
    StreamStop,
    StreamCommit(StreamCommit),
    StreamAbort(StreamAbort),
}

/// 'B': a transaction begins that comes whole, since it is committed already.
#[derive(Debug, Drop)]
pub struct Begin {
    pub final_lsn: Lsn,
    pub commit_time: i64,
    pub xid: Xid,
}

/// 'C': the transaction that began last is committed.
#[derive(Debug, Drop)]
pub struct Commit {
    pub commit_lsn: Lsn,
    pub end_lsn: Lsn,
    pub commit_time: i64,
}

/// 'O': the transaction came to the publisher from elsewhere.
#[derive(Debug, Drop)]
pub struct Origin {
    pub lsn: Lsn,
    pub name: Name,
}

/// 'M': bytes that a program wrote into the publisher's log by `pg_logical_emit_message`.
#[derive(Debug, Drop)]
pub struct LogicalMessage {
    pub xid: Option<Xid>,
    pub transactional: bool,
    pub lsn: Lsn,
    pub prefix: Name,
    pub content: Content,
}

/// 'S': a block of a transaction begins that is still open at the publisher.
#[derive(Debug, Drop)]
pub struct StreamStart {
    pub xid: Xid,
    /// The transaction has had no block before.
    pub is_first: bool,
}

/// 'c': a streamed transaction is committed.
#[derive(Debug, Drop)]
pub struct StreamCommit {
    pub xid: Xid,
    pub commit_lsn: Lsn,
    pub end_lsn: Lsn,
    pub commit_time: i64,
}

/// 'A': a streamed transaction is aborted, or a subtransaction of it.
#[derive(Debug, Drop)]
pub struct StreamAbort {
    pub xid: Xid,
    /// Equal to `xid` where the whole transaction is aborted.
    pub subtransaction: Xid,
    pub lsn: Lsn,
    pub abort_time: i64,
}
