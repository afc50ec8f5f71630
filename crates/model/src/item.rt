// The items of a transaction, and what its commit says.
use crate::change::Change;

/// A transaction's or subtransaction's number at the publisher.
pub type Xid = u32;

/// A position in the publisher's write-ahead log.
pub type Lsn = u64;

/// How many transactions can be open at once.
pub const MOST_OPEN: usize = 4096;

/// One item of a transaction, in stream order.
#[derive(Debug, Drop)]
pub enum Item {
    /// A change, and the subtransaction that made it.
    Change { sub: Xid, change: Change },
    /// A relation or type message: it names a subtransaction and changes no row.
    Touch(Xid),
    /// The subtransaction was rolled back.
    BackTo(Xid),
    /// The transaction's commit was read. It is no item of the transaction.
    Last,
}

/// Where a transaction's commit stands in the log, and where the log goes on behind it.
#[derive(Clone, Copy, Debug, PartialEq, Eq)]
pub struct CommitInfo {
    pub commit: Lsn,
    pub end: Lsn,
}
