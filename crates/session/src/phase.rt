// Which part of the stream the next message stands in.
use savepoint::{Lsn, Xid};

/// What the last messages left open.
#[derive(Clone, Copy, Debug)]
pub enum Phase {
    /// Neither a transaction nor a block.
    Outside,
    /// Between Begin and Commit, of this transaction, which is to commit at this position of the log.
    Begun { xid: Xid, final_lsn: Lsn },
    /// In a block of this streamed transaction.
    Block(Xid),
}
