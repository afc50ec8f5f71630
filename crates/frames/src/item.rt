// What the frames of a replication stream carry.
use bytes::Bytes;

/// A place in the server's write-ahead log.
pub type Lsn = u64;

/// One item of the stream (PostgreSQL manual: Streaming Replication Protocol).
#[derive(Debug, PartialEq, Eq, Drop)]
pub enum CopyItem {
    /// XLogData: where its data starts, where the server's log ended when it was sent, and the data,
    /// a cut of the block that it was read into.
    Wal {
        start: Lsn,
        end: Lsn,
        payload: Bytes,
    },
    /// A keepalive: where the server's log ends, and whether an answer is wanted at once.
    Keepalive {
        end: Lsn,
        reply: bool,
    },
    /// CopyDone: the server sends no more.
    Done,
}
