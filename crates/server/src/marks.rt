// What the log's messages mean for where a stream may end, and where it may be cut (PostgreSQL manual:
// Logical Replication Message Formats).
use crate::fault::Nonsense;
use crate::wire::Fields;

/// The part of the stream that the next message stands in.
#[derive(Clone, Copy, Debug, PartialEq, Eq)]
pub enum Phase {
    /// Outside of transactions.
    Outside,
    /// Between Begin and Commit.
    Begun,
    /// In a block of a streamed transaction.
    Block,
}

/// What a message is, as far as it opens or closes something.
#[derive(Clone, Copy, Debug, PartialEq, Eq)]
pub enum Mark {
    /// Begin, and where the commit's record begins.
    Begin { commit: u64 },
    /// Commit, and where its record ends.
    Commit { end: u64 },
    /// Stream Start.
    StreamStart { xid: u32 },
    /// Stream Stop.
    StreamStop,
    /// Stream Commit, and where its record begins and ends.
    StreamCommit { xid: u32, commit: u64, end: u64 },
    /// Stream Abort of a transaction, or of one of its subtransactions.
    StreamAbort { xid: u32, subtransaction: u32 },
    /// Another message, or one whose fields do not fit: whoever applies the stream refuses that.
    Other,
}

impl Mark {
    /// What this message is.
    pub fn of(message: Fields<'_>) -> Mark {
        match read_mark(message) {
            Ok(mark) => mark,
            Err(_) => Mark::Other,
        }
    }

    /// Where the commit's record begins, if the message says it.
    pub fn commit(self) -> Option<u64> {
        match self {
            Mark::Begin { commit } | Mark::StreamCommit { commit, .. } => Some(commit),
            _ => None,
        }
    }

    /// Where the commit's record ends, if the message is one.
    pub fn commit_end(self) -> Option<u64> {
        match self {
            Mark::Commit { end } | Mark::StreamCommit { end, .. } => Some(end),
            _ => None,
        }
    }
}

impl Phase {
    /// The phase behind a message.
    pub fn after(self, mark: Mark) -> Phase {
        match mark {
            Mark::Begin { .. } => Phase::Begun,
            Mark::StreamStart { .. } => Phase::Block,
            Mark::Commit { .. } | Mark::StreamStop | Mark::StreamCommit { .. } => Phase::Outside,
            Mark::StreamAbort { .. } | Mark::Other => self,
        }
    }
}

fn read_mark(message: Fields<'_>) -> Result<Mark, Nonsense> {
    let mut fields = message;
    match fields.byte()? {
        b'B' => Ok(Mark::Begin {
            commit: fields.int64()?,
        }),
        b'C' => {
            let (_, end) = read_commit(fields)?;
            Ok(Mark::Commit { end })
        }
        b'S' => Ok(Mark::StreamStart {
            xid: fields.int32()?,
        }),
        b'E' => Ok(Mark::StreamStop),
        b'c' => {
            let xid = fields.int32()?;
            let (commit, end) = read_commit(fields)?;
            Ok(Mark::StreamCommit { xid, commit, end })
        }
        b'A' => Ok(Mark::StreamAbort {
            xid: fields.int32()?,
            subtransaction: fields.int32()?,
        }),
        _ => Ok(Mark::Other),
    }
}

/// Where a commit's record begins and ends, behind its flags.
fn read_commit(message: Fields<'_>) -> Result<(u64, u64), Nonsense> {
    let mut fields = message;
    fields.byte()?;
    Ok((fields.int64()?, fields.int64()?))
}
