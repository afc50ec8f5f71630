// What of a stream a file has already.
use crate::frame::{int32_at, int64_at, message_of, push_unstreamed};
use model::{Lsn, Xid};
use std::alloc::AllocError;

/// The number of the transaction of a copy of rows, FrozenTransactionId: no transaction of a server has it.
const COPY: Xid = 2;

/// What is left out just now.
#[derive(Clone, Copy, Debug, PartialEq, Eq)]
enum Within {
    /// Nothing.
    Nothing,
    /// A transaction between Begin and Commit.
    Transaction,
    /// A block of a streamed transaction.
    Block,
}

/// What becomes of a frame.
#[derive(Clone, Copy, Debug, PartialEq, Eq)]
enum Fate {
    HandedOn,
    /// It is handed on as outside of a block.
    Unstreamed,
    LeftOut,
}

/// What of a stream a file has already: the transactions that committed before its position.
#[derive(Debug, Drop)]
pub struct Applied {
    position: Lsn,
    /// The streamed transactions that are left out, by their numbers in order.
    xids: Vec<Xid>,
    within: Within,
}

impl Applied {
    /// What committed before this position, and these streamed transactions, whose numbers are in order.
    pub fn new(position: Lsn, xids: Vec<Xid>) -> Applied {
        Applied {
            position,
            xids,
            within: Within::Nothing,
        }
    }

    /// Appends what of the next frame is handed on. The relations and types that a transaction tells that
    /// is left out go on outside of it.
    pub fn pass(&mut self, frame: &[u8], out: &mut Vec<u8>) -> Result<(), AllocError> {
        let (fate, within) = self.judge(message_of(frame));
        self.within = within;
        match fate {
            Fate::HandedOn => out.extend_from_slice(frame),
            Fate::Unstreamed => push_unstreamed(frame, out),
            Fate::LeftOut => Ok(()),
        }
    }

    // What becomes of the frame of a message, and what is left out behind it.
    fn judge(&self, message: &[u8]) -> (Fate, Within) {
        let tag = message.first().copied().unwrap_or(0);
        match (self.within, tag) {
            (Within::Nothing, _) if !self.has(tag, message) => (Fate::HandedOn, Within::Nothing),
            (Within::Nothing, b'B') => (Fate::LeftOut, Within::Transaction),
            (Within::Nothing, b'S') => (Fate::LeftOut, Within::Block),
            (Within::Transaction, b'C') | (Within::Block, b'E') | (Within::Nothing, _) => {
                (Fate::LeftOut, Within::Nothing)
            }
            (Within::Block, b'R' | b'Y') => (Fate::Unstreamed, self.within),
            (Within::Transaction, b'R' | b'Y') | (_, 0) => (Fate::HandedOn, self.within),
            _ => (Fate::LeftOut, self.within),
        }
    }

    // Whether a message that stands outside of transactions and blocks begins what the file has, or is it.
    fn has(&self, tag: u8, message: &[u8]) -> bool {
        match tag {
            b'B' => self.has_committed(int64_at(message, 1), int32_at(message, 17)),
            b'S' | b'c' | b'A' => self
                .xids
                .as_slice()
                .binary_search(&int32_at(message, 1))
                .is_ok(),
            _ => false,
        }
    }

    // Whether this transaction, which commits at this place, did so before the position. A copy's commit is no
    // record of the log, so it ends where it begins.
    fn has_committed(&self, commit: Lsn, xid: Xid) -> bool {
        commit < self.position || commit == self.position && xid == COPY
    }
}
