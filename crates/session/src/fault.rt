// Why a message is refused.
ghost use Rattle.std.specs.Prelude.{◌≡◌};
ghost use Rattle.session.specs.declared.fault.Refused.TheVariants as refused;
ghost use Rattle.session.specs.Refusals.{of_message, of_relation};

use messages::MsgFault;
use model::OutOfMemory;
use relcache::RelFault;
use std::alloc::{AllocError, AllocFailed};
use thiserror::Error;

/// A message that may not come in the session's state, or does not fit its limits.
#[derive(Clone, Copy, Debug, PartialEq, Eq, Error)]
pub enum SessionFault {
    /// A message that belongs into a transaction came outside of one.
    #[error("not in a transaction")]
    NotInTransaction = 1,
    /// A transaction, or a block or the end of a streamed one, came between Begin and Commit.
    #[error("a transaction has begun already")]
    NestedBegin = 2,
    /// A message that may not stand in a block came before its Stream Stop.
    #[error("a block is open")]
    BlockOpen = 3,
    /// Stream Stop came outside of a block.
    #[error("no block is open")]
    NoBlock = 4,
    /// A further block, or the commit, of a streamed transaction that isn't open.
    #[error("unknown transaction")]
    UnknownTransaction = 5,
    /// The first message of a transaction that is open already.
    #[error("the transaction is open already")]
    AlreadyOpen = 6,
    /// A commit whose end is not past the last commit's end.
    #[error("an old commit")]
    OldCommit = 7,
    /// A Commit at another position of the log than its Begin said.
    #[error("the commit is not that of its begin")]
    CommitMismatch = 8,
    /// The spools have no room for a further item.
    #[error("the spools are full")]
    SpoolFull = 9,
    /// As many transactions are open as may be.
    #[error("too many open transactions")]
    TooManyOpen = 10,
}

/// Why a message was refused. The session is then as it was before.
#[derive(Clone, Copy, Debug, PartialEq, Eq, Error)]
pub enum Refused {
    /// The payload is no message.
    #[error("the payload is no message: {0}")]
    Msg(MsgFault),
    /// The message may not come here.
    #[error("the message may not come here: {0}")]
    Session(SessionFault),
    /// The message does not fit its relation, or its relation no table.
    #[error("the message does not fit its relation, or its relation no table: {0}")]
    Rel(RelFault),
    /// Memory was refused.
    #[error("memory was refused")]
    OutOfMemory,
}

impl From<MsgFault> for Refused {
    ghost from_gives = { λ fault e. e ≡ of_message fault };

    fn from(fault: MsgFault) -> Refused {
        match fault {
            MsgFault::OutOfMemory => Refused::OutOfMemory,
            other => Refused::Msg(other),
        }
    }
}

impl From<RelFault> for Refused {
    ghost from_gives = { λ fault e. e ≡ of_relation fault };

    fn from(fault: RelFault) -> Refused {
        match fault {
            RelFault::OutOfMemory => Refused::OutOfMemory,
            other => Refused::Rel(other),
        }
    }
}

impl From<SessionFault> for Refused {
    ghost from_gives = { λ fault e. e ≡ refused.Session fault };

    fn from(fault: SessionFault) -> Refused {
        Refused::Session(fault)
    }
}

impl From<OutOfMemory> for Refused {
    ghost from_gives = { λ _ e. e ≡ refused.OutOfMemory };

    fn from(_error: OutOfMemory) -> Refused {
        Refused::OutOfMemory
    }
}

impl From<AllocError> for Refused {
    ghost from_gives = { λ _ e. e ≡ refused.OutOfMemory };

    fn from(_error: AllocError) -> Refused {
        Refused::OutOfMemory
    }
}

impl<T: Drop> From<AllocFailed<T>> for Refused {
    ghost from_gives = { λ _ e. e ≡ refused.OutOfMemory };

    fn from(_error: AllocFailed<T>) -> Refused {
        Refused::OutOfMemory
    }
}
