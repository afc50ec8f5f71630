// What the calls of a store answer.
use change::Clash;
use model::{OutOfMemory, Xid};
use std::alloc::AllocError;
use thiserror::Error;

/// What came of a change that was not refused.
#[derive(Clone, Copy, Debug, PartialEq, Eq)]
pub enum Acted {
    /// It was done.
    Done,
    /// No row stands at its key, and nothing was changed. It is an item of its transaction all the same.
    Skipped,
    /// This other transaction holds a cell of it. It was not done, and its transaction waits with it.
    Held(Xid),
}

/// What comes of a change that is tried, where a clash alters nothing.
#[derive(Clone, Copy, Debug, PartialEq, Eq)]
pub enum Verdict {
    /// It was done or skipped, or another transaction holds a cell of it.
    Acted(Acted),
    /// It clashes on its transaction's own view, and nobody else holds a cell of it. Nothing was changed.
    Clashes(Clash),
}

/// Why a call was refused. Tables, holds and items are as they were.
#[derive(Clone, Copy, Debug, PartialEq, Eq, Error)]
pub enum EngineFault {
    /// A transaction of that number is open.
    #[error("a transaction of that number is open")]
    AlreadyOpen,
    /// As many transactions are open as can be: 4096.
    #[error("4096 transactions are open, and no more can be")]
    TooManyOpen,
    /// The change clashes on its transaction's own view. The store is stopped by it.
    #[error("the change clashes, and the store is stopped: {0}")]
    Clash(Clash),
    /// The store is stopped: no transaction opens in it and no change is made. What is open can be
    /// rolled back, committed and aborted.
    #[error("the store is stopped: what is open can be rolled back, committed and aborted")]
    Stopped,
    /// The system had no memory for it.
    #[error("the system had no memory for it")]
    OutOfMemory,
}

impl From<OutOfMemory> for EngineFault {
    ghost use Rattle.std.specs.Prelude.{◌≡◌};
    ghost use Rattle.live_tables.specs.declared.answers.EngineFault.TheVariants.{OutOfMemory as NoMemory};

    ghost from_gives = { λ _ e. e ≡ NoMemory };

    fn from(_e: OutOfMemory) -> EngineFault {
        EngineFault::OutOfMemory
    }
}

impl From<AllocError> for EngineFault {
    ghost use Rattle.std.specs.Prelude.{◌≡◌};
    ghost use Rattle.live_tables.specs.declared.answers.EngineFault.TheVariants.{OutOfMemory as NoMemory};

    ghost from_gives = { λ _ e. e ≡ NoMemory };

    fn from(e: AllocError) -> EngineFault {
        EngineFault::from(OutOfMemory::from(e))
    }
}

/// What stopped a store.
#[derive(Clone, Copy, Debug, PartialEq, Eq, Error)]
pub enum Stop {
    /// A change of this transaction clashed.
    #[error("a change of transaction {0} clashed: {1}")]
    Clash(Xid, Clash),
    /// The first waits for a cell that the second holds, and no more can come that would let it go.
    #[error("transaction {0} waits for a row or key that transaction {1} holds, and nothing can come that lets it go")]
    Held(Xid, Xid),
}

/// More can come of what was sent: the waiter isn't open or waits for nobody, or an open transaction
/// waits for nobody and has not done as many items as are named of it.
#[derive(Clone, Copy, Debug, PartialEq, Eq, Error)]
#[error("more can come that lets the waiting change go")]
pub struct NotSettled;
