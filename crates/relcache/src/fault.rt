// Why a relation or a row message can't be used.

ghost use Rattle.std.specs.Prelude.{◌≡◌};
ghost use Rattle.relcache.specs.declared.fault.RelFault.TheVariants.{OutOfMemory};

use model::OutOfMemory as NoMemory;
use std::alloc::{AllocError, AllocFailed};
use thiserror::Error;

/// What is wrong with a relation or a row message, or that memory was refused.
#[derive(Clone, Copy, Debug, PartialEq, Eq, Error)]
pub enum RelFault {
    /// No relation was learnt for the OID.
    #[error("unknown relation")]
    UnknownRelation = 1,
    /// The subscriber has no table of the relation's namespace and name.
    #[error("no such table")]
    TableMissing = 2,
    /// A published column is not in the subscriber's table.
    #[error("no such column")]
    ColumnMissing = 3,
    /// A column of the subscriber's primary key is not flagged as key by the relation, so that an
    /// update or a delete can't be looked up.
    #[error("a key column is not sent")]
    KeyNotSent = 4,
    /// A relation names a column twice, or a tuple has another number of columns than its relation.
    #[error("wrong number of columns")]
    ColumnCount = 5,
    /// A text is no value of its column's type, or a value that is needed was not sent.
    #[error("bad value")]
    BadValue = 6,
    /// A row is looked up by a key that holds a null.
    #[error("null in the key")]
    NullKey = 7,
    /// Memory was refused.
    #[error("out of memory")]
    OutOfMemory = 8,
}

impl From<NoMemory> for RelFault {
    ghost from_gives = { λ _ e. e ≡ OutOfMemory };

    fn from(_error: NoMemory) -> RelFault {
        RelFault::OutOfMemory
    }
}

impl From<AllocError> for RelFault {
    ghost from_gives = { λ _ e. e ≡ OutOfMemory };

    fn from(_error: AllocError) -> RelFault {
        RelFault::OutOfMemory
    }
}

impl<T: Drop> From<AllocFailed<T>> for RelFault {
    ghost from_gives = { λ _ e. e ≡ OutOfMemory };

    fn from(_error: AllocFailed<T>) -> RelFault {
        RelFault::OutOfMemory
    }
}
