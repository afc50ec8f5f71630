// What a read is refused for.
use model::OutOfMemory;
use thiserror::Error;

/// Why a read is refused. Where several of these apply, the first of them is answered.
#[derive(Clone, Copy, Debug, PartialEq, Eq, Error)]
pub enum ReadFault {
    /// There is no table of that number.
    #[error("unknown table")]
    UnknownTable,
    /// The position is neither 0 nor where a commit ends in the publisher's log.
    #[error("unknown position")]
    PositionUnknown,
    /// The system had no memory for the rows.
    #[error("out of memory")]
    OutOfMemory,
}

impl From<OutOfMemory> for ReadFault {
    ghost use Rattle.std.specs.Prelude.{◌≡◌};
    ghost use Rattle.snapshot.specs.declared.fault.ReadFault.TheVariants.{OutOfMemory as NoMemory};

    ghost from_gives = { λ _ e. e ≡ NoMemory };

    fn from(_e: OutOfMemory) -> ReadFault {
        ReadFault::OutOfMemory
    }
}
