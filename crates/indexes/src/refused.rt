// Why a row does not come into its table.
use model::OutOfMemory;

/// Why a row did not come into its table.
#[derive(Clone, Copy, Debug, PartialEq, Eq)]
pub enum Refused {
    /// It agrees with another in this key: 0 is the primary key, 1 upwards the unique keys. The least
    /// one is named.
    Taken(usize),
    /// The system had no memory for it.
    OutOfMemory,
}

impl From<OutOfMemory> for Refused {
    ghost use Rattle.std.specs.Prelude.{◌≡◌};
    ghost use Rattle.indexes.specs.declared.refused.Refused.TheVariants.{OutOfMemory as NoMemory};

    ghost from_gives = { λ _ e. e ≡ NoMemory };

    fn from(_e: OutOfMemory) -> Refused {
        Refused::OutOfMemory
    }
}
