// What a run is given, and what it leaves.
ghost use Rattle.std.specs.Prelude.{◌≡◌, ℤ, Option, List, None, [], ◌∷◌};
ghost use Rattle.run.specs.Clock.{Ticks};
ghost use Rattle.run.specs.declared.end.End.TheVariants.{OutOfMemory as NoMemory};

use crate::end::End;
use engine::Entry;
use frames::Lsn;
use indexes::Tables;
use std::alloc::Global;

/// The limits of a run.
#[derive(Clone, Copy, Debug, PartialEq, Eq)]
pub struct Config {
    /// How many workers apply streamed transactions: 0 to 16.
    pub workers: usize,
    /// The slots of a worker's ring: 1 to 1024.
    pub ring: usize,
    /// The payload bytes that spooled transactions may take.
    pub spool: u64,
    /// The commit LSN of a transaction to skip: if it is the first that commits, its changes are left
    /// out, and its position is kept. 0 skips none. (PostgreSQL manual: ALTER SUBSCRIPTION, SKIP.)
    pub skip: Lsn,
}

/// What a run leaves.
#[derive(Debug, Drop)]
pub struct Outcome {
    pub tables: Tables,
    /// The commits, in order.
    pub journal: Vec<Entry>,
    /// The end LSN of the last commit, or 0.
    pub position: Lsn,
    pub end: End,
}

impl Outcome {
    /// What is left of these tables where memory was refused before a byte was read.
    pub fn unread(alloc: Global, start: Tables) -> Outcome
        ensures tables { result.tables ≡ start }
        ensures journal { result.journal.items ≡ [] }
        ensures position { result.position ≡ 0 }
        ensures end { result.end ≡ NoMemory }
    {
        Outcome {
            tables: start,
            journal: Vec::new(alloc),
            position: 0,
            end: End::OutOfMemory,
        }
    }
}

/// A clock: microseconds since 2000-01-01.
pub trait Clock {
    /// The times that it has answered, where it tells them. The system's clock doesn't.
    ghost told: { Self → Option (List ℤ) };

    /// The time now.
    fn micros(&mut self) -> i64
        ensures { Ticks (told self.old) (told self.new) (result ∷ []) };
}

/// A clock that stands at this time: of a run whose status updates need no time.
#[derive(Debug, Drop)]
pub struct StillClock(pub i64);

impl Clock for StillClock {
    ghost told = { λ _. None };

    fn micros(&mut self) -> i64
        ensures told { Ticks None None (result ∷ []) }
        ensures time { result ≡ self.old.0 }
        ensures still { self.new ≡ self.old }
    {
        self.0
    }
}
