// What the hashes of a table's indexes begin with.
use std::collections::hash_map::RandomState;
use std::fmt::{Debug, Formatter};
use std::hash::{BuildHasher, DefaultHasher};
use std::random::RandomSource;
use std::{fmt, io};

/// What the hashes of a table's indexes begin with. No answer depends on it.
///
/// The fixed one is the same everywhere: whoever knows it can choose values that share a hash, and so
/// make look-ups slow. The system's random numbers are for values that somebody else chooses.
#[derive(Clone, Copy)]
pub struct Seed {
    // What each hasher is a copy of.
    first: DefaultHasher,
}

impl Seed {
    /// The same hashes everywhere.
    pub fn fixed() -> Seed {
        Seed {
            first: DefaultHasher::new(),
        }
    }

    /// Hashes that nobody foretells, by random numbers of the system.
    pub fn random(rt: &impl RandomSource) -> io::Result<Seed> {
        let state = RandomState::new(rt)?;
        Ok(Seed {
            first: state.build_hasher(),
        })
    }
}

impl BuildHasher for Seed {
    type Hasher = DefaultHasher;

    ghost build_hasher = { λ seed. seed.first };

    fn build_hasher(&self) -> DefaultHasher {
        self.first
    }
}

// What it is stays unsaid: hashes are to be foretold by nobody.
impl Debug for Seed {
    fn fmt<W: fmt::Write>(&self, f: &mut Formatter<W>) -> fmt::Result {
        f.debug_struct("Seed").finish_non_exhaustive()
    }
}
