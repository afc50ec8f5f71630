// A position, and the two words that a cell keeps of what was published.
ghost use Rattle.std.specs.Prelude.{◌≡◌, ℕ, List, [], ◌∷◌};
ghost use Rattle.origin.specs.Commits.{published_after, position_after};

use crossbeam_utils::atomic::Words;
use model::Lsn;

/// Where the subscriber stands: how many commits it applied, and the LSN behind the last of them
/// ('End LSN of the transaction' of the manual's Commit and Stream Commit), 0 for none.
#[derive(Clone, Copy, Debug, PartialEq, Eq)]
pub struct Position {
    pub commits: u64,
    pub end_lsn: Lsn,
    /// The commit LSN of the transaction to skip, until one commits; then 0, and 0 for none.
    pub skip: Lsn,
}

/// What is published of a position: whoever loads it knows the rest.
#[derive(Clone, Copy)]
pub struct Published {
    pub commits: u64,
    pub end_lsn: Lsn,
}

impl Published {
    /// The position, by the skip of before the first commit.
    pub(crate) fn position(self, skip: Lsn) -> Position
        ensures { (ends : List ℕ) → self ≡ published_after ends → result ≡ position_after skip ends }
    {
        Position {
            commits: self.commits,
            end_lsn: self.end_lsn,
            skip: if self.commits == 0 { skip } else { 0 },
        }
    }
}

impl Words<2> for Published {
    ghost words = { λ p. p.commits ∷ p.end_lsn ∷ [] };

    fn to_words(self) -> [u64; 2] {
        [self.commits, self.end_lsn]
    }

    fn from_words(bits: &[u64; 2]) -> Published {
        Published {
            commits: bits[0],
            end_lsn: bits[1],
        }
    }
}
