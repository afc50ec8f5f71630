// Commits are kept in two places, or in one of them.
ghost use Rattle.std.specs.Prelude.{◌≡◌};

use crate::keep::Keep;
use crate::stop::Stop;
use mirror_statements::Commit;
use model::Lsn;

/// Keeps commits in a first place and then in a second, as far as these are there: so what the second has
/// the first has too, whenever this ends.
#[derive(Drop)]
pub struct Keeping<A: Keep + Drop, B: Keep + Drop> {
    first: Option<A>,
    second: Option<B>,
}

impl<A: Keep + Drop, B: Keep + Drop> Keeping<A, B> {
    /// In these places.
    pub fn new(first: Option<A>, second: Option<B>) -> Keeping<A, B>
        ensures { (result.first ≡ first) × (result.second ≡ second) }
    {
        Keeping { first, second }
    }

    /// The second place.
    pub fn second(&mut self) -> Option<&mut B> {
        self.second.as_mut()
    }
}

impl<A: Keep + Drop, B: Keep + Drop> Keep for Keeping<A, B> {
    ghost use Rattle.std.specs.Prelude.{IfSome};

    ghost has_kept = { λ k commits. IfSome k.first (λ a. A.has_kept a commits) × IfSome k.second (λ b. B.has_kept b commits) };

    fn begin(&mut self) {
        if let Some(first) = &mut self.first {
            first.begin();
        }
        if let Some(second) = &mut self.second {
            second.begin();
        }
    }

    fn keep(&mut self, commits: &[Commit], end: Lsn) -> Result<(), Stop> {
        if let Some(first) = &mut self.first {
            first.keep(commits, end)?;
        }
        if let Some(second) = &mut self.second {
            second.keep(commits, end)?;
        }
        Ok(())
    }
}
