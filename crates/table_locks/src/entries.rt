// Positions among the entries of a journal.
ghost use Rattle.std.specs.Prelude.{◌≡◌, Some, MatchOption, slice_get};
ghost use Rattle.std.specs.List.{Contains};
ghost use Rattle.table_locks.specs.Reading.{positions_of};

use engine::Entry;
use model::Lsn;

/// How many entries there are up to the one that ends at this position; for 0 none of them. It
/// looks at those behind the position alone, from the newest on.
pub(crate) fn count_up_to(entries: &[Entry], position: Lsn) -> Option<usize>
    ensures { MatchOption result (¬ Contains (positions_of entries.now) position) (λ count. slice_get (positions_of entries.now) count ≡ Some position) }
{
    if position == 0 {
        return Some(0);
    }
    let mut left = entries.len();
    while left > 0 {
        if entries[left - 1].end == position {
            return Some(left);
        }
        left -= 1;
    }
    None
}
