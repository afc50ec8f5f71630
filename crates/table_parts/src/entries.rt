// Positions among the entries of a part.
ghost use Rattle.std.specs.Prelude.{◌≡◌, ◌≤◌, ◌∷◌, nat_le, filter, length, map, take};
ghost use Rattle.std.specs.List.Sorted.{IsStrictlyIncreasing};
ghost use Rattle.engine.specs.declared.entry.Entry.{Entry as AnyEntry};

use engine::Entry;
use model::Lsn;

/// How many entries there are up to a position: those that end there or below. It looks at those
/// above it and at one more, from the newest on.
pub(crate) fn count_until(entries: &[Entry], position: Lsn) -> usize
    requires { IsStrictlyIncreasing (0 ∷ map (λ (e : AnyEntry). e.end) entries.now) }
    ensures within { result ≤ length entries.now }
    ensures until { take result entries.now
        ≡ filter (λ (e : AnyEntry). nat_le e.end position) entries.now }
{
    let mut left = entries.len();
    while left > 0 {
        if entries[left - 1].end <= position {
            return left;
        }
        left -= 1;
    }
    0
}
