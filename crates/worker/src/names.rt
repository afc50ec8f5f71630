// The names of what a worker works with, and of what the leader gives it.
ghost use Rattle.std.specs.Prelude.{ℕ};
ghost use Rattle.tokens.specs.Half.{Name, no_name};
ghost use Rattle.atomic_table.specs.Seated.{TableId};

use std::marker::Brand;

/// The names of the rings to a store's workers: a worker has a number, and one ring.
///
/// They stand apart from the names of the store: what goes through a ring has those in its type, so
/// they are picked before a ring is made, and its own name after it.
pub trait RingNames {
    ghost ring: { ℕ → TableId };
}

impl RingNames for Brand {
    ghost ring = { λ _. no_name };
}

/// The names of a run's workers: of their rings, and of the lists of what was given to them.
pub trait OutboxNames: RingNames {
    ghost outbox: { ℕ → Name };
}

impl OutboxNames for Brand {
    ghost outbox = { λ _. no_name };
}
