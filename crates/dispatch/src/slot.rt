// Where a ticket lies that came back.
ghost use Rattle.std.specs.Prelude.{◌≡◌, option_map};

use table_locks::{StoreNames, Ticket};

/// Where the ticket of an open transaction may lie as a run ends.
pub trait Slot<N: StoreNames> {
    ghost use Rattle.std.specs.Prelude.{◌≡◌, Option, option_map};
    ghost use Rattle.dispatch.specs.Standing.{Own, own_by};

    /// The transaction whose ticket lies there.
    ghost holds: { Self → Option Own };

    /// What its type keeps of that transaction.
    ghost keeps: { Self → Type 0 };

    /// The ticket, if one lies there.
    fn into_ticket(self) -> Option<Ticket<N>>
        ensures holds { holds self ≡ option_map own_by result }
        ensures keeps { keeps self };
}
