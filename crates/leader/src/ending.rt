// How a run ends, once all workers have given their jobs back.
//
// While workers run nothing is known of the store as a whole: each table has a lock of its own, and what
// was answered under one says nothing any more once it was let go. At the end one hand has the line and
// the ticket of each transaction that is still open. So here the store is met as one world, under all
// locks at once, and the end is decided by what is learned there. Then all that is open is undone.
ghost use Rattle.std.specs.Prelude.{◌≡◌, ◌≤◌, ◌+◌, ◌<◌, ◌++◌, ◌∷◌, ℕ, List, [], false, All, option_map, length, map, vec_capacity, vec_len};
ghost use Rattle.model.specs.Rows.{Schema};
ghost use Rattle.world.specs.World.{World};
ghost use Rattle.live_tables.specs.Answers.{TellsWhatStopped};
ghost use Rattle.engine.specs.Events.{commits_in, is_open_in};
ghost use Rattle.table_locks.specs.Noted.{IsNoted, TellsNoted, TellsHeld};
ghost use Rattle.dispatch.specs.Standing.{own_by};
ghost use Rattle.leader.specs.Decided.{EndsAsNoted, IsDecided};
ghost use Rattle.leader.specs.Ending.{held_in, waiter_in, AreGone, HasFinished};

use change::Clash;
use dispatch::Slot;
use model::Xid;
use run::End;
use std::sync::Wait;
use table_locks::{Found, Line, Store, StoreNames, Ticket};

/// Ends a run for which this end was proposed: what is open is undone. Answers the end. In hand are the
/// ticket of the transaction that the leader applied itself, if there is one, and those of the workers;
/// `tickets` has room for all of them. `given` is how many items were given to the transactions of the
/// workers.
///
/// Where the input was over, or a change clashed, it is the end of the clash that stopped the store, if
/// one did and its transaction still wants it. A transaction that waited is asked for again, since
/// workers still ran when it was found. Where either isn't so any more, memory was refused.
///
/// Of each worker it tells what its type keeps. It takes no memory.
pub fn finish<N: StoreNames, S: Slot<N> + Drop, R: Wait>(
    rt: &R,
    store: &Store<N>,
    line: &mut Line,
    own: Option<Ticket<N>>,
    workers: Vec<S>,
    tickets: Vec<Ticket<N>>,
    given: &[(Xid, u64)],
    proposed: End,
) -> End
    requires line { line.old.name ≡ N.line }
    requires empty { tickets.items ≡ [] }
    requires room { length workers.items < vec_capacity tickets }
    ensures finished { HasFinished N.schema N.start line.old.list (option_map own_by own ∷ map S.holds workers.items) given.now proposed result }
    ensures gone { AreGone line.new.list (option_map own_by own ∷ map S.holds workers.items) }
    ensures name { line.new.name ≡ N.line }
    ensures commits { commits_in line.new.list ≡ commits_in line.old.list }
    ensures keeps { All S.keeps workers.items }
{
    let mut tickets = take_tickets(own, workers, tickets);
    let waiter = waiter_of(proposed);
    let found = store.meet_all(rt, line, tickets.as_mut_slice(), waiter, given);
    undo_all(rt, store, line, tickets);
    decide(proposed, found)
}

// The tickets that lie in these slots, put where there is room for them.
fn take_tickets<N: StoreNames, S: Slot<N> + Drop>(
    own: Option<Ticket<N>>,
    workers: Vec<S>,
    mut tickets: Vec<Ticket<N>>,
) -> Vec<Ticket<N>>
    requires empty { tickets.items ≡ [] }
    requires room { length workers.items < vec_capacity tickets }
    ensures tickets { map own_by result.items ≡ held_in (option_map own_by own ∷ map S.holds workers.items) }
    ensures keeps { All S.keeps workers.items }
{
    put(&mut tickets, own);
    for slot in workers {
        put(&mut tickets, slot.into_ticket());
    }
    tickets
}

// A ticket more, if one lies there.
fn put<N: StoreNames>(tickets: &mut Vec<Ticket<N>>, ticket: Option<Ticket<N>>)
    requires room { length tickets.old.items < vec_capacity tickets.old }
    ensures tickets { map own_by tickets.new.items ≡ map own_by tickets.old.items ++ held_in (option_map own_by ticket ∷ []) }
    ensures length { length tickets.new.items ≤ length tickets.old.items + 1 }
    ensures capacity { vec_capacity tickets.new ≡ vec_capacity tickets.old }
{
    if let Some(ticket) = ticket {
        tickets.push_reserved(ticket);
    }
}

// The transaction that the end says waits, if it says so.
fn waiter_of(proposed: End) -> Option<Xid>
    ensures { result ≡ waiter_in proposed }
{
    match proposed {
        End::HeldKey { xid, .. } => Some(xid),
        _ => None,
    }
}

// Undoes what the transactions of these tickets have done.
fn undo_all<N: StoreNames, R: Wait>(
    rt: &R,
    store: &Store<N>,
    line: &mut Line,
    tickets: Vec<Ticket<N>>,
)
    requires { line.old.name ≡ N.line }
    ensures gone { All (λ h. is_open_in line.new.list h.xid ≡ false) (map own_by tickets.items) }
    ensures name { line.new.name ≡ N.line }
    ensures commits { commits_in line.new.list ≡ commits_in line.old.list }
{
    for ticket in tickets {
        store.abort(rt, line, ticket);
    }
}

// The end by the one that was proposed, and by what was found: what stopped the store, whom a
// transaction waits for, and the clash that is noted.
fn decide(proposed: End, found: Found) -> End
    ensures { (schema : Schema) (w : World) (given : List (ℕ × ℕ)) → TellsWhatStopped found.stop w.stopped
        → TellsHeld schema w given (waiter_in proposed) found.holder → TellsNoted w found.noted
        → IsDecided schema w (IsNoted w) given proposed result }
{
    match proposed {
        End::Clean => match found.stop {
            None => End::Clean,
            Some(_) => end_of_noted(found.noted),
        },
        End::Unique { .. } | End::NullKey { .. } => end_of_noted(found.noted),
        End::HeldKey { xid, .. } => match found.holder {
            Some(holder) => End::HeldKey { xid, holder },
            None => End::OutOfMemory,
        },
        other => other,
    }
}

// The end of the clash that is noted.
fn end_of_noted(noted: Option<Clash>) -> End
    ensures { (w : World) → TellsNoted w noted → EndsAsNoted (IsNoted w) result }
{
    match noted {
        Some(clash) => End::from(clash),
        None => End::OutOfMemory,
    }
}
