// Who waits for whom, where one hand has all tickets and the locks of all tables.
ghost use Rattle.std.specs.Prelude.{◌≡◌, ◌↔◌, ◌<◌, ◌≤◌, ℕ, true, false, None, Some, IsSome, IsTrue, IfSome, length, slice_get};
ghost use Rattle.table_parts.specs.Part.{Part as AnyPart};
ghost use Rattle.live_tables.specs.Waits.{IsSentCount};
ghost use Rattle.parted_store.specs.Lent.{OpenTicket, WaitsIn};
ghost use Rattle.table_locks.specs.Lending.{state_of};
ghost use Rattle.table_locks.specs.Reading.{IsLockedAt};
ghost use Rattle.table_locks.specs.Stuck.{WaitsAt, WaitsNowhere, IsSettledAt, IsUnsettledAt, TellsWaiting, TellsStuck};
ghost use Rattle.table_locks.specs.TableStates.{TableState, IsKept};
ghost use Rattle.table_locks.specs.Whole.{AreSameStates};

use crate::names::StoreNames;
use crate::table_part::TablePart;
use crate::ticket::Ticket;
use model::Xid;
use parted_store::holder_in;
use std::sync::{MutexGuard, Wait};
use table_parts::Part;

/// Whom the waiter waits for, if one is named, where no more can come that would let it go: each
/// open transaction has done as many items as were sent to it, or waits. Each guard lies in the place
/// of its table's number. Nothing changes, and it takes no memory.
pub(crate) fn find_stuck<N: StoreNames, R: Wait>(
    rt: &R,
    guards: &mut [Option<MutexGuard<'_, TablePart<N>>>],
    tables: usize,
    tickets: &mut [Ticket<N>],
    waiter: Option<Xid>,
    sent: &[(Xid, u64)],
) -> Option<Xid>
    requires guards { tables ≤ length guards.old }
    requires locked { (table : ℕ) → table < tables → IsLockedAt guards.old table }
    ensures stuck { (xid : ℕ) → waiter ≡ Some xid → TellsStuck guards.old tables tickets.old sent.now xid result }
    ensures guards { AreSameStates guards.old guards.new }
    ensures tickets { tickets.new ≡ tickets.old }
{
    let waiter = waiter?;
    let holder = find_waiting(rt, guards, tables, tickets, waiter)?;
    if are_settled(rt, guards, tables, tickets, sent) {
        Some(holder)
    } else {
        None
    }
}

// Whom a transaction waits for, by its ticket, if one is its.
fn find_waiting<N: StoreNames, R: Wait>(
    rt: &R,
    guards: &mut [Option<MutexGuard<'_, TablePart<N>>>],
    tables: usize,
    tickets: &mut [Ticket<N>],
    xid: Xid,
) -> Option<Xid>
    requires guards { tables ≤ length guards.old }
    requires locked { (table : ℕ) → table < tables → IsLockedAt guards.old table }
    ensures waiting { TellsWaiting guards.old tables tickets.old xid result }
    ensures guards { AreSameStates guards.old guards.new }
    ensures tickets { tickets.new ≡ tickets.old }
{
    for i in 0..tickets.len() {
        let holder = holder_if(rt, guards, tables, &mut tickets[i], xid);
        if holder.is_some() {
            return holder;
        }
    }
    None
}

// Whom the transaction of a ticket waits for, if it is this one.
fn holder_if<N: StoreNames, R: Wait>(
    rt: &R,
    guards: &mut [Option<MutexGuard<'_, TablePart<N>>>],
    tables: usize,
    ticket: &mut Ticket<N>,
    xid: Xid,
) -> Option<Xid>
    requires guards { tables ≤ length guards.old }
    requires locked { (table : ℕ) → table < tables → IsLockedAt guards.old table }
    ensures held { IfSome result (λ holder. (ticket.old.number ≡ xid) × WaitsAt guards.old tables ticket.old holder) }
    ensures free { result ≡ None → ticket.old.number ≡ xid → WaitsNowhere guards.old tables ticket.old }
    ensures guards { AreSameStates guards.old guards.new }
    ensures ticket { ticket.new ≡ ticket.old }
{
    if ticket.xid() != xid {
        return None;
    }
    holder_among(rt, guards, tables, ticket)
}

// Whether each of the open transactions has done as many items as were sent to it, or waits.
fn are_settled<N: StoreNames, R: Wait>(
    rt: &R,
    guards: &mut [Option<MutexGuard<'_, TablePart<N>>>],
    tables: usize,
    tickets: &mut [Ticket<N>],
    sent: &[(Xid, u64)],
) -> bool
    requires guards { tables ≤ length guards.old }
    requires locked { (table : ℕ) → table < tables → IsLockedAt guards.old table }
    ensures settled { result ≡ true → (i : ℕ) (t : OpenTicket) → slice_get tickets.old i ≡ Some t → IsSettledAt guards.old tables sent.now t }
    ensures unsettled { result ≡ false → (i : ℕ) × (t : OpenTicket) × (slice_get tickets.old i ≡ Some t) × IsUnsettledAt guards.old tables sent.now t }
    ensures guards { AreSameStates guards.old guards.new }
    ensures tickets { tickets.new ≡ tickets.old }
{
    for i in 0..tickets.len() {
        if !is_settled(rt, guards, tables, &mut tickets[i], sent) {
            return false;
        }
    }
    true
}

// Whether one has. The counts are compared first.
fn is_settled<N: StoreNames, R: Wait>(
    rt: &R,
    guards: &mut [Option<MutexGuard<'_, TablePart<N>>>],
    tables: usize,
    ticket: &mut Ticket<N>,
    sent: &[(Xid, u64)],
) -> bool
    requires guards { tables ≤ length guards.old }
    requires locked { (table : ℕ) → table < tables → IsLockedAt guards.old table }
    ensures settled { result ≡ true → IsSettledAt guards.old tables sent.now ticket.old }
    ensures unsettled { result ≡ false → IsUnsettledAt guards.old tables sent.now ticket.old }
    ensures guards { AreSameStates guards.old guards.new }
    ensures ticket { ticket.new ≡ ticket.old }
{
    if is_sent_count(sent, ticket.xid(), ticket.done()) {
        return true;
    }
    holder_among(rt, guards, tables, ticket).is_some()
}

/// Whether a transaction was sent just so many items as it has done, which are fewer than the count
/// goes up to.
pub(crate) fn is_sent_count(sent: &[(Xid, u64)], xid: Xid, done: u64) -> bool
    ensures { IsTrue result ↔ IsSentCount sent.now xid done }
{
    done < u64::MAX && sent.contains(&(xid, done))
}

// Whom the transaction of a ticket waits for, in the part of the first table in which it waits.
fn holder_among<N: StoreNames, R: Wait>(
    rt: &R,
    guards: &mut [Option<MutexGuard<'_, TablePart<N>>>],
    tables: usize,
    ticket: &mut Ticket<N>,
) -> Option<Xid>
    requires guards { tables ≤ length guards.old }
    requires locked { (table : ℕ) → table < tables → IsLockedAt guards.old table }
    ensures held { IfSome result (WaitsAt guards.old tables ticket.old) }
    ensures free { result ≡ None → WaitsNowhere guards.old tables ticket.old }
    ensures guards { AreSameStates guards.old guards.new }
    ensures ticket { ticket.new ≡ ticket.old }
{
    for table in 0..tables {
        let holder = holder_at(rt, &mut guards[table], ticket);
        if holder.is_some() {
            return holder;
        }
    }
    None
}

// Whom it waits for in the part from under the lock of this guard.
fn holder_at<N: StoreNames, R: Wait>(
    rt: &R,
    place: &mut Option<MutexGuard<'_, TablePart<N>>>,
    ticket: &mut Ticket<N>,
) -> Option<Xid>
    requires there { IsSome (state_of place.old) }
    ensures held { IfSome result (λ holder. (s : TableState) × (p : AnyPart) × (state_of place.old ≡ Some s) × (s.part ≡ Some p) × WaitsIn p ticket.old.shares holder) }
    ensures free { result ≡ None → (s : TableState) (p : AnyPart) → state_of place.old ≡ Some s → s.part ≡ Some p → (holder : ℕ) → ¬ (WaitsIn p ticket.old.shares holder) }
    ensures place { state_of place.new ≡ state_of place.old }
    ensures ticket { ticket.new ≡ ticket.old }
{
    let Some(mut guard) = place.take() else {
        unreachable!()
    };
    let holder = guard.holder_of(rt, ticket);
    *place = Some(guard);
    holder
}

impl<N: StoreNames> TablePart<N> {
    // Whom a ticket's transaction waits for in its part.
    fn holder_of<R: Wait>(&mut self, rt: &R, ticket: &mut Ticket<N>) -> Option<Xid>
        ensures held { IfSome result (λ holder. (p : AnyPart) × (self.old.part ≡ Some p) × WaitsIn p ticket.old.shares holder) }
        ensures free { result ≡ None → (p : AnyPart) → self.old.part ≡ Some p → (holder : ℕ) → ¬ (WaitsIn p ticket.old.shares holder) }
        ensures same { self.new ≡ self.old }
        ensures ticket { ticket.new ≡ ticket.old }
    {
        let mut part = self.take(rt);
        let holder = holder_tied(part.part(), ticket);
        self.put(part);
        holder
    }
}

// The same of a part that is lent.
fn holder_tied<N: StoreNames>(part: &mut Part, ticket: &mut Ticket<N>) -> Option<Xid>
    requires kept { IsKept N.shares N.schema N.start part.old }
    ensures held { IfSome result (WaitsIn part.old ticket.old.shares) }
    ensures free { result ≡ None → (holder : ℕ) → ¬ (WaitsIn part.old ticket.old.shares holder) }
    ensures part { part.new ≡ part.old }
    ensures ticket { ticket.new ≡ ticket.old }
{
    holder_in(part, &mut ticket.ticket)
}
