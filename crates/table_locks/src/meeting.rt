// What a table's part and the tickets tell of one another, where one hand has all tickets.
ghost use Rattle.std.specs.Prelude.{◌≡◌, ◌≢◌, ℕ, true, false, Some, None, IsSome, length, slice_get};
ghost use Rattle.std.specs.FinMap.{get};
ghost use Rattle.world.specs.World.{Opened};
ghost use Rattle.engine.specs.Events.{opened_by};
ghost use Rattle.table_parts.specs.Part.{Part as AnyPart};
ghost use Rattle.parted_store.specs.Lent.{OpenTicket, HasShares, Stands};
ghost use Rattle.table_locks.specs.TableStates.{IsKept, Fits};
ghost use Rattle.table_locks.specs.Tickets.{IsTicketOf};
ghost use Rattle.table_locks.specs.Whole.{AreTickets, AreDifferent, HasShareOf, HasAll, WantsIn, WantsStill, numbers_at};

use crate::hidden::wait_for_ever;
use crate::names::StoreNames;
use crate::table_part::TablePart;
use crate::ticket::{Ticket, Waits};
use model::{TableId, Xid};
use parted_store::{meet_in, wants_in};
use std::sync::Wait;
use table_parts::Part;

impl<N: StoreNames> TablePart<N> {
    // Learns that its part has of each transaction just what its ticket tells. Nothing changes.
    pub(crate) fn meet_tickets<R: Wait>(&mut self, rt: &R, tickets: &mut [Ticket<N>])
        requires tickets { AreTickets N.shares N.schema tickets.old }
        requires apart { AreDifferent tickets.old }
        ensures part { (p : AnyPart) × (self.old.part ≡ Some p) × Fits N.shares N.tables N.schema N.start self.old p × HasAll tickets.old p }
        ensures same { self.new ≡ self.old }
        ensures tickets { tickets.new ≡ tickets.old }
    {
        let mut part = self.take(rt);
        meet_each_in(part.part(), tickets);
        if !is_closed(part.as_part(), tickets) {
            wait_for_ever(rt);
        }
        self.put(part);
    }

    // Whether this transaction has a ticket and wants something: a change of the table then, or it
    // waits for ever. Nothing changes.
    pub(crate) fn meet_waiting<R: Wait>(
        &mut self,
        rt: &R,
        tickets: &mut [Ticket<N>],
        xid: Xid,
    ) -> bool
        ensures wants { (i : ℕ) (t : OpenTicket) → slice_get tickets.old i ≡ Some t → t.number ≡ xid → WantsIn self.old.number t }
        ensures told { WantsStill tickets.old xid result }
        ensures same { self.new ≡ self.old }
        ensures tickets { tickets.new ≡ tickets.old }
    {
        let mut part = self.take(rt);
        let wants = wait_in(rt, part.part(), tickets, xid);
        self.put(part);
        wants
    }
}

// Learns that in the part each transaction has done what the share of its ticket tells. Nothing
// changes.
fn meet_each_in<N: StoreNames>(part: &mut Part, tickets: &mut [Ticket<N>])
    requires kept { IsKept N.shares N.schema N.start part.old }
    ensures stand { (i : ℕ) (t : OpenTicket) → slice_get tickets.old i ≡ Some t → Stands part.old t.shares }
    ensures part { part.new ≡ part.old }
    ensures tickets { tickets.new ≡ tickets.old }
{
    for i in 0..tickets.len() {
        meet_one(part, &mut tickets[i]);
    }
}

// It is so of one.
fn meet_one<N: StoreNames>(part: &mut Part, ticket: &mut Ticket<N>)
    requires kept { IsKept N.shares N.schema N.start part.old }
    ensures stands { Stands part.old ticket.old.shares }
    ensures part { part.new ≡ part.old }
    ensures ticket { ticket.new ≡ ticket.old }
{
    meet_in(part, &mut ticket.ticket);
}

// Whether no other transaction is open in the part than those with a share of it.
fn is_closed<N: StoreNames>(part: &Part, tickets: &[Ticket<N>]) -> bool
    requires tickets { AreTickets N.shares N.schema tickets.now }
    requires apart { AreDifferent tickets.now }
    requires stand { (i : ℕ) (t : OpenTicket) → slice_get tickets.now i ≡ Some t → Stands part.now t.shares }
    ensures { result ≡ true → (xid : ℕ) (o : Opened) → get part.now.store.world.opened xid ≡ Some o → HasShareOf tickets.now part.now.number xid }
{
    part.open_count() == count_sharers(tickets, part.number())
}

// How many of the tickets have a share of the table.
fn count_sharers<N: StoreNames>(tickets: &[Ticket<N>], table: TableId) -> usize
    ensures { result ≡ length (numbers_at table tickets.now) }
{
    let mut count = 0;
    for ticket in tickets {
        if ticket.ticket.has_share(table) {
            count += 1;
        }
    }
    count
}

// Whether this transaction has a ticket and wants something: a change of the part's table then.
fn wait_in<N: StoreNames, R: Wait>(
    rt: &R,
    part: &mut Part,
    tickets: &mut [Ticket<N>],
    xid: Xid,
) -> bool
    requires kept { IsKept N.shares N.schema N.start part.old }
    ensures wants { (i : ℕ) (t : OpenTicket) → slice_get tickets.old i ≡ Some t → t.number ≡ xid → WantsIn part.old.number t }
    ensures told { WantsStill tickets.old xid result }
    ensures part { part.new ≡ part.old }
    ensures tickets { tickets.new ≡ tickets.old }
{
    let mut wants = false;
    for i in 0..tickets.len() {
        if waits_in(rt, part, &mut tickets[i], xid) {
            wants = true;
        }
    }
    wants
}

// Whether that is so of this ticket. Where its transaction waits with a change of another table, it
// waits for ever.
fn waits_in<N: StoreNames, R: Wait>(
    rt: &R,
    part: &mut Part,
    ticket: &mut Ticket<N>,
    xid: Xid,
) -> bool
    requires kept { IsKept N.shares N.schema N.start part.old }
    ensures wants { ticket.old.number ≡ xid → WantsIn part.old.number ticket.old }
    ensures some { result ≡ true → (ticket.old.number ≡ xid) × IsSome (opened_by ticket.old.events).wants }
    ensures none { result ≡ false → ticket.old.number ≡ xid → (opened_by ticket.old.events).wants ≡ None }
    ensures part { part.new ≡ part.old }
    ensures ticket { ticket.new ≡ ticket.old }
{
    if ticket.xid() != xid {
        return false;
    }
    if let Waits::Nowhere = ticket.waits {
        return false;
    }
    if !wants_in(part, &mut ticket.ticket) {
        wait_for_ever(rt);
    }
    true
}

/// Whether the tickets are of different transactions.
pub(crate) fn are_different<N: StoreNames>(tickets: &[Ticket<N>]) -> bool
    ensures { result ≡ true → AreDifferent tickets.now }
{
    for i in 0..tickets.len() {
        if is_among(&tickets[..i], tickets[i].xid()) {
            return false;
        }
    }
    true
}

// Whether one of the tickets is this transaction's.
fn is_among<N: StoreNames>(tickets: &[Ticket<N>], xid: Xid) -> bool
    ensures { result ≡ false → (i : ℕ) (t : OpenTicket) → slice_get tickets.now i ≡ Some t → t.number ≢ xid }
{
    for ticket in tickets {
        if ticket.xid() == xid {
            return true;
        }
    }
    false
}

/// Tells a proof what the types of the tickets keep. It does nothing.
pub(crate) fn recall_each<N: StoreNames>(tickets: &[Ticket<N>])
    ensures { AreTickets N.shares N.schema tickets.now }
{
    for ticket in tickets {
        ticket.recall_invariant();
    }
}
