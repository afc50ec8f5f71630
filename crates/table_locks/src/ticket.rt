// The right to work on an open transaction of a store with a lock for each table.
ghost use Rattle.std.specs.Prelude.{◌≡◌, ◌++◌, [], false, None};
ghost use Rattle.live_tables.specs.Answers.{told_call, told_fault};
ghost use Rattle.engine.specs.Events.{opened_by, refusal_events};
ghost use Rattle.parted_store.specs.Lent.{HasShares};
ghost use Rattle.table_locks.specs.Tickets.{IsTicketOf, counted, one_more, done_touched as touched_more};

use crate::names::StoreNames;
use engine::EngineFault;
use model::Xid;
use parted_store::BoxedPart;
use std::alloc::Global;
use std::marker::{Model, PhantomData};

/// Whether a transaction may wait in a table.
#[derive(Clone, Copy, Debug)]
pub(crate) enum Waits {
    Nowhere,
    Somewhere,
}

/// The right to work on an open transaction. A clause sees its number, what happened to it, and its
/// shares of the tables' parts; each share tells just what the transaction did in its table, and
/// wants there.
#[derive(Debug, Drop)]
pub struct Ticket<N: StoreNames> {
    pub(crate) ticket: parted_store::Ticket,
    pub(crate) waits: Waits,
    /// How many items its transaction has done, rollbacks among them, as far as it counts.
    pub(crate) done: u64,
    /// Room for the parts of its tables, while they are lent.
    pub(crate) lent: Vec<BoxedPart>,
    of: PhantomData<N>,
}

impl<N: StoreNames> Model for Ticket<N> {
    ghost use Rattle.std.specs.Prelude.{◌≡◌, [], length, vec_capacity};
    ghost use Rattle.parted_store.specs.Lent.{OpenTicket};
    ghost use Rattle.table_locks.specs.Tickets.{counted, IsTicket, HasRoom};

    ghost Value = { OpenTicket };

    ghost view = { λ t. t.ticket };

    ghost invariant = { λ t. IsTicket N.shares N.schema t.waits t.ticket × (t.lent.items ≡ []) × HasRoom (length N.schema) t.ticket (vec_capacity t.lent) × (t.done ≡ counted t.ticket.events) };
}

impl<N: StoreNames> Ticket<N> {
    /// The ticket of a transaction that has opened, and has come to no table.
    pub(crate) fn new(alloc: Global, ticket: parted_store::Ticket) -> Ticket<N>
        requires events { ticket.events ≡ [] }
        requires shares { ticket.shares ≡ [] }
        ensures { result ≡ ticket }
    {
        Ticket {
            ticket,
            waits: Waits::Nowhere,
            done: 0,
            lent: Vec::new(alloc),
            of: PhantomData,
        }
    }

    /// The transaction's number.
    pub fn xid(&self) -> Xid
        ensures { result ≡ self.now.number }
    {
        self.ticket.xid()
    }

    /// Tells a proof what its type keeps. It does nothing.
    pub fn recall_invariant(&self)
        ensures is { IsTicketOf N.shares N.schema self.now }
        ensures shares { HasShares self.now }
    {
        self.ticket.recall_invariant();
    }

    /// Whether the transaction may wait with a change, or have one that clashed.
    pub fn waits(&self) -> bool
        ensures { result ≡ false → (opened_by self.now.events).wants ≡ None }
    {
        match self.waits {
            Waits::Nowhere => false,
            Waits::Somewhere => true,
        }
    }

    /// How many items the transaction has done, rollbacks among them. Past the last number of a
    /// u64 the count stays there.
    pub fn done(&self) -> u64
        ensures { result ≡ counted self.now.events }
    {
        self.done
    }

    /// A call of the transaction is refused, and its list tells it. Nothing else changes, and it
    /// takes no memory.
    pub(crate) fn refuse(&mut self, fault: EngineFault) -> EngineFault
        ensures same { result ≡ fault }
        ensures ticket { self.new ≡ record self.old { events = self.old.events ++ refusal_events (told_fault fault) } }
    {
        self.ticket.refuse(fault)
    }
}

/// One item more, as far as a u64 counts.
pub(crate) fn count_one(done: u64) -> u64
    ensures { result ≡ one_more done }
{
    done.saturating_add(1)
}

/// How many items a transaction has done once a subtransaction was named, if it was.
pub(crate) fn count_touched(done: u64, touched: &Result<(), EngineFault>) -> u64
    ensures { result ≡ touched_more done (told_call touched.now) }
{
    match touched {
        Ok(()) => count_one(done),
        Err(_) => done,
    }
}
