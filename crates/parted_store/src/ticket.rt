// The right to work on an open transaction of a store in parts.
ghost use Rattle.std.specs.Prelude.{◌≡◌, ◌++◌, [], IfOk, is_some};
ghost use Rattle.live_tables.specs.Answers.{told_fault};
ghost use Rattle.engine.specs.Events.{refusal_events};
ghost use Rattle.parted_store.specs.Lent.{HasShares};
ghost use Rattle.parted_store.specs.Shares.{share_of};

use crate::told::Told;
use engine::{EngineFault, Event, Ticket as Share};
use model::{Item, OutOfMemory, TableId, Xid};
use savepoint::Savepoints;
use std::alloc::Global;
use std::marker::{Brand, Model};
use tokens::Items;

/// The right to work on an open transaction. A clause sees its number, what happened to it, and its shares:
/// a ticket of the part of each table that it came to.
#[derive(Debug, Drop)]
pub struct Ticket {
    pub(crate) xid: Xid,
    pub(crate) events: Told<Event>,
    /// The items that it has done and no rollback has dropped.
    pub(crate) items: Vec<Item>,
    /// The subtransactions' marks, each with the number of items before it.
    pub(crate) marks: Savepoints<usize>,
    /// By the number of the table.
    pub(crate) shares: Vec<Option<Share>>,
}

impl Model for Ticket {
    ghost use Rattle.parted_store.specs.Lent.{OpenTicket};

    ghost Value = { OpenTicket };

    ghost use Rattle.parted_store.specs.Ticket.{ticket_in, IsTicket};

    ghost view = { ticket_in };

    ghost invariant = { IsTicket };
}

impl Ticket {
    /// The ticket of a transaction that opens.
    pub(crate) fn new(alloc: Global, xid: Xid) -> Result<Ticket, OutOfMemory>
        ensures { IfOk result (λ t. t ≡ record { number = xid; events = []; shares = [] }) }
    {
        let events = Told::new(alloc)?;
        Ok(Ticket {
            xid,
            events,
            items: Vec::new(alloc),
            marks: Savepoints::new(alloc),
            shares: Vec::new(alloc),
        })
    }

    /// A call of the transaction is refused, and its list tells it. Nothing else changes, and it takes no
    /// memory.
    pub fn refuse(&mut self, fault: EngineFault) -> EngineFault
        ensures same { result ≡ fault }
        ensures ticket { self.new ≡ record self.old { events = self.old.events ++ refusal_events (told_fault fault) } }
    {
        tell_refusal(&mut self.events, &fault);
        fault
    }

    /// Tells a proof what its type keeps: it has a share of each table in which its transaction did something, or
    /// wants something. It does nothing.
    pub fn recall_invariant(&self)
        ensures { HasShares self.now }
    {
        let _xid = self.xid;
    }

    /// Whether it has a share of the table.
    pub fn has_share(&self, table: TableId) -> bool
        ensures { result ≡ is_some (share_of self.now.shares table) }
    {
        if table >= self.shares.len() {
            return false;
        }
        self.shares[table].is_some()
    }

    /// The transaction's number.
    pub fn xid(&self) -> Xid
        ensures { result ≡ self.now.number }
    {
        self.xid
    }
}

// Lists that a call was refused.
fn tell_refusal(events: &mut Told<Event>, fault: &EngineFault)
    ensures { events.new ≡ events.old ++ refusal_events (told_fault fault.now) }
{
    grow_refusal::<Brand>(events, fault);
}

fn grow_refusal<N: Items<Event>>(events: &mut Told<Event>, fault: &EngineFault)
    requires { N.items ≡ refusal_events (told_fault fault.now) }
    ensures { events.new ≡ events.old ++ refusal_events (told_fault fault.now) }
{
    let _ = fault;
    events.grow_by::<N>();
}
