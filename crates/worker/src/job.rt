// What a worker has of its transaction.
ghost use Rattle.std.specs.Prelude.{◌≡◌, ◌≢◌, [], None, Some, IfErr, OnOk, OnErr, MatchBool};
ghost use Rattle.model.specs.declared.item.Item.TheVariants.{Last};
ghost use Rattle.engine.specs.Events.{opened_by};
ghost use Rattle.worker.specs.Working.{working, done_in, IsInStep, GoesOn, HasNext, HasDone, IsEndedBy};

use crate::ended::Ended;
use crate::gate::Gate;
use crate::item::WorkItem;
use crate::names::RingNames;
use crate::tries::try_until_done;
use model::{Item, Xid};
use ring::Taker;
use std::alloc::Global;
use std::marker::{Model, PhantomData};
use std::sync::Wait;
use table_locks::{Store, StoreNames, Ticket};

/// A transaction's ticket, and the end of its worker's ring from which its items come.
///
/// What the transaction has done are the items that were acknowledged, and a change of it that waits
/// or clashed is the first item after them (`IsInStep`). So whoever brings the two ends of the ring
/// together knows which items are done and which are left.
#[derive(Debug, Drop)]
pub struct Job<N: StoreNames, L: RingNames> {
    ticket: Ticket<N>,
    taker: Taker<WorkItem<N>>,
    worker: usize,
    of: PhantomData<L>,
}

impl<N: StoreNames, L: RingNames> Model for Job<N, L> {
    ghost use Rattle.worker.specs.Working.{Working, working, IsInStep};

    ghost Value = { Working };

    ghost view = { λ j. working j.worker j.ticket j.taker };

    ghost invariant = { λ j. IsInStep (L.ring j.worker) (working j.worker j.ticket j.taker) };
}

impl<N: StoreNames, L: RingNames> Job<N, L> {
    /// A job of a transaction that has done nothing yet, by a ring of which nothing is acknowledged.
    pub fn new(ticket: Ticket<N>, taker: Taker<WorkItem<N>>, worker: usize) -> Job<N, L>
        requires ring { taker.ring ≡ L.ring worker }
        requires first { opened_by ticket.events ≡ record { items = []; wants = None } }
        requires acked { taker.acked ≡ [] }
        ensures { result ≡ working worker ticket taker }
    {
        Job {
            ticket,
            taker,
            worker,
            of: PhantomData,
        }
    }

    /// Ticket and ring end, with what the type kept of them.
    pub fn split(self) -> (Ticket<N>, Taker<WorkItem<N>>)
        ensures ticket { (result.0.number ≡ self.xid) × (result.0.events ≡ self.events) }
        ensures taker { result.1 ≡ self.taker }
        ensures step { IsInStep (L.ring self.worker) self }
    {
        let Job {
            ticket,
            taker,
            worker: _,
            of: _,
        } = self;
        (ticket, taker)
    }

    /// The number of its worker.
    pub fn worker(&self) -> usize
        ensures { result ≡ self.now.worker }
    {
        self.worker
    }

    /// The number of its transaction.
    pub fn xid(&self) -> Xid
        ensures { result ≡ self.now.xid }
    {
        self.ticket.xid()
    }

    /// Waits for the next item of the transaction. There is none to come where its commit was read, nor
    /// where the worker is told to give up.
    pub(crate) fn wait_next<R: Wait>(&mut self, rt: &R) -> Result<(), Ended>
        ensures goes_on { GoesOn self.old self.new }
        ensures same { self.new.events ≡ self.old.events }
        ensures ok { OnOk result (HasNext self.new) }
        ensures err { IfErr result (λ ended. IsEndedBy N.schema N.start ended self.new) }
    {
        self.taker.wait_more(rt);
        if self.taker.doomed() {
            return Err(Ended::Doomed);
        }
        let Some(item) = self.taker.take() else {
            unreachable!()
        };
        if is_last(item.item()) {
            return Err(Ended::Last);
        }
        Ok(())
    }

    /// Does the item that was taken and acknowledges it; waits first where another transaction holds
    /// a cell of it. Refused, the item stays taken.
    pub(crate) fn do_next<G: Gate, R: Wait>(
        &mut self,
        rt: &R,
        alloc: Global,
        store: &Store<N>,
        gate: &mut G,
    ) -> Result<(), Ended>
        requires { HasNext self.old }
        ensures goes_on { GoesOn self.old self.new }
        ensures ok { OnOk result (HasDone self.old self.new) }
        ensures same { OnErr result (done_in self.new ≡ done_in self.old) }
        ensures err { IfErr result (λ ended. IsEndedBy N.schema N.start ended self.new) }
    {
        try_until_done(rt, alloc, store, &mut self.ticket, &mut self.taker, gate)?;
        self.taker.ack();
        Ok(())
    }
}

// Whether this says that the transaction's commit was read.
fn is_last(item: &Item) -> bool
    ensures { MatchBool result (item.now ≡ Last) (item.now ≢ Last) }
{
    matches!(item, Item::Last)
}
