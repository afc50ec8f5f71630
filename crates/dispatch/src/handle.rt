// The leader's side of a worker.
ghost use Rattle.std.specs.Prelude.{◌≡◌, ◌≢◌, [], None, Some, OnOk, OnErr, IsSome, MatchBool, MatchOption};
ghost use Rattle.model.specs.declared.item.Item.TheVariants.{Last};
ghost use Rattle.worker.specs.declared.outbox.Collected.TheVariants.{All as WasAll};
ghost use Rattle.dispatch.specs.Handle.{Given, new_handle, IsIdle, IsHome, HasCount, IsCounted, AddsTo, ComesBack, IsTakenOut, HasAll};
ghost use Rattle.dispatch.specs.Standing.{items_of};

use crate::parts::LeaderEnds;
use crate::shared::WorkerShared;
use crate::slot::Slot;
use model::{Item, OutOfMemory, Xid};
use ring::Taker;
use std::marker::Model;
use std::sync::Wait;
use table_locks::{StoreNames, Ticket};
use tokens::Token;
use worker::{Collected, Job, OutboxEvent, OutboxNames, WorkItem, lock_outbox, wait_for_ever};
use worker_threads::Mailbox;

/// The leader's side of a worker: where it hands the worker a job, and gives it items; what was given,
/// by a token; and the taking end of the worker's ring, while no transaction goes by it. A clause sees
/// its number, the transaction that goes by it with the items that were given to it, and what that has
/// done, once its worker gave it back.
///
/// PostgreSQL has it as `ParallelApplyWorkerInfo`.
#[derive(Debug, Drop)]
pub struct WorkerHandle<'a, N: StoreNames, L: OutboxNames, G: Drop> {
    number: usize,
    shared: &'a WorkerShared<N, L, G>,
    mailbox: &'a Mailbox<Job<N, L>>,
    token: Token<OutboxEvent>,
    taker: Option<Taker<WorkItem<N>>>,
    /// The transaction that goes by it; the last one, where none does.
    xid: Xid,
    /// Its ticket, once its worker gave it back.
    back: Option<Ticket<N>>,
    /// Whether it had done all of its items then.
    collected: Collected,
    /// How many items were given to it. The last number is no count: where none goes by it, or there
    /// were too many.
    count: u64,
}

impl<'a, N: StoreNames, L: OutboxNames, G: Drop> Model for WorkerHandle<'a, N, L, G> {
    ghost use Rattle.dispatch.specs.Handle.{HandleModel, handle_model, going, IsHandle, HasCount};

    ghost Value = { HandleModel };

    ghost view = { λ h. handle_model h.number h.xid h.token.list h.taker h.back h.collected };

    ghost invariant = { λ h. IsHandle (L.ring h.number) (L.outbox h.number) h.xid h.token h.taker h.back h.collected
        × HasCount (going h.xid h.token.list h.taker h.back) (h.xid, h.count) };
}

impl<'a, N: StoreNames, L: OutboxNames, G: Drop> WorkerHandle<'a, N, L, G> {
    /// That of a worker to which nothing was given, by the leader's ends of its ring and its list.
    pub fn new(
        ends: LeaderEnds<N, L>,
        shared: &'a WorkerShared<N, L, G>,
        mailbox: &'a Mailbox<Job<N, L>>,
    ) -> WorkerHandle<'a, N, L, G>
        requires { shared.now ≡ ends }
        ensures { result ≡ new_handle ends }
    {
        let LeaderEnds {
            number,
            token,
            taker,
            ..
        } = ends;
        WorkerHandle {
            number,
            shared,
            mailbox,
            token,
            taker: Some(taker),
            xid: 0,
            back: None,
            collected: Collected::Left,
            count: u64::MAX,
        }
    }

    /// Whether no transaction goes by it.
    pub fn is_free(&self) -> bool
        ensures { MatchBool result (IsIdle self.now) ((given : Given) × (self.now.goes ≡ Some given)) }
    {
        self.taker.is_some() && self.back.is_none()
    }

    /// Whether the worker has its transaction.
    pub fn is_away(&self) -> bool
        ensures { MatchBool result ((given : Given) × (self.now.goes ≡ Some given) × (self.now.back ≡ None)) (IsHome self.now) }
    {
        self.taker.is_none()
    }

    /// Whether this transaction goes by it.
    pub fn has(&self, xid: Xid) -> bool
        ensures { MatchBool result ((given : Given) × (self.now.goes ≡ Some given) × (given.xid ≡ xid)) (items_of xid self.now.goes ≡ []) }
    {
        !self.is_free() && self.xid == xid
    }

    /// The transaction that goes by it, and how many items were given to it. The last number is no
    /// count: none goes by it, or there were too many.
    pub fn given(&self) -> (Xid, u64)
        ensures count { HasCount self.now.goes result }
        ensures counted { IsCounted self.now.goes result }
    {
        (self.xid, self.count)
    }

    /// A transaction that has done nothing yet goes to the worker, as its job. Its mailbox is empty,
    /// which a lock hides.
    pub fn start<R: Wait>(&mut self, rt: &R, ticket: Ticket<N>)
        requires free { IsIdle self.old }
        requires first { ticket.events ≡ [] }
        ensures { self.new ≡ record self.old { goes = Some (record { xid = ticket.number; items = [] }) } }
    {
        let Some(taker) = self.taker.take() else {
            unreachable!()
        };
        self.xid = ticket.xid();
        self.count = 0;
        let job = Job::new(ticket, taker, self.number);
        if self.mailbox.give(rt, job).is_err() {
            wait_for_ever(rt);
        }
    }

    /// Gives an item of its transaction, which the worker must have. Refused, nothing was given.
    pub fn give<R: Wait>(&mut self, rt: &R, item: WorkItem<N>) -> Result<(), OutOfMemory>
        requires away { self.old.back ≡ None }
        requires goes { (given : Given) × (self.old.goes ≡ Some given) }
        ensures ok { OnOk result (AddsTo self.old item self.new) }
        ensures err { OnErr result (self.new ≡ self.old) }
    {
        let is_own = !is_last(item.item());
        let shared = self.shared;
        lock_outbox(rt, &shared.outbox, self.number).give(&mut self.token, item)?;
        if is_own {
            self.count = self.count.saturating_add(1);
        }
        Ok(())
    }

    /// Tells the worker to give up.
    pub fn doom<R: Wait>(&self, rt: &R) {
        let shared = self.shared;
        shared.outbox.lock(rt).doom();
    }

    /// Takes its transaction back, if the worker has given it up. Answers whether it is here.
    pub fn try_collect<R: Wait>(&mut self, rt: &R) -> bool
        ensures goes { self.new.goes ≡ self.old.goes }
        ensures back { MatchBool result (IsHome self.new) (self.new ≡ self.old) }
    {
        match self.mailbox.try_back(rt) {
            Some(job) => {
                self.collect(rt, job);
                true
            }
            None => false,
        }
    }

    /// Takes its transaction back, once the worker has given it up. A worker that was told to does; that
    /// there is a job then, a lock hides.
    pub fn bring_back<R: Wait>(&mut self, rt: &R)
        ensures same { self.new.goes ≡ self.old.goes }
        ensures home { IsHome self.new }
    {
        if !self.is_away() {
            return;
        }
        match self.mailbox.wait_back(rt) {
            Some(job) => self.collect(rt, job),
            None => wait_for_ever(rt),
        }
    }

    // Its worker has given the job back: the transaction's ticket is here from now on.
    fn collect<R: Wait>(&mut self, rt: &R, job: Job<N, L>)
        ensures { (its : Collected) × ComesBack self.old its self.new }
    {
        let shared = self.shared;
        let job = self.own_job(rt, job);
        let (ticket, taker) = job.split();
        let (collected, taker) = lock_outbox(rt, &shared.outbox, self.number).collect(
            &mut self.token,
            taker,
        );
        self.taker = Some(taker);
        self.back = Some(ticket);
        self.collected = collected;
    }

    // The job, if it is that of its transaction. A lock hides which one it is, so the numbers are
    // compared.
    fn own_job<R: Wait>(&self, rt: &R, job: Job<N, L>) -> Job<N, L>
        ensures same { result ≡ job }
        ensures worker { result.worker ≡ self.now.number }
        ensures goes { (given : Given) × (self.now.goes ≡ Some given) × (result.xid ≡ given.xid) }
        ensures away { self.now.back ≡ None }
    {
        if self.is_away() && job.worker() == self.number && job.xid() == self.xid {
            return job;
        }
        wait_for_ever(rt)
    }

    /// The ticket of its transaction, if it came back. No transaction goes by it then.
    pub fn take_back(&mut self) -> Option<Ticket<N>>
        ensures { MatchOption result ((self.old.back ≡ None) × (self.new ≡ self.old)) (λ ticket. IsTakenOut self.old ticket self.new) }
    {
        let ticket = self.back.take()?;
        self.count = u64::MAX;
        Some(ticket)
    }

    /// The same, if it had done all of its items.
    pub fn take_done(&mut self) -> Option<Ticket<N>>
        ensures taken { MatchOption result (self.new ≡ self.old) (λ ticket. IsTakenOut self.old ticket self.new × HasAll self.old ticket) }
        ensures all { self.old.collected ≡ WasAll → IsSome self.old.back → IsSome result }
    {
        if self.collected != Collected::All {
            return None;
        }
        self.take_back()
    }
}

impl<'a, N: StoreNames, L: OutboxNames, G: Drop> Slot<N> for WorkerHandle<'a, N, L, G> {
    ghost use Rattle.dispatch.specs.Standing.{holds_in, KeepsGiven};

    ghost holds = { holds_in };

    ghost keeps = { KeepsGiven };

    fn into_ticket(self) -> Option<Ticket<N>> {
        let WorkerHandle { back, .. } = self;
        back
    }
}

/// Whether this says that the transaction's commit was read.
pub fn is_last(item: &Item) -> bool
    ensures { MatchBool result (item.now ≡ Last) (item.now ≢ Last) }
{
    matches!(item, Item::Last)
}
