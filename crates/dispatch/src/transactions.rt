// The open transactions of a run: which are with a worker, and which with the leader.
ghost use Rattle.std.specs.Prelude.{◌≡◌, ◌≢◌, ◌<◌, ◌++◌, ◌∷◌, [], None, Some, IfErr, IfOk, IfNone, IfSome, OnErr, OnOk, ◌⊎◌, All, MatchBool, MatchOption, length, map, option_map, slice_index_or};
ghost use Rattle.model.specs.Named.{NamesTables};
ghost use Rattle.model.specs.declared.item.Item.TheVariants.{Last, Change as ChangeItem, Touch as TouchItem};
ghost use Rattle.engine.specs.Events.{ends_in};
ghost use Rattle.origin.specs.Commits.{commits_of};
ghost use Rattle.model.specs.Beginning.{last_end};
ghost use Rattle.engine.specs.declared.events.LineEvent.TheVariants.{Opened as WasOpened, Committed as WasCommitted};
ghost use Rattle.session.specs.Answers.{IsOfTables};
ghost use Rattle.worker.specs.Working.{IsTaken as IsNext};
ghost use Rattle.dispatch.specs.Handle.{own_item, done_by, new_handle, IsIdle, IsHome, AreCounted};
ghost use Rattle.dispatch.specs.Standing.{own_by, goes_by, items_by, GoesBy, IsOwn, IsOurs, with_done, with_wanted, IsUndone, Tries, IsStoreEnd, IsStopEnd, IsBegun, IsHandedOut, IsGiven, IsApplied, IsTaken, IsMet, IsCommitted, CommitsGiven, CommitsOwn, HasDoneAll, HasTried, IsAborted};

use crate::ends::{end_of_fault, end_of_stop, end_of_unasked};
use crate::handle::{WorkerHandle, is_last};
use crate::positions::{Positions, RunNames};
use crate::shared::Shared;
use engine::{Acted, EngineFault};
use model::{Change, CommitInfo, Item, Xid};
use origin::Publisher;
use run::End;
use std::alloc::Global;
use std::marker::Model;
use std::sync::Wait;
use table_locks::{Line, StoreNames, Ticket};
use worker::{Gate, OutboxNames, WorkItem};

/// The open transactions of a run, and the line of its store.
///
/// The items of a streamed transaction that has a worker go to its worker; those of the one between Begin
/// and Commit, and of one that was spooled, are applied by the leader. It alone opens, commits and
/// aborts. A clause sees how many tables the store has, what its line tells, which transaction goes by
/// each worker with the items that were given to it, and what the leader's own has done.
///
/// The position behind each commit is published, once that stands and no lock of the store is held.
#[derive(Debug, Drop)]
pub struct Transactions<'a, N: StoreNames, L: RunNames, R: Wait, G: Gate + Drop> {
    rt: &'a R,
    alloc: Global,
    shared: &'a Shared<N, L, G>,
    line: Line,
    workers: Vec<WorkerHandle<'a, N, L, G>>,
    /// Of each worker how many items were given to its transaction, as the worker tells it.
    given: Vec<(Xid, u64)>,
    /// The transaction between Begin and Commit, or one that was spooled while it commits.
    begun: Option<Ticket<N>>,
    /// Tells those who watch how far the line has come.
    positions: Positions<'a, L>,
}

impl<'a, N: StoreNames, L: RunNames, R: Wait, G: Gate + Drop> Model
    for Transactions<'a, N, L, R, G> {
    ghost use Rattle.std.specs.Prelude.{◌≡◌, length};
    ghost use Rattle.engine.specs.Events.{ends_in};
    ghost use Rattle.dispatch.specs.Standing.{Standing, standing};

    ghost Value = { Standing };

    ghost view = { λ t. standing (length N.schema) t.line.list t.workers.items t.begun };

    ghost invariant = { λ t. (t.line.name ≡ N.line) × (t.positions ≡ ends_in t.line.list) };
}

/// What a run leaves of its open transactions, once all workers have given up: the store's line, the
/// ticket of the leader's own, the workers with the tickets of the others, and of each worker how many items
/// were given to its transaction.
#[derive(Debug, Drop)]
pub struct Left<'a, N: StoreNames, L: OutboxNames, G: Drop> {
    pub line: Line,
    pub begun: Option<Ticket<N>>,
    pub workers: Vec<WorkerHandle<'a, N, L, G>>,
    pub given: Vec<(Xid, u64)>,
    pub publisher: Publisher,
}

impl<'a, N: StoreNames, L: RunNames, R: Wait, G: Gate + Drop> Transactions<'a, N, L, R, G> {
    /// None is open, and no worker is in use.
    pub fn new(
        rt: &'a R,
        shared: &'a Shared<N, L, G>,
        line: Line,
        workers: Vec<WorkerHandle<'a, N, L, G>>,
        given: Vec<(Xid, u64)>,
        positions: Positions<'a, L>,
    ) -> Transactions<'a, N, L, R, G>
        requires name { line.name ≡ N.line }
        requires none { line.list ≡ [] }
        requires unpublished { positions ≡ [] }
        ensures { result ≡ record { tables = length N.schema; line = []; workers = map goes_by workers.entry.items; begun = None } }
    {
        Transactions {
            rt,
            alloc: shared.alloc,
            shared,
            line,
            workers,
            given,
            begun: None,
            positions,
        }
    }

    /// What it leaves. It tells all workers to give up and waits until they have; that they do, they
    /// must still be working.
    pub fn into_left(self) -> Left<'a, N, L, G>
        ensures name { result.line.name ≡ N.line }
        ensures list { result.line.list ≡ self.entry.line }
        ensures begun { option_map own_by result.begun ≡ self.entry.begun }
        ensures workers { map goes_by result.workers.items ≡ self.entry.workers }
        ensures home { All IsHome result.workers.items }
        ensures given { AreCounted self.entry.workers result.given.items }
        ensures publisher { result.publisher ≡ commits_of L.origin (ends_in self.entry.line) }
    {
        let Transactions {
            rt,
            shared,
            line,
            mut workers,
            mut given,
            begun,
            positions,
            ..
        } = self;
        bring_home(rt, shared, &mut workers);
        count_given(&workers, &mut given);
        Left {
            line,
            begun,
            workers,
            given,
            publisher: positions.into_publisher(),
        }
    }

    // ---- transactions open

    /// A transaction begins, whose items the leader applies as they come.
    pub fn begin(&mut self, xid: Xid) -> Result<(), End>
        requires { self.old.begun ≡ None }
        ensures ok { OnOk result (IsBegun self.old xid self.new) }
        ensures same { OnErr result (self.new ≡ self.old) }
        ensures err { IfErr result IsStopEnd }
    {
        let ticket = open_in(self.rt, self.alloc, self.shared, &mut self.line, xid)?;
        self.begun = Some(ticket);
        Ok(())
    }

    /// A streamed transaction opens, and goes to a worker that is free.
    pub fn hand_out(&mut self, xid: Xid) -> Result<(), End>
        ensures ok { OnOk result (IsHandedOut self.old xid self.new) }
        ensures same { OnErr result (self.new ≡ self.old) }
        ensures err { IfErr result IsStopEnd }
    {
        let Some(index) = find_free(&self.workers) else {
            return Err(end_of_unasked());
        };
        let ticket = open_in(self.rt, self.alloc, self.shared, &mut self.line, xid)?;
        self.workers[index].start(self.rt, ticket);
        self.note(index);
        Ok(())
    }

    // Notes how many items were given to the transaction of a worker.
    fn note(&mut self, index: usize)
        ensures { self.new ≡ self.old }
    {
        let Some(worker) = self.workers.get(index) else {
            return;
        };
        let told = worker.given();
        if let Some(given) = self.given.get_mut(index) {
            *given = told;
        }
    }

    // ---- items

    /// An item of an open transaction: to its worker, if it has one, or applied.
    pub fn take(&mut self, xid: Xid, item: Item) -> Result<(), End>
        requires named { IsOfTables self.old.tables item }
        requires ours { IsOurs self.old xid }
        ensures ok { OnOk result (IsTaken self.old xid item self.new) }
        ensures err { IfErr result (IsMet self.old xid item self.new) }
    {
        if is_last(&item) {
            return Err(end_of_unasked());
        }
        match self.find_worker(xid) {
            Some(index) => self.give(index, xid, item),
            None => self.apply(xid, &item),
        }
    }

    // The worker by which a transaction goes.
    fn find_worker(&self, xid: Xid) -> Option<usize>
        ensures none { IfNone result (items_by xid self.now.workers ≡ []) }
        ensures found { IfSome result (λ place. GoesBy self.now.workers place xid) }
    {
        for (index, worker) in self.workers.iter().enumerate() {
            if worker.has(xid) {
                return Some(index);
            }
        }
        None
    }

    // Gives an item to a worker, and counts it.
    fn give(&mut self, index: usize, xid: Xid, item: Item) -> Result<(), End>
        requires goes { GoesBy self.old.workers index xid }
        requires named { IsOfTables self.old.tables item }
        requires own { item ≢ Last }
        ensures ok { OnOk result (IsGiven self.old xid (item ∷ []) self.new) }
        ensures same { OnErr result (self.new ≡ self.old) }
        ensures err { IfErr result IsStopEnd }
    {
        self.send(index, xid, item)?;
        self.note(index);
        Ok(())
    }

    // Gives an item to the worker by which this transaction goes, or tells it that the commit was read.
    fn send(&mut self, index: usize, xid: Xid, item: Item) -> Result<(), End>
        requires goes { GoesBy self.old.workers index xid }
        requires named { IsOfTables self.old.tables item }
        ensures ok { OnOk result (IsGiven self.old xid (own_item item) self.new) }
        ensures same { OnErr result (self.new ≡ self.old) }
        ensures err { IfErr result IsStopEnd }
    {
        let worker = &mut self.workers[index];
        if !worker.is_away() {
            return Err(end_of_unasked());
        }
        worker.give(self.rt, WorkItem::new(item))?;
        Ok(())
    }

    // Applies an item of the leader's own transaction.
    fn apply(&mut self, xid: Xid, item: &Item) -> Result<(), End>
        requires named { IsOfTables self.old.tables item.now }
        requires ours { IsOwn self.old xid }
        ensures ok { OnOk result (IsApplied self.old xid item.now self.new) }
        ensures err { IfErr result (IsMet self.old xid item.now self.new) }
    {
        let Some(mut own) = self.begun.take() else {
            unreachable!()
        };
        let done = self.do_item(&mut own, item);
        self.begun = Some(own);
        done
    }

    // Does an item. One of a transaction that waits with another isn't asked for.
    fn do_item(&self, ticket: &mut Ticket<N>, item: &Item) -> Result<(), End>
        requires named { IsOfTables self.now.tables item.now }
        ensures number { ticket.new.number ≡ ticket.old.number }
        ensures ok { OnOk result (done_by ticket.new ≡ with_done (done_by ticket.old) item.now) }
        ensures err { OnErr result (IsUndone (done_by ticket.old) item.now (done_by ticket.new)) }
        ensures end { IfErr result (IsStoreEnd (Some ticket.old.number)) }
    {
        if ticket.waits() {
            return Err(end_of_unasked());
        }
        match item {
            Item::Change { sub, change } => self.do_change(ticket, *sub, change),
            Item::Touch(sub) => self.touch(ticket, *sub),
            Item::BackTo(sub) => {
                self.shared.store.back_to(self.rt, ticket, *sub);
                Ok(())
            }
            Item::Last => Err(end_of_unasked()),
        }
    }

    // Does a change, once nobody else holds a cell of it. Its transaction waits with no other.
    fn do_change(&self, ticket: &mut Ticket<N>, sub: Xid, change: &Change) -> Result<(), End>
        requires named { NamesTables self.now.tables change.now }
        requires next { IsNext (done_by ticket.old).wants (Some (ChangeItem sub change.now)) }
        ensures number { ticket.new.number ≡ ticket.old.number }
        ensures ok { OnOk result (done_by ticket.new ≡ with_done (done_by ticket.old) (ChangeItem sub change.now)) }
        ensures err { OnErr result (IsUndone (done_by ticket.old) (ChangeItem sub change.now) (done_by ticket.new)) }
        ensures end { IfErr result (IsStoreEnd (Some ticket.old.number)) }
    {
        if self.try_change(ticket, sub, change)? {
            return Ok(());
        }
        for _ in self.rt.forever() {
            let key = self.shared.moved.prepare_wait();
            if self.try_change(ticket, sub, change)? {
                return Ok(());
            }
            if self.shared.was_refused() {
                return Err(End::OutOfMemory);
            }
            key.wait(self.rt);
        }
        unreachable!()
    }

    // Tries a change. Where another transaction holds a cell of it, it is not done; that ends the run
    // if the store was stopped, or nothing more can come.
    fn try_change(&self, ticket: &mut Ticket<N>, sub: Xid, change: &Change) -> Result<bool, End>
        requires named { NamesTables self.now.tables change.now }
        requires next { IsNext (done_by ticket.old).wants (Some (ChangeItem sub change.now)) }
        ensures number { ticket.new.number ≡ ticket.old.number }
        ensures tries { Tries result sub change.now (done_by ticket.old) (done_by ticket.new) }
        ensures end { IfErr result (IsStoreEnd (Some ticket.old.number)) }
    {
        let store = &self.shared.store;
        match store.act(self.rt, self.alloc, ticket, sub, change) {
            Ok(Acted::Done | Acted::Skipped) => Ok(true),
            Ok(Acted::Held(_)) => {
                self.look_held(ticket.xid())?;
                Ok(false)
            }
            Err(fault) => Err(end_refused(self.rt, self.shared, fault)),
        }
    }

    // Whether the run ends while this transaction waits, or is waited for: the store was stopped, or
    // nothing more can come.
    fn look_held(&self, xid: Xid) -> Result<(), End>
        ensures { IfErr result (IsStoreEnd (Some xid)) }
    {
        running(self.rt, self.shared)?;
        let store = &self.shared.store;
        match store.stop_held(self.rt, &self.line, xid, self.given.as_slice()) {
            Ok(holder) => Err(End::HeldKey { xid, holder }),
            Err(_) => Ok(()),
        }
    }

    // Does an item that names a subtransaction.
    fn touch(&self, ticket: &mut Ticket<N>, sub: Xid) -> Result<(), End>
        ensures number { ticket.new.number ≡ ticket.old.number }
        ensures ok { OnOk result (done_by ticket.new ≡ with_done (done_by ticket.old) (TouchItem sub)) }
        ensures err { OnErr result (done_by ticket.new ≡ done_by ticket.old) }
        ensures end { IfErr result IsStopEnd }
    {
        match self.shared.store.touch(self.rt, ticket, sub) {
            Ok(()) => Ok(()),
            Err(fault) => Err(end_refused(self.rt, self.shared, fault)),
        }
    }

    // ---- commits and aborts

    /// Commits a transaction, once all of its items are done: those given to its worker, those applied so
    /// far, or, where it was spooled, these. Where the run ends it stays, and has done a beginning of them.
    pub fn commit(&mut self, xid: Xid, info: CommitInfo, items: Vec<Item>) -> Result<(), End>
        requires named { All (IsOfTables self.old.tables) items.items }
        requires ready { IsOurs self.old xid ⊎ (self.old.begun ≡ None) }
        requires rising { last_end (ends_in self.old.line) < info.end }
        ensures ok { OnOk result (IsCommitted self.old xid info items.items self.new) }
        ensures err { OnErr result ((self.new ≡ self.old) ⊎ HasTried self.old xid items.items self.new) }
        ensures end { IfErr result (IsStoreEnd (Some xid)) }
    {
        if let Some(index) = self.find_worker(xid) {
            self.finish(index, xid)?;
            return self.settle(index, xid, info);
        }
        if !self.is_own(xid) {
            self.unspool(xid, items)?;
        }
        self.settle_own(xid, info)
    }

    // Whether this is the leader's own transaction.
    fn is_own(&self, xid: Xid) -> bool
        ensures { MatchBool result (IsOwn self.now xid) (¬ IsOwn self.now xid) }
    {
        match &self.begun {
            Some(ticket) => ticket.xid() == xid,
            None => false,
        }
    }

    // Opens a transaction that was spooled and applies its items.
    fn unspool(&mut self, xid: Xid, items: Vec<Item>) -> Result<(), End>
        requires named { All (IsOfTables self.old.tables) items.items }
        requires none { self.old.begun ≡ None }
        requires nowhere { items_by xid self.old.workers ≡ [] }
        ensures ok { OnOk result (HasDoneAll self.old xid items.items self.new) }
        ensures err { OnErr result ((self.new ≡ self.old) ⊎ HasTried self.old xid items.items self.new) }
        ensures end { IfErr result (IsStoreEnd (Some xid)) }
    {
        self.begin(xid)?;
        for item in items {
            self.apply(xid, &item)?;
        }
        Ok(())
    }

    // Tells a worker that the commit was read, and waits until it is done with its transaction. The run
    // ends if the store is stopped meanwhile, or nothing more can come.
    fn finish(&mut self, index: usize, xid: Xid) -> Result<(), End>
        requires { GoesBy self.old.workers index xid }
        ensures same { self.new ≡ self.old }
        ensures err { IfErr result (IsStoreEnd (Some xid)) }
    {
        self.send(index, xid, Item::Last)?;
        for _ in self.rt.forever() {
            let key = self.shared.moved.prepare_wait();
            if self.try_collect(index, xid) {
                return Ok(());
            }
            self.look(xid)?;
            key.wait(self.rt);
        }
        unreachable!()
    }

    // Whether the run ends while the worker of this transaction is waited for.
    fn look(&self, xid: Xid) -> Result<(), End>
        ensures { IfErr result (IsStoreEnd (Some xid)) }
    {
        self.look_held(xid)?;
        if self.shared.was_refused() {
            return Err(End::OutOfMemory);
        }
        Ok(())
    }

    // Takes a worker's transaction back, if it has given it up.
    fn try_collect(&mut self, index: usize, xid: Xid) -> bool
        requires { GoesBy self.old.workers index xid }
        ensures { self.new ≡ self.old }
    {
        self.workers[index].try_collect(self.rt)
    }

    // Commits the transaction of a worker that is done with it, unless the store was stopped. One that
    // came back with items left, though the store goes on, was refused memory.
    fn settle(&mut self, index: usize, xid: Xid, info: CommitInfo) -> Result<(), End>
        requires goes { GoesBy self.old.workers index xid }
        requires rising { last_end (ends_in self.old.line) < info.end }
        ensures ok { OnOk result (CommitsGiven self.old xid info self.new) }
        ensures same { OnErr result (self.new ≡ self.old) }
        ensures err { IfErr result IsStopEnd }
    {
        running(self.rt, self.shared)?;
        let Some(ticket) = self.workers[index].take_done() else {
            return Err(End::OutOfMemory);
        };
        self.commit_ticket(ticket, info);
        self.note(index);
        Ok(())
    }

    // Commits the leader's own transaction, unless the store was stopped.
    fn settle_own(&mut self, xid: Xid, info: CommitInfo) -> Result<(), End>
        requires own { IsOwn self.old xid }
        requires rising { last_end (ends_in self.old.line) < info.end }
        ensures ok { OnOk result (CommitsOwn self.old xid info self.new) }
        ensures same { OnErr result (self.new ≡ self.old) }
        ensures err { IfErr result IsStopEnd }
    {
        running(self.rt, self.shared)?;
        let Some(ticket) = self.begun.take() else {
            unreachable!()
        };
        self.commit_ticket(ticket, info);
        Ok(())
    }

    // Commits a transaction whose ticket was taken, also in a store that is stopped. It publishes the
    // position behind it, once no lock of the store is held.
    fn commit_ticket(&mut self, ticket: Ticket<N>, info: CommitInfo)
        requires rising { last_end (ends_in self.old.line) < info.end }
        ensures { self.new ≡ record self.old { line = self.old.line ++ WasCommitted ticket.number (done_by ticket).items info ∷ [] } }
    {
        let store = &self.shared.store;
        let commits = store.commit(self.rt, &mut self.line, ticket, info);
        self.positions
            .publish(self.rt, &self.line, commits as u64, info.end);
    }

    /// Drops a transaction that has a worker, unless the store was stopped.
    pub fn abort(&mut self, xid: Xid) -> Result<(), End>
        requires { items_by xid self.old.workers ≢ [] }
        ensures ok { OnOk result (IsAborted self.old xid self.new) }
        ensures same { OnErr result (self.new ≡ self.old) }
        ensures err { IfErr result IsStopEnd }
    {
        let Some(index) = self.find_worker(xid) else {
            unreachable!()
        };
        self.drop_given(index, xid)
    }

    // Tells a worker to give up, and drops its transaction, unless the store was stopped.
    fn drop_given(&mut self, index: usize, xid: Xid) -> Result<(), End>
        requires { GoesBy self.old.workers index xid }
        ensures ok { OnOk result (IsAborted self.old xid self.new) }
        ensures same { OnErr result (self.new ≡ self.old) }
        ensures err { IfErr result IsStopEnd }
    {
        let worker = &mut self.workers[index];
        doom_worker(self.rt, self.shared, worker);
        worker.bring_back(self.rt);
        running(self.rt, self.shared)?;
        let Some(ticket) = worker.take_back() else {
            unreachable!()
        };
        self.shared.store.abort(self.rt, &mut self.line, ticket);
        self.note(index);
        Ok(())
    }
}

// A worker by which no transaction goes.
fn find_free<N: StoreNames, L: OutboxNames, G: Drop>(
    workers: &[WorkerHandle<'_, N, L, G>],
) -> Option<usize>
    ensures { IfSome result (λ place. (place < length workers.now) × IsIdle (slice_index_or workers.now place (new_handle 0))) }
{
    for (index, worker) in workers.iter().enumerate() {
        if worker.is_free() {
            return Some(index);
        }
    }
    None
}

// A transaction opens in the store.
fn open_in<N: StoreNames, L: OutboxNames, R: Wait, G: Gate + Drop>(
    rt: &R,
    alloc: Global,
    shared: &Shared<N, L, G>,
    line: &mut Line,
    xid: Xid,
) -> Result<Ticket<N>, End>
    requires { line.old.name ≡ N.line }
    ensures name { line.new.name ≡ line.old.name }
    ensures ends { ends_in line.new.list ≡ ends_in line.old.list }
    ensures ok { OnOk result (line.new.list ≡ line.old.list ++ WasOpened xid ∷ []) }
    ensures ticket { IfOk result (λ ticket. ticket ≡ record { number = xid; events = []; shares = [] }) }
    ensures same { OnErr result (line.new.list ≡ line.old.list) }
    ensures err { IfErr result IsStopEnd }
{
    match shared.store.open(rt, alloc, line, xid) {
        Ok(ticket) => Ok(ticket),
        Err(fault) => Err(end_refused(rt, shared, fault)),
    }
}

// The end of a run in which a call on the store was refused.
fn end_refused<N: StoreNames, L: OutboxNames, R: Wait, G: Gate + Drop>(
    rt: &R,
    shared: &Shared<N, L, G>,
    fault: EngineFault,
) -> End
    ensures { IsStopEnd result }
{
    let stop = shared.store.lock_journal(rt).stop();
    end_of_fault(fault, stop)
}

// Whether the run goes on: the end of one whose store was stopped.
fn running<N: StoreNames, L: OutboxNames, R: Wait, G: Gate + Drop>(
    rt: &R,
    shared: &Shared<N, L, G>,
) -> Result<(), End>
    ensures { IfErr result IsStopEnd }
{
    let stop = shared.store.lock_journal(rt).stop();
    match stop {
        Some(stop) => Err(end_of_stop(stop)),
        None => Ok(()),
    }
}

// Tells a worker to give up, and wakes it if it waits for a cell.
fn doom_worker<N: StoreNames, L: OutboxNames, R: Wait, G: Gate + Drop>(
    rt: &R,
    shared: &Shared<N, L, G>,
    worker: &WorkerHandle<'_, N, L, G>,
) {
    worker.doom(rt);
    shared.store.tell_move(rt);
}

// Tells all workers to give up, and takes their transactions back.
fn bring_home<N: StoreNames, L: OutboxNames, R: Wait, G: Gate + Drop>(
    rt: &R,
    shared: &Shared<N, L, G>,
    workers: &mut Vec<WorkerHandle<'_, N, L, G>>,
)
    ensures same { map goes_by workers.new.items ≡ map goes_by workers.old.items }
    ensures home { All IsHome workers.new.items }
{
    for worker in workers.iter() {
        if worker.is_away() {
            doom_worker(rt, shared, worker);
        }
    }
    for worker in workers.iter_mut() {
        worker.bring_back(rt);
    }
}

// Tells of each worker how many items were given to its transaction. The list has room for all workers,
// so it takes no memory.
fn count_given<N: StoreNames, L: OutboxNames, G: Drop>(
    workers: &[WorkerHandle<'_, N, L, G>],
    given: &mut Vec<(Xid, u64)>,
)
    ensures { AreCounted (map goes_by workers.now) given.new.items }
{
    given.clear();
    for worker in workers {
        let _ = given.push(worker.given());
    }
}
