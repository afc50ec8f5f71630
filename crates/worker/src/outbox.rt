// Where the leader gives a worker its items.
//
// A ring has few slots, and the leader is not to wait for room in it. So what finds no room is queued: it
// lies behind the ring, and whoever comes by sends on. `give` and `send_on` each leave nothing queued, or
// a full ring. Then all that the ring holds is to be acknowledged before the queued ones, and the worker,
// which calls `send_on` again before it has acknowledged so much, sends them on; so none stays behind
// while the worker goes on.
//
// Both are under a lock, of which only its type is known. What the leader knows over its releases is
// what it lists with a token: each item given, and each transaction that began.
ghost use Rattle.std.specs.Prelude.{◌≡◌, ◌<◌, ◌↔◌, ◌⊎◌, ◌++◌, ◌∷◌, [], ◌+◌, false, true, length, OnOk, OnErr, IfNone, IsTrue, MatchOption};
ghost use Rattle.std.specs.VecDeque.{deque_len, deque_capacity};
ghost use Rattle.std.specs.Sync.Mutex.{mutex_guard_value};
ghost use Rattle.model.specs.declared.item.Item.TheVariants.{Last};
ghost use Rattle.model.specs.Beginning.{Begins};
ghost use Rattle.ring.specs.Ends.{AtStart};
ghost use Rattle.worker.specs.declared.outbox.OutboxEvent.TheVariants.{Begun, Given};
ghost use Rattle.worker.specs.declared.outbox.Collected.TheVariants.{All as WasAll};
ghost use Rattle.worker.specs.Outbox.{given_since, SendsOn, GoesOn, FindsNoRoom, HandsOn, IsSameMeeting};

use crate::hidden::wait_for_ever;
use crate::item::WorkItem;
use crate::names::OutboxNames;
use model::{Item, OutOfMemory};
use ring::{Ends, Full, Sender, Taker};
use std::alloc::Global;
use std::collections::VecDeque;
use std::marker::{Brand, Model, PhantomData};
use std::sync::{Mutex, MutexGuard, Wait};
use table_locks::StoreNames;
use tokens::{Items, Kept, Token, grow, grow_by};

/// What the leader did with an outbox. Proofs alone know the list of it.
#[derive(Debug, Drop)]
pub enum OutboxEvent {
    /// A transaction begins, of which nothing was given yet.
    Begun,
    /// This item was given.
    Given(Item),
}

/// Whether all items of a transaction are done that were given.
#[derive(Clone, Copy, Debug, PartialEq, Eq)]
pub enum Collected {
    /// All are, and then came the commit.
    All,
    /// Some aren't, or the commit didn't come.
    Left,
}

/// Where the leader gives the items of a worker's transaction: the end of its ring that sends, and behind
/// it those for which the ring had no room yet.
///
/// It lies under a lock, since the worker sends on from it too. What the leader knows of it then is
/// what its `Token` lists: the items given since the transaction began are those sent and those that
/// are queued, in this order.
#[derive(Debug, Drop)]
pub struct Outbox<N: StoreNames, L: OutboxNames> {
    worker: usize,
    // There is none only while it is collected.
    sender: Option<Sender<WorkItem<N>>>,
    queued: VecDeque<WorkItem<N>>,
    given: Kept<OutboxEvent>,
    of: PhantomData<L>,
}

impl<N: StoreNames, L: OutboxNames> Model for Outbox<N, L> {
    ghost use Rattle.worker.specs.Outbox.{OutboxModel, outbox_model, IsOutbox};

    ghost Value = { OutboxModel };

    ghost view = { λ p. outbox_model p.worker p.given.list p.sender p.queued.items };

    ghost invariant = { λ p. IsOutbox (L.ring p.worker) (L.outbox p.worker) p.given.name p.sender (outbox_model p.worker p.given.list p.sender p.queued.items) };
}

impl<N: StoreNames, L: OutboxNames> Outbox<N, L> {
    /// An outbox to which nothing was given yet.
    pub fn new(
        alloc: Global,
        worker: usize,
        sender: Sender<WorkItem<N>>,
        given: Kept<OutboxEvent>,
    ) -> Outbox<N, L>
        requires ring { sender.ring ≡ L.ring worker }
        requires sent { sender.sent ≡ [] }
        requires name { given.name ≡ L.outbox worker }
        requires given { given_since given.list ≡ [] }
        ensures { result ≡ record { worker = worker; events = given.list; sending = sender; queued = [] } }
    {
        Outbox {
            worker,
            sender: Some(sender),
            queued: VecDeque::new(alloc),
            given,
            of: PhantomData,
        }
    }

    /// The number of its worker.
    pub fn worker(&self) -> usize
        ensures { result ≡ self.now.worker }
    {
        self.worker
    }

    /// How many items are queued.
    pub fn queued_len(&self) -> usize
        ensures { result ≡ length self.now.queued }
    {
        self.queued.len()
    }

    /// Gives an item. It is sent behind those that are queued, while the ring has room, and is queued
    /// itself where a look finds none. Refused, it is dropped, and nothing was given.
    pub fn give(
        &mut self,
        token: &mut Token<OutboxEvent>,
        item: WorkItem<N>,
    ) -> Result<(), OutOfMemory>
        requires { token.old.name ≡ L.outbox self.old.worker }
        ensures met { OnOk result (token.old.list ≡ self.old.events) }
        ensures ok { OnOk result (token.new ≡ record token.old { list = token.old.list ++ Given item ∷ [] }) }
        ensures outbox { OnOk result (self.new.events ≡ token.new.list) }
        ensures items { OnOk result (self.new.sending.sent ++ self.new.queued ≡ (self.old.sending.sent ++ self.old.queued) ++ item ∷ []) }
        ensures room { OnOk result ((self.new.queued ≡ []) ⊎ FindsNoRoom self.old.sending self.new.sending) }
        ensures err { OnErr result (token.new ≡ token.old) }
        ensures same { OnErr result (self.new ≡ self.old) }
        ensures goes_on { GoesOn self.old self.new }
    {
        let Some(sender) = &mut self.sender else {
            unreachable!()
        };
        self.queued.reserve(1)?;
        record_item(&mut self.given, token, &item);
        send_or_keep(sender, &mut self.queued, item);
        Ok(())
    }

    /// Sends queued items, oldest first, while the ring has room. It takes no memory.
    pub fn send_on(&mut self)
        ensures items { self.new.sending.sent ++ self.new.queued ≡ self.old.sending.sent ++ self.old.queued }
        ensures room { (self.new.queued ≡ []) ⊎ FindsNoRoom self.old.sending self.new.sending }
        ensures events { self.new.events ≡ self.old.events }
        ensures goes_on { GoesOn self.old self.new }
    {
        let Some(sender) = &mut self.sender else {
            unreachable!()
        };
        send_queued(sender, &mut self.queued);
    }

    /// Tells the worker to give up, and wakes it if it waits.
    pub fn doom(&mut self)
        ensures { self.new ≡ record self.old { sending = record self.old.sending { dooms = true } } }
    {
        let Some(sender) = &mut self.sender else {
            unreachable!()
        };
        sender.doom();
    }

    /// How many items the worker has acknowledged, of those given since the transaction began.
    pub fn acked(&mut self) -> u64
        ensures result { self.new.sending.counted ≡ result }
        ensures sent { self.new.sending.sent ≡ self.old.sending.sent }
        ensures queued { self.new.queued ≡ self.old.queued }
        ensures events { self.new.events ≡ self.old.events }
        ensures goes_on { GoesOn self.old self.new }
    {
        let Some(sender) = &mut self.sender else {
            unreachable!()
        };
        sender.acked()
    }

    /// Ends a transaction, whose worker has given its end of the ring back, and answers whether all its
    /// items are done. What is left of them is dropped, and the outbox is ready for the next one.
    pub fn collect(
        &mut self,
        token: &mut Token<OutboxEvent>,
        taker: Taker<WorkItem<N>>,
    ) -> (Collected, Taker<WorkItem<N>>)
        requires name { token.old.name ≡ L.outbox self.old.worker }
        requires ring { taker.ring ≡ L.ring self.old.worker }
        ensures met { token.old.list ≡ self.old.events }
        ensures acked { Begins taker.acked (given_since token.old.list) }
        ensures next { MatchOption taker.taken (Unit {0}) (λ item. Begins (taker.acked ++ item ∷ []) (given_since token.old.list)) }
        ensures all { (result.0 ≡ WasAll) ↔ (given_since token.old.list ≡ taker.acked ++ Last ∷ []) }
        ensures begun { token.new ≡ record token.old { list = token.old.list ++ Begun ∷ [] } }
        ensures outbox { self.new.events ≡ token.new.list }
        ensures worker { self.new.worker ≡ self.old.worker }
        ensures start { AtStart taker.ring (self.old.sending.before + length self.old.sending.sent) self.new.sending result.1 }
        ensures queued { self.new.queued ≡ [] }
    {
        let Some(sender) = self.sender.take() else {
            unreachable!()
        };
        let mut ends = ring::meet(sender, taker);
        let collected = drop_rest(&mut ends, &mut self.queued);
        let (sender, taker) = ends.reopen();
        self.sender = Some(sender);
        record_begun(&mut self.given, token);
        (collected, taker)
    }
}

/// The outbox of a worker, under its lock. Nothing ties a lock to a worker, so it is compared.
pub fn lock_outbox<'a, N: StoreNames, L: OutboxNames, R: Wait>(
    rt: &R,
    outbox: &'a Mutex<Outbox<N, L>>,
    worker: usize,
) -> MutexGuard<'a, Outbox<N, L>>
    ensures { (mutex_guard_value result).worker ≡ worker }
{
    let guard = outbox.lock(rt);
    if guard.worker() != worker {
        wait_for_ever(rt);
    }
    guard
}

// Sends the items, oldest first, while there is room.
fn send_queued<T: Drop>(sender: &mut Sender<T>, queued: &mut VecDeque<T>)
    ensures items { sender.new.sent ++ queued.new.items ≡ sender.old.sent ++ queued.old.items }
    ensures room { (queued.new.items ≡ []) ⊎ FindsNoRoom sender.old sender.new }
    ensures sends_on { SendsOn sender.old sender.new }
{
    while let Some(item) = queued.pop_front() {
        if let Err(Full(item)) = sender.try_send(item) {
            queued.push_front_reserved(item);
            return;
        }
    }
}

// Sends the item behind those that are queued, or lays it there.
fn send_or_keep<T: Drop>(sender: &mut Sender<T>, queued: &mut VecDeque<T>, item: T)
    requires { deque_len queued.old < deque_capacity queued.old }
    ensures items { sender.new.sent ++ queued.new.items ≡ (sender.old.sent ++ queued.old.items) ++ item ∷ [] }
    ensures room { (queued.new.items ≡ []) ⊎ FindsNoRoom sender.old sender.new }
    ensures sends_on { SendsOn sender.old sender.new }
{
    if queued.is_empty() {
        if let Err(Full(item)) = sender.try_send(item) {
            queued.push_back_reserved(item);
        }
        return;
    }
    queued.push_back_reserved(item);
    send_queued(sender, queued);
}

// The first item that isn't done: of those left in the ring, and then of those that are queued.
fn next_rest<T>(ends: &mut Ends<T>, queued: &mut VecDeque<T>) -> Option<T>
    ensures first { HandsOn (ends.old.left ++ queued.old.items) result (ends.new.left ++ queued.new.items) }
    ensures none { IfNone result ((ends.new.left ≡ []) × (queued.new.items ≡ [])) }
    ensures same { IsSameMeeting ends.old ends.new }
{
    match ends.next_left() {
        Some(item) => Some(item),
        None => queued.pop_front(),
    }
}

// Drops the items that aren't done. Answers whether that was just the commit.
fn drop_rest<N: StoreNames>(
    ends: &mut Ends<WorkItem<N>>,
    queued: &mut VecDeque<WorkItem<N>>,
) -> Collected
    ensures all { (result ≡ WasAll) ↔ (ends.old.left ++ queued.old.items ≡ Last ∷ []) }
    ensures none { (ends.new.left ≡ []) × (queued.new.items ≡ []) }
    ensures same { IsSameMeeting ends.old ends.new }
{
    let Some(item) = next_rest(ends, queued) else {
        return Collected::Left;
    };
    let last = matches!(item.item(), Item::Last);
    if drop_others(ends, queued) && last {
        Collected::All
    } else {
        Collected::Left
    }
}

// Drops the items that aren't done. Answers whether there were none.
fn drop_others<T: Drop>(ends: &mut Ends<T>, queued: &mut VecDeque<T>) -> bool
    ensures result { IsTrue result ↔ (ends.old.left ++ queued.old.items ≡ []) }
    ensures none { (ends.new.left ≡ []) × (queued.new.items ≡ []) }
    ensures same { IsSameMeeting ends.old ends.new }
{
    let Some(_) = next_rest(ends, queued) else {
        return true;
    };
    while next_rest(ends, queued).is_some() {}
    false
}

// Lists that an item was given.
fn record_item<N: StoreNames>(
    given: &mut Kept<OutboxEvent>,
    token: &mut Token<OutboxEvent>,
    item: &WorkItem<N>,
)
    requires { token.old.name ≡ given.old.name }
    ensures met { token.old ≡ given.old }
    ensures given { given.new ≡ record given.old { list = given.old.list ++ Given item.now ∷ [] } }
    ensures token { token.new ≡ record token.old { list = token.old.list ++ Given item.now ∷ [] } }
{
    grow_item::<N, Brand>(given, token, item);
}

fn grow_item<N: StoreNames, E: Items<OutboxEvent>>(
    given: &mut Kept<OutboxEvent>,
    token: &mut Token<OutboxEvent>,
    item: &WorkItem<N>,
)
    requires name { token.old.name ≡ given.old.name }
    requires events { E.items ≡ Given item.now ∷ [] }
    ensures met { token.old ≡ given.old }
    ensures given { given.new ≡ record given.old { list = given.old.list ++ Given item.now ∷ [] } }
    ensures token { token.new ≡ record token.old { list = token.old.list ++ Given item.now ∷ [] } }
{
    let _ = item;
    grow_by::<OutboxEvent, E>(given, token);
}

// Lists that a transaction begins.
fn record_begun(given: &mut Kept<OutboxEvent>, token: &mut Token<OutboxEvent>)
    requires { token.old.name ≡ given.old.name }
    ensures met { token.old ≡ given.old }
    ensures given { given.new ≡ record given.old { list = given.old.list ++ Begun ∷ [] } }
    ensures token { token.new ≡ record token.old { list = token.old.list ++ Begun ∷ [] } }
{
    grow(given, token, &OutboxEvent::Begun);
}
