// One item of a transaction, in the store.
ghost use Rattle.std.specs.Prelude.{◌≡◌, ◌≢◌, Some, IfErr, length};
ghost use Rattle.model.specs.Beginning.{Begins};
ghost use Rattle.model.specs.Named.{NamesTables};
ghost use Rattle.model.specs.declared.item.Item.{Item as AnyItem};
ghost use Rattle.model.specs.declared.item.Item.TheVariants.{Last, Change as ChangeItem, Touch as TouchItem};
ghost use Rattle.ring.specs.Ends.{Waited};
ghost use Rattle.engine.specs.Events.{opened_by};
ghost use Rattle.table_locks.specs.Answers.{IsTold};
ghost use Rattle.worker.specs.Working.{IsTaken, Comes, ComesTo, WasRefused, ended_by};

use crate::ended::{Ended, Tried};
use crate::gate::Gate;
use crate::item::WorkItem;
use engine::{Acted, EngineFault};
use model::{Change, Item, Xid};
use ring::Taker;
use std::alloc::Global;
use std::sync::Wait;
use table_locks::{Store, StoreNames, Ticket};

/// Does the item that was taken. While another transaction holds a cell of it, it waits until
/// something moves and tries again, unless it is doomed. It sees how often something moved before it
/// looks for the doom and tries, and waits for more; so no move behind these is missed.
pub fn try_until_done<N: StoreNames, G: Gate, R: Wait>(
    rt: &R,
    alloc: Global,
    store: &Store<N>,
    ticket: &mut Ticket<N>,
    taker: &mut Taker<WorkItem<N>>,
    gate: &mut G,
) -> Result<(), Ended>
    requires taken { (item : AnyItem) × (taker.old.taken ≡ Some item) × (item ≢ Last) }
    requires next { IsTaken (opened_by ticket.old.events).wants taker.old.taken }
    ensures taker { Waited taker.old taker.new }
    ensures number { ticket.new.number ≡ ticket.old.number }
    ensures events { Begins ticket.old.events ticket.new.events }
    ensures comes { ComesTo result taker.new (opened_by ticket.old.events) (opened_by ticket.new.events) }
    ensures why { IfErr result (λ ended. WasRefused N.schema N.start ended ticket.new.number ticket.new.events) }
{
    if let Tried::Done = try_taken(rt, alloc, store, ticket, taker)? {
        return Ok(());
    }
    let xid = ticket.xid();
    for _ in rt.forever() {
        let seen = store.moves(rt);
        if taker.doomed() {
            return Err(Ended::Doomed);
        }
        if let Tried::Done = try_taken(rt, alloc, store, ticket, taker)? {
            return Ok(());
        }
        gate.held(xid);
        store.wait_past(rt, seen);
    }
    unreachable!()
}

// Tries the item that was taken.
fn try_taken<N: StoreNames, R: Wait>(
    rt: &R,
    alloc: Global,
    store: &Store<N>,
    ticket: &mut Ticket<N>,
    taker: &mut Taker<WorkItem<N>>,
) -> Result<Tried, Ended>
    requires taken { (item : AnyItem) × (taker.old.taken ≡ Some item) × (item ≢ Last) }
    requires next { IsTaken (opened_by ticket.old.events).wants taker.old.taken }
    ensures taker { Waited taker.old taker.new }
    ensures number { ticket.new.number ≡ ticket.old.number }
    ensures comes { (item : AnyItem) × (taker.old.taken ≡ Some item) × Comes result item ticket.old.events ticket.new.events }
    ensures why { IfErr result (λ ended. WasRefused N.schema N.start ended ticket.new.number ticket.new.events) }
{
    let Some(item) = taker.take() else {
        unreachable!()
    };
    try_item(rt, alloc, store, ticket, item)
}

// Tries an item.
fn try_item<N: StoreNames, R: Wait>(
    rt: &R,
    alloc: Global,
    store: &Store<N>,
    ticket: &mut Ticket<N>,
    item: &WorkItem<N>,
) -> Result<Tried, Ended>
    requires own { item.now ≢ Last }
    requires next { IsTaken (opened_by ticket.old.events).wants (Some item.now) }
    ensures number { ticket.new.number ≡ ticket.old.number }
    ensures comes { Comes result item.now ticket.old.events ticket.new.events }
    ensures why { IfErr result (λ ended. WasRefused N.schema N.start ended ticket.new.number ticket.new.events) }
{
    match item.item() {
        Item::Change { sub, change } => try_change(rt, alloc, store, ticket, *sub, change),
        Item::Touch(sub) => touch(rt, store, ticket, *sub),
        Item::BackTo(sub) => {
            store.back_to(rt, ticket, *sub);
            Ok(Tried::Done)
        }
        Item::Last => unreachable!(),
    }
}

// Tries a change: the one that its transaction waits with, if it waits.
fn try_change<N: StoreNames, R: Wait>(
    rt: &R,
    alloc: Global,
    store: &Store<N>,
    ticket: &mut Ticket<N>,
    sub: Xid,
    change: &Change,
) -> Result<Tried, Ended>
    requires names { NamesTables (length N.schema) change.now }
    requires next { IsTaken (opened_by ticket.old.events).wants (Some (ChangeItem sub change.now)) }
    ensures number { ticket.new.number ≡ ticket.old.number }
    ensures comes { Comes result (ChangeItem sub change.now) ticket.old.events ticket.new.events }
    ensures why { IfErr result (λ ended. WasRefused N.schema N.start ended ticket.new.number ticket.new.events) }
{
    match store.act(rt, alloc, ticket, sub, change) {
        Ok(Acted::Held(_)) => Ok(Tried::Held),
        Ok(_) => Ok(Tried::Done),
        Err(fault) => Err(end_refused(fault)),
    }
}

// Does an item that names a subtransaction.
fn touch<N: StoreNames, R: Wait>(
    rt: &R,
    store: &Store<N>,
    ticket: &mut Ticket<N>,
    sub: Xid,
) -> Result<Tried, Ended>
    ensures number { ticket.new.number ≡ ticket.old.number }
    ensures comes { Comes result (TouchItem sub) ticket.old.events ticket.new.events }
    ensures why { IfErr result (λ ended. WasRefused N.schema N.start ended ticket.new.number ticket.new.events) }
{
    match store.touch(rt, ticket, sub) {
        Ok(()) => Ok(Tried::Done),
        Err(fault) => Err(end_refused(fault)),
    }
}

// Why a worker comes back whose item was refused.
fn end_refused(fault: EngineFault) -> Ended
    requires { IsTold fault }
    ensures { result ≡ ended_by fault }
{
    match fault {
        EngineFault::Clash(_) => Ended::Clashed,
        EngineFault::Stopped => Ended::Stopped,
        EngineFault::OutOfMemory => Ended::OutOfMemory,
        EngineFault::AlreadyOpen | EngineFault::TooManyOpen => unreachable!(),
    }
}
