// One worker with its ring.
ghost use Rattle.std.specs.Prelude.{◌≡◌, []};
ghost use Rattle.worker.specs.Working.{GoesOn};

use super::flags::{Flag, Plan, Stops};
use super::shared::Shared;
use super::steps::{Step, item_of};
use model::Item;
use ring::{Ring, Sender, Taker, meet};
use std::alloc::Global;
use std::marker::Brand;
use std::process::Abort;
use std::sync::Wait;
use std::thread;
use std::thread::Threads;
use std::time::Clock;
use table_locks::{StoreNames, Ticket};
use worker::{Ended, Job, RingNames, WorkItem, work_on};

/// How many slots a ring has.
const SLOTS: usize = 16;

/// What came back of a worker: why, how many items it acknowledged, and those that were left.
#[derive(Drop)]
pub(super) struct Came<N: StoreNames> {
    pub(super) ticket: Ticket<N>,
    pub(super) ended: Ended,
    pub(super) acked: u64,
    pub(super) left: Vec<Item>,
}

impl<N: StoreNames> Came<N> {
    /// Whether it came back for this reason, with so many items acknowledged and so many left.
    pub(super) fn is(&self, ended: Ended, acked: u64, left: usize) -> bool {
        self.ended == ended && self.acked == acked && self.left.len() == left
    }

    /// Its ticket.
    pub(super) fn into_ticket(self) -> Ticket<N> {
        self.ticket
    }
}

/// A worker is doomed once one came to the first flag. Then the second is raised.
#[derive(Clone, Copy)]
pub(super) struct Doom<'a>(pub(super) &'a Flag, pub(super) &'a Flag);

// Sends the items, all of which the ring has room for.
fn send_all<N: StoreNames, R: Abort>(
    rt: &R,
    alloc: Global,
    shared: &Shared<N>,
    mut sender: Sender<WorkItem<N>>,
    steps: &[Step],
) -> Sender<WorkItem<N>>
    ensures { result.ring ≡ sender.ring }
{
    let _ = &shared.store;
    for step in steps {
        let Ok(item) = item_of(alloc, *step) else {
            panic!(rt; "no memory")
        };
        assert!(rt; sender.try_send(WorkItem::new(item)).is_ok());
    }
    sender
}

// Dooms the worker when it is time, and tells that something moved.
fn lead<N: StoreNames, R: Wait + Abort + Clock>(
    rt: &R,
    shared: &Shared<N>,
    mut sender: Sender<WorkItem<N>>,
    doom: Option<Doom<'_>>,
) -> Sender<WorkItem<N>>
    ensures { result.ring ≡ sender.ring }
{
    if let Some(Doom(seen, told)) = doom {
        seen.wait(rt, 1);
        sender.doom();
        shared.store.tell_move(rt);
        told.raise();
    }
    sender
}

// The worker's part.
fn work_alone<N: StoreNames, L: RingNames, R: Wait + Abort + Clock>(
    rt: &R,
    alloc: Global,
    shared: &Shared<N>,
    mut job: Job<N, L>,
    plan: Plan<'_>,
) -> (Job<N, L>, Ended)
    ensures { GoesOn job result.0 }
{
    let mut gate = Stops::new(rt, plan);
    let ended = work_on(rt, alloc, &shared.store, &mut job, &mut gate);
    (job, ended)
}

// Both ends meet.
fn bring_together<N: StoreNames, L: RingNames, R: Abort>(
    rt: &R,
    alloc: Global,
    sender: Sender<WorkItem<N>>,
    job: Job<N, L>,
    ended: Ended,
) -> Came<N>
    requires { (job.worker ≡ 0) × (sender.ring ≡ L.ring 0) }
{
    let (ticket, taker) = job.split();
    let mut ends = meet(sender, taker);
    let acked = ends.acked();
    let mut left = Vec::new(alloc);
    for _ in 0..SLOTS {
        if let Some(item) = ends.next_left() {
            assert!(rt; left.push(item.into_item()).is_ok());
        }
    }
    Came {
        ticket,
        ended,
        acked,
        left,
    }
}

// The ring's name is known only here.
fn run_named<
    N: StoreNames + Send + Sync,
    L: RingNames + Send + Sync,
    R: Threads + Wait + Abort + Clock + Sync,
>(
    rt: &R,
    alloc: Global,
    shared: &Shared<N>,
    sender: Sender<WorkItem<N>>,
    taker: Taker<WorkItem<N>>,
    ticket: Ticket<N>,
    plan: Plan<'_>,
    doom: Option<Doom<'_>>,
) -> Came<N>
    requires rings { (sender.ring ≡ L.ring 0) × (taker.ring ≡ L.ring 0) }
    requires acked { taker.acked ≡ [] }
    requires ticket { ticket.events ≡ [] }
{
    let job: Job<N, L> = Job::new(ticket, taker, 0);
    let (sender, (job, ended)) = thread::join(
        rt,
        move || lead(rt, shared, sender, doom),
        move || work_alone(rt, alloc, shared, job, plan),
    );
    bring_together(rt, alloc, sender, job, ended)
}

/// A worker does the items of a new transaction.
pub(super) fn run_worker<N: StoreNames + Send + Sync, R: Threads + Wait + Abort + Clock + Sync>(
    rt: &R,
    alloc: Global,
    shared: &Shared<N>,
    ticket: Ticket<N>,
    steps: &[Step],
    plan: Plan<'_>,
    doom: Option<Doom<'_>>,
) -> Came<N>
    requires { ticket.events ≡ [] }
{
    let Ok((sender, taker)) = Ring::new::<WorkItem<N>>(alloc, SLOTS) else {
        panic!(rt; "no memory")
    };
    let sender = send_all(rt, alloc, shared, sender, steps);
    run_named::<N, Brand, R>(rt, alloc, shared, sender, taker, ticket, plan, doom)
}
