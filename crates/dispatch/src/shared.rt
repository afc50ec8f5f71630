// What a leader and its workers share.
ghost use Rattle.std.specs.Prelude.{◌≡◌};

use crossbeam_utils::sync::EventCount;
use model::Xid;
use std::alloc::Global;
use std::marker::Model;
use std::sync::atomic::{AtomicBool, Ordering};
use std::sync::{Mutex, Wait};
use table_locks::{Store, StoreNames};
use worker::{Ended, Gate, Job, Outbox, OutboxNames, Point, wait_for_ever, work_on};
use worker_threads::Work;

/// What a leader and its workers share.
#[derive(Debug, Drop)]
pub struct Shared<N: StoreNames, L: OutboxNames, G: Drop> {
    pub alloc: Global,
    pub store: Store<N>,
    /// What each worker shares, by its number.
    pub workers: Vec<WorkerShared<N, L, G>>,
    /// Wakes the leader, where it waits for anything that moves.
    pub moved: EventCount,
    /// Whether memory was refused to a worker. What its transaction holds is then held for good, so
    /// whoever waits for it waits for ever.
    pub refused: AtomicBool,
}

impl<N: StoreNames, L: OutboxNames, G: Drop> Shared<N, L, G> {
    /// Whether memory was refused to a worker.
    pub fn was_refused(&self) -> bool {
        self.refused.load(Ordering::SeqCst)
    }
}

/// Where a worker gets its items, and whom it tells how far it came. A clause sees its number.
///
/// PostgreSQL has it as `ParallelApplyWorkerShared`.
#[derive(Debug, Drop)]
pub struct WorkerShared<N: StoreNames, L: OutboxNames, G: Drop> {
    pub number: usize,
    /// Behind so many items the worker sends on what is queued: half of what its ring holds, so that
    /// it does that before it has done all of it.
    pub half_ring: u64,
    pub outbox: Mutex<Outbox<N, L>>,
    pub gate: Mutex<G>,
}

impl<N: StoreNames, L: OutboxNames, G: Drop> Model for WorkerShared<N, L, G> {
    ghost use Rattle.std.specs.Prelude.{ℕ};

    ghost Value = { ℕ };

    ghost view = { λ w. w.number };
}

/// A gate that holds nobody: of a worker that goes at its own pace.
#[derive(Debug, Drop)]
pub struct OpenGate;

impl Gate for OpenGate {
    fn pass(&mut self, _xid: Xid, _at: Point) {}
}

// A worker that lags wakes the leader behind each item whose count is a multiple of this.
const LAGGING: u64 = 4096;

// A worker's gate: it sends on what is queued, and it wakes the leader.
//
// It sends on behind each half of a ring. Where an item is queued the ring was full then, so there is as
// much to do still, and it sends on before nothing is left. While items are queued the leader has
// nothing to commit of this worker, so it is woken now and then alone; else behind each item.
#[derive(Drop)]
struct WakingGate<'a, R: Wait, N: StoreNames, L: OutboxNames, G: Gate> {
    rt: &'a R,
    outbox: &'a Mutex<Outbox<N, L>>,
    moved: &'a EventCount,
    gate: &'a mut G,
    half_ring: u64,
    // The count of the item behind which it sends on next.
    next: u64,
    // Whether items were queued still when it last sent on.
    lags: bool,
}

impl<'a, R: Wait, N: StoreNames, L: OutboxNames, G: Gate> WakingGate<'a, R, N, L, G> {
    // Whether the leader is woken behind this item.
    fn is_news(&mut self, count: u64) -> bool {
        if count >= self.next {
            self.next = count.saturating_add(self.half_ring);
            self.lags = self.send_on();
        }
        !self.lags || count % LAGGING == 0
    }

    // Sends on what is queued. Answers whether items are queued still.
    fn send_on(&mut self) -> bool {
        let mut outbox = self.outbox.lock(self.rt);
        outbox.send_on();
        outbox.queued_len() > 0
    }
}

impl<'a, R: Wait, N: StoreNames, L: OutboxNames, G: Gate> Gate for WakingGate<'a, R, N, L, G> {
    fn pass(&mut self, xid: Xid, at: Point) {
        let is_news = match at {
            Point::Before(_) => false,
            Point::After(count) => self.is_news(count),
            Point::Clash(_) => true,
        };
        if is_news {
            self.moved.notify_all();
        }
        self.gate.pass(xid, at);
    }

    fn held(&mut self, xid: Xid) {
        self.moved.notify_all();
        self.gate.held(xid);
    }
}

impl<N: StoreNames, L: OutboxNames, G: Gate + Drop> Work<Job<N, L>> for Shared<N, L, G> {
    ghost use Rattle.worker.specs.Working.{GoesOn, IsEndedBy};
    ghost use Rattle.worker.specs.declared.ended.Ended.{Ended as EndedBy};

    ghost keeps = { λ old new. GoesOn old new × (ended : EndedBy) × IsEndedBy N.schema N.start ended new };

    fn work<R: Wait>(&self, rt: &R, job: &mut Job<N, L>) {
        let Some(worker) = self.workers.get(job.worker()) else {
            wait_for_ever(rt)
        };
        let mut gate = worker.gate.lock(rt);
        let mut waking = WakingGate {
            rt,
            outbox: &worker.outbox,
            moved: &self.moved,
            gate: &mut *gate,
            half_ring: worker.half_ring,
            next: worker.half_ring,
            lags: false,
        };
        let ended = work_on(rt, self.alloc, &self.store, job, &mut waking);
        if ended == Ended::OutOfMemory {
            self.refused.store(true, Ordering::SeqCst);
        }
    }

    fn came_back<R: Wait>(&self, _rt: &R) {
        self.moved.notify_all();
    }
}
