// What the workers of a run are made of.
ghost use Rattle.std.specs.Prelude.{◌≡◌, ◌<◌, ◌≤◌, ◌+◌, ◌∷◌, ◌++◌, [], ℕ, All, IfOk, OnOk, length, max, min, slice_index_or, map};
ghost use Rattle.dispatch.specs.Handle.{IsIdle};
ghost use Rattle.dispatch.specs.Parts.{IsFresh, HasSlots, AreNumbered, ring_of, outbox_of};
ghost use Rattle.tokens.specs.Half.{no_name};

use crate::handle::WorkerHandle;
use crate::shared::WorkerShared;
use model::{OutOfMemory, Xid};
use ring::{Ring, Sender, Taker};
use std::alloc::Global;
use std::marker::{Model, PhantomData};
use std::sync::Mutex;
use table_locks::StoreNames;
use tokens::{Kept, Token, pair};
use worker::{Gate, Job, Outbox, OutboxEvent, OutboxNames, WorkItem};
use worker_threads::Mailbox;

/// Both ends of a worker's ring, and both halves of the list of what is given to it.
#[derive(Debug, Drop)]
pub struct Parts<N: StoreNames> {
    sender: Sender<WorkItem<N>>,
    taker: Taker<WorkItem<N>>,
    kept: Kept<OutboxEvent>,
    token: Token<OutboxEvent>,
    half_ring: u64,
}

impl<N: StoreNames> Model for Parts<N> {
    ghost use Rattle.dispatch.specs.Parts.{Parted};

    ghost Value = { Parted };

    ghost view = { λ p. record { sending = p.sender; taking = p.taker; kept = p.kept; token = p.token } };
}

/// Those of so many workers, whose rings have so many slots: at least 1, at most 1024.
pub fn make_parts<N: StoreNames>(
    alloc: Global,
    count: usize,
    slots: usize,
) -> Result<Vec<Parts<N>>, OutOfMemory>
    ensures fresh { IfOk result (λ made. All IsFresh made.items) }
    ensures slots { IfOk result (λ made. All (HasSlots (max 1 (min slots 1024))) made.items) }
    ensures count { IfOk result (λ made. length made.items ≡ count) }
{
    let slots = slots.clamp(1, 1024);
    let mut made = Vec::new(alloc);
    for _ in 0..count {
        made.push(new_parts(alloc, slots)?)?;
    }
    Ok(made)
}

// The parts of a worker.
fn new_parts<N: StoreNames>(alloc: Global, slots: usize) -> Result<Parts<N>, OutOfMemory>
    requires { (1 ≤ slots) × (slots ≤ 1024) }
    ensures fresh { IfOk result IsFresh }
    ensures slots { IfOk result (HasSlots slots) }
{
    let (sender, taker) = Ring::new(alloc, slots)?;
    let (kept, token) = pair(alloc)?;
    Ok(Parts {
        sender,
        taker,
        kept,
        token,
        half_ring: (slots as u64 / 2).max(1),
    })
}

/// The leader's ends of a worker's ring and of the list of what is given to it: nothing was given yet.
/// A clause sees the number of the worker.
#[derive(Debug, Drop)]
pub struct LeaderEnds<N: StoreNames, L: OutboxNames> {
    pub(crate) number: usize,
    pub(crate) token: Token<OutboxEvent>,
    pub(crate) taker: Taker<WorkItem<N>>,
    of: PhantomData<L>,
}

impl<N: StoreNames, L: OutboxNames> Model for LeaderEnds<N, L> {
    ghost use Rattle.std.specs.Prelude.{ℕ};
    ghost use Rattle.dispatch.specs.Parts.{AreEnds};

    ghost Value = { ℕ };

    ghost view = { λ e. e.number };

    ghost invariant = { λ e. AreEnds (L.ring e.number) (L.outbox e.number) e.token e.taker };
}

/// The workers of a run before they start: what each shares, the leader's ends of it, and how many
/// items were given to it. PostgreSQL has such a pool as `ParallelApplyWorkerPool`.
#[derive(Debug, Drop)]
pub struct WorkerPool<N: StoreNames, L: OutboxNames, G: Drop> {
    pub shared: Vec<WorkerShared<N, L, G>>,
    pub ends: Vec<LeaderEnds<N, L>>,
    pub given: Vec<(Xid, u64)>,
}

impl<N: StoreNames, L: OutboxNames, G: Gate + Drop> WorkerPool<N, L, G> {
    /// A worker for each gate: its place is its number.
    pub fn new(
        alloc: Global,
        mut parts: Vec<Parts<N>>,
        mut gates: Vec<G>,
    ) -> Result<WorkerPool<N, L, G>, OutOfMemory>
        requires count { length parts.items ≡ length gates.items }
        requires fresh { All IsFresh parts.items }
        requires rings { (i : ℕ) → i < length parts.items → slice_index_or (map ring_of parts.items) i no_name ≡ L.ring i }
        requires outboxes { (i : ℕ) → i < length parts.items → slice_index_or (map outbox_of parts.items) i no_name ≡ L.outbox i }
        ensures numbered { IfOk result (λ pool. AreNumbered 0 pool.ends.items × AreNumbered 0 pool.shared.items) }
        ensures ends { IfOk result (λ pool. length pool.ends.items ≡ length gates.items) }
        ensures shared { IfOk result (λ pool. length pool.shared.items ≡ length gates.items) }
        ensures given { IfOk result (λ pool. length pool.given.items ≡ length gates.items) }
    {
        let mut pool = WorkerPool {
            shared: Vec::new(alloc),
            ends: Vec::new(alloc),
            given: Vec::new(alloc),
        };
        while let Some(part) = parts.pop() {
            let Some(gate) = gates.pop() else {
                unreachable!()
            };
            pool.add(alloc, parts.len(), part, gate)?;
        }
        pool.shared.reverse();
        pool.ends.reverse();
        Ok(pool)
    }

    // One more, of this number.
    fn add(
        &mut self,
        alloc: Global,
        number: usize,
        parts: Parts<N>,
        gate: G,
    ) -> Result<(), OutOfMemory>
        requires fresh { IsFresh parts }
        requires ring { parts.sending.ring ≡ L.ring number }
        requires outbox { parts.kept.name ≡ L.outbox number }
        ensures ends { OnOk result (self.new.ends.items ≡ self.old.ends.items ++ number ∷ []) }
        ensures shared { OnOk result (self.new.shared.items ≡ self.old.shared.items ++ number ∷ []) }
        ensures given { OnOk result (length self.new.given.items ≡ length self.old.given.items + 1) }
    {
        let Parts {
            sender,
            taker,
            kept,
            token,
            half_ring,
        } = parts;
        let outbox = Outbox::new(alloc, number, sender, kept);
        self.shared.push(WorkerShared {
            number,
            half_ring,
            outbox: Mutex::new(outbox),
            gate: Mutex::new(gate),
        })?;
        self.ends.push(LeaderEnds {
            number,
            token,
            taker,
            of: PhantomData,
        })?;
        self.given.push((0, u64::MAX))?;
        Ok(())
    }
}

/// The leader's handles of the workers: for each its ends, what it shares, and its mailbox.
pub fn make_handles<'a, N: StoreNames, L: OutboxNames, G: Drop>(
    alloc: Global,
    mut ends: Vec<LeaderEnds<N, L>>,
    shared: &'a [WorkerShared<N, L, G>],
    mailboxes: &'a [Mailbox<Job<N, L>>],
) -> Result<Vec<WorkerHandle<'a, N, L, G>>, OutOfMemory>
    requires numbered { AreNumbered 0 ends.items × AreNumbered 0 shared.now }
    requires shared { length shared.now ≡ length ends.items }
    requires mailboxes { length mailboxes.now ≡ length ends.items }
    ensures free { IfOk result (λ workers. All IsIdle workers.items) }
    ensures count { IfOk result (λ workers. length workers.items ≡ length ends.items) }
{
    let mut workers = Vec::new(alloc);
    while let Some(own) = ends.pop() {
        let (shared, mailbox) = (&shared[ends.len()], &mailboxes[ends.len()]);
        workers.push(WorkerHandle::new(own, shared, mailbox))?;
    }
    workers.reverse();
    Ok(workers)
}
