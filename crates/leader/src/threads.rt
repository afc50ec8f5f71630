// A run whose streamed transactions have workers.
ghost use Rattle.std.specs.Prelude.{◌≡◌, ◌<◌, ◌≤◌, ℕ, All, IfOk, [], false, length, map, max, min, slice_index_or, vec_capacity};
ghost use Rattle.model.specs.Rows.{Rows, keys_of, IsValid};
ghost use Rattle.engine.specs.Events.{ends_in};
ghost use Rattle.origin.specs.Commits.{commits_of};
ghost use Rattle.session.specs.State.{Setting};
ghost use Rattle.run.specs.Settings.{setting_of};
ghost use Rattle.run.specs.Progress.{start_progress};
ghost use Rattle.run.specs.Devices.{DeviceState, device_state, health};
ghost use Rattle.run.specs.Handler.{IsRunOver};
ghost use Rattle.run.specs.Run.{IsRun};
ghost use Rattle.run.specs.declared.end.End.TheVariants.{OutOfMemory as NoMemory};
ghost use Rattle.dispatch.specs.Handle.{IsIdle};
ghost use Rattle.dispatch.specs.Parts.{IsFresh, HasSlots, AreNumbered, ring_of, outbox_of};
ghost use Rattle.tokens.specs.Half.{no_name};
ghost use Rattle.table_locks.specs.Starts.{AreNames};
ghost use Rattle.leader.specs.Threads.{led, Represents, RepresentsStart, HasLedTo};
ghost use Rattle.leader.specs.WithWorkers.{LeavesLine, IsRunByWorkers, RunsBy, IsShutSo};
ghost use Rattle.leader.specs.Watching.{KnowsStart, KnowsRun};

use crate::chief::{Leading, Onlooker, Onlookers, beside};
use crate::ending::finish;
use crate::lead::Lead;
use crate::watching::{Audience, Watcher, Watching, gather, make_watchers};
use catalog::Catalog;
use crossbeam_utils::sync::EventCount;
use dispatch::{
    Left, OpenGate, Parts, Positions, RunNames, Shared, Transactions, WorkerHandle, WorkerPool,
    WorkerShared, make_handles, make_parts,
};
use frames::{Lsn, Sink, Source};
use model::{OutOfMemory, Xid};
use origin::Publisher;
use run::{Clock, Config, Devices, End, Outcome, Tables, read_all, run_spooled_on};
use snapshot::Watch;
use std::alloc::Global;
use std::marker::Brand;
use std::sync::Wait;
use std::sync::atomic::AtomicBool;
use std::thread::Threads;
use table_locks::{Line, Made, Store, StoreNames, Ticket};
use worker::{Gate, Job};
use worker_threads::{Mailbox, make_mailboxes};

/// Reads the stream to its end and applies its transactions, streamed ones by workers as their items
/// come: as many at once as `config` has workers, and gates there are. A streamed transaction more is
/// applied at its commit. Commits keep the stream's order. Open work is undone before the answer.
///
/// Each watcher has turns meanwhile, in a thread of its own, and one more behind the end.
///
/// The start tables must be those of the catalog. It is `run_on` with devices of its own, which are gone when
/// it returns: so no clause of this one says what was sent, that a device failed, or what watchers know.
pub fn run<R, S, W, C, G, V>(
    rt: &R,
    alloc: Global,
    reader: S,
    writer: W,
    catalog: &Catalog,
    start: Tables,
    config: &Config,
    gates: Vec<G>,
    watchers: Vec<V>,
    clock: C,
) -> Outcome
where
    R: Threads + Wait + Sync,
    S: Source + Drop,
    W: Sink + Drop,
    C: Clock + Drop,
    G: Gate + Drop + Send,
    V: Watch + Drop + Send,
    requires catalog { start.schema ≡ map keys_of catalog.now }
    requires knows { All (KnowsStart V.knows start.schema start.rows config.now.skip) watchers.items }
    ensures { (after : DeviceState) × RunsBy (min config.now.workers (length gates.items)) (length watchers.items) catalog.now config.now start.rows
        (device_state (S.remaining reader) (W.contents writer) (C.told clock) (S.reads_left reader)
        (health (S.failures reader) (S.failed_last reader)) (health (W.failures writer) (W.failed_last writer)))
        after result }
{
    let mut devices = Devices::new(reader, writer, clock);
    let (outcome, _watchers) = run_on(
        rt,
        alloc,
        &mut devices,
        catalog,
        start,
        config,
        gates,
        watchers,
    );
    outcome
}

/// A gate for each of so many workers, which holds none.
pub fn open_gates(alloc: Global, workers: usize) -> Result<Vec<OpenGate>, OutOfMemory>
    ensures { IfOk result (λ gates. length gates.items ≡ workers) }
{
    let mut gates = Vec::new(alloc);
    for _ in 0..workers {
        gates.push(OpenGate)?;
    }
    Ok(gates)
}

/// `run` over devices that are looked at afterwards: what was read and sent. It hands the watchers back.
/// Each knows a reader of this run, if it knows each reader of its start that has seen nothing yet.
pub fn run_on<R, S, W, C, G, V>(
    rt: &R,
    alloc: Global,
    devices: &mut Devices<S, W, C>,
    catalog: &Catalog,
    start: Tables,
    config: &Config,
    mut gates: Vec<G>,
    watchers: Vec<V>,
) -> (Outcome, Vec<V>)
where
    R: Threads + Wait + Sync,
    S: Source,
    W: Sink,
    C: Clock,
    G: Gate + Drop + Send,
    V: Watch + Drop + Send,
    requires catalog { start.schema ≡ map keys_of catalog.now }
    requires knows { All (KnowsStart V.knows start.schema start.rows config.now.skip) watchers.items }
    ensures run { RunsBy (min config.now.workers (length gates.items)) (length watchers.items) catalog.now config.now start.rows devices.old devices.new result.0 }
    ensures knows { All (KnowsRun V.knows start.schema start.rows config.now.skip result.0) result.1.items }
    ensures count { length result.1.items ≡ length watchers.items }
{
    gates.truncate(config.workers);
    if gates.is_empty() && watchers.is_empty() {
        let outcome = run_spooled_on(alloc, devices, catalog, start, config);
        return (outcome, watchers);
    }
    start.recall_invariant();
    // A catalog has few tables: a store can have a lock for each.
    let _tables = catalog.tables();
    let audience = match Audience::new(alloc, watchers, config.skip) {
        Ok(audience) => audience,
        Err(watchers) => return (Outcome::unread(alloc, start), watchers),
    };
    run_tables::<Brand, R, S, W, C, G, V>(
        rt, alloc, devices, catalog, start, config, gates, audience,
    )
}

// The rows with which a run starts. They are gone once its store was made of them, and their name stays.
trait StartRows {
    ghost use Rattle.model.specs.Rows.{Rows};

    ghost start: { Rows };
}

impl StartRows for Brand {
    ghost use Rattle.std.specs.FinMap as finite;

    ghost start = { finite.empty };
}

// A run from these tables.
fn run_tables<B, R, S, W, C, G, V>(
    rt: &R,
    alloc: Global,
    devices: &mut Devices<S, W, C>,
    catalog: &Catalog,
    start: Tables,
    config: &Config,
    gates: Vec<G>,
    audience: Audience<V>,
) -> (Outcome, Vec<V>)
where
    B: StartRows,
    R: Threads + Wait + Sync,
    S: Source,
    W: Sink,
    C: Clock,
    G: Gate + Drop + Send,
    V: Watch + Drop + Send,
    requires start { start.rows ≡ B.start }
    requires few { length start.schema ≤ 1024 }
    requires valid { IsValid start.schema start.rows }
    requires keys { start.schema ≡ map keys_of catalog.now }
    requires knows { All (KnowsStart V.knows start.schema start.rows audience.loader.skip) audience.watches.items }
    ensures run { IsRunByWorkers (setting_of (length gates.items) config.now catalog.now) start.rows devices.old devices.new result.0 }
    ensures knows { All (KnowsRun V.knows start.schema start.rows audience.loader.skip result.0) result.1.items }
    ensures count { length result.1.items ≡ length audience.watches.items }
{
    match Made::of_tables(alloc, start) {
        Ok((made, line)) => run_made::<Brand, R, S, W, C, G, V>(
            rt, alloc, devices, catalog, made, line, config, gates, audience,
        ),
        Err(start) => (Outcome::unread(alloc, start), audience.into_watches()),
    }
}

// A run on a store that is made of this, and has names.
fn run_made<N, R, S, W, C, G, V>(
    rt: &R,
    alloc: Global,
    devices: &mut Devices<S, W, C>,
    catalog: &Catalog,
    made: Made,
    line: Line,
    config: &Config,
    gates: Vec<G>,
    audience: Audience<V>,
) -> (Outcome, Vec<V>)
where
    N: StoreNames + Send + Sync,
    R: Threads + Wait + Sync,
    S: Source,
    W: Sink,
    C: Clock,
    G: Gate + Drop + Send,
    V: Watch + Drop + Send,
    requires names { AreNames N.shares N.line N.tables N.schema N.start made }
    requires valid { IsValid N.schema N.start }
    requires name { line.name ≡ N.line }
    requires none { line.list ≡ [] }
    requires keys { N.schema ≡ map keys_of catalog.now }
    requires knows { All (KnowsStart V.knows N.schema N.start audience.loader.skip) audience.watches.items }
    ensures run { IsRunByWorkers (setting_of (length gates.items) config.now catalog.now) N.start devices.old devices.new result.0 }
    ensures knows { All (KnowsRun V.knows N.schema N.start audience.loader.skip result.0) result.1.items }
    ensures count { length result.1.items ≡ length audience.watches.items }
{
    match Store::<N>::new(alloc, made) {
        Ok(store) => run_store(
            rt, alloc, devices, catalog, store, line, config, gates, audience,
        ),
        Err(made) => (
            Outcome::unread(alloc, made.into_tables()),
            audience.into_watches(),
        ),
    }
}

// A run on a store in which nothing has happened.
fn run_store<N, R, S, W, C, G, V>(
    rt: &R,
    alloc: Global,
    devices: &mut Devices<S, W, C>,
    catalog: &Catalog,
    store: Store<N>,
    line: Line,
    config: &Config,
    gates: Vec<G>,
    audience: Audience<V>,
) -> (Outcome, Vec<V>)
where
    N: StoreNames + Send + Sync,
    R: Threads + Wait + Sync,
    S: Source,
    W: Sink,
    C: Clock,
    G: Gate + Drop + Send,
    V: Watch + Drop + Send,
    requires valid { IsValid N.schema N.start }
    requires name { line.name ≡ N.line }
    requires none { line.list ≡ [] }
    requires keys { N.schema ≡ map keys_of catalog.now }
    requires knows { All (KnowsStart V.knows N.schema N.start audience.loader.skip) audience.watches.items }
    ensures run { IsRunByWorkers (setting_of (length gates.items) config.now catalog.now) N.start devices.old devices.new result.0 }
    ensures knows { All (KnowsRun V.knows N.schema N.start audience.loader.skip result.0) result.1.items }
    ensures count { length result.1.items ≡ length audience.watches.items }
{
    match make_parts(alloc, gates.len(), config.ring) {
        Ok(parts) => run_workers::<N, Brand, R, S, W, C, G, V>(
            rt, alloc, devices, catalog, store, line, config, parts, gates, audience,
        ),
        Err(_) => {
            let outcome = shut(rt, store, line, 0, End::OutOfMemory);
            (outcome, audience.into_watches())
        }
    }
}

// A run by workers that have names: one for each gate, with as many slots as `config` says.
fn run_workers<N, L, R, S, W, C, G, V>(
    rt: &R,
    alloc: Global,
    devices: &mut Devices<S, W, C>,
    catalog: &Catalog,
    store: Store<N>,
    line: Line,
    config: &Config,
    parts: Vec<Parts<N>>,
    gates: Vec<G>,
    audience: Audience<V>,
) -> (Outcome, Vec<V>)
where
    N: StoreNames + Send + Sync,
    L: RunNames + Send + Sync,
    R: Threads + Wait + Sync,
    S: Source,
    W: Sink,
    C: Clock,
    G: Gate + Drop + Send,
    V: Watch + Drop + Send,
    requires name { line.name ≡ N.line }
    requires none { line.list ≡ [] }
    requires keys { N.schema ≡ map keys_of catalog.now }
    requires valid { IsValid N.schema N.start }
    requires count { length parts.items ≡ length gates.items }
    requires slots { All (HasSlots (max 1 (min config.now.ring 1024))) parts.items }
    requires fresh { All IsFresh parts.items }
    requires rings { (i : ℕ) → i < length parts.items → slice_index_or (map ring_of parts.items) i no_name ≡ L.ring i }
    requires outboxes { (i : ℕ) → i < length parts.items → slice_index_or (map outbox_of parts.items) i no_name ≡ L.outbox i }
    requires origin { (audience.origin ≡ L.origin) × (audience.loader.skip ≡ L.skip) }
    requires knows { All (KnowsStart V.knows N.schema N.start L.skip) audience.watches.items }
    ensures run { IsRunByWorkers (setting_of (length gates.items) config.now catalog.now) N.start devices.old devices.new result.0 }
    ensures knows { All (KnowsRun V.knows N.schema N.start L.skip result.0) result.1.items }
    ensures count { length result.1.items ≡ length audience.watches.items }
{
    let mailboxes = make_mailboxes::<Job<N, L>>(alloc, gates.len());
    let pool = WorkerPool::<N, L, G>::new(alloc, parts, gates);
    match (mailboxes, pool) {
        (Ok(mailboxes), Ok(pool)) => run_pool(
            rt, alloc, devices, catalog, store, line, *config, mailboxes, pool, audience,
        ),
        _ => {
            let outcome = shut(rt, store, line, 0, End::OutOfMemory);
            (outcome, audience.into_watches())
        }
    }
}

// A run by a pool of workers, with a mailbox for each.
fn run_pool<N, L, R, S, W, C, G, V>(
    rt: &R,
    alloc: Global,
    devices: &mut Devices<S, W, C>,
    catalog: &Catalog,
    store: Store<N>,
    mut line: Line,
    config: Config,
    mailboxes: Vec<Mailbox<Job<N, L>>>,
    pool: WorkerPool<N, L, G>,
    audience: Audience<V>,
) -> (Outcome, Vec<V>)
where
    N: StoreNames + Send + Sync,
    L: RunNames + Send + Sync,
    R: Threads + Wait + Sync,
    S: Source,
    W: Sink,
    C: Clock,
    G: Gate + Drop + Send,
    V: Watch + Drop + Send,
    requires name { line.name ≡ N.line }
    requires none { line.list ≡ [] }
    requires numbered { AreNumbered 0 pool.ends.items × AreNumbered 0 pool.shared.items }
    requires ends { length pool.ends.items ≡ length mailboxes.items }
    requires shared { length pool.shared.items ≡ length mailboxes.items }
    requires given { length pool.given.items ≡ length mailboxes.items }
    requires keys { N.schema ≡ map keys_of catalog.now }
    requires valid { IsValid N.schema N.start }
    requires origin { (audience.origin ≡ L.origin) × (audience.loader.skip ≡ L.skip) }
    requires knows { All (KnowsStart V.knows N.schema N.start L.skip) audience.watches.items }
    ensures run { IsRunByWorkers (setting_of (length mailboxes.items) config catalog.now) N.start devices.old devices.new result.0 }
    ensures knows { All (KnowsRun V.knows N.schema N.start L.skip result.0) result.1.items }
    ensures count { length result.1.items ≡ length audience.watches.items }
{
    let Audience {
        watches,
        home,
        origin,
        publisher,
        loader,
        ..
    } = audience;
    let watching = Watching::<L>::new(origin);
    let watchers = match make_watchers(
        rt,
        alloc,
        &store,
        &mut line,
        &watching.origin,
        loader,
        watches,
    ) {
        Ok(watchers) => watchers,
        Err(watches) => return (shut(rt, store, line, 0, End::OutOfMemory), watches),
    };
    let shared = share(alloc, store, pool.shared);
    let handles = make_handles(alloc, pool.ends, &shared.workers, &mailboxes);
    let tickets = Vec::with_capacity(alloc, mailboxes.len() + 1);
    let (Ok(workers), Ok(tickets)) = (handles, tickets) else {
        let finished = Finished {
            end: End::OutOfMemory,
            line,
            position: 0,
            publisher,
        };
        return shut_shared(rt, shared, &watching, finished, watchers.all, home);
    };
    let opening = Opening {
        line,
        workers,
        tickets,
        given: pool.given,
        positions: Positions::new(&watching.origin, publisher),
        watching: &watching,
    };
    let (finished, watchers) = lead_beside(
        rt, alloc, devices, catalog, config, &mailboxes, &shared, opening, watchers,
    );
    shut_shared(rt, shared, &watching, finished, watchers, home)
}

// What a leader and its workers share, at the start.
fn share<N: StoreNames, L: RunNames, G: Drop>(
    alloc: Global,
    store: Store<N>,
    workers: Vec<WorkerShared<N, L, G>>,
) -> Shared<N, L, G>
    ensures { result.workers ≡ workers }
{
    Shared {
        alloc,
        store,
        workers,
        moved: EventCount::new(),
        refused: AtomicBool::new(false),
    }
}

// Leads a run while its workers work and others watch.
fn lead_beside<N, L, R, S, W, C, G, V>(
    rt: &R,
    alloc: Global,
    devices: &mut Devices<S, W, C>,
    catalog: &Catalog,
    config: Config,
    mailboxes: &[Mailbox<Job<N, L>>],
    shared: &Shared<N, L, G>,
    opening: Opening<'_, N, L, G>,
    watchers: Onlookers<Watcher<N, L, V>>,
) -> (Finished, Vec<Onlooker<Watcher<N, L, V>>>)
where
    N: StoreNames + Send + Sync,
    L: RunNames + Send + Sync,
    R: Threads + Wait + Sync,
    S: Source,
    W: Sink,
    C: Clock,
    G: Gate + Drop + Send,
    V: Watch + Drop + Send,
    requires name { opening.line.name ≡ N.line }
    requires none { opening.line.list ≡ [] }
    requires unpublished { opening.positions ≡ [] }
    requires free { All IsIdle opening.workers.items }
    requires workers { length opening.workers.items ≡ length mailboxes.now }
    requires empty { opening.tickets.items ≡ [] }
    requires room { length mailboxes.now < vec_capacity opening.tickets }
    requires keys { N.schema ≡ map keys_of catalog.now }
    requires valid { IsValid N.schema N.start }
    ensures name { result.0.line.name ≡ N.line }
    ensures published { result.0.publisher ≡ commits_of L.origin (ends_in result.0.line.list) }
    ensures ends { LeavesLine (setting_of (length mailboxes.now) config catalog.now) N.start devices.old devices.new result.0.line.list result.0.position result.0.end }
    ensures count { length result.1.items ≡ length watchers.all.items }
{
    let watching = opening.watching;
    let leader = Leader {
        alloc,
        devices,
        catalog,
        config,
        opening,
    };
    let ((devices, finished), watchers) = beside(rt, mailboxes, shared, watching, watchers, leader);
    take_again(devices);
    (finished, watchers)
}

// The devices are their caller's again, as they were left.
fn take_again<D>(devices: &mut D)
    ensures { devices.new ≡ devices.old }
{}

// What a leader of a run leads with.
#[derive(Drop)]
struct Leader<'a, N: StoreNames, L: RunNames, G: Drop, S: Source, W: Sink, C: Clock> {
    alloc: Global,
    devices: &'a mut Devices<S, W, C>,
    catalog: &'a Catalog,
    config: Config,
    opening: Opening<'a, N, L, G>,
}

// The line of a new store, workers to which nothing was given, room for the tickets of all transactions
// that are open at once, and what is told to those who watch.
#[derive(Drop)]
struct Opening<'a, N: StoreNames, L: RunNames, G: Drop> {
    line: Line,
    workers: Vec<WorkerHandle<'a, N, L, G>>,
    tickets: Vec<Ticket<N>>,
    given: Vec<(Xid, u64)>,
    positions: Positions<'a, L>,
    watching: &'a Watching<L>,
}

// What a leader leaves: how the run ends, the store's line, the position that the commits reach, and who
// has published.
#[derive(Drop)]
struct Finished {
    end: End,
    line: Line,
    position: Lsn,
    publisher: Publisher,
}

impl<'a, N, L, S, W, C, G> Leading<Job<N, L>, Shared<N, L, G>> for Leader<'a, N, L, G, S, W, C>
where
    N: StoreNames,
    L: RunNames,
    S: Source,
    W: Sink,
    C: Clock,
    G: Gate + Drop,
{
    ghost use Rattle.std.specs.Prelude.{◌≡◌, ◌<◌, [], All, false, length, map, vec_capacity};
    ghost use Rattle.model.specs.Rows.{keys_of, IsValid};
    ghost use Rattle.engine.specs.Events.{ends_in};
    ghost use Rattle.origin.specs.Commits.{commits_of};
    ghost use Rattle.run.specs.declared.end.End.TheVariants.{OutOfMemory as NoMemory};
    ghost use Rattle.dispatch.specs.Handle.{IsIdle};
    ghost use Rattle.leader.specs.WithWorkers.{LeavesLine};
    ghost use Rattle.run.specs.Settings.{setting_of};

    type Left = (&'a mut Devices<S, W, C>, Finished);

    ghost can_lead = { λ l n. (l.opening.line.name ≡ N.line) × (l.opening.line.list ≡ []) × (l.opening.positions ≡ [])
        × All IsIdle l.opening.workers.items × (length l.opening.workers.items ≡ n) × (l.opening.tickets.items ≡ []) × (n < vec_capacity l.opening.tickets) × (N.schema ≡ map keys_of l.catalog.now) × IsValid N.schema N.start };

    ghost lead_gives = { λ l n has_all left. (left.0.ghost_name ≡ l.devices.ghost_name) × (left.1.line.name ≡ N.line)
        × (left.1.publisher ≡ commits_of L.origin (ends_in left.1.line.list))
        × (has_all ≡ false → (left.1.end ≡ NoMemory) × (left.0.now ≡ l.devices.now))
        × LeavesLine (setting_of n l.config l.catalog.now) N.start l.devices.now left.0.now left.1.line.list left.1.position left.1.end };

    fn lead<R: Wait>(
        self,
        rt: &R,
        mailboxes: &[Mailbox<Job<N, L>>],
        shared: &Shared<N, L, G>,
        has_all: bool,
    ) -> (&'a mut Devices<S, W, C>, Finished) {
        let Leader {
            alloc,
            devices,
            catalog,
            config,
            opening,
        } = self;
        let finished = lead_all(
            rt,
            alloc,
            devices,
            catalog,
            config,
            mailboxes.len(),
            shared,
            opening,
            has_all,
        );
        (devices, finished)
    }
}

// Reads the stream to its end, if all threads could be started. Once the workers have given up, decides
// how the run ends and undoes what is open; then tells the end to those who watch.
fn lead_all<'a, N, L, R, S, W, C, G>(
    rt: &'a R,
    alloc: Global,
    devices: &mut Devices<S, W, C>,
    catalog: &'a Catalog,
    config: Config,
    workers: usize,
    shared: &'a Shared<N, L, G>,
    opening: Opening<'a, N, L, G>,
    has_all: bool,
) -> Finished
where
    N: StoreNames,
    L: RunNames,
    R: Wait,
    S: Source,
    W: Sink,
    C: Clock,
    G: Gate + Drop,
    requires name { opening.line.name ≡ N.line }
    requires none { opening.line.list ≡ [] }
    requires unpublished { opening.positions ≡ [] }
    requires free { All IsIdle opening.workers.items }
    requires workers { length opening.workers.items ≡ workers }
    requires empty { opening.tickets.items ≡ [] }
    requires room { workers < vec_capacity opening.tickets }
    requires keys { N.schema ≡ map keys_of catalog.now }
    requires valid { IsValid N.schema N.start }
    ensures name { result.line.name ≡ N.line }
    ensures published { result.publisher ≡ commits_of L.origin (ends_in result.line.list) }
    ensures unread { has_all ≡ false → (result.end ≡ NoMemory) × (devices.new ≡ devices.old) }
    ensures ends { LeavesLine (setting_of workers config catalog.now) N.start devices.old devices.new result.line.list result.position result.end }
{
    let Opening {
        line,
        workers: handles,
        tickets,
        given,
        positions,
        watching,
    } = opening;
    let transactions = Transactions::new(rt, shared, line, handles, given, positions);
    let mut lead = Lead::new(alloc, catalog, workers, config, transactions);
    let proposed = lead_stream(alloc, devices, &mut lead, has_all);
    let (left, position) = lead.into_left();
    let Left {
        mut line,
        begun,
        workers: handles,
        given,
        publisher,
    } = left;
    let end = finish(
        rt,
        &shared.store,
        &mut line,
        begun,
        handles,
        tickets,
        &given,
        proposed,
    );
    watching.signal_end();
    Finished {
        end,
        line,
        position,
        publisher,
    }
}

// The end that the stream proposes. Nothing is read where a thread could not be started.
fn lead_stream<N, L, R, S, W, C, G>(
    alloc: Global,
    devices: &mut Devices<S, W, C>,
    lead: &mut Lead<'_, N, L, R, G>,
    has_all: bool,
) -> End
where
    N: StoreNames,
    L: RunNames,
    R: Wait,
    S: Source,
    W: Sink,
    C: Clock,
    G: Gate + Drop,
    requires { RepresentsStart (led lead.old.stream lead.old.transactions) }
    ensures unread { has_all ≡ false → (result ≡ NoMemory) × (devices.new ≡ devices.old) }
    ensures over { (g : Setting) (rows : Rows) → Represents g rows (led lead.old.stream lead.old.transactions) start_progress
        → IsRunOver g (Represents g rows) (HasLedTo g rows) devices.old devices.new (led lead.new.stream lead.new.transactions) result }
{
    if !has_all {
        return End::OutOfMemory;
    }
    match read_all(alloc, devices, lead) {
        Ok(()) => End::Clean,
        Err(end) => end,
    }
}

// What a run leaves whose store was shared, and those who watched it.
fn shut_shared<N, L, R, G, V>(
    rt: &R,
    shared: Shared<N, L, G>,
    watching: &Watching<L>,
    finished: Finished,
    watchers: Vec<Onlooker<Watcher<N, L, V>>>,
    home: Vec<V>,
) -> (Outcome, Vec<V>)
where
    N: StoreNames,
    L: RunNames,
    R: Threads + Wait,
    G: Drop,
    V: Watch + Drop,
    requires name { finished.line.name ≡ N.line }
    requires published { finished.publisher ≡ commits_of L.origin (ends_in finished.line.list) }
    requires empty { home.items ≡ [] }
    requires room { length watchers.items ≤ vec_capacity home }
    ensures shut { IsShutSo N.schema N.start finished.line.list result.0 }
    ensures position { result.0.position ≡ finished.position }
    ensures end { result.0.end ≡ finished.end }
    ensures knows { All (KnowsRun V.knows N.schema N.start L.skip result.0) result.1.items }
    ensures count { length result.1.items ≡ length watchers.items }
{
    let Finished {
        end,
        mut line,
        position,
        mut publisher,
    } = finished;
    let Shared { store, .. } = shared;
    let origin = watching.origin();
    let watches = gather(
        rt,
        &store,
        &mut line,
        origin,
        &mut publisher,
        watchers,
        home,
    );
    (shut(rt, store, line, position, end), watches)
}

// What a run leaves: all that is still open is undone.
fn shut<N: StoreNames, R: Wait>(
    rt: &R,
    store: Store<N>,
    line: Line,
    position: Lsn,
    end: End,
) -> Outcome
    requires { line.name ≡ N.line }
    ensures shut { IsShutSo N.schema N.start line.list result }
    ensures position { result.position ≡ position }
    ensures end { result.end ≡ end }
{
    let (tables, journal) = store.close(rt, line);
    Outcome {
        tables,
        journal,
        position,
        end,
    }
}
