// Runs of these tests, over devices of their own, and what they leave.
ghost use Rattle.std.specs.Prelude.{◌≡◌, IfOk, map};
ghost use Rattle.model.specs.Rows.{keys_of};
ghost use Rattle.snapshot.specs.Reads.{Sight};

use leader::{
    Catalog, Config, End, Entry, Gate, NoWatch, OpenGate, OutOfMemory, Outcome, Point, Sink,
    Source, StillClock, Tables, Watch, Xid, report, run,
};
use std::alloc::Global;
use std::process::Abort;
use std::rt::Clock as Host;
use std::sync::Wait;
use std::thread;
use std::thread::Threads;
use std::time::Duration;
use streams::{Message, Stream};
use testing::accounts::CATALOG;
use testing::devices::{Kept, Pieces};

/// So many workers, with rings of so many slots.
pub fn config_of(workers: usize, ring: usize) -> Config {
    Config {
        workers,
        ring,
        spool: 1 << 30,
        skip: 0,
    }
}

/// The catalog of the one table.
pub fn catalog(alloc: Global) -> Result<Catalog, OutOfMemory> {
    Catalog::read(alloc, CATALOG).map_err(|_| OutOfMemory)
}

/// A run with the clock at 5. Without workers each streamed transaction is spooled. Each run of these
/// tests is one of these.
pub fn run_all<R, S, K, G, V>(
    rt: &R,
    alloc: Global,
    source: S,
    sink: K,
    catalog: &Catalog,
    start: Tables,
    config: &Config,
    gates: Vec<G>,
    watchers: Vec<V>,
) -> Outcome
where
    R: Threads + Wait + Sync,
    S: Source + Drop,
    K: Sink + Drop,
    G: Gate + Drop + Send,
    V: Watch + Drop + Send,
    requires catalog { start.schema ≡ map keys_of catalog.now }
    requires knows { (watcher : V) (s : Sight) → V.knows watcher s }
    ensures { result.tables.schema ≡ map keys_of catalog.now }
{
    let clock = StillClock(5);
    run(
        rt, alloc, source, sink, catalog, start, config, gates, watchers, clock,
    )
}

/// A stream and its devices: the length of its pieces, how many reads and writes come before one that
/// fails, and how many bytes a write takes.
#[derive(Clone, Copy)]
pub struct Plan<'a> {
    pub stream: &'a [u8],
    pub size: usize,
    pub reads: u64,
    pub taken: usize,
    pub writes: u64,
    pub config: Config,
}

impl<'a> Plan<'a> {
    /// No read and no write fails, and each write takes all.
    pub fn new(stream: &'a [u8], config: Config) -> Plan<'a> {
        Plan {
            stream,
            size: 4096,
            reads: u64::MAX,
            taken: usize::MAX,
            writes: u64::MAX,
            config,
        }
    }

    fn source(&self) -> Pieces<'a> {
        Pieces::with_reads(self.stream, self.size, self.reads)
    }
}

/// A run by a plan that nobody watches, over tables of the catalog. What it sends is appended: nothing else
/// here takes memory.
pub fn run_over<R: Threads + Wait + Sync>(
    rt: &R,
    alloc: Global,
    catalog: &Catalog,
    start: Tables,
    plan: &Plan<'_>,
    gates: Vec<OpenGate>,
    sent: &mut Vec<u8>,
) -> Outcome
    requires { start.schema ≡ map keys_of catalog.now }
    ensures { result.tables.schema ≡ map keys_of catalog.now }
{
    let source = plan.source();
    let sink = Kept::with_writes(sent, plan.taken, plan.writes);
    let watchers = Vec::<NoWatch>::new(alloc);
    run_all(
        rt,
        alloc,
        source,
        sink,
        catalog,
        start,
        &plan.config,
        gates,
        watchers,
    )
}

/// The tables that these messages leave, by a run without workers over empty tables.
pub fn tables_of<R: Threads + Wait + Sync>(
    rt: &R,
    alloc: Global,
    catalog: &Catalog,
    messages: &[Message],
) -> Result<Tables, OutOfMemory>
    ensures { IfOk result (λ tables. tables.schema ≡ map keys_of catalog.now) }
{
    let stream = Stream::of(alloc, &[messages])?;
    let empty = Tables::empty(alloc, catalog)?;
    let plan = Plan::new(stream.bytes(), config_of(0, 1));
    let mut sent = Vec::new(alloc);
    let outcome = run_over(rt, alloc, catalog, empty, &plan, Vec::new(alloc), &mut sent);
    match outcome.end {
        End::Clean => Ok(outcome.tables),
        _ => Err(OutOfMemory),
    }
}

/// What a run left, its report, and what it sent.
#[derive(Drop)]
pub struct Ran {
    pub config: Config,
    pub outcome: Outcome,
    pub report: Vec<u8>,
    pub sent: Vec<u8>,
}

impl Ran {
    /// The commits: whose, and where they end.
    pub fn commits(&self) -> &[Entry] {
        self.outcome.journal.as_slice()
    }
}

/// A run of a source over empty tables. Its writes take so many bytes, and fail after so many writes.
pub fn run_on<R, S, G, V>(
    rt: &R,
    alloc: Global,
    source: S,
    takes: (usize, u64),
    config: &Config,
    gates: Vec<G>,
    watchers: Vec<V>,
) -> Result<Ran, OutOfMemory>
where
    R: Threads + Wait + Sync,
    S: Source + Drop,
    G: Gate + Drop + Send,
    V: Watch + Drop + Send,
    requires { (watcher : V) (s : Sight) → V.knows watcher s }
{
    let catalog = catalog(alloc)?;
    let start = Tables::empty(alloc, &catalog)?;
    let (taken, writes) = takes;
    let mut sent = Vec::new(alloc);
    let sink = Kept::with_writes(&mut sent, taken, writes);
    let outcome = run_all(
        rt, alloc, source, sink, &catalog, start, config, gates, watchers,
    );
    let mut out = Vec::new(alloc);
    report(alloc, &outcome, &catalog, &mut out)?;
    Ok(Ran {
        config: *config,
        outcome,
        report: out,
        sent,
    })
}

/// The same where nobody watches, and all that is sent is taken.
pub fn run_unwatched<R: Threads + Wait + Sync, S: Source + Drop, G: Gate + Drop + Send>(
    rt: &R,
    alloc: Global,
    source: S,
    config: &Config,
    gates: Vec<G>,
) -> Result<Ran, OutOfMemory> {
    let watchers = Vec::<NoWatch>::new(alloc);
    run_on(rt, alloc, source, TAKES_ALL, config, gates, watchers)
}

/// No write fails, and each takes all.
pub const TAKES_ALL: (usize, u64) = (usize::MAX, u64::MAX);

/// A run that nobody watches, by workers that come at their own pace.
pub fn run_by<R: Threads + Wait + Sync + Host>(
    rt: &R,
    alloc: Global,
    plan: &Plan<'_>,
    seed: u64,
) -> Result<Ran, OutOfMemory> {
    run_watched(rt, alloc, plan, seed, Vec::<NoWatch>::new(alloc))
}

/// The same, and some watch it.
pub fn run_watched<R, V>(
    rt: &R,
    alloc: Global,
    plan: &Plan<'_>,
    seed: u64,
    watchers: Vec<V>,
) -> Result<Ran, OutOfMemory>
where
    R: Threads + Wait + Sync + Host,
    V: Watch + Drop + Send,
    requires { (watcher : V) (s : Sight) → V.knows watcher s }
{
    let gates = paces(rt, alloc, plan.config.workers, seed)?;
    let takes = (plan.taken, plan.writes);
    run_on(
        rt,
        alloc,
        plan.source(),
        takes,
        &plan.config,
        gates,
        watchers,
    )
}

// A gate for each worker.
fn paces<H: Host>(
    host: &H,
    alloc: Global,
    workers: usize,
    seed: u64,
) -> Result<Vec<Pace<'_, H>>, OutOfMemory> {
    let mut gates = Vec::new(alloc);
    for number in 0..workers {
        gates.push(Pace {
            host,
            draws: Draws::new(seed.wrapping_add(number as u64)),
        })?;
    }
    Ok(gates)
}

/// Runs the stream by every number of workers up to four, through rings of one, two and 64 slots, so
/// many times each: all leave and send the same. Answers what the run without workers does.
pub fn same_by_all<R: Threads + Wait + Abort + Sync + Host>(
    rt: &R,
    alloc: Global,
    stream: &[u8],
    times: u64,
    name: &str,
) -> Result<Ran, OutOfMemory> {
    let mut plan = Plan::new(stream, config_of(0, 64));
    let alone = run_by(rt, alloc, &plan, 0)?;
    for workers in 1..5 {
        for ring in [1, 2, 64] {
            plan.config = config_of(workers, ring);
            for seed in 0..times {
                // Once a byte at a time.
                plan.size = if seed == 0 { 1 } else { 4096 };
                let ran = run_by(rt, alloc, &plan, seed)?;
                is_same(rt, &ran, &alone, name);
            }
        }
    }
    Ok(alone)
}

/// The run left and sent what the other did.
pub fn is_same(rt: &impl Abort, ran: &Ran, other: &Ran, name: &str) {
    reports(rt, ran, other.report.as_slice(), name);
    assert!(rt; ran.sent.as_slice() == other.sent.as_slice(), "{name}");
    assert!(rt; ran.commits().len() == other.commits().len());
}

/// The run's report is this.
pub fn reports(rt: &impl Abort, ran: &Ran, report: &[u8], name: &str) {
    assert_eq!(rt; ran.report.as_slice(), report, "{name} by {:?}", ran.config);
}

/// A list of one.
pub fn one<T: Drop>(alloc: Global, value: T) -> Result<Vec<T>, OutOfMemory> {
    let mut list = Vec::new(alloc);
    list.push(value)?;
    Ok(list)
}

/// The generator: the same numbers at each run.
#[derive(Drop)]
pub struct Draws {
    state: u64,
}

impl Draws {
    pub fn new(seed: u64) -> Draws {
        Draws {
            state: seed.wrapping_mul(2_862_933_555_777_941_757),
        }
    }

    /// Below this.
    pub fn below(&mut self, count: u32) -> u32 {
        self.state = self
            .state
            .wrapping_mul(6_364_136_223_846_793_005)
            .wrapping_add(1_442_695_040_888_963_407);
        ((self.state >> 33) as u32) % count.max(1)
    }
}

/// A gate at which a worker now and then falls behind.
#[derive(Drop)]
pub struct Pace<'a, H: Host> {
    host: &'a H,
    draws: Draws,
}

impl<H: Host> Gate for Pace<'_, H> {
    fn pass(&mut self, _xid: Xid, _at: Point) {
        if self.draws.below(8) == 0 {
            thread::sleep(self.host, Duration::from_micros(20));
        }
    }
}
