// A run whose commits are kept.
ghost use Rattle.std.specs.Prelude.{◌≡◌, ◌∷◌, [], None, IfOk, map};
ghost use Rattle.model.specs.Rows.{keys_of};
ghost use Rattle.engine.specs.Engine.{entry_in};
ghost use Rattle.mirror_laws.specs.Statements.{IsSomeRun};

use crate::lent::{LentBetween, LentKeep};
use leader::{
    Catalog, Config, Devices, Lsn, OutOfMemory, Outcome, Sink, Source, Tables, open_gates, run_on,
};
use mirror_devices::{Arrival, Held, Pace, Reached, Resumed};
use mirror_writer::{Between, CommitWriter, Keep, Stop};
use std::alloc::Global;
use std::sync::Wait;
use std::thread::Threads;
use std::time::Clock;

/// What a run left, and where its commits were kept.
#[derive(Drop)]
pub struct Round<K: Drop, B: Drop> {
    pub outcome: Outcome,
    pub keep: K,
    pub between: B,
    pub progress: Progress,
}

/// How far a run's commits were kept.
#[derive(Clone, Copy, Debug)]
pub struct Progress {
    /// The end of the last commit that was kept.
    pub position: Lsn,
    /// Why they are kept no further, if they are not.
    pub stop: Option<Stop>,
}

/// Where a run begins, and how its commits are kept.
#[derive(Clone, Copy, Debug, PartialEq, Eq)]
pub struct Setting {
    pub config: Config,
    /// The end of the last commit before the run.
    pub position: Lsn,
    /// How many commits are kept at once at most.
    pub batch: usize,
}

/// Runs a stream from the tables that were kept, which are at a position, and keeps its commits. Where the
/// source tells the pace, the run waits for what is kept only before it waits for more of the stream.
/// Refused for memory, nothing was read.
pub fn run_round<T, S, W, C, K, B, H>(
    rt: &T,
    host: &H,
    alloc: Global,
    catalog: &Catalog,
    start: Tables,
    setting: &Setting,
    reader: S,
    writer: W,
    clock: C,
    pace: &Pace,
    keep: K,
    between: B,
) -> Result<Round<K, B>, OutOfMemory>
where
    T: Threads + Wait + Sync,
    S: Source + Drop,
    W: Sink + Drop,
    C: leader::Clock + Drop,
    K: Keep + Drop + Send,
    B: Between + Drop + Send,
    H: Clock + Sync,
    requires { start.schema ≡ map keys_of catalog.now }
    ensures run { IfOk result (λ round. ∥ IsSomeRun catalog.now start.rows round.outcome ∥₁) }
    ensures keys { IfOk result (λ round. round.outcome.tables.schema ≡ map keys_of catalog.now) }
    ensures kept { IfOk result (λ round. round.progress.stop ≡ None → ∥ K.has_kept round.keep (map entry_in round.outcome.journal.items) ∥₁) }
{
    let Setting {
        config,
        position,
        batch,
    } = *setting;
    let gates = open_gates(alloc, config.workers)?;
    let (reached, publisher, loader) = Reached::new(alloc)?;
    let mut arrival = Arrival::new(&reached, publisher);
    arrival.reach(rt, position);
    let held = Held::new(rt, alloc, &reached, pace, loader, writer);
    let mut devices = Devices::new(reader, Resumed::new(alloc, held, position), clock);
    let writer = CommitWriter::new(host, alloc, keep, between, arrival, position, batch);
    let watchers = only(alloc, writer)?;
    let (outcome, mut watchers) = run_on(
        rt,
        alloc,
        &mut devices,
        catalog,
        start,
        &config,
        gates,
        watchers,
    );
    let Some(mut writer) = watchers.pop() else {
        unreachable!()
    };
    writer.finish(rt, outcome.journal.as_slice());
    let (keep, between, position, stop) = writer.into_parts();
    Ok(Round {
        outcome,
        keep,
        between,
        progress: Progress { position, stop },
    })
}

/// `run_round` over a place, and what is done between, that are lent: without what is said of the place.
pub fn run_round_on<T, S, W, C, K, B, H>(
    rt: &T,
    host: &H,
    alloc: Global,
    catalog: &Catalog,
    start: Tables,
    setting: &Setting,
    reader: S,
    writer: W,
    clock: C,
    pace: &Pace,
    keep: &mut K,
    between: &mut B,
) -> Result<(Outcome, Progress), OutOfMemory>
where
    T: Threads + Wait + Sync,
    S: Source + Drop,
    W: Sink + Drop,
    C: leader::Clock + Drop,
    K: Keep + Send,
    B: Between + Send,
    H: Clock + Sync,
    requires { start.schema ≡ map keys_of catalog.now }
    ensures run { IfOk result (λ round. ∥ IsSomeRun catalog.now start.rows round.0 ∥₁) }
    ensures keys { IfOk result (λ round. round.0.tables.schema ≡ map keys_of catalog.now) }
{
    let keep = LentKeep { keep };
    let between = LentBetween { between };
    let round = run_round(
        rt, host, alloc, catalog, start, setting, reader, writer, clock, pace, keep, between,
    )?;
    let Round {
        outcome,
        progress,
        ..
    } = round;
    Ok((outcome, progress))
}

// A list of one.
fn only<T: Drop>(alloc: Global, item: T) -> Result<Vec<T>, OutOfMemory>
    ensures { IfOk result (λ items. items.items ≡ item ∷ []) }
{
    let mut items = Vec::new(alloc);
    items.push(item)?;
    Ok(items)
}
