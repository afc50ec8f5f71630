// Runs that are kept, one epoch after another.
ghost use Rattle.std.specs.Prelude.{◌≡◌, map};
ghost use Rattle.model.specs.Rows.{keys_of};

use super::files::Store;
use leader::{Catalog, Config, End, Lsn, OutOfMemory, StillClock, Tables};
use mirror_devices::{Pace, Paced};
use mirror_file::{FileFault, Opened, open};
use mirror_run::{FileKeep, Keep, Nothing, Progress, Setting, run_round_on};
use mirror_source::{Applied, Cut, Epochs, Limits, find_applied};
use sqlite::Connection;
use std::alloc::{AllocError, Global};
use std::sync::Wait;
use std::thread::Threads;
use std::time::Clock;
use testing::accounts::CATALOG;
use testing::devices::{Kept, Pieces};

/// How a stream is followed.
#[derive(Clone, Copy)]
pub struct Plan<'a> {
    pub stream: &'a [u8],
    /// How many commits an epoch has, and one transaction of the file.
    pub epoch: u64,
    pub batch: usize,
}

/// How it ended, and how far its commits were kept.
#[derive(Clone, Copy)]
pub struct Ended {
    pub end: End,
    pub progress: Progress,
}

/// The catalog of the one table.
pub fn catalog(alloc: Global) -> Result<Catalog, OutOfMemory> {
    Catalog::read(alloc, CATALOG).map_err(|_| OutOfMemory)
}

/// The stream of a plan without what was kept before, in its epochs.
pub fn epochs_of<'a>(
    alloc: Global,
    plan: &Plan<'a>,
    position: Lsn,
) -> Result<Epochs<Pieces<'a>>, AllocError> {
    let Ok(xids) = find_applied(alloc, Pieces::new(plan.stream, 4096), position) else {
        return Err(AllocError);
    };
    let limits = Limits {
        commits: plan.epoch,
        bytes: u64::MAX,
        most: u64::MAX,
    };
    let source = Pieces::new(plan.stream, 50);
    Epochs::new(alloc, source, Applied::new(position, xids), limits)
}

/// A run of one epoch by two workers, from tables at a position. What it sends is appended.
pub fn run_epoch<R: Threads + Wait + Sync + Clock, K: Keep + Send>(
    rt: &R,
    alloc: Global,
    catalog: &Catalog,
    start: Tables,
    position: Lsn,
    batch: usize,
    epochs: &mut Epochs<Pieces<'_>>,
    keep: &mut K,
    sent: &mut Vec<u8>,
) -> Result<Ended, OutOfMemory>
    requires { start.schema ≡ map keys_of catalog.now }
{
    let config = Config {
        workers: 2,
        ring: 4,
        spool: 1 << 30,
        skip: 0,
    };
    let setting = Setting {
        config,
        position,
        batch,
    };
    let pace = Pace::new();
    let source = Paced::new(epochs, &pace);
    let sink = Kept::new(sent);
    let (outcome, progress) = run_round_on(
        rt,
        rt,
        alloc,
        catalog,
        start,
        &setting,
        source,
        sink,
        StillClock(5),
        &pace,
        keep,
        &mut Nothing,
    )?;
    Ok(Ended {
        end: outcome.end,
        progress,
    })
}

/// Follows a stream from what a file has, to its end. What it sends is appended.
pub fn follow<R: Threads + Wait + Sync + Clock>(
    rt: &R,
    alloc: Global,
    conn: &mut Connection<Store>,
    plan: &Plan<'_>,
    sent: &mut Vec<u8>,
) -> Result<Ended, FileFault> {
    let catalog = catalog(alloc)?;
    let opened = open(alloc, conn, &catalog, Tables::empty(alloc, &catalog)?)?;
    let mut epochs = epochs_of(alloc, plan, opened.position)?;
    for _ in rt.forever() {
        let ended = follow_epoch(rt, alloc, &catalog, conn, plan.batch, &mut epochs, sent)?;
        let is_over = epochs.cut() != Cut::AtLimit || ended.end != End::Clean;
        if is_over || ended.progress.stop.is_some() {
            return Ok(ended);
        }
        epochs.begin_next()?;
    }
    unreachable!()
}

// Follows one epoch.
fn follow_epoch<R: Threads + Wait + Sync + Clock>(
    rt: &R,
    alloc: Global,
    catalog: &Catalog,
    conn: &mut Connection<Store>,
    batch: usize,
    epochs: &mut Epochs<Pieces<'_>>,
    sent: &mut Vec<u8>,
) -> Result<Ended, FileFault> {
    let Opened {
        statements,
        tables,
        position,
        ..
    } = open(alloc, conn, catalog, Tables::empty(alloc, catalog)?)?;
    let mut keep = FileKeep::new(alloc, conn, &statements);
    let ended = run_epoch(
        rt, alloc, catalog, tables, position, batch, epochs, &mut keep, sent,
    )?;
    Ok(ended)
}
