// What is played by workers, each time over an empty store of its own.
ghost use Rattle.std.specs.Prelude.{◌≡◌, [], length};
ghost use Rattle.table_locks.specs.Starts.{AreNames};

use super::shared::{Hand, share};
use crate::tests::threads::table::empty_store;
use std::alloc::Global;
use std::marker::Brand;
use std::process::Abort;
use std::sync::Wait;
use std::thread::Threads;
use std::time::Clock;
use table_locks::{Line, Made, StoreNames};
use worker::Point;

/// Those of `held`, and then those of `together`.
#[derive(Clone, Copy)]
pub(super) enum Scenario {
    HolderEnds { commits: bool },
    DoomedWhileHeld,
    HolderRollsBack,
    OtherClashes,
    Two,
    Doomed { at: Point, number: u64 },
    Many,
}

/// Plays it a hundred times.
pub(super) fn play<R: Threads + Wait + Abort + Clock + Sync>(
    rt: &R,
    alloc: Global,
    scenario: Scenario,
) {
    for _ in 0..100 {
        let Ok((made, line)) = empty_store(alloc) else {
            panic!(rt; "no memory")
        };
        play_once::<Brand, R>(rt, alloc, made, line, scenario);
    }
}

// The names of the store are known only here.
fn play_once<N: StoreNames + Send + Sync, R: Threads + Wait + Abort + Clock + Sync>(
    rt: &R,
    alloc: Global,
    made: Made,
    line: Line,
    scenario: Scenario,
)
    requires names { AreNames N.shares N.line N.tables N.schema N.start made }
    requires line { line ≡ made.journal.part.line }
    requires nothing { line.list ≡ [] }
    requires one { length N.schema ≡ 1 }
{
    let shared = share::<N, R>(rt, alloc, made);
    let hand = Hand::new(rt, alloc, &shared, line);
    match scenario {
        Scenario::HolderEnds { commits } => hand.holder_ends(commits),
        Scenario::DoomedWhileHeld => hand.doomed_while_held(),
        Scenario::HolderRollsBack => hand.holder_rolls_back(),
        Scenario::OtherClashes => hand.other_clashes(),
        Scenario::Two => hand.two(),
        Scenario::Doomed { at, number } => hand.doomed(at, number),
        Scenario::Many => hand.many(),
    }
}
