// What a reader is answered where memory was refused.
ghost use Rattle.table_locks.specs.Starts.{AreNames};
ghost use Rattle.store_tests.specs.Names.{HasNames};

use super::scene::{Parts, Scene, Shared};
use super::watchers::watch_in_two;
use crate::tests::asserts::assert_holds;
use crate::tests::threads::table::{TABLE, key, put};
use engine::EngineFault;
use model::{Key, OutOfMemory};
use snapshot::{ReadFault, Reader};
use std::alloc::Global;
use std::marker::Brand;
use std::process::Abort;
use std::sync::Wait;
use std::test::Fail;
use std::thread::Threads;
use table_locks::StoreNames;

/// What is played: the last beside other threads.
#[derive(Clone, Copy)]
pub(super) enum Scenario {
    Refused,
    Watched,
}

// A scene, and one who reads it on the same thread. The host is there longer than these are.
#[derive(Drop)]
struct Stage<'a, 'b, N: StoreNames, R> {
    rt: &'a R,
    alloc: Global,
    scene: Scene<'b, N>,
    reader: Reader<'b, N>,
}

impl<N: StoreNames, R: Abort + Wait> Stage<'_, '_, N, R> {
    // Commits a row, or gives up for memory.
    fn commit_a_row(&mut self) -> Result<Key, EngineFault> {
        let mut ticket = self.scene.open(self.rt, self.alloc, 1)?;
        self.scene
            .act(self.rt, self.alloc, &mut ticket, &put(self.alloc, 1, 10)?)?;
        self.scene.commit(self.rt, ticket, 16);
        Ok(key(self.alloc, 1)?)
    }

    // The rows of a commit, where one allocation may be refused: then they are read again. `get` takes no
    // memory. Where it was refused before, there is nothing to read.
    fn read_refused(&mut self) {
        let Ok(key) = self.commit_a_row() else {
            return;
        };
        let refused = Some(ReadFault::OutOfMemory);
        let first = self.reader.rows(self.rt, self.alloc, TABLE).err();
        assert_holds(self.rt, first.is_none() || first == refused, "first");
        let row = self.reader.get(self.rt, TABLE, &key);
        assert_holds(self.rt, matches!(row, Ok(Some(_))), "the row");
        let second = self.reader.rows(self.rt, self.alloc, TABLE).err();
        let is_once = second.is_none() || (second == refused && first.is_none());
        assert_holds(self.rt, is_once, "second");
    }
}

// Plays with one reader on one thread.
fn play_alone<N: StoreNames, R: Abort + Wait>(rt: &R, alloc: Global, shared: Shared<N>) {
    let (line, loader) = (shared.line, shared.loader);
    let (store, origin) = (&shared.store, &shared.origin);
    let seen = store.lock_journal(rt).watch();
    let mut stage = Stage {
        rt,
        alloc,
        scene: Scene::new(store, line),
        reader: Reader::new(store, seen, origin, loader),
    };
    stage.read_refused();
}

// The names of the store are known only here.
fn play_named<N: StoreNames + Send + Sync, R: Abort + Threads + Wait + Sync>(
    rt: &R,
    alloc: Global,
    parts: Parts,
    which: Scenario,
) -> Result<(), Fail>
    requires { AreNames N.shares N.line N.tables N.schema N.start parts.made }
{
    let Ok(shared) = parts.share::<N>(alloc) else {
        return without_memory(which);
    };
    match which {
        Scenario::Refused => play_alone(rt, alloc, shared),
        Scenario::Watched => watch_in_two(rt, alloc, shared),
    }
    Ok(())
}

// Memory was refused before anything was read, which only one of the scenarios expects.
fn without_memory(which: Scenario) -> Result<(), Fail> {
    match which {
        Scenario::Refused => Ok(()),
        Scenario::Watched => Err(OutOfMemory)?,
    }
}

/// Plays with these parts.
pub(super) fn play<R: Abort + Threads + Wait + Sync>(
    rt: &R,
    alloc: Global,
    parts: Parts,
    which: Scenario,
) -> Result<(), Fail>
    requires { HasNames parts.made }
{
    play_named::<Brand, R>(rt, alloc, parts, which)
}

#[test]
fn a_reader_goes_on_where_memory_was_refused(rt: HostRuntime) -> Result<(), Fail> {
    let Ok(parts) = Parts::new(rt.alloc()) else {
        return Ok(());
    };
    play(&rt, rt.alloc(), parts, Scenario::Refused)
}
