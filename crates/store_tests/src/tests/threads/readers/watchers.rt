// Two watchers, each in its thread, while transactions are committed and published.
ghost use Rattle.std.specs.Prelude.{◌≡◌, [], length};
ghost use Rattle.origin.specs.Commits.{commits_of};

use super::plays::{Scenario, play};
use super::scene::{Parts, Scene, Shared};
use crate::tests::asserts::assert_holds;
use crate::tests::threads::table::{TABLE, key, put};
use model::Xid;
use origin::{Origin, Position, Publisher};
use snapshot::{Reader, Watch};
use std::alloc::Global;
use std::process::Abort;
use std::sync::Wait;
use std::test::Fail;
use std::thread;
use std::thread::Threads;
use table_locks::StoreNames;

// How many transactions are committed while others read.
const COMMITS: u64 = 100;

/// The position behind so many commits, each of which takes 16 bytes of the log.
pub(super) fn position(commits: u64) -> Position
    ensures { (result.commits ≡ commits) × (result.skip ≡ 0) }
{
    Position {
        commits,
        end_lsn: commits.saturating_mul(16),
        skip: 0,
    }
}

// Watches until the last commit was published, and whether all was well until then.
#[derive(Drop)]
struct Follower {
    alloc: Global,
    last: u64,
    is_well: bool,
}

impl Follower {
    fn new(alloc: Global) -> Follower {
        Follower {
            alloc,
            last: 0,
            is_well: true,
        }
    }

    // Whether the row of the last commit before a position is there, as it is once that was published.
    fn sees<N: StoreNames, R: Wait>(&self, rt: &R, reader: &mut Reader<'_, N>, commits: u64) -> bool
        ensures { reader.new.published ≡ reader.old.published }
    {
        if commits == 0 {
            return true;
        }
        let Ok(id) = i64::try_from(commits) else {
            return false;
        };
        match key(self.alloc, id) {
            Err(_) => false,
            Ok(key) => matches!(reader.get(rt, TABLE, &key), Ok(Some(_))),
        }
    }
}

impl Watch for Follower {
    ghost knows = { λ _ _. Unit {0} };

    fn turn<N: StoreNames, R: Wait>(&mut self, rt: &R, reader: &mut Reader<'_, N>) -> bool {
        let found = reader.position(rt);
        if found.commits < self.last
            || found.commits > COMMITS
            || found != position(found.commits)
            || !self.sees(rt, reader, found.commits)
        {
            self.is_well = false;
        }
        self.last = found.commits;
        self.is_well && found.commits < COMMITS
    }
}

// Gives a watcher its turns, as a run does.
fn watch<V: Watch, N: StoreNames, R: Wait>(rt: &R, mut watcher: V, mut reader: Reader<'_, N>) -> V
    requires { ∥ V.knows watcher reader ∥₁ }
{
    for _ in rt.forever() {
        if !watcher.turn(rt, &mut reader) {
            return watcher;
        }
        thread::yield_now();
    }
    unreachable!()
}

// Commits one row after another, and publishes each commit.
fn commit_all<N: StoreNames, R: Abort + Wait>(
    rt: &R,
    alloc: Global,
    mut scene: Scene<'_, N>,
    origin: &Origin,
    mut publisher: Publisher,
)
    requires { publisher ≡ commits_of origin.now [] }
{
    for commits in 0..COMMITS {
        let Ok(mut ticket) = scene.open(rt, alloc, commits as Xid) else {
            panic!(rt; "no memory for a transaction")
        };
        let Ok(change) = put(alloc, commits as i64 + 1, 0) else {
            panic!(rt; "no memory for a change")
        };
        let acted = scene.act(rt, alloc, &mut ticket, &change);
        assert_holds(rt, acted.is_ok(), commits);
        scene.commit(rt, ticket, (commits + 1) * 16);
        origin.publish(rt, &mut publisher, position(commits + 1));
        thread::yield_now();
    }
}

/// Two watch while a third commits, and all is well.
pub(super) fn watch_in_two<N: StoreNames + Send + Sync, R: Abort + Threads + Wait + Sync>(
    rt: &R,
    alloc: Global,
    shared: Shared<N>,
) {
    let (line, publisher, loader) = (shared.line, shared.publisher, shared.loader);
    let (store, origin) = (&shared.store, &shared.origin);
    let (seen, also_seen) = {
        let mut journal = store.lock_journal(rt);
        (journal.watch(), journal.watch())
    };
    let (one, other) = loader.split(origin);
    let one = Reader::new(store, seen, origin, one);
    let other = Reader::new(store, also_seen, origin, other);
    let scene = Scene::new(store, line);
    let (_, (first, second)) = thread::join(
        rt,
        || commit_all(rt, alloc, scene, origin, publisher),
        || {
            thread::join(
                rt,
                move || watch(rt, Follower::new(alloc), one),
                move || watch(rt, Follower::new(alloc), other),
            )
        },
    );
    assert_holds(rt, first.is_well && second.is_well, "watched");
}

#[test]
fn no_position_goes_back_and_each_commit_is_seen(rt: HostRuntime) -> Result<(), Fail> {
    for _ in 0..20 {
        play(&rt, rt.alloc(), Parts::new(rt.alloc())?, Scenario::Watched)?;
    }
    Ok(())
}
