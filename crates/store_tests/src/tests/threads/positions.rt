// What no clause says of an origin: that two threads load while a third publishes, and that a refused
// allocation is told.
ghost use Rattle.std.specs.Prelude.{◌≡◌, ◌≤◌, ◌<◌, []};
ghost use Rattle.origin.specs.Commits.{commits_of};
ghost use Rattle.model.specs.Beginning.{Begins};

use crate::tests::asserts::{assert_holds, assert_same};
use model::OutOfMemory;
use origin::{Loader, Origin, Position, Publisher};
use std::sync::Wait;
use std::test::Fail;
use std::thread;
use std::thread::Threads;

// How many positions are published while others load.
const COMMITS: u64 = 100;

// The position behind so many commits, each of which takes 16 bytes of the log.
fn position(commits: u64) -> Position
    requires { commits ≤ COMMITS }
    ensures { (result.commits ≡ commits) × (result.skip ≡ 0) }
{
    Position {
        commits,
        end_lsn: commits * 16,
        skip: 0,
    }
}

// Publishes the positions of all commits.
fn publish_all<R: Wait>(rt: &R, origin: &Origin, mut publisher: Publisher) -> Publisher
    requires { publisher ≡ commits_of origin.now [] }
    ensures { result.origin ≡ origin.now }
{
    for commits in 0..COMMITS {
        origin.publish(rt, &mut publisher, position(commits + 1));
        thread::yield_now();
    }
    publisher
}

// Loads until it has seen all commits. Says whether each position was one of those published, and
// none was older than the one before it.
fn load_all<R: Wait>(rt: &R, origin: &Origin, mut loader: Loader) -> (Loader, bool)
    requires { loader.origin ≡ origin.now }
    ensures { (result.0.origin ≡ origin.now) × Begins loader.ends result.0.ends }
{
    let mut last = 0;
    for _ in rt.forever() {
        let found = origin.load(rt, &mut loader);
        if found.commits < last || found.commits > COMMITS || found != position(found.commits) {
            return (loader, false);
        }
        if found.commits == COMMITS {
            return (loader, true);
        }
        last = found.commits;
        thread::yield_now();
    }
    unreachable!()
}

// Two threads load, each with its own token, and both tokens come back.
fn load_in_two<R: Threads + Wait + Sync>(
    rt: &R,
    origin: &Origin,
    loader: Loader,
) -> ((Loader, bool), (Loader, bool))
    requires { loader.origin ≡ origin.now }
    ensures { (result.0.0.origin ≡ origin.now) × (result.1.0.origin ≡ origin.now) }
{
    let (one, other) = loader.split(origin);
    thread::join(
        rt,
        move || load_all(rt, origin, one),
        move || load_all(rt, origin, other),
    )
}

// Two threads load while a third publishes.
#[test]
fn two_threads_load_while_positions_are_published(rt: HostRuntime) -> Result<(), Fail> {
    for _ in 0..20 {
        let (origin, publisher, loader) = Origin::new(rt.alloc(), 0)?;
        let (mut publisher, ((mut one, in_order), (mut other, also_in_order))) = thread::join(
            &rt,
            || publish_all(&rt, &origin, publisher),
            || load_in_two(&rt, &origin, loader),
        );
        assert_holds(&rt, in_order && also_in_order, "in order");
        origin.meet(&rt, &mut publisher, &mut one);
        origin.meet(&rt, &mut publisher, &mut other);
    }
    Ok(())
}

// A refused allocation is told.
#[test]
fn an_origin_where_memory_is_refused(rt: HostRuntime) {
    match Origin::new(rt.alloc(), 0) {
        Ok((origin, _publisher, mut loader)) => {
            assert_same(&rt, origin.load(&rt, &mut loader).commits, 0, "commits");
        }
        Err(refused) => assert_same(&rt, refused, OutOfMemory, "refused"),
    }
}
