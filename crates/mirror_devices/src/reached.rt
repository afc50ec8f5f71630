// How far a file has come.
ghost use Rattle.std.specs.Prelude.{◌≡◌, ◌≤◌, ◌++◌, [], ◌∷◌, length, IfOk, IsTrue};
ghost use Rattle.model.specs.Beginning.{Begins, last_end};
ghost use Rattle.origin.specs.Commits.{commits_of, loaded_of};
ghost use Rattle.mirror_devices.specs.Reached.{HasReached};

use model::{Lsn, OutOfMemory};
use origin::{Loader, Origin, Position, Publisher};
use std::alloc::Global;
use std::marker::Model;
use std::sync::Wait;

/// How far a file has come in the publisher's log, and whether it goes on. An `Arrival` tells it.
#[derive(Drop)]
pub struct Reached {
    origin: Origin,
}

impl Model for Reached {
    ghost use Rattle.atomic_table.specs.Seated.{TableId};

    ghost Value = { TableId };

    ghost view = { λ p. p.origin };
}

impl Reached {
    /// Nothing was reached yet. It goes with who tells it, and with who learns it.
    pub fn new(alloc: Global) -> Result<(Reached, Publisher, Loader), OutOfMemory>
        ensures publisher { IfOk result (λ made. made.1 ≡ commits_of made.0 []) }
        ensures loader { IfOk result (λ made. made.2 ≡ loaded_of made.0 0 []) }
    {
        let (origin, publisher, loader) = Origin::new(alloc, 0)?;
        Ok((Reached { origin }, publisher, loader))
    }

    /// How far it has come.
    pub(crate) fn load<R: Wait>(&self, rt: &R, loader: &mut Loader) -> Lsn
        requires own { loader.old.origin ≡ self.now }
        ensures same { loader.new.origin ≡ loader.old.origin }
        ensures later { Begins loader.old.ends loader.new.ends }
        ensures reached { result ≡ last_end loader.new.ends }
    {
        self.origin.load(rt, loader).end_lsn
    }

    /// How far it has come, once it has come so far; or where it goes no further before.
    pub(crate) fn wait_for<R: Wait>(&self, rt: &R, loader: &mut Loader, lsn: Lsn) -> Lsn
        requires own { loader.old.origin ≡ self.now }
        ensures same { loader.new.origin ≡ loader.old.origin }
        ensures later { Begins loader.old.ends loader.new.ends }
        ensures reached { result ≡ last_end loader.new.ends }
    {
        let mut position = self.origin.load(rt, loader);
        for _ in rt.forever() {
            if lsn <= position.end_lsn {
                break;
            }
            let next = self.origin.wait_past(rt, loader, position.commits);
            if next.commits <= position.commits {
                return next.end_lsn;
            }
            position = next;
        }
        position.end_lsn
    }
}

/// Who tells how far a file has come. Where it is dropped the file goes no further, and nobody waits
/// for that any more.
pub struct Arrival<'a> {
    reached: &'a Reached,
    publisher: Publisher,
    count: u64,
    ghost own: { publisher.origin ≡ reached.now },
    ghost counted: { count ≡ length publisher.ends },
}

impl<'a> Arrival<'a> {
    /// Who tells it of a file of which nothing was told yet.
    pub fn new(reached: &'a Reached, publisher: Publisher) -> Arrival<'a>
        requires { publisher ≡ commits_of reached.now [] }
        ensures { result.publisher ≡ publisher }
    {
        Arrival {
            reached,
            publisher,
            count: 0,
        }
    }

    /// It has come so far: what is below lies on the disk. (Told 2^64 times it tells nothing more.)
    pub fn reach<R: Wait>(&mut self, rt: &R, end_lsn: Lsn)
        ensures { HasReached self.old.publisher.ends self.new.publisher.ends end_lsn }
    {
        let Some(commits) = self.count.checked_add(1) else {
            return;
        };
        let position = Position {
            commits,
            end_lsn,
            skip: 0,
        };
        let reached = self.reached;
        reached.origin.publish(rt, &mut self.publisher, position);
        self.count = commits;
    }
}

impl Drop for Arrival<'_> {
    fn drop(self) {
        let Arrival {
            reached,
            publisher,
            count: _,
        } = self;
        drop(publisher);
        reached.origin.close();
    }
}
