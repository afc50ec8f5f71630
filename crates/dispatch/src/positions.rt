// The positions that a leader publishes.
ghost use Rattle.std.specs.Prelude.{◌≡◌, ◌++◌, ◌∷◌, ℕ, [], length};
ghost use Rattle.atomic_table.specs.Seated.{TableId};
ghost use Rattle.tokens.specs.Half.{no_name};
ghost use Rattle.engine.specs.Events.{ends_in};
ghost use Rattle.origin.specs.Commits.{commits_of};

use model::Lsn;
use origin::{Origin, Position, Publisher};
use std::marker::{Brand, Model, PhantomData};
use std::sync::Wait;
use table_locks::Line;
use worker::OutboxNames;

/// The names of what the threads of a run share beside its store: of its workers, and of the origin
/// where it publishes, with what a position has there for its skip before the first commit.
pub trait RunNames: OutboxNames {
    ghost origin: { TableId };

    ghost skip: { ℕ };
}

impl RunNames for Brand {
    ghost origin = { no_name };

    ghost skip = { 0 };
}

/// What a leader publishes: the position behind each commit. A clause sees where each commit that was
/// published ends in the publisher's log, oldest first.
#[derive(Debug, Drop)]
pub struct Positions<'a, L: RunNames> {
    origin: &'a Origin,
    publisher: Publisher,
    of: PhantomData<L>,
}

impl<'a, L: RunNames> Model for Positions<'a, L> {
    ghost use Rattle.std.specs.Prelude.{◌≡◌, ℕ, List};

    ghost Value = { List ℕ };

    ghost view = { λ p. p.publisher.ends };

    ghost invariant = { λ p. (p.publisher.origin ≡ p.origin.now) × (p.origin.now ≡ L.origin) };
}

impl<'a, L: RunNames> Positions<'a, L> {
    /// None was published yet.
    pub fn new(origin: &'a Origin, publisher: Publisher) -> Positions<'a, L>
        requires name { origin.now ≡ L.origin }
        requires none { publisher ≡ commits_of origin.now [] }
        ensures { result ≡ [] }
    {
        Positions {
            origin,
            publisher,
            of: PhantomData,
        }
    }

    /// Publishes the position behind the last commit of the line: how many its commits are, and where
    /// that one ends. Those before it were published; so none is left out, and none comes before its
    /// commit stands.
    pub fn publish<R: Wait>(&mut self, rt: &R, line: &Line, commits: u64, end: Lsn)
        requires last { ends_in line.now.list ≡ self.old ++ end ∷ [] }
        requires count { commits ≡ length (ends_in line.now.list) }
        ensures { self.new ≡ ends_in line.now.list }
    {
        let position = Position {
            commits,
            end_lsn: end,
            skip: 0,
        };
        self.origin.publish(rt, &mut self.publisher, position);
    }

    /// Who has published.
    pub fn into_publisher(self) -> Publisher
        ensures { result ≡ commits_of L.origin self.entry }
    {
        let Positions { publisher, .. } = self;
        publisher
    }
}
