// The cell of a position, and the tokens of those who publish and load it.
ghost use Rattle.std.specs.Prelude.{◌≡◌, ◌+◌, ◌++◌, [], ◌∷◌, length, IfOk};
ghost use Rattle.origin.specs.Commits.{commits_of, loaded_of, position_after};
ghost use Rattle.model.specs.Beginning.{Begins};

use crate::position::{Position, Published};
use crate::protocol::{Compare, InOrder, Load, Met, Publish, Seen, View};
use crossbeam_utils::atomic::seq_cell::{Pass, RuledSeqCell};
use crossbeam_utils::sync::EventCount;
use model::{Lsn, OutOfMemory};
use std::alloc::Global;
use std::fmt;
use std::marker::Model;
use std::sync::Wait;
use std::sync::atomic::{AtomicBool, Ordering};

/// The position of the last commit that was published.
#[derive(Drop)]
pub struct Origin {
    cell: RuledSeqCell<Published, View, InOrder, 2>,
    /// Whether nothing more will be published.
    is_closed: AtomicBool,
    /// Wakes those who wait for a position.
    moved: EventCount,
}

impl fmt::Debug for Origin {
    fn fmt<W: fmt::Write>(&self, f: &mut fmt::Formatter<W>) -> fmt::Result {
        f.debug_struct("Origin").finish_non_exhaustive()
    }
}

impl Model for Origin {
    ghost use Rattle.atomic_table.specs.Seated.{TableId};

    ghost Value = { TableId };

    ghost view = { λ o. o.cell.table.shared.table_id };
}

/// Who publishes. There is one to an origin. It has no bytes.
#[derive(Drop)]
pub struct Publisher {
    pass: Pass<Published, View>,
}

impl fmt::Debug for Publisher {
    fn fmt<W: fmt::Write>(&self, f: &mut fmt::Formatter<W>) -> fmt::Result {
        f.debug_struct("Publisher").finish_non_exhaustive()
    }
}

impl Model for Publisher {
    ghost use Rattle.crossbeam_utils.specs.Seq.{cell_view};
    ghost use Rattle.origin.specs.Commits.{PublishedCommits, commits_of};
    ghost use Rattle.origin.specs.Rule.{HasPublished, published_by};

    ghost Value = { PublishedCommits };

    ghost view = { λ t. commits_of t.pass.table_id (published_by (cell_view t.pass)) };

    ghost invariant = { λ t. HasPublished (cell_view t.pass) };
}

/// Who loads. It loads no position that is older than what it has seen, and neither do those that
/// it is split into.
#[derive(Drop)]
pub struct Loader {
    pass: Pass<Published, View>,
    /// What a position has for its skip before the first commit.
    skip: Lsn,
}

impl fmt::Debug for Loader {
    fn fmt<W: fmt::Write>(&self, f: &mut fmt::Formatter<W>) -> fmt::Result {
        f.debug_struct("Loader")
            .field("skip", &self.skip)
            .finish_non_exhaustive()
    }
}

impl Model for Loader {
    ghost use Rattle.crossbeam_utils.specs.Seq.{cell_view};
    ghost use Rattle.origin.specs.Commits.{LoadedCommits, loaded_of};

    ghost Value = { LoadedCommits };

    ghost view = { λ t. loaded_of t.pass.table_id t.skip (cell_view t.pass).seen };
}

impl Origin {
    /// An origin at the start: no commit, position 0, and the transaction that is to be skipped, by its
    /// commit LSN, or 0.
    pub fn new(alloc: Global, skip: Lsn) -> Result<(Origin, Publisher, Loader), OutOfMemory>
        ensures publisher { IfOk result (λ made. made.1 ≡ commits_of made.0 []) }
        ensures loader { IfOk result (λ made. made.2 ≡ loaded_of made.0 skip []) }
    {
        let start = Published {
            commits: 0,
            end_lsn: 0,
        };
        let (cell, mut pass) = RuledSeqCell::ruled(alloc, start)?;
        let other = cell.split_pass::<Seen>(&mut pass);
        Ok((
            Origin {
                cell,
                is_closed: AtomicBool::new(false),
                moved: EventCount::new(),
            },
            Publisher { pass },
            Loader { pass: other, skip },
        ))
    }

    /// Publishes the position behind one more commit, where no skip is set. The caller counts: it has
    /// one commit more than the position that was published before.
    pub fn publish<R: Wait>(&self, rt: &R, by: &mut Publisher, p: Position)
        requires own { by.old.origin ≡ self.now }
        requires next { p.commits ≡ length by.old.ends + 1 }
        requires unset { p.skip ≡ 0 }
        ensures { by.new ≡ record by.old { ends = by.old.ends ++ p.end_lsn ∷ [] } }
    {
        let published = Published {
            commits: p.commits,
            end_lsn: p.end_lsn,
        };
        self.cell.swap_as::<Publish, R>(rt, &mut by.pass, published);
        self.moved.notify_all();
    }

    /// Nothing more will be published: nobody waits for that any more.
    pub fn close(&self) {
        self.is_closed.store(true, Ordering::SeqCst);
        self.moved.notify_all();
    }

    /// The position that was published last. The loader then has seen all commits up to it: those
    /// that it had seen before, and maybe more. Its skip is that of `new` where there is no commit.
    pub fn load<R: Wait>(&self, rt: &R, by: &mut Loader) -> Position
        requires own { by.old.origin ≡ self.now }
        ensures same { by.new.origin ≡ by.old.origin }
        ensures later { Begins by.old.ends by.new.ends }
        ensures skip { by.new.skip ≡ by.old.skip }
        ensures position { result ≡ position_after by.new.skip by.new.ends }
    {
        let published = self.cell.load_as::<Load, R>(rt, &mut by.pass);
        published.position(by.skip)
    }

    /// The position that was published last, once it has more commits than these. Where the origin is
    /// closed before, it is the last position of all.
    pub fn wait_past<R: Wait>(&self, rt: &R, by: &mut Loader, commits: u64) -> Position
        requires own { by.old.origin ≡ self.now }
        ensures same { by.new.origin ≡ by.old.origin }
        ensures later { Begins by.old.ends by.new.ends }
        ensures skip { by.new.skip ≡ by.old.skip }
        ensures position { result ≡ position_after by.new.skip by.new.ends }
    {
        for _ in rt.forever() {
            // Announced before the looks, so that what comes behind them ends the wait.
            let moved = self.moved.prepare_wait();
            let is_closed = self.is_closed.load(Ordering::SeqCst);
            let position = self.load(rt, by);
            if is_closed || position.commits > commits {
                return position;
            }
            moved.wait(rt);
        }
        unreachable!()
    }

    /// Learns that what a loader has seen was published.
    pub fn meet<R: Wait>(&self, rt: &R, publisher: &mut Publisher, loader: &mut Loader)
        requires publisher { publisher.old.origin ≡ self.now }
        requires loader { loader.old.origin ≡ self.now }
        ensures published { Begins loader.old.ends publisher.old.ends }
        ensures same { (publisher.new ≡ publisher.old) × (loader.new ≡ loader.old) }
    {
        let seen = self.cell.split_pass::<Seen>(&mut loader.pass);
        self.cell.join_pass::<Met>(&mut publisher.pass, seen);
        self.cell.load_as::<Compare, R>(rt, &mut publisher.pass);
    }
}

impl Loader {
    /// Two tokens in place of one, for two threads. Each has seen what this one had.
    pub fn split(mut self, origin: &Origin) -> (Loader, Loader)
        requires own { self.origin ≡ origin.now }
        ensures { (result.0 ≡ self) × (result.1 ≡ self) }
    {
        let pass = origin.cell.split_pass::<Seen>(&mut self.pass);
        let skip = self.skip;
        (self, Loader { pass, skip })
    }
}
