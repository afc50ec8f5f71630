// Who hands a run's commits to where they are kept.
ghost use Rattle.std.specs.Prelude.{◌≡◌, ◌+◌, ◌++◌, [], List, None, OnOk, length, map};
ghost use Rattle.model.specs.Beginning.{Begins};
ghost use Rattle.world.specs.World.{Entry as Told, entry_of};
ghost use Rattle.engine.specs.Engine.{entry_in};
ghost use Rattle.snapshot.specs.Reads.{Sight, commits_seen};
ghost use Rattle.mirror_writer.specs.Kept.{IsUpTo};

use crate::between::Between;
use crate::keep::Keep;
use crate::stop::Stop;
use crate::taken::Taken;
use engine::Entry;
use mirror_devices::Arrival;
use mirror_statements::Commit;
use model::Lsn;
use snapshot::{Reader, Watch, give_behind};
use std::alloc::Global;
use std::sync::Wait;
use std::thread;
use std::time::{Clock, Duration};
use table_locks::StoreNames;

/// How many milliseconds it sleeps where nothing is committed, and what is done between two transactions is
/// due soon.
const SOON: u64 = 50;

/// Hands a run's commits to where they are kept, and tells how far that has come.
#[derive(Drop)]
pub struct CommitWriter<'a, K: Keep + Drop, B: Between + Drop, H: Clock> {
    host: &'a H,
    alloc: Global,
    keep: K,
    between: B,
    /// Who is told; none once nothing is kept any more.
    arrival: Option<Arrival<'a>>,
    /// How many commits are kept at once at most.
    batch: usize,
    /// How many commits of the run were kept.
    commits: usize,
    /// The end of the last commit that was kept.
    position: Lsn,
    stop: Option<Stop>,
}

impl<'a, K: Keep + Drop, B: Between + Drop, H: Clock> CommitWriter<'a, K, B, H> {
    /// Of a run that has no commit yet. What is kept is at this position, and so many commits are kept at
    /// once at most.
    pub fn new(
        host: &'a H,
        alloc: Global,
        keep: K,
        between: B,
        arrival: Arrival<'a>,
        position: Lsn,
        batch: usize,
    ) -> CommitWriter<'a, K, B, H>
        ensures keep { K.has_kept result.keep [] }
        ensures commits { result.commits ≡ 0 }
    {
        let mut keep = keep;
        keep.begin();
        CommitWriter {
            host,
            alloc,
            keep,
            between,
            arrival: Some(arrival),
            batch,
            commits: 0,
            position,
            stop: None,
        }
    }

    /// Where the commits are kept and what is done between, the end of the last one, and why they are kept
    /// no further, if they are not.
    pub fn into_parts(self) -> (K, B, Lsn, Option<Stop>)
        ensures keep { result.0 ≡ self.entry.keep }
        ensures stop { result.3 ≡ self.entry.stop }
    {
        let CommitWriter {
            keep,
            between,
            position,
            stop,
            ..
        } = self;
        (keep, between, position, stop)
    }

    /// Hands on what of a run's commits was not yet, once the run has ended: these are all of them, and a
    /// reader of the run has seen the first so many.
    pub fn finish<R: Wait>(&mut self, rt: &R, journal: &[Entry])
        requires { ∥ ((s : Sight) × (self.old.stop ≡ None → IsUpTo K.has_kept self.old.keep self.old.commits s) × Begins (map entry_of (commits_seen s)) (map entry_in journal.now)) ∥₁ }
        ensures { self.new.stop ≡ None → ∥ K.has_kept self.new.keep (map entry_in journal.now) ∥₁ }
    {
        if self.stop.is_none() {
            match self.write_rest(rt, journal) {
                Ok(()) => {}
                Err(stop) => self.stop_by(stop),
            }
        }
    }

    // Nothing is kept any more.
    fn stop_by(&mut self, stop: Stop)
        ensures { self.new.stop ≡ Some stop }
    {
        self.stop = Some(stop);
        self.arrival = None;
    }

    // Writes what of a run's commits was not yet.
    fn write_rest<R: Wait>(&mut self, rt: &R, journal: &[Entry]) -> Result<(), Stop>
        ensures kept { (before : List Told) → Begins before (map entry_in journal.now) → self.old.commits ≡ length before
            → K.has_kept self.old.keep before → OnOk result (K.has_kept self.new.keep (map entry_in journal.now)) }
        ensures stop { self.new.stop ≡ self.old.stop }
    {
        let mut taken = Taken::new(self.alloc);
        give_behind(journal, self.commits, &mut taken)?;
        self.write_all(rt, taken.commits.as_slice())
    }

    // Writes the commits that were not yet.
    fn catch_up<N: StoreNames, R: Wait>(
        &mut self,
        rt: &R,
        reader: &mut Reader<'_, N>,
    ) -> Result<(), Stop>
        ensures kept { IsUpTo K.has_kept self.old.keep self.old.commits reader.old → OnOk result (IsUpTo K.has_kept self.new.keep self.new.commits reader.new) }
        ensures published { reader.new.published ≡ reader.old.published }
        ensures stop { self.new.stop ≡ self.old.stop }
    {
        let mut taken = Taken::new(self.alloc);
        reader.changes_after(rt, self.commits, &mut taken)?;
        self.write_all(rt, taken.commits.as_slice())
    }

    // Writes commits, so many at once.
    fn write_all<R: Wait>(&mut self, rt: &R, commits: &[Commit]) -> Result<(), Stop>
        ensures kept { (before : List Told) → K.has_kept self.old.keep before → OnOk result (K.has_kept self.new.keep (before ++ commits.now)) }
        ensures count { OnOk result (self.new.commits ≡ self.old.commits + length commits.now) }
        ensures stop { self.new.stop ≡ self.old.stop }
    {
        let batch = self.batch.max(1);
        let mut rest = commits;
        while !rest.is_empty() {
            let (now, later) = rest.split_at(rest.len().min(batch));
            self.write(rt, now)?;
            rest = later;
        }
        Ok(())
    }

    // Writes commits at once.
    fn write<R: Wait>(&mut self, rt: &R, commits: &[Commit]) -> Result<(), Stop>
        ensures kept { (before : List Told) → K.has_kept self.old.keep before → OnOk result (K.has_kept self.new.keep (before ++ commits.now)) }
        ensures count { OnOk result (self.new.commits ≡ self.old.commits + length commits.now) }
        ensures stop { self.new.stop ≡ self.old.stop }
    {
        let (Some(first), Some(last)) = (commits.first(), commits.last()) else {
            return Ok(());
        };
        if first.end <= self.position {
            return Err(Stop::OldCommit(first.end, self.position));
        }
        let Some(count) = self.commits.checked_add(commits.len()) else {
            return Err(Stop::OutOfMemory);
        };
        self.keep.keep(commits, last.end)?;
        self.commits = count;
        self.position = last.end;
        if let Some(arrival) = &mut self.arrival {
            arrival.reach(rt, last.end);
        }
        self.between.pass(self.position);
        Ok(())
    }
}

impl<K: Keep + Drop, B: Between + Drop, H: Clock> Watch for CommitWriter<'_, K, B, H> {
    ghost use Rattle.std.specs.Prelude.{◌≡◌, None};
    ghost use Rattle.mirror_writer.specs.Kept.{IsUpTo};

    // Unless it stopped, all commits that its reader has seen were kept.
    ghost knows = { λ w s. w.stop ≡ None → IsUpTo K.has_kept w.keep w.commits s };

    fn turn<N: StoreNames, R: Wait>(&mut self, rt: &R, reader: &mut Reader<'_, N>) -> bool {
        if self.stop.is_some() {
            return false;
        }
        if reader.position(rt).commits == self.commits as u64 {
            if self.between.pass(self.position) {
                thread::sleep(self.host, Duration::from_millis(SOON));
            } else {
                reader.wait_past(rt, self.commits as u64);
            }
            return true;
        }
        match self.catch_up(rt, reader) {
            Ok(()) => true,
            Err(stop) => {
                self.stop_by(stop);
                false
            }
        }
    }
}
