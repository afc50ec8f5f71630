// Committed rows are read, each time after just the commits that are seen.
ghost use Rattle.std.specs.Prelude.{◌≡◌, ◌<◌, ◌∷◌, Some, MatchOption, IfOk, IfErr, OnOk, OnErr, length, map, slice_get};
ghost use Rattle.std.specs.List.{Contains};
ghost use Rattle.std.specs.List.Sorted.{IsStrictlyIncreasing};
ghost use Rattle.model.specs.TableRows.{rows_of_table};
ghost use Rattle.world.specs.Steps.{ReadsCommitted, ReadsLive};
ghost use Rattle.world.specs.World.{World, entry_of};
ghost use Rattle.live_tables.specs.declared.answers.EngineFault.TheVariants.{OutOfMemory as NoMemory};
ghost use Rattle.engine.specs.Engine.{entry_in};
ghost use Rattle.engine.specs.Events.{commits_in, ends_in};
ghost use Rattle.world_parts.specs.Lines.{line_at, rows_until};
ghost use Rattle.table_parts.specs.Part.{Part as AnyPart};
ghost use Rattle.table_locks.specs.Journals.{IsJournal};
ghost use Rattle.table_locks.specs.Reading.{seen_world, told_world, HasState, SeesMore, positions_seen, ReadsAt};

use crate::entries::count_up_to;
use crate::journal::Journal;
use crate::names::StoreNames;
use crate::store::Store;
use crate::table_part::TablePart;
use engine::{EngineFault, Entry};
use model::{Key, Lsn, OutOfMemory, Row, TableId};
use parted_store::{Line, Seen};
use std::alloc::Global;
use std::sync::Wait;

impl<N: StoreNames> TablePart<N> {
    /// The committed row at a key, as a copy. What finds no part waits for ever, here and below.
    pub fn committed<R: Wait>(&self, rt: &R, key: &Key) -> Result<Option<Row>, EngineFault>
        requires { self.now.number < length N.schema }
        ensures reads { (w : World) → HasState w self.now → ReadsCommitted w (self.now.number, key.now) result }
        ensures fault { IfErr result (λ fault. fault ≡ NoMemory) }
    {
        self.as_part(rt).committed(key)
    }

    /// The committed rows in key order, as copies.
    pub fn committed_rows<R: Wait>(&self, rt: &R, alloc: Global) -> Result<Vec<Row>, EngineFault>
        requires { self.now.number < length N.schema }
        ensures reads { (w : World) → HasState w self.now → IfOk result (λ rows. rows.items ≡ rows_of_table w.committed self.now.number) }
        ensures fault { IfErr result (λ fault. fault ≡ NoMemory) }
    {
        self.as_part(rt).committed_rows(alloc)
    }

    /// The rows in key order after the commits up to a position, those that end there or below, as
    /// copies. It costs what `committed_rows` costs, and the changes of the table's later commits;
    /// in memory each key that they changed besides.
    pub fn rows_until<R: Wait>(
        &self,
        rt: &R,
        alloc: Global,
        position: Lsn,
    ) -> Result<Vec<Row>, EngineFault>
        requires { self.now.number < length N.schema }
        ensures reads { (w : World) → HasState w self.now → IfOk result (λ rows. rows.items ≡ rows_of_table (rows_until N.schema w position) self.now.number) }
        ensures fault { IfErr result (λ fault. fault ≡ NoMemory) }
    {
        self.as_part(rt).rows_until(alloc, position)
    }

    /// The row at a key with the work of all open transactions, as a copy.
    pub fn live<R: Wait>(&self, rt: &R, key: &Key) -> Result<Option<Row>, EngineFault>
        requires { self.now.number < length N.schema }
        ensures reads { (w : World) → HasState w self.now → ReadsLive N.schema w (self.now.number, key.now) result }
        ensures fault { IfErr result (λ fault. fault ≡ NoMemory) }
    {
        self.as_part(rt).live(key)
    }
}

impl<N: StoreNames> Journal<N> {
    /// The entries of the commits so far, in order.
    pub fn entries(&self) -> &[Entry]
        ensures { map entry_in result.now ≡ map entry_of (commits_in self.now.part.line.list) }
    {
        self.part.entries()
    }

    // How many commits there are up to the one that ends at this position; for 0 none of them.
    fn count_up_to(&self, position: Lsn) -> Option<usize>
        ensures { MatchOption result (¬ Contains (positions_seen self.now.part.line.list) position)
            (λ count. slice_get (positions_seen self.now.part.line.list) count ≡ Some position) }
    {
        count_up_to(self.entries(), position)
    }

    /// Tells a proof what its type keeps: where the log goes on behind each commit rises from one
    /// to the next. It does nothing.
    pub fn recall_invariant(&self)
        ensures kept { IsJournal N.line N.tables N.schema self.now }
        ensures rising { IsStrictlyIncreasing (0 ∷ ends_in self.now.part.line.list) }
    {
        self.part.recall_invariant();
    }

    /// Learns that the line tells all that happened to the store's transactions. Nothing changes.
    pub fn meet(&mut self, line: &mut Line)
        requires { line.old.name ≡ N.line }
        ensures met { line.old ≡ self.old.part.line }
        ensures same { self.new ≡ self.old }
        ensures line { line.new ≡ line.old }
    {
        self.part.meet(line);
    }

    /// Sees the commits as they are now.
    pub fn watch(&mut self) -> Seen
        ensures same { self.new ≡ self.old }
        ensures seen { result ≡ self.old.part.line }
        ensures name { result.name ≡ N.line }
    {
        self.part.watch()
    }

    /// Learns that what was seen is a beginning of the line, and sees all of it.
    pub fn look(&mut self, seen: &mut Seen)
        requires { seen.old.name ≡ N.line }
        ensures same { self.new ≡ self.old }
        ensures line { seen.new ≡ self.old.part.line }
        ensures seen { SeesMore N.line seen.old seen.new }
    {
        self.part.recall_invariant();
        self.part.look(seen);
    }

    /// Learns that the commits of a table's part are those of the journal in the table. So the
    /// world of the journal's commits has the part. Nothing changes.
    pub fn meet_table(&mut self, table: &mut TablePart<N>)
        ensures line { (p : AnyPart) → table.old.part ≡ Some p → line_at p.number p.store.world.line ≡ line_at p.number (commits_in self.old.part.line.list) }
        ensures has { HasState (told_world N.schema N.start self.old.part.line.list table.old) table.old }
        ensures same { self.new ≡ self.old }
        ensures table { table.new ≡ table.old }
    {
        table.recall_invariant();
        table.meet(&mut self.tables);
    }

    /// Sees all of the line, with a table's part: `meet_table` and then `look`.
    pub fn look_at(&mut self, table: &mut TablePart<N>, seen: &mut Seen)
        requires { seen.old.name ≡ N.line }
        ensures has { HasState (told_world N.schema N.start seen.new.list table.old) table.old }
        ensures same { self.new ≡ self.old }
        ensures table { table.new ≡ table.old }
        ensures line { seen.new ≡ self.old.part.line }
        ensures seen { SeesMore N.line seen.old seen.new }
    {
        self.meet_table(table);
        self.look(seen);
    }
}

impl<N: StoreNames> Store<N> {
    /// How many tables it has.
    pub fn table_count(&self) -> usize
        ensures { result ≡ length N.schema }
    {
        self.tables.len()
    }

    /// The committed row of a table at a key, as a copy. It takes the table's lock, and then the
    /// journal's. Refused for memory, nothing more is seen.
    pub fn get<R: Wait>(
        &self,
        rt: &R,
        seen: &mut Seen,
        table: TableId,
        key: &Key,
    ) -> Result<Option<Row>, OutOfMemory>
        requires known { table < length N.schema }
        requires name { seen.old.name ≡ N.line }
        ensures row { ReadsCommitted (seen_world N.schema N.start seen.new.list) (table, key.now) result }
        ensures seen { OnOk result (SeesMore N.line seen.old seen.new) }
        ensures err { OnErr result (seen.new ≡ seen.old) }
    {
        let mut part = self.lock_table(rt, table);
        let Ok(row) = part.committed(rt, key) else {
            return Err(OutOfMemory);
        };
        self.lock_journal(rt).look_at(&mut *part, seen);
        Ok(row)
    }

    /// The committed rows of a table in key order, as copies. It costs one walk of the table, and
    /// one of what open transactions did there, under the table's lock. Refused for memory, nothing
    /// more is seen.
    pub fn rows<R: Wait>(
        &self,
        rt: &R,
        alloc: Global,
        seen: &mut Seen,
        table: TableId,
    ) -> Result<Vec<Row>, OutOfMemory>
        requires known { table < length N.schema }
        requires name { seen.old.name ≡ N.line }
        ensures rows { IfOk result (λ rows. rows.items ≡ rows_of_table (seen_world N.schema N.start seen.new.list).committed table) }
        ensures seen { OnOk result (SeesMore N.line seen.old seen.new) }
        ensures err { OnErr result (seen.new ≡ seen.old) }
    {
        let mut part = self.lock_table(rt, table);
        let Ok(rows) = part.committed_rows(rt, alloc) else {
            return Err(OutOfMemory);
        };
        self.lock_journal(rt).look_at(&mut *part, seen);
        Ok(rows)
    }

    /// The rows of a table after the commits up to the one that ends at this position, in key
    /// order, as copies; at position 0 those before the first commit. None is answered where no
    /// commit ends there. What stood before the table's later commits takes the place of what they
    /// changed: beside what `rows` costs it is their changes, under the table's lock, and in memory
    /// each key that they changed; under the journal's the entries behind the position are counted.
    /// Refused for memory, nothing more is seen.
    pub fn rows_at<R: Wait>(
        &self,
        rt: &R,
        alloc: Global,
        seen: &mut Seen,
        table: TableId,
        position: Lsn,
    ) -> Result<Option<Vec<Row>>, OutOfMemory>
        requires known { table < length N.schema }
        requires name { seen.old.name ≡ N.line }
        ensures rows { IfOk result (λ found. MatchOption found (¬ Contains (positions_seen seen.new.list) position)
            (λ rows. ReadsAt N.schema N.start seen.new.list table position rows.items)) }
        ensures seen { OnOk result (SeesMore N.line seen.old seen.new) }
        ensures err { OnErr result (seen.new ≡ seen.old) }
    {
        let mut part = self.lock_table(rt, table);
        let read = part.rows_until(rt, alloc, position);
        let mut journal = self.lock_journal(rt);
        let Some(_count) = journal.count_up_to(position) else {
            journal.look(seen);
            return Ok(None);
        };
        let Ok(rows) = read else {
            return Err(OutOfMemory);
        };
        journal.look_at(&mut *part, seen);
        Ok(Some(rows))
    }
}
