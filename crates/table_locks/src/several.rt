// The committed rows of several tables, all after the same commits.
ghost use Rattle.std.specs.Prelude.{◌≡◌, ◌<◌, true, List, IfOk, IsSomeAnd, OnOk, OnErr, All, length, map};
ghost use Rattle.std.specs.List.{Contains};
ghost use Rattle.model.specs.TableRows.{rows_of_table};
ghost use Rattle.engine.specs.declared.events.LineEvent.{LineEvent as AnyEvent};
ghost use Rattle.table_locks.specs.Lending.{state_of};
ghost use Rattle.table_locks.specs.Reading.{seen_world, SeesMore, rows_in, IsLockedAt, HasGuarded, HasEach};

use crate::journal::Journal;
use crate::names::StoreNames;
use crate::store::Store;
use crate::table_part::TablePart;
use model::{OutOfMemory, Row, TableId};
use parted_store::Seen;
use std::alloc::Global;
use std::sync::{MutexGuard, Wait};

impl<N: StoreNames> Store<N> {
    /// The committed rows of these tables, all after the same commits: of each in key order, as
    /// copies, in the order in which the tables are named. None may be named, and one may be named
    /// twice. It takes the lock of each, in the catalog's order, and costs what `rows` costs of
    /// each, under all of these; then it takes the journal's. Refused for memory, nothing more is
    /// seen.
    pub fn rows_of<R: Wait>(
        &self,
        rt: &R,
        alloc: Global,
        seen: &mut Seen,
        tables: &[TableId],
    ) -> Result<Vec<Vec<Row>>, OutOfMemory>
        requires known { All (λ table. table < length N.schema) tables.now }
        requires name { seen.old.name ≡ N.line }
        ensures rows { IfOk result (λ rows. map rows_in rows.items ≡ map (rows_of_table (seen_world N.schema N.start seen.new.list).committed) tables.now) }
        ensures seen { OnOk result (SeesMore N.line seen.old seen.new) }
        ensures err { OnErr result (seen.new ≡ seen.old) }
    {
        let mut guards = self.lock_named(rt, alloc, tables)?;
        let rows = read_each(rt, alloc, guards.as_slice(), tables)?;
        self.lock_journal(rt)
            .look_at_each(guards.as_mut_slice(), seen);
        Ok(rows)
    }

    // Locks each table that is named, once, in the catalog's order: its guard lies in the place of
    // its number.
    fn lock_named<'a, R: Wait>(
        &'a self,
        rt: &R,
        alloc: Global,
        tables: &[TableId],
    ) -> Result<Vec<Option<MutexGuard<'a, TablePart<N>>>>, OutOfMemory>
        requires { All (λ table. table < length N.schema) tables.now }
        ensures { IfOk result (λ guards. (length guards.items ≡ length N.schema) × All (IsLockedAt guards.items) tables.now) }
    {
        let mut guards = Vec::new(alloc);
        for table in 0..self.tables.len() {
            guards.push(self.lock_if(rt, table, names(tables, table)))?;
        }
        Ok(guards)
    }

    // Locks a table where it is wanted.
    fn lock_if<'a, R: Wait>(
        &'a self,
        rt: &R,
        table: TableId,
        wanted: bool,
    ) -> Option<MutexGuard<'a, TablePart<N>>>
        requires { table < length N.schema }
        ensures { wanted ≡ true → IsSomeAnd (state_of result) (λ s. s.number ≡ table) }
    {
        if wanted {
            Some(self.lock_table(rt, table))
        } else {
            None
        }
    }
}

// Whether a table is named.
fn names(tables: &[TableId], table: TableId) -> bool
    ensures { Contains tables.now table → result ≡ true }
{
    tables.contains(&table)
}

// The committed rows of each of the tables, whose guards lie in their places.
fn read_each<N: StoreNames, R: Wait>(
    rt: &R,
    alloc: Global,
    guards: &[Option<MutexGuard<'_, TablePart<N>>>],
    tables: &[TableId],
) -> Result<Vec<Vec<Row>>, OutOfMemory>
    requires known { All (λ table. table < length N.schema) tables.now }
    requires places { length guards.now ≡ length N.schema }
    requires locked { All (IsLockedAt guards.now) tables.now }
    ensures { (line : List AnyEvent) → HasEach N.schema N.start line guards.now
        → IfOk result (λ rows. map rows_in rows.items ≡ map (rows_of_table (seen_world N.schema N.start line).committed) tables.now) }
{
    let mut rows = Vec::new(alloc);
    for table in tables {
        rows.push(read_one(rt, alloc, &guards[*table], *table)?)?;
    }
    Ok(rows)
}

// The committed rows of a table, by its guard.
fn read_one<N: StoreNames, R: Wait>(
    rt: &R,
    alloc: Global,
    place: &Option<MutexGuard<'_, TablePart<N>>>,
    table: TableId,
) -> Result<Vec<Row>, OutOfMemory>
    requires known { table < length N.schema }
    requires locked { IsSomeAnd (state_of place.now) (λ s. s.number ≡ table) }
    ensures { (line : List AnyEvent) → HasGuarded N.schema N.start line (state_of place.now)
        → IfOk result (λ rows. rows.items ≡ rows_of_table (seen_world N.schema N.start line).committed table) }
{
    let Some(guard) = place else { unreachable!() };
    let Ok(rows) = guard.committed_rows(rt, alloc) else {
        return Err(OutOfMemory);
    };
    Ok(rows)
}

impl<N: StoreNames> Journal<N> {
    // Sees all of the line, with the parts under the locks of these guards.
    fn look_at_each(&mut self, guards: &mut [Option<MutexGuard<'_, TablePart<N>>>], seen: &mut Seen)
        requires { seen.old.name ≡ N.line }
        ensures has { HasEach N.schema N.start seen.new.list guards.old }
        ensures seen { SeesMore N.line seen.old seen.new }
    {
        self.meet_each(guards);
        self.look(seen);
    }

    // Learns that the commits of the parts under these locks are the journal's in their tables.
    fn meet_each(&mut self, guards: &mut [Option<MutexGuard<'_, TablePart<N>>>])
        ensures has { HasEach N.schema N.start self.old.part.line.list guards.old }
        ensures same { self.new ≡ self.old }
    {
        for i in 0..guards.len() {
            self.meet_place(&mut guards[i]);
        }
    }

    // Under one of them, if there is a guard.
    fn meet_place(&mut self, place: &mut Option<MutexGuard<'_, TablePart<N>>>)
        ensures has { HasGuarded N.schema N.start self.old.part.line.list (state_of place.old) }
        ensures same { self.new ≡ self.old }
    {
        if let Some(mut guard) = place.take() {
            self.meet_table(&mut *guard);
            *place = Some(guard);
        }
    }
}
