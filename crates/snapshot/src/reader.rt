// Whoever reads the committed rows while transactions are open.
mod changes;
mod several;

ghost use Rattle.std.specs.Prelude.{◌≡◌, ◌<◌, ◌≤◌, IfOk, IfErr, OnOk, length};
ghost use Rattle.world.specs.Steps.{ReadsCommitted};
ghost use Rattle.origin.specs.Commits.{position_after};
ghost use Rattle.model.specs.Beginning.{Begins};
ghost use Rattle.snapshot.specs.declared.fault.ReadFault.TheVariants.{UnknownTable};
ghost use Rattle.snapshot.specs.Reads.{world_seen, SeesMore, ReadsTable, ReadsAt, IsRefused, IsRefusedAt};

use crate::fault::ReadFault;
use model::{Key, Lsn, Row, TableId};
use origin::{Loader, Origin, Position};
use std::alloc::Global;
use std::marker::Model;
use std::sync::Wait;
use table_locks::{Seen, Store, StoreNames};

/// Reads the committed rows of a store that others work on, and the position that was published. Each
/// read takes the locks of its tables, and then the journal's.
///
/// A clause sees what it knows (`Sight`): the tables' keys and start rows, what it has seen of the
/// store's line, and the commits that it has seen published.
#[derive(Debug, Drop)]
pub struct Reader<'a, N: StoreNames> {
    store: &'a Store<N>,
    seen: Seen,
    origin: &'a Origin,
    loader: Loader,
}

impl<'a, N: StoreNames> Model for Reader<'a, N> {
    ghost use Rattle.snapshot.specs.Reads.{Sight};

    ghost Value = { Sight };

    ghost use Rattle.snapshot.specs.SightCode.{sight_code};

    ghost coded = { sight_code };

    ghost view = { λ r. record { schema = N.schema; start = N.start; line = r.seen; published = r.loader } };

    ghost use Rattle.std.specs.Prelude.{◌≡◌};

    ghost invariant = { λ r. (r.seen.name ≡ N.line) × (r.loader.origin ≡ r.origin.now) };
}

impl<'a, N: StoreNames> Reader<'a, N> {
    /// Whoever has seen this much of a store, and of what was published.
    pub fn new(store: &'a Store<N>, seen: Seen, origin: &'a Origin, loader: Loader) -> Reader<'a, N>
        requires seen { seen.name ≡ N.line }
        requires loader { loader.origin ≡ origin.now }
        ensures { result ≡ record { schema = N.schema; start = N.start; line = seen; published = loader } }
    {
        Reader {
            store,
            seen,
            origin,
            loader,
        }
    }

    /// What it has seen, for whoever reads or compares after it.
    pub fn into_parts(self) -> (Seen, Loader)
        ensures parts { (result.0 ≡ self.entry.line) × (result.1 ≡ self.entry.published) }
        ensures whole { self.entry ≡ record { schema = N.schema; start = N.start; line = result.0; published = result.1 } }
        ensures name { result.0.name ≡ N.line }
    {
        let Reader { seen, loader, .. } = self;
        (seen, loader)
    }

    /// The committed row of a table at a key, as a copy.
    pub fn get<R: Wait>(
        &mut self,
        rt: &R,
        table: TableId,
        key: &Key,
    ) -> Result<Option<Row>, ReadFault>
        ensures known { OnOk result (table < length self.old.schema) }
        ensures row { ReadsCommitted (world_seen self.new) (table, key.now) result }
        ensures refused { IfErr result (λ fault. IsRefused self.old self.new table fault) }
        ensures seen { OnOk result (SeesMore self.old self.new) }
        ensures published { self.new.published ≡ self.old.published }
    {
        check_table(table, self.store.table_count())?;
        Ok(self.store.get(rt, &mut self.seen, table, key)?)
    }

    /// The committed rows of a table in key order, as copies. It costs one walk of the table, and one of
    /// what open transactions did there, under the table's lock.
    pub fn rows<R: Wait>(
        &mut self,
        rt: &R,
        alloc: Global,
        table: TableId,
    ) -> Result<Vec<Row>, ReadFault>
        ensures rows { IfOk result (λ rows. ReadsTable self.new table rows.items) }
        ensures seen { OnOk result (SeesMore self.old self.new) }
        ensures known { OnOk result (table < length self.old.schema) }
        ensures refused { IfErr result (λ fault. IsRefused self.old self.new table fault) }
        ensures published { self.new.published ≡ self.old.published }
    {
        check_table(table, self.store.table_count())?;
        Ok(self.store.rows(rt, alloc, &mut self.seen, table)?)
    }

    /// The rows of a table after the commits up to the one that ends at this position, in key order, as
    /// copies; at position 0 those before the first commit. What stood before the table's later commits
    /// takes the place of what they changed: beside what `rows` costs it is their changes, under the
    /// table's lock, and in memory each key that they changed; under the journal's the entries behind the
    /// position are counted.
    pub fn rows_at<R: Wait>(
        &mut self,
        rt: &R,
        alloc: Global,
        table: TableId,
        position: Lsn,
    ) -> Result<Vec<Row>, ReadFault>
        ensures rows { IfOk result (λ rows. ReadsAt self.new table position rows.items) }
        ensures seen { OnOk result (SeesMore self.old self.new) }
        ensures known { OnOk result (table < length self.old.schema) }
        ensures refused { IfErr result (λ fault. IsRefusedAt self.old self.new table position fault) }
        ensures published { self.new.published ≡ self.old.published }
    {
        check_table(table, self.store.table_count())?;
        let found = self
            .store
            .rows_at(rt, alloc, &mut self.seen, table, position)?;
        found.ok_or(ReadFault::PositionUnknown)
    }

    /// The position that was published last: how many commits, and where the last of them ends; and,
    /// before the first, the transaction that is to be skipped. It takes no lock of the store.
    pub fn position<R: Wait>(&mut self, rt: &R) -> Position
        ensures position { result ≡ position_after self.new.published.skip self.new.published.ends }
        ensures skip { self.new.published.skip ≡ self.old.published.skip }
        ensures origin { self.new.published.origin ≡ self.old.published.origin }
        ensures later { Begins self.old.published.ends self.new.published.ends }
        ensures beside { self.new ≡ record self.old { published = self.new.published } }
    {
        self.origin.load(rt, &mut self.loader)
    }

    /// The position once it has more commits than these, or, where the run ends before, the last one of
    /// it. Nothing is looked at meanwhile: a commit or the end wakes whoever waits.
    pub fn wait_past<R: Wait>(&mut self, rt: &R, commits: u64) -> Position
        ensures position { result ≡ position_after self.new.published.skip self.new.published.ends }
        ensures skip { self.new.published.skip ≡ self.old.published.skip }
        ensures origin { self.new.published.origin ≡ self.old.published.origin }
        ensures later { Begins self.old.published.ends self.new.published.ends }
        ensures beside { self.new ≡ record self.old { published = self.new.published } }
    {
        self.origin.wait_past(rt, &mut self.loader, commits)
    }
}

// The table is one of so many.
pub(crate) fn check_table(table: TableId, tables: usize) -> Result<(), ReadFault>
    ensures known { OnOk result (table < tables) }
    ensures unknown { IfErr result (λ fault. (fault ≡ UnknownTable) × (tables ≤ table)) }
{
    if table >= tables {
        return Err(ReadFault::UnknownTable);
    }
    Ok(())
}
