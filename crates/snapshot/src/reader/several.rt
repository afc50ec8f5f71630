// The committed rows of several tables, all after the same commits.
ghost use Rattle.std.specs.Prelude.{◌≡◌, ◌<◌, ◌≤◌, ℕ, All, IfOk, IfErr, OnOk, length, map};
ghost use Rattle.std.specs.List.{Contains};
ghost use Rattle.table_locks.specs.Reading.{rows_in};
ghost use Rattle.snapshot.specs.declared.fault.ReadFault.TheVariants.{UnknownTable};
ghost use Rattle.snapshot.specs.Reads.{SeesMore, ReadsTables, IsRefusedOf};

use crate::fault::ReadFault;
use crate::reader::{Reader, check_table};
use model::{Row, TableId};
use std::alloc::Global;
use std::sync::Wait;
use table_locks::StoreNames;

impl<'a, N: StoreNames> Reader<'a, N> {
    /// The committed rows of these tables, all after the same commits: of each in key order, as copies, in the
    /// order in which the tables are named. None may be named, and one may be named twice. It costs what
    /// `rows` costs of each, in one go under the locks of all of these.
    pub fn rows_of<R: Wait>(
        &mut self,
        rt: &R,
        alloc: Global,
        tables: &[TableId],
    ) -> Result<Vec<Vec<Row>>, ReadFault>
        ensures rows { IfOk result (λ rows. ReadsTables self.new tables.now (map rows_in rows.items)) }
        ensures seen { OnOk result (SeesMore self.old self.new) }
        ensures known { OnOk result (All (λ table. table < length self.old.schema) tables.now) }
        ensures refused { IfErr result (λ fault. IsRefusedOf self.old self.new tables.now fault) }
        ensures published { self.new.published ≡ self.old.published }
    {
        check_tables(tables, self.store.table_count())?;
        Ok(self.store.rows_of(rt, alloc, &mut self.seen, tables)?)
    }
}

// Each of the tables is one of so many.
fn check_tables(tables: &[TableId], count: usize) -> Result<(), ReadFault>
    ensures known { OnOk result (All (λ table. table < count) tables.now) }
    ensures unknown { IfErr result (λ fault. (fault ≡ UnknownTable) × (table : ℕ) × Contains tables.now table × (count ≤ table)) }
{
    for table in tables {
        check_table(*table, count)?;
    }
    Ok(())
}
