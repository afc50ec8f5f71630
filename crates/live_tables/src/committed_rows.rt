// The committed rows of a table, while transactions are open: the live ones, but where open work changed
// them what stood there before.
ghost use Rattle.std.specs.Prelude.{◌≡◌, ◌<◌, ℕ, [], ◌∷◌, IfOk, OnOk, length};
ghost use Rattle.std.specs.List.{Contains};
ghost use Rattle.std.specs.FinMap.{get};
ghost use Rattle.model.specs.declared.cell.Cell.TheVariants.{Whole};
ghost use Rattle.model.specs.declared.key.Key.{Key as AnyKey};
ghost use Rattle.change.specs.Laid.{known_at};
ghost use Rattle.keyholds.specs.Holds.{cells_held};
ghost use Rattle.world.specs.World.{World};
ghost use Rattle.live_tables.specs.Merged.{AreMerged, AreLaid, or_row};
ghost use Rattle.live_tables.specs.Represents.{Represents};
ghost use Rattle.live_tables.specs.ByHolds.{RepresentsByHolds};

use crate::live_tables::Live;
use crate::merging::merge_rows;
use model::{Cell, Key, OutOfMemory, Row, TableId, Xid};
use std::alloc::Global;
use std::collections::BTreeMap;

impl Live {
    /// The committed rows of a table in key order, as copies, but at these keys what is known of them
    /// already: a row, or none. It costs one walk of the table's live rows, and one of what open
    /// transactions did in any table: where one of them emptied it, the rows that lie in its inverses.
    pub fn committed_rows(
        &self,
        alloc: Global,
        table: TableId,
        known: BTreeMap<Key, Option<Row>>,
    ) -> Result<Vec<Row>, OutOfMemory>
        requires tied { (w : World) × Represents w self.now }
        requires known { table < length self.now.tables.schema }
        ensures { IfOk result (λ rows. (w : World) → Represents w self.now → AreMerged w.committed table known rows.items) }
    {
        let mut known = known;
        self.lay_open(table, &mut known)?;
        merge_rows(alloc, &self.tables, table, known)
    }

    // Adds what is committed in a table where open work changed it.
    fn lay_open(
        &self,
        table: TableId,
        known: &mut BTreeMap<Key, Option<Row>>,
    ) -> Result<(), OutOfMemory>
        requires tied { (w : World) × Represents w self.now }
        requires known { table < length self.now.tables.schema }
        ensures { OnOk result ((w : World) → Represents w self.now → (key : AnyKey)
            → or_row (known_at known.new key) (get self.now.tables.rows (table, key)) ≡ or_row (known_at known.old key) (get w.committed (table, key))) }
    {
        if self.made {
            return self.lay_by_holds(table, known);
        }
        self.lay_alone(table, known)
    }

    // The same, where holds are made.
    fn lay_by_holds(
        &self,
        table: TableId,
        known: &mut BTreeMap<Key, Option<Row>>,
    ) -> Result<(), OutOfMemory>
        requires tied { (w : World) × RepresentsByHolds w self.now }
        requires known { table < length self.now.tables.schema }
        ensures { OnOk result ((w : World) → RepresentsByHolds w self.now → (key : AnyKey)
            → or_row (known_at known.new key) (get self.now.tables.rows (table, key)) ≡ or_row (known_at known.old key) (get w.committed (table, key))) }
    {
        match self.holds.held_at(&Cell::Whole(table)) {
            Some((xid, _)) => self.lay_log(xid, table, known),
            None => self.lay_held(table, known),
        }
    }

    // Adds what stood in a table before the work of a transaction that holds it as a whole: so nobody else
    // holds anything there.
    fn lay_log(
        &self,
        xid: Xid,
        table: TableId,
        known: &mut BTreeMap<Key, Option<Row>>,
    ) -> Result<(), OutOfMemory>
        requires tied { (w : World) × RepresentsByHolds w self.now }
        requires whole { Contains (cells_held self.now.holds xid) (Whole table) }
        ensures { OnOk result ((w : World) → RepresentsByHolds w self.now → (key : AnyKey)
            → or_row (known_at known.new key) (get self.now.tables.rows (table, key)) ≡ or_row (known_at known.old key) (get w.committed (table, key))) }
    {
        let Some(transaction) = self.transactions.get(&xid) else {
            unreachable!()
        };
        transaction.record.lay_under(table, known)
    }

    // Adds what is committed at the places of a table that are held.
    fn lay_held(
        &self,
        table: TableId,
        known: &mut BTreeMap<Key, Option<Row>>,
    ) -> Result<(), OutOfMemory>
        requires tied { (w : World) × RepresentsByHolds w self.now }
        requires known { table < length self.now.tables.schema }
        requires free { (xid : ℕ) → ¬ Contains (cells_held self.now.holds xid) (Whole table) }
        ensures { OnOk result ((w : World) → RepresentsByHolds w self.now → (key : AnyKey)
            → or_row (known_at known.new key) (get self.now.tables.rows (table, key)) ≡ or_row (known_at known.old key) (get w.committed (table, key))) }
    {
        let keys = self.holds.keys_held(table)?;
        self.lay_committed(table, keys.as_slice(), known)
    }

    // Adds what is committed at these keys of a table: a row, or none.
    fn lay_committed(
        &self,
        table: TableId,
        keys: &[Key],
        known: &mut BTreeMap<Key, Option<Row>>,
    ) -> Result<(), OutOfMemory>
        requires tied { (w : World) × RepresentsByHolds w self.now }
        requires known { table < length self.now.tables.schema }
        ensures { OnOk result ((w : World) → RepresentsByHolds w self.now → AreLaid w.committed table keys.now known.old known.new) }
    {
        for key in keys {
            self.lay_committed_at(table, key, known)?;
        }
        Ok(())
    }

    // Adds what is committed at one key.
    fn lay_committed_at(
        &self,
        table: TableId,
        key: &Key,
        known: &mut BTreeMap<Key, Option<Row>>,
    ) -> Result<(), OutOfMemory>
        requires tied { (w : World) × RepresentsByHolds w self.now }
        requires known { table < length self.now.tables.schema }
        ensures { OnOk result ((w : World) → RepresentsByHolds w self.now → AreLaid w.committed table (key.now ∷ []) known.old known.new) }
    {
        if known.contains_key(key) {
            return Ok(());
        }
        let row = match self.committed_by_holds(table, key) {
            Some(row) => Some(row.to_row()?),
            None => None,
        };
        known.insert(key.copy()?, row)?;
        Ok(())
    }
}
