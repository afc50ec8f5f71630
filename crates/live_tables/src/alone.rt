// The calls of a store whose one transaction is alone and holds nothing.
ghost use Rattle.std.specs.Prelude.{◌≡◌, ◌<◌, ℕ, false, Some, None, OnOk, OnErr, length, map, unwrap_or};
ghost use Rattle.std.specs.Ordering.{nat_cmp};
ghost use Rattle.std.specs.BTreeMap as tree;
ghost use Rattle.std.specs.FinMap as finite;
ghost use Rattle.std.specs.FinMap.{get};
ghost use Rattle.model.specs.declared.item.Item.TheVariants.{Touch};
ghost use Rattle.model.specs.declared.key.Key.{Key as AnyKey};
ghost use Rattle.model.specs.Named.{NamesTables};
ghost use Rattle.change.specs.Edits.{laid_together};
ghost use Rattle.change.specs.Inverse.{edits_of};
ghost use Rattle.change.specs.Laid.{known_at};
ghost use Rattle.world.specs.World.{Opened, World};
ghost use Rattle.world.specs.Steps.{opened_with, done_with, aborted_with};
ghost use Rattle.savepoint.specs.Record.{Record};
ghost use Rattle.undo.specs.Vacated.{AreVacated};
ghost use Rattle.live_tables.specs.Merged.{or_row};
ghost use Rattle.live_tables.specs.Represents.{records_in, Represents};
ghost use Rattle.live_tables.specs.Tried.{HasTried};

use crate::answers::{Acted, EngineFault, Verdict};
use crate::live_tables::Live;
use crate::transaction::OpenTransaction;
use model::{Change, Key, OutOfMemory, Row, TableId, Xid};
use rows::RowView;
use std::alloc::Global;
use std::collections::BTreeMap;

impl Live {
    // The same as `open`, where no other is open: nothing is held from now on.
    pub(crate) fn open_alone(&mut self, alloc: Global, xid: Xid) -> Result<(), OutOfMemory>
        requires absent { tree.get nat_cmp self.old.transactions xid ≡ None }
        requires none { (w : World) → Represents w self.old → (other : ℕ) → finite.get w.opened other ≡ None }
        ensures ok { OnOk result ((w : World) → Represents w self.old → w.stopped ≡ None → Represents (opened_with w xid) self.new) }
        ensures err { OnErr result ((w : World) → Represents w self.old → Represents w self.new) }
        ensures schema { self.new.tables.schema ≡ self.old.tables.schema }
    {
        let opened = OpenTransaction::new(alloc, xid);
        self.transactions.insert(xid, opened)?;
        self.made = false;
        Ok(())
    }

    // The same as `try_change`, by the transaction itself.
    pub(crate) fn try_alone(
        &mut self,
        alloc: Global,
        xid: Xid,
        c: &Change,
    ) -> Result<Verdict, EngineFault>
        requires names { NamesTables (length self.old.tables.schema) c.now }
        requires running { self.old.stopped ≡ None }
        requires alone { self.old.made ≡ false }
        requires tied { (w : World) × (o : Opened) × Represents w self.old × (finite.get w.opened xid ≡ Some o) }
        ensures { HasTried self.old self.new xid xid c.now result }
    {
        let change = c.copy()?;
        let Some(transaction) = self.transactions.get_mut(&xid) else {
            unreachable!()
        };
        match transaction.apply(alloc, &mut self.tables, xid, change, 0) {
            Ok(true) => Ok(Verdict::Acted(Acted::Done)),
            Ok(false) => Ok(Verdict::Acted(Acted::Skipped)),
            Err(refused) => refused.verdict(),
        }
    }

    // The same as `touch`, by the transaction itself.
    pub(crate) fn touch_alone(&mut self, xid: Xid) -> Result<(), OutOfMemory>
        requires alone { self.old.made ≡ false }
        requires tied { (w : World) × (o : Opened) × Represents w self.old × (finite.get w.opened xid ≡ Some o) }
        ensures ok { OnOk result ((w : World) (o : Opened) → Represents w self.old → finite.get w.opened xid ≡ Some o
            → Represents (done_with w xid o (Touch xid)) self.new) }
        ensures err { OnErr result ((w : World) (o : Opened) → Represents w self.old → finite.get w.opened xid ≡ Some o → Represents w self.new) }
        ensures schema { self.new.tables.schema ≡ self.old.tables.schema }
    {
        let Some(transaction) = self.transactions.get_mut(&xid) else {
            unreachable!()
        };
        transaction.touch(xid, 0)
    }

    // The same as `abort`: the undo itself gives up what it would leave.
    pub(crate) fn abort_alone(&mut self, xid: Xid)
        requires alone { self.old.made ≡ false }
        requires tied { (w : World) × (o : Opened) × Represents w self.old × (finite.get w.opened xid ≡ Some o) }
        ensures tied { (w : World) (o : Opened) → Represents w self.old → finite.get w.opened xid ≡ Some o
            → Represents (aborted_with w xid) self.new }
        ensures vacated { (r : Record) → records_in self.old.transactions xid ≡ Some r
            → AreVacated self.old.tables.schema self.old.tables.rows self.new.tables.rows self.new.tables.room r.log.inverses }
        ensures schema { self.new.tables.schema ≡ self.old.tables.schema }
    {
        let Some(transaction) = self.transactions.remove(&xid) else {
            unreachable!()
        };
        transaction.record.undo_and_settle(&mut self.tables);
    }

    // The same as `committed`: what stood there before the work of the one open transaction, if it altered
    // the place, or else the live row.
    pub(crate) fn committed_alone(&self, table: TableId, key: &Key) -> Option<RowView<'_>>
        requires alone { self.now.made ≡ false }
        requires tied { (w : World) × Represents w self.now }
        requires known { table < length self.now.tables.schema }
        ensures { (w : World) → Represents w self.now → result ≡ finite.get w.committed (table, key.now) }
    {
        match self.transactions.first_key_value() {
            Some((_, transaction)) => self.row_before(transaction, table, key),
            None => self.tables.get(table, key),
        }
    }

    // What stood at a place before the work of the one open transaction.
    fn row_before<'a>(
        &'a self,
        transaction: &'a OpenTransaction,
        table: TableId,
        key: &Key,
    ) -> Option<RowView<'a>>
        requires { table < length self.now.tables.schema }
        ensures { result ≡ unwrap_or (get (laid_together (map edits_of transaction.now.record.log.inverses)) (table, key.now)) (get self.now.tables.rows (table, key.now)) }
    {
        match transaction.record.edit_at(table, key) {
            Some(edit) => edit,
            None => self.tables.get(table, key),
        }
    }

    // Adds what stood in a table before the work of the one open transaction.
    pub(crate) fn lay_alone(
        &self,
        table: TableId,
        known: &mut BTreeMap<Key, Option<Row>>,
    ) -> Result<(), OutOfMemory>
        requires alone { self.now.made ≡ false }
        requires tied { (w : World) × Represents w self.now }
        ensures { OnOk result ((w : World) → Represents w self.now → (key : AnyKey)
            → or_row (known_at known.new key) (get self.now.tables.rows (table, key)) ≡ or_row (known_at known.old key) (get w.committed (table, key))) }
    {
        match self.transactions.first_key_value() {
            Some((_, transaction)) => transaction.record.lay_under(table, known),
            None => Ok(()),
        }
    }
}
