// The calls of a store whose holds are made.
ghost use Rattle.std.specs.Prelude.{◌≡◌, ◌<◌, ℕ, None, Ok, IsSome, OnOk, OnErr, length, slice_get};
ghost use Rattle.std.specs.Ordering.{nat_cmp};
ghost use Rattle.std.specs.Result.{result_ok};
ghost use Rattle.std.specs.BTreeMap as tree;
ghost use Rattle.std.specs.FinMap as finite;
ghost use Rattle.model.specs.declared.item.Item.TheVariants.{Touch};
ghost use Rattle.model.specs.Named.{NamesTables};
ghost use Rattle.model.specs.Footprint.{footprint};
ghost use Rattle.world.specs.World.{Opened, World};
ghost use Rattle.world.specs.Steps.{StopsHeld, Acts, Held as WasHeld, opened_with, done_with, wanting, aborted_with};
ghost use Rattle.change.specs.declared.inverse.Inverse.{Inverse};
ghost use Rattle.change.specs.Inverse.{row_by_inverse};
ghost use Rattle.keyholds.specs.Holds.{cells_held};
ghost use Rattle.savepoint.specs.Record.{Record};
ghost use Rattle.live_tables.specs.Cells.{IsFreeOf, IsHeldIn};
ghost use Rattle.live_tables.specs.Released.{AreReleased};
ghost use Rattle.live_tables.specs.Answers.{after_stop};
ghost use Rattle.live_tables.specs.Represents.{records_in};
ghost use Rattle.live_tables.specs.ByHolds.{RepresentsByHolds};
ghost use Rattle.live_tables.specs.Tried.{HasTriedBy};
ghost use Rattle.live_tables.specs.declared.transaction.OpenTransaction.{OpenTransaction};

use crate::answers::{Acted, EngineFault, NotSettled, Verdict};
use crate::before_image::{CommittedRow, find_committed, with_before_images};
use crate::cells::{Found, find_cells};
use crate::let_go::let_go;
use crate::live_tables::{Live, Stopped};
use crate::row_source::RowSource;
use crate::transaction::OpenTransaction;
use model::{Cell, Change, Key, OutOfMemory, Row, TableId, Xid};
use rows::RowView;
use savepoint::TxRecord;
use std::alloc::Global;

/// A change that is tried, the subtransaction that makes it, and its cells, which are free.
#[derive(Drop)]
struct Tried {
    sub: Xid,
    change: Change,
    cells: Vec<Cell>,
}

impl Live {
    // The same as `open`, beside others.
    pub(crate) fn open_beside(&mut self, alloc: Global, xid: Xid) -> Result<(), OutOfMemory>
        requires { tree.get nat_cmp self.old.transactions xid ≡ None }
        ensures ok { OnOk result ((w : World) → RepresentsByHolds w self.old → w.stopped ≡ None → RepresentsByHolds (opened_with w xid) self.new) }
        ensures err { OnErr result ((w : World) → RepresentsByHolds w self.old → RepresentsByHolds w self.new) }
        ensures schema { self.new.tables.schema ≡ self.old.tables.schema }
        ensures made { self.new.made ≡ self.old.made }
    {
        let opened = OpenTransaction::new(alloc, xid);
        self.transactions.insert(xid, opened)?;
        Ok(())
    }

    // The same as `try_change`, where the store isn't stopped.
    pub(crate) fn try_by_holds(
        &mut self,
        alloc: Global,
        xid: Xid,
        sub: Xid,
        c: &Change,
    ) -> Result<Verdict, EngineFault>
        requires names { NamesTables (length self.old.tables.schema) c.now }
        requires running { self.old.stopped ≡ None }
        requires tied { (w : World) × (o : Opened) × RepresentsByHolds w self.old × (finite.get w.opened xid ≡ Some o) }
        ensures tried { HasTriedBy RepresentsByHolds self.old self.new xid sub c.now result }
        ensures made { self.new.made ≡ self.old.made }
    {
        let change = c.copy()?;
        match find_cells(alloc, &self.tables, &self.holds, xid, c)? {
            Found::Held(holder) => {
                self.wait(xid, sub, change, holder);
                Ok(Verdict::Acted(Acted::Held(holder)))
            }
            Found::Free(cells) => self.try_on_free(alloc, xid, Tried { sub, change, cells }),
        }
    }

    // An open transaction waits with a change that another is in the way of.
    fn wait(&mut self, xid: Xid, sub: Xid, change: Change, holder: Xid)
        requires names { NamesTables (length self.old.tables.schema) change }
        requires there { IsSome (tree.get nat_cmp self.old.transactions xid) }
        requires running { self.old.stopped ≡ None }
        requires found { IsHeldIn self.old.tables.schema self.old.tables.rows (cells_held self.old.holds) xid change holder }
        ensures acts { (w : World) (o : Opened) → RepresentsByHolds w self.old → finite.get w.opened xid ≡ Some o
            → Acts self.old.tables.schema w xid o sub change (Ok (WasHeld holder)) (wanting w xid o sub change) }
        ensures tied { (w : World) (o : Opened) → RepresentsByHolds w self.old → finite.get w.opened xid ≡ Some o
            → RepresentsByHolds (wanting w xid o sub change) self.new }
        ensures schema { self.new.tables.schema ≡ self.old.tables.schema }
        ensures made { self.new.made ≡ self.old.made }
    {
        let _ = holder;
        let Some(transaction) = self.transactions.get_mut(&xid) else {
            unreachable!()
        };
        transaction.wants = Some((sub, change));
    }

    // Tries a change that nobody is in the way of.
    fn try_on_free(&mut self, alloc: Global, xid: Xid, tried: Tried) -> Result<Verdict, EngineFault>
        requires names { NamesTables (length self.old.tables.schema) tried.change }
        requires tied { (w : World) × (o : Opened) × RepresentsByHolds w self.old × (finite.get w.opened xid ≡ Some o) }
        requires there { IsSome (tree.get nat_cmp self.old.transactions xid) }
        requires running { self.old.stopped ≡ None }
        requires free { IsFreeOf self.old.tables.schema self.old.tables.rows (cells_held self.old.holds) xid tried.change }
        requires cells { tried.cells.items ≡ footprint self.old.tables.schema self.old.tables.rows tried.change }
        ensures tried { HasTriedBy RepresentsByHolds self.old self.new xid tried.sub tried.change result }
        ensures made { self.new.made ≡ self.old.made }
    {
        let Tried { sub, change, cells } = tried;
        let count = self.inverse_count(xid);
        let cells = with_before_images(
            alloc,
            RowSource::Live(&self.tables),
            &self.holds,
            count,
            cells,
        )?;
        let mark = self.holds.mark(xid);
        self.holds.take(xid, cells)?;
        let Some(transaction) = self.transactions.get_mut(&xid) else {
            unreachable!()
        };
        match transaction.apply(alloc, &mut self.tables, sub, change, mark) {
            Ok(true) => Ok(Verdict::Acted(Acted::Done)),
            Ok(false) => Ok(Verdict::Acted(Acted::Skipped)),
            Err(refused) => {
                self.holds.release_since(xid, mark);
                refused.verdict()
            }
        }
    }

    // How many inverses an open transaction has.
    fn inverse_count(&self, xid: Xid) -> usize
        ensures { (kept : OpenTransaction) → tree.get nat_cmp self.now.transactions xid ≡ Some kept → result ≡ length kept.record.log.inverses }
    {
        match self.transactions.get(&xid) {
            Some(transaction) => transaction.record.inverse_count(),
            None => 0,
        }
    }

    // The same as `touch`.
    pub(crate) fn touch_by_holds(&mut self, xid: Xid, sub: Xid) -> Result<(), OutOfMemory>
        requires { (w : World) × (o : Opened) × RepresentsByHolds w self.old × (finite.get w.opened xid ≡ Some o) }
        ensures ok { OnOk result ((w : World) (o : Opened) → RepresentsByHolds w self.old → finite.get w.opened xid ≡ Some o
            → RepresentsByHolds (done_with w xid o (Touch sub)) self.new) }
        ensures err { OnErr result ((w : World) (o : Opened) → RepresentsByHolds w self.old → finite.get w.opened xid ≡ Some o → RepresentsByHolds w self.new) }
        ensures schema { self.new.tables.schema ≡ self.old.tables.schema }
        ensures made { self.new.made ≡ self.old.made }
    {
        let mark = self.holds.mark(xid);
        let Some(transaction) = self.transactions.get_mut(&xid) else {
            unreachable!()
        };
        transaction.touch(sub, mark)
    }

    // The same as `abort`: the cells that the transaction held are given up where no row fills them.
    pub(crate) fn abort_by_holds(&mut self, xid: Xid)
        requires { (w : World) × (o : Opened) × RepresentsByHolds w self.old × (finite.get w.opened xid ≡ Some o) }
        ensures tied { (w : World) (o : Opened) → RepresentsByHolds w self.old → finite.get w.opened xid ≡ Some o
            → RepresentsByHolds (aborted_with w xid) self.new }
        ensures released { AreReleased 0 (cells_held self.old.holds xid) self.new.tables }
        ensures schema { self.new.tables.schema ≡ self.old.tables.schema }
        ensures made { self.new.made ≡ self.old.made }
    {
        let Some(transaction) = self.transactions.remove(&xid) else {
            unreachable!()
        };
        transaction.record.undo_all(&mut self.tables);
        let_go(&mut self.tables, &mut self.holds, xid, 0);
        self.holds.release_all(xid);
    }

    // The same as `stop_held`.
    pub(crate) fn stop_by_holds(
        &mut self,
        waiter: Xid,
        sent: &[(Xid, u64)],
    ) -> Result<Xid, NotSettled>
        requires tied { (w : World) × RepresentsByHolds w self.old }
        ensures stops { (w : World) → RepresentsByHolds w self.old
            → StopsHeld self.old.tables.schema w sent.now waiter (result_ok result) (after_stop w waiter (result_ok result)) }
        ensures tied { (w : World) → RepresentsByHolds w self.old → RepresentsByHolds (after_stop w waiter (result_ok result)) self.new }
        ensures schema { self.new.tables.schema ≡ self.old.tables.schema }
        ensures made { self.new.made ≡ self.old.made }
    {
        let Some(holder) = self.find_stuck(waiter, sent) else {
            return Err(NotSettled);
        };
        self.stopped = Some(Stopped::Held { waiter, holder });
        Ok(holder)
    }

    // The same as `committed`: no log is searched.
    pub(crate) fn committed_by_holds(&self, table: TableId, key: &Key) -> Option<RowView<'_>>
        requires tied { (w : World) × RepresentsByHolds w self.now }
        requires known { table < length self.now.tables.schema }
        ensures { (w : World) → RepresentsByHolds w self.now → result ≡ finite.get w.committed (table, key.now) }
    {
        match find_committed(&self.holds, table, key) {
            CommittedRow::Beside(row) => view_of(row),
            CommittedRow::Emptied { xid, count } => self.emptied_row(xid, count, table, key),
            CommittedRow::Live => self.tables.get(table, key),
        }
    }

    // The row that the inverse with this number of an open transaction keeps for a place.
    fn emptied_row(&self, xid: Xid, count: usize, table: TableId, key: &Key) -> Option<RowView<'_>>
        ensures { (r : Record) (i : Inverse) → records_in self.now.transactions xid ≡ Some r → slice_get r.log.inverses count ≡ Some i
            → result ≡ row_by_inverse i (table, key.now) }
    {
        let transaction = self.transactions.get(&xid)?;
        let inverse = transaction.record.inverse_at(count)?;
        inverse.row_at(table, key)
    }
}

// A row, or none, as it is read.
fn view_of(row: &Option<Row>) -> Option<RowView<'_>>
    ensures { result ≡ row.now }
{
    match row {
        Some(row) => Some(RowView::of_row(row)),
        None => None,
    }
}
