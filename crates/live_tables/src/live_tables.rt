// The live tables, with what all open transactions did in them.
ghost use Rattle.std.specs.Prelude.{◌≡◌, ◌<◌, ℕ, List, true, false, Some, None, IsSome, OnOk, OnErr, length, map};
ghost use Rattle.std.specs.Ordering.{nat_cmp};
ghost use Rattle.std.specs.Result.{result_ok};
ghost use Rattle.std.specs.BTreeMap as tree;
ghost use Rattle.std.specs.FinMap as finite;
ghost use Rattle.model.specs.declared.item.CommitInfo.{CommitInfo};
ghost use Rattle.model.specs.declared.item.Item.TheVariants.{Touch, BackTo};
ghost use Rattle.model.specs.Named.{NamesTables};
ghost use Rattle.model.specs.Survivors.{survivors};
ghost use Rattle.model.specs.Effect.{all_back, serial};
ghost use Rattle.world.specs.World.{Opened, World, starting, work};
ghost use Rattle.world.specs.Live.{IsListing, live_rows};
ghost use Rattle.world.specs.Steps.{StopsHeld, opened_with, done_with, wanting, committed_with, aborted_with};
ghost use Rattle.change.specs.Inverse.{edits_of};
ghost use Rattle.keyholds.specs.Holds.{cells_held};
ghost use Rattle.savepoint.specs.declared.mark.Mark.{Mark};
ghost use Rattle.savepoint.specs.Adopted.{CanAdopt};
ghost use Rattle.savepoint.specs.Savepoints.{mark_at};
ghost use Rattle.savepoint.specs.Record.{Record};
ghost use Rattle.undo.specs.Undo.{AreSettled};
ghost use Rattle.undo.specs.Vacated.{AreVacated};
ghost use Rattle.live_tables.specs.Released.{AreReleased};
ghost use Rattle.live_tables.specs.Answers.{cause_of, after_stop};
ghost use Rattle.live_tables.specs.Adopting.{adopted_with};
ghost use Rattle.live_tables.specs.Represents.{records_in, Represents};
ghost use Rattle.live_tables.specs.Tried.{HasTried, HasStopped, HasActed};

use crate::answers::{Acted, EngineFault, NotSettled, Verdict};
use crate::before_image::BeforeImage;
use crate::let_go::let_go;
use crate::transaction::OpenTransaction;
use change::Clash;
use indexes::Tables;
use keyholds::Holds;
use model::{Change, Item, Key, OutOfMemory, TableId, Xid};
use rows::RowView;
use std::alloc::Global;
use std::collections::BTreeMap;
use undo::UndoLog;

/// What stopped a store, with the change that clashed.
#[derive(Debug, Drop)]
pub enum Stopped {
    Clash {
        xid: Xid,
        change: Change,
        clash: Clash,
    },
    Held {
        waiter: Xid,
        holder: Xid,
    },
}

/// The live tables, what each open transaction did in them and holds, and what stopped them.
///
/// A transaction that is alone holds nothing: nobody is there who could meet it. What it would hold is
/// made once a second opens, or at its first savepoint, and is kept from then on until none is open.
///
/// Each call is said in the words of every world that they stand for.
#[derive(Debug, Drop)]
pub struct Live {
    pub tables: Tables,
    pub holds: Holds<BeforeImage>,
    /// Whether holds are made. Until then at most one transaction is open, and it holds nothing.
    pub made: bool,
    pub transactions: BTreeMap<Xid, OpenTransaction>,
    pub stopped: Option<Stopped>,
}

impl Live {
    /// These tables, with no transaction open.
    pub fn new(alloc: Global, tables: Tables) -> Live
        ensures tied { Represents (starting tables.rows) result }
        ensures tables { result.tables ≡ tables }
    {
        tables.recall_invariant();
        Live {
            tables,
            holds: Holds::new(alloc),
            made: true,
            transactions: BTreeMap::new(alloc),
            stopped: None,
        }
    }

    /// A transaction opens that isn't open. What one holds that was alone until then is made first. Refused
    /// for memory, it is the same world that the store stands for.
    pub fn open(&mut self, alloc: Global, xid: Xid) -> Result<(), OutOfMemory>
        requires absent { tree.get nat_cmp self.old.transactions xid ≡ None }
        requires tied { (w : World) × Represents w self.old }
        ensures ok { OnOk result ((w : World) → Represents w self.old → w.stopped ≡ None → Represents (opened_with w xid) self.new) }
        ensures err { OnErr result ((w : World) → Represents w self.old → Represents w self.new) }
        ensures schema { self.new.tables.schema ≡ self.old.tables.schema }
    {
        match self.transactions.first_key_value() {
            Some((other, _)) => {
                let _ = other;
                self.make(alloc)?;
                self.open_beside(alloc, xid)
            }
            None => self.open_alone(alloc, xid),
        }
    }

    /// A subtransaction of an open transaction tries a change, which is handed back where it was not
    /// done. Held goes before any other outcome. Refused for memory, nothing changes.
    pub fn act(
        &mut self,
        alloc: Global,
        xid: Xid,
        sub: Xid,
        c: &Change,
    ) -> Result<Acted, EngineFault>
        requires names { NamesTables (length self.old.tables.schema) c.now }
        requires tied { (w : World) × (o : Opened) × Represents w self.old × (finite.get w.opened xid ≡ Some o) }
        ensures { HasActed self.old self.new xid sub c.now result }
    {
        match self.try_change(alloc, xid, sub, c)? {
            Verdict::Acted(acted) => Ok(acted),
            Verdict::Clashes(clash) => self.stop_by_clash(xid, sub, c, clash),
        }
    }

    /// The same, where a change that clashes alters nothing: it is told alone.
    pub fn try_change(
        &mut self,
        alloc: Global,
        xid: Xid,
        sub: Xid,
        c: &Change,
    ) -> Result<Verdict, EngineFault>
        requires names { NamesTables (length self.old.tables.schema) c.now }
        requires tied { (w : World) × (o : Opened) × Represents w self.old × (finite.get w.opened xid ≡ Some o) }
        ensures { HasTried self.old self.new xid sub c.now result }
    {
        if self.stopped.is_some() {
            return Err(EngineFault::Stopped);
        }
        if self.made {
            return self.try_by_holds(alloc, xid, sub, c);
        }
        if sub == xid {
            return self.try_alone(alloc, xid, c);
        }
        self.make(alloc)?;
        self.try_by_holds(alloc, xid, sub, c)
    }

    // A change of an open transaction, which clashes, stops the store, and its transaction wants it. Refused
    // for memory, nothing changes.
    fn stop_by_clash(
        &mut self,
        xid: Xid,
        sub: Xid,
        c: &Change,
        clash: Clash,
    ) -> Result<Acted, EngineFault>
        requires names { NamesTables (length self.old.tables.schema) c.now }
        requires tied { (w : World) × (o : Opened) × Represents w self.old × (finite.get w.opened xid ≡ Some o) }
        requires running { self.old.stopped ≡ None }
        requires cause { IsSome (cause_of clash) }
        ensures { HasStopped self.old self.new xid sub c.now clash result }
    {
        let change = c.copy()?;
        let stopped = Stopped::Clash {
            xid,
            change: c.copy()?,
            clash,
        };
        let Some(transaction) = self.transactions.get_mut(&xid) else {
            unreachable!()
        };
        transaction.wants = Some((sub, change));
        self.stopped = Some(stopped);
        Err(EngineFault::Clash(clash))
    }

    /// A subtransaction of an open transaction is named by an item that changes no row. Refused,
    /// nothing changes.
    pub fn touch(&mut self, alloc: Global, xid: Xid, sub: Xid) -> Result<(), OutOfMemory>
        requires { (w : World) × (o : Opened) × Represents w self.old × (finite.get w.opened xid ≡ Some o) }
        ensures ok { OnOk result ((w : World) (o : Opened) → Represents w self.old → finite.get w.opened xid ≡ Some o
            → Represents (done_with w xid o (Touch sub)) self.new) }
        ensures err { OnErr result ((w : World) (o : Opened) → Represents w self.old → finite.get w.opened xid ≡ Some o → Represents w self.new) }
        ensures schema { self.new.tables.schema ≡ self.old.tables.schema }
    {
        if self.made {
            return self.touch_by_holds(xid, sub);
        }
        if sub == xid {
            return self.touch_alone(xid);
        }
        self.make(alloc)?;
        self.touch_by_holds(xid, sub)
    }

    /// A subtransaction of an open transaction is rolled back: its changes and all later ones are
    /// undone, and the cells taken since are let go, and given up where no row fills them. It takes
    /// no memory.
    pub fn back_to(&mut self, xid: Xid, sub: Xid)
        requires { (w : World) × (o : Opened) × Represents w self.old × (finite.get w.opened xid ≡ Some o) }
        ensures tied { (w : World) (o : Opened) → Represents w self.old → finite.get w.opened xid ≡ Some o
            → Represents (done_with w xid o (BackTo sub)) self.new }
        ensures released { (r : Record) (m : Mark) → records_in self.old.transactions xid ≡ Some r → mark_at sub r.marks ≡ Some m
            → AreReleased m.held (cells_held self.old.holds xid) self.new.tables }
        ensures schema { self.new.tables.schema ≡ self.old.tables.schema }
    {
        let Some(transaction) = self.transactions.get_mut(&xid) else {
            unreachable!()
        };
        if let Some(mark) = transaction.go_back(&mut self.tables, sub) {
            let_go(&mut self.tables, &mut self.holds, xid, mark.held);
        }
    }

    /// The last item of an open transaction, a change and the only one of its subtransaction, becomes one
    /// of another, which has a savepoint or is the top transaction. It takes no memory.
    pub fn adopt(&mut self, xid: Xid, own: Xid, sub: Xid)
        requires { (w : World) × (o : Opened) × Represents w self.old × (finite.get w.opened xid ≡ Some o) × CanAdopt xid own sub o.items }
        ensures tied { (w : World) (o : Opened) → Represents w self.old → finite.get w.opened xid ≡ Some o → CanAdopt xid own sub o.items
            → Represents (adopted_with w xid o sub) self.new }
        ensures schema { self.new.tables.schema ≡ self.old.tables.schema }
    {
        let Some(transaction) = self.transactions.get_mut(&xid) else {
            unreachable!()
        };
        transaction.adopt(own, sub);
    }

    /// An open transaction of a store that isn't stopped waits with a change. It takes no memory.
    pub fn wait_with(&mut self, xid: Xid, sub: Xid, change: Change)
        requires names { NamesTables (length self.old.tables.schema) change }
        requires running { self.old.stopped ≡ None }
        requires tied { (w : World) × (o : Opened) × Represents w self.old × (finite.get w.opened xid ≡ Some o) }
        ensures tied { (w : World) (o : Opened) → Represents w self.old → finite.get w.opened xid ≡ Some o
            → Represents (wanting w xid o sub change) self.new }
        ensures schema { self.new.tables.schema ≡ self.old.tables.schema }
    {
        let Some(transaction) = self.transactions.get_mut(&xid) else {
            unreachable!()
        };
        transaction.wants = Some((sub, change));
    }

    /// An open transaction is gone, its changes undone and its cells let go, and given up where no row
    /// fills them. It takes no memory.
    pub fn abort(&mut self, xid: Xid)
        requires { (w : World) × (o : Opened) × Represents w self.old × (finite.get w.opened xid ≡ Some o) }
        ensures tied { (w : World) (o : Opened) → Represents w self.old → finite.get w.opened xid ≡ Some o
            → Represents (aborted_with w xid) self.new }
        ensures released { self.old.made ≡ true → AreReleased 0 (cells_held self.old.holds xid) self.new.tables }
        // Of one that was alone, the cells of each row that went.
        ensures vacated { (r : Record) → self.old.made ≡ false → records_in self.old.transactions xid ≡ Some r
            → AreVacated self.old.tables.schema self.old.tables.rows self.new.tables.rows self.new.tables.room r.log.inverses }
        ensures schema { self.new.tables.schema ≡ self.old.tables.schema }
    {
        if self.made {
            self.abort_by_holds(xid);
            return;
        }
        self.abort_alone(xid);
    }

    /// An open transaction is gone, its changes are committed and its cells let go. The answer is
    /// what survived of its items, and the log that tells what stood before them. It takes no memory.
    pub fn commit(&mut self, xid: Xid) -> (Vec<Item>, UndoLog)
        requires { (w : World) × (o : Opened) × Represents w self.old × (finite.get w.opened xid ≡ Some o) }
        ensures items { (w : World) (o : Opened) → Represents w self.old → finite.get w.opened xid ≡ Some o
            → result.0.items ≡ survivors xid o.items }
        ensures before { (w : World) (o : Opened) → Represents w self.old → finite.get w.opened xid ≡ Some o
            → all_back (serial self.old.tables.schema w.committed (work xid o)) (map edits_of result.1.inverses) ≡ w.committed }
        ensures tied { (w : World) (o : Opened) (info : CommitInfo) → Represents w self.old → finite.get w.opened xid ≡ Some o
            → Represents (committed_with self.old.tables.schema w xid o info) self.new }
        // The slots and entries by which its changes could be undone go, where nothing fills them.
        ensures settled { (r : Record) → records_in self.old.transactions xid ≡ Some r
            → AreSettled self.old.tables.schema self.new.tables.rows self.new.tables.room r.log.inverses }
        ensures schema { self.new.tables.schema ≡ self.old.tables.schema }
    {
        let Some(transaction) = self.transactions.remove(&xid) else {
            unreachable!()
        };
        let settled = transaction.record.settle(&mut self.tables);
        self.tables.recall_invariant();
        self.holds.release_all(xid);
        settled
    }

    /// Stops the store by a transaction that the waiter waits for, where no more can come of what was
    /// sent that would let it go: each open transaction has done as many items as are named of it, or
    /// waits. Else nothing changes. It takes no memory.
    pub fn stop_held(&mut self, waiter: Xid, sent: &[(Xid, u64)]) -> Result<Xid, NotSettled>
        requires tied { (w : World) × Represents w self.old }
        ensures stops { (w : World) → Represents w self.old
            → StopsHeld self.old.tables.schema w sent.now waiter (result_ok result) (after_stop w waiter (result_ok result)) }
        ensures tied { (w : World) → Represents w self.old → Represents (after_stop w waiter (result_ok result)) self.new }
        ensures schema { self.new.tables.schema ≡ self.old.tables.schema }
    {
        if self.made {
            return self.stop_by_holds(waiter, sent);
        }
        Err(NotSettled)
    }

    /// How many transactions are open. It takes no memory.
    pub fn open_count(&self) -> usize
        ensures { (w : World) → Represents w self.now → result ≡ finite.len w.opened }
    {
        self.transactions.len()
    }

    /// The row of a table at a key, with the work of all open transactions. It takes no memory.
    pub fn row(&self, table: TableId, key: &Key) -> Option<RowView<'_>>
        requires { table < length self.now.tables.schema }
        ensures { (w : World) (listing : List (ℕ × Opened)) → Represents w self.now → IsListing w listing
            → result ≡ finite.get (live_rows self.now.tables.schema w listing) (table, key.now) }
    {
        self.tables.get(table, key)
    }

    /// The committed row of a table at a key, by the holds; where a transaction is alone its log is
    /// searched. It takes no memory.
    pub fn committed(&self, table: TableId, key: &Key) -> Option<RowView<'_>>
        requires tied { (w : World) × Represents w self.now }
        requires known { table < length self.now.tables.schema }
        ensures { (w : World) → Represents w self.now → result ≡ finite.get w.committed (table, key.now) }
    {
        if self.made {
            return self.committed_by_holds(table, key);
        }
        self.committed_alone(table, key)
    }

    /// The tables, once no transaction is open. It takes no memory.
    pub fn into_tables(self) -> Tables
        ensures rows { (w : World) → Represents w self → w.opened ≡ finite.empty → result.rows ≡ w.committed }
        ensures schema { result.schema ≡ self.tables.schema }
    {
        self.tables
    }
}
