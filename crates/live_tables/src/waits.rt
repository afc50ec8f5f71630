// Who waits for whom, by the live tables and the cells that are held. All is read in place, and it
// takes no memory.
ghost use Rattle.std.specs.Prelude.{◌≡◌, ◌≢◌, ◌↔◌, ◌∷◌, ◌-◌, ◌^◌, [], ℕ, true, false, Some, None, IfOk, IfSome, IfNone, IsTrue, All, is_some, length, min};
ghost use Rattle.std.specs.Ordering.{nat_cmp};
ghost use Rattle.std.specs.BTreeMap as tree;
ghost use Rattle.std.specs.FinMap as finite;
ghost use Rattle.model.specs.declared.change.Change.{Change as AnyChange};
ghost use Rattle.model.specs.declared.cell.Cell.TheVariants.{Row as RowCell};
ghost use Rattle.std.specs.List.{list_any};
ghost use Rattle.model.specs.Named.{NamesTables};
ghost use Rattle.model.specs.Survivors.{is_of, survivors};
ghost use Rattle.model.specs.Footprint.{looked_up, footprint, shares_cell};
ghost use Rattle.world.specs.World.{Opened, World};
ghost use Rattle.world.specs.Settled.{WaitsFor};
ghost use Rattle.world.specs.Steps.{StopsHeld};
ghost use Rattle.keyholds.specs.Holds.{cells_held, IsFreeCell};
ghost use Rattle.live_tables.specs.Answers.{after_stop};
ghost use Rattle.live_tables.specs.Represents.{Represents};
ghost use Rattle.live_tables.specs.ByHolds.{RepresentsByHolds};
ghost use Rattle.live_tables.specs.Waits.{IsOneHeldBy, IsSettledLive, IsUnsettledLive, IsSentCount};
ghost use Rattle.live_tables.specs.StopLemmas.{IsSettledAt, WantsFrom, WantsFromNobody};

use crate::before_image::BeforeImage;
use crate::live_tables::Live;
use crate::transaction::OpenTransaction;
use change::{CellRef, CellTest, any_cell};
use keyholds::{Holds, SoughtCell, SoughtRow};
use model::{Cell, Change, Key, OutOfMemory, TableId, Xid};
use std::cmp::Ordering;

/// A cell that is read in place, as the holds are asked for it.
#[derive(Clone, Copy)]
struct Sought<'a>(CellRef<'a>);

impl<'a> SoughtCell for Sought<'a> {
    ghost use Rattle.change.specs.Reading.{cell_read};

    ghost cell = { λ s. cell_read s.0 };

    fn table(&self) -> TableId {
        self.0.table()
    }

    fn compare(&self, other: &Cell) -> Ordering {
        self.0.order(other)
    }

    fn hash(&self) -> u64 {
        self.0.hash()
    }
}

/// A test of cells: whether this transaction holds one that overlaps.
#[derive(Clone, Copy)]
struct HeldBy<'a> {
    holds: &'a Holds<BeforeImage>,
    holder: Xid,
}

impl<'a> CellTest for HeldBy<'a> {
    ghost use Rattle.std.specs.List.{list_any};
    ghost use Rattle.model.specs.Cells.{overlaps};
    ghost use Rattle.keyholds.specs.Holds.{cells_held};

    ghost passes = { λ t cell. list_any (overlaps cell) (cells_held t.holds.now t.holder) };

    fn test(&self, cell: CellRef<'_>) -> bool {
        self.holds.overlaps_one(self.holder, &Sought(cell))
    }
}

impl Live {
    /// Whom a transaction waits for, where no more can come of what was sent.
    pub(crate) fn find_stuck(&self, waiter: Xid, sent: &[(Xid, u64)]) -> Option<Xid>
        requires tied { (w : World) × RepresentsByHolds w self.now }
        ensures { (w : World) → RepresentsByHolds w self.now → StopsHeld self.now.tables.schema w sent.now waiter result (after_stop w waiter result) }
    {
        let Some(transaction) = self.transactions.get(&waiter) else {
            return None;
        };
        if !self.is_settled(sent) {
            return None;
        }
        self.find_holder(waiter, &transaction.wants)
    }

    /// Whom an open transaction waits for: another, which holds a cell of the change that it wants. It
    /// takes no memory.
    pub fn holder_of(&self, xid: Xid) -> Option<Xid>
        requires tied { (w : World) × Represents w self.now }
        ensures held { IfSome result (λ holder. (w : World) (o : Opened) → Represents w self.now → finite.get w.opened xid ≡ Some o
            → WaitsFor self.now.tables.schema w xid o holder) }
        ensures free { result ≡ None → (w : World) (o : Opened) → Represents w self.now → finite.get w.opened xid ≡ Some o → (holder : ℕ)
            → ¬ (WaitsFor self.now.tables.schema w xid o holder) }
    {
        if self.made {
            return self.holder_by_holds(xid);
        }
        None
    }

    // The same, where holds are made.
    fn holder_by_holds(&self, xid: Xid) -> Option<Xid>
        requires tied { (w : World) × RepresentsByHolds w self.now }
        ensures held { IfSome result (λ holder. (w : World) (o : Opened) → RepresentsByHolds w self.now → finite.get w.opened xid ≡ Some o
            → WaitsFor self.now.tables.schema w xid o holder) }
        ensures free { result ≡ None → (w : World) (o : Opened) → RepresentsByHolds w self.now → finite.get w.opened xid ≡ Some o → (holder : ℕ)
            → ¬ (WaitsFor self.now.tables.schema w xid o holder) }
    {
        let Some(transaction) = self.transactions.get(&xid) else {
            return None;
        };
        self.find_holder(xid, &transaction.wants)
    }

    /// How many items an open transaction has done, rollbacks among them. Past the last number of a
    /// u64 the count stays there. Of one that isn't open it is 0. It takes no memory.
    pub fn done_by(&self, xid: Xid) -> u64
        ensures { (w : World) (o : Opened) → Represents w self.now → finite.get w.opened xid ≡ Some o → result ≡ min (length o.items) (2 ^ 64 - 1) }
    {
        match self.transactions.get(&xid) {
            Some(transaction) => transaction.done,
            None => 0,
        }
    }

    /// Whether an open transaction waits with a change, or has one that clashed.
    pub fn wants(&self, xid: Xid) -> bool
        ensures { (w : World) (o : Opened) → Represents w self.now → finite.get w.opened xid ≡ Some o → result ≡ is_some o.wants }
    {
        match self.transactions.get(&xid) {
            Some(transaction) => transaction.wants.is_some(),
            None => false,
        }
    }

    /// Whether an item of an open transaction that no rollback has dropped names a subtransaction.
    pub fn knows(&self, xid: Xid, sub: Xid) -> bool
        ensures { sub ≢ xid → (w : World) (o : Opened) → Represents w self.now → finite.get w.opened xid ≡ Some o
            → result ≡ list_any (is_of sub) (survivors xid o.items) }
    {
        match self.transactions.get(&xid) {
            Some(transaction) => transaction.record.mark_of(sub).is_some(),
            None => false,
        }
    }

    /// The change that an open transaction waits with, or that clashed, and its subtransaction, as copies.
    pub fn wanted(&self, xid: Xid) -> Result<Option<(Xid, Change)>, OutOfMemory>
        ensures wants { IfOk result (λ wants. (w : World) (o : Opened) → Represents w self.now → finite.get w.opened xid ≡ Some o → wants ≡ o.wants) }
        ensures named { IfOk result (λ wants. (w : World) (o : Opened) → Represents w self.now → finite.get w.opened xid ≡ Some o
            → IfSome wants (λ (p : ℕ × AnyChange). NamesTables (length self.now.tables.schema) p.1)) }
    {
        match self.transactions.get(&xid) {
            Some(transaction) => copy_wanted(&transaction.wants),
            None => Ok(None),
        }
    }

    // Whether each open transaction has done as many items as were sent to it, or waits.
    fn is_settled(&self, sent: &[(Xid, u64)]) -> bool
        requires tied { (w : World) × RepresentsByHolds w self.now }
        ensures settled { result ≡ true → (w : World) → RepresentsByHolds w self.now
            → IsSettledLive self.now.tables.schema self.now.tables.rows (cells_held self.now.holds) w sent.now }
        ensures unsettled { result ≡ false → (w : World) → RepresentsByHolds w self.now
            → IsUnsettledLive self.now.tables.schema self.now.tables.rows (cells_held self.now.holds) w sent.now }
    {
        for (xid, transaction) in &self.transactions {
            if !self.is_settled_at(sent, *xid, transaction) {
                return false;
            }
        }
        true
    }

    // Whether one has, or waits. The counts are compared first.
    fn is_settled_at(&self, sent: &[(Xid, u64)], xid: Xid, transaction: &OpenTransaction) -> bool
        requires tied { (w : World) × RepresentsByHolds w self.now }
        requires found { tree.get nat_cmp self.now.transactions xid ≡ Some transaction.now }
        ensures settled { result ≡ true → IsSettledAt self.now sent.now (xid, transaction.now) }
        ensures unsettled { result ≡ false → (w : World) → RepresentsByHolds w self.now
            → IsUnsettledLive self.now.tables.schema self.now.tables.rows (cells_held self.now.holds) w sent.now }
    {
        if is_counted(sent, xid, transaction.done) {
            return true;
        }
        self.find_holder(xid, &transaction.wants).is_some()
    }

    // Another open transaction that has a cell of the change that this one wants, if it wants one:
    // first the cell of the row that it looks up, since the others depend on that row.
    fn find_holder(&self, xid: Xid, wants: &Option<(Xid, Change)>) -> Option<Xid>
        requires tied { (w : World) × RepresentsByHolds w self.now }
        requires named { IfSome wants.now (λ (p : ℕ × AnyChange). NamesTables (length self.now.tables.schema) p.1) }
        ensures held { IfSome result (WantsFrom self.now xid wants.now) }
        ensures free { IfNone result (WantsFromNobody self.now xid wants.now) }
    {
        let Some((_, change)) = wants else {
            return None;
        };
        match row_holder(&self.holds, xid, change) {
            Some(holder) => Some(holder),
            None => self.cell_holder(xid, change),
        }
    }

    // Another open transaction that has a cell of a change.
    fn cell_holder(&self, xid: Xid, change: &Change) -> Option<Xid>
        requires tied { (w : World) × RepresentsByHolds w self.now }
        requires named { NamesTables (length self.now.tables.schema) change.now }
        ensures held { IfSome result (IsOneHeldBy (cells_held self.now.holds) xid (footprint self.now.tables.schema self.now.tables.rows change.now)) }
        ensures free { IfNone result (All (IsFreeCell (cells_held self.now.holds) xid) (footprint self.now.tables.schema self.now.tables.rows change.now)) }
    {
        for holder in self.transactions.keys() {
            if *holder != xid && self.has_cell_of(*holder, change) {
                return Some(*holder);
            }
        }
        None
    }

    // Whether a transaction holds a cell that overlaps one of a change.
    fn has_cell_of(&self, holder: Xid, change: &Change) -> bool
        requires named { NamesTables (length self.now.tables.schema) change.now }
        ensures { result ≡ shares_cell (footprint self.now.tables.schema self.now.tables.rows change.now) (cells_held self.now.holds holder) }
    {
        let test = HeldBy {
            holds: &self.holds,
            holder,
        };
        any_cell(&self.tables, change, &test)
    }
}

// A copy of a change that a transaction may wait with.
fn copy_wanted(wants: &Option<(Xid, Change)>) -> Result<Option<(Xid, Change)>, OutOfMemory>
    ensures { IfOk result (λ copy. copy ≡ wants.now) }
{
    match wants {
        Some((sub, change)) => Ok(Some((*sub, change.copy()?))),
        None => Ok(None),
    }
}

// Another transaction that has the cell of the row that a change looks up.
fn row_holder(holds: &Holds<BeforeImage>, xid: Xid, change: &Change) -> Option<Xid>
    ensures held { IfSome result (IsOneHeldBy (cells_held holds.now) xid (looked_up change.now)) }
    ensures free { IfNone result (All (IsFreeCell (cells_held holds.now) xid) (looked_up change.now)) }
{
    match change {
        Change::Put { .. } | Change::Wipe { .. } => None,
        Change::Set { table, key, .. } => place_holder(holds, xid, *table, key),
        Change::Remove { table, key } => place_holder(holds, xid, *table, key),
    }
}

// Another transaction that has a place.
fn place_holder(holds: &Holds<BeforeImage>, xid: Xid, table: TableId, key: &Key) -> Option<Xid>
    ensures held { IfSome result (IsOneHeldBy (cells_held holds.now) xid (RowCell table key.now ∷ [])) }
    ensures free { IfNone result (All (IsFreeCell (cells_held holds.now) xid) (RowCell table key.now ∷ [])) }
{
    holds.other_holder_of(xid, &SoughtRow { table, key })
}

// Whether a transaction was sent just so many items as it has done, which are fewer than the count
// goes up to.
fn is_counted(sent: &[(Xid, u64)], xid: Xid, done: u64) -> bool
    ensures { IsTrue result ↔ IsSentCount sent.now xid done }
{
    done < u64::MAX && sent.contains(&(xid, done))
}
