// The holds of a transaction that was alone and held nothing, made from its items and their inverses.
ghost use Rattle.std.specs.Prelude.{◌≡◌, ◌≢◌, ◌<◌, ℕ, [], true, Some, IfOk, OnOk, OnErr, IsTrue, All, length};
ghost use Rattle.std.specs.FinMap.{get};
ghost use Rattle.model.specs.Named.{NamesTables};
ghost use Rattle.model.specs.Rows.{Rows};
ghost use Rattle.model.specs.Survivors.{changes_of};
ghost use Rattle.keyholds.specs.Holds.{holds_of};
ghost use Rattle.change.specs.Footprint.{looked_row};
ghost use Rattle.undo.specs.LogOf.{IsLogOf};
ghost use Rattle.undo.specs.Next.{next_row, has_next};
ghost use Rattle.live_tables.specs.declared.row_source.RowSource.TheVariants.{Next};
ghost use Rattle.live_tables.specs.RowSource.{row_read};
ghost use Rattle.world.specs.World.{Opened, World};
ghost use Rattle.live_tables.specs.Represents.{Represents};
ghost use Rattle.live_tables.specs.ByHolds.{RepresentsByHolds};
ghost use Rattle.live_tables.specs.MadeHolds.{IsMadeOf, inverse_at, TakesNext};

use crate::before_image::{BeforeImage, with_before_images};
use crate::live_tables::Live;
use crate::row_source::RowSource;
use change::Inverse;
use change::footprint::footprint_at;
use indexes::Tables;
use keyholds::Holds;
use model::{Change, Item, OutOfMemory, Xid};
use rows::RowView;
use savepoint::TxRecord;
use std::alloc::Global;

impl Live {
    // Makes what the one open transaction holds, unless it is made. Refused for memory, nothing changes.
    pub(crate) fn make(&mut self, alloc: Global) -> Result<(), OutOfMemory>
        requires { (w : World) × (xid : ℕ) × (o : Opened) × Represents w self.old × (get w.opened xid ≡ Some o) }
        ensures ok { OnOk result ((w : World) → Represents w self.old → RepresentsByHolds w self.new) }
        ensures err { OnErr result (self.new ≡ self.old) }
        ensures made { OnOk result (self.new.made ≡ true) }
        ensures same { self.new ≡ record self.old { holds = self.new.holds; made = self.new.made } }
    {
        if self.made {
            return Ok(());
        }
        let Some((xid, transaction)) = self.transactions.first_key_value() else {
            unreachable!()
        };
        let holds = make_holds(alloc, &self.tables, &transaction.record, *xid)?;
        self.holds = holds;
        self.made = true;
        Ok(())
    }
}

/// What a transaction that is alone holds, with what stood there, made from its items and their
/// inverses.
pub(crate) fn make_holds(
    alloc: Global,
    tables: &Tables,
    record: &TxRecord,
    xid: Xid,
) -> Result<Holds<BeforeImage>, OutOfMemory>
    requires names { All (NamesTables (length tables.now.schema)) (changes_of record.now.survivors) }
    requires log { (committed : Rows) × IsLogOf tables.now.schema committed (changes_of record.now.survivors) record.now.log.inverses }
    ensures made { IfOk result (λ held. (committed : Rows) → IsLogOf tables.now.schema committed (changes_of record.now.survivors) record.now.log.inverses
        → IsMadeOf tables.now.schema committed (changes_of record.now.survivors) record.now.log.inverses (holds_of held xid)) }
    ensures alone { IfOk result (λ held. (other : ℕ) → other ≢ xid → holds_of held other ≡ []) }
{
    let mut holds = Holds::new(alloc);
    let mut count = 0;
    let items = record.survivors();
    for item in items {
        match item {
            Item::Change { change, .. } => {
                count = take_next(alloc, tables, &mut holds, record, xid, count, change)?;
            }
            Item::Touch(_) => {}
            Item::BackTo(_) => {}
            Item::Last => {}
        }
    }
    Ok(holds)
}

// The cells of a change are held too, with what stood there, by the inverse with this number. The
// answer is the number of the one after it, if it is the change's own. Refused, the cells that were
// held before it stay.
fn take_next(
    alloc: Global,
    tables: &Tables,
    holds: &mut Holds<BeforeImage>,
    record: &TxRecord,
    xid: Xid,
    count: usize,
    c: &Change,
) -> Result<usize, OutOfMemory>
    requires names { NamesTables (length tables.now.schema) c.now }
    requires alone { (other : ℕ) → other ≢ xid → holds_of holds.old other ≡ [] }
    requires within { IsTrue (has_next c.now (looked_row c.now (next_row (inverse_at record.now.log.inverses count))))
        → count < length record.now.log.inverses }
    ensures ok { IfOk result (λ n. TakesNext tables.now.schema record.now.log.inverses xid count c.now (holds_of holds.old) (holds_of holds.new) n) }
    ensures alone { (other : ℕ) → other ≢ xid → holds_of holds.new other ≡ [] }
{
    // So a proof knows that the count of inverses is a usize.
    let _total = record.inverse_count();
    let next = record.inverse_at(count);
    let old = row_looked_up(next, c);
    let is_own = has_next(c, &old);
    let cells = footprint_at(alloc, tables, c, old)?;
    let more = with_before_images(alloc, RowSource::Next(next), holds, count, cells)?;
    holds.take(xid, more)?;
    if is_own {
        return Ok(count.saturating_add(1));
    }
    Ok(count)
}

// The row at the place that a change looks up, by the inverse that comes next.
fn row_looked_up<'a>(next: Option<&'a Inverse>, c: &Change) -> Option<RowView<'a>>
    ensures { result ≡ looked_row c.now (row_read (Next next.entry)) }
{
    match c {
        Change::Set { table, key, .. } => RowSource::Next(next).row(*table, key),
        Change::Remove { table, key } => RowSource::Next(next).row(*table, key),
        Change::Put { .. } | Change::Wipe { .. } => None,
    }
}

// Whether the next inverse is the change's own.
fn has_next(c: &Change, old: &Option<RowView<'_>>) -> bool
    ensures { result ≡ has_next c.now old.now }
{
    match c {
        Change::Set { .. } | Change::Remove { .. } => old.is_some(),
        Change::Put { .. } | Change::Wipe { .. } => true,
    }
}
