// The marks of a transaction's subtransactions: under the latest one a change goes to its table.
ghost use Rattle.std.specs.Prelude.{◌≡◌, ◌==◌, ◌||◌, ◌<◌, not, is_some, length, unwrap_or, vec_len, vec_capacity, IfOk, OnOk, OnErr, if◌then◌else◌};
ghost use Rattle.model.specs.declared.item.Item.TheVariants.{BackTo};
ghost use Rattle.model.specs.Survivors.{after_item};
ghost use Rattle.savepoint.specs.Savepoints.{mark_at, before_mark, latest_sub};
ghost use Rattle.parted_store.specs.Acting.{as_told, is_done as told_done};
ghost use Rattle.parted_store.specs.Ticket.{with_place, places_of};

use crate::acting::is_done;
use engine::{EngineFault, Verdict};
use model::{Item, OutOfMemory, Xid};
use savepoint::Savepoints;

// Sets the mark of a subtransaction that has none, behind so many items, and answers whether it did. The
// top transaction needs none. Refused for memory, it changes nothing.
fn set_mark(
    marks: &mut Savepoints<usize>,
    top: Xid,
    sub: Xid,
    items: usize,
) -> Result<bool, OutOfMemory>
    ensures ok { OnOk result (marks.new ≡ with_place top sub items marks.old) }
    ensures set { IfOk result (λ set. set ≡ not ((sub == top) || is_some (mark_at sub marks.old))) }
    ensures err { OnErr result (marks.new ≡ marks.old) }
{
    if sub == top || marks.mark_of(sub).is_some() {
        return Ok(false);
    }
    marks.note(sub, items)?;
    Ok(true)
}

/// Room for one more item, and the mark of the subtransaction that it names, if that has none. It answers
/// whether it set one. Refused for memory, it changes nothing.
pub(crate) fn make_place(
    items: &mut Vec<Item>,
    marks: &mut Savepoints<usize>,
    top: Xid,
    sub: Xid,
) -> Result<bool, OutOfMemory>
    ensures items { items.new.items ≡ items.old.items }
    ensures len { vec_len items.new ≡ vec_len items.old }
    ensures room { OnOk result (vec_len items.new < vec_capacity items.new) }
    ensures ok { OnOk result (marks.new ≡ with_place top sub (length items.old.items) marks.old) }
    ensures set { IfOk result (λ set. set ≡ not ((sub == top) || is_some (mark_at sub marks.old))) }
    ensures err { OnErr result (marks.new ≡ marks.old) }
{
    items.reserve(1)?;
    set_mark(marks, top, sub, items.len())
}

/// The latest mark, or the top transaction. It takes no memory.
pub(crate) fn latest(marks: &Savepoints<usize>, top: Xid) -> Xid
    ensures { result ≡ unwrap_or (latest_sub marks.now) top }
{
    marks.latest().unwrap_or(top)
}

/// Takes the mark back that was set for a change which wasn't done. It takes no memory.
pub(crate) fn unset_mark(
    marks: &mut Savepoints<usize>,
    sub: Xid,
    set: bool,
    answer: &Result<Verdict, EngineFault>,
)
    ensures { marks.new ≡ (if not set || told_done (as_told answer.now) then marks.old else before_mark sub marks.old) }
{
    if set && !is_done(answer) {
        marks.cut(sub);
    }
}

/// Drops the items of a subtransaction and all later ones, and their marks. A rollback to the top transaction
/// drops none. It takes no memory.
pub(crate) fn cut_back(items: &mut Vec<Item>, marks: &mut Savepoints<usize>, top: Xid, sub: Xid)
    requires { marks.old ≡ places_of top items.old.items }
    ensures items { items.new.items ≡ after_item top items.old.items (BackTo sub) }
    ensures marks { marks.new ≡ places_of top items.new.items }
{
    if sub == top {
        return;
    }
    if let Some(count) = marks.cut(sub) {
        items.truncate(count);
    }
}
