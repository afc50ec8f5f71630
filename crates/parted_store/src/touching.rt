// A subtransaction is named by an item that changes no row.
ghost use Rattle.std.specs.Prelude.{◌≡◌, ◌++◌, ◌∷◌, [], ℕ, Some, IsSomeAnd, IfErr, length, slice_get};
ghost use Rattle.model.specs.declared.item.Item.TheVariants.{Touch};
ghost use Rattle.world.specs.World.{World};
ghost use Rattle.world.specs.Steps.{Touches};
ghost use Rattle.live_tables.specs.Answers.{told_call, after_touch};
ghost use Rattle.engine.specs.declared.events.Event.TheVariants.{Done};
ghost use Rattle.engine.specs.Events.{opened_by, touch_events};
ghost use Rattle.table_parts.specs.Part.{Part as AnyPart, last_commit_end};
ghost use Rattle.parted_store.specs.Back.{KeepsShares};
ghost use Rattle.parted_store.specs.EachPart.{AreApart, IsBeside, BelongEach, WaitsAmong};
ghost use Rattle.parted_store.specs.KeepsSound.{KeepsSound};
ghost use Rattle.parted_store.specs.Lent.{HasTable, HasJournal, HasTicket, IsSamePart, Stands};
ghost use Rattle.parted_store.specs.Shares.{share_of};
ghost use Rattle.parted_store.specs.Touching.{IsTouched, IsRefusal};

use crate::back::back_each;
use crate::boxed::BoxedPart;
use crate::journal::Journal;
use crate::marks::make_place;
use crate::ticket::Ticket;
use crate::told::Told;
use engine::{EngineFault, Event};
use model::{Item, Xid};
use std::marker::Brand;
use tokens::Items;

/// A subtransaction of an open transaction is named by an item that changes no row, over the journal's part
/// and those in which the transaction waits, if it waits. In every world that has them the call is the step,
/// and the parts of other tables stay. A refusal is listed, and changes nothing else.
pub fn touch_in(
    parts: &mut [BoxedPart],
    journal: &Journal,
    ticket: &mut Ticket,
    sub: Xid,
) -> Result<(), EngineFault>
    requires apart { AreApart parts.old }
    requires belong { BelongEach parts.old ticket.old.shares }
    requires waits { WaitsAmong parts.old (opened_by ticket.old.events) }
    ensures touches { (w : World) → HasJournal w journal.now → HasTicket w ticket.old
        → Touches w ticket.old.number (opened_by ticket.old.events) sub (told_call result) (after_touch w ticket.old.number (opened_by ticket.old.events) sub (told_call result)) }
    ensures parts { (i : ℕ) (p : AnyPart) → slice_get parts.old i ≡ Some p → IsSomeAnd (slice_get parts.new i) (IsTouched ticket.old sub (told_call result) p) }
    ensures same { (i : ℕ) (p : AnyPart) → slice_get parts.old i ≡ Some p → IsSomeAnd (slice_get parts.new i) (IsSamePart p) }
    ensures long { length parts.new ≡ length parts.old }
    ensures ends { (i : ℕ) (p : AnyPart) → slice_get parts.old i ≡ Some p → IsSomeAnd (slice_get parts.new i) (λ q. last_commit_end q ≡ last_commit_end p) }
    ensures journal { (w : World) → HasJournal w journal.now → HasTicket w ticket.old
        → HasJournal (after_touch w ticket.old.number (opened_by ticket.old.events) sub (told_call result)) journal.now }
    ensures ticket { (w : World) → HasTicket w ticket.old → HasTicket (after_touch w ticket.old.number (opened_by ticket.old.events) sub (told_call result)) ticket.new }
    ensures beside { (w : World) (p : AnyPart) → HasTicket w ticket.old → HasTable w p → IsBeside parts.old p.number
        → HasTable (after_touch w ticket.old.number (opened_by ticket.old.events) sub (told_call result)) p }
    ensures fault { IfErr result IsRefusal }
    ensures events { ticket.new.events ≡ ticket.old.events ++ touch_events sub (told_call result) }
    ensures xid { ticket.new.number ≡ ticket.old.number }
    ensures shares { KeepsShares ticket.old.shares ticket.new.shares }
    ensures left { (table : ℕ) → IsBeside parts.old table → share_of ticket.new.shares table ≡ share_of ticket.old.shares table }
    ensures stand { (i : ℕ) (p : AnyPart) → slice_get parts.old i ≡ Some p → Stands p ticket.old.shares → IsSomeAnd (slice_get parts.new i) (λ q. Stands q ticket.new.shares) }
    ensures sound { (i : ℕ) (p : AnyPart) → slice_get parts.old i ≡ Some p → IsSomeAnd (slice_get parts.new i) (KeepsSound p) }
{
    if journal.is_stopped() {
        return Err(ticket.refuse(EngineFault::Stopped));
    }
    let Ok(_set) = make_place(&mut ticket.items, &mut ticket.marks, ticket.xid, sub) else {
        return Err(ticket.refuse(EngineFault::OutOfMemory));
    };
    back_each(parts, &mut ticket.shares, ticket.xid, &[]);
    ticket.items.push_reserved(Item::Touch(sub));
    tell_touch(&mut ticket.events, sub);
    Ok(())
}

// Lists the item.
fn tell_touch(events: &mut Told<Event>, sub: Xid)
    ensures { events.new ≡ events.old ++ Done (Touch sub) ∷ [] }
{
    grow_touch::<Brand>(events, sub);
}

fn grow_touch<N: Items<Event>>(events: &mut Told<Event>, sub: Xid)
    requires { N.items ≡ Done (Touch sub) ∷ [] }
    ensures { events.new ≡ events.old ++ Done (Touch sub) ∷ [] }
{
    let _ = sub;
    events.grow_by::<N>();
}
