// A change that clashes, and stops the store.
ghost use Rattle.std.specs.Prelude.{◌≡◌, ◌≢◌, ◌⊎◌, ◌++◌, ◌∷◌, [], ℕ, None, Some, Err, IsSome, IsSomeAnd, length, slice_get};
ghost use Rattle.model.specs.Named.{NamesTables};
ghost use Rattle.world.specs.World.{World};
ghost use Rattle.live_tables.specs.declared.answers.EngineFault.TheVariants.{Clash as ClashFault, OutOfMemory as NoMemory};
ghost use Rattle.live_tables.specs.Answers.{cause_of, told, after_act};
ghost use Rattle.engine.specs.declared.events.Event.TheVariants.{Wants};
ghost use Rattle.engine.specs.Events.{opened_by, events_of};
ghost use Rattle.world_parts.specs.ByTable.{IsIn, changes_at};
ghost use Rattle.world_parts.specs.Parts.{wanted_by};
ghost use Rattle.table_parts.specs.Part.{Part as AnyPart, last_commit_end};
ghost use Rattle.parted_store.specs.Acting.{IsActed};
ghost use Rattle.parted_store.specs.Back.{KeepsShares};
ghost use Rattle.parted_store.specs.EachPart.{AreApart, IsBeside, BelongEach};
ghost use Rattle.parted_store.specs.KeepsSound.{KeepsSound, StopsSound, ClashesHere};
ghost use Rattle.parted_store.specs.Lent.{HasTable, HasJournal, HasTicket, IsSamePart, Belongs, Stands};
ghost use Rattle.parted_store.specs.Shares.{share_of};

use crate::back::back_each;
use crate::boxed::BoxedPart;
use crate::journal::Journal;
use crate::marks::latest;
use crate::shares::{put_share, take_share};
use crate::ticket::Ticket;
use crate::told::Told;
use change::Clash;
use engine::{EngineFault, Event};
use model::{Change, Xid};
use std::marker::Brand;
use table_parts::Part;
use tokens::Items;

/// A change that was tried, and clashes, stops the store, which nothing had stopped: its transaction wants it.
/// Lent are the part of its table, the journal's, and those of the other tables in which the transaction
/// waits, if it waits. In every world that has them and the ticket the world behind the call has them, and
/// the parts of other tables stay. It answers the clash; or that memory was refused, and nothing changed.
pub fn clash_in(
    part: &mut Part,
    others: &mut [BoxedPart],
    journal: &mut Journal,
    ticket: &mut Ticket,
    sub: Xid,
    c: &Change,
    clash: Clash,
) -> EngineFault
    requires belongs { Belongs part.old ticket.old.shares }
    requires share { IsSome (share_of ticket.old.shares part.old.number) }
    requires names { NamesTables (length part.old.store.schema) c.now }
    requires its { IsIn part.old.number c.now }
    requires apart { AreApart others.old }
    requires other { IsBeside others.old part.old.number }
    requires belong { BelongEach others.old ticket.old.shares }
    requires elsewhere { (table : ℕ) → table ≢ part.old.number → IsBeside others.old table → changes_at table (wanted_by (opened_by ticket.old.events).wants) ≡ [] }
    requires cause { IsSome (cause_of clash) }
    requires clashes { ClashesHere part.old ticket.old.shares c.now clash }
    ensures fault { (result ≡ ClashFault clash) ⊎ (result ≡ NoMemory) }
    ensures part { (w : World) → HasTable w part.old → HasTicket w ticket.old
        → HasTable (after_act w ticket.old.number (opened_by ticket.old.events) sub c.now (told (Err result))) part.new }
    ensures journal { (w : World) → HasJournal w journal.old → HasTicket w ticket.old
        → HasJournal (after_act w ticket.old.number (opened_by ticket.old.events) sub c.now (told (Err result))) journal.new }
    ensures its_ticket { (w : World) → HasTicket w ticket.old → HasTicket (after_act w ticket.old.number (opened_by ticket.old.events) sub c.now (told (Err result))) ticket.new }
    ensures others { (i : ℕ) (p : AnyPart) → slice_get others.old i ≡ Some p → IsSomeAnd (slice_get others.new i) (IsActed ticket.old sub c.now (told (Err result)) p) }
    ensures same_others { (i : ℕ) (p : AnyPart) → slice_get others.old i ≡ Some p → IsSomeAnd (slice_get others.new i) (IsSamePart p) }
    ensures long { length others.new ≡ length others.old }
    ensures ends { (i : ℕ) (p : AnyPart) → slice_get others.old i ≡ Some p → IsSomeAnd (slice_get others.new i) (λ q. last_commit_end q ≡ last_commit_end p) }
    ensures beside { (w : World) (p : AnyPart) → HasTicket w ticket.old → HasTable w p → p.number ≢ part.old.number → IsBeside others.old p.number
        → HasTable (after_act w ticket.old.number (opened_by ticket.old.events) sub c.now (told (Err result))) p }
    ensures ticket { ticket.new.events ≡ ticket.old.events ++ events_of sub c.now (told (Err result)) }
    ensures xid { ticket.new.number ≡ ticket.old.number }
    ensures shares { KeepsShares ticket.old.shares ticket.new.shares }
    ensures left { (table : ℕ) → table ≢ part.old.number → IsBeside others.old table → share_of ticket.new.shares table ≡ share_of ticket.old.shares table }
    ensures stands { Stands part.old ticket.old.shares → Stands part.new ticket.new.shares }
    ensures same { IsSamePart part.old part.new }
    ensures end { last_commit_end part.new ≡ last_commit_end part.old }
    ensures line { journal.new.line ≡ journal.old.line }
    ensures stand_others { (i : ℕ) (p : AnyPart) → slice_get others.old i ≡ Some p → Stands p ticket.old.shares → IsSomeAnd (slice_get others.new i) (λ q. Stands q ticket.new.shares) }
    ensures sound { result ≡ ClashFault clash → StopsSound ticket.old.number c.now clash part.old part.new }
    ensures refused { result ≡ NoMemory → part.new ≡ part.old }
    ensures sound_others { (i : ℕ) (p : AnyPart) → slice_get others.old i ≡ Some p → IsSomeAnd (slice_get others.new i) (KeepsSound p) }
{
    let Ok(wanted) = c.copy() else {
        return ticket.refuse(EngineFault::OutOfMemory);
    };
    let Ok(noted) = c.copy() else {
        return ticket.refuse(EngineFault::OutOfMemory);
    };
    let mark = latest(&ticket.marks, ticket.xid);
    let table = part.number();
    let Some(mut share) = take_share(&mut ticket.shares, table) else {
        unreachable!()
    };
    part.wait_with(&mut share, mark, wanted);
    put_share(&mut ticket.shares, table, share);
    back_each(others, &mut ticket.shares, ticket.xid, &[]);
    tell_wanted(&mut ticket.events, sub, c);
    journal.stop_by_clash(ticket.xid, noted, clash);
    EngineFault::Clash(clash)
}

// Lists the change as one that its transaction wants.
fn tell_wanted(events: &mut Told<Event>, sub: Xid, c: &Change)
    ensures { events.new ≡ events.old ++ Wants sub c.now ∷ [] }
{
    grow_wanted::<Brand>(events, sub, c);
}

fn grow_wanted<N: Items<Event>>(events: &mut Told<Event>, sub: Xid, c: &Change)
    requires { N.items ≡ Wants sub c.now ∷ [] }
    ensures { events.new ≡ events.old ++ Wants sub c.now ∷ [] }
{
    let _ = sub;
    let _ = c;
    events.grow_by::<N>();
}
