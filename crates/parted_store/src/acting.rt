// A change that is tried in the part of its table.
ghost use Rattle.std.specs.Prelude.{◌≡◌, ◌≢◌, ◌<◌, ◌++◌, ℕ, [], Some, Ok, IsSome, IsSomeAnd, IfErr, length, slice_get, vec_len, vec_capacity};
ghost use Rattle.model.specs.Named.{NamesTables};
ghost use Rattle.change.specs.declared.outcome.Clash.{Clash as AnyClash};
ghost use Rattle.world.specs.World.{World};
ghost use Rattle.live_tables.specs.declared.answers.EngineFault.TheVariants.{OutOfMemory as NoMemory};
ghost use Rattle.live_tables.specs.declared.answers.Verdict.TheVariants.{Clashes};
ghost use Rattle.live_tables.specs.Answers.{after_act, TellsVerdict};
ghost use Rattle.live_tables.specs.Tried.{Tries, after_try};
ghost use Rattle.engine.specs.Events.{opened_by, events_of};
ghost use Rattle.world_parts.specs.ByTable.{IsIn, changes_at};
ghost use Rattle.world_parts.specs.Parts.{wanted_by};
ghost use Rattle.table_parts.specs.Part.{Part as AnyPart, last_commit_end};
ghost use Rattle.parted_store.specs.Acting.{running, as_told, is_done as told_done, items_of, Rests, IsActed};
ghost use Rattle.parted_store.specs.Back.{KeepsShares};
ghost use Rattle.parted_store.specs.EachPart.{AreApart, IsBeside, BelongEach};
ghost use Rattle.parted_store.specs.Journal.{JournalPart};
ghost use Rattle.parted_store.specs.KeepsSound.{KeepsSound, KeepsSoundRunning, ClashesHere};
ghost use Rattle.parted_store.specs.Lent.{HasTable, HasJournal, HasTicket, IsSamePart, Belongs, Stands};
ghost use Rattle.parted_store.specs.Shares.{share_of};

use crate::back::back_each;
use crate::boxed::BoxedPart;
use crate::marks::{latest, make_place, unset_mark};
use crate::shares::{put_share, take_share};
use crate::ticket::Ticket;
use crate::told::Told;
use engine::{Acted, EngineFault, Event, Ticket as Share, Verdict};
use model::{Change, Item, Xid};
use std::alloc::Global;
use std::marker::Brand;
use table_parts::Part;
use tokens::Items;

/// A subtransaction of an open transaction tries a change of one table, in whose part the transaction has a
/// share. Lent are that part, and those of the other tables in which it waits, if it waits; what stopped the
/// store isn't asked. The part is told of the change under the transaction's latest mark. In every world that
/// has the part and the ticket the call is the step, as though nothing had stopped that world; the world
/// behind it has them, and the parts of other tables stay. A change that clashes alters nothing.
pub fn act_in(
    alloc: Global,
    part: &mut Part,
    others: &mut [BoxedPart],
    ticket: &mut Ticket,
    sub: Xid,
    c: &Change,
) -> Result<Verdict, EngineFault>
    requires belongs { Belongs part.old ticket.old.shares }
    requires share { IsSome (share_of ticket.old.shares part.old.number) }
    requires names { NamesTables (length part.old.store.schema) c.now }
    requires its { IsIn part.old.number c.now }
    requires apart { AreApart others.old }
    requires other { IsBeside others.old part.old.number }
    requires belong { BelongEach others.old ticket.old.shares }
    requires elsewhere { (table : ℕ) → table ≢ part.old.number → IsBeside others.old table → changes_at table (wanted_by (opened_by ticket.old.events).wants) ≡ [] }
    ensures tries { (w : World) → HasTable w part.old → HasTicket w ticket.old
        → Tries part.old.store.schema (running w) ticket.old.number (opened_by ticket.old.events) sub c.now result
        (after_try (running w) ticket.old.number (opened_by ticket.old.events) sub c.now result) }
    ensures part { (w : World) → HasTable w part.old → HasTicket w ticket.old
        → HasTable (after_act w ticket.old.number (opened_by ticket.old.events) sub c.now (as_told result)) part.new }
    ensures its_ticket { (w : World) → HasTicket w ticket.old → HasTicket (after_act w ticket.old.number (opened_by ticket.old.events) sub c.now (as_told result)) ticket.new }
    ensures journal { (w : World) (j : JournalPart) → HasTicket w ticket.old → HasJournal w j → HasJournal (after_act w ticket.old.number (opened_by ticket.old.events) sub c.now (as_told result)) j }
    ensures others { (i : ℕ) (p : AnyPart) → slice_get others.old i ≡ Some p → IsSomeAnd (slice_get others.new i) (IsActed ticket.old sub c.now (as_told result) p) }
    ensures same_others { (i : ℕ) (p : AnyPart) → slice_get others.old i ≡ Some p → IsSomeAnd (slice_get others.new i) (IsSamePart p) }
    ensures long { length others.new ≡ length others.old }
    ensures ends { (i : ℕ) (p : AnyPart) → slice_get others.old i ≡ Some p → IsSomeAnd (slice_get others.new i) (λ q. last_commit_end q ≡ last_commit_end p) }
    ensures beside { (w : World) (p : AnyPart) → HasTicket w ticket.old → HasTable w p → p.number ≢ part.old.number → IsBeside others.old p.number
        → HasTable (after_act w ticket.old.number (opened_by ticket.old.events) sub c.now (as_told result)) p }
    ensures cause { TellsVerdict result }
    ensures fault { IfErr result (λ fault. fault ≡ NoMemory) }
    ensures ticket { ticket.new.events ≡ ticket.old.events ++ events_of sub c.now (as_told result) }
    ensures xid { ticket.new.number ≡ ticket.old.number }
    ensures shares { KeepsShares ticket.old.shares ticket.new.shares }
    ensures left { (table : ℕ) → table ≢ part.old.number → IsBeside others.old table → share_of ticket.new.shares table ≡ share_of ticket.old.shares table }
    ensures stands { Stands part.old ticket.old.shares → Stands part.new ticket.new.shares }
    ensures same { IsSamePart part.old part.new }
    ensures end { last_commit_end part.new ≡ last_commit_end part.old }
    ensures stand_others { (i : ℕ) (p : AnyPart) → slice_get others.old i ≡ Some p → Stands p ticket.old.shares → IsSomeAnd (slice_get others.new i) (λ q. Stands q ticket.new.shares) }
    ensures sound { KeepsSoundRunning part.old part.new }
    ensures sound_others { (i : ℕ) (p : AnyPart) → slice_get others.old i ≡ Some p → IsSomeAnd (slice_get others.new i) (KeepsSound p) }
    ensures clash { (clash : AnyClash) → result ≡ Ok (Clashes clash) → ClashesHere part.new ticket.new.shares c.now clash }
{
    let Ok(change) = c.copy() else {
        return Err(ticket.refuse(EngineFault::OutOfMemory));
    };
    let Ok(set) = make_place(&mut ticket.items, &mut ticket.marks, ticket.xid, sub) else {
        return Err(ticket.refuse(EngineFault::OutOfMemory));
    };
    let mark = latest(&ticket.marks, ticket.xid);
    let table = part.number();
    let Some(mut share) = take_share(&mut ticket.shares, table) else {
        unreachable!()
    };
    let answer = part.try_change(alloc, &mut share, mark, c);
    put_share(&mut ticket.shares, table, share);
    unset_mark(&mut ticket.marks, sub, set, &answer);
    rest_each(others, &mut ticket.shares, ticket.xid, &answer);
    tell(&mut ticket.events, sub, c, &answer);
    keep(&mut ticket.items, sub, change, &answer);
    answer
}

// The transaction waits in these parts no more, unless the change was refused or clashed.
pub(crate) fn rest_each(
    others: &mut [BoxedPart],
    shares: &mut Vec<Option<Share>>,
    xid: Xid,
    answer: &Result<Verdict, EngineFault>,
)
    requires apart { AreApart others.old }
    requires belong { BelongEach others.old shares.old.items }
    ensures rests { Rests xid (as_told answer.now) others.old shares.old.items others.new shares.new.items }
    ensures shares { KeepsShares shares.old.items shares.new.items }
{
    if matches!(answer, Ok(Verdict::Acted(_))) {
        back_each(others, shares, xid, &[]);
    }
}

// Keeps the change as an item, if it was done.
pub(crate) fn keep(
    items: &mut Vec<Item>,
    sub: Xid,
    change: Change,
    answer: &Result<Verdict, EngineFault>,
)
    requires room { vec_len items.old < vec_capacity items.old }
    ensures { items.new.items ≡ items.old.items ++ items_of sub change (as_told answer.now) }
{
    if is_done(answer) {
        items.push_reserved(Item::Change { sub, change });
    }
}

// Whether the change was done, or skipped.
pub(crate) fn is_done(answer: &Result<Verdict, EngineFault>) -> bool
    ensures { result ≡ told_done (as_told answer.now) }
{
    matches!(
        answer,
        Ok(Verdict::Acted(Acted::Done)) | Ok(Verdict::Acted(Acted::Skipped))
    )
}

// Lists what came of a change.
pub(crate) fn tell(
    events: &mut Told<Event>,
    sub: Xid,
    c: &Change,
    answer: &Result<Verdict, EngineFault>,
)
    ensures { events.new ≡ events.old ++ events_of sub c.now (as_told answer.now) }
{
    grow_act::<Brand>(events, sub, c, answer);
}

fn grow_act<N: Items<Event>>(
    events: &mut Told<Event>,
    sub: Xid,
    c: &Change,
    answer: &Result<Verdict, EngineFault>,
)
    requires { N.items ≡ events_of sub c.now (as_told answer.now) }
    ensures { events.new ≡ events.old ++ events_of sub c.now (as_told answer.now) }
{
    let _ = sub;
    let _ = c;
    let _ = answer;
    events.grow_by::<N>();
}
