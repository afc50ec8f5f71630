// A subtransaction is rolled back, in the parts in which its transaction did something.
ghost use Rattle.std.specs.Prelude.{◌≡◌, ◌≢◌, ◌++◌, ◌∷◌, [], ℕ, Some, IsSomeAnd, slice_get, length};
ghost use Rattle.model.specs.declared.item.Item.TheVariants.{BackTo};
ghost use Rattle.world.specs.World.{World};
ghost use Rattle.world.specs.Steps.{done_with};
ghost use Rattle.savepoint.specs.Savepoints.{subs_of};
ghost use Rattle.engine.specs.declared.events.Event.TheVariants.{Done};
ghost use Rattle.engine.specs.Events.{opened_by};
ghost use Rattle.table_parts.specs.Part.{Part as AnyPart, last_commit_end};
ghost use Rattle.parted_store.specs.Back.{IsBackAt, BacksShare, KeepsShares, IsSameShare, IsRolledBack};
ghost use Rattle.parted_store.specs.EachPart.{AreApart, IsBeside, Covers, BelongEach, Progress};
ghost use Rattle.parted_store.specs.Journal.{JournalPart};
ghost use Rattle.parted_store.specs.KeepsSound.{KeepsSound};
ghost use Rattle.parted_store.specs.Lent.{HasTable, HasJournal, HasTicket, IsSamePart, Belongs, Stands};
ghost use Rattle.parted_store.specs.Shares.{share_of};

use crate::boxed::BoxedPart;
use crate::marks::cut_back;
use crate::shares::{put_share, take_share};
use crate::ticket::Ticket;
use crate::told::Told;
use engine::{Event, Ticket as Share};
use model::Xid;
use std::marker::Brand;
use table_parts::Part;
use tokens::Items;

/// A subtransaction of an open transaction is rolled back, also in a store that is stopped, over the parts
/// that are lent: those of all tables in which the transaction did something. In every world that has them
/// the call is the step; the parts of other tables stay, and the journal's. It takes no memory.
pub fn back_to_in(parts: &mut [BoxedPart], ticket: &mut Ticket, sub: Xid)
    requires apart { AreApart parts.old }
    requires belong { BelongEach parts.old ticket.old.shares }
    requires covers { Covers parts.old ticket.old.shares }
    ensures parts { (i : ℕ) (p : AnyPart) → slice_get parts.old i ≡ Some p → IsSomeAnd (slice_get parts.new i) (IsRolledBack ticket.old sub p) }
    ensures same { (i : ℕ) (p : AnyPart) → slice_get parts.old i ≡ Some p → IsSomeAnd (slice_get parts.new i) (IsSamePart p) }
    ensures long { length parts.new ≡ length parts.old }
    ensures ends { (i : ℕ) (p : AnyPart) → slice_get parts.old i ≡ Some p → IsSomeAnd (slice_get parts.new i) (λ q. last_commit_end q ≡ last_commit_end p) }
    ensures journal { (w : World) (j : JournalPart) → HasJournal w j → HasTicket w ticket.old → HasJournal (done_with w ticket.old.number (opened_by ticket.old.events) (BackTo sub)) j }
    ensures ticket { (w : World) → HasTicket w ticket.old → HasTicket (done_with w ticket.old.number (opened_by ticket.old.events) (BackTo sub)) ticket.new }
    ensures beside { (w : World) (p : AnyPart) → HasTicket w ticket.old → HasTable w p → IsBeside parts.old p.number
        → HasTable (done_with w ticket.old.number (opened_by ticket.old.events) (BackTo sub)) p }
    ensures events { ticket.new.events ≡ ticket.old.events ++ Done (BackTo sub) ∷ [] }
    ensures xid { ticket.new.number ≡ ticket.old.number }
    ensures shares { KeepsShares ticket.old.shares ticket.new.shares }
    ensures stand { (i : ℕ) (p : AnyPart) → slice_get parts.old i ≡ Some p → Stands p ticket.old.shares → IsSomeAnd (slice_get parts.new i) (λ q. Stands q ticket.new.shares) }
    ensures sound { (i : ℕ) (p : AnyPart) → slice_get parts.old i ≡ Some p → IsSomeAnd (slice_get parts.new i) (KeepsSound p) }
{
    back_each(parts, &mut ticket.shares, sub, ticket.marks.since(sub));
    cut_back(&mut ticket.items, &mut ticket.marks, ticket.xid, sub);
    tell_back(&mut ticket.events, sub);
}

/// The share of each part is rolled back, to the subtransaction's mark and to those that are dropped.
pub(crate) fn back_each(
    parts: &mut [BoxedPart],
    shares: &mut Vec<Option<Share>>,
    sub: Xid,
    dropped: &[(Xid, usize)],
)
    requires apart { AreApart parts.old }
    requires belong { BelongEach parts.old shares.old.items }
    ensures each { Progress (BacksShare (sub ∷ subs_of dropped.now)) parts.old shares.old.items parts.new shares.new.items (length parts.old) }
    ensures shares { KeepsShares shares.old.items shares.new.items }
{
    for i in 0..parts.len() {
        back_share(&mut parts[i], shares, sub, dropped);
    }
}

// The share of a part is rolled back, if there is one.
fn back_share(
    part: &mut BoxedPart,
    shares: &mut Vec<Option<Share>>,
    sub: Xid,
    dropped: &[(Xid, usize)],
)
    requires { Belongs part.old shares.old.items }
    ensures back { BacksShare (sub ∷ subs_of dropped.now) part.old (share_of shares.old.items part.old.number) part.new (share_of shares.new.items part.old.number) }
    ensures others { (other : ℕ) → other ≢ part.old.number → share_of shares.new.items other ≡ share_of shares.old.items other }
{
    let table = part.number();
    if let Some(mut share) = take_share(shares, table) {
        back_to_marks(part.part(), &mut share, sub, dropped);
        put_share(shares, table, share);
    }
}

// A share is rolled back to each mark that is dropped. One that the part doesn't know cuts nothing there;
// where all are so, the first call still ends the transaction's waiting.
fn back_to_marks(part: &mut Part, share: &mut Share, sub: Xid, dropped: &[(Xid, usize)])
    requires { share.old.name ≡ part.old.store.tickets }
    ensures { IsBackAt part.old share.old (sub ∷ subs_of dropped.now) part.new share.new }
{
    part.back_to(share, sub);
    for (mark, _) in dropped {
        part.back_to(share, *mark);
    }
}

// Lists the rollback.
fn tell_back(events: &mut Told<Event>, sub: Xid)
    ensures { events.new ≡ events.old ++ Done (BackTo sub) ∷ [] }
{
    grow_back::<Brand>(events, sub);
}

fn grow_back<N: Items<Event>>(events: &mut Told<Event>, sub: Xid)
    requires { N.items ≡ Done (BackTo sub) ∷ [] }
    ensures { events.new ≡ events.old ++ Done (BackTo sub) ∷ [] }
{
    let _ = sub;
    events.grow_by::<N>();
}
