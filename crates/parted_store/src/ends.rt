// The end of an open transaction, in the parts in which it did something and in the journal's.
ghost use Rattle.std.specs.Prelude.{◌≡◌, ◌<◌, ◌≤◌, ◌++◌, ◌∷◌, [], ℕ, true, Some, IsSomeAnd, slice_get, length};
ghost use Rattle.model.specs.Beginning.{last_end};
ghost use Rattle.model.specs.Rows.{Schema};
ghost use Rattle.world.specs.World.{World};
ghost use Rattle.world.specs.Steps.{committed_with, aborted_with};
ghost use Rattle.engine.specs.declared.events.LineEvent.TheVariants.{Committed as WasCommitted, Aborted as WasAborted};
ghost use Rattle.engine.specs.Events.{opened_by, ends_in, is_open_in};
ghost use Rattle.table_parts.specs.Part.{Part as AnyPart, last_commit_end};
ghost use Rattle.parted_store.specs.Lent.{HasTable, HasJournal, HasTicket, IsSamePart, Belongs};
ghost use Rattle.parted_store.specs.EachPart.{AreApart, IsBeside, Covers, BelongEach, Progress};
ghost use Rattle.parted_store.specs.Ends.{CommitsShare, AbortsShare, Takes, IsCommitted, IsAborted};
ghost use Rattle.parted_store.specs.KeepsSound.{KeepsSound};
ghost use Rattle.parted_store.specs.Shares.{share_of, TakesShare};

use crate::boxed::BoxedPart;
use crate::journal::{Journal, Line};
use crate::shares::take_share;
use crate::ticket::Ticket;
use engine::Ticket as Share;
use model::CommitInfo;

/// An open transaction is committed, also in a store that is stopped, over the parts that are lent: those of
/// all tables in which it did something, and the journal's. In every world that has them the call is the
/// step, and the parts of other tables stay. It takes no memory.
pub fn commit_in(
    parts: &mut [BoxedPart],
    journal: &mut Journal,
    line: &mut Line,
    ticket: Ticket,
    info: CommitInfo,
)
    requires line { line.old.name ≡ journal.old.line.name }
    requires open { is_open_in line.old.list ticket.number ≡ true }
    requires rising { last_end (ends_in line.old.list) < info.end }
    requires later { (i : ℕ) (p : AnyPart) → slice_get parts.old i ≡ Some p → last_commit_end p < info.end }
    requires apart { AreApart parts.old }
    requires belong { BelongEach parts.old ticket.shares }
    requires covers { Covers parts.old ticket.shares }
    ensures parts { (i : ℕ) (p : AnyPart) → slice_get parts.old i ≡ Some p → IsSomeAnd (slice_get parts.new i) (IsCommitted ticket info p) }
    ensures same { (i : ℕ) (p : AnyPart) → slice_get parts.old i ≡ Some p → IsSomeAnd (slice_get parts.new i) (IsSamePart p) }
    ensures long { length parts.new ≡ length parts.old }
    ensures ends { (i : ℕ) (p : AnyPart) → slice_get parts.old i ≡ Some p → IsSomeAnd (slice_get parts.new i) (λ q. last_commit_end q ≤ info.end) }
    ensures sound { (i : ℕ) (p : AnyPart) → slice_get parts.old i ≡ Some p → IsSomeAnd (slice_get parts.new i) (KeepsSound p) }
    ensures journal { (schema : Schema) (w : World) → HasJournal w journal.old → HasTicket w ticket → HasJournal (committed_with schema w ticket.number (opened_by ticket.events) info) journal.new }
    ensures beside { (schema : Schema) (w : World) (p : AnyPart) → HasTicket w ticket → HasTable w p → IsBeside parts.old p.number
        → HasTable (committed_with schema w ticket.number (opened_by ticket.events) info) p }
    ensures met { line.old ≡ journal.old.line }
    ensures line { line.new ≡ journal.new.line }
    ensures name { line.new.name ≡ line.old.name }
    ensures appended { line.new.list ≡ line.old.list ++ WasCommitted ticket.number (opened_by ticket.events).items info ∷ [] }
{
    let Ticket {
        xid,
        events,
        items,
        mut shares,
        ..
    } = ticket;
    commit_each(parts, &mut shares, info);
    journal.commit(line, xid, &events, items, info);
}

/// An open transaction is aborted, also in a store that is stopped, over the parts that are lent: those of
/// all tables in which it did something, and the journal's. In every world that has them the call is the
/// step, and the parts of other tables stay. It takes no memory.
pub fn abort_in(parts: &mut [BoxedPart], journal: &mut Journal, line: &mut Line, ticket: Ticket)
    requires line { line.old.name ≡ journal.old.line.name }
    requires open { is_open_in line.old.list ticket.number ≡ true }
    requires apart { AreApart parts.old }
    requires belong { BelongEach parts.old ticket.shares }
    requires covers { Covers parts.old ticket.shares }
    ensures parts { (i : ℕ) (p : AnyPart) → slice_get parts.old i ≡ Some p → IsSomeAnd (slice_get parts.new i) (IsAborted ticket p) }
    ensures same { (i : ℕ) (p : AnyPart) → slice_get parts.old i ≡ Some p → IsSomeAnd (slice_get parts.new i) (IsSamePart p) }
    ensures long { length parts.new ≡ length parts.old }
    ensures ends { (i : ℕ) (p : AnyPart) → slice_get parts.old i ≡ Some p → IsSomeAnd (slice_get parts.new i) (λ q. last_commit_end q ≡ last_commit_end p) }
    ensures sound { (i : ℕ) (p : AnyPart) → slice_get parts.old i ≡ Some p → IsSomeAnd (slice_get parts.new i) (KeepsSound p) }
    ensures journal { (w : World) → HasJournal w journal.old → HasTicket w ticket → HasJournal (aborted_with w ticket.number) journal.new }
    ensures beside { (w : World) (p : AnyPart) → HasTicket w ticket → HasTable w p → IsBeside parts.old p.number → HasTable (aborted_with w ticket.number) p }
    ensures met { line.old ≡ journal.old.line }
    ensures line { line.new ≡ journal.new.line }
    ensures name { line.new.name ≡ line.old.name }
    ensures appended { line.new.list ≡ line.old.list ++ WasAborted ticket.number ∷ [] }
{
    let Ticket {
        xid,
        mut shares,
        ..
    } = ticket;
    abort_each(parts, &mut shares);
    journal.abort(line, xid);
}

// The share of each part is committed.
fn commit_each(parts: &mut [BoxedPart], shares: &mut Vec<Option<Share>>, info: CommitInfo)
    requires later { (i : ℕ) (p : AnyPart) → slice_get parts.old i ≡ Some p → last_commit_end p < info.end }
    requires apart { AreApart parts.old }
    requires belong { BelongEach parts.old shares.old.items }
    ensures { Progress (Takes (CommitsShare info)) parts.old shares.old.items parts.new shares.new.items (length parts.old) }
{
    for i in 0..parts.len() {
        commit_share(&mut parts[i], shares, info);
    }
}

// The share of a part is committed, if there is one.
fn commit_share(part: &mut BoxedPart, shares: &mut Vec<Option<Share>>, info: CommitInfo)
    requires later { last_commit_end part.old < info.end }
    requires belongs { Belongs part.old shares.old.items }
    ensures commits { CommitsShare info part.old (share_of shares.old.items part.old.number) part.new }
    ensures takes { TakesShare shares.old.items part.old.number shares.new.items }
{
    let table = part.number();
    if let Some(share) = take_share(shares, table) {
        part.part().commit(share, info);
    }
}

// The share of each part is aborted.
fn abort_each(parts: &mut [BoxedPart], shares: &mut Vec<Option<Share>>)
    requires apart { AreApart parts.old }
    requires belong { BelongEach parts.old shares.old.items }
    ensures { Progress (Takes AbortsShare) parts.old shares.old.items parts.new shares.new.items (length parts.old) }
{
    for i in 0..parts.len() {
        abort_share(&mut parts[i], shares);
    }
}

// The share of a part is aborted, if there is one.
fn abort_share(part: &mut BoxedPart, shares: &mut Vec<Option<Share>>)
    requires { Belongs part.old shares.old.items }
    ensures aborts { AbortsShare part.old (share_of shares.old.items part.old.number) part.new }
    ensures takes { TakesShare shares.old.items part.old.number shares.new.items }
{
    let table = part.number();
    if let Some(share) = take_share(shares, table) {
        part.part().abort(share);
    }
}
