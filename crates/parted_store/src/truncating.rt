// A truncate of several tables, tried in the part of each.
ghost use Rattle.std.specs.Prelude.{◌≡◌, ◌≢◌, ◌<◌, ◌++◌, ◌∷◌, [], ◌≤◌, ℕ, Bool, true, false, List, None, Some, Ok, IsSome, IsSomeAnd, IfOk, IfErr, OnOk, OnErr, length, map, slice_get, vec_capacity};
ghost use Rattle.std.specs.FinMap.{get};
ghost use Rattle.model.specs.declared.change.Change.{Change as AnyChange};
ghost use Rattle.model.specs.Named.{NamesTables};
ghost use Rattle.model.specs.Rows.{Schema};
ghost use Rattle.model.specs.declared.cell.Cell.TheVariants.{Whole};
ghost use Rattle.live_tables.specs.declared.answers.Acted.TheVariants.{Done as WasDone};
ghost use Rattle.live_tables.specs.declared.answers.Verdict.TheVariants.{Acted as ActedVerdict};
ghost use Rattle.world.specs.World.{World, IsFree};
ghost use Rattle.world.specs.Steps.{wanting};
ghost use Rattle.live_tables.specs.declared.answers.EngineFault.TheVariants.{OutOfMemory as NoMemory};
ghost use Rattle.live_tables.specs.Answers.{after_act, TellsVerdict};
ghost use Rattle.live_tables.specs.Tried.{Tries, after_try};
ghost use Rattle.engine.specs.declared.events.Event.TheVariants.{Wants};
ghost use Rattle.engine.specs.Events.{opened_by, events_of};
ghost use Rattle.world_parts.specs.ByTable.{changes_at};
ghost use Rattle.world_parts.specs.Parts.{wanted_by};
ghost use Rattle.table_parts.specs.Part.{Part as AnyPart, last_commit_end};
ghost use Rattle.parted_store.specs.Acting.{running, as_told, IsActed};
ghost use Rattle.parted_store.specs.Back.{KeepsShares};
ghost use Rattle.table_parts.specs.Several.{IsAttempted, IsKept, IsLeft, IsSameAs, ComesTo, IsRefused};
ghost use Rattle.parted_store.specs.EachPart.{AreApart, IsBeside, BelongEach};
ghost use Rattle.parted_store.specs.Journal.{JournalPart};
ghost use Rattle.parted_store.specs.KeepsSound.{KeepsSound, KeepsSoundRunning};
ghost use Rattle.parted_store.specs.Lent.{HasTable, HasJournal, HasTicket, IsSamePart, Belongs, Stands as StandsAsTold};
ghost use Rattle.parted_store.specs.Shares.{Share as AnyShare, Shares as AnyShares, share_of};
ghost use Rattle.parted_store.specs.Truncating.{CutsHere, HasEach, Both, EachIs, Zones, Attempts, Stands, Keeps, Waits, CanWaitEach, IsHeldInOne, HasTruncated, TellsTruncate, cut_of};

use crate::acting::{keep, rest_each, tell};
use crate::boxed::BoxedPart;
use crate::marks::{latest, make_place, unset_mark};
use crate::shares::{put_share, take_share};
use crate::ticket::Ticket;
use engine::{Acted, EngineFault, Ticket as Share, Verdict};
use model::{Change, OutOfMemory, Xid};
use std::alloc::Global;
use table_parts::{Attempt, Attempted};
use world_parts::cutting::truncate_of;

/// A subtransaction of an open transaction tries a truncate of several tables, in whose parts the transaction
/// has shares. Lent are those parts, and those of the other tables in which it waits, if it waits; what stopped
/// the store isn't asked. Each part is told of it under the transaction's latest mark, or in each the transaction
/// waits with it, where another transaction is in the way in one. In every world that has the parts and the
/// ticket the call is the step, as though nothing had stopped that world; the world behind it has them, and the
/// parts of other tables stay.
pub fn truncate_in(
    alloc: Global,
    parts: &mut [BoxedPart],
    others: &mut [BoxedPart],
    ticket: &mut Ticket,
    sub: Xid,
    c: &Change,
) -> Result<Verdict, EngineFault>
    requires truncate { (tables : List ℕ) × CutsHere c.now tables parts.old }
    requires apart { AreApart parts.old }
    requires belong { BelongEach parts.old ticket.old.shares }
    requires shares { (i : ℕ) (p : AnyPart) → slice_get parts.old i ≡ Some p → IsSome (share_of ticket.old.shares p.number) }
    requires known { (i : ℕ) (p : AnyPart) → slice_get parts.old i ≡ Some p → p.number < length p.store.schema }
    requires apart_others { AreApart others.old }
    requires other { (i : ℕ) (p : AnyPart) → slice_get parts.old i ≡ Some p → IsBeside others.old p.number }
    requires belong_others { BelongEach others.old ticket.old.shares }
    requires elsewhere { (table : ℕ) → IsBeside parts.old table → IsBeside others.old table → changes_at table (wanted_by (opened_by ticket.old.events).wants) ≡ [] }
    ensures tries { (w : World) (schema : Schema) → HasEach w schema parts.old → HasTicket w ticket.old
        → Tries schema (running w) ticket.old.number (opened_by ticket.old.events) sub c.now result
        (after_try (running w) ticket.old.number (opened_by ticket.old.events) sub c.now result) }
    ensures parts { (w : World) → HasTicket w ticket.old → (i : ℕ) (p : AnyPart) → slice_get parts.old i ≡ Some p → HasTable w p
        → IsSomeAnd (slice_get parts.new i) (HasTable (after_act w ticket.old.number (opened_by ticket.old.events) sub c.now (as_told result))) }
    ensures its_ticket { (w : World) → HasTicket w ticket.old → HasTicket (after_act w ticket.old.number (opened_by ticket.old.events) sub c.now (as_told result)) ticket.new }
    ensures journal { (w : World) (j : JournalPart) → HasTicket w ticket.old → HasJournal w j → HasJournal (after_act w ticket.old.number (opened_by ticket.old.events) sub c.now (as_told result)) j }
    ensures others { (i : ℕ) (p : AnyPart) → slice_get others.old i ≡ Some p → IsSomeAnd (slice_get others.new i) (IsActed ticket.old sub c.now (as_told result) p) }
    ensures same { (i : ℕ) (p : AnyPart) → slice_get parts.old i ≡ Some p → IsSomeAnd (slice_get parts.new i) (IsSameAs p) }
    ensures long { length parts.new ≡ length parts.old }
    ensures same_others { (i : ℕ) (p : AnyPart) → slice_get others.old i ≡ Some p → IsSomeAnd (slice_get others.new i) (IsSamePart p) }
    ensures long_others { length others.new ≡ length others.old }
    ensures ends { (i : ℕ) (p : AnyPart) → slice_get others.old i ≡ Some p → IsSomeAnd (slice_get others.new i) (λ q. last_commit_end q ≡ last_commit_end p) }
    ensures beside { (w : World) (p : AnyPart) → HasTicket w ticket.old → HasTable w p → IsBeside parts.old p.number → IsBeside others.old p.number
        → HasTable (after_act w ticket.old.number (opened_by ticket.old.events) sub c.now (as_told result)) p }
    ensures free { result ≡ Ok (ActedVerdict WasDone) → (i : ℕ) (p : AnyPart) → slice_get parts.old i ≡ Some p
        → IsFree p.store.schema p.store.world ticket.old.number (Whole p.number ∷ []) }
    ensures tells { TellsTruncate parts.old ticket.old.number result }
    ensures cause { TellsVerdict result }
    ensures fault { IfErr result (λ fault. fault ≡ NoMemory) }
    ensures ticket { ticket.new.events ≡ ticket.old.events ++ events_of sub c.now (as_told result) }
    ensures xid { ticket.new.number ≡ ticket.old.number }
    ensures shares { KeepsShares ticket.old.shares ticket.new.shares }
    ensures left { (table : ℕ) → IsBeside parts.old table → IsBeside others.old table → share_of ticket.new.shares table ≡ share_of ticket.old.shares table }
    ensures stand { (i : ℕ) (p : AnyPart) → slice_get parts.old i ≡ Some p → StandsAsTold p ticket.old.shares → IsSomeAnd (slice_get parts.new i) (λ q. StandsAsTold q ticket.new.shares) }
    ensures stand_others { (i : ℕ) (p : AnyPart) → slice_get others.old i ≡ Some p → StandsAsTold p ticket.old.shares → IsSomeAnd (slice_get others.new i) (λ q. StandsAsTold q ticket.new.shares) }
    ensures sound { (i : ℕ) (p : AnyPart) → slice_get parts.old i ≡ Some p → IsSomeAnd (slice_get parts.new i) (KeepsSoundRunning p) }
    ensures sound_others { (i : ℕ) (p : AnyPart) → slice_get others.old i ≡ Some p → IsSomeAnd (slice_get others.new i) (KeepsSound p) }
{
    let Ok(change) = c.copy() else {
        return Err(ticket.refuse(EngineFault::OutOfMemory));
    };
    let Ok(cuts) = cuts_of(alloc, parts) else {
        return Err(ticket.refuse(EngineFault::OutOfMemory));
    };
    let Ok(set) = make_place(&mut ticket.items, &mut ticket.marks, ticket.xid, sub) else {
        return Err(ticket.refuse(EngineFault::OutOfMemory));
    };
    let mark = latest(&ticket.marks, ticket.xid);
    let answer = truncate_each(alloc, parts, &mut ticket.shares, mark, cuts);
    unset_mark(&mut ticket.marks, sub, set, &answer);
    rest_each(others, &mut ticket.shares, ticket.xid, &answer);
    tell(&mut ticket.events, sub, c, &answer);
    keep(&mut ticket.items, sub, change, &answer);
    answer
}

// What a truncate is in each of the parts.
fn cuts_of(alloc: Global, parts: &[BoxedPart]) -> Result<Vec<Change>, OutOfMemory>
    ensures { IfOk result (λ cuts. cuts.items ≡ map cut_of parts.now) }
{
    let mut cuts = Vec::new(alloc);
    for part in parts {
        cuts.push(truncate_of(alloc, part.number())?)?;
    }
    Ok(cuts)
}

// A part's table is truncated, to be kept or taken back.
fn attempt_share(
    alloc: Global,
    part: &mut BoxedPart,
    shares: &mut Vec<Option<Share>>,
    mark: Xid,
) -> Result<Attempted, EngineFault>
    requires belongs { Belongs part.old shares.old.items }
    requires share { IsSome (share_of shares.old.items part.old.number) }
    requires known { part.old.number < length part.old.store.schema }
    ensures ok { IfOk result (λ came. Both (λ share new. ComesTo part.old share mark came part.new new) (share_of shares.old.items part.old.number) (share_of shares.new.items part.old.number)) }
    ensures err { OnErr result (Both (λ share new. IsRefused part.old share part.new new) (share_of shares.old.items part.old.number) (share_of shares.new.items part.old.number)) }
    ensures fault { IfErr result (λ fault. fault ≡ NoMemory) }
    ensures others { (other : ℕ) → other ≢ part.old.number → share_of shares.new.items other ≡ share_of shares.old.items other }
{
    let table = part.number();
    let Some(mut share) = take_share(shares, table) else {
        unreachable!()
    };
    let came = part.part().attempt(alloc, &mut share, mark);
    put_share(shares, table, share);
    came
}

// What a part attempted is undone.
fn take_back_share(part: &mut BoxedPart, shares: &mut Vec<Option<Share>>, attempt: Attempt)
    requires belongs { Belongs part.old shares.old.items }
    requires attempted { (p : AnyPart) × (share : AnyShare) × (mark : ℕ) × (c : AnyChange) × IsSomeAnd (share_of shares.old.items part.old.number) (λ now. IsAttempted p share mark c attempt part.old now) }
    ensures left { (p : AnyPart) (share : AnyShare) (mark : ℕ) (c : AnyChange)
        → IsSomeAnd (share_of shares.old.items part.old.number) (λ now. IsAttempted p share mark c attempt part.old now)
        → IsSomeAnd (share_of shares.new.items part.old.number) (λ now. IsLeft p share part.new now) }
    ensures same { IsSameAs part.old part.new }
    ensures others { (other : ℕ) → other ≢ part.old.number → share_of shares.new.items other ≡ share_of shares.old.items other }
{
    let table = part.number();
    let Some(mut share) = take_share(shares, table) else {
        unreachable!()
    };
    part.part().take_back(&mut share, attempt);
    put_share(shares, table, share);
}

// What a part attempted is kept.
fn keep_share(part: &mut BoxedPart, shares: &mut Vec<Option<Share>>, attempt: Attempt, mark: Xid)
    requires belongs { Belongs part.old shares.old.items }
    requires attempted { (p : AnyPart) × (share : AnyShare) × (c : AnyChange) × IsSomeAnd (share_of shares.old.items part.old.number) (λ now. IsAttempted p share mark c attempt part.old now) }
    ensures kept { (p : AnyPart) (share : AnyShare) (c : AnyChange)
        → IsSomeAnd (share_of shares.old.items part.old.number) (λ now. IsAttempted p share mark c attempt part.old now)
        → IsSomeAnd (share_of shares.new.items part.old.number) (λ now. IsKept p share mark c part.new now) }
    ensures same { IsSameAs part.old part.new }
    ensures others { (other : ℕ) → other ≢ part.old.number → share_of shares.new.items other ≡ share_of shares.old.items other }
{
    let table = part.number();
    let Some(mut share) = take_share(shares, table) else {
        unreachable!()
    };
    part.part().keep(&mut share, attempt, mark);
    put_share(shares, table, share);
}

// The transaction waits with a change of the part's table.
fn wait_share(part: &mut BoxedPart, shares: &mut Vec<Option<Share>>, mark: Xid, cut: Change)
    requires belongs { Belongs part.old shares.old.items }
    requires share { IsSome (share_of shares.old.items part.old.number) }
    requires names { NamesTables (length part.old.store.schema) cut }
    ensures waits { (share : AnyShare) → share_of shares.old.items part.old.number ≡ Some share
        → (get part.old.store.world.opened share.number ≡ Some (opened_by share.list))
        × (part.new.store.world ≡ wanting part.old.store.world share.number (opened_by share.list) mark cut)
        × (share_of shares.new.items part.old.number ≡ Some (record share { list = share.list ++ Wants mark cut ∷ [] })) }
    ensures same { IsSameAs part.old part.new }
    ensures others { (other : ℕ) → other ≢ part.old.number → share_of shares.new.items other ≡ share_of shares.old.items other }
{
    let table = part.number();
    let Some(mut share) = take_share(shares, table) else {
        unreachable!()
    };
    part.part().wait_with(&mut share, mark, cut);
    put_share(shares, table, share);
}

// Each of the parts is truncated, to be kept or taken back, until another transaction is in the way, or the
// part refuses. Told is what was attempted.
fn try_each(
    alloc: Global,
    parts: &mut [BoxedPart],
    shares: &mut Vec<Option<Share>>,
    mark: Xid,
    tried: &mut Vec<Attempt>,
) -> Result<Option<Xid>, EngineFault>
    requires apart { AreApart parts.old }
    requires belong { BelongEach parts.old shares.old.items }
    requires shares { (i : ℕ) (p : AnyPart) → slice_get parts.old i ≡ Some p → IsSome (share_of shares.old.items p.number) }
    requires known { (i : ℕ) (p : AnyPart) → slice_get parts.old i ≡ Some p → p.number < length p.store.schema }
    requires none { tried.old.items ≡ [] }
    requires room { length parts.old ≤ vec_capacity tried.old }
    ensures within { length tried.new.items ≤ length parts.old }
    ensures ok { OnOk result (EachIs (Zones (length tried.new.items) (Attempts mark tried.new.items) (Stands false)) parts.old shares.old.items parts.new shares.new.items) }
    ensures all { result ≡ Ok None → length tried.new.items ≡ length parts.old }
    ensures held { (holder : ℕ) → result ≡ Ok (Some holder) → IsHeldInOne parts.old shares.old.items holder }
    ensures err { OnErr result (EachIs (Zones (length tried.new.items) (Attempts mark tried.new.items) (Stands true)) parts.old shares.old.items parts.new shares.new.items) }
    ensures fault { IfErr result (λ fault. fault ≡ NoMemory) }
{
    for i in 0..parts.len() {
        match attempt_share(alloc, &mut parts[i], shares, mark)? {
            Attempted::Done(attempt) => tried.push_reserved(attempt),
            Attempted::Held(holder) => return Ok(Some(holder)),
        }
    }
    Ok(None)
}

// What the parts attempted is undone.
fn take_back_each(parts: &mut [BoxedPart], shares: &mut Vec<Option<Share>>, tried: Vec<Attempt>)
    requires tried { (start : List AnyPart) × (all : AnyShares) × (mark : ℕ) × (waits : Bool) × AreApart start × BelongEach start all
        × (length tried.items ≤ length start)
        × EachIs (Zones (length tried.items) (Attempts mark tried.items) (Stands waits)) start all parts.old shares.old.items }
    ensures { (start : List AnyPart) (all : AnyShares) (mark : ℕ) (waits : Bool) → AreApart start
        → EachIs (Zones (length tried.items) (Attempts mark tried.items) (Stands waits)) start all parts.old shares.old.items
        → EachIs (Stands waits) start all parts.new shares.new.items }
{
    let mut tried = tried;
    while let Some(attempt) = tried.pop() {
        take_back_share(&mut parts[tried.len()], shares, attempt);
    }
}

// What the parts attempted is kept.
fn keep_each(
    parts: &mut [BoxedPart],
    shares: &mut Vec<Option<Share>>,
    tried: Vec<Attempt>,
    mark: Xid,
)
    requires tried { (start : List AnyPart) × (all : AnyShares) × AreApart start × BelongEach start all × (length tried.items ≡ length start)
        × EachIs (Zones (length tried.items) (Attempts mark tried.items) (Stands false)) start all parts.old shares.old.items }
    ensures { (start : List AnyPart) (all : AnyShares) → AreApart start → length tried.items ≡ length start
        → EachIs (Zones (length tried.items) (Attempts mark tried.items) (Stands false)) start all parts.old shares.old.items
        → EachIs (Keeps mark) start all parts.new shares.new.items }
{
    let mut tried = tried;
    while let Some(attempt) = tried.pop() {
        keep_share(&mut parts[tried.len()], shares, attempt, mark);
    }
}

// The transaction waits with the truncate in each of the parts.
fn wait_each(parts: &mut [BoxedPart], shares: &mut Vec<Option<Share>>, mark: Xid, cuts: Vec<Change>)
    requires waits { (start : List AnyPart) × (all : AnyShares) × AreApart start × BelongEach start all × (cuts.items ≡ map cut_of start) × CanWaitEach start all
        × EachIs (Stands false) start all parts.old shares.old.items }
    ensures { (start : List AnyPart) (all : AnyShares) → AreApart start → cuts.items ≡ map cut_of start → CanWaitEach start all
        → EachIs (Stands false) start all parts.old shares.old.items
        → EachIs Waits start all parts.new shares.new.items }
{
    let mut cuts = cuts;
    while let Some(cut) = cuts.pop() {
        wait_share(&mut parts[cuts.len()], shares, mark, cut);
    }
}

// Each of the parts is truncated, or in each the transaction waits with that, or each is left.
fn truncate_each(
    alloc: Global,
    parts: &mut [BoxedPart],
    shares: &mut Vec<Option<Share>>,
    mark: Xid,
    cuts: Vec<Change>,
) -> Result<Verdict, EngineFault>
    requires apart { AreApart parts.old }
    requires belong { BelongEach parts.old shares.old.items }
    requires shares { (i : ℕ) (p : AnyPart) → slice_get parts.old i ≡ Some p → IsSome (share_of shares.old.items p.number) }
    requires known { (i : ℕ) (p : AnyPart) → slice_get parts.old i ≡ Some p → p.number < length p.store.schema }
    requires cuts { cuts.items ≡ map cut_of parts.old }
    ensures { HasTruncated mark parts.old shares.old.items result parts.new shares.new.items }
{
    let mut tried = Vec::with_capacity(alloc, parts.len())?;
    match try_each(alloc, parts, shares, mark, &mut tried) {
        Ok(None) => {
            keep_each(parts, shares, tried, mark);
            Ok(Verdict::Acted(Acted::Done))
        }
        Ok(Some(holder)) => {
            take_back_each(parts, shares, tried);
            wait_each(parts, shares, mark, cuts);
            Ok(Verdict::Acted(Acted::Held(holder)))
        }
        Err(fault) => {
            take_back_each(parts, shares, tried);
            Err(fault)
        }
    }
}
