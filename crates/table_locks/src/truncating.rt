// A truncate of several tables.
ghost use Rattle.std.specs.Prelude.{◌≡◌, ◌≢◌, ◌<◌, ◌≤◌, ◌++◌, ℕ, List, [], true, false, None, IsSome, IfErr, IfSome, OnOk, length, vec_capacity};
ghost use Rattle.model.specs.Named.{NamesTables};
ghost use Rattle.live_tables.specs.Answers.{told};
ghost use Rattle.engine.specs.Events.{opened_by, events_of};
ghost use Rattle.world_parts.specs.ByTable.{changes_at};
ghost use Rattle.world_parts.specs.Parts.{wanted_by};
ghost use Rattle.table_parts.specs.Part.{Part as AnyPart};
ghost use Rattle.parted_store.specs.Acting.{as_told};
ghost use Rattle.parted_store.specs.EachPart.{AreApart, IsBeside};
ghost use Rattle.parted_store.specs.KeepsSound.{KeepsSoundRunning};
ghost use Rattle.parted_store.specs.Lent.{Stands};
ghost use Rattle.parted_store.specs.Shares.{share_of};
ghost use Rattle.parted_store.specs.Touching.{IsRefusal};
ghost use Rattle.parted_store.specs.Truncating.{CutsHere, TellsTruncate};
ghost use Rattle.table_locks.specs.Lending.{state_of, KeptEach, CoversAlone};
ghost use Rattle.table_locks.specs.TableStates.{IsKept, StaysFit};
ghost use Rattle.table_locks.specs.Tickets.{IsTicket, IsTicketOf, waits_acted, done_acted};
ghost use Rattle.table_locks.specs.Truncating.{IsTruncate, wipes_table, AreRunning, KnownEach, StayRunning, StandEach};
ghost use Rattle.table_locks.specs.declared.ticket.Waits.{Waits as AnyWaits};

use crate::acting::{come_here, done_by};
use crate::locks::{Needs, lend_each, no_guards, put_each};
use crate::names::StoreNames;
use crate::stopping::count_in;
use crate::store::Store;
use crate::table_part::TablePart;
use crate::ticket::{Ticket, Waits};
use engine::{Acted, EngineFault, Verdict};
use model::{Change, OutOfMemory, TableId, Xid};
use parted_store::{BoxedPart, truncate_in};
use std::alloc::Global;
use std::sync::{MutexGuard, Wait};

/// The tables that a truncate names.
impl Needs for Change {
    ghost use Rattle.table_locks.specs.Truncating.{wipes_table};

    ghost needs = { wipes_table };

    fn needs_table(&self, table: TableId) -> bool {
        match self {
            Change::Wipe { tables } => tables.ids().contains(&table),
            _ => false,
        }
    }
}

impl<N: StoreNames> Store<N> {
    /// A subtransaction of an open transaction, which waits in no table but these, tries a truncate
    /// of several tables, of none, or of one that it names twice. It takes the locks of its tables,
    /// and holds them until it is done in all of them, or waits in all. It never clashes.
    ///
    /// Stopped comes where one of the tables knows that the store is stopped; where none is named
    /// the journal does.
    pub fn truncate<R: Wait>(
        &self,
        rt: &R,
        alloc: Global,
        ticket: &mut Ticket<N>,
        sub: Xid,
        c: &Change,
    ) -> Result<Acted, EngineFault>
        requires names { NamesTables (length N.schema) c.now }
        requires truncate { IsTruncate c.now }
        requires waits { (table : ℕ) → wipes_table c.now table ≡ false → changes_at table (wanted_by (opened_by ticket.old.events).wants) ≡ [] }
        ensures fault { IfErr result IsRefusal }
        ensures events { ticket.new.events ≡ ticket.old.events ++ events_of sub c.now (told result) }
        ensures xid { ticket.new.number ≡ ticket.old.number }
    {
        let mut guards = no_guards(self);
        self.truncate_with(rt, alloc, &mut guards, ticket, sub, c)
    }

    // With the places in which its guards are to lie.
    fn truncate_with<'a, R: Wait>(
        &'a self,
        rt: &R,
        alloc: Global,
        guards: &mut [Option<MutexGuard<'a, TablePart<N>>>],
        ticket: &mut Ticket<N>,
        sub: Xid,
        c: &Change,
    ) -> Result<Acted, EngineFault>
        requires guards { length N.schema ≤ length guards.old }
        requires names { NamesTables (length N.schema) c.now }
        requires truncate { IsTruncate c.now }
        requires waits { (table : ℕ) → wipes_table c.now table ≡ false → changes_at table (wanted_by (opened_by ticket.old.events).wants) ≡ [] }
        ensures fault { IfErr result IsRefusal }
        ensures events { ticket.new.events ≡ ticket.old.events ++ events_of sub c.now (told result) }
        ensures xid { ticket.new.number ≡ ticket.old.number }
    {
        if ticket.lent.reserve(self.tables.len()).is_err() {
            return Err(ticket.refuse(EngineFault::OutOfMemory));
        }
        let lent = &mut ticket.lent;
        let answer = self.truncate_lent(rt, alloc, guards, lent, &mut ticket.ticket, sub, c);
        ticket.waits = waits_cut(ticket.waits, &answer);
        ticket.done = done_cut(ticket.done, &answer);
        answer
    }

    // With room for the parts of its tables, while they are lent.
    fn truncate_lent<'a, R: Wait>(
        &'a self,
        rt: &R,
        alloc: Global,
        guards: &mut [Option<MutexGuard<'a, TablePart<N>>>],
        lent: &mut Vec<BoxedPart>,
        ticket: &mut parted_store::Ticket,
        sub: Xid,
        c: &Change,
    ) -> Result<Acted, EngineFault>
        requires guards { length N.schema ≤ length guards.old }
        requires none { lent.old.items ≡ [] }
        requires room { length N.schema ≤ vec_capacity lent.old }
        requires ticket { IsTicketOf N.shares N.schema ticket.old }
        requires names { NamesTables (length N.schema) c.now }
        requires truncate { IsTruncate c.now }
        requires waits { (table : ℕ) → wipes_table c.now table ≡ false → changes_at table (wanted_by (opened_by ticket.old.events).wants) ≡ [] }
        ensures none { lent.new.items ≡ [] }
        ensures capacity { vec_capacity lent.new ≡ vec_capacity lent.old }
        ensures fault { IfErr result IsRefusal }
        ensures is { (waits : AnyWaits) → IsTicket N.shares N.schema waits ticket.old → IsTicket N.shares N.schema (waits_acted waits (told result)) ticket.new }
        ensures events { ticket.new.events ≡ ticket.old.events ++ events_of sub c.now (told result) }
        ensures xid { ticket.new.number ≡ ticket.old.number }
    {
        lend_each(rt, self, c, guards, lent);
        if !self.runs(rt, guards, lent.len()) {
            put_each(guards, lent);
            return Err(ticket.refuse(EngineFault::Stopped));
        }
        let xid = ticket.xid();
        let before = count_in(lent, xid);
        let answer = truncate_parts::<N, R>(rt, alloc, lent.as_mut_slice(), ticket, sub, c);
        self.tell_truncate(rt, xid, &answer, count_in(lent, xid).wrapping_sub(before));
        put_each(guards, lent);
        answer
    }

    // A truncate is counted, if it was done, of which the parts that are lent count so many more.
    fn tell_truncate<R: Wait>(
        &self,
        rt: &R,
        xid: Xid,
        answer: &Result<Acted, EngineFault>,
        counted: u64,
    ) {
        let items = match answer {
            Ok(Acted::Done | Acted::Skipped) => 1,
            Ok(Acted::Held(_)) | Err(_) => 0,
        };
        self.journal.lock(rt).count_items(xid, items, counted);
    }

    // Whether none of the first so many tables knows that the store is stopped; where there are
    // none, whether the journal knows of nothing that stopped it.
    fn runs<R: Wait>(
        &self,
        rt: &R,
        guards: &[Option<MutexGuard<'_, TablePart<N>>>],
        count: usize,
    ) -> bool
        requires { count ≤ length guards.now }
        ensures { result ≡ true → AreRunning guards.now count }
    {
        if count == 0 && self.journal.lock(rt).is_stopped() {
            return false;
        }
        are_running(guards, count)
    }
}

// Whether none of the first so many tables knows that the store is stopped.
fn are_running<N: StoreNames>(guards: &[Option<MutexGuard<'_, TablePart<N>>>], count: usize) -> bool
    requires { count ≤ length guards.now }
    ensures { result ≡ true → AreRunning guards.now count }
{
    for place in &guards[..count] {
        if !is_running(place) {
            return false;
        }
    }
    true
}

// Whether the table under this lock knows of nothing that stopped it.
fn is_running<N: StoreNames>(place: &Option<MutexGuard<'_, TablePart<N>>>) -> bool
    ensures { result ≡ true → IfSome (state_of place.now) (λ s. s.stopped ≡ None) }
{
    match place {
        Some(guard) => !guard.is_stopped(),
        None => true,
    }
}

// The truncate, lent the parts of its tables, none of which knows that the store is stopped. The
// transaction comes to those in which it did nothing yet.
fn truncate_parts<N: StoreNames, R: Wait>(
    rt: &R,
    alloc: Global,
    lent: &mut [BoxedPart],
    ticket: &mut parted_store::Ticket,
    sub: Xid,
    c: &Change,
) -> Result<Acted, EngineFault>
    requires kept { KeptEach N.shares N.schema N.start lent.old }
    requires known { KnownEach N.schema lent.old }
    requires apart { AreApart lent.old }
    requires ticket { IsTicketOf N.shares N.schema ticket.old }
    requires cuts { (tables : List ℕ) × CutsHere c.now tables lent.old }
    requires waits { (table : ℕ) → IsBeside lent.old table → changes_at table (wanted_by (opened_by ticket.old.events).wants) ≡ [] }
    ensures still { StayRunning N.shares N.tables N.schema N.start lent.old lent.new }
    ensures fault { IfErr result IsRefusal }
    ensures is { (waits : AnyWaits) → IsTicket N.shares N.schema waits ticket.old → IsTicket N.shares N.schema (waits_acted waits (told result)) ticket.new }
    ensures events { ticket.new.events ≡ ticket.old.events ++ events_of sub c.now (told result) }
    ensures xid { ticket.new.number ≡ ticket.old.number }
{
    if come_each::<N, R>(rt, alloc, lent, ticket).is_err() {
        return Err(ticket.refuse(EngineFault::OutOfMemory));
    }
    acted_of(truncate_tied::<N>(alloc, lent, ticket, sub, c))
}

// An open transaction comes to each of the tables, unless it is there.
fn come_each<N: StoreNames, R: Wait>(
    rt: &R,
    alloc: Global,
    lent: &mut [BoxedPart],
    ticket: &mut parted_store::Ticket,
) -> Result<(), OutOfMemory>
    requires kept { KeptEach N.shares N.schema N.start lent.old }
    requires known { KnownEach N.schema lent.old }
    requires apart { AreApart lent.old }
    requires ticket { IsTicketOf N.shares N.schema ticket.old }
    ensures still { StayRunning N.shares N.tables N.schema N.start lent.old lent.new }
    ensures alone { OnOk result (CoversAlone lent.new ticket.new.shares) }
    ensures stand { OnOk result (StandEach lent.new ticket.new.shares) }
    ensures is { (waits : AnyWaits) → IsTicket N.shares N.schema waits ticket.old → IsTicket N.shares N.schema waits ticket.new }
    ensures events { ticket.new.events ≡ ticket.old.events }
    ensures xid { ticket.new.number ≡ ticket.old.number }
{
    for i in 0..lent.len() {
        come_boxed::<N, R>(rt, alloc, &mut lent[i], ticket)?;
    }
    Ok(())
}

// It comes to one of them, which is boxed.
fn come_boxed<N: StoreNames, R: Wait>(
    rt: &R,
    alloc: Global,
    part: &mut BoxedPart,
    ticket: &mut parted_store::Ticket,
) -> Result<(), OutOfMemory>
    requires kept { IsKept N.shares N.schema N.start part.old }
    requires known { part.old.number < length N.schema }
    requires ticket { IsTicketOf N.shares N.schema ticket.old }
    ensures fits { StaysFit N.shares N.tables N.schema N.start part.old part.new }
    ensures sound { KeepsSoundRunning part.old part.new }
    ensures share { OnOk result (IsSome (share_of ticket.new.shares part.new.number)) }
    ensures stands { OnOk result (Stands part.new ticket.new.shares) }
    ensures others { (other : ℕ) → other ≢ part.old.number → share_of ticket.new.shares other ≡ share_of ticket.old.shares other }
    ensures is { (waits : AnyWaits) → IsTicket N.shares N.schema waits ticket.old → IsTicket N.shares N.schema waits ticket.new }
    ensures events { ticket.new.events ≡ ticket.old.events }
    ensures xid { ticket.new.number ≡ ticket.old.number }
{
    come_here::<N, R>(rt, alloc, part.part(), ticket)
}

// The truncate is tried in each of the parts, to which its transaction came.
fn truncate_tied<N: StoreNames>(
    alloc: Global,
    lent: &mut [BoxedPart],
    ticket: &mut parted_store::Ticket,
    sub: Xid,
    c: &Change,
) -> Result<Verdict, EngineFault>
    requires kept { KeptEach N.shares N.schema N.start lent.old }
    requires known { KnownEach N.schema lent.old }
    requires apart { AreApart lent.old }
    requires ticket { IsTicketOf N.shares N.schema ticket.old }
    requires alone { CoversAlone lent.old ticket.old.shares }
    requires stand { StandEach lent.old ticket.old.shares }
    requires cuts { (tables : List ℕ) × CutsHere c.now tables lent.old }
    requires waits { (table : ℕ) → IsBeside lent.old table → changes_at table (wanted_by (opened_by ticket.old.events).wants) ≡ [] }
    ensures still { StayRunning N.shares N.tables N.schema N.start lent.old lent.new }
    ensures tells { TellsTruncate lent.old ticket.old.number result }
    ensures is { (waits : AnyWaits) → IsTicket N.shares N.schema waits ticket.old → IsTicket N.shares N.schema (waits_acted waits (as_told result)) ticket.new }
    ensures events { ticket.new.events ≡ ticket.old.events ++ events_of sub c.now (as_told result) }
    ensures xid { ticket.new.number ≡ ticket.old.number }
{
    truncate_in(alloc, lent, &mut [], ticket, sub, c)
}

// The answer to a truncate, which never clashes.
fn acted_of(answer: Result<Verdict, EngineFault>) -> Result<Acted, EngineFault>
    requires { (parts : List AnyPart) × (xid : ℕ) × TellsTruncate parts xid answer }
    ensures told { told result ≡ as_told answer }
    ensures fault { IfErr result IsRefusal }
{
    match answer {
        Ok(Verdict::Acted(acted)) => Ok(acted),
        Ok(Verdict::Clashes(_)) => unreachable!(),
        Err(_) => Err(EngineFault::OutOfMemory),
    }
}

// Whether a transaction may wait somewhere once it tried a truncate, and waited in no other table.
fn waits_cut(waits: Waits, answer: &Result<Acted, EngineFault>) -> Waits
    requires { IfErr answer.now IsRefusal }
    ensures { result ≡ waits_acted waits (told answer.now) }
{
    match answer {
        Ok(Acted::Held(_)) => Waits::Somewhere,
        Ok(_) => Waits::Nowhere,
        Err(_) => waits,
    }
}

// How many items a transaction has done once it tried a truncate.
fn done_cut(done: u64, answer: &Result<Acted, EngineFault>) -> u64
    requires { IfErr answer.now IsRefusal }
    ensures { result ≡ done_acted done (told answer.now) }
{
    match answer {
        Ok(acted) => done_by(done, acted),
        Err(_) => done,
    }
}
