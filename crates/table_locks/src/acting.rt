// A change is tried.
ghost use Rattle.std.specs.Prelude.{◌≡◌, ◌≢◌, ◌⊎◌, ◌<◌, ◌++◌, ℕ, [], None, Ok, Err, IsSome, IfErr, OnOk, OnErr, length};
ghost use Rattle.std.specs.Sync.Mutex.{mutex_guard_value};
ghost use Rattle.model.specs.Named.{NamesTables};
ghost use Rattle.world.specs.World.{World};
ghost use Rattle.change.specs.declared.outcome.Clash.{Clash as AnyClash};
ghost use Rattle.live_tables.specs.declared.answers.EngineFault.TheVariants.{Clash as ClashFault, OutOfMemory as NoMemory};
ghost use Rattle.live_tables.specs.declared.answers.Verdict.TheVariants.{Clashes};
ghost use Rattle.live_tables.specs.Answers.{cause_of, told, TellsVerdict};
ghost use Rattle.engine.specs.Events.{opened_by, events_of};
ghost use Rattle.world_parts.specs.ByTable.{IsIn, change_at, changes_at};
ghost use Rattle.world_parts.specs.Parts.{wanted_by};
ghost use Rattle.parted_store.specs.Acting.{as_told};
ghost use Rattle.parted_store.specs.KeepsSound.{KeepsSoundRunning, StopsSound, ClashesHere};
ghost use Rattle.parted_store.specs.Lent.{HasTable, Stands};
ghost use Rattle.parted_store.specs.Shares.{share_of};
ghost use Rattle.table_locks.specs.TableStates.{Fits, IsKept, StaysFit};
ghost use Rattle.table_locks.specs.Answers.{IsTold};
ghost use Rattle.table_locks.specs.Clashing.{WasClash};
ghost use Rattle.table_locks.specs.Tickets.{IsTicket, IsTicketOf, HasRoom, waits_acted, done_acted};
ghost use Rattle.table_locks.specs.declared.ticket.Waits.{Waits as AnyWaits};

use crate::hidden::wait_for_ever;
use crate::names::StoreNames;
use crate::store::Store;
use crate::table_part::TablePart;
use crate::ticket::{Ticket, Waits, count_one};
use change::Clash;
use engine::{Acted, EngineFault, Verdict};
use live_tables::Stopped;
use model::{Change, OutOfMemory, TableId, Xid};
use parted_store::{BoxedPart, act_in, clash_in, come_to};
use std::alloc::Global;
use std::sync::{MutexGuard, Wait};
use table_parts::Part;
use world_parts::cutting::only_table;

impl<N: StoreNames> Store<N> {
    /// A subtransaction of an open transaction, which waits in none but the change's tables, tries a
    /// change. It takes the locks of the tables that the change names, and the journal's where the
    /// change clashes or names none.
    ///
    /// Stopped comes where one of the tables knows that the store is stopped, and where it is
    /// stopped and the change clashes or names no table. Held tells who is in the way, whatever
    /// stopped the store.
    pub fn act<R: Wait>(
        &self,
        rt: &R,
        alloc: Global,
        ticket: &mut Ticket<N>,
        sub: Xid,
        c: &Change,
    ) -> Result<Acted, EngineFault>
        requires names { NamesTables (length N.schema) c.now }
        requires waits { (table : ℕ) → change_at table c.now ≡ [] → changes_at table (wanted_by (opened_by ticket.old.events).wants) ≡ [] }
        ensures fault { IfErr result IsTold }
        ensures clashes { (clash : AnyClash) → result ≡ Err (ClashFault clash) → WasClash N.schema N.start ticket.new.number c.now clash }
        ensures events { ticket.new.events ≡ ticket.old.events ++ events_of sub c.now (told result) }
        ensures xid { ticket.new.number ≡ ticket.old.number }
    {
        match only_table(c) {
            Some(table) => self.act_in_table(rt, alloc, ticket, table, sub, c),
            None => self.truncate(rt, alloc, ticket, sub, c),
        }
    }

    /// A subtransaction of an open transaction, which waits in no other table, tries a change of
    /// this one. It takes the table's lock, and the journal's too where the change clashes.
    ///
    /// Stopped comes where the table knows that the store is stopped, or where the store is stopped
    /// and the change clashes. Held tells who is in the way, whatever stopped the store.
    pub fn act_in_table<R: Wait>(
        &self,
        rt: &R,
        alloc: Global,
        ticket: &mut Ticket<N>,
        table: TableId,
        sub: Xid,
        c: &Change,
    ) -> Result<Acted, EngineFault>
        requires names { NamesTables (length N.schema) c.now }
        requires known { table < length N.schema }
        requires its { IsIn table c.now }
        requires waits { (other : ℕ) → other ≢ table → changes_at other (wanted_by (opened_by ticket.old.events).wants) ≡ [] }
        ensures fault { IfErr result IsTold }
        ensures clashes { (clash : AnyClash) → result ≡ Err (ClashFault clash) → WasClash N.schema N.start ticket.new.number c.now clash }
        ensures events { ticket.new.events ≡ ticket.old.events ++ events_of sub c.now (told result) }
        ensures xid { ticket.new.number ≡ ticket.old.number }
    {
        let mut guard = self.lock_for_change(rt, table);
        if guard.is_stopped() {
            return Err(ticket.refuse(EngineFault::Stopped));
        }
        let part = guard.take(rt);
        self.act_with(rt, alloc, &mut guard, part, ticket, sub, c)
    }

    // With the part of its table, which is put back.
    fn act_with<R: Wait>(
        &self,
        rt: &R,
        alloc: Global,
        guard: &mut MutexGuard<'_, TablePart<N>>,
        mut part: BoxedPart,
        ticket: &mut Ticket<N>,
        sub: Xid,
        c: &Change,
    ) -> Result<Acted, EngineFault>
        requires lent { ((mutex_guard_value guard.old).part ≡ None) × ((mutex_guard_value guard.old).stopped ≡ None) }
        requires fits { Fits N.shares N.tables N.schema N.start (mutex_guard_value guard.old) part }
        requires known { part.number < length N.schema }
        requires names { NamesTables (length N.schema) c.now }
        requires its { IsIn part.number c.now }
        requires waits { (other : ℕ) → other ≢ part.number → changes_at other (wanted_by (opened_by ticket.old.events).wants) ≡ [] }
        ensures fault { IfErr result IsTold }
        ensures clashes { (clash : AnyClash) → result ≡ Err (ClashFault clash) → WasClash N.schema N.start ticket.new.number c.now clash }
        ensures events { ticket.new.events ≡ ticket.old.events ++ events_of sub c.now (told result) }
        ensures xid { ticket.new.number ≡ ticket.old.number }
    {
        match try_in(rt, alloc, self.tables.len(), part.part(), ticket, sub, c) {
            Ok(Verdict::Acted(acted)) => {
                guard.put(part);
                Ok(acted)
            }
            Ok(Verdict::Clashes(clash)) => {
                Err(self.clash_in_one(rt, guard, part, ticket, sub, c, clash))
            }
            Err(_) => {
                guard.put(part);
                Err(EngineFault::OutOfMemory)
            }
        }
    }

    // A change of a transaction that waits in no other table was tried in the part of its own, and
    // clashes there: it stops the store, unless that was stopped. Either way the part is put back.
    fn clash_in_one<R: Wait>(
        &self,
        rt: &R,
        guard: &mut MutexGuard<'_, TablePart<N>>,
        mut part: BoxedPart,
        ticket: &mut Ticket<N>,
        sub: Xid,
        c: &Change,
        clash: Clash,
    ) -> EngineFault
        requires lent { ((mutex_guard_value guard.old).part ≡ None) × ((mutex_guard_value guard.old).stopped ≡ None) }
        requires fits { Fits N.shares N.tables N.schema N.start (mutex_guard_value guard.old) part }
        requires came { IsSome (share_of ticket.old.shares part.number) × Stands part ticket.old.shares }
        requires clashes { ClashesHere part ticket.old.shares c.now clash }
        requires cause { IsSome (cause_of clash) }
        requires names { NamesTables (length N.schema) c.now }
        requires its { IsIn part.number c.now }
        requires waits { (other : ℕ) → other ≢ part.number → changes_at other (wanted_by (opened_by ticket.old.events).wants) ≡ [] }
        ensures cause { IsTold result }
        ensures clashes { (why : AnyClash) → result ≡ ClashFault why → WasClash N.schema N.start ticket.new.number c.now why }
        ensures events { ticket.new.events ≡ ticket.old.events ++ events_of sub c.now (told (Err result)) }
        ensures xid { ticket.new.number ≡ ticket.old.number }
    {
        ticket.recall_invariant();
        let Ok(noted) = c.copy() else {
            guard.put(part);
            return ticket.refuse(EngineFault::OutOfMemory);
        };
        let mut journal = self.journal.lock(rt);
        if journal.is_stopped() {
            guard.put(part);
            return ticket.refuse(EngineFault::Stopped);
        }
        let xid = ticket.xid();
        let fault = journal.clash(part.part(), ticket, sub, c, clash);
        if let EngineFault::Clash(_) = fault {
            guard.stop(Stopped::Clash {
                xid,
                change: noted,
                clash,
            });
            guard.put(part);
            journal.count_move();
            self.moved.notify_all();
        } else {
            guard.put(part);
        }
        fault
    }
}

// A change is tried in the part of its table, as though nothing had stopped the store, by a
// transaction that waits in no other. One that clashes alters nothing.
fn try_in<N: StoreNames, R: Wait>(
    rt: &R,
    alloc: Global,
    tables: usize,
    part: &mut Part,
    ticket: &mut Ticket<N>,
    sub: Xid,
    c: &Change,
) -> Result<Verdict, EngineFault>
    requires tables { tables ≡ length N.schema }
    requires kept { IsKept N.shares N.schema N.start part.old }
    requires names { NamesTables (length N.schema) c.now }
    requires its { IsIn part.old.number c.now }
    requires waits { (other : ℕ) → other ≢ part.old.number → changes_at other (wanted_by (opened_by ticket.old.events).wants) ≡ [] }
    ensures fits { StaysFit N.shares N.tables N.schema N.start part.old part.new }
    ensures sound { KeepsSoundRunning part.old part.new }
    ensures cause { TellsVerdict result }
    ensures fault { IfErr result (λ fault. fault ≡ NoMemory) }
    ensures clash { (clash : AnyClash) → result ≡ Ok (Clashes clash) → ClashesHere part.new ticket.new.shares c.now clash }
    ensures came { OnOk result (IsSome (share_of ticket.new.shares part.new.number) × Stands part.new ticket.new.shares) }
    ensures events { ticket.new.events ≡ ticket.old.events ++ events_of sub c.now (as_told result) }
    ensures xid { ticket.new.number ≡ ticket.old.number }
{
    if come(rt, alloc, tables, part, ticket).is_err() {
        return Err(ticket.refuse(EngineFault::OutOfMemory));
    }
    let answer = act_tied::<N>(alloc, part, &mut ticket.ticket, sub, c);
    ticket.waits = waits_behind(ticket.waits, &answer);
    ticket.done = done_behind(ticket.done, &answer);
    answer
}

// The change is tried there, by the ticket of a transaction that has a share there.
fn act_tied<N: StoreNames>(
    alloc: Global,
    part: &mut Part,
    ticket: &mut parted_store::Ticket,
    sub: Xid,
    c: &Change,
) -> Result<Verdict, EngineFault>
    requires kept { IsKept N.shares N.schema N.start part.old }
    requires ticket { IsTicketOf N.shares N.schema ticket.old }
    requires came { IsSome (share_of ticket.old.shares part.old.number) × Stands part.old ticket.old.shares }
    requires names { NamesTables (length N.schema) c.now }
    requires its { IsIn part.old.number c.now }
    requires waits { (other : ℕ) → other ≢ part.old.number → changes_at other (wanted_by (opened_by ticket.old.events).wants) ≡ [] }
    ensures fits { StaysFit N.shares N.tables N.schema N.start part.old part.new }
    ensures sound { KeepsSoundRunning part.old part.new }
    ensures cause { TellsVerdict result }
    ensures fault { IfErr result (λ fault. fault ≡ NoMemory) }
    ensures clash { (clash : AnyClash) → result ≡ Ok (Clashes clash) → ClashesHere part.new ticket.new.shares c.now clash }
    ensures came { IsSome (share_of ticket.new.shares part.new.number) × Stands part.new ticket.new.shares }
    ensures is { (waits : AnyWaits) → IsTicket N.shares N.schema waits ticket.old → IsTicket N.shares N.schema (waits_acted waits (as_told result)) ticket.new }
    ensures room { (tables room : ℕ) → HasRoom tables ticket.old room → HasRoom tables ticket.new room }
    ensures events { ticket.new.events ≡ ticket.old.events ++ events_of sub c.now (as_told result) }
    ensures xid { ticket.new.number ≡ ticket.old.number }
{
    act_in(alloc, part, &mut [], ticket, sub, c)
}

/// A change that was tried in the part of its table, and clashes there, stops the store, which
/// nothing had stopped. Its transaction waits in no other table.
pub(crate) fn clash_tied<N: StoreNames>(
    part: &mut Part,
    journal: &mut parted_store::Journal,
    ticket: &mut parted_store::Ticket,
    sub: Xid,
    c: &Change,
    clash: Clash,
) -> EngineFault
    requires kept { IsKept N.shares N.schema N.start part.old }
    requires ticket { IsTicketOf N.shares N.schema ticket.old }
    requires came { IsSome (share_of ticket.old.shares part.old.number) × Stands part.old ticket.old.shares }
    requires clashes { ClashesHere part.old ticket.old.shares c.now clash }
    requires cause { IsSome (cause_of clash) }
    requires names { NamesTables (length N.schema) c.now }
    requires its { IsIn part.old.number c.now }
    requires waits { (other : ℕ) → other ≢ part.old.number → changes_at other (wanted_by (opened_by ticket.old.events).wants) ≡ [] }
    ensures fault { (result ≡ ClashFault clash) ⊎ (result ≡ NoMemory) }
    ensures told { IsTold result }
    ensures fits { StaysFit N.shares N.tables N.schema N.start part.old part.new }
    ensures sound { result ≡ ClashFault clash → StopsSound ticket.old.number c.now clash part.old part.new }
    ensures same { result ≡ NoMemory → part.new ≡ part.old }
    ensures is { (waits : AnyWaits) → IsTicket N.shares N.schema waits ticket.old → IsTicket N.shares N.schema (waits_acted waits (told (Err result))) ticket.new }
    ensures room { (tables room : ℕ) → HasRoom tables ticket.old room → HasRoom tables ticket.new room }
    ensures events { ticket.new.events ≡ ticket.old.events ++ events_of sub c.now (told (Err result)) }
    ensures xid { ticket.new.number ≡ ticket.old.number }
    ensures line { journal.new.line ≡ journal.old.line }
{
    clash_in(part, &mut [], journal, ticket, sub, c, clash)
}

// Whether a transaction may wait somewhere once it tried a change, and waited in no other table.
fn waits_behind(waits: Waits, answer: &Result<Verdict, EngineFault>) -> Waits
    ensures { result ≡ waits_acted waits (as_told answer.now) }
{
    match answer {
        Ok(Verdict::Acted(Acted::Held(_))) => Waits::Somewhere,
        Ok(Verdict::Acted(_)) => Waits::Nowhere,
        Ok(Verdict::Clashes(_)) | Err(_) => waits,
    }
}

/// The same of a change that clashed, or for which memory was refused.
pub(crate) fn waits_refused(waits: Waits, fault: &EngineFault) -> Waits
    requires { IsTold fault.now }
    ensures { result ≡ waits_acted waits (told (Err fault.now)) }
{
    match fault {
        EngineFault::Clash(_) => Waits::Somewhere,
        _ => waits,
    }
}

// How many items a transaction has done once it tried a change.
fn done_behind(done: u64, answer: &Result<Verdict, EngineFault>) -> u64
    ensures { result ≡ done_acted done (as_told answer.now) }
{
    match answer {
        Ok(Verdict::Acted(acted)) => done_by(done, acted),
        Ok(Verdict::Clashes(_)) | Err(_) => done,
    }
}

/// The same, by what came of the change: one that waits is none of them.
pub(crate) fn done_by(done: u64, acted: &Acted) -> u64
    ensures { result ≡ done_acted done (told (Ok acted.now)) }
{
    match acted {
        Acted::Done | Acted::Skipped => count_one(done),
        Acted::Held(_) => done,
    }
}

// An open transaction comes to the table, unless it is there. Nothing is new in a world that has
// the part.
fn come<N: StoreNames, R: Wait>(
    rt: &R,
    alloc: Global,
    tables: usize,
    part: &mut Part,
    ticket: &mut Ticket<N>,
) -> Result<(), OutOfMemory>
    requires tables { tables ≡ length N.schema }
    requires known { part.old.number < length N.schema }
    requires kept { IsKept N.shares N.schema N.start part.old }
    ensures part { (w : World) → HasTable w part.old → HasTable w part.new }
    ensures fits { StaysFit N.shares N.tables N.schema N.start part.old part.new }
    ensures sound { KeepsSoundRunning part.old part.new }
    ensures share { OnOk result (IsSome (share_of ticket.new.shares part.new.number)) }
    ensures stands { OnOk result (Stands part.new ticket.new.shares) }
    ensures events { ticket.new.events ≡ ticket.old.events }
    ensures xid { ticket.new.number ≡ ticket.old.number }
{
    ticket.lent.reserve(tables)?;
    come_here::<N, R>(rt, alloc, part, &mut ticket.ticket)
}

/// The same, of the ticket alone.
pub(crate) fn come_here<N: StoreNames, R: Wait>(
    rt: &R,
    alloc: Global,
    part: &mut Part,
    ticket: &mut parted_store::Ticket,
) -> Result<(), OutOfMemory>
    requires known { part.old.number < length N.schema }
    requires kept { IsKept N.shares N.schema N.start part.old }
    requires ticket { IsTicketOf N.shares N.schema ticket.old }
    ensures part { (w : World) → HasTable w part.old → HasTable w part.new }
    ensures fits { StaysFit N.shares N.tables N.schema N.start part.old part.new }
    ensures sound { KeepsSoundRunning part.old part.new }
    ensures share { OnOk result (IsSome (share_of ticket.new.shares part.new.number)) }
    ensures stands { OnOk result (Stands part.new ticket.new.shares) }
    ensures others { (other : ℕ) → other ≢ part.old.number → share_of ticket.new.shares other ≡ share_of ticket.old.shares other }
    ensures is { (waits : AnyWaits) → IsTicket N.shares N.schema waits ticket.old → IsTicket N.shares N.schema waits ticket.new }
    ensures events { ticket.new.events ≡ ticket.old.events }
    ensures xid { ticket.new.number ≡ ticket.old.number }
{
    match come_tied::<N>(alloc, part, ticket) {
        Ok(()) => Ok(()),
        Err(EngineFault::OutOfMemory) => Err(OutOfMemory),
        // The table would have a transaction of this number that no ticket tells of, or too many.
        Err(_) => wait_for_ever(rt),
    }
}

// The same, where the table's refusal is answered.
fn come_tied<N: StoreNames>(
    alloc: Global,
    part: &mut Part,
    ticket: &mut parted_store::Ticket,
) -> Result<(), EngineFault>
    requires known { part.old.number < length N.schema }
    requires kept { IsKept N.shares N.schema N.start part.old }
    requires ticket { IsTicketOf N.shares N.schema ticket.old }
    ensures part { (w : World) → HasTable w part.old → HasTable w part.new }
    ensures fits { StaysFit N.shares N.tables N.schema N.start part.old part.new }
    ensures sound { KeepsSoundRunning part.old part.new }
    ensures share { OnOk result (IsSome (share_of ticket.new.shares part.new.number)) }
    ensures stands { OnOk result (Stands part.new ticket.new.shares) }
    ensures err { OnErr result ((table : ℕ) → share_of ticket.new.shares table ≡ share_of ticket.old.shares table) }
    ensures others { (other : ℕ) → other ≢ part.old.number → share_of ticket.new.shares other ≡ share_of ticket.old.shares other }
    ensures is { (waits : AnyWaits) → IsTicket N.shares N.schema waits ticket.old → IsTicket N.shares N.schema waits ticket.new }
    ensures events { ticket.new.events ≡ ticket.old.events }
    ensures xid { ticket.new.number ≡ ticket.old.number }
{
    ticket.recall_invariant();
    let answer = come_to(alloc, part, ticket);
    ticket.recall_invariant();
    answer
}
