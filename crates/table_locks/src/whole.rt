// All is one world again: one hand has the line and the ticket of each open transaction, and learns
// under all locks what the store is.
ghost use Rattle.std.specs.Prelude.{◌≡◌, ◌<◌, ◌≤◌, if◌then◌else◌, ℕ, true, Option, Some, None, IsSome, length};
ghost use Rattle.model.specs.declared.change.Change.{Change as AnyChange};
ghost use Rattle.model.specs.Effect.{ClashCause};
ghost use Rattle.world.specs.World.{Stop as AnyStop, ByClash};
ghost use Rattle.live_tables.specs.Answers.{cause_of, TellsWhatStopped};
ghost use Rattle.table_parts.specs.Part.{Part as AnyPart};
ghost use Rattle.table_locks.specs.Lending.{state_of};
ghost use Rattle.table_locks.specs.Reading.{IsLockedAt};
ghost use Rattle.table_locks.specs.TableStates.{TableState};
ghost use Rattle.table_locks.specs.Noted.{TellsStill, IsFound};
ghost use Rattle.table_locks.specs.Whole.{AreTickets, AreDifferent, AreOpen, AreAllOpen, IsMetIn, AreMetIn, WantsStill, IsNotedIn, IsNotedBy, IsMetWhole, AreSameStates};

use crate::hidden::wait_for_ever;
use crate::journal::Journal;
use crate::locks::no_guards;
use crate::meeting::{are_different, recall_each};
use crate::names::StoreNames;
use crate::store::Store;
use crate::stuck::find_stuck;
use crate::table_part::TablePart;
use crate::ticket::Ticket;
use change::Clash;
use engine::Stop;
use model::{TableId, Xid};
use parted_store::Line;
use std::sync::{MutexGuard, Wait};

/// What is found of a store where all is one world: what stopped it, if anything did; the clash that
/// did, if its transaction wants a change still; and whom the transaction waits for that was asked
/// for, if nothing goes on.
#[derive(Clone, Copy, Debug, PartialEq, Eq)]
pub struct Found {
    pub stop: Option<Stop>,
    pub noted: Option<Clash>,
    pub holder: Option<Xid>,
}

impl<N: StoreNames> Store<N> {
    /// Learns what the store is as one world, by whoever has its line and the ticket of each open
    /// transaction: a world that a run may have, in which just these are open, each as its ticket
    /// tells. It answers what stopped the store, and, where a waiter is named, whom that waits for,
    /// if each transaction has done as many items as were sent to it, or waits. Neither line nor
    /// tickets change, and it takes no memory.
    ///
    /// It takes the locks of all tables, in the catalog's order, and the journal's, and holds them
    /// to its end, so all this is of one moment. Where a ticket is missing it waits for ever, and
    /// where a clash stopped the store whose transaction waits in another table.
    pub fn meet_all<R: Wait>(
        &self,
        rt: &R,
        line: &mut Line,
        tickets: &mut [Ticket<N>],
        waiter: Option<Xid>,
        sent: &[(Xid, u64)],
    ) -> Found
        requires { line.old.name ≡ N.line }
        ensures whole { (stopped : Option AnyStop) × TellsWhatStopped result.stop stopped
            × IsFound N.schema N.start line.old.list tickets.old sent.now waiter stopped result.noted result.holder }
        ensures line { line.new ≡ line.old }
        ensures tickets { tickets.new ≡ tickets.old }
    {
        let mut guards = no_guards(self);
        self.meet_with(rt, &mut guards, line, tickets, waiter, sent)
    }

    // With the places in which its guards are to lie.
    fn meet_with<'a, R: Wait>(
        &'a self,
        rt: &R,
        guards: &mut [Option<MutexGuard<'a, TablePart<N>>>],
        line: &mut Line,
        tickets: &mut [Ticket<N>],
        waiter: Option<Xid>,
        sent: &[(Xid, u64)],
    ) -> Found
        requires guards { length N.schema ≤ length guards.old }
        requires line { line.old.name ≡ N.line }
        ensures whole { (stopped : Option AnyStop) × TellsWhatStopped result.stop stopped
            × IsFound N.schema N.start line.old.list tickets.old sent.now waiter stopped result.noted result.holder }
        ensures line { line.new ≡ line.old }
        ensures tickets { tickets.new ≡ tickets.old }
    {
        self.lock_all(rt, guards);
        let tables = self.tables.len();
        let mut journal = self.journal.lock(rt);
        let (stop, noted) = journal.meet_whole(rt, guards, tables, line, tickets);
        let holder = find_stuck(rt, guards, tables, tickets, waiter, sent);
        Found {
            stop,
            noted,
            holder,
        }
    }

    /// Locks all tables, in the catalog's order: the guard of each lies in the place of its number.
    pub(crate) fn lock_all<'a, R: Wait>(
        &'a self,
        rt: &R,
        guards: &mut [Option<MutexGuard<'a, TablePart<N>>>],
    )
        requires { length N.schema ≤ length guards.old }
        ensures locked { (table : ℕ) → table < length N.schema → IsLockedAt guards.new table }
        ensures long { length guards.new ≡ length guards.old }
    {
        for table in 0..self.tables.len() {
            guards[table] = Some(self.lock_table(rt, table));
        }
    }
}

impl<N: StoreNames> Journal<N> {
    /// Learns what the store is as one world, under the locks of all tables, of which each lies in
    /// the place of its number.
    pub(crate) fn meet_whole<R: Wait>(
        &mut self,
        rt: &R,
        guards: &mut [Option<MutexGuard<'_, TablePart<N>>>],
        tables: usize,
        line: &mut Line,
        tickets: &mut [Ticket<N>],
    ) -> (Option<Stop>, Option<Clash>)
        requires line { line.old.name ≡ N.line }
        requires tables { tables ≡ length N.schema }
        requires guards { tables ≤ length guards.old }
        requires locked { (table : ℕ) → table < tables → IsLockedAt guards.old table }
        ensures whole { (stopped : Option AnyStop) × TellsWhatStopped result.0 stopped
            × IsMetWhole N.shares N.tables N.schema N.start line.old.list tickets.old guards.old stopped × TellsStill tickets.old stopped result.1 }
        ensures guards { AreSameStates guards.old guards.new }
        ensures line { line.new ≡ line.old }
        ensures tickets { tickets.new ≡ tickets.old }
    {
        self.part.meet(line);
        recall_each(tickets);
        if !self.are_all_open(tickets) {
            wait_for_ever(rt);
        }
        self.meet_tables(rt, guards, tables, tickets);
        let stop = self.part.stop();
        let noted = meet_stop(rt, guards, tables, tickets, &stop);
        (stop, noted)
    }

    // Whether the tickets are those of the transactions that are open.
    fn are_all_open(&self, tickets: &[Ticket<N>]) -> bool
        ensures { result ≡ true → AreAllOpen self.now.part.line.list tickets.now }
    {
        self.part.recall_open();
        tickets.len() == self.part.open_count() && are_different(tickets) && self.are_open(tickets)
    }

    // Whether the transaction of each is open.
    fn are_open(&self, tickets: &[Ticket<N>]) -> bool
        ensures { result ≡ true → AreOpen self.now.part.line.list tickets.now }
    {
        for ticket in tickets {
            if !self.part.is_open(ticket.xid()) {
                return false;
            }
        }
        true
    }

    // Learns that under the locks of so many tables lie their parts, each with the journal's
    // commits in the table, and with what the tickets tell of their transactions.
    fn meet_tables<R: Wait>(
        &mut self,
        rt: &R,
        guards: &mut [Option<MutexGuard<'_, TablePart<N>>>],
        tables: usize,
        tickets: &mut [Ticket<N>],
    )
        requires tables { tables ≡ length N.schema }
        requires guards { tables ≤ length guards.old }
        requires locked { (table : ℕ) → table < tables → IsLockedAt guards.old table }
        requires tickets { AreTickets N.shares N.schema tickets.old }
        requires apart { AreDifferent tickets.old }
        ensures met { AreMetIn N.shares N.tables N.schema N.start self.old.part.line.list tickets.old guards.old }
        ensures guards { AreSameStates guards.old guards.new }
        ensures same { self.new ≡ self.old }
        ensures tickets { tickets.new ≡ tickets.old }
    {
        for table in 0..tables {
            self.meet_place_in(rt, &mut guards[table], tickets);
        }
    }

    // Under one of these locks.
    fn meet_place_in<R: Wait>(
        &mut self,
        rt: &R,
        place: &mut Option<MutexGuard<'_, TablePart<N>>>,
        tickets: &mut [Ticket<N>],
    )
        requires there { IsSome (state_of place.old) }
        requires tickets { AreTickets N.shares N.schema tickets.old }
        requires apart { AreDifferent tickets.old }
        ensures met { (s : TableState) → state_of place.old ≡ Some s
            → (p : AnyPart) × IsMetIn N.shares N.tables N.schema N.start self.old.part.line.list tickets.old s.number s p }
        ensures place { state_of place.new ≡ state_of place.old }
        ensures same { self.new ≡ self.old }
        ensures tickets { tickets.new ≡ tickets.old }
    {
        let Some(mut guard) = place.take() else {
            unreachable!()
        };
        self.meet_in(rt, &mut *guard, tickets);
        *place = Some(guard);
    }

    // Of the part that lies there.
    fn meet_in<R: Wait>(&mut self, rt: &R, table: &mut TablePart<N>, tickets: &mut [Ticket<N>])
        requires tickets { AreTickets N.shares N.schema tickets.old }
        requires apart { AreDifferent tickets.old }
        ensures met { (p : AnyPart) × IsMetIn N.shares N.tables N.schema N.start self.old.part.line.list tickets.old table.old.number table.old p }
        ensures table { table.new ≡ table.old }
        ensures same { self.new ≡ self.old }
        ensures tickets { tickets.new ≡ tickets.old }
    {
        table.meet(&mut self.tables);
        table.meet_tickets(rt, tickets);
    }
}

// Where a clash stopped the store, the table of its change knows of it, and the clash's transaction
// waits with nothing else. What isn't so waits for ever. It answers the clash, if its transaction
// wants a change still.
fn meet_stop<N: StoreNames, R: Wait>(
    rt: &R,
    guards: &mut [Option<MutexGuard<'_, TablePart<N>>>],
    tables: usize,
    tickets: &mut [Ticket<N>],
    stop: &Option<Stop>,
) -> Option<Clash>
    requires guards { tables ≤ length guards.old }
    requires locked { (table : ℕ) → table < tables → IsLockedAt guards.old table }
    ensures noted { (stopped : Option AnyStop) × TellsWhatStopped stop.now stopped × IsNotedBy tables tickets.old guards.old stopped × TellsStill tickets.old stopped result }
    ensures guards { AreSameStates guards.old guards.new }
    ensures tickets { tickets.new ≡ tickets.old }
{
    match stop {
        None => None,
        Some(stop) => meet_stopped(rt, guards, tables, tickets, stop),
    }
}

// The same of what stopped it.
fn meet_stopped<N: StoreNames, R: Wait>(
    rt: &R,
    guards: &mut [Option<MutexGuard<'_, TablePart<N>>>],
    tables: usize,
    tickets: &mut [Ticket<N>],
    stop: &Stop,
) -> Option<Clash>
    requires guards { tables ≤ length guards.old }
    requires locked { (table : ℕ) → table < tables → IsLockedAt guards.old table }
    ensures noted { (stopped : Option AnyStop) × TellsWhatStopped (Some stop.now) stopped × IsNotedBy tables tickets.old guards.old stopped × TellsStill tickets.old stopped result }
    ensures guards { AreSameStates guards.old guards.new }
    ensures tickets { tickets.new ≡ tickets.old }
{
    match stop {
        Stop::Held(..) => None,
        Stop::Clash(xid, clash) => {
            let table = table_of(rt, *clash);
            if table >= tables {
                wait_for_ever(rt);
            }
            still(
                meet_clash(rt, &mut guards[table], tickets, *xid, *clash),
                *clash,
            )
        }
    }
}

// The clash, if its transaction wants a change still.
fn still(wants: bool, clash: Clash) -> Option<Clash>
    ensures { result ≡ (if wants then Some clash else None) }
{
    if wants { Some(clash) } else { None }
}

// The table of a clash. What has none waits for ever.
fn table_of<R: Wait>(rt: &R, clash: Clash) -> TableId {
    match clash {
        Clash::Unique { table, .. } | Clash::NullKey { table } => table,
        Clash::OutOfMemory => wait_for_ever(rt),
    }
}

// The same of a clash, and the lock of its table. It answers whether the clash's transaction wants
// a change still.
fn meet_clash<N: StoreNames, R: Wait>(
    rt: &R,
    place: &mut Option<MutexGuard<'_, TablePart<N>>>,
    tickets: &mut [Ticket<N>],
    xid: Xid,
    clash: Clash,
) -> bool
    requires there { IsSome (state_of place.old) }
    ensures noted { (s : TableState) → state_of place.old ≡ Some s
        → (c : AnyChange) × (cause : ClashCause) × (cause_of clash ≡ Some cause) × (s.stopped ≡ Some (ByClash xid c cause)) × IsNotedIn tickets.old s.stopped xid c s.number s }
    ensures told { WantsStill tickets.old xid result }
    ensures place { state_of place.new ≡ state_of place.old }
    ensures tickets { tickets.new ≡ tickets.old }
{
    let Some(mut guard) = place.take() else {
        unreachable!()
    };
    if !guard.knows(xid, clash) {
        wait_for_ever(rt);
    }
    let wants = guard.meet_waiting(rt, tickets, xid);
    *place = Some(guard);
    wants
}
