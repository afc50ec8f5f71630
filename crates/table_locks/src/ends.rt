// The end of an open transaction.
ghost use Rattle.std.specs.Prelude.{◌≡◌, ◌<◌, ◌≤◌, ◌++◌, ◌∷◌, [], true, None, Some, IfSome, length};
ghost use Rattle.model.specs.Beginning.{last_end};
ghost use Rattle.engine.specs.declared.events.LineEvent.TheVariants.{Committed as WasCommitted, Aborted as WasAborted};
ghost use Rattle.engine.specs.Events.{opened_by, commits_in, ends_in};
ghost use Rattle.table_locks.specs.Ending.{AreBefore, AreTold, TellsState, past_by};
ghost use Rattle.table_locks.specs.Lending.{state_of, AreEmpty, NumberedApart, AreMet, StayEach, FitEach};
ghost use Rattle.table_locks.specs.TableStates.{TableState};
ghost use Rattle.table_locks.specs.Tickets.{IsTicketOf};

use crate::commits::TableCommit;
use crate::hidden::wait_for_ever;
use crate::journal::Journal;
use crate::locks::{lend_its, no_guards, no_guards_of_few, put_each};
use crate::names::StoreNames;
use crate::store::Store;
use crate::table_part::TablePart;
use crate::ticket::Ticket;
use model::{CommitInfo, Lsn};
use parted_store::{BoxedPart, Line, abort_in, commit_in};
use std::sync::{MutexGuard, Wait};
use tokens::Book;

impl<N: StoreNames> Store<N> {
    /// An open transaction is committed, also in a store that is stopped. It takes the locks of the
    /// tables in which the transaction did something, and the journal's, and holds them until the
    /// commit stands in all of them. It answers how many commits there are. It takes no memory.
    pub fn commit<R: Wait>(
        &self,
        rt: &R,
        line: &mut Line,
        ticket: Ticket<N>,
        info: CommitInfo,
    ) -> usize
        requires line { line.old.name ≡ N.line }
        requires rising { last_end (ends_in line.old.list) < info.end }
        ensures count { result ≡ length (commits_in line.new.list) }
        ensures name { line.new.name ≡ N.line }
        ensures appended { line.new.list ≡ line.old.list ++ WasCommitted ticket.number (opened_by ticket.events).items info ∷ [] }
    {
        if self.has_few_tables() {
            let mut guards = no_guards_of_few(self);
            self.commit_with(rt, &mut guards, line, ticket, info)
        } else {
            let mut guards = no_guards(self);
            self.commit_with(rt, &mut guards, line, ticket, info)
        }
    }

    // With the places in which its guards are to lie.
    fn commit_with<'a, R: Wait>(
        &'a self,
        rt: &R,
        guards: &mut [Option<MutexGuard<'a, TablePart<N>>>],
        line: &mut Line,
        ticket: Ticket<N>,
        info: CommitInfo,
    ) -> usize
        requires guards { length N.schema ≤ length guards.old }
        requires line { line.old.name ≡ N.line }
        requires rising { last_end (ends_in line.old.list) < info.end }
        ensures count { result ≡ length (commits_in line.new.list) }
        ensures name { line.new.name ≡ N.line }
        ensures appended { line.new.list ≡ line.old.list ++ WasCommitted ticket.number (opened_by ticket.events).items info ∷ [] }
    {
        let Ticket {
            mut ticket,
            mut lent,
            ..
        } = ticket;
        lend_its(rt, self, &mut ticket, guards, &mut lent);
        if !are_before(guards, lent.len(), info.end) {
            wait_for_ever(rt);
        }
        let mut journal = self.journal.lock(rt);
        journal.forget(ticket.xid());
        let count = journal.commit(rt, guards, lent.as_mut_slice(), line, ticket, info);
        journal.count_move();
        self.moved.notify_all();
        drop(journal);
        put_each(guards, &mut lent);
        count
    }

    /// An open transaction is aborted, also in a store that is stopped. It takes the locks of the
    /// tables in which the transaction did something, and the journal's. It takes no memory.
    pub fn abort<R: Wait>(&self, rt: &R, line: &mut Line, ticket: Ticket<N>)
        requires { line.old.name ≡ N.line }
        ensures name { line.new.name ≡ N.line }
        ensures appended { line.new.list ≡ line.old.list ++ WasAborted ticket.number ∷ [] }
    {
        if self.has_few_tables() {
            let mut guards = no_guards_of_few(self);
            self.abort_with(rt, &mut guards, line, ticket);
        } else {
            let mut guards = no_guards(self);
            self.abort_with(rt, &mut guards, line, ticket);
        }
    }

    // With the places in which its guards are to lie.
    fn abort_with<'a, R: Wait>(
        &'a self,
        rt: &R,
        guards: &mut [Option<MutexGuard<'a, TablePart<N>>>],
        line: &mut Line,
        ticket: Ticket<N>,
    )
        requires guards { length N.schema ≤ length guards.old }
        requires line { line.old.name ≡ N.line }
        ensures name { line.new.name ≡ N.line }
        ensures appended { line.new.list ≡ line.old.list ++ WasAborted ticket.number ∷ [] }
    {
        let Ticket {
            mut ticket,
            mut lent,
            ..
        } = ticket;
        lend_its(rt, self, &mut ticket, guards, &mut lent);
        let mut journal = self.journal.lock(rt);
        journal.forget(ticket.xid());
        journal.abort(rt, lent.as_mut_slice(), line, ticket);
        journal.count_move();
        self.moved.notify_all();
        drop(journal);
        put_each(guards, &mut lent);
    }
}

impl<N: StoreNames> Journal<N> {
    // A transaction is committed over the parts that are lent, those of the tables in which it did
    // something, from under the locks of these guards. It answers how many commits there are. One
    // that isn't open waits for ever.
    fn commit<R: Wait>(
        &mut self,
        rt: &R,
        guards: &mut [Option<MutexGuard<'_, TablePart<N>>>],
        lent: &mut [BoxedPart],
        line: &mut Line,
        ticket: parted_store::Ticket,
        info: CommitInfo,
    ) -> usize
        requires line { line.old.name ≡ N.line }
        requires rising { last_end (ends_in line.old.list) < info.end }
        requires before { AreBefore guards.old (length lent.old) info.end }
        requires fit { FitEach N.shares N.tables N.schema N.start guards.old lent.old }
        requires empty { AreEmpty guards.old (length lent.old) }
        requires met { AreMet N.shares N.schema N.start ticket.shares lent.old }
        requires ticket { IsTicketOf N.shares N.schema ticket }
        ensures fit { FitEach N.shares N.tables N.schema N.start guards.new lent.new }
        ensures count { result ≡ length (commits_in line.new.list) }
        ensures name { line.new.name ≡ N.line }
        ensures appended { line.new.list ≡ line.old.list ++ WasCommitted ticket.number (opened_by ticket.events).items info ∷ [] }
    {
        self.part.meet(line);
        if !self.part.is_open(ticket.xid()) {
            wait_for_ever(rt);
        }
        ticket.recall_invariant();
        tell_each(&mut self.tables, guards, lent.len(), &ticket, info);
        commit_in(lent, &mut self.part, line, ticket, info);
        self.part.entries().len()
    }

    // A transaction is aborted over the parts that are lent, those of the tables in which it did
    // something. One that isn't open waits for ever.
    fn abort<R: Wait>(
        &mut self,
        rt: &R,
        lent: &mut [BoxedPart],
        line: &mut Line,
        ticket: parted_store::Ticket,
    )
        requires line { line.old.name ≡ N.line }
        requires met { AreMet N.shares N.schema N.start ticket.shares lent.old }
        requires ticket { IsTicketOf N.shares N.schema ticket }
        ensures still { StayEach N.shares N.tables N.schema N.start lent.old lent.new }
        ensures name { line.new.name ≡ N.line }
        ensures appended { line.new.list ≡ line.old.list ++ WasAborted ticket.number ∷ [] }
    {
        self.part.meet(line);
        if !self.part.is_open(ticket.xid()) {
            wait_for_ever(rt);
        }
        abort_in(lent, &mut self.part, line, ticket);
    }
}

// Whether each of the first so many parts has no commit that ends at this position or behind it.
fn are_before<N: StoreNames>(
    guards: &[Option<MutexGuard<'_, TablePart<N>>>],
    count: usize,
    end: Lsn,
) -> bool
    requires { count ≤ length guards.now }
    ensures { result ≡ true → AreBefore guards.now count end }
{
    for place in &guards[..count] {
        if !is_before(place, end) {
            return false;
        }
    }
    true
}

// Whether the part from under this lock has none.
fn is_before<N: StoreNames>(place: &Option<MutexGuard<'_, TablePart<N>>>, end: Lsn) -> bool
    ensures { result ≡ true → IfSome (state_of place.now) (λ s. s.last < end) }
{
    match place {
        Some(guard) => guard.last() < end,
        None => true,
    }
}

// Each of the first so many tables, whose parts are lent, is told of a commit, in both halves of
// its list.
fn tell_each<N: StoreNames>(
    tables: &mut Book<TableCommit>,
    guards: &mut [Option<MutexGuard<'_, TablePart<N>>>],
    count: usize,
    ticket: &parted_store::Ticket,
    info: CommitInfo,
)
    requires name { tables.old.name ≡ N.tables }
    requires lent { AreEmpty guards.old count }
    requires apart { NumberedApart guards.old count }
    requires within { count ≤ length guards.old }
    ensures { AreTold (past_by ticket.now info) count guards.old tables.old guards.new tables.new }
{
    for i in 0..count {
        tell(tables, &mut guards[i], ticket, info);
    }
}

// A table is told.
fn tell<N: StoreNames>(
    tables: &mut Book<TableCommit>,
    place: &mut Option<MutexGuard<'_, TablePart<N>>>,
    ticket: &parted_store::Ticket,
    info: CommitInfo,
)
    requires name { tables.old.name ≡ N.tables }
    requires lent { (s : TableState) × (state_of place.old ≡ Some s) × (s.part ≡ None) }
    ensures { TellsState (past_by ticket.now info) (state_of place.old) tables.old (state_of place.new) tables.new }
{
    let Some(mut guard) = place.take() else {
        unreachable!()
    };
    guard.tell(tables, ticket, info);
    *place = Some(guard);
}
