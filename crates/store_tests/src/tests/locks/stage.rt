// A store of two tables, and its line, by calls that end the process where they fail.
ghost use Rattle.std.specs.Prelude.{◌≡◌, ◌≤◌, ◌<◌, [], Ok, length};
ghost use Rattle.model.specs.Beginning.{last_end};
ghost use Rattle.model.specs.Named.{NamesTables};
ghost use Rattle.engine.specs.Events.{ends_in};
ghost use Rattle.world_parts.specs.ByTable.{IsIn};
ghost use Rattle.table_locks.specs.Truncating.{IsTruncate};
ghost use Rattle.store_tests.specs.Waits.{Rests, WaitsIn};

use crate::tests::locks::table::{BOTH, id_of, key};
use engine::{Acted, EngineFault, NotSettled, Stop};
use model::{Change, CommitInfo, Lsn, OutOfMemory, Row, TableId, Xid};
use parted_store::{Line, Seen};
use std::alloc::Global;
use std::process::Abort;
use std::sync::Wait;
use table_locks::{Store, StoreNames, Ticket};

/// A store and its line.
#[derive(Drop)]
pub(super) struct Stage<'a, N: StoreNames, R: Abort + Wait> {
    pub(super) rt: &'a R,
    pub(super) alloc: Global,
    pub(super) store: &'a Store<N>,
    line: Line,
    /// Where the log goes on behind the last commit.
    end: Lsn,
    ghost named: { line.name ≡ N.line },
    ghost rising: { last_end (ends_in line.list) ≤ end },
    ghost two: { length N.schema ≡ 2 },
}

impl<'a, N: StoreNames, R: Abort + Wait> Stage<'a, N, R> {
    pub(super) fn new(rt: &'a R, alloc: Global, store: &'a Store<N>, line: Line) -> Stage<'a, N, R>
        requires named { line.name ≡ N.line }
        requires none { line.list ≡ [] }
        requires two { length N.schema ≡ 2 }
    {
        Stage {
            rt,
            alloc,
            store,
            line,
            end: 0,
        }
    }

    /// What is given, unless memory was refused.
    pub(super) fn got<T>(&self, made: Result<T, OutOfMemory>) -> T
        ensures { made ≡ Ok result }
    {
        match made {
            Ok(made) => made,
            Err(_) => panic!(self.rt; "no memory"),
        }
    }

    pub(super) fn open(&mut self, xid: Xid) -> Ticket<N>
        ensures { Rests result.events }
    {
        match self.store.open(self.rt, self.alloc, &mut self.line, xid) {
            Ok(ticket) => ticket,
            Err(fault) => panic!(self.rt; "{xid} doesn't open: {fault:?}"),
        }
    }

    /// A transaction doesn't open, since the store is stopped.
    pub(super) fn opens_not(&mut self, xid: Xid) {
        match self.store.open(self.rt, self.alloc, &mut self.line, xid) {
            Err(EngineFault::Stopped) => {}
            _ => panic!(self.rt; "{xid} opens"),
        }
    }

    /// A change of one table is done.
    pub(super) fn does(&self, ticket: &mut Ticket<N>, sub: Xid, table: TableId, change: &Change)
        requires known { table < 2 }
        requires names { NamesTables 2 change.now }
        requires its { IsIn table change.now }
        requires waits { WaitsIn table ticket.old.events }
        ensures { Rests ticket.new.events }
    {
        match self
            .store
            .act_in_table(self.rt, self.alloc, ticket, table, sub, change)
        {
            Ok(Acted::Done) => {}
            other => panic!(self.rt; "not done: {other:?}"),
        }
    }

    /// A change of one table finds no row.
    pub(super) fn skips(&self, ticket: &mut Ticket<N>, sub: Xid, table: TableId, change: &Change)
        requires known { table < 2 }
        requires names { NamesTables 2 change.now }
        requires its { IsIn table change.now }
        requires waits { WaitsIn table ticket.old.events }
        ensures { Rests ticket.new.events }
    {
        match self
            .store
            .act_in_table(self.rt, self.alloc, ticket, table, sub, change)
        {
            Ok(Acted::Skipped) => {}
            other => panic!(self.rt; "not skipped: {other:?}"),
        }
    }

    /// A change is done, whichever tables it names.
    pub(super) fn acts(&self, ticket: &mut Ticket<N>, change: &Change)
        requires names { NamesTables 2 change.now }
        requires rests { Rests ticket.old.events }
        ensures { Rests ticket.new.events }
    {
        let xid = ticket.xid();
        match self.store.act(self.rt, self.alloc, ticket, xid, change) {
            Ok(Acted::Done) => {}
            other => panic!(self.rt; "not done: {other:?}"),
        }
    }

    /// A change of one table waits for this holder.
    pub(super) fn waits(&self, ticket: &mut Ticket<N>, table: TableId, change: &Change, holder: Xid)
        requires known { table < 2 }
        requires names { NamesTables 2 change.now }
        requires its { IsIn table change.now }
        requires waits { WaitsIn table ticket.old.events }
        ensures { WaitsIn table ticket.new.events }
    {
        let xid = ticket.xid();
        match self
            .store
            .act_in_table(self.rt, self.alloc, ticket, table, xid, change)
        {
            Ok(Acted::Held(found)) if found == holder => {}
            other => panic!(self.rt; "held by {holder}, and not {other:?}"),
        }
    }

    /// A change of one table clashes, or, in a store that is stopped, is refused.
    pub(super) fn fails(&self, ticket: &mut Ticket<N>, table: TableId, change: &Change)
        requires known { table < 2 }
        requires names { NamesTables 2 change.now }
        requires its { IsIn table change.now }
        requires waits { WaitsIn table ticket.old.events }
        ensures { WaitsIn table ticket.new.events }
    {
        let xid = ticket.xid();
        match self
            .store
            .act_in_table(self.rt, self.alloc, ticket, table, xid, change)
        {
            Err(EngineFault::Clash(_) | EngineFault::Stopped) => {}
            other => panic!(self.rt; "no fault: {other:?}"),
        }
    }

    /// A truncate of several is done.
    pub(super) fn truncates(&self, ticket: &mut Ticket<N>, change: &Change)
        requires names { NamesTables 2 change.now }
        requires truncate { IsTruncate change.now }
        requires rests { Rests ticket.old.events }
        ensures { Rests ticket.new.events }
    {
        let xid = ticket.xid();
        match self
            .store
            .truncate(self.rt, self.alloc, ticket, xid, change)
        {
            Ok(Acted::Done) => {}
            other => panic!(self.rt; "not truncated: {other:?}"),
        }
    }

    pub(super) fn touches(&self, ticket: &mut Ticket<N>, sub: Xid)
        ensures { Rests ticket.new.events }
    {
        if self.store.touch(self.rt, ticket, sub).is_err() {
            panic!(self.rt; "{sub} isn't touched");
        }
    }

    pub(super) fn goes_back(&self, ticket: &mut Ticket<N>, sub: Xid)
        ensures { Rests ticket.new.events }
    {
        self.store.back_to(self.rt, ticket, sub);
    }

    pub(super) fn commits(&mut self, ticket: Ticket<N>) -> Lsn {
        let Some(end) = self.end.checked_add(16) else {
            panic!(self.rt; "the log has no more positions")
        };
        let info = CommitInfo { commit: end, end };
        self.store.commit(self.rt, &mut self.line, ticket, info);
        self.end = end;
        end
    }

    pub(super) fn aborts(&mut self, ticket: Ticket<N>) {
        self.store.abort(self.rt, &mut self.line, ticket);
    }

    /// Stops the store where nothing goes on, by the items that were sent to each.
    pub(super) fn stops_held(&self, waiter: Xid, sent: &[(Xid, u64)]) -> Result<Xid, NotSettled> {
        self.store.stop_held(self.rt, &self.line, waiter, sent)
    }

    /// Whether a row is live at an id.
    pub(super) fn is_live(&self, table: TableId, id: i64) -> bool
        requires { table < 2 }
    {
        let key = self.got(key(self.alloc, id));
        let part = self.store.lock_table(self.rt, table);
        match part.live(self.rt, &key) {
            Ok(row) => row.is_some(),
            Err(_) => panic!(self.rt; "no memory"),
        }
    }

    /// What stopped the store, as whoever has all tickets learns it.
    pub(super) fn meets(&mut self, tickets: &mut [Ticket<N>]) -> Option<Stop>
        ensures { tickets.new ≡ tickets.old }
    {
        self.store
            .meet_all(self.rt, &mut self.line, tickets, None, &[])
            .stop
    }

    /// The line, once nothing more is called.
    pub(super) fn into_line(self) -> Line
        ensures { result.name ≡ N.line }
    {
        self.line
    }

    /// Sees the journal as it is now.
    pub(super) fn watch(&self) -> Seen
        ensures { result.name ≡ N.line }
    {
        self.store.lock_journal(self.rt).watch()
    }

    /// The committed rows of a table have these ids.
    pub(super) fn has_in(&self, seen: &mut Seen, table: TableId, ids: &[i64])
        requires known { table < 2 }
        requires name { seen.old.name ≡ N.line }
        ensures { seen.new.name ≡ N.line }
    {
        let rows = self.got(self.store.rows(self.rt, self.alloc, seen, table));
        assert!(self.rt; has_ids(&rows, ids));
    }

    /// The committed rows of both tables have these ids.
    pub(super) fn has(&self, seen: &mut Seen, first: &[i64], second: &[i64])
        requires { seen.old.name ≡ N.line }
        ensures { seen.new.name ≡ N.line }
    {
        let rows = self.got(self.store.rows_of(self.rt, self.alloc, seen, &BOTH));
        match rows.as_slice() {
            [one, other] => {
                assert!(self.rt; has_ids(one, first) && has_ids(other, second));
            }
            _ => panic!(self.rt; "not two tables"),
        }
    }
}

/// Whether rows have these ids.
pub(super) fn has_ids(rows: &[Row], ids: &[i64]) -> bool {
    if rows.len() != ids.len() {
        return false;
    }
    for (row, id) in rows.iter().zip(ids) {
        if id_of(row) != Some(*id) {
            return false;
        }
    }
    true
}
