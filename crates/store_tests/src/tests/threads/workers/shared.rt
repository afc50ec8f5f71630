// A store that workers share, and the hand that opens and ends their transactions.
ghost use Rattle.std.specs.Prelude.{◌≡◌, [], None, length};
ghost use Rattle.model.specs.Beginning.{last_end};
ghost use Rattle.engine.specs.Events.{opened_by, ends_in};
ghost use Rattle.table_locks.specs.Starts.{AreNames};

use super::steps::{Step, int_at, item_of};
use crate::tests::threads::table::{TABLE, key};
use engine::{Acted, Stop};
use model::{CommitInfo, Item, Lsn, Xid};
use std::alloc::Global;
use std::process::Abort;
use std::sync::Wait;
use table_locks::{Line, Made, Store, StoreNames, Ticket};

/// The store, of one table.
#[derive(Drop)]
pub(super) struct Shared<N: StoreNames> {
    pub(super) store: Store<N>,
    ghost counted: { length N.schema ≡ 1 },
}

/// Who opens and ends the transactions, and where the last commit ends.
#[derive(Drop)]
pub(super) struct Hand<'a, N: StoreNames, R> {
    pub(super) rt: &'a R,
    pub(super) alloc: Global,
    pub(super) shared: &'a Shared<N>,
    line: Line,
    end: Lsn,
    ghost lined: { line.name ≡ N.line },
    ghost ended: { last_end (ends_in line.list) ≡ end },
}

impl<'a, N: StoreNames, R: Wait + Abort> Hand<'a, N, R> {
    /// The hand that has the line of the store.
    pub(super) fn new(rt: &'a R, alloc: Global, shared: &'a Shared<N>, line: Line) -> Hand<'a, N, R>
        requires { (line.name ≡ N.line) × (line.list ≡ []) }
    {
        Hand {
            rt,
            alloc,
            shared,
            line,
            end: 0,
        }
    }

    pub(super) fn open(&mut self, xid: Xid) -> Ticket<N>
        ensures { result.events ≡ [] }
    {
        let store = &self.shared.store;
        let Ok(ticket) = store.open(self.rt, self.alloc, &mut self.line, xid) else {
            panic!(self.rt; "{xid} does not open")
        };
        ticket
    }

    /// Commits a transaction.
    pub(super) fn commit(&mut self, ticket: Ticket<N>) {
        assert!(self.rt; self.end < 1000000);
        let end = self.end + 16;
        let info = CommitInfo {
            commit: end - 8,
            end,
        };
        let store = &self.shared.store;
        store.commit(self.rt, &mut self.line, ticket, info);
        self.end = end;
    }

    /// Aborts a transaction.
    pub(super) fn abort(&mut self, ticket: Ticket<N>) {
        let store = &self.shared.store;
        store.abort(self.rt, &mut self.line, ticket);
    }

    /// Does a change of a transaction that waits nowhere.
    pub(super) fn act(&self, ticket: &mut Ticket<N>, step: Step)
        requires { (opened_by ticket.old.events).wants ≡ None }
        ensures { (opened_by ticket.new.events).wants ≡ None }
    {
        let Ok(Item::Change { sub, change }) = item_of(self.alloc, step) else {
            panic!(self.rt; "no change")
        };
        let store = &self.shared.store;
        match store.act(self.rt, self.alloc, ticket, sub, &change) {
            Ok(Acted::Done) => {}
            other => panic!(self.rt; "{step:?}: {other:?}"),
        }
    }

    /// Commits rows with these keys and note 0.
    pub(super) fn start_with(&mut self, keys: &[i64]) {
        let mut ticket = self.open(1);
        for key in keys {
            self.act(&mut ticket, Step::Put(*key));
        }
        self.commit(ticket);
    }

    /// What stopped the store.
    pub(super) fn stop(&self) -> Option<Stop> {
        self.shared.store.lock_journal(self.rt).stop()
    }

    /// The note of the row at a key, with the work of all open transactions.
    pub(super) fn note(&self, id: i64) -> Option<i64> {
        let Ok(key) = key(self.alloc, id) else {
            panic!(self.rt; "no memory")
        };
        let table = self.shared.store.lock_table(self.rt, TABLE);
        match table.live(self.rt, &key) {
            Ok(Some(row)) => int_at(&row, 1),
            Ok(None) => None,
            Err(_) => panic!(self.rt; "no memory"),
        }
    }
}

/// The store that is made of this.
pub(super) fn share<N: StoreNames, R: Abort>(rt: &R, alloc: Global, made: Made) -> Shared<N>
    requires names { AreNames N.shares N.line N.tables N.schema N.start made }
    requires one { length N.schema ≡ 1 }
{
    let Ok(store) = Store::new(alloc, made) else {
        panic!(rt; "no memory")
    };
    Shared { store }
}
