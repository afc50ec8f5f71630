// A store of one table, and what its transactions do.
ghost use Rattle.std.specs.Prelude.{◌≡◌, [], None, IfOk, OnOk, length};
ghost use Rattle.model.specs.Beginning.{last_end};
ghost use Rattle.model.specs.Named.{NamesTables};
ghost use Rattle.engine.specs.Events.{opened_by, ends_in};
ghost use Rattle.origin.specs.Commits.{commits_of, loaded_of};
ghost use Rattle.table_locks.specs.Starts.{AreNames};
ghost use Rattle.store_tests.specs.Names.{HasNames};

use crate::tests::threads::table::empty_store;
use engine::{Acted, EngineFault};
use model::{Change, CommitInfo, Lsn, OutOfMemory, Xid};
use origin::{Loader, Origin, Publisher};
use std::alloc::Global;
use std::process::Abort;
use std::sync::Wait;
use table_locks::{Line, Made, Store, StoreNames, Ticket};

/// What a test begins with.
#[derive(Drop)]
pub(super) struct Parts {
    pub(super) made: Made,
    pub(super) line: Line,
    pub(super) origin: Origin,
    pub(super) publisher: Publisher,
    pub(super) loader: Loader,
    ghost counted: { length made.blank.schema ≡ 1 },
    ghost lined: { line ≡ made.journal.part.line },
    ghost nothing: { line.list ≡ [] },
    ghost published: { publisher ≡ commits_of origin [] },
    ghost loaded: { loader ≡ loaded_of origin loader.skip [] },
}

impl Parts {
    pub(super) fn new(alloc: Global) -> Result<Parts, OutOfMemory>
        ensures { IfOk result (λ parts. HasNames parts.made) }
    {
        let (made, line) = empty_store(alloc)?;
        let (origin, publisher, loader) = Origin::new(alloc, 0)?;
        Ok(Parts {
            made,
            line,
            origin,
            publisher,
            loader,
        })
    }
}

/// The same, with the store that is made of it.
#[derive(Drop)]
pub(super) struct Shared<N: StoreNames> {
    pub(super) store: Store<N>,
    pub(super) line: Line,
    pub(super) origin: Origin,
    pub(super) publisher: Publisher,
    pub(super) loader: Loader,
    ghost counted: { length N.schema ≡ 1 },
    ghost named: { line.name ≡ N.line },
    ghost nothing: { line.list ≡ [] },
    ghost published: { publisher ≡ commits_of origin [] },
    ghost loaded: { loader ≡ loaded_of origin loader.skip [] },
}

impl Parts {
    pub(super) fn share<N: StoreNames>(self, alloc: Global) -> Result<Shared<N>, OutOfMemory>
        requires { AreNames N.shares N.line N.tables N.schema N.start self.made }
    {
        let Parts {
            made,
            line,
            origin,
            publisher,
            loader,
        } = self;
        let Ok(store) = Store::new(alloc, made) else {
            return Err(OutOfMemory);
        };
        Ok(Shared {
            store,
            line,
            origin,
            publisher,
            loader,
        })
    }
}

/// A store, the line of its transactions, and where the last commit ends.
#[derive(Drop)]
pub(super) struct Scene<'a, N: StoreNames> {
    store: &'a Store<N>,
    line: Line,
    end: Lsn,
    ghost counted: { length N.schema ≡ 1 },
    ghost named: { line.name ≡ N.line },
    ghost ended: { last_end (ends_in line.list) ≡ end },
}

impl<'a, N: StoreNames> Scene<'a, N> {
    pub(super) fn new(store: &'a Store<N>, line: Line) -> Scene<'a, N>
        requires counted { length N.schema ≡ 1 }
        requires named { line.name ≡ N.line }
        requires nothing { line.list ≡ [] }
    {
        Scene {
            store,
            line,
            end: 0,
        }
    }

    pub(super) fn open(
        &mut self,
        rt: &impl Wait,
        alloc: Global,
        xid: Xid,
    ) -> Result<Ticket<N>, EngineFault>
        ensures { IfOk result (λ ticket. ticket.events ≡ []) }
    {
        let ticket = self.store.open(rt, alloc, &mut self.line, xid)?;
        Ok(ticket)
    }

    /// Does a change of a transaction that waits nowhere. Only memory can refuse it.
    pub(super) fn act(
        &self,
        rt: &(impl Abort + Wait),
        alloc: Global,
        ticket: &mut Ticket<N>,
        change: &Change,
    ) -> Result<(), OutOfMemory>
        requires names { NamesTables 1 change.now }
        requires rests { (opened_by ticket.old.events).wants ≡ None }
        ensures { OnOk result ((opened_by ticket.new.events).wants ≡ None) }
    {
        let xid = ticket.xid();
        match self.store.act(rt, alloc, ticket, xid, change) {
            Ok(Acted::Done) => Ok(()),
            Err(EngineFault::OutOfMemory) => Err(OutOfMemory),
            other => panic!(rt; "{xid} does not do a change: {other:?}"),
        }
    }

    /// A commit that ends here.
    pub(super) fn commit(&mut self, rt: &(impl Abort + Wait), ticket: Ticket<N>, end: Lsn) {
        assert!(rt; end > self.end && end >= 8);
        let info = CommitInfo {
            commit: end - 8,
            end,
        };
        self.store.commit(rt, &mut self.line, ticket, info);
        self.end = end;
    }
}
