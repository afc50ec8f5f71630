// A store with its line and the tickets of its open transactions, called by their numbers.
ghost use Rattle.std.specs.Prelude.{◌≡◌, IfErr, OnOk, OnErr, Some};
ghost use Rattle.std.specs.Ordering.{nat_cmp};
ghost use Rattle.std.specs.BTreeMap as tree;
ghost use Rattle.store_tests.specs.Scenes.{IsScene};

use crate::tests::asserts::assert_same;
use crate::tests::tables::calls::{
    Call, Words, are_there, change, empty_tables, rows_of, rows_text,
};
use change::Clash;
use engine::{Acted, EngineFault, Entry, Line, NotSettled, Stop, Store, Ticket};
use indexes::Tables;
use model::{CommitInfo, Key, Lsn, OutOfMemory, Row, TableId, Xid};
use std::alloc::Global;
use std::collections::BTreeMap;
use std::process::Abort;
use std::test::Fail;

/// An int, which is the primary key, a text, which is a unique key, and a text.
pub(super) const ACCOUNTS: TableId = 0;

/// A text, which is the primary key, and two more columns, with no unique key.
pub(super) const NAMES: TableId = 1;

/// How many tables there are.
pub(super) const TABLES: usize = 2;

/// A row of the accounts would agree with another in its id.
pub(super) const SAME_ID: Clash = Clash::Unique {
    table: ACCOUNTS,
    key: 0,
};

/// The same of its email.
pub(super) const SAME_EMAIL: Clash = Clash::Unique {
    table: ACCOUNTS,
    key: 1,
};

/// What the accounts are in a store that is worked on.
pub(super) const WORKED: &str = "1|a|n 2|b|n";

const ROWS: [Words; 2] = [("1", "a", "n"), ("2", "b", "n")];

/// A call of a transaction, a change by one of its subtransactions or by itself.
#[derive(Clone, Copy, Debug)]
pub(super) enum Deed {
    Open(Xid),
    Act(Xid, Xid, Call),
    Touch(Xid, Xid),
    BackTo(Xid, Xid),
    Commit(Xid),
    Abort(Xid),
}

/// The row at a key, if one is there.
type Found = Result<Option<Row>, EngineFault>;

/// A store, and what its callers hold of it.
#[derive(Drop)]
pub(super) struct Scene {
    pub(super) store: Store,
    pub(super) line: Line,
    tickets: BTreeMap<Xid, Ticket>,
    /// Where the log goes on behind the last commit.
    end: Lsn,
    ghost keeps: { IsScene store line tickets end },
}

/// Where the next commit stands in the log, by how many came before it.
pub(super) fn commit_info(commits: usize) -> CommitInfo {
    let end = (commits as Lsn).saturating_mul(16).saturating_add(32);
    CommitInfo {
        commit: end - 16,
        end,
    }
}

/// The ticket of a transaction that opened is kept, or is handed back for want of memory.
fn keep(tickets: &mut BTreeMap<Xid, Ticket>, xid: Xid, ticket: Ticket) -> Result<(), Ticket>
    ensures ok { OnOk result (tree.Updates nat_cmp tickets.old tickets.new xid (Some ticket)) }
    ensures err { IfErr result (λ given. given ≡ ticket) }
    ensures unchanged { OnErr result (tickets.new.entries ≡ tickets.old.entries) }
{
    match tickets.insert(xid, ticket) {
        Ok(_) => Ok(()),
        Err(failed) => {
            let (_, ticket) = failed.value;
            Err(ticket)
        }
    }
}

impl Scene {
    /// A store over these tables, which are handed back for want of memory.
    pub(super) fn new(rt: &impl Abort, alloc: Global, tables: Tables) -> Result<Scene, Tables> {
        assert!(rt; tables.len() == TABLES);
        let (store, line) = Store::new(alloc, tables)?;
        Ok(Scene {
            store,
            line,
            tickets: BTreeMap::new(alloc),
            end: 0,
        })
    }

    /// A store over these tables.
    pub(super) fn over(
        rt: &impl Abort,
        alloc: Global,
        tables: Tables,
    ) -> Result<Scene, OutOfMemory> {
        match Scene::new(rt, alloc, tables) {
            Ok(scene) => Ok(scene),
            Err(_) => Err(OutOfMemory),
        }
    }

    /// A store over tables with no rows.
    pub(super) fn empty(rt: &impl Abort, alloc: Global) -> Result<Scene, OutOfMemory> {
        let tables = empty_tables(alloc, &[&[1], &[]])?;
        Scene::over(rt, alloc, tables)
    }

    /// A store over the accounts of `WORKED`, with these transactions open.
    pub(super) fn worked(
        rt: &impl Abort,
        alloc: Global,
        xids: &[Xid],
    ) -> Result<Scene, EngineFault> {
        let tables = worked_tables(rt, alloc)?;
        let mut scene = Scene::over(rt, alloc, tables)?;
        for xid in xids {
            scene.open(alloc, *xid)?;
        }
        Ok(scene)
    }

    /// Makes a call, and answers that it is done where there is nothing else to say.
    pub(super) fn make(
        &mut self,
        rt: &impl Abort,
        alloc: Global,
        deed: &Deed,
    ) -> Result<Acted, EngineFault> {
        match deed {
            Deed::Open(xid) => self.open(alloc, *xid)?,
            Deed::Act(xid, sub, call) => return self.act(rt, alloc, *xid, *sub, call),
            Deed::Touch(xid, sub) => self.touch(rt, *xid, *sub)?,
            Deed::BackTo(xid, sub) => self.back_to(rt, *xid, *sub),
            Deed::Commit(xid) => self.commit(rt, *xid),
            Deed::Abort(xid) => self.abort(rt, *xid),
        }
        Ok(Acted::Done)
    }

    /// Makes these calls, up to the first that is refused.
    pub(super) fn make_all(
        &mut self,
        rt: &impl Abort,
        alloc: Global,
        deeds: &[Deed],
    ) -> Result<(), EngineFault> {
        for deed in deeds {
            self.make(rt, alloc, deed)?;
        }
        Ok(())
    }

    pub(super) fn open(&mut self, alloc: Global, xid: Xid) -> Result<(), EngineFault> {
        let ticket = match self.store.open(alloc, &mut self.line, xid) {
            Ok(ticket) => ticket,
            Err(fault) => return Err(fault),
        };
        match keep(&mut self.tickets, xid, ticket) {
            Ok(()) => Ok(()),
            Err(ticket) => {
                self.store.abort(&mut self.line, ticket);
                Err(EngineFault::OutOfMemory)
            }
        }
    }

    pub(super) fn is_open(&self, xid: Xid) -> bool {
        self.tickets.contains_key(&xid)
    }

    pub(super) fn act(
        &mut self,
        rt: &impl Abort,
        alloc: Global,
        xid: Xid,
        sub: Xid,
        call: &Call,
    ) -> Result<Acted, EngineFault> {
        let change = change(alloc, call)?;
        assert!(rt; are_there(TABLES, &change));
        let Some(ticket) = self.tickets.get_mut(&xid) else {
            panic!(rt; "{xid} is not open")
        };
        self.store.act(alloc, ticket, sub, &change)
    }

    pub(super) fn touch(&mut self, rt: &impl Abort, xid: Xid, sub: Xid) -> Result<(), EngineFault> {
        let Some(ticket) = self.tickets.get_mut(&xid) else {
            panic!(rt; "{xid} is not open")
        };
        self.store.touch(ticket, sub)
    }

    pub(super) fn back_to(&mut self, rt: &impl Abort, xid: Xid, sub: Xid) {
        let Some(ticket) = self.tickets.get_mut(&xid) else {
            panic!(rt; "{xid} is not open")
        };
        self.store.back_to(ticket, sub);
    }

    /// A commit, at the place that its number gives.
    pub(super) fn commit(&mut self, rt: &impl Abort, xid: Xid) {
        let info = commit_info(self.store.journal().len());
        assert!(rt; info.end > self.end);
        let Some(ticket) = self.tickets.remove(&xid) else {
            panic!(rt; "{xid} is not open")
        };
        self.store.commit(&mut self.line, ticket, info);
        self.end = info.end;
    }

    pub(super) fn abort(&mut self, rt: &impl Abort, xid: Xid) {
        let Some(ticket) = self.tickets.remove(&xid) else {
            panic!(rt; "{xid} is not open")
        };
        self.store.abort(&mut self.line, ticket);
    }

    pub(super) fn stop(&self) -> Option<Stop> {
        self.store.stop()
    }

    /// Stops the store where all wait, given how many items were sent to each.
    pub(super) fn stop_held(
        &mut self,
        waiter: Xid,
        sent: &[(Xid, u64)],
    ) -> Result<Xid, NotSettled> {
        self.store.stop_held(&self.line, waiter, sent)
    }

    pub(super) fn live(&self, rt: &impl Abort, table: TableId, key: &Key) -> Found {
        assert!(rt; table < TABLES);
        self.store.live(table, key)
    }

    pub(super) fn committed(&self, rt: &impl Abort, table: TableId, key: &Key) -> Found {
        assert!(rt; table < TABLES);
        self.store.committed(table, key)
    }

    pub(super) fn committed_rows(
        &self,
        rt: &impl Abort,
        alloc: Global,
        table: TableId,
    ) -> Result<Vec<Row>, EngineFault> {
        assert!(rt; table < TABLES);
        self.store.committed_rows(alloc, table)
    }

    /// The accounts that are committed.
    pub(super) fn accounts(&self, rt: &impl Abort, alloc: Global) -> Result<String, EngineFault> {
        let rows = self.committed_rows(rt, alloc, ACCOUNTS)?;
        Ok(rows_text(alloc, rows.as_slice())?)
    }

    pub(super) fn rows_after(
        &self,
        rt: &impl Abort,
        alloc: Global,
        table: TableId,
        entries: usize,
    ) -> Result<Vec<Row>, EngineFault> {
        assert!(rt; table < TABLES);
        assert!(rt; entries <= self.store.journal().len());
        self.store.rows_after(alloc, table, entries)
    }

    /// The tables and the journal. None may be open.
    pub(super) fn close(self, rt: &impl Abort) -> (Tables, Vec<Entry>) {
        let Scene {
            store,
            line,
            tickets,
            end: _,
        } = self;
        assert!(rt; tickets.is_empty());
        store.close(line)
    }

    /// The accounts and how many entries the journal has. None may be open.
    pub(super) fn ends_with(
        self,
        rt: &impl Abort,
        alloc: Global,
        accounts: &str,
        entries: usize,
    ) -> Result<(), Fail> {
        let (tables, journal) = self.close(rt);
        let rows = rows_of(rt, alloc, &tables, ACCOUNTS)?;
        assert_same(rt, journal.len(), entries, "entries");
        assert_same(rt, rows.as_str(), accounts, "accounts");
        Ok(())
    }
}

/// A transaction puts the accounts of `WORKED`.
fn put_rows(rt: &impl Abort, alloc: Global, scene: &mut Scene) -> Result<(), EngineFault> {
    scene.open(alloc, 1)?;
    for row in ROWS {
        let acted = scene.act(rt, alloc, 1, 1, &Call::Put(ACCOUNTS, row))?;
        assert_same(rt, acted, Acted::Done, "a first row");
    }
    scene.commit(rt, 1);
    Ok(())
}

/// Tables with these rows.
fn worked_tables(rt: &impl Abort, alloc: Global) -> Result<Tables, EngineFault> {
    let mut scene = Scene::empty(rt, alloc)?;
    put_rows(rt, alloc, &mut scene)?;
    let (tables, _) = scene.close(rt);
    Ok(tables)
}
