// The store.
ghost use Rattle.std.specs.Prelude.{◌≡◌, ◌++◌, ◌∷◌, [], ◌<◌, ◌≤◌, true, IfOk, IfErr, OnOk, OnErr, length, vec_capacity};
ghost use Rattle.std.specs.Sync.Mutex.{mutex_guard_value};
ghost use Rattle.live_tables.specs.Answers.{IsNoClash};
ghost use Rattle.engine.specs.declared.events.LineEvent.TheVariants.{Opened as WasOpened};
ghost use Rattle.table_locks.specs.Starts.{AreNames, AreKnown};

use crate::hidden::wait_for_ever;
use crate::journal::Journal;
use crate::locks::FEW_TABLES;
use crate::made::Made;
use crate::names::StoreNames;
use crate::table_part::TablePart;
use crate::ticket::Ticket;
use engine::EngineFault;
use indexes::Tables;
use model::{TableId, Xid};
use parted_store::Line;
use std::alloc::Global;
use std::marker::Model;
use std::sync::{Condvar, Mutex, MutexGuard, Wait};
use std::thread::Parker;
use std::time::Duration;

// How often a table's lock is tried again before it is waited for.
const TRIES: usize = 100;

// How long a nap between two tries is, in microseconds.
const NAP: u64 = 10;

/// A store with a lock for each table, and one for the journal.
#[derive(Debug, Drop)]
pub struct Store<N: StoreNames> {
    pub(crate) tables: Vec<Mutex<TablePart<N>>>,
    pub(crate) journal: Mutex<Journal<N>>,
    /// Notified under the journal's lock whenever a move is counted.
    pub(crate) moved: Condvar,
    /// Tables with the same keys, into which the rows of all parts are to come at the end.
    pub(crate) blank: Tables,
    ghost all: { length tables.items ≡ length N.schema },
    ghost few: { length N.schema ≤ 1024 },
    ghost keys: { blank.schema ≡ N.schema },
    ghost known: { AreKnown N.schema N.start },
}

impl<N: StoreNames> Store<N> {
    /// A store in which nothing has happened. It can have any names that fit what it is made of,
    /// which is handed back where memory is refused.
    pub fn new(alloc: Global, made: Made) -> Result<Store<N>, Made>
        requires { AreNames N.shares N.line N.tables N.schema N.start made }
        ensures { IfErr result (λ back. back ≡ made) }
    {
        match Vec::with_capacity(alloc, made.tables.len()) {
            Ok(tables) => Ok(Store::lay(alloc, made, tables)),
            Err(_) => Err(made),
        }
    }

    // What it is made of is laid under its locks, for which there is room.
    fn lay(alloc: Global, made: Made, mut tables: Vec<Mutex<TablePart<N>>>) -> Store<N>
        requires names { AreNames N.shares N.line N.tables N.schema N.start made }
        requires none { tables.items ≡ [] }
        requires room { length made.tables ≤ vec_capacity tables }
    {
        let Made {
            tables: made_tables,
            journal,
            book,
            blank,
        } = made;
        let journal = Journal::new(alloc, journal, book);
        for (part, commits) in made_tables {
            tables.push_reserved(Mutex::new(TablePart::new(part, commits)));
        }
        Store {
            tables,
            journal: Mutex::new(journal),
            moved: Condvar::new(),
            blank,
        }
    }

    /// What lies under a table's lock, lent until the guard is dropped.
    pub fn lock_table<R: Wait>(&self, rt: &R, table: TableId) -> MutexGuard<'_, TablePart<N>>
        requires { table < length N.schema }
        ensures { (mutex_guard_value result).number ≡ table }
    {
        let guard = self.tables[table].lock(rt);
        if guard.number() == table {
            return guard;
        }
        wait_for_ever(rt)
    }

    // The same for one change of many. Whoever waits for a lock has it handed over, which costs two threads a
    // switch for each change; so who finds it taken naps, and lets the other make some changes meanwhile.
    pub(crate) fn lock_for_change<R: Wait>(
        &self,
        rt: &R,
        table: TableId,
    ) -> MutexGuard<'_, TablePart<N>>
        requires { table < length N.schema }
        ensures { (mutex_guard_value result).number ≡ table }
    {
        if let Some(guard) = nap_for(rt, &self.tables[table])
            && guard.number() == table
        {
            return guard;
        }
        self.lock_table(rt, table)
    }

    /// What lies under the journal's lock, lent until the guard is dropped.
    pub fn lock_journal<R: Wait>(&self, rt: &R) -> MutexGuard<'_, Journal<N>> {
        self.journal.lock(rt)
    }

    // Whether all tables have a place where few have.
    pub(crate) fn has_few_tables(&self) -> bool
        ensures { result ≡ true → length N.schema ≤ 8 }
    {
        self.tables.len() <= FEW_TABLES
    }

    /// How often something moved.
    pub fn moves<R: Wait>(&self, rt: &R) -> u64 {
        self.journal.lock(rt).moves()
    }

    /// Counts a move, and wakes those that wait for one.
    pub fn tell_move<R: Wait>(&self, rt: &R) {
        let mut journal = self.journal.lock(rt);
        journal.count_move();
        self.moved.notify_all();
    }

    /// Waits while no more moves are counted than were seen.
    pub fn wait_past<R: Wait>(&self, rt: &R, seen: u64) {
        let _journal = self.moved.wait_while(
            rt,
            self.journal.lock(rt),
            |journal| journal.moves() == seen,
        );
    }

    /// A transaction opens. Stopped goes before AlreadyOpen, that before TooManyOpen, and that
    /// before OutOfMemory; a refusal changes nothing.
    pub fn open<R: Wait>(
        &self,
        rt: &R,
        alloc: Global,
        line: &mut Line,
        xid: Xid,
    ) -> Result<Ticket<N>, EngineFault>
        requires { line.old.name ≡ N.line }
        ensures fault { IfErr result IsNoClash }
        ensures ticket { IfOk result (λ ticket. ticket ≡ record { number = xid; events = []; shares = [] }) }
        ensures name { line.new.name ≡ N.line }
        ensures ok { OnOk result (line.new.list ≡ line.old.list ++ WasOpened xid ∷ []) }
        ensures err { OnErr result (line.new ≡ line.old) }
    {
        self.journal.lock(rt).open(alloc, line, xid)
    }
}

// Takes a table's lock, unless it stays taken while this thread naps a hundred times.
fn nap_for<'a, N: StoreNames, R: Wait>(
    rt: &R,
    table: &'a Mutex<TablePart<N>>,
) -> Option<MutexGuard<'a, TablePart<N>>> {
    if let Some(guard) = table.try_lock() {
        return Some(guard);
    }
    let parker = Parker::new();
    for _ in 0..TRIES {
        parker.park_timeout(rt, Duration::from_micros(NAP));
        if let Some(guard) = table.try_lock() {
            return Some(guard);
        }
    }
    None
}
