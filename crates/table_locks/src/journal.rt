// What lies under the journal's lock.
ghost use Rattle.std.specs.Prelude.{◌≡◌, ◌≢◌, ◌⊎◌, ◌++◌, ◌∷◌, ℕ, [], Err, IsSome, IfOk, IfErr, OnOk, OnErr, is_some, length};
ghost use Rattle.model.specs.Named.{NamesTables};
ghost use Rattle.live_tables.specs.declared.answers.EngineFault.TheVariants.{Clash as ClashFault, OutOfMemory as NoMemory};
ghost use Rattle.live_tables.specs.Answers.{cause_of, told, TellsWhatStopped, IsNoClash};
ghost use Rattle.engine.specs.declared.events.LineEvent.TheVariants.{Opened as WasOpened};
ghost use Rattle.engine.specs.Events.{opened_by, events_of};
ghost use Rattle.world_parts.specs.ByTable.{IsIn, changes_at};
ghost use Rattle.world_parts.specs.Parts.{wanted_by};
ghost use Rattle.parted_store.specs.KeepsSound.{StopsSound, ClashesHere};
ghost use Rattle.parted_store.specs.Lent.{Stands};
ghost use Rattle.parted_store.specs.Shares.{share_of};
ghost use Rattle.table_locks.specs.Answers.{IsTold};
ghost use Rattle.table_locks.specs.Journals.{IsJournal};
ghost use Rattle.table_locks.specs.TableStates.{IsKept, StaysFit};

use crate::acting::{clash_tied, waits_refused};
use crate::commits::TableCommit;
use crate::names::StoreNames;
use crate::ticket::Ticket;
use change::Clash;
use engine::{EngineFault, Stop};
use model::{Change, OutOfMemory, Xid};
use parted_store::Line;
use std::alloc::Global;
use std::collections::BTreeMap;
use std::marker::{Model, PhantomData};
use table_parts::Part;
use tokens::Book;

/// What lies under the journal's lock: the journal's part, a half of each table's list of commits,
/// and a count of what moved, by which those wait that others are in the way of.
#[derive(Debug, Drop)]
pub struct Journal<N: StoreNames> {
    pub(crate) part: parted_store::Journal,
    pub(crate) tables: Book<TableCommit>,
    /// Of each open transaction how many items it has done beyond those that the parts count
    /// (`Part::done_by`). One that changes no row counts in none of them; a rollback counts in each
    /// part that goes back, and a truncate in each of its tables. So the number wraps.
    pub(crate) uncounted: BTreeMap<Xid, u64>,
    moves: u64,
    of: PhantomData<N>,
}

impl<N: StoreNames> Model for Journal<N> {
    ghost use Rattle.table_locks.specs.Journals.{JournalState, IsJournal};
    ghost use Rattle.table_locks.specs.Codes.{journal_state_code};

    ghost Value = { JournalState };

    ghost coded = { journal_state_code };

    ghost view = { λ j. record { part = j.part; tables = j.tables } };

    ghost invariant = { λ j. IsJournal N.line N.tables N.schema (record { part = j.part; tables = j.tables }) };
}

impl<N: StoreNames> Journal<N> {
    /// The journal's part of a store to which nobody came, to be put under the journal's lock.
    pub(crate) fn new(
        alloc: Global,
        part: parted_store::Journal,
        tables: Book<TableCommit>,
    ) -> Journal<N>
        requires { IsJournal N.line N.tables N.schema (record { part = part; tables = tables }) }
        ensures { result ≡ record { part = part; tables = tables } }
    {
        Journal {
            part,
            tables,
            uncounted: BTreeMap::new(alloc),
            moves: 0,
            of: PhantomData,
        }
    }

    /// How often something moved: holds were let go, the store was stopped, or a worker was told to
    /// give up. The count wraps.
    pub fn moves(&self) -> u64 {
        self.moves
    }

    /// Something moved that others may wait for.
    pub(crate) fn count_move(&mut self)
        ensures { self.new ≡ self.old }
    {
        self.moves = self.moves.wrapping_add(1);
    }

    /// Whether something stopped the store.
    pub fn is_stopped(&self) -> bool
        ensures { result ≡ is_some self.now.part.stopped }
    {
        self.part.is_stopped()
    }

    /// What stopped the store, if anything did.
    pub fn stop(&self) -> Option<Stop>
        ensures { TellsWhatStopped result self.now.part.stopped }
    {
        self.part.stop()
    }

    /// A transaction opens.
    pub(crate) fn open(
        &mut self,
        alloc: Global,
        line: &mut Line,
        xid: Xid,
    ) -> Result<Ticket<N>, EngineFault>
        requires { line.old.name ≡ N.line }
        ensures fault { IfErr result IsNoClash }
        ensures ticket { IfOk result (λ ticket. ticket ≡ record { number = xid; events = []; shares = [] }) }
        ensures name { line.new.name ≡ N.line }
        ensures ok { OnOk result (line.new.list ≡ line.old.list ++ WasOpened xid ∷ []) }
        ensures err { OnErr result (line.new ≡ line.old) }
    {
        self.part.can_open(xid)?;
        self.admit(xid)?;
        let opened = self.open_part(alloc, line, xid);
        self.forget_refused(xid, &opened);
        opened
    }

    // It opens in the journal's part.
    fn open_part(
        &mut self,
        alloc: Global,
        line: &mut Line,
        xid: Xid,
    ) -> Result<Ticket<N>, EngineFault>
        requires { line.old.name ≡ N.line }
        ensures fault { IfErr result IsNoClash }
        ensures ticket { IfOk result (λ ticket. ticket ≡ record { number = xid; events = []; shares = [] }) }
        ensures name { line.new.name ≡ N.line }
        ensures ok { OnOk result (line.new.list ≡ line.old.list ++ WasOpened xid ∷ []) }
        ensures err { OnErr result (line.new ≡ line.old) }
    {
        let ticket = self.part.open(alloc, line, xid)?;
        Ok(Ticket::new(alloc, ticket))
    }

    // One that did not open is not counted.
    fn forget_refused(&mut self, xid: Xid, opened: &Result<Ticket<N>, EngineFault>)
        ensures { self.new ≡ self.old }
    {
        if opened.is_err() {
            self.forget(xid);
        }
    }

    // There is room for the count of a transaction's items.
    fn admit(&mut self, xid: Xid) -> Result<(), OutOfMemory>
        ensures { self.new ≡ self.old }
    {
        match self.uncounted.insert(xid, 0) {
            Ok(_) => Ok(()),
            Err(_) => Err(OutOfMemory),
        }
    }

    /// A transaction has ended, and its items are counted no more.
    pub(crate) fn forget(&mut self, xid: Xid)
        ensures { self.new ≡ self.old }
    {
        self.uncounted.remove(&xid);
    }

    /// An open transaction has done so many items, and the parts count so many more of it.
    pub(crate) fn count_items(&mut self, xid: Xid, items: u64, counted: u64)
        ensures { self.new ≡ self.old }
    {
        if let Some(uncounted) = self.uncounted.get_mut(&xid) {
            *uncounted = uncounted.wrapping_add(items).wrapping_sub(counted);
        }
    }

    /// The same of an item that names a subtransaction, if that was not refused.
    pub(crate) fn count_touched(
        &mut self,
        xid: Xid,
        touched: &Result<(), EngineFault>,
        counted: u64,
    )
        ensures { self.new ≡ self.old }
    {
        if touched.is_ok() {
            self.count_items(xid, 1, counted);
        }
    }

    /// A change that was tried, and clashes, stops the store, which nothing had stopped: its
    /// transaction, which waits in no other table, wants it. Lent is the part of its table.
    pub(crate) fn clash(
        &mut self,
        part: &mut Part,
        ticket: &mut Ticket<N>,
        sub: Xid,
        c: &Change,
        clash: Clash,
    ) -> EngineFault
        requires kept { IsKept N.shares N.schema N.start part.old }
        requires came { IsSome (share_of ticket.old.shares part.old.number) × Stands part.old ticket.old.shares }
        requires clashes { ClashesHere part.old ticket.old.shares c.now clash }
        requires cause { IsSome (cause_of clash) }
        requires names { NamesTables (length N.schema) c.now }
        requires its { IsIn part.old.number c.now }
        requires waits { (other : ℕ) → other ≢ part.old.number → changes_at other (wanted_by (opened_by ticket.old.events).wants) ≡ [] }
        ensures fault { (result ≡ ClashFault clash) ⊎ (result ≡ NoMemory) }
        ensures told { IsTold result }
        ensures fits { StaysFit N.shares N.tables N.schema N.start part.old part.new }
        ensures sound { result ≡ ClashFault clash → StopsSound ticket.old.number c.now clash part.old part.new }
        ensures same { result ≡ NoMemory → part.new ≡ part.old }
        ensures events { ticket.new.events ≡ ticket.old.events ++ events_of sub c.now (told (Err result)) }
        ensures xid { ticket.new.number ≡ ticket.old.number }
        ensures tables { self.new.tables ≡ self.old.tables }
        ensures line { self.new.part.line ≡ self.old.part.line }
    {
        let fault = clash_tied::<N>(part, &mut self.part, &mut ticket.ticket, sub, c, clash);
        ticket.waits = waits_refused(ticket.waits, &fault);
        fault
    }
}
