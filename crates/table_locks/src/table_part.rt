// What lies under a table's lock.
ghost use Rattle.std.specs.Prelude.{◌≡◌, ◌++◌, true, Some, None, is_some};
ghost use Rattle.std.specs.FinMap.{get};
ghost use Rattle.model.specs.declared.change.Change.{Change as AnyChange};
ghost use Rattle.model.specs.Effect.{ClashCause};
ghost use Rattle.tokens.specs.Lists.{with_list};
ghost use Rattle.world.specs.World.{ByClash};
ghost use Rattle.world_parts.specs.ByTable.{IsIn};
ghost use Rattle.world_parts.specs.Lines.{commit_at};
ghost use Rattle.live_tables.specs.Answers.{cause_of, told_stop, HasCause};
ghost use Rattle.table_locks.specs.Ending.{past_by, told_state};
ghost use Rattle.table_locks.specs.TableStates.{Fits, IsTableState, IsLent};

use crate::commits::TableCommit;
use crate::hidden::wait_for_ever;
use crate::names::StoreNames;
use change::Clash;
use live_tables::Stopped;
use model::{Change, CommitInfo, Lsn, TableId, Xid};
use parted_store::BoxedPart;
use std::marker::{Brand, Model, PhantomData};
use std::sync::Wait;
use table_parts::Part;
use tokens::{Book, Items, Slip};
use world_parts::cutting::only_table;

/// What lies under a table's lock: the table's part, which whoever holds the lock may take out and
/// puts back; a half of the list of the table's commits, whose other half lies with the journal;
/// what stopped the store, as the table knows; and a position behind which no commit of the part
/// ends.
#[derive(Debug, Drop)]
pub struct TablePart<N: StoreNames> {
    part: Option<BoxedPart>,
    commits: Slip<TableCommit>,
    stopped: Option<Stopped>,
    last: Lsn,
    of: PhantomData<N>,
}

impl<N: StoreNames> Model for TablePart<N> {
    ghost use Rattle.std.specs.Prelude.{IfSome};
    ghost use Rattle.live_tables.specs.Answers.{told_stop, HasCause};
    ghost use Rattle.table_locks.specs.TableStates.{TableState, IsTableState};
    ghost use Rattle.table_locks.specs.Codes.{table_state_code};

    ghost Value = { TableState };

    ghost coded = { table_state_code };

    ghost view = { λ t. record { number = t.commits.number; part = t.part; commits = t.commits; stopped = told_stop t.stopped; last = t.last } };

    ghost invariant = { λ t. IsTableState N.shares N.tables N.schema N.start (record { number = t.commits.number; part = t.part; commits = t.commits; stopped = told_stop t.stopped; last = t.last }) × IfSome t.stopped HasCause };
}

impl<N: StoreNames> TablePart<N> {
    /// The part of a table to which nobody came, to be put under the table's lock.
    pub(crate) fn new(part: BoxedPart, commits: Slip<TableCommit>) -> TablePart<N>
        requires { Fits N.shares N.tables N.schema N.start (record { number = commits.number; part = Some part; commits = commits; stopped = None; last = 0 }) part }
        ensures { result ≡ record { number = commits.number; part = Some part; commits = commits; stopped = None; last = 0 } }
    {
        TablePart {
            part: Some(part),
            commits,
            stopped: None,
            last: 0,
            of: PhantomData,
        }
    }

    /// The number of its table.
    pub fn number(&self) -> TableId
        ensures { result ≡ self.now.number }
    {
        self.commits.number() as usize
    }

    /// Whether the table knows that the store is stopped.
    pub fn is_stopped(&self) -> bool
        ensures { result ≡ is_some self.now.stopped }
    {
        self.stopped.is_some()
    }

    /// Whether the table knows that this clash, of a change of it alone, stopped the store.
    pub(crate) fn knows(&self, xid: Xid, clash: Clash) -> bool
        ensures { result ≡ true → (c : AnyChange) × (cause : ClashCause) × (cause_of clash ≡ Some cause) × (self.now.stopped ≡ Some (ByClash xid c cause)) × IsIn self.now.number c }
    {
        match &self.stopped {
            Some(stopped) => self.has_noted(stopped, xid, clash),
            None => false,
        }
    }

    // Whether this is that clash, of a change of the table alone.
    fn has_noted(&self, stopped: &Stopped, xid: Xid, clash: Clash) -> bool
        requires { HasCause stopped.now }
        ensures { result ≡ true → (c : AnyChange) × (cause : ClashCause) × (cause_of clash ≡ Some cause) × (told_stop (Some stopped.now) ≡ Some (ByClash xid c cause)) × IsIn self.now.number c }
    {
        let Stopped::Clash {
            xid: noted,
            change,
            clash: was,
        } = stopped
        else {
            return false;
        };
        if *noted != xid {
            return false;
        }
        if *was != clash {
            return false;
        }
        self.has_alone(change)
    }

    // Whether a change is one of the table alone.
    fn has_alone(&self, change: &Change) -> bool
        ensures { result ≡ true → IsIn self.now.number change.now }
    {
        match only_table(change) {
            Some(table) => table == self.number(),
            None => false,
        }
    }

    /// A position behind which no commit of the part ends.
    pub(crate) fn last(&self) -> Lsn
        ensures { result ≡ self.now.last }
    {
        self.last
    }

    /// Takes the part out. What finds none waits for ever.
    pub(crate) fn take<R: Wait>(&mut self, rt: &R) -> BoxedPart
        ensures was { self.old.part ≡ Some result }
        ensures lent { IsLent self.old self.new }
        ensures fits { Fits N.shares N.tables N.schema N.start self.old result }
    {
        match self.part.take() {
            Some(part) => part,
            None => wait_for_ever(rt),
        }
    }

    /// Puts the part back.
    pub(crate) fn put(&mut self, part: BoxedPart)
        requires { Fits N.shares N.tables N.schema N.start self.old part }
        ensures { self.new ≡ record self.old { part = Some part } }
    {
        self.part = Some(part);
    }

    /// Lets the table, whose part is lent, know what stopped the store.
    pub(crate) fn stop(&mut self, stopped: Stopped)
        requires lent { self.old.part ≡ None }
        requires cause { HasCause stopped }
        ensures { self.new ≡ record self.old { stopped = told_stop (Some stopped) } }
    {
        self.stopped = Some(stopped);
    }

    /// The table, whose part is lent, is told of the commit of a ticket's transaction, in both
    /// halves of its list.
    pub(crate) fn tell(
        &mut self,
        tables: &mut Book<TableCommit>,
        ticket: &parted_store::Ticket,
        info: CommitInfo,
    )
        requires lent { self.old.part ≡ None }
        requires name { tables.old.name ≡ N.tables }
        ensures listed { get tables.old.lists self.old.number ≡ Some self.old.commits.list }
        ensures tables { tables.new ≡ with_list tables.old self.old.number (self.old.commits.list ++ commit_at self.old.number (past_by ticket.now info)) }
        ensures state { self.new ≡ told_state (past_by ticket.now info) self.old }
    {
        tell_commit::<Brand>(tables, &mut self.commits, ticket, info);
        self.last = info.end;
    }

    /// The part, to be read. What finds none waits for ever.
    pub(crate) fn as_part<'a, R: Wait>(&'a self, rt: &R) -> &'a Part
        ensures there { self.now.part ≡ Some result.now }
        ensures fits { Fits N.shares N.tables N.schema N.start self.now result.now }
    {
        match &self.part {
            Some(part) => part.as_part(),
            None => wait_for_ever(rt),
        }
    }

    /// Learns that the journal's half of the list of the table's commits is the same. Nothing
    /// changes.
    pub(crate) fn meet(&mut self, tables: &mut Book<TableCommit>)
        requires { tables.old.name ≡ N.tables }
        ensures listed { get tables.old.lists self.old.number ≡ Some self.old.commits.list }
        ensures tables { tables.new ≡ tables.old }
        ensures same { self.new ≡ self.old }
    {
        tables.meet(&mut self.commits);
    }

    /// Tells a proof what its type keeps. It does nothing.
    pub fn recall_invariant(&self)
        ensures { IsTableState N.shares N.tables N.schema N.start self.now }
    {
        let _last = self.last;
    }
}

fn tell_commit<E: Items<TableCommit>>(
    tables: &mut Book<TableCommit>,
    commits: &mut Slip<TableCommit>,
    ticket: &parted_store::Ticket,
    info: CommitInfo,
)
    requires name { commits.old.name ≡ tables.old.name }
    requires items { E.items ≡ commit_at commits.old.number (past_by ticket.now info) }
    ensures listed { get tables.old.lists commits.old.number ≡ Some commits.old.list }
    ensures tables { tables.new ≡ with_list tables.old commits.old.number (commits.old.list ++ commit_at commits.old.number (past_by ticket.now info)) }
    ensures commits { commits.new ≡ record commits.old { list = commits.old.list ++ commit_at commits.old.number (past_by ticket.now info) } }
{
    let _ = ticket;
    let _ = info;
    tables.grow_by::<E>(commits);
}
