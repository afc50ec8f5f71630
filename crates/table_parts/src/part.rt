// The part of a table, and its calls.
ghost use Rattle.std.specs.Prelude.{◌≡◌, ◌<◌, ◌-◌, ◌^◌, ℕ, ◌++◌, ◌∷◌, [], Some, None, IfOk, IfErr, IfSome, OnOk, OnErr, is_some, length, min};
ghost use Rattle.std.specs.FinMap as finite;
ghost use Rattle.model.specs.declared.item.Item.TheVariants.{BackTo};
ghost use Rattle.model.specs.Effect.{serial};
ghost use Rattle.model.specs.Named.{NamesTables};
ghost use Rattle.model.specs.TableRows.{rows_of_table};
ghost use Rattle.tokens.specs.Lists.{open_list};
ghost use Rattle.world.specs.World.{Opened, World, starting, changes_in};
ghost use Rattle.world.specs.Settled.{WaitsFor};
ghost use Rattle.world.specs.Steps as steps;
ghost use Rattle.world.specs.Steps.{ReadsCommitted, ReadsLive};
ghost use Rattle.live_tables.specs.declared.answers.EngineFault.TheVariants.{OutOfMemory as NoMemory};
ghost use Rattle.live_tables.specs.Answers.{told_call, TellsVerdict, IsNoClash};
ghost use Rattle.live_tables.specs.Tried as tried;
ghost use Rattle.live_tables.specs.Tried.{after_try};
ghost use Rattle.engine.specs.declared.events.Event.TheVariants.{Done};
ghost use Rattle.engine.specs.Engine.{IsOtherwiseSame};
ghost use Rattle.engine.specs.Events.{opened_by, tried_events};
ghost use Rattle.world_parts.specs.ByTable.{IsIn};
ghost use Rattle.world_parts.specs.Lines.{HasLine, KeepsLine, rows_until};
ghost use Rattle.world_parts.specs.Marks.{HasPart};
ghost use Rattle.table_parts.specs.Part.{last_commit_end, TriesAlone, Opens, GoesBack, Commits, CommitsLine, Aborts};

use crate::entries::count_until;
use engine::{EngineFault, Line, Store, Ticket, Verdict};
use indexes::Tables;
use model::{Change, CommitInfo, Key, Lsn, Row, TableId, Xid};
use std::alloc::Global;
use std::marker::Model;

/// The part of a table: its committed rows, and what open transactions did in it. A clause sees the
/// number of the table, and the part as a store, which nothing stops.
#[derive(Debug, Drop)]
pub struct Part {
    number: TableId,
    pub(crate) store: Store,
    line: Line,
}

impl Model for Part {
    ghost use Rattle.table_parts.specs.Part.{Part as AnyPart};
    ghost use Rattle.table_parts.specs.PartCode.{part_code};

    ghost Value = { AnyPart };

    ghost coded = { part_code };

    ghost view = { λ p. record { number = p.number; store = p.store } };

    ghost use Rattle.table_parts.specs.Kept.{IsPart};

    ghost invariant = { IsPart };
}

impl Part {
    /// The part of a table, over tables of which the others have no rows. Refused for memory, the tables
    /// are handed back.
    pub fn new(alloc: Global, number: TableId, start: Tables) -> Result<Part, Tables>
        ensures number { IfOk result (λ part. part.number ≡ number) }
        ensures world { IfOk result (λ part. part.store.world ≡ starting start.rows) }
        ensures schema { IfOk result (λ part. part.store.schema ≡ start.schema) }
        ensures end { IfOk result (λ part. last_commit_end part ≡ 0) }
        ensures err { IfErr result (λ tables. tables ≡ start) }
    {
        let (store, line) = Store::new(alloc, start)?;
        Ok(Part {
            number,
            store,
            line,
        })
    }

    /// The number of its table.
    pub fn number(&self) -> TableId
        ensures { result ≡ self.now.number }
    {
        self.number
    }

    /// A transaction comes to the table for the first time. A refusal changes nothing.
    pub fn open(&mut self, alloc: Global, xid: Xid) -> Result<Ticket, EngineFault>
        ensures ticket { IfOk result (λ ticket. ticket ≡ open_list self.old.store.tickets xid []) }
        ensures fault { IfErr result IsNoClash }
        ensures in_part { steps.Opens self.old.store.world xid (told_call result) self.new.store.world }
        ensures opens { Opens self.old.number self.old.store.world self.new.store.world }
        ensures line { KeepsLine self.old.store.world self.new.store.world }
        ensures same { IsOtherwiseSame self.old.store self.new.store }
        ensures number { self.new.number ≡ self.old.number }
        ensures end { last_commit_end self.new ≡ last_commit_end self.old }
    {
        self.store.open(alloc, &mut self.line, xid)
    }

    /// Learns by its ticket what an open transaction did in the part. Nothing changes, and it takes no memory.
    pub fn meet(&mut self, t: &mut Ticket)
        requires { t.old.name ≡ self.old.store.tickets }
        ensures stood { finite.get self.old.store.world.opened t.old.number ≡ Some (opened_by t.old.list) }
        ensures ticket { t.new ≡ t.old }
        ensures same { self.new ≡ self.old }
    {
        let _ = self.store.wants(t);
    }

    /// Whether an open transaction waits with a change of the table, or has one that clashed.
    /// Nothing changes, and it takes no memory.
    pub fn wants(&mut self, t: &mut Ticket) -> bool
        requires { t.old.name ≡ self.old.store.tickets }
        ensures stood { finite.get self.old.store.world.opened t.old.number ≡ Some (opened_by t.old.list) }
        ensures wants { result ≡ is_some (opened_by t.old.list).wants }
        ensures ticket { t.new ≡ t.old }
        ensures same { self.new ≡ self.old }
    {
        self.store.wants(t)
    }

    /// Whom a transaction waits for in the part: another, which holds there a cell of the change that it wants
    /// there. Nothing changes, and it takes no memory.
    pub fn holder_of(&mut self, t: &mut Ticket) -> Option<Xid>
        requires { t.old.name ≡ self.old.store.tickets }
        ensures stood { finite.get self.old.store.world.opened t.old.number ≡ Some (opened_by t.old.list) }
        ensures held { IfSome result (WaitsFor self.old.store.schema self.old.store.world t.old.number (opened_by t.old.list)) }
        ensures free { result ≡ None → (holder : ℕ) → ¬ (WaitsFor self.old.store.schema self.old.store.world t.old.number (opened_by t.old.list) holder) }
        ensures ticket { t.new ≡ t.old }
        ensures same { self.new ≡ self.old }
    {
        self.store.holder_of(t)
    }

    /// Whom a transaction waits for in the part that has come to it under this number. It takes no memory.
    pub fn waiting_for(&self, xid: Xid) -> Option<Xid>
        ensures held { IfSome result (λ holder. (o : Opened) → finite.get self.now.store.world.opened xid ≡ Some o
            → WaitsFor self.now.store.schema self.now.store.world xid o holder) }
        ensures free { result ≡ None → (o : Opened) → finite.get self.now.store.world.opened xid ≡ Some o → (holder : ℕ)
            → ¬ (WaitsFor self.now.store.schema self.now.store.world xid o holder) }
    {
        self.store.waiting_for(xid)
    }

    /// How many items were done in the part by a transaction that has come to it under this number,
    /// rollbacks among them. Past the last number of a u64 the count stays there; of one that hasn't come
    /// it is 0. It takes no memory.
    pub fn done_by(&self, xid: Xid) -> u64
        ensures { (o : Opened) → finite.get self.now.store.world.opened xid ≡ Some o → result ≡ min (length o.items) (2 ^ 64 - 1) }
    {
        self.store.done_by(xid)
    }

    /// How many transactions have come to the part and have not ended. It takes no memory.
    pub fn open_count(&self) -> usize
        ensures { result ≡ finite.len self.now.store.world.opened }
    {
        self.store.open_count()
    }

    /// A transaction tries a change of this table alone, under its latest mark. A change that clashes alters
    /// nothing.
    pub fn try_change(
        &mut self,
        alloc: Global,
        t: &mut Ticket,
        mark: Xid,
        c: &Change,
    ) -> Result<Verdict, EngineFault>
        requires belongs { t.old.name ≡ self.old.store.tickets }
        requires names { NamesTables (length self.old.store.schema) c.now }
        requires its { IsIn self.old.number c.now }
        ensures stood { finite.get self.old.store.world.opened t.old.number ≡ Some (opened_by t.old.list) }
        ensures in_part { tried.Tries self.old.store.schema self.old.store.world t.old.number (opened_by t.old.list) mark c.now result self.new.store.world }
        ensures world { self.new.store.world ≡ after_try self.old.store.world t.old.number (opened_by t.old.list) mark c.now result }
        ensures cause { TellsVerdict result }
        ensures fault { IfErr result (λ fault. fault ≡ NoMemory) }
        ensures tries { TriesAlone self.old.store.schema self.old.number self.old.store.world t.old.number mark c.now result self.new.store.world }
        ensures line { KeepsLine self.old.store.world self.new.store.world }
        ensures ticket { t.new ≡ record t.old { list = t.old.list ++ tried_events mark c.now result } }
        ensures same { IsOtherwiseSame self.old.store self.new.store }
        ensures number { self.new.number ≡ self.old.number }
        ensures end { last_commit_end self.new ≡ last_commit_end self.old }
    {
        self.store.try_change(alloc, t, mark, c)
    }

    /// A subtransaction is rolled back, to the first mark of the table that it drops. It takes no memory.
    pub fn back_to(&mut self, t: &mut Ticket, mark: Xid)
        requires { t.old.name ≡ self.old.store.tickets }
        ensures stood { finite.get self.old.store.world.opened t.old.number ≡ Some (opened_by t.old.list) }
        ensures in_part { steps.GoesBack self.old.store.world t.old.number (opened_by t.old.list) mark self.new.store.world }
        ensures goes_back { GoesBack self.old.number self.old.store.world t.old.number mark self.new.store.world }
        ensures line { KeepsLine self.old.store.world self.new.store.world }
        ensures ticket { t.new ≡ record t.old { list = t.old.list ++ Done (BackTo mark) ∷ [] } }
        ensures same { IsOtherwiseSame self.old.store self.new.store }
        ensures number { self.new.number ≡ self.old.number }
        ensures end { last_commit_end self.new ≡ last_commit_end self.old }
    {
        self.store.back_to(t, mark);
    }

    /// A transaction commits. It takes no memory.
    pub fn commit(&mut self, t: Ticket, info: CommitInfo)
        requires belongs { t.name ≡ self.old.store.tickets }
        requires rising { last_commit_end self.old < info.end }
        ensures stood { finite.get self.old.store.world.opened t.number ≡ Some (opened_by t.list) }
        ensures in_part { steps.Commits self.old.store.schema self.old.store.world t.number (opened_by t.list) info self.new.store.world }
        ensures commits { Commits self.old.store.schema self.old.number self.old.store.world t.number info self.new.store.world }
        ensures line { CommitsLine self.old.store.schema self.old.number self.old.store.world t.number info self.new.store.world }
        ensures same { IsOtherwiseSame self.old.store self.new.store }
        ensures number { self.new.number ≡ self.old.number }
        ensures end { last_commit_end self.new ≡ info.end }
    {
        self.store.commit(&mut self.line, t, info);
    }

    /// A transaction aborts. It takes no memory.
    pub fn abort(&mut self, t: Ticket)
        requires { t.name ≡ self.old.store.tickets }
        ensures stood { finite.get self.old.store.world.opened t.number ≡ Some (opened_by t.list) }
        ensures in_part { steps.Aborts self.old.store.world t.number self.new.store.world }
        ensures aborts { Aborts self.old.number self.old.store.world t.number self.new.store.world }
        ensures line { KeepsLine self.old.store.world self.new.store.world }
        ensures same { IsOtherwiseSame self.old.store self.new.store }
        ensures number { self.new.number ≡ self.old.number }
        ensures end { last_commit_end self.new ≡ last_commit_end self.old }
    {
        self.store.abort(&mut self.line, t);
    }

    /// The tables, of which its own alone has rows, once all transactions that are still open in it
    /// were aborted: what they did is undone. It takes no memory.
    pub fn into_tables(self) -> Tables
        ensures rows { result.rows ≡ serial self.store.schema self.store.world.start (changes_in self.store.world.line) }
        ensures schema { result.schema ≡ self.store.schema }
    {
        let (tables, _) = self.store.shut(self.line);
        tables
    }

    /// The committed row at a key, as a copy.
    pub fn committed(&self, key: &Key) -> Result<Option<Row>, EngineFault>
        requires { self.now.number < length self.now.store.schema }
        ensures reads { (w : World) → HasPart self.now.number w self.now.store.world → ReadsCommitted w (self.now.number, key.now) result }
        ensures fault { IfErr result (λ fault. fault ≡ NoMemory) }
    {
        self.store.committed(self.number, key)
    }

    /// The committed rows in key order, as copies.
    pub fn committed_rows(&self, alloc: Global) -> Result<Vec<Row>, EngineFault>
        requires { self.now.number < length self.now.store.schema }
        ensures reads { (w : World) → HasPart self.now.number w self.now.store.world → IfOk result (λ rows. rows.items ≡ rows_of_table w.committed self.now.number) }
        ensures fault { IfErr result (λ fault. fault ≡ NoMemory) }
    {
        self.store.committed_rows(alloc, self.number)
    }

    /// The rows in key order after the commits up to a position, those that end there or below, as
    /// copies. It costs what `committed_rows` costs, and the changes of the later commits; in memory
    /// each key that they changed besides.
    pub fn rows_until(&self, alloc: Global, position: Lsn) -> Result<Vec<Row>, EngineFault>
        requires { self.now.number < length self.now.store.schema }
        ensures reads { (w : World) → HasLine self.now.number w self.now.store.world
            → IfOk result (λ rows. rows.items
            ≡ rows_of_table (rows_until self.now.store.schema w position) self.now.number) }
        ensures fault { IfErr result (λ fault. fault ≡ NoMemory) }
    {
        let count = count_until(self.store.journal(), position);
        self.store.rows_after(alloc, self.number, count)
    }

    /// The row at a key with the work of all open transactions, as a copy.
    pub fn live(&self, key: &Key) -> Result<Option<Row>, EngineFault>
        requires { self.now.number < length self.now.store.schema }
        ensures reads { (w : World) → HasPart self.now.number w self.now.store.world → ReadsLive self.now.store.schema w (self.now.number, key.now) result }
        ensures fault { IfErr result (λ fault. fault ≡ NoMemory) }
    {
        self.store.live(self.number, key)
    }
}
