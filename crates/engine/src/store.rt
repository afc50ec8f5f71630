// Several open transactions on one live set of tables.
ghost use Rattle.std.specs.Prelude.{◌≡◌, ℕ, ◌+◌, ◌-◌, ◌^◌, ◌<◌, ◌≤◌, ◌==◌, if◌then◌else◌, [], ◌∷◌, ◌++◌, Some, None, Ok, IfOk, IfErr, IfSome, OnOk, OnErr, is_some, length, map, min, vec_len, vec_capacity};
ghost use Rattle.std.specs.List.Sorted.{IsStrictlyIncreasing};
ghost use Rattle.std.specs.BTreeMap.{btree_map_len};
ghost use Rattle.std.specs.FinMap as finite;
ghost use Rattle.std.specs.Result.{result_ok};
ghost use Rattle.model.specs.Named.{NamesTables};
ghost use Rattle.model.specs.Survivors.{before_savepoint, survivors, changes_of};
ghost use Rattle.model.specs.Beginning.{Begins, last_end};
ghost use Rattle.model.specs.Effect.{serial};
ghost use Rattle.model.specs.TableRows.{rows_of_table};
ghost use Rattle.model.specs.declared.item.Item.TheVariants.{BackTo};
ghost use Rattle.tokens.specs.Lists.{open_list, with_list};
ghost use Rattle.world.specs.World.{Opened, World, starting, entry_of, journal, work, changes_in};
ghost use Rattle.world.specs.Settled.{WaitsFor};
ghost use Rattle.world.specs.Steps.{Opens, Acts, Touches, GoesBack, Commits, Aborts, StopsHeld, ReadsLive, ReadsCommitted, ReadsAfter, TellsJournal, Closes, Watches, Looks, Fault};
ghost use Rattle.live_tables.specs.declared.answers.EngineFault.TheVariants.{OutOfMemory as NoMemory};
ghost use Rattle.live_tables.specs.Answers.{told, told_call, after_open, after_touch, stop_of, TellsWhatStopped, TellsCause, IsNoClash};
ghost use Rattle.live_tables.specs.Journal.{rows_after as rows_behind};
ghost use Rattle.live_tables.specs.Represents.{Represents as LiveRepresents};
ghost use Rattle.engine.specs.declared.events.Event.TheVariants.{Done};
ghost use Rattle.engine.specs.declared.events.LineEvent.TheVariants.{Opened as WasOpened, Committed as WasCommitted, Aborted as WasAborted};
ghost use Rattle.engine.specs.Events.{opened_by, commits_in, ends_in, is_open_in, events_of, touch_events};
ghost use Rattle.engine.specs.declared.entry.Entry.{Entry as AnyEntry};
ghost use Rattle.engine.specs.Engine.{entry_in, IsOtherwiseSame};

use crate::entry::{Changes, Entry};
use crate::events::{Event, LineEvent};
use crate::rows_after::lay_entries;
use crate::tickets::{Line, Seen, Ticket};
use indexes::Tables;
use live_tables::{Acted, EngineFault, Live, NotSettled, Stop, Stopped};
use model::{Change, CommitInfo, Item, Key, MOST_OPEN, OutOfMemory, Row, TableId, Xid};
use std::alloc::Global;
use std::collections::BTreeMap;
use std::marker::{Brand, Model};
use tokens::{Book, Items, Kept, Slip, Token, grow, grow_by, look, meet, pair, watch};

/// One live set of tables, several open transactions in it, and the journal of those that were
/// committed.
///
/// A clause sees the world that it stands for (`world`, specs/World): the committed rows, what each open
/// transaction has done, and what stopped it. Each call is a step of that world.
#[derive(Debug, Drop)]
pub struct Store {
    pub(crate) live: Live,
    /// One list of the tables at the start, which proofs alone know.
    pub(crate) start: Kept<Tables>,
    pub(crate) journal: Vec<Entry>,
    pub(crate) book: Book<Event>,
    pub(crate) line: Kept<LineEvent>,
}

impl Model for Store {
    ghost use Rattle.engine.specs.Engine.{Engine, engine_in, Represents};

    ghost Value = { Engine };

    ghost use Rattle.engine.specs.EngineCode.{engine_code};

    ghost coded = { engine_code };

    ghost view = { engine_in };

    ghost invariant = { Represents };
}

impl Store {
    /// A store over these tables, with no transaction open, and its line. Refused for memory, the
    /// tables are handed back.
    pub fn new(alloc: Global, start: Tables) -> Result<(Store, Line), Tables>
        ensures world { IfOk result (λ made. made.0.world ≡ starting start.rows) }
        ensures schema { IfOk result (λ made. made.0.schema ≡ start.schema) }
        ensures line { IfOk result (λ made. (made.1 ≡ made.0.line) × (made.1.list ≡ [])) }
        ensures err { IfErr result (λ tables. tables ≡ start) }
    {
        let Ok(told) = record_start(alloc, &start) else {
            return Err(start);
        };
        let Ok((book, line, token)) = new_tokens(alloc) else {
            return Err(start);
        };
        let store = Store {
            live: Live::new(alloc, start),
            start: told,
            journal: Vec::new(alloc),
            book,
            line,
        };
        Ok((store, Line { token }))
    }

    /// A transaction opens.
    pub fn open(&mut self, alloc: Global, line: &mut Line, xid: Xid) -> Result<Ticket, EngineFault>
        requires { line.old.name ≡ self.old.line.name }
        ensures opens { Opens self.old.world xid (told_call result) self.new.world }
        ensures fault { IfErr result IsNoClash }
        ensures ticket { IfOk result (λ ticket. ticket ≡ open_list self.old.tickets xid []) }
        ensures met { line.old ≡ self.old.line }
        ensures line { line.new ≡ self.new.line }
        ensures ok { OnOk result (line.new.list ≡ line.old.list ++ WasOpened xid ∷ []) }
        ensures err { OnErr result (line.new.list ≡ line.old.list) }
        ensures same { IsOtherwiseSame self.old self.new }
    {
        meet(&mut self.line, &mut line.token);
        open_live(alloc, &mut self.live, &mut self.journal, xid)?;
        grow(&mut self.line, &mut line.token, &LineEvent::Opened(xid));
        let slip = self.book.open(xid);
        Ok(Ticket { slip })
    }

    /// A subtransaction of an open transaction tries a change.
    #[tactic(auto, using(crate::proofs::StoreTickets::met_open))]
    pub fn act(
        &mut self,
        alloc: Global,
        t: &mut Ticket,
        sub: Xid,
        c: &Change,
    ) -> Result<Acted, EngineFault>
        requires belongs { t.old.name ≡ self.old.tickets }
        requires names { NamesTables (length self.old.schema) c.now }
        ensures stood { finite.get self.old.world.opened t.old.number ≡ Some (opened_by t.old.list) }
        ensures acts { Acts self.old.schema self.old.world t.old.number (opened_by t.old.list) sub c.now (told result) self.new.world }
        ensures cause { TellsCause result }
        ensures ticket { t.new ≡ record t.old { list = t.old.list ++ events_of sub c.now (told result) } }
        ensures same { IsOtherwiseSame self.old self.new }
        ensures line { self.new.line ≡ self.old.line }
    {
        let xid = t.slip.number();
        self.book.meet(&mut t.slip);
        let answer = self.live.act(alloc, xid, sub, c);
        record_act(&mut self.book, &mut t.slip, sub, c, &answer);
        answer
    }

    /// A subtransaction of an open transaction is named by an item that changes no row: a relation or
    /// type message.
    #[tactic(auto, using(crate::proofs::StoreTickets::met_open))]
    pub fn touch(&mut self, t: &mut Ticket, sub: Xid) -> Result<(), EngineFault>
        requires { t.old.name ≡ self.old.tickets }
        ensures stood { finite.get self.old.world.opened t.old.number ≡ Some (opened_by t.old.list) }
        ensures touches { Touches self.old.world t.old.number (opened_by t.old.list) sub (told_call result) self.new.world }
        ensures fault { IfErr result IsNoClash }
        ensures ticket { t.new ≡ record t.old { list = t.old.list ++ touch_events sub (told_call result) } }
        ensures same { IsOtherwiseSame self.old self.new }
        ensures line { self.new.line ≡ self.old.line }
    {
        let xid = t.slip.number();
        self.book.meet(&mut t.slip);
        let answer = touch_live(*self.journal.allocator(), &mut self.live, xid, sub);
        record_touch(&mut self.book, &mut t.slip, sub, &answer);
        answer
    }

    /// A subtransaction of an open transaction is rolled back, also in a store that is stopped: its
    /// changes and all later ones are undone, and what was held since its savepoint is let go. What is
    /// left is the work of the items before its savepoint, as though the others had never come; all of
    /// it where it has none, or is the top one. It takes no memory.
    #[tactic(auto, using(crate::proofs::StoreTickets::met_open))]
    pub fn back_to(&mut self, t: &mut Ticket, sub: Xid)
        requires { t.old.name ≡ self.old.tickets }
        ensures stood { finite.get self.old.world.opened t.old.number ≡ Some (opened_by t.old.list) }
        ensures goes_back { GoesBack self.old.world t.old.number (opened_by t.old.list) sub self.new.world }
        ensures as_though { let items = survivors t.old.number (opened_by t.old.list).items in
            work t.new.number (opened_by t.new.list) ≡ changes_of (if sub == t.old.number then items else before_savepoint sub items) }
        ensures ticket { t.new ≡ record t.old { list = t.old.list ++ Done (BackTo sub) ∷ [] } }
        ensures same { IsOtherwiseSame self.old self.new }
        ensures line { self.new.line ≡ self.old.line }
    {
        let xid = t.slip.number();
        self.book.meet(&mut t.slip);
        self.live.back_to(xid, sub);
        self.book.grow(&mut t.slip, &Event::Done(Item::BackTo(sub)));
    }

    /// Whether an open transaction waits with a change, or has one that clashed. Nothing changes, and
    /// it takes no memory.
    #[tactic(auto, using(crate::proofs::StoreTickets::met_open))]
    pub fn wants(&mut self, t: &mut Ticket) -> bool
        requires { t.old.name ≡ self.old.tickets }
        ensures stood { finite.get self.old.world.opened t.old.number ≡ Some (opened_by t.old.list) }
        ensures wants { result ≡ is_some (opened_by t.old.list).wants }
        ensures ticket { t.new ≡ t.old }
        ensures same { self.new ≡ self.old }
    {
        let xid = t.slip.number();
        self.book.meet(&mut t.slip);
        self.live.wants(xid)
    }

    /// Whom an open transaction waits for: another, which holds a cell of the change that it wants.
    /// Nothing changes, and it takes no memory.
    #[tactic(auto, using(crate::proofs::StoreTickets::met_open))]
    pub fn holder_of(&mut self, t: &mut Ticket) -> Option<Xid>
        requires { t.old.name ≡ self.old.tickets }
        ensures stood { finite.get self.old.world.opened t.old.number ≡ Some (opened_by t.old.list) }
        ensures held { IfSome result (WaitsFor self.old.schema self.old.world t.old.number (opened_by t.old.list)) }
        ensures free { result ≡ None → (holder : ℕ) → ¬ (WaitsFor self.old.schema self.old.world t.old.number (opened_by t.old.list) holder) }
        ensures ticket { t.new ≡ t.old }
        ensures same { self.new ≡ self.old }
    {
        let xid = t.slip.number();
        self.book.meet(&mut t.slip);
        self.live.holder_of(xid)
    }

    /// An open transaction is committed, also in a store that is stopped: its changes that survived
    /// its rollbacks are an entry of the journal, and what it held is let go. The log goes on behind it
    /// above where it went on behind the commit before, and above 0 behind the first: so an end names
    /// one entry. It takes no memory.
    #[tactic(auto, using(crate::proofs::StoreTickets::met_open))]
    pub fn commit(&mut self, line: &mut Line, t: Ticket, info: CommitInfo)
        requires belongs { t.name ≡ self.old.tickets }
        requires line { line.old.name ≡ self.old.line.name }
        requires rising { last_end (ends_in line.old.list) < info.end }
        ensures stood { finite.get self.old.world.opened t.number ≡ Some (opened_by t.list) }
        ensures commits { Commits self.old.schema self.old.world t.number (opened_by t.list) info self.new.world }
        ensures met { line.old ≡ self.old.line }
        ensures line_told { line.new ≡ self.new.line }
        ensures appended { line.new.list ≡ line.old.list ++ WasCommitted t.number (opened_by t.list).items info ∷ [] }
        ensures same { IsOtherwiseSame self.old self.new }
    {
        let xid = t.slip.number();
        record_commit(&mut self.line, &mut line.token, &t, info);
        let Ticket { slip } = t;
        self.book.close(slip);
        let (items, inverses) = self.live.commit(xid);
        self.journal.push_reserved(Entry {
            xid,
            changes: Changes::of_items(items),
            commit: info.commit,
            end: info.end,
            inverses,
        });
    }

    /// An open transaction is aborted, also in a store that is stopped: its changes are undone, and what
    /// it held is let go. Nothing of it is left: the world is the same but that it isn't open. It takes
    /// no memory.
    #[tactic(auto, using(crate::proofs::StoreTickets::met_open))]
    pub fn abort(&mut self, line: &mut Line, t: Ticket)
        requires belongs { t.name ≡ self.old.tickets }
        requires line { line.old.name ≡ self.old.line.name }
        ensures stood { finite.get self.old.world.opened t.number ≡ Some (opened_by t.list) }
        ensures aborts { Aborts self.old.world t.number self.new.world }
        ensures met { line.old ≡ self.old.line }
        ensures line_told { line.new ≡ self.new.line }
        ensures appended { line.new.list ≡ line.old.list ++ WasAborted t.number ∷ [] }
        ensures same { IsOtherwiseSame self.old self.new }
    {
        let xid = t.slip.number();
        grow(&mut self.line, &mut line.token, &LineEvent::Aborted(xid));
        let Ticket { slip } = t;
        self.book.close(slip);
        self.live.abort(xid);
    }

    /// How many tables there are. It takes no memory.
    pub fn table_count(&self) -> usize
        ensures { result ≡ length self.now.schema }
    {
        self.live.tables.len()
    }

    /// Whom a transaction waits for that is open under this number: another, which holds a cell of the
    /// change that it wants. It takes no memory.
    pub fn waiting_for(&self, xid: Xid) -> Option<Xid>
        ensures held { IfSome result (λ holder. (o : Opened) → finite.get self.now.world.opened xid ≡ Some o → WaitsFor self.now.schema self.now.world xid o holder) }
        ensures free { result ≡ None → (o : Opened) → finite.get self.now.world.opened xid ≡ Some o → (holder : ℕ)
            → ¬ (WaitsFor self.now.schema self.now.world xid o holder) }
    {
        self.live.holder_of(xid)
    }

    /// How many items a transaction has done that is open under this number, rollbacks among them. Past
    /// the last number of a u64 the count stays there; of one that isn't open it is 0. It takes no memory.
    pub fn done_by(&self, xid: Xid) -> u64
        ensures { (o : Opened) → finite.get self.now.world.opened xid ≡ Some o → result ≡ min (length o.items) (2 ^ 64 - 1) }
    {
        self.live.done_by(xid)
    }

    /// How many transactions are open. It takes no memory.
    pub fn open_count(&self) -> usize
        ensures { result ≡ finite.len self.now.world.opened }
    {
        self.live.open_count()
    }

    /// Tells a proof what its type keeps: its world has the commits that its line tells, each of which
    /// ends above the ones before it, the committed rows are their changes, and the line tells which
    /// transactions are open. It does nothing.
    pub fn recall_invariant(&self)
        ensures line { self.now.world.line ≡ commits_in self.now.line.list }
        ensures rising { IsStrictlyIncreasing (0 ∷ ends_in self.now.line.list) }
        ensures committed { self.now.world.committed ≡ serial self.now.schema self.now.world.start (changes_in self.now.world.line) }
        ensures opened { (xid : ℕ) → is_open_in self.now.line.list xid ≡ is_some (finite.get self.now.world.opened xid) }
    {
        let _count = self.live.tables.len();
    }

    /// What stopped the store, if anything did. It takes no memory.
    pub fn stop(&self) -> Option<Stop>
        ensures { TellsWhatStopped result self.now.world.stopped }
    {
        match &self.live.stopped {
            None => None,
            Some(stopped) => Some(stop_of(stopped)),
        }
    }

    /// The commits so far, in order. Where the log goes on behind each rises from one to the next. It
    /// takes no memory.
    pub fn journal(&self) -> &[Entry]
        ensures journal { TellsJournal self.now.world (map entry_in result.now) }
        ensures rising { IsStrictlyIncreasing (0 ∷ map (λ (e : AnyEntry). e.end) result.now) }
    {
        self.journal.as_slice()
    }

    /// The row of a table at a key, with the work of all open transactions, as a copy.
    pub fn live(&self, table: TableId, key: &Key) -> Result<Option<Row>, EngineFault>
        requires { table < length self.now.schema }
        ensures reads { ReadsLive self.now.schema self.now.world (table, key.now) result }
        ensures fault { IfErr result (λ fault. fault ≡ NoMemory) }
    {
        match self.live.row(table, key) {
            None => Ok(None),
            Some(row) => Ok(Some(row.to_row()?)),
        }
    }

    /// The committed row of a table at a key, as a copy. No log is searched for it, but that of a transaction
    /// which is alone.
    pub fn committed(&self, table: TableId, key: &Key) -> Result<Option<Row>, EngineFault>
        requires { table < length self.now.schema }
        ensures reads { ReadsCommitted self.now.world (table, key.now) result }
        ensures fault { IfErr result (λ fault. fault ≡ NoMemory) }
    {
        match self.live.committed(table, key) {
            None => Ok(None),
            Some(row) => Ok(Some(row.to_row()?)),
        }
    }

    /// The committed rows of a table, in key order, as copies. It costs one walk of the table, and one of
    /// what open transactions did, in any table.
    pub fn committed_rows(&self, alloc: Global, table: TableId) -> Result<Vec<Row>, EngineFault>
        requires { table < length self.now.schema }
        ensures reads { IfOk result (λ rows. rows.items ≡ rows_of_table self.now.world.committed table) }
        ensures fault { IfErr result (λ fault. fault ≡ NoMemory) }
    {
        let known = BTreeMap::new(alloc);
        Ok(self.live.committed_rows(alloc, table, known)?)
    }

    /// The rows of a table after the first so many commits, in key order, as copies: the committed ones,
    /// but where a later commit changed them what stood before it. It costs what `committed_rows` costs,
    /// and the changes of the later commits; in memory each key that they changed besides.
    pub fn rows_after(
        &self,
        alloc: Global,
        table: TableId,
        entries: usize,
    ) -> Result<Vec<Row>, EngineFault>
        requires known { table < length self.now.schema }
        requires reached { entries ≤ length (journal self.now.world) }
        ensures reads { IfOk result (λ rows. ReadsAfter {E = Fault} self.now.schema self.now.world table entries (Ok rows.items)) }
        ensures fault { IfErr result (λ fault. fault ≡ NoMemory) }
    {
        let mut known = BTreeMap::new(alloc);
        lay_entries(&self.journal[entries..], table, &mut known)?;
        Ok(self.live.committed_rows(alloc, table, known)?)
    }

    /// Stops the store by a transaction that the waiter waits for, where no more can come that would let
    /// it go: each open transaction has done as many items as were sent to it, or waits. Else nothing
    /// changes. It takes no memory.
    pub fn stop_held(
        &mut self,
        line: &Line,
        waiter: Xid,
        sent: &[(Xid, u64)],
    ) -> Result<Xid, NotSettled>
        requires { line.now.name ≡ self.old.line.name }
        ensures stops { StopsHeld self.old.schema self.old.world sent.now waiter (result_ok result) self.new.world }
        ensures same { IsOtherwiseSame self.old self.new }
        ensures line { self.new.line ≡ self.old.line }
    {
        let _ = line;
        self.live.stop_held(waiter, sent)
    }

    /// Learns that its line tells all that happened to its transactions. Nothing changes, and it takes no
    /// memory.
    pub fn meet(&mut self, line: &mut Line)
        requires { line.old.name ≡ self.old.line.name }
        ensures met { line.old ≡ self.old.line }
        ensures same { self.new ≡ self.old }
        ensures line { line.new ≡ line.old }
    {
        meet(&mut self.line, &mut line.token);
    }

    /// Sees the journal as it is now. It takes no memory.
    pub fn watch(&mut self) -> Seen
        ensures same { self.new ≡ self.old }
        ensures seen { result ≡ self.old.line }
        ensures watches { Watches self.old.world (map entry_of (commits_in result.list)) }
    {
        Seen {
            list: watch(&mut self.line),
        }
    }

    /// Learns that what was seen is a beginning of the journal, and sees all of it. It takes no memory.
    pub fn look(&mut self, seen: &mut Seen)
        requires { seen.old.name ≡ self.old.line.name }
        ensures same { self.new ≡ self.old }
        ensures begins { Begins seen.old.list self.old.line.list }
        ensures seen { seen.new ≡ self.old.line }
        ensures looks { Looks self.old.world (map entry_of (commits_in seen.old.list)) (map entry_of (commits_in seen.new.list)) }
    {
        look(&mut self.line, &mut seen.list);
    }

    /// The tables and the journal, once no transaction is open. The rows are those at the start with the
    /// changes of the journal's entries, one entry after another. It takes no memory.
    pub fn close(self, line: Line) -> (Tables, Vec<Entry>)
        requires line { line.name ≡ self.line.name }
        requires none { self.world.opened ≡ finite.empty }
        ensures closes { Closes self.world result.0.rows (map entry_in result.1.items) }
        ensures serial { result.0.rows ≡ rows_behind self.schema self.world.start (map entry_in result.1.items) }
        ensures schema { result.0.schema ≡ self.schema }
        ensures met { line ≡ self.line }
    {
        self.shut(line)
    }
}

// The tokens of a new store: of its tickets, and both halves of its line.
pub(crate) fn new_tokens(
    alloc: Global,
) -> Result<(Book<Event>, Kept<LineEvent>, Token<LineEvent>), OutOfMemory>
    ensures book { IfOk result (λ made. made.0.lists ≡ finite.empty) }
    ensures line { IfOk result (λ made. (made.1 ≡ made.2) × (made.1.list ≡ [])) }
{
    let book = Book::new(alloc)?;
    let (line, token) = pair(alloc)?;
    Ok((book, line, token))
}

// The tables as they are now, for proofs alone.
pub(crate) fn record_start(alloc: Global, tables: &Tables) -> Result<Kept<Tables>, OutOfMemory>
    ensures { IfOk result (λ told. told.list ≡ tables.now ∷ []) }
{
    let (mut kept, mut token) = pair(alloc)?;
    grow(&mut kept, &mut token, tables);
    Ok(kept)
}

/// What stopped a store, as a caller is told it.
pub fn stop_of(stopped: &Stopped) -> Stop
    ensures { result ≡ stop_of stopped.now }
{
    match stopped {
        Stopped::Clash { xid, clash, .. } => Stop::Clash(*xid, *clash),
        Stopped::Held { waiter, holder } => Stop::Held(*waiter, *holder),
    }
}

// A transaction opens in the live part, and the journal gets room for its entry. Stopped goes before
// AlreadyOpen, and that before TooManyOpen.
fn open_live(
    alloc: Global,
    live: &mut Live,
    journal: &mut Vec<Entry>,
    xid: Xid,
) -> Result<(), EngineFault>
    requires { (w : World) × LiveRepresents w live.old }
    ensures opens { (w : World) → LiveRepresents w live.old → Opens w xid (told_call result) (after_open w xid (told_call result)) }
    ensures tied { (w : World) → LiveRepresents w live.old → LiveRepresents (after_open w xid (told_call result)) live.new }
    ensures fault { IfErr result IsNoClash }
    ensures schema { live.new.tables.schema ≡ live.old.tables.schema }
    ensures items { journal.new.items ≡ journal.old.items }
    ensures len { vec_len journal.new ≡ vec_len journal.old }
    ensures capacity { vec_capacity journal.old ≤ vec_capacity journal.new }
    ensures room { OnOk result (vec_len journal.new + (btree_map_len live.old.transactions + 1) ≤ vec_capacity journal.new) }
{
    if live.stopped.is_some() {
        return Err(EngineFault::Stopped);
    }
    if live.transactions.contains_key(&xid) {
        return Err(EngineFault::AlreadyOpen);
    }
    let count = live.transactions.len();
    if count >= MOST_OPEN {
        return Err(EngineFault::TooManyOpen);
    }
    journal.reserve(count + 1)?;
    live.open(alloc, xid)?;
    Ok(())
}

// A subtransaction of an open transaction is named in the live part, unless that is stopped.
fn touch_live(alloc: Global, live: &mut Live, xid: Xid, sub: Xid) -> Result<(), EngineFault>
    requires { (w : World) × (o : Opened) × LiveRepresents w live.old × (finite.get w.opened xid ≡ Some o) }
    ensures touches { (w : World) (o : Opened) → LiveRepresents w live.old → finite.get w.opened xid ≡ Some o
        → Touches w xid o sub (told_call result) (after_touch w xid o sub (told_call result)) }
    ensures tied { (w : World) (o : Opened) → LiveRepresents w live.old → finite.get w.opened xid ≡ Some o
        → LiveRepresents (after_touch w xid o sub (told_call result)) live.new }
    ensures fault { IfErr result IsNoClash }
    ensures schema { live.new.tables.schema ≡ live.old.tables.schema }
{
    if live.stopped.is_none() {
        live.touch(alloc, xid, sub)?;
        return Ok(());
    }
    Err(EngineFault::Stopped)
}

// Appends what a call that tried a change tells of its transaction.
pub(crate) fn record_act(
    book: &mut Book<Event>,
    slip: &mut Slip<Event>,
    sub: Xid,
    c: &Change,
    answer: &Result<Acted, EngineFault>,
)
    requires { slip.old.name ≡ book.old.name }
    ensures listed { finite.get book.old.lists slip.old.number ≡ Some slip.old.list }
    ensures book { book.new ≡ with_list book.old slip.old.number (slip.old.list ++ events_of sub c.now (told answer.now)) }
    ensures slip { slip.new ≡ record slip.old { list = slip.old.list ++ events_of sub c.now (told answer.now) } }
{
    grow_act::<Brand>(book, slip, sub, c, answer);
}

fn grow_act<N: Items<Event>>(
    book: &mut Book<Event>,
    slip: &mut Slip<Event>,
    sub: Xid,
    c: &Change,
    answer: &Result<Acted, EngineFault>,
)
    requires name { slip.old.name ≡ book.old.name }
    requires items { N.items ≡ events_of sub c.now (told answer.now) }
    ensures listed { finite.get book.old.lists slip.old.number ≡ Some slip.old.list }
    ensures book { book.new ≡ with_list book.old slip.old.number (slip.old.list ++ events_of sub c.now (told answer.now)) }
    ensures slip { slip.new ≡ record slip.old { list = slip.old.list ++ events_of sub c.now (told answer.now) } }
{
    let _ = sub;
    let _ = c;
    let _ = answer;
    book.grow_by::<N>(slip);
}

// Appends what a call that named a subtransaction tells of its transaction.
fn record_touch(
    book: &mut Book<Event>,
    slip: &mut Slip<Event>,
    sub: Xid,
    answer: &Result<(), EngineFault>,
)
    requires { slip.old.name ≡ book.old.name }
    ensures listed { finite.get book.old.lists slip.old.number ≡ Some slip.old.list }
    ensures book { book.new ≡ with_list book.old slip.old.number (slip.old.list ++ touch_events sub (told_call answer.now)) }
    ensures slip { slip.new ≡ record slip.old { list = slip.old.list ++ touch_events sub (told_call answer.now) } }
{
    grow_touch::<Brand>(book, slip, sub, answer);
}

fn grow_touch<N: Items<Event>>(
    book: &mut Book<Event>,
    slip: &mut Slip<Event>,
    sub: Xid,
    answer: &Result<(), EngineFault>,
)
    requires name { slip.old.name ≡ book.old.name }
    requires items { N.items ≡ touch_events sub (told_call answer.now) }
    ensures listed { finite.get book.old.lists slip.old.number ≡ Some slip.old.list }
    ensures book { book.new ≡ with_list book.old slip.old.number (slip.old.list ++ touch_events sub (told_call answer.now)) }
    ensures slip { slip.new ≡ record slip.old { list = slip.old.list ++ touch_events sub (told_call answer.now) } }
{
    let _ = sub;
    let _ = answer;
    book.grow_by::<N>(slip);
}

// Appends a commit to the line, with the items that its transaction had done.
fn record_commit(
    kept: &mut Kept<LineEvent>,
    token: &mut Token<LineEvent>,
    t: &Ticket,
    info: CommitInfo,
)
    requires { token.old.name ≡ kept.old.name }
    ensures met { token.old ≡ kept.old }
    ensures kept { kept.new ≡ record kept.old { list = kept.old.list ++ WasCommitted t.now.number (opened_by t.now.list).items info ∷ [] } }
    ensures token { token.new ≡ record token.old { list = token.old.list ++ WasCommitted t.now.number (opened_by t.now.list).items info ∷ [] } }
{
    grow_commit::<Brand>(kept, token, t, info);
}

fn grow_commit<N: Items<LineEvent>>(
    kept: &mut Kept<LineEvent>,
    token: &mut Token<LineEvent>,
    t: &Ticket,
    info: CommitInfo,
)
    requires name { token.old.name ≡ kept.old.name }
    requires items { N.items ≡ WasCommitted t.now.number (opened_by t.now.list).items info ∷ [] }
    ensures met { token.old ≡ kept.old }
    ensures kept { kept.new ≡ record kept.old { list = kept.old.list ++ WasCommitted t.now.number (opened_by t.now.list).items info ∷ [] } }
    ensures token { token.new ≡ record token.old { list = token.old.list ++ WasCommitted t.now.number (opened_by t.now.list).items info ∷ [] } }
{
    let _ = t;
    let _ = info;
    grow_by::<LineEvent, N>(kept, token);
}
