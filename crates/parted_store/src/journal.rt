// The part of a store that is no table's: its commits, who is open, and what stopped it.
ghost use Rattle.std.specs.Prelude.{◌≡◌, ◌<◌, ◌≤◌, ◌+◌, ◌∷◌, ◌++◌, [], true, false, ◌==◌, ℕ, List, Some, None, IsSome, IfOk, IfErr, OnOk, OnErr, All, Contains, is_some, length, map, vec_len, vec_capacity};
ghost use Rattle.std.specs.BTreeSet as set;
ghost use Rattle.std.specs.BTreeSet.{btree_set_len};
ghost use Rattle.std.specs.List.{IsDistinct};
ghost use Rattle.std.specs.List.Sorted.{IsStrictlyIncreasing};
ghost use Rattle.std.specs.Ordering.{nat_cmp};
ghost use Rattle.model.specs.Beginning.{Begins, last_end};
ghost use Rattle.model.specs.Survivors.{survivors};
ghost use Rattle.world.specs.World.{is_xid, World, ByHold, entry_of};
ghost use Rattle.world.specs.Steps.{Opens};
ghost use Rattle.live_tables.specs.Answers.{cause_of, stop_for, told_call, after_open, TellsWhatStopped, IsNoClash};
ghost use Rattle.engine.specs.declared.events.LineEvent.TheVariants.{Opened as WasOpened, Committed as WasCommitted, Aborted as WasAborted};
ghost use Rattle.engine.specs.Engine.{entry_in};
ghost use Rattle.engine.specs.Events.{opened_by, commits_in, ends_in, is_open_in};
ghost use Rattle.parted_store.specs.Lent.{HasJournal};
ghost use Rattle.parted_store.specs.Opening.{CanOpen, RefusesOpen};

use crate::ticket::Ticket;
use crate::told::Told;
use change::Clash;
use engine::{Changes, EngineFault, Entry, Event, LineEvent, stop_of};
use live_tables::{Stop, Stopped};
use model::{Change, CommitInfo, Item, MOST_OPEN, OutOfMemory, Xid};
use std::alloc::Global;
use std::collections::BTreeSet;
use std::marker::{Brand, Model};
use tokens::{Items, Kept, Seen as SeenList, Token, grow, grow_by, look, meet, pair, watch};

/// The one token of a store's commits. A clause sees its name, and the list of what happened to all
/// transactions: which were opened, committed with which items, and aborted.
#[derive(Debug, Drop)]
pub struct Line {
    token: Token<LineEvent>,
}

impl Model for Line {
    ghost use Rattle.engine.specs.declared.events.LineEvent.{LineEvent as AnyEvent};
    ghost use Rattle.tokens.specs.Half.{Half};

    ghost Value = { Half AnyEvent };

    ghost view = { λ l. l.token };
}

/// What was seen of a store's line: a beginning of what it is now. It has no bytes. A clause sees the
/// line's name, and the list of what was seen.
#[derive(Debug, Drop)]
pub struct Seen {
    list: SeenList<LineEvent>,
}

impl Model for Seen {
    ghost use Rattle.engine.specs.declared.events.LineEvent.{LineEvent as AnyEvent};
    ghost use Rattle.tokens.specs.Half.{Half};

    ghost Value = { Half AnyEvent };

    ghost view = { λ s. s.list };
}

/// The part of a store that is no table's: the entries of its commits, which transactions are open, and
/// what stopped it.
#[derive(Debug, Drop)]
pub struct Journal {
    line: Kept<LineEvent>,
    entries: Vec<Entry>,
    open_ones: BTreeSet<Xid>,
    stopped: Option<Stopped>,
}

impl Model for Journal {
    ghost use Rattle.parted_store.specs.Journal.{JournalPart};

    ghost Value = { JournalPart };

    ghost use Rattle.parted_store.specs.JournalCode.{journal_code};

    ghost coded = { journal_code };

    ghost use Rattle.parted_store.specs.Journal.{journal_in, IsJournal};

    ghost view = { journal_in };

    ghost invariant = { IsJournal };
}

impl Journal {
    /// The journal's part of a store in which nothing has happened, and its line.
    pub fn new(alloc: Global) -> Result<(Journal, Line), OutOfMemory>
        ensures journal { IfOk result (λ made. made.0 ≡ record { line = made.1; open_count = 0; stopped = None }) }
        ensures line { IfOk result (λ made. made.1.list ≡ []) }
    {
        let (line, token) = pair(alloc)?;
        let journal = Journal {
            line,
            entries: Vec::new(alloc),
            open_ones: BTreeSet::new(alloc),
            stopped: None,
        };
        Ok((journal, Line { token }))
    }

    /// The entries of its commits so far, in order. It takes no memory.
    pub fn entries(&self) -> &[Entry]
        ensures { map entry_in result.now ≡ map entry_of (commits_in self.now.line.list) }
    {
        self.entries.as_slice()
    }

    /// Whether something stopped the store. It takes no memory.
    pub fn is_stopped(&self) -> bool
        ensures { result ≡ is_some self.now.stopped }
    {
        self.stopped.is_some()
    }

    /// What stopped the store, if anything did. It takes no memory.
    pub fn stop(&self) -> Option<Stop>
        ensures { TellsWhatStopped result self.now.stopped }
    {
        match &self.stopped {
            None => None,
            Some(stopped) => Some(stop_of(stopped)),
        }
    }

    /// Whether a transaction is open. It takes no memory.
    pub fn is_open(&self, xid: Xid) -> bool
        ensures { result ≡ is_open_in self.now.line.list xid }
    {
        self.open_ones.contains(&xid)
    }

    /// How many transactions are open. It takes no memory.
    pub fn open_count(&self) -> usize
        ensures { result ≡ self.now.open_count }
    {
        self.open_ones.len()
    }

    /// Tells a proof that different transactions that are open, as many as are, are all that are. It
    /// does nothing.
    pub fn recall_open(&self)
        ensures { (xids : List ℕ) → IsDistinct is_xid xids → All (λ xid. is_open_in self.now.line.list xid ≡ true) xids → length xids ≡ self.now.open_count
            → (xid : ℕ) → is_open_in self.now.line.list xid ≡ true → Contains xids xid }
    {
        let _count = self.open_ones.len();
    }

    /// Tells a proof what its type keeps: where the log goes on behind each commit rises from one to the next. It
    /// does nothing.
    pub fn recall_invariant(&self)
        ensures { IsStrictlyIncreasing (0 ∷ ends_in self.now.line.list) }
    {
        let _count = self.entries.len();
    }

    /// Learns that its line tells all that happened to its transactions. Nothing changes, and it takes no memory.
    pub fn meet(&mut self, line: &mut Line)
        requires { line.old.name ≡ self.old.line.name }
        ensures met { line.old ≡ self.old.line }
        ensures same { self.new ≡ self.old }
        ensures line { line.new ≡ line.old }
    {
        meet(&mut self.line, &mut line.token);
    }

    /// Sees the commits as they are now. It takes no memory.
    pub fn watch(&mut self) -> Seen
        ensures same { self.new ≡ self.old }
        ensures seen { result ≡ self.old.line }
    {
        Seen {
            list: watch(&mut self.line),
        }
    }

    /// Learns that what was seen is a beginning of the line, and sees all of it. It takes no memory.
    pub fn look(&mut self, seen: &mut Seen)
        requires { seen.old.name ≡ self.old.line.name }
        ensures same { self.new ≡ self.old }
        ensures begins { Begins seen.old.list self.old.line.list }
        ensures seen { seen.new ≡ self.old.line }
    {
        look(&mut self.line, &mut seen.list);
    }

    /// The entries, for whoever gives up the rest. It takes no memory.
    pub fn into_entries(self) -> Vec<Entry>
        ensures { map entry_in result.items ≡ map entry_of (commits_in self.line.list) }
    {
        let Journal { entries, .. } = self;
        entries
    }

    /// A transaction opens. In every world that has this journal's part the call is the step. Stopped goes
    /// before AlreadyOpen, and that before TooManyOpen; a refusal changes nothing.
    pub fn open(&mut self, alloc: Global, line: &mut Line, xid: Xid) -> Result<Ticket, EngineFault>
        requires { line.old.name ≡ self.old.line.name }
        ensures opens { (w : World) → HasJournal w self.old → Opens w xid (told_call result) (after_open w xid (told_call result)) }
        ensures journal { (w : World) → HasJournal w self.old → HasJournal (after_open w xid (told_call result)) self.new }
        ensures fault { IfErr result IsNoClash }
        ensures ticket { IfOk result (λ ticket. ticket ≡ record { number = xid; events = []; shares = [] }) }
        ensures met { OnOk result (line.old ≡ self.old.line) }
        ensures line { OnOk result (line.new ≡ self.new.line) }
        ensures name { line.new.name ≡ line.old.name }
        ensures ok { OnOk result (line.new.list ≡ line.old.list ++ WasOpened xid ∷ []) }
        ensures err { OnErr result (self.new ≡ self.old) }
        ensures err_line { OnErr result (line.new ≡ line.old) }
    {
        self.can_open(xid)?;
        let ticket = Ticket::new(alloc, xid)?;
        admit(&mut self.open_ones, &mut self.entries, xid)?;
        grow(&mut self.line, &mut line.token, &LineEvent::Opened(xid));
        Ok(ticket)
    }

    /// Whether a transaction may open, memory aside. It takes none.
    pub fn can_open(&self, xid: Xid) -> Result<(), EngineFault>
        ensures ok { OnOk result (CanOpen self.now xid) }
        ensures err { IfErr result (RefusesOpen self.now xid) }
    {
        if self.is_stopped() {
            return Err(EngineFault::Stopped);
        }
        if self.open_ones.contains(&xid) {
            return Err(EngineFault::AlreadyOpen);
        }
        let count = self.open_ones.len();
        if count >= MOST_OPEN {
            return Err(EngineFault::TooManyOpen);
        }
        Ok(())
    }

    // A change of a transaction clashed, and stops the store. It takes no memory.
    pub(crate) fn stop_by_clash(&mut self, xid: Xid, change: Change, clash: Clash)
        requires { IsSome (cause_of clash) }
        ensures { self.new ≡ record self.old { stopped = stop_for xid change (cause_of clash) } }
    {
        self.stopped = Some(Stopped::Clash { xid, change, clash });
    }

    /// A transaction's waiting for another stops the store. It takes no memory.
    pub fn stop_by_hold(&mut self, waiter: Xid, holder: Xid)
        ensures { self.new ≡ record self.old { stopped = Some (ByHold waiter holder) } }
    {
        self.stopped = Some(Stopped::Held { waiter, holder });
    }

    // An open transaction is committed, with what happened to it and its items that survive: they are an
    // entry. It takes no memory.
    pub(crate) fn commit(
        &mut self,
        line: &mut Line,
        xid: Xid,
        events: &Told<Event>,
        items: Vec<Item>,
        info: CommitInfo,
    )
        requires line { line.old.name ≡ self.old.line.name }
        requires open { is_open_in line.old.list xid ≡ true }
        requires rising { last_end (ends_in line.old.list) < info.end }
        requires items { items.items ≡ survivors xid (opened_by events.now).items }
        ensures met { line.old ≡ self.old.line }
        ensures line { line.new ≡ self.new.line }
        ensures appended { line.new ≡ record line.old { list = line.old.list ++ WasCommitted xid (opened_by events.now).items info ∷ [] } }
        ensures stopped { self.new.stopped ≡ self.old.stopped }
        ensures count { self.new.open_count + 1 ≡ self.old.open_count }
    {
        tell_commit(&mut self.line, &mut line.token, xid, events, info);
        self.open_ones.remove(&xid);
        let changes = Changes::of_items(items);
        let entry = Entry::new(*self.entries.allocator(), xid, changes, info);
        self.entries.push_reserved(entry);
    }

    // An open transaction is aborted. It takes no memory.
    pub(crate) fn abort(&mut self, line: &mut Line, xid: Xid)
        requires line { line.old.name ≡ self.old.line.name }
        requires open { is_open_in line.old.list xid ≡ true }
        ensures met { line.old ≡ self.old.line }
        ensures line { line.new ≡ self.new.line }
        ensures appended { line.new ≡ record line.old { list = line.old.list ++ WasAborted xid ∷ [] } }
        ensures stopped { self.new.stopped ≡ self.old.stopped }
        ensures count { self.new.open_count + 1 ≡ self.old.open_count }
    {
        grow(&mut self.line, &mut line.token, &LineEvent::Aborted(xid));
        self.open_ones.remove(&xid);
    }
}

// One more is open, and there is room for its entry. Refused for memory, the same are open.
fn admit(
    open_ones: &mut BTreeSet<Xid>,
    entries: &mut Vec<Entry>,
    xid: Xid,
) -> Result<(), OutOfMemory>
    requires { set.contains nat_cmp open_ones.old xid ≡ false }
    ensures updates { OnOk result (set.Updates nat_cmp open_ones.old open_ones.new xid true) }
    ensures count { OnOk result (btree_set_len open_ones.new ≡ btree_set_len open_ones.old + 1) }
    ensures room { OnOk result (vec_len entries.new + (btree_set_len open_ones.old + 1) ≤ vec_capacity entries.new) }
    ensures err { OnErr result (open_ones.new ≡ open_ones.old) }
    ensures items { entries.new.items ≡ entries.old.items }
    ensures len { vec_len entries.new ≡ vec_len entries.old }
    ensures capacity { vec_capacity entries.old ≤ vec_capacity entries.new }
{
    entries.reserve(open_ones.len() + 1)?;
    if open_ones.insert(xid).is_err() {
        return Err(OutOfMemory);
    }
    Ok(())
}

// Appends a commit to the line, with the items that its transaction had done.
fn tell_commit(
    kept: &mut Kept<LineEvent>,
    token: &mut Token<LineEvent>,
    xid: Xid,
    events: &Told<Event>,
    info: CommitInfo,
)
    requires { token.old.name ≡ kept.old.name }
    ensures met { token.old ≡ kept.old }
    ensures kept { kept.new ≡ record kept.old { list = kept.old.list ++ WasCommitted xid (opened_by events.now).items info ∷ [] } }
    ensures token { token.new ≡ record token.old { list = token.old.list ++ WasCommitted xid (opened_by events.now).items info ∷ [] } }
{
    grow_commit::<Brand>(kept, token, xid, events, info);
}

fn grow_commit<N: Items<LineEvent>>(
    kept: &mut Kept<LineEvent>,
    token: &mut Token<LineEvent>,
    xid: Xid,
    events: &Told<Event>,
    info: CommitInfo,
)
    requires name { token.old.name ≡ kept.old.name }
    requires items { N.items ≡ WasCommitted xid (opened_by events.now).items info ∷ [] }
    ensures met { token.old ≡ kept.old }
    ensures kept { kept.new ≡ record kept.old { list = kept.old.list ++ WasCommitted xid (opened_by events.now).items info ∷ [] } }
    ensures token { token.new ≡ record token.old { list = token.old.list ++ WasCommitted xid (opened_by events.now).items info ∷ [] } }
{
    let _ = xid;
    let _ = events;
    let _ = info;
    grow_by::<LineEvent, N>(kept, token);
}
