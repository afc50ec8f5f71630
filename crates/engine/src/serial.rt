// A store whose transactions come one at a time.
ghost use Rattle.std.specs.Prelude.{◌≡◌, ◌<◌, [], ◌∷◌, ◌++◌, OnOk, OnErr, IfOk, IfErr, All, length, map};
ghost use Rattle.model.specs.declared.item.Item.TheVariants.{Change as ChangeItem};
ghost use Rattle.model.specs.Named.{NamesTables};
ghost use Rattle.model.specs.Survivors.{changes_of};
ghost use Rattle.model.specs.Accepted.{HasNoClash, AreAccepted};
ghost use Rattle.model.specs.Beginning.{last_end};
ghost use Rattle.change.specs.Refusal.{ClashesAs};
ghost use Rattle.world.specs.World.{starting, ends_of};
ghost use Rattle.world.specs.Steps.{Closes, Reaches};
ghost use Rattle.engine.specs.declared.events.LineEvent.TheVariants.{Opened as WasOpened, Committed as WasCommitted};
ghost use Rattle.engine.specs.FirstClash.{ClashesIn};
ghost use Rattle.engine.specs.Engine.{entry_in, IsOtherwiseSame};
ghost use Rattle.engine.specs.Serial.{rows_now, with_changes, HasBegun, committed_by};
ghost use Rattle.live_tables.specs.Journal.{rows_after};

use crate::entry::{Changes, Entry};
use crate::events::{Event, LineEvent};
use crate::open_work::OpenWork;
use crate::shut::forget_each;
use crate::store::{new_tokens, record_start};
use change::Clash;
use indexes::Tables;
use live_tables::Live;
use model::{Change, CommitInfo, Item, OutOfMemory, Xid};
use std::alloc::Global;
use std::marker::{Brand, Model};
use tokens::{Book, Items, Kept, Token, grow, grow_by, pair};

/// A store whose transactions come one at a time, by one hand that has the store and its line: so no
/// transaction needs a ticket, and none holds a cell. Where no work is open it is a `Store` in which no
/// transaction is.
///
/// A clause sees the store without the open work, and the changes that are open. A commit is what the
/// calls of a `Store` come to: one transaction opens, makes these changes and is committed.
#[derive(Debug, Drop)]
pub struct SerialStore {
    work: OpenWork,
    /// One list of the tables at the start, which proofs alone know.
    start: Kept<Tables>,
    journal: Vec<Entry>,
    book: Book<Event>,
    line: Kept<LineEvent>,
    token: Token<LineEvent>,
}

impl Model for SerialStore {
    ghost use Rattle.engine.specs.Serial.{Serial, serial_code};

    ghost Value = { Serial };

    ghost coded = { serial_code };

    ghost use Rattle.engine.specs.SerialInside.{serial_in, Represents};

    ghost view = { serial_in };

    ghost invariant = { Represents };
}

impl SerialStore {
    /// A store over these tables, with no work open. Refused for memory, the tables are handed back.
    pub fn new(alloc: Global, start: Tables) -> Result<SerialStore, Tables>
        ensures world { IfOk result (λ made. made.store.world ≡ starting start.rows) }
        ensures schema { IfOk result (λ made. made.store.schema ≡ start.schema) }
        ensures line { IfOk result (λ made. made.store.line.list ≡ []) }
        ensures none { IfOk result (λ made. made.changes ≡ []) }
        ensures err { IfErr result (λ tables. tables ≡ start) }
    {
        let Ok(told) = record_start(alloc, &start) else {
            return Err(start);
        };
        let Ok((book, line, token)) = new_tokens(alloc) else {
            return Err(start);
        };
        Ok(SerialStore {
            work: OpenWork::new(alloc, Live::new(alloc, start)),
            start: told,
            journal: Vec::new(alloc),
            book,
            line,
            token,
        })
    }

    // Applies a change of a subtransaction as open work. A refusal leaves all as it was.
    fn act(&mut self, alloc: Global, sub: Xid, change: Change) -> Result<(), Clash>
        requires { NamesTables (length self.old.store.schema) change }
        ensures passes { OnOk result (HasNoClash self.old.store.schema (rows_now self.old) change) }
        ensures ok { OnOk result (self.new ≡ with_changes self.old (change ∷ [])) }
        ensures refused { IfErr result (ClashesAs self.old.store.schema (rows_now self.old) change) }
        ensures err { OnErr result (self.new ≡ self.old) }
    {
        self.work.act(alloc, sub, change)?;
        Ok(())
    }

    /// Applies an item's change, if it has one, as open work. A refusal leaves all as it was.
    pub fn take(&mut self, alloc: Global, item: Item) -> Result<(), Clash>
        requires { All (NamesTables (length self.old.store.schema)) (changes_of (item ∷ [])) }
        ensures clear { OnOk result (AreAccepted self.old.store.schema (rows_now self.old) (changes_of (item ∷ []))) }
        ensures ok { OnOk result (self.new ≡ with_changes self.old (changes_of (item ∷ []))) }
        ensures refused { IfErr result (ClashesIn self.old.store.schema (rows_now self.old) (changes_of (item ∷ []))) }
        ensures err { OnErr result (self.new ≡ self.old) }
    {
        match item {
            Item::Change { sub, change } => self.act(alloc, sub, change),
            Item::Touch(_) | Item::BackTo(_) | Item::Last => Ok(()),
        }
    }

    /// Applies the changes of items in turn, as open work. A refusal leaves a beginning of them as open
    /// work.
    pub fn take_all(&mut self, alloc: Global, items: Vec<Item>) -> Result<(), Clash>
        requires { All (NamesTables (length self.old.store.schema)) (changes_of items.items) }
        ensures clear { OnOk result (AreAccepted self.old.store.schema (rows_now self.old) (changes_of items.items)) }
        ensures ok { OnOk result (self.new ≡ with_changes self.old (changes_of items.items)) }
        ensures refused { IfErr result (ClashesIn self.old.store.schema (rows_now self.old) (changes_of items.items)) }
        ensures err { OnErr result (HasBegun self.old (changes_of items.items) self.new) }
        ensures store { self.new.store ≡ self.old.store }
    {
        if self.work.is_empty() {
            return self.take_list(alloc, items);
        }
        for item in items {
            self.take(alloc, item)?;
        }
        Ok(())
    }

    // The same where no work is open: the list becomes the open work's own. A refusal leaves none open.
    fn take_list(&mut self, alloc: Global, items: Vec<Item>) -> Result<(), Clash>
        requires named { All (NamesTables (length self.old.store.schema)) (changes_of items.items) }
        requires none { self.old.changes ≡ [] }
        ensures clear { OnOk result (AreAccepted self.old.store.schema (rows_now self.old) (changes_of items.items)) }
        ensures ok { OnOk result (self.new ≡ with_changes self.old (changes_of items.items)) }
        ensures refused { IfErr result (ClashesIn self.old.store.schema (rows_now self.old) (changes_of items.items)) }
        ensures err { OnErr result (self.new ≡ self.old) }
    {
        self.work.take_list(alloc, items)?;
        Ok(())
    }

    /// The open work is committed as a transaction of this number: its changes are an entry of the
    /// journal. The log goes on behind it above where it went on behind the commit before. A refusal
    /// leaves all as it was.
    pub fn commit(&mut self, alloc: Global, xid: Xid, info: CommitInfo) -> Result<(), OutOfMemory>
        requires { last_end (ends_of self.old.store.world) < info.end }
        ensures commits { OnOk result (self.new.store.world ≡ committed_by self.old.store.schema self.old.store.world xid self.old.changes info) }
        ensures reached { OnOk result (Reaches self.old.store.schema self.old.store.world self.new.store.world) }
        ensures none { OnOk result (self.new.changes ≡ []) }
        ensures line { OnOk result (self.new.store.line.list ≡ (self.old.store.line.list ++ WasOpened xid ∷ []) ++ WasCommitted xid (map (ChangeItem xid) self.old.changes) info ∷ []) }
        ensures same { IsOtherwiseSame self.old.store self.new.store }
        ensures err { OnErr result (self.new ≡ self.old) }
    {
        self.journal.reserve(1)?;
        let (items, inverses) = self.work.commit(alloc);
        grow(&mut self.line, &mut self.token, &LineEvent::Opened(xid));
        record_changes(&mut self.line, &mut self.token, xid, &items, info);
        self.journal.push_reserved(Entry {
            xid,
            changes: Changes::of_items(items),
            commit: info.commit,
            end: info.end,
            inverses,
        });
        Ok(())
    }

    /// The tables and the journal, without the open work. It takes no memory.
    pub fn shut(self) -> (Tables, Vec<Entry>)
        ensures closes { Closes self.store.world result.0.rows (map entry_in result.1.items) }
        ensures serial { result.0.rows ≡ rows_after self.store.schema self.store.world.start (map entry_in result.1.items) }
        ensures schema { result.0.schema ≡ self.store.schema }
    {
        let SerialStore {
            work,
            start: _,
            mut journal,
            book: _,
            line: _,
            token: _,
        } = self;
        forget_each(&mut journal);
        (work.take_back(), journal)
    }
}

// Appends a commit to the line, of a transaction that has made the changes among items and nothing else.
fn record_changes(
    kept: &mut Kept<LineEvent>,
    token: &mut Token<LineEvent>,
    xid: Xid,
    items: &[Item],
    info: CommitInfo,
)
    requires { token.old.name ≡ kept.old.name }
    ensures kept { kept.new ≡ record kept.old { list = kept.old.list ++ WasCommitted xid (map (ChangeItem xid) (changes_of items.now)) info ∷ [] } }
    ensures token { token.new ≡ record token.old { list = token.old.list ++ WasCommitted xid (map (ChangeItem xid) (changes_of items.now)) info ∷ [] } }
{
    grow_changes::<Brand>(kept, token, xid, items, info);
}

fn grow_changes<N: Items<LineEvent>>(
    kept: &mut Kept<LineEvent>,
    token: &mut Token<LineEvent>,
    xid: Xid,
    items: &[Item],
    info: CommitInfo,
)
    requires name { token.old.name ≡ kept.old.name }
    requires items { N.items ≡ WasCommitted xid (map (ChangeItem xid) (changes_of items.now)) info ∷ [] }
    ensures kept { kept.new ≡ record kept.old { list = kept.old.list ++ WasCommitted xid (map (ChangeItem xid) (changes_of items.now)) info ∷ [] } }
    ensures token { token.new ≡ record token.old { list = token.old.list ++ WasCommitted xid (map (ChangeItem xid) (changes_of items.now)) info ∷ [] } }
{
    let _ = xid;
    let _ = items;
    let _ = info;
    grow_by::<LineEvent, N>(kept, token);
}
