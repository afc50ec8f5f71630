// What an open transaction has done and can take back.
ghost use Rattle.std.specs.Prelude.{◌≡◌, ◌≢◌, ℕ, [], ◌∷◌, ◌++◌, ◌<◌, ◌≤◌, length, map, slice_get, None, IfSome, IfNone, OnOk, OnErr, Contains, option_to_list};
ghost use Rattle.std.specs.FinMap.{get};
ghost use Rattle.std.specs.Option.{option_map};
ghost use Rattle.model.specs.declared.cell.Cell.{Cell};
ghost use Rattle.model.specs.Effect.{all_back};
ghost use Rattle.indexes.specs.Content.{KeepsCells};
ghost use Rattle.change.specs.Edits.{laid_together};
ghost use Rattle.change.specs.Inverse.{edits_of};
ghost use Rattle.change.specs.Laid.{IsLaidUnder};
ghost use Rattle.undo.specs.Undo.{content_undone, CanUndo, AreKnownAll, all_settled, AreSettled};
ghost use Rattle.undo.specs.Vacated.{AreVacated};
ghost use Rattle.model.specs.declared.item.Item.TheVariants.{Change as ChangeItem, Touch, BackTo};
ghost use Rattle.model.specs.Survivors.{before_savepoint, after_item};
ghost use Rattle.savepoint.specs.Adopted.{adopted, EndsAlone};
ghost use Rattle.savepoint.specs.Savepoints.{mark_at, before_mark};
ghost use Rattle.savepoint.specs.Record.{with_mark_unless_top, HasMark, OthersAreNamed, AllAreNamed, inverses_since, inverses_before};

use crate::mark::Mark;
use crate::savepoints::Savepoints;
use change::Inverse;
use indexes::Tables;
use model::{Change, Item, Key, OutOfMemory, Row, TableId, Xid};
use rows::RowView;
use std::alloc::Global;
use std::collections::BTreeMap;
use std::marker::Model;
use undo::UndoLog;

// Where a savepoint stands: how many items come before it, and its mark.
#[derive(Clone, Copy, Debug, PartialEq, Eq)]
struct CutPoint {
    items: usize,
    mark: Mark,
}

/// What an open transaction has done that no rollback has dropped: its items, the marks of its
/// subtransactions, and the inverses of its changes.
#[derive(Debug, Drop)]
pub struct TxRecord {
    top: Xid,
    survivors: Vec<Item>,
    savepoints: Savepoints<CutPoint>,
    undo: UndoLog,
}

impl Model for TxRecord {
    ghost use Rattle.savepoint.specs.Record.{Record};

    ghost Value = { Record };

    ghost use Rattle.savepoint.specs.RecordCode.{record_code};

    ghost coded = { record_code };

    ghost use Rattle.savepoint.specs.RecordInside.{record_in, IsMarked};

    ghost view = { record_in };

    ghost invariant = { λ r. IsMarked r.top r.survivors.items r.savepoints r.undo.inverses };
}

impl TxRecord {
    /// Nothing done yet. It takes no memory.
    pub fn new(alloc: Global, top: Xid) -> TxRecord
        ensures empty { result ≡ record { top = top; survivors = []; marks = []; log = record { inverses = []; room = 0 }; room = 0 } }
        ensures named { AllAreNamed result }
    {
        TxRecord {
            top,
            survivors: Vec::new(alloc),
            savepoints: Savepoints::new(alloc),
            undo: UndoLog::new(alloc),
        }
    }

    /// Sets a savepoint here for a subtransaction that has none, with how much is held. The top
    /// transaction needs none. A refusal changes nothing.
    pub fn note(&mut self, sub: Xid, held: usize) -> Result<(), OutOfMemory>
        ensures noted { OnOk result (HasMark self.new sub) }
        ensures named { AllAreNamed self.old → OthersAreNamed self.new sub }
        ensures ok { OnOk result (self.new ≡ record self.old { marks = with_mark_unless_top self.old.top sub (record { undo = length self.old.log.inverses; held = held }) self.old.marks }) }
        ensures err { OnErr result (self.new ≡ self.old) }
    {
        if sub == self.top {
            return Ok(());
        }
        let mark = Mark {
            undo: self.undo.mark(),
            held,
        };
        let items = self.survivors.len();
        self.savepoints.note(sub, CutPoint { items, mark })
    }

    /// The mark of a subtransaction's savepoint, if it has one.
    pub fn mark_of(&self, sub: Xid) -> Option<Mark>
        ensures mark { result ≡ mark_at sub self.now.marks }

        // There is as much to undo as it says, and the top transaction has none.
        ensures within { IfSome result (λ mark. mark.undo ≤ length self.now.log.inverses) }
        ensures top { mark_at self.now.top self.now.marks ≡ None }

        // A subtransaction that has none is named by no item.
        ensures unmarked { sub ≢ self.now.top → IfNone result (before_savepoint sub self.now.survivors ≡ self.now.survivors) }
    {
        let point = self.savepoints.mark_of(sub)?;
        Some(point.mark)
    }

    /// Drops a subtransaction's savepoint, all later ones and all later items: those survive that
    /// stand before its first item. Without such a savepoint nothing is dropped. What the dropped
    /// changes did is for `roll_back` to undo. It takes no memory.
    pub fn cut(&mut self, sub: Xid)
        ensures survivors { self.new.survivors ≡ after_item self.old.top self.old.survivors (BackTo sub) }
        ensures marks { self.new.marks ≡ before_mark sub self.old.marks }
        ensures named { OthersAreNamed self.old sub → AllAreNamed self.new }
        ensures log { self.new.log ≡ self.old.log }
        ensures top { self.new.top ≡ self.old.top }
        ensures room { self.old.room ≤ self.new.room }
    {
        if let Some(point) = self.savepoints.cut(sub) {
            self.survivors.truncate(point.items);
        }
    }

    /// Rolls a subtransaction back: undoes the changes from its savepoint on, the newest first, and
    /// drops the savepoint, all later ones and all later items. The answer is its mark, if it has
    /// one. It takes no memory.
    ///
    /// What the caller owes is that each inverse can be put back once those after it are.
    pub fn roll_back(&mut self, t: &mut Tables, sub: Xid) -> Option<Mark>
        requires { CanUndo t.old (inverses_since sub self.old) }
        ensures mark { result ≡ mark_at sub self.old.marks }
        ensures survivors { self.new.survivors ≡ after_item self.old.top self.old.survivors (BackTo sub) }
        ensures marks { self.new.marks ≡ before_mark sub self.old.marks }
        ensures named { OthersAreNamed self.old sub → AllAreNamed self.new }
        ensures inverses { self.new.log.inverses ≡ inverses_before sub self.old }
        ensures top { self.new.top ≡ self.old.top }
        ensures rows { t.new.rows ≡ all_back t.old.rows (map edits_of (inverses_since sub self.old)) }
        ensures schema { t.new.schema ≡ t.old.schema }
        ensures room { KeepsCells (content_undone t.old (inverses_since sub self.old)).room t.new.room }
    {
        let point = self.savepoints.cut(sub)?;
        self.survivors.truncate(point.items);
        self.undo.undo_to(t, point.mark.undo);
        Some(point.mark)
    }

    /// Makes room for one more item and its inverse. A refusal changes nothing but room.
    pub fn reserve(&mut self) -> Result<(), OutOfMemory>
        ensures same { self.new ≡ record self.old { log = record { inverses = self.old.log.inverses; room = self.new.log.room }; room = self.new.room } }
        ensures ok { OnOk result ((0 < self.new.room) × (0 < self.new.log.room)) }
    {
        self.survivors.reserve(1)?;
        self.undo.reserve()
    }

    /// Adds a change that was done, with its inverse, or one that was skipped and has none, into room
    /// that was made before. It takes no memory.
    ///
    /// Its subtransaction has a savepoint, and each other that has one was named by an item since.
    pub fn keep_change(&mut self, sub: Xid, change: Change, inverse: Option<Inverse>)
        requires room { (0 < self.old.room) × (0 < self.old.log.room) }
        requires noted { HasMark self.old sub }
        requires named { OthersAreNamed self.old sub }
        ensures survivors { self.new.survivors ≡ self.old.survivors ++ ChangeItem sub change ∷ [] }
        ensures inverses { self.new.log.inverses ≡ self.old.log.inverses ++ option_to_list inverse }
        ensures marks { self.new.marks ≡ self.old.marks }
        ensures named { AllAreNamed self.new }
        ensures top { self.new.top ≡ self.old.top }
    {
        self.survivors.push_reserved(Item::Change { sub, change });
        if let Some(inverse) = inverse {
            self.undo.push_reserved(inverse);
        }
    }

    /// Adds a relation or type message, into room that was made before. It takes no memory.
    ///
    /// Its subtransaction has a savepoint, and each other that has one was named by an item since.
    pub fn keep_touch(&mut self, sub: Xid)
        requires room { 0 < self.old.room }
        requires noted { HasMark self.old sub }
        requires named { OthersAreNamed self.old sub }
        ensures survivors { self.new.survivors ≡ self.old.survivors ++ Touch sub ∷ [] }
        ensures marks { self.new.marks ≡ self.old.marks }
        ensures named { AllAreNamed self.new }
        ensures log { self.new.log ≡ self.old.log }
        ensures top { self.new.top ≡ self.old.top }
    {
        self.survivors.push_reserved(Item::Touch(sub));
    }

    /// The last item, a change and the only one of its subtransaction, becomes one of another, which has a
    /// savepoint or is the top transaction. The savepoint that it set is dropped (PostgreSQL manual: RELEASE
    /// SAVEPOINT). It takes no memory.
    pub fn adopt(&mut self, own: Xid, sub: Xid)
        requires last { EndsAlone own self.old.survivors }
        requires below { own ≢ self.old.top }
        requires apart { own ≢ sub }
        requires noted { HasMark self.old sub }
        requires named { AllAreNamed self.old }
        ensures survivors { self.new.survivors ≡ adopted sub self.old.survivors }
        ensures marks { self.new.marks ≡ before_mark own self.old.marks }
        ensures named { AllAreNamed self.new }
        ensures log { self.new.log ≡ self.old.log }
        ensures top { self.new.top ≡ self.old.top }
    {
        let Some(Item::Change { sub: _, change }) = self.survivors.pop() else {
            unreachable!()
        };
        self.savepoints.cut(own);
        self.survivors.push_reserved(Item::Change { sub, change });
    }

    /// The items that no rollback has dropped, in order.
    pub fn survivors(&self) -> &[Item]
        ensures { result.now ≡ self.now.survivors }
    {
        self.survivors.as_slice()
    }

    /// The inverse of its changes with this number, the oldest being 0; none past the end.
    pub fn inverse_at(&self, number: usize) -> Option<&Inverse>
        ensures { option_map (λ inverse. inverse.now) result ≡ slice_get self.now.log.inverses number }
    {
        self.undo.get(number)
    }

    /// How many inverses its changes have.
    pub fn inverse_count(&self) -> usize
        ensures { result ≡ length self.now.log.inverses }
    {
        self.undo.mark()
    }

    /// What stood at a place before its changes, if one of them altered it: a row, or none. The oldest
    /// that did has the say. It takes no memory.
    pub fn edit_at(&self, table: TableId, key: &Key) -> Option<Option<RowView<'_>>>
        ensures { result ≡ get (laid_together (map edits_of self.now.log.inverses)) (table, key.now) }
    {
        self.undo.edit_at(table, key)
    }

    /// Adds to what is known of a table's rows, key by key, what stood there before its changes: at a key
    /// the oldest of them has the say, and nothing where something is known already. Refused for memory,
    /// a part is added.
    pub fn lay_under(
        &self,
        table: TableId,
        known: &mut BTreeMap<Key, Option<Row>>,
    ) -> Result<(), OutOfMemory>
        ensures { OnOk result (IsLaidUnder known.old table (laid_together (map edits_of self.now.log.inverses)) known.new) }
    {
        self.undo.lay_under(table, known)
    }

    /// Undoes all changes, the newest first. It is for an abort, and takes no memory.
    ///
    /// What the caller owes is that each inverse can be put back once those after it are.
    pub fn undo_all(self, t: &mut Tables)
        requires { CanUndo t.old self.log.inverses }
        ensures rows { t.new.rows ≡ all_back t.old.rows (map edits_of self.log.inverses) }
        ensures schema { t.new.schema ≡ t.old.schema }
        ensures room { KeepsCells (content_undone t.old self.log.inverses).room t.new.room }
    {
        let mut undo = self.undo;
        undo.undo_to(t, 0);
    }

    /// The same, and gives up what that would leave: the empty slot of each row that goes, and the entries
    /// of its unique values that no row has any more. It is for an abort where no other has open work. It
    /// takes no memory.
    pub fn undo_and_settle(self, t: &mut Tables)
        requires { CanUndo t.old self.log.inverses }
        ensures rows { t.new.rows ≡ all_back t.old.rows (map edits_of self.log.inverses) }
        ensures schema { t.new.schema ≡ t.old.schema }
        ensures vacated { AreVacated t.old.schema t.old.rows t.new.rows t.new.room self.log.inverses }
    {
        self.undo.undo_and_settle(t);
    }

    /// Gives up the room by which its changes could be taken back, and hands out the items and the log,
    /// which can be read, but not put back into tables any more. It is for a commit. No row changes, and
    /// it takes no memory.
    pub fn settle(self, t: &mut Tables) -> (Vec<Item>, UndoLog)
        requires { AreKnownAll t.old.schema self.log.inverses }
        ensures items { result.0.items ≡ self.survivors }
        ensures inverses { result.1.inverses ≡ self.log.inverses }
        ensures rows { t.new.rows ≡ t.old.rows }
        ensures schema { t.new.schema ≡ t.old.schema }
        ensures gone { AreSettled t.old.schema t.old.rows t.new.room self.log.inverses }
        ensures fewer { KeepsCells t.new.room t.old.room }
        ensures others { (c : Cell) → ¬ Contains (all_settled t.old.schema self.log.inverses) c → Contains t.old.room c → Contains t.new.room c }
    {
        let TxRecord {
            survivors,
            undo,
            ..
        } = self;
        undo.settle(t);
        (survivors, undo)
    }
}
