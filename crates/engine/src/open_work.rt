// The open work of a store whose transactions come one at a time.
ghost use Rattle.std.specs.Prelude.{◌≡◌, [], ◌∷◌, OnOk, OnErr, IfErr, All, length, map};
ghost use Rattle.std.specs.Bool.{OnTrue};
ghost use Rattle.model.specs.Effect.{all_back, serial};
ghost use Rattle.model.specs.Named.{NamesTables};
ghost use Rattle.model.specs.Survivors.{changes_of};
ghost use Rattle.model.specs.Accepted.{AreAccepted};
ghost use Rattle.change.specs.Inverse.{edits_of};
ghost use Rattle.change.specs.Refusal.{ClashesAs};
ghost use Rattle.indexes.specs.Content.{KeepsCells};
ghost use Rattle.undo.specs.Undo.{CanUndo, AreSettled};
ghost use Rattle.engine.specs.FirstClash.{ClashesIn};
ghost use Rattle.engine.specs.OpenWork.{base_of, HasGrown};

use change::Clash;
use indexes::Tables;
use live_tables::Live;
use model::{Change, Item, OutOfMemory, Xid};
use std::alloc::Global;
use std::marker::Model;
use std::mem;
use undo::UndoLog;

// The tables with the open work in them, what takes it back, and its items. Nobody else reaches the
// tables or the log: so the log leaves by a commit alone, which settles the tables.
#[derive(Debug, Drop)]
pub(crate) struct OpenWork {
    live: Live,
    undo: UndoLog,
    items: Vec<Item>,
}

impl Model for OpenWork {
    ghost use Rattle.model.specs.Survivors.{changes_of};
    ghost use Rattle.undo.specs.Undo.{CanUndo};
    ghost use Rattle.engine.specs.OpenWork.{Work, work_code};

    ghost Value = { Work };

    ghost coded = { work_code };

    ghost view = { λ w. record { live = w.live; undo = w.undo; changes = changes_of w.items.items } };

    ghost invariant = { λ w. CanUndo w.live.tables w.undo.inverses };
}

impl OpenWork {
    // No work is open in these tables.
    pub(crate) fn new(alloc: Global, live: Live) -> OpenWork
        ensures live { result.live ≡ live }
        ensures undone { result.undo.inverses ≡ [] }
        ensures none { result.changes ≡ [] }
    {
        OpenWork {
            live,
            undo: UndoLog::new(alloc),
            items: Vec::new(alloc),
        }
    }

    pub(crate) fn is_empty(&self) -> bool
        ensures { OnTrue result (self.now.changes ≡ []) }
    {
        self.items.is_empty()
    }

    // Applies a change of a subtransaction. A refusal leaves the work as it was.
    pub(crate) fn act(&mut self, alloc: Global, sub: Xid, change: Change) -> Result<(), Clash>
        requires { NamesTables (length self.old.live.tables.schema) change }
        ensures ok { OnOk result (HasGrown self.old (change ∷ []) self.new) }
        ensures refused { IfErr result
            (ClashesAs self.old.live.tables.schema self.old.live.tables.rows change) }
        ensures err { OnErr result (HasGrown self.old [] self.new) }
    {
        self.items.reserve(1)?;
        self.undo.apply(alloc, &mut self.live.tables, &change)?;
        self.items.push_reserved(Item::Change { sub, change });
        Ok(())
    }

    // Applies the changes of items in turn, where no work is open: the list becomes the work's own.
    // A refusal leaves none open.
    pub(crate) fn take_list(&mut self, alloc: Global, items: Vec<Item>) -> Result<(), Clash>
        requires named { All (NamesTables (length self.old.live.tables.schema))
            (changes_of items.items) }
        requires none { self.old.changes ≡ [] }
        requires idle { self.old.live.tables.rows ≡ base_of self.old }
        ensures ok { OnOk result (HasGrown self.old (changes_of items.items) self.new) }
        ensures refused { IfErr result
            (ClashesIn self.old.live.tables.schema self.old.live.tables.rows
            (changes_of items.items)) }
        ensures err { OnErr result (HasGrown self.old [] self.new) }
    {
        make_room(alloc, &mut self.live.tables, &items);
        if let Err(clash) = apply_each(alloc, &mut self.live.tables, &mut self.undo, &items) {
            self.undo.undo_to(&mut self.live.tables, 0);
            return Err(clash);
        }
        self.items = items;
        Ok(())
    }

    // The work is committed: its items and its log go out. From the tables go the slots and entries
    // by which it could be undone, where nothing fills them. It takes no memory.
    #[tactic(auto, using(crate::proofs::SerialSteps::known_all))]
    pub(crate) fn commit(&mut self, alloc: Global) -> (Vec<Item>, UndoLog)
        ensures settled { AreSettled self.old.live.tables.schema self.new.live.tables.rows
            self.new.live.tables.room self.old.undo.inverses }
        ensures rows { self.new.live.tables.rows ≡ self.old.live.tables.rows }
        ensures schema { self.new.live.tables.schema ≡ self.old.live.tables.schema }
        ensures live { self.new.live ≡ record self.old.live { tables = self.new.live.tables } }
        ensures items { changes_of result.0.items ≡ self.old.changes }
        ensures log { result.1 ≡ self.old.undo }
        ensures undone { self.new.undo.inverses ≡ [] }
        ensures none { self.new.changes ≡ [] }
    {
        self.undo.settle(&mut self.live.tables);
        let items = mem::replace(&mut self.items, Vec::new(alloc));
        let undo = mem::replace(&mut self.undo, UndoLog::new(alloc));
        (items, undo)
    }

    // The tables, with the work taken back. It takes no memory.
    pub(crate) fn take_back(self) -> Tables
        ensures rows { result.rows ≡ base_of self }
        ensures schema { result.schema ≡ self.live.tables.schema }
    {
        let OpenWork {
            live,
            mut undo,
            items: _,
        } = self;
        let Live { mut tables, .. } = live;
        undo.undo_to(&mut tables, 0);
        tables
    }
}

// Room in each table for the rows that items put into it, so that the tables grow once and not
// again and again. Where memory for it is refused, they grow as the rows come.
fn make_room(alloc: Global, tables: &mut Tables, items: &[Item])
    ensures schema { tables.new.schema ≡ tables.old.schema }
    ensures rows { tables.new.rows ≡ tables.old.rows }
    ensures room { KeepsCells tables.old.room tables.new.room }
{
    let Ok(counts) = count_rows(alloc, tables.len(), items) else {
        return;
    };
    for table in 0..tables.len() {
        let count = counts.get(table).copied().unwrap_or(0);
        if tables.make_room(table, count).is_err() {
            return;
        }
    }
}

// How many rows items put into each of so many tables.
fn count_rows(alloc: Global, tables: usize, items: &[Item]) -> Result<Vec<usize>, OutOfMemory> {
    let mut counts = vec![in alloc; 0; tables]?;
    for item in items {
        if let Item::Change {
            change: Change::Put { table, .. },
            ..
        } = item
        {
            if let Some(count) = counts.get_mut(*table) {
                *count = usize::saturating_add(*count, 1);
            }
        }
    }
    Ok(counts)
}

// Applies the changes of items in turn, and logs what takes each back. A refusal leaves those
// before the refused one.
fn apply_each(
    alloc: Global,
    tables: &mut Tables,
    undo: &mut UndoLog,
    items: &[Item],
) -> Result<(), Clash>
    requires tables { All (NamesTables (length tables.old.schema)) (changes_of items.now) }
    requires can_undo { CanUndo tables.old undo.old.inverses }
    ensures clear { OnOk result
        (AreAccepted tables.old.schema tables.old.rows (changes_of items.now)) }
    ensures ok { OnOk result
        (tables.new.rows ≡ serial tables.old.schema tables.old.rows (changes_of items.now)) }
    ensures refused { IfErr result
        (ClashesIn tables.old.schema tables.old.rows (changes_of items.now)) }
    ensures base { all_back tables.new.rows (map edits_of undo.new.inverses)
        ≡ all_back tables.old.rows (map edits_of undo.old.inverses) }
    ensures schema { tables.new.schema ≡ tables.old.schema }
    ensures can_undo { CanUndo tables.new undo.new.inverses }
{
    for item in items {
        apply_item(alloc, tables, undo, item)?;
    }
    Ok(())
}

// Applies an item's change, if it has one, and logs what takes it back. A refusal changes no row.
fn apply_item(
    alloc: Global,
    tables: &mut Tables,
    undo: &mut UndoLog,
    item: &Item,
) -> Result<(), Clash>
    requires tables { All (NamesTables (length tables.old.schema)) (changes_of (item.now ∷ [])) }
    requires can_undo { CanUndo tables.old undo.old.inverses }
    ensures clear { OnOk result
        (AreAccepted tables.old.schema tables.old.rows (changes_of (item.now ∷ []))) }
    ensures ok { OnOk result
        (tables.new.rows ≡ serial tables.old.schema tables.old.rows (changes_of (item.now ∷ []))) }
    ensures refused { IfErr result
        (ClashesIn tables.old.schema tables.old.rows (changes_of (item.now ∷ []))) }
    ensures base { all_back tables.new.rows (map edits_of undo.new.inverses)
        ≡ all_back tables.old.rows (map edits_of undo.old.inverses) }
    ensures schema { tables.new.schema ≡ tables.old.schema }
    ensures can_undo { CanUndo tables.new undo.new.inverses }
{
    match item {
        Item::Change { change, .. } => undo.apply(alloc, tables, change),
        Item::Touch(_) | Item::BackTo(_) | Item::Last => Ok(()),
    }
}
