// The log of a transaction's inverses.
ghost use Rattle.std.specs.Prelude.{◌≡◌, ◌+◌, ◌-◌, ◌<◌, ◌≤◌, [], ◌∷◌, ◌++◌, length, take, drop, map, slice_get, OnOk, OnErr, IfErr, vec_len, vec_capacity, Contains};
ghost use Rattle.std.specs.FinMap.{get};
ghost use Rattle.std.specs.Option.{option_map};
ghost use Rattle.model.specs.declared.cell.Cell.{Cell};
ghost use Rattle.model.specs.Effect.{effect, all_back};
ghost use Rattle.model.specs.Named.{NamesTables};
ghost use Rattle.model.specs.Accepted.{HasNoClash};
ghost use Rattle.indexes.specs.Content.{KeepsCells};
ghost use Rattle.change.specs.Edits.{laid_together};
ghost use Rattle.change.specs.Inverse.{edits_of, IsKnown};
ghost use Rattle.change.specs.Laid.{IsLaidUnder};
ghost use Rattle.change.specs.Refusal.{ClashesAs};
ghost use Rattle.undo.specs.Undo.{content_undone, CanUndo, AreKnownAll, cells_settled, all_settled, IsSettled, AreSettled};
ghost use Rattle.undo.specs.Turned.{AreTurned};
ghost use Rattle.undo.specs.Vacated.{AreVacated};

use change::{Applied, Clash, Inverse, apply, put_back, turn_back};
use indexes::Tables;
use model::{Change, Key, OutOfMemory, Row, TableId};
use rows::RowView;
use std::alloc::Global;
use std::collections::BTreeMap;
use std::marker::Model;

/// What takes back a transaction's changes, oldest first. A clause sees the list of them, and how
/// many more there is room for.
#[derive(Debug, Drop)]
pub struct UndoLog {
    inverses: Vec<Inverse>,
}

impl Model for UndoLog {
    ghost use Rattle.std.specs.Prelude.{◌-◌, vec_len, vec_capacity};
    ghost use Rattle.undo.specs.Undo.{Log};

    ghost Value = { Log };

    ghost use Rattle.undo.specs.LogCode.{log_code};

    ghost coded = { log_code };

    ghost view = { λ l. record { inverses = l.inverses.items; room = vec_capacity l.inverses - vec_len l.inverses } };
}

impl UndoLog {
    /// An empty log. It takes no memory.
    pub fn new(alloc: Global) -> UndoLog
        ensures { result ≡ record { inverses = []; room = 0 } }
    {
        UndoLog {
            inverses: Vec::new(alloc),
        }
    }

    /// Makes room for one more inverse. A refusal changes nothing.
    pub fn reserve(&mut self) -> Result<(), OutOfMemory>
        ensures inverses { self.new.inverses ≡ self.old.inverses }
        ensures ok { OnOk result (0 < self.new.room) }
        ensures room { self.old.room ≤ self.new.room }
    {
        self.inverses.reserve(1)?;
        Ok(())
    }

    /// Adds the inverse of a change that was applied, into room that was made before. It takes no
    /// memory.
    pub fn push_reserved(&mut self, inverse: Inverse)
        requires { 0 < self.old.room }
        ensures inverses { self.new.inverses ≡ self.old.inverses ++ inverse ∷ [] }
        ensures room { self.new.room + 1 ≡ self.old.room }
    {
        self.inverses.push_reserved(inverse);
    }

    /// Applies a change, and logs what takes it back. A refusal changes no row, and logs nothing.
    pub fn apply(&mut self, alloc: Global, t: &mut Tables, change: &Change) -> Result<(), Clash>
        requires tables { NamesTables (length t.old.schema) change.now }
        requires can { CanUndo t.old self.old.inverses }
        ensures passes { OnOk result (HasNoClash t.old.schema t.old.rows change.now) }
        ensures ok { OnOk result (t.new.rows ≡ effect t.old.schema t.old.rows change.now) }
        ensures refused { IfErr result (ClashesAs t.old.schema t.old.rows change.now) }
        ensures err { OnErr result (t.new.rows ≡ t.old.rows) }
        ensures kept { OnErr result (self.new.inverses ≡ self.old.inverses) }
        ensures base { all_back t.new.rows (map edits_of self.new.inverses) ≡ all_back t.old.rows (map edits_of self.old.inverses) }
        ensures schema { t.new.schema ≡ t.old.schema }
        ensures can { CanUndo t.new self.new.inverses }
    {
        self.reserve()?;
        match apply(alloc, t, change) {
            Ok(Applied::Done(inverse)) => {
                self.push_reserved(inverse);
                Ok(())
            }
            Ok(Applied::Skipped) => Ok(()),
            Err(clash) => Err(clash),
        }
    }

    /// How many inverses there are: where `undo_to` can come back to.
    pub fn mark(&self) -> usize
        ensures { result ≡ length self.now.inverses }
    {
        self.inverses.len()
    }

    /// The inverse with this number, the oldest being 0; none past the end.
    pub fn get(&self, number: usize) -> Option<&Inverse>
        ensures { option_map (λ inverse. inverse.now) result ≡ slice_get self.now.inverses number }
    {
        self.inverses.get(number)
    }

    /// What stood at a place before all of the changes, if one of them altered it: a row, or none. The
    /// oldest that did has the say. It takes no memory.
    pub fn edit_at(&self, table: TableId, key: &Key) -> Option<Option<RowView<'_>>>
        ensures { result ≡ get (laid_together (map edits_of self.now.inverses)) (table, key.now) }
    {
        first_edit(self.inverses.as_slice(), table, key)
    }

    /// Takes back the changes since a mark, the newest first. It takes no memory.
    ///
    /// The tables need not be as the last of them left them: others may have changed them at other
    /// places. What the caller owes is that each inverse can be put back once those after it are.
    pub fn undo_to(&mut self, t: &mut Tables, mark: usize)
        requires mark { mark ≤ length self.old.inverses }
        requires can { CanUndo t.old (drop mark self.old.inverses) }
        ensures rows { t.new.rows ≡ all_back t.old.rows (map edits_of (drop mark self.old.inverses)) }
        ensures left { self.new.inverses ≡ take mark self.old.inverses }
        ensures room { KeepsCells (content_undone t.old (drop mark self.old.inverses)).room t.new.room }
        ensures schema { t.new.schema ≡ t.old.schema }
        ensures log_room { self.new.room + mark ≡ self.old.room + length self.old.inverses }
    {
        undo_last(&mut self.inverses, t, mark);
    }

    /// Takes back all changes, the newest first, and gives up what they would leave: the empty slot of
    /// each row that goes, and the entries of its unique values that no row has any more. It is for an
    /// abort where no other has open work. It takes no memory.
    pub fn undo_and_settle(self, t: &mut Tables)
        requires { CanUndo t.old self.inverses }
        ensures rows { t.new.rows ≡ all_back t.old.rows (map edits_of self.inverses) }
        ensures schema { t.new.schema ≡ t.old.schema }
        ensures vacated { AreVacated t.old.schema t.old.rows t.new.rows t.new.room self.inverses }
    {
        let mut inverses = self.inverses;
        turn_all_back(&mut inverses, t);
        settle_all(inverses.as_slice(), t);
    }

    /// Adds to what is known of a table's rows, key by key, what stood there before all of the changes: at
    /// a key the oldest of them has the say, and none where something is known already. Refused for
    /// memory, a part is added.
    pub fn lay_under(
        &self,
        table: TableId,
        known: &mut BTreeMap<Key, Option<Row>>,
    ) -> Result<(), OutOfMemory>
        ensures { OnOk result (IsLaidUnder known.old table (laid_together (map edits_of self.now.inverses)) known.new) }
    {
        lay_all(self.inverses.as_slice(), table, known)
    }

    /// Drops the inverses, and the room for more. It takes no memory.
    pub fn forget(&mut self)
        ensures { self.new ≡ record { inverses = []; room = 0 } }
    {
        self.inverses = Vec::new(*self.inverses.allocator());
    }

    /// Gives up what the changes can be taken back with: the empty slots of their keys, and the
    /// entries of unique values that no row has any more. It is for a commit. No row changes, and it
    /// takes no memory.
    pub fn settle(&self, t: &mut Tables)
        requires { AreKnownAll t.old.schema self.now.inverses }
        ensures rows { t.new.rows ≡ t.old.rows }
        ensures schema { t.new.schema ≡ t.old.schema }
        ensures gone { AreSettled t.old.schema t.old.rows t.new.room self.now.inverses }
        ensures fewer { KeepsCells t.new.room t.old.room }
        ensures others { (c : Cell) → ¬ Contains (all_settled t.old.schema self.now.inverses) c → Contains t.old.room c → Contains t.new.room c }
    {
        settle_all(self.inverses.as_slice(), t);
    }
}

fn undo_last(inverses: &mut Vec<Inverse>, t: &mut Tables, mark: usize)
    requires mark { mark ≤ vec_len inverses.old }
    requires can { CanUndo t.old (drop mark inverses.old.items) }
    ensures rows { t.new.rows ≡ all_back t.old.rows (map edits_of (drop mark inverses.old.items)) }
    ensures left { inverses.new.items ≡ take mark inverses.old.items }
    ensures room { KeepsCells (content_undone t.old (drop mark inverses.old.items)).room t.new.room }
    ensures schema { t.new.schema ≡ t.old.schema }
    ensures len { vec_len inverses.new ≡ mark }
    ensures capacity { vec_capacity inverses.new ≡ vec_capacity inverses.old }
{
    while inverses.len() > mark {
        let inverse = inverses.pop().unwrap();
        put_back(t, inverse);
    }
}

// Takes all back, the last of them first, and leaves in the place of each what settles the row that went.
fn turn_all_back(inverses: &mut Vec<Inverse>, t: &mut Tables)
    requires { CanUndo t.old inverses.old.items }
    ensures rows { t.new.rows ≡ all_back t.old.rows (map edits_of inverses.old.items) }
    ensures schema { t.new.schema ≡ t.old.schema }
    ensures known { AreKnownAll t.old.schema inverses.new.items }
    ensures turned { AreTurned t.old.rows inverses.old.items inverses.new.items }
{
    let alloc = *inverses.allocator();
    let mut left = inverses.len();
    while left > 0 {
        left -= 1;
        turn_back(alloc, t, &mut inverses[left]);
    }
}

// What the first of these that edits a place puts back there.
fn first_edit<'a>(inverses: &'a [Inverse], table: TableId, key: &Key) -> Option<Option<RowView<'a>>>
    ensures { result ≡ get (laid_together (map edits_of inverses.now)) (table, key.now) }
{
    for inverse in inverses {
        if let Some(edit) = inverse.edit_at(table, key) {
            return Some(edit);
        }
    }
    None
}

fn lay_all(
    inverses: &[Inverse],
    table: TableId,
    known: &mut BTreeMap<Key, Option<Row>>,
) -> Result<(), OutOfMemory>
    ensures { OnOk result (IsLaidUnder known.old table (laid_together (map edits_of inverses.now)) known.new) }
{
    for inverse in inverses {
        inverse.lay_under(table, known)?;
    }
    Ok(())
}

fn settle_all(inverses: &[Inverse], t: &mut Tables)
    requires { AreKnownAll t.old.schema inverses.now }
    ensures rows { t.new.rows ≡ t.old.rows }
    ensures schema { t.new.schema ≡ t.old.schema }
    ensures gone { AreSettled t.old.schema t.old.rows t.new.room inverses.now }
    ensures fewer { KeepsCells t.new.room t.old.room }
    ensures others { (c : Cell) → ¬ Contains (all_settled t.old.schema inverses.now) c → Contains t.old.room c → Contains t.new.room c }
{
    for inverse in inverses {
        settle_one(inverse, t);
    }
}

/// The slots that a row left behind when it went.
fn settle_one(inverse: &Inverse, t: &mut Tables)
    requires { IsKnown t.old.schema inverse.now }
    ensures rows { t.new.rows ≡ t.old.rows }
    ensures schema { t.new.schema ≡ t.old.schema }
    ensures gone { IsSettled t.old.schema t.old.rows t.new.room inverse.now }
    ensures fewer { KeepsCells t.new.room t.old.room }
    ensures others { (c : Cell) → ¬ Contains (cells_settled t.old.schema inverse.now) c → Contains t.old.room c → Contains t.new.room c }
{
    match inverse {
        Inverse::Take { .. } | Inverse::Unwipe { .. } => {}
        Inverse::Put { table, key, row } => t.settle(*table, key, row),
        Inverse::Replace { table, key, row } => t.settle(*table, key, row),
        Inverse::Move { table, keys, row } => t.settle(*table, &keys.key, row),
    }
}
