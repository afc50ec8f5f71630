// What takes a change back.
ghost use Rattle.std.specs.Prelude.{◌≡◌, ◌++◌, [], ◌∷◌, Some, None, if◌then◌else◌, length, map};
ghost use Rattle.std.specs.FinMap.{get, insert, remove};
ghost use Rattle.model.specs.Effect.{back, all_back};
ghost use Rattle.indexes.specs.Content.{KeepsCells};
ghost use Rattle.model.specs.Rows.{Schema, is_place};
ghost use Rattle.change.specs.KeptRow.{row_kept, first_emptied, came_to};
ghost use Rattle.change.specs.Inverse.{row_by_inverse, edits_of, room_back, IsKnown, CanPutBack, CanUnwipe, rows_held, room_unwiped};
ghost use Rattle.change.specs.Turned.{IsTurned};

use indexes::{Contents, Tables};
use model::{Key, Row, TableId};
use rows::RowView;
use std::alloc::Global;
use std::mem;

/// What takes a change back: what stood where it altered the tables.
#[derive(Debug, Drop)]
pub enum Inverse {
    /// A row was put at this key.
    Take {
        table: TableId,
        key: Key,
    },
    /// This row was removed from its key.
    Put {
        table: TableId,
        key: Key,
        row: Row,
    },
    /// Another row came in place of this one, at the same key.
    Replace {
        table: TableId,
        key: Key,
        row: Row,
    },
    /// This row was changed and has another key since then.
    Move {
        table: TableId,
        keys: Box<MovedKeys>,
        row: Row,
    },
    /// These tables were emptied, one after another.
    Unwipe {
        wiped: Vec<Wiped>,
    },
}

/// The keys of a row that moved.
#[derive(Debug, Drop)]
pub struct MovedKeys {
    /// The one that it had.
    pub key: Key,
    /// The one that it has now.
    pub new_key: Key,
}

/// A table that was emptied, and what it held.
#[derive(Debug, Drop)]
pub struct Wiped {
    pub table: TableId,
    pub contents: Contents,
}

impl Inverse {
    /// The row that it keeps for a place: the one that its change took from there, or that an emptied
    /// table held there. It takes no memory.
    pub fn row_at(&self, table: TableId, key: &Key) -> Option<RowView<'_>>
        ensures { result ≡ row_by_inverse self.now (table, key.now) }
    {
        self.kept_row(table, key)
    }

    /// What it puts back at a place, if its change altered that place: a row, or none. It takes no memory.
    pub fn edit_at(&self, table: TableId, key: &Key) -> Option<Option<RowView<'_>>>
        ensures { result ≡ get (edits_of self.now) (table, key.now) }
    {
        match self.kept_row(table, key) {
            Some(row) => Some(Some(row)),
            None => self.no_row_at(table, key),
        }
    }

    // That no row stood at a place, if its change put one there.
    fn no_row_at(&self, table: TableId, key: &Key) -> Option<Option<RowView<'_>>>
        ensures { result ≡ (if came_to self.now table key.now then Some None else None) }
    {
        if self.came_to(table, key) {
            return Some(None);
        }
        None
    }

    // Whether its change put a row at a place where none stood.
    fn came_to(&self, table: TableId, key: &Key) -> bool
        ensures { result ≡ came_to self.now table key.now }
    {
        match self {
            Inverse::Take {
                table: other,
                key: values,
            } => is_at(table, key, *other, values),
            Inverse::Move {
                table: other,
                keys,
                ..
            } => is_at(table, key, *other, &keys.new_key),
            Inverse::Put { .. } | Inverse::Replace { .. } | Inverse::Unwipe { .. } => false,
        }
    }

    // The row that it keeps for a place, by what each kind of inverse keeps.
    fn kept_row(&self, table: TableId, key: &Key) -> Option<RowView<'_>>
        ensures { result ≡ row_kept self.now table key.now }
    {
        match self {
            Inverse::Take { .. } => None,
            Inverse::Put {
                table: other,
                key: values,
                row,
            } => row_if(is_at(table, key, *other, values), row),
            Inverse::Replace {
                table: other,
                key: values,
                row,
            } => row_if(is_at(table, key, *other, values), row),
            Inverse::Move {
                table: other,
                keys,
                row,
            } => row_if(is_at(table, key, *other, &keys.key), row),
            Inverse::Unwipe { wiped } => row_emptied(wiped.as_slice(), table, key),
        }
    }
}

// Whether two places are the same.
fn is_at(table: TableId, key: &Key, other: TableId, values: &Key) -> bool
    ensures { result ≡ is_place (table, key.now) (other, values.now) }
{
    table == other && key == values
}

// The row, if it is asked for.
fn row_if(is: bool, row: &Row) -> Option<RowView<'_>>
    ensures { result ≡ (if is then Some row.now else None) }
{
    if is {
        return Some(RowView::of_row(row));
    }
    None
}

// The row at the key of the first emptied table of this number that held one there.
fn row_emptied<'a>(wiped: &'a [Wiped], table: TableId, key: &Key) -> Option<RowView<'a>>
    ensures { result ≡ first_emptied wiped.now table key.now }
{
    for emptied in wiped {
        if emptied.table == table {
            if let Some(row) = emptied.contents.get(key) {
                return Some(row);
            }
        }
    }
    None
}

/// Puts back what stood before the change. It takes no memory.
pub fn put_back(t: &mut Tables, inverse: Inverse)
    requires { CanPutBack t.old inverse }
    ensures schema { t.new.schema ≡ t.old.schema }
    ensures rows { t.new.rows ≡ back t.old.rows (edits_of inverse) }
    ensures room { KeepsCells (room_back t.old.room inverse) t.new.room }
{
    match inverse {
        Inverse::Take { table, key } => t.take_back(table, &key),
        Inverse::Put { table, key, row } => t.put_back(table, &key, row),
        Inverse::Replace { table, key, row } => {
            t.take_back(table, &key);
            t.put_back(table, &key, row);
        }
        Inverse::Move { table, keys, row } => {
            let MovedKeys { key, new_key } = Box::into_inner(keys);
            t.replace_back(table, &new_key, key, row);
        }
        Inverse::Unwipe { wiped } => unwipe_all(t, wiped),
    }
}

/// Puts back what stood before the change, and leaves in the place of the inverse what settles the row
/// that went. It takes no memory.
pub fn turn_back(alloc: Global, t: &mut Tables, inverse: &mut Inverse)
    requires { CanPutBack t.old inverse.old }
    ensures schema { t.new.schema ≡ t.old.schema }
    ensures rows { t.new.rows ≡ back t.old.rows (edits_of inverse.old) }
    ensures room { KeepsCells (room_back t.old.room inverse.old) t.new.room }
    ensures known { IsKnown t.old.schema inverse.new }
    ensures turned { IsTurned t.old.rows inverse.old inverse.new }
{
    let was = mem::replace(inverse, nothing(alloc));
    *inverse = put_back_and_keep(alloc, t, was);
}

// Puts back what stood before the change. The answer settles the row that went: it would put that row
// there again.
fn put_back_and_keep(alloc: Global, t: &mut Tables, inverse: Inverse) -> Inverse
    requires { CanPutBack t.old inverse }
    ensures schema { t.new.schema ≡ t.old.schema }
    ensures rows { t.new.rows ≡ back t.old.rows (edits_of inverse) }
    ensures room { KeepsCells (room_back t.old.room inverse) t.new.room }
    ensures known { IsKnown t.old.schema result }
    ensures turned { IsTurned t.old.rows inverse result }
{
    match inverse {
        Inverse::Take { table, key } => {
            let row = t.remove(table, &key);
            Inverse::Put { table, key, row }
        }
        Inverse::Put { table, key, row } => {
            t.put_back(table, &key, row);
            nothing(alloc)
        }
        Inverse::Replace { table, key, row } => {
            let gone = t.remove(table, &key);
            t.put_back(table, &key, row);
            Inverse::Put {
                table,
                key,
                row: gone,
            }
        }
        Inverse::Move { table, keys, row } => {
            let MovedKeys { key, new_key } = Box::into_inner(keys);
            let gone = t.remove(table, &new_key);
            t.put_back(table, &key, row);
            Inverse::Put {
                table,
                key: new_key,
                row: gone,
            }
        }
        Inverse::Unwipe { wiped } => {
            unwipe_all(t, wiped);
            nothing(alloc)
        }
    }
}

// An inverse that puts nothing back. It takes no memory.
fn nothing(alloc: Global) -> Inverse
    ensures { (schema : Schema) → IsKnown schema result }
{
    Inverse::Unwipe {
        wiped: Vec::new(alloc),
    }
}

/// Gives emptied tables back what they held, the last emptied first.
pub(crate) fn unwipe_all(t: &mut Tables, wiped: Vec<Wiped>)
    requires { CanUnwipe t.old wiped.items }
    ensures schema { t.new.schema ≡ t.old.schema }
    ensures rows { t.new.rows ≡ all_back t.old.rows (map rows_held wiped.items) }
    ensures room { KeepsCells (room_unwiped t.old.room wiped.items) t.new.room }
{
    let mut wiped = wiped;
    while let Some(last) = wiped.pop() {
        t.unwipe(last.table, last.contents);
    }
}
