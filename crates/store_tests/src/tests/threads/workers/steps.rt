// The items of the tests.
ghost use Rattle.std.specs.Prelude.{All, IfOk, [], ◌∷◌};
ghost use Rattle.model.specs.Named.{NamesTables};
ghost use Rattle.model.specs.Survivors.{changes_of};

use crate::tests::threads::table::{TABLE, key, put};
use model::{Change, ColumnPatch, Item, OutOfMemory, Patch, Row, Value, ValueRef, Xid};
use std::alloc::Global;

/// An item of a test.
#[derive(Clone, Copy, Debug, PartialEq)]
pub(super) enum Step {
    /// A row with this key comes, with note 0.
    Put(i64),
    /// This subtransaction gives the row of a key this note.
    Note { sub: Xid, key: i64, note: i64 },
    /// A subtransaction is named.
    Touch(Xid),
    /// A subtransaction is rolled back.
    Back(Xid),
    /// The commit was read.
    Last,
}

fn note(alloc: Global, id: i64, note: i64) -> Result<Change, OutOfMemory>
    ensures { IfOk result (λ c. NamesTables 1 c) }
{
    let columns = vec![in alloc; ColumnPatch::Keep, ColumnPatch::Value(Value::Int(note))]?;
    let key = key(alloc, id)?;
    Ok(Change::Set {
        table: TABLE,
        key,
        patch: Patch::from_columns(columns)?,
    })
}

/// The item as it goes through a ring.
pub(super) fn item_of(alloc: Global, step: Step) -> Result<Item, OutOfMemory>
    ensures { IfOk result (λ item. All (NamesTables 1) (changes_of (item ∷ []))) }
{
    match step {
        Step::Put(key) => {
            let change = put(alloc, key, 0)?;
            Ok(Item::Change { sub: 700, change })
        }
        Step::Note {
            sub,
            key,
            note: new,
        } => {
            let change = note(alloc, key, new)?;
            Ok(Item::Change { sub, change })
        }
        Step::Touch(sub) => Ok(Item::Touch(sub)),
        Step::Back(sub) => Ok(Item::BackTo(sub)),
        Step::Last => Ok(Item::Last),
    }
}

/// The key of a row that an item puts.
pub(super) fn put_key(item: &Item) -> Option<i64> {
    let Item::Change { change, .. } = item else {
        return None;
    };
    let Change::Put { row, .. } = change else {
        return None;
    };
    int_at(row, 0)
}

/// The int in a column of a row.
pub(super) fn int_at(row: &Row, column: usize) -> Option<i64> {
    match row.get(column) {
        Some(ValueRef::Int(number)) => Some(number),
        _ => None,
    }
}
