// What a change does to the tables.
ghost use Rattle.std.specs.Prelude.{◌≡◌, ◌+◌, ◌-◌, ◌<◌, ◌≤◌, length, true, IfOk, MatchOption, IfSome, IsSome, is_some, OnOk, OnErr, Some, None};
ghost use Rattle.std.specs.FinMap.{get, remove};
ghost use Rattle.model.specs.declared.change.Change.TheVariants.{Put, Set, Remove, Wipe};
ghost use Rattle.model.specs.Rows.{IsValid, keys_at, values_in};
ghost use Rattle.model.specs.Effect.{first_taken, are_taken_unless_null, patch_row, outcome, effect, inverse};
ghost use Rattle.indexes.specs.Content.{KeepsCells, unique_columns};
ghost use Rattle.model.specs.Footprint.{footprint, both_have};
ghost use Rattle.change.specs.Altered.{cells_altered};
ghost use Rattle.change.specs.Inverse.{edits_of, CanPutBack};
ghost use Rattle.model.specs.Named.{NamesTables};
ghost use Rattle.change.specs.Applied.{AnswersOutcome, IsSound, IfDone, room_after};
ghost use Rattle.change.specs.Leaving.{Leaves};

use crate::inverse::{Inverse, MovedKeys, Wiped, unwipe_all};
use crate::reading::{PatchedRow, has_same};
use indexes::{Refused, Tables};
use model::{Change, Key, OutOfMemory, Patch, Row, TableId};
use rows::RowView;
use std::alloc::{AllocError, Global};
use thiserror::Error;

/// What came of a change that was not refused.
#[derive(Debug, Drop)]
pub enum Applied {
    /// The tables were changed, and this takes it back.
    Done(Inverse),
    /// No row stands at the key, and nothing was changed.
    Skipped,
}

/// Why a change was refused. The tables are as they were before it.
#[derive(Clone, Copy, Debug, PartialEq, Eq, Error)]
pub enum Clash {
    /// The row agrees with another in a key: 0 is the primary key, 1 upwards the unique keys in the
    /// catalog's order. The least that clashes is named.
    #[error("a row of table {table} agrees with another in key {key} (0 is the primary key, and the first table)")]
    Unique { table: TableId, key: usize },
    /// The row has a null in its primary key.
    #[error("a row of table {table} has a null in its primary key (0 is the first table)")]
    NullKey { table: TableId },
    /// The system had no memory for it.
    #[error("the system had no memory for the change")]
    OutOfMemory,
}

impl From<OutOfMemory> for Clash {
    ghost use Rattle.change.specs.declared.outcome.Clash.TheVariants.{OutOfMemory as NoMemory};

    ghost from_gives = { λ _ e. e ≡ NoMemory };

    fn from(_e: OutOfMemory) -> Clash {
        Clash::OutOfMemory
    }
}

impl From<AllocError> for Clash {
    ghost use Rattle.change.specs.declared.outcome.Clash.TheVariants.{OutOfMemory as NoMemory};

    ghost from_gives = { λ _ e. e ≡ NoMemory };

    fn from(_e: AllocError) -> Clash {
        Clash::OutOfMemory
    }
}

/// Applies a change to the tables. What its inverse alters is in the change's footprint.
pub fn apply(alloc: Global, t: &mut Tables, c: &Change) -> Result<Applied, Clash>
    requires { NamesTables (length t.old.schema) c.now }
    ensures answer { AnswersOutcome (outcome t.old.schema t.old.rows c.now) result }
    ensures ok { OnOk result (t.new.rows ≡ effect t.old.schema t.old.rows c.now) }
    ensures err { OnErr result (t.new.rows ≡ t.old.rows) }
    ensures inverse { IfDone result (λ i. edits_of i ≡ inverse t.old.schema t.old.rows c.now) }
    ensures altered { IfDone result (λ i. KeepsCells (cells_altered i) (footprint t.old.schema t.old.rows c.now)) }
    ensures can_put_back { IfDone result (λ i. CanPutBack t.new i) }
    ensures room { KeepsCells t.old.room (room_after t.new.room result) }
    ensures schema { t.new.schema ≡ t.old.schema }
{
    t.recall_invariant();
    match c {
        Change::Put { table, row } => put(t, *table, row),
        Change::Set { table, key, patch } => set(alloc, t, *table, key, patch),
        Change::Remove { table, key } => remove(t, *table, key),
        Change::Wipe { tables } => wipe(alloc, t, tables.ids()),
    }
}

/// A row comes into its table.
fn put(t: &mut Tables, table: TableId, row: &Row) -> Result<Applied, Clash>
    requires known { table < length t.old.schema }
    requires sound { IsSound t.old }
    ensures { Leaves t.old t.new (Put table row.now) result }
{
    let Some(key) = t.key_of(table, row)? else {
        return Err(Clash::NullKey { table });
    };
    let stands_at = key.copy()?;
    match t.put(table, key, row.copy()?) {
        Ok(()) => Ok(Applied::Done(Inverse::Take {
            table,
            key: stands_at,
        })),
        Err(Refused::Taken(key)) => Err(Clash::Unique { table, key }),
        Err(Refused::OutOfMemory) => Err(Clash::OutOfMemory),
    }
}

/// The row at a key is patched; one that isn't there is skipped.
fn set(
    alloc: Global,
    t: &mut Tables,
    table: TableId,
    key: &Key,
    patch: &Patch,
) -> Result<Applied, Clash>
    requires known { table < length t.old.schema }
    requires sound { IsSound t.old }
    ensures { Leaves t.old t.new (Set table key.now patch.now) result }
{
    let Some(old) = t.get(table, key) else {
        return Ok(Applied::Skipped);
    };
    let row = patched_row(alloc, &old, patch)?;
    let Some(new_key) = t.key_of(table, &row)? else {
        return Err(Clash::NullKey { table });
    };
    if is_key_held(t, table, &new_key, key) {
        return Err(Clash::Unique { table, key: 0 });
    }
    if let Some(number) = first_clash(t, table, &row, OldRow { key, row: &old }) {
        return Err(Clash::Unique { table, key: number });
    }
    let stood_at = key.copy()?;
    let moved = moved_keys(alloc, key, &new_key)?;
    let row = t.replace(table, key, new_key, row)?;
    Ok(Applied::Done(match moved {
        None => Inverse::Replace {
            table,
            key: stood_at,
            row,
        },
        Some(keys) => Inverse::Move { table, keys, row },
    }))
}

/// The keys of a row that an update gives another one.
fn moved_keys(
    alloc: Global,
    key: &Key,
    new_key: &Key,
) -> Result<Option<Box<MovedKeys>>, OutOfMemory>
    ensures { IfOk result (λ moved. MatchOption moved (new_key.now ≡ key.now) (λ keys. keys.value ≡ record { key = key.now; new_key = new_key.now })) }
{
    if new_key == key {
        return Ok(None);
    }
    let keys = MovedKeys {
        key: key.copy()?,
        new_key: new_key.copy()?,
    };
    Ok(Some(Box::new(alloc, keys)?))
}

/// The row at a key goes; one that isn't there is skipped.
fn remove(t: &mut Tables, table: TableId, key: &Key) -> Result<Applied, Clash>
    requires known { table < length t.old.schema }
    requires sound { IsSound t.old }
    ensures { Leaves t.old t.new (Remove table key.now) result }
{
    if t.get(table, key).is_none() {
        return Ok(Applied::Skipped);
    }
    let key = key.copy()?;
    let row = t.remove(table, &key);
    Ok(Applied::Done(Inverse::Put { table, key, row }))
}

/// Tables are emptied, one after another.
fn wipe(alloc: Global, t: &mut Tables, tables: &[TableId]) -> Result<Applied, Clash>
    requires known { NamesTables (length t.old.schema) (Wipe tables.now) }
    requires sound { IsSound t.old }
    ensures { Leaves t.old t.new (Wipe tables.now) result }
{
    let mut wiped = Vec::with_capacity(alloc, tables.len())?;
    for table in tables {
        match t.wipe(*table) {
            Ok(contents) => wiped.push_reserved(Wiped {
                table: *table,
                contents,
            }),
            Err(e) => {
                unwipe_all(t, wiped);
                return Err(e.into());
            }
        }
    }
    Ok(Applied::Done(Inverse::Unwipe { wiped }))
}

/// The row after an update. A column past the patch's end is kept; an update of all columns has the row.
fn patched_row(alloc: Global, old: &RowView<'_>, patch: &Patch) -> Result<Row, OutOfMemory>
    ensures { IfOk result (λ row. row ≡ patch_row patch.now old.now) }
{
    if let Some(row) = patch.whole_row()?
        && row.len() == old.len()
    {
        return Ok(row);
    }
    PatchedRow::new(old, patch).to_row(alloc)
}

/// A row that an update takes the place of, and its key.
#[derive(Clone, Copy)]
struct OldRow<'a> {
    key: &'a Key,
    row: &'a RowView<'a>,
}

/// The least unique key in which the row agrees with another than the one that it takes the place of.
fn first_clash(t: &Tables, table: TableId, row: &Row, old: OldRow<'_>) -> Option<usize>
    requires known { table < length t.now.schema }
    requires sound { IsSound t.now }
    requires stands { get t.now.rows (table, old.key.now) ≡ Some old.row.now }
    ensures { result ≡ first_taken (remove t.now.rows (table, old.entry.key.now)) table row.now 1 (keys_at t.now.schema table).uniques }
{
    for index in 0..t.unique_count(table) {
        let number = index + 1;
        if has_duplicate(t, table, number, row, old) {
            return Some(number);
        }
    }
    None
}

/// Whether a row stands at this key, and the key isn't `except`.
fn is_key_held(t: &Tables, table: TableId, key: &Key, except: &Key) -> bool
    requires { table < length t.now.schema }
    ensures { result ≡ is_some (get (remove t.now.rows (table, except.now)) (table, key.now)) }
{
    *key != *except && t.get(table, key).is_some()
}

/// Whether the row agrees in a unique key with another than the one that it takes the place of.
/// Values that it keeps of that nobody else has, and they aren't looked up.
fn has_duplicate(t: &Tables, table: TableId, number: usize, row: &Row, old: OldRow<'_>) -> bool
    requires known { table < length t.now.schema }
    requires sound { IsSound t.now }
    requires number { (1 ≤ number) × (number ≤ length (keys_at t.now.schema table).uniques) }
    requires stands { get t.now.rows (table, old.key.now) ≡ Some old.row.now }
    ensures { result ≡ are_taken_unless_null (remove t.now.rows (table, old.entry.key.now)) table (unique_columns t.now.schema table number) (values_in (unique_columns t.now.schema table number) row.now) }
{
    if keeps_values(t.unique_columns(table, number), old, row) {
        return false;
    }
    match t.find_duplicate(table, number, row) {
        None => false,
        Some(holder) => *holder != *old.key,
    }
}

/// Whether a row has the values in these columns of the one that it takes the place of, none of them
/// null.
fn keeps_values(columns: &[usize], old: OldRow<'_>, row: &Row) -> bool
    ensures { result ≡ both_have (values_in columns.now old.entry.row.now) (values_in columns.now row.now) }
{
    let row = RowView::of_row(row);
    has_same(
        columns,
        PatchedRow::of_row(old.row),
        PatchedRow::of_row(&row),
    )
}
