// What stood in a table before a change, laid under what is known of its rows.
ghost use Rattle.std.specs.Prelude.{OnOk, map, option_map};
ghost use Rattle.model.specs.Effect.{one_edit};
ghost use Rattle.change.specs.Edits.{laid_together};
ghost use Rattle.change.specs.Inverse.{edits_of, rows_held};
ghost use Rattle.change.specs.Laid.{IsLaidUnder};

use crate::inverse::{Inverse, Wiped};
use model::{Key, OutOfMemory, Row, TableId};
use std::collections::BTreeMap;

impl Inverse {
    /// Adds to what is known of a table's rows, key by key, what stood there before the change: a row, or
    /// none. Where something is known already, that stays. Refused for memory, a part is added.
    pub fn lay_under(
        &self,
        table: TableId,
        known: &mut BTreeMap<Key, Option<Row>>,
    ) -> Result<(), OutOfMemory>
        ensures { OnOk result (IsLaidUnder known.old table (edits_of self.now) known.new) }
    {
        match self {
            Inverse::Take { table: other, key } => lay_one(*other, key, None, table, known),
            Inverse::Put {
                table: other,
                key,
                row,
            } => lay_one(*other, key, Some(row), table, known),
            Inverse::Replace {
                table: other,
                key,
                row,
            } => lay_one(*other, key, Some(row), table, known),
            Inverse::Move {
                table: other,
                keys,
                row,
            } => {
                lay_one(*other, &keys.key, Some(row), table, known)?;
                lay_one(*other, &keys.new_key, None, table, known)
            }
            Inverse::Unwipe { wiped } => lay_each(wiped.as_slice(), table, known),
        }
    }
}

// Lays what stood at one place, a row or none, under what is known of a table.
fn lay_one(
    other: TableId,
    key: &Key,
    row: Option<&Row>,
    table: TableId,
    known: &mut BTreeMap<Key, Option<Row>>,
) -> Result<(), OutOfMemory>
    ensures { OnOk result (IsLaidUnder known.old table (one_edit (other, key.now) (option_map (λ r. r.now) row.entry)) known.new) }
{
    if other != table {
        return Ok(());
    }
    if known.contains_key(key) {
        return Ok(());
    }
    let row = match row {
        Some(row) => Some(row.copy()?),
        None => None,
    };
    known.insert(key.copy()?, row)?;
    Ok(())
}

// Lays what emptied tables held under what is known of a table: the first has the say.
fn lay_each(
    wiped: &[Wiped],
    table: TableId,
    known: &mut BTreeMap<Key, Option<Row>>,
) -> Result<(), OutOfMemory>
    ensures { OnOk result (IsLaidUnder known.old table (laid_together (map rows_held wiped.now)) known.new) }
{
    for emptied in wiped {
        lay_rows(emptied, table, known)?;
    }
    Ok(())
}

// Lays the rows that an emptied table held under what is known of a table.
fn lay_rows(
    emptied: &Wiped,
    table: TableId,
    known: &mut BTreeMap<Key, Option<Row>>,
) -> Result<(), OutOfMemory>
    ensures { OnOk result (IsLaidUnder known.old table (rows_held emptied.now) known.new) }
{
    if emptied.table != table {
        return Ok(());
    }
    for row in emptied.contents.walk() {
        let row = row.to_row()?;
        if let Some(key) = emptied.contents.key_of(&row)? {
            lay_one(table, &key, Some(&row), table, known)?;
        }
    }
    Ok(())
}
