// The statements that commits ask for.
ghost use Rattle.std.specs.Prelude.{◌≡◌, ◌++◌, ◌∷◌, [], map, flat_map, slice_get, IfOk, OnOk};
ghost use Rattle.sql_batch.specs.Batches.{bound_text};
ghost use Rattle.sqlite.specs.Values.{bound};
ghost use Rattle.mirror_statements.specs.Asked.{asked_by_change, asked_by_clear, asked_by};

use crate::commit::Commit;
use crate::refused::Refused;
use crate::values::{push_key, push_patch, push_row};
use model::{Change, Lsn, TableId};
use sql_batch::BoundStatement;
use sqlite::Statement;
use sqlite::types::ValueRef;
use std::alloc::Global;
use std::marker::Model;

/// The statements for a table of a file. A clause sees their texts.
#[derive(Debug, Drop)]
pub struct TableStatements {
    /// Inserts a row: its columns.
    pub insert: Statement,
    /// Updates the row at a key: for each column whether it is written, and its value; then the key.
    pub update: Statement,
    /// Deletes the row at a key.
    pub delete: Statement,
    /// Deletes all rows.
    pub clear: Statement,
}

impl Model for TableStatements {
    ghost use Rattle.mirror_statements.specs.Asked.{Texts};

    ghost Value = { Texts };

    ghost view = { λ t. record { insert = t.insert.text; update = t.update.text; delete = t.delete.text; clear = t.clear.text } };
}

/// The statements for a file.
#[derive(Debug, Drop)]
pub struct FileStatements {
    /// Those for each table, in the catalog's order.
    pub tables: Vec<TableStatements>,
    /// Sets the position.
    pub position: Statement,
}

/// The statements that commits ask for, with the position at the end of the last.
pub fn batch_of<'a>(
    alloc: Global,
    file: &'a FileStatements,
    commits: &'a [Commit],
    end: Lsn,
) -> Result<Vec<BoundStatement<'a>>, Refused>
    ensures { IfOk result (λ made. map bound_text made.items ≡ asked_by file.now.tables.items file.now.position.text commits.now end) }
{
    let mut made = Vec::new(alloc);
    for commit in commits {
        push_changes(alloc, &file.tables, &commit.changes, &mut made)?;
    }
    let mut values = Vec::new(alloc);
    values.push(ValueRef::Int(end.cast_signed()))?;
    push_statement(&file.position, values, &mut made)?;
    Ok(made)
}

// Appends the statements for changes.
fn push_changes<'a>(
    alloc: Global,
    tables: &'a [TableStatements],
    changes: &'a [Change],
    made: &mut Vec<BoundStatement<'a>>,
) -> Result<(), Refused>
    ensures { OnOk result (map bound_text made.new.items ≡ map bound_text made.old.items ++ flat_map (asked_by_change tables.now) changes.now) }
{
    for change in changes {
        push_change(alloc, tables, change, made)?;
    }
    Ok(())
}

// Appends the statements for a change.
fn push_change<'a>(
    alloc: Global,
    tables: &'a [TableStatements],
    change: &'a Change,
    made: &mut Vec<BoundStatement<'a>>,
) -> Result<(), Refused>
    ensures { OnOk result (map bound_text made.new.items ≡ map bound_text made.old.items ++ asked_by_change tables.now change.now) }
{
    let mut values = Vec::new(alloc);
    match change {
        Change::Put { table, row } => {
            push_row(row, &mut values)?;
            push_statement(&find(tables, *table)?.insert, values, made)
        }
        Change::Set { table, key, patch } => {
            push_patch(patch, &mut values)?;
            push_key(key.values(), &mut values)?;
            push_statement(&find(tables, *table)?.update, values, made)
        }
        Change::Remove { table, key } => {
            push_key(key.values(), &mut values)?;
            push_statement(&find(tables, *table)?.delete, values, made)
        }
        Change::Wipe { tables: cleared } => push_clears(alloc, tables, cleared.ids(), made),
    }
}

// Appends the statements that clear tables.
fn push_clears<'a>(
    alloc: Global,
    tables: &'a [TableStatements],
    cleared: &[TableId],
    made: &mut Vec<BoundStatement<'a>>,
) -> Result<(), Refused>
    ensures { OnOk result (map bound_text made.new.items ≡ map bound_text made.old.items ++ asked_by_clear tables.now cleared.now) }
{
    for table in cleared {
        push_statement(&find(tables, *table)?.clear, Vec::new(alloc), made)?;
    }
    Ok(())
}

// The statements for a table.
fn find(tables: &[TableStatements], table: TableId) -> Result<&TableStatements, Refused>
    ensures { IfOk result (λ found. slice_get tables.now table ≡ Some found.now) }
{
    tables.get(table).ok_or(Refused::UnknownTable)
}

// Appends a statement with these values.
fn push_statement<'a>(
    statement: &'a Statement,
    values: Vec<ValueRef<'a>>,
    made: &mut Vec<BoundStatement<'a>>,
) -> Result<(), Refused>
    ensures { OnOk result (map bound_text made.new.items ≡ map bound_text made.old.items ++ (statement.now.text, bound values.entry.items) ∷ []) }
{
    made.push(BoundStatement { statement, values })?;
    Ok(())
}
