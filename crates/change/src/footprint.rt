// The cells that a change looks up or alters.
ghost use Rattle.std.specs.Prelude.{◌≡◌, ◌<◌, ◌++◌, ◌∷◌, length, IfOk, OnOk, map};
ghost use Rattle.std.specs.FinMap.{get};
ghost use Rattle.model.specs.declared.cell.Cell.TheVariants.{Row as RowCell, Whole};
ghost use Rattle.model.specs.Rows.{keys_at, values_in};
ghost use Rattle.model.specs.Cells.{cells_of, unique_cell, unique_cells};
ghost use Rattle.model.specs.Footprint.{footprint, looked_up, moved_cell, moved_cells, new_place, removed_cells, replaced_cells};
ghost use Rattle.model.specs.Named.{NamesTables};
ghost use Rattle.change.specs.Footprint.{one_or_none, footprint_at};
ghost use Rattle.change.specs.Reading.{read_row};

use crate::reading::{PatchedRow, has_key, has_same};
use indexes::Tables;
use indexes::columns::{ReadRow, key_of};
use model::{Cell, Change, Key, OutOfMemory, Patch, Row, TableId};
use rows::RowView;
use std::alloc::Global;

/// The cell of the row that a change looks up before all else, if there is one.
pub fn looked_up(c: &Change) -> Result<Option<Cell>, OutOfMemory>
    ensures { IfOk result (λ cell. one_or_none cell ≡ looked_up c.now) }
{
    match c {
        Change::Set { table, key, .. } | Change::Remove { table, key } => {
            Ok(Some(Cell::Row(*table, key.copy()?)))
        }
        Change::Put { .. } | Change::Wipe { .. } => Ok(None),
    }
}

/// The cells that a change looks up or alters, on the rows that it meets.
pub fn footprint(alloc: Global, t: &Tables, c: &Change) -> Result<Vec<Cell>, OutOfMemory>
    requires { NamesTables (length t.now.schema) c.now }
    ensures { IfOk result (λ cells. cells.items ≡ footprint t.now.schema t.now.rows c.now) }
{
    match c {
        Change::Put { table, row } => put_cells(alloc, t, *table, row),
        Change::Set { table, key, patch } => {
            set_cells(alloc, t, *table, key, patch, t.get(*table, key))
        }
        Change::Remove { table, key } => { remove_cells(alloc, t, *table, key, t.get(*table, key)) }
        Change::Wipe { tables } => wipe_cells(alloc, tables.ids()),
    }
}

/// The same, where this row stood at the place that the change looks up.
pub fn footprint_at(
    alloc: Global,
    t: &Tables,
    c: &Change,
    old: Option<RowView<'_>>,
) -> Result<Vec<Cell>, OutOfMemory>
    requires { NamesTables (length t.now.schema) c.now }
    ensures { IfOk result (λ cells. cells.items ≡ footprint_at t.now.schema c.now old.entry) }
{
    match c {
        Change::Put { table, row } => put_cells(alloc, t, *table, row),
        Change::Set { table, key, patch } => set_cells(alloc, t, *table, key, patch, old),
        Change::Remove { table, key } => remove_cells(alloc, t, *table, key, old),
        Change::Wipe { tables } => wipe_cells(alloc, tables.ids()),
    }
}

// What a row that comes into its table fills.
fn put_cells(alloc: Global, t: &Tables, table: TableId, row: &Row) -> Result<Vec<Cell>, OutOfMemory>
    requires { table < length t.now.schema }
    ensures { IfOk result (λ cells. cells.items ≡ cells_of t.now.schema table row.now) }
{
    let mut cells = Vec::new(alloc);
    if let Some(key) = t.key_of(table, row)? {
        cells.push(Cell::Row(table, key))?;
    }
    add_unique(alloc, &mut cells, t, table, row)?;
    Ok(cells)
}

// The place that an update looks up, and what it alters if a row stands there.
fn set_cells(
    alloc: Global,
    t: &Tables,
    table: TableId,
    key: &Key,
    patch: &Patch,
    old: Option<RowView<'_>>,
) -> Result<Vec<Cell>, OutOfMemory>
    requires { table < length t.now.schema }
    ensures { IfOk result (λ cells. cells.items ≡ RowCell table key.now ∷ replaced_cells t.now.schema table key.now patch.now old.entry) }
{
    let mut cells = Vec::new(alloc);
    cells.push(Cell::Row(table, key.copy()?))?;
    add_replaced(alloc, &mut cells, t, table, key, patch, old)?;
    Ok(cells)
}

// The place that a delete looks up, and what it alters if a row stands there.
fn remove_cells(
    alloc: Global,
    t: &Tables,
    table: TableId,
    key: &Key,
    old: Option<RowView<'_>>,
) -> Result<Vec<Cell>, OutOfMemory>
    requires { table < length t.now.schema }
    ensures { IfOk result (λ cells. cells.items ≡ RowCell table key.now ∷ removed_cells t.now.schema table old.entry) }
{
    let mut cells = Vec::new(alloc);
    cells.push(Cell::Row(table, key.copy()?))?;
    add_removed(alloc, &mut cells, t, table, old)?;
    Ok(cells)
}

// The tables that a truncate empties.
fn wipe_cells(alloc: Global, tables: &[TableId]) -> Result<Vec<Cell>, OutOfMemory>
    ensures { IfOk result (λ cells. cells.items ≡ map Whole tables.now) }
{
    let mut cells = Vec::with_capacity(alloc, tables.len())?;
    for table in tables {
        cells.push_reserved(Cell::Whole(*table));
    }
    Ok(cells)
}

// What an update looks up or alters beside its place.
fn add_replaced(
    alloc: Global,
    cells: &mut Vec<Cell>,
    t: &Tables,
    table: TableId,
    key: &Key,
    patch: &Patch,
    old: Option<RowView<'_>>,
) -> Result<(), OutOfMemory>
    requires { table < length t.now.schema }
    ensures { OnOk result (cells.new.items ≡ cells.old.items ++ replaced_cells t.now.schema table key.now patch.now old.entry) }
{
    let Some(view) = old else {
        return Ok(());
    };
    let old = PatchedRow::of_row(&view);
    let new = PatchedRow::new(&view, patch);
    add_new_place(alloc, cells, t.primary_columns(table), table, key, new)?;
    add_moved(alloc, cells, t, table, old, new)
}

// What a delete alters beside its place.
fn add_removed(
    alloc: Global,
    cells: &mut Vec<Cell>,
    t: &Tables,
    table: TableId,
    old: Option<RowView<'_>>,
) -> Result<(), OutOfMemory>
    requires { table < length t.now.schema }
    ensures { OnOk result (cells.new.items ≡ cells.old.items ++ removed_cells t.now.schema table old.entry) }
{
    match old {
        Some(view) => add_unique(alloc, cells, t, table, &PatchedRow::of_row(&view)),
        None => Ok(()),
    }
}

// The place of the new row's key in these columns, if it differs from the old one and holds no null.
fn add_new_place(
    alloc: Global,
    cells: &mut Vec<Cell>,
    columns: &[usize],
    table: TableId,
    key: &Key,
    new: PatchedRow<'_>,
) -> Result<(), OutOfMemory>
    ensures { OnOk result (cells.new.items ≡ cells.old.items ++ new_place table key.now (values_in columns.now (read_row new.entry))) }
{
    if has_key(columns, new, key) {
        return Ok(());
    }
    if let Some(new_key) = key_of(alloc, columns, &new)? {
        cells.push(Cell::Row(table, new_key))?;
    }
    Ok(())
}

// A row's values in each unique key, if none of them is null.
fn add_unique<R: ReadRow>(
    alloc: Global,
    cells: &mut Vec<Cell>,
    t: &Tables,
    table: TableId,
    row: &R,
) -> Result<(), OutOfMemory>
    requires { table < length t.now.schema }
    ensures { OnOk result (cells.new.items ≡ cells.old.items ++ unique_cells table (R.read row.now) 1 (keys_at t.now.schema table).uniques) }
{
    for index in 0..t.unique_count(table) {
        let number = index + 1;
        let columns = t.unique_columns(table, number);
        let values = key_of(alloc, columns, row)?;
        add_values(cells, table, number, values)?;
    }
    Ok(())
}

// The values of the old and the new row in each unique key, but those that both have.
fn add_moved(
    alloc: Global,
    cells: &mut Vec<Cell>,
    t: &Tables,
    table: TableId,
    old: PatchedRow<'_>,
    new: PatchedRow<'_>,
) -> Result<(), OutOfMemory>
    requires { table < length t.now.schema }
    ensures { OnOk result (cells.new.items ≡ cells.old.items ++ moved_cells table (read_row old.entry) (read_row new.entry) 1 (keys_at t.now.schema table).uniques) }
{
    for index in 0..t.unique_count(table) {
        let number = index + 1;
        let columns = t.unique_columns(table, number);
        add_moved_values(alloc, cells, columns, table, number, old, new)?;
    }
    Ok(())
}

// The values of the old and the new row in these columns, unless both have the same.
fn add_moved_values(
    alloc: Global,
    cells: &mut Vec<Cell>,
    columns: &[usize],
    table: TableId,
    number: usize,
    old: PatchedRow<'_>,
    new: PatchedRow<'_>,
) -> Result<(), OutOfMemory>
    ensures { OnOk result (cells.new.items ≡ cells.old.items ++ moved_cell table number (values_in columns.now (read_row old.entry)) (values_in columns.now (read_row new.entry))) }
{
    if has_same(columns, old, new) {
        return Ok(());
    }
    let before = key_of(alloc, columns, &old)?;
    add_values(cells, table, number, before)?;
    let after = key_of(alloc, columns, &new)?;
    add_values(cells, table, number, after)
}

// Values of a unique key, if none of them is null.
fn add_values(
    cells: &mut Vec<Cell>,
    table: TableId,
    number: usize,
    values: Option<Key>,
) -> Result<(), OutOfMemory>
    ensures { OnOk result (cells.new.items ≡ cells.old.items ++ unique_cell table number values) }
{
    if let Some(values) = values {
        cells.push(Cell::Uniq(table, number, values))?;
    }
    Ok(())
}
