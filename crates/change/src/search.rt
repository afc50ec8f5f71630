// The search for a cell of a change that passes a test: it reads in place, and takes no memory.
ghost use Rattle.std.specs.Prelude.{◌≡◌, ◌<◌, ◌∷◌, length, map};
ghost use Rattle.std.specs.List.{list_any};
ghost use Rattle.std.specs.FinMap.{get};
ghost use Rattle.model.specs.declared.cell.Cell.TheVariants.{Row as RowCell, Whole};
ghost use Rattle.model.specs.Rows.{keys_at, values_in};
ghost use Rattle.model.specs.Cells.{cells_of, row_cell, unique_cell, unique_cells};
ghost use Rattle.model.specs.Footprint.{footprint, moved_cell, moved_cells, new_place, removed_cells, replaced_cells};
ghost use Rattle.model.specs.Named.{NamesTables};
ghost use Rattle.change.specs.Reading.{cell_read, read_row};

use crate::cell_ref::{CellRef, KeyRef};
use crate::reading::{PatchedRow, has_key, has_same};
use indexes::Tables;
use indexes::columns::has_values;
use model::{Change, Key, Patch, TableId};
use rows::RowView;

/// A test of cells.
pub trait CellTest {
    ghost use Rattle.std.specs.Prelude.{Bool, ◌≡◌};
    ghost use Rattle.model.specs.declared.cell.Cell.{Cell};
    ghost use Rattle.change.specs.Reading.{cell_read};

    /// The cells that pass it.
    ghost passes: { Self → Cell → Bool };

    /// Whether a cell passes it.
    fn test(&self, cell: CellRef<'_>) -> bool
        ensures { result ≡ passes self.now (cell_read cell.entry) };
}

/// Whether a cell that a change looks up or alters passes a test, on the rows that the change meets.
/// Each is read where it lies, and it takes no memory.
pub fn any_cell<T: CellTest>(t: &Tables, c: &Change, test: &T) -> bool
    requires { NamesTables (length t.now.schema) c.now }
    ensures { result ≡ list_any (T.passes test.now) (footprint t.now.schema t.now.rows c.now) }
{
    match c {
        Change::Put { table, row } => any_put(t, *table, &RowView::of_row(row), test),
        Change::Set { table, key, patch } => any_set(t, *table, key, patch, test),
        Change::Remove { table, key } => any_remove(t, *table, key, test),
        Change::Wipe { tables } => any_wipe(tables.ids(), test),
    }
}

// Of those that a row fills.
fn any_put<T: CellTest>(t: &Tables, table: TableId, row: &RowView<'_>, test: &T) -> bool
    requires { table < length t.now.schema }
    ensures { result ≡ list_any (T.passes test.now) (cells_of t.now.schema table row.now) }
{
    let row = PatchedRow::of_row(row);
    any_place(t.primary_columns(table), table, row, test) || any_unique(t, table, row, test)
}

// Of those of an update.
fn any_set<T: CellTest>(t: &Tables, table: TableId, key: &Key, patch: &Patch, test: &T) -> bool
    requires { table < length t.now.schema }
    ensures { result ≡ list_any (T.passes test.now) (RowCell table key.now ∷ replaced_cells t.now.schema table key.now patch.now (get t.now.rows (table, key.now))) }
{
    test.test(CellRef::Row(table, KeyRef::Key(key))) || any_replaced(t, table, key, patch, test)
}

// Of those of a delete.
fn any_remove<T: CellTest>(t: &Tables, table: TableId, key: &Key, test: &T) -> bool
    requires { table < length t.now.schema }
    ensures { result ≡ list_any (T.passes test.now) (RowCell table key.now ∷ removed_cells t.now.schema table (get t.now.rows (table, key.now))) }
{
    test.test(CellRef::Row(table, KeyRef::Key(key))) || any_removed(t, table, key, test)
}

// Of those of a truncate.
fn any_wipe<T: CellTest>(tables: &[TableId], test: &T) -> bool
    ensures { result ≡ list_any (T.passes test.now) (map Whole tables.now) }
{
    for table in tables {
        if test.test(CellRef::Whole(*table)) {
            return true;
        }
    }
    false
}

// Of those of an update beside its place.
fn any_replaced<T: CellTest>(t: &Tables, table: TableId, key: &Key, patch: &Patch, test: &T) -> bool
    requires { table < length t.now.schema }
    ensures { result ≡ list_any (T.passes test.now) (replaced_cells t.now.schema table key.now patch.now (get t.now.rows (table, key.now))) }
{
    let Some(view) = t.get(table, key) else {
        return false;
    };
    let old = PatchedRow::of_row(&view);
    let new = PatchedRow::new(&view, patch);
    any_new_place(t.primary_columns(table), table, key, new, test)
        || any_moved(t, table, old, new, test)
}

// Of those of a delete beside its place.
fn any_removed<T: CellTest>(t: &Tables, table: TableId, key: &Key, test: &T) -> bool
    requires { table < length t.now.schema }
    ensures { result ≡ list_any (T.passes test.now) (removed_cells t.now.schema table (get t.now.rows (table, key.now))) }
{
    match t.get(table, key) {
        Some(view) => any_unique(t, table, PatchedRow::of_row(&view), test),
        None => false,
    }
}

// The place of a row's key in these columns, if it holds no null.
fn any_place<T: CellTest>(columns: &[usize], table: TableId, row: PatchedRow<'_>, test: &T) -> bool
    ensures { result ≡ list_any (T.passes test.now) (row_cell table (values_in columns.now (read_row row.entry))) }
{
    has_values(columns, &row) && test.test(CellRef::Row(table, KeyRef::Columns(columns, row)))
}

// The same, if the key differs from the one before.
fn any_new_place<T: CellTest>(
    columns: &[usize],
    table: TableId,
    key: &Key,
    row: PatchedRow<'_>,
    test: &T,
) -> bool
    ensures { result ≡ list_any (T.passes test.now) (new_place table key.now (values_in columns.now (read_row row.entry))) }
{
    !has_key(columns, row, key) && any_place(columns, table, row, test)
}

// A row's values in the columns of a unique key, if none of them is null.
fn any_values<T: CellTest>(
    columns: &[usize],
    table: TableId,
    number: usize,
    row: PatchedRow<'_>,
    test: &T,
) -> bool
    ensures { result ≡ list_any (T.passes test.now) (unique_cell table number (values_in columns.now (read_row row.entry))) }
{
    has_values(columns, &row)
        && test.test(CellRef::Uniq(table, number, KeyRef::Columns(columns, row)))
}

// The values of the old and the new row there, unless both have the same.
fn any_moved_values<T: CellTest>(
    columns: &[usize],
    table: TableId,
    number: usize,
    old: PatchedRow<'_>,
    new: PatchedRow<'_>,
    test: &T,
) -> bool
    ensures { result ≡ list_any (T.passes test.now) (moved_cell table number (values_in columns.now (read_row old.entry)) (values_in columns.now (read_row new.entry))) }
{
    !has_same(columns, old, new)
        && (any_values(columns, table, number, old, test)
            || any_values(columns, table, number, new, test))
}

// A row's values in each unique key.
fn any_unique<T: CellTest>(t: &Tables, table: TableId, row: PatchedRow<'_>, test: &T) -> bool
    requires { table < length t.now.schema }
    ensures { result ≡ list_any (T.passes test.now) (unique_cells table (read_row row.entry) 1 (keys_at t.now.schema table).uniques) }
{
    for index in 0..t.unique_count(table) {
        let number = index + 1;
        let columns = t.unique_columns(table, number);
        if any_values(columns, table, number, row, test) {
            return true;
        }
    }
    false
}

// The values of the old and the new row in each unique key, but those that both have.
fn any_moved<T: CellTest>(
    t: &Tables,
    table: TableId,
    old: PatchedRow<'_>,
    new: PatchedRow<'_>,
    test: &T,
) -> bool
    requires { table < length t.now.schema }
    ensures { result ≡ list_any (T.passes test.now) (moved_cells table (read_row old.entry) (read_row new.entry) 1 (keys_at t.now.schema table).uniques) }
{
    for index in 0..t.unique_count(table) {
        let number = index + 1;
        let columns = t.unique_columns(table, number);
        if any_moved_values(columns, table, number, old, new, test) {
            return true;
        }
    }
    false
}
