// What a store keeps beside each cell that a transaction holds, and where the committed row at a place
// is found by it.
ghost use Rattle.std.specs.Prelude.{◌≡◌, ◌<◌, ℕ, IfOk, IfSome, IfNone, length, All, Contains};
ghost use Rattle.std.specs.Map.{keys_of};
ghost use Rattle.model.specs.declared.cell.Cell.{Cell as AnyCell};
ghost use Rattle.model.specs.Cells.{table_of};
ghost use Rattle.keyholds.specs.Holds.{holds_of, cells_held, IsFreeCell};
ghost use Rattle.model.specs.declared.cell.Cell.TheVariants.{Row as RowCell};
ghost use Rattle.live_tables.specs.declared.before_image.BeforeImage.TheVariants.{Row as BeforeImageRow};
ghost use Rattle.live_tables.specs.BeforeImages.{IsToStand, AreToStand, BeforeImageFits, HasNoRowBeside, TellsCommitted};
ghost use Rattle.live_tables.specs.RowSource.{row_read, CanRead};

use crate::row_source::RowSource;
use keyholds::{Holds, SoughtRow};
use model::{Cell, Key, OutOfMemory, Row, TableId, Xid};
use std::alloc::Global;

/// What stood at a cell when a transaction first held it. Nobody else can alter it while it is held,
/// so that is what is committed there.
#[derive(Debug, Drop)]
pub enum BeforeImage {
    /// The row at a place, or none.
    Row(Option<Row>),
    /// A whole table that was emptied: how many inverses came before the one that has its rows.
    Wiped(usize),
    /// Nothing that a reader asks for: beside the values of a unique key, and beside a place in a
    /// table that the transaction had emptied before.
    Other,
}

/// Where the committed row at a place is found.
#[derive(Clone, Copy, Debug)]
pub enum CommittedRow<'a> {
    /// Beside the place.
    Beside(&'a Option<Row>),
    /// In the inverse with this number of the transaction that emptied the table.
    Emptied { xid: Xid, count: usize },
    /// In the live tables.
    Live,
}

/// Where the committed row at a place is found: two look-ups, and nothing is searched. It takes no
/// memory.
pub fn find_committed<'a>(
    holds: &'a Holds<BeforeImage>,
    table: TableId,
    key: &Key,
) -> CommittedRow<'a>
    requires { BeforeImageFits (holds_of holds.now) }
    ensures { TellsCommitted (holds_of holds.now) table key.now result }
{
    if let Some(row) = row_beside(holds, table, key) {
        return CommittedRow::Beside(row);
    }
    match holds.held_at(&Cell::Whole(table)) {
        Some((xid, BeforeImage::Wiped(count))) => CommittedRow::Emptied { xid, count: *count },
        Some((_, BeforeImage::Row(_))) => CommittedRow::Live,
        Some((_, BeforeImage::Other)) => CommittedRow::Live,
        None => CommittedRow::Live,
    }
}

// The row that lies beside a place, if one does.
fn row_beside<'a>(
    holds: &'a Holds<BeforeImage>,
    table: TableId,
    key: &Key,
) -> Option<&'a Option<Row>>
    requires { BeforeImageFits (holds_of holds.now) }
    ensures row { IfSome result (λ row. (xid : ℕ) × Contains (holds_of holds.now xid) (RowCell table key.now, BeforeImageRow row.now)) }
    ensures none { IfNone result (HasNoRowBeside (holds_of holds.now) table key.now) }
{
    match holds.held_at(&SoughtRow { table, key }) {
        Some((_, BeforeImage::Row(row))) => Some(row),
        Some((_, BeforeImage::Wiped(_))) => None,
        Some((_, BeforeImage::Other)) => None,
        None => None,
    }
}

/// The cells of a change, which nobody else holds, each with what is to lie beside it, by the rows before
/// the change. `count` is how many inverses the transaction has before it.
pub(crate) fn with_before_images(
    alloc: Global,
    source: RowSource<'_>,
    holds: &Holds<BeforeImage>,
    count: usize,
    cells: Vec<Cell>,
) -> Result<Vec<(Cell, BeforeImage)>, OutOfMemory>
    requires known { All (λ cell. CanRead source (table_of cell)) cells.items }
    ensures cells { IfOk result (λ more. keys_of more.items ≡ cells.items) }
    ensures stand { IfOk result (λ more. (xid : ℕ) → All (IsFreeCell (cells_held holds.now) xid) cells.items
        → AreToStand (row_read source.entry) count (cells_held holds.now xid) more.items) }
{
    let mut more = Vec::new(alloc);
    for cell in cells {
        let before_image = before_image_of(source, holds, count, &cell)?;
        more.push((cell, before_image))?;
    }
    Ok(more)
}

// What is to lie beside a cell: beside a place the row that is read there, but nothing if its transaction
// holds the place, or the table as a whole.
fn before_image_of(
    source: RowSource<'_>,
    holds: &Holds<BeforeImage>,
    count: usize,
    cell: &Cell,
) -> Result<BeforeImage, OutOfMemory>
    requires known { CanRead source (table_of cell.now) }
    ensures { IfOk result (λ before_image. (xid : ℕ) → IsFreeCell (cells_held holds.now) xid cell.now
        → (Contains (cells_held holds.now xid) cell.now → ⊥) → IsToStand (row_read source.entry) count (cells_held holds.now xid) cell.now before_image) }
{
    match cell {
        Cell::Whole(_) => Ok(BeforeImage::Wiped(count)),
        Cell::Uniq(_, _, _) => Ok(BeforeImage::Other),
        Cell::Row(table, key) => {
            if holds.held_at(cell).is_some() || holds.held_at(&Cell::Whole(*table)).is_some() {
                return Ok(BeforeImage::Other);
            }
            match source.row(*table, key) {
                Some(row) => Ok(BeforeImage::Row(Some(row.to_row()?))),
                None => Ok(BeforeImage::Row(None)),
            }
        }
    }
}
