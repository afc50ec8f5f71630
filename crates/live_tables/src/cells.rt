// Who is in the way of a change, or which cells it takes.
ghost use Rattle.std.specs.Prelude.{IfOk, length};
ghost use Rattle.model.specs.Named.{NamesTables};
ghost use Rattle.model.specs.Footprint.{looked_up, footprint};
ghost use Rattle.keyholds.specs.Holds.{cells_held};
ghost use Rattle.live_tables.specs.Cells.{IsFound};

use crate::before_image::BeforeImage;
use change::footprint::{footprint, looked_up};
use indexes::Tables;
use keyholds::Holds;
use model::{Cell, Change, OutOfMemory, Xid};
use std::alloc::Global;

/// Who is in the way of a change: nobody, and then these are its cells, or another transaction.
#[derive(Drop)]
pub(crate) enum Found {
    Free(Vec<Cell>),
    Held(Xid),
}

/// Looks for another transaction that holds a cell of a change: first the cell of the row that it
/// looks up, since the others depend on that row, and then all of them.
pub(crate) fn find_cells(
    alloc: Global,
    tables: &Tables,
    holds: &Holds<BeforeImage>,
    xid: Xid,
    c: &Change,
) -> Result<Found, OutOfMemory>
    requires { NamesTables (length tables.now.schema) c.now }
    ensures { IfOk result (IsFound tables.now.schema tables.now.rows (cells_held holds.now) xid c.now) }
{
    if let Some(cell) = looked_up(c)? {
        if let Some(holder) = holds.other_holder(xid, &cell) {
            return Ok(Found::Held(holder));
        }
    }
    let cells = footprint(alloc, tables, c)?;
    match holds.free_for(xid, cells.as_slice()) {
        Some(holder) => Ok(Found::Held(holder)),
        None => Ok(Found::Free(cells)),
    }
}
