// Cells are let go, and what they leave empty in the tables is given up.
ghost use Rattle.std.specs.Prelude.{◌≡◌, ◌≢◌, ℕ, take};
ghost use Rattle.keyholds.specs.Holds.{holds_of, cells_held};
ghost use Rattle.undo.specs.Others.{HasRoomForAll};
ghost use Rattle.live_tables.specs.Released.{IsLetGo, IsAlone, HasReleased};

use crate::before_image::BeforeImage;
use indexes::Tables;
use keyholds::Holds;
use model::{Cell, Xid};

/// Lets go the cells that a transaction holds past so many, the last of them first. Each is given up
/// in the tables where no row fills it, unless the transaction held one that overlaps it before. It
/// takes no memory.
pub(crate) fn let_go(tables: &mut Tables, holds: &mut Holds<BeforeImage>, xid: Xid, mark: usize)
    ensures own { holds_of holds.new xid ≡ take mark (holds_of holds.old xid) }
    ensures others { (other : ℕ) → other ≢ xid → holds_of holds.new other ≡ holds_of holds.old other }
    ensures released { HasReleased (IsLetGo mark (cells_held holds.old xid)) tables.old tables.new }
    ensures room { HasRoomForAll tables.new }
{
    while let Some(cell) = holds.release_last(xid, mark) {
        release_unless_held(tables, holds, xid, &cell);
    }
    tables.recall_invariant();
}

// Gives up a cell that no row fills, unless the transaction holds one that overlaps it.
fn release_unless_held(tables: &mut Tables, holds: &Holds<BeforeImage>, xid: Xid, cell: &Cell)
    ensures { HasReleased (IsAlone (cells_held holds.now xid) cell.now) tables.old tables.new }
{
    if !holds.overlaps_one(xid, cell) {
        tables.release(cell);
    }
}
