// What a store reads, by its tables, its holds and its journal. Each function does nothing: its
// contract is a law, and the check of this crate proves it.
ghost use Rattle.live_tables.specs.ReadStatements.{FreeRowIsCommitted, HeldRowIsCommitted, WipedRowIsCommitted, EachFits, SharedIsHeld, StartKeepsBeforeImages, OpenKeepsBeforeImages, DoneKeepsBeforeImages, SkipKeepsBeforeImages, TouchKeepsBeforeImages, SameKeepsBeforeImages, RollbackKeepsBeforeImages, AbortKeepsBeforeImages, CommitKeepsBeforeImages, StopKeepsBeforeImages, WaitsLiveTells, PassesLiveTells, WaitingIsLive, StopIsFound, StopIsRefused, EntriesAreSerial, BeforeImageIsHeld, CellsAreKnown};

/// The live row at a place that nobody holds is the committed one.
pub fn free_row_is_committed()
    ensures { FreeRowIsCommitted }
{}

/// The row that lies beside a held place is the committed one.
pub fn held_row_is_committed()
    ensures { HeldRowIsCommitted }
{}

/// Where a table is held as a whole, and no row lies beside the place, the inverse with the table's
/// number has the committed row.
pub fn wiped_row_is_committed()
    ensures { WipedRowIsCommitted }
{}

/// What lies beside each cell fits it.
pub fn each_fits()
    ensures { EachFits }
{}

/// With no transaction open nothing is asked.
pub fn start_keeps_before_images()
    ensures { StartKeepsBeforeImages }
{}

/// A transaction opens and holds nothing.
pub fn open_keeps_before_images()
    ensures { OpenKeepsBeforeImages }
{}

/// A change is done, and its cells are held too: each place that its transaction didn't hold yet with
/// the live row, which is the committed one, each table with the number of the inverse that empties it.
pub fn done_keeps_before_images()
    ensures { DoneKeepsBeforeImages }
{}

/// A change is skipped, and the place that it looked up is held.
pub fn skip_keeps_before_images()
    ensures { SkipKeepsBeforeImages }
{}

/// A touch.
pub fn touch_keeps_before_images()
    ensures { TouchKeepsBeforeImages }
{}

/// A call that is refused, and a change that waits or clashed.
pub fn same_keeps_before_images()
    ensures { SameKeepsBeforeImages }
{}

/// A rollback lets go the cells taken since the savepoint; those before it still have the committed
/// rows beside them.
pub fn rollback_keeps_before_images()
    ensures { RollbackKeepsBeforeImages }
{}

/// An abort leaves what the others hold.
pub fn abort_keeps_before_images()
    ensures { AbortKeepsBeforeImages }
{}

/// So does a commit, over other committed rows.
pub fn commit_keeps_before_images()
    ensures { CommitKeepsBeforeImages }
{}

/// So does the call that stops a world in which all wait.
pub fn stop_keeps_before_images()
    ensures { StopKeepsBeforeImages }
{}

/// An open transaction that waits by the live tables and the holds waits so in the world.
pub fn waits_live_tells()
    ensures { WaitsLiveTells }
{}

/// One that waits for nobody by them waits for nobody.
pub fn passes_live_tells()
    ensures { PassesLiveTells }
{}

/// One that waits in the world waits by them, perhaps for another.
pub fn waiting_is_live()
    ensures { WaitingIsLive }
{}

/// The call that stops a world answers a holder by the tables and the holds alone.
pub fn stop_is_found()
    ensures { StopIsFound }
{}

/// So it answers that not all is settled.
pub fn stop_is_refused()
    ensures { StopIsRefused }
{}

/// The rows after entries are those after all their changes, one after another.
pub fn entries_are_serial()
    ensures { EntriesAreSerial }
{}

/// The cells alone of what is held are those that the laws of holds ask for.
pub fn before_image_is_held()
    ensures { BeforeImageIsHeld }
{}

/// The cells of a change lie in the tables that it names.
pub fn cells_are_known()
    ensures { CellsAreKnown }
{}

/// Another open transaction with a cell that one of these overlaps has one of them; where no other
/// open one has, all are free.
pub fn shared_is_held()
    ensures { SharedIsHeld }
{}
