// The laws of cells, changes and rollbacks. Each function does nothing: its contract is a law, over
// all rows and all changes, and the check of this crate proves it.
ghost use Rattle.model.specs.CellStatements.{OverlapsEitherWay, FootprintByLookedUp, LookedUpIsInFootprint, KeptValueIsFree, LeavesOtherCells, SameOutcome, SameInverse, SameStays, ChangesCommute, ListsCommute, ListsKeepTheirs, UndonePastOthers, RollbackCuts, TopCutsNothing};

/// Cells overlap either way.
pub fn overlaps_either_way()
    ensures { OverlapsEitherWay }
{}

/// A footprint depends on the looked-up row alone.
pub fn footprint_by_looked_up()
    ensures { FootprintByLookedUp }
{}

/// Whoever holds a cell of the looked-up row holds one of the footprint.
pub fn looked_up_is_in_footprint()
    ensures { LookedUpIsInFootprint }
{}

/// A unique value that an update keeps is not in its footprint.
pub fn kept_value_is_free()
    ensures { KeptValueIsFree }
{}

/// A change leaves each cell that none of its footprint overlaps.
pub fn leaves_other_cells()
    ensures { LeavesOtherCells }
{}

/// Where valid rows are the same in a change's footprint, its outcome is the same.
pub fn same_outcome()
    ensures { SameOutcome }
{}

/// So is its inverse.
pub fn same_inverse()
    ensures { SameInverse }
{}

/// What else was the same before it is the same after it.
pub fn same_stays()
    ensures { SameStays }
{}

/// Two changes that share no cell come in either order.
pub fn changes_commute()
    ensures { ChangesCommute }
{}

/// Two lists of changes that share no cell come in either order.
pub fn lists_commute()
    ensures { ListsCommute }
{}

/// What a list holds, and what takes it back, don't move past one that shares no cell with it.
pub fn lists_keep_theirs()
    ensures { ListsKeepTheirs }
{}

/// The inverses of changes, put back past others that share no cell with them, leave the others'
/// work.
pub fn undone_past_others()
    ensures { UndonePastOthers }
{}

/// A rollback of a subtransaction cuts the survivors before their first item that names it.
pub fn rollback_cuts()
    ensures { RollbackCuts }
{}

/// One to the top transaction cuts nothing.
pub fn top_cuts_nothing()
    ensures { TopCutsNothing }
{}
