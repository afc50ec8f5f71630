// The laws of worlds and calls. Each function does nothing: its contract is a law, mostly over every
// world that calls reach from valid rows, and the check of this crate proves it.
ghost use Rattle.world.specs.Statements.{SeesNoOthers, ListedInAnyOrder, OneLiveState, LiveIsValid, NoLiveChangeClashes, CommittedIsSerial, AloneIsSerial, NotedClashStands, FootprintOnLive, OutcomeOnLive, DoneComesLast, RollbackKeepsTheRest, LineGrows, UnheldIsCommitted, CommitLeavesOtherCells, LiveAfterOpen, LiveAfterDone, LiveAfterSkip, LiveAfterHeld, LiveAfterClash, LiveAfterTouch, LiveAfterRollback, RollbackLeavesBeginning, LiveAfterAbort, LiveAfterCommit, CommitMovesNoHolds, BackIsValid, HeldIsLive};

/// An open transaction sees the same whatever others are open.
pub fn sees_no_others()
    ensures { SeesNoOthers }
{}

/// The open transactions can be listed in any order.
pub fn listed_in_any_order()
    ensures { ListedInAnyOrder }
{}

/// Every listing of them gives the same live rows.
pub fn one_live_state()
    ensures { OneLiveState }
{}

/// The live rows are valid.
pub fn live_is_valid()
    ensures { LiveIsValid }
{}

/// No change clashes on the way to them.
pub fn no_live_change_clashes()
    ensures { NoLiveChangeClashes }
{}

/// The committed rows are the commits' changes, one after another in commit order.
pub fn committed_is_serial()
    ensures { CommittedIsSerial }
{}

/// With no transaction open, the live rows are these.
pub fn alone_is_serial()
    ensures { AloneIsSerial }
{}

/// What clashed and was noted clashes still.
pub fn noted_clash_stands()
    ensures { NotedClashStands }
{}

/// Where the looked-up row is free of others, a change's footprint on the live rows is that on its
/// transaction's view.
pub fn footprint_on_live()
    ensures { FootprintOnLive }
{}

/// Where all of its footprint is free, so are its outcome and its inverse.
pub fn outcome_on_live()
    ensures { OutcomeOnLive }
{}

/// What one more change holds, and what takes it back, come last.
pub fn done_comes_last()
    ensures { DoneComesLast }
{}

/// A rollback leaves a beginning of its transaction's changes.
pub fn rollback_leaves_beginning()
    ensures { RollbackLeavesBeginning }
{}

/// And beginnings of what these hold, and of what takes them back.
pub fn rollback_keeps_the_rest()
    ensures { RollbackKeepsTheRest }
{}

/// An open leaves the live rows.
pub fn live_after_open()
    ensures { LiveAfterOpen }
{}

/// A change that is done has its effect on them.
pub fn live_after_done()
    ensures { LiveAfterDone }
{}

/// One that is skipped leaves them.
pub fn live_after_skip()
    ensures { LiveAfterSkip }
{}

/// So does one that is held.
pub fn live_after_held()
    ensures { LiveAfterHeld }
{}

/// So does one that clashes.
pub fn live_after_clash()
    ensures { LiveAfterClash }
{}

/// So does a touch.
pub fn live_after_touch()
    ensures { LiveAfterTouch }
{}

/// The inverses of what a rollback drops, put back past all that others did, give those of what is
/// left.
pub fn live_after_rollback()
    ensures { LiveAfterRollback }
{}

/// An abort takes the transaction's changes back, and leaves the others'.
pub fn live_after_abort()
    ensures { LiveAfterAbort }
{}

/// A commit leaves the live rows.
pub fn live_after_commit()
    ensures { LiveAfterCommit }
{}

/// It moves nobody's holds, nor what takes their changes back.
pub fn commit_moves_no_holds()
    ensures { CommitMovesNoHolds }
{}

/// What nobody holds is as committed.
pub fn unheld_is_committed()
    ensures { UnheldIsCommitted }
{}

/// A commit leaves what its transaction doesn't hold.
pub fn commit_leaves_other_cells()
    ensures { CommitLeavesOtherCells }
{}

/// No call takes a commit away.
pub fn line_grows()
    ensures { LineGrows }
{}

/// The live rows with the last changes of a transaction undone are valid: so they are at each step
/// of a rollback.
pub fn back_is_valid()
    ensures { BackIsValid }
{}

/// A row whose place a transaction holds stands on the live rows as on its own view.
pub fn held_is_live()
    ensures { HeldIsLive }
{}
