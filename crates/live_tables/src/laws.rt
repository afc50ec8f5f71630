// What a store keeps through its calls. Each function does nothing: its contract is a law, and the
// check of this crate proves it.
ghost use Rattle.live_tables.specs.Statements.{StartIsKept, OpenIsKept, DoneIsKept, SkipIsKept, HeldIsKept, ClashIsKept, TouchIsKept, RefusalIsKept, UndoIsReady, RollbackIsKept, AbortIsKept, CommitIsKept, HoldsTellTheWorld, OpenIsHeld, TakenIsHeld, SameIsHeld, AbortIsHeld, CommitIsHeld, ItemKeepsMarks, RollbackKeepsMarks, RollbackIsHeld, CommitKeepsMarks, StopIsKept, RowIsLive, AloneIsCommitted};

/// With no transaction open the tables are the world that starts from them.
pub fn start_is_kept()
    ensures { StartIsKept }
{}

/// A transaction opens.
pub fn open_is_kept()
    ensures { OpenIsKept }
{}

/// A change is done. The live tables alone were asked, the cell of the looked-up row first and
/// then all cells of the change: so the call is the one of the transaction's own view.
pub fn done_is_kept()
    ensures { DoneIsKept }
{}

/// A change is skipped, found so in the same way.
pub fn skip_is_kept()
    ensures { SkipIsKept }
{}

/// Another transaction holds a cell of a change, found on the live tables.
pub fn held_is_kept()
    ensures { HeldIsKept }
{}

/// A change clashes, found on the live tables, and stops the world.
pub fn clash_is_kept()
    ensures { ClashIsKept }
{}

/// A subtransaction is named by an item that changes no row.
pub fn touch_is_kept()
    ensures { TouchIsKept }
{}

/// A call that is refused leaves the world, and perhaps more room.
pub fn refusal_is_kept()
    ensures { RefusalIsKept }
{}

/// Each open transaction can be rolled back to each of its savepoints, aborted and settled,
/// whatever the others have done: all that these ask for is there.
pub fn undo_is_ready()
    ensures { UndoIsReady }
{}

/// A rollback of a subtransaction, past all that others did.
pub fn rollback_is_kept()
    ensures { RollbackIsKept }
{}

/// An abort, past all that others did.
pub fn abort_is_kept()
    ensures { AbortIsKept }
{}

/// A commit: of the slots and entries that it gives up none is one that another's undo needs.
pub fn commit_is_kept()
    ensures { CommitIsKept }
{}

/// What the holds answer is so in the world: cells that are free there are free, and a holder of
/// the first that another has holds one.
pub fn holds_tell_the_world()
    ensures { HoldsTellTheWorld }
{}

/// A transaction that opens holds nothing.
pub fn open_is_held()
    ensures { OpenIsHeld }
{}

/// One whose change was done or skipped holds the change's footprint too.
pub fn taken_is_held()
    ensures { TakenIsHeld }
{}

/// A touch, and a change that a transaction wants, leave what it holds.
pub fn same_is_held()
    ensures { SameIsHeld }
{}

/// One that aborts holds nothing, and the others what they held.
pub fn abort_is_held()
    ensures { AbortIsHeld }
{}

/// So it is where one commits: the others hold what they held, over other committed rows.
pub fn commit_is_held()
    ensures { CommitIsHeld }
{}

/// The mark of a savepoint that an item sets tells what was held there, and those set before it
/// still do.
pub fn item_keeps_marks()
    ensures { ItemKeepsMarks }
{}

/// So do those that a rollback leaves, over the cells held at its savepoint.
pub fn rollback_keeps_marks()
    ensures { RollbackKeepsMarks }
{}

/// After a rollback that lets go the cells taken since the savepoint, the transaction holds the
/// cells of what is left of its work.
pub fn rollback_is_held()
    ensures { RollbackIsHeld }
{}

/// Others' commits leave what the marks tell.
pub fn commit_keeps_marks()
    ensures { CommitKeepsMarks }
{}

/// The call that stops a world in which all wait leaves the store and its holds.
pub fn stop_is_kept()
    ensures { StopIsKept }
{}

/// The row of the tables at a place is that of the live rows, in every order of the open
/// transactions.
pub fn row_is_live()
    ensures { RowIsLive }
{}

/// With no transaction open the tables are the commits' surviving changes, one transaction at a
/// time in commit order.
pub fn alone_is_committed()
    ensures { AloneIsCommitted }
{}
