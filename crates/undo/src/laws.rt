// The laws of undoing. Each function does nothing: its contract is a law, over all tables, and the
// check of this crate proves it.
ghost use Rattle.undo.specs.Statements.{AppliedCanBeUndone, MoreRoomCanBeUndone, PastChangeCanBeUndone, PastUndoCanBeUndone, PastGoneCanBeUndone, PastSettleCanBeUndone, SettledIsSecured, NeededIsFilled, PastOthersIsLog};

/// What was just applied can be undone, and then what could be before it.
pub fn applied_can_be_undone()
    ensures { AppliedCanBeUndone }
{}

/// What can be undone can be so with more room.
pub fn more_room_can_be_undone()
    ensures { MoreRoomCanBeUndone }
{}

/// What can be undone can be so past another's change that alters no cell of it, wherever the rows
/// are valid at each step of the way back.
pub fn past_change_can_be_undone()
    ensures { PastChangeCanBeUndone }
{}

/// The same past changes of others that are undone.
pub fn past_undo_can_be_undone()
    ensures { PastUndoCanBeUndone }
{}

/// The same past cells that went from the room, if a row fills each of them that is needed.
pub fn past_gone_can_be_undone()
    ensures { PastGoneCanBeUndone }
{}

/// The same past the cells that another gave up at its commit, if a row fills each of them that is
/// needed.
pub fn past_settle_can_be_undone()
    ensures { PastSettleCanBeUndone }
{}

/// What the inverses of changes give up at a commit is held by the changes, or filled by a row whose
/// place they hold.
pub fn settled_is_secured()
    ensures { SettledIsSecured }
{}

/// So what one transaction needs and another gives up is filled by a live row.
pub fn needed_is_filled()
    ensures { NeededIsFilled }
{}

/// The inverses of changes take them back past others that share no cell with them.
pub fn past_others_is_log()
    ensures { PastOthersIsLog }
{}
