// The laws of what is held once cells are taken. Each function does nothing: its contract is a law,
// and the check of this crate proves it.
ghost use Rattle.keyholds.specs.Statements.{TakingAddsCells, TakingKeepsHeld, TakingAddsEach, TakingKeepsApart};

/// Once cells were taken, a cell is held exactly where it was held before or is among them.
pub fn taking_adds_the_cells<S>()
    ensures { TakingAddsCells S }
{}

/// What was held before is the front of what is held then, so a release to its length gives it back.
pub fn taking_keeps_what_is_held<S>()
    ensures { TakingKeepsHeld S }
{}

/// Each that is held then was held before, or is one of those taken, behind all that was held, and
/// no cell before it is the same.
pub fn taking_adds_each<S>()
    ensures { TakingAddsEach S }
{}

/// All stay apart where a transaction takes cells that are free for it.
pub fn taking_keeps_apart()
    ensures { TakingKeepsApart }
{}
