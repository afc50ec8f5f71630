// What follows of what a reader has seen. The function does nothing: its contract is the law, and the
// check of this crate proves it.
ghost use Rattle.snapshot.specs.Statements.{OnePosition};

/// Each commit ends above the ones before it, so one number of commits ends at a position.
pub fn one_position()
    ensures { OnePosition }
{}
