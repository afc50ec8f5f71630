// What runs leave that go on one behind another. The function does nothing: its contract is a law, and
// the check of this crate proves it.
ghost use Rattle.mirror_laws.specs.Statements.{GoesOn};

/// A run from the rows that another left leaves what one run with the commits of both leaves.
pub fn goes_on()
    ensures { GoesOn }
{}
