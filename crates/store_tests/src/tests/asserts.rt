// Assertions that are proved once, a tenth of what `assert_eq!` takes in a test's own body. They end the
// process where they fail: calls to which memory may be refused have no failure of a test to hand on, and
// threads may wait for the one that failed.
ghost use Rattle.std.specs.Prelude.{◌≡◌, true};

use std::fmt::Debug;
use std::process::Abort;

/// Asserts that what was found is what is wanted, in this case of several.
pub fn assert_same<T: Copy + PartialEq + Debug, C: Copy + Debug>(
    rt: &impl Abort,
    found: T,
    want: T,
    case: C,
)
    ensures { T.eq found want ≡ true }
{
    assert!(rt; found == want, "{case:?}: {found:?}, and not {want:?}");
}

/// Asserts a fact, in this case of several.
pub fn assert_holds<C: Copy + Debug>(rt: &impl Abort, fact: bool, case: C)
    ensures { fact ≡ true }
{
    assert!(rt; fact, "{case:?}");
}
