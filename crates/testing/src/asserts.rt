// Assertions for `?` in a test: one that fails is the test's result, so nothing here ends the process. A
// test that calls them is proved in a tenth of the time of one that has `assert_eq!` in its own body.
ghost use Rattle.std.specs.Prelude.{◌≡◌, true, false, OnOk, OnErr};

use std::fmt::{Debug, Display};
use std::test::Fail;

/// Asserts that what was found is what is wanted, in this case of several.
pub fn assert_same<T: Copy + PartialEq + Debug, C: Copy + Display>(
    found: T,
    want: T,
    case: C,
) -> Result<(), Fail>
    ensures ok { OnOk result (T.eq found want ≡ true) }
    ensures err { OnErr result (T.eq found want ≡ false) }
{
    if found == want {
        return Ok(());
    }
    Err(Fail::new(format_args!("{case}: {found:?}, and not {want:?}")))
}

/// Asserts a fact, in this case of several.
pub fn assert_holds<C: Copy + Display>(fact: bool, case: C) -> Result<(), Fail>
    ensures ok { OnOk result (fact ≡ true) }
    ensures err { OnErr result (fact ≡ false) }
{
    if fact {
        return Ok(());
    }
    Err(Fail::new(case))
}
