// What a lock hides.
use std::sync::Wait;

/// Never returns. It stands where what lies under a lock would not be what was laid there, as the
/// part of another table, or none. A lock hides all but its value's type, so no clause rules these
/// out; the numbers are compared, and this is the one place for them.
pub(crate) fn wait_for_ever<R: Wait>(rt: &R) -> ! {
    for _ in rt.forever() {}
    unreachable!()
}
