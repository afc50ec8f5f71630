// What a lock hides.
use std::sync::Wait;

/// Never returns. It stands where what lies under a lock would not be what was laid there: an outbox of
/// another worker, another worker's job, no job where one was given. A lock hides all but its value's
/// type, so no clause rules these out; the numbers are compared, and this is the one place for them.
pub fn wait_for_ever<R: Wait>(rt: &R) -> ! {
    for _ in rt.forever() {}
    unreachable!()
}
