// The files, and what each tests or gives the others.
//
//   applied       `mirror_source`, what of a stream is left out, and whose stream it is
//   catalogs      `catalog`
//   connections   `tcp`
//   epochs        `mirror_source`, where an epoch ends, and what it begins with
//   framing       `frames`
//   payloads      `messages`
//   sessions      `session`, and `relcache` through it
//   traces        `trace`
mod applied;
mod catalogs;
mod connections;
mod epochs;
mod framing;
mod hex;
mod payloads;
mod sessions;
mod traces;

use std::process::{Abort, Termination};
use std::test::Fail;

/// What a step of a test gives. One that failed says why, and ends the process: each way out of a test is
/// dear to check, beside all that would have to be dropped there.
trait OrFail {
    type Value;

    fn or_fail<R: Abort + Eprint>(self, rt: &R) -> Self::Value;
}

impl<T, E> OrFail for Result<T, E>
where
    Fail: From<E>,
{
    type Value = T;

    fn or_fail<R: Abort + Eprint>(self, rt: &R) -> T {
        match self {
            Ok(value) => value,
            Err(error) => {
                let _told = Err::<(), Fail>(Fail::from(error)).report(rt);
                panic!(rt; "a step of the test failed")
            }
        }
    }
}
