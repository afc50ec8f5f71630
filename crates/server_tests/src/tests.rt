// The files, and what each tests or gives the others.
//
//   catalogs   `publication`
//   events     `server`, what is said of events
//   lines      `server`, questions and their rows
//   logins     `server`, logging in
//   loopback   `server`, over sockets of this machine
//   options    `publisher_command`
//   refusals   `server`, what a login, a question and a stream make of other answers
//   relays     `server`, the stream
//   copies     `server`, rows that are there as a slot is made, and what of a file can be kept
//   script     a line in memory: what the server says is written before
//   services   `server`, whole services and their followers
//   slots      `server`, what commands leave of slots and files
//   uris       `publisher_command`, connection URIs and password files
//   vectors    `server`, hashes and SCRAM
mod catalogs;
mod copies;
mod events;
mod lines;
mod logins;
mod loopback;
mod options;
mod refusals;
mod relays;
mod script;
mod services;
mod slots;
mod uris;
mod vectors;

use std::process::{Abort, Termination};
use std::test::Fail;

/// What a step of a test gives. One that failed says why, and ends the process: each way out of a test is
/// dear to check, beside all that would have to be dropped there.
trait OrFail {
    type Value;

    fn or_fail<R: Abort + Eprint>(self, rt: &R) -> Self::Value;
}

impl<T, E> OrFail for Result<T, E>
where
    Fail: From<E>,
{
    type Value = T;

    fn or_fail<R: Abort + Eprint>(self, rt: &R) -> T {
        match self {
            Ok(value) => value,
            Err(error) => {
                let _told = Err::<(), Fail>(Fail::from(error)).report(rt);
                panic!(rt; "a step of the test failed")
            }
        }
    }
}
