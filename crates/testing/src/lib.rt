// What the tests of several crates share. No program stands on it.
//
//   asserts    assertions, whose failure is the test's result
//   accounts   the table of most tests: its catalog, the relation that a publisher sends of it, and a report
//              of a thousand rows
//   devices    a source that gives a stream in pieces and a sink that keeps what it takes, which fail where
//              a test wants it
//
// It stands on `frames` for the traits of the devices, and on std.
#![tactic(auto)]

pub mod accounts;
pub mod asserts;
pub mod devices;
