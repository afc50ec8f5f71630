#![tactic(auto)]

// The command line of the program `mirror`, and what it says on standard error.
//
// Each call is safe and returns; no clause says a text.
//
//   options   the command line, with its limits and defaults
//   events    what is said as it happens
//
// It stands on `pgapply_command` for where a stream comes from, on `mirror_run` for what is told, and on
// the kit's `clap` and `jiff`.
pub mod events;
pub mod options;
