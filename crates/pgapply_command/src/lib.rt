#![tactic(auto)]

// What a command of `pgapply` does: all of the program but opening what the command line names.
//
// `execute` reads a catalog, runs a stream from empty tables and appends the report. Its contract says
// what a command ends with: a catalog that is refused has its line and status, and nothing was read or
// printed; else the stream was run by as many workers as the command has, and the report of what the run
// left was appended with the status of its end; or memory was refused. `execute_on` says what was read
// and sent too. Somebody may hear why the command ended (`Hearer`), and changes nothing of the answer.
//
// The command line and what is said on standard error are safe, total and tested: no clause says a text.
//
//   execute    what each command runs on what it opened, and how it ends
//   options    the command line, with its limits and defaults
//   account    what `--verbose` says of a command
//   mistake    where a text that is no catalog has its fault
//   open       which transactions are open where a stream stops
//   unmet      how many changes met no row
//   progress   what `--progress` says while a stream is read
//   lsn        LSNs as PostgreSQL writes them
//   output     the report, or why a command can't go on
//   stream     what a stream is read from, and where status updates go
//   system     the system's clock
//
// It stands on `leader` for runs and reports, on `catalog` for what a run's tables are, on `trace` for
// what passes of a stream, on `tcp` for what comes over one, and on the kit's `clap`.
pub mod account;
pub mod execute;
pub mod lsn;
pub mod mistake;
pub mod open;
pub mod options;
pub mod output;
pub mod progress;
pub mod stream;
pub mod system;
mod unmet;
