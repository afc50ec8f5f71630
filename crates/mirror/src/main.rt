// Keeps the tables of a PostgreSQL logical replication stream in a SQLite file, exact at each
// commit.
//
//     mirror --config F (--connect A | --stream F) --into F [--json F] [--publish F] [OPTIONS]
//     mirror --config F (--connect A | --stream F) --json F [OPTIONS]
//
// The first run of the stream begins with the tables of the file, and each commit is written to the
// file with its position, in one transaction of SQLite (several commits in one where they come
// fast); where lines of JSON are asked for, they are written before. A status update goes back to
// the sender only for what lies there. Where a connection ends it is made again.
//
// This crate opens files and connections; `mirror_run` has the run, `mirror_file` what stands in
// the file, and `mirror_command` the command line and what is said.
#![tactic(auto)]

mod input;
mod lines;
mod publishing;
mod rounds;
mod target;

use catalog::Catalog;
use leader::CatalogFault;
use mirror_command::events::{Event, say};
use mirror_command::options::{Options, parse};
use rounds::follow;
use std::process::ExitCode;
use std::random::RandomSource;
use std::sync::Wait;
use std::thread::Threads;
use target::Target;

fn main(rt: HostRuntime) -> anyhow::Result<ExitCode> {
    let words: Vec<String> = std::env::args(&rt)?.collect(rt.alloc())?;
    match parse(rt.alloc(), words.as_slice()) {
        Ok(options) => Ok(ExitCode::from(run(&rt, &rt, &options))),
        Err(error) => {
            error.print(&rt)?;
            Ok(ExitCode::from(if error.use_stderr() { 1 } else { 0 }))
        }
    }
}

/// Runs what the options ask for. It answers the exit status. Workers are started by `threads`,
/// which is the runtime too.
fn run<T: Threads + Wait + RandomSource + Sync>(
    rt: &HostRuntime,
    threads: &T,
    options: &Options<'_>,
) -> u8 {
    let catalog = match read_catalog(rt, options.catalog) {
        Ok(catalog) => catalog,
        Err(status) => return status,
    };
    let (mut target, start) = match Target::open(rt, options, &catalog) {
        Ok(opened) => opened,
        Err(status) => return status,
    };
    let status = follow(rt, threads, options, &mut target, start);
    target.close(rt, options, status)
}

/// The catalog in a file; or the exit status, where it was refused.
fn read_catalog(rt: &HostRuntime, path: &str) -> Result<Catalog, u8> {
    let bytes = match std::fs::read(rt, path) {
        Ok(bytes) => bytes,
        Err(error) => {
            say(rt, Event::NotOpened(path, &error));
            return Err(1);
        }
    };
    let read = match std::str::from_utf8(bytes.as_slice()) {
        Ok(text) => Catalog::read(rt.alloc(), text),
        Err(_) => Err(CatalogFault::NotToml),
    };
    read.map_err(|fault| {
        say(rt, Event::Refused(fault));
        1
    })
}
