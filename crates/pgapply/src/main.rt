// Applies a PostgreSQL logical replication stream to tables, and prints what they have in the end.
//
//     pgapply apply  --config F --stream F [--workers N] [--ring N] [OPTIONS]
//     pgapply follow --config F --connect A [--workers N] [--ring N] [OPTIONS]
//     pgapply replay --config F --stream F [OPTIONS]
//
// OPTIONS are [--spool N] [--skip H/L] [--verbose] [--progress].
//
// Faults are found in this order: the command line, the catalog file, the stream file or the connection,
// the catalog, the run, the output. `pgapply_command` has what each command runs on what it opened: `apply` and
// `follow` with workers that apply streamed transactions while they come, `replay` without threads. This
// file opens files and connections, and prints. With `--verbose` or `--progress` the stream passes a
// `Trace` on its way to the run: the run and its report are the same, and what is said beside them goes to
// standard error.
#![tactic(auto)]

use frames::{ReadSource, Source, WriteSink};
use leader::Devices;
use pgapply_command::account::Account;
use pgapply_command::execute::{Hearer, Nobody, execute_on};
use pgapply_command::mistake::find_mistake;
use pgapply_command::open::{Looks, Open};
use pgapply_command::options::{Input, Options, parse};
use pgapply_command::output::{Failure, print, say_failure};
use pgapply_command::progress::Progress;
use pgapply_command::stream::{RECVLOGICAL, Stream, Updates, begins_as_recvlogical};
use pgapply_command::system::SystemClock;
use std::fs::File;
use std::io;
use std::io::{BufReader, Read};
use std::process::ExitCode;
use std::random::RandomSource;
use std::sync::Wait;
use std::thread::Threads;
use tcp::Connection;
use trace::{Trace, Watched};

fn main(rt: HostRuntime) -> anyhow::Result<ExitCode> {
    let words: Vec<String> = std::env::args(&rt)?.collect(rt.alloc())?;
    match parse(rt.alloc(), words.as_slice()) {
        Ok(options) => Ok(ExitCode::from(run(&rt, &rt, &options)?)),
        Err(error) => {
            error.print(&rt)?;
            Ok(ExitCode::from(if error.use_stderr() { 1 } else { 0 }))
        }
    }
}

/// Runs a command and prints what it says. It answers the exit status. Workers are started by `threads`,
/// which is the runtime too.
fn run<T: Threads + Wait + RandomSource + Sync>(
    rt: &HostRuntime,
    threads: &T,
    options: &Options<'_>,
) -> io::Result<u8> {
    let catalog = match std::fs::read(rt, options.catalog) {
        Ok(catalog) => catalog,
        Err(error) => {
            let failure = Failure::Open(options.catalog);
            return say_failure(rt, options.verbose, failure, &error);
        }
    };
    let catalog = catalog.as_slice();
    match options.input {
        Input::File(path) => match open_stream(rt, path) {
            Ok(stream) => {
                let stream = Stream::File(stream);
                let status = run_stream(rt, threads, options, catalog, stream, Updates::Nowhere)?;
                if status == 2 && is_of_recvlogical(rt, path) {
                    eprintln!(rt;
                        "pgapply: {path} is of pg_recvlogical, which leaves the frames out: take publisher capture"
                    )?;
                }
                Ok(status)
            }
            Err(error) => say_failure(rt, options.verbose, Failure::Open(path), &error),
        },
        Input::Stdin => {
            let stream = Stream::Stdin(rt.stdin());
            run_stream(rt, threads, options, catalog, stream, Updates::Nowhere)
        }
        Input::Connection(address) => match connect(rt, address) {
            Ok((stream, updates)) => run_stream(rt, threads, options, catalog, stream, updates),
            Err(error) => say_failure(rt, options.verbose, Failure::Connect(address), &error),
        },
    }
}

/// The file of a stream. A directory can be opened too, and is none.
fn open_stream(rt: &HostRuntime, path: &str) -> io::Result<File> {
    let file = File::open(rt, path)?;
    if file.metadata()?.is_dir() {
        return Err(io::ErrorKind::IsADirectory.into());
    }
    Ok(file)
}

/// Whether a file begins as one of pg_recvlogical does.
fn is_of_recvlogical(rt: &HostRuntime, path: &str) -> bool {
    let mut front = [0; RECVLOGICAL];
    match File::open(rt, path).and_then(|mut file| file.read_exact(&mut front)) {
        Ok(()) => begins_as_recvlogical(&front),
        Err(_) => false,
    }
}

/// What comes over a connection, and where its status updates go.
fn connect(rt: &HostRuntime, address: &str) -> io::Result<(Stream, Updates)> {
    let (read, written) = Connection::open(rt, address)?.into_ends()?;
    Ok((Stream::Connection(read), Updates::Connection(written)))
}

/// `run` of a stream that is open, and its status updates.
fn run_stream<T: Threads + Wait + RandomSource + Sync>(
    rt: &HostRuntime,
    threads: &T,
    options: &Options<'_>,
    catalog: &[u8],
    stream: Stream,
    updates: Updates,
) -> io::Result<u8> {
    let sink = WriteSink::new(updates);
    if options.verbose || options.progress {
        let source = ReadSource::new(BufReader::new(rt.alloc(), stream)?);
        return run_watched(rt, threads, options, catalog, source, sink);
    }
    let devices = Devices::new(ReadSource::new(stream), sink, SystemClock::new(rt));
    run_over(rt, threads, options, catalog, devices, &mut Nobody)
}

/// `run_stream` of a stream that is watched, with lines on standard error behind the report.
fn run_watched<T: Threads + Wait + RandomSource + Sync>(
    rt: &HostRuntime,
    threads: &T,
    options: &Options<'_>,
    catalog: &[u8],
    source: ReadSource<BufReader<Stream>>,
    sink: WriteSink<Updates>,
) -> io::Result<u8> {
    let mut trace = Trace::new(rt.alloc());
    let mut looks = Looks {
        progress: Progress::new(rt.clone()?, options.progress),
        open: Open::new(rt.alloc()),
    };
    let mut account = Account::new(rt.alloc(), options.config.skip);
    let watched = Watched::new(source, &mut trace, &mut looks, options.verbose);
    let devices = Devices::new(watched, sink, SystemClock::new(rt));
    let status = run_over(rt, threads, options, catalog, devices, &mut account)?;
    looks.progress.say(&trace);
    if options.verbose {
        if let Some(count) = looks.open.count(status == 0) {
            let _added = account.add_open(count);
        }
        if status >= 2 {
            // Without memory the place is not said.
            let _added = account.add_place(&trace);
        }
        let text = account.text();
        eprint!(rt; "{text}")?;
    }
    Ok(status)
}

/// Runs what the options ask for over these devices, tells the hearer why it ended, and prints.
fn run_over<T: Threads + Wait + RandomSource + Sync, S: Source + Drop, H: Hearer>(
    rt: &HostRuntime,
    threads: &T,
    options: &Options<'_>,
    catalog: &[u8],
    mut devices: Devices<S, WriteSink<Updates>, SystemClock<'_, HostRuntime>>,
    hearer: &mut H,
) -> io::Result<u8> {
    let mut out = Vec::new(rt.alloc());
    let ended = execute_on(
        threads,
        rt.alloc(),
        options.spooled,
        &options.config,
        catalog,
        &mut devices,
        hearer,
        &mut out,
    );
    let status = print(rt, options.verbose, &mut rt.stdout(), out.as_slice(), ended)?;
    if ended.status == 1 {
        say_mistake(rt, catalog)?;
    }
    Ok(status)
}

/// Says where a catalog has its fault.
fn say_mistake(rt: &HostRuntime, catalog: &[u8]) -> io::Result<()> {
    match find_mistake(rt.alloc(), catalog) {
        Ok(Some(mistake)) => eprintln!(rt; "pgapply: {mistake}"),
        // Without memory it isn't found.
        Ok(None) | Err(_) => Ok(()),
    }
}
