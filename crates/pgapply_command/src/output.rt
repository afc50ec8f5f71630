// What a command writes at its end: the report, or why it can't go on.
use crate::execute::Ended;
use std::io;
use std::io::Write;

/// What a command can't do.
#[derive(Clone, Copy, Debug, PartialEq, Eq)]
pub enum Failure<'a> {
    /// Open this file, or read the catalog in it.
    Open(&'a str),
    /// Connect to this address.
    Connect(&'a str),
    /// Write its report.
    Write,
}

/// Says on standard error what a command can't do, and behind it the system's reason where `--verbose`
/// asks for it. It answers the exit status.
pub fn say_failure<H: Eprint>(
    host: &H,
    verbose: bool,
    failure: Failure<'_>,
    error: &io::Error,
) -> io::Result<u8> {
    match failure {
        Failure::Open(path) => eprintln!(host; "pgapply: cannot open {path}")?,
        Failure::Connect(address) => eprintln!(host; "pgapply: cannot connect {address}")?,
        Failure::Write => eprintln!(host; "pgapply: cannot write")?,
    }
    if verbose {
        eprintln!(host; "pgapply: {error}")?;
    }
    Ok(1)
}

/// Writes a report to standard output, and the line for standard error. It answers the exit status.
pub fn print<H: Eprint, W: Write>(
    host: &H,
    verbose: bool,
    stdout: &mut W,
    report: &[u8],
    ended: Ended,
) -> io::Result<u8> {
    if let Err(error) = stdout.write_all(report).and_then(|_| stdout.flush()) {
        return say_failure(host, verbose, Failure::Write, &error);
    }
    if !ended.line.is_empty() {
        let line = ended.line;
        eprintln!(host; "{line}")?;
    }
    Ok(ended.status)
}
