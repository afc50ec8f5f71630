// What is said on standard error as it happens: a line for each event, with its time.
use jiff::Timestamp;
use leader::{CatalogFault, End, Lsn};
use mirror_file::FileFault;
use mirror_run::Stop;
use std::rt::Clock;
use std::{fmt, io};

/// What happened.
#[derive(Clone, Copy, Debug)]
pub enum Event<'a> {
    /// This file can't be opened.
    NotOpened(&'a str, &'a io::Error),
    /// This file can't be read.
    NotRead(&'a str),
    /// The catalog was refused.
    Refused(CatalogFault),
    /// This file can't be used.
    Unfit(&'a str, &'a FileFault),
    /// The file of this name is at this position.
    Opened(&'a str, Lsn),
    /// The file of this name follows a stream of another system.
    OtherSystem(&'a str),
    /// This address is connected.
    Connected(&'a str),
    /// This address can't be connected.
    NotConnected(&'a str, &'a io::Error),
    /// A run has ended, and what it kept is at this position.
    Ended(End, Lsn),
    /// Behind a conflict the stream is followed once more, without workers.
    Alone,
    /// Nothing more is kept, and what was is at this position.
    Stopped(Stop, Lsn),
    /// Transactions were open all along while as much came as one run may keep.
    Full,
    /// The next try is so many seconds away.
    Waits(u64),
    /// A copy was put in this place, at this position.
    Published(&'a str, Lsn),
    /// No copy was put in this place.
    NotPublished(&'a str),
    /// What was said before this had no memory.
    OutOfMemory,
}

impl fmt::Display for Event<'_> {
    fn fmt<W: fmt::Write>(&self, f: &mut fmt::Formatter<W>) -> fmt::Result {
        match self {
            Event::NotOpened(path, error) => write!(f, "cannot open {path}: {error}"),
            Event::NotRead(path) => write!(f, "cannot read {path}"),
            Event::Refused(fault) => write!(f, "the catalog is refused: {fault}"),
            Event::Unfit(path, fault) => write!(f, "cannot use {path}: {fault}"),
            Event::Opened(path, lsn) => {
                write!(f, "{path} is at ")?;
                write_lsn(f, *lsn)
            }
            Event::OtherSystem(path) => write!(
                f,
                "{path} follows a stream of another system: take a file of its own for this one"
            ),
            Event::Connected(address) => write!(f, "connected to {address}"),
            Event::NotConnected(address, error) => write!(f, "cannot connect {address}: {error}"),
            Event::Ended(end, lsn) => {
                f.write_str("at ")?;
                write_lsn(f, *lsn)?;
                write!(f, ": {end}")
            }
            Event::Alone => f.write_str(
                "once more from there without workers: a publisher logs rows before it checks their keys",
            ),
            Event::Stopped(stop, lsn) => {
                f.write_str("nothing is kept behind ")?;
                write_lsn(f, *lsn)?;
                write!(f, ": {stop}")
            }
            Event::Full => f.write_str(
                "transactions were open all along while as many bytes came as --journal says: \
                let it be more, or the publisher's logical_decoding_work_mem",
            ),
            Event::Waits(seconds) => write!(f, "the next try is in {seconds} s"),
            Event::Published(path, lsn) => {
                write!(f, "{path} is a copy at ")?;
                write_lsn(f, *lsn)
            }
            Event::NotPublished(path) => write!(f, "cannot put a copy at {path}"),
            Event::OutOfMemory => f.write_str("out of memory"),
        }
    }
}

/// Writes an LSN as PostgreSQL writes it.
fn write_lsn<W: fmt::Write>(f: &mut fmt::Formatter<W>, lsn: Lsn) -> fmt::Result {
    let high = lsn >> 32;
    let low = lsn & 0xffff_ffff;
    write!(f, "{high:X}/{low:X}")
}

/// Says that something happened, and when, as 2026-11-28T07:18:00.000Z. Where the clock can't be read the
/// time is left out; where standard error can't be written nothing is said.
pub fn say<H: Clock + Eprint>(host: &H, event: Event<'_>) {
    let _said = match Timestamp::now(host) {
        Ok(time) => eprintln!(host; "{time:.3} mirror: {event}"),
        Err(_) => eprintln!(host; "mirror: {event}"),
    };
}
