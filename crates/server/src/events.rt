// What is said on standard error as it happens: a line for each event, with its time.
use crate::connection::Connection;
use crate::fault::Fault;
use crate::host::Server;
use crate::line::Line;
use crate::place::Place;
use crate::relay::{Bounds, End, Output, Relayed, relay};
use crate::stream::identify;
use jiff::Timestamp;
use std::alloc::Global;
use std::fmt;
use std::net::{Net, SocketAddr, TcpStream};
use std::random::RandomSource;
use std::rt::Clock;
use std::time::{Duration, Instant};

/// What happened.
#[derive(Clone, Copy, Debug)]
pub enum Event<'a> {
    /// The slot of this name was made, whose stream begins at this place of the log.
    Made(&'a str, Place),
    /// The slot was dropped, which this command had made.
    Dropped(&'a str),
    /// It could not be dropped.
    Stays(&'a str, &'a Fault),
    /// Followers may come to this address.
    Listening(SocketAddr),
    /// A follower came from this address.
    Came(SocketAddr),
    /// The rows that are there were put.
    Copied(&'a Relayed),
    /// The stream begins at the first place, and the server's log ends at the second.
    Begins(Place, Place),
    /// So much of the stream was put.
    Going(Progress),
    /// So much of the stream was put when it ended, by itself or by a fault.
    Ended(Progress, Option<End>),
    /// A command can't go on, or can't go on for a follower.
    Failed(&'a Fault),
}

/// How far a stream is.
#[derive(Clone, Copy, Debug, PartialEq, Eq)]
pub struct Progress {
    /// What was put.
    pub put: Relayed,
    /// The place up to which the server may forget the log; 0 before it was told one.
    pub confirmed: u64,
    /// Where the server's log ends, if that is known.
    pub log_end: Option<u64>,
}

impl fmt::Display for Event<'_> {
    fn fmt<W: fmt::Write>(&self, f: &mut fmt::Formatter<W>) -> fmt::Result {
        match self {
            Event::Made(slot, place) => write!(f, "the slot {slot} was made at {place}"),
            Event::Dropped(slot) => write!(f, "the slot {slot} was dropped"),
            Event::Stays(slot, fault) => {
                write!(
                    f,
                    "the slot {slot} stays, and holds the server's log: {fault}"
                )
            }
            Event::Listening(address) => write!(f, "listening at {address}"),
            Event::Came(address) => write!(f, "a follower came from {address}"),
            Event::Copied(put) => {
                write_put(f, put)?;
                f.write_str(", are the rows that are there")
            }
            Event::Begins(place, log_end) => {
                let ahead = log_end.0.saturating_sub(place.0);
                write!(
                    f,
                    "the stream begins at {place}, and the server's log is {ahead} bytes ahead"
                )
            }
            Event::Going(progress) => write!(f, "{progress}"),
            Event::Ended(progress, end) => {
                let reason = reason_of(end);
                write!(f, "{progress}: {reason}")
            }
            Event::Failed(fault) => write!(f, "{fault}"),
        }
    }
}

impl fmt::Display for Progress {
    fn fmt<W: fmt::Write>(&self, f: &mut fmt::Formatter<W>) -> fmt::Result {
        write_put(f, &self.put)?;
        let position = Place(self.put.position);
        let confirmed = Place(self.confirmed);
        write!(f, ", up to {position}, confirmed up to {confirmed}")?;
        let Some(log_end) = self.log_end else {
            return Ok(());
        };
        let ahead = log_end.saturating_sub(self.put.position);
        let unconfirmed = log_end.saturating_sub(self.confirmed);
        write!(
            f,
            ", and the server's log is {ahead} bytes ahead, {unconfirmed} of what is confirmed"
        )
    }
}

fn write_put<W: fmt::Write>(f: &mut fmt::Formatter<W>, put: &Relayed) -> fmt::Result {
    let frames = put.frames;
    let bytes = put.bytes;
    write!(f, "{frames} frames, {bytes} bytes")
}

/// How many milliseconds lie between two lines on how far a stream is.
const PAUSE: u64 = 60_000;

/// What ended a stream.
fn reason_of(end: &Option<End>) -> &'static str {
    match end {
        Some(End::Reached) => "the place was reached",
        Some(End::Elapsed) => "the time is over",
        Some(End::Enough) => "the follower closed",
        Some(End::Done) => "the server ended the stream",
        Some(End::Shutdown) => "the server shut down",
        None => "a fault",
    }
}

/// Says that something happened, and when, as 2026-11-28T07:18:00.000Z. Where the clock can't be read the time is
/// left out; where standard error can't be written nothing is said.
pub fn say<H: Clock + Eprint>(host: &H, event: Event<'_>) {
    let _said = match Timestamp::now(host) {
        Ok(time) => eprintln!(host; "{time:.3} publisher: {event}"),
        Err(_) => eprintln!(host; "publisher: {event}"),
    };
}

/// Says what was put and what ended it. A server that didn't end it is asked where its log ends.
pub fn say_end<H: Net<Stream = TcpStream> + Clock + RandomSource + Eprint>(
    alloc: Global,
    host: &H,
    server: &Server,
    put: &Relayed,
    confirmed: u64,
    ended: &Result<End, Fault>,
) {
    let end = match ended {
        Ok(end) => Some(*end),
        Err(_) => None,
    };
    let log_end = match end {
        Some(End::Reached | End::Elapsed | End::Enough) => ask_end(alloc, host, server),
        Some(End::Done | End::Shutdown) | None => None,
    };
    let progress = Progress {
        put: *put,
        confirmed,
        log_end,
    };
    say(host, Event::Ended(progress, end));
}

/// Where the server's log ends, asked over a connection of its own; none where it doesn't answer.
fn ask_end<H: Net<Stream = TcpStream> + Clock + RandomSource>(
    alloc: Global,
    host: &H,
    server: &Server,
) -> Option<u64> {
    let mut connection = server.connect(alloc, host, true).ok()?;
    Some(identify(&mut connection).ok()?.log_end)
}

/// `relay`, which says once a minute how far the stream is.
pub fn relay_and_say<L, H, O>(
    connection: &mut Connection<L>,
    host: &H,
    server: &Server,
    output: &mut O,
    bounds: Bounds,
    put: &mut Relayed,
) -> Result<End, Fault>
where
    L: Line + Drop,
    H: Net<Stream = TcpStream> + Clock + RandomSource + Eprint,
    O: Output,
{
    let mut reporting = Reporting::new(connection.alloc(), host, server, output, PAUSE);
    relay(connection, &mut reporting, bounds, put)
}

/// Takes frames for an output, and says now and then how far the stream is.
#[derive(Drop)]
pub struct Reporting<'a, H: Clock, O: Output> {
    alloc: Global,
    host: &'a H,
    server: &'a Server,
    output: &'a mut O,
    /// How many milliseconds lie between two lines.
    pause: u64,
    /// When the last was said. None where the clock can't be read.
    said: Option<Instant>,
}

impl<'a, H: Clock, O: Output> Reporting<'a, H, O> {
    /// The first line is said after a pause of so many milliseconds.
    pub fn new(
        alloc: Global,
        host: &'a H,
        server: &'a Server,
        output: &'a mut O,
        pause: u64,
    ) -> Reporting<'a, H, O> {
        Reporting {
            alloc,
            host,
            server,
            output,
            pause,
            said: Instant::now(host).ok(),
        }
    }

    /// Whether a line is due. The next one then is after another pause.
    fn is_due(&mut self) -> bool {
        let Some(said) = self.said else {
            return false;
        };
        match said.elapsed(self.host) {
            Ok(elapsed) if elapsed >= Duration::from_millis(self.pause) => {
                self.said = Instant::now(self.host).ok();
                true
            }
            _ => false,
        }
    }
}

impl<H: Net<Stream = TcpStream> + Clock + RandomSource + Eprint, O: Output> Output
    for Reporting<'_, H, O> {
    fn put(&mut self, frames: &[u8]) -> Result<(), Fault> {
        self.output.put(frames)
    }

    fn tell(&mut self, put: &Relayed, due: bool, updates: &mut Vec<u8>) -> Result<bool, Fault> {
        let goes_on = self.output.tell(put, due, updates)?;
        if self.is_due() {
            let progress = Progress {
                put: *put,
                confirmed: self.output.confirmed(),
                log_end: ask_end(self.alloc, self.host, self.server),
            };
            say(self.host, Event::Going(progress));
        }
        Ok(goes_on)
    }

    fn confirmed(&self) -> u64 {
        self.output.confirmed()
    }
}
