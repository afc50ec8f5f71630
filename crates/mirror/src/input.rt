// Where a stream comes from.
use crate::target::no_memory;
use leader::{Lsn, ReadSource, WriteSink, Xid};
use mirror_command::events::{Event, say};
use mirror_source::{Applied, Epochs, Limits, find_applied};
use pgapply_command::options::Input;
use pgapply_command::stream::{Stream, Updates};
use std::fs::File;
use std::io;
use tcp::Connection;

/// A stream that was opened, in epochs, and where its status updates go.
#[derive(Drop)]
pub struct Opened {
    pub epochs: Epochs<ReadSource<Stream>>,
    pub updates: WriteSink<Updates>,
}

/// Why a stream can't be followed now.
#[derive(Clone, Copy, Debug, PartialEq, Eq)]
pub enum Refused {
    /// Whoever sends it is not there. It was said.
    NotThere,
    /// For good, with this exit status. It was said.
    Over(u8),
}

/// Opens the stream behind a position of the publisher's log.
pub fn open(
    rt: &HostRuntime,
    input: Input<'_>,
    position: Lsn,
    limits: Limits,
) -> Result<Opened, Refused> {
    let applied = Applied::new(position, find_streamed(rt, input, position)?);
    let (stream, updates) = connect(rt, input)?;
    match Epochs::new(rt.alloc(), ReadSource::new(stream), applied, limits) {
        Ok(epochs) => Ok(Opened {
            epochs,
            updates: WriteSink::new(updates),
        }),
        Err(_) => Err(Refused::Over(no_memory(rt))),
    }
}

/// What an input is called.
pub fn name_of<'a>(input: Input<'a>) -> &'a str {
    match input {
        Input::Stdin => "standard input",
        Input::File(name) | Input::Connection(name) => name,
    }
}

/// The streamed transactions of the input that committed before a position. Whoever sends a stream
/// over a connection begins behind them, and standard input comes once.
fn find_streamed(rt: &HostRuntime, input: Input<'_>, position: Lsn) -> Result<Vec<Xid>, Refused> {
    let Input::File(path) = input else {
        return Ok(Vec::new(rt.alloc()));
    };
    match File::open(rt, path) {
        Ok(file) => find_applied(rt.alloc(), ReadSource::new(file), position).map_err(|_| {
            say(rt, Event::NotRead(path));
            Refused::Over(1)
        }),
        Err(error) => {
            say(rt, Event::NotOpened(path, &error));
            Err(Refused::Over(1))
        }
    }
}

/// The bytes of the stream, and where its status updates go.
fn connect(rt: &HostRuntime, input: Input<'_>) -> Result<(Stream, Updates), Refused> {
    match input {
        Input::Stdin => Ok((Stream::Stdin(rt.stdin()), Updates::Nowhere)),
        Input::File(path) => match File::open(rt, path) {
            Ok(file) => Ok((Stream::File(file), Updates::Nowhere)),
            Err(error) => {
                say(rt, Event::NotOpened(path, &error));
                Err(Refused::Over(1))
            }
        },
        Input::Connection(address) => match ends_of(rt, address) {
            Ok((read, written)) => {
                say(rt, Event::Connected(address));
                Ok((read, written))
            }
            Err(error) => {
                say(rt, Event::NotConnected(address, &error));
                Err(Refused::NotThere)
            }
        },
    }
}

fn ends_of(rt: &HostRuntime, address: &str) -> io::Result<(Stream, Updates)> {
    let (read, written) = Connection::open(rt, address)?.into_ends()?;
    Ok((Stream::Connection(read), Updates::Connection(written)))
}
