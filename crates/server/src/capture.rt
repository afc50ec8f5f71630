// Capture: the stream's frames, as they came, in a file or on standard output.
use crate::checks::check_stream;
use crate::connection::Connection;
use crate::copy::copy_rows;
use crate::events::{Event, relay_and_say, say, say_end};
use crate::fault::Fault;
use crate::kept::{Kept, aborts, label, read_kept};
use crate::line::Line;
use crate::place::Place;
use crate::relay::{Bounds, Output, Relayed, whole_frames};
use crate::slots::{drop_made, make_if_asked};
use crate::stream::{Subscription, System, confirmed, identify, start, status};
use crate::wire;
use std::alloc::Global;
use std::fs::{File, Files, TryLockError};
use std::io::{Seek, SeekFrom, Stdout, Write};
use std::net::{Net, TcpStream};
use std::os::unix::fs::OpenOptionsExt;
use std::random::RandomSource;
use std::rt::Clock;

/// Where a capture is to go.
#[derive(Debug, Drop)]
pub enum Destination<'a> {
    /// A file that isn't there yet.
    File(&'a str),
    /// Behind what can be kept of a file that an earlier capture left.
    Behind(&'a str),
    /// Standard output.
    Stdout(Stdout),
}

/// A capture: where its frames go, what was put there, and what was made for it.
#[derive(Drop)]
struct Opened<'a> {
    keeper: Keeper,
    relayed: Relayed,
    /// The path of a file that was made.
    path: Option<&'a str>,
    /// Whether a slot was made.
    made: bool,
}

/// Captures a stream until it ends, and says on standard error what was captured. Nothing is left of a file
/// nor of a slot that was made for it, where the stream can't be started.
pub fn capture<H: Net<Stream = TcpStream> + Clock + RandomSource + Files<File = File> + Eprint>(
    alloc: Global,
    host: &H,
    asked: &Subscription<'_>,
    destination: Destination<'_>,
    bounds: Bounds,
) -> Result<(), Fault> {
    let server = asked.server;
    let mut connection = server.connect(alloc, host, true)?;
    check_stream(&mut connection, asked.publication, asked.slot)?;
    let system = identify(&mut connection)?;
    let mut opened = open(&mut connection, host, asked, &system, destination)?;
    if let Err(fault) = begin(&mut connection, host, asked, &system, &mut opened) {
        drop(connection);
        take_back(alloc, host, asked, &opened);
        return Err(fault);
    }
    let Opened {
        keeper,
        relayed,
        ..
    } = &mut opened;
    let ended = relay_and_say(&mut connection, host, server, keeper, bounds, relayed);
    say_end(alloc, host, server, relayed, keeper.confirmed(), &ended);
    ended?;
    Ok(())
}

/// Opens what the frames go to. Behind an earlier capture it begins where that one came to; a file that
/// is refused is left as it is.
fn open<'a, L: Line + Drop, H: Files<File = File>>(
    connection: &mut Connection<L>,
    host: &H,
    asked: &Subscription<'_>,
    system: &System,
    destination: Destination<'a>,
) -> Result<Opened<'a>, Fault> {
    let alloc = connection.alloc();
    let mut relayed = Relayed::NOTHING;
    let (target, path) = match destination {
        Destination::File(path) => (Target::File(create(host, path)?, 0), Some(path)),
        Destination::Stdout(stdout) => (Target::Stdout(stdout), None),
        Destination::Behind(path) => {
            let (file, kept) = open_kept(alloc, host, asked, system, path)?;
            let stands = confirmed(connection, asked.slot.name)?;
            if stands > kept.position {
                return Err(Fault::Lost(Place(stands), Place(kept.position)));
            }
            relayed.position = kept.position;
            relayed.committed = kept.committed;
            (cut(alloc, file, &kept)?, None)
        }
    };
    Ok(Opened {
        keeper: Keeper::new(alloc, target),
        relayed,
        path,
        made: false,
    })
}

/// Takes back what was made for a capture that goes no further.
fn take_back<H: Net<Stream = TcpStream> + Clock + RandomSource + Files<File = File> + Eprint>(
    alloc: Global,
    host: &H,
    asked: &Subscription<'_>,
    opened: &Opened<'_>,
) {
    if let Some(path) = opened.path {
        // The fault that ended it says more than one of removing the file.
        let _ = std::fs::remove_file(host, path);
    }
    if opened.made {
        drop_made(alloc, host, asked);
    }
}

/// Makes a file that nobody else may read: it has all rows of the stream.
fn create<H: Files<File = File>>(host: &H, path: &str) -> Result<File, Fault> {
    let mut options = File::options();
    options.write(true).create_new(true).mode(0o600);
    let file: File = options.open(host, path).map_err(Fault::CannotWrite)?;
    lock(&file)?;
    Ok(file)
}

/// Sees that no other capture has the file, as long as this one has it.
fn lock(file: &File) -> Result<(), Fault> {
    match file.try_lock() {
        Ok(()) => Ok(()),
        Err(TryLockError::WouldBlock) => Err(Fault::InUse),
        Err(TryLockError::Error(error)) => Err(Fault::CannotWrite(error)),
    }
}

/// Opens a file that an earlier capture left, and answers what of it can be kept.
fn open_kept<H: Files<File = File>>(
    alloc: Global,
    host: &H,
    asked: &Subscription<'_>,
    system: &System,
    path: &str,
) -> Result<(File, Kept), Fault> {
    let reading = File::open(host, path).map_err(Fault::CannotRead)?;
    let mut options = File::options();
    options.write(true);
    let file: File = options.open(host, path).map_err(Fault::CannotWrite)?;
    lock(&file)?;
    Ok((file, read_file(alloc, asked, system, reading)?))
}

/// What can be kept of a file, which has to be of this stream, and whose copy of the rows, if it begins
/// with one, has to be whole.
fn read_file(
    alloc: Global,
    asked: &Subscription<'_>,
    system: &System,
    file: File,
) -> Result<Kept, Fault> {
    let identifier = system.identifier.as_str();
    let plain = label(alloc, asked, identifier, false)?;
    let copied = label(alloc, asked, identifier, true)?;
    let (kept, is_copied) = read_kept(alloc, file, plain.as_slice(), copied.as_slice())?;
    if is_copied && kept.committed == 0 {
        return Err(Fault::HalfCopy);
    }
    Ok(kept)
}

/// Cuts the file back to what is kept, and ends the streamed transactions that are open there.
fn cut(alloc: Global, file: File, kept: &Kept) -> Result<Target, Fault> {
    let mut file = file;
    file.set_len(kept.length).map_err(Fault::CannotWrite)?;
    file.seek(SeekFrom::Start(kept.length))
        .map_err(Fault::CannotWrite)?;
    let ends = aborts(alloc, kept.open.as_slice(), kept.position)?;
    file.write_all(ends.as_slice()).map_err(Fault::CannotWrite)?;
    let length = kept.length.saturating_add(ends.len() as u64);
    Ok(Target::File(file, length))
}

/// Makes the slot and copies the rows, if that is asked, and starts the stream. Whether a slot was made is
/// said in any case.
fn begin<L: Line + Drop, H: Clock + Eprint>(
    connection: &mut Connection<L>,
    host: &H,
    asked: &Subscription<'_>,
    system: &System,
    opened: &mut Opened<'_>,
) -> Result<(), Fault> {
    let point = make_if_asked(connection, host, asked.slot)?;
    opened.made = point.is_some();
    if opened.keeper.is_new() {
        let stands = match point {
            Some(point) => point,
            None => confirmed(connection, asked.slot.name)?,
        };
        put_title(
            connection.alloc(),
            asked,
            system,
            stands,
            &mut opened.keeper,
        )?;
        opened.relayed.position = stands;
    }
    let Opened {
        keeper,
        relayed,
        ..
    } = opened;
    if asked.slot.copy {
        let place = relayed.position;
        copy_rows(connection, asked.publication, place, keeper, relayed)?;
        say(host, Event::Copied(relayed));
    }
    let (place, log_end) = (Place(relayed.position), Place(system.log_end));
    say(host, Event::Begins(place, log_end));
    let from = relayed.committed;
    start(connection, asked.publication, asked.slot.name, from)
}

/// Puts what a capture begins with: a notice of what it is, and a keepalive of where its stream begins.
fn put_title(
    alloc: Global,
    asked: &Subscription<'_>,
    system: &System,
    stands: u64,
    keeper: &mut Keeper,
) -> Result<(), Fault> {
    let title = label(alloc, asked, system.identifier.as_str(), asked.slot.copy)?;
    keeper.put(&title[..whole_frames(title.as_slice())])?;
    let place = wire::keepalive(alloc, stands, false)?;
    keeper.put(&place[..whole_frames(place.as_slice())])
}

/// Where the frames go.
#[derive(Debug, Drop)]
pub enum Target {
    /// A file that has so many bytes of whole frames.
    File(File, u64),
    /// Standard output.
    Stdout(Stdout),
}

/// Keeps the frames.
#[derive(Debug, Drop)]
pub struct Keeper {
    alloc: Global,
    target: Target,
    confirmed: u64,
}

impl Keeper {
    /// What keeps frames there.
    pub fn new(alloc: Global, target: Target) -> Keeper {
        Keeper {
            alloc,
            target,
            confirmed: 0,
        }
    }

    /// Whether nothing was put before: an earlier capture left more than nothing.
    fn is_new(&self) -> bool {
        matches!(self.target, Target::File(_, 0) | Target::Stdout(_))
    }
}

impl Output for Keeper {
    fn put(&mut self, frames: &[u8]) -> Result<(), Fault> {
        match &mut self.target {
            Target::File(file, length) => match file.write_all(frames) {
                Ok(()) => {
                    *length = length.saturating_add(frames.len() as u64);
                    Ok(())
                }
                Err(error) => {
                    // What was written of the frames is taken back; the write's error says more than this one's.
                    let _ = file.set_len(*length);
                    Err(Fault::CannotWrite(error))
                }
            },
            Target::Stdout(stdout) => stdout.write_all(frames).map_err(Fault::CannotWrite),
        }
    }

    fn tell(&mut self, put: &Relayed, due: bool, updates: &mut Vec<u8>) -> Result<bool, Fault> {
        if due {
            settle(&mut self.target)?;
            self.confirmed = put.position;
            let update = status(self.alloc, put.position, true)?;
            updates.extend_from_slice(update.as_slice())?;
        }
        Ok(true)
    }

    fn confirmed(&self) -> u64 {
        self.confirmed
    }
}

/// Sees that what was put outlasts a crash, so that the server may forget it.
fn settle(target: &mut Target) -> Result<(), Fault> {
    match target {
        Target::File(file, _) => file.sync_data().map_err(Fault::CannotWrite),
        Target::Stdout(stdout) => stdout.flush().map_err(Fault::CannotWrite),
    }
}
