// One follower: what it is given, and what it tells.
ghost use Rattle.std.specs.Prelude.{◌≡◌, ◌≤◌, max, IfOk};

use crate::fault::Fault;
use crate::place::Place;
use crate::relay::{Output, Relayed, whole_frames};
use crate::report::write_report;
use crate::stream::status;
use crate::wire;
use std::alloc::Global;
use std::io::{ErrorKind, Read, Write};
use std::net::{Shutdown, TcpListener, TcpStream};
use std::rt::Clock;
use std::time::{Duration, Instant};

/// What a status update's frame begins with: CopyData of 38 bytes, 'r'.
const STATUS: [u8; 6] = [b'd', 0, 0, 0, 38, b'r'];

/// How many bytes a status update's frame has.
const STATUS_LENGTH: usize = 39;

/// Where it has the places written, flushed and applied, and what stands behind.
const WRITTEN: usize = 6;

const FLUSHED: usize = 14;

const BEHIND: usize = 30;

/// How much of what a follower said is read at once, and how often at a time.
const CHUNK: usize = 4096;

const READS: usize = 16;

/// How long a read waits where something else may be due: milliseconds.
const TICK: u64 = 100;

/// What a follower told.
#[derive(Debug, Drop)]
pub struct Told {
    /// The beginning of a frame that isn't whole.
    part: Vec<u8>,
    /// The place up to which the log is flushed, as the server is told it; 0 before the first update.
    flushed: u64,
    /// The place that the follower had before the stream began.
    began: u64,
}

impl Told {
    /// Nothing was told.
    pub fn new(alloc: Global) -> Told {
        Told {
            part: Vec::new(alloc),
            flushed: 0,
            began: 0,
        }
    }

    /// Takes the first status update off what the follower says before its stream begins, once it is
    /// whole with these bytes, and answers the place up to which the follower has the log.
    pub fn begin(&mut self, bytes: &[u8]) -> Result<Option<u64>, Fault> {
        self.part.extend_from_slice(bytes)?;
        let Some(frame) = first_frame(self.part.as_slice())? else {
            return Ok(None);
        };
        let (_, flushed) = read_status(frame)?;
        let length = frame.len();
        self.part.drain(..length.min(self.part.len()));
        self.flushed = flushed;
        self.began = flushed;
        Ok(Some(flushed))
    }

    /// Appends the status updates that are whole with these bytes, of a stream of which this was put.
    /// It answers whether the follower goes on: CopyDone ends it. An update beyond what was put is
    /// refused.
    ///
    /// A follower tells where the last commit ends that it applied, and how far it saw the log. Where it
    /// has applied all commits that were put, nothing of what it saw is needed again, and the server is
    /// told that it is flushed: else one that shuts down would wait for ever.
    pub fn hear(
        &mut self,
        bytes: &[u8],
        put: &Relayed,
        updates: &mut Vec<u8>,
    ) -> Result<bool, Fault>
        ensures flushed { self.new.flushed ≤ max self.old.flushed (max put.now.position self.old.began) }
        ensures began { self.new.began ≡ self.old.began }
    {
        self.part.extend_from_slice(bytes)?;
        let most = put.position.max(self.began);
        let mut taken = 0;
        let mut goes_on = true;
        for _ in 0..self.part.len() {
            let rest = self.part.as_slice().get(taken..).unwrap_or(&[]);
            let Some(frame) = first_frame(rest)? else {
                break;
            };
            if frame.first() == Some(&b'c') {
                goes_on = false;
                break;
            }
            self.flushed = flushed_by(frame, put.committed, most)?;
            push_update(frame, self.flushed, updates)?;
            taken = taken.saturating_add(frame.len());
        }
        self.part.drain(..taken.min(self.part.len()));
        Ok(goes_on)
    }
}

/// The first frame of these bytes, if it is whole.
fn first_frame(bytes: &[u8]) -> Result<Option<&[u8]>, Fault> {
    match wire::first_length(bytes) {
        Ok(length) => Ok(length.and_then(|length| bytes.get(..length))),
        Err(_) => Err(Fault::Follower("it sent what is no frame")),
    }
}

/// The places that a status update says are written and flushed.
fn read_status(frame: &[u8]) -> Result<(u64, u64), Fault> {
    let refused = Fault::Follower("it sent what is no status update");
    if frame.len() != STATUS_LENGTH || !frame.starts_with(&STATUS) {
        return Err(refused);
    }
    match (place_at(frame, WRITTEN), place_at(frame, FLUSHED)) {
        (Some(written), Some(flushed)) => Ok((written, flushed)),
        _ => Err(refused),
    }
}

/// The place up to which the log is flushed by a status update, of a stream whose commits were put up to
/// `committed`. It is at most the place up to which anything was put.
fn flushed_by(frame: &[u8], committed: u64, most: u64) -> Result<u64, Fault>
    ensures { IfOk result (λ flushed. flushed ≤ most) }
{
    let (written, flushed) = read_status(frame)?;
    let told = written.max(flushed);
    if told > most {
        return Err(Fault::Ahead(Place(told), Place(most)));
    }
    Ok(if flushed >= committed { told } else { flushed })
}

/// The place in the log that stands here.
fn place_at(frame: &[u8], start: usize) -> Option<u64> {
    let bytes = frame.get(start..)?.first_chunk::<8>()?;
    Some(u64::from_be_bytes(*bytes))
}

/// Appends a status update that says the log is flushed and applied up to this place.
fn push_update(frame: &[u8], flushed: u64, updates: &mut Vec<u8>) -> Result<(), Fault> {
    updates.extend_from_slice(frame.get(..FLUSHED).unwrap_or(&[]))?;
    for _ in 0..2 {
        updates.extend_from_slice(&flushed.to_be_bytes())?;
    }
    updates.extend_from_slice(frame.get(BEHIND..).unwrap_or(&[]))?;
    Ok(())
}

/// A follower that is connected. While it is served, others who connect are turned away.
#[derive(Debug, Drop)]
pub struct Follower<'a> {
    alloc: Global,
    stream: TcpStream,
    told: Told,
    others: Option<&'a TcpListener>,
    /// Whether a write to it failed.
    is_gone: bool,
}

impl<'a> Follower<'a> {
    /// A follower at this end of a connection. Others come to `others`, if anywhere, which waits for nobody.
    pub fn new(alloc: Global, stream: TcpStream, others: Option<&'a TcpListener>) -> Follower<'a> {
        Follower {
            alloc,
            stream,
            told: Told::new(alloc),
            others,
            is_gone: false,
        }
    }

    /// How many milliseconds a write to the follower may wait.
    pub fn set_limit(&self, limit: u64) -> Result<(), Fault> {
        match self
            .stream
            .set_write_timeout(Some(Duration::from_millis(limit)))
        {
            Ok(()) => Ok(()),
            Err(_) => Err(Fault::Follower("its time limit can't be set")),
        }
    }

    /// Asks the follower how far it has the log, and waits for its answer at most so many milliseconds.
    pub fn ask_place<H: Clock>(&mut self, host: &H, limit: u64) -> Result<u64, Fault> {
        let asking = wire::keepalive(self.alloc, 0, true)?;
        self.put(&asking[..whole_frames(asking.as_slice())])?;
        let began = Instant::now(host).map_err(Fault::System)?;
        for _ in 0..u64::MAX {
            let mut buf = [0u8; CHUNK];
            let Some(count) = self.read_within(&mut buf, TICK)? else {
                return Err(Fault::Follower("it closed before it said how far it has the log"));
            };
            let heard = buf.as_slice().get(..count).unwrap_or(&[]);
            if let Some(place) = self.told.begin(heard)? {
                return Ok(place);
            }
            if has_passed(host, &began, limit) {
                break;
            }
            self.turn_away();
        }
        Err(Fault::Follower("it did not say how far it has the log within the time limit"))
    }

    /// Ends the stream, of which this was put: nothing more is written, and what the follower still says is
    /// heard until it closes, at most for so many milliseconds. A socket that is closed with something unread
    /// in it drops what the follower hasn't read.
    pub fn part<H: Clock>(&mut self, host: &H, limit: u64, put: &Relayed) {
        if self.is_gone || self.stream.shutdown(Shutdown::Write).is_err() {
            return;
        }
        let Ok(began) = Instant::now(host) else {
            return;
        };
        let mut tells = true;
        for _ in 0..u64::MAX {
            let mut buf = [0u8; CHUNK];
            let count = match self.read_within(&mut buf, TICK) {
                Ok(Some(count)) if !has_passed(host, &began, limit) => count,
                _ => return,
            };
            let heard = buf.as_slice().get(..count).unwrap_or(&[]);
            tells = tells && self.hears_on(heard, put);
            self.turn_away();
        }
    }

    /// Hears what can't be told to the server any more. It answers whether more of it can be heard.
    fn hears_on(&mut self, bytes: &[u8], put: &Relayed) -> bool {
        let mut updates = Vec::new(self.alloc);
        matches!(self.told.hear(bytes, put, &mut updates), Ok(true))
    }

    /// Tells the follower of a fault as of an error of the server.
    pub fn tell_fault(&mut self, fault: &Fault) -> Result<(), Fault> {
        let farewell = farewell(self.alloc, fault)?;
        // A follower that can't be told has gone, and the fault itself is answered.
        let _ = self.put(&farewell[..whole_frames(farewell.as_slice())]);
        Ok(())
    }

    /// Reads once, and waits at most so many milliseconds. None at the end.
    fn read_within(&mut self, buf: &mut [u8], millis: u64) -> Result<Option<usize>, Fault> {
        let wait = Some(Duration::from_millis(millis));
        if self.stream.set_read_timeout(wait).is_err() {
            return Err(Fault::Follower(BROKEN));
        }
        count_of(self.stream.read(buf))
    }

    /// Reads what has come, and waits for nothing. None at the end.
    fn read_ready(&mut self, buf: &mut [u8]) -> Result<Option<usize>, Fault> {
        if self.stream.set_nonblocking(true).is_err() {
            return Err(Fault::Follower(BROKEN));
        }
        let came = self.stream.read(buf);
        if self.stream.set_nonblocking(false).is_err() {
            return Err(Fault::Follower(BROKEN));
        }
        count_of(came)
    }

    /// Tells others who have connected that one is being served.
    fn turn_away(&self) {
        let Some(listener) = self.others else {
            return;
        };
        for _ in 0..READS {
            match listener.accept() {
                Ok((stream, _)) => refuse(self.alloc, stream),
                Err(_) => return,
            }
        }
    }
}

const BROKEN: &str = "it can't be read";

/// How many bytes a read gave: none at the end, and 0 where nothing came yet.
fn count_of(came: std::io::Result<usize>) -> Result<Option<usize>, Fault> {
    match came {
        Ok(0) => Ok(None),
        Ok(count) => Ok(Some(count)),
        Err(error) => match error.kind() {
            ErrorKind::WouldBlock | ErrorKind::TimedOut | ErrorKind::Interrupted => Ok(Some(0)),
            _ => Err(Fault::Follower(BROKEN)),
        },
    }
}

/// Whether so many milliseconds have passed. A clock that can't be read counts as one that has run out.
fn has_passed<H: Clock>(host: &H, began: &Instant, limit: u64) -> bool {
    match began.elapsed(host) {
        Ok(elapsed) => elapsed >= Duration::from_millis(limit),
        Err(_) => true,
    }
}

/// Tells one who connects beside a follower that is served, and waits for nothing.
fn refuse(alloc: Global, stream: TcpStream) {
    let mut stream = stream;
    let Ok(words) = farewell(alloc, &Fault::Busy) else {
        return;
    };
    if stream.set_nonblocking(true).is_err() || stream.write_all(words.as_slice()).is_err() {
        return;
    }
    let _ = stream.shutdown(Shutdown::Write);
    let mut buf = [0u8; CHUNK];
    for _ in 0..READS {
        if !matches!(stream.read(&mut buf), Ok(count) if count > 0) {
            return;
        }
    }
}

impl Output for Follower<'_> {
    fn put(&mut self, frames: &[u8]) -> Result<(), Fault> {
        match self.stream.write_all(frames) {
            Ok(()) => Ok(()),
            Err(_) => {
                self.is_gone = true;
                Err(Fault::Follower("it closed, or took nothing within the time limit"))
            }
        }
    }

    fn tell(&mut self, put: &Relayed, due: bool, updates: &mut Vec<u8>) -> Result<bool, Fault> {
        self.turn_away();
        let mut goes_on = true;
        for _ in 0..READS {
            let mut buf = [0u8; CHUNK];
            let Some(count) = self.read_ready(&mut buf)? else {
                return Ok(false);
            };
            let heard = buf.as_slice().get(..count).unwrap_or(&[]);
            goes_on = self.told.hear(heard, put, updates)?;
            if count < CHUNK || !goes_on {
                break;
            }
        }
        if due && updates.is_empty() {
            let update = status(self.alloc, self.told.flushed, true)?;
            updates.extend_from_slice(update.as_slice())?;
        }
        Ok(goes_on)
    }

    fn confirmed(&self) -> u64 {
        self.told.flushed
    }
}

/// An ErrorResponse of our own, which ends a follower's run with a server's error.
pub fn farewell(alloc: Global, fault: &Fault) -> Result<Vec<u8>, Fault> {
    let text = format!(in alloc; "{fault}")?;
    write_report(alloc, b'E', "FATAL", "08006", text.as_str())
}
