// The stream on its way from the server to whoever takes it: whole frames alone.
ghost use Rattle.std.specs.Prelude.{◌≡◌, ◌≤◌, length, take};
ghost use Rattle.server.specs.Frames.{AreFrames};

use crate::connection::{Came, Connection};
use crate::fault::Fault;
use crate::line::Line;
use crate::marks::{Mark, Phase};
use crate::report::read_report;
use crate::stream::{Sent, read_frame};
use crate::wire;
use std::alloc::Global;

/// Takes whole frames.
pub trait Output {
    /// Writes frames, all of them or none: where it fails, it takes back what it wrote of them, if it can.
    fn put(&mut self, frames: &[u8]) -> Result<(), Fault>
        requires { AreFrames frames.now };

    /// Appends status updates for the server, of a stream of which this was put. One is `due` where a
    /// keepalive wants it and now and then. It answers whether more frames are wanted.
    fn tell(&mut self, put: &Relayed, due: bool, updates: &mut Vec<u8>) -> Result<bool, Fault>;

    /// The place up to which the server was told that it may forget the log; 0 before it was told one.
    fn confirmed(&self) -> u64;
}

/// When a relay ends by itself.
#[derive(Clone, Copy, Debug)]
pub struct Bounds {
    /// Outside of transactions, once the next would commit at this place of the log or behind it.
    pub until: Option<u64>,
    /// After so many milliseconds.
    pub millis: Option<u64>,
}

impl Bounds {
    /// No end but the stream's.
    pub const NONE: Bounds = Bounds {
        until: None,
        millis: None,
    };
}

/// What was put.
#[derive(Clone, Copy, Debug, PartialEq, Eq)]
pub struct Relayed {
    /// How many frames.
    pub frames: u64,
    /// How many bytes these are.
    pub bytes: u64,
    /// The greatest place of the log that a frame named.
    pub position: u64,
    /// The greatest place at which a commit ends; 0 before the first.
    pub committed: u64,
}

impl Relayed {
    /// What a relay has put before its first frame.
    pub const NOTHING: Relayed = Relayed {
        frames: 0,
        bytes: 0,
        position: 0,
        committed: 0,
    };
}

/// Why a relay ended, if no fault did.
#[derive(Clone, Copy, Debug, PartialEq, Eq)]
pub enum End {
    /// The place in the log was reached.
    Reached,
    /// The time is over.
    Elapsed,
    /// Whoever takes the frames wants no more.
    Enough,
    /// The server sent CopyDone.
    Done,
    /// The server shut down.
    Shutdown,
}

/// CopyDone.
pub const COPY_DONE: [u8; 5] = [b'c', 0, 0, 0, 4];

/// How often the server is asked for a keepalive, at least: milliseconds.
const ASKING: u64 = 1000;

/// How long keepalives that come alone wait for an answer after the last: milliseconds. A server that shuts
/// down asks again at each answer.
const PACE: u64 = 10;

/// Where a relay stands.
#[derive(Clone, Copy)]
struct Standing {
    relayed: Relayed,
    began: u64,
    /// When bytes last came, and when status updates were last asked for: milliseconds.
    heard: u64,
    told: u64,
    /// When status updates were last sent.
    sent: Option<u64>,
    /// Whether a keepalive waits for an answer.
    owes: bool,
    phase: Phase,
}

impl Standing {
    /// A stream of which this much was put before, as it begins at this moment.
    fn new(relayed: Relayed, began: u64) -> Standing {
        Standing {
            relayed,
            began,
            heard: began,
            told: began,
            sent: None,
            owes: false,
            phase: Phase::Outside,
        }
    }
}

/// Hands the stream's frames to `output` until it ends. A fault comes behind the frames before it; an
/// ErrorResponse is put too. `relayed` is what was put, whatever ended it.
pub fn relay<L: Line + Drop, O: Output>(
    connection: &mut Connection<L>,
    output: &mut O,
    bounds: Bounds,
    relayed: &mut Relayed,
) -> Result<End, Fault> {
    let mut standing = Standing::new(*relayed, connection.millis());
    for _ in 0..u64::MAX {
        let ended = turn(connection, output, bounds, &mut standing);
        *relayed = standing.relayed;
        if let Some(end) = ended? {
            return finish(connection, output, &standing.relayed, end);
        }
    }
    Err(Fault::TimedOut)
}

/// Puts the frames that are whole, tells the server, and reads once.
fn turn<L: Line + Drop, O: Output>(
    connection: &mut Connection<L>,
    output: &mut O,
    bounds: Bounds,
    standing: &mut Standing,
) -> Result<Option<End>, Fault> {
    let alloc = connection.alloc();
    let unread = connection.unread();
    let scan = go_over(unread, bounds.until, standing.phase);
    let ended = put_scanned(alloc, unread, output, scan, &mut standing.relayed)?;
    standing.phase = scan.phase;
    connection.take(scan.ready);
    if let Some(end) = ended {
        return Ok(Some(end));
    }
    standing.owes = standing.owes || scan.due;
    if !tell_server(connection, output, scan.is_quiet, standing)? {
        return Ok(Some(End::Enough));
    }
    let now = connection.millis();
    if let Some(millis) = bounds.millis
        && now.saturating_sub(standing.began) >= millis
    {
        return Ok(Some(End::Elapsed));
    }
    match connection.fill()? {
        Came::Bytes => standing.heard = now,
        Came::End => return Err(Fault::Closed),
        Came::Nothing => {
            if now.saturating_sub(standing.heard) > connection.limit() {
                return Err(Fault::TimedOut);
            }
        }
    }
    Ok(None)
}

/// What stands at the front of the bytes that came.
#[derive(Clone, Copy)]
struct Scan {
    /// The bytes of whole frames to put.
    ready: usize,
    frames: u64,
    /// The greatest place that they name, and the greatest at which a commit ends.
    position: u64,
    committed: u64,
    /// Whether one of them wants a status update.
    due: bool,
    /// Whether none of them has a piece of the log.
    is_quiet: bool,
    /// The phase behind them.
    phase: Phase,
    stop: Stop,
}

/// What stands behind the frames to put.
#[derive(Clone, Copy)]
enum Stop {
    /// Less than a frame.
    Part,
    /// The end.
    End(End),
    /// The last frame to put is an ErrorResponse, which begins here.
    Error(usize),
    /// What no server may send.
    Nonsense(crate::fault::Nonsense),
}

/// Goes over the whole frames at the front of these bytes, which stand in this phase.
fn go_over(bytes: &[u8], until: Option<u64>, phase: Phase) -> Scan
    ensures within { result.ready ≤ length bytes.now }
    ensures whole { AreFrames (take result.ready bytes.now) }
{
    let mut scan = Scan {
        ready: 0,
        frames: 0,
        position: 0,
        committed: 0,
        due: false,
        is_quiet: true,
        phase,
        stop: Stop::Part,
    };
    'frames: for _ in 0..bytes.len() {
        let (_, rest) = bytes.split_at(scan.ready);
        let length = match wire::first_length(rest) {
            Ok(Some(length)) => length,
            Ok(None) => return scan,
            Err(nonsense) => {
                scan.stop = Stop::Nonsense(nonsense);
                return scan;
            }
        };
        let (taken, stop) = judge(&mut scan, &rest[..length], until);
        if taken {
            scan.ready += length;
            scan.frames = scan.frames.saturating_add(1);
        }
        if let Some(stop) = stop {
            scan.stop = stop;
            return scan;
        }
    }
    scan
}

/// Whether a frame is to be put, and whether the stream stops at it.
fn judge(scan: &mut Scan, frame: &[u8], until: Option<u64>) -> (bool, Option<Stop>)
    ensures { scan.new.ready ≡ scan.old.ready }
{
    match read_frame(frame) {
        Ok(Sent::Data { start, end, mark }) => {
            if scan.phase == Phase::Outside && is_past(start, mark, until) {
                return (false, Some(Stop::End(End::Reached)));
            }
            scan.phase = scan.phase.after(mark);
            scan.is_quiet = false;
            scan.position = scan.position.max(start).max(end);
            scan.committed = scan.committed.max(mark.commit_end().unwrap_or(0));
            (true, None)
        }
        Ok(Sent::Keepalive { end, reply }) => {
            scan.position = scan.position.max(end);
            scan.due = scan.due || reply;
            let reached = scan.phase == Phase::Outside && until.is_some_and(|place| end >= place);
            (
                true,
                if reached {
                    Some(Stop::End(End::Reached))
                } else {
                    None
                },
            )
        }
        Ok(Sent::Skipped) => (true, None),
        Ok(Sent::Done) => (true, Some(Stop::End(End::Done))),
        Ok(Sent::Shutdown) => (false, Some(Stop::End(End::Shutdown))),
        Ok(Sent::Error) => (true, Some(Stop::Error(scan.ready))),
        Err(nonsense) => (false, Some(Stop::Nonsense(nonsense))),
    }
}

/// Whether a message outside of transactions is of one that commits at the place or behind it: one that
/// doesn't say where it commits began behind all that commits before the place.
fn is_past(start: u64, mark: Mark, until: Option<u64>) -> bool {
    let commit = mark.commit().unwrap_or(start);
    until.is_some_and(|place| commit >= place)
}

/// Puts what was scanned of the unread bytes. It answers the end that stands behind, or the fault.
fn put_scanned<O: Output>(
    alloc: Global,
    unread: &[u8],
    output: &mut O,
    scan: Scan,
    relayed: &mut Relayed,
) -> Result<Option<End>, Fault>
    requires within { scan.ready ≤ length unread.now }
    requires whole { AreFrames (take scan.ready unread.now) }
{
    if scan.ready > 0 {
        output.put(&unread[..scan.ready])?;
    }
    relayed.frames = relayed.frames.saturating_add(scan.frames);
    relayed.bytes = relayed.bytes.saturating_add(scan.ready as u64);
    relayed.position = relayed.position.max(scan.position);
    relayed.committed = relayed.committed.max(scan.committed);
    match scan.stop {
        Stop::Part => Ok(None),
        Stop::End(End::Shutdown) => {
            output.put(&COPY_DONE)?;
            Ok(Some(End::Shutdown))
        }
        Stop::End(end) => Ok(Some(end)),
        Stop::Error(start) => Err(report_at(alloc, unread, start)?),
        Stop::Nonsense(nonsense) => Err(Fault::Nonsense(nonsense)),
    }
}

/// How many bytes at the front of these are whole frames of a stream, for one who sends some.
pub fn whole_frames(bytes: &[u8]) -> usize
    ensures within { result ≤ length bytes.now }
    ensures whole { AreFrames (take result bytes.now) }
{
    go_over(bytes, None, Phase::Outside).ready
}

/// The ErrorResponse that begins here.
fn report_at(alloc: Global, bytes: &[u8], start: usize) -> Result<Fault, Fault> {
    let frame = bytes.get(start..).unwrap_or(&[]);
    let length = wire::first_length(frame)?.unwrap_or(0);
    let body = frame.get(5..length).unwrap_or(&[]);
    Ok(Fault::Server(read_report(alloc, body)?))
}

/// Sends what the output has to tell, and answers whether it wants more. Where nothing but keepalives came,
/// it waits for a while after the last time.
fn tell_server<L: Line + Drop, O: Output>(
    connection: &mut Connection<L>,
    output: &mut O,
    is_quiet: bool,
    standing: &mut Standing,
) -> Result<bool, Fault> {
    let now = connection.millis();
    if is_quiet
        && let Some(sent) = standing.sent
        && now.saturating_sub(sent) < PACE
    {
        return Ok(true);
    }
    let asking = ASKING.min(connection.limit() / 4);
    let due = standing.owes || now.saturating_sub(standing.told) >= asking;
    let mut updates = Vec::new(connection.alloc());
    let wanted = output.tell(&standing.relayed, due, &mut updates)?;
    if due {
        standing.told = now;
        standing.owes = false;
    }
    if !updates.is_empty() {
        standing.sent = Some(now);
        connection.send(updates.as_slice())?;
    }
    Ok(wanted)
}

/// Tells the server how far the stream was put, ends the stream, and waits until the server has heard it.
fn finish<L: Line + Drop, O: Output>(
    connection: &mut Connection<L>,
    output: &mut O,
    put: &Relayed,
    end: End,
) -> Result<End, Fault> {
    let mut updates = Vec::new(connection.alloc());
    output.tell(put, true, &mut updates)?;
    updates.extend_from_slice(&COPY_DONE)?;
    match connection.send(updates.as_slice()) {
        Ok(()) => {}
        // A server that shuts down doesn't listen any more.
        Err(_) if end == End::Shutdown => return Ok(end),
        Err(fault) => return Err(fault),
    }
    let began = connection.millis();
    for _ in 0..u64::MAX {
        match connection.receive() {
            Ok(message) if message.tag != b'C' && message.tag != b'E' => {}
            Ok(_) | Err(_) => break,
        }
        if connection.millis().saturating_sub(began) > connection.limit() {
            break;
        }
    }
    Ok(end)
}
