// The way to the server: bytes that come and go, and the time that passes.
ghost use Rattle.std.specs.Prelude.{◌≤◌, length, IfOk};

use crate::fault::Fault;
use std::io;
use std::io::{ErrorKind, Read, Write};
use std::net::TcpStream;
use std::os::unix::net::UnixStream;
use std::rt::Clock;
use std::time::{Duration, Instant};

/// Why no bytes were read.
#[derive(Clone, Copy, Debug)]
pub enum Unread {
    /// None came yet.
    NotYet,
    /// The connection broke.
    Failed(io::Error),
}

/// A connection, and a clock.
pub trait Line {
    /// Reads some bytes into the front of `buf`, and answers how many: 0 only at the end, or where
    /// `buf` is empty. It waits at most for a tick, a part of a second.
    fn read_some(&mut self, buf: &mut [u8]) -> Result<usize, Unread>
        ensures { IfOk result (λ n. n ≤ length buf.old) };

    /// Writes all of the bytes.
    fn write_whole(&mut self, bytes: &[u8]) -> Result<(), Fault>;

    /// Milliseconds since some start. It never falls.
    fn millis(&mut self) -> u64;
}

/// A stream socket.
#[derive(Debug, Drop)]
pub enum Socket {
    /// To a host and a port.
    Tcp(TcpStream),
    /// Within the machine.
    Unix(UnixStream),
}

impl Socket {
    /// Sets how long a read and a write may wait.
    pub fn set_waits(&self, read: Duration, write: Duration) -> io::Result<()> {
        match self {
            Socket::Tcp(stream) => {
                stream.set_read_timeout(Some(read))?;
                stream.set_write_timeout(Some(write))
            }
            Socket::Unix(stream) => {
                stream.set_read_timeout(Some(read))?;
                stream.set_write_timeout(Some(write))
            }
        }
    }

    fn read(&mut self, buf: &mut [u8]) -> io::Result<usize>
        ensures { IfOk result (λ n. n ≤ length buf.old) }
    {
        match self {
            Socket::Tcp(stream) => stream.read(buf),
            Socket::Unix(stream) => stream.read(buf),
        }
    }

    fn write_all(&mut self, bytes: &[u8]) -> io::Result<()> {
        match self {
            Socket::Tcp(stream) => stream.write_all(bytes),
            Socket::Unix(stream) => stream.write_all(bytes),
        }
    }
}

/// A socket with the system's clock.
#[derive(Debug, Drop)]
pub struct SocketLine<'a, H: Clock> {
    socket: Socket,
    host: &'a H,
    start: Instant,
    last: u64,
}

impl<'a, H: Clock> SocketLine<'a, H> {
    /// A line whose clock starts now. The socket's waits are set.
    pub fn new(host: &'a H, socket: Socket) -> Result<SocketLine<'a, H>, Fault> {
        let start = Instant::now(host).map_err(Fault::System)?;
        Ok(SocketLine {
            socket,
            host,
            start,
            last: 0,
        })
    }
}

impl<H: Clock> Line for SocketLine<'_, H> {
    fn read_some(&mut self, buf: &mut [u8]) -> Result<usize, Unread> {
        match self.socket.read(buf) {
            Ok(count) => Ok(count),
            Err(error) => match error.kind() {
                ErrorKind::WouldBlock | ErrorKind::TimedOut | ErrorKind::Interrupted => {
                    Err(Unread::NotYet)
                }
                _ => Err(Unread::Failed(error)),
            },
        }
    }

    fn write_whole(&mut self, bytes: &[u8]) -> Result<(), Fault> {
        match self.socket.write_all(bytes) {
            Ok(()) => Ok(()),
            Err(error) => Err(match error.kind() {
                ErrorKind::WouldBlock | ErrorKind::TimedOut => Fault::TimedOut,
                _ => Fault::Broken(error),
            }),
        }
    }

    fn millis(&mut self) -> u64 {
        if let Ok(elapsed) = self.start.elapsed(self.host) {
            self.last = u64::try_from(elapsed.as_millis()).unwrap_or(self.last);
        }
        self.last
    }
}
