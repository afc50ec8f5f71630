// What a command reads its stream from, and where its status updates go.
use std::fs::File;
use std::io;
use std::io::{Read, Stdin, Write};
use std::net::TcpStream;
use tcp::Retried;

/// What a stream is read from.
#[derive(Debug, Drop)]
pub enum Stream {
    File(File),
    Stdin(Stdin),
    Connection(Retried<TcpStream>),
}

impl Read for Stream {
    fn read(&mut self, buf: &mut [u8]) -> io::Result<usize> {
        match self {
            Stream::File(file) => file.read(buf),
            Stream::Stdin(stdin) => stdin.read(buf),
            Stream::Connection(end) => end.read(buf),
        }
    }
}

/// Where status updates go.
#[derive(Debug, Drop)]
pub enum Updates {
    /// They are dropped: nobody reads those of a stream that comes from a file.
    Nowhere,
    Connection(Retried<TcpStream>),
}

impl Write for Updates {
    fn write(&mut self, buf: &[u8]) -> io::Result<usize> {
        match self {
            Updates::Nowhere => Ok(buf.len()),
            Updates::Connection(end) => end.write(buf),
        }
    }

    fn flush(&mut self) -> io::Result<()> {
        match self {
            Updates::Nowhere => Ok(()),
            Updates::Connection(end) => end.flush(),
        }
    }
}

/// How many bytes tell a file of pg_recvlogical apart.
pub const RECVLOGICAL: usize = 22;

/// Whether these bytes begin as a file of pg_recvlogical does: with Begin, of 21 bytes, or with Stream Start, of 6,
/// and a line feed, in place of a frame.
pub fn begins_as_recvlogical(front: &[u8; RECVLOGICAL]) -> bool {
    match front[0] {
        b'B' => front[21] == b'\n',
        b'S' => front[5] == 1 && front[6] == b'\n',
        _ => false,
    }
}
