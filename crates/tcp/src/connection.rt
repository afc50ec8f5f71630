// One TCP socket, as a source and a sink.
use crate::retried::Retried;
use frames::{ReadSource, WriteSink};
use std::io;
use std::net::{Net, TcpStream};

/// A connection to whoever sends a stream. It is closed where it is dropped, unless its ends were taken.
#[derive(Debug, Drop)]
pub struct Connection {
    stream: TcpStream,
}

impl Connection {
    /// Connects to `HOST:PORT`: a name, an IPv4 address or an IPv6 address in brackets, and a decimal
    /// number. The addresses of a name are tried in turn, and the last one's error is answered. Another
    /// text can't be connected to.
    pub fn open<N: Net<Stream = TcpStream>>(net: &N, address: &str) -> io::Result<Connection> {
        Connection::over(TcpStream::connect(net, address)?)
    }

    /// A connection over a stream that was opened before, whose next byte is the first of a frame.
    pub fn over(stream: TcpStream) -> io::Result<Connection> {
        stream.set_nodelay(true)?;
        Ok(Connection { stream })
    }

    /// What comes over it.
    pub fn source(&self) -> ReadSource<Retried<&TcpStream>> {
        ReadSource::new(Retried::new(&self.stream))
    }

    /// What goes over it.
    pub fn sink(&self) -> WriteSink<Retried<&TcpStream>> {
        WriteSink::new(Retried::new(&self.stream))
    }

    /// The end that is read and the end that is written, for whoever keeps them apart. The socket is
    /// closed once both are dropped.
    pub fn into_ends(self) -> io::Result<(Retried<TcpStream>, Retried<TcpStream>)> {
        let written = self.stream.try_clone()?;
        Ok((Retried::new(self.stream), Retried::new(written)))
    }
}
