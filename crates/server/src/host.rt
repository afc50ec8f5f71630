// Where a server is, and a connection to it that has logged in.
use crate::auth::{Login, Password, Ways, log_in};
use crate::connection::Connection;
use crate::fault::Fault;
use crate::line::{Socket, SocketLine};
use std::alloc::Global;
use std::io;
use std::net::{Net, TcpStream, ToSocketAddrs};
use std::os::unix::net::UnixStream;
use std::random::RandomSource;
use std::rt::Clock;
use std::time::Duration;

/// How long a read waits, so that limits and status updates are looked at: milliseconds.
const TICK: u64 = 100;

/// Where the server is, and who connects.
#[derive(Debug, Drop)]
pub struct Server {
    /// A host, or a directory, which begins with a slash.
    pub host: String,
    /// The port's number.
    pub port: String,
    /// The role that logs in.
    pub user: String,
    /// The database.
    pub database: String,
    /// The password, if there is one.
    pub password: Option<Password>,
    /// How many milliseconds an answer may take, and how long a stream's server may be silent.
    pub limit: u64,
    /// The ways to authenticate that are taken.
    pub ways: Ways,
    /// Whether the password may be sent in clear text over TCP.
    pub clear_text: bool,
    /// Whether TLS is asked for, which is refused but for a Unix socket.
    pub tls: bool,
}

impl Server {
    /// A connection that is ready for a query, or for a replication command.
    pub fn connect<'a, H: Net<Stream = TcpStream> + Clock + RandomSource>(
        &self,
        alloc: Global,
        host: &'a H,
        replication: bool,
    ) -> Result<Connection<SocketLine<'a, H>>, Fault> {
        let is_local = self.host.as_str().starts_with("/");
        if self.tls && !is_local {
            return Err(Fault::NoTls);
        }
        let wait = Duration::from_millis(self.limit);
        let socket = self
            .open_socket(alloc, host, wait)
            .map_err(Fault::CannotConnect)?;
        socket
            .set_waits(Duration::from_millis(TICK), wait)
            .map_err(Fault::CannotConnect)?;
        let mut random = [0u8; 18];
        host.fill_bytes(&mut random).map_err(Fault::System)?;
        let mut connection = Connection::new(alloc, SocketLine::new(host, socket)?, self.limit)?;
        let login = Login {
            user: self.user.as_str(),
            database: self.database.as_str(),
            password: self.password.as_ref(),
            replication,
            ways: self.ways,
            clear_text: self.clear_text || is_local,
        };
        log_in(&mut connection, &login, &random)?;
        Ok(connection)
    }

    /// The Unix socket of the port in a directory, or the first address of a host that answers.
    fn open_socket<H: Net<Stream = TcpStream>>(
        &self,
        alloc: Global,
        net: &H,
        wait: Duration,
    ) -> io::Result<Socket> {
        let host = self.host.as_str();
        let port = self.port.as_str();
        if host.starts_with("/") {
            let path = format!(in alloc; "{host}/.s.PGSQL.{port}")?;
            return Ok(Socket::Unix(UnixStream::connect(net, path.as_str())?));
        }
        let Ok(port) = port.parse::<u16>() else {
            return Err(io::Error::new(io::ErrorKind::InvalidInput, "the port is no number"));
        };
        let mut last = io::Error::from(io::ErrorKind::NotFound);
        for address in (host, port).to_socket_addrs(net)? {
            match TcpStream::connect_timeout(net, &address, wait) {
                Ok(stream) => return Ok(Socket::Tcp(stream)),
                Err(error) => last = error,
            }
        }
        Err(last)
    }
}
