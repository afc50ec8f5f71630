// What ends a command.
use crate::place::Place;
use crate::report::ServerReport;
use std::alloc::{AllocError, AllocFailed};
use std::io;
use thiserror::Error;

/// Why a command can't go on.
#[derive(Debug, Drop, Error)]
pub enum Fault {
    /// The server's address can't be resolved or connected to within the time limit.
    #[error("CannotConnect: {0}")]
    CannotConnect(io::Error),
    /// The server closed the connection.
    #[error("Closed: the server closed the connection")]
    Closed,
    /// The server's answer was not whole, or it took nothing, within the time limit.
    #[error("TimedOut: the server did not answer within the time limit")]
    TimedOut,
    /// The connection broke.
    #[error("Broken: {0}")]
    Broken(io::Error),
    /// The server sent what it may not send here.
    #[error("Nonsense: {0}")]
    Nonsense(Nonsense),
    /// The server sent an ErrorResponse.
    #[error("Server: {0}")]
    Server(ServerReport),
    /// The server asks for a password, and there is none.
    #[error("NoPassword: the server asks for a password: PGPASSWORD or a password file may have it")]
    NoPassword,
    /// The server asks for another way to authenticate. The number is that of its request.
    #[error("UnknownAuthentication: the server asks for authentication {0}")]
    UnknownAuthentication(u32),
    /// The server asks for the password in clear text, over TCP.
    #[error("ClearText: the server asks for the password in clear text; --allow-cleartext sends it")]
    ClearText,
    /// The server asks for a way to authenticate, here by libpq's name, that is not to be taken.
    #[error("Excluded: the server asks for authentication {0}, which --require-auth excludes")]
    Excluded(&'static str),
    /// PGSSLMODE, or the URI's sslmode, asks for TLS.
    #[error("NoTls: PGSSLMODE or sslmode asks for TLS, and there is none: go through a tunnel, as ssh -L")]
    NoTls,
    /// The server offers no SASL mechanism that is known here.
    #[error("NoMechanism: the server does not offer SCRAM-SHA-256")]
    NoMechanism,
    /// The server's signature is not that of one that knows the password.
    #[error("NotVerified: the server's SCRAM signature is wrong or missing")]
    NotVerified,
    /// The server asks for more rounds of SCRAM than would end in time.
    #[error("TooManyRounds: the server asks for {0} rounds of SCRAM")]
    TooManyRounds(u32),
    /// The server asks for fewer rounds of SCRAM than PostgreSQL's own default: its proof would be cheap to
    /// guess a password from.
    #[error("TooFewRounds: the server asks for {0} rounds of SCRAM, and 4096 is the least")]
    TooFewRounds(u32),
    /// An answer has more rows than were asked for, or takes more than 64 MiB.
    #[error("TooManyRows: the answer has more rows than were asked for, or more than 64 MiB")]
    TooManyRows,
    /// The server is too old. The numbers are its `server_version_num`, and the least.
    #[error("OldServer: server version {0}, and {1} is the least")]
    OldServer(u32, u32),
    /// No publication has the name.
    #[error("NoPublication: no publication has this name")]
    NoPublication,
    /// No slot has the name.
    #[error("NoSlot: no replication slot has this name; --create makes one")]
    NoSlot,
    /// The output can't be opened or written.
    #[error("CannotWrite: {0}")]
    CannotWrite(io::Error),
    /// The file is no capture of this publication through this slot of this server.
    #[error("OtherCapture: the file is no capture of this publication through this slot of this server")]
    OtherCapture,
    /// Another capture has the file.
    #[error("InUse: another capture has the file")]
    InUse,
    /// The copy of the rows that the file begins with isn't whole.
    #[error("HalfCopy: the file's copy of the rows is not whole: drop the slot, and begin again")]
    HalfCopy,
    /// The slot, at the first place, is past the end of the file, at the second: what is between is lost.
    #[error("Lost: the slot stands at {0}, and the file ends at {1}: begin again")]
    Lost(Place, Place),
    /// The file can't be read.
    #[error("CannotRead: {0}")]
    CannotRead(io::Error),
    /// The address can't be listened at.
    #[error("CannotListen: {0}")]
    CannotListen(io::Error),
    /// The address is one that other machines reach.
    #[error("NotLoopback: other machines reach this address, and whoever connects is given all rows; --listen-any listens there")]
    NotLoopback,
    /// The follower confirmed a place of the log, the first, beyond what it was given, the second.
    #[error("Ahead: the follower confirmed {0}, and was given the log up to {1}")]
    Ahead(Place, Place),
    /// Another follower has the stream.
    #[error("Busy: another follower is being served")]
    Busy,
    /// The follower closed, was silent or sent what is no status update.
    #[error("Follower: {0}")]
    Follower(&'static str),
    /// The system's clock or its random numbers can't be read.
    #[error("System: {0}")]
    System(io::Error),
    /// Memory was refused.
    #[error("OutOfMemory: out of memory")]
    OutOfMemory,
}

/// What a server may not send.
#[derive(Clone, Copy, Debug, PartialEq, Eq, Error)]
pub enum Nonsense {
    /// A length that is less than 4.
    #[error("a message of a bad length")]
    BadLength,
    /// A message that is longer than [`crate::wire::MAX_LENGTH`].
    #[error("a message that is too long")]
    TooLong,
    /// A message that may not come here.
    #[error("a message that may not come here")]
    Unexpected,
    /// A message that ends inside a field, or goes on behind its last.
    #[error("a message whose fields do not fit")]
    BadFields,
    /// A text that is not UTF-8.
    #[error("a text that is not UTF-8")]
    BadText,
    /// A SCRAM message that is not spelled as RFC 5802 says, or not an answer to ours.
    #[error("a bad SCRAM message")]
    BadScram,
    /// A row of the server's own tables that is not as was asked for.
    #[error("a row that was not asked for")]
    BadRow,
}

impl From<Nonsense> for Fault {
    fn from(nonsense: Nonsense) -> Fault {
        Fault::Nonsense(nonsense)
    }
}

impl From<AllocError> for Fault {
    fn from(_error: AllocError) -> Fault {
        Fault::OutOfMemory
    }
}

impl<T: Drop> From<AllocFailed<T>> for Fault {
    fn from(_error: AllocFailed<T>) -> Fault {
        Fault::OutOfMemory
    }
}
