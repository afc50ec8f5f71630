// Start-up and authentication (PostgreSQL manual: Start-up).
use crate::connection::Connection;
use crate::fault::{Fault, Nonsense};
use crate::line::Line;
use crate::scram::{Exchange, Proof};
use crate::wire;
use crate::wire::{Fields, Message};
use base64::engine::general_purpose::STANDARD;
use md5::{Digest, Md5};
use std::alloc::Global;
use std::fmt;

const MECHANISM: &str = "SCRAM-SHA-256";

/// A password, which is never printed.
#[derive(Drop)]
pub struct Password {
    /// As it was given.
    pub text: String,
}

impl fmt::Debug for Password {
    fn fmt<W: fmt::Write>(&self, f: &mut fmt::Formatter<W>) -> fmt::Result {
        f.debug_struct("Password").finish_non_exhaustive()
    }
}

/// Who connects to which database, and how.
#[derive(Clone, Copy, Debug)]
pub struct Login<'a> {
    /// The role that logs in.
    pub user: &'a str,
    /// The database.
    pub database: &'a str,
    /// The password, if there is one.
    pub password: Option<&'a Password>,
    /// Whether the connection takes replication commands.
    pub replication: bool,
    /// The ways to authenticate that are taken.
    pub ways: Ways,
    /// Whether the password may be sent in clear text.
    pub clear_text: bool,
}

/// Which ways to authenticate are taken, as libpq's `require_auth` has it.
#[derive(Clone, Copy, Debug, PartialEq, Eq)]
pub struct Ways {
    /// The server asks for no proof.
    pub none: bool,
    /// The password in clear text.
    pub password: bool,
    /// The password's MD5, salted.
    pub md5: bool,
    /// SCRAM-SHA-256.
    pub scram: bool,
}

impl Ways {
    /// Each of them.
    pub const ALL: Ways = Ways {
        none: true,
        password: true,
        md5: true,
        scram: true,
    };

    /// None of them.
    pub const NONE: Ways = Ways {
        none: false,
        password: false,
        md5: false,
        scram: false,
    };
}

/// What a session is asked to hold by, whatever is set for the role or the database: text forms of values, as
/// PostgreSQL's subscriber asks; rows that a policy would hide are an error; and no limit of the server ends a
/// copy, or the snapshot that waits for a follower.
const SETTINGS: &str =
    "-c datestyle=ISO -c intervalstyle=postgres -c extra_float_digits=3 -c timezone=UTC -c bytea_output=hex -c standard_conforming_strings=on -c row_security=off -c statement_timeout=0 -c lock_timeout=0 -c idle_in_transaction_session_timeout=0";

/// Connects as `login`, until the server is ready for a query. `random` makes the nonce of SCRAM.
pub fn log_in<L: Line + Drop>(
    connection: &mut Connection<L>,
    login: &Login<'_>,
    random: &[u8; 18],
) -> Result<(), Fault> {
    let mut parameters = [
        ("user", login.user),
        ("database", login.database),
        ("client_encoding", "UTF8"),
        ("application_name", "publisher"),
        ("options", SETTINGS),
        ("replication", "false"),
    ];
    if login.replication {
        parameters[5].1 = "database";
    }
    let startup = wire::startup(connection.alloc(), &parameters)?;
    connection.send(startup.as_slice())?;
    authenticate(connection, login, random)?;
    await_ready(connection)
}

/// Answers the server's requests until it says that the user is who it says.
fn authenticate<L: Line + Drop>(
    connection: &mut Connection<L>,
    login: &Login<'_>,
    random: &[u8; 18],
) -> Result<(), Fault> {
    let alloc = connection.alloc();
    let request = receive_request(connection)?;
    match request.kind {
        0 => return taken(login.ways.none, "none"),
        3 => {
            taken(login.ways.password, "password")?;
            if !login.clear_text {
                return Err(Fault::ClearText);
            }
            send_password(connection, needed(login.password)?)?;
        }
        5 => {
            taken(login.ways.md5, "md5")?;
            let password = needed(login.password)?;
            let salted = md5_password(alloc, login.user, password, request.content())?;
            send_password(connection, salted.as_str())?;
        }
        10 => {
            taken(login.ways.scram, "scram-sha-256")?;
            let password = needed(login.password)?;
            authenticate_by_scram(connection, password, &request, random)?;
        }
        other => return Err(Fault::UnknownAuthentication(other)),
    }
    match receive_request(connection)?.kind {
        0 => Ok(()),
        _ => Err(Fault::Nonsense(Nonsense::Unexpected)),
    }
}

/// Refuses a way to authenticate, by libpq's name, that is not taken.
fn taken(is_taken: bool, way: &'static str) -> Result<(), Fault> {
    if is_taken {
        Ok(())
    } else {
        Err(Fault::Excluded(way))
    }
}

fn needed(password: Option<&Password>) -> Result<&str, Fault> {
    match password {
        Some(password) => Ok(password.text.as_str()),
        None => Err(Fault::NoPassword),
    }
}

/// An Authentication message: its kind, and its content.
#[derive(Drop)]
struct Request {
    kind: u32,
    message: Message,
}

impl Request {
    /// What comes behind the kind.
    fn content(&self) -> &[u8] {
        self.message.body.as_slice().get(4..).unwrap_or(&[])
    }
}

fn receive_request<L: Line + Drop>(connection: &mut Connection<L>) -> Result<Request, Fault> {
    let message = connection.receive_answer()?;
    if message.tag != b'R' {
        return Err(Fault::Nonsense(Nonsense::Unexpected));
    }
    let kind = Fields::new(message.body.as_slice()).int32()?;
    Ok(Request { kind, message })
}

fn send_password<L: Line + Drop>(
    connection: &mut Connection<L>,
    password: &str,
) -> Result<(), Fault> {
    let alloc = connection.alloc();
    let mut body = Vec::new(alloc);
    wire::push_zero_ended(&mut body, password)?;
    let message = wire::frame(alloc, b'p', body.as_slice())?;
    connection.send(message.as_slice())
}

/// `md5` and the hexadecimal MD5 of: the hexadecimal MD5 of password and user, and the salt.
pub fn md5_password(
    alloc: Global,
    user: &str,
    password: &str,
    salt: &[u8],
) -> Result<String, Fault> {
    let inner = hex::encode(alloc, &md5_of(password.as_bytes(), user.as_bytes()))?;
    let outer = hex::encode(alloc, &md5_of(inner.as_bytes(), salt))?;
    Ok(format!(in alloc; "md5{outer}")?)
}

fn md5_of(first: &[u8], second: &[u8]) -> [u8; 16] {
    let mut hasher = Md5::new();
    hasher.update(first);
    hasher.update(second);
    hasher.finalize()
}

fn authenticate_by_scram<L: Line + Drop>(
    connection: &mut Connection<L>,
    password: &str,
    request: &Request,
    random: &[u8; 18],
) -> Result<(), Fault> {
    if !offers_scram(request.content())? {
        return Err(Fault::NoMechanism);
    }
    let alloc = connection.alloc();
    let nonce = STANDARD.encode(alloc, random.as_slice())?;
    let exchange = Exchange::new(alloc, "", nonce.as_str())?;
    send_first(connection, exchange.first()?.as_str())?;
    let challenge = receive_sasl(connection, 11)?;
    let proof = exchange.proof(password, text_of(challenge.content())?)?;
    let message = wire::frame(alloc, b'p', proof.message.as_bytes())?;
    connection.send(message.as_slice())?;
    verify(connection, &proof)
}

/// Whether the list of mechanisms, texts that end in zero and then one more zero, has SCRAM-SHA-256.
fn offers_scram(content: &[u8]) -> Result<bool, Fault> {
    let mut fields = Fields::new(content);
    for _ in 0..content.len() {
        let name = fields.zero_ended()?;
        if name == MECHANISM.as_bytes() {
            return Ok(true);
        }
        if name.is_empty() {
            break;
        }
    }
    Ok(false)
}

/// SASLInitialResponse.
fn send_first<L: Line + Drop>(connection: &mut Connection<L>, first: &str) -> Result<(), Fault> {
    let alloc = connection.alloc();
    let Ok(length) = u32::try_from(first.len()) else {
        return Err(Fault::OutOfMemory);
    };
    let mut body = Vec::new(alloc);
    wire::push_zero_ended(&mut body, MECHANISM)?;
    body.extend_from_slice(&length.to_be_bytes())?;
    body.extend_from_slice(first.as_bytes())?;
    let message = wire::frame(alloc, b'p', body.as_slice())?;
    connection.send(message.as_slice())
}

fn receive_sasl<L: Line + Drop>(
    connection: &mut Connection<L>,
    kind: u32,
) -> Result<Request, Fault> {
    let request = receive_request(connection)?;
    if request.kind == kind {
        return Ok(request);
    }
    // A server that says it is satisfied before it has shown that it knows the password.
    if request.kind == 0 {
        return Err(Fault::NotVerified);
    }
    Err(Fault::Nonsense(Nonsense::Unexpected))
}

/// Reads the server's last message, which has to be signed by one that knows the password.
fn verify<L: Line + Drop>(connection: &mut Connection<L>, proof: &Proof) -> Result<(), Fault> {
    let last = receive_sasl(connection, 12)?;
    if proof.is_answered_by(connection.alloc(), text_of(last.content())?) {
        Ok(())
    } else {
        Err(Fault::NotVerified)
    }
}

fn text_of(bytes: &[u8]) -> Result<&str, Fault> {
    match std::str::from_utf8(bytes) {
        Ok(text) => Ok(text),
        Err(_) => Err(Fault::Nonsense(Nonsense::BadText)),
    }
}

/// Reads up to ReadyForQuery.
fn await_ready<L: Line + Drop>(connection: &mut Connection<L>) -> Result<(), Fault> {
    for _ in 0..u64::MAX {
        match connection.receive_answer()?.tag {
            b'Z' => return Ok(()),
            b'K' => {}
            _ => return Err(Fault::Nonsense(Nonsense::Unexpected)),
        }
    }
    Err(Fault::TimedOut)
}
