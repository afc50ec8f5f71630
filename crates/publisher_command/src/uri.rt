// Connection URIs (PostgreSQL manual: Connection Strings): postgresql://USER@HOST:PORT/DATABASE?NAME=VALUE.
ghost use Rattle.std.specs.Prelude.{◌≡◌, string_bytes, IfOk, IfSome};
ghost use Rattle.percent_encoding.specs.Percent.{percent_decode};

use crate::parts::{NOTHING_SAID, Parts, asks_tls};
use crate::ways::read_ways;
use percent_encoding::percent_decode;
use std::alloc::{AllocError, Global};

/// Why a text is no connection URI that is taken.
#[derive(Clone, Copy, Debug, PartialEq, Eq)]
pub enum UriFault {
    /// It has a password.
    Password,
    /// It has more hosts than one.
    Hosts,
    /// It isn't spelled as a URI.
    Spelling,
    /// It has a parameter that isn't known, or a value that the parameter doesn't take.
    Parameter,
    /// Memory was refused.
    OutOfMemory,
}

impl UriFault {
    /// What is wrong with it.
    pub fn text(self) -> &'static str {
        match self {
            UriFault::Password => {
                "a password on a command line can be read by others: PGPASSWORD or a password file has it"
            }
            UriFault::Hosts => "it has more hosts than one",
            UriFault::Spelling => {
                "it is not spelled as postgresql://USER@HOST:PORT/DATABASE?NAME=VALUE"
            }
            UriFault::Parameter => {
                "of its parameters host, port, user, dbname, sslmode and require_auth are known, with values as libpq has them"
            }
            UriFault::OutOfMemory => "out of memory",
        }
    }
}

impl From<AllocError> for UriFault {
    fn from(_error: AllocError) -> UriFault {
        UriFault::OutOfMemory
    }
}

/// What a connection URI says. None for a text that doesn't begin as one.
pub fn read_uri(alloc: Global, text: &str) -> Option<Result<Parts, UriFault>> {
    let rest = text
        .strip_prefix("postgresql://")
        .or(text.strip_prefix("postgres://"))?;
    Some(read_behind(alloc, rest))
}

/// What a URI says behind its two slashes.
fn read_behind(alloc: Global, text: &str) -> Result<Parts, UriFault> {
    let mut parts = NOTHING_SAID;
    let (front, parameters) = split(text, '?');
    let (front, database) = split(front, '/');
    let host = match front.split_once('@') {
        Some((user, host)) => {
            if user.find(':').is_some() {
                return Err(UriFault::Password);
            }
            parts.user = decode(alloc, user)?;
            host
        }
        None => front,
    };
    read_host(alloc, host, &mut parts)?;
    parts.database = decode(alloc, database)?;
    if !parameters.is_empty() {
        for parameter in parameters.split('&') {
            read_parameter(alloc, parameter, &mut parts)?;
        }
    }
    Ok(parts)
}

/// What stands before the first such letter, and what behind it.
fn split(text: &str, letter: char) -> (&str, &str) {
    text.split_once(letter).unwrap_or((text, ""))
}

/// Reads HOST:PORT, of a host that may be an address of version 6 in brackets.
fn read_host(alloc: Global, text: &str, parts: &mut Parts) -> Result<(), UriFault> {
    if text.find(',').is_some() {
        return Err(UriFault::Hosts);
    }
    let (host, behind) = match text.strip_prefix("[") {
        Some(rest) => rest.split_once(']').ok_or(UriFault::Spelling)?,
        None => {
            let (host, port) = split(text, ':');
            parts.host = decode(alloc, host)?;
            parts.port = decode(alloc, port)?;
            return Ok(());
        }
    };
    parts.host = decode(alloc, host)?;
    match behind.strip_prefix(":") {
        Some(port) => parts.port = decode(alloc, port)?,
        None if behind.is_empty() => {}
        None => return Err(UriFault::Spelling),
    }
    Ok(())
}

/// Reads NAME=VALUE.
fn read_parameter(alloc: Global, text: &str, parts: &mut Parts) -> Result<(), UriFault> {
    let Some((name, value)) = text.split_once('=') else {
        return Err(UriFault::Spelling);
    };
    if value.find('=').is_some() {
        return Err(UriFault::Spelling);
    }
    let value = decode(alloc, value)?;
    match name {
        "host" => parts.host = value,
        "port" => parts.port = value,
        "user" => parts.user = value,
        "dbname" => parts.database = value,
        "sslmode" => parts.tls = value.map(|mode| asks_tls(mode.as_str())),
        "require_auth" => {
            let ways = value.and_then(|ways| read_ways(ways.as_str()));
            parts.ways = Some(ways.ok_or(UriFault::Parameter)?);
        }
        "password" => return Err(UriFault::Password),
        _ => return Err(UriFault::Parameter),
    }
    Ok(())
}

/// The text that percent-encoding spells, none for an empty one.
fn decode(alloc: Global, text: &str) -> Result<Option<String>, UriFault>
    ensures { IfOk result (λ found. IfSome found (λ decoded. string_bytes decoded ≡ percent_decode text.now)) }
{
    if text.is_empty() {
        return Ok(None);
    }
    if !text.split('%').skip(1).all(is_octet) {
        return Err(UriFault::Spelling);
    }
    let mut bytes = Vec::new(alloc);
    percent_decode(text.as_bytes()).append_to(&mut bytes)?;
    match std::str::from_utf8(bytes.as_slice()) {
        Ok(text) => Ok(Some(String::from_str(alloc, text)?)),
        Err(_) => Err(UriFault::Spelling),
    }
}

/// Whether what stands behind a percent sign begins with two hexadecimal digits, of a byte that isn't zero.
fn is_octet(text: &str) -> bool {
    match text.as_bytes().first_chunk::<2>() {
        Some(digits) => digits.iter().all(|digit| digit.is_ascii_hexdigit()) && digits != b"00",
        None => false,
    }
}
