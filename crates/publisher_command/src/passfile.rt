// The password file of libpq (PostgreSQL manual: The Password File).
use crate::variables::SOCKETS;
use server::auth::Password;
use server::host::Server;
use std::alloc::{AllocError, Global};
use std::fs::{File, Files};
use std::io;
use std::io::Read;
use std::os::unix::fs::PermissionsExt;

/// Reads a password file, if it is there. One that its group or others may read, what is no file, and what
/// can't be read is passed over, which is said on standard error.
pub fn read_passfile<H: Files<File = File> + Eprint>(
    alloc: Global,
    host: &H,
    path: &str,
) -> io::Result<Vec<u8>> {
    let Ok(found) = std::fs::metadata(host, path) else {
        return Ok(Vec::new(alloc));
    };
    let reason = if found.permissions().mode() & 0o077 != 0 {
        "its group or others may use it, and its mode should be 0600"
    } else if !found.is_file() {
        "it is no plain file"
    } else {
        match read_file(alloc, host, path) {
            Ok(bytes) => return Ok(bytes),
            Err(_) => "it can't be read",
        }
    };
    eprintln!(host; "publisher: the password file {path:?} is passed over: {reason}")?;
    Ok(Vec::new(alloc))
}

fn read_file<H: Files<File = File>>(alloc: Global, host: &H, path: &str) -> io::Result<Vec<u8>> {
    let mut bytes = Vec::new(alloc);
    let mut file: File = File::open(host, path)?;
    file.read_to_end(&mut bytes)?;
    Ok(bytes)
}

/// The password of the first line that is of this server, its database and its user, if one is.
pub fn find_password(
    alloc: Global,
    passfile: &[u8],
    server: &Server,
) -> Result<Option<Password>, AllocError> {
    for line in passfile.split(|byte| *byte == b'\n') {
        let line = line.strip_suffix(b"\r").unwrap_or(line);
        if line.starts_with(b"#") {
            continue;
        }
        if let Some(rest) = behind_server(alloc, line, server)? {
            let (password, _) = split_field(alloc, rest)?;
            return Ok(match std::str::from_utf8(password.as_slice()) {
                Ok(text) => Some(Password {
                    text: String::from_str(alloc, text)?,
                }),
                Err(_) => None,
            });
        }
    }
    Ok(None)
}

/// What stands behind host, port, database and user of a line, if these are the server's. A server at the
/// default directory of Unix sockets is called `localhost` there.
fn behind_server<'a>(
    alloc: Global,
    line: &'a [u8],
    server: &Server,
) -> Result<Option<&'a [u8]>, AllocError> {
    let host = match server.host.as_str() {
        SOCKETS => "localhost",
        host => host,
    };
    let port = server.port.as_str();
    let mut rest = line;
    for wanted in [host, port, server.database.as_str(), server.user.as_str()] {
        match behind_field(alloc, rest, wanted)? {
            Some(behind) => rest = behind,
            None => return Ok(None),
        }
    }
    Ok(Some(rest))
}

/// What stands behind a field and its colon, if the field is `*` or spells this text.
fn behind_field<'a>(
    alloc: Global,
    line: &'a [u8],
    wanted: &str,
) -> Result<Option<&'a [u8]>, AllocError> {
    if let Some(behind) = line.strip_prefix(b"*:") {
        return Ok(Some(behind));
    }
    let (text, behind) = split_field(alloc, line)?;
    Ok(if text.as_slice() == wanted.as_bytes() {
        behind
    } else {
        None
    })
}

/// The text of the first field, in which a backslash stands before a colon or a backslash of its own, and what
/// stands behind the colon that ends it, if one does.
fn split_field(alloc: Global, line: &[u8]) -> Result<(Vec<u8>, Option<&[u8]>), AllocError> {
    let mut text = Vec::new(alloc);
    let mut rest = line;
    for _ in 0..line.len() {
        match rest {
            [b':', behind @ ..] => return Ok((text, Some(behind))),
            [b'\\', byte, behind @ ..] | [byte, behind @ ..] => {
                text.push(*byte)?;
                rest = behind;
            }
            [] => break,
        }
    }
    Ok((text, None))
}
