// Makes inputs for `pgapply` from a live PostgreSQL server: a catalog of a publication's tables, and the
// bytes of its stream. The program has the crate's name, publisher: it talks to the publisher.
//
//     publisher catalog --publication P [--text]
//     publisher capture --publication P --slot S [--create [--copy]] --out F [--append]
//                       [--until LSN] [--seconds N]
//     publisher serve   --publication P --slot S [--create [--copy]] --listen A [--listen-any] [--once]
//                       [--until LSN] [--seconds N]
//
// Each takes --host, --port, --user and --dbname, which may be a connection URI, or libpq's PGHOST, PGPORT,
// PGUSER and PGDATABASE, --require-auth or PGREQUIREAUTH, --allow-cleartext, and --timeout, the seconds that
// an answer may take. A password is taken from PGPASSWORD, else from a password file (PGPASSFILE, ~/.pgpass).
// There is no TLS: the rows go over the wire as they are, so go through a tunnel
// (ssh -L 5433:localhost:5432 HOST, then --host localhost --port 5433) or a Unix socket.
//
// What is promised: it is safe and total, whatever the server sends, and each refusal has a name on
// standard error and status 1. It writes only whole frames.
//
// This crate reads the environment, opens and prints; `publisher_command` reads the command line, `server` and
// `publication` do the work.
#![tactic(auto)]

use publication::catalog::Printed;
use publisher_command::{
    Job, Options, Parts, Variables, asks_tls, find_password, read_passfile, read_ways,
};
use server::auth::{Password, Ways};
use server::capture::{Destination, capture};
use server::events::{Event, say};
use server::fault::Fault;
use server::host::Server;
use server::serve::serve;
use server::stream::Subscription;
use std::alloc::AllocError;
use std::env::VarError;
use std::io;
use std::io::Write;
use std::process::ExitCode;

fn main(rt: HostRuntime) -> anyhow::Result<ExitCode> {
    let words: Vec<String> = std::env::args(&rt)?.collect(rt.alloc())?;
    match publisher_command::parse(rt.alloc(), words.as_slice()) {
        Ok(options) => Ok(ExitCode::from(run(&rt, &options)?)),
        Err(error) => {
            error.print(&rt)?;
            Ok(ExitCode::from(if error.use_stderr() { 1 } else { 0 }))
        }
    }
}

/// Runs a command. It answers the exit status.
fn run(rt: &HostRuntime, options: &Options<'_>) -> io::Result<u8> {
    match choose_server(rt, options)? {
        Some(server) => Ok(run_at(rt, options, &server)),
        None => {
            eprintln!(rt; "publisher: NoUser: give --user, or set PGUSER")?;
            Ok(1)
        }
    }
}

/// The server that is meant, with the password of the password file where no variable has one. None where no
/// user is named.
fn choose_server(rt: &HostRuntime, options: &Options<'_>) -> io::Result<Option<Server>> {
    let variables = read_variables(rt);
    let chosen = publisher_command::choose_server(rt.alloc(), options, &variables)?;
    let Some(mut server) = chosen else {
        return Ok(None);
    };
    if server.password.is_none()
        && let Some(path) = passfile_path(rt)?
    {
        let passfile = read_passfile(rt.alloc(), rt, path.as_str())?;
        server.password = find_password(rt.alloc(), passfile.as_slice(), &server)?;
    }
    Ok(Some(server))
}

/// Where the password file is: PGPASSFILE, else `.pgpass` of the user's home.
fn passfile_path(rt: &HostRuntime) -> Result<Option<String>, AllocError> {
    if let Some(path) = read_variable(rt, "PGPASSFILE") {
        return Ok(Some(path));
    }
    match read_variable(rt, "HOME") {
        Some(home) => Ok(Some(format!(in rt.alloc(); "{home}/.pgpass")?)),
        None => Ok(None),
    }
}

/// Runs a command at this server, and says its fault. It answers the exit status.
fn run_at(rt: &HostRuntime, options: &Options<'_>, server: &Server) -> u8 {
    match run_job(rt, options, server) {
        Ok(()) => 0,
        Err(fault) => {
            say(rt, Event::Failed(&fault));
            1
        }
    }
}

fn run_job(rt: &HostRuntime, options: &Options<'_>, server: &Server) -> Result<(), Fault> {
    let publication = options.publication;
    match &options.job {
        Job::Catalog { text } => print_catalog(rt, publication, server, *text),
        Job::Capture {
            slot,
            out,
            append,
            bounds,
        } => {
            let destination = match *out {
                out if *append => Destination::Behind(out),
                "-" => Destination::Stdout(rt.stdout()),
                out => Destination::File(out),
            };
            let asked = Subscription {
                server,
                publication,
                slot: *slot,
            };
            capture(rt.alloc(), rt, &asked, destination, *bounds)
        }
        Job::Serve { slot, service } => {
            let asked = Subscription {
                server,
                publication,
                slot: *slot,
            };
            serve(rt.alloc(), rt, &asked, service)
        }
    }
}

/// libpq's variables. One that is empty, or is not UTF-8, counts as not set. Of ways to authenticate that
/// libpq refuses none is taken.
fn read_variables(rt: &HostRuntime) -> Variables {
    Variables {
        parts: Parts {
            host: read_variable(rt, "PGHOST"),
            port: read_variable(rt, "PGPORT"),
            user: read_variable(rt, "PGUSER"),
            database: read_variable(rt, "PGDATABASE"),
            ways: read_variable(rt, "PGREQUIREAUTH").map(|text| read_ways(text.as_str()).unwrap_or(
                Ways::NONE,
            )),
            tls: read_variable(rt, "PGSSLMODE").map(|mode| asks_tls(mode.as_str())),
        },
        password: read_variable(rt, "PGPASSWORD").map(|text| Password { text }),
        login: read_variable(rt, "USER"),
    }
}

fn read_variable(rt: &HostRuntime, name: &str) -> Option<String> {
    let value: Result<String, VarError> = std::env::var(rt, name);
    match value {
        Ok(value) if !value.is_empty() => Some(value),
        _ => None,
    }
}

/// `catalog`: the catalog goes to standard output, what it leaves out to standard error, and the publication
/// that fits it.
fn print_catalog(
    rt: &HostRuntime,
    publication: &str,
    server: &Server,
    text: bool,
) -> Result<(), Fault> {
    let mut connection = server.connect(rt.alloc(), rt, false)?;
    let answers = publication::catalog::ask(&mut connection, publication)?;
    let printed = publication::catalog::print(rt.alloc(), &answers, text)?;
    write_catalog(rt, &printed)
}

/// Writes a catalog and its notes, and on a line of its own the publication that fits it.
fn write_catalog(rt: &HostRuntime, printed: &Printed) -> Result<(), Fault> {
    for note in &printed.notes {
        eprintln!(rt; "publisher: {note}").map_err(Fault::CannotWrite)?;
    }
    if let Some(statement) = &printed.statement {
        eprintln!(rt; "publisher: the publication that fits this catalog:\n{statement}").map_err(
            Fault::CannotWrite,
        )?;
    }
    let mut stdout = rt.stdout();
    stdout
        .write_all(printed.toml.as_bytes())
        .map_err(Fault::CannotWrite)?;
    stdout.flush().map_err(Fault::CannotWrite)
}
