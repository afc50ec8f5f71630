// The commands with their options, and what the words of a command line ask for.
ghost use Rattle.std.specs.Prelude.{◌≡◌, ◌≤◌, IfSome, Some, None};

use crate::parts::{NOTHING_SAID, Parts};
use crate::uri::read_uri;
use crate::ways::read_ways;
use clap::builder::ValueParser;
use clap::error::ErrorKind;
use clap::{Arg, ArgAction, ArgMatches, Command, Error};
use server::auth::Ways;
use server::place::read_place;
use server::relay::Bounds;
use server::serve::Service;
use server::stream::Slot;
use std::alloc::{AllocError, Global};

/// What a command line asks for.
#[derive(Debug, Drop)]
pub struct Options<'a> {
    /// The command.
    pub job: Job<'a>,
    /// The publication's name.
    pub publication: &'a str,
    /// What the connection URI says, if the option for the database has one.
    pub(crate) uri: Parts,
    pub(crate) host: Option<&'a str>,
    pub(crate) port: Option<&'a str>,
    pub(crate) user: Option<&'a str>,
    pub(crate) database: Option<&'a str>,
    /// The ways to authenticate that are taken, if that was said.
    pub(crate) ways: Option<Ways>,
    /// Whether the password may be sent in clear text over TCP.
    pub(crate) clear_text: bool,
    /// How many milliseconds an answer may take.
    pub(crate) limit: u64,
    ghost a_second: { 1000 ≤ limit },
}

/// A command, with what it alone takes.
#[derive(Debug, Drop)]
pub enum Job<'a> {
    /// Prints a catalog.
    Catalog {
        /// Whether columns of other types are kept as text.
        text: bool,
    },
    /// Captures a stream.
    Capture {
        /// The slot whose stream it is.
        slot: Slot<'a>,
        /// A file that isn't there yet, or `-` for standard output.
        out: &'a str,
        /// Whether the file is there, from an earlier capture that this one goes on from.
        append: bool,
        /// Where and when the capture ends.
        bounds: Bounds,
    },
    /// Gives a stream to followers.
    Serve {
        /// The slot whose stream it is.
        slot: Slot<'a>,
        /// Where followers come.
        service: Service<'a>,
    },
}

const MOST_SECONDS: u64 = 1_000_000_000;

/// An option of a command: its name, what its value is called, and its help.
#[derive(Clone, Copy)]
enum Choice {
    /// One that has a value and must be given.
    Required(&'static str, &'static str, &'static str),
    /// One that has a value.
    Named(&'static str, &'static str, &'static str),
    /// A number of seconds.
    Seconds(&'static str, &'static str),
    /// The same, and the number that it is where none is given.
    DefaultSeconds(&'static str, &'static str, &'static str),
    /// One without a value.
    Flag(&'static str, &'static str),
    /// One without a value that goes with another, the last name, alone.
    FlagWith(&'static str, &'static str, &'static str),
    /// One without a value that doesn't go with another.
    FlagWithout(&'static str, &'static str, &'static str),
}

/// What all commands take.
static COMMON: [Choice; 8] = [
    Choice::Required("publication", "P", "The publication"),
    Choice::Named(
        "host",
        "H",
        "Host, or directory of the Unix socket [PGHOST]",
    ),
    Choice::Named("port", "N", "Port [PGPORT]"),
    Choice::Named("user", "U", "User [PGUSER]"),
    Choice::Named(
        "dbname",
        "D",
        "Database, or postgresql://USER@HOST:PORT/DATABASE, which goes before the other options [PGDATABASE]",
    ),
    Choice::Named(
        "require-auth",
        "M",
        "Ways to authenticate, as libpq has them: scram-sha-256, or a list, or !password [PGREQUIREAUTH]",
    ),
    Choice::Flag(
        "allow-cleartext",
        "Send the password in clear text over TCP if the server asks for it",
    ),
    Choice::DefaultSeconds(
        "timeout",
        "Seconds that an answer may take, and that a stream's server may be silent",
        "30",
    ),
];

/// What a command takes that reads a slot's stream.
static STREAMING: [Choice; 3] = [
    Choice::Required("slot", "S", "The replication slot"),
    Choice::Flag("create", "Make the slot first"),
    Choice::FlagWith(
        "copy",
        "Begin with the rows that are there as the slot is made; with --create",
        "create",
    ),
];

static CATALOG: [Choice; 1] = [Choice::Flag(
    "text",
    "Keep columns of other types as text where their text stands for the value",
)];

static CAPTURE: [Choice; 2] = [
    Choice::Required(
        "out",
        "F",
        "A file that is not there yet, - for standard output",
    ),
    Choice::FlagWithout(
        "append",
        "Go on behind an earlier capture of the slot, which the file has",
        "create",
    ),
];

/// Where a stream ends.
static BOUNDS: [Choice; 2] = [
    Choice::Named(
        "until",
        "LSN",
        "End the stream before what commits at this place of the server's log, as 1/2A",
    ),
    Choice::Seconds("seconds", "End the stream after N seconds"),
];

static SERVE: [Choice; 3] = [
    Choice::Required(
        "listen",
        "A",
        "The address to listen at, HOST:PORT; whoever connects is given all rows",
    ),
    Choice::Flag(
        "listen-any",
        "Listen at an address that other machines reach",
    ),
    Choice::Flag("once", "End with the first follower"),
];

/// The commands and their options.
fn command<'a>(alloc: Global) -> Result<Command<'a>, AllocError> {
    let program = Command::new(alloc, "publisher")
        .version("0.1.0")
        .about(
            "Makes inputs for pgapply from a live PostgreSQL server, 14 or later. The password is \
                taken from PGPASSWORD, or a password file (PGPASSFILE, ~/.pgpass). There is no TLS: go through a tunnel, as ssh -L.",
        )
        .subcommand_required(true);
    let program = with_subcommand(
        alloc,
        program,
        "catalog",
        "Print the catalog of a publication's tables as TOML",
        &[&COMMON, &CATALOG],
    )?;
    let program = with_subcommand(
        alloc,
        program,
        "capture",
        "Write the bytes of a publication's stream to a file (PostgreSQL 16 or later)",
        &[&COMMON, &STREAMING, &CAPTURE, &BOUNDS],
    )?;
    with_subcommand(
        alloc,
        program,
        "serve",
        "Give the stream to one follower at a time (PostgreSQL 16 or later)",
        &[&COMMON, &STREAMING, &SERVE, &BOUNDS],
    )
}

/// The program with a command of this name, help and options.
fn with_subcommand<'a>(
    alloc: Global,
    program: Command<'a>,
    name: &'a str,
    about: &'a str,
    lists: &[&[Choice]],
) -> Result<Command<'a>, AllocError> {
    let command = Command::new(alloc, name).about(about);
    program.subcommand(with_choices(alloc, command, lists)?)
}

/// The command with these options, in order.
fn with_choices<'a>(
    alloc: Global,
    command: Command<'a>,
    lists: &[&[Choice]],
) -> Result<Command<'a>, AllocError> {
    let mut command = command;
    for choices in lists {
        for choice in *choices {
            command = command.arg(argument(alloc, *choice)?)?;
        }
    }
    Ok(command)
}

fn argument<'a>(alloc: Global, choice: Choice) -> Result<Arg<'a>, AllocError> {
    Ok(match choice {
        Choice::Required(name, value, help) => {
            value_argument(alloc, name, value, help).required(true)
        }
        Choice::Named(name, value, help) => value_argument(alloc, name, value, help),
        Choice::Seconds(name, help) => seconds_argument(alloc, name, help),
        Choice::DefaultSeconds(name, help, default) => {
            seconds_argument(alloc, name, help).default_value(default)
        }
        Choice::Flag(name, help) => flag_argument(alloc, name, help),
        Choice::FlagWith(name, help, other) => {
            flag_argument(alloc, name, help).requires_arg(other)?
        }
        Choice::FlagWithout(name, help, other) => {
            flag_argument(alloc, name, help).conflicts_with(other)?
        }
    })
}

fn flag_argument<'a>(alloc: Global, name: &'a str, help: &'a str) -> Arg<'a> {
    Arg::new(alloc, name)
        .long(name)
        .help(help)
        .action(ArgAction::SetTrue)
}

fn value_argument<'a>(alloc: Global, name: &'a str, value: &'a str, help: &'a str) -> Arg<'a> {
    Arg::new(alloc, name)
        .long(name)
        .value_name(value)
        .help(help)
        .action(ArgAction::Set)
}

fn seconds_argument<'a>(alloc: Global, name: &'a str, help: &'a str) -> Arg<'a> {
    value_argument(alloc, name, "N", help).value_parser(ValueParser::unsigned(1, MOST_SECONDS))
}

/// What the words ask for, or the text of a usage fault or of help.
pub fn parse<'a>(alloc: Global, words: &'a [String]) -> Result<Options<'a>, Error> {
    let mut program = command(alloc)?;
    let matches = program.try_get_matches_from_mut(words)?;
    read_matches(alloc, &mut program, &matches)
}

/// What a command line asks for that the program matches, or the text of a usage fault.
fn read_matches<'a>(
    alloc: Global,
    program: &mut Command<'_>,
    matches: &ArgMatches<'a>,
) -> Result<Options<'a>, Error> {
    if let Some((option, text, wanted)) = first_refused(alloc, matches) {
        let message = format!(in alloc; "invalid value '{text}' for '--{option}': {wanted}")?;
        return Err(program.error(ErrorKind::ValueValidation, message.as_str())?);
    }
    match given_options(alloc, matches) {
        Some(options) => Ok(options),
        None => Err(program.error(ErrorKind::MissingRequiredArgument, "an option is missing")?),
    }
}

/// The first option whose value is not one of its own, the value, and what it should be.
fn first_refused<'a>(
    alloc: Global,
    matches: &ArgMatches<'a>,
) -> Option<(&'static str, &'a str, &'static str)> {
    let (_, given) = matches.subcommand()?;
    for option in ["timeout", "seconds"] {
        if seconds(given.get_str(option)).is_none() {
            let wanted = "a number from 1 to 1000000000";
            return Some((option, given.get_str(option)?, wanted));
        }
    }
    if place(given.get_str("until")).is_none() {
        let wanted = "an LSN as 1/2A";
        return Some(("until", given.get_str("until")?, wanted));
    }
    if ways(given.get_str("require-auth")).is_none() {
        let wanted =
            "a list of password, md5, scram-sha-256, gss, sspi and none, or of these each behind !";
        return Some(("require-auth", given.get_str("require-auth")?, wanted));
    }
    match Database::read(alloc, given.get_str("dbname")) {
        // A password in it is not to be shown.
        Err(wanted) => Some(("dbname", "..", wanted)),
        Ok(_) => None,
    }
}

/// What the option for the database has.
#[derive(Drop)]
struct Database<'a> {
    name: Option<&'a str>,
    uri: Parts,
}

impl<'a> Database<'a> {
    /// Reads the option's value, if it was given, or says what it should be.
    fn read(alloc: Global, text: Option<&'a str>) -> Result<Database<'a>, &'static str> {
        let uri = match text {
            Some(text) => read_uri(alloc, text),
            None => None,
        };
        match (uri, text) {
            (Some(Ok(uri)), _) => Ok(Database { name: None, uri }),
            (Some(Err(fault)), _) => Err(fault.text()),
            (None, Some(text)) if text.find('=').is_some() => {
                Err("of connection strings only a URI is taken, as postgresql://USER@HOST/DATABASE")
            }
            (None, name) => Ok(Database {
                name,
                uri: NOTHING_SAID,
            }),
        }
    }
}

fn given_options<'a>(alloc: Global, matches: &ArgMatches<'a>) -> Option<Options<'a>> {
    let (name, given) = matches.subcommand()?;
    let database = Database::read(alloc, given.get_str("dbname")).ok()?;
    Some(Options {
        job: given_job(name, given)?,
        publication: given.get_str("publication")?,
        host: given.get_str("host"),
        port: given.get_str("port"),
        user: given.get_str("user"),
        database: database.name,
        uri: database.uri,
        ways: ways(given.get_str("require-auth"))?,
        clear_text: given.get_flag("allow-cleartext"),
        limit: seconds(given.get_str("timeout"))??,
    })
}

fn given_job<'a>(name: &str, given: &ArgMatches<'a>) -> Option<Job<'a>> {
    match name {
        "catalog" => Some(Job::Catalog {
            text: given.get_flag("text"),
        }),
        "capture" => Some(Job::Capture {
            slot: given_slot(given)?,
            out: given.get_str("out")?,
            append: given.get_flag("append"),
            bounds: given_bounds(given)?,
        }),
        _ => Some(Job::Serve {
            slot: given_slot(given)?,
            service: Service {
                listen: given.get_str("listen")?,
                any: given.get_flag("listen-any"),
                once: given.get_flag("once"),
                bounds: given_bounds(given)?,
            },
        }),
    }
}

fn given_bounds(given: &ArgMatches<'_>) -> Option<Bounds> {
    Some(Bounds {
        until: place(given.get_str("until"))?,
        millis: seconds(given.get_str("seconds"))?,
    })
}

fn given_slot<'a>(given: &ArgMatches<'a>) -> Option<Slot<'a>> {
    Some(Slot {
        name: given.get_str("slot")?,
        create: given.get_flag("create"),
        copy: given.get_flag("copy"),
    })
}

/// Milliseconds of a number of seconds, if one was given.
fn seconds(text: Option<&str>) -> Option<Option<u64>>
    ensures absent { text.entry ≡ None → result ≡ Some None }
    ensures range { IfSome result (λ given. IfSome given (λ millis. (1000 ≤ millis) × (millis ≤ 1000000000000))) }
{
    let Some(text) = text else {
        return Some(None);
    };
    if !text.bytes().all(|byte| byte.is_ascii_digit()) {
        return None;
    }
    let number = text.parse::<u64>().ok()?;
    if 1 <= number && number <= MOST_SECONDS {
        Some(Some(number * 1000))
    } else {
        None
    }
}

/// A place in the log, if one was given.
fn place(text: Option<&str>) -> Option<Option<u64>>
    ensures { text.entry ≡ None → result ≡ Some None }
{
    match text {
        None => Some(None),
        Some(text) => Some(Some(read_place(text)?)),
    }
}

/// Ways to authenticate, if some were given.
fn ways(text: Option<&str>) -> Option<Option<Ways>>
    ensures { text.entry ≡ None → result ≡ Some None }
{
    match text {
        None => Some(None),
        Some(text) => Some(Some(read_ways(text)?)),
    }
}
