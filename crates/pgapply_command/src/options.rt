// The command line. Limits and defaults of its numbers stand here alone.
use crate::lsn::read_lsn;
use clap::builder::ValueParser;
use clap::error::ErrorKind;
use clap::{Arg, ArgAction, ArgMatches, Command, Error};
use leader::{Config, Lsn};
use std::alloc::{AllocError, Global};

/// Where the stream comes from, as given.
#[derive(Clone, Copy, Debug, PartialEq, Eq)]
pub enum Input<'a> {
    /// A file.
    File(&'a str),
    /// Standard input, given as `-`.
    Stdin,
    /// Whoever listens at this `HOST:PORT`, to whom status updates go back.
    Connection(&'a str),
}

/// What a command line asks for.
#[derive(Debug, Drop)]
pub struct Options<'a> {
    /// `replay`: every streamed transaction is spooled.
    pub spooled: bool,
    /// The catalog file, as given.
    pub catalog: &'a str,
    pub input: Input<'a>,
    pub config: Config,
    /// Whether standard error says why and where a command ended.
    pub verbose: bool,
    /// Whether standard error says now and then how far the stream was read.
    pub progress: bool,
}

/// The example in a command's help.
macro_rules! example {
    ($command:literal, $input:literal) => {
        concat!("Example:\n  pgapply ", $command, " --config accounts.toml ", $input)
    };
}

/// The options that are numbers.
const NUMBERS: [&str; 3] = ["workers", "ring", "spool"];

/// The help and the parser of a number, both by its limits. It is a macro since a help has to live as long
/// as the words of the command line, so that no `format!` here can make it.
macro_rules! limited {
    ($help:literal, $least:literal to $most:literal) => {
        (
            concat!($help, ", ", $least, " to ", $most),
            ValueParser::unsigned($least, $most),
        )
    };
}

const STATUSES: &str = "\
Rows, position and end are printed to standard output. Exit statuses:
  0  the stream was applied to its end
  1  usage, a bad catalog, a file or connection that can't be opened, or output that can't be written
  2  the stream is broken, or the connection's device failed
  3  a conflict: a row breaks a key
  4  memory was refused";

/// The commands and their options.
pub fn command<'a>(alloc: Global) -> Result<Command<'a>, AllocError> {
    Command::new(alloc, "pgapply")
        .version("0.1.0")
        .about("Applies a PostgreSQL logical replication stream to tables, and prints them")
        .after_help(STATUSES)
        .subcommand_required(true)
        .subcommand(apply(alloc)?)?
        .subcommand(follow(alloc)?)?
        .subcommand(replay(alloc)?)
}

/// What the words ask for, or the text of a usage fault, of help or of the version.
pub fn parse<'a>(alloc: Global, words: &'a [String]) -> Result<Options<'a>, Error> {
    let mut program = command(alloc)?;
    let matches = program.try_get_matches_from_mut(words)?;
    let Some((name, given)) = matches.subcommand() else {
        return Err(program.error(ErrorKind::MissingSubcommand, "a command is missing")?);
    };
    match checked(alloc, given)? {
        Ok(skip) => Ok(options_of(name == "replay", skip, given)),
        Err(message) => Err(program.error(ErrorKind::ValueValidation, message.as_str())?),
    }
}

/// The transaction to skip, 0 for none; or what is told of the first value that is refused.
fn checked(alloc: Global, given: &ArgMatches<'_>) -> Result<Result<Lsn, String>, AllocError> {
    if let Some((option, text)) = first_with_sign(given) {
        return Ok(Err(format!(in alloc;
            "invalid value '{text}' for '--{option} <N>': only digits are allowed"
        )?));
    }
    let skip = match skip_of(given) {
        Ok(skip) => skip,
        Err(text) => {
            return Ok(Err(format!(in alloc;
                "invalid value '{text}' for '--skip <LSN>': an LSN is written as 16/B374D848, and 0/0 is none"
            )?));
        }
    };
    match given.get_str("connect") {
        Some(text) if !is_address(text) => Ok(Err(format!(in alloc;
            "invalid value '{text}' for '--connect <A>': an address is HOST:PORT, as localhost:5500"
        )?)),
        _ => Ok(Ok(skip)),
    }
}

/// Whether a text is a host, which is not looked at, and the number of a port.
pub fn is_address(text: &str) -> bool {
    match text.rsplit_once(':') {
        Some((host, port)) => !host.is_empty() && port.parse::<u16>().is_ok(),
        None => false,
    }
}

fn apply<'a>(alloc: Global) -> Result<Command<'a>, AllocError> {
    let command = reading(alloc, "apply", stream_file(alloc))?
        .about("Apply a stream from a file, streamed transactions while they come")
        .after_help(example!("apply", "--stream accounts.stream"));
    with_workers(alloc, command)
}

fn follow<'a>(alloc: Global) -> Result<Command<'a>, AllocError> {
    let command = reading(alloc, "follow", address(alloc))?
        .about("Apply a stream from a connection, and tell its sender how far it was applied")
        .after_help(example!("follow", "--connect localhost:5500"));
    with_workers(alloc, command)
}

fn replay<'a>(alloc: Global) -> Result<Command<'a>, AllocError> {
    Ok(
        reading(alloc, "replay", stream_file(alloc))?
            .about("Apply a stream from a file, each streamed transaction at its commit")
            .after_help(example!("replay", "--stream accounts.stream")),
    )
}

/// A command that reads a stream from this input.
fn reading<'a>(alloc: Global, name: &'a str, input: Arg<'a>) -> Result<Command<'a>, AllocError> {
    Command::new(alloc, name)
        .arg(file(
            alloc,
            "config",
            "The catalog: a TOML file that defines the tables",
        ))?
        .arg(input)?
        .arg(number(
            alloc,
            "spool",
            (
                "Bytes of messages of streamed transactions that wait for their commits",
                ValueParser::unsigned(0, u64::MAX),
            ),
            "1073741824",
        ))?
        .arg(skip(alloc))?
        .arg(flag(
            alloc,
            "verbose",
            "Say on standard error why and where a command ended; slower, since the stream is read frame by frame",
        ))?
        .arg(flag(
            alloc,
            "progress",
            "Say on standard error each second how far the stream was read, and at the end",
        ))
}

/// The numbers of a command whose streamed transactions have workers.
fn with_workers<'a>(alloc: Global, command: Command<'a>) -> Result<Command<'a>, AllocError> {
    command
        .arg(number(
            alloc,
            "workers",
            limited!("Threads that apply streamed transactions", 0 to 16),
            "2",
        ))?
        .arg(number(
            alloc,
            "ring",
            limited!("Items that wait for one of these threads", 1 to 1024),
            "64",
        ))
}

fn skip<'a>(alloc: Global) -> Arg<'a> {
    Arg::new(alloc, "skip")
        .long("skip")
        .value_name("LSN")
        .help(
            "Leave out the first transaction that commits, if it does so at this LSN: its changes, not its position",
        )
        .action(ArgAction::Set)
}

fn stream_file<'a>(alloc: Global) -> Arg<'a> {
    file(
        alloc,
        "stream",
        "The stream: the CopyData bytes of a replication connection; - is standard input",
    )
}

fn address<'a>(alloc: Global) -> Arg<'a> {
    Arg::new(alloc, "connect")
        .long("connect")
        .value_name("A")
        .help(
            "The address: HOST:PORT of whoever sends the CopyData bytes of a replication connection",
        )
        .required(true)
        .action(ArgAction::Set)
}

fn file<'a>(alloc: Global, name: &'a str, help: &'a str) -> Arg<'a> {
    Arg::new(alloc, name)
        .long(name)
        .value_name("F")
        .help(help)
        .required(true)
        .action(ArgAction::Set)
}

fn flag<'a>(alloc: Global, name: &'a str, help: &'a str) -> Arg<'a> {
    Arg::new(alloc, name)
        .long(name)
        .help(help)
        .action(ArgAction::SetTrue)
}

fn number<'a>(
    alloc: Global,
    name: &'a str,
    (help, limits): (&'a str, ValueParser<'a>),
    default: &'a str,
) -> Arg<'a> {
    Arg::new(alloc, name)
        .long(name)
        .value_name("N")
        .help(help)
        .value_parser(limits)
        .default_value(default)
        .action(ArgAction::Set)
}

/// The first number that is given with a sign, and its text: `apply --ring +1`.
fn first_with_sign<'a>(given: &ArgMatches<'a>) -> Option<(&'static str, &'a str)> {
    for name in &NUMBERS {
        if let Some(text) = given.get_str(*name) {
            if !text.bytes().all(|byte| byte.is_ascii_digit()) {
                return Some((*name, text));
            }
        }
    }
    None
}

/// The transaction to skip, 0 for none; or the text that is no LSN of one.
fn skip_of<'a>(given: &ArgMatches<'a>) -> Result<Lsn, &'a str> {
    let Some(text) = given.get_str("skip") else {
        return Ok(0);
    };
    match read_lsn(text) {
        None | Some(0) => Err(text),
        Some(lsn) => Ok(lsn),
    }
}

/// `replay` has no workers.
fn options_of<'a>(spooled: bool, skip: Lsn, given: &ArgMatches<'a>) -> Options<'a> {
    Options {
        spooled,
        catalog: given.get_str("config").unwrap_or(""),
        input: match given.get_str("connect") {
            Some(address) => Input::Connection(address),
            None => match given.get_str("stream") {
                Some("-") => Input::Stdin,
                path => Input::File(path.unwrap_or("")),
            },
        },
        config: Config {
            workers: number_of(given, "workers").unwrap_or(0) as usize,
            ring: number_of(given, "ring").unwrap_or(1) as usize,
            spool: number_of(given, "spool").unwrap_or(0),
            skip,
        },
        verbose: given.get_flag("verbose"),
        progress: given.get_flag("progress"),
    }
}

/// The number of an option, which was given or is its default; none if the command has no such option.
fn number_of(given: &ArgMatches<'_>, name: &str) -> Option<u64> {
    given.get_str(name)?.parse::<u64>().ok()
}
