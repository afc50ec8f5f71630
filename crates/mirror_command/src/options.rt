// The command line. Limits and defaults of its numbers stand here alone.
use clap::builder::ValueParser;
use clap::error::ErrorKind;
use clap::{Arg, ArgAction, ArgMatches, Command, Error};
use leader::Config;
use mirror_source::Limits;
use pgapply_command::options::{Input, is_address};
use std::alloc::{AllocError, Global};

/// What a command line asks for.
#[derive(Debug, Drop)]
pub struct Options<'a> {
    /// The catalog file, as given.
    pub catalog: &'a str,
    pub input: Input<'a>,
    /// The SQLite file that follows, if one does.
    pub into: Option<&'a str>,
    /// Where lines of JSON go, if they are asked for; `-` is standard output.
    pub json: Option<&'a str>,
    pub publishing: Option<Publishing<'a>>,
    /// How many commits one transaction of the file has at most.
    pub batch: usize,
    /// How much of the stream one run has.
    pub limits: Limits,
    /// Whether a connection that ends is not made again.
    pub once: bool,
    pub config: Config,
}

/// Where copies of the file are put.
#[derive(Clone, Copy, Debug, PartialEq, Eq)]
pub struct Publishing<'a> {
    pub to: &'a str,
    /// The seconds between two copies.
    pub every: u64,
}

const EXAMPLE: &str = "\
Examples:
  mirror --config accounts.toml --connect localhost:5500 --into state.sqlite --publish copy.sqlite
  mirror --config accounts.toml --connect localhost:5500 --into state.sqlite --json changes.jsonl

One of --into and --json is wanted. With --json alone nothing is taken up again: each start begins with
empty tables, and a change of a row from before that has no line.

Exit statuses:
  0  the stream was applied to its end
  1  usage, a bad catalog, or a file, lines or a connection that can't be opened or written
  2  the stream is broken
  3  a conflict: a row breaks a key
  4  memory was refused";

/// The options that are numbers.
const NUMBERS: [&str; 7] = [
    "every", "batch", "epoch", "journal", "workers", "ring", "spool",
];

/// Of the bytes that one run may have at most, the part behind which it ends where no transaction is open.
const SHARE: u64 = 64;

/// The program and its options.
fn program<'a>(alloc: Global) -> Result<Command<'a>, AllocError> {
    let program = Command::new(alloc, "mirror")
        .version("0.1.0")
        .about(
            "Keeps the tables of a PostgreSQL logical replication stream in a SQLite file, exact at each commit",
        )
        .after_help(EXAMPLE)
        .arg(file(
            alloc,
            "config",
            "The catalog: a TOML file that defines the tables",
        )
        .required(true))?
        .arg(file(
            alloc,
            "stream",
            "The stream: the CopyData bytes of a replication connection; - is standard input",
        ))?
        .arg(connect(alloc))?
        .arg(file(
            alloc,
            "into",
            "The SQLite file that has the tables; while mirror runs nobody else can read it",
        ))?
        .arg(file(
            alloc,
            "json",
            "Where a line of JSON is appended for each change of a commit, before the file has it; - is standard output",
        ))?
        .arg(file(
            alloc,
            "publish",
            "Where copies of the file are put for readers, each whole, and one at the end",
        ))?;
    with_numbers(alloc, program)?.arg(
        Arg::new(alloc, "once")
            .long("once")
            .help("End with the connection, in place of making it again")
            .action(ArgAction::SetTrue),
    )
}

/// The program with the options that are numbers.
fn with_numbers<'a>(alloc: Global, program: Command<'a>) -> Result<Command<'a>, AllocError> {
    program
        .arg(number(
            alloc,
            "every",
            "Seconds between two copies, 1 to 1000000",
            ValueParser::unsigned(1, 1_000_000),
            "10",
        ))?
        .arg(number(
            alloc,
            "batch",
            "Commits that one transaction of the file has at most, 1 to 1000000",
            ValueParser::unsigned(1, 1_000_000),
            "1000",
        ))?
        .arg(number(
            alloc,
            "epoch",
            "Commits behind which a run ends and the next begins, 1 to 1000000000",
            ValueParser::unsigned(1, 1_000_000_000),
            "100000",
        ))?
        .arg(number(
            alloc,
            "journal",
            "Bytes of the stream that one run keeps at most, while transactions are open all along",
            ValueParser::unsigned(1, u64::MAX),
            "4294967296",
        ))?
        .arg(number(
            alloc,
            "workers",
            "Threads that apply streamed transactions, 0 to 16",
            ValueParser::unsigned(0, 16),
            "2",
        ))?
        .arg(number(
            alloc,
            "ring",
            "Items that wait for one of these threads, 1 to 1024",
            ValueParser::unsigned(1, 1024),
            "64",
        ))?
        .arg(number(
            alloc,
            "spool",
            "Bytes of messages of streamed transactions that wait for their commits",
            ValueParser::unsigned(0, u64::MAX),
            "1073741824",
        ))
}

fn file<'a>(alloc: Global, name: &'a str, help: &'a str) -> Arg<'a> {
    Arg::new(alloc, name)
        .long(name)
        .value_name("F")
        .help(help)
        .action(ArgAction::Set)
}

fn connect<'a>(alloc: Global) -> Arg<'a> {
    Arg::new(alloc, "connect")
        .long("connect")
        .value_name("A")
        .help("HOST:PORT of whoever sends these bytes, as publisher serve")
        .action(ArgAction::Set)
}

fn number<'a>(
    alloc: Global,
    name: &'a str,
    help: &'a str,
    limits: ValueParser<'a>,
    default: &'a str,
) -> Arg<'a> {
    Arg::new(alloc, name)
        .long(name)
        .value_name("N")
        .help(help)
        .value_parser(limits)
        .default_value(default)
        .action(ArgAction::Set)
}

/// What the words ask for, or the text of a usage fault, of help or of the version.
pub fn parse<'a>(alloc: Global, words: &'a [String]) -> Result<Options<'a>, Error> {
    let mut program = program(alloc)?;
    let given = program.try_get_matches_from_mut(words)?;
    if let Some((kind, message)) = first_fault(alloc, &given)? {
        return Err(program.error(kind, message.as_str())?);
    }
    match input_of(&given) {
        Some(input) => Ok(options_of(input, &given)),
        None => Err(program.error(
            ErrorKind::MissingRequiredArgument,
            "one of --stream and --connect is wanted",
        )?),
    }
}

/// The first fault of what was given, and what is told of it.
fn first_fault(
    alloc: Global,
    given: &ArgMatches<'_>,
) -> Result<Option<(ErrorKind, String)>, AllocError> {
    if let Some((option, text)) = first_with_sign(given) {
        let message = format!(in alloc;
            "invalid value '{text}' for '--{option} <N>': only digits are allowed"
        )?;
        return Ok(Some((ErrorKind::ValueValidation, message)));
    }
    if let Some((kind, text)) = wrong_in(given) {
        return Ok(Some((kind, String::from_str(alloc, text)?)));
    }
    match given.get_str("connect") {
        Some(text) if !is_address(text) => {
            let message = format!(in alloc;
                "invalid value '{text}' for '--connect <A>': an address is HOST:PORT, as localhost:5500"
            )?;
            Ok(Some((ErrorKind::ValueValidation, message)))
        }
        _ => Ok(None),
    }
}

/// Where the stream comes from, if one of both is given.
fn input_of<'a>(given: &ArgMatches<'a>) -> Option<Input<'a>> {
    match (given.get_str("stream"), given.get_str("connect")) {
        (Some("-"), None) => Some(Input::Stdin),
        (Some(path), None) => Some(Input::File(path)),
        (None, Some(address)) => Some(Input::Connection(address)),
        _ => None,
    }
}

/// What is wrong with where commits are kept: something is wanted and isn't given, or a copy would take the
/// place of the file that it is made of.
fn wrong_in(given: &ArgMatches<'_>) -> Option<(ErrorKind, &'static str)> {
    match (
        given.get_str("into"),
        given.get_str("json"),
        given.get_str("publish"),
    ) {
        (None, None, _) => Some((
            ErrorKind::MissingRequiredArgument,
            "one of --into and --json is wanted",
        )),
        (None, Some(_), Some(_)) => Some((
            ErrorKind::MissingRequiredArgument,
            "--publish copies the file of --into, which is wanted too",
        )),
        (Some(into), _, Some(copy)) if into == copy => Some((
            ErrorKind::ArgumentConflict,
            "--publish and --into are one file: a copy is a file of its own",
        )),
        _ => None,
    }
}

/// The first number that is given with a sign, and its text: `--batch +1`.
fn first_with_sign<'a>(given: &ArgMatches<'a>) -> Option<(&'static str, &'a str)> {
    for name in &NUMBERS {
        if let Some(text) = given.get_str(*name) {
            if !text.bytes().all(|byte| byte.is_ascii_digit()) {
                return Some((*name, text));
            }
        }
    }
    None
}

fn options_of<'a>(input: Input<'a>, given: &ArgMatches<'a>) -> Options<'a> {
    Options {
        catalog: given.get_str("config").unwrap_or(""),
        input,
        into: given.get_str("into"),
        json: given.get_str("json"),
        publishing: match given.get_str("publish") {
            Some(to) => Some(Publishing {
                to,
                every: number_of(given, "every").unwrap_or(1),
            }),
            None => None,
        },
        batch: number_of(given, "batch").unwrap_or(1) as usize,
        limits: limits_of(given),
        once: given.get_flag("once"),
        config: Config {
            workers: number_of(given, "workers").unwrap_or(0) as usize,
            ring: number_of(given, "ring").unwrap_or(1) as usize,
            spool: number_of(given, "spool").unwrap_or(0),
            skip: 0,
        },
    }
}

/// How much of the stream one run has.
fn limits_of(given: &ArgMatches<'_>) -> Limits {
    let most = number_of(given, "journal").unwrap_or(1);
    Limits {
        commits: number_of(given, "epoch").unwrap_or(1),
        bytes: (most / SHARE).max(1),
        most,
    }
}

/// The number of an option, which was given or is its default.
fn number_of(given: &ArgMatches<'_>, name: &str) -> Option<u64> {
    given.get_str(name)?.parse::<u64>().ok()
}
