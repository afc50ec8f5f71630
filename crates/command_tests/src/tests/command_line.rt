// What a command line asks for: the limits of its numbers, and what stands where none was given.
use leader::Config;
use pgapply_command::options;
use pgapply_command::options::{Input, Options};
use std::alloc::Global;
use std::fmt::Write;
use std::test::Fail;
use testing::asserts::{assert_holds, assert_same};

/// An option, its text, and the number that is read, or none where the text is refused.
static NUMBERS: [(&str, &str, Option<u64>); 13] = [
    ("--workers", "0", Some(0)),
    ("--workers", "16", Some(16)),
    ("--workers", "17", None),
    ("--workers", "", None),
    ("--ring", "0", None),
    ("--ring", "1", Some(1)),
    ("--ring", "01024", Some(1024)),
    ("--ring", "1025", None),
    ("--spool", "0", Some(0)),
    ("--spool", "18446744073709551615", Some(u64::MAX)),
    ("--spool", "18446744073709551616", None),
    ("--spool", "+1", None),
    ("--spool", "1k", None),
];

/// The number that an option sets.
fn number_of(option: &str, config: &Config) -> u64 {
    if option == "--workers" {
        config.workers as u64
    } else if option == "--ring" {
        config.ring as u64
    } else {
        config.spool
    }
}

/// What `--skip` is given, and the LSN that is read, or none where the text is refused.
static SKIPS: [(&str, Option<u64>); 16] = [
    ("0/200", Some(0x200)),
    ("16/B374D848", Some(0x16_b374_d848)),
    ("16/b374d848", Some(0x16_b374_d848)),
    ("00000001/00000000", Some(1 << 32)),
    ("ffffffff/FFFFFFFF", Some(u64::MAX)),
    ("0/0", None),
    ("00/000", None),
    ("", None),
    ("/", None),
    ("/1", None),
    ("1/", None),
    ("200", None),
    ("0/2/3", None),
    ("0/123456789", None),
    ("0/1g", None),
    ("0/+1", None),
];

/// The words of a command line.
pub(super) fn owned(alloc: Global, given: &[&str]) -> Result<Vec<String>, Fail> {
    let mut words = Vec::new(alloc);
    for word in given {
        words.push(String::from_str(alloc, *word)?)?;
    }
    Ok(words)
}

#[test]
fn numbers_within_their_limits(rt: HostRuntime) -> Result<(), Fail> {
    for (option, text, want) in &NUMBERS {
        let words = owned(
            rt.alloc(),
            &[
                "pgapply", "apply", "--config", "c", "--stream", "s", *option, *text,
            ],
        )?;
        let read = match options::parse(rt.alloc(), words.as_slice()) {
            Ok(asked) => Some(number_of(*option, &asked.config)),
            Err(_) => None,
        };
        assert_same(read, *want, text)?;
    }
    Ok(())
}

#[test]
fn a_transaction_to_skip(rt: HostRuntime) -> Result<(), Fail> {
    for (text, want) in &SKIPS {
        let words = owned(
            rt.alloc(),
            &[
                "pgapply", "replay", "--config", "c", "--stream", "s", "--skip", *text,
            ],
        )?;
        let read = match options::parse(rt.alloc(), words.as_slice()) {
            Ok(asked) => Some(asked.config.skip),
            Err(_) => None,
        };
        assert_same(read, *want, text)?;
    }
    Ok(())
}

/// What is asked for with no number has the defaults of the program.
fn assert_defaults(asked: &Options<'_>, spooled: bool) -> Result<(), Fail> {
    assert_same(asked.spooled, spooled, "spooled")?;
    assert_same(asked.catalog, "c", "catalog")?;
    assert_same(asked.config.workers, if spooled { 0 } else { 2 }, "workers")?;
    assert_same(asked.config.ring, if spooled { 1 } else { 64 }, "ring")?;
    assert_same(asked.config.spool, 1_073_741_824, "spool")?;
    assert_same(asked.config.skip, 0, "skip")?;
    assert_holds(!asked.verbose && !asked.progress, "what is said")
}

#[test]
fn numbers_that_are_not_given(rt: HostRuntime) -> Result<(), Fail> {
    for (command, spooled, option, text, input) in [
        ("apply", false, "--stream", "s", Input::File("s")),
        (
            "follow",
            false,
            "--connect",
            "s:1",
            Input::Connection("s:1"),
        ),
        ("replay", true, "--stream", "s", Input::File("s")),
        ("apply", false, "--stream", "-", Input::Stdin),
        ("replay", true, "--stream", "-", Input::Stdin),
    ] {
        let words = owned(
            rt.alloc(),
            &["pgapply", command, option, text, "--config", "c"],
        )?;
        let asked = options::parse(rt.alloc(), words.as_slice())
            .ok()
            .ok_or("a command line that is refused")?;
        assert_defaults(&asked, spooled)?;
        assert_holds(asked.input == input, "input")?;
    }
    Ok(())
}

/// A command line that is no run, whether its text is for standard error, and the text.
struct Refused {
    words: &'static [&'static str],
    is_fault: bool,
    text: &'static str,
}

static REFUSED: [Refused; 9] = [
    Refused {
        words: &["pgapply", "--version"],
        is_fault: false,
        text: "pgapply 0.1.0\n",
    },
    Refused {
        words: &[
            "pgapply",
            "apply",
            "--config",
            "c",
            "--stream",
            "s",
            "--workers",
            "17",
        ],
        is_fault: true,
        text: "error: invalid value '17' for '--workers <N>': 17 is not in 0..=16\n\nFor more information, try '--help'.\n",
    },
    Refused {
        words: &[
            "pgapply", "apply", "--config", "c", "--stream", "s", "--ring", "+1",
        ],
        is_fault: true,
        text: "error: invalid value '+1' for '--ring <N>': only digits are allowed\n\nUsage: pgapply <COMMAND>\n\nFor more information, try '--help'.\n",
    },
    Refused {
        words: &[
            "pgapply",
            "follow",
            "--config",
            "c",
            "--connect",
            "a:1",
            "--skip",
            "0/0",
        ],
        is_fault: true,
        text: "error: invalid value '0/0' for '--skip <LSN>': an LSN is written as 16/B374D848, and 0/0 is none\n\nUsage: pgapply <COMMAND>\n\nFor more information, try '--help'.\n",
    },
    Refused {
        words: &[
            "pgapply",
            "follow",
            "--config",
            "c",
            "--connect",
            "localhost",
        ],
        is_fault: true,
        text: "error: invalid value 'localhost' for '--connect <A>': an address is HOST:PORT, as localhost:5500\n\nUsage: pgapply <COMMAND>\n\nFor more information, try '--help'.\n",
    },
    Refused {
        words: &["pgapply", "replay", "--config", "c"],
        is_fault: true,
        text: "error: the following required arguments were not provided:\n  --stream <F>\n\nUsage: pgapply replay --config <F> --stream <F>\n\nFor more information, try '--help'.\n",
    },
    Refused {
        words: &["pgapply", "follow", "--config", "c", "--stream", "s"],
        is_fault: true,
        text: "error: unexpected argument '--stream' found\n\nUsage: pgapply follow --config <F> --connect <A>\n\nFor more information, try '--help'.\n",
    },
    Refused {
        words: &["pgapply"],
        is_fault: true,
        text: "error: 'pgapply' requires a subcommand but one was not provided\n  [subcommands: apply, follow, replay, help]\n\nUsage: pgapply <COMMAND>\n\nFor more information, try '--help'.\n",
    },
    Refused {
        words: &["pgapply", "--help"],
        is_fault: false,
        text: "\
Applies a PostgreSQL logical replication stream to tables, and prints them

Usage: pgapply <COMMAND>

Commands:
  apply   Apply a stream from a file, streamed transactions while they come
  follow  Apply a stream from a connection, and tell its sender how far it was applied
  replay  Apply a stream from a file, each streamed transaction at its commit
  help    Print this message or the help of the given subcommand(s)

Options:
  -h, --help     Print help
  -V, --version  Print version

Rows, position and end are printed to standard output. Exit statuses:
  0  the stream was applied to its end
  1  usage, a bad catalog, a file or connection that can't be opened, or output that can't be written
  2  the stream is broken, or the connection's device failed
  3  a conflict: a row breaks a key
  4  memory was refused
",
    },
];

/// What is said in place of a run, and whether it is for standard error.
fn said(alloc: Global, words: &[&str]) -> Result<(String, bool), Fail> {
    let words = owned(alloc, words)?;
    match options::parse(alloc, words.as_slice()) {
        Ok(_) => Err("a command line that is taken".into()),
        Err(error) => Ok((format!(in alloc; "{error}")?, error.use_stderr())),
    }
}

#[test]
fn usage_help_and_version(rt: HostRuntime) -> Result<(), Fail> {
    for case in &REFUSED {
        let (text, is_fault) = said(rt.alloc(), case.words)?;
        assert_same(text.as_str(), case.text, "text")?;
        assert_same(is_fault, case.is_fault, case.text)?;
    }
    Ok(())
}

/// A line of a help: an option, and what it says.
type Line = (&'static str, &'static str);

const CONFIG: Line = (
    "      --config <F>",
    "The catalog: a TOML file that defines the tables",
);

const STREAM: Line = (
    "      --stream <F>",
    "The stream: the CopyData bytes of a replication connection; - is standard input",
);

const CONNECT: Line = (
    "      --connect <A>",
    "The address: HOST:PORT of whoever sends the CopyData bytes of a replication connection",
);

const SPOOL: Line = (
    "      --spool <N>",
    "Bytes of messages of streamed transactions that wait for their commits [default: 1073741824]",
);

const SKIP: Line = (
    "      --skip <LSN>",
    "Leave out the first transaction that commits, if it does so at this LSN: its changes, not its position",
);

const VERBOSE: Line = (
    "      --verbose",
    "Say on standard error why and where a command ended; slower, since the stream is read frame by frame",
);

const PROGRESS: Line = (
    "      --progress",
    "Say on standard error each second how far the stream was read, and at the end",
);

const WORKERS: Line = (
    "      --workers <N>",
    "Threads that apply streamed transactions, 0 to 16 [default: 2]",
);

const RING: Line = (
    "      --ring <N>",
    "Items that wait for one of these threads, 1 to 1024 [default: 64]",
);

const HELP: Line = ("  -h, --help", "Print help");

/// The help of a command.
struct Help {
    command: &'static str,
    about: &'static str,
    usage: &'static str,
    options: &'static [Line],
    example: &'static str,
}

static HELPS: [Help; 3] = [
    Help {
        command: "apply",
        about: "Apply a stream from a file, streamed transactions while they come",
        usage: "apply [OPTIONS] --config <F> --stream <F>",
        options: &[
            CONFIG, STREAM, SPOOL, SKIP, VERBOSE, PROGRESS, WORKERS, RING, HELP,
        ],
        example: "apply --config accounts.toml --stream accounts.stream",
    },
    Help {
        command: "follow",
        about: "Apply a stream from a connection, and tell its sender how far it was applied",
        usage: "follow [OPTIONS] --config <F> --connect <A>",
        options: &[
            CONFIG, CONNECT, SPOOL, SKIP, VERBOSE, PROGRESS, WORKERS, RING, HELP,
        ],
        example: "follow --config accounts.toml --connect localhost:5500",
    },
    Help {
        command: "replay",
        about: "Apply a stream from a file, each streamed transaction at its commit",
        usage: "replay [OPTIONS] --config <F> --stream <F>",
        options: &[CONFIG, STREAM, SPOOL, SKIP, VERBOSE, PROGRESS, HELP],
        example: "replay --config accounts.toml --stream accounts.stream",
    },
];

impl Help {
    /// Its text: what the options say stands in one column, two blanks behind the longest option.
    fn text(&self, alloc: Global) -> Result<String, Fail> {
        let (about, usage, example) = (self.about, self.usage, self.example);
        let mut text = format!(in alloc; "{about}\n\nUsage: pgapply {usage}\n\nOptions:\n")?;
        let longest = self.longest();
        for (option, says) in self.options {
            text.push_str(*option)?;
            for _ in option.len()..longest {
                text.push(' ')?;
            }
            write!(text, "  {says}\n")?;
        }
        write!(text, "\nExample:\n  pgapply {example}\n")?;
        Ok(text)
    }

    /// How long the longest option is.
    fn longest(&self) -> usize {
        let mut longest = 0;
        for (option, _) in self.options {
            longest = option.len().max(longest);
        }
        longest
    }
}

#[test]
fn help_of_each_command(rt: HostRuntime) -> Result<(), Fail> {
    for help in &HELPS {
        let (text, is_fault) = said(rt.alloc(), &["pgapply", help.command, "--help"])?;
        let want = help.text(rt.alloc())?;
        assert_same(text.as_str(), want.as_str(), help.command)?;
        assert_holds(!is_fault, help.command)?;
    }
    Ok(())
}
