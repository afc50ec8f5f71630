// What a command line of `mirror` asks for: the limits of its numbers, what stands where none was given, and
// faults of usage.
use crate::tests::command_line::owned;
use leader::Config;
use mirror_command::options;
use mirror_command::options::{Options, Publishing};
use mirror_source::Limits;
use pgapply_command::options::Input;
use std::alloc::Global;
use std::test::Fail;
use testing::asserts::{assert_holds, assert_same};

/// An option, its text, and the number that is read, or none where the text is refused.
static NUMBERS: [(&str, &str, Option<u64>); 20] = [
    ("--every", "0", None),
    ("--every", "1", Some(1)),
    ("--every", "1000000", Some(1_000_000)),
    ("--every", "1000001", None),
    ("--batch", "0", None),
    ("--batch", "1", Some(1)),
    ("--batch", "1000001", None),
    ("--batch", "+1", None),
    ("--epoch", "0", None),
    ("--epoch", "1000000000", Some(1_000_000_000)),
    ("--epoch", "1000000001", None),
    ("--journal", "0", None),
    ("--journal", "18446744073709551615", Some(u64::MAX)),
    ("--journal", "18446744073709551616", None),
    ("--workers", "0", Some(0)),
    ("--workers", "17", None),
    ("--ring", "1025", None),
    ("--ring", "1024", Some(1024)),
    ("--spool", "0", Some(0)),
    ("--spool", "1k", None),
];

/// The number that an option sets.
fn number_of(option: &str, asked: &Options<'_>) -> Option<u64> {
    match option {
        "--every" => asked.publishing.map(|publishing| publishing.every),
        "--batch" => Some(asked.batch as u64),
        "--epoch" => Some(asked.limits.commits),
        "--journal" => Some(asked.limits.most),
        "--workers" => Some(asked.config.workers as u64),
        "--ring" => Some(asked.config.ring as u64),
        _ => Some(asked.config.spool),
    }
}

#[test]
fn numbers_within_their_limits(rt: HostRuntime) -> Result<(), Fail> {
    for (option, text, want) in &NUMBERS {
        let given = [
            "mirror",
            "--config",
            "c",
            "--stream",
            "s",
            "--into",
            "f",
            "--publish",
            "p",
            *option,
            *text,
        ];
        let words = owned(rt.alloc(), &given)?;
        let read = match options::parse(rt.alloc(), words.as_slice()) {
            Ok(asked) => number_of(*option, &asked),
            Err(_) => None,
        };
        assert_same(read, *want, text)?;
    }
    Ok(())
}

/// What is asked for with no number has the defaults of the program.
fn assert_defaults(asked: &Options<'_>) -> Result<(), Fail> {
    assert_same(asked.catalog, "c", "catalog")?;
    assert_same(asked.into, Some("f"), "file")?;
    assert_same(asked.json, None, "lines")?;
    assert_same(asked.batch, 1000, "batch")?;
    assert_holds(asked.publishing.is_none() && !asked.once, "flags")?;
    let limits = Limits {
        commits: 100_000,
        bytes: 67_108_864,
        most: 4_294_967_296,
    };
    assert_same(asked.limits, limits, "limits")?;
    let config = Config {
        workers: 2,
        ring: 64,
        spool: 1_073_741_824,
        skip: 0,
    };
    assert_same(asked.config, config, "config")
}

/// So many bytes for a run, and behind how many it ends where no transaction is open.
static SHARES: [(&str, u64); 4] = [("1", 1), ("63", 1), ("128", 2), ("4294967296", 67_108_864)];

#[test]
fn a_run_of_few_bytes_has_one_at_least(rt: HostRuntime) -> Result<(), Fail> {
    for (text, want) in &SHARES {
        let given = [
            "mirror",
            "--config",
            "c",
            "--stream",
            "s",
            "--into",
            "f",
            "--journal",
            *text,
        ];
        let words = owned(rt.alloc(), &given)?;
        let read = match options::parse(rt.alloc(), words.as_slice()) {
            Ok(asked) => Some(asked.limits.bytes),
            Err(_) => None,
        };
        assert_same(read, Some(*want), text)?;
    }
    Ok(())
}

/// Where the stream comes from, and what is said of it.
static INPUTS: [(&str, &str, Input<'static>); 3] = [
    ("--stream", "s", Input::File("s")),
    ("--stream", "-", Input::Stdin),
    ("--connect", "h:1", Input::Connection("h:1")),
];

#[test]
fn what_is_not_given(rt: HostRuntime) -> Result<(), Fail> {
    for (option, text, input) in &INPUTS {
        let given = ["mirror", "--config", "c", *option, *text, "--into", "f"];
        let words = owned(rt.alloc(), &given)?;
        match options::parse(rt.alloc(), words.as_slice()) {
            Ok(asked) => {
                assert_holds(asked.input == *input, "input")?;
                assert_defaults(&asked)?;
            }
            Err(_) => return Err("a command line that is refused".into()),
        }
    }
    Ok(())
}

#[test]
fn copies_are_put_each_so_many_seconds(rt: HostRuntime) -> Result<(), Fail> {
    let given = [
        "mirror",
        "--config",
        "c",
        "--connect",
        "h:1",
        "--into",
        "f",
        "--publish",
        "p",
        "--once",
    ];
    let words = owned(rt.alloc(), &given)?;
    match options::parse(rt.alloc(), words.as_slice()) {
        Ok(asked) => {
            let publishing = Publishing { to: "p", every: 10 };
            assert_same(asked.publishing, Some(publishing), "copies")?;
            assert_holds(asked.once, "once")
        }
        Err(_) => Err("a command line that is refused".into()),
    }
}

#[test]
fn lines_beside_a_file_and_alone(rt: HostRuntime) -> Result<(), Fail> {
    for (front, into) in [("--into=f", Some("f")), ("--once", None)] {
        let given = [
            "mirror", "--config", "c", "--stream", "s", "--json", "-", front,
        ];
        let words = owned(rt.alloc(), &given)?;
        match options::parse(rt.alloc(), words.as_slice()) {
            Ok(asked) => {
                assert_same(asked.into, into, front)?;
                assert_same(asked.json, Some("-"), front)?;
            }
            Err(_) => return Err("a command line that is refused".into()),
        }
    }
    Ok(())
}

/// A command line that is no run, whether its text is for standard error, and the text.
struct Refused {
    words: &'static [&'static str],
    is_fault: bool,
    text: &'static str,
}

static REFUSED: [Refused; 10] = [
    Refused {
        words: &["mirror", "--version"],
        is_fault: false,
        text: "mirror 0.1.0\n",
    },
    Refused {
        words: &["mirror", "--config", "c", "--into", "f"],
        is_fault: true,
        text: "error: one of --stream and --connect is wanted\n\nUsage: mirror [OPTIONS] --config <F>\n\nFor more information, try '--help'.\n",
    },
    Refused {
        words: &[
            "mirror",
            "--config",
            "c",
            "--into",
            "f",
            "--stream",
            "s",
            "--connect",
            "h:1",
        ],
        is_fault: true,
        text: "error: one of --stream and --connect is wanted\n\nUsage: mirror [OPTIONS] --config <F>\n\nFor more information, try '--help'.\n",
    },
    Refused {
        words: &["mirror", "--config", "c", "--stream", "s"],
        is_fault: true,
        text: "error: one of --into and --json is wanted\n\nUsage: mirror [OPTIONS] --config <F>\n\nFor more information, try '--help'.\n",
    },
    Refused {
        words: &[
            "mirror",
            "--config",
            "c",
            "--stream",
            "s",
            "--json",
            "-",
            "--publish",
            "p",
        ],
        is_fault: true,
        text: "error: --publish copies the file of --into, which is wanted too\n\nUsage: mirror [OPTIONS] --config <F>\n\nFor more information, try '--help'.\n",
    },
    Refused {
        words: &[
            "mirror",
            "--config",
            "c",
            "--stream",
            "s",
            "--into",
            "f",
            "--publish",
            "f",
        ],
        is_fault: true,
        text: "error: --publish and --into are one file: a copy is a file of its own\n\nUsage: mirror [OPTIONS] --config <F>\n\nFor more information, try '--help'.\n",
    },
    Refused {
        words: &[
            "mirror",
            "--config",
            "c",
            "--into",
            "f",
            "--connect",
            "localhost",
        ],
        is_fault: true,
        text: "error: invalid value 'localhost' for '--connect <A>': an address is HOST:PORT, as localhost:5500\n\nUsage: mirror [OPTIONS] --config <F>\n\nFor more information, try '--help'.\n",
    },
    Refused {
        words: &["mirror", "--into", "f", "--stream", "s"],
        is_fault: true,
        text: "error: the following required arguments were not provided:\n  --config <F>\n\nUsage: mirror --config <F> --into <F> --stream <F>\n\nFor more information, try '--help'.\n",
    },
    Refused {
        words: &[
            "mirror", "--config", "c", "--into", "f", "--stream", "s", "--batch", "+1",
        ],
        is_fault: true,
        text: "error: invalid value '+1' for '--batch <N>': only digits are allowed\n\nUsage: mirror [OPTIONS] --config <F>\n\nFor more information, try '--help'.\n",
    },
    Refused {
        words: &["mirror", "--help"],
        is_fault: false,
        text: HELP,
    },
];

const HELP: &str = "\
Keeps the tables of a PostgreSQL logical replication stream in a SQLite file, exact at each commit

Usage: mirror [OPTIONS] --config <F>

Options:
      --config <F>   The catalog: a TOML file that defines the tables
      --stream <F>   The stream: the CopyData bytes of a replication connection; - is standard input
      --connect <A>  HOST:PORT of whoever sends these bytes, as publisher serve
      --into <F>     The SQLite file that has the tables; while mirror runs nobody else can read it
      --json <F>     Where a line of JSON is appended for each change of a commit, before the file has it; - is standard output
      --publish <F>  Where copies of the file are put for readers, each whole, and one at the end
      --every <N>    Seconds between two copies, 1 to 1000000 [default: 10]
      --batch <N>    Commits that one transaction of the file has at most, 1 to 1000000 [default: 1000]
      --epoch <N>    Commits behind which a run ends and the next begins, 1 to 1000000000 [default: 100000]
      --journal <N>  Bytes of the stream that one run keeps at most, while transactions are open all along [default: 4294967296]
      --workers <N>  Threads that apply streamed transactions, 0 to 16 [default: 2]
      --ring <N>     Items that wait for one of these threads, 1 to 1024 [default: 64]
      --spool <N>    Bytes of messages of streamed transactions that wait for their commits [default: 1073741824]
      --once         End with the connection, in place of making it again
  -h, --help         Print help
  -V, --version      Print version

Examples:
  mirror --config accounts.toml --connect localhost:5500 --into state.sqlite --publish copy.sqlite
  mirror --config accounts.toml --connect localhost:5500 --into state.sqlite --json changes.jsonl

One of --into and --json is wanted. With --json alone nothing is taken up again: each start begins with
empty tables, and a change of a row from before that has no line.

Exit statuses:
  0  the stream was applied to its end
  1  usage, a bad catalog, or a file, lines or a connection that can't be opened or written
  2  the stream is broken
  3  a conflict: a row breaks a key
  4  memory was refused
";

/// What is said in place of a run, and whether it is for standard error.
fn said(alloc: Global, words: &[&str]) -> Result<(String, bool), Fail> {
    let words = owned(alloc, words)?;
    match options::parse(alloc, words.as_slice()) {
        Ok(_) => Err("a command line that is taken".into()),
        Err(error) => Ok((format!(in alloc; "{error}")?, error.use_stderr())),
    }
}

#[test]
fn faults_of_usage_help_and_version(rt: HostRuntime) -> Result<(), Fail> {
    for case in &REFUSED {
        let (text, is_fault) = said(rt.alloc(), case.words)?;
        assert_same(text.as_str(), case.text, "text")?;
        assert_same(is_fault, case.is_fault, case.text)?;
    }
    Ok(())
}
