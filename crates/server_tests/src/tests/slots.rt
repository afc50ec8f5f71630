// Captures and services at a scripted server over a Unix socket: what is asked before a slot is made, what is
// left of a slot and a file where a command goes no further, and what a captured file has.
use super::OrFail;
use super::loopback::{WELCOME, server_at};
use super::script::{Message, SLOT, name_of, say, say_row, spell};
use server::capture::{Destination, capture};
use server::host::Server;
use server::relay::Bounds;
use server::serve::{Service, serve};
use server::stream::{Slot, Subscription};
use std::alloc::Global;
use std::fs::{File, Files};
use std::io::{Read, Write};
use std::net::{Net, TcpListener, TcpStream};
use std::os::unix::fs::PermissionsExt;
use std::os::unix::net::UnixListener;
use std::random::RandomSource;
use std::rt::Clock;
use std::test::Fail;
use std::thread::Threads;
use std::{env, fs, io, process, thread};
use testing::asserts::{assert_holds, assert_same};

/// What a server says on one connection behind its welcome: rows, each the answer to a question, or an empty
/// text for an answer without, and messages.
pub type Words = (&'static [&'static str], &'static [Message<'static>]);

/// A connection that is asked to drop a slot.
pub const DROPPED: Words = (&[], &[(b'C', b"\0"), (b'Z', b"I")]);

pub const MADE: &str = "s|0/10|\\N|pgoutput";

pub const SYSTEM: &str = "74|1|0/20|shop";

/// A refusal to stream, and a stream that ends at once.
const REFUSED: [Message<'static>; 1] = [(b'E', b"SERROR\0C42704\0Mgone\0\0")];

pub const ENDED: [Message<'static>; 3] = [(b'W', b"\0\0\0"), (b'c', b""), (b'C', b"\0")];

/// A file of a capture: whether its title says that it begins with a copy, and its bytes behind that.
type Captured = (bool, &'static [u8]);

/// A command, what a server says on one connection after another, the fault, what it was asked in the last
/// connection at last, and the captured file before and behind it.
#[derive(Clone, Copy)]
struct Case {
    creates: bool,
    copies: bool,
    appends: bool,
    serves: bool,
    /// Whether another capture has the file.
    is_held: bool,
    words: &'static [Words],
    fault: &'static str,
    asked: &'static str,
    left: Option<Captured>,
    file: Option<Captured>,
}

const CAPTURE: Case = Case {
    creates: true,
    copies: false,
    appends: false,
    serves: false,
    is_held: false,
    words: &[],
    fault: "none",
    asked: "",
    left: None,
    file: None,
};

const APPEND: Case = Case {
    creates: false,
    appends: true,
    ..CAPTURE
};

/// A keepalive at 16, and CopyDone.
const FILE: &[u8] = b"d\0\0\0\x16k\0\0\0\0\0\0\0\x10\0\0\0\0\0\0\0\0\0c\0\0\0\x04";

/// The same with a copy of no rows between, by Python's `struct`.
const COPY: &[u8] =
    b"d\0\0\0\x16k\0\0\0\0\0\0\0\x10\0\0\0\0\0\0\0\0\0d\0\0\02w\0\0\0\0\0\0\0\x10\0\0\0\0\0\0\0\x10\0\0\0\0\0\0\0\0B\0\0\0\0\0\0\0\x10\0\0\0\0\0\0\0\0\0\0\0\x02d\0\0\07w\0\0\0\0\0\0\0\x10\0\0\0\0\0\0\0\x10\0\0\0\0\0\0\0\0C\0\0\0\0\0\0\0\0\x10\0\0\0\0\0\0\0\x10\0\0\0\0\0\0\0\0c\0\0\0\x04";

/// What a copy that broke off left.
const HALF: &[u8] =
    b"d\0\0\0\x16k\0\0\0\0\0\0\0\x10\0\0\0\0\0\0\0\0\0d\0\0\02w\0\0\0\0\0\0\0\x10\0\0\0\0\0\0\0\x10\0\0\0\0\0\0\0\0B\0\0\0\0\0\0\0\x10\0\0\0\0\0\0\0\0\0\0\0\x02";

static CASES: [Case; 19] = [
    Case {
        words: &[(&["150009"], &[])],
        fault: "OldServer",
        asked: "SHOW",
        ..CAPTURE
    },
    Case {
        words: &[(&["160000", "0"], &[])],
        fault: "NoPublication",
        asked: "pg_publication",
        ..CAPTURE
    },
    Case {
        creates: false,
        words: &[(&["160000", "1", "0"], &[])],
        fault: "NoSlot",
        asked: "pg_replication_slots",
        ..CAPTURE
    },
    // The slot that was made is dropped.
    Case {
        words: &[(&["160000", "1", SYSTEM, MADE], &REFUSED), DROPPED],
        fault: "Server",
        asked: "DROP_REPLICATION_SLOT \"s\"\"1\" WAIT",
        ..CAPTURE
    },
    // One that was there isn't.
    Case {
        creates: false,
        words: &[(&["160000", "1", "1", SYSTEM, "0/10"], &REFUSED)],
        fault: "Server",
        asked: "START_REPLICATION",
        ..CAPTURE
    },
    // Nor one that could not be made.
    Case {
        words: &[(&["160000", "1", SYSTEM], &REFUSED)],
        fault: "Server",
        asked: "CREATE_REPLICATION_SLOT",
        ..CAPTURE
    },
    Case {
        serves: true,
        words: &[(&["160000", "1", SYSTEM, MADE], &[]), DROPPED],
        fault: "NotLoopback",
        asked: "DROP_REPLICATION_SLOT",
        ..CAPTURE
    },
    Case {
        words: &[(&["160000", "1", SYSTEM, MADE], &ENDED)],
        asked: "LOGICAL 0/0",
        file: Some((false, FILE)),
        ..CAPTURE
    },
    Case {
        left: Some((false, FILE)),
        words: &[(&["160000", "1", "1", SYSTEM, "0/10"], &ENDED)],
        asked: "LOGICAL 0/0",
        file: Some((false, FILE)),
        ..APPEND
    },
    // What the slot has confirmed is past the file's end.
    Case {
        left: Some((false, FILE)),
        words: &[(&["160000", "1", "1", SYSTEM, "0/11"], &[])],
        fault: "Lost",
        asked: "confirmed_flush_lsn",
        file: Some((false, FILE)),
        ..APPEND
    },
    // A copy that is whole, and one that broke off.
    Case {
        left: Some((true, COPY)),
        words: &[(&["160000", "1", "1", SYSTEM, "0/10"], &ENDED)],
        asked: "LOGICAL 0/10",
        file: Some((true, COPY)),
        ..APPEND
    },
    Case {
        left: Some((true, HALF)),
        words: &[(&["160000", "1", "1", SYSTEM], &[])],
        fault: "HalfCopy",
        asked: "IDENTIFY_SYSTEM",
        file: Some((true, HALF)),
        ..APPEND
    },
    Case {
        left: Some((false, FILE)),
        words: &[(&["160000", "1", "1", "75|1|0/20|shop"], &[])],
        fault: "OtherCapture",
        asked: "IDENTIFY_SYSTEM",
        file: Some((false, FILE)),
        ..APPEND
    },
    // Another capture writes the file.
    Case {
        is_held: true,
        left: Some((false, FILE)),
        words: &[(&["160000", "1", "1", SYSTEM], &[])],
        fault: "InUse",
        asked: "IDENTIFY_SYSTEM",
        file: Some((false, FILE)),
        ..APPEND
    },
    Case {
        words: &[(&["160000", "1", "1", SYSTEM], &[])],
        fault: "CannotRead",
        asked: "IDENTIFY_SYSTEM",
        ..APPEND
    },
    // A file that is there is left as it is, and no slot is made.
    Case {
        left: Some((false, FILE)),
        words: &[(&["160000", "1", SYSTEM], &[])],
        fault: "CannotWrite",
        asked: "IDENTIFY_SYSTEM",
        file: Some((false, FILE)),
        ..CAPTURE
    },
    Case {
        copies: true,
        words: &[(&["160000", "1", SYSTEM, "", MADE, "", ""], &ENDED)],
        asked: "LOGICAL 0/10",
        file: Some((true, COPY)),
        ..CAPTURE
    },
    Case {
        copies: true,
        words: &[(&["160000", "1", SYSTEM, "", MADE], &REFUSED), DROPPED],
        fault: "Server",
        asked: "DROP_REPLICATION_SLOT",
        ..CAPTURE
    },
    Case {
        serves: true,
        words: &[(&["160000", "0"], &[])],
        fault: "NoPublication",
        asked: "pg_publication",
        ..CAPTURE
    },
];

/// What a server says on a connection.
pub fn spell_words(alloc: Global, words: &Words) -> Result<Vec<u8>, Fail> {
    let (rows, messages) = words;
    let mut out = WELCOME.to_vec(alloc)?;
    say_answers(&mut out, *rows)?;
    out.extend_from_slice(spell(alloc, &[*messages])?.as_slice())?;
    Ok(out)
}

/// The answer to one question after another, of one row or none.
fn say_answers(out: &mut Vec<u8>, rows: &[&str]) -> Result<(), Fail> {
    for row in rows {
        if !row.is_empty() {
            say_row(out, *row)?;
        }
        say(out, b'Z', b"I")?;
    }
    Ok(())
}

/// What it says on one connection after another.
pub fn spell_each(alloc: Global, connections: &[Words]) -> Result<Vec<Vec<u8>>, Fail> {
    let mut said = Vec::new(alloc);
    for words in connections {
        said.push(spell_words(alloc, words)?)?;
    }
    Ok(said)
}

/// Asserts that a server heard this question.
pub fn assert_asked(alloc: Global, heard: &[u8], want: &str, number: usize) -> Result<(), Fail> {
    let text = String::from_utf8_lossy(alloc, heard)?;
    assert_holds(text.as_str().find(want).is_some(), number)
}

/// Says this on one connection after another, and answers what was heard on the last.
pub fn tell(alloc: Global, listener: &UnixListener, said: &[Vec<u8>]) -> io::Result<Vec<u8>> {
    let mut heard = Vec::new(alloc);
    for words in said {
        heard.clear();
        let (mut peer, _) = listener.accept()?;
        peer.write_all(words.as_slice())?;
        peer.read_to_end(&mut heard)?;
    }
    Ok(heard)
}

/// Where captures go: a server at a Unix socket of this machine, and a file.
#[derive(Drop)]
pub struct Place {
    pub server: Server,
    pub listener: UnixListener,
    pub socket: String,
    file: String,
}

impl Place {
    /// A run that failed may have left its files there: this one's have names of its own.
    pub fn new(rt: &HostRuntime, test: &str) -> Result<Place, Fail> {
        let folder = env::temp_dir(rt)?;
        let port = format!(in rt.alloc(); "{test}-{}", process::id(rt.process()))?;
        Place::at(rt, folder.as_str(), port.as_str())
    }

    fn at(rt: &HostRuntime, folder: &str, port: &str) -> Result<Place, Fail> {
        let socket = format!(in rt.alloc(); "{folder}/.s.PGSQL.{port}")?;
        Ok(Place {
            server: server_at(rt.alloc(), folder, port)?,
            listener: UnixListener::bind(rt, socket.as_str())?,
            socket,
            file: format!(in rt.alloc(); "{folder}/stream-{port}")?,
        })
    }

    /// What a command asks of the server.
    pub fn subscription(&self, create: bool, copy: bool) -> Subscription<'_> {
        Subscription {
            server: &self.server,
            publication: "p",
            slot: Slot {
                create,
                copy,
                ..SLOT
            },
        }
    }
}

/// What a service listens at that is not for this machine alone.
const ANYWHERE: Service<'static> = Service {
    listen: "0.0.0.0:0",
    any: false,
    once: true,
    bounds: Bounds::NONE,
};

/// The fault of a case, and what the server was asked in the last connection.
fn run_case<'a, R>(
    alloc: Global,
    rt: &'a R,
    place: &'a Place,
    case: &Case,
) -> Result<(String, Vec<u8>), Fail>
where
    R: Threads
        + Net<Stream = TcpStream, Listener = TcpListener>
        + Clock
        + RandomSource
        + Files<File = File>
        + Eprint,
{
    let said = spell_each(alloc, case.words)?;
    let words = said.as_slice();
    let serves = case.serves;
    let asked = place.subscription(case.creates, case.copies);
    let path = place.file.as_str();
    let destination = if case.appends {
        Destination::Behind(path)
    } else {
        Destination::File(path)
    };
    let (heard, answer) = thread::join(
        rt,
        move || tell(alloc, &place.listener, words),
        move || {
            if serves {
                serve(alloc, rt, &asked, &ANYWHERE)
            } else {
                capture(alloc, rt, &asked, destination, Bounds::NONE)
            }
        },
    );
    Ok((name_of(alloc, answer)?, heard?))
}

/// The title of a stream, and what stands in it of one that begins with a copy.
const TITLE: &str = "publication \"p\" through slot \"s\\\"1\" of system 74";

const COPIED: &str = ", with a copy of its rows";

/// The notice with the title, which a captured file and what a follower hears begin with.
pub fn spell_title(alloc: Global, is_copied: bool) -> Result<Vec<u8>, Fail> {
    let copied = if is_copied { COPIED } else { "" };
    let title = format!(in alloc; "SNOTICE\0C00000\0M{TITLE}{copied}\0\0")?;
    let mut notice = Vec::new(alloc);
    say(&mut notice, b'N', title.as_bytes())?;
    Ok(notice)
}

/// A captured file.
fn spell_file(alloc: Global, captured: &Captured) -> Result<Vec<u8>, Fail> {
    let (is_copied, behind) = captured;
    let mut file = spell_title(alloc, *is_copied)?;
    file.extend_from_slice(*behind)?;
    Ok(file)
}

/// Leaves the file that an earlier capture left, or none.
fn leave_file(rt: &HostRuntime, place: &Place, left: &Option<Captured>) -> Result<(), Fail> {
    let path = place.file.as_str();
    let _ = fs::remove_file(rt, path);
    if let Some(captured) = left {
        fs::write(rt, path, spell_file(rt.alloc(), captured)?.as_slice())?;
    }
    Ok(())
}

/// The file as another capture has it that goes on, or none.
fn hold_file(rt: &HostRuntime, place: &Place, case: &Case) -> Result<Option<File>, Fail> {
    if !case.is_held {
        return Ok(None);
    }
    let file = File::open(rt, place.file.as_str())?;
    match file.try_lock() {
        Ok(()) => Ok(Some(file)),
        Err(_) => Err(Fail::from("the file is locked")),
    }
}

/// Asserts what the file has, or that there is none. One that a command made is for its owner alone.
fn assert_file(rt: &HostRuntime, place: &Place, case: &Case, number: usize) -> Result<(), Fail> {
    let path = place.file.as_str();
    let (Ok(found), Some(captured)) = (fs::read(rt, path), &case.file) else {
        let is_there = fs::metadata(rt, path).is_ok();
        return assert_same(is_there, case.file.is_some(), number);
    };
    let want = spell_file(rt.alloc(), captured)?;
    assert_same(found.as_slice(), want.as_slice(), number)?;
    if case.left.is_none() {
        let mode = fs::metadata(rt, path)?.permissions().mode();
        assert_same(mode & 0o777, 0o600, number)?;
    }
    Ok(())
}

#[test]
fn slots_and_files_of_commands(rt: HostRuntime) {
    let place = Place::new(&rt, "slots").or_fail(&rt);
    for (number, case) in CASES.iter().enumerate() {
        leave_file(&rt, &place, &case.left).or_fail(&rt);
        let _other = hold_file(&rt, &place, case).or_fail(&rt);
        let (name, heard) = run_case(rt.alloc(), &rt, &place, case).or_fail(&rt);
        assert_same(name.as_str(), case.fault, number).or_fail(&rt);
        assert_asked(rt.alloc(), heard.as_slice(), case.asked, number).or_fail(&rt);
        assert_file(&rt, &place, case, number).or_fail(&rt);
    }
    leave_file(&rt, &place, &None).or_fail(&rt);
    fs::remove_file(&rt, place.socket.as_str()).or_fail(&rt);
}
