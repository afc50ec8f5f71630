// Whole services: a scripted server at a Unix socket, a follower that lags, and a stranger who comes beside it.
use super::OrFail;
use super::loopback::free_address;
use super::script::{Message, name_of, spell};
use super::slots::{
    DROPPED, ENDED, MADE, Place, SYSTEM, Words, assert_asked, spell_each, spell_title, tell,
};
use server::fault::Fault;
use server::follower::farewell;
use server::relay::Bounds;
use server::serve::{Service, serve};
use std::alloc::Global;
use std::io::{Read, Write};
use std::net::{Net, TcpListener, TcpStream};
use std::random::RandomSource;
use std::rt::Clock;
use std::test::Fail;
use std::thread::Threads;
use std::time::Duration;
use std::{fs, thread};
use testing::asserts::assert_same;

/// A service, what a server says on one connection after another, what the follower says first, what it says
/// twice behind that, and hears behind the stream's title and the first keepalive, the fault that ends the
/// service, and what the server was asked in the last connection.
#[derive(Clone, Copy)]
struct Case {
    copies: bool,
    creates: bool,
    until: Option<u64>,
    words: &'static [Words],
    said: &'static [u8],
    told: &'static [u8],
    heard: &'static [Message<'static>],
    fault: &'static str,
    asked: &'static str,
}

const SERVICE: Case = Case {
    copies: false,
    creates: false,
    until: None,
    words: &[],
    said: AT_0,
    told: AT_0,
    heard: &[],
    fault: "none",
    asked: "",
};

/// Status updates at 0, at 9, at 16 and at 33.
const AT_0: &[u8] =
    b"d\0\0\0\x26r\0\0\0\0\0\0\0\0\0\0\0\0\0\0\0\0\0\0\0\0\0\0\0\0\0\0\0\0\0\0\0\0\0";

const AT_9: &[u8] =
    b"d\0\0\0\x26r\0\0\0\0\0\0\0\x09\0\0\0\0\0\0\0\x09\0\0\0\0\0\0\0\x09\0\0\0\0\0\0\0\0\0";

const AT_16: &[u8] =
    b"d\0\0\0\x26r\0\0\0\0\0\0\0\x10\0\0\0\0\0\0\0\x10\0\0\0\0\0\0\0\x10\0\0\0\0\0\0\0\0\0";

const AT_33: &[u8] =
    b"d\0\0\0\x26r\0\0\0\0\0\0\0\x21\0\0\0\0\0\0\0\x21\0\0\0\0\0\0\0\x21\0\0\0\0\0\0\0\0\0";

/// A transaction that commits at 16.
const BEGIN: Message<'static> = (
    b'd',
    b"w\0\0\0\0\0\0\0\x10\0\0\0\0\0\0\0\x10\0\0\0\0\0\0\0\0B\0\0\0\0\0\0\0\x10\0\0\0\0\0\0\0\0\0\0\x02\xbc",
);

const COMMIT: Message<'static> = (
    b'd',
    b"w\0\0\0\0\0\0\0\x18\0\0\0\0\0\0\0\x18\0\0\0\0\0\0\0\0C\0\0\0\0\0\0\0\0\x10\0\0\0\0\0\0\0\x18\0\0\0\0\0\0\0\0",
);

/// A keepalive at 64 that wants no answer.
const KEEPALIVE: Message<'static> = (b'd', b"k\0\0\0\0\0\0\0\x40\0\0\0\0\0\0\0\0\0");

/// A copy of no rows, at 16: what the server says meanwhile, and its transaction.
const COPYING: Words = (&["160000", "1", SYSTEM, "", MADE, "", "", SYSTEM], &ENDED);

const FIRST_BEGIN: Message<'static> = (
    b'd',
    b"w\0\0\0\0\0\0\0\x10\0\0\0\0\0\0\0\x10\0\0\0\0\0\0\0\0B\0\0\0\0\0\0\0\x10\0\0\0\0\0\0\0\0\0\0\0\x02",
);

const FIRST_COMMIT: Message<'static> = (
    b'd',
    b"w\0\0\0\0\0\0\0\x10\0\0\0\0\0\0\0\x10\0\0\0\0\0\0\0\0C\0\0\0\0\0\0\0\0\x10\0\0\0\0\0\0\0\x10\0\0\0\0\0\0\0\0",
);

const BEGUN: Message<'static> = (b'W', b"\0\0\0");

const DONE: Message<'static> = (b'c', b"");

static CASES: [Case; 10] = [
    // The server shuts down.
    Case {
        creates: true,
        words: &[
            (&["160000", "1", SYSTEM, MADE], &[]),
            (&[SYSTEM], &[BEGUN, BEGIN, COMMIT, (b'C', b"COPY 0\0")]),
        ],
        heard: &[BEGIN, COMMIT, DONE],
        asked: "LOGICAL 0/0",
        ..SERVICE
    },
    // The stream begins where the follower is.
    Case {
        words: &[
            (&["160000", "1", "1", SYSTEM], &[]),
            (&[SYSTEM], &[BEGUN, BEGIN, COMMIT, (b'C', b"COPY 0\0")]),
        ],
        said: AT_9,
        heard: &[BEGIN, COMMIT, DONE],
        asked: "LOGICAL 0/9",
        ..SERVICE
    },
    // Which can't be beyond the server's log.
    Case {
        words: &[(&["160000", "1", "1", SYSTEM], &[]), (&[SYSTEM], &[])],
        said: AT_33,
        heard: &[(
            b'E',
            b"SFATAL\0C08006\0MAhead: the follower confirmed 0/21, and was given the log up to 0/20\0\0",
        )],
        fault: "Ahead",
        asked: "IDENTIFY_SYSTEM",
        ..SERVICE
    },
    // A fault of the server is heard behind the frames before it.
    Case {
        words: &[
            (&["160000", "1", "1", SYSTEM], &[]),
            (&[SYSTEM], &[BEGUN, BEGIN, (b'Z', b"I")]),
        ],
        heard: &[
            BEGIN,
            (
                b'E',
                b"SFATAL\0C08006\0MNonsense: a message that may not come here\0\0",
            ),
        ],
        fault: "Nonsense",
        asked: "LOGICAL 0/0",
        ..SERVICE
    },
    // Whoever comes first and is no follower is told so, and the server is not asked for a stream.
    Case {
        words: &[(&["160000", "1", "1", SYSTEM], &[]), (&[SYSTEM], &[])],
        said: b"GET / HTTP/1.0\r\n\r\n",
        heard: &[(
            b'E',
            b"SFATAL\0C08006\0MFollower: it sent what is no frame\0\0",
        )],
        fault: "Follower",
        asked: "IDENTIFY_SYSTEM",
        ..SERVICE
    },
    // A place ends the stream; then the server is asked where its log ends.
    Case {
        until: Some(64),
        words: &[
            (&["160000", "1", "1", SYSTEM], &[]),
            (
                &[SYSTEM],
                &[BEGUN, BEGIN, COMMIT, KEEPALIVE, DONE, (b'C', b"\0")],
            ),
            (&[SYSTEM], &[]),
        ],
        heard: &[BEGIN, COMMIT, KEEPALIVE, DONE],
        asked: "IDENTIFY_SYSTEM",
        ..SERVICE
    },
    // The rows that are there, of no table.
    Case {
        copies: true,
        creates: true,
        words: &[COPYING],
        told: AT_16,
        heard: &[FIRST_BEGIN, FIRST_COMMIT, DONE],
        asked: "LOGICAL 0/0",
        ..SERVICE
    },
    // Where the follower does not say that it has them, the slot is dropped again.
    Case {
        copies: true,
        creates: true,
        words: &[COPYING, DROPPED],
        heard: &[FIRST_BEGIN, FIRST_COMMIT, DONE],
        fault: "Follower",
        asked: "DROP_REPLICATION_SLOT",
        ..SERVICE
    },
    // So it is where the follower has rows.
    Case {
        copies: true,
        creates: true,
        words: &[(&["160000", "1", SYSTEM, "", MADE], &[]), DROPPED],
        said: AT_9,
        heard: &[(
            b'E',
            b"SFATAL\0C08006\0MFollower: it has rows, and the copy is for one that has none\0\0",
        )],
        fault: "Follower",
        asked: "DROP_REPLICATION_SLOT",
        ..SERVICE
    },
    // And where the copy breaks off.
    Case {
        copies: true,
        creates: true,
        words: &[
            (
                &["160000", "1", SYSTEM, "", MADE],
                &[(b'E', b"SERROR\0C42501\0Mno\0\0")],
            ),
            DROPPED,
        ],
        heard: &[(b'E', b"SFATAL\0C08006\0MServer: ERROR 42501: no\0\0")],
        fault: "Server",
        asked: "DROP_REPLICATION_SLOT",
        ..SERVICE
    },
];

/// How often a follower tries to connect before anybody listens.
const TRIES: usize = 1000;

/// How long a follower lags: milliseconds.
const LAG: u64 = 50;

/// The first keepalive, which asks how far the follower is.
const FIRST: [Message<'static>; 1] = [(b'd', b"k\0\0\0\0\0\0\0\0\0\0\0\0\0\0\0\0\x01")];

fn come<R: Net<Stream = TcpStream> + Clock>(rt: &R, address: &str) -> Result<TcpStream, Fail> {
    for _ in 0..TRIES {
        match TcpStream::connect(rt, address) {
            Ok(stream) => return Ok(stream),
            Err(_) => thread::sleep(rt, Duration::from_millis(10)),
        }
    }
    Err(Fail::from("nobody listens"))
}

/// What a follower hears that says this and lags, and one who comes beside it, as soon as it is served.
fn follow<R: Net<Stream = TcpStream> + Clock>(
    alloc: Global,
    rt: &R,
    address: &str,
    said: [&[u8]; 3],
) -> Result<(Vec<u8>, Vec<u8>), Fail> {
    let mut follower = come(rt, address)?;
    let mut heard = vec![in alloc; 0; 1]?;
    follower.read_exact(heard.as_mut_slice())?;
    let mut stranger = come(rt, address)?;
    let mut refused = Vec::new(alloc);
    stranger.read_to_end(&mut refused)?;
    // The second and the third are not read before the end.
    for part in said {
        let _ = follower.write_all(part);
    }
    thread::sleep(rt, Duration::from_millis(LAG));
    follower.read_to_end(&mut heard)?;
    Ok((heard, refused))
}

/// A service at this address for one follower.
fn service_of<'a>(address: &'a str, until: Option<u64>) -> Service<'a> {
    Service {
        listen: address,
        any: false,
        once: true,
        bounds: Bounds {
            until,
            millis: None,
        },
    }
}

/// What came of a case.
#[derive(Drop)]
struct Came {
    fault: String,
    asked: Vec<u8>,
    heard: Vec<u8>,
    refused: Vec<u8>,
}

fn run_case<'a, R>(
    alloc: Global,
    rt: &'a R,
    place: &'a Place,
    case: Case,
    address: &'a str,
) -> Result<Came, Fail>
where
    R: Threads
        + Net<Stream = TcpStream, Listener = TcpListener>
        + Clock
        + RandomSource
        + Eprint
        + Sync,
{
    let said = spell_each(alloc, case.words)?;
    let words = said.as_slice();
    let asked = place.subscription(case.creates, case.copies);
    let service = service_of(address, case.until);
    let ((told, answer), followed) = thread::join(
        rt,
        move || {
            thread::join(
                rt,
                move || tell(alloc, &place.listener, words),
                move || serve(alloc, rt, &asked, &service),
            )
        },
        move || follow(alloc, rt, address, [case.said, case.told, case.told]),
    );
    let (heard, refused) = followed?;
    Ok(Came {
        fault: name_of(alloc, answer)?,
        asked: told?,
        heard,
        refused,
    })
}

fn assert_heard(alloc: Global, heard: &[u8], case: &Case, number: usize) -> Result<(), Fail> {
    let mut want = spell_title(alloc, case.copies)?;
    want.extend_from_slice(spell(alloc, &[&FIRST, case.heard])?.as_slice())?;
    assert_same(heard, want.as_slice(), number)
}

fn assert_refused(alloc: Global, refused: &[u8], number: usize) -> Result<(), Fail> {
    let busy = farewell(alloc, &Fault::Busy)?;
    assert_same(refused, busy.as_slice(), number)
}

#[test]
fn services_for_a_follower_that_lags(rt: HostRuntime) {
    let place = Place::new(&rt, "services").or_fail(&rt);
    for (number, case) in CASES.iter().enumerate() {
        let address = free_address(&rt).or_fail(&rt);
        let came = run_case(rt.alloc(), &rt, &place, *case, address.as_str()).or_fail(&rt);
        assert_same(came.fault.as_str(), case.fault, number).or_fail(&rt);
        assert_heard(rt.alloc(), came.heard.as_slice(), case, number).or_fail(&rt);
        assert_refused(rt.alloc(), came.refused.as_slice(), number).or_fail(&rt);
        assert_asked(rt.alloc(), came.asked.as_slice(), case.asked, number).or_fail(&rt);
    }
    fs::remove_file(&rt, place.socket.as_str()).or_fail(&rt);
}
