// What is said of events, when, and what a server is asked for it.
use super::OrFail;
use super::script::spell;
use super::slots::{Place as At, SYSTEM, spell_words, tell};
use server::events::{Event, Progress, Reporting, say};
use server::fault::Fault;
use server::host::Server;
use server::place::Place;
use server::relay::{End, Output, Relayed};
use std::alloc::Global;
use std::cell::RefCell;
use std::fmt::{Display, Write};
use std::net::{Net, SocketAddr, TcpStream};
use std::random::RandomSource;
use std::rt::Clock;
use std::test::Fail;
use std::thread::Threads;
use std::time::Duration;
use std::{fs, io, thread};
use testing::asserts::{assert_holds, assert_same};

/// Has a clock that stands, or none, and keeps what is said on standard error.
#[derive(Drop)]
struct Host {
    since_1970: Option<Duration>,
    said: RefCell<String>,
}

impl Clock for Host {
    fn monotonic(&self) -> io::Result<Duration> {
        self.since_1970()
    }

    fn since_1970(&self) -> io::Result<Duration> {
        self.since_1970
            .ok_or(io::Error::from(io::ErrorKind::Unsupported))
    }
}

impl Eprint for Host {
    fn eprint<D: Display + Drop>(&self, value: D) -> io::Result<()> {
        // Without memory some of it is lost, and the test fails.
        if let Ok(mut said) = self.said.try_borrow_mut() {
            let _kept = write!(said, "{value}");
        }
        Ok(())
    }

    fn eprintln<D: Display + Drop>(&self, value: D) -> io::Result<()> {
        self.eprint(value)?;
        self.eprint("\n")
    }
}

/// What is said of an event, so many milliseconds after 1970 began; of none where the clock can't be read.
fn said(alloc: Global, millis: Option<u64>, event: Event<'_>) -> Result<String, Fail> {
    let host = Host {
        since_1970: millis.map(Duration::from_millis),
        said: RefCell::new(String::new(alloc)),
    };
    say(&host, event);
    Ok(host.said.into_inner())
}

#[test]
fn an_event_is_said_with_its_time(rt: HostRuntime) {
    let event = Event::Made("s", Place(16));
    let text = said(rt.alloc(), Some(1_795_837_980_123), event).or_fail(&rt);
    let want = "2026-11-28T03:53:00.123Z publisher: the slot s was made at 0/10\n";
    assert_same(text.as_str(), want, "time").or_fail(&rt);
    let text = said(rt.alloc(), None, event).or_fail(&rt);
    assert_same(
        text.as_str(),
        "publisher: the slot s was made at 0/10\n",
        "none",
    )
    .or_fail(&rt);
}

const PUT: Relayed = Relayed {
    frames: 3,
    bytes: 200,
    position: 40,
    committed: 24,
};

const PROGRESS: Progress = Progress {
    put: PUT,
    confirmed: 32,
    log_end: None,
};

const KNOWN: Progress = Progress {
    log_end: Some(64),
    ..PROGRESS
};

/// Each event is said so.
fn assert_said(alloc: Global, cases: &[(Event<'_>, &str)]) -> Result<(), Fail> {
    for (event, want) in cases {
        let text = format!(in alloc; "{event}")?;
        assert_same(text.as_str(), *want, *want)?;
    }
    Ok(())
}

#[test]
fn what_is_said_of_events(rt: HostRuntime) -> Result<(), Fail> {
    let address: SocketAddr = "127.0.0.1:5500".parse().map_err(|_| "no address")?;
    let cases: [(Event<'_>, &str); 7] = [
        (Event::Dropped("s"), "the slot s was dropped"),
        (
            Event::Stays("s", &Fault::Closed),
            "the slot s stays, and holds the server's log: Closed: the server closed the connection",
        ),
        (Event::Listening(address), "listening at 127.0.0.1:5500"),
        (Event::Came(address), "a follower came from 127.0.0.1:5500"),
        (
            Event::Copied(&PUT),
            "3 frames, 200 bytes, are the rows that are there",
        ),
        (
            Event::Begins(Place(16), Place(32)),
            "the stream begins at 0/10, and the server's log is 16 bytes ahead",
        ),
        (
            Event::Failed(&Fault::Closed),
            "Closed: the server closed the connection",
        ),
    ];
    assert_said(rt.alloc(), &cases)
}

#[test]
fn what_is_said_of_a_stream(rt: HostRuntime) -> Result<(), Fail> {
    let cases: [(Event<'_>, &str); 3] = [
        (
            Event::Going(PROGRESS),
            "3 frames, 200 bytes, up to 0/28, confirmed up to 0/20",
        ),
        (
            Event::Going(KNOWN),
            "3 frames, 200 bytes, up to 0/28, confirmed up to 0/20, and the server's log is 24 bytes ahead, 32 of what is confirmed",
        ),
        (
            Event::Ended(PROGRESS, Some(End::Shutdown)),
            "3 frames, 200 bytes, up to 0/28, confirmed up to 0/20: the server shut down",
        ),
    ];
    assert_said(rt.alloc(), &cases)
}

/// Takes nothing, and has confirmed nothing.
#[derive(Drop)]
struct Nowhere;

impl Output for Nowhere {
    fn put(&mut self, _frames: &[u8]) -> Result<(), Fault> {
        Ok(())
    }

    fn tell(&mut self, _put: &Relayed, _due: bool, _updates: &mut Vec<u8>) -> Result<bool, Fault> {
        Ok(true)
    }

    fn confirmed(&self) -> u64 {
        0
    }
}

/// Tells once, behind a pause of so many milliseconds.
fn tell_once<R: Net<Stream = TcpStream> + Clock + RandomSource + Eprint>(
    alloc: Global,
    rt: &R,
    server: &Server,
    pause: u64,
) -> Result<bool, Fault> {
    let mut output = Nowhere;
    let mut reporting = Reporting::new(alloc, rt, server, &mut output, pause);
    let mut updates = Vec::new(alloc);
    reporting.tell(&PUT, false, &mut updates)
}

/// What a server is asked where a line is due.
fn asked<R>(alloc: Global, rt: &R, at: &At) -> Result<Vec<u8>, Fail>
where
    R: Threads + Net<Stream = TcpStream> + Clock + RandomSource + Eprint + Sync,
{
    let said = [spell_words(alloc, &(&[SYSTEM], &[]))?];
    let words: &[Vec<u8>] = &said;
    let (heard, answer) = thread::join(
        rt,
        move || tell(alloc, &at.listener, words),
        move || tell_once(alloc, rt, &at.server, 0),
    );
    assert_holds(answer?, "goes on")?;
    Ok(heard?)
}

/// Asserts that what a server heard has the question.
fn assert_asked(alloc: Global, heard: &[u8]) -> Result<(), Fail> {
    let want = spell(alloc, &[&[(b'Q', b"IDENTIFY_SYSTEM\0")]])?;
    let text = String::from_utf8_lossy(alloc, heard)?;
    let wanted = String::from_utf8_lossy(alloc, want.as_slice())?;
    assert_holds(text.as_str().find(wanted.as_str()).is_some(), "asked")
}

#[test]
fn the_end_of_the_log_is_asked_where_a_line_is_due(rt: HostRuntime) {
    let at = At::new(&rt, "events").or_fail(&rt);
    // Nobody asks yet: there is no answer.
    assert_holds(
        tell_once(rt.alloc(), &rt, &at.server, 60_000).or_fail(&rt),
        "goes on",
    )
    .or_fail(&rt);
    let heard = asked(rt.alloc(), &rt, &at).or_fail(&rt);
    assert_asked(rt.alloc(), heard.as_slice()).or_fail(&rt);
    fs::remove_file(&rt, at.socket.as_str()).or_fail(&rt);
}
