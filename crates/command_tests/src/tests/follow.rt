// A stream that comes over a connection, and the status updates that go back: a sender listens on a
// socket of this machine, in a thread of its own.
use crate::tests::devices::{KEEPALIVE, ONE_INSERT};
use crate::tests::runs::{CONFIG, framed, push_frames, spelled};
use leader::{Config, StillClock};
use pgapply_command::execute::{Ended, execute};
use std::alloc::Global;
use std::io::{Read, Write};
use std::net::{Shutdown, TcpListener, TcpStream};
use std::random::RandomSource;
use std::sync::Wait;
use std::test::Fail;
use std::thread;
use std::thread::Threads;
use tcp::Connection;
use testing::accounts::CATALOG;
use testing::asserts::{assert_holds, assert_same};

/// B(500,0/100), the relation, I(1,a,n), I(2,b,n) and C(0/100,0/140).
static TWO_INSERTS: [&str; 5] = [
    "4200000000000001000000000000000000000001f4",
    "52000040017075626c6963006163636f756e7473006400030169640000000017ffffffff00656d61696c0000000019ffffffff006e6f74650000000019ffffffff",
    "49000040014e000374000000013174000000016174000000016e",
    "49000040014e000374000000013274000000016274000000016e",
    "4300000000000000010000000000000001400000000000000000",
];

/// The status updates after the commit at 0/140 and to a keepalive at 0/200, with the clock at 5.
const UPDATE: &str =
    "640000002672000000000000014000000000000001400000000000000140000000000000000500";

const REPLY: &str =
    "640000002672000000000000020000000000000001400000000000000140000000000000000500";

/// How a sender sends.
#[derive(Clone, Copy)]
enum Manner {
    /// All at once.
    Whole,
    /// A byte at a time.
    Bytewise,
}

/// Sends a stream, and hears until the follower closes. None where the connection broke.
fn send(alloc: Global, mut peer: TcpStream, stream: &[u8], manner: Manner) -> Option<Vec<u8>> {
    let size = match manner {
        Manner::Whole => stream.len(),
        Manner::Bytewise => 1,
    };
    for piece in stream.chunks(size.max(1)) {
        peer.write_all(piece).ok()?;
        thread::yield_now();
    }
    peer.shutdown(Shutdown::Write).ok()?;
    let mut heard = Vec::new(alloc);
    peer.read_to_end(&mut heard).ok()?;
    Some(heard)
}

/// A connection, and the other side of it.
fn pair(rt: &HostRuntime) -> Result<(Connection, TcpStream), Fail> {
    let listener = TcpListener::bind(rt, "127.0.0.1:0")?;
    let address = format!(in rt.alloc(); "{}", listener.local_addr()?)?;
    let connection = Connection::open(rt, address.as_str())?;
    let (peer, _) = listener.accept()?;
    peer.set_nodelay(true)?;
    Ok((connection, peer))
}

/// What a follower prints of a stream, and what its sender hears.
fn followed<T: Threads + Wait + RandomSource + Sync>(
    threads: &T,
    alloc: Global,
    (connection, peer): (Connection, TcpStream),
    stream: &[u8],
    manner: Manner,
) -> (Ended, Vec<u8>, Option<Vec<u8>>) {
    let ((ended, out), heard) = thread::join(
        threads,
        || {
            let answer = follow(threads, alloc, &connection);
            drop(connection);
            answer
        },
        || send(alloc, peer, stream, manner),
    );
    (ended, out, heard)
}

/// What `follow` runs by two workers, with the clock at 5.
fn follow<T: Threads + Wait + RandomSource + Sync>(
    threads: &T,
    alloc: Global,
    connection: &Connection,
) -> (Ended, Vec<u8>) {
    let mut out = Vec::new(alloc);
    let config = Config {
        workers: 2,
        ..CONFIG
    };
    let ended = execute(
        threads,
        alloc,
        false,
        &config,
        CATALOG.as_bytes(),
        connection.source(),
        connection.sink(),
        StillClock(5),
        &mut out,
    );
    (ended, out)
}

/// A follower of the stream ends so, with both rows, and its sender hears these updates.
fn assert_followed<T: Threads + Wait + RandomSource + Sync>(
    threads: &T,
    alloc: Global,
    sides: (Connection, TcpStream),
    (stream, manner): (&[u8], Manner),
    (end, status): (&str, u8),
    updates: &[&str],
) -> Result<(), Fail> {
    let report = format!(in alloc;
        "table public.accounts 2\n1|a|n\n2|b|n\nposition 0/140\nend {end}\n"
    )?;
    let updates = spelled(alloc, updates)?;
    let (ended, out, heard) = followed(threads, alloc, sides, stream, manner);
    assert_same(out.as_slice(), report.as_bytes(), end)?;
    assert_same(ended.status, status, "status")?;
    assert_heard(heard.as_ref(), updates.as_slice())
}

fn assert_heard(heard: Option<&Vec<u8>>, updates: &[u8]) -> Result<(), Fail> {
    let heard = heard.ok_or("a sender whose connection broke")?;
    assert_same(heard.as_slice(), updates, "heard")
}

#[test]
fn updates_go_back_over_the_connection(rt: HostRuntime) -> Result<(), Fail> {
    let mut stream = framed(rt.alloc(), &TWO_INSERTS)?;
    let end = spelled(rt.alloc(), &[KEEPALIVE, "6300000004"])?;
    stream.extend_from_slice(end.as_slice())?;
    for manner in [Manner::Whole, Manner::Bytewise] {
        let sent = (stream.as_slice(), manner);
        let updates = [UPDATE, REPLY];
        assert_followed(&rt, rt.alloc(), pair(&rt)?, sent, ("0 Clean", 0), &updates)?;
    }
    Ok(())
}

/// How a follower ends where its sender closes so many bytes before the end of a frame that comes behind
/// the commit, which has 51.
static CLOSED: [(usize, (&str, u8)); 3] = [
    (51, ("0 Clean", 0)),
    (50, ("1 Frame Truncated", 2)),
    (1, ("1 Frame Truncated", 2)),
];

#[test]
fn a_sender_that_closes_within_a_frame(rt: HostRuntime) -> Result<(), Fail> {
    let mut stream = framed(rt.alloc(), &TWO_INSERTS)?;
    push_frames(&mut stream, rt.alloc(), &ONE_INSERT[..1])?;
    for &(less, end) in &CLOSED {
        let length = stream.len().saturating_sub(less);
        let sent = stream.as_slice().get(..length).unwrap_or(&[]);
        let sent = (sent, Manner::Whole);
        assert_followed(&rt, rt.alloc(), pair(&rt)?, sent, end, &[UPDATE])?;
    }
    Ok(())
}

/// A sender that goes before it has read the update of the commit breaks the connection. Work that is
/// open is undone.
#[test]
fn a_connection_that_breaks(rt: HostRuntime) -> Result<(), Fail> {
    let alloc = rt.alloc();
    let (connection, mut peer) = pair(&rt)?;
    let mut stream = framed(alloc, &TWO_INSERTS)?;
    push_frames(&mut stream, alloc, &ONE_INSERT[..1])?;
    let ((ended, out), sent) = thread::join(
        &rt,
        || follow(&rt, alloc, &connection),
        || {
            let sent = peer.write_all(stream.as_slice()).is_ok()
                && peer.peek(&mut [0u8; 1]).is_ok();
            drop(peer);
            sent
        },
    );
    assert_holds(sent, "sent")?;
    let want = "table public.accounts 2\n1|a|n\n2|b|n\nposition 0/140\nend 1 Frame Device\n";
    assert_same(out.as_slice(), want.as_bytes(), "out")?;
    assert_same(ended.status, 2, "status")
}
