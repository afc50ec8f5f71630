// Both sides of a connection over a socket of this machine. Where what is sent fits the system's
// buffers, one thread plays both.
use crate::tests::OrFail;
use frames::{
    CopyItem, FrameFault, Frames, ReadSource, Source, Status, WriteSink, send_status, write_status,
};
use std::alloc::Global;
use std::io::{Read, Write};
use std::net::{Shutdown, TcpListener, TcpStream};
use std::test::Fail;
use std::thread;
use tcp::Connection;
use testing::asserts::{assert_holds, assert_same};

/// A keepalive, and CopyDone.
const KEEPALIVE: &[u8] = b"d\0\0\0\x16k\0\0\0\0\0\0\x02\0\0\0\0\0\0\0\0\0\x01";

const COPY_DONE: &[u8] = b"c\0\0\0\x04";

const STATUS: Status = Status {
    written: 512,
    flushed: 288,
    applied: 288,
    clock: 5,
};

/// A connection, and the other side of it.
fn pair(rt: &HostRuntime) -> Result<(Connection, TcpStream), Fail> {
    let listener = TcpListener::bind(rt, "127.0.0.1:0")?;
    let address = format!(in rt.alloc(); "{}", listener.local_addr()?)?;
    let connection = Connection::open(rt, address.as_str())?;
    let (peer, _) = listener.accept()?;
    Ok((connection, peer))
}

/// Three keepalives.
fn keepalives(alloc: Global) -> Result<Vec<u8>, Fail> {
    let mut bytes = Vec::new(alloc);
    for _ in 0..3 {
        bytes.extend_from_slice(KEEPALIVE)?;
    }
    Ok(bytes)
}

/// Reads a source to its end. It answers how many items there were, and how the input ended.
fn read_all<R: Source + Drop>(alloc: Global, mut source: R) -> (usize, Result<(), FrameFault>) {
    let mut frames = Frames::new(alloc);
    let mut count: usize = 0;
    for _ in 0..u64::MAX {
        let pulled = frames.pull(&mut source);
        while let Some(CopyItem::Keepalive { .. }) = frames.next() {
            count = count.saturating_add(1);
        }
        match pulled {
            Ok(true) => {}
            Ok(false) => return (count, frames.finish()),
            Err(fault) => return (count, Err(fault)),
        }
    }
    (count, Ok(()))
}

#[test]
fn the_other_side_closes_at_a_frames_edge(rt: HostRuntime) {
    let (connection, mut peer) = pair(&rt).or_fail(&rt);
    peer.write_all(keepalives(rt.alloc()).or_fail(&rt).as_slice())
        .or_fail(&rt);
    drop(peer);
    let (count, end) = read_all(rt.alloc(), connection.source());
    assert_same(count, 3, "count").or_fail(&rt);
    assert_same(end, Ok(()), "end").or_fail(&rt);
}

#[test]
fn the_other_side_closes_within_a_frame(rt: HostRuntime) {
    let (connection, mut peer) = pair(&rt).or_fail(&rt);
    let mut bytes = keepalives(rt.alloc()).or_fail(&rt);
    bytes.pop();
    peer.write_all(bytes.as_slice()).or_fail(&rt);
    drop(peer);
    let (count, end) = read_all(rt.alloc(), connection.source());
    assert_same(count, 2, "count").or_fail(&rt);
    assert_same(end, Err(FrameFault::Truncated), "end").or_fail(&rt);
}

/// A side that closes before it has read what came breaks the connection.
#[test]
fn a_connection_that_breaks(rt: HostRuntime) {
    let (connection, peer) = pair(&rt).or_fail(&rt);
    send_status(rt.alloc(), &STATUS, &mut connection.sink()).or_fail(&rt);
    assert_same(peer.peek(&mut [0u8; 1]).or_fail(&rt), 1, "peek").or_fail(&rt);
    drop(peer);
    let (count, end) = read_all(rt.alloc(), connection.source());
    assert_same(count, 0, "count").or_fail(&rt);
    assert_same(end, Err(FrameFault::Device), "end").or_fail(&rt);
    let mut sink = connection.sink();
    let sent = send_status(rt.alloc(), &STATUS, &mut sink);
    assert_same(sent, Err(FrameFault::Device), "sent").or_fail(&rt);
}

/// Sends bytes one at a time, and then hears until the other side closes. It answers what came, or
/// nothing where the connection broke.
fn tell_slowly(alloc: Global, mut peer: TcpStream, bytes: &[u8]) -> Vec<u8> {
    let mut heard = Vec::new(alloc);
    for place in 0..bytes.len() {
        if peer.write_all(&bytes[place..place + 1]).is_err() {
            return heard;
        }
        thread::yield_now();
    }
    if peer.read_to_end(&mut heard).is_err() {
        heard.clear();
    }
    heard
}

/// What came back is the update.
fn assert_update(alloc: Global, heard: &[u8]) -> Result<(), Fail> {
    let mut update = Vec::new(alloc);
    write_status(&STATUS, &mut update)?;
    assert_same(heard, update.as_slice(), "heard")
}

#[test]
fn bytes_one_at_a_time_and_updates_that_come_back(rt: HostRuntime) {
    let alloc = rt.alloc();
    let (connection, peer) = pair(&rt).or_fail(&rt);
    peer.set_nodelay(true).or_fail(&rt);
    let mut bytes = keepalives(alloc).or_fail(&rt);
    bytes.extend_from_slice(COPY_DONE).or_fail(&rt);
    let told = bytes.as_slice();
    let ((count, end, sent), heard) = thread::join(
        &rt,
        || {
            let (count, end) = read_all(alloc, connection.source());
            let sent = send_status(alloc, &STATUS, &mut connection.sink());
            drop(connection);
            (count, end, sent)
        },
        || tell_slowly(alloc, peer, told),
    );
    assert_same((count, end, sent), (3, Ok(()), Ok(())), "ends").or_fail(&rt);
    assert_update(alloc, heard.as_slice()).or_fail(&rt);
}

#[test]
fn ends_that_are_kept_apart(rt: HostRuntime) {
    let alloc = rt.alloc();
    let (connection, mut peer) = pair(&rt).or_fail(&rt);
    peer.write_all(keepalives(alloc).or_fail(&rt).as_slice())
        .or_fail(&rt);
    peer.shutdown(Shutdown::Write).or_fail(&rt);
    let (read, written) = connection.into_ends().or_fail(&rt);
    let (count, end) = read_all(alloc, ReadSource::new(read));
    assert_same((count, end), (3, Ok(())), "end").or_fail(&rt);
    send_status(alloc, &STATUS, &mut WriteSink::new(written)).or_fail(&rt);
    let mut heard = Vec::new(alloc);
    peer.read_to_end(&mut heard).or_fail(&rt);
    assert_update(alloc, heard.as_slice()).or_fail(&rt);
}

#[test]
fn what_is_no_host_and_port_is_refused(rt: HostRuntime) {
    for address in [
        "",
        ":",
        ":1",
        "1",
        "localhost",
        "127.0.0.1",
        "127.0.0.1:",
        "127.0.0.1:x",
        "127.0.0.1:65536",
        "127.0.0.1:-1",
        "::1:1:",
        "[::1]",
        "/tmp:x",
    ] {
        assert_holds(Connection::open(&rt, address).is_err(), address).or_fail(&rt);
    }
}

#[test]
fn where_nobody_listens_is_refused(rt: HostRuntime) -> Result<(), Fail> {
    assert_holds(Connection::open(&rt, "127.0.0.1:1").is_err(), "open")
}
