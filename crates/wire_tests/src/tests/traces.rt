// What no clause says: what a trace makes of a stream, in pieces of each length.
use super::OrFail;
use frames::{ReadSource, Source};
use testing::asserts::assert_same;
use trace::{Counts, Place, Trace, Watched, Watcher};

/// A transaction with one insert; then a keepalive; then a block of a streamed one with an insert of the
/// subtransaction 711: frames of 51, 54, 38, 56, 23, 36 and 42 bytes.
const STREAM: &[u8] = b"\
    d\0\0\0\x32w\0\0\0\0\0\0\0\x01\0\0\0\0\0\0\0\0\0\0\0\0\0\0\0\0\
    B\0\0\0\0\0\0\x01\0\0\0\0\0\0\0\0\0\0\0\x03\x84\
    d\0\0\0\x35w\0\0\0\0\0\0\0\x02\0\0\0\0\0\0\0\0\0\0\0\0\0\0\0\0\
    R\0\0\x40\x01public\0accounts\0d\0\0\
    d\0\0\0\x25w\0\0\0\0\0\0\0\x03\0\0\0\0\0\0\0\0\0\0\0\0\0\0\0\0\
    I\0\0\x40\x01N\0\0\
    d\0\0\0\x37w\0\0\0\0\0\0\0\x04\0\0\0\0\0\0\0\0\0\0\0\0\0\0\0\0\
    C\0\0\0\0\0\0\0\x01\0\0\0\0\0\0\0\x01\x20\0\0\0\0\0\0\0\0\
    d\0\0\0\x16k\0\0\0\0\0\0\0\x09\0\0\0\0\0\0\0\0\0\
    d\0\0\0\x23w\0\0\0\0\0\0\0\x05\0\0\0\0\0\0\0\0\0\0\0\0\0\0\0\0\
    S\0\0\x02\xbc\x01\
    d\0\0\0\x29w\0\0\0\0\0\0\0\x06\0\0\0\0\0\0\0\0\0\0\0\0\0\0\0\0\
    I\0\0\x02\xc7\0\0\x40\x01N\0\0";

/// What is counted of the stream.
const COUNTS: Counts = Counts {
    bytes: 300,
    frames: 7,
    commits: 1,
    changes: 2,
    position: 0x120,
};

/// Its last frame: the insert of the subtransaction.
const LAST: Place = Place {
    offset: 258,
    start: Some(6),
    message: Some("Insert"),
    xid: Some(700),
    sub: Some(711),
    relation: Some(16385),
};

#[test]
fn a_stream_in_pieces_of_each_length(rt: HostRuntime) {
    for size in 1..=STREAM.len() {
        let mut trace = Trace::new(rt.alloc());
        for piece in STREAM.chunks(size) {
            trace.pass(piece);
        }
        assert_same(trace.counts(), COUNTS, size).or_fail(&rt);
        assert_same(trace.place(), LAST, size).or_fail(&rt);
        let relation = trace.relation().expect(&rt, "no relation");
        assert_same(relation.namespace.as_str(), "public", "namespace").or_fail(&rt);
        assert_same(relation.name.as_str(), "accounts", "name").or_fail(&rt);
    }
}

/// Keeps how many frames were whole at each look.
#[derive(Drop)]
struct Looks<'a>(&'a mut Vec<u64>);

impl Watcher for Looks<'_> {
    fn look(&mut self, trace: &Trace) {
        // Without memory a look is lost, and the test fails.
        let _kept = self.0.push(trace.counts().frames);
    }
}

#[test]
fn a_read_stops_at_a_frame(rt: HostRuntime) {
    let mut trace = Trace::new(rt.alloc());
    let mut looks = Vec::new(rt.alloc());
    let mut read = Vec::new(rt.alloc());
    let source = ReadSource::new(STREAM);
    let mut watcher = Looks(&mut looks);
    let mut watched = Watched::new(source, &mut trace, &mut watcher, true);
    let mut buf = [0u8; 400];
    for _ in 0..15 {
        let count = watched
            .read_some(&mut buf)
            .ok()
            .expect(&rt, "a read that failed");
        read.extend_from_slice(&buf[..count]).or_fail(&rt);
    }
    drop(watched);
    drop(watcher);
    assert_same(read.as_slice(), STREAM, "read").or_fail(&rt);
    // A header and its rest, seven times, and the end.
    let want = [0, 1, 1, 2, 2, 3, 3, 4, 4, 5, 5, 6, 6, 7, 7];
    assert_same(looks.as_slice(), want.as_slice(), "looks").or_fail(&rt);
}

/// What is no stream, and how many frames are counted of it.
static NO_STREAMS: [(&[u8], u64); 4] = [
    (b"", 0),
    (b"d\0\0", 0),
    (b"HTTP/1.1 400 Bad Request\r\n", 0),
    (b"d\0\0\0\0d\0\0\0\x05wd\0\0\0\x1fw", 2),
];

#[test]
fn what_is_no_stream_is_counted(rt: HostRuntime) {
    for (case, (bytes, frames)) in NO_STREAMS.iter().enumerate() {
        let mut trace = Trace::new(rt.alloc());
        trace.pass(*bytes);
        assert_same(trace.counts().bytes, bytes.len() as u64, case).or_fail(&rt);
        assert_same(trace.counts().frames, *frames, case).or_fail(&rt);
        assert_same(trace.place().message, None, case).or_fail(&rt);
    }
}
