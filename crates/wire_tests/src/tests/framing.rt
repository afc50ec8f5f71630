// A caller that rests on the public contracts alone, and what no clause says.
ghost use Rattle.std.specs.Prelude.{◌≡◌, ℕ, None, List, [], ◌++◌, OnOk, IfOk};
ghost use Rattle.std.specs.Io.KnownBytes.{Consumes};
ghost use Rattle.frames.specs.Stream.{ending_of};
ghost use Rattle.frames.specs.Reads.{HasRead, HasEnded, AtEndOf};

use super::OrFail;
use bytes::Bytes;
use frames::{
    CopyItem, FrameFault, Frames, Lsn, ReadSource, Source, Status, WriteSink, send_status,
    write_status,
};
use std::alloc::{AllocError, Global};
use std::io::Cursor;
use std::slice;
use std::test::Fail;
use testing::asserts::assert_same;
use testing::devices::{Kept, Pieces};

// One transaction of an insert: Begin, Relation, Insert and Commit, each in a frame of its own.
const STREAM: &[u8] = b"\
    d\x00\x00\x00\x32w\0\0\0\0\0\0\0\0\0\0\0\0\0\0\0\0\0\0\0\0\0\0\0\0\
    B\0\0\0\0\0\0\x01\x00\0\0\0\0\0\0\0\0\x00\x00\x03\x84\
    d\x00\x00\x00\x5ew\0\0\0\0\0\0\0\0\0\0\0\0\0\0\0\0\0\0\0\0\0\0\0\0\
    R\x00\x00\x40\x01public\0accounts\0d\x00\x03\
    \x01id\0\x00\x00\x00\x17\xff\xff\xff\xff\
    \x00email\0\x00\x00\x00\x19\xff\xff\xff\xff\
    \x00note\0\x00\x00\x00\x19\xff\xff\xff\xff\
    d\x00\x00\x00\x37w\0\0\0\0\0\0\0\0\0\0\0\0\0\0\0\0\0\0\0\0\0\0\0\0\
    I\x00\x00\x40\x01N\x00\x03t\x00\x00\x00\x011t\x00\x00\x00\x01at\x00\x00\x00\x01n\
    d\x00\x00\x00\x37w\0\0\0\0\0\0\0\0\0\0\0\0\0\0\0\0\0\0\0\0\0\0\0\0\
    C\x00\0\0\0\0\0\0\x01\x00\0\0\0\0\0\0\x01\x20\0\0\0\0\0\0\0\0";

// Where its frames end.
static EDGES: [usize; 5] = [0, 51, 146, 202, 258];

fn take_kept(frames: &mut Frames, items: &mut Vec<CopyItem>) -> Result<(), AllocError>
    ensures none { OnOk result (frames.new.items ≡ []) }
    ensures ending { frames.new.ending ≡ frames.old.ending }
    ensures read { (fed : List ℕ) → HasRead fed items.old.items frames.old
        → OnOk result (HasRead fed items.new.items frames.new) }
{
    while let Some(item) = frames.next() {
        items.push(item)?;
    }
    Ok(())
}

// All items of a source, and the answer at its end. The items are the copy items of the bytes that the source gave.
fn read_all<R: Source>(
    alloc: Global,
    source: &mut R,
) -> Result<(Vec<CopyItem>, Result<(), FrameFault>), AllocError>
    ensures { IfOk result (λ all. (bytes : List ℕ)
        × Consumes (R.remaining source.old) (R.remaining source.new) bytes
        × HasEnded all.1 bytes all.0.items
        × OnOk all.1 (AtEndOf (ending_of bytes) (R.remaining source.new))) }
{
    let mut frames = Frames::new(alloc);
    let mut items = Vec::new(alloc);
    'pulls: loop {
        let pulled = frames.pull(source);
        take_kept(&mut frames, &mut items)?;
        match pulled {
            Ok(true) => {}
            Ok(false) => return Ok((items, frames.finish())),
            Err(_) => return Ok((items, frames.finish())),
        }
    }
}

// What these bytes give in pieces of a size.
fn read_pieces(
    alloc: Global,
    bytes: &[u8],
    size: usize,
) -> Result<(Vec<CopyItem>, Result<(), FrameFault>), AllocError> {
    let mut frames = Frames::new(alloc);
    let mut items = Vec::new(alloc);
    for piece in bytes.chunks(size.max(1)) {
        let _ = frames.feed(piece);
        take_kept(&mut frames, &mut items)?;
    }
    Ok((items, frames.finish()))
}

// Frames, and how they end.
static ENDS: [(&[u8], Result<(), FrameFault>); 17] = [
    (b"d\x00\x00\x00\x04", Err(FrameFault::BadLength)),
    (b"d\x80\x00\x00\x00", Err(FrameFault::BadLength)),
    (b"c\x00\x00\x00\x05", Err(FrameFault::BadLength)),
    (b"d\x00\x00\x00\x05w", Err(FrameFault::BadLength)),
    (
        b"d\x00\x00\x00\x15k\0\0\0\0\0\0\0\x02\0\0\0\0\0\0\0\0",
        Err(FrameFault::BadLength),
    ),
    (
        b"d\x00\x00\x00\x17k\0\0\0\0\0\0\0\x02\0\0\0\0\0\0\0\0\x01\0",
        Err(FrameFault::BadLength),
    ),
    (
        b"d\x00\x00\x00\x1cw\0\0\0\0\0\0\0\0\0\0\0\0\0\0\0\0\0\0\0\0\0\0\0",
        Err(FrameFault::BadLength),
    ),
    (b"d\x04\x00\x00\x01", Err(FrameFault::TooLarge)),
    (b"d\x04\x00\x00\x00", Err(FrameFault::Truncated)),
    (b"X\x00\x00\x00\x04", Err(FrameFault::UnknownFrame)),
    (b"X\x00\x00\x00", Err(FrameFault::Truncated)),
    (b"E\x00\x00\x00\x04", Err(FrameFault::ServerError)),
    (b"E\x00\x00\x00\x05", Err(FrameFault::Truncated)),
    (b"d\x00\x00\x00\x05x", Err(FrameFault::UnknownCopyTag)),
    (b"N\x00\x00\x00\x04", Ok(())),
    (b"S\x00\x00\x00\x06a\0", Ok(())),
    (b"c\x00\x00\x00\x04further", Ok(())),
];

#[test]
fn frames_that_are_refused(rt: HostRuntime) {
    for (case, (bytes, want)) in ENDS.iter().enumerate() {
        for size in [1, bytes.len()] {
            let (_, end) = read_pieces(rt.alloc(), *bytes, size).or_fail(&rt);
            assert_same(end, *want, case).or_fail(&rt);
        }
    }
}

// How many frames of the stream are whole within so many bytes.
fn whole_within(count: usize) -> usize {
    EDGES
        .iter()
        .filter(|edge| **edge > 0 && **edge <= count)
        .count()
}

#[test]
fn a_source_that_fails_at_each_read(rt: HostRuntime) {
    for fails_at in 0..=STREAM.len() {
        let mut source = Pieces::with_reads(STREAM, 1, fails_at as u64);
        let (items, end) = read_all(rt.alloc(), &mut source).or_fail(&rt);
        assert_same(end, Err(FrameFault::Device), fails_at).or_fail(&rt);
        assert_same(source.failures(), 1, "failures").or_fail(&rt);
        assert_same(items.len(), whole_within(fails_at), fails_at).or_fail(&rt);
    }
}

// Where the payloads of its frames lie.
static PAYLOADS: [(usize, usize); 4] = [(30, 51), (81, 146), (176, 202), (232, 258)];

// The item of the stream's frame whose payload lies here.
fn item_at(place: Option<&(usize, usize)>) -> CopyItem {
    let payload = place.and_then(|(from, to)| STREAM.get(*from..*to));
    CopyItem::Wal {
        start: 0,
        end: 0,
        payload: Bytes::from_static(payload.unwrap_or(&[])),
    }
}

// The items that are kept are the next ones of the stream.
fn assert_next(
    frames: &mut Frames,
    payloads: &mut slice::Iter<'_, (usize, usize)>,
) -> Result<(), Fail> {
    while let Some(item) = frames.next() {
        assert_same(&item, &item_at(payloads.next()), "item")?;
    }
    Ok(())
}

// Memory was refused, which is said again.
fn assert_refused(frames: &mut Frames, piece: &[u8], fault: FrameFault) -> Result<(), Fail> {
    assert_same(fault, FrameFault::OutOfMemory, "fault")?;
    assert_same(frames.feed(piece), Err(FrameFault::OutOfMemory), "feed")?;
    assert_same(frames.finish(), Err(FrameFault::OutOfMemory), "finish")
}

// Where memory is refused, the items are a beginning of all, and the refusal comes again. With ample memory it isn't.
#[test]
fn items_where_memory_is_refused(rt: HostRuntime) -> Result<(), Fail> {
    let mut frames = Frames::new(rt.alloc());
    let mut payloads = PAYLOADS.iter();
    for piece in STREAM.chunks(40) {
        let answer = frames.feed(piece);
        assert_next(&mut frames, &mut payloads)?;
        if let Err(fault) = answer {
            return assert_refused(&mut frames, piece, fault);
        }
    }
    assert_same(payloads.next(), None, "payload")?;
    assert_same(frames.finish(), Ok(()), "finish")
}

// Over std's readers: the payloads, and CopyDone, after which nothing is read.
#[test]
fn a_reader_up_to_copy_done(rt: HostRuntime) {
    let mut bytes = STREAM.to_vec(rt.alloc()).or_fail(&rt);
    bytes
        .extend_from_slice(b"c\x00\x00\x00\x04d\x00")
        .or_fail(&rt);
    let mut source = ReadSource::new(Cursor::new(bytes.as_slice()));
    let (items, end) = read_all(rt.alloc(), &mut source).or_fail(&rt);
    assert_same(end, Ok(()), "end").or_fail(&rt);
    assert_same(items.len(), 5, "items").or_fail(&rt);
    let commit = CopyItem::Wal {
        start: 0,
        end: 0,
        payload: Bytes::from_static(&STREAM[232..]),
    };
    assert_same(items.as_slice().get(3), Some(&commit), "commit").or_fail(&rt);
    assert_same(items.as_slice().get(4), Some(&CopyItem::Done), "done").or_fail(&rt);
}

// Where a run is that has applied the stream's commit and has so much of the log, with the clock at 5.
fn status(written: Lsn) -> Status {
    Status {
        written,
        flushed: 0x120,
        applied: 0x120,
        clock: 5,
    }
}

// The update of the stream's commit, and one of a run that has more of the log.
const UPDATE: &[u8] = b"\
    d\x00\x00\x00\x26r\0\0\0\0\0\0\x01\x20\0\0\0\0\0\0\x01\x20\0\0\0\0\0\0\x01\x20\0\0\0\0\0\0\0\x05\0";

static UPDATES: [(Lsn, &[u8]); 2] = [
    (0x120, UPDATE),
    (
        0x200,
        b"d\x00\x00\x00\x26r\0\0\0\0\0\0\x02\x00\0\0\0\0\0\0\x01\x20\0\0\0\0\0\0\x01\x20\0\0\0\0\0\0\0\x05\0",
    ),
];

// How many writes of three bytes come before one that fails, how many bytes of an update were taken by
// them, and what is answered.
static SENT: [(u64, usize, Result<(), FrameFault>); 3] = [
    (0, 0, Err(FrameFault::Device)),
    (12, 36, Err(FrameFault::Device)),
    (13, 39, Ok(())),
];

#[test]
fn status_updates(rt: HostRuntime) {
    for &(written, want) in &UPDATES {
        let mut out = Vec::new(rt.alloc());
        out.push(7).or_fail(&rt);
        assert_same(write_status(&status(written), &mut out), Ok(()), "written").or_fail(&rt);
        assert_same(out.as_slice().get(1..), Some(want), "update").or_fail(&rt);
        let mut sink = WriteSink::new(Vec::new(rt.alloc()));
        assert_same(
            send_status(rt.alloc(), &status(written), &mut sink),
            Ok(()),
            "sent",
        )
        .or_fail(&rt);
    }
}

#[test]
fn status_updates_to_a_sink_that_fails(rt: HostRuntime) {
    for &(written, want) in &UPDATES {
        for &(writes, taken, answer) in &SENT {
            let mut bytes = Vec::new(rt.alloc());
            let mut sink = Kept::with_writes(&mut bytes, 3, writes);
            let sent = send_status(rt.alloc(), &status(written), &mut sink);
            drop(sink);
            assert_same(sent, answer, writes).or_fail(&rt);
            assert_same(Some(bytes.as_slice()), want.get(..taken), writes).or_fail(&rt);
        }
    }
}

// Where memory is refused, a status update is not written, and what was written before stays.
#[test]
fn status_updates_where_memory_is_refused(rt: HostRuntime) -> Result<(), Fail> {
    let mut out = Vec::new(rt.alloc());
    for _ in 0..3 {
        let before = out.len();
        if let Err(fault) = write_status(&status(0x120), &mut out) {
            assert_same(fault, FrameFault::OutOfMemory, "fault")?;
            assert_same(out.len(), before, "out")?;
        }
    }
    for frame in out.chunks(UPDATE.len()) {
        assert_same(frame, UPDATE, "frame")?;
    }
    Ok(())
}
