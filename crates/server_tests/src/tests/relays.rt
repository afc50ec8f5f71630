// A stream from a scripted server, in pieces of each length, cut anywhere, and whatever ends it.
use super::OrFail;
use super::script::{Behind, Message, assert_fault, connect, name_of, say, spell};
use server::fault::Fault;
use server::follower::{Told, farewell};
use server::relay::{Bounds, End, Output, Relayed, relay};
use server::stream::status;
use std::alloc::Global;
use std::io;
use std::test::Fail;
use testing::asserts::{assert_holds, assert_same};

/// Keeps frames as long as there is room.
#[derive(Drop)]
struct Kept<'a> {
    bytes: &'a mut Vec<u8>,
    room: usize,
    wanted: bool,
}

impl Output for Kept<'_> {
    fn put(&mut self, frames: &[u8]) -> Result<(), Fault> {
        if frames.len() > self.room {
            return Err(Fault::CannotWrite(io::Error::from(io::ErrorKind::StorageFull)));
        }
        self.room -= frames.len();
        self.bytes.extend_from_slice(frames)?;
        Ok(())
    }

    fn tell(&mut self, put: &Relayed, due: bool, updates: &mut Vec<u8>) -> Result<bool, Fault> {
        if due {
            let update = status(*updates.allocator(), put.position, true)?;
            updates.extend_from_slice(update.as_slice())?;
        }
        Ok(self.wanted)
    }

    fn confirmed(&self) -> u64 {
        0
    }
}

/// What came of a stream: what was put and sent, what ended it, and the fault's name.
#[derive(Drop)]
struct Came {
    put: Vec<u8>,
    sent: Vec<u8>,
    relayed: Relayed,
    end: Option<End>,
    fault: String,
}

/// A server that says this, and what takes its stream.
#[derive(Clone, Copy)]
struct Trial<'a> {
    input: &'a [u8],
    piece: usize,
    behind: Behind,
    bounds: Bounds,
    room: usize,
    wanted: bool,
}

impl<'a> Trial<'a> {
    /// Without bounds, and with room for all; behind its words the server closes.
    fn of(input: &'a [u8]) -> Trial<'a> {
        Trial {
            input,
            piece: 1000,
            behind: Behind::Close,
            bounds: Bounds::NONE,
            room: 100000,
            wanted: true,
        }
    }

    fn run(&self, alloc: Global) -> Result<Came, Fail> {
        let mut sent = Vec::new(alloc);
        let mut put = Vec::new(alloc);
        let mut relayed = Relayed::NOTHING;
        let answer = self.relay(&mut sent, &mut put, &mut relayed)?;
        let end = end_of(&answer);
        Ok(Came {
            put,
            sent,
            relayed,
            end,
            fault: name_of(alloc, answer)?,
        })
    }

    /// What ended the stream: `sent` is what the server heard, `put` what was put.
    fn relay(
        &self,
        sent: &mut Vec<u8>,
        put: &mut Vec<u8>,
        relayed: &mut Relayed,
    ) -> Result<Result<End, Fault>, Fail> {
        let mut connection = connect(self.input, self.piece, self.behind, sent)?;
        let mut kept = Kept {
            bytes: put,
            room: self.room,
            wanted: self.wanted,
        };
        Ok(relay(&mut connection, &mut kept, self.bounds, relayed))
    }
}

fn end_of(answer: &Result<End, Fault>) -> Option<End> {
    match answer {
        Ok(end) => Some(*end),
        Err(_) => None,
    }
}

/// Three pieces of the log, at 16, 48 and 64, notices and a keepalive at 32 that wants an answer among them:
/// 151 bytes, 6 frames.
static STREAM: [Message<'static>; 6] = [
    (
        b'd',
        b"w\0\0\0\0\0\0\0\x10\0\0\0\0\0\0\0\x10\0\0\0\0\0\0\0\0B",
    ),
    (b'N', b"SNOTICE\0\0"),
    (
        b'd',
        b"w\0\0\0\0\0\0\0\x30\0\0\0\0\0\0\0\x30\0\0\0\0\0\0\0\0",
    ),
    (b'd', b"k\0\0\0\0\0\0\0\x20\0\0\0\0\0\0\0\0\x01"),
    (b'S', b"a\0b\0"),
    (
        b'd',
        b"w\0\0\0\0\0\0\0\x40\0\0\0\0\0\0\0\x40\0\0\0\0\0\0\0\0longer payload",
    ),
];

/// How many bytes the stream has.
const LENGTH: usize = 151;

/// Where its frames end.
static EDGES: [usize; 7] = [0, 31, 45, 75, 98, 107, LENGTH];

/// A status update at a place that asks for a keepalive, as the manual spells it.
fn update_at(place: u8) -> [u8; 39] {
    update_of(place, place)
}

fn update_of(written: u8, flushed: u8) -> [u8; 39] {
    [
        b'd', 0, 0, 0, 38, b'r', 0, 0, 0, 0, 0, 0, 0, written, 0, 0, 0, 0, 0, 0, 0, flushed, 0, 0,
        0, 0, 0, 0, 0, flushed, 0, 0, 0, 0, 0, 0, 0, 0, 1,
    ]
}

const COPY_DONE: [u8; 5] = [b'c', 0, 0, 0, 4];

/// The stream and CopyDone.
fn whole_stream(alloc: Global) -> Result<Vec<u8>, Fail> {
    spell(alloc, &[&STREAM, &[(b'c', b"")]])
}

/// The place of the first status update where the server's words come in pieces of this length: the keepalive,
/// whose frame ends at 98, wants an answer; of the last frame too, if it came along.
fn first_told(piece: usize) -> u8 {
    if 98usize.div_ceil(piece.max(1)).saturating_mul(piece) < LENGTH {
        48
    } else {
        64
    }
}

/// All of the stream was put, and is counted.
fn assert_put(came: &Came, input: &[u8]) -> Result<(), Fail> {
    assert_same(came.end, Some(End::Done), "end")?;
    assert_same(came.put.as_slice(), input, "put")?;
    let all = Relayed {
        frames: 7,
        bytes: 156,
        position: 64,
        committed: 0,
    };
    assert_same(came.relayed, all, "relayed")
}

/// The server heard status updates from this place up to 64, and at last CopyDone.
fn assert_told(alloc: Global, sent: &[u8], first: u8) -> Result<(), Fail> {
    assert_holds(sent.starts_with(&update_at(first)), "first")?;
    let mut last = update_at(64).to_vec(alloc)?;
    last.extend_from_slice(&COPY_DONE)?;
    assert_holds(sent.strip_suffix(last.as_slice()).is_some(), "last")
}

#[test]
fn in_pieces_of_each_length(rt: HostRuntime) {
    let input = whole_stream(rt.alloc()).or_fail(&rt);
    for piece in 1..=input.len() {
        let mut trial = Trial::of(input.as_slice());
        trial.piece = piece;
        let came = trial.run(rt.alloc()).or_fail(&rt);
        assert_put(&came, input.as_slice()).or_fail(&rt);
        assert_told(rt.alloc(), came.sent.as_slice(), first_told(piece)).or_fail(&rt);
    }
}

/// Where the last frame ends that is whole within so many bytes of the stream.
fn last_edge(count: usize) -> usize {
    let mut whole = 0;
    for edge in &EDGES {
        if *edge <= count {
            whole = *edge;
        }
    }
    whole
}

#[test]
fn cut_anywhere_only_whole_frames_are_put(rt: HostRuntime) {
    let input = spell(rt.alloc(), &[&STREAM]).or_fail(&rt);
    for count in 0..=input.len() {
        for (behind, want) in [(Behind::Close, "Closed"), (Behind::Silence, "TimedOut")] {
            let mut trial = Trial::of(input.as_slice().get(..count).unwrap_or(&[]));
            trial.behind = behind;
            let came = trial.run(rt.alloc()).or_fail(&rt);
            assert_same(came.put.len(), last_edge(count), count).or_fail(&rt);
            assert_same(came.fault.as_str(), want, count).or_fail(&rt);
        }
    }
}

/// What a server sends behind the stream, what is put of it, what it ends with, and the name of the fault.
static BEHIND: [(Message<'static>, &[u8], Option<End>, &str); 9] = [
    ((b'C', b"COPY 0\0"), &COPY_DONE, Some(End::Shutdown), "none"),
    (
        (b'E', b"SFATAL\0C57P01\0Mbye\0\0"),
        b"E\0\0\0\x18SFATAL\0C57P01\0Mbye\0\0",
        None,
        "Server",
    ),
    ((b'E', b"SFATAL"), b"E\0\0\0\x0aSFATAL", None, "Nonsense"),
    ((b'Z', b"I"), b"", None, "Nonsense"),
    ((b'd', b""), b"", None, "Nonsense"),
    ((b'd', b"x"), b"", None, "Nonsense"),
    ((b'd', b"w1234"), b"", None, "Nonsense"),
    ((b'd', b"k12345678123456781more"), b"", None, "Nonsense"),
    ((b'N', b""), b"N\0\0\0\x04", None, "Closed"),
];

#[test]
fn what_ends_a_stream(rt: HostRuntime) {
    for (case, ((tag, body), put, end, want)) in BEHIND.iter().enumerate() {
        let mut input = spell(rt.alloc(), &[&STREAM]).or_fail(&rt);
        say(&mut input, *tag, *body).or_fail(&rt);
        let came = Trial::of(input.as_slice()).run(rt.alloc()).or_fail(&rt);
        assert_same(came.fault.as_str(), *want, case).or_fail(&rt);
        assert_same(came.end, *end, case).or_fail(&rt);
        assert_same(came.put.as_slice().get(LENGTH..), Some(*put), case).or_fail(&rt);
    }
}

/// A place where a stream is to end, how much is put at most, what ends it, and the name of the fault.
static PLACES: [(u64, usize, Option<End>, &str); 4] = [
    (8, 0, Some(End::Reached), "none"),
    (17, 45, Some(End::Reached), "none"),
    (64, 107, Some(End::Reached), "none"),
    (65, 151, None, "Closed"),
];

#[test]
fn a_place_where_a_stream_ends(rt: HostRuntime) {
    let input = spell(rt.alloc(), &[&STREAM]).or_fail(&rt);
    for (place, put, end, want) in &PLACES {
        let mut trial = Trial::of(input.as_slice());
        trial.piece = 1;
        trial.bounds = Bounds {
            until: Some(*place),
            millis: None,
        };
        let came = trial.run(rt.alloc()).or_fail(&rt);
        assert_same(came.end, *end, *place).or_fail(&rt);
        assert_same(came.fault.as_str(), *want, *place).or_fail(&rt);
        assert_same(came.put.len(), *put, *place).or_fail(&rt);
    }
}

/// Two transactions, which begin at 16 and at 64 and commit at 48 and 80, the first with a keepalive within it
/// that says 60: 4 + 3 frames.
static TRANSACTIONS: [Message<'static>; 7] = [
    (
        b'd',
        b"w\0\0\0\0\0\0\0\x10\0\0\0\0\0\0\0\x10\0\0\0\0\0\0\0\0B\0\0\0\0\0\0\0\x30\0\0\0\0\0\0\0\0\0\0\x02\xbc",
    ),
    (
        b'd',
        b"w\0\0\0\0\0\0\0\x20\0\0\0\0\0\0\0\x20\0\0\0\0\0\0\0\0I",
    ),
    (b'd', b"k\0\0\0\0\0\0\0\x3c\0\0\0\0\0\0\0\0\0"),
    (
        b'd',
        b"w\0\0\0\0\0\0\0\x40\0\0\0\0\0\0\0\x40\0\0\0\0\0\0\0\0C\0\0\0\0\0\0\0\0\x30\0\0\0\0\0\0\0\x40\0\0\0\0\0\0\0\0",
    ),
    (
        b'd',
        b"w\0\0\0\0\0\0\0\x40\0\0\0\0\0\0\0\x40\0\0\0\0\0\0\0\0B\0\0\0\0\0\0\0\x50\0\0\0\0\0\0\0\0\0\0\x02\xbd",
    ),
    (
        b'd',
        b"w\0\0\0\0\0\0\0\x48\0\0\0\0\0\0\0\x48\0\0\0\0\0\0\0\0S\0\0\x02\xbe\x01",
    ),
    (
        b'd',
        b"w\0\0\0\0\0\0\0\x58\0\0\0\0\0\0\0\x58\0\0\0\0\0\0\0\0C\0\0\0\0\0\0\0\0\x50\0\0\0\0\0\0\0\x58\0\0\0\0\0\0\0\0",
    ),
];

/// A place, and how many transactions are put where the stream is to end there.
static BETWEEN: [(u64, u64); 4] = [(48, 0), (49, 4), (64, 4), (80, 4)];

#[test]
fn a_place_is_no_end_within_a_transaction(rt: HostRuntime) {
    let input = spell(rt.alloc(), &[&TRANSACTIONS]).or_fail(&rt);
    for (place, frames) in &BETWEEN {
        let mut trial = Trial::of(input.as_slice());
        trial.bounds = Bounds {
            until: Some(*place),
            millis: None,
        };
        let came = trial.run(rt.alloc()).or_fail(&rt);
        assert_same(came.end, Some(End::Reached), *place).or_fail(&rt);
        assert_same(came.relayed.frames, *frames, *place).or_fail(&rt);
    }
}

/// How many keepalives a server sends that asks for an answer with each.
const PINGS: usize = 1000;

#[test]
fn keepalives_alone_are_answered_now_and_then(rt: HostRuntime) {
    let pings = [(b'd', b"k\0\0\0\0\0\0\0\x20\0\0\0\0\0\0\0\0\x01".as_slice()); PINGS];
    let input = spell(rt.alloc(), &[&pings]).or_fail(&rt);
    let mut trial = Trial::of(input.as_slice());
    trial.piece = 23;
    let came = trial.run(rt.alloc()).or_fail(&rt);
    assert_same(came.relayed.frames, PINGS as u64, "frames").or_fail(&rt);
    // The clock of these tests stands still while there are words.
    assert_same(came.sent.as_slice(), update_at(32).as_slice(), "answers").or_fail(&rt);
}

/// Whether more is wanted, and what ends a stream whose server is silent behind it.
static TIMES: [(bool, End); 2] = [(true, End::Elapsed), (false, End::Enough)];

#[test]
fn a_time_after_which_a_stream_ends(rt: HostRuntime) {
    let input = spell(rt.alloc(), &[&STREAM]).or_fail(&rt);
    for (wanted, end) in &TIMES {
        let mut trial = Trial::of(input.as_slice());
        trial.behind = Behind::Silence;
        trial.bounds = Bounds {
            until: None,
            millis: Some(3000),
        };
        trial.wanted = *wanted;
        let came = trial.run(rt.alloc()).or_fail(&rt);
        assert_same(came.end, Some(*end), "end").or_fail(&rt);
        assert_holds(!*wanted || came.put.as_slice() == input.as_slice(), "put").or_fail(&rt);
    }
}

#[test]
fn a_disk_that_is_full_at_each_byte(rt: HostRuntime) {
    let input = spell(rt.alloc(), &[&STREAM]).or_fail(&rt);
    for room in 0..input.len() {
        let mut trial = Trial::of(input.as_slice());
        trial.piece = 1;
        trial.room = room;
        let came = trial.run(rt.alloc()).or_fail(&rt);
        assert_same(came.fault.as_str(), "CannotWrite", room).or_fail(&rt);
        assert_holds(came.put.len() <= room, room).or_fail(&rt);
        assert_holds(input.as_slice().starts_with(came.put.as_slice()), room).or_fail(&rt);
    }
}

/// What was put of a stream up to this place, with commits up to that one.
fn put_up_to(position: u64, committed: u64) -> Relayed {
    Relayed {
        position,
        committed,
        ..Relayed::NOTHING
    }
}

/// What a follower is understood to say in pieces of this length, and whether it goes on behind them.
fn heard(alloc: Global, said: &[u8], piece: usize) -> Result<(Vec<u8>, bool), Fail> {
    let mut told = Told::new(alloc);
    let mut heard = Vec::new(alloc);
    let mut goes_on = true;
    for part in said.chunks(piece.max(1)) {
        goes_on = told.hear(part, &put_up_to(48, 0), &mut heard)?;
    }
    Ok((heard, goes_on))
}

#[test]
fn a_follower_is_heard_in_pieces(rt: HostRuntime) {
    let mut said = update_at(16).to_vec(rt.alloc()).or_fail(&rt);
    said.extend_from_slice(&update_at(32)).or_fail(&rt);
    let updates = said.clone().or_fail(&rt);
    said.extend_from_slice(&COPY_DONE).or_fail(&rt);
    for piece in 1..=said.len() {
        let (heard, goes_on) = heard(rt.alloc(), said.as_slice(), piece).or_fail(&rt);
        assert_holds(!goes_on, piece).or_fail(&rt);
        assert_same(heard.as_slice(), updates.as_slice(), piece).or_fail(&rt);
    }
}

/// What no follower says.
static NO_FOLLOWER: [&[u8]; 4] = [
    b"GET / HTTP",
    b"d\0\0\0\x05r",
    b"d\0\0\0\x04",
    b"Q\0\0\0\x05\0",
];

#[test]
fn what_no_follower_says_is_refused(rt: HostRuntime) {
    for (case, bytes) in NO_FOLLOWER.iter().enumerate() {
        let mut told = Told::new(rt.alloc());
        let mut heard = Vec::new(rt.alloc());
        let answer = told.hear(*bytes, &put_up_to(48, 0), &mut heard);
        assert_holds(heard.is_empty(), case).or_fail(&rt);
        assert_fault(rt.alloc(), answer, "Follower", case).or_fail(&rt);
    }
}

/// Commits that end at 24 and 40, the latter of a streamed transaction, and what is none.
static COMMITS: [Message<'static>; 4] = [
    (
        b'd',
        b"w\0\0\0\0\0\0\0\x10\0\0\0\0\0\0\0\x10\0\0\0\0\0\0\0\0\
        C\0\0\0\0\0\0\0\0\x10\0\0\0\0\0\0\0\x18\0\0\0\0\0\0\0\0",
    ),
    (
        b'd',
        b"w\0\0\0\0\0\0\0\x20\0\0\0\0\0\0\0\x20\0\0\0\0\0\0\0\0\
        c\0\0\x02\xbc\0\0\0\0\0\0\0\0\x20\0\0\0\0\0\0\0\x28\0\0\0\0\0\0\0\0",
    ),
    (
        b'd',
        b"w\0\0\0\0\0\0\0\x30\0\0\0\0\0\0\0\x30\0\0\0\0\0\0\0\0c\0",
    ),
    (b'c', b""),
];

#[test]
fn commits_that_were_put_are_known(rt: HostRuntime) {
    let input = spell(rt.alloc(), &[&COMMITS]).or_fail(&rt);
    let came = Trial::of(input.as_slice()).run(rt.alloc()).or_fail(&rt);
    assert_same(came.relayed.committed, 40, "committed").or_fail(&rt);
}

#[test]
fn all_commits_applied_is_all_flushed(rt: HostRuntime) {
    for (committed, flushed) in [(0, 48), (32, 48), (33, 32)] {
        let mut told = Told::new(rt.alloc());
        let mut heard = Vec::new(rt.alloc());
        told.hear(&update_of(48, 32), &put_up_to(48, committed), &mut heard)
            .or_fail(&rt);
        assert_same(
            heard.as_slice(),
            update_of(48, flushed).as_slice(),
            committed,
        )
        .or_fail(&rt);
    }
}

/// What was put, what a follower says is written and flushed, and the fault.
static AHEAD: [(u64, u8, u8, &str); 4] = [
    (47, 48, 32, "Ahead"),
    (47, 32, 48, "Ahead"),
    (48, 48, 48, "none"),
    (0, 48, 48, "Ahead"),
];

#[test]
fn an_update_beyond_what_was_put_is_refused(rt: HostRuntime) {
    for (case, (put, written, flushed, want)) in AHEAD.iter().enumerate() {
        let mut told = Told::new(rt.alloc());
        let mut heard = Vec::new(rt.alloc());
        let update = update_of(*written, *flushed);
        let answer = told.hear(&update, &put_up_to(*put, 0), &mut heard);
        assert_same(heard.is_empty(), *want == "Ahead", case).or_fail(&rt);
        assert_fault(rt.alloc(), answer, *want, case).or_fail(&rt);
    }
    // What the follower had before the stream began it may confirm again.
    let mut told = Told::new(rt.alloc());
    assert_same(
        told.begin(&update_at(48)[..20]).or_fail(&rt),
        None,
        "a part",
    )
    .or_fail(&rt);
    assert_same(
        told.begin(&update_at(48)[20..]).or_fail(&rt),
        Some(48),
        "begun",
    )
    .or_fail(&rt);
    let mut heard = Vec::new(rt.alloc());
    assert_holds(
        told.hear(&update_at(48), &Relayed::NOTHING, &mut heard)
            .or_fail(&rt),
        "again",
    )
    .or_fail(&rt);
}

#[test]
fn a_farewell_is_an_error_response(rt: HostRuntime) {
    let frame = farewell(rt.alloc(), &Fault::Closed).or_fail(&rt);
    let want = b"E\x00\x00\x00\x3dSFATAL\0C08006\0MClosed: the server closed the connection\0\0";
    assert_same(frame.as_slice(), want.as_slice(), "farewell").or_fail(&rt);
}
