// The rows behind each of many drawn commits with truncates, as a watcher reads them behind all of them,
// against those that the test keeps as it goes forward.
ghost use Rattle.std.specs.Prelude.{◌≡◌};

use super::runs::{Plan, config_of, one, run_watched};
use super::watchers::push_at;
use super::worked::{NOTE, P};
use leader::{Lsn, OutOfMemory, Reader, StoreNames, Watch, Xid};
use std::alloc::Global;
use std::fmt::Write;
use std::process::Abort;
use std::rt::Clock as Host;
use std::sync::{Mutex, Wait};
use std::thread::Threads;
use streams::{Column, Message, Stream, Tuple, WHOLE};

const COMMITS: u32 = 200;

const EMAILS: [&str; 6] = ["a", "b", "c", "d", "e", "f"];

const NOTES: [&str; 4] = ["n", "t", "u", "v"];

/// For each id from 1 the number of its row's note, or none where it has no row.
type Kept = [Option<usize>; 6];

/// What the stream's first commit leaves.
const BEGUN: Kept = [Some(0), Some(0), None, None, None, None];

/// Where that ends.
const FIRST_END: Lsn = 0x140;

/// Where the commit with this number is.
fn place_of(number: u32) -> Lsn {
    0x1000 + u64::from(number) * 0x100
}

/// Where it ends.
fn end_of(number: u32) -> Lsn {
    place_of(number).saturating_add(0x20)
}

/// The next drawn number.
fn draw(seed: &mut u64) -> usize {
    *seed = seed
        .wrapping_mul(0x5851_F42D_4C95_7F2D)
        .wrapping_add(0x1405_7B7E_F767_814F);
    (*seed >> 33) as usize
}

/// The id of the row at a place.
fn id_of(at: usize) -> Column {
    Column::Number(u32::try_from(at).unwrap_or(0).wrapping_add(1))
}

/// The row at a place with a note.
fn row(at: usize, note: usize) -> Tuple {
    (
        id_of(at),
        Column::Text(EMAILS[at % 6]),
        Column::Text(NOTES[note % 4]),
    )
}

/// The key of the row at a place.
fn key(at: usize) -> Tuple {
    (id_of(at), Column::Null, Column::Null)
}

/// A drawn change, which is made in what is kept too: a truncate, a new row, one that moves, one that goes,
/// or another note.
fn drawn(seed: &mut u64, kept: &mut Kept) -> Message {
    let at = draw(seed) % 6;
    let to = draw(seed) % 6;
    let note = draw(seed) % 4;
    if draw(seed) % 16 == 0 {
        *kept = [None; 6];
        return Message::Other(b'T', 0, WHOLE);
    }
    match (kept[at], kept[to]) {
        (None, _) => {
            kept[at] = Some(note);
            Message::Insert(0, row(at, note))
        }
        (Some(_), None) => {
            kept[at] = None;
            kept[to] = Some(note);
            Message::UpdateAt(0, b'K', key(at), row(to, note))
        }
        (Some(_), Some(_)) if note == 0 => {
            kept[at] = None;
            Message::DeleteAt(0, b'K', key(at))
        }
        (Some(_), Some(_)) => {
            kept[at] = Some(note);
            Message::Update(0, row(at, note))
        }
    }
}

/// Appends the rows that are kept, as a watcher notes them.
fn push_kept(out: &mut String, kept: &Kept) -> Result<(), OutOfMemory> {
    for at in 0..6 {
        if let Some(note) = kept[at] {
            write!(out, "{}|{}|{} ", at + 1, EMAILS[at], NOTES[note % 4])?;
        }
    }
    out.push_str(";")?;
    Ok(())
}

/// Appends a transaction of three drawn changes.
fn push_drawn(
    stream: &mut Stream,
    number: u32,
    seed: &mut u64,
    kept: &mut Kept,
) -> Result<(), OutOfMemory> {
    let xid: Xid = number.wrapping_add(1000);
    stream.push(&Message::Begin(xid, place_of(number)))?;
    for _ in 0..3 {
        let change = drawn(seed, kept);
        stream.push(&change)?;
    }
    stream.push(&Message::Commit(place_of(number), end_of(number)))
}

/// A stream of drawn transactions, and the rows before its first commit and behind each.
fn drawn_stream(alloc: Global) -> Result<(Stream, String), OutOfMemory> {
    let mut stream = Stream::of(alloc, &[P])?;
    let mut history = String::new(alloc);
    let mut seed = 3;
    let mut kept = BEGUN;
    history.push_str(";")?;
    push_kept(&mut history, &kept)?;
    for number in 0..COMMITS {
        push_drawn(&mut stream, number, &mut seed, &mut kept)?;
        push_kept(&mut history, &kept)?;
    }
    Ok((stream, history))
}

/// Notes the rows at each position once all have committed.
#[derive(Drop)]
struct Annalist<'a> {
    alloc: Global,
    notes: &'a Mutex<String>,
}

impl Annalist<'_> {
    fn annals<N: StoreNames, R: Wait>(
        &self,
        rt: &R,
        reader: &mut Reader<'_, N>,
    ) -> Result<String, OutOfMemory>
        ensures { reader.new.published ≡ reader.old.published }
    {
        let mut note = String::new(self.alloc);
        push_at(&mut note, rt, self.alloc, reader, 0)?;
        push_at(&mut note, rt, self.alloc, reader, FIRST_END)?;
        for number in 0..COMMITS {
            push_at(&mut note, rt, self.alloc, reader, end_of(number))?;
        }
        Ok(note)
    }
}

impl Watch for Annalist<'_> {
    ghost knows = { λ _ _. Unit {0} };

    fn turn<N: StoreNames, R: Wait>(&mut self, rt: &R, reader: &mut Reader<'_, N>) -> bool {
        if reader.position(rt).commits <= u64::from(COMMITS) {
            return true;
        }
        if let Ok(note) = self.annals(rt, reader) {
            let mut notes = self.notes.lock(rt);
            *notes = note;
        }
        true
    }
}

/// What an annalist notes last.
fn noted<R: Threads + Wait + Sync + Host>(
    rt: &R,
    alloc: Global,
    stream: &[u8],
    workers: usize,
) -> Result<String, OutOfMemory> {
    let notes = Mutex::new(String::new(alloc));
    let annalist = Annalist {
        alloc,
        notes: &notes,
    };
    let watchers = one(alloc, annalist)?;
    let plan = Plan::new(stream, config_of(workers, 1));
    let _ran = run_watched(rt, alloc, &plan, 1, watchers)?;
    Ok(notes.into_inner())
}

#[test]
fn a_reader_has_the_rows_of_a_fold_forward_at_each_position(
    rt: HostRuntime,
) -> Result<(), OutOfMemory> {
    let (stream, history) = drawn_stream(rt.alloc())?;
    for workers in 0..3 {
        let notes = noted(&rt, rt.alloc(), stream.bytes(), workers)?;
        assert_eq!(rt; notes.as_str(), history.as_str());
    }
    Ok(())
}
