// Those who watch a run: what they read while it goes on, and in their last turn.
ghost use Rattle.std.specs.Prelude.{◌≡◌};

use super::gates::{Due, NOWHERE, Place, Sign, Withheld, doors};
use super::runs::{Plan, Ran, TAKES_ALL, config_of, one, reports, run_on, run_watched};
use super::worked::{NOTE, P};
use leader::{
    Config, Key, Lsn, OutOfMemory, Point, Position, ReadFault, Reader, Row, StoreNames, Value,
    ValueRef, Watch, Xid,
};
use std::alloc::Global;
use std::fmt::Write;
use std::process::Abort;
use std::rt::Clock as Host;
use std::sync::{Mutex, Wait};
use std::thread::Threads;
use streams::{Column, Message, Stream, WHOLE};
use testing::accounts::RELATION;

// 700 changes the first row, and is still open.
const OPEN: &[Message] = &[
    Message::Start(700, true),
    Message::Update(
        700,
        (Column::Number(1), Column::Text("a"), Column::Text("v")),
    ),
    Message::Stop,
];

const COMMIT: &[Message] = &[Message::StreamCommit(700, 0x200, 0x220)];

// Three commits, of which the second empties the table, and work of 700 that is still open.
const LATER: &[Message] = &[
    Message::Begin(600, 0x200),
    Message::Update(0, (Column::Number(1), Column::Text("a"), Column::Text("v"))),
    Message::Commit(0x200, 0x220),
    Message::Begin(601, 0x300),
    Message::Other(b'T', 0, WHOLE),
    Message::Commit(0x300, 0x320),
    Message::Begin(602, 0x400),
    Message::Insert(0, (Column::Number(1), Column::Text("z"), NOTE)),
    Message::Commit(0x400, 0x420),
    Message::Start(700, true),
    Message::Insert(700, (Column::Number(5), Column::Text("e"), NOTE)),
    Message::Stop,
];

// Appends a row as `1|a|n`.
fn push_row(out: &mut String, row: &Row) -> Result<(), OutOfMemory> {
    let mut between = "";
    for column in 0..row.len() {
        out.push_str(between)?;
        between = "|";
        match row.column(column) {
            Some(ValueRef::Int(number)) => write!(out, "{number}")?,
            Some(ValueRef::Text(text)) => out.push_str(text)?,
            _ => out.push_str("\\N")?,
        }
    }
    Ok(())
}

// Notes the first row once a transaction was committed, once more when 700 has changed it, and in its
// last turn; each time with the position.
#[derive(Drop)]
struct Onlooker<'a> {
    alloc: Global,
    changed: &'a Sign,
    read: &'a Sign,
    notes: &'a Mutex<String>,
    times: u8,
}

impl Onlooker<'_> {
    // Whether it waits for what it is to note next.
    fn waits(&self, found: Position) -> bool {
        match self.times {
            0 => found.commits == 0,
            1 => !self.changed.is_passed(),
            _ => false,
        }
    }

    fn note<N: StoreNames, R: Wait>(
        &self,
        rt: &R,
        reader: &mut Reader<'_, N>,
        found: Position,
    ) -> Result<(), OutOfMemory>
        ensures { reader.new.published ≡ reader.old.published }
    {
        let key = Key::from_value(self.alloc, Value::Int(1))?;
        let row = reader.get(rt, 0, &key);
        let mut notes = self.notes.lock(rt);
        push_note(&mut *notes, row, found)
    }
}

// Appends a row, if there is one, and a position.
fn push_note(
    out: &mut String,
    row: Result<Option<Row>, ReadFault>,
    found: Position,
) -> Result<(), OutOfMemory> {
    if let Ok(Some(row)) = row {
        push_row(out, &row)?;
    }
    write!(
        out,
        " at {} {} {};",
        found.commits, found.end_lsn, found.skip
    )?;
    Ok(())
}

impl Watch for Onlooker<'_> {
    ghost knows = { λ _ _. Unit {0} };

    fn turn<N: StoreNames, R: Wait>(&mut self, rt: &R, reader: &mut Reader<'_, N>) -> bool {
        let found = reader.position(rt);
        if self.waits(found) {
            return true;
        }
        let _ = self.note(rt, reader, found);
        if self.times == 1 {
            self.read.pass();
        }
        self.times = self.times.saturating_add(1);
        self.times < 2
    }
}

// What an onlooker notes where the commit of 700 is withheld until it has read what 700 changed, and
// what the run leaves.
fn looked_on<R: Threads + Wait + Sync + Host>(
    rt: &R,
    alloc: Global,
) -> Result<(String, Ran), OutOfMemory> {
    let front = Stream::of(alloc, &[P, OPEN])?;
    let back = Stream::of(alloc, &[COMMIT])?;
    let signs = [Sign::new(Place(700, Point::After(1)))];
    let read = Sign::new(NOWHERE);
    let notes = Mutex::new(String::new(alloc));
    let gates = doors(rt, alloc, &signs, &[], 1)?;
    let onlooker = Onlooker {
        alloc,
        changed: &signs[0],
        read: &read,
        notes: &notes,
        times: 0,
    };
    let watchers = one(alloc, onlooker)?;
    let due = Due::Passed(&read);
    let source = Withheld::new(rt, (front.bytes(), back.bytes()), due);
    let config = config_of(1, 1);
    let ran = run_on(rt, alloc, source, TAKES_ALL, &config, gates, watchers)?;
    Ok((notes.into_inner(), ran))
}

#[test]
fn a_watcher_reads_committed_rows_alone(rt: HostRuntime) -> Result<(), OutOfMemory> {
    let want = "table public.accounts 2\n1|a|v\n2|b|n\nposition 0/220\nend 0 Clean\n";
    let seen = "1|a|n at 1 320 0;1|a|n at 1 320 0;1|a|v at 2 544 0;";
    for _ in 0..100 {
        let (notes, ran) = looked_on(&rt, rt.alloc())?;
        assert_eq!(rt; notes.as_str(), seen);
        reports(&rt, &ran, want.as_bytes(), "watched");
    }
    Ok(())
}

// How many transactions are committed while others watch.
const COMMITS: u64 = 100;

// Where none of them commits.
const SKIP: Lsn = 1;

// The position behind so many of them, each of which takes 32 bytes of the log.
fn position_of(commits: u64) -> Position {
    Position {
        commits,
        end_lsn: commits.saturating_mul(32),
        skip: if commits == 0 { SKIP } else { 0 },
    }
}

// The stream of all of them: each inserts the row with its number.
fn committing(alloc: Global) -> Result<Stream, OutOfMemory> {
    let mut stream = Stream::new(alloc);
    stream.push(&Message::Other(b'R', 0, RELATION))?;
    for number in 1..COMMITS + 1 {
        let xid = number as Xid;
        let end = position_of(number).end_lsn;
        let at = end.saturating_sub(8);
        stream.push(&Message::Begin(xid, at))?;
        stream.push(&Message::Insert(0, (Column::Number(xid), Column::Null, NOTE)))?;
        stream.push(&Message::Commit(at, end))?;
    }
    Ok(stream)
}

// What a follower saw: the commits of its last turn, how many turns it had, and whether all was well.
#[derive(Drop)]
struct Log {
    commits: u64,
    turns: u64,
    is_well: bool,
}

fn new_log() -> Mutex<Log> {
    Mutex::new(Log {
        commits: 0,
        turns: 0,
        is_well: true,
    })
}

// Whether the row of this transaction is there, or there is none yet.
fn has_row<N: StoreNames, R: Wait>(
    rt: &R,
    alloc: Global,
    reader: &mut Reader<'_, N>,
    number: u64,
) -> bool
    ensures { reader.new.published ≡ reader.old.published }
{
    if number == 0 {
        return true;
    }
    let id = i64::try_from(number).unwrap_or(0);
    match Key::from_value(alloc, Value::Int(id)) {
        Err(_) => false,
        Ok(key) => matches!(reader.get(rt, 0, &key), Ok(Some(_))),
    }
}

// Follows the position of a run, and sees that it is one of it, that none is before an earlier one, and
// that the row of its last commit is there.
#[derive(Drop)]
struct Follower<'a> {
    alloc: Global,
    wants_more: bool,
    log: &'a Mutex<Log>,
}

impl Watch for Follower<'_> {
    ghost knows = { λ _ _. Unit {0} };

    fn turn<N: StoreNames, R: Wait>(&mut self, rt: &R, reader: &mut Reader<'_, N>) -> bool {
        let found = reader.position(rt);
        let is_there = has_row(rt, self.alloc, reader, found.commits);
        let mut log = self.log.lock(rt);
        if found.commits < log.commits || found != position_of(found.commits) || !is_there {
            log.is_well = false;
        }
        log.commits = found.commits;
        log.turns = log.turns.saturating_add(1);
        self.wants_more
    }
}

// One follows a run by so many workers, and one wants no turn.
fn followed<R: Threads + Wait + Sync + Host>(
    rt: &R,
    alloc: Global,
    stream: &[u8],
    workers: usize,
) -> Result<(Log, Log), OutOfMemory> {
    let (eager, idle) = (new_log(), new_log());
    let follower = Follower {
        alloc,
        wants_more: true,
        log: &eager,
    };
    let mut watchers = one(alloc, follower)?;
    watchers.push(Follower {
        alloc,
        wants_more: false,
        log: &idle,
    })?;
    let config = Config {
        skip: SKIP,
        ..config_of(workers, 1)
    };
    let plan = Plan::new(stream, config);
    let _ran = run_watched(rt, alloc, &plan, 1, watchers)?;
    Ok((eager.into_inner(), idle.into_inner()))
}

// The skip is told as long as none has committed.
#[test]
fn a_skip_is_told_before_the_first_commit(rt: HostRuntime) -> Result<(), OutOfMemory> {
    let (eager, _idle) = followed(&rt, rt.alloc(), &[], 1)?;
    assert!(rt; eager.is_well && eager.commits == 0 && eager.turns > 0);
    Ok(())
}

// It followed all of the run.
fn is_well(rt: &impl Abort, log: &Log) {
    assert!(rt; log.is_well && log.commits == COMMITS);
}

#[test]
fn no_position_goes_back_and_the_last_turn_sees_all(rt: HostRuntime) -> Result<(), OutOfMemory> {
    let stream = committing(rt.alloc())?;
    for turn in 0..40 {
        let (eager, idle) = followed(&rt, rt.alloc(), stream.bytes(), turn % 2)?;
        is_well(&rt, &eager);
        is_well(&rt, &idle);
        assert!(rt; idle.turns == 1 || idle.turns == 2);
    }
    Ok(())
}

// Appends rows, or why there are none.
fn push_rows(out: &mut String, rows: Result<Vec<Row>, ReadFault>) -> Result<(), OutOfMemory> {
    match rows {
        Err(fault) => write!(out, "{fault};")?,
        Ok(rows) => {
            for row in rows.iter() {
                push_row(out, row)?;
                out.push_str(" ")?;
            }
            out.push_str(";")?;
        }
    }
    Ok(())
}

/// Appends the rows at a position.
pub(super) fn push_at<N: StoreNames, R: Wait>(
    out: &mut String,
    rt: &R,
    alloc: Global,
    reader: &mut Reader<'_, N>,
    position: Lsn,
) -> Result<(), OutOfMemory>
    ensures { reader.new.published ≡ reader.old.published }
{
    let rows = reader.rows_at(rt, alloc, 0, position);
    push_rows(out, rows)
}

// The rows at some positions.
fn history<N: StoreNames, R: Wait>(
    rt: &R,
    alloc: Global,
    reader: &mut Reader<'_, N>,
) -> Result<String, OutOfMemory>
    ensures { reader.new.published ≡ reader.old.published }
{
    let mut note = String::new(alloc);
    push_at(&mut note, rt, alloc, reader, 0)?;
    push_at(&mut note, rt, alloc, reader, 0x140)?;
    push_at(&mut note, rt, alloc, reader, 0x220)?;
    push_at(&mut note, rt, alloc, reader, 0x320)?;
    push_at(&mut note, rt, alloc, reader, 0x420)?;
    push_at(&mut note, rt, alloc, reader, 0x150)?;
    Ok(note)
}

// Notes in each turn the rows at some positions, in place of what it noted before.
#[derive(Drop)]
struct Historian<'a> {
    alloc: Global,
    notes: &'a Mutex<String>,
}

impl Watch for Historian<'_> {
    ghost knows = { λ _ _. Unit {0} };

    fn turn<N: StoreNames, R: Wait>(&mut self, rt: &R, reader: &mut Reader<'_, N>) -> bool {
        if let Ok(note) = history(rt, self.alloc, reader) {
            let mut notes = self.notes.lock(rt);
            *notes = note;
        }
        true
    }
}

// What a historian notes of a stream last.
fn noted<R: Threads + Wait + Sync + Host>(
    rt: &R,
    alloc: Global,
    stream: &[u8],
    workers: usize,
) -> Result<String, OutOfMemory> {
    let notes = Mutex::new(String::new(alloc));
    let historian = Historian {
        alloc,
        notes: &notes,
    };
    let watchers = one(alloc, historian)?;
    let plan = Plan::new(stream, config_of(workers, 1));
    let _ran = run_watched(rt, alloc, &plan, 1, watchers)?;
    Ok(notes.into_inner())
}

// The rows behind each of three commits, before them, and at a position behind which none ends.
const BEHIND_EACH: &str = ";1|a|n 2|b|n ;1|a|v 2|b|n ;;1|z|n ;unknown position;";

// Streams, and what a historian notes last: of work that is still open at the end it sees nothing.
static HISTORIES: [(&[&[Message]], &str); 3] = [
    (
        &[P, OPEN, COMMIT],
        ";1|a|n 2|b|n ;1|a|v 2|b|n ;unknown position;unknown position;unknown position;",
    ),
    (
        &[P, OPEN],
        ";1|a|n 2|b|n ;unknown position;unknown position;unknown position;unknown position;",
    ),
    (&[P, LATER], BEHIND_EACH),
];

#[test]
fn a_last_turn_sees_the_rows_at_each_position(rt: HostRuntime) -> Result<(), OutOfMemory> {
    for (parts, want) in &HISTORIES {
        let stream = Stream::of(rt.alloc(), *parts)?;
        for workers in 0..3 {
            for _ in 0..20 {
                let notes = noted(&rt, rt.alloc(), stream.bytes(), workers)?;
                assert_eq!(rt; notes.as_str(), *want);
            }
        }
    }
    Ok(())
}

// Notes the rows at some positions once 700 has made its change, and again in its last turn.
#[derive(Drop)]
struct Chronicler<'a> {
    alloc: Global,
    changed: &'a Sign,
    read: &'a Sign,
    first: &'a Mutex<String>,
    last: &'a Mutex<String>,
}

impl Watch for Chronicler<'_> {
    ghost knows = { λ _ _. Unit {0} };

    fn turn<N: StoreNames, R: Wait>(&mut self, rt: &R, reader: &mut Reader<'_, N>) -> bool {
        if !self.changed.is_passed() {
            return true;
        }
        if let Ok(note) = history(rt, self.alloc, reader) {
            let place = if self.read.is_passed() {
                self.last
            } else {
                self.first
            };
            let mut notes = place.lock(rt);
            *notes = note;
        }
        self.read.pass();
        true
    }
}

// What a chronicler notes while 700 is open, the end of the stream withheld until then, and last.
fn chronicled<R: Threads + Wait + Sync + Host>(
    rt: &R,
    alloc: Global,
) -> Result<(String, String), OutOfMemory> {
    let front = Stream::of(alloc, &[P, LATER])?;
    let back = Stream::new(alloc);
    let signs = [Sign::new(Place(700, Point::After(1)))];
    let read = Sign::new(NOWHERE);
    let (first, last) = (
        Mutex::new(String::new(alloc)),
        Mutex::new(String::new(alloc)),
    );
    let gates = doors(rt, alloc, &signs, &[], 1)?;
    let chronicler = Chronicler {
        alloc,
        changed: &signs[0],
        read: &read,
        first: &first,
        last: &last,
    };
    let watchers = one(alloc, chronicler)?;
    let due = Due::Passed(&read);
    let source = Withheld::new(rt, (front.bytes(), back.bytes()), due);
    let config = config_of(1, 1);
    let _ran = run_on(rt, alloc, source, TAKES_ALL, &config, gates, watchers)?;
    Ok((first.into_inner(), last.into_inner()))
}

// Older positions have their rows while a transaction is open, and behind the run.
#[test]
fn older_positions_have_their_rows_beside_open_work(rt: HostRuntime) -> Result<(), OutOfMemory> {
    for _ in 0..20 {
        let (first, last) = chronicled(&rt, rt.alloc())?;
        assert_eq!(rt; first.as_str(), BEHIND_EACH);
        assert_eq!(rt; last.as_str(), BEHIND_EACH);
    }
    Ok(())
}
