// Many transactions over few rows, with rollbacks, aborts and rings of few slots, by every number of
// workers. Where no two of them meet at a row, a run leaves on each schedule what the run without workers
// does. Where they meet it may end as its schedule has it: but what it leaves is what the run without
// workers makes of the stream up to its last commit.
use super::runs::{Draws, Plan, Ran, config_of, run_by, same_by_all};
use super::worked::P;
use leader::{End, OutOfMemory, Xid};
use std::alloc::Global;
use std::process::Abort;
use std::rt::Clock as Host;
use std::sync::Wait;
use std::thread::Threads;
use streams::{Column, Message, Stream, WHOLE};

// A stream as it is drawn.
#[derive(Drop)]
struct Drawn {
    draws: Draws,
    stream: Stream,
    // Each streamed transaction has its own row, and each other one has a row of theirs.
    are_apart: bool,
    // The streamed transactions that are open, 0 for none.
    open: [Xid; 3],
    // The last number that was given.
    last: u32,
    // Where the last commit ends in the publisher's log, and where each does in the stream.
    end: u64,
    cuts: Vec<usize>,
}

impl Drawn {
    // Five rows, and then so many steps.
    fn of(alloc: Global, seed: u64, are_apart: bool, steps: u32) -> Result<Drawn, OutOfMemory> {
        let mut drawn = Drawn {
            draws: Draws::new(seed),
            stream: Stream::of(alloc, &[P])?,
            are_apart,
            open: [0; 3],
            last: 1000,
            end: 0x140,
            cuts: Vec::new(alloc),
        };
        drawn.cuts.push(drawn.stream.bytes().len())?;
        drawn.direct(Message::Insert(0, (Column::Number(3), Column::Null, Column::Null)))?;
        drawn.direct(Message::Insert(0, (Column::Number(4), Column::Null, Column::Null)))?;
        for _ in 0..steps {
            drawn.step()?;
        }
        Ok(drawn)
    }

    fn number(&mut self) -> u32 {
        self.last = self.last.saturating_add(1);
        self.last
    }

    fn step(&mut self) -> Result<(), OutOfMemory> {
        let place = self.draws.below(4);
        let Some(xid) = self.open.get(place as usize).copied() else {
            let change = self.change(0, place);
            return self.direct(change);
        };
        if xid == 0 {
            let xid = self.number();
            self.seat(place, xid);
            return self.block(xid, place, true);
        }
        match self.draws.below(6) {
            0 => {
                self.seat(place, 0);
                self.stream.push(&Message::Abort(xid, xid))
            }
            1 | 2 => {
                self.seat(place, 0);
                let (at, end) = self.ends();
                self.stream.push(&Message::StreamCommit(xid, at, end))?;
                self.cut()
            }
            _ => self.block(xid, place, false),
        }
    }

    fn seat(&mut self, place: u32, xid: Xid) {
        if let Some(seat) = self.open.get_mut(place as usize) {
            *seat = xid;
        }
    }

    // Where the next commit is, and where it ends.
    fn ends(&mut self) -> (u64, u64) {
        self.end = self.end.saturating_add(32);
        (self.end.saturating_sub(8), self.end)
    }

    // Notes that a commit ends here.
    fn cut(&mut self) -> Result<(), OutOfMemory> {
        self.cuts.push(self.stream.bytes().len())?;
        Ok(())
    }

    // A transaction of one change, from Begin to Commit.
    fn direct(&mut self, change: Message) -> Result<(), OutOfMemory> {
        let xid = self.number();
        let (at, end) = self.ends();
        self.stream.push(&Message::Begin(xid, at))?;
        self.stream.push(&change)?;
        self.stream.push(&Message::Commit(at, end))?;
        self.cut()
    }

    // A block of two changes. The second is a subtransaction's, which is often rolled back.
    fn block(&mut self, xid: Xid, place: u32, is_first: bool) -> Result<(), OutOfMemory> {
        let sub = self.number();
        let first = self.change(xid, place);
        let second = self.change(sub, place);
        self.stream.push(&Message::Start(xid, is_first))?;
        self.stream.push(&first)?;
        self.stream.push(&second)?;
        self.stream.push(&Message::Stop)?;
        if self.draws.below(3) == 0 {
            self.stream.push(&Message::Abort(xid, sub))?;
        }
        Ok(())
    }

    // A change. Most don't clash.
    fn change(&mut self, sub: Xid, place: u32) -> Message {
        let note = Column::Number(self.number());
        let kind = self.draws.below(16);
        if self.are_apart {
            let key = Column::Number(place.saturating_add(1));
            let fresh = Column::Number(self.number());
            return change_of(kind, sub, key, fresh, note);
        }
        let key = Column::Number(self.draws.below(4).saturating_add(1));
        let other = Column::Number(self.draws.below(8).saturating_add(1));
        if kind == 15 && self.draws.below(4) == 0 {
            return Message::Other(b'T', sub, WHOLE);
        }
        change_of(kind, sub, key, other, note)
    }

    // What the run without workers leaves of the stream up to its commit of this number.
    fn past<R: Threads + Wait + Sync + Host>(
        &self,
        rt: &R,
        alloc: Global,
        commits: usize,
    ) -> Result<Ran, OutOfMemory> {
        let bytes = self.stream.bytes();
        let last = commits.checked_sub(1);
        let cut = last.and_then(|last| self.cuts.as_slice().get(last).copied());
        let (stream, _) = bytes.split_at(cut.unwrap_or(0).min(bytes.len()));
        run_by(rt, alloc, &Plan::new(stream, config_of(0, 1)), 0)
    }
}

// A change of a row, or the insert of a fresh one.
fn change_of(kind: u32, sub: Xid, key: Column, fresh: Column, note: Column) -> Message {
    let old = (key, Column::Null, Column::Null);
    match kind {
        0..=9 => Message::Update(sub, (key, Column::Kept, note)),
        10..=11 => Message::DeleteAt(sub, b'K', old),
        12 => Message::UpdateAt(sub, b'K', old, (fresh, Column::Kept, note)),
        _ => Message::Insert(sub, (fresh, Column::Null, note)),
    }
}

#[test]
fn transactions_apart_leave_the_same_on_each_schedule(rt: HostRuntime) -> Result<(), OutOfMemory> {
    for seed in 0..4u64 {
        let drawn = Drawn::of(rt.alloc(), seed, true, 120)?;
        let ran = same_by_all(&rt, rt.alloc(), drawn.stream.bytes(), 1, "apart")?;
        assert!(rt; ran.outcome.end == End::Clean);
        assert!(rt; ran.commits().len() == drawn.cuts.len());
    }
    Ok(())
}

// The run left its commits alone, and ended for a clash or having read all.
fn is_lawful(rt: &impl Abort, ran: &Ran, past: &Ran, commits: usize) {
    let text = past.report.as_slice().strip_suffix(b"end 0 Clean\n");
    assert!(rt; text.is_some_and(|text| ran.report.as_slice().starts_with(text)));
    assert!(rt; past.commits().len() == ran.commits().len());
    match ran.outcome.end {
        End::Clean => assert!(rt; ran.commits().len() == commits),
        End::Unique { .. } | End::NullKey { .. } | End::HeldKey { .. } => {}
        other => panic!(rt; "{other:?}"),
    }
}

// Runs of a stream by so many workers, through rings of one slot and of two, are lawful.
fn all_lawful<R: Threads + Wait + Abort + Sync + Host>(
    rt: &R,
    alloc: Global,
    drawn: &Drawn,
    workers: usize,
) -> Result<(), OutOfMemory> {
    for ring in 1..3 {
        let plan = Plan::new(drawn.stream.bytes(), config_of(workers, ring));
        let ran = run_by(rt, alloc, &plan, 1)?;
        let past = drawn.past(rt, alloc, ran.commits().len())?;
        is_lawful(rt, &ran, &past, drawn.cuts.len());
    }
    Ok(())
}

#[test]
fn transactions_that_meet_leave_their_commits(rt: HostRuntime) -> Result<(), OutOfMemory> {
    for seed in 0..24u64 {
        let drawn = Drawn::of(rt.alloc(), seed, false, 30)?;
        for workers in 1..5 {
            all_lawful(&rt, rt.alloc(), &drawn, workers)?;
        }
    }
    Ok(())
}
