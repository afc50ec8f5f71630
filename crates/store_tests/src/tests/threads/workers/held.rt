// A worker whose change is held waits until the hold is let go, whoever lets it go, or until it is
// doomed or the store is stopped.
ghost use Rattle.std.specs.Prelude.{◌≡◌, []};

use super::flags::{Flag, Plan};
use super::one_worker::{Came, Doom, run_worker};
use super::plays::{Scenario, play};
use super::shared::Hand;
use super::steps::Step;
use crate::tests::asserts::{assert_holds, assert_same};
use engine::Stop;
use std::process::Abort;
use std::sync::Wait;
use std::thread;
use std::thread::Threads;
use std::time::Clock;
use table_locks::{StoreNames, Ticket};
use worker::{Ended, Point};

// What 700 does: its first change is held by 701.
static HELD: [Step; 3] = [
    Step::Note {
        sub: 700,
        key: 1,
        note: 7,
    },
    Step::Touch(700),
    Step::Last,
];

// What holds it.
const HOLDING: Step = Step::Note {
    sub: 701,
    key: 1,
    note: 1,
};

// The same by a worker, which rolls it back.
static ROLLED_BACK: [Step; 4] = [
    Step::Touch(701),
    Step::Note {
        sub: 711,
        key: 1,
        note: 1,
    },
    Step::Back(711),
    Step::Last,
];

// A change that clashes.
static CLASHING: [Step; 2] = [Step::Put(2), Step::Last];

impl<N: StoreNames + Send + Sync, R: Threads + Wait + Abort + Clock + Sync> Hand<'_, N, R> {
    // A transaction that holds the row of key 1.
    fn open_holder(&mut self) -> Ticket<N> {
        self.start_with(&[1, 2]);
        let mut holder = self.open(701);
        self.act(&mut holder, HOLDING);
        holder
    }

    // Once the worker is held, the holder ends.
    fn end_holder(mut self, holder: Ticket<N>, held: &Flag, commits: bool) -> Self {
        held.wait(self.rt, 1);
        if commits {
            self.commit(holder);
        } else {
            self.abort(holder);
        }
        self
    }

    // The worker is held, and the holder ends.
    fn end_beside(
        self,
        holder: Ticket<N>,
        ticket: Ticket<N>,
        held: &Flag,
        commits: bool,
    ) -> (Self, Came<N>)
        requires { ticket.events ≡ [] }
    {
        let (rt, alloc, shared) = (self.rt, self.alloc, self.shared);
        thread::join(
            rt,
            move || self.end_holder(holder, held, commits),
            move ||
                requires { ticket.events ≡ [] }
            { run_worker(rt, alloc, shared, ticket, &HELD, Plan::nowhere(held), None) },
        )
    }

    /// A holder that commits or aborts.
    pub(super) fn holder_ends(mut self, commits: bool) {
        let holder = self.open_holder();
        let ticket = self.open(700);
        let held = Flag::new();
        let (mut hand, came) = self.end_beside(holder, ticket, &held, commits);
        assert_holds(hand.rt, came.is(Ended::Last, 2, 1), "came");
        assert_same(hand.rt, hand.note(1), Some(7), "the note");
        hand.abort(came.into_ticket());
        let before = if commits { 1 } else { 0 };
        assert_same(hand.rt, hand.note(1), Some(before), "the note");
    }

    /// The worker is doomed while it is held.
    pub(super) fn doomed_while_held(mut self) {
        let holder = self.open_holder();
        let ticket = self.open(700);
        let (held, told) = (Flag::new(), Flag::new());
        let (plan, doom) = (Plan::nowhere(&held), Doom(&held, &told));
        let (rt, alloc, shared) = (self.rt, self.alloc, self.shared);
        let came = run_worker(rt, alloc, shared, ticket, &HELD, plan, Some(doom));
        assert_holds(rt, came.is(Ended::Doomed, 0, 3), "came");
        self.abort(came.into_ticket());
        self.abort(holder);
    }

    // Two workers: 700, which comes to be held, and one that goes on once it is.
    fn run_both(
        &self,
        ticket: Ticket<N>,
        other: Ticket<N>,
        steps: &[Step],
        at: Point,
    ) -> (Came<N>, Came<N>)
        requires ticket { ticket.events ≡ [] }
        requires other { other.events ≡ [] }
    {
        let (ready, there, held, never) = (Flag::new(), Flag::new(), Flag::new(), Flag::new());
        let plan = Plan::new(Point::Before(1), &ready, &there, &held);
        let other_plan = Plan::new(at, &there, &held, &never);
        self.run_two((ticket, &HELD, plan), (other, steps, other_plan))
    }

    /// The holder is a worker, which rolls its subtransaction back.
    pub(super) fn holder_rolls_back(mut self) {
        self.start_with(&[1]);
        let ticket = self.open(700);
        let holder = self.open(701);
        let (came, other) = self.run_both(ticket, holder, &ROLLED_BACK, Point::After(2));
        let are_done = came.is(Ended::Last, 2, 1) && other.is(Ended::Last, 3, 1);
        assert_holds(self.rt, are_done, "came");
        self.commit(other.into_ticket());
        self.commit(came.into_ticket());
        assert_same(self.rt, self.note(1), Some(7), "the note");
    }

    /// Another worker's change clashes, which stops the store.
    pub(super) fn other_clashes(mut self) {
        let holder = self.open_holder();
        let ticket = self.open(700);
        let other = self.open(702);
        let (came, other) = self.run_both(ticket, other, &CLASHING, Point::Before(1));
        let are_ended = came.is(Ended::Stopped, 0, 3) && other.is(Ended::Clashed, 0, 2);
        assert_holds(self.rt, are_ended, "came");
        let stop = self.stop();
        assert_holds(
            self.rt,
            matches!(stop, Some(Stop::Clash(702, _))),
            "stopped",
        );
        self.abort(came.into_ticket());
        self.abort(other.into_ticket());
        self.abort(holder);
        assert_same(self.rt, self.note(1), Some(0), "the note");
    }
}

#[test]
fn a_commit_wakes_a_worker(rt: HostRuntime) {
    play(&rt, rt.alloc(), Scenario::HolderEnds { commits: true });
}

#[test]
fn an_abort_wakes_a_worker(rt: HostRuntime) {
    play(&rt, rt.alloc(), Scenario::HolderEnds { commits: false });
}

#[test]
fn a_doom_wakes_a_worker(rt: HostRuntime) {
    play(&rt, rt.alloc(), Scenario::DoomedWhileHeld);
}

#[test]
fn a_rollback_of_another_worker_wakes_a_worker(rt: HostRuntime) {
    play(&rt, rt.alloc(), Scenario::HolderRollsBack);
}

#[test]
fn a_clash_of_another_worker_wakes_a_worker(rt: HostRuntime) {
    play(&rt, rt.alloc(), Scenario::OtherClashes);
}
