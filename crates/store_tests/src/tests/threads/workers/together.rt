// Workers that work at the same time, and workers that are doomed at each of their items.
ghost use Rattle.std.specs.Prelude.{◌≡◌, []};

use super::flags::{Flag, Plan};
use super::one_worker::{Came, Doom, run_worker};
use super::plays::{Scenario, play};
use super::shared::{Hand, Shared};
use super::steps::{Step, put_key};
use crate::tests::asserts::{assert_holds, assert_same};
use model::{Item, Xid};
use std::alloc::Global;
use std::process::Abort;
use std::sync::{Mutex, Wait};
use std::thread;
use std::thread::Threads;
use std::time::Clock;
use table_locks::{StoreNames, Ticket};
use worker::{Ended, Point};

// Rows with these keys.
static LOW: [Step; 6] = [
    Step::Put(1),
    Step::Put(2),
    Step::Put(3),
    Step::Put(4),
    Step::Put(5),
    Step::Last,
];

static HIGH: [Step; 4] = [Step::Put(11), Step::Touch(701), Step::Put(12), Step::Last];

// Whether the items that are left are those behind the first so many of the five.
fn are_left<N: StoreNames>(came: &Came<N>, done: u64) -> bool {
    let mut key = done.min(100) as i64;
    for item in &came.left {
        key = key.saturating_add(1);
        let is_next = match item {
            Item::Last => key == 6,
            item => put_key(item) == Some(key),
        };
        if !is_next {
            return false;
        }
    }
    key == 6
}

// So many workers, each of which waits behind its first item until all are there.
const WORKERS: u32 = 16;

// Where they meet, and what came back of them.
#[derive(Drop)]
struct Meeting<N: StoreNames> {
    come: Flag,
    held: Flag,
    back: Mutex<Vec<Came<N>>>,
}

impl<N: StoreNames> Meeting<N> {
    fn into_back(self) -> Vec<Came<N>> {
        let Meeting {
            come: _,
            held: _,
            back,
        } = self;
        back.into_inner()
    }
}

// One of them, with two keys of its own.
fn one_of_many<N: StoreNames + Send + Sync, R: Threads + Wait + Abort + Clock + Sync>(
    rt: &R,
    alloc: Global,
    shared: &Shared<N>,
    meeting: &Meeting<N>,
    ticket: Ticket<N>,
    number: u32,
)
    requires { ticket.events ≡ [] }
{
    let key = number as i64;
    let steps = [Step::Put(key), Step::Put(key + 100), Step::Last];
    let plan = Plan {
        at: Point::After(1),
        come: &meeting.come,
        go: &meeting.come,
        count: WORKERS as u64,
        held: &meeting.held,
    };
    let came = run_worker(rt, alloc, shared, ticket, &steps, plan, None);
    assert_holds(rt, meeting.back.lock(rt).push(came).is_ok(), "push");
}

impl<N: StoreNames + Send + Sync, R: Threads + Wait + Abort + Clock + Sync> Hand<'_, N, R> {
    /// Two workers at the same time: each has a transaction, its steps and its plan.
    pub(super) fn run_two(
        &self,
        one: (Ticket<N>, &[Step], Plan<'_>),
        two: (Ticket<N>, &[Step], Plan<'_>),
    ) -> (Came<N>, Came<N>)
        requires one { one.0.events ≡ [] }
        requires two { two.0.events ≡ [] }
    {
        let (rt, alloc, shared) = (self.rt, self.alloc, self.shared);
        let (ticket, steps, plan) = one;
        let (other, other_steps, other_plan) = two;
        thread::join(
            rt,
            move ||
                requires { ticket.events ≡ [] }
            { run_worker(rt, alloc, shared, ticket, steps, plan, None) },
            move ||
                requires { other.events ≡ [] }
            { run_worker(rt, alloc, shared, other, other_steps, other_plan, None) },
        )
    }

    /// Two workers at disjoint keys, each of which waits behind its first item until the other is there.
    pub(super) fn two(mut self) {
        let first = self.open(700);
        let second = self.open(701);
        let (one, other, held) = (Flag::new(), Flag::new(), Flag::new());
        let plan = Plan::new(Point::After(1), &one, &other, &held);
        let other_plan = Plan::new(Point::After(1), &other, &one, &held);
        let (first, second) = self.run_two((first, &LOW, plan), (second, &HIGH, other_plan));
        let rt = self.rt;
        assert_holds(
            rt,
            first.is(Ended::Last, 5, 1) && second.is(Ended::Last, 3, 1),
            "came",
        );
        assert_holds(rt, !held.has(1), "held");
        self.commit(second.into_ticket());
        self.abort(first.into_ticket());
        assert_same(rt, self.note(5), None, "the note");
        assert_same(rt, self.note(12), Some(0), "the note");
    }

    /// A worker is stopped at a point, where it has passed its look for a doom, and doomed there.
    pub(super) fn doomed(mut self, at: Point, number: u64) {
        let ticket = self.open(700);
        let (come, told, held) = (Flag::new(), Flag::new(), Flag::new());
        let (plan, doom) = (Plan::new(at, &come, &told, &held), Doom(&come, &told));
        let (rt, alloc, shared) = (self.rt, self.alloc, self.shared);
        let came = run_worker(rt, alloc, shared, ticket, &LOW, plan, Some(doom));
        assert_same(rt, came.ended, Ended::Doomed, "ended");
        assert_same(rt, came.acked, number, "acked");
        assert_holds(rt, are_left(&came, number), "what is left");
        let done = number.min(100) as i64;
        for key in 1..6i64 {
            assert_same(rt, self.note(key).is_some(), key <= done, key);
        }
        self.abort(came.into_ticket());
        assert_same(rt, self.note(1), None, "the note");
    }

    // All workers start, each with a transaction of its own.
    fn start_all(&mut self, meeting: &Meeting<N>) {
        let (rt, alloc, shared) = (self.rt, self.alloc, self.shared);
        thread::scope(thread::scope_env(), rt, move |scope| {
            for number in 0..WORKERS {
                let ticket = self.open(700 + number);
                let worker = move ||
                    requires { ticket.events ≡ [] }
                { one_of_many(rt, alloc, shared, meeting, ticket, number) };
                assert_holds(rt, scope.spawn(worker).is_ok(), "spawn");
            }
        });
    }

    /// Many workers at once.
    pub(super) fn many(mut self) {
        let meeting: Meeting<N> = Meeting {
            come: Flag::new(),
            held: Flag::new(),
            back: Mutex::new(Vec::new(self.alloc)),
        };
        self.start_all(&meeting);
        assert_holds(self.rt, !meeting.held.has(1), "held");
        for came in meeting.into_back() {
            assert_holds(self.rt, came.is(Ended::Last, 2, 1), "came");
            self.commit(came.into_ticket());
        }
        let journal = self.shared.store.lock_journal(self.rt).entries().len();
        assert_same(self.rt, journal, WORKERS as usize, "journal");
    }
}

#[test]
fn two_workers_at_the_same_time(rt: HostRuntime) {
    play(&rt, rt.alloc(), Scenario::Two);
}

#[test]
fn a_doom_at_each_item(rt: HostRuntime) {
    for number in 1..6u64 {
        for at in [Point::Before(number), Point::After(number)] {
            play(&rt, rt.alloc(), Scenario::Doomed { at, number });
        }
    }
}

#[test]
fn sixteen_workers_at_once(rt: HostRuntime) {
    play(&rt, rt.alloc(), Scenario::Many);
}
