// Where the threads of a test meet: flags, and gates that stop at one.
use model::Xid;
use std::process::Abort;
use std::sync::atomic::{AtomicU64, Ordering};
use std::thread;
use std::time::{Clock, Duration};
use worker::{Gate, Point};

/// How often a thread looks before it gives up, which fails the test.
const TURNS: u32 = 1000000;

/// Counts the threads that came to it.
#[derive(Drop)]
pub(super) struct Flag {
    count: AtomicU64,
}

impl Flag {
    pub(super) fn new() -> Flag {
        Flag {
            count: AtomicU64::new(0),
        }
    }

    /// One more thread came.
    pub(super) fn raise(&self) {
        self.count.fetch_add(1, Ordering::SeqCst);
    }

    /// Whether so many came.
    pub(super) fn has(&self, count: u64) -> bool {
        self.count.load(Ordering::SeqCst) >= count
    }

    /// Comes back once so many came.
    pub(super) fn wait<R: Abort + Clock>(&self, rt: &R, count: u64) {
        for _ in 0..TURNS {
            if self.has(count) {
                return;
            }
            thread::sleep(rt, Duration::from_micros(10));
        }
        panic!(rt; "waited for too long")
    }
}

/// Where a worker stops: at a point it comes to the first flag, and waits until so many came to the
/// second. Where it is held it comes to the third.
#[derive(Clone, Copy)]
pub(super) struct Plan<'a> {
    pub(super) at: Point,
    pub(super) come: &'a Flag,
    pub(super) go: &'a Flag,
    pub(super) count: u64,
    pub(super) held: &'a Flag,
}

impl<'a> Plan<'a> {
    /// It waits until one came.
    pub(super) fn new(at: Point, come: &'a Flag, go: &'a Flag, held: &'a Flag) -> Plan<'a> {
        Plan {
            at,
            come,
            go,
            count: 1,
            held,
        }
    }

    /// It stops nowhere.
    pub(super) fn nowhere(held: &'a Flag) -> Plan<'a> {
        // No worker comes to this point.
        Plan::new(Point::Clash(0), held, held, held)
    }
}

/// Stops a worker by a plan, and sees to it that the points come in order.
#[derive(Drop)]
pub(super) struct Stops<'a, R> {
    rt: &'a R,
    next: Point,
    plan: Plan<'a>,
}

impl<'a, R> Stops<'a, R> {
    pub(super) fn new(rt: &'a R, plan: Plan<'a>) -> Stops<'a, R> {
        Stops {
            rt,
            next: Point::Before(1),
            plan,
        }
    }
}

// The point that is to come behind one; where a change may clash, it is that or this.
fn behind(at: Point) -> Point {
    match at {
        Point::Before(number) => Point::After(number),
        Point::After(number) | Point::Clash(number) => Point::Before(number.saturating_add(1)),
    }
}

// Whether a worker may come to a point where another is to come next.
fn may_come(next: Point, at: Point) -> bool {
    match (next, at) {
        (Point::After(number), Point::Clash(clashed)) => number == clashed,
        _ => next == at,
    }
}

impl<'a, R: Abort + Clock> Gate for Stops<'a, R> {
    fn pass(&mut self, _xid: Xid, at: Point) {
        assert!(self.rt; may_come(self.next, at), "a point out of order");
        self.next = behind(at);
        if at == self.plan.at {
            self.plan.come.raise();
            self.plan.go.wait(self.rt, self.plan.count);
        }
    }

    fn held(&mut self, _xid: Xid) {
        self.plan.held.raise();
    }
}
