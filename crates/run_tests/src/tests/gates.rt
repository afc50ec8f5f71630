// Signs that a place was passed, gates that wait for them, and bytes that are withheld until then. So the
// schedule of a run is held, and not tried for.
use leader::{Failed, Gate, OutOfMemory, Point, Source, Xid};
use std::alloc::Global;
use std::rt::Clock as Host;
use std::sync::atomic::{AtomicBool, Ordering};
use std::thread;
use std::time::Duration;

/// A point that a transaction's worker passes.
#[derive(Clone, Copy, PartialEq, Eq)]
pub struct Place(pub Xid, pub Point);

/// A place that no worker passes.
pub const NOWHERE: Place = Place(0, Point::Before(0));

/// Whether a place was passed.
#[derive(Drop)]
pub struct Sign {
    place: Place,
    passed: AtomicBool,
}

impl Sign {
    pub fn new(place: Place) -> Sign {
        Sign {
            place,
            passed: AtomicBool::new(false),
        }
    }

    pub fn is_passed(&self) -> bool {
        self.passed.load(Ordering::SeqCst)
    }

    pub fn pass(&self) {
        self.passed.store(true, Ordering::SeqCst);
    }

    // Waits until it was passed. Says whether it was, within so many turns.
    fn wait<H: Host>(&self, host: &H, turns: u32) -> bool {
        for _ in 0..turns {
            if self.is_passed() {
                return true;
            }
            thread::sleep(host, Duration::from_micros(10));
        }
        false
    }
}

// So many turns without success, and a wait is given up: many seconds.
const TURNS: u32 = 400_000;

/// A place at which a worker waits until a sign was passed, by its index.
#[derive(Clone, Copy)]
pub struct Hold {
    pub place: Place,
    pub until: usize,
}

/// A gate that passes the signs of its places, and waits at others.
#[derive(Drop)]
pub struct Door<'a, H: Host> {
    host: &'a H,
    signs: &'a [Sign],
    holds: &'a [Hold],
}

impl<H: Host> Gate for Door<'_, H> {
    fn pass(&mut self, xid: Xid, at: Point) {
        let here = Place(xid, at);
        for hold in self.holds {
            if hold.place == here {
                let _ = self
                    .signs
                    .get(hold.until)
                    .is_some_and(|sign| sign.wait(self.host, TURNS));
            }
        }
        for sign in self.signs {
            if sign.place == here {
                sign.pass();
            }
        }
    }
}

/// A door for each worker.
pub fn doors<'a, H: Host>(
    host: &'a H,
    alloc: Global,
    signs: &'a [Sign],
    holds: &'a [Hold],
    workers: usize,
) -> Result<Vec<Door<'a, H>>, OutOfMemory> {
    let mut doors = Vec::new(alloc);
    for _ in 0..workers {
        doors.push(Door { host, signs, holds })?;
    }
    Ok(doors)
}

/// When bytes that are withheld may be given.
#[derive(Clone, Copy)]
pub enum Due<'a> {
    Now,
    /// Once a sign was passed. Where it was not in time, the read fails.
    Passed(&'a Sign),
    /// Once it was passed, or after a while.
    PassedOrLate(&'a Sign),
}

/// Gives the front of a stream, and the back once it is due.
#[derive(Drop)]
pub struct Withheld<'a, H: Host> {
    host: &'a H,
    front: &'a [u8],
    back: &'a [u8],
    due: Due<'a>,
    failures: u64,
    failed_last: bool,
}

// A while: more than a worker needs for what memory is there for.
const SOME_TURNS: u32 = 1000;

impl<'a, H: Host> Withheld<'a, H> {
    pub fn new(host: &'a H, (front, back): (&'a [u8], &'a [u8]), due: Due<'a>) -> Withheld<'a, H> {
        Withheld {
            host,
            front,
            back,
            due,
            failures: 0,
            failed_last: false,
        }
    }

    // Whether the back may be given, where the front was.
    fn is_due(&self) -> bool {
        match self.due {
            Due::Now => true,
            Due::Passed(sign) => sign.wait(self.host, TURNS),
            Due::PassedOrLate(sign) => {
                let _ = sign.wait(self.host, SOME_TURNS);
                true
            }
        }
    }
}

impl<H: Host> Source for Withheld<'_, H> {
    ghost use Rattle.std.specs.Prelude.{None, length, ◌+◌};

    ghost remaining = { λ _. None };

    ghost reads_left = { λ w. length w.front.now + length w.back.now };

    ghost failures = { λ w. w.failures };

    ghost failed_last = { λ w. w.failed_last };

    fn read_some(&mut self, buf: &mut [u8]) -> Result<usize, Failed> {
        self.failed_last = self.front.is_empty() && !self.is_due();
        if self.failed_last {
            self.failures = self.failures.saturating_add(1);
            return Err(Failed);
        }
        if self.front.is_empty() {
            self.due = Due::Now;
            self.front = self.back;
            self.back = &[];
        }
        let count = self.front.len().min(buf.len());
        let (now, later) = self.front.split_at(count);
        buf[..count].copy_from_slice(now);
        self.front = later;
        Ok(count)
    }
}
