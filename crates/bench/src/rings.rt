// Numbers sent by one thread and taken by another, through `ring` and through the kit's `rtrb`.

ghost use Rattle.std.specs.Prelude.{◌≤◌};

use ring::{Ring, Sender, Taker};
use rtrb::{Consumer, Producer, RingBuffer};
use std::alloc::{AllocError, Global};
use std::sync::Wait;
use std::thread;
use std::thread::Threads;

/// Through what numbers go, and whether their taker sleeps where nothing is left or looks again.
#[derive(Clone, Copy)]
pub enum Kind {
    Ring,
    Wait,
    Rtrb,
}

/// Sends so many numbers through so many slots, and tells how many came in order.
pub fn send<R: Threads + Wait + Sync>(
    rt: &R,
    alloc: Global,
    kind: Kind,
    count: u64,
    slots: usize,
) -> Result<u64, AllocError>
    requires { (1 ≤ slots) × (slots ≤ 1024) }
{
    match kind {
        Kind::Ring => Ok(through_ring(rt, ring(alloc, slots)?, count, false)),
        Kind::Wait => Ok(through_ring(rt, ring(alloc, slots)?, count, true)),
        Kind::Rtrb => through_rtrb(rt, alloc, count, slots),
    }
}

fn ring(alloc: Global, slots: usize) -> Result<(Sender<u64>, Taker<u64>), AllocError>
    requires { (1 ≤ slots) × (slots ≤ 1024) }
{
    match Ring::new::<u64>(alloc, slots) {
        Ok(ends) => Ok(ends),
        Err(_) => Err(AllocError),
    }
}

fn through_ring<R: Threads + Wait + Sync>(
    rt: &R,
    (sender, taker): (Sender<u64>, Taker<u64>),
    count: u64,
    sleeps: bool,
) -> u64 {
    let ((), taken) = thread::join(
        rt,
        || give_all(rt, sender, count),
        || take_all(rt, taker, count, sleeps),
    );
    taken
}

fn through_rtrb<R: Threads + Wait + Sync>(
    rt: &R,
    alloc: Global,
    count: u64,
    slots: usize,
) -> Result<u64, AllocError> {
    let (producer, consumer) = RingBuffer::new(alloc, slots)?;
    let ((), taken) = thread::join(
        rt,
        || give_all(rt, producer, count),
        || pop_all(rt, consumer, count),
    );
    Ok(taken)
}

/// The end of a ring that numbers go into.
trait Giver {
    /// Whether there was room for it.
    fn give(&mut self, number: u64) -> bool;
}

impl Giver for Sender<u64> {
    fn give(&mut self, number: u64) -> bool {
        self.try_send(number).is_ok()
    }
}

impl Giver for Producer<u64> {
    fn give(&mut self, number: u64) -> bool {
        self.push(number).is_ok()
    }
}

/// Gives each number, again and again while there is no room.
fn give_all<R: Wait, G: Giver + Drop>(rt: &R, mut giver: G, count: u64) {
    for number in 0..count {
        for _ in rt.forever() {
            if giver.give(number) {
                break;
            }
            thread::yield_now();
        }
    }
}

fn take_all<R: Wait>(rt: &R, mut taker: Taker<u64>, count: u64, sleeps: bool) -> u64 {
    let mut taken = 0u64;
    for number in 0..count {
        for _ in rt.forever() {
            if let Some(item) = taker.take() {
                if *item == number {
                    taken = taken.saturating_add(1);
                }
                taker.ack();
                break;
            }
            if sleeps {
                taker.wait_more(rt);
            } else {
                thread::yield_now();
            }
        }
    }
    taken
}

fn pop_all<R: Wait>(rt: &R, mut consumer: Consumer<u64>, count: u64) -> u64 {
    let mut taken = 0u64;
    for number in 0..count {
        for _ in rt.forever() {
            if let Ok(item) = consumer.pop() {
                if item == number {
                    taken = taken.saturating_add(1);
                }
                break;
            }
            thread::yield_now();
        }
    }
    taken
}
