// What no clause says of a ring: its answers on one thread, which wakes come through between two, when
// an item is dropped, and that a refused allocation is told.
ghost use Rattle.std.specs.Prelude.{◌≡◌, ◌<◌, IfOk};

use crate::tests::asserts::{assert_holds, assert_same};
use model::OutOfMemory;
use ring::{Ends, Full, Ring, Sender, Taker, meet};
use std::alloc::Global;
use std::sync::{Arc, Wait};
use std::test::Fail;
use std::thread;

// One slot, a full ring, a doom, and both ends again.
#[test]
fn a_ring_of_one_slot(rt: HostRuntime) -> Result<(), Fail> {
    let (mut sender, mut taker) = Ring::new::<u64>(rt.alloc(), 1)?;
    assert_eq!(rt; sender.try_send(5), Ok(()));
    assert_eq!(rt; sender.try_send(6), Err(Full(6)));
    let said = format!(in rt.alloc(); "{}: {:?} by {sender:?} to {taker:?}", Full(6), Full(6))?;
    assert_eq!(rt;
        said.as_str(),
        "the ring is full: Full(6) by Sender { .. } to Taker { .. }"
    );
    assert_eq!(rt; taker.take(), Some(&5));
    assert_eq!(rt; taker.take(), Some(&5));
    taker.ack();
    assert_eq!(rt; sender.try_send(6), Ok(()));
    assert_eq!(rt; sender.acked(), 1);
    sender.doom();
    assert!(rt; taker.doomed());
    let mut ends = meet(sender, taker);
    assert_eq!(rt; ends.acked(), 1);
    assert_eq!(rt; ends.next_left(), Some(6));
    let None = ends.next_left() else {
        panic!(rt; "an item too many")
    };
    let (_sender, mut taker) = ends.reopen();
    assert!(rt; !taker.doomed());
    assert_eq!(rt; taker.take(), None);
    Ok(())
}

// Sends an item, again where the ring is full.
fn send<R: Wait>(rt: &R, sender: &mut Sender<u64>, item: u64)
    ensures { sender.new.ring ≡ sender.old.ring }
{
    for _ in rt.forever() {
        if sender.try_send(item).is_ok() {
            return;
        }
        thread::yield_now();
    }
    unreachable!()
}

// Sends the numbers below `count`.
fn send_all<R: Wait>(rt: &R, mut sender: Sender<u64>, count: u64) -> Sender<u64>
    ensures { result.ring ≡ sender.ring }
{
    for number in 0..count {
        send(rt, &mut sender, number);
    }
    sender
}

// Takes the numbers below `count`, and says whether they came in order.
fn take_all<R: Wait>(rt: &R, mut taker: Taker<u64>, count: u64) -> (Taker<u64>, bool)
    ensures { result.0.ring ≡ taker.ring }
{
    let mut in_order = true;
    for number in 0..count {
        taker.wait_more(rt);
        let Some(item) = taker.take() else {
            return (taker, false);
        };
        in_order = in_order && *item == number;
        taker.ack();
    }
    (taker, in_order)
}

#[test]
fn numbers_through_a_ring(rt: HostRuntime) -> Result<(), Fail> {
    for capacity in [1, 2, 1024] {
        let (sender, taker) = Ring::new::<u64>(rt.alloc(), capacity)?;
        let (mut sender, (mut taker, in_order)) = thread::join(
            &rt,
            || send_all(&rt, sender, 100000),
            || take_all(&rt, taker, 100000),
        );
        assert_holds(&rt, in_order, capacity);
        assert_same(&rt, sender.acked(), 100000, capacity);
        assert_same(&rt, taker.take(), None, capacity);
    }
    Ok(())
}

// Sends `place` numbers, dooms the taker and tries one more. Says how many were sent.
fn doom_at<R: Wait>(rt: &R, sender: Sender<u64>, place: u64) -> (Sender<u64>, u64)
    requires { place < 100 }
    ensures { result.0.ring ≡ sender.ring }
{
    let mut sender = send_all(rt, sender, place);
    sender.doom();
    match sender.try_send(place) {
        Ok(()) => (sender, place + 1),
        Err(_) => (sender, place),
    }
}

// Takes items until it is doomed, one more look for a doom behind each of them.
fn take_until_doomed<R: Wait>(rt: &R, mut taker: Taker<u64>) -> Taker<u64>
    ensures { result.ring ≡ taker.ring }
{
    for _ in rt.forever() {
        taker.wait_more(rt);
        if taker.doomed() {
            return taker;
        }
        if taker.take().is_some() {
            taker.ack();
        }
    }
    unreachable!()
}

// Whether the items that are left are those behind the acknowledged ones, up to the last one sent.
fn are_left(mut ends: Ends<u64>, sent: u64) -> bool {
    for number in ends.acked()..sent {
        if ends.next_left() != Some(number) {
            return false;
        }
    }
    ends.next_left().is_none()
}

// The taker of a ring of four slots is doomed once 0 to 99 items are sent, and nothing is lost.
#[test]
fn a_doom_at_each_place(rt: HostRuntime) -> Result<(), Fail> {
    for place in 0..100u64 {
        let (sender, taker) = Ring::new::<u64>(rt.alloc(), 4)?;
        let ((sender, sent), taker) = thread::join(
            &rt,
            || doom_at(&rt, sender, place),
            || take_until_doomed(&rt, taker),
        );
        assert_holds(&rt, are_left(meet(sender, taker), sent), place);
    }
    Ok(())
}

// A wake that comes before the taker waits is kept, and so is a doom.
#[test]
fn an_early_wake(rt: HostRuntime) -> Result<(), Fail> {
    let (mut sender, mut taker) = Ring::new::<u64>(rt.alloc(), 2)?;
    assert_holds(&rt, sender.try_send(7).is_ok(), "an item");
    taker.wait_more(&rt);
    let Some(&7) = taker.take() else {
        panic!(rt; "not the item")
    };
    taker.ack();
    sender.doom();
    taker.wait_more(&rt);
    assert_holds(&rt, taker.doomed(), "a doom");
    Ok(())
}

// A ring with three items, the first of them acknowledged and the second taken.
fn started(
    alloc: Global,
    item: &Arc<u8, Global>,
) -> Result<(Sender<Arc<u8, Global>>, Taker<Arc<u8, Global>>), OutOfMemory>
    ensures { IfOk result (λ ends. ends.0.ring ≡ ends.1.ring) }
{
    let (mut sender, mut taker) = Ring::new(alloc, 4)?;
    for _ in 0..3 {
        let _ = sender.try_send(Arc::try_clone(item)?);
    }
    if taker.take().is_some() {
        taker.ack();
    }
    let _ = taker.take();
    Ok((sender, taker))
}

// Items that are left or taken are dropped once, whichever end goes first, or where the ends met.
#[test]
fn ends_dropped_with_items_left(rt: HostRuntime) -> Result<(), Fail> {
    let item = Arc::new(rt.alloc(), 0u8)?;
    let (sender, taker) = started(rt.alloc(), &item)?;
    assert_same(&rt, Arc::strong_count(&item), 3, "in the ring");
    drop(sender);
    drop(taker);
    assert_same(&rt, Arc::strong_count(&item), 1, "the sender first");
    let (sender, taker) = started(rt.alloc(), &item)?;
    drop(taker);
    drop(sender);
    assert_same(&rt, Arc::strong_count(&item), 1, "the taker first");
    let (sender, taker) = started(rt.alloc(), &item)?;
    let mut ends = meet(sender, taker);
    assert_same(&rt, ends.acked(), 1, "one is acknowledged");
    drop(ends.next_left());
    assert_same(&rt, Arc::strong_count(&item), 2, "one is left");
    drop(ends);
    assert_same(&rt, Arc::strong_count(&item), 1, "both ends");
    Ok(())
}

// A refused allocation is told, and what was made before it is given up.
#[test]
fn a_ring_where_memory_is_refused(rt: HostRuntime) {
    let sent = match Ring::new::<u64>(rt.alloc(), 1024) {
        Ok((mut sender, _taker)) => sender.try_send(1).is_ok(),
        Err(OutOfMemory) => true,
    };
    assert_holds(&rt, sent, "an item");
}
