// A worker with its job.
ghost use Rattle.worker.specs.Working.{GoesOn, IsEndedBy};
ghost use Rattle.worker.specs.declared.ended.Ended.{Ended as EndedBy};

use crate::ended::Ended;
use crate::gate::{Gate, Point};
use crate::job::Job;
use crate::names::RingNames;
use std::alloc::Global;
use std::sync::Wait;
use table_locks::{Store, StoreNames};

/// Does the items of a job as they come, and gives the job back.
pub fn work<N: StoreNames, L: RingNames, G: Gate, R: Wait>(
    rt: &R,
    alloc: Global,
    store: &Store<N>,
    mut job: Job<N, L>,
    gate: &mut G,
) -> Job<N, L>
    ensures goes_on { GoesOn job result }
    ensures ended { (ended : EndedBy) × IsEndedBy N.schema N.start ended result }
{
    work_on(rt, alloc, store, &mut job, gate);
    job
}

/// Does the items of a job as they come: until the transaction's commit was read, it is told to give
/// up, the store is stopped or memory is refused. It says which of these.
///
/// Locks of the store are taken by its calls, one for each item, and none is held between them.
/// Whoever tells a worker to give up counts a move of the store behind it (`tell_move`), since a
/// worker that waits for a cell looks for it once something moved.
pub fn work_on<N: StoreNames, L: RingNames, G: Gate, R: Wait>(
    rt: &R,
    alloc: Global,
    store: &Store<N>,
    job: &mut Job<N, L>,
    gate: &mut G,
) -> Ended
    ensures goes_on { GoesOn job.old job.new }
    ensures ended { IsEndedBy N.schema N.start result job.new }
{
    let xid = job.xid();
    let mut number = 1u64;
    for _ in rt.forever() {
        if let Err(ended) = job.wait_next(rt) {
            return ended;
        }
        gate.pass(xid, Point::Before(number));
        match job.do_next(rt, alloc, store, gate) {
            Ok(()) => gate.pass(xid, Point::After(number)),
            Err(ended) => {
                if ended == Ended::Clashed {
                    gate.pass(xid, Point::Clash(number));
                }
                return ended;
            }
        }
        number = number.saturating_add(1);
    }
    unreachable!()
}
