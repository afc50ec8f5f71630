// What no clause says of workers: that they work at the same time, that each job comes back, that the
// leader is woken, that all threads end however the leader leaves, and when a job is dropped.
ghost use Rattle.std.specs.Prelude.{◌≡◌, IfOk};

use crate::tests::asserts::assert_same;
use crossbeam_utils::sync::EventCount;
use model::OutOfMemory;
use std::alloc::Global;
use std::sync::{Arc, Condvar, Mutex, Wait};
use std::test::Fail;
use std::thread::Threads;
use worker_threads::{Mailbox, Work, make_mailboxes, with_workers};

#[derive(Drop)]
struct Job {
    number: usize,
    done: u64,
    held: Arc<u8, Global>,
}

// Where a job is done once so many have been in work.
#[derive(Drop)]
struct Shared {
    wanted: u64,
    begun: Mutex<u64>,
    changed: Condvar,
    moved: EventCount,
}

impl Shared {
    fn new(wanted: u64) -> Shared {
        Shared {
            wanted,
            begun: Mutex::new(0),
            changed: Condvar::new(),
            moved: EventCount::new(),
        }
    }
}

impl Work<Job> for Shared {
    ghost use Rattle.std.specs.Prelude.{◌≡◌};

    ghost keeps = { λ old new. new.number ≡ old.number };

    fn work<R: Wait>(&self, rt: &R, job: &mut Job) {
        let mut begun = self.begun.lock(rt);
        *begun = begun.saturating_add(1);
        self.changed.notify_all();
        let _ = self
            .changed
            .wait_while(rt, begun, |begun| *begun < self.wanted);
        job.done = job.done.saturating_add(1);
    }

    fn came_back<R: Wait>(&self, _rt: &R) {
        self.moved.notify_all();
    }
}

// A new job for each mailbox.
fn jobs(alloc: Global, count: usize, held: &Arc<u8, Global>) -> Result<Vec<Job>, OutOfMemory> {
    let mut jobs = Vec::new(alloc);
    for number in 0..count {
        let held = Arc::try_clone(held)?;
        jobs.push(Job {
            number,
            done: 0,
            held,
        })?;
    }
    Ok(jobs)
}

// Lays a job on each mailbox. Says whether all mailboxes took theirs.
fn give_all<R: Wait>(rt: &R, mailboxes: &[Mailbox<Job>], jobs: Vec<Job>) -> bool {
    let mut all = true;
    for (mailbox, job) in mailboxes.iter().zip(jobs) {
        all = mailbox.give(rt, job).is_ok() && all;
    }
    all
}

// The job of a mailbox, once it was done, which is looked for whenever something moved.
fn wait_for<R: Wait>(rt: &R, mailbox: &Mailbox<Job>, moved: &EventCount) -> Job {
    for _ in rt.forever() {
        let key = moved.prepare_wait();
        if let Some(job) = mailbox.try_back(rt) {
            return job;
        }
        key.wait(rt);
    }
    unreachable!()
}

// How many of the mailboxes' jobs came back, each to its own mailbox and done once.
fn count_back<R: Wait>(rt: &R, mailboxes: &[Mailbox<Job>], moved: &EventCount) -> u64 {
    let mut count = 0u64;
    for (number, mailbox) in mailboxes.iter().enumerate() {
        let job = wait_for(rt, mailbox, moved);
        if job.number == number && job.done == 1 {
            count = count.saturating_add(1);
        }
    }
    count
}

// No job is done before all are in work, so this ends only if all workers work at the same time.
#[test]
fn all_at_once(rt: HostRuntime) -> Result<(), Fail> {
    let held = Arc::new(rt.alloc(), 0u8)?;
    for workers in [1u64, 2, 3, 4, 16] {
        let mailboxes = make_mailboxes(rt.alloc(), workers as usize)?;
        let shared = Shared::new(workers);
        let mut laid = Some(jobs(rt.alloc(), workers as usize, &held)?);
        let back = with_workers(
            &rt,
            &mailboxes,
            &shared,
            &mut |serving| {
                let Some(jobs) = laid.take() else { return 0 };
                if serving < mailboxes.len() || !give_all(&rt, &mailboxes, jobs) {
                    return 0;
                }
                count_back(&rt, &mailboxes, &shared.moved)
            },
        );
        assert_same(&rt, back, workers, "back");
    }
    assert_same(&rt, Arc::strong_count(&held), 1, "jobs that are held");
    Ok(())
}

// A leader that leaves at a turn: at once, once jobs were given, once the first came back, once all
// did, or once all were given again. Answers how many came back.
fn leave_at<R: Wait>(
    rt: &R,
    turn: u64,
    mailboxes: &[Mailbox<Job>],
    moved: &EventCount,
    first: Vec<Job>,
    second: Vec<Job>,
) -> u64 {
    if turn == 0 {
        return 0;
    }
    give_all(rt, mailboxes, first);
    if turn == 1 {
        return 0;
    }
    if turn == 2 {
        return count_back(rt, mailboxes.get(..1).unwrap_or(&[]), moved);
    }
    let back = count_back(rt, mailboxes, moved);
    if turn == 4 {
        give_all(rt, mailboxes, second);
    }
    back
}

// How many jobs have come back where the leader leaves at a turn.
fn expected(turn: u64, workers: u64) -> u64 {
    match turn {
        0 | 1 => 0,
        2 => workers.min(1),
        _ => workers,
    }
}

// Each of them ends, and each job is dropped once, wherever it is then.
#[test]
fn the_leader_leaves_at_each_turn(rt: HostRuntime) -> Result<(), Fail> {
    let held = Arc::new(rt.alloc(), 0u8)?;
    for workers in 0..5u64 {
        for turn in 0..5u64 {
            let mailboxes = make_mailboxes(rt.alloc(), workers as usize)?;
            let shared = Shared::new(1);
            let first = jobs(rt.alloc(), workers as usize, &held)?;
            let second = jobs(rt.alloc(), workers as usize, &held)?;
            let mut laid = Some((first, second));
            let back = with_workers(
                &rt,
                &mailboxes,
                &shared,
                &mut |_| {
                    let Some((first, second)) = laid.take() else {
                        return 0;
                    };
                    leave_at(&rt, turn, &mailboxes, &shared.moved, first, second)
                },
            );
            assert_same(&rt, back, expected(turn, workers), turn);
        }
    }
    assert_same(&rt, Arc::strong_count(&held), 1, "jobs that are held");
    Ok(())
}

// A refused allocation is told.
#[test]
fn mailboxes_where_memory_is_refused(rt: HostRuntime) {
    match make_mailboxes::<Job>(rt.alloc(), 16) {
        Ok(mailboxes) => assert_same(&rt, mailboxes.len(), 16, "mailboxes"),
        Err(refused) => assert_same(&rt, refused, OutOfMemory, "refused"),
    }
}
