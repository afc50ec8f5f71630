// A leader beside its workers and those who watch it, as a value.
//
// `worker_threads` takes a leader as a closure. What a run's leader needs has more than one type parameter, and a
// closure that holds references to it gets no proof yet; so the closure holds a value of a type
// parameter, which leads.
ghost use Rattle.std.specs.Prelude.{◌≡◌, ◌≤◌, ℕ, Bool, true, [], ◌&&◌, nat_eq, All, IfNone, IfSome, length, vec_capacity};
ghost use Rattle.leader.specs.Onlookers.{HasThread};

use crate::watching::Watching;
use dispatch::RunNames;
use std::sync::Wait;
use std::thread;
use std::thread::{JoinHandle, Threads};
use worker_threads::{Mailbox, Work, with_workers};

/// Leads while workers work, and hands back what it was lent.
pub trait Leading<J, W> {
    ghost use Rattle.std.specs.Prelude.{ℕ, Bool};

    type Left;

    /// It can lead so many workers.
    ghost can_lead: { Self → ℕ → Type 0 };

    /// It has led so many, told whether it has all threads, and leaves this.
    ghost lead_gives: { Self → ℕ → Bool → Self.Left → Type 0 };

    /// Leads. It is told whether each mailbox has a worker, and each watcher a thread.
    fn lead<R: Wait>(
        self,
        rt: &R,
        mailboxes: &[Mailbox<J>],
        shared: &W,
        has_all: bool,
    ) -> Self::Left
        requires { can_lead self (length mailboxes.now) }
        ensures { lead_gives self (length mailboxes.now) has_all result };
}

/// Who watches a run with workers that share `S`.
pub trait Turns<S, L: RunNames> {
    /// Has its turns, until the run has ended, and one more.
    fn take_turns<R: Wait>(self, rt: &R, shared: &S, watching: &Watching<L>) -> Self;
}

/// One who watches: here, or in a thread of its own.
#[derive(Drop)]
pub enum Onlooker<V: Drop> {
    Here(V),
    Away(JoinHandle<V>),
}

impl<V: Drop> Onlooker<V> {
    /// Whoever it is, once its thread has ended.
    pub fn join<R: Threads>(self, rt: &R) -> V {
        match self {
            Onlooker::Here(watcher) => watcher,
            Onlooker::Away(thread) => thread.join(rt),
        }
    }
}

/// Those who watch, and room for them while they do.
#[derive(Drop)]
pub struct Onlookers<V: Drop> {
    pub all: Vec<Onlooker<V>>,
    pub room: Vec<Onlooker<V>>,
    ghost empty: { room.items ≡ [] },
    ghost fits: { length all.items ≤ vec_capacity room },
}

impl<V: Drop> Onlookers<V> {
    // All of them, and the room.
    fn into_parts(self) -> (Vec<Onlooker<V>>, Vec<Onlooker<V>>)
        ensures all { result.0 ≡ self.all }
        ensures empty { result.1.items ≡ [] }
        ensures fits { length self.all.items ≤ vec_capacity result.1 }
    {
        let Onlookers { all, room } = self;
        (all, room)
    }
}

/// Starts a thread for each watcher and a worker for each mailbox, and lets the leader lead, which tells
/// the watchers the end. It returns when each of them has had its last turn, which one whose thread can't
/// be started has here: then the leader is told so, and nothing is read.
pub fn beside<J, R, W, L, V, T, X>(
    rt: &R,
    mailboxes: &[Mailbox<J>],
    shared: &W,
    watching: &Watching<L>,
    watchers: Onlookers<V>,
    leader: T,
) -> (X, Vec<Onlooker<V>>)
where
    J: Drop + Send,
    R: Threads + Wait + Sync,
    W: Work<J> + Sync,
    L: RunNames + Sync,
    V: Turns<W, L> + Drop + Send,
    T: Leading<J, W, Left = X> + Drop,
    requires { T.can_lead leader (length mailboxes.now) }
    ensures led { (has_all : Bool) × T.lead_gives leader (length mailboxes.now) has_all result.0
        × (has_all ≡ true → All HasThread result.1.items) }
    ensures count { length result.1.items ≡ length watchers.all.items }
{
    thread::scope(
        thread::scope_env(),
        rt,
        move |scope| -> (X, Vec<Onlooker<V>>)
            requires { T.can_lead leader (length mailboxes.now) }
            ensures led { (has_all : Bool) × T.lead_gives leader (length mailboxes.entry.now) has_all result.0
                × (has_all ≡ true → All HasThread result.1.items) }
            ensures count { length result.1.items ≡ length watchers.all.items }
        {
            let (all, mut away) = watchers.into_parts();
            for onlooker in all {
                let watcher = onlooker.join(rt);
                match scope.spawn(move || watcher.take_turns(rt, shared, watching)) {
                    Ok(thread) => away.push_reserved(Onlooker::Away(thread)),
                    Err(refused) => {
                        watching.signal_end();
                        away.push_reserved(Onlooker::Here((refused.value)()));
                    }
                }
            }
            let are_watching = have_threads(&away);
            let left = beside_workers(rt, mailboxes, shared, leader, are_watching);
            (left, away)
        },
    )
}

// Whether each of those who watch has a thread of its own.
fn have_threads<V: Drop>(onlookers: &[Onlooker<V>]) -> bool
    ensures { result ≡ true → All HasThread onlookers.now }
{
    for onlooker in onlookers {
        if let Onlooker::Here(_) = onlooker {
            return false;
        }
    }
    true
}

// Starts a worker for each mailbox and lets the leader lead, as `with_workers` has it. It is told that it has
// all threads if those who watch have theirs, and so many mailboxes have a worker as there are.
fn beside_workers<
    J: Drop + Send,
    R: Threads + Wait + Sync,
    W: Work<J> + Sync,
    T: Leading<J, W, Left = X> + Drop,
    X,
>(rt: &R, mailboxes: &[Mailbox<J>], shared: &W, leader: T, are_watching: bool) -> X
    requires { T.can_lead leader (length mailboxes.now) }
    ensures { (serving : ℕ) × T.lead_gives leader (length mailboxes.now) (are_watching && nat_eq serving (length mailboxes.now)) result }
{
    let mut leader = Some(leader);
    with_workers(
        rt,
        mailboxes,
        shared,
        &mut |serving: usize| -> X
            requires { IfNone leader ⊥ × IfSome leader (λ l. T.can_lead l (length mailboxes.now)) }
            ensures { IfSome leader.entry (λ l. T.lead_gives l (length mailboxes.entry.now) (are_watching && nat_eq serving (length mailboxes.entry.now)) result) }
        {
            let Some(leader) = leader.take() else {
                unreachable!()
            };
            let has_all = are_watching && serving == mailboxes.len();
            leader.lead(rt, mailboxes, shared, has_all)
        },
    )
}
