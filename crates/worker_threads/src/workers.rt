// A leader and its workers, each on a thread.
ghost use Rattle.std.specs.Prelude.{◌≡◌, ◌≤◌, ℕ, length};

use crate::mailbox::Mailbox;
use crate::serving::Serving;
use std::sync::Wait;
use std::thread;
use std::thread::Threads;

/// What the workers of a run share, and how they do a job.
pub trait Work<J> {
    // What stays of a job: how it was given, and how it comes back.
    ghost keeps: { J → J → Type 0 };

    /// Does a job.
    fn work<R: Wait>(&self, rt: &R, job: &mut J)
        ensures { keeps job.old job.new };

    /// A job was laid back into its mailbox: wakes the leader, where it waits for anything that moves.
    fn came_back<R: Wait>(&self, rt: &R);
}

// What is done once the threads were started. It is told how many workers were.
trait Task {
    type Output;

    ghost can_run: { Self → ℕ → Type 0 };

    ghost run_gives: { Self → ℕ → Self.Output → Type 0 };

    fn run(self, serving: Serving) -> Self::Output
        requires { can_run self serving }
        ensures { run_gives self serving result };
}

// A leader that is handed in, and handed back with what it answered. A scope says nothing of what its
// closure wrote; by the reference that comes back its caller knows what the leader left.
#[derive(Drop)]
struct Lent<'a, F> {
    leader: &'a mut F,
}

impl<'a, F: FnMut(usize) -> X, X> Task for Lent<'a, F> {
    ghost use Rattle.std.specs.Prelude.{◌≡◌};

    type Output = (&'a mut F, X);

    ghost can_run = { λ lent serving. F.pre lent.leader.now serving };

    ghost run_gives = { λ lent serving given. (given.0.ghost_name ≡ lent.leader.ghost_name) × F.step lent.leader.now serving given.1 given.0.now };

    fn run(self, serving: Serving) -> (&'a mut F, X) {
        let Lent { leader } = self;
        let outcome = leader(serving.count());
        (leader, outcome)
    }
}

/// Starts a worker for each mailbox and lets the leader work, which is told how many mailboxes have one:
/// the first so many, and all of them unless a thread can't be started (no clause says so: fewer may be
/// told). Once the leader has answered, all mailboxes are closed, and it returns when the workers have
/// ended. A job that still lies in a mailbox is dropped.
pub fn with_workers<J, R, W, F, X>(
    rt: &R,
    mailboxes: &[Mailbox<J>],
    shared: &W,
    leader: &mut F,
) -> X
where
    J: Drop + Send,
    R: Threads + Wait + Sync,
    W: Work<J> + Sync,
    F: FnMut(usize) -> X,
    requires { (serving : ℕ) → serving ≤ length mailboxes.now → F.pre leader.old serving }
    ensures { (serving : ℕ) × (serving ≤ length mailboxes.now) × F.step leader.old serving result leader.new }
{
    let (leader, outcome) = in_scope(rt, mailboxes, shared, Lent { leader });
    take_again(leader);
    outcome
}

// Runs the task beside a worker for each mailbox.
fn in_scope<J, R, W, T, X>(rt: &R, mailboxes: &[Mailbox<J>], shared: &W, task: T) -> X
where
    J: Drop + Send,
    R: Threads + Wait + Sync,
    W: Work<J> + Sync,
    T: Task<Output = X> + Drop,
    requires { (serving : ℕ) → serving ≤ length mailboxes.now → T.can_run task serving }
    ensures { (serving : ℕ) × (serving ≤ length mailboxes.now) × T.run_gives task serving result }
{
    thread::scope(
        thread::scope_env(),
        rt,
        move |scope| -> X
            requires { (serving : ℕ) → serving ≤ length mailboxes.now → T.can_run task serving }
            ensures { (serving : ℕ) × (serving ≤ length mailboxes.entry.now) × T.run_gives task serving result }
        {
            let mut serving = Serving::none();
            for mailbox in mailboxes {
                match scope.spawn(move || mailbox.serve(rt, shared)) {
                    Ok(started) => serving.add(started),
                    Err(_) => break,
                }
            }
            let outcome = task.run(serving);
            for mailbox in mailboxes {
                let _ = mailbox.close(rt);
            }
            outcome
        },
    )
}

// The leader is its caller's again, as it was left.
fn take_again<T>(leader: &mut T)
    ensures { leader.new ≡ leader.old }
{}
