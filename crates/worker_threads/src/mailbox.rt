// Where a leader and its worker hand a job to one another.
ghost use Rattle.std.specs.Prelude.{◌≡◌, IfErr, IfOk, length};

use crate::state::{JobState, MailboxState};
use crate::workers::Work;
use model::OutOfMemory;
use std::alloc::Global;
use std::sync::{Condvar, Mutex, Wait};

/// Where a leader and its worker hand a job to one another.
#[derive(Debug, Drop)]
pub struct Mailbox<J> {
    place: Mutex<MailboxState<J>>,
    changed: Condvar,
}

/// So many mailboxes, open and with no job.
pub fn make_mailboxes<J: Drop>(alloc: Global, count: usize) -> Result<Vec<Mailbox<J>>, OutOfMemory>
    ensures { IfOk result (λ mailboxes. length mailboxes.items ≡ count) }
{
    let mut mailboxes = Vec::new(alloc);
    for _ in 0..count {
        mailboxes.push(Mailbox::new())?;
    }
    Ok(mailboxes)
}

// As `MailboxState::give`: what is given can't be dropped here.
impl<J> Mailbox<J> {
    /// Lays a job into the mailbox, for its worker. It is handed back where one is there already or with the
    /// worker, and where the mailbox is closed.
    pub fn give<R: Wait>(&self, rt: &R, job: J) -> Result<(), J>
        ensures { IfErr result (λ handed. handed ≡ job) }
    {
        self.place.lock(rt).give(job)?;
        self.changed.notify_all();
        Ok(())
    }
}

impl<J: Drop> Mailbox<J> {
    pub(crate) fn new() -> Mailbox<J> {
        Mailbox {
            place: Mutex::new(MailboxState {
                slot: JobState::Empty,
                closed: false,
            }),
            changed: Condvar::new(),
        }
    }

    /// The job, if it was done.
    pub fn try_back<R: Wait>(&self, rt: &R) -> Option<J> {
        self.place.lock(rt).take_back()
    }

    /// The job, once it was done. None where none was given.
    pub fn wait_back<R: Wait>(&self, rt: &R) -> Option<J> {
        let mut place = self
            .changed
            .wait_while(rt, self.place.lock(rt), |place| place.is_away());
        place.take_off()
    }

    /// Closes the mailbox, and its worker leaves. Answers the job that was there, once it isn't in work any
    /// more, whether it was done or not.
    pub fn close<R: Wait>(&self, rt: &R) -> Option<J> {
        self.place.lock(rt).close();
        self.changed.notify_all();
        self.wait_back(rt)
    }

    /// Does each job that is laid into the mailbox, until it is closed.
    pub fn serve<R: Wait, W: Work<J>>(&self, rt: &R, shared: &W) {
        for _ in rt.forever() {
            let Some(job) = self.wait_job(rt) else {
                return;
            };
            let job = done(rt, shared, job);
            self.place.lock(rt).put_back(job);
            self.changed.notify_all();
            shared.came_back(rt);
        }
    }

    // The next job for its worker. None once the mailbox is closed.
    fn wait_job<R: Wait>(&self, rt: &R) -> Option<J> {
        let mut place = self
            .changed
            .wait_while(rt, self.place.lock(rt), |place| place.is_idle());
        place.start()
    }
}

// The job once it was done.
fn done<J, R: Wait, W: Work<J>>(rt: &R, shared: &W, mut job: J) -> J
    ensures { W.keeps job result }
{
    shared.work(rt, &mut job);
    job
}
