// What lies in a mailbox.
ghost use Rattle.std.specs.Prelude.{◌≡◌, false, true, IfErr, OnOk, OnErr, MatchOption};
ghost use Rattle.worker_threads.specs.MailboxState.{IsVacant, job_on, job_back, job_to_do, is_away, is_idle};
ghost use Rattle.worker_threads.specs.declared.state.JobState.TheVariants.{Empty, Given, Working, Back};

use std::mem;

/// Where the job of a mailbox is.
#[derive(Debug, Drop)]
pub enum JobState<J> {
    /// There is none.
    Empty,
    /// It lies in the mailbox and is to be done.
    Given(J),
    /// The worker has it.
    Working,
    /// It lies in the mailbox and was done.
    Back(J),
}

/// A mailbox's job, and whether the mailbox is closed. It may close while its worker has the job, so the one
/// stands beside the other.
#[derive(Debug, Drop)]
pub struct MailboxState<J> {
    pub slot: JobState<J>,
    pub closed: bool,
}

// A job is of a type that can't be dropped here, so one that is not laid in is handed back.
impl<J> MailboxState<J> {
    /// A job is laid into a mailbox that is open and has none.
    pub fn give(&mut self, job: J) -> Result<(), J>
        ensures free { OnOk result (IsVacant self.old) }
        ensures ok { OnOk result (self.new ≡ record self.old { slot = Given job }) }
        ensures taken { OnErr result (¬ IsVacant self.old) }
        ensures same { OnErr result (self.new ≡ self.old) }
        ensures back { IfErr result (λ handed. handed ≡ job) }
    {
        let (JobState::Empty, false) = (&self.slot, self.closed) else {
            return Err(job);
        };
        match mem::replace(&mut self.slot, JobState::Given(job)) {
            JobState::Empty | JobState::Working => Ok(()),
            JobState::Given(other) | JobState::Back(other) => Err(other),
        }
    }
}

impl<J: Drop> MailboxState<J> {
    /// The worker takes the job that is to be done. A closed mailbox starts none.
    pub fn start(&mut self) -> Option<J>
        ensures job { result ≡ job_to_do self.old }
        ensures place { MatchOption result (self.new ≡ self.old) (λ _. self.new ≡ record self.old { slot = Working }) }
    {
        if self.closed {
            return None;
        }
        match mem::replace(&mut self.slot, JobState::Working) {
            JobState::Given(job) => Some(job),
            other => {
                self.slot = other;
                None
            }
        }
    }

    /// The worker lays its job back.
    pub fn put_back(&mut self, job: J)
        ensures { self.new ≡ record self.old { slot = Back job } }
    {
        self.slot = JobState::Back(job);
    }

    /// The job is taken out of the mailbox if it was done.
    pub fn take_back(&mut self) -> Option<J>
        ensures job { result ≡ job_back self.old.slot }
        ensures place { MatchOption result (self.new ≡ self.old) (λ _. self.new ≡ record self.old { slot = Empty }) }
    {
        match mem::replace(&mut self.slot, JobState::Empty) {
            JobState::Back(job) => Some(job),
            other => {
                self.slot = other;
                None
            }
        }
    }

    /// The job is taken out of the mailbox, whether it was done or not.
    pub fn take_off(&mut self) -> Option<J>
        ensures job { result ≡ job_on self.old.slot }
        ensures place { MatchOption result (self.new ≡ self.old) (λ _. self.new ≡ record self.old { slot = Empty }) }
    {
        match mem::replace(&mut self.slot, JobState::Empty) {
            JobState::Given(job) | JobState::Back(job) => Some(job),
            other => {
                self.slot = other;
                None
            }
        }
    }

    /// The mailbox is closed for good.
    pub fn close(&mut self)
        ensures { self.new ≡ record self.old { closed = true } }
    {
        self.closed = true;
    }

    /// Whether whoever wants the job has to wait for its worker.
    pub fn is_away(&self) -> bool
        ensures { result ≡ is_away self.now.slot self.now.closed }
    {
        match &self.slot {
            JobState::Working => true,
            JobState::Given(_) => !self.closed,
            JobState::Empty | JobState::Back(_) => false,
        }
    }

    /// Whether the worker has to wait.
    pub fn is_idle(&self) -> bool
        ensures { result ≡ is_idle self.now.slot self.now.closed }
    {
        match &self.slot {
            JobState::Given(_) => false,
            _ => !self.closed,
        }
    }
}
