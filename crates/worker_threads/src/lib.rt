#![tactic(auto)]

// The threads of a run: one leader, and as many workers as a caller asks for.
//
// Each worker has a `Mailbox`. The leader lays a job into it, the worker does the job and lays it back, and
// the leader takes it again. `with_workers` starts a thread for each mailbox and lets the leader work
// meanwhile, on the thread that it was called on; whatever the leader answers, it then closes all
// mailboxes and waits until each thread has ended. What a job is, and what workers share, is the caller's
// (`Work`).
//
//   - The leader is told how many mailboxes have a worker, the first so many: each is counted by the
//     handle of its thread. A thread that can't be started makes it fewer, and the leader decides what
//     that means. In a mailbox without a worker a job would lie for ever.
//   - What the leader answered, and what it left of all that it could alter, comes out as if it had
//     been called alone.
//   - Of a job that comes back nothing is known but its type. Whoever has to know which one it is lets
//     it carry a number and compares it.
//
// Who waits for whom, and who wakes it, stands in docs/architecture.md. A thread ends if each job
// that is in work does, and `with_workers` returns if the leader does. What a job waits for while it
// is in work is the caller's: before the leader returns it must see to it that no job waits for the
// leader any more.
//
// No clause says that a thread ends or that a job comes back. With the loop that closes the mailboxes left
// out, all would still be proved, and a run would hang: for that stand that table and tests.
//
//   mailbox    `Mailbox`, `make_mailboxes`
//   workers    `Work`, `with_workers`
//   serving    how many workers were started
//   state      what lies in a mailbox
//
//   specs/MailboxState      what lies in a mailbox, and who waits there
//
// It stands on `model` for `OutOfMemory`.
mod mailbox;
mod serving;
mod state;
mod workers;

pub use mailbox::{Mailbox, make_mailboxes};
pub use workers::{Work, with_workers};
