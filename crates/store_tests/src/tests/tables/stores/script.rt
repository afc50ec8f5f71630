// Calls of a store as a table of steps, each with what comes of it.
use super::scene::{Deed, Scene, WORKED, commit_info};
use crate::tests::asserts::{assert_holds, assert_same};
use crate::tests::tables::calls::Call;
use change::Clash;
use engine::{Acted, EngineFault, Entry, Stop};
use model::Xid;
use std::alloc::Global;
use std::process::Abort;
use std::test::Fail;

/// A transaction does something, by its own number or by that of a subtransaction.
#[derive(Clone, Copy, Debug)]
pub(super) enum Step {
    Opens(Xid),
    /// It doesn't open, for this fault.
    OpensNot(Xid, EngineFault),
    /// Its change is done.
    Does(Xid, Xid, Call),
    /// Its change finds no row.
    Skips(Xid, Xid, Call),
    /// Its change waits for the transaction that is named last.
    Waits(Xid, Xid, Call, Xid),
    /// Its change clashes, and stops the store.
    Clashes(Xid, Xid, Call, Clash),
    /// Its change is refused, since the store is stopped.
    DoesNot(Xid, Xid, Call),
    /// It sets none, since the store is stopped.
    TouchesNot(Xid, Xid),
    /// It goes back to a savepoint.
    GoesBack(Xid, Xid),
    /// It commits, and then these accounts are committed.
    Commits(Xid, &'static str),
    Aborts(Xid),
}

impl Step {
    /// What is called, and what that has to answer.
    fn call(&self) -> (Deed, Result<Acted, EngineFault>) {
        let done = Ok(Acted::Done);
        let stopped = Err(EngineFault::Stopped);
        match *self {
            Step::Opens(xid) => (Deed::Open(xid), done),
            Step::OpensNot(xid, fault) => (Deed::Open(xid), Err(fault)),
            Step::Does(xid, sub, call) => (Deed::Act(xid, sub, call), done),
            Step::Skips(xid, sub, call) => (Deed::Act(xid, sub, call), Ok(Acted::Skipped)),
            Step::Waits(xid, sub, call, holder) => {
                (Deed::Act(xid, sub, call), Ok(Acted::Held(holder)))
            }
            Step::Clashes(xid, sub, call, clash) => {
                (Deed::Act(xid, sub, call), Err(EngineFault::Clash(clash)))
            }
            Step::DoesNot(xid, sub, call) => (Deed::Act(xid, sub, call), stopped),
            Step::TouchesNot(xid, sub) => (Deed::Touch(xid, sub), stopped),
            Step::GoesBack(xid, sub) => (Deed::BackTo(xid, sub), done),
            Step::Commits(xid, _) => (Deed::Commit(xid), done),
            Step::Aborts(xid) => (Deed::Abort(xid), done),
        }
    }
}

/// What a store shows, until a step says otherwise.
#[derive(Drop)]
pub(super) struct Shown {
    pub(super) accounts: &'static str,
    pub(super) entries: usize,
    last: Option<Xid>,
    stop: Option<Stop>,
}

impl Shown {
    fn follow(&mut self, step: &Step) {
        match *step {
            Step::Clashes(xid, _, _, clash) => self.stop = Some(Stop::Clash(xid, clash)),
            Step::Commits(xid, accounts) => {
                self.accounts = accounts;
                self.entries = self.entries.saturating_add(1);
                self.last = Some(xid);
            }
            _ => {}
        }
    }

    /// The last entry is that of the last commit, at its place in the log.
    fn is_last(&self, entry: Option<&Entry>) -> bool {
        match (entry, self.last) {
            (None, None) => true,
            (Some(entry), Some(xid)) => {
                let info = commit_info(self.entries.saturating_sub(1));
                entry.xid == xid && entry.commit == info.commit && entry.end == info.end
            }
            _ => false,
        }
    }
}

/// Makes a step's call, which answers as it says.
fn take(rt: &impl Abort, alloc: Global, scene: &mut Scene, step: &Step) {
    let (deed, wanted) = step.call();
    let answer = scene.make(rt, alloc, &deed);
    assert_same(rt, answer, wanted, step);
}

/// The committed accounts, the journal and what stopped the store.
fn look(
    rt: &impl Abort,
    alloc: Global,
    scene: &Scene,
    shown: &Shown,
    step: &Step,
) -> Result<(), Fail> {
    let accounts = scene.accounts(rt, alloc)?;
    assert_same(rt, accounts.as_str(), shown.accounts, step);
    assert_same(rt, scene.stop(), shown.stop, step);
    let journal = scene.store.journal();
    assert_same(rt, journal.len(), shown.entries, step);
    assert_holds(rt, shown.is_last(journal.last()), step);
    Ok(())
}

/// Plays steps on a worked store. After each it shows the rows of the last commit, an entry for each
/// commit, and what stopped it.
pub(super) fn play_on(
    rt: &impl Abort,
    alloc: Global,
    scene: &mut Scene,
    steps: &[Step],
) -> Result<Shown, Fail> {
    let mut shown = Shown {
        accounts: WORKED,
        entries: 0,
        last: None,
        stop: None,
    };
    for step in steps {
        take(rt, alloc, scene, step);
        shown.follow(step);
        look(rt, alloc, scene, &shown, step)?;
    }
    Ok(shown)
}

/// Plays steps on a store over two accounts, with these transactions open. In the end none is open, and
/// the tables have the rows of the last commit.
pub(super) fn play(
    rt: &impl Abort,
    alloc: Global,
    xids: &[Xid],
    steps: &[Step],
) -> Result<(), Fail> {
    let mut scene = Scene::worked(rt, alloc, xids)?;
    let shown = play_on(rt, alloc, &mut scene, steps)?;
    scene.ends_with(rt, alloc, shown.accounts, shown.entries)
}
