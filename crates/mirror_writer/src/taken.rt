// Commits that were taken from a run.
ghost use Rattle.std.specs.Prelude.{◌≡◌, ◌++◌, [], IfOk, OnOk};

use engine::{Changes, Entry};
use mirror_statements::Commit;
use model::{Change, OutOfMemory};
use snapshot::TakeEntries;
use std::alloc::Global;

/// Commits that were taken from a run, as copies.
#[derive(Debug, Drop)]
pub struct Taken {
    pub commits: Vec<Commit>,
}

impl Taken {
    /// None yet.
    pub fn new(alloc: Global) -> Taken
        ensures { result.commits.items ≡ [] }
    {
        Taken {
            commits: Vec::new(alloc),
        }
    }
}

impl TakeEntries for Taken {
    ghost taken = { λ t. t.commits.items };

    fn take(&mut self, entry: &Entry) -> Result<(), OutOfMemory> {
        let alloc = *self.commits.allocator();
        let changes = copy_changes(alloc, &entry.changes)?;
        self.commits.push(Commit {
            xid: entry.xid,
            changes,
            commit: entry.commit,
            end: entry.end,
        })?;
        Ok(())
    }
}

// The same changes.
fn copy_changes(alloc: Global, changes: &Changes) -> Result<Vec<Change>, OutOfMemory>
    ensures { IfOk result (λ copy. copy.items ≡ changes.now) }
{
    let mut copy = Vec::new(alloc);
    for change in changes.iter() {
        copy.push(change.copy()?)?;
    }
    Ok(copy)
}
