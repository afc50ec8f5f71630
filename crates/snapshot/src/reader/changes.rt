// The commits behind those that a reader's caller has.
ghost use Rattle.std.specs.Prelude.{◌≡◌, ◌++◌, IfErr, OnOk, drop, map};
ghost use Rattle.world.specs.World.{entry_of};
ghost use Rattle.snapshot.specs.declared.fault.ReadFault.TheVariants.{OutOfMemory};
ghost use Rattle.snapshot.specs.Reads.{commits_seen, SeesMore};

use crate::fault::ReadFault;
use crate::reader::Reader;
use crate::taking::{TakeEntries, give_behind};
use std::sync::Wait;
use table_locks::StoreNames;

impl<'a, N: StoreNames> Reader<'a, N> {
    /// Gives the entries behind the first so many commits, in order, while the journal is locked: each
    /// with its changes that survived, and where its commit ends. Where memory is refused, it may have
    /// given some of them.
    pub fn changes_after<R: Wait, T: TakeEntries>(
        &mut self,
        rt: &R,
        commits: usize,
        into: &mut T,
    ) -> Result<(), ReadFault>
        ensures taken { OnOk result (T.taken into.new ≡ T.taken into.old ++ drop commits (map entry_of (commits_seen self.new))) }
        ensures seen { OnOk result (SeesMore self.old self.new) }
        ensures refused { IfErr result (λ fault. (fault ≡ OutOfMemory) × (self.new ≡ self.old)) }
        ensures published { self.new.published ≡ self.old.published }
    {
        let mut journal = self.store.lock_journal(rt);
        give_behind(journal.entries(), commits, into)?;
        journal.look(&mut self.seen);
        Ok(())
    }
}
