// How many cells each transaction holds in each table.
ghost use Rattle.std.specs.Prelude.{◌≡◌, ◌≢◌, ℕ, ◌+◌, ◌-◌, ◌<◌, OnOk, OnErr, IfSome, IfNone, Some};
ghost use Rattle.std.specs.BTreeMap.{get, Updates};
ghost use Rattle.keyholds.specs.Counts.{pair_cmp, count_in, SetsCount, SameCounts};

use crate::Xid;
use model::{OutOfMemory, TableId};
use std::alloc::Global;
use std::collections::BTreeMap;
use std::ops::Bound;

/// The counts that aren't 0. A transaction with no cell in a table has no entry for it.
#[derive(Debug, Drop)]
pub(crate) struct Counts {
    pub(crate) counts: BTreeMap<(TableId, Xid), usize>,
    ghost counted: { (key : ℕ × ℕ) → get pair_cmp counts key ≢ Some 0 },
}

impl Counts {
    /// No cells.
    pub(crate) fn new(alloc: Global) -> Counts
        ensures { (table xid : ℕ) → count_in result.counts table xid ≡ 0 }
    {
        Counts {
            counts: BTreeMap::new(alloc),
        }
    }

    /// One cell more. Refused for memory, no count changes.
    pub(crate) fn add(&mut self, table: TableId, xid: Xid) -> Result<(), OutOfMemory>
        requires { count_in self.old.counts table xid < usize.MAX }
        ensures ok { OnOk result (SetsCount table xid (count_in self.old.counts table xid + 1) self.old.counts self.new.counts) }
        ensures err { OnErr result (SameCounts self.old.counts self.new.counts) }
    {
        let key = (table, xid);
        let count = self.counts.get(&key).copied().unwrap_or(0);
        if count > 0 {
            set_count(&mut self.counts, &key, count + 1);
        } else {
            self.counts.insert(key, 1)?;
        }
        Ok(())
    }

    /// One cell less.
    pub(crate) fn remove_one(&mut self, table: TableId, xid: Xid)
        ensures { SetsCount table xid (count_in self.old.counts table xid - 1) self.old.counts self.new.counts }
    {
        let key = (table, xid);
        let count = self.counts.get(&key).copied().unwrap_or(0);
        if count > 1 {
            set_count(&mut self.counts, &key, count - 1);
        } else {
            self.counts.remove(&key);
        }
    }

    /// How many cells of a table a transaction holds.
    pub(crate) fn count(&self, table: TableId, xid: Xid) -> usize
        ensures { result ≡ count_in self.now.counts table xid }
    {
        self.counts.get(&(table, xid)).copied().unwrap_or(0)
    }

    /// Another transaction with a cell in the table, if there is one.
    pub(crate) fn other(&self, table: TableId, xid: Xid) -> Option<Xid>
        ensures found { IfSome result (λ other. (other ≢ xid) × (0 < count_in self.now.counts table other)) }
        ensures none { IfNone result ((other : ℕ) → other ≢ xid → count_in self.now.counts table other ≡ 0) }
    {
        if let Some(((_, other), _)) = self.counts.range((table, 0)..(table, xid)).next() {
            return Some(*other);
        }
        let behind = (Bound::Excluded((table, xid)), Bound::Unbounded);
        match self.counts.range(behind).next() {
            Some(((found, other), _)) if *found == table => Some(*other),
            _ => None,
        }
    }
}

// Writes a count that is there.
fn set_count(counts: &mut BTreeMap<(TableId, Xid), usize>, key: &(TableId, Xid), count: usize)
    requires { 0 < count_in counts.old key.now.0 key.now.1 }
    ensures { Updates pair_cmp counts.old counts.new key.now (Some count) }
{
    if let Some(found) = counts.get_mut(key) {
        *found = count;
    }
}
