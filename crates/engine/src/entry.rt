// A committed transaction, as the journal has it.
ghost use Rattle.std.specs.Prelude.{◌≡◌, ◌<◌, ◌^◌, List, ◌∷◌, [], MatchOption, option_map, length, slice_get};
ghost use Rattle.std.specs.Coded.{coded_list};
ghost use Rattle.std.specs.Iterator.{YieldsFirstRef, item_count};
ghost use Rattle.model.specs.declared.change.Change.{Change as AnyChange};
ghost use Rattle.model.specs.contracts.change.Change as change_type;
ghost use Rattle.model.specs.Survivors.{changes_of};

use model::{Change, CommitInfo, Item, Lsn, Xid};
use std::alloc::Global;
use std::iter::FusedIterator;
use std::marker::Model;
use undo::UndoLog;

/// The changes of a committed transaction that survived its rollbacks, in order, skipped ones too.
/// They lie in the transaction's own list of items: nothing is copied at a commit.
#[derive(Debug, Drop)]
pub struct Changes {
    items: Vec<Item>,
}

impl Model for Changes {
    ghost Value = { List AnyChange };

    ghost coded = { coded_list change_type.the_row.coded };

    ghost view = { λ c. changes_of c.items.items };
}

impl Changes {
    /// The changes among these items.
    pub fn of_items(items: Vec<Item>) -> Changes
        ensures { result ≡ changes_of items.items }
    {
        Changes { items }
    }

    /// How many there are. It takes no memory.
    pub fn len(&self) -> usize
        ensures { result ≡ length self.now }
    {
        let mut count = 0;
        for _change in self.iter() {
            count += 1;
        }
        count
    }

    /// The one at this address, from 0. It takes no memory.
    pub fn get(&self, index: usize) -> Option<&Change>
        ensures { option_map (λ c. c.now) result ≡ slice_get self.now index }
    {
        let mut before = index;
        for change in self.iter() {
            if before == 0 {
                return Some(change);
            }
            before -= 1;
        }
        None
    }

    /// Each of them, in order. It takes no memory.
    pub fn iter(&self) -> ChangesIter<'_>
        ensures changes { result ≡ self.now }
        ensures fits { length result < 2 ^ 63 }
    {
        ChangesIter {
            items: self.items.as_slice(),
        }
    }
}

/// The changes of an entry, in order. It takes no memory. A clause sees the list of those that are
/// left.
#[derive(Debug, Drop)]
pub struct ChangesIter<'a> {
    items: &'a [Item],
}

impl<'a> Model for ChangesIter<'a> {
    ghost Value = { List AnyChange };

    ghost view = { λ i. changes_of i.items.now };
}

impl<'a> Iterator for ChangesIter<'a> {
    type Item = &'a Change;

    ghost next_gives = { YieldsFirstRef (λ changes. changes) };

    ghost remaining = { item_count (λ changes. changes) };

    fn next(&mut self) -> Option<&'a Change> {
        let (change, rest) = first_change(self.items)?;
        self.items = rest;
        Some(change)
    }
}

impl<'a> FusedIterator for ChangesIter<'a> {}

// The first change among items, and the items behind it.
fn first_change(items: &[Item]) -> Option<(&Change, &[Item])>
    ensures { MatchOption result (changes_of items.now ≡ []) (λ found. changes_of items.now ≡ found.0.now ∷ changes_of found.1.now) }
{
    let mut left = items;
    while let [item, rest @ ..] = left {
        if let Item::Change { change, .. } = item {
            return Some((change, rest));
        }
        left = rest;
    }
    None
}

/// A committed transaction.
#[derive(Debug, Drop)]
pub struct Entry {
    pub xid: Xid,
    /// Its changes that survived its rollbacks, in order, skipped ones too.
    pub changes: Changes,
    /// Where its commit stands in the publisher's log.
    pub commit: Lsn,
    /// Where the log goes on behind it.
    pub end: Lsn,
    /// What stood before its changes. It can be read alone: the room to put it back is given up.
    pub(crate) inverses: UndoLog,
}

impl Entry {
    /// One that keeps nothing of what stood before its changes. It takes no memory.
    pub fn new(alloc: Global, xid: Xid, changes: Changes, info: CommitInfo) -> Entry
        ensures xid { result.xid ≡ xid }
        ensures changes { result.changes ≡ changes }
        ensures place { (result.commit ≡ info.commit) × (result.end ≡ info.end) }
    {
        Entry {
            xid,
            changes,
            commit: info.commit,
            end: info.end,
            inverses: UndoLog::new(alloc),
        }
    }
}
