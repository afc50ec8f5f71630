// A store in which all wait is stopped.
ghost use Rattle.std.specs.Prelude.{◌≡◌, ◌<◌, ◌≤◌, ℕ, IsSome, length};
ghost use Rattle.table_locks.specs.Lending.{state_of};
ghost use Rattle.table_locks.specs.Reading.{IsLockedAt};

use crate::journal::Journal;
use crate::locks::{no_guards, no_guards_of_few};
use crate::names::StoreNames;
use crate::store::Store;
use crate::stuck::is_sent_count;
use crate::table_part::TablePart;
use engine::NotSettled;
use live_tables::Stopped;
use model::Xid;
use parted_store::{BoxedPart, Line};
use std::sync::{MutexGuard, Wait};

impl<N: StoreNames> Store<N> {
    /// Stops the store by a transaction that the waiter waits for, where no more can come that would
    /// let it go: each open transaction has done as many items as were sent to it, or waits. Else
    /// nothing changes. It takes the locks of all tables and the journal's, and no memory.
    ///
    /// Tickets may be in other hands meanwhile. So it counts items by what lies under the locks: how
    /// many the parts count, and how many the journal counts beside these.
    pub fn stop_held<R: Wait>(
        &self,
        rt: &R,
        line: &Line,
        waiter: Xid,
        sent: &[(Xid, u64)],
    ) -> Result<Xid, NotSettled>
        requires { line.now.name ≡ N.line }
    {
        let _ = line;
        if self.has_few_tables() {
            let mut guards = no_guards_of_few(self);
            self.stop_with(rt, &mut guards, waiter, sent)
        } else {
            let mut guards = no_guards(self);
            self.stop_with(rt, &mut guards, waiter, sent)
        }
    }

    // With the places in which its guards are to lie.
    fn stop_with<'a, R: Wait>(
        &'a self,
        rt: &R,
        guards: &mut [Option<MutexGuard<'a, TablePart<N>>>],
        waiter: Xid,
        sent: &[(Xid, u64)],
    ) -> Result<Xid, NotSettled>
        requires { length N.schema ≤ length guards.old }
    {
        self.lock_all(rt, guards);
        let mut journal = self.journal.lock(rt);
        let Some(holder) = find_holder(rt, guards, waiter) else {
            return Err(NotSettled);
        };
        if !journal.is_settled(rt, guards, sent) {
            return Err(NotSettled);
        }
        for table in 0..self.tables.len() {
            stop_table(rt, &mut guards[table], waiter, holder);
        }
        journal.part.stop_by_hold(waiter, holder);
        journal.count_move();
        self.moved.notify_all();
        Ok(holder)
    }
}

impl<N: StoreNames> Journal<N> {
    // Whether each open transaction has done as many items as were sent to it, or waits in one of
    // the parts from under the locks of these guards.
    fn is_settled<R: Wait>(
        &self,
        rt: &R,
        guards: &[Option<MutexGuard<'_, TablePart<N>>>],
        sent: &[(Xid, u64)],
    ) -> bool {
        for (xid, uncounted) in &self.uncounted {
            let done = count_under(rt, guards, *xid).wrapping_add(*uncounted);
            if !is_sent_count(sent, *xid, done) && find_holder(rt, guards, *xid).is_none() {
                return false;
            }
        }
        true
    }
}

// Whom a transaction waits for in one of the parts. Behind the last guard there is none.
fn find_holder<N: StoreNames, R: Wait>(
    rt: &R,
    guards: &[Option<MutexGuard<'_, TablePart<N>>>],
    xid: Xid,
) -> Option<Xid> {
    for place in guards {
        let holder = place.as_ref()?.as_part(rt).waiting_for(xid);
        if holder.is_some() {
            return holder;
        }
    }
    None
}

// How many items the parts count of a transaction, all together. It wraps.
fn count_under<N: StoreNames, R: Wait>(
    rt: &R,
    guards: &[Option<MutexGuard<'_, TablePart<N>>>],
    xid: Xid,
) -> u64 {
    let mut count = 0u64;
    for place in guards {
        let Some(guard) = place else {
            return count;
        };
        count = count.wrapping_add(guard.as_part(rt).done_by(xid));
    }
    count
}

/// How many items the parts that are lent count of a transaction, all together. It wraps.
pub(crate) fn count_in(lent: &[BoxedPart], xid: Xid) -> u64 {
    let mut count = 0u64;
    for part in lent {
        count = count.wrapping_add(part.as_part().done_by(xid));
    }
    count
}

// The table under the lock of this guard knows that the store is stopped.
fn stop_table<N: StoreNames, R: Wait>(
    rt: &R,
    place: &mut Option<MutexGuard<'_, TablePart<N>>>,
    waiter: Xid,
    holder: Xid,
)
    requires { IsSome (state_of place.old) }
    ensures { IsSome (state_of place.new) }
{
    let Some(mut guard) = place.take() else {
        unreachable!()
    };
    let part = guard.take(rt);
    guard.stop(Stopped::Held { waiter, holder });
    guard.put(part);
    *place = Some(guard);
}
