// Locks of several tables, taken in the catalog's order, and the parts from under them.
ghost use Rattle.std.specs.Prelude.{◌≡◌, ◌<◌, ◌≤◌, ℕ, true, Some, [], length, vec_capacity};
ghost use Rattle.table_locks.specs.TableStates.{TableState, Fits};
ghost use Rattle.table_locks.specs.Lending.{state_of, state_at, AreEmpty, AreMet, FitEach, AreLent, LendsOne};
ghost use Rattle.table_locks.specs.Tickets.{HasRoom, IsTicket, IsTicketOf};
ghost use Rattle.table_locks.specs.declared.ticket.Waits.{Waits as AnyWaits};

use crate::names::StoreNames;
use crate::store::Store;
use crate::table_part::TablePart;
use model::TableId;
use parted_store::{BoxedPart, meet_each};
use std::array;
use std::sync::{MutexGuard, Wait};

/// As many tables as a catalog may have: so many guards a call has room for.
pub(crate) const MOST_TABLES: usize = 1024;

/// Over a catalog of so many tables or fewer a call has less room, of which less is cleared each time.
pub(crate) const FEW_TABLES: usize = 8;

/// Which tables a call needs.
pub(crate) trait Needs {
    ghost use Rattle.std.specs.Prelude.{◌≡◌, ℕ, Bool};

    ghost needs: { Self → ℕ → Bool };

    /// Whether it needs this one.
    fn needs_table(&self, table: TableId) -> bool
        ensures { result ≡ needs self.now table };
}

/// The tables in which a transaction did something.
impl Needs for parted_store::Ticket {
    ghost use Rattle.std.specs.Prelude.{is_some};
    ghost use Rattle.parted_store.specs.Shares.{share_of};

    ghost needs = { λ t table. is_some (share_of t.shares table) };

    fn needs_table(&self, table: TableId) -> bool {
        self.has_share(table)
    }
}

/// Room for guards, on the stack.
pub(crate) fn no_guards<'a, N: StoreNames>(
    store: &'a Store<N>,
) -> [Option<MutexGuard<'a, TablePart<N>>>; MOST_TABLES] {
    array::from_fn(|_| no_guard(store))
}

/// The same where few tables are all.
pub(crate) fn no_guards_of_few<'a, N: StoreNames>(
    store: &'a Store<N>,
) -> [Option<MutexGuard<'a, TablePart<N>>>; FEW_TABLES] {
    array::from_fn(|_| no_guard(store))
}

// No guard of these locks.
fn no_guard<'a, N: StoreNames>(store: &'a Store<N>) -> Option<MutexGuard<'a, TablePart<N>>> {
    let _ = store;
    None
}

/// Locks the tables that are needed, in the catalog's order, and takes the part out from under each
/// lock.
pub(crate) fn lend_each<'a, N: StoreNames, D: Needs, R: Wait>(
    rt: &R,
    store: &'a Store<N>,
    needed: &D,
    guards: &mut [Option<MutexGuard<'a, TablePart<N>>>],
    lent: &mut Vec<BoxedPart>,
)
    requires none { lent.old.items ≡ [] }
    requires guards { length N.schema ≤ length guards.old }
    requires room { (table : ℕ) → table < length N.schema → D.needs needed.now table ≡ true → length N.schema ≤ vec_capacity lent.old }
    ensures lent { AreLent N.shares N.tables N.schema N.start (D.needs needed.now) (length N.schema) guards.new lent.new.items }
    ensures capacity { vec_capacity lent.new ≡ vec_capacity lent.old }
{
    for table in 0..store.tables.len() {
        if needed.needs_table(table) {
            lend(rt, store, table, guards, lent);
        }
    }
}

/// The same for the tables in which a transaction did something. In each part it has done just what
/// its share tells.
pub(crate) fn lend_its<'a, N: StoreNames, R: Wait>(
    rt: &R,
    store: &'a Store<N>,
    ticket: &mut parted_store::Ticket,
    guards: &mut [Option<MutexGuard<'a, TablePart<N>>>],
    lent: &mut Vec<BoxedPart>,
)
    requires ticket { IsTicketOf N.shares N.schema ticket.old }
    requires none { lent.old.items ≡ [] }
    requires guards { length N.schema ≤ length guards.old }
    requires room { HasRoom (length N.schema) ticket.old (vec_capacity lent.old) }
    ensures fit { FitEach N.shares N.tables N.schema N.start guards.new lent.new.items }
    ensures empty { AreEmpty guards.new (length lent.new.items) }
    ensures met { AreMet N.shares N.schema N.start ticket.new.shares lent.new.items }
    ensures ticket { (waits : AnyWaits) → IsTicket N.shares N.schema waits ticket.old → IsTicket N.shares N.schema waits ticket.new }
    ensures room { HasRoom (length N.schema) ticket.new (vec_capacity lent.new) }
    ensures events { ticket.new.events ≡ ticket.old.events }
    ensures xid { ticket.new.number ≡ ticket.old.number }
{
    lend_each(rt, store, ticket, guards, lent);
    meet_each(lent.as_mut_slice(), ticket);
}

// Locks a table and takes its part out, as the last of them.
fn lend<'a, N: StoreNames, R: Wait>(
    rt: &R,
    store: &'a Store<N>,
    table: TableId,
    guards: &mut [Option<MutexGuard<'a, TablePart<N>>>],
    lent: &mut Vec<BoxedPart>,
)
    requires known { table < length N.schema }
    requires guards { length lent.old.items < length guards.old }
    requires room { length lent.old.items < vec_capacity lent.old }
    ensures lent { LendsOne N.shares N.tables N.schema N.start table lent.old.items guards.new lent.new.items }
    ensures others { (i : ℕ) → i < length lent.old.items → state_at guards.new i ≡ state_at guards.old i }
    ensures long { length guards.new ≡ length guards.old }
    ensures capacity { vec_capacity lent.new ≡ vec_capacity lent.old }
{
    let place = lent.len();
    let mut guard = store.lock_table(rt, table);
    lent.push_reserved(guard.take(rt));
    guards[place] = Some(guard);
}

/// Puts each part back under its lock.
pub(crate) fn put_each<N: StoreNames>(
    guards: &mut [Option<MutexGuard<'_, TablePart<N>>>],
    lent: &mut Vec<BoxedPart>,
)
    requires { FitEach N.shares N.tables N.schema N.start guards.old lent.old.items }
    ensures none { lent.new.items ≡ [] }
    ensures capacity { vec_capacity lent.new ≡ vec_capacity lent.old }
{
    while let Some(part) = lent.pop() {
        put(&mut guards[lent.len()], part);
    }
}

// Puts a part back under the lock of this guard.
fn put<N: StoreNames>(place: &mut Option<MutexGuard<'_, TablePart<N>>>, part: BoxedPart)
    requires { (s : TableState) × (state_of place.old ≡ Some s) × Fits N.shares N.tables N.schema N.start s part }
{
    let Some(mut guard) = place.take() else {
        unreachable!()
    };
    guard.put(part);
    *place = Some(guard);
}
