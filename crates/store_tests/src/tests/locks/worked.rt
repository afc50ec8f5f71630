// The worked calls: two open transactions over the rows 1, with the email a, and 2, with b.
ghost use Rattle.std.specs.Prelude.{◌≡◌};

use crate::tests::locks::stage::Stage;
use crate::tests::locks::table::{FIRST, put, put_first, remove, set_first, wipe_first};
use change::Clash;
use engine::{NotSettled, Stop};
use parted_store::{Line, Seen};
use std::process::Abort;
use std::sync::Wait;
use table_locks::{StoreNames, Ticket};

/// The two rows are committed. Answers what is seen.
fn begin<N: StoreNames, R: Abort + Wait>(stage: &mut Stage<'_, N, R>) -> Seen
    ensures { result.name ≡ N.line }
{
    let one = stage.got(put_first(stage.alloc, 1, "a"));
    let two = stage.got(put_first(stage.alloc, 2, "b"));
    let mut first = stage.open(1);
    stage.does(&mut first, 1, FIRST, &one);
    stage.does(&mut first, 1, FIRST, &two);
    stage.commits(first);
    stage.watch()
}

/// A row that one transaction has updated can't be deleted by another until the first commits.
pub(super) fn remove_behind_a_set<N: StoreNames, R: Abort + Wait>(
    mut stage: Stage<'_, N, R>,
) -> Line
    ensures { result.name ≡ N.line }
{
    let mut seen = begin(&mut stage);
    let set = stage.got(set_first(stage.alloc, 1));
    let gone = stage.got(remove(stage.alloc, FIRST, 1));
    let mut one = stage.open(700);
    let mut other = stage.open(900);
    stage.does(&mut one, 700, FIRST, &set);
    stage.waits(&mut other, FIRST, &gone, 700);
    stage.commits(one);
    stage.does(&mut other, 900, FIRST, &gone);
    stage.commits(other);
    stage.has_in(&mut seen, FIRST, &[2]);
    stage.into_line()
}

/// An update that found no row keeps others from inserting one there, until it is rolled back.
pub(super) fn look_up<N: StoreNames, R: Abort + Wait>(mut stage: Stage<'_, N, R>) -> Line
    ensures { result.name ≡ N.line }
{
    let mut seen = begin(&mut stage);
    let set = stage.got(set_first(stage.alloc, 7));
    let seven = stage.got(put(stage.alloc, FIRST, 7));
    let mut one = stage.open(700);
    let mut other = stage.open(900);
    stage.skips(&mut one, 711, FIRST, &set);
    stage.waits(&mut other, FIRST, &seven, 700);
    stage.goes_back(&mut one, 711);
    stage.does(&mut other, 900, FIRST, &seven);
    stage.commits(other);
    stage.commits(one);
    stage.has_in(&mut seen, FIRST, &[1, 2, 7]);
    stage.into_line()
}

/// What one transaction commits stays, whatever another that was open then rolls back and aborts.
pub(super) fn commit_beside<N: StoreNames, R: Abort + Wait>(mut stage: Stage<'_, N, R>) -> Line
    ensures { result.name ≡ N.line }
{
    let mut seen = begin(&mut stage);
    let three = stage.got(put(stage.alloc, FIRST, 3));
    let four = stage.got(put(stage.alloc, FIRST, 4));
    let five = stage.got(put(stage.alloc, FIRST, 5));
    let mut one = stage.open(700);
    let mut other = stage.open(900);
    stage.does(&mut one, 700, FIRST, &three);
    stage.does(&mut other, 900, FIRST, &four);
    stage.does(&mut one, 711, FIRST, &five);
    stage.commits(other);
    stage.goes_back(&mut one, 711);
    assert!(stage.rt; stage.is_live(FIRST, 3) && stage.is_live(FIRST, 4));
    assert!(stage.rt; !stage.is_live(FIRST, 5));
    stage.has_in(&mut seen, FIRST, &[1, 2, 4]);
    stage.aborts(one);
    assert!(stage.rt; !stage.is_live(FIRST, 3));
    stage.into_line()
}

/// A unique value that an update leaves as it was is not held, so another's insert of it clashes at once,
/// and stops the store.
pub(super) fn keep_a_value<N: StoreNames, R: Abort + Wait>(mut stage: Stage<'_, N, R>) -> Line
    ensures { result.name ≡ N.line }
{
    let mut seen = begin(&mut stage);
    let set = stage.got(set_first(stage.alloc, 1));
    let nine = stage.got(put_first(stage.alloc, 9, "a"));
    let mut one = stage.open(700);
    let mut other = stage.open(900);
    stage.does(&mut one, 700, FIRST, &set);
    stage.fails(&mut other, FIRST, &nine);
    stage.opens_not(901);
    let clash = Clash::Unique {
        table: FIRST,
        key: 1,
    };
    end_stopped(&mut stage, one, other, Stop::Clash(900, clash));
    stage.has_in(&mut seen, FIRST, &[1, 2]);
    stage.into_line()
}

/// Two transactions that each want the other's place both wait. Then nothing goes on, which stops the
/// store; before the second waits it may.
pub(super) fn wait_for_each_other<N: StoreNames, R: Abort + Wait>(
    mut stage: Stage<'_, N, R>,
) -> Line
    ensures { result.name ≡ N.line }
{
    let mut seen = begin(&mut stage);
    let three = stage.got(put(stage.alloc, FIRST, 3));
    let four = stage.got(put(stage.alloc, FIRST, 4));
    let mut one = stage.open(700);
    let mut other = stage.open(701);
    stage.does(&mut one, 700, FIRST, &three);
    stage.does(&mut other, 701, FIRST, &four);
    stage.waits(&mut one, FIRST, &four, 701);
    assert!(stage.rt; stage.stops_held(700, &[(701, 2)]) == Err(NotSettled));
    stage.waits(&mut other, FIRST, &three, 700);
    assert!(stage.rt; stage.stops_held(700, &[(701, 2)]) == Ok(701));
    end_stopped(&mut stage, one, other, Stop::Held(700, 701));
    stage.has_in(&mut seen, FIRST, &[1, 2]);
    stage.into_line()
}

/// While a truncate is open nobody inserts into its table, and its abort brings the rows back.
pub(super) fn empty_a_table<N: StoreNames, R: Abort + Wait>(mut stage: Stage<'_, N, R>) -> Line
    ensures { result.name ≡ N.line }
{
    let mut seen = begin(&mut stage);
    let wipe = stage.got(wipe_first(stage.alloc));
    let eight = stage.got(put(stage.alloc, FIRST, 8));
    let mut one = stage.open(700);
    let mut other = stage.open(900);
    stage.does(&mut one, 700, FIRST, &wipe);
    stage.waits(&mut other, FIRST, &eight, 700);
    stage.aborts(one);
    stage.aborts(other);
    stage.has_in(&mut seen, FIRST, &[1, 2]);
    stage.into_line()
}

/// Whoever has both tickets learns what stopped the store, and aborts them.
fn end_stopped<N: StoreNames, R: Abort + Wait>(
    stage: &mut Stage<'_, N, R>,
    one: Ticket<N>,
    other: Ticket<N>,
    stop: Stop,
) {
    let mut tickets = [one, other];
    let found = stage.meets(&mut tickets);
    assert!(stage.rt; found == Some(stop));
    for ticket in tickets {
        stage.aborts(ticket);
    }
}
