// Both forms of a row store, by one run of changes and undos to marks. Tables have one form alone: the other
// is there so that the two can be compared.
use model::{KeptText, Key, OutOfMemory, Row, Value, ValueRef};
use rows::{HashedRows, OrderedRows, RowStore, RowView};
use std::alloc::Global;
use std::cmp::Ordering;
use std::test::Fail;
use testing::asserts::assert_holds;

/// A row of a number, a text of it, a truth and a null.
fn row(alloc: Global, number: i64) -> Result<Row, OutOfMemory> {
    let text = format!(in alloc; "row {number}")?;
    let mut values = Vec::new(alloc);
    values.push(Some(Value::Int(number)))?;
    values.push(Some(Value::Text(KeptText::from_str(alloc, text.as_str())?)))?;
    values.push(Some(Value::Bool(number % 2 == 0)))?;
    values.push(None)?;
    Row::from_values(values)
}

fn key(alloc: Global, number: i64) -> Result<Key, OutOfMemory> {
    Ok(Key::from_value(alloc, Value::Int(number))?)
}

/// A change of a store.
#[derive(Clone, Copy)]
enum Step {
    Put(i64),
    Remove(i64),
    Wipe,
}

/// What takes a change back.
#[derive(Drop)]
enum Undo<S: RowStore> {
    Take(Key),
    Restore(Key, Row),
    Unwipe(S),
}

const PUTS: usize = 2000;

const REMOVES: usize = 500;

/// How many changes lie between two marks.
const APART: usize = 100;

/// The changes: rows in an order that is not theirs, each fourth removed, and all emptied.
fn step_at(number: usize) -> Step {
    if number < PUTS {
        Step::Put((number * 7919 % PUTS) as i64)
    } else if number < PUTS + REMOVES {
        Step::Remove(((number - PUTS) * 4) as i64)
    } else {
        Step::Wipe
    }
}

/// How many rows there are after so many changes.
fn count_after(number: usize) -> usize {
    if number <= PUTS {
        number
    } else if number <= PUTS + REMOVES {
        PUTS + PUTS - number
    } else {
        0
    }
}

/// Makes a change, and tells what takes it back.
fn change<S: RowStore>(
    alloc: Global,
    store: &mut S,
    step: Step,
) -> Result<Option<Undo<S>>, OutOfMemory> {
    match step {
        Step::Put(number) => {
            let key = key(alloc, number)?;
            store.put(&key, row(alloc, number)?)?;
            Ok(Some(Undo::Take(key)))
        }
        Step::Remove(number) => {
            let key = key(alloc, number)?;
            Ok(store.take(&key).map(|row| Undo::Restore(key, row)))
        }
        Step::Wipe => Ok(Some(Undo::Unwipe(store.wipe()))),
    }
}

/// Makes all changes, and tells what takes each back.
fn run_changes<S: RowStore>(alloc: Global, store: &mut S) -> Result<Vec<Undo<S>>, OutOfMemory> {
    let mut undos = Vec::new(alloc);
    for number in 0..PUTS + REMOVES + 1 {
        if let Some(undo) = change(alloc, store, step_at(number))? {
            undos.push(undo)?;
        }
    }
    Ok(undos)
}

fn take_back<S: RowStore>(store: &mut S, undo: Undo<S>) {
    match undo {
        Undo::Take(key) => {
            let _ = store.take(&key);
        }
        Undo::Restore(key, row) => {
            if store.slot(&key).is_some() {
                store.restore(&key, row);
            }
        }
        Undo::Unwipe(rows) => *store = rows,
    }
}

/// Takes back all but so many changes, the newest first.
fn undo_to<S: RowStore>(store: &mut S, undos: &mut Vec<Undo<S>>, mark: usize) {
    for _ in 0..undos.len().saturating_sub(mark) {
        if let Some(undo) = undos.pop() {
            take_back(store, undo);
        }
    }
}

fn is_same_value(one: Option<ValueRef<'_>>, other: Option<ValueRef<'_>>) -> bool {
    match (one, other) {
        (None, None) => true,
        (Some(one), Some(other)) => one.compare(other) == Ordering::Equal,
        _ => false,
    }
}

fn is_same_row(one: &RowView<'_>, other: &RowView<'_>) -> bool {
    if one.len() != other.len() {
        return false;
    }
    for column in 0..one.len() {
        if !is_same_value(one.column(column), other.column(column)) {
            return false;
        }
    }
    true
}

/// Two stores have the same rows, so many.
fn are_alike<A: RowStore, B: RowStore>(one: &A, other: &B, count: usize) -> bool {
    let mut others = other.walk();
    let mut found = 0usize;
    for row in one.walk() {
        if !others.next().is_some_and(|other| is_same_row(&row, &other)) {
            return false;
        }
        found = found.saturating_add(1);
    }
    others.next().is_none() && found == count
}

/// A store, and what takes its changes back.
#[derive(Drop)]
struct Played<S: RowStore> {
    store: S,
    undos: Vec<Undo<S>>,
}

/// An empty store once all changes were made.
fn changed<S: RowStore>(alloc: Global, mut store: S) -> Result<Played<S>, OutOfMemory> {
    let undos = run_changes(alloc, &mut store)?;
    Ok(Played { store, undos })
}

/// At each mark they have the same rows.
fn undo_alike<A: RowStore, B: RowStore>(
    one: &mut Played<A>,
    other: &mut Played<B>,
) -> Result<(), Fail> {
    for back in 0..(PUTS + REMOVES) / APART + 1 {
        let mark = PUTS + REMOVES - back * APART;
        undo_to(&mut one.store, &mut one.undos, mark);
        undo_to(&mut other.store, &mut other.undos, mark);
        let is_alike = are_alike(&one.store, &other.store, count_after(mark));
        assert_holds(is_alike, mark)?;
    }
    Ok(())
}

#[test]
fn both_forms_undo_alike_to_each_mark(rt: HostRuntime) -> Result<(), Fail> {
    let mut ordered = changed(rt.alloc(), OrderedRows::new(rt.alloc()))?;
    let mut hashed = changed::<HashedRows>(rt.alloc(), HashedRows::new(rt.alloc()))?;
    let is_alike = are_alike(&ordered.store, &hashed.store, 0);
    let all = PUTS + REMOVES + 1;
    assert_holds(is_alike && ordered.undos.len() == all, "all changes")?;
    undo_alike(&mut ordered, &mut hashed)
}
