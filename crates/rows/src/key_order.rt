// The numbers of slots, in the order of their keys.
//
// Most keys come in order, each above all before it. They lie one behind another in a run, where a
// new one is a push; keys that come otherwise lie in a tree beside it. A key that leaves the run is
// struck: it stays there with no number, until half of the run was struck and the run is packed.
ghost use Rattle.std.specs.Prelude.{◌≡◌, ◌<◌, ◌≤◌, ◌^◌, ◌++◌, ◌∷◌, [], IsTrue, IfOk, IfSome, IfNone, OnOk, OnErr, None, Some, is_some, length};
ghost use Rattle.std.specs.BTreeMap.{is_at};
ghost use Rattle.std.specs.List.Sorted.{IsStrictlySortedBy};
ghost use Rattle.std.specs.Map.{keys_of, values_of, set_value};
ghost use Rattle.model.specs.Key.{key_cmp};
ghost use Rattle.rows.specs.Hashed.{number_for, Renumbers};
ghost use Rattle.rows.specs.Run.{live, IsFirstLive, IsRunNext, IsBesideNext, YieldsNumber};

use crate::store::SlotNumber;
use model::{Key, OutOfMemory};
use std::alloc::Global;
use std::collections::BTreeMap;
use std::collections::btree_map::Iter;
use std::marker::Model;

// More keys than numbers of 32 bits can name.
const MOST: usize = 1 << 62;

/// The numbers of slots by their keys. A clause sees the list of both, in key order.
#[derive(Debug, Drop)]
pub(crate) struct KeyOrder {
    // The keys that came in order, with their numbers. One that was struck has none.
    run: Vec<(Key, Option<SlotNumber>)>,
    // How many were struck since the run was packed.
    struck: usize,
    beside: BTreeMap<Key, SlotNumber>,
}

/// Numbers of slots, in the order of their keys. A clause sees the list of those that are left.
#[derive(Debug, Drop)]
pub(crate) struct Merge<'a> {
    run: &'a [(Key, Option<SlotNumber>)],
    // The first that is left of those beside the run, and the others.
    ahead: Option<(&'a Key, &'a SlotNumber)>,
    beside: Iter<'a, Key, SlotNumber>,
}

impl Model for KeyOrder {
    ghost use Rattle.std.specs.Prelude.{List, ℕ};
    ghost use Rattle.model.specs.declared.key.Key.{Key};
    ghost use Rattle.rows.specs.Run.{live, merged, IsInOrder};

    ghost Value = { List (Key × ℕ) };

    ghost view = { λ o. merged (live o.run.items) o.beside.entries };

    ghost invariant = { λ o. IsInOrder o.run.items o.beside.entries };
}

impl<'a> Model for Merge<'a> {
    ghost use Rattle.std.specs.Prelude.{List, ℕ};
    ghost use Rattle.rows.specs.Run.{numbers_left};

    ghost Value = { List ℕ };

    ghost view = { λ m. numbers_left m.run.now m.ahead m.beside };
}

impl KeyOrder {
    // No keys.
    pub(crate) fn new(alloc: Global) -> KeyOrder
        ensures { result ≡ [] }
    {
        KeyOrder {
            run: Vec::new(alloc),
            struck: 0,
            beside: BTreeMap::new(alloc),
        }
    }

    // A number for a key that has none. A refusal changes nothing.
    pub(crate) fn insert(&mut self, key: Key, number: SlotNumber) -> Result<(), OutOfMemory>
        requires { number_for self.old key ≡ None }
        ensures ok { OnOk result
            (Renumbers (number_for self.old) (number_for self.new) key (Some number)) }
        ensures err { OnErr result (self.new ≡ self.old) }
    {
        if self.run.len() >= MOST || self.beside.len() >= MOST {
            return Err(OutOfMemory);
        }
        if is_above(self.run.as_slice(), &key) {
            self.run.push((key, Some(number)))?;
        } else {
            self.beside.insert(key, number)?;
        }
        Ok(())
    }

    // No number for a key. It takes no memory.
    pub(crate) fn remove(&mut self, key: &Key)
        ensures { Renumbers (number_for self.old) (number_for self.new) key.now None }
    {
        if strike(&mut self.run, key) {
            self.note_struck();
        } else {
            self.beside.remove(key);
        }
    }

    // One more of the run was struck. Where half of it was, the run is packed.
    fn note_struck(&mut self)
        ensures { self.new ≡ self.old }
    {
        if self.struck < self.run.len() / 2 {
            self.struck += 1;
        } else {
            pack(&mut self.run);
            self.struck = 0;
        }
    }

    // The numbers, in the order of their keys. It takes no memory.
    pub(crate) fn numbers(&self) -> Merge<'_>
        ensures rest { result ≡ values_of self.now }
        ensures ordered { IsStrictlySortedBy key_cmp (keys_of self.now) }
        ensures fits { length result < 2 ^ 63 }
    {
        let mut beside = self.beside.iter();
        let ahead = beside.next();
        Merge {
            run: self.run.as_slice(),
            ahead,
            beside,
        }
    }

    // The same numbers by the same keys.
    pub(crate) fn copy(&self) -> Result<KeyOrder, OutOfMemory>
        ensures { IfOk result (λ copy. copy ≡ self.now) }
    {
        Ok(KeyOrder {
            run: self.run.clone()?,
            struck: self.struck,
            beside: self.beside.clone()?,
        })
    }
}

impl<'a> Merge<'a> {
    // The next number.
    pub(crate) fn next(&mut self) -> Option<SlotNumber>
        ensures { YieldsNumber self.old result self.new }
    {
        let run = skip_struck(self.run);
        match next_of_run(run, self.ahead) {
            Some((number, rest)) => {
                self.run = rest;
                Some(number)
            }
            None => {
                self.run = run;
                let (_, number) = self.ahead?;
                self.ahead = self.beside.next();
                Some(*number)
            }
        }
    }
}

// What is left of a run from the first key that was not struck.
fn skip_struck(run: &[(Key, Option<SlotNumber>)]) -> &[(Key, Option<SlotNumber>)]
    ensures same { live result.now ≡ live run.now }
    ensures first { IsFirstLive result.now }
{
    let mut rest = run;
    while let [(_, None), tail @ ..] = rest {
        rest = tail;
    }
    rest
}

// The first number of a run and what follows it there, unless a key beside the run comes first.
fn next_of_run<'a>(
    run: &'a [(Key, Option<SlotNumber>)],
    ahead: Option<(&Key, &SlotNumber)>,
) -> Option<(SlotNumber, &'a [(Key, Option<SlotNumber>)])>
    requires { IsFirstLive run.now }
    ensures run { IfSome result (λ first. IsRunNext run.now ahead.entry first.0 first.1.now) }
    ensures beside { IfNone result (IsBesideNext run.now ahead.entry) }
{
    let [(key, Some(number)), rest @ ..] = run else {
        return None;
    };
    match ahead {
        Some((other, _)) if other.cmp(key).is_lt() => None,
        _ => Some((*number, rest)),
    }
}

// Whether a key is above all of a run.
fn is_above(run: &[(Key, Option<SlotNumber>)], key: &Key) -> bool
    requires { IsStrictlySortedBy key_cmp (keys_of run.now) }
    ensures { IsTrue result → IsStrictlySortedBy key_cmp (keys_of run.now ++ key.now ∷ []) }
{
    match run.last() {
        Some((last, _)) => last.cmp(key).is_lt(),
        None => true,
    }
}

// No number for a key of a run. The answer is whether it had one.
fn strike(run: &mut Vec<(Key, Option<SlotNumber>)>, key: &Key) -> bool
    requires { IsStrictlySortedBy key_cmp (keys_of run.old.items) }
    ensures had { result ≡ is_some (number_for (live run.old.items) key.now) }
    ensures struck { run.new.items ≡ set_value (is_at (key_cmp key.now)) run.old.items None }
{
    match run.binary_search_by(|entry| entry.0.cmp(key)) {
        Ok(at) => run[at].1.take().is_some(),
        Err(_) => false,
    }
}

// The run without the keys that were struck.
fn pack(run: &mut Vec<(Key, Option<SlotNumber>)>)
    ensures same { live run.new.items ≡ live run.old.items }
    ensures ascends { IsStrictlySortedBy key_cmp (keys_of run.old.items)
        → IsStrictlySortedBy key_cmp (keys_of run.new.items) }
    ensures fits { length run.new.items ≤ length run.old.items }
{
    run.retain(|entry| entry.1.is_some());
}
