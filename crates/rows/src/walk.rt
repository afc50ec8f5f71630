// The rows of a store, one after another.
ghost use Rattle.std.specs.Prelude.{◌≡◌, map};
ghost use Rattle.std.specs.Iterator.{YieldsFirst, item_count};
ghost use Rattle.rows.specs.Hashed.{slot_by};
ghost use Rattle.rows.specs.Slots.{rows_among};
ghost use Rattle.rows.specs.Walking.{YieldsRow, rows_by};

use crate::hashed::{HashedSlot, view_at};
use crate::key_order::Merge;
use crate::ordered::Slot;
use crate::view::RowView;
use model::Key;
use slab::Slab;
use std::collections::btree_map::Values;
use std::iter::FusedIterator;
use std::marker::Model;

/// The rows of a store, in key order. It takes no memory. A clause sees the list of the rows that
/// are left.
#[derive(Debug, Drop)]
pub struct Walk<'a> {
    left: Left<'a>,
}

// The slots that are left, or their numbers.
#[derive(Debug, Drop)]
pub(crate) enum Left<'a> {
    Slots(Values<'a, Key, Slot>),
    Numbers(Numbers<'a>),
}

// The numbers that are left, and the slots that have them.
#[derive(Debug, Drop)]
pub(crate) struct Numbers<'a> {
    numbers: Merge<'a>,
    slots: &'a Slab<HashedSlot>,
}

impl<'a> Model for Walk<'a> {
    ghost use Rattle.std.specs.Prelude.{List};
    ghost use Rattle.model.specs.declared.row.Row.{Row};

    ghost Value = { List Row };

    ghost use Rattle.rows.specs.Walking.{rows_left};

    ghost view = { λ w. rows_left w.left };
}

impl<'a> Walk<'a> {
    // Over the slots of a store.
    pub(crate) fn over(slots: Values<'a, Key, Slot>) -> Walk<'a>
        ensures { result ≡ rows_among slots.entry }
    {
        Walk {
            left: Left::Slots(slots),
        }
    }

    // Over the slots with these numbers.
    pub(crate) fn over_numbers(numbers: Merge<'a>, slots: &'a Slab<HashedSlot>) -> Walk<'a>
        ensures { result ≡ rows_among (map (slot_by slots.now) numbers.entry) }
    {
        Walk {
            left: Left::Numbers(Numbers { numbers, slots }),
        }
    }
}

impl<'a> Iterator for Walk<'a> {
    type Item = RowView<'a>;

    ghost next_gives = { YieldsFirst (λ rows. rows) };

    ghost remaining = { item_count (λ rows. rows) };

    fn next(&mut self) -> Option<RowView<'a>> {
        match &mut self.left {
            Left::Slots(slots) => next_row(slots),
            Left::Numbers(numbers) => numbers.next_row(),
        }
    }
}

impl<'a> FusedIterator for Walk<'a> {}

impl<'a> Numbers<'a> {
    // The row of the next number whose slot is filled.
    fn next_row(&mut self) -> Option<RowView<'a>>
        ensures { YieldsRow (rows_by self.old) result (rows_by self.new) }
    {
        next_numbered(&mut self.numbers, self.slots)
    }
}

// The row of the next slot that is filled.
fn next_row<'a>(slots: &mut Values<'a, Key, Slot>) -> Option<RowView<'a>>
    ensures { YieldsRow (rows_among slots.old) result (rows_among slots.new) }
{
    while let Some(slot) = slots.next() {
        if let Some(row) = slot.view() {
            return Some(row);
        }
    }
    None
}

// The row of the next number whose slot is filled.
fn next_numbered<'a>(numbers: &mut Merge<'a>, slots: &'a Slab<HashedSlot>) -> Option<RowView<'a>>
    ensures { YieldsRow (rows_among (map (slot_by slots.now) numbers.old)) result (rows_among (map (slot_by slots.now) numbers.new)) }
{
    while let Some(number) = numbers.next() {
        if let Some(row) = view_at(slots, Some(number)) {
            return Some(row);
        }
    }
    None
}
