// Many lists under one name, and a slip for each that is open.
ghost use Rattle.std.specs.Prelude.{◌≡◌, [], ◌∷◌, ◌++◌, Some, None, IfOk};
ghost use Rattle.std.specs.FinMap as map;
ghost use Rattle.tokens.specs.Lists.{open_list, with_list, without_list};

use crate::items::Items;
use atomic_table::{Badge, Join, Play, Seat, Split, Table, TableRule};
use model::OutOfMemory;
use std::alloc::Global;
use std::collections::LinkedList;
use std::marker::{Brand, Model, PhantomData};
use std::{fmt, mem};

// Each open number's list, for proofs alone.
struct Lists<X> {
    of: PhantomData<X>,
}

impl<X> Model for Lists<X> {
    ghost use Rattle.std.specs.FinMap as map;
    ghost use Rattle.tokens.specs.Lists.{ListMap, list_map_code};

    ghost Value = { ListMap X };

    ghost coded = { list_map_code X.code };

    ghost view = { λ _. map.empty };
}

// What a seat knows. No value of it is made.
struct Row<X> {
    kept: Option<Lists<X>>,
    held: Option<(u32, LinkedList<X>)>,
}

struct ManyLists;

impl<X> TableRule<(), Row<X>, ()> for ManyLists {
    ghost use Rattle.std.specs.FinMap as map;
    ghost use Rattle.tokens.specs.ManyLists.{IsManyLists, book_row};

    ghost holds = { λ _. IsManyLists };

    ghost first = { λ _. book_row map.empty };
}

/// The lists of all open numbers, as one value. It lies with the data, mostly under their lock.
pub struct Book<X> {
    table: Table<(), Row<X>, (), ManyLists, Global>,
    seat: Seat<(), Row<X>>,
}

impl<X> fmt::Debug for Book<X> {
    fn fmt<W: fmt::Write>(&self, f: &mut fmt::Formatter<W>) -> fmt::Result {
        f.debug_struct("Book").finish_non_exhaustive()
    }
}

impl<X> Model for Book<X> {
    ghost use Rattle.tokens.specs.Lists.{OpenLists, open_lists, open_lists_code};
    ghost use Rattle.tokens.specs.ManyLists.{IsBook, lists_in};

    ghost Value = { OpenLists X };

    ghost coded = { open_lists_code X.code };

    ghost view = { λ s. open_lists s.seat.table_id (lists_in s.seat.me.0.kept) };

    ghost invariant = { λ s. IsBook s.table.shared.table_id s.seat.table_id s.seat.me };
}

impl<X> Drop for Book<X> {
    fn drop(self) {
        let Self { table, seat } = self;
        drop(table);
        drop(seat);
    }
}

/// The one token of an open number. It goes with whoever makes the number's list longer.
pub struct Slip<X> {
    number: u32,
    badge: Badge<Row<X>>,
}

impl<X> fmt::Debug for Slip<X> {
    fn fmt<W: fmt::Write>(&self, f: &mut fmt::Formatter<W>) -> fmt::Result {
        f.debug_struct("Slip").finish_non_exhaustive()
    }
}

impl<X> Model for Slip<X> {
    ghost use Rattle.std.specs.Prelude.{◌≡◌, [], ◌∷◌};
    ghost use Rattle.tokens.specs.Lists.{OpenList, open_list};
    ghost use Rattle.tokens.specs.ManyLists.{slip_row, slip_list};

    ghost Value = { OpenList X };

    ghost view = { λ s. open_list s.badge.table_id s.number (slip_list s.badge.views) };

    ghost invariant = { λ s. s.badge.views ≡ slip_row s.number (slip_list s.badge.views) ∷ [] };
}

impl<X> Drop for Slip<X> {
    fn drop(self) {
        let Self { number: _, badge } = self;
        drop(badge);
    }
}

// The keeper's seat takes in the row of a slip.
struct Joining;

impl<X> Join<Row<X>> for Joining {
    ghost use Rattle.tokens.specs.ManyLists.{joint_row, blank_row};

    ghost both = { joint_row };

    ghost spent = { blank_row };
}

// The slip's share is cut off.
struct SlipShare;

impl<X> Split<Row<X>> for SlipShare {
    ghost use Rattle.tokens.specs.ManyLists.{keeper_share, slip_share};

    ghost left = { keeper_share };

    ghost right = { slip_share };
}

// The number that is stored is opened.
struct Opening;

impl<X> Play<(), Row<X>> for Opening {
    ghost use Rattle.tokens.specs.ManyLists.{OpensList};

    ghost then = { λ st me _ next. OpensList st.first me next };
}

struct Appending<N> {
    items: PhantomData<N>,
}

impl<X, N: Items<X>> Play<(), Row<X>> for Appending<N> {
    ghost use Rattle.tokens.specs.ManyLists.{Appends};

    ghost then = { λ _ me _ next. Appends N.items me next };
}

struct Closing;

impl<X> Play<(), Row<X>> for Closing {
    ghost use Rattle.tokens.specs.ManyLists.{Closes};

    ghost then = { λ _ me _ next. Closes me next };
}

impl<X> Book<X> {
    /// A book in which no number is open. No other book has its name. Only this takes memory.
    pub fn new(alloc: Global) -> Result<Book<X>, OutOfMemory>
        ensures { IfOk result (λ b. b.lists ≡ map.empty) }
    {
        let (table, seat) = Table::of_words(alloc, &[0], &())?;
        Ok(Book { table, seat })
    }

    /// Opens a number, with an empty list, and gives its one slip.
    pub fn open(&mut self, number: u32) -> Slip<X>
        requires { map.get self.old.lists number ≡ None }
        ensures book { self.new ≡ with_list self.old number [] }
        ensures slip { result ≡ open_list self.old.name number [] }
    {
        let table = &self.table;
        let shared = &table.shared;
        shared.store::<Opening>(&mut self.seat, 0, u64::from(number));
        let badge = shared.split_seat::<SlipShare>(&mut self.seat).into_badge();
        Slip { number, badge }
    }

    /// Appends items that only proofs know, and learns that the slip's number is open, with just the
    /// slip's list.
    pub fn grow_by<N: Items<X>>(&mut self, slip: &mut Slip<X>)
        requires { slip.old.name ≡ self.old.name }
        ensures listed { map.get self.old.lists slip.old.number ≡ Some slip.old.list }
        ensures book { self.new ≡ with_list self.old slip.old.number (slip.old.list ++ N.items) }
        ensures slip { slip.new ≡ record slip.old { list = slip.old.list ++ N.items } }
    {
        let table = &self.table;
        let shared = &table.shared;
        let badge = mem::replace(&mut slip.badge, Badge::blank());
        shared.join_seat::<Joining>(&mut self.seat, badge.into_seat());
        shared.load::<Appending<N>>(&mut self.seat, 0);
        slip.badge = shared.split_seat::<SlipShare>(&mut self.seat).into_badge();
    }

    /// Appends an item, and learns that the slip's number is open, with just the slip's list.
    pub fn grow(&mut self, slip: &mut Slip<X>, x: &X)
        requires { slip.old.name ≡ self.old.name }
        ensures listed { map.get self.old.lists slip.old.number ≡ Some slip.old.list }
        ensures book { self.new ≡ with_list self.old slip.old.number (slip.old.list ++ x.now ∷ []) }
        ensures slip { slip.new ≡ record slip.old { list = slip.old.list ++ x.now ∷ [] } }
    {
        self.grow_with::<Brand>(slip, x);
    }

    fn grow_with<N: Items<X>>(&mut self, slip: &mut Slip<X>, x: &X)
        requires name { slip.old.name ≡ self.old.name }
        requires item { N.items ≡ x.now ∷ [] }
        ensures listed { map.get self.old.lists slip.old.number ≡ Some slip.old.list }
        ensures book { self.new ≡ with_list self.old slip.old.number (slip.old.list ++ x.now ∷ []) }
        ensures slip { slip.new ≡ record slip.old { list = slip.old.list ++ x.now ∷ [] } }
    {
        let _ = x;
        self.grow_by::<N>(slip);
    }

    /// Learns that the slip's number is open, with just the slip's list.
    pub fn meet(&mut self, slip: &mut Slip<X>)
        requires { slip.old.name ≡ self.old.name }
        ensures listed { map.get self.old.lists slip.old.number ≡ Some slip.old.list }
        ensures book { self.new ≡ self.old }
        ensures slip { slip.new ≡ slip.old }
    {
        self.grow_by::<Brand>(slip);
    }

    /// Closes the slip's number, and learns that it was open, with just the slip's list.
    pub fn close(&mut self, slip: Slip<X>)
        requires { slip.name ≡ self.old.name }
        ensures listed { map.get self.old.lists slip.number ≡ Some slip.list }
        ensures book { self.new ≡ without_list self.old slip.number }
    {
        let badge = slip.into_badge();
        let table = &self.table;
        let shared = &table.shared;
        shared.join_seat::<Joining>(&mut self.seat, badge.into_seat());
        shared.load::<Closing>(&mut self.seat, 0);
    }
}

impl<X> Slip<X> {
    ghost use Rattle.tokens.specs.ManyLists.{slip_row};

    /// The number that it is for.
    pub fn number(&self) -> u32
        ensures { result ≡ self.now.number }
    {
        self.number
    }

    fn into_badge(self) -> Badge<Row<X>>
        ensures name { result.table_id ≡ self.name }
        ensures row { result.views ≡ slip_row self.number self.list ∷ [] }
    {
        let Self { number: _, badge } = self;
        badge
    }
}
