// One list that two halves name, and what was seen of it.
ghost use Rattle.std.specs.Prelude.{◌≡◌, [], ◌∷◌, ◌++◌, IfOk};
ghost use Rattle.model.specs.Beginning.{Begins};

use crate::items::Items;
use atomic_table::{Badge, Join, Play, Seat, Split, Table, TableRule};
use model::OutOfMemory;
use std::alloc::Global;
use std::collections::LinkedList;
use std::marker::{Brand, Model, PhantomData};
use std::{fmt, mem};

// What a seat knows. No value of it is made.
struct View<X> {
    kept: Option<LinkedList<X>>,
    held: Option<LinkedList<X>>,
    seen: LinkedList<X>,
}

struct OneList;

impl<X> TableRule<(), View<X>, ()> for OneList {
    ghost use Rattle.tokens.specs.OneList.{IsOneList, first_view};

    ghost holds = { λ _. IsOneList };

    ghost first = { λ _. first_view };
}

/// The half that lies with the data, mostly under their lock.
pub struct Kept<X> {
    table: Table<(), View<X>, (), OneList, Global>,
    seat: Seat<(), View<X>>,
}

impl<X> fmt::Debug for Kept<X> {
    fn fmt<W: fmt::Write>(&self, f: &mut fmt::Formatter<W>) -> fmt::Result {
        f.debug_struct("Kept").finish_non_exhaustive()
    }
}

impl<X> Model for Kept<X> {
    ghost use Rattle.tokens.specs.Half.{Half, half};
    ghost use Rattle.tokens.specs.OneList.{IsKeeper, kept_list};

    ghost Value = { Half X };

    ghost view = { λ s. half s.seat.table_id (kept_list s.seat.me.0) };

    ghost invariant = { λ s. IsKeeper s.table.shared.table_id s.seat.table_id s.seat.me };
}

impl<X> Drop for Kept<X> {
    fn drop(self) {
        let Self { table, seat } = self;
        drop(table);
        drop(seat);
    }
}

/// The half that goes with whoever changes the list. It has no bytes.
pub struct Token<X> {
    badge: Badge<View<X>>,
}

impl<X> fmt::Debug for Token<X> {
    fn fmt<W: fmt::Write>(&self, f: &mut fmt::Formatter<W>) -> fmt::Result {
        f.debug_struct("Token").finish_non_exhaustive()
    }
}

impl<X> Model for Token<X> {
    ghost use Rattle.std.specs.Prelude.{◌≡◌, [], ◌∷◌};
    ghost use Rattle.tokens.specs.Half.{Half, half};
    ghost use Rattle.tokens.specs.OneList.{holder_view, held_list};

    ghost Value = { Half X };

    ghost view = { λ s. half s.badge.table_id (held_list s.badge.views) };

    ghost invariant = { λ s. s.badge.views ≡ holder_view (held_list s.badge.views) ∷ [] };
}

impl<X> Drop for Token<X> {
    fn drop(self) {
        let Self { badge } = self;
        drop(badge);
    }
}

/// What was seen of the list: a beginning of what it is now. It has no bytes.
pub struct Seen<X> {
    badge: Badge<View<X>>,
}

impl<X> fmt::Debug for Seen<X> {
    fn fmt<W: fmt::Write>(&self, f: &mut fmt::Formatter<W>) -> fmt::Result {
        f.debug_struct("Seen").finish_non_exhaustive()
    }
}

impl<X> Model for Seen<X> {
    ghost use Rattle.std.specs.Prelude.{◌≡◌, [], ◌∷◌};
    ghost use Rattle.tokens.specs.Half.{Half, half};
    ghost use Rattle.tokens.specs.OneList.{seen_view, seen_list};

    ghost Value = { Half X };

    ghost view = { λ s. half s.badge.table_id (seen_list s.badge.views) };

    ghost invariant = { λ s. s.badge.views ≡ seen_view (seen_list s.badge.views) ∷ [] };
}

impl<X> Drop for Seen<X> {
    fn drop(self) {
        let Self { badge } = self;
        drop(badge);
    }
}

// The keeper's seat takes in the view of another.
struct Joining;

impl<X> Join<View<X>> for Joining {
    ghost use Rattle.tokens.specs.OneList.{joint_view, blank_view};

    ghost both = { joint_view };

    ghost spent = { blank_view };
}

// The holder's part is cut off.
struct HolderPart;

impl<X> Split<View<X>> for HolderPart {
    ghost use Rattle.tokens.specs.OneList.{keeper_part, holder_part};

    ghost left = { keeper_part };

    ghost right = { holder_part };
}

// What the keeper knows is told to another seat.
struct SeenPart;

impl<X> Split<View<X>> for SeenPart {
    ghost use Rattle.tokens.specs.OneList.{keeper_part, seen_part};

    ghost left = { keeper_part };

    ghost right = { seen_part };
}

struct Appending<N> {
    items: PhantomData<N>,
}

impl<X, N: Items<X>> Play<(), View<X>> for Appending<N> {
    ghost use Rattle.tokens.specs.OneList.{AppendsBoth};

    ghost then = { λ _ me _ next. AppendsBoth N.items me next };
}

struct Comparing;

impl<X> Play<(), View<X>> for Comparing {
    ghost use Rattle.tokens.specs.OneList.{Compares};

    ghost then = { λ _ me _ next. Compares me next };
}

/// Makes the two halves of a new list, which is empty. No other pair has their name.
pub fn pair<X>(alloc: Global) -> Result<(Kept<X>, Token<X>), OutOfMemory>
    ensures same { IfOk result (λ p. p.0 ≡ p.1) }
    ensures empty { IfOk result (λ p. p.0.list ≡ []) }
{
    let (table, mut seat) = Table::of_words(alloc, &[0], &())?;
    let badge = table
        .shared
        .split_seat::<HolderPart>(&mut seat)
        .into_badge();
    Ok((Kept { table, seat }, Token { badge }))
}

/// Appends items that only proofs know, and learns that the halves were equal.
pub fn grow_by<X, N: Items<X>>(kept: &mut Kept<X>, token: &mut Token<X>)
    requires { token.old.name ≡ kept.old.name }
    ensures met { token.old ≡ kept.old }
    ensures kept { kept.new ≡ record kept.old { list = kept.old.list ++ N.items } }
    ensures token { token.new ≡ record token.old { list = token.old.list ++ N.items } }
{
    let table = &kept.table;
    let shared = &table.shared;
    let badge = mem::replace(&mut token.badge, Badge::blank());
    shared.join_seat::<Joining>(&mut kept.seat, badge.into_seat());
    shared.load::<Appending<N>>(&mut kept.seat, 0);
    token.badge = shared.split_seat::<HolderPart>(&mut kept.seat).into_badge();
}

/// Learns that the halves are equal.
pub fn meet<X>(kept: &mut Kept<X>, token: &mut Token<X>)
    requires { token.old.name ≡ kept.old.name }
    ensures met { token.old ≡ kept.old }
    ensures kept { kept.new ≡ kept.old }
    ensures token { token.new ≡ token.old }
{
    grow_by::<X, Brand>(kept, token);
}

/// Appends an item, and learns that the halves were equal.
pub fn grow<X>(kept: &mut Kept<X>, token: &mut Token<X>, x: &X)
    requires { token.old.name ≡ kept.old.name }
    ensures met { token.old ≡ kept.old }
    ensures kept { kept.new ≡ record kept.old { list = kept.old.list ++ x.now ∷ [] } }
    ensures token { token.new ≡ record token.old { list = token.old.list ++ x.now ∷ [] } }
{
    grow_with::<X, Brand>(kept, token, x);
}

fn grow_with<X, N: Items<X>>(kept: &mut Kept<X>, token: &mut Token<X>, x: &X)
    requires name { token.old.name ≡ kept.old.name }
    requires item { N.items ≡ x.now ∷ [] }
    ensures met { token.old ≡ kept.old }
    ensures kept { kept.new ≡ record kept.old { list = kept.old.list ++ x.now ∷ [] } }
    ensures token { token.new ≡ record token.old { list = token.old.list ++ x.now ∷ [] } }
{
    let _ = x;
    grow_by::<X, N>(kept, token);
}

/// Sees all of the list as it is now.
pub fn watch<X>(kept: &mut Kept<X>) -> Seen<X>
    ensures kept { kept.new ≡ kept.old }
    ensures seen { result ≡ kept.old }
{
    let table = &kept.table;
    let badge = table
        .shared
        .split_seat::<SeenPart>(&mut kept.seat)
        .into_badge();
    Seen { badge }
}

/// Learns that what was seen is a beginning of the list, and sees all of it.
pub fn look<X>(kept: &mut Kept<X>, seen: &mut Seen<X>)
    requires { seen.old.name ≡ kept.old.name }
    ensures kept { kept.new ≡ kept.old }
    ensures begins { Begins seen.old.list kept.old.list }
    ensures seen { seen.new ≡ kept.old }
{
    let table = &kept.table;
    let shared = &table.shared;
    let badge = mem::replace(&mut seen.badge, Badge::blank());
    shared.join_seat::<Joining>(&mut kept.seat, badge.into_seat());
    shared.load::<Comparing>(&mut kept.seat, 0);
    seen.badge = shared.split_seat::<SeenPart>(&mut kept.seat).into_badge();
}
