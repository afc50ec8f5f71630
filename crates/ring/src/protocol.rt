// The words and slots of a ring's table, the rule over them, and what each step tells.
use atomic_table::{Join, Play, Seat, Split, Table, TableRule};
use std::alloc::Global;
use std::collections::LinkedList;

/// The word that counts the items acknowledged, over the ring's whole life.
pub const HEAD: usize = 0;

/// The word that counts the items sent, over the ring's whole life.
pub const TAIL: usize = 1;

/// The word that is 1 while the taker is doomed.
pub const DOOM: usize = 2;

/// How many words the table has.
pub const WORDS: usize = 3;

/// What a seat at the table knows: the sender's, the taker's, or where the ends met, both. It is for
/// the proofs alone, and no value of it is made.
pub struct View<T> {
    pub sends: bool,
    pub takes: bool,
    pub sent_before: u64,
    pub sent: LinkedList<T>,
    pub counted: u64,
    pub looks: u64,
    pub dooms: bool,
    pub writing: bool,
    pub acked_before: u64,
    pub acked: LinkedList<T>,
    pub known: u64,
    pub doomed: bool,
    pub taken: Option<T>,
}

/// The table that both ends of a ring share.
pub type RingTable<T> = Table<Option<T>, View<T>, (), InOrder, Global>;

/// What one end of a ring steps with. It has no bytes.
pub type RingSeat<T> = Seat<Option<T>, View<T>>;

/// Items go through in order, and none is lost, repeated or made up.
pub struct InOrder;

impl<T> TableRule<Option<T>, View<T>, ()> for InOrder {
    ghost use Rattle.ring.specs.Flow.{Flow};
    ghost use Rattle.ring.specs.Steps.{opened};

    ghost holds = { λ _. Flow };

    ghost first = { λ _. opened };
}

/// A load by which no slot changes hands. At the head the sender counts what was acknowledged, at the
/// tail both ends in one hand compare what was sent with what was acknowledged and what is left, and at
/// the doom the taker hears of it.
pub struct Look;

impl<T> Play<Option<T>, View<T>> for Look {
    ghost use Rattle.ring.specs.Steps.{look_tells};

    ghost then = { look_tells };
}

/// A load that takes a slot, where there is one: at the head the sender's next free one, at the tail
/// that of the taker's first item that is left.
pub struct Take;

impl<T> Play<Option<T>, View<T>> for Take {
    ghost use Rattle.ring.specs.Steps.{take_tells};

    ghost then = { take_tells };
}

/// A store. At the head the taker acknowledges the item that it took, and gives its slot back; at the
/// tail the sender sends what it wrote; at the doom the sender dooms the taker by a 1, and both ends in
/// one hand take the doom back by a 0.
pub struct Put;

impl<T> Play<Option<T>, View<T>> for Put {
    ghost use Rattle.ring.specs.Steps.{put_tells};

    ghost then = { put_tells };
}

/// A taker's view takes in a sender's, and a view of both is cut into two that begin anew.
pub struct Both;

impl<T> Join<View<T>> for Both {
    ghost use Rattle.ring.specs.Steps.{met, spent};

    ghost both = { met };

    ghost spent = { spent };
}

impl<T> Split<View<T>> for Both {
    ghost use Rattle.ring.specs.Steps.{sender_of, taker_of};

    ghost left = { taker_of };

    ghost right = { sender_of };
}
