// The end that sends.
ghost use Rattle.std.specs.Prelude.{◌≡◌, ◌≤◌, ◌+◌, ◌++◌, ◌∷◌, [], true, length, OnOk, OnErr, IfErr};
ghost use Rattle.ring.specs.Ends.{SentThrough, HasNoRoom};

use crate::protocol::{DOOM, HEAD, Look, Put, RingSeat, RingTable, TAIL, Take};
use crossbeam_utils::sync::Unparker;
use std::alloc::Global;
use std::error::Error;
use std::fmt;
use std::marker::Model;
use std::sync::Arc;

/// Over its whole life a ring takes no more items than this.
const MOST: u64 = 1 << 63;

/// The ring was full. The item comes back.
#[derive(Debug, PartialEq, Eq, Drop)]
pub struct Full<T>(pub T);

impl<T: fmt::Debug + Drop> Error for Full<T> {}

impl<T> fmt::Display for Full<T> {
    fn fmt<W: fmt::Write>(&self, f: &mut fmt::Formatter<W>) -> fmt::Result {
        write!(f, "the ring is full")
    }
}

/// The end that sends. There is one to a ring.
#[derive(Drop)]
pub struct Sender<T> {
    pub(crate) table: Arc<RingTable<T>, Global>,
    pub(crate) seat: RingSeat<T>,
    pub(crate) bell: Unparker,
    pub(crate) slots: u64,
    pub(crate) base: u64,
    pub(crate) tail: u64,
}

impl<T> fmt::Debug for Sender<T> {
    fn fmt<W: fmt::Write>(&self, f: &mut fmt::Formatter<W>) -> fmt::Result {
        f.debug_struct("Sender").finish_non_exhaustive()
    }
}

impl<T> Model for Sender<T> {
    ghost use Rattle.ring.specs.Ends.{Sending};

    ghost Value = { Sending T };

    ghost use Rattle.ring.specs.SenderKeeps.{sending, IsSender};

    ghost view = { sending };

    ghost invariant = { IsSender };
}

impl<T> Sender<T> {
    /// Sends the item behind those that were sent, and wakes a taker that waits. Refused where the
    /// acknowledged items that it finds leave no room, or after 2^63 items.
    pub fn try_send(&mut self, item: T) -> Result<(), Full<T>>
        ensures ok { OnOk result (SentThrough self.old self.new (self.old.sent ++ item ∷ [])) }
        ensures same { OnErr result (SentThrough self.old self.new self.old.sent × HasNoRoom self.new) }
        ensures back { IfErr result (λ full. full.0 ≡ item) }
    {
        let head = self.table.shared.load::<Take>(&mut self.seat, HEAD);
        if self.tail - head == self.slots || self.tail == MOST {
            return Err(Full(item));
        }
        let slot = (self.tail % self.slots) as usize;
        match self.table.shared.exchange(&mut self.seat, slot, Some(item)) {
            None => {}
            Some(_) => unreachable!(),
        }
        self.tail += 1;
        self.table
            .shared
            .store::<Put>(&mut self.seat, TAIL, self.tail);
        self.bell.unpark();
        Ok(())
    }

    /// How many of the items sent were acknowledged, since the ring was made or reopened.
    pub fn acked(&mut self) -> u64
        ensures result { self.new.counted ≡ result }
        ensures same { SentThrough self.old self.new self.old.sent }
    {
        let head = self.table.shared.load::<Look>(&mut self.seat, HEAD);
        head - self.base
    }

    /// Tells the taker to give up, and wakes it if it waits.
    pub fn doom(&mut self)
        ensures { self.new ≡ record self.old { dooms = true } }
    {
        self.table.shared.store::<Put>(&mut self.seat, DOOM, 1);
        self.bell.unpark();
    }
}
