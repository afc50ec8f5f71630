// The end that takes.
ghost use Rattle.std.specs.Prelude.{◌≡◌, ◌⊎◌, true, IsSome, MatchOption, None, Some};
ghost use Rattle.ring.specs.Ends.{Looked, Acknowledged, Heard, Waited};

use crate::protocol::{DOOM, HEAD, Look, Put, RingSeat, RingTable, TAIL, Take};
use crossbeam_utils::sync::Parker;
use std::alloc::Global;
use std::marker::Model;
use std::sync::{Arc, Wait};
use std::{fmt, hint, mem};

// How often a taker looks before it sleeps: for some microseconds, which is what waking it would cost
// its sender at the next item.
const LOOKS: u32 = 128;

/// The end that takes. There is one to a ring.
#[derive(Drop)]
pub struct Taker<T> {
    pub(crate) table: Arc<RingTable<T>, Global>,
    pub(crate) seat: RingSeat<T>,
    pub(crate) parker: Parker,
    pub(crate) slots: u64,
    pub(crate) head: u64,
    pub(crate) item: Option<T>,
}

impl<T> fmt::Debug for Taker<T> {
    fn fmt<W: fmt::Write>(&self, f: &mut fmt::Formatter<W>) -> fmt::Result {
        f.debug_struct("Taker").finish_non_exhaustive()
    }
}

impl<T> Model for Taker<T> {
    ghost use Rattle.ring.specs.Ends.{Taking};

    ghost Value = { Taking T };

    ghost use Rattle.ring.specs.TakerKeeps.{taking, IsTaker};

    ghost view = { taking };

    ghost invariant = { IsTaker };
}

impl<T> Taker<T> {
    ghost use Rattle.std.specs.Borrow.{sem};
    ghost use Rattle.ring.specs.Lends.{LendsFirst};

    // Takes the first item that is left out of its slot, if there is one.
    fn look(&mut self)
        requires { self.old.taken ≡ None }
        ensures { Looked self.old self.new }
    {
        let tail = self.table.shared.load::<Take>(&mut self.seat, TAIL);
        if tail == self.head {
            return;
        }
        let slot = (self.head % self.slots) as usize;
        let item = self.table.shared.exchange(&mut self.seat, slot, None);
        match mem::replace(&mut self.item, item) {
            None => {}
            Some(_) => unreachable!(),
        }
    }

    /// The first item that was not acknowledged, and the same one again until `ack`. None where no
    /// more were sent when it looked.
    pub fn take(&mut self) -> Option<&T>
        ensures* after { sem 𝓛 (LendsFirst T.row self.entry result) }
    {
        if self.item.is_none() {
            self.look();
        }
        self.item.as_ref()
    }

    /// Whether the sender doomed it since the ring was made or reopened.
    pub fn doomed(&mut self) -> bool
        ensures { Heard self.old self.new result }
    {
        let doom = self.table.shared.load::<Look>(&mut self.seat, DOOM);
        doom == 1
    }

    // Looks for an item or a doom again and again, for a short while. Answers whether one is there.
    fn look_often(&mut self) -> bool
        ensures same { Waited self.old self.new }
        ensures found { result ≡ true → IsSome self.new.taken ⊎ (self.new.doomed ≡ true) }
    {
        for _ in 0..LOOKS {
            if self.take().is_some() || self.doomed() {
                return true;
            }
            hint::spin_loop();
        }
        false
    }

    /// Waits until an item is taken or it is doomed. It looks for a short while, and sleeps where
    /// nothing came; a wake that comes before it sleeps is kept.
    pub fn wait_more<R: Wait>(&mut self, rt: &R)
        ensures same { Waited self.old self.new }
        ensures wakes { IsSome self.new.taken ⊎ (self.new.doomed ≡ true) }
    {
        for _ in rt.forever() {
            if self.look_often() {
                return;
            }
            self.parker.park(rt);
        }
        unreachable!()
    }
}

impl<T: Drop> Taker<T> {
    /// Drops the item that was taken, and gives its slot back.
    pub fn ack(&mut self)
        requires { IsSome self.old.taken }
        ensures { Acknowledged self.old self.new }
    {
        self.item = None;
        self.head += 1;
        self.table
            .shared
            .store::<Put>(&mut self.seat, HEAD, self.head);
    }
}
