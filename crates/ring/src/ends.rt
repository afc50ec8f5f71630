// Both ends in one hand: what is left, and a new beginning.
ghost use Rattle.std.specs.Prelude.{◌≡◌, ◌+◌, [], length};
ghost use Rattle.ring.specs.Ends.{Meets, HandsOut, AtStart};

use crate::protocol::{Both, DOOM, HEAD, Look, Put, RingSeat, RingTable, TAIL, Take};
use crate::sender::Sender;
use crate::taker::Taker;
use crossbeam_utils::sync::{Parker, Unparker};
use std::alloc::Global;
use std::fmt;
use std::marker::Model;
use std::sync::Arc;

/// Both ends of a ring, which met.
#[derive(Drop)]
pub struct Ends<T> {
    table: Arc<RingTable<T>, Global>,
    spare: Arc<RingTable<T>, Global>,
    seat: RingSeat<T>,
    bell: Unparker,
    parker: Parker,
    slots: u64,
    base: u64,
    head: u64,
    acked: u64,
    item: Option<T>,
}

impl<T> fmt::Debug for Ends<T> {
    fn fmt<W: fmt::Write>(&self, f: &mut fmt::Formatter<W>) -> fmt::Result {
        f.debug_struct("Ends").finish_non_exhaustive()
    }
}

impl<T> Model for Ends<T> {
    ghost use Rattle.ring.specs.Ends.{Meeting};

    ghost Value = { Meeting T };

    ghost use Rattle.ring.specs.EndsKeep.{meeting, IsEnds};

    ghost view = { meeting };

    ghost invariant = { IsEnds };
}

/// Brings the two ends of one ring together.
pub fn meet<T>(sender: Sender<T>, taker: Taker<T>) -> Ends<T>
    requires { sender.ring ≡ taker.ring }
    ensures { Meets sender taker result }
{
    let Sender {
        table: spare,
        seat: other,
        bell,
        slots: _,
        base,
        tail: _,
    } = sender;
    let Taker {
        table,
        mut seat,
        parker,
        slots,
        head,
        item,
    } = taker;
    table.shared.join_seat::<Both>(&mut seat, other);
    table.shared.load::<Look>(&mut seat, TAIL);
    Ends {
        table,
        spare,
        seat,
        bell,
        parker,
        slots,
        base,
        head,
        acked: head - base,
        item,
    }
}

impl<T> Ends<T> {
    /// How many items the taker acknowledged, since the ring was made or reopened.
    pub fn acked(&self) -> u64
        ensures { result ≡ length self.now.acked }
    {
        self.acked
    }

    /// The first item that is left. It is then no more among those that are left.
    pub fn next_left(&mut self) -> Option<T>
        ensures { HandsOut self.old self.new result }
    {
        match self.item.take() {
            Some(item) => {
                self.head += 1;
                self.table
                    .shared
                    .store::<Put>(&mut self.seat, HEAD, self.head);
                Some(item)
            }
            None => {
                let tail = self.table.shared.load::<Take>(&mut self.seat, TAIL);
                if tail == self.head {
                    return None;
                }
                let slot = (self.head % self.slots) as usize;
                let item = self.table.shared.exchange(&mut self.seat, slot, None);
                self.head += 1;
                self.table
                    .shared
                    .store::<Put>(&mut self.seat, HEAD, self.head);
                item
            }
        }
    }

    /// Takes the doom back and gives both ends again. Nothing was sent yet.
    pub fn reopen(self) -> (Sender<T>, Taker<T>)
        requires { self.left ≡ [] }
        ensures { AtStart self.ring (self.before + length self.sent) result.0 result.1 }
    {
        let Ends {
            table,
            spare,
            mut seat,
            bell,
            parker,
            slots,
            base: _,
            head,
            acked: _,
            item,
        } = self;
        table.shared.store::<Put>(&mut seat, DOOM, 0);
        let other = table.shared.split_seat::<Both>(&mut seat);
        let sender = Sender {
            table: spare,
            seat: other,
            bell,
            slots,
            base: head,
            tail: head,
        };
        let taker = Taker {
            table,
            seat,
            parker,
            slots,
            head,
            item,
        };
        (sender, taker)
    }
}
