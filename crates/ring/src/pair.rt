// A new ring.
ghost use Rattle.std.specs.Prelude.{◌≡◌, ◌≤◌, IfOk};
ghost use Rattle.ring.specs.Ends.{AtStart};

use crate::protocol::{Both, RingTable, WORDS};
use crate::sender::Sender;
use crate::taker::Taker;
use crossbeam_utils::sync::Parker;
use model::OutOfMemory;
use std::alloc::Global;
use std::sync::Arc;

/// Makes rings.
#[derive(Debug)]
pub struct Ring;

impl Ring {
    /// A ring of so many slots, by its two ends.
    pub fn new<T: Drop>(
        alloc: Global,
        capacity: usize,
    ) -> Result<(Sender<T>, Taker<T>), OutOfMemory>
        requires { (1 ≤ capacity) × (capacity ≤ 1024) }
        ensures { IfOk result (λ ends. AtStart ends.0.ring 0 ends.0 ends.1 × (ends.0.ring.slots ≡ capacity)) }
    {
        let (table, mut seat) = RingTable::vacant(alloc, &[0; WORDS], capacity, &())?;
        let other = table.shared.split_seat::<Both>(&mut seat);
        let parker = Parker::new(alloc)?;
        let bell = parker.unparker().clone()?;
        let table = Arc::new(alloc, table)?;
        let spare = Arc::try_clone(&table)?;
        let slots = capacity as u64;
        let sender = Sender {
            table: spare,
            seat: other,
            bell,
            slots,
            base: 0,
            tail: 0,
        };
        let taker = Taker {
            table,
            seat,
            parker,
            slots,
            head: 0,
            item: None,
        };
        Ok((sender, taker))
    }
}
