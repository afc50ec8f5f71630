// The open transactions.
use crate::fault::{Refused, SessionFault};
use crate::spool::Spool;
use model::{MOST_OPEN, OutOfMemory};
use savepoint::{Item, Xid};
use std::alloc::Global;
use std::collections::BTreeMap;

/// Where the items of an open transaction go.
#[derive(Debug, Drop)]
pub enum OpenTransaction {
    /// It is between Begin and Commit, and its items are applied as they come.
    Direct,
    /// It is streamed, and has a worker.
    Worker,
    /// It is streamed, and its items are kept until it commits.
    Spooled(Spool),
}

impl OpenTransaction {
    ghost use Rattle.std.specs.Prelude.{◌≡◌, ◌+◌, ◌<◌, ◌^◌, true, false, IfOk, OnErr, MatchOption};
    ghost use Rattle.session.specs.Kept.{kept_more, back_of, without_last, cut_back, bytes_kept, is_spool};

    /// Whether the items are kept until the commit.
    pub(crate) fn is_spooled(&self) -> bool
        ensures { result ≡ is_spool self.now }
    {
        matches!(self, OpenTransaction::Spooled(_))
    }

    /// Keeps an item of a spooled transaction, and gives any other back. Refused for memory, it
    /// changes nothing.
    fn keep(&mut self, item: Item, size: u64) -> Result<Option<Item>, OutOfMemory>
        ensures ok { IfOk result (λ back. (self.new ≡ kept_more self.old item size) × (back ≡ back_of self.old item)) }
        ensures err { OnErr result (self.new ≡ self.old) }
    {
        match self {
            OpenTransaction::Direct | OpenTransaction::Worker => Ok(Some(item)),
            OpenTransaction::Spooled(spool) => {
                spool.push(item, size)?;
                Ok(None)
            }
        }
    }

    /// Drops the item that was kept last. It answers how many bytes of payload the item had.
    fn drop_last(&mut self) -> u64
        ensures rest { self.new ≡ without_last self.old }
        ensures freed { result + bytes_kept self.new ≡ bytes_kept self.old }
    {
        match self {
            OpenTransaction::Direct | OpenTransaction::Worker => 0,
            OpenTransaction::Spooled(spool) => spool.pop(),
        }
    }

    /// Rolls a subtransaction back, if the items are kept. It answers how many bytes of payloads the
    /// dropped ones had.
    fn cut(&mut self, sub: Xid) -> Option<u64>
        ensures rest { self.new ≡ cut_back sub self.old }
        ensures freed { bytes_kept self.old < 2 ^ 64 → MatchOption result (is_spool self.old ≡ false)
            (λ freed. (is_spool self.old ≡ true) × (freed + bytes_kept self.new ≡ bytes_kept self.old)) }
    {
        match self {
            OpenTransaction::Direct | OpenTransaction::Worker => None,
            OpenTransaction::Spooled(spool) => Some(spool.cut(sub)),
        }
    }
}

/// The open transactions, and how much of the limits they use.
#[derive(Debug, Drop)]
pub struct Transactions {
    alloc: Global,
    ways: BTreeMap<Xid, OpenTransaction>,
    /// How many workers there are, and how many of the transactions have one.
    workers: usize,
    working: usize,
    /// How many bytes of payloads the spools may keep, and how many they keep.
    spool: u64,
    spooled: u64,
}

impl Transactions {
    ghost use Rattle.std.specs.Prelude.{◌≡◌};
    ghost use Rattle.std.specs.FinMap as map;
    ghost use Rattle.std.specs.Prelude.{ℕ, ◌+◌, ◌≢◌, true, nat_le};
    ghost use Rattle.model.specs.declared.item.Item.{Item as AnyItem};
    ghost use Rattle.model.specs.declared.item.Item.TheVariants as items;
    ghost use Rattle.session.specs.State.{Setting, OpenTransactions, Open, spool_bytes};
    ghost use Rattle.session.specs.KeptTransactions.{Represents, RoomIs, IsOpened, IsStreamed, IsClosed, IsItemTaken, Survives, spool_fault, with_item};
    ghost use Rattle.session.specs.Kept.{is_spooled, is_spooled_open};
    ghost use Rattle.session.specs.Table.{room_fault, has_room};

    /// No transaction. It takes no memory.
    pub(crate) fn new(alloc: Global, workers: usize, spool: u64) -> Transactions
        ensures { (g : Setting) → g.workers ≡ workers → g.spool ≡ spool → Represents g result map.empty }
    {
        Transactions {
            alloc,
            ways: BTreeMap::new(alloc),
            workers,
            working: 0,
            spool,
            spooled: 0,
        }
    }

    /// Whether the transaction is open.
    pub(crate) fn contains(&self, xid: Xid) -> bool
        ensures { (g : Setting) (m : OpenTransactions) → Represents g self.now m → result ≡ map.contains_key m xid }
    {
        self.ways.contains_key(&xid)
    }

    /// Whether the transaction is open and spooled.
    fn is_spooled(&self, xid: Xid) -> bool
        ensures { (g : Setting) (m : OpenTransactions) → Represents g self.now m → result ≡ is_spooled_open (map.get m xid) }
    {
        matches!(self.ways.get(&xid), Some(OpenTransaction::Spooled(_)))
    }

    /// Opens a transaction whose items are applied as they come.
    pub(crate) fn begin(&mut self, xid: Xid) -> Result<(), Refused>
        ensures { (g : Setting) (m : OpenTransactions) → Represents g self.old m → IsOpened g self.new m xid result }
    {
        self.check_room(xid)?;
        self.ways.insert(xid, OpenTransaction::Direct)?;
        Ok(())
    }

    /// Opens a streamed transaction. It answers whether the transaction gets a worker, where it may.
    pub(crate) fn stream(&mut self, xid: Xid, may_have_worker: bool) -> Result<bool, Refused>
        ensures { (g : Setting) (m : OpenTransactions) → Represents g self.old m → IsStreamed g self.new m xid may_have_worker result }
    {
        self.check_room(xid)?;
        if may_have_worker && self.working < self.workers {
            self.ways.insert(xid, OpenTransaction::Worker)?;
            self.working += 1;
            Ok(true)
        } else {
            self.ways
                .insert(xid, OpenTransaction::Spooled(Spool::new(self.alloc)))?;
            Ok(false)
        }
    }

    /// That a transaction of this number may be opened.
    fn check_room(&self, xid: Xid) -> Result<(), SessionFault>
        ensures { (g : Setting) (m : OpenTransactions) → Represents g self.now m → RoomIs (room_fault m xid) result }
    {
        if self.contains(xid) {
            Err(SessionFault::AlreadyOpen)
        } else if self.ways.len() >= MOST_OPEN {
            Err(SessionFault::TooManyOpen)
        } else {
            Ok(())
        }
    }

    /// That an item of an open transaction, with a payload of so many bytes, may be taken.
    pub(crate) fn check_spool(&self, xid: Xid, size: u64) -> Result<(), SessionFault>
        ensures { (g : Setting) (m : OpenTransactions) → Represents g self.now m → RoomIs (spool_fault g m size (map.get m xid)) result }
    {
        if self.is_spooled(xid) && !self.has_spool(size) {
            Err(SessionFault::SpoolFull)
        } else {
            Ok(())
        }
    }

    /// Whether the spools may keep so many bytes more.
    fn has_spool(&self, size: u64) -> bool
        ensures { (g : Setting) (m : OpenTransactions) → Represents g self.now m → result ≡ nat_le (spool_bytes m + size) g.spool }
    {
        match self.spooled.checked_add(size) {
            Some(spooled) => spooled <= self.spool,
            None => false,
        }
    }

    /// Takes an item. That of a spooled transaction is kept, and any other is given back. Refused for
    /// memory, it changes nothing.
    pub(crate) fn add_item(
        &mut self,
        xid: Xid,
        item: Item,
        size: u64,
    ) -> Result<Option<Item>, OutOfMemory>
        ensures { (g : Setting) (m : OpenTransactions) (o : Open) → Represents g self.old m → map.get m xid ≡ Some o
            → has_room g m size o.way ≡ true → Survives item → IsItemTaken g self.new m xid o item size result }
    {
        let Some(way) = self.ways.get_mut(&xid) else {
            return Ok(Some(item));
        };
        let back = way.keep(item, size)?;
        if back.is_none() {
            self.spooled = self.spooled.saturating_add(size);
        }
        Ok(back)
    }

    /// Undoes that a transaction took its last item: a spooled one drops it.
    pub(crate) fn drop_last(&mut self, xid: Xid)
        ensures { (g : Setting) (m : OpenTransactions) (o : Open) (item : AnyItem) (size : ℕ) → map.get m xid ≡ Some o → Survives item
            → Represents g self.old (map.insert m xid (with_item o item size)) → Represents g self.new m }
    {
        if let Some(way) = self.ways.get_mut(&xid) {
            let freed = way.drop_last();
            self.spooled = self.spooled.saturating_sub(freed);
        }
    }

    /// Rolls a subtransaction back. It answers whether the transaction is spooled.
    pub(crate) fn roll_back(&mut self, xid: Xid, sub: Xid) -> bool
        ensures { (g : Setting) (m : OpenTransactions) (o : Open) → Represents g self.old m → map.get m xid ≡ Some o → sub ≢ xid
            → (result ≡ is_spooled o.way) × Represents g self.new (map.insert m xid (with_item o (items.BackTo sub) 0)) }
    {
        let Some(way) = self.ways.get_mut(&xid) else {
            return false;
        };
        match way.cut(sub) {
            Some(freed) => {
                self.spooled = self.spooled.saturating_sub(freed);
                true
            }
            None => false,
        }
    }

    /// Closes a transaction. It answers what it was, if it was open.
    pub(crate) fn close(&mut self, xid: Xid) -> Option<OpenTransaction>
        ensures { (g : Setting) (m : OpenTransactions) → Represents g self.old m → IsClosed g self.new m xid result }
    {
        let way = self.ways.remove(&xid)?;
        match &way {
            OpenTransaction::Direct => {}
            OpenTransaction::Worker => self.working = self.working.saturating_sub(1),
            OpenTransaction::Spooled(spool) => self.spooled = self
                .spooled
                .saturating_sub(spool.bytes()),
        }
        Some(way)
    }
}
