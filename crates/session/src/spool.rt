// The kept items of a spooled transaction.
ghost use Rattle.std.specs.Prelude.{◌≡◌, [], ◌∷◌, ◌++◌, ◌+◌, ◌-◌, ◌^◌, ◌<◌, ◌≤◌, length, drop, take, map, sum, OnOk, OnErr};
ghost use Rattle.savepoint.specs.Savepoints.{before_first, with_mark_of};
ghost use Rattle.session.specs.Sized.{item_of, bytes_of, unnoted_by};

use model::OutOfMemory;
use savepoint::{Item, Savepoints, Xid};
use std::alloc::Global;
use std::marker::Model;

/// The items of a spooled transaction that no rollback has dropped, each with the length of its
/// payload in bytes. A clause sees the list of these pairs.
#[derive(Debug, Drop)]
pub struct Spool {
    items: Vec<Item>,
    sizes: Vec<u64>,
    /// Each savepoint with the number of items before it.
    savepoints: Savepoints<usize>,
}

impl Model for Spool {
    ghost use Rattle.std.specs.List.{zip};
    ghost use Rattle.session.specs.Sized.{SizedItems, IsSpool};

    ghost Value = { SizedItems };

    ghost view = { λ s. zip s.items.items s.sizes.items };

    ghost invariant = { λ s. IsSpool s.items.items s.sizes.items s.savepoints };
}

impl Spool {
    /// No items. It takes no memory.
    pub(crate) fn new(alloc: Global) -> Spool
        ensures { result ≡ [] }
    {
        Spool {
            items: Vec::new(alloc),
            sizes: Vec::new(alloc),
            savepoints: Savepoints::new(alloc),
        }
    }

    /// How many bytes of payloads its items have, if that fits.
    pub(crate) fn bytes(&self) -> u64
        ensures { bytes_of self.now < 2 ^ 64 → result ≡ bytes_of self.now }
    {
        total(&self.sizes)
    }

    /// Appends an item. Refused for memory, it changes nothing.
    pub(crate) fn push(&mut self, item: Item, size: u64) -> Result<(), OutOfMemory>
        ensures ok { OnOk result (self.new ≡ self.old ++ (item, size) ∷ []) }
        ensures err { OnErr result (self.new ≡ self.old) }
    {
        self.items.reserve(1)?;
        self.sizes.reserve(1)?;
        note(&mut self.savepoints, &item, self.items.len())?;
        self.items.push(item).unwrap();
        self.sizes.push(size).unwrap();
        Ok(())
    }

    /// Drops the last item, and its savepoint if it set one. It answers how many bytes of payload the
    /// item had, and takes no memory.
    pub(crate) fn pop(&mut self) -> u64
        ensures rest { self.new ≡ take (length self.old - 1) self.old }
        ensures freed { result + bytes_of self.new ≡ bytes_of self.old }
    {
        let Some(item) = self.items.pop() else {
            return 0;
        };
        let Some(size) = self.sizes.pop() else {
            unreachable!()
        };
        unnote(&mut self.savepoints, &item, self.items.len());
        size
    }

    /// Rolls a subtransaction back: drops its items and all later ones. It answers how many bytes of
    /// payloads they had, if all that it keeps fits, and takes no memory.
    pub(crate) fn cut(&mut self, sub: Xid) -> u64
        ensures rest { self.new ≡ before_first sub self.old }
        ensures freed { bytes_of self.old < 2 ^ 64 → result + bytes_of self.new ≡ bytes_of self.old }
    {
        match self.savepoints.cut(sub) {
            Some(index) => {
                let freed = total_from(&self.sizes, index);
                self.items.truncate(index);
                self.sizes.truncate(index);
                freed
            }
            None => 0,
        }
    }

    /// Its items, handed out.
    pub(crate) fn into_items(self) -> Vec<Item>
        ensures { result.items ≡ map item_of self }
    {
        self.items
    }
}

/// Sets the savepoint of the subtransaction that an item names, if it is the first to name it.
fn note(savepoints: &mut Savepoints<usize>, item: &Item, index: usize) -> Result<(), OutOfMemory>
    ensures ok { OnOk result (savepoints.new ≡ with_mark_of item.now index savepoints.old) }
    ensures err { OnErr result (savepoints.new ≡ savepoints.old) }
{
    match item {
        Item::Change { sub, .. } | Item::Touch(sub) => savepoints.note(*sub, index),
        Item::BackTo(_) | Item::Last => Ok(()),
    }
}

/// Drops the savepoint of the subtransaction that an item names, if it stands at the item's index.
fn unnote(savepoints: &mut Savepoints<usize>, item: &Item, index: usize)
    ensures { savepoints.new ≡ unnoted_by item.now index savepoints.old }
{
    if let Item::Change { sub, .. } | Item::Touch(sub) = item
        && savepoints.mark_of(*sub) == Some(index)
    {
        savepoints.cut(*sub);
    }
}

/// The sum of the sizes from an index on, if it fits.
fn total_from(sizes: &[u64], index: usize) -> u64
    requires { index ≤ length sizes.now }
    ensures { sum (drop index sizes.now) < 2 ^ 64 → result ≡ sum (drop index sizes.now) }
{
    total(&sizes[index..])
}

/// The sum of sizes, if it fits.
fn total(sizes: &[u64]) -> u64
    ensures { sum sizes.now < 2 ^ 64 → result ≡ sum sizes.now }
{
    let mut total = 0u64;
    for size in sizes {
        total = total.saturating_add(*size);
    }
    total
}
