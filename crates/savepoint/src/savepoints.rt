// The savepoints of one transaction.
ghost use Rattle.std.specs.Prelude.{◌≡◌, ◌++◌, [], OnOk, OnErr};
ghost use Rattle.savepoint.specs.Savepoints.{mark_at, with_mark, before_mark, latest_sub};

use model::{OutOfMemory, Xid};
use std::alloc::Global;
use std::collections::BTreeMap;
use std::marker::Model;

/// The savepoints of a transaction, in the order in which they were set: at most one for each
/// subtransaction, with the mark that its owner gave it.
///
/// A clause sees the list of them. To find one takes a look-up among them, and a cut the work of
/// the savepoints that it drops.
#[derive(Debug, Drop)]
pub struct Savepoints<M> {
    marks: Vec<(Xid, M)>,
    indexes: BTreeMap<Xid, usize>,
}

impl<M> Model for Savepoints<M> {
    ghost use Rattle.std.specs.Prelude.{ℕ, List};
    ghost use Rattle.savepoint.specs.Savepoints.{HasIndexes};

    ghost Value = { List (ℕ × M) };

    ghost view = { λ s. s.marks.items };

    ghost invariant = { λ s. HasIndexes s.indexes s.marks.items };
}

impl<M: Copy> Savepoints<M> {
    /// No savepoint. It takes no memory.
    pub fn new(alloc: Global) -> Savepoints<M>
        ensures { result ≡ [] }
    {
        Savepoints {
            marks: Vec::new(alloc),
            indexes: BTreeMap::new(alloc),
        }
    }

    /// Sets a savepoint for a subtransaction that has none, behind all others. Refused for memory,
    /// it changes nothing.
    pub fn note(&mut self, sub: Xid, mark: M) -> Result<(), OutOfMemory>
        ensures ok { OnOk result (self.new ≡ with_mark sub mark self.old) }
        ensures err { OnErr result (self.new ≡ self.old) }
    {
        if self.indexes.contains_key(&sub) {
            return Ok(());
        }
        let index = self.marks.len();
        self.marks.push((sub, mark))?;
        if self.indexes.insert(sub, index).is_err() {
            self.marks.pop();
            return Err(OutOfMemory);
        }
        Ok(())
    }

    /// The mark of a subtransaction's savepoint, if it has one.
    pub fn mark_of(&self, sub: Xid) -> Option<M>
        ensures { result ≡ mark_at sub self.now }
    {
        let index = *self.indexes.get(&sub)?;
        let (_, mark) = self.marks[index];
        Some(mark)
    }

    /// The subtransaction whose savepoint was set last, if there is one. It takes no memory.
    pub fn latest(&self) -> Option<Xid>
        ensures { result ≡ latest_sub self.now }
    {
        let (sub, _) = *self.marks.last()?;
        Some(sub)
    }

    /// A subtransaction's savepoint and all later ones; none without such a savepoint. It takes no
    /// memory.
    pub fn since(&self, sub: Xid) -> &[(Xid, M)]
        ensures { before_mark sub self.now ++ result.now ≡ self.now }
    {
        match self.indexes.get(&sub) {
            Some(index) => self.marks.get(*index..).unwrap_or(&[]),
            None => &[],
        }
    }

    /// Drops a subtransaction's savepoint and all later ones, and answers its mark. It takes no
    /// memory. Without such a savepoint nothing is dropped.
    pub fn cut(&mut self, sub: Xid) -> Option<M>
        ensures mark { result ≡ mark_at sub self.old }
        ensures rest { self.new ≡ before_mark sub self.old }
    {
        let index = *self.indexes.get(&sub)?;
        let (_, mark) = self.marks[index];
        while self.marks.len() > index {
            if let Some((dropped, _)) = self.marks.pop() {
                self.indexes.remove(&dropped);
            }
        }
        Some(mark)
    }
}
