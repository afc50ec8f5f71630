// Who is told how far a worker came.
use model::Xid;

/// How far a worker came with its transaction. Items are counted from 1, and those past 2^64 - 1 all
/// have this number.
#[derive(Clone, Copy, Debug, PartialEq, Eq)]
pub enum Point {
    /// This item is the next to be done.
    Before(u64),
    /// This item was done.
    After(u64),
    /// This item clashed, which stopped the store.
    Clash(u64),
}

/// Is told how far a worker came, and may hold it there.
pub trait Gate {
    /// The worker of a transaction came to a point. It holds no lock meanwhile.
    fn pass(&mut self, xid: Xid, at: Point);

    /// A change of the transaction is held by another one, and the worker goes to wait for it. It
    /// holds no lock meanwhile.
    fn held(&mut self, xid: Xid) {
        let _ = xid;
    }
}
