// What a message asks for.
use savepoint::{CommitInfo, Item, Xid};

/// What an admitted message asks for.
#[derive(Debug, Drop)]
pub enum Step {
    /// Nothing: the session took note of it, or it has no effect.
    Nothing,
    /// A transaction begins, whose items come as they are read.
    Begin(Xid),
    /// A streamed transaction begins that gets a worker.
    Open(Xid),
    /// An item of a transaction that isn't spooled.
    Item(Xid, Item),
    /// A transaction commits. The items are those of a spooled one that survived, and otherwise none.
    Commit(Xid, CommitInfo, Vec<Item>),
    /// A transaction with a worker is dropped.
    Abort(Xid),
}
