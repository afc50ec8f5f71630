// What tickets and lines list. Proofs alone know these lists: no value of an event is made.
use model::{Change, CommitInfo, Item, Xid};
use std::collections::LinkedList;

/// What happened to an open transaction.
#[derive(Debug, Drop)]
pub enum Event {
    /// It has done this item, a rollback too.
    Done(Item),
    /// A change of this subtransaction waits, or clashed.
    Wants { sub: Xid, change: Change },
    /// Its last item, a change, became one of this subtransaction.
    Adopted(Xid),
    /// An item of it was refused, since the store was stopped.
    FoundStopped,
    /// An item of it was refused for want of memory.
    FoundNoMemory,
}

/// What happened to the store's transactions.
#[derive(Debug, Drop)]
pub enum LineEvent {
    /// This one was opened.
    Opened(Xid),
    /// This one was committed, with the items that it had done.
    Committed {
        xid: Xid,
        items: LinkedList<Item>,
        info: CommitInfo,
    },
    /// This one was aborted.
    Aborted(Xid),
}
