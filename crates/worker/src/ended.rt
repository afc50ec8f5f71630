// What comes of an item, and of a job.

/// Why a worker came back from its job.
#[derive(Clone, Copy, Debug, PartialEq, Eq)]
pub enum Ended {
    /// The transaction's commit was read, and all of its items are done.
    Last,
    /// It was told to give up.
    Doomed,
    /// A change of its own clashed, which stopped the store.
    Clashed,
    /// The store was stopped.
    Stopped,
    /// The system had no memory for an item.
    OutOfMemory,
}

/// What came of an item that was not refused.
#[derive(Clone, Copy, Debug, PartialEq, Eq)]
pub enum Tried {
    /// It was done.
    Done,
    /// Another transaction holds a cell of it.
    Held,
}
