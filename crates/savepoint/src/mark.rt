// How much of a transaction stood before a savepoint.

/// How much of a transaction stood before a savepoint: the inverses in its undo log, and its holds.
#[derive(Clone, Copy, Debug, PartialEq, Eq)]
pub struct Mark {
    pub undo: usize,
    pub held: usize,
}
