// What is done between two transactions of a file.
use model::Lsn;

/// What is done between two transactions of a file, while a run goes on.
pub trait Between {
    /// The file is at this position. It answers whether it wants to be asked again soon, though nothing is
    /// committed.
    fn pass(&mut self, position: Lsn) -> bool;
}

/// Nothing is done.
#[derive(Debug, Drop)]
pub struct Nothing;

impl Between for Nothing {
    fn pass(&mut self, _position: Lsn) -> bool {
        false
    }
}
