// What is lent to a run.
use mirror_statements::Commit;
use mirror_writer::{Between, Keep, Stop};
use model::Lsn;

/// A place where commits are kept, lent to a run.
#[derive(Drop)]
pub struct LentKeep<'a, K: Keep> {
    pub keep: &'a mut K,
}

impl<K: Keep> Keep for LentKeep<'_, K> {
    ghost has_kept = { λ l commits. K.has_kept l.keep.now commits };

    fn begin(&mut self) {
        self.keep.begin();
    }

    fn keep(&mut self, commits: &[Commit], end: Lsn) -> Result<(), Stop> {
        self.keep.keep(commits, end)
    }
}

/// What is done between two transactions, lent to a run.
#[derive(Drop)]
pub struct LentBetween<'a, B: Between> {
    pub between: &'a mut B,
}

impl<B: Between> Between for LentBetween<'_, B> {
    fn pass(&mut self, position: Lsn) -> bool {
        self.between.pass(position)
    }
}
