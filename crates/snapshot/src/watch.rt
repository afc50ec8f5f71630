// Who reads while a run goes on.
ghost use Rattle.std.specs.Prelude.{◌≡◌};

use crate::reader::Reader;
use std::sync::Wait;
use table_locks::StoreNames;

/// Somebody who reads while a run goes on.
///
/// A run gives each watcher a thread and a reader of its own. It calls `turn` until that answers
/// false or the run has ended, and then once more, when no transaction is open: so the last turn sees
/// what the run leaves. No clause says that a turn comes.
pub trait Watch {
    ghost use Rattle.snapshot.specs.Reads.{Sight};

    /// What it knows of its reader, by what that has seen. Whoever needs nothing of it says so of all.
    ghost knows: { Self → Sight → Type 0 };

    /// Reads what it likes. True asks for another turn. The reader is the one that it had before.
    fn turn<N: StoreNames, R: Wait>(&mut self, rt: &R, reader: &mut Reader<'_, N>) -> bool
        requires { ∥ knows self.old reader.old ∥₁ }
        ensures knows { ∥ knows self.new reader.new ∥₁ }
        ensures origin { reader.new.published.origin ≡ reader.old.published.origin }
        ensures skip { reader.new.published.skip ≡ reader.old.published.skip };
}
