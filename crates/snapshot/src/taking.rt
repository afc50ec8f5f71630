// Who takes entries of a journal.
ghost use Rattle.std.specs.Prelude.{◌≡◌, List, ◌∷◌, [], ◌++◌, OnOk, drop, map};
ghost use Rattle.world.specs.World.{Entry as Told};
ghost use Rattle.engine.specs.Engine.{entry_in};

use engine::Entry;
use model::OutOfMemory;

/// Takes entries of a journal, one after another. It copies what it wants: meanwhile the journal is
/// locked.
pub trait TakeEntries {
    /// The entries that it took.
    ghost taken: { Self → List Told };

    /// Takes the next one.
    fn take(&mut self, entry: &Entry) -> Result<(), OutOfMemory>
        ensures { OnOk result (taken self.new ≡ taken self.old ++ entry_in entry.now ∷ []) };
}

/// Gives the entries behind the first so many. Where memory is refused, it may have given some of them.
pub fn give_behind<T: TakeEntries>(
    entries: &[Entry],
    count: usize,
    into: &mut T,
) -> Result<(), OutOfMemory>
    ensures { OnOk result (T.taken into.new ≡ T.taken into.old ++ drop count (map entry_in entries.now)) }
{
    if count >= entries.len() {
        return Ok(());
    }
    let (_, behind) = entries.split_at(count);
    give_all(behind, into)
}

// Gives all entries.
fn give_all<T: TakeEntries>(entries: &[Entry], into: &mut T) -> Result<(), OutOfMemory>
    ensures { OnOk result (T.taken into.new ≡ T.taken into.old ++ map entry_in entries.now) }
{
    for entry in entries {
        into.take(entry)?;
    }
    Ok(())
}
