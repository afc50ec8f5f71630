// The end of a store in which transactions are still open, without their tickets.
ghost use Rattle.std.specs.Prelude.{◌≡◌, length, map};
ghost use Rattle.world.specs.World.{World};
ghost use Rattle.world.specs.Steps.{Closes};
ghost use Rattle.engine.specs.Engine.{entry_in};
ghost use Rattle.live_tables.specs.Journal.{rows_after};
ghost use Rattle.live_tables.specs.Shut.{IsShut};

use crate::entry::Entry;
use crate::store::Store;
use crate::tickets::Line;
use indexes::Tables;
use tokens::meet;

impl Store {
    /// The tables and the journal, once all transactions that are still open were aborted: what they
    /// did is undone. It takes no memory.
    pub fn shut(self, line: Line) -> (Tables, Vec<Entry>)
        requires line { line.name ≡ self.line.name }
        ensures shut { (w : World) × IsShut self.schema self.world w × Closes w result.0.rows (map entry_in result.1.items) }
        ensures schema { result.0.schema ≡ self.schema }
        ensures serial { result.0.rows ≡ rows_after self.schema self.world.start (map entry_in result.1.items) }
        ensures met { line ≡ self.line }
    {
        let Store {
            mut live,
            start: _,
            mut journal,
            book,
            line: mut kept,
        } = self;
        let Line { mut token } = line;
        meet(&mut kept, &mut token);
        drop(book);
        live.abort_all();
        forget_each(&mut journal);
        (live.into_tables(), journal)
    }
}

// Drops what stood before the changes of entries: nobody walks back behind a run. It takes no memory.
pub(crate) fn forget_each(entries: &mut Vec<Entry>)
    ensures { map entry_in entries.new.items ≡ map entry_in entries.old.items }
{
    forget_all(entries.as_mut_slice());
}

fn forget_all(entries: &mut [Entry])
    ensures told { map entry_in entries.new ≡ map entry_in entries.old }
    ensures long { length entries.new ≡ length entries.old }
{
    for entry in entries.iter_mut() {
        entry.inverses.forget();
    }
}
