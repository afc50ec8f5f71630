// How many changes met no row: the one sign that the tables are no true copy of the publisher's.
ghost use Rattle.std.specs.Prelude.{◌≡◌, true};
ghost use Rattle.model.specs.Named.{NamesTables};

use catalog::Catalog;
use change::{Applied, Clash, apply};
use indexes::Tables;
use leader::Entry;
use model::Change;
use std::alloc::Global;

/// Makes the changes of a journal again, from empty tables, and counts those that find no row at their key.
pub fn count_unmet(alloc: Global, catalog: &Catalog, journal: &[Entry]) -> Result<u64, Clash> {
    let mut tables = Tables::empty(alloc, catalog)?;
    let mut count: u64 = 0;
    for entry in journal {
        for change in entry.changes.iter() {
            if names_tables(change, tables.len()) {
                match apply(alloc, &mut tables, change)? {
                    Applied::Skipped => count = count.saturating_add(1),
                    Applied::Done(_) => {}
                }
            }
        }
    }
    Ok(count)
}

/// Whether all tables that a change names are among so many.
fn names_tables(change: &Change, count: usize) -> bool
    ensures { result ≡ true → NamesTables count change.now }
{
    match change {
        Change::Put { table, .. } => *table < count,
        Change::Set { table, .. } => *table < count,
        Change::Remove { table, .. } => *table < count,
        Change::Wipe { tables } => tables.ids().iter().all(|table| *table < count),
    }
}
