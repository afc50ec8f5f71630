// A change cut to its tables.
ghost use Rattle.std.specs.Prelude.{◌≡◌, ℕ, [], ◌∷◌, None, IfOk, IfSome};
ghost use Rattle.model.specs.declared.change.Change.TheVariants.{Wipe};
ghost use Rattle.world_parts.specs.ByTable.{IsIn};

use model::{Change, OutOfMemory, TableId, TableIds};
use std::alloc::Global;

/// The table of a change that names one alone; none of a truncate that names several, or one twice.
pub fn only_table(change: &Change) -> Option<TableId>
    ensures table { IfSome result (λ table. IsIn table change.now) }
    ensures several { result ≡ None → (table : ℕ) → ¬ IsIn table change.now }
{
    match change {
        Change::Put { table, .. } | Change::Set { table, .. } | Change::Remove { table, .. } => {
            Some(*table)
        }
        Change::Wipe { tables } => match tables.ids() {
            [table] => Some(*table),
            _ => None,
        },
    }
}

/// What a truncate that names a table is in that table: one of it alone.
pub fn truncate_of(alloc: Global, table: TableId) -> Result<Change, OutOfMemory>
    ensures { IfOk result (λ c. c ≡ Wipe (table ∷ [])) }
{
    let mut ids = Vec::new(alloc);
    ids.push(table)?;
    Ok(Change::Wipe {
        tables: TableIds::from_ids(ids),
    })
}
