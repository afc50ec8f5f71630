// What stood in a table before entries of the journal.
ghost use Rattle.std.specs.Prelude.{OnOk};
ghost use Rattle.change.specs.Edits.{laid_together};
ghost use Rattle.change.specs.Laid.{IsLaidUnder};
ghost use Rattle.engine.specs.Engine.{edits_behind};

use crate::entry::Entry;
use model::{Key, OutOfMemory, Row, TableId};
use std::collections::BTreeMap;

/// Adds to what is known of a table's rows, key by key, what stood there before these entries: at a key the
/// oldest change has the say, and none where something is known already. Refused for memory, a part is
/// added.
pub(crate) fn lay_entries(
    entries: &[Entry],
    table: TableId,
    known: &mut BTreeMap<Key, Option<Row>>,
) -> Result<(), OutOfMemory>
    ensures { OnOk result (IsLaidUnder known.old table (laid_together (edits_behind entries.now)) known.new) }
{
    for entry in entries {
        entry.inverses.lay_under(table, known)?;
    }
    Ok(())
}
