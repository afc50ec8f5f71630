// The rows of one table, moved out of tables and into them. No row is copied.
ghost use Rattle.std.specs.Prelude.{◌≡◌, ◌<◌, IfOk, OnOk, OnErr, length};
ghost use Rattle.std.specs.FinMap as finite;
ghost use Rattle.world_parts.specs.ByTable.{rows_at};
ghost use Rattle.table_locks.specs.Moving.{SameBeside};

use indexes::Tables;
use model::{OutOfMemory, TableId};

/// The rows of a table, taken out of these tables. A refusal takes none.
pub(crate) fn take_out(tables: &mut Tables, number: TableId) -> Result<Tables, OutOfMemory>
    requires { number < length tables.old.schema }
    ensures keys { IfOk result (λ own. own.schema ≡ tables.old.schema) }
    ensures rows { IfOk result (λ own. own.rows ≡ rows_at number tables.old.rows) }
    ensures schema { tables.new.schema ≡ tables.old.schema }
    ensures taken { OnOk result (rows_at number tables.new.rows ≡ finite.empty) }
    ensures beside { SameBeside number tables.old.rows tables.new.rows }
    ensures err { OnErr result (tables.new ≡ tables.old) }
{
    let mut own = tables.blank()?;
    tables.exchange(number, &mut own);
    Ok(own)
}

/// The rows of a table come into these tables, in place of those that they have of it. It takes no
/// memory.
pub(crate) fn put_in(tables: &mut Tables, number: TableId, mut own: Tables)
    requires known { number < length tables.old.schema }
    requires keys { own.schema ≡ tables.old.schema }
    ensures schema { tables.new.schema ≡ tables.old.schema }
    ensures here { rows_at number tables.new.rows ≡ rows_at number own.rows }
    ensures beside { SameBeside number tables.old.rows tables.new.rows }
{
    tables.exchange(number, &mut own);
}
