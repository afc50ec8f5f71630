// The lines of a change that was made.
ghost use Rattle.std.specs.Prelude.{◌≡◌, ◌<◌, map, length, IfOk, OnOk};
ghost use Rattle.std.specs.FinMap.{get};
ghost use Rattle.model.specs.Rows.{keys_of};
ghost use Rattle.mirror_json.specs.Lines.{AppendsLines};

use crate::deed::Deed;
use crate::fault::JsonFault;
use crate::line::ChangeLine;
use catalog::Catalog;
use change::{Inverse, Wiped};
use indexes::Tables;
use mirror_statements::Commit;
use model::{Key, OutOfMemory, Row, TableId};
use std::mem;

// Appends the lines of the change that was made last, which this takes back.
pub(crate) fn push_done<'a>(
    catalog: &'a Catalog,
    tables: &Tables,
    commit: &Commit,
    inverse: &'a Inverse,
    lines: &mut Vec<u8>,
) -> Result<(), JsonFault>
    requires { tables.now.schema ≡ map keys_of catalog.now }
    ensures { OnOk result (AppendsLines lines.old.items lines.new.items) }
{
    let (table, deed) = match inverse {
        Inverse::Take { table, key } => (*table, Deed::Insert { key }),
        Inverse::Replace { table, key, .. } => (*table, Deed::Update { key, new_key: key }),
        Inverse::Move { table, keys, .. } => (
            *table,
            Deed::Update {
                key: &keys.key,
                new_key: &keys.new_key,
            },
        ),
        Inverse::Put { table, key, .. } => (*table, Deed::Delete { key }),
        Inverse::Unwipe { wiped } => return push_truncates(catalog, tables, commit, wiped, lines),
    };
    push_deed(catalog, tables, commit, table, deed, lines)
}

// Appends a line for each table that was emptied.
fn push_truncates(
    catalog: &Catalog,
    tables: &Tables,
    commit: &Commit,
    wiped: &[Wiped],
    lines: &mut Vec<u8>,
) -> Result<(), JsonFault>
    requires { tables.now.schema ≡ map keys_of catalog.now }
    ensures { OnOk result (AppendsLines lines.old.items lines.new.items) }
{
    for emptied in wiped {
        push_deed(
            catalog,
            tables,
            commit,
            emptied.table,
            Deed::Truncate,
            lines,
        )?;
    }
    Ok(())
}

// Appends the line of what was done to a table. The row is read from the tables as they are now.
fn push_deed<'a>(
    catalog: &'a Catalog,
    tables: &Tables,
    commit: &Commit,
    table: TableId,
    deed: Deed<'a>,
    lines: &mut Vec<u8>,
) -> Result<(), JsonFault>
    requires { tables.now.schema ≡ map keys_of catalog.now }
    ensures { OnOk result (AppendsLines lines.old.items lines.new.items) }
{
    let Some(definition) = catalog.tables().get(table) else {
        return Err(JsonFault::UnknownTable);
    };
    let row = match deed.key_behind() {
        Some(key) => find_row(tables, table, key)?,
        None => None,
    };
    let line = ChangeLine {
        table: definition,
        deed,
        row: row.as_ref(),
        xid: commit.xid,
        end: commit.end,
    };
    let alloc = *lines.allocator();
    let bytes = mem::replace(lines, Vec::new(alloc));
    *lines = line.behind(alloc, bytes)?;
    Ok(())
}

// The row at a key, which shares all that the tables have.
fn find_row(tables: &Tables, table: TableId, key: &Key) -> Result<Option<Row>, OutOfMemory>
    requires { table < length tables.now.schema }
    ensures { IfOk result (λ row. row ≡ get tables.now.rows (table, key.now)) }
{
    match tables.get(table, key) {
        Some(row) => Ok(Some(row.to_row()?)),
        None => Ok(None),
    }
}
