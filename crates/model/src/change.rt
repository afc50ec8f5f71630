// A change of tables.
ghost use Rattle.std.specs.Prelude.{◌≡◌, IfOk};

use crate::TableId;
use crate::key::Key;
use crate::memory::OutOfMemory;
use crate::patch::Patch;
use crate::row::Row;
use std::marker::Model;

/// A change of tables, as a row message of the publisher asks for it.
#[derive(Debug, Drop)]
pub enum Change {
    /// An insert of a row.
    Put {
        table: TableId,
        row: Row,
    },
    /// An update of the row at a key.
    Set {
        table: TableId,
        key: Key,
        patch: Patch,
    },
    /// A delete of the row at a key.
    Remove {
        table: TableId,
        key: Key,
    },
    /// A truncate of tables.
    Wipe {
        tables: TableIds,
    },
}

impl Change {
    /// An equal change.
    pub fn copy(&self) -> Result<Change, OutOfMemory>
        ensures { IfOk result (λ c. c ≡ self.now) }
    {
        match self {
            Change::Put { table, row } => Ok(Change::Put {
                table: *table,
                row: row.copy()?,
            }),
            Change::Set { table, key, patch } => Ok(Change::Set {
                table: *table,
                key: key.copy()?,
                patch: patch.copy()?,
            }),
            Change::Remove { table, key } => Ok(Change::Remove {
                table: *table,
                key: key.copy()?,
            }),
            Change::Wipe { tables } => Ok(Change::Wipe {
                tables: tables.copy()?,
            }),
        }
    }
}

/// Places of tables in the catalog. A clause sees the list of them.
#[derive(Debug, Drop)]
pub struct TableIds {
    ids: Vec<TableId>,
}

impl Model for TableIds {
    ghost use Rattle.std.specs.Prelude.{List, ℕ};

    ghost Value = { List ℕ };

    ghost view = { λ t. t.ids.items };
}

impl TableIds {
    /// These places. It takes no memory.
    pub fn from_ids(ids: Vec<TableId>) -> TableIds
        ensures { result ≡ ids.items }
    {
        TableIds { ids }
    }

    /// The places, in the order named.
    pub fn ids(&self) -> &[TableId]
        ensures { result.now ≡ self.now }
    {
        self.ids.as_slice()
    }

    /// The same places.
    pub fn copy(&self) -> Result<TableIds, OutOfMemory>
        ensures { IfOk result (λ t. t ≡ self.now) }
    {
        Ok(TableIds {
            ids: self.ids.clone()?,
        })
    }
}
