// The lines of commits.
ghost use Rattle.std.specs.Prelude.{◌≡◌, IsTrue, map, length, OnOk, OnErr};
ghost use Rattle.model.specs.Rows.{keys_of};
ghost use Rattle.model.specs.Named.{NamesTables};
ghost use Rattle.model.specs.Effect.{effect, serial};
ghost use Rattle.undo.specs.Undo.{CanUndo};
ghost use Rattle.mirror_json.specs.Followed.{rows_behind, rows_undone};
ghost use Rattle.mirror_json.specs.Lines.{AppendsLines};

use crate::done::push_done;
use crate::fault::JsonFault;
use catalog::Catalog;
use indexes::Tables;
use mirror_statements::Commit;
use model::Change;
use std::alloc::Global;
use std::marker::Model;
use undo::UndoLog;

/// Makes the lines of commits, one batch behind another. A clause sees the tables behind those so far.
#[derive(Debug, Drop)]
pub struct JsonLines {
    alloc: Global,
    tables: Tables,
}

impl Model for JsonLines {
    ghost use Rattle.indexes.specs.Content.{Content};

    ghost Value = { Content };

    ghost use Rattle.indexes.specs.Codes.{content_code};

    ghost coded = { content_code };

    ghost view = { λ l. l.tables };
}

impl JsonLines {
    /// Over tables as they are before the first commit.
    pub fn new(alloc: Global, tables: Tables) -> JsonLines
        ensures { result ≡ tables }
    {
        JsonLines { alloc, tables }
    }

    /// Appends a line for each change of these commits that met a row, and for each table that one
    /// empties. Refused, it has appended nothing, and no row has changed.
    pub fn push_commits(
        &mut self,
        catalog: &Catalog,
        commits: &[Commit],
        out: &mut Vec<u8>,
    ) -> Result<(), JsonFault>
        requires { self.old.schema ≡ map keys_of catalog.now }
        ensures schema { self.new.schema ≡ self.old.schema }
        ensures rows { OnOk result
            (self.new.rows ≡ rows_behind self.old.schema self.old.rows commits.now) }
        ensures lines { OnOk result (AppendsLines out.old.items out.new.items) }
        ensures unmoved { OnErr result (self.new.rows ≡ self.old.rows) }
        ensures nothing { OnErr result (out.new.items ≡ out.old.items) }
    {
        let mut log = UndoLog::new(self.alloc);
        match append_all(
            self.alloc,
            catalog,
            &mut self.tables,
            &mut log,
            commits,
            out,
        ) {
            Ok(()) => {
                log.settle(&mut self.tables);
                Ok(())
            }
            Err(fault) => {
                log.undo_to(&mut self.tables, 0);
                Err(fault)
            }
        }
    }
}

// Makes the changes of commits, and appends their lines once all are made. Refused, some are made.
fn append_all(
    alloc: Global,
    catalog: &Catalog,
    tables: &mut Tables,
    log: &mut UndoLog,
    commits: &[Commit],
    out: &mut Vec<u8>,
) -> Result<(), JsonFault>
    requires of_catalog { tables.old.schema ≡ map keys_of catalog.now }
    requires can { CanUndo tables.old log.old.inverses }
    ensures schema { tables.new.schema ≡ tables.old.schema }
    ensures rows { OnOk result
        (tables.new.rows ≡ rows_behind tables.old.schema tables.old.rows commits.now) }
    ensures lines { OnOk result (AppendsLines out.old.items out.new.items) }
    ensures nothing { OnErr result (out.new.items ≡ out.old.items) }
    ensures base { rows_undone tables.new log.new ≡ rows_undone tables.old log.old }
    ensures can { CanUndo tables.new log.new.inverses }
{
    let mut lines = Vec::new(alloc);
    for commit in commits {
        follow(catalog, tables, log, commit, &mut lines)?;
    }
    out.extend_from_slice(lines.as_slice())?;
    Ok(())
}

// Makes the changes of a commit, and appends their lines.
fn follow(
    catalog: &Catalog,
    tables: &mut Tables,
    log: &mut UndoLog,
    commit: &Commit,
    lines: &mut Vec<u8>,
) -> Result<(), JsonFault>
    requires of_catalog { tables.old.schema ≡ map keys_of catalog.now }
    requires can { CanUndo tables.old log.old.inverses }
    ensures schema { tables.new.schema ≡ tables.old.schema }
    ensures rows { OnOk result
        (tables.new.rows ≡ serial tables.old.schema tables.old.rows commit.now.changes) }
    ensures lines { OnOk result (AppendsLines lines.old.items lines.new.items) }
    ensures base { rows_undone tables.new log.new ≡ rows_undone tables.old log.old }
    ensures can { CanUndo tables.new log.new.inverses }
{
    for change in &commit.changes {
        follow_change(catalog, tables, log, commit, change, lines)?;
    }
    Ok(())
}

// Makes a change, and appends its lines, if it met a row.
fn follow_change(
    catalog: &Catalog,
    tables: &mut Tables,
    log: &mut UndoLog,
    commit: &Commit,
    change: &Change,
    lines: &mut Vec<u8>,
) -> Result<(), JsonFault>
    requires of_catalog { tables.old.schema ≡ map keys_of catalog.now }
    requires can { CanUndo tables.old log.old.inverses }
    ensures schema { tables.new.schema ≡ tables.old.schema }
    ensures rows { OnOk result
        (tables.new.rows ≡ effect tables.old.schema tables.old.rows change.now) }
    ensures lines { OnOk result (AppendsLines lines.old.items lines.new.items) }
    ensures base { rows_undone tables.new log.new ≡ rows_undone tables.old log.old }
    ensures can { CanUndo tables.new log.new.inverses }
{
    if !names_tables(tables.len(), change) {
        return Err(JsonFault::UnknownTable);
    }
    let mark = log.mark();
    log.apply(*lines.allocator(), tables, change)?;
    match log.get(mark) {
        Some(inverse) => push_done(catalog, tables, commit, inverse, lines),
        None => Ok(()),
    }
}

// Whether a change names tables that are among the first so many.
fn names_tables(count: usize, change: &Change) -> bool
    ensures { IsTrue result → NamesTables count change.now }
{
    match change {
        Change::Put { table, .. } | Change::Set { table, .. } | Change::Remove { table, .. } => {
            *table < count
        }
        Change::Wipe { tables } => tables.ids().iter().all(|table| *table < count),
    }
}
