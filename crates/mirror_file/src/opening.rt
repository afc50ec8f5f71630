// A file is opened: its tables are made, or read.
ghost use Rattle.std.specs.Prelude.{◌≡◌, ◌≤◌, map, length, IfOk, OnOk};
ghost use Rattle.model.specs.Rows.{keys_of};

use crate::fault::FileFault;
use crate::reading::read_rows;
use catalog::Catalog;
use indexes::Tables;
use mirror_statements::{FileStatements, TableStatements, TableTexts};
use model::{Lsn, TableDef};
use sqlite::types::ValueRef;
use sqlite::{Alter, Connection, Error, ErrorCode};
use std::alloc::Global;

/// A file that was opened.
#[derive(Debug, Drop)]
pub struct Opened {
    /// The statements by which it follows.
    pub statements: FileStatements,
    /// Its rows.
    pub tables: Tables,
    /// The end of the last commit that it has, or 0.
    pub position: Lsn,
    /// The identifier of the system whose stream it follows, once it is known.
    pub system: Option<String>,
}

/// How far a file has come, and in the stream of which system.
#[derive(Debug, Drop)]
struct Standing {
    position: Lsn,
    system: Option<String>,
}

const IS_THERE: &str =
    "SELECT count(*) FROM sqlite_schema WHERE type = 'table' AND name = 'pgapply_position'";

const CREATE: &str =
    "CREATE TABLE pgapply_position (one INTEGER PRIMARY KEY, lsn INTEGER NOT NULL, catalog TEXT NOT NULL, system TEXT) STRICT";

const BEGIN: &str = "INSERT INTO pgapply_position VALUES (1, 0, ?, NULL)";

const FIND: &str = "SELECT lsn, catalog, system FROM pgapply_position WHERE one = 1";

const SET: &str = "UPDATE pgapply_position SET lsn = ? WHERE one = 1";

const SET_SYSTEM: &str = "UPDATE pgapply_position SET system = ? WHERE one = 1";

/// Opens a file for a catalog, of which it is lent tables that are empty. A file without a position gets
/// the catalog's tables; else they must be those that this catalog makes, and their rows are read.
pub fn open<S: Alter>(
    alloc: Global,
    conn: &mut Connection<S>,
    catalog: &Catalog,
    empty: Tables,
) -> Result<Opened, FileFault>
    requires { empty.schema ≡ map keys_of catalog.now }
    ensures { IfOk result (λ opened. opened.tables.schema ≡ map keys_of catalog.now) }
{
    let definitions = catalog.tables();
    let texts = make_texts(alloc, definitions)?;
    let made = join_creates(alloc, texts.as_slice())?;
    let standing = match find_standing(conn, made.as_str())? {
        Some(standing) => standing,
        None => {
            make_tables(conn, texts.as_slice(), made.as_str())?;
            Standing {
                position: 0,
                system: None,
            }
        }
    };
    let statements = prepare(alloc, conn, texts.as_slice())?;
    let mut tables = empty;
    read_tables(alloc, conn, definitions, texts.as_slice(), &mut tables)?;
    let Standing { position, system } = standing;
    Ok(Opened {
        statements,
        tables,
        position,
        system,
    })
}

/// Notes whose stream the file follows from now on: the identifier of its system.
pub fn note_system<S: Alter>(conn: &mut Connection<S>, system: &str) -> Result<(), FileFault> {
    conn.execute(SET_SYSTEM, &[ValueRef::Text(system.as_bytes())])?;
    Ok(())
}

// The texts for all tables.
fn make_texts(alloc: Global, definitions: &[TableDef]) -> Result<Vec<TableTexts>, FileFault> {
    let mut texts = Vec::new(alloc);
    for definition in definitions {
        texts.push(TableTexts::new(alloc, definition)?)?;
    }
    Ok(texts)
}

// The texts that make the tables, a line each: a file of the same has the same tables.
fn join_creates(alloc: Global, texts: &[TableTexts]) -> Result<String, FileFault> {
    let mut joined = String::new(alloc);
    for text in texts {
        joined.push_str(text.create.as_str())?;
        joined.push_str("\n")?;
    }
    Ok(joined)
}

// How far the file has come; none where it has no position yet. Its tables must have been made so.
fn find_standing<S: Alter>(
    conn: &mut Connection<S>,
    made: &str,
) -> Result<Option<Standing>, FileFault> {
    if !has_position(conn)? {
        return Ok(None);
    }
    let row = conn.query_row(FIND, &[])?;
    let lsn: i64 = row.get(0)?;
    let found: String = row.get(1)?;
    if found.as_str() == made {
        Ok(Some(Standing {
            position: lsn.cast_unsigned(),
            system: row.get(2)?,
        }))
    } else {
        Err(FileFault::OtherCatalog)
    }
}

fn has_position<S: Alter>(conn: &mut Connection<S>) -> Result<bool, FileFault> {
    let row = conn.query_row(IS_THERE, &[])?;
    let count: i64 = row.get(0)?;
    Ok(count > 0)
}

// Makes the tables and the position, in one transaction.
fn make_tables<S: Alter>(
    conn: &mut Connection<S>,
    texts: &[TableTexts],
    made: &str,
) -> Result<(), FileFault> {
    if !conn.is_autocommit() {
        return Err(FileFault::Sqlite(Error::SqliteFailure(ErrorCode::TransactionState)));
    }
    let mut tx = conn.transaction();
    for text in texts {
        tx.execute(text.create.as_str(), &[])?;
    }
    tx.execute(CREATE, &[])?;
    tx.execute(BEGIN, &[ValueRef::Text(made.as_bytes())])?;
    tx.commit()?;
    Ok(())
}

// The statements for the file.
fn prepare<S: Alter>(
    alloc: Global,
    conn: &mut Connection<S>,
    texts: &[TableTexts],
) -> Result<FileStatements, FileFault> {
    let mut tables = Vec::new(alloc);
    for text in texts {
        tables.push(prepare_table(conn, text)?)?;
    }
    Ok(FileStatements {
        tables,
        position: conn.prepare(SET)?,
    })
}

fn prepare_table<S: Alter>(
    conn: &mut Connection<S>,
    text: &TableTexts,
) -> Result<TableStatements, FileFault> {
    Ok(TableStatements {
        insert: conn.prepare(text.insert.as_str())?,
        update: conn.prepare(text.update.as_str())?,
        delete: conn.prepare(text.delete.as_str())?,
        clear: conn.prepare(text.clear.as_str())?,
    })
}

// Puts the rows of all tables of the file into the tables.
fn read_tables<S: Alter>(
    alloc: Global,
    conn: &mut Connection<S>,
    definitions: &[TableDef],
    texts: &[TableTexts],
    tables: &mut Tables,
) -> Result<(), FileFault>
    requires { length definitions.now ≤ length tables.old.schema }
    ensures { tables.new.schema ≡ tables.old.schema }
{
    for (table, definition) in definitions.iter().enumerate() {
        if let Some(text) = texts.get(table) {
            read_rows(alloc, conn, text.select.as_str(), definition, table, tables)?;
        }
    }
    Ok(())
}
