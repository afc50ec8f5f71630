// The catalog of a publication's tables, as TOML.
use crate::columns::{DefaultValue, Kind, ServerType, read_default};
use crate::keys::{Key, identity_of, read_keys};
use crate::sql;
use crate::statement::{entry, statement};
use crate::toml_text::{push_comma, push_string, push_strings};
use server::checks::check_version;
use server::connection::Connection;
use server::fault::Fault;
use server::line::Line;
use server::query::{Row, row_of, rows};
use server::quoting::literal;
use server::shown::Shown;
use std::alloc::Global;

/// A catalog, and what it leaves out.
#[derive(Debug, Drop)]
pub struct Printed {
    /// The catalog.
    pub toml: String,
    /// A line for each table, column, key or default that isn't kept, with the reason.
    pub notes: Vec<String>,
    /// CREATE PUBLICATION, of one that has the tables and columns that are kept and no others. None where no
    /// table is kept.
    pub statement: Option<String>,
}

/// The oldest server: 14.
const OLDEST: u32 = 140_000;

/// How many tables are asked for at most, and how many columns a table of the server may have.
const MOST_TABLES: usize = 1024;

const MOST_COLUMNS: usize = 1600;

/// What the server says of a publication: its own `server_version_num`, the publication itself, its
/// tables, the columns of these, and the columns of their unique keys.
#[derive(Debug, Drop)]
pub struct Answers {
    pub version: u32,
    pub publication: Row,
    pub tables: Vec<Row>,
    pub columns: Vec<Row>,
    pub keys: Vec<Row>,
}

/// Asks the server for the publication's tables.
pub fn ask<L: Line + Drop>(
    connection: &mut Connection<L>,
    publication: &str,
) -> Result<Answers, Fault> {
    let alloc = connection.alloc();
    let version = check_version(connection, OLDEST)?;
    let Some(found) = row_of(connection, sql::PUBLICATION, publication)? else {
        return Err(Fault::NoPublication);
    };
    let name = literal(alloc, publication)?;
    let listed = sql::listed(alloc, name.as_str(), version)?;
    let listed = listed.as_str();
    let most = MOST_TABLES * MOST_COLUMNS;
    Ok(Answers {
        version,
        publication: found,
        tables: rows(
            connection,
            sql::tables(alloc, listed)?.as_str(),
            MOST_TABLES,
        )?,
        columns: rows(connection, sql::columns(alloc, listed)?.as_str(), most)?,
        keys: rows(
            connection,
            sql::keys(alloc, listed, version)?.as_str(),
            most,
        )?,
    })
}

/// The catalog of these tables. With `text`, columns of other types are kept as text where that is sound.
pub fn print(alloc: Global, answers: &Answers, text: bool) -> Result<Printed, Fault> {
    let mut printed = Printed {
        toml: String::new(alloc),
        notes: Vec::new(alloc),
        statement: None,
    };
    let mut entries = Vec::new(alloc);
    for table in &answers.tables {
        if let Some(entry) = print_table(alloc, &mut printed, answers, table, text)? {
            entries.push(entry)?;
        }
    }
    if !entries.is_empty() {
        printed.statement = Some(statement(alloc, &answers.publication, entries.as_slice())?);
    }
    Ok(printed)
}

/// A column that is kept.
#[derive(Drop)]
pub(crate) struct Column {
    pub(crate) number: u32,
    pub(crate) name: String,
    kind: Kind,
    default: DefaultValue,
}

/// Adds one table, or a note that says why it is left out. It answers what CREATE PUBLICATION has of the table.
fn print_table(
    alloc: Global,
    printed: &mut Printed,
    answers: &Answers,
    table: &Row,
    text: bool,
) -> Result<Option<String>, Fault> {
    let oid = table.number(0)?;
    let label = label(alloc, table)?;
    let label = label.as_str();
    note_filter(alloc, &mut printed.notes, table, label)?;
    let columns = kept_columns(alloc, &mut printed.notes, answers, oid, label, text)?;
    let keys = read_keys(alloc, answers.keys.as_slice(), oid)?;
    let kept = Kept {
        label,
        columns: columns.as_slice(),
        keys: keys.as_slice(),
    };
    match primary_of(alloc, &kept, table.text(3)?)? {
        Ok(primary) => {
            let uniques = uniques_of(alloc, &mut printed.notes, &kept)?;
            push_table(
                &mut printed.toml,
                table,
                &kept,
                primary.as_slice(),
                uniques.as_slice(),
            )?;
            entry_or_note(alloc, &mut printed.notes, answers, table, &kept)
        }
        Err(reason) => {
            let note = format!(in alloc;
                "table {label} is left out: {reason}; a change of it ends a run with TableMissing"
            )?;
            printed.notes.push(note)?;
            Ok(None)
        }
    }
}

/// Adds a note where a table's rows are filtered.
fn note_filter(
    alloc: Global,
    notes: &mut Vec<String>,
    table: &Row,
    label: &str,
) -> Result<(), Fault> {
    if table.value(4)?.is_some() {
        let note = format!(in alloc; "table {label}: its rows are filtered, and only those come")?;
        notes.push(note)?;
    }
    Ok(())
}

/// What is kept of a table, and its keys.
#[derive(Clone, Copy)]
pub(crate) struct Kept<'a> {
    label: &'a str,
    pub(crate) columns: &'a [Column],
    pub(crate) keys: &'a [Key],
}

/// What CREATE PUBLICATION has of a table that is kept, or a note that says why it can't have it.
fn entry_or_note(
    alloc: Global,
    notes: &mut Vec<String>,
    answers: &Answers,
    table: &Row,
    kept: &Kept<'_>,
) -> Result<Option<String>, Fault> {
    match entry(alloc, answers, table, kept)? {
        Ok(entry) => Ok(Some(entry)),
        Err(reason) => {
            let label = kept.label;
            let note = format!(in alloc;
                "table {label} is kept, and CREATE PUBLICATION lacks it: {reason}"
            )?;
            notes.push(note)?;
            Ok(None)
        }
    }
}

/// A table's name for a note.
fn label(alloc: Global, table: &Row) -> Result<String, Fault> {
    let space = Shown(table.text(1)?);
    let name = Shown(table.text(2)?);
    Ok(format!(in alloc; "\"{space}\".\"{name}\"")?)
}

/// The columns of a table that are kept, with a note for each that isn't.
fn kept_columns(
    alloc: Global,
    notes: &mut Vec<String>,
    answers: &Answers,
    table: u32,
    label: &str,
    text: bool,
) -> Result<Vec<Column>, Fault> {
    let mut columns = Vec::new(alloc);
    for row in &answers.columns {
        if row.number(0)? != table {
            continue;
        }
        let name = row.text(2)?;
        match kept_kind(row, text)? {
            Ok((kind, own)) => {
                let default = kept_default(alloc, notes, row, label, kind, own)?;
                columns.push(Column {
                    number: row.number(1)?,
                    name: String::from_str(alloc, name)?,
                    kind,
                    default,
                })?;
            }
            Err(reason) => {
                let type_name = Shown(row.text(10)?);
                let name = Shown(name);
                let note = format!(in alloc;
                    "table {label}: column \"{name}\" of type {type_name} is left out, {reason}"
                )?;
                notes.push(note)?;
            }
        }
    }
    Ok(columns)
}

/// The subscriber's type of a column and whether it is the column's own, or why it isn't kept.
fn kept_kind(row: &Row, text: bool) -> Result<Result<(Kind, bool), &'static str>, Fault> {
    if row.flag(7)? {
        return Ok(Err("since it is generated, and is not sent"));
    }
    if !row.flag(8)? {
        return Ok(Err("since it is not in the publication's list of columns"));
    }
    let server_type = ServerType {
        oid: row.number(3)?,
        is_enum: row.text(4)? == "e",
        element: row.number(5)?,
        has_enums: row.text(6)? == "e",
    };
    Ok(match server_type.kind() {
        Some(kind) => Ok((kind, true)),
        None if !server_type.has_faithful_text() => {
            Err(
                "and a change of the table ends a run with ColumnMissing: the subscriber has no such type, and its text does not stand for the value",
            )
        }
        None if text => Ok((Kind::Text, false)),
        None => Err(
            "and a change of the table ends a run with ColumnMissing: the subscriber has no such type; --text keeps it as text",
        ),
    })
}

/// The default of a column that is kept, with a note where it is no constant.
fn kept_default(
    alloc: Global,
    notes: &mut Vec<String>,
    row: &Row,
    label: &str,
    kind: Kind,
    own: bool,
) -> Result<DefaultValue, Fault> {
    let Some(expression) = row.value(9)? else {
        return Ok(DefaultValue::Null);
    };
    if own {
        let default = read_default(alloc, kind, expression)?;
        if default != DefaultValue::Other {
            return Ok(default);
        }
    }
    let name = Shown(row.text(2)?);
    let note = format!(in alloc;
        "table {label}: the default of column \"{name}\" is left out: it is no constant of the subscriber's type"
    )?;
    notes.push(note)?;
    Ok(DefaultValue::Null)
}

/// The names of a key's columns, or none where one isn't kept.
fn names_of(alloc: Global, columns: &[Column], key: &Key) -> Result<Option<Vec<String>>, Fault> {
    let mut names = Vec::new(alloc);
    for number in &key.columns {
        match columns.iter().find(|column| column.number == *number) {
            Some(column) => names.push(column.name.clone()?)?,
            None => return Ok(None),
        }
    }
    Ok(Some(names))
}

/// The columns of the primary key, or why the table isn't kept.
fn primary_of(
    alloc: Global,
    kept: &Kept<'_>,
    identity: &str,
) -> Result<Result<Vec<String>, &'static str>, Fault> {
    let Some(primary) = kept.keys.iter().find(|key| key.is_primary) else {
        return Ok(Err("it has no primary key"));
    };
    if !primary.is_immediate {
        return Ok(Err("its primary key is deferrable"));
    }
    if identity == "i"
        && !identity_of(kept.keys).is_some_and(|identity| primary.is_within(
            identity.columns.as_slice(),
        ))
    {
        return Ok(Err("its replica identity lacks columns of the primary key"));
    }
    Ok(match names_of(alloc, kept.columns, primary)? {
        Some(names) => Ok(names),
        None => Err("a column of its primary key is left out"),
    })
}

/// How many unique keys a table of the subscriber has at most, beside the primary key.
const MOST_UNIQUES: usize = 16;

/// The further unique keys that fit, with a note for each that doesn't.
fn uniques_of(
    alloc: Global,
    notes: &mut Vec<String>,
    kept: &Kept<'_>,
) -> Result<Vec<Vec<String>>, Fault> {
    let mut uniques = Vec::new(alloc);
    for key in kept.keys {
        if key.is_primary {
            continue;
        }
        let reason = match key.misfit() {
            Some(reason) => reason,
            None => match names_of(alloc, kept.columns, key)? {
                Some(_) if uniques.len() == MOST_UNIQUES => "the subscriber takes sixteen",
                Some(names) => {
                    uniques.push(names)?;
                    continue;
                }
                None => "a column of it is left out",
            },
        };
        let label = kept.label;
        let name = Shown(key.name.as_str());
        let note = format!(in alloc; "table {label}: unique key \"{name}\" is left out: {reason}")?;
        notes.push(note)?;
    }
    Ok(uniques)
}

/// Appends a table.
fn push_table(
    out: &mut String,
    table: &Row,
    kept: &Kept<'_>,
    primary: &[String],
    uniques: &[Vec<String>],
) -> Result<(), Fault> {
    if !out.is_empty() {
        out.push('\n')?;
    }
    out.push_str("[[table]]\nnamespace = ")?;
    push_string(out, table.text(1)?)?;
    out.push_str("\nname = ")?;
    push_string(out, table.text(2)?)?;
    out.push_str("\nprimary = ")?;
    push_strings(out, primary)?;
    out.push('\n')?;
    if !uniques.is_empty() {
        out.push_str("unique = [")?;
        push_uniques(out, uniques)?;
        out.push_str("]\n")?;
    }
    for column in kept.columns {
        push_column(out, column)?;
    }
    Ok(())
}

/// Appends the elements of a table's unique keys.
fn push_uniques(out: &mut String, uniques: &[Vec<String>]) -> Result<(), Fault> {
    for (index, names) in uniques.iter().enumerate() {
        push_comma(out, index)?;
        push_strings(out, names.as_slice())?;
    }
    Ok(())
}

fn push_column(out: &mut String, column: &Column) -> Result<(), Fault> {
    out.push_str("[[table.column]]\nname = ")?;
    push_string(out, column.name.as_str())?;
    let kind = column.kind.name();
    write!(out, "\ntype = \"{kind}\"\n")?;
    match &column.default {
        DefaultValue::Null | DefaultValue::Other => {}
        DefaultValue::Int(number) => {
            let number = *number;
            write!(out, "default = {number}\n")?;
        }
        DefaultValue::Bool(value) => {
            out.push_str(if *value {
                "default = true\n"
            } else {
                "default = false\n"
            })?;
        }
        DefaultValue::Text(text) => {
            out.push_str("default = ")?;
            push_string(out, text.as_str())?;
            out.push('\n')?;
        }
    }
    Ok(())
}
