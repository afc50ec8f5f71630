// CREATE PUBLICATION, of one that has just what a catalog keeps: its stream has no change that the catalog has
// no table or no column for.
use crate::catalog::{Answers, Kept};
use crate::keys::identity_of;
use crate::sql::WITH_LISTS;
use crate::toml_text::push_comma;
use server::fault::Fault;
use server::query::Row;
use server::quoting;
use server::shown::is_obeyed;
use std::alloc::Global;

/// CREATE PUBLICATION with these tables, and otherwise as this publication is. Its name is that one's, and
/// `_kept`.
pub fn statement(alloc: Global, publication: &Row, entries: &[String]) -> Result<String, Fault> {
    let name = publication.text(0)?;
    let name = identifier(alloc, format!(in alloc; "{name}_kept")?.as_str())?;
    let name = name.as_str();
    let mut out = format!(in alloc; "CREATE PUBLICATION {name} FOR TABLE ")?;
    for (index, entry) in entries.iter().enumerate() {
        push_comma(&mut out, index)?;
        out.push_str(entry.as_str())?;
    }
    out.push_str(" WITH (publish = '")?;
    push_changes(&mut out, publication)?;
    let root = publication.flag(1)?;
    write!(out, "', publish_via_partition_root = {root});")?;
    Ok(out)
}

/// Appends the kinds of changes that a publication has.
fn push_changes(out: &mut String, publication: &Row) -> Result<(), Fault> {
    let mut count = 0;
    for (column, kind) in [(2, "insert"), (3, "update"), (4, "delete"), (5, "truncate")] {
        if publication.flag(column)? {
            push_comma(out, count)?;
            out.push_str(kind)?;
            count = 1;
        }
    }
    Ok(())
}

/// A table as CREATE PUBLICATION takes it, with a list of its columns where one was left out, or why no
/// publication fits. Tables that inherit from it have entries of their own.
pub(crate) fn entry(
    alloc: Global,
    answers: &Answers,
    table: &Row,
    kept: &Kept<'_>,
) -> Result<Result<String, &'static str>, Fault> {
    let space = identifier(alloc, table.text(1)?)?;
    let space = space.as_str();
    let name = identifier(alloc, table.text(2)?)?;
    let name = name.as_str();
    let mut out = format!(in alloc; "ONLY {space}.{name}")?;
    if sent_columns(answers, table.number(0)?)? > kept.columns.len() {
        if answers.version < WITH_LISTS {
            return Ok(Err("a server before 15 has no lists of columns"));
        }
        if !is_identified(alloc, table.text(3)?, kept)? {
            return Ok(Err("a column of its replica identity is left out"));
        }
        push_columns(alloc, &mut out, kept)?;
    }
    if let Some(filter) = table.value(4)? {
        if filter.chars().any(is_obeyed) {
            return Ok(Err("the filter of its rows has characters that a terminal would obey"));
        }
        write!(out, " WHERE ({filter})")?;
    }
    Ok(Ok(out))
}

/// How many columns the stream of a table may have: all but those that are generated.
fn sent_columns(answers: &Answers, table: u32) -> Result<usize, Fault> {
    let mut count = 0usize;
    for row in &answers.columns {
        if row.number(0)? == table && !row.flag(7)? {
            count = count.saturating_add(1);
        }
    }
    Ok(count)
}

/// Whether the columns that are kept have the replica identity. A server refuses updates and deletes of a table
/// whose list of columns hasn't. The primary key is kept in any case.
fn is_identified(alloc: Global, identity: &str, kept: &Kept<'_>) -> Result<bool, Fault> {
    let mut numbers = Vec::new(alloc);
    for column in kept.columns {
        numbers.push(column.number)?;
    }
    Ok(match identity {
        "f" => false,
        "i" => identity_of(kept.keys).is_some_and(|key| key.is_within(numbers.as_slice())),
        _ => true,
    })
}

/// Appends the list of the columns that are kept.
fn push_columns(alloc: Global, out: &mut String, kept: &Kept<'_>) -> Result<(), Fault> {
    out.push_str(" (")?;
    for (index, column) in kept.columns.iter().enumerate() {
        push_comma(out, index)?;
        out.push_str(identifier(alloc, column.name.as_str())?.as_str())?;
    }
    out.push(')')?;
    Ok(())
}

/// A name as an identifier of SQL that a terminal shows: characters that it would obey are spelled by their
/// numbers, as PostgreSQL reads them behind `U&`.
fn identifier(alloc: Global, name: &str) -> Result<String, Fault> {
    if !name.chars().any(is_obeyed) {
        return quoting::identifier(alloc, name);
    }
    let mut out = String::from_str(alloc, "U&\"")?;
    for letter in name.chars() {
        match letter {
            '"' => out.push_str("\"\"")?,
            '\\' => out.push_str("\\\\")?,
            other if is_obeyed(other) => {
                let code = u32::from(other);
                write!(out, "\\{code:04X}")?;
            }
            other => out.push(other)?,
        }
    }
    out.push('"')?;
    Ok(out)
}
