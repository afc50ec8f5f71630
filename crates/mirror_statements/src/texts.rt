// The texts of SQL for a table.
use model::{Column, ColumnType, KeyColumns, TableDef};
use std::alloc::{AllocError, Global};

/// The texts of SQL for a table of the catalog. No clause says what they mean.
#[derive(Debug, Drop)]
pub struct TableTexts {
    /// Makes the table.
    pub create: String,
    /// Inserts a row.
    pub insert: String,
    /// Updates the row at a key.
    pub update: String,
    /// Deletes the row at a key.
    pub delete: String,
    /// Deletes all rows.
    pub clear: String,
    /// Reads all rows.
    pub select: String,
}

impl TableTexts {
    /// The texts for a table. One of the schema `public` has its own name in the file, each other
    /// `schema.name`.
    pub fn new(alloc: Global, table: &TableDef) -> Result<TableTexts, AllocError> {
        Ok(TableTexts {
            create: create_text(alloc, table)?,
            insert: insert_text(alloc, table)?,
            update: update_text(alloc, table)?,
            delete: delete_text(alloc, table)?,
            clear: clear_text(alloc, table)?,
            select: select_text(alloc, table)?,
        })
    }
}

fn create_text(alloc: Global, table: &TableDef) -> Result<String, AllocError> {
    let mut text = String::from_str(alloc, "CREATE TABLE ")?;
    push_table(&mut text, table)?;
    text.push_str(" (")?;
    for (number, column) in table.columns().iter().enumerate() {
        push_name(&mut text, column.name.as_str())?;
        text.push_str(match column.kind {
            ColumnType::Int | ColumnType::Bool => " INTEGER",
            ColumnType::Text => " TEXT",
        })?;
        let is_key = table.primary().numbers().contains(&number);
        text.push_str(if is_key { " NOT NULL, " } else { ", " })?;
    }
    text.push_str("PRIMARY KEY ")?;
    push_key(&mut text, table, table.primary())?;
    for unique in table.uniques() {
        text.push_str(", UNIQUE ")?;
        push_key(&mut text, table, unique)?;
    }
    text.push_str(") STRICT")?;
    Ok(text)
}

fn insert_text(alloc: Global, table: &TableDef) -> Result<String, AllocError> {
    let mut text = String::from_str(alloc, "INSERT INTO ")?;
    push_table(&mut text, table)?;
    text.push_str(" VALUES (")?;
    for number in 0..table.columns().len() {
        text.push_str(if number == 0 { "?" } else { ", ?" })?;
    }
    text.push_str(")")?;
    Ok(text)
}

// For each column it takes whether it is written, and what.
fn update_text(alloc: Global, table: &TableDef) -> Result<String, AllocError> {
    let mut text = String::from_str(alloc, "UPDATE ")?;
    push_table(&mut text, table)?;
    let mut between = " SET ";
    for column in table.columns() {
        text.push_str(between)?;
        between = ", ";
        push_name(&mut text, column.name.as_str())?;
        text.push_str(" = CASE WHEN ? THEN ? ELSE ")?;
        push_name(&mut text, column.name.as_str())?;
        text.push_str(" END")?;
    }
    push_where(&mut text, table)?;
    Ok(text)
}

fn delete_text(alloc: Global, table: &TableDef) -> Result<String, AllocError> {
    let mut text = clear_text(alloc, table)?;
    push_where(&mut text, table)?;
    Ok(text)
}

fn clear_text(alloc: Global, table: &TableDef) -> Result<String, AllocError> {
    let mut text = String::from_str(alloc, "DELETE FROM ")?;
    push_table(&mut text, table)?;
    Ok(text)
}

fn select_text(alloc: Global, table: &TableDef) -> Result<String, AllocError> {
    let mut text = String::from_str(alloc, "SELECT ")?;
    push_columns(&mut text, table.columns())?;
    text.push_str(" FROM ")?;
    push_table(&mut text, table)?;
    Ok(text)
}

// Appends the names of columns.
fn push_columns(text: &mut String, columns: &[Column]) -> Result<(), AllocError> {
    let mut between = "";
    for column in columns {
        text.push_str(between)?;
        between = ", ";
        push_name(text, column.name.as_str())?;
    }
    Ok(())
}

// Appends the condition that a row is the one at a key.
fn push_where(text: &mut String, table: &TableDef) -> Result<(), AllocError> {
    let mut between = " WHERE ";
    for number in table.primary().numbers() {
        if let Some(column) = table.columns().get(*number) {
            text.push_str(between)?;
            between = " AND ";
            push_name(text, column.name.as_str())?;
            text.push_str(" = ?")?;
        }
    }
    Ok(())
}

// Appends the columns of a key in parentheses.
fn push_key(text: &mut String, table: &TableDef, key: &KeyColumns) -> Result<(), AllocError> {
    let mut between = "(";
    for number in key.numbers() {
        if let Some(column) = table.columns().get(*number) {
            text.push_str(between)?;
            between = ", ";
            push_name(text, column.name.as_str())?;
        }
    }
    text.push_str(")")
}

// Appends the name that a table has in the file.
fn push_table(text: &mut String, table: &TableDef) -> Result<(), AllocError> {
    text.push_str("\"")?;
    if table.namespace().as_str() != "public" {
        push_quoted(text, table.namespace().as_str())?;
        text.push_str(".")?;
    }
    push_quoted(text, table.name().as_str())?;
    text.push_str("\"")
}

// Appends a name in quotes.
fn push_name(text: &mut String, name: &str) -> Result<(), AllocError> {
    text.push_str("\"")?;
    push_quoted(text, name)?;
    text.push_str("\"")
}

// Appends a name as it stands between quotes: each quote twice.
fn push_quoted(text: &mut String, name: &str) -> Result<(), AllocError> {
    for letter in name.chars() {
        if letter == '"' {
            text.push(letter)?;
        }
        text.push(letter)?;
    }
    Ok(())
}
