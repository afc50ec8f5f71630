// The simple query protocol: one text of SQL, and its rows as text.
use crate::connection::Connection;
use crate::fault::{Fault, Nonsense};
use crate::line::Line;
use crate::quoting::literal;
use crate::wire;
use crate::wire::Fields;
use std::alloc::Global;

/// A row of an answer.
#[derive(Debug, Drop)]
pub struct Row {
    values: Vec<Option<String>>,
}

impl Row {
    /// The value of a column, none for null.
    pub fn value(&self, column: usize) -> Result<Option<&str>, Fault> {
        match self.values.get(column) {
            Some(Some(text)) => Ok(Some(text.as_str())),
            Some(None) => Ok(None),
            None => Err(Fault::Nonsense(Nonsense::BadRow)),
        }
    }

    /// The text of a column that is never null.
    pub fn text(&self, column: usize) -> Result<&str, Fault> {
        match self.value(column)? {
            Some(text) => Ok(text),
            None => Err(Fault::Nonsense(Nonsense::BadRow)),
        }
    }

    /// A number.
    pub fn number(&self, column: usize) -> Result<u32, Fault> {
        match self.text(column)?.parse::<u32>() {
            Ok(number) => Ok(number),
            Err(_) => Err(Fault::Nonsense(Nonsense::BadRow)),
        }
    }

    /// A boolean, which the server spells `t` or `f`.
    pub fn flag(&self, column: usize) -> Result<bool, Fault> {
        match self.text(column)? {
            "t" => Ok(true),
            "f" => Ok(false),
            _ => Err(Fault::Nonsense(Nonsense::BadRow)),
        }
    }
}

/// How much memory the rows of one answer may take, about.
const MOST_BYTES: usize = 64 * 1024 * 1024;

/// What a row takes beside the bytes of its message, and what each of its values takes.
const OVERHEAD: usize = 48;

/// Runs one text of SQL, and answers its rows, at most so many: more are refused.
pub fn rows<L: Line + Drop>(
    connection: &mut Connection<L>,
    sql: &str,
    most: usize,
) -> Result<Vec<Row>, Fault> {
    let alloc = connection.alloc();
    let query = wire::query(alloc, sql)?;
    connection.send(query.as_slice())?;
    let mut rows = Vec::new(alloc);
    let mut size = 0usize;
    for _ in 0..u64::MAX {
        let message = connection.receive_answer()?;
        match message.tag {
            b'D' => {
                let row = read_row(alloc, message.body.as_slice())?;
                size = size.saturating_add(cost(&row, message.body.len()));
                if rows.len() >= most || size > MOST_BYTES {
                    return Err(Fault::TooManyRows);
                }
                rows.push(row)?;
            }
            b'T' | b'C' | b'I' => {}
            b'Z' => return Ok(rows),
            _ => return Err(Fault::Nonsense(Nonsense::Unexpected)),
        }
    }
    Err(Fault::TimedOut)
}

/// Runs one text of SQL whose answer is one row with a number.
pub fn number<L: Line + Drop>(connection: &mut Connection<L>, sql: &str) -> Result<u32, Fault> {
    match rows(connection, sql, 1)?.first() {
        Some(row) => row.number(0),
        None => Err(Fault::Nonsense(Nonsense::BadRow)),
    }
}

/// Asks a question that ends in a name, which is spelled as a literal, and whose answer is one row at most.
pub fn row_of<L: Line + Drop>(
    connection: &mut Connection<L>,
    question: &str,
    name: &str,
) -> Result<Option<Row>, Fault> {
    let alloc = connection.alloc();
    let name = literal(alloc, name)?;
    let name = name.as_str();
    let sql = format!(in alloc; "{question} {name}")?;
    Ok(rows(connection, sql.as_str(), 1)?.pop())
}

/// About how many bytes a row takes that came in a message of so many.
fn cost(row: &Row, length: usize) -> usize {
    let values = row.values.len().saturating_add(1);
    length.saturating_add(values.saturating_mul(OVERHEAD))
}

/// DataRow.
fn read_row(alloc: Global, body: &[u8]) -> Result<Row, Fault> {
    let mut fields = Fields::new(body);
    let mut values = Vec::new(alloc);
    for _ in 0..fields.int16()? {
        values.push(read_value(alloc, &mut fields)?)?;
    }
    if fields.is_empty() {
        Ok(Row { values })
    } else {
        Err(Fault::Nonsense(Nonsense::BadFields))
    }
}

fn read_value(alloc: Global, fields: &mut Fields<'_>) -> Result<Option<String>, Fault> {
    let length = fields.int32()?;
    if length == u32::MAX {
        return Ok(None);
    }
    let bytes = fields.take(length as usize)?;
    match std::str::from_utf8(bytes) {
        Ok(text) => Ok(Some(String::from_str(alloc, text)?)),
        Err(_) => Err(Fault::Nonsense(Nonsense::BadText)),
    }
}
