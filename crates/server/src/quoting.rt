// Names and texts as SQL and the replication commands spell them.
use crate::fault::Fault;
use std::alloc::Global;

/// The text with single quotes around it and each of its own doubled: a literal of SQL.
pub fn literal(alloc: Global, text: &str) -> Result<String, Fault> {
    quoted(alloc, text, '\'')
}

/// The text with double quotes around it and each of its own doubled: an identifier.
pub fn identifier(alloc: Global, text: &str) -> Result<String, Fault> {
    quoted(alloc, text, '"')
}

fn quoted(alloc: Global, text: &str, quote: char) -> Result<String, Fault> {
    let mut out = String::new(alloc);
    out.push(quote)?;
    for letter in text.chars() {
        if letter == quote {
            out.push(quote)?;
        }
        out.push(letter)?;
    }
    out.push(quote)?;
    Ok(out)
}
