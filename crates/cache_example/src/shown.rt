// Rows as this program prints them.
use leader::{RowView, ValueRef};
use std::alloc::{AllocError, Global};

/// A row's values, divided by a comma.
pub fn line_of(alloc: Global, row: Option<RowView<'_>>) -> Result<String, AllocError> {
    let mut line = String::new(alloc);
    let Some(row) = row else {
        line.push_str("none")?;
        return Ok(line);
    };
    for number in 0..row.len() {
        if number > 0 {
            line.push_str(", ")?;
        }
        match row.column(number) {
            None => line.push_str("null")?,
            Some(ValueRef::Int(value)) => write!(line, "{value}")?,
            Some(ValueRef::Text(text)) => write!(line, "'{text}'")?,
            Some(ValueRef::Bool(truth)) => write!(line, "{truth}")?,
        }
    }
    Ok(line)
}
