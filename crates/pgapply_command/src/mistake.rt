// Where a text that is no catalog has its fault: for whoever wrote it. The text is read again in parts, so no rule
// of a catalog stands here.
use catalog::{Catalog, CatalogFault};
use std::alloc::{AllocError, Global};
use std::fmt;
use toml::{Table, Value};

/// Where a catalog's fault stands, as far as that was found.
#[derive(Debug, Drop)]
pub struct Mistake {
    /// The line, from 1.
    line: Option<usize>,
    /// Its table's number, from 1; none where it is of no table.
    number: Option<usize>,
    /// The table's namespace and name, if it has both.
    table: Option<(String, String)>,
    column: Option<String>,
    /// Why the text is no TOML document.
    reason: Option<String>,
}

const NOWHERE: Mistake = Mistake {
    line: None,
    number: None,
    table: None,
    column: None,
    reason: None,
};

impl fmt::Display for Mistake {
    fn fmt<W: fmt::Write>(&self, f: &mut fmt::Formatter<W>) -> fmt::Result {
        match self.line {
            Some(line) => write!(f, "line {line}")?,
            None => f.write_str("line ?")?,
        }
        match (&self.table, self.number) {
            (Some((namespace, name)), _) => {
                let namespace = namespace.escape_debug();
                let name = name.escape_debug();
                write!(f, ", table {namespace}.{name}")?;
            }
            (None, Some(number)) => write!(f, ", table {number}")?,
            (None, None) => {}
        }
        if let Some(column) = &self.column {
            let column = column.escape_debug();
            write!(f, ", column {column}")?;
        }
        if let Some(reason) = &self.reason {
            write!(f, ": {reason}")?;
        }
        Ok(())
    }
}

/// Finds the first place of a catalog's fault; none where the bytes are a catalog.
pub fn find_mistake(alloc: Global, bytes: &[u8]) -> Result<Option<Mistake>, AllocError> {
    let text = match std::str::from_utf8(bytes) {
        Ok(text) => text,
        Err(error) => return no_toml(alloc, bytes, error.valid_up_to(), "it is not UTF-8"),
    };
    let document = match toml::table_from_str(alloc, text) {
        Ok(document) => Value::Table(document),
        Err(error) => {
            return match error.span() {
                Some(span) => no_toml(alloc, bytes, span.start, error.message()),
                None => Err(AllocError),
            };
        }
    };
    match Catalog::read(alloc, text) {
        Ok(_) => Ok(None),
        Err(fault) => Ok(Some(find_table(alloc, text, &document, fault)?)),
    }
}

/// Of a text that is no TOML document from this byte on.
fn no_toml(
    alloc: Global,
    bytes: &[u8],
    start: usize,
    reason: &str,
) -> Result<Option<Mistake>, AllocError> {
    let mut line: usize = 1;
    for byte in bytes.get(..start).unwrap_or(bytes) {
        if *byte == b'\n' {
            line = line.saturating_add(1);
        }
    }
    Ok(Some(Mistake {
        line: Some(line),
        reason: Some(String::from_str(alloc, reason)?),
        ..NOWHERE
    }))
}

/// The first table up to which the document has the fault, and its first column up to which it has.
fn find_table(
    alloc: Global,
    text: &str,
    document: &Value,
    fault: CatalogFault,
) -> Result<Mistake, AllocError> {
    let tables = items_of(document, "table");
    let parts = Parts {
        alloc,
        fault,
        document,
        table: None,
        items: tables,
    };
    let Some((number, table)) = parts.first()? else {
        return Ok(Mistake {
            reason: Some(String::from_str(alloc, "it is in no table")?),
            ..NOWHERE
        });
    };
    let column = find_column(alloc, document, table, fault)?;
    let mut mistake = Mistake {
        line: line_of(text, tables.len(), number, column),
        number: Some(number),
        ..NOWHERE
    };
    if let (Some(namespace), Some(name)) = (text_of(table, "namespace"), text_of(table, "name")) {
        mistake.table = Some((
            String::from_str(alloc, namespace)?,
            String::from_str(alloc, name)?,
        ));
    }
    if let Some((_, column)) = column
        && let Some(name) = text_of(column, "name")
    {
        mistake.column = Some(String::from_str(alloc, name)?);
    }
    Ok(mistake)
}

/// The column that brings the fault into its table. A key that does names no place.
fn find_column<'a>(
    alloc: Global,
    document: &Value,
    table: &'a Value,
    fault: CatalogFault,
) -> Result<Option<(usize, &'a Value)>, AllocError> {
    let columns = items_of(table, "column");
    let mut bare = table.clone()?;
    if let Some(first) = columns.first()
        && matches!(fault, CatalogFault::BadDefault | CatalogFault::OverLimit)
        && let Some(name) = text_of(first, "name")
        && let Value::Table(fields) = &mut bare
    {
        // Its keys would be at fault without the columns that they name.
        let mut key = Vec::new(alloc);
        key.push(Value::String(String::from_str(alloc, name)?))?;
        drop(fields.insert(String::from_str(alloc, "primary")?, Value::Array(key))?);
        drop(fields.remove("unique"));
    }
    let its_table = Some(&bare);
    let parts = Parts {
        alloc,
        fault,
        document,
        table: its_table,
        items: columns,
    };
    parts.first()
}

/// The items of a field that is an array.
fn items_of<'a>(table: &'a Value, field: &str) -> &'a [Value] {
    match table.get(field).and_then(Value::as_array) {
        Some(items) => items.as_slice(),
        None => &[],
    }
}

/// A field that is a string.
fn text_of<'a>(table: &'a Value, field: &str) -> Option<&'a str> {
    table.get(field)?.as_str()
}

/// A document with some of its tables, or with one table and some of its columns.
#[derive(Clone, Copy)]
struct Parts<'a, 'b, 'c> {
    alloc: Global,
    fault: CatalogFault,
    document: &'b Value,
    /// None where the items are tables.
    table: Option<&'c Value>,
    items: &'a [Value],
}

impl<'a> Parts<'a, '_, '_> {
    /// The first item up to which the document has the fault, by its number from 1.
    fn first(&self) -> Result<Option<(usize, &'a Value)>, AllocError> {
        if !self.has_fault(self.items.len())? {
            return Ok(None);
        }
        let mut low: usize = 0;
        let mut high = self.items.len();
        for _ in 0..usize::BITS {
            if low >= high {
                break;
            }
            let middle = low + (high - low) / 2;
            if self.has_fault(middle)? {
                high = middle;
            } else {
                low = middle + 1;
            }
        }
        let Some(index) = high.checked_sub(1) else {
            return Ok(None);
        };
        Ok(self.items.get(index).map(|item| (high, item)))
    }

    /// Whether the document has the fault with so many of the items.
    fn has_fault(&self, count: usize) -> Result<bool, AllocError> {
        let mut items = Vec::new(self.alloc);
        for item in self.items.get(..count).unwrap_or(self.items) {
            items.push(item.clone()?)?;
        }
        let tables = match self.table {
            None => items,
            Some(table) => {
                let mut tables = Vec::new(self.alloc);
                tables.push(self.with_items(table, "column", items)?)?;
                tables
            }
        };
        let Value::Table(document) = self.with_items(self.document, "table", tables)? else {
            return Ok(false);
        };
        match toml::table_to_string(self.alloc, &document) {
            Ok(text) => Ok(match Catalog::read(self.alloc, text.as_str()) {
                Ok(_) => false,
                Err(fault) => fault == self.fault,
            }),
            Err(_) => Err(AllocError),
        }
    }

    /// A table whose field is these items.
    fn with_items(
        &self,
        table: &Value,
        field: &str,
        items: Vec<Value>,
    ) -> Result<Value, AllocError> {
        let mut copy = table.clone()?;
        if let Value::Table(fields) = &mut copy {
            drop(fields.insert(String::from_str(self.alloc, field)?, Value::Array(items))?);
        }
        Ok(copy)
    }
}

/// The line of the header of the table of this number, or of its column. None where the text has other headers
/// than `[[table]]` and `[[table.column]]`.
fn line_of(
    text: &str,
    tables: usize,
    number: usize,
    column: Option<(usize, &Value)>,
) -> Option<usize> {
    let mut found = None;
    let mut line: usize = 0;
    let mut seen: usize = 0;
    let mut columns: usize = 0;
    for words in text.split('\n') {
        line = line.saturating_add(1);
        match header_of(words) {
            Some("table") => {
                seen = seen.saturating_add(1);
                columns = 0;
                if seen == number {
                    found = Some(line);
                }
            }
            Some("table.column") => {
                columns = columns.saturating_add(1);
                if seen == number && column.is_some_and(|(wanted, _)| wanted == columns) {
                    found = Some(line);
                }
            }
            _ => {}
        }
    }
    if seen == tables { found } else { None }
}

/// What stands in the double brackets of a line that begins with them.
fn header_of(words: &str) -> Option<&str> {
    let (name, _) = words.trim().strip_prefix("[[")?.split_once("]]")?;
    Some(name.trim())
}
