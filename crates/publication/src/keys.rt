// The unique keys of a table, as the server lists them.
use server::fault::Fault;
use server::query::Row;
use std::alloc::Global;

/// A unique index: its columns by their numbers, 0 for an expression.
#[derive(Drop)]
pub struct Key {
    index: u32,
    /// The index's name.
    pub name: String,
    /// Whether it is the primary key.
    pub is_primary: bool,
    is_identity: bool,
    /// Whether it is checked at each row.
    pub is_immediate: bool,
    is_partial: bool,
    has_expressions: bool,
    is_valid: bool,
    nulls_are_equal: bool,
    /// The columns' numbers.
    pub columns: Vec<u32>,
}

impl Key {
    /// Why the subscriber can't keep this key, if it can't.
    pub fn misfit(&self) -> Option<&'static str> {
        if !self.is_valid {
            Some("it is not valid")
        } else if !self.is_immediate {
            Some("it is deferrable")
        } else if self.is_partial {
            Some("it has a condition")
        } else if self.has_expressions {
            Some("it has an expression")
        } else if self.nulls_are_equal {
            Some("its nulls are equal")
        } else {
            None
        }
    }

    /// Whether all columns of this key are among these, by their numbers.
    pub fn is_within(&self, columns: &[u32]) -> bool {
        self.columns.iter().all(|number| columns.contains(number))
    }
}

/// The key that is the replica identity, of a table whose identity is an index.
pub fn identity_of(keys: &[Key]) -> Option<&Key> {
    keys.iter().find(|key| key.is_identity)
}

/// The keys of a table. The rows of one index come one after another, in the order of its columns.
pub fn read_keys(alloc: Global, rows: &[Row], table: u32) -> Result<Vec<Key>, Fault> {
    let mut keys: Vec<Key> = Vec::new(alloc);
    for row in rows {
        if row.number(0)? != table {
            continue;
        }
        let index = row.number(1)?;
        let column = row.number(10)?;
        match keys.last_mut() {
            Some(last) if last.index == index => last.columns.push(column)?,
            _ => keys.push(read_key(alloc, row, index, column)?)?,
        }
    }
    Ok(keys)
}

fn read_key(alloc: Global, row: &Row, index: u32, column: u32) -> Result<Key, Fault> {
    let mut columns = Vec::new(alloc);
    columns.push(column)?;
    Ok(Key {
        index,
        name: String::from_str(alloc, row.text(2)?)?,
        is_primary: row.flag(3)?,
        is_identity: row.flag(4)?,
        is_immediate: row.flag(5)?,
        is_partial: row.flag(6)?,
        has_expressions: row.flag(7)?,
        is_valid: row.flag(8)?,
        nulls_are_equal: row.flag(9)?,
        columns,
    })
}
