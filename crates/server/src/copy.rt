// A copy of the rows that are there as a slot is made: the first transaction of its stream, which ends at the
// slot's consistent point.
use crate::connection::Connection;
use crate::fault::{Fault, Nonsense};
use crate::line::Line;
use crate::query::{Row, rows};
use crate::quoting::{identifier, literal};
use crate::relay::{Output, Relayed, whole_frames};
use crate::{tuples, wire};
use std::alloc::Global;

/// How many bytes of frames are put at once, at least.
const BATCH: usize = 64 * 1024;

/// How many tables are copied at most, and how many columns a table of the server may have.
const MOST_TABLES: usize = 65536;

const MOST_COLUMNS: usize = 1600;

/// Frames on their way to whoever takes them, of a transaction that ends at this place.
#[derive(Drop)]
struct Batch {
    place: u64,
    frames: Vec<u8>,
    count: u64,
}

/// Puts the published rows of a publication's tables as the connection's transaction sees them, as one
/// transaction that ends at this place: the same columns and rows as its stream has.
pub fn copy_rows<L: Line + Drop, O: Output>(
    connection: &mut Connection<L>,
    publication: &str,
    place: u64,
    output: &mut O,
    relayed: &mut Relayed,
) -> Result<(), Fault> {
    let alloc = connection.alloc();
    let name = literal(alloc, publication)?;
    let text = tables_text(alloc, name.as_str())?;
    let tables = rows(connection, text.as_str(), MOST_TABLES)?;
    let mut batch = Batch {
        place,
        frames: Vec::new(alloc),
        count: 0,
    };
    batch.push(tuples::begin(alloc, place)?.as_slice())?;
    for table in &tables {
        copy_table(
            connection,
            name.as_str(),
            table,
            &mut batch,
            output,
            relayed,
        )?;
    }
    batch.push(tuples::commit(alloc, place)?.as_slice())?;
    batch.put_all(output, relayed)?;
    relayed.position = relayed.position.max(place);
    relayed.committed = relayed.committed.max(place);
    rows(connection, "COMMIT", 0)?;
    Ok(())
}

/// The tables: OID, namespace, name, replica identity, whether rows of others belong to it, row filter.
fn tables_text(alloc: Global, publication: &str) -> Result<String, Fault> {
    Ok(format!(in alloc;
        "SELECT c.oid, n.nspname, c.relname, c.relreplident, c.relkind = 'p', p.rowfilter \
        FROM pg_catalog.pg_publication_tables p \
        JOIN pg_catalog.pg_namespace n ON n.nspname = p.schemaname \
        JOIN pg_catalog.pg_class c ON c.relnamespace = n.oid AND c.relname = p.tablename \
        WHERE p.pubname = {publication} \
        ORDER BY n.nspname COLLATE \"C\", c.relname COLLATE \"C\""
    )?)
}

/// The published columns of a table: name, type, its modifier as a number without a sign, and whether it is
/// of the replica identity.
fn columns_text(alloc: Global, publication: &str, table: u32) -> Result<String, Fault> {
    Ok(format!(in alloc;
        "SELECT a.attname, a.atttypid, a.atttypmod::bigint & 4294967295, \
        c.relreplident = 'f' OR EXISTS (SELECT FROM pg_catalog.pg_index i \
        WHERE i.indrelid = c.oid AND a.attnum = ANY ((i.indkey::int2[])[0:i.indnkeyatts - 1]) \
        AND CASE c.relreplident WHEN 'd' THEN i.indisprimary WHEN 'i' THEN i.indisreplident END) \
        FROM pg_catalog.pg_class c JOIN pg_catalog.pg_namespace n ON n.oid = c.relnamespace \
        JOIN pg_catalog.pg_publication_tables p \
        ON p.schemaname = n.nspname AND p.tablename = c.relname AND p.pubname = {publication} \
        JOIN pg_catalog.pg_attribute a ON a.attrelid = c.oid AND a.attname = ANY (p.attnames) \
        WHERE c.oid = {table} AND a.attnum > 0 AND NOT a.attisdropped AND a.attgenerated = '' \
        ORDER BY a.attnum"
    )?)
}

/// Copies one table, a row at a time.
fn copy_table<L: Line + Drop, O: Output>(
    connection: &mut Connection<L>,
    publication: &str,
    table: &Row,
    batch: &mut Batch,
    output: &mut O,
    relayed: &mut Relayed,
) -> Result<(), Fault> {
    let alloc = connection.alloc();
    let oid = table.number(0)?;
    let text = columns_text(alloc, publication, oid)?;
    let columns = rows(connection, text.as_str(), MOST_COLUMNS)?;
    if columns.is_empty() {
        return Ok(());
    }
    batch.push(relation(alloc, table, columns.as_slice())?.as_slice())?;
    let text = copy_text(alloc, table, columns.as_slice())?;
    connection.send(wire::query(alloc, text.as_str())?.as_slice())?;
    for _ in 0..u64::MAX {
        let message = connection.receive_answer()?;
        connection.go_on();
        match message.tag {
            b'd' => {
                let body = message.body.as_slice();
                let line = body.strip_suffix(b"\n").unwrap_or(body);
                let row = tuples::insert(alloc, oid, line, columns.len())?;
                batch.push(row.as_slice())?;
                if batch.frames.len() >= BATCH {
                    batch.put_all(output, relayed)?;
                }
            }
            b'H' | b'c' | b'C' => {}
            b'Z' => return Ok(()),
            _ => return Err(Fault::Nonsense(Nonsense::Unexpected)),
        }
    }
    Err(Fault::TimedOut)
}

/// COPY of a table's published columns and rows.
fn copy_text(alloc: Global, table: &Row, columns: &[Row]) -> Result<String, Fault> {
    let mut text = String::from_str(alloc, "COPY (SELECT ")?;
    for (index, column) in columns.iter().enumerate() {
        if index > 0 {
            text.push_str(", ")?;
        }
        text.push_str(identifier(alloc, column.text(0)?)?.as_str())?;
    }
    // Rows of a table that inherits from this one are its own.
    text.push_str(if table.flag(4)? {
        " FROM "
    } else {
        " FROM ONLY "
    })?;
    text.push_str(identifier(alloc, table.text(1)?)?.as_str())?;
    text.push('.')?;
    text.push_str(identifier(alloc, table.text(2)?)?.as_str())?;
    if let Some(filter) = table.value(5)? {
        text.push_str(" WHERE ")?;
        text.push_str(filter)?;
    }
    text.push_str(") TO STDOUT")?;
    Ok(text)
}

/// Relation, of a table and its published columns.
fn relation(alloc: Global, table: &Row, columns: &[Row]) -> Result<Vec<u8>, Fault> {
    let Ok(count) = u16::try_from(columns.len()) else {
        return Err(Fault::Nonsense(Nonsense::BadRow));
    };
    let mut message = Vec::new(alloc);
    message.push(b'R')?;
    message.extend_from_slice(&table.number(0)?.to_be_bytes())?;
    wire::push_zero_ended(&mut message, namespace_of(table.text(1)?))?;
    wire::push_zero_ended(&mut message, table.text(2)?)?;
    message.extend_from_slice(table.text(3)?.as_bytes())?;
    message.extend_from_slice(&count.to_be_bytes())?;
    for column in columns {
        message.push(if column.flag(3)? { 1 } else { 0 })?;
        wire::push_zero_ended(&mut message, column.text(0)?)?;
        message.extend_from_slice(&column.number(1)?.to_be_bytes())?;
        message.extend_from_slice(&column.number(2)?.to_be_bytes())?;
    }
    Ok(message)
}

/// The namespace as pgoutput names it: `pg_catalog` is empty there.
fn namespace_of(namespace: &str) -> &str {
    if namespace == "pg_catalog" {
        ""
    } else {
        namespace
    }
}

impl Batch {
    /// Adds a message.
    fn push(&mut self, message: &[u8]) -> Result<(), Fault> {
        let frame = wire::data(*self.frames.allocator(), self.place, message)?;
        self.frames.extend_from_slice(frame.as_slice())?;
        self.count = self.count.saturating_add(1);
        Ok(())
    }

    /// Puts what was added.
    fn put_all<O: Output>(&mut self, output: &mut O, relayed: &mut Relayed) -> Result<(), Fault> {
        let frames = self.frames.as_slice();
        let whole = whole_frames(frames);
        if whole < frames.len() {
            return Err(Fault::Nonsense(Nonsense::TooLong));
        }
        output.put(&frames[..whole])?;
        relayed.frames = relayed.frames.saturating_add(self.count);
        relayed.bytes = relayed.bytes.saturating_add(whole as u64);
        self.count = 0;
        self.frames.clear();
        Ok(())
    }
}
