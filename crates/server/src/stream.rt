// The replication stream: its start, and what each frame of it is (PostgreSQL manual: Streaming
// Replication Protocol).
use crate::connection::Connection;
use crate::fault::{Fault, Nonsense};
use crate::host::Server;
use crate::line::Line;
use crate::marks::Mark;
use crate::place::{Place, read_place};
use crate::query::Row;
use crate::quoting::{identifier, literal};
use crate::wire::Fields;
use crate::{query, wire};
use std::alloc::Global;

/// A replication slot.
#[derive(Clone, Copy, Debug)]
pub struct Slot<'a> {
    /// Its name.
    pub name: &'a str,
    /// Whether it is made first.
    pub create: bool,
    /// Whether its stream begins with a copy of the rows that are there as it is made.
    pub copy: bool,
}

/// A stream to ask for: of which server, which publication, through which slot.
#[derive(Clone, Copy, Debug)]
pub struct Subscription<'a> {
    /// Whose stream it is.
    pub server: &'a Server,
    /// The publication's name.
    pub publication: &'a str,
    /// The slot through which it goes.
    pub slot: Slot<'a>,
}

/// Makes a slot, and answers its consistent point: its stream has the transactions that commit behind it.
/// With a copy a transaction begins that sees the rows as they are there.
pub fn make_slot<L: Line + Drop>(
    connection: &mut Connection<L>,
    slot: Slot<'_>,
) -> Result<u64, Fault> {
    let alloc = connection.alloc();
    let name = identifier(alloc, slot.name)?;
    let name = name.as_str();
    if slot.copy {
        query::rows(
            connection,
            "BEGIN READ ONLY ISOLATION LEVEL REPEATABLE READ",
            0,
        )?;
    }
    let snapshot = if slot.copy {
        "USE_SNAPSHOT"
    } else {
        "NOEXPORT_SNAPSHOT"
    };
    let create = format!(in alloc; "CREATE_REPLICATION_SLOT {name} LOGICAL pgoutput {snapshot}")?;
    let rows = query::rows(connection, create.as_str(), 1)?;
    match rows.first() {
        Some(row) => place_of(row, 1),
        None => Err(Fault::Nonsense(Nonsense::BadRow)),
    }
}

/// The place of the log in a column.
fn place_of(row: &Row, column: usize) -> Result<u64, Fault> {
    match read_place(row.text(column)?) {
        Some(place) => Ok(place),
        None => Err(Fault::Nonsense(Nonsense::BadRow)),
    }
}

/// Drops a slot, as soon as nobody streams through it.
pub fn drop_slot<L: Line + Drop>(connection: &mut Connection<L>, name: &str) -> Result<(), Fault> {
    let alloc = connection.alloc();
    let name = identifier(alloc, name)?;
    let name = name.as_str();
    let text = format!(in alloc; "DROP_REPLICATION_SLOT {name} WAIT")?;
    query::rows(connection, text.as_str(), 0)?;
    Ok(())
}

/// What a server says of itself.
#[derive(Debug, Drop)]
pub struct System {
    /// Its system identifier, a number that is drawn where its files are made.
    pub identifier: String,
    /// Where its log ends that is on its disk.
    pub log_end: u64,
}

/// Asks the server who it is.
pub fn identify<L: Line + Drop>(connection: &mut Connection<L>) -> Result<System, Fault> {
    let alloc = connection.alloc();
    let rows = query::rows(connection, "IDENTIFY_SYSTEM", 1)?;
    let Some(row) = rows.first() else {
        return Err(Fault::Nonsense(Nonsense::BadRow));
    };
    Ok(System {
        identifier: String::from_str(alloc, row.text(0)?)?,
        log_end: place_of(row, 2)?,
    })
}

/// The place up to which the slot's reader has confirmed the log.
pub fn confirmed<L: Line + Drop>(connection: &mut Connection<L>, slot: &str) -> Result<u64, Fault> {
    let question =
        "SELECT confirmed_flush_lsn FROM pg_catalog.pg_replication_slots WHERE slot_name =";
    match query::row_of(connection, question, slot)? {
        Some(row) => place_of(&row, 0),
        None => Err(Fault::NoSlot),
    }
}

/// Starts the stream of a slot at this place of the log, or where the slot stands if that is behind it.
pub fn start<L: Line + Drop>(
    connection: &mut Connection<L>,
    publication: &str,
    slot: &str,
    from: u64,
) -> Result<(), Fault> {
    let alloc = connection.alloc();
    let name = identifier(alloc, slot)?;
    let name = name.as_str();
    let from = Place(from);
    let names = literal(alloc, identifier(alloc, publication)?.as_str())?;
    let names = names.as_str();
    let start = format!(in alloc;
        "START_REPLICATION SLOT {name} LOGICAL {from} \
        (proto_version '4', streaming 'parallel', publication_names {names})"
    )?;
    connection.send(wire::query(alloc, start.as_str())?.as_slice())?;
    match connection.receive_answer()?.tag {
        // CopyBothResponse
        b'W' => Ok(()),
        _ => Err(Fault::Nonsense(Nonsense::Unexpected)),
    }
}

/// What a frame of the stream is.
#[derive(Clone, Copy, Debug, PartialEq, Eq)]
pub enum Sent {
    /// A piece of the log: where it starts, where the log ended when it was sent, and what it is.
    Data { start: u64, end: u64, mark: Mark },
    /// Where the log ends, and whether an answer is wanted.
    Keepalive { end: u64, reply: bool },
    /// A notice or a parameter, which a subscriber skips.
    Skipped,
    /// CopyDone.
    Done,
    /// CommandComplete, which ends the stream of a server that shuts down.
    Shutdown,
    /// ErrorResponse.
    Error,
}

/// What this frame, whole with its header, is.
pub fn read_frame(frame: &[u8]) -> Result<Sent, Nonsense> {
    let mut fields = Fields::new(frame);
    let tag = fields.byte()?;
    fields.int32()?;
    match tag {
        b'd' => read_copy_data(fields),
        b'c' => Ok(Sent::Done),
        b'C' => Ok(Sent::Shutdown),
        b'N' | b'S' => Ok(Sent::Skipped),
        b'E' => Ok(Sent::Error),
        _ => Err(Nonsense::Unexpected),
    }
}

fn read_copy_data(fields: Fields<'_>) -> Result<Sent, Nonsense> {
    let mut fields = fields;
    match fields.byte()? {
        b'w' => {
            let start = fields.int64()?;
            let end = fields.int64()?;
            fields.int64()?;
            Ok(Sent::Data {
                start,
                end,
                mark: Mark::of(fields),
            })
        }
        b'k' => {
            let end = fields.int64()?;
            fields.int64()?;
            let reply = fields.byte()? != 0;
            if !fields.is_empty() {
                return Err(Nonsense::BadFields);
            }
            Ok(Sent::Keepalive { end, reply })
        }
        _ => Err(Nonsense::Unexpected),
    }
}

/// A status update's clock, in microseconds since 2000-01-01: left at its start, since no server goes by it.
const CLOCK: u64 = 0;

/// A status update that says the log is written, flushed and applied up to `position`, and asks for a
/// keepalive if `reply`.
pub fn status(alloc: Global, position: u64, reply: bool) -> Result<Vec<u8>, Fault> {
    let mut body = Vec::new(alloc);
    body.push(b'r')?;
    for _ in 0..3 {
        body.extend_from_slice(&position.to_be_bytes())?;
    }
    body.extend_from_slice(&CLOCK.to_be_bytes())?;
    body.push(if reply { 1 } else { 0 })?;
    wire::frame(alloc, b'd', body.as_slice())
}
