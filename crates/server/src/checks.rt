// What is asked of a server before anything is made there: its version, the publication and the slot.
use crate::connection::Connection;
use crate::fault::Fault;
use crate::line::Line;
use crate::query;
use crate::stream::Slot;

/// The oldest server that streams in version 4 of the protocol with `streaming 'parallel'`: 16.
const STREAMING: u32 = 160_000;

/// The server's `server_version_num`, which has to be this at least.
pub fn check_version<L: Line + Drop>(
    connection: &mut Connection<L>,
    least: u32,
) -> Result<u32, Fault> {
    let version = query::number(connection, "SHOW server_version_num")?;
    if version < least {
        return Err(Fault::OldServer(version, least));
    }
    Ok(version)
}

/// Refuses a publication that isn't there.
pub fn check_publication<L: Line + Drop>(
    connection: &mut Connection<L>,
    publication: &str,
) -> Result<(), Fault> {
    let question = "SELECT count(*) FROM pg_catalog.pg_publication WHERE pubname =";
    check_name(connection, question, publication, Fault::NoPublication)
}

/// Refuses a slot that isn't there.
fn check_slot<L: Line + Drop>(connection: &mut Connection<L>, slot: &str) -> Result<(), Fault> {
    let question = "SELECT count(*) FROM pg_catalog.pg_replication_slots WHERE slot_name =";
    check_name(connection, question, slot, Fault::NoSlot)
}

/// Refuses a name, by this fault, of which a question counts none.
fn check_name<L: Line + Drop>(
    connection: &mut Connection<L>,
    question: &str,
    name: &str,
    absent: Fault,
) -> Result<(), Fault> {
    let count = match query::row_of(connection, question, name)? {
        Some(row) => row.number(0)?,
        None => 0,
    };
    if count > 0 { Ok(()) } else { Err(absent) }
}

/// Refuses a server that can't stream this publication through this slot, a slot that is to be made aside.
pub fn check_stream<L: Line + Drop>(
    connection: &mut Connection<L>,
    publication: &str,
    slot: Slot<'_>,
) -> Result<(), Fault> {
    check_version(connection, STREAMING)?;
    check_publication(connection, publication)?;
    if slot.create {
        Ok(())
    } else {
        check_slot(connection, slot.name)
    }
}
