// A slot that is made for a command, and dropped again where the command goes no further.
use crate::connection::Connection;
use crate::events::{Event, say};
use crate::fault::Fault;
use crate::line::Line;
use crate::place::Place;
use crate::stream::{Slot, Subscription, drop_slot, make_slot};
use std::alloc::Global;
use std::net::{Net, TcpStream};
use std::random::RandomSource;
use std::rt::Clock;

/// Makes the slot if that is asked, and answers its consistent point.
pub fn make_if_asked<L: Line + Drop, H: Clock + Eprint>(
    connection: &mut Connection<L>,
    host: &H,
    slot: Slot<'_>,
) -> Result<Option<u64>, Fault> {
    if !slot.create {
        return Ok(None);
    }
    let point = make_slot(connection, slot)?;
    say(host, Event::Made(slot.name, Place(point)));
    Ok(Some(point))
}

/// Drops a slot that this command made, over a connection of its own. Where that fails it is said: a slot
/// that stays holds the server's log.
pub fn drop_made<H: Net<Stream = TcpStream> + Clock + RandomSource + Eprint>(
    alloc: Global,
    host: &H,
    asked: &Subscription<'_>,
) {
    match try_drop(alloc, host, asked) {
        Ok(()) => say(host, Event::Dropped(asked.slot.name)),
        Err(fault) => say(host, Event::Stays(asked.slot.name, &fault)),
    }
}

fn try_drop<H: Net<Stream = TcpStream> + Clock + RandomSource>(
    alloc: Global,
    host: &H,
    asked: &Subscription<'_>,
) -> Result<(), Fault> {
    let mut connection = asked.server.connect(alloc, host, true)?;
    drop_slot(&mut connection, asked.slot.name)
}
