// Serve: the stream's frames to a follower, and its status updates to the server.
use crate::checks::check_stream;
use crate::connection::Connection;
use crate::copy::copy_rows;
use crate::events::{Event, relay_and_say, say, say_end};
use crate::fault::Fault;
use crate::follower::Follower;
use crate::kept::label;
use crate::line::SocketLine;
use crate::place::Place;
use crate::relay::{Bounds, COPY_DONE, End, Output, Relayed, whole_frames};
use crate::slots::{drop_made, make_if_asked};
use crate::stream::{Subscription, System, identify, start};
use std::alloc::Global;
use std::io;
use std::io::ErrorKind;
use std::net::{Net, TcpListener, TcpStream, ToSocketAddrs};
use std::random::RandomSource;
use std::rt::Clock;
use std::time::Duration;

/// Where followers come, and for how long one is served.
#[derive(Clone, Copy, Debug)]
pub struct Service<'a> {
    /// HOST:PORT.
    pub listen: &'a str,
    /// Whether other machines may reach the address.
    pub any: bool,
    /// Whether the first follower is the last.
    pub once: bool,
    /// Where each follower's stream ends, with CopyDone.
    pub bounds: Bounds,
}

/// Serves one follower after another, or one alone. It logs in and makes the slot, if that is asked, before
/// it listens. A fault of one follower is said, and the next may come; what was put is said of each.
pub fn serve<H: Net<Stream = TcpStream, Listener = TcpListener> + Clock + RandomSource + Eprint>(
    alloc: Global,
    host: &H,
    asked: &Subscription<'_>,
    service: &Service<'_>,
) -> Result<(), Fault> {
    let mut connection = asked.server.connect(alloc, host, true)?;
    check_stream(&mut connection, asked.publication, asked.slot)?;
    let system = identify(&mut connection)?;
    let made = make_if_asked(&mut connection, host, asked.slot)?;
    let snapshot = match made {
        Some(point) if asked.slot.copy => Some(Snapshot {
            connection,
            system,
            point,
        }),
        _ => {
            drop(connection);
            None
        }
    };
    match open(host, service) {
        Ok(listener) => serve_all(alloc, host, asked, service, &listener, snapshot),
        Err(fault) => {
            drop(snapshot);
            if made.is_some() {
                drop_made(alloc, host, asked);
            }
            Err(fault)
        }
    }
}

/// A connection whose transaction sees the rows as they are at a slot's consistent point.
#[derive(Drop)]
struct Snapshot<'a, H: Clock> {
    connection: Connection<SocketLine<'a, H>>,
    /// What the server said of itself before the slot was made.
    system: System,
    /// The slot's consistent point.
    point: u64,
}

/// Listens, and says where.
fn open<H: Net<Stream = TcpStream, Listener = TcpListener> + Clock + Eprint>(
    host: &H,
    service: &Service<'_>,
) -> Result<TcpListener, Fault> {
    let listener = listen(host, service)?;
    let address = listener.local_addr().map_err(Fault::CannotListen)?;
    say(host, Event::Listening(address));
    Ok(listener)
}

/// Listens at the first address that can be bound. One that other machines reach has to be allowed.
pub fn listen<H: Net<Stream = TcpStream, Listener = TcpListener>>(
    host: &H,
    service: &Service<'_>,
) -> Result<TcpListener, Fault> {
    let mut last = io::Error::from(ErrorKind::NotFound);
    for address in service
        .listen
        .to_socket_addrs(host)
        .map_err(Fault::CannotListen)?
    {
        if !service.any && !address.ip().is_loopback() {
            return Err(Fault::NotLoopback);
        }
        match TcpListener::bind(host, address) {
            Ok(listener) => return Ok(listener),
            Err(error) => last = error,
        }
    }
    Err(Fault::CannotListen(last))
}

/// A copy of the rows is for the first follower. Where that one did not say that it has them, the slot is of no
/// use: what was put may lie in a socket that nobody reads.
fn serve_all<'a, H: Net<Stream = TcpStream> + Clock + RandomSource + Eprint>(
    alloc: Global,
    host: &'a H,
    asked: &Subscription<'_>,
    service: &Service<'_>,
    listener: &TcpListener,
    snapshot: Option<Snapshot<'a, H>>,
) -> Result<(), Fault> {
    let mut snapshot = snapshot;
    for stream in listener.incoming() {
        let stream = match stream {
            Ok(stream) => stream,
            // Whoever it was has gone.
            Err(error) if error.kind() == ErrorKind::ConnectionAborted => continue,
            Err(error) => return Err(Fault::CannotListen(error)),
        };
        let point = match &snapshot {
            Some(snapshot) => snapshot.point,
            None => 0,
        };
        let source = Source {
            bounds: service.bounds,
            snapshot: snapshot.take(),
        };
        let mut confirmed = 0;
        let served = serve_alone(alloc, host, asked, source, listener, stream, &mut confirmed);
        if confirmed < point {
            drop_made(alloc, host, asked);
            served?;
            return Err(Fault::Follower("it did not say that it has the rows of the copy"));
        }
        if service.once {
            return served;
        }
        if let Err(fault) = served {
            say(host, Event::Failed(&fault));
        }
    }
    Ok(())
}

/// Serves one who came, and notes what it confirmed. Others who come meanwhile are turned away.
fn serve_alone<'a, H: Net<Stream = TcpStream> + Clock + RandomSource + Eprint>(
    alloc: Global,
    host: &'a H,
    asked: &Subscription<'_>,
    source: Source<'a, H>,
    listener: &TcpListener,
    stream: TcpStream,
    confirmed: &mut u64,
) -> Result<(), Fault> {
    if let Ok(address) = stream.peer_addr() {
        say(host, Event::Came(address));
    }
    listener.set_nonblocking(true).map_err(Fault::CannotListen)?;
    let follower = Follower::new(alloc, stream, Some(listener));
    let served = serve_one(alloc, host, asked, source, follower, confirmed);
    listener
        .set_nonblocking(false)
        .map_err(Fault::CannotListen)?;
    served
}

/// What a follower is given.
#[derive(Drop)]
struct Source<'a, H: Clock> {
    bounds: Bounds,
    /// Where its stream begins with a copy of the rows.
    snapshot: Option<Snapshot<'a, H>>,
}

/// Hands the stream to one follower, and notes what it confirmed. It hears of a fault as of an error of the
/// server.
fn serve_one<'a, H: Net<Stream = TcpStream> + Clock + RandomSource + Eprint>(
    alloc: Global,
    host: &'a H,
    asked: &Subscription<'_>,
    source: Source<'a, H>,
    follower: Follower<'_>,
    confirmed: &mut u64,
) -> Result<(), Fault> {
    let mut follower = follower;
    let limit = asked.server.limit;
    follower.set_limit(limit)?;
    let mut relayed = Relayed::NOTHING;
    let ended = hand_over(alloc, host, asked, source, &mut follower, &mut relayed);
    match &ended {
        Err(fault) => follower.tell_fault(fault)?,
        // Of a stream that the server didn't end the follower hears here that it is over.
        Ok(End::Reached | End::Elapsed) => {
            let _ = follower.put(&COPY_DONE[..whole_frames(&COPY_DONE)]);
        }
        Ok(_) => {}
    }
    let told = follower.confirmed();
    follower.part(host, limit, &relayed);
    // What came behind the stream's end was told to nobody.
    *confirmed = follower.confirmed();
    say_end(alloc, host, asked.server, &relayed, told, &ended);
    ended?;
    Ok(())
}

/// Begins the stream at the place up to which the follower has it, and hands it on.
fn hand_over<'a, H: Net<Stream = TcpStream> + Clock + RandomSource + Eprint>(
    alloc: Global,
    host: &'a H,
    asked: &Subscription<'_>,
    source: Source<'a, H>,
    follower: &mut Follower<'_>,
    relayed: &mut Relayed,
) -> Result<End, Fault> {
    let Source { bounds, snapshot } = source;
    let ready = match snapshot {
        Some(snapshot) => copy_to(host, asked, snapshot, follower, relayed)?,
        None => connect_for(alloc, host, asked, follower)?,
    };
    let Ready {
        connection,
        place,
        log_end,
    } = ready;
    let mut connection = connection;
    say(
        host,
        Event::Begins(Place(place.max(relayed.committed)), Place(log_end)),
    );
    start(&mut connection, asked.publication, asked.slot.name, place)?;
    relay_and_say(
        &mut connection,
        host,
        asked.server,
        follower,
        bounds,
        relayed,
    )
}

/// A connection that is free for the stream, the place up to which the follower has it, and where the
/// server's log ends.
#[derive(Drop)]
struct Ready<'a, H: Clock> {
    connection: Connection<SocketLine<'a, H>>,
    place: u64,
    log_end: u64,
}

/// Hands over the rows that the snapshot sees, which are for a follower that has none. Its connection is free
/// for the stream then.
fn copy_to<'a, H: Clock + Eprint>(
    host: &H,
    asked: &Subscription<'_>,
    snapshot: Snapshot<'a, H>,
    follower: &mut Follower<'_>,
    relayed: &mut Relayed,
) -> Result<Ready<'a, H>, Fault> {
    let Snapshot {
        connection,
        system,
        point,
    } = snapshot;
    let mut connection = connection;
    let place = meet(connection.alloc(), host, asked, &system, true, follower)?;
    if place > 0 {
        return Err(Fault::Follower("it has rows, and the copy is for one that has none"));
    }
    copy_rows(&mut connection, asked.publication, point, follower, relayed)?;
    say(host, Event::Copied(relayed));
    let log_end = identify(&mut connection)?.log_end;
    Ok(Ready {
        connection,
        place,
        log_end,
    })
}

/// Connects to the server for a follower whose stream has no copy of the rows, and which can't be ahead of the
/// server's log.
fn connect_for<'a, H: Net<Stream = TcpStream> + Clock + RandomSource>(
    alloc: Global,
    host: &'a H,
    asked: &Subscription<'_>,
    follower: &mut Follower<'_>,
) -> Result<Ready<'a, H>, Fault> {
    let mut connection = asked.server.connect(alloc, host, true)?;
    let system = identify(&mut connection)?;
    let place = meet(alloc, host, asked, &system, false, follower)?;
    let log_end = system.log_end;
    if place > log_end {
        return Err(Fault::Ahead(Place(place), Place(log_end)));
    }
    Ok(Ready {
        connection,
        place,
        log_end,
    })
}

/// Tells a follower whose stream it is, as a captured file begins, so that it can refuse the stream before it
/// takes any of it. Then it asks the follower how far it has the log.
fn meet<H: Clock>(
    alloc: Global,
    host: &H,
    asked: &Subscription<'_>,
    system: &System,
    is_copied: bool,
    follower: &mut Follower<'_>,
) -> Result<u64, Fault> {
    let title = label(alloc, asked, system.identifier.as_str(), is_copied)?;
    follower.put(&title[..whole_frames(title.as_slice())])?;
    follower.ask_place(host, asked.server.limit)
}
