//! The thread that keeps the connection with one other host, and hears it.

use crate::address::address_of;
use crate::meeting::{meet_connected, meeting_with};
use crate::outbound::Outbound;
use crate::process::Process;
use rvm_station::{Access, Hosting, hear};
use std::io;
use std::io::{BufReader, ErrorKind};
use std::net::{Net, OpenStream, TcpStream};
use std::random::RandomSource;
use std::sync::Wait;
use std::time::{Clock, Duration};

/// The milliseconds that it may take to make a connection.
const CONNECT: u64 = 1000;

/// The milliseconds between two tries.
const RETRY: u64 = 50;

/// The milliseconds for which a connection may be silent; the ticker of the other host asks more often.
const SILENCE: u64 = 1000;

/// The most bytes that are read together.
const TOGETHER: usize = 1 << 17;

/// Keeps the connection with a host, and hears it, until the process is to end. The host with the lower number makes
/// the connection; the other one takes those that arrive.
pub(crate) fn peer_worker<L: Hosting, A: Access<L>, R: Net + Wait + Clock + RandomSource>(
    rt: &R,
    process: &Process<L, R::Stream>,
    access: &mut A,
    other: u8,
    address: &[u8],
) {
    for _connection in rt.forever() {
        if process.is_stopping() {
            return;
        }
        if let Some(stream) = next_connection(rt, process, other, address) {
            let _ended = keep(rt, process, access, other, stream);
        }
    }
    unreachable!()
}

/// The next connection with a host, if there is one soon.
fn next_connection<L: Hosting, R: Net + Wait + Clock + RandomSource>(
    rt: &R,
    process: &Process<L, R::Stream>,
    other: u8,
    address: &[u8],
) -> Option<R::Stream> {
    let door = process.door(other)?;
    if process.station.id < other {
        if let Some(stream) = connect(rt, process, other, address) {
            return Some(stream);
        }
    }
    door.take(rt, Duration::from_millis(RETRY))
}

/// Makes a connection to a host, and greets the host. None if the connection cannot be made or the greeting fails.
fn connect<L: Hosting, R: Net + Wait + Clock + RandomSource>(
    rt: &R,
    process: &Process<L, R::Stream>,
    other: u8,
    address: &[u8],
) -> Option<R::Stream> {
    let Ok(address) = address_of(rt, address) else {
        return None;
    };
    let timeout = Duration::from_millis(CONNECT);
    let Ok(mut stream) = TcpStream::connect_timeout(rt, &address, timeout) else {
        return None;
    };
    match meet_connected(rt, process, other, &mut stream) {
        Ok(()) => Some(stream),
        Err(_) => None,
    }
}

/// Opens the route to a host over a connection, and hears it until the connection ends.
fn keep<L: Hosting, A: Access<L>, R: Net + Wait + Clock>(
    rt: &R,
    process: &Process<L, R::Stream>,
    access: &mut A,
    other: u8,
    stream: R::Stream,
) -> io::Result<()> {
    let Some(door) = process.door(other) else {
        return Ok(());
    };
    stream.set_read_timeout(Some(Duration::from_millis(SILENCE)))?;
    door.hear(rt, stream.try_clone()?);
    // The process may have ended what the doors hear before this connection was noted, so it is ended here.
    if process.is_stopping() {
        door.end(rt);
        return Ok(());
    }
    let heard = open_and_hear(rt, process, access, other, stream);
    door.end(rt);
    process.station.routes.close(rt, other);
    heard
}

/// Has this host's log keep that another host was met, opens the route to it over a connection, and hears it.
fn open_and_hear<L: Hosting, A: Access<L>, R: Net + Wait + Clock>(
    rt: &R,
    process: &Process<L, R::Stream>,
    access: &mut A,
    other: u8,
    stream: R::Stream,
) -> io::Result<()> {
    let Ok(output) = Outbound::new(process.station.alloc, stream.try_clone()?) else {
        return Err(io::Error::from(ErrorKind::OutOfMemory));
    };
    let mut input = BufReader::with_capacity(process.station.alloc, TOGETHER, stream)?;
    access.met(meeting_with(rt, process, other));
    if process.station.routes.open(rt, other, output).is_ok() {
        process.station.news.raise(rt);
        let _end = hear(rt, &process.station, access, other, &mut input);
    }
    Ok(())
}
