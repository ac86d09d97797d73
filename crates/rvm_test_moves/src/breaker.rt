//! Connections that break.

use std::io::{ErrorKind, Read, Write};
use std::net::{Net, OpenListener, OpenStream, Shutdown, SocketAddr, TcpStream};
use std::sync::Wait;
use std::sync::atomic::{AtomicBool, AtomicU32, Ordering};
use std::time::{Clock, Duration};
use std::{io, thread};

/// The number of bytes that the first connection carries before it breaks, and how many more each later one carries.
const FIRST: u64 = 2_000;

const MORE: u64 = 1_000;

/// The milliseconds between two looks at the listener.
const LOOK: u64 = 5;

/// How many connections broke, and whether they are still to be carried.
#[derive(Drop)]
pub struct Breaker {
    /// Whether connections are no longer carried.
    pub stop: AtomicBool,
    /// How many were broken.
    pub broken: AtomicU32,
}

/// Carries connections to an address, one at a time, until it is told to stop. Each one breaks after a number of bytes,
/// which grows with every connection.
pub fn carry_and_break<R: Net + Wait + Clock>(
    rt: &R,
    listener: &R::Listener,
    to: SocketAddr,
    breaker: &Breaker,
) {
    let mut most = FIRST;
    for _look in rt.forever() {
        if breaker.stop.load(Ordering::SeqCst) {
            return;
        }
        match listener.accept() {
            Ok((client, _from)) => {
                if let Ok(server) = TcpStream::connect(rt, to) {
                    let _broken = carry(rt, client, server, most, breaker);
                    most = most.saturating_add(MORE);
                }
            }
            Err(_) => thread::sleep(rt, Duration::from_millis(LOOK)),
        }
    }
    unreachable!()
}

/// Joins two connections, and breaks both once `most` bytes have passed between them.
fn carry<S: Read + Write + OpenStream + Drop, R: Wait>(
    rt: &R,
    client: S,
    server: S,
    most: u64,
    breaker: &Breaker,
) -> io::Result<()> {
    let (mut client, mut server) = (client, server);
    prepare(&client)?;
    prepare(&server)?;
    let mut carried = 0u64;
    for _turn in rt.forever() {
        if breaker.stop.load(Ordering::SeqCst) {
            return Ok(());
        }
        if carried >= most {
            breaker.broken.fetch_add(1, Ordering::SeqCst);
            client.shutdown(Shutdown::Both)?;
            return server.shutdown(Shutdown::Both);
        }
        let there = pass(&mut client, &mut server)?;
        let back = pass(&mut server, &mut client)?;
        carried = carried.saturating_add(there).saturating_add(back);
    }
    unreachable!()
}

/// Sets up a connection, so that its reads wait for at most a millisecond.
fn prepare<S: OpenStream>(stream: &S) -> io::Result<()> {
    stream.set_nonblocking(false)?;
    stream.set_nodelay(true)?;
    stream.set_read_timeout(Some(Duration::from_millis(1)))
}

/// Passes on what came, if anything did. Returns how many bytes that were. The end of the connection is an error.
fn pass<S: Read + Write>(from: &mut S, to: &mut S) -> io::Result<u64> {
    let mut buffer = [0u8; 4096];
    match from.read(&mut buffer) {
        Ok(0) => Err(io::Error::from(ErrorKind::UnexpectedEof)),
        Ok(count) => {
            to.write_all(&buffer[..count])?;
            Ok(count as u64)
        }
        Err(error) => match error.kind() {
            ErrorKind::WouldBlock | ErrorKind::Interrupted => Ok(0),
            _ => Err(error),
        },
    }
}
