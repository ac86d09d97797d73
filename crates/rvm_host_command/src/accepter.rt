//! The threads that accept connections of other hosts.

use crate::meeting::meet_accepted;
use crate::process::Process;
use rvm_station::Hosting;
use std::net::{Net, OpenListener, OpenStream};
use std::random::RandomSource;
use std::sync::Wait;
use std::thread;
use std::time::{Clock, Duration};

/// The milliseconds between two looks at the listener.
const LOOK: u64 = 10;

/// Accepts connections, one after the other, until the process is to end. A connection of another host of this world
/// goes to the door of that host; any other is closed.
pub(crate) fn accepter<L: Hosting, R: Net + Wait + Clock + RandomSource>(
    rt: &R,
    process: &Process<L, R::Stream>,
    listener: &R::Listener,
) {
    for _look in rt.forever() {
        if process.is_stopping() {
            return;
        }
        match listener.accept() {
            Ok((stream, _from)) => receive(rt, process, stream),
            Err(_) => thread::sleep(rt, Duration::from_millis(LOOK)),
        }
    }
    unreachable!()
}

/// Answers the greeting on a connection, and puts the connection at the door of the host that made it.
fn receive<L: Hosting, R: Net + Wait + Clock + RandomSource>(
    rt: &R,
    process: &Process<L, R::Stream>,
    stream: R::Stream,
) {
    let mut stream = stream;
    if stream.set_nonblocking(false).is_err() {
        return;
    }
    if let Ok(from) = meet_accepted(rt, process, &mut stream) {
        if let Some(door) = process.door(from) {
            door.put(rt, stream);
        }
    }
}
