//! Where connections of another host arrive.

use std::net::{OpenStream, Shutdown};
use std::sync::{Condvar, Mutex, Wait};
use std::time::{Clock, Duration};

/// The connections of another host.
#[derive(Drop)]
struct Connections<S: Drop> {
    /// The newest connection that arrived, until it is taken.
    arrived: Option<S>,
    /// Another handle of the connection that is heard.
    heard: Option<S>,
}

/// Where connections of another host arrive. The newest one counts: it ends the one that is heard. Each call may wait
/// for another thread.
#[derive(Drop)]
pub(crate) struct Door<S: OpenStream + Drop> {
    connections: Mutex<Connections<S>>,
    arrival: Condvar,
}

impl<S: OpenStream + Drop> Door<S> {
    /// A door without a connection.
    pub(crate) fn new() -> Door<S> {
        Door {
            connections: Mutex::new(Connections {
                arrived: None,
                heard: None,
            }),
            arrival: Condvar::new(),
        }
    }

    /// Puts a connection that arrived at the door, and ends the one that is heard.
    pub(crate) fn put<R: Wait>(&self, rt: &R, stream: S) {
        let mut connections = self.connections.lock(rt);
        connections.arrived = Some(stream);
        end(&connections.heard);
        drop(connections);
        self.arrival.notify_all();
    }

    /// Takes the connection that arrived. Waits for one for at most `most`.
    pub(crate) fn take<R: Wait + Clock>(&self, rt: &R, most: Duration) -> Option<S> {
        let (mut connections, _ended) = self
            .arrival
            .wait_timeout_while(rt, self.connections.lock(rt), most, |connections| {
                connections.arrived.is_none()
            });
        connections.arrived.take()
    }

    /// Notes that a connection is heard, of which this is another handle. Ends it at once if a newer one has arrived.
    pub(crate) fn hear<R: Wait>(&self, rt: &R, handle: S) {
        let mut connections = self.connections.lock(rt);
        connections.heard = Some(handle);
        if connections.arrived.is_some() {
            end(&connections.heard);
        }
    }

    /// Ends the connection that is heard, if there is one, and forgets it.
    pub(crate) fn end<R: Wait>(&self, rt: &R) {
        let mut connections = self.connections.lock(rt);
        end(&connections.heard);
        connections.heard = None;
    }
}

/// Ends a connection in both directions, if there is one.
fn end<S: OpenStream>(stream: &Option<S>) {
    if let Some(stream) = stream {
        let _ended = stream.shutdown(Shutdown::Both);
    }
}
