//! What the threads of a host process share beside the host.

use crate::door::Door;
use crate::outbound::Outbound;
use rvm_link::{Registry, Secret};
use rvm_station::{HartsPlan, Hosting, Station};
use std::io::{Read, Write};
use std::net::OpenStream;
use std::sync::Mutex;
use std::sync::atomic::Ordering;
use std::time::Duration;

/// What the threads of a host process share beside the host.
#[derive(Drop)]
pub(crate) struct Process<L: Hosting, S: Read + Write + OpenStream + Drop> {
    pub(crate) station: Station<L, Outbound<S>>,
    pub(crate) harts: HartsPlan,
    pub(crate) registry: Mutex<Registry>,
    pub(crate) secret: Secret,
    /// The doors, by the number of the other host.
    pub(crate) doors: Vec<Door<S>>,
    /// The number of hosts of the world.
    pub(crate) hosts: u8,
    /// For how long nothing may be heard or done in a move before it is given up, while that may be.
    pub(crate) patience: Duration,
    /// The most megabytes that a move sends in a second while the guest runs, if there is a limit.
    pub(crate) bandwidth: Option<u32>,
}

impl<L: Hosting, S: Read + Write + OpenStream + Drop> Process<L, S> {
    /// Whether the process is to end.
    pub(crate) fn is_stopping(&self) -> bool {
        self.harts.stop.load(Ordering::SeqCst)
    }

    /// Tells all threads that the process is to end.
    pub(crate) fn stop(&self) {
        self.harts.stop.store(true, Ordering::SeqCst);
    }

    /// The door of the host with this number; none if there is no such host.
    pub(crate) fn door(&self, host: u8) -> Option<&Door<S>> {
        self.doors.get(usize::from(host))
    }
}
