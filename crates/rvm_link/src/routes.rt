//! The sending ends to all other hosts.

ghost use Rattle.std.specs.Prelude.{◌≡◌, IfErr, IfOk};
ghost use Rattle.rvm_frame.specs.Grammar.{HasSpelling, sent};
ghost use Rattle.rvm_link.specs.Streams.{hello_frame};

use crate::error::SendError;
use crate::made::{Made, Origin};
use crate::route::Route;
use crate::stream::Aside;
use rvm_refusal::LinkFault;
use std::alloc::{AllocError, Global};
use std::io::Write;
use std::sync::{Mutex, Wait};

/// A sending end to each host of a world, some of which are open. Threads share them; each frame is sent whole.
#[derive(Drop)]
pub struct Routes<L: Origin, W: Write + Drop> {
    version: u32,
    ends: Vec<Mutex<Route<L, W>>>,
}

impl<L: Origin, W: Write + Drop> Routes<L, W> {
    /// Sending ends to this many hosts, for streams of this version. None of them is open.
    pub fn new(alloc: Global, hosts: u8, version: u32) -> Result<Routes<L, W>, AllocError>
        ensures { IfOk result (λ r. r.version ≡ version) }
    {
        let mut ends = Vec::new(alloc);
        for _host in 0..hosts {
            ends.push(Mutex::new(Route::new()))?;
        }
        Ok(Routes { version, ends })
    }

    /// Opens a sending end to a host on a new connection, which takes the place of the old one, and sends Hello.
    /// `LinkFault` if the connection fails or there is no such host, `BadFrame` if there is no stream of this version;
    /// then the new connection is dropped. The call may wait for another thread.
    pub fn open<R: Wait>(&self, rt: &R, host: u8, output: W) -> Result<(), SendError>
        ensures { IfErr result (λ e. e ≡ SendError.BadFrame
            → HasSpelling (sent self.now.version (hello_frame self.now.version)) → ⊥) }
    {
        match self.ends.get(usize::from(host)) {
            Some(end) => end.lock(rt).open(self.version, host, output),
            None => {
                drop(output);
                Err(SendError::LinkFault)
            }
        }
    }

    /// Sends a whole frame to the host that it is for. `LinkFault`, and the frame is lost, if no connection to that
    /// host is open or it fails; `BadFrame` if the frame has no spelling. The call may wait for another thread.
    pub fn send<R: Wait>(&self, rt: &R, made: &Made<L>) -> Result<(), SendError>
        ensures { IfErr result (λ e. e ≡ SendError.BadFrame → HasSpelling (sent self.now.version made.now) → ⊥) }
    {
        match self.ends.get(usize::from(made.get().to)) {
            Some(end) => end.lock(rt).send(self.version, made),
            None => Err(SendError::LinkFault),
        }
    }

    /// Asks a host whether all that was sent to it has come. `LinkFault` if no connection to it is open or it fails.
    /// The call may wait for another thread.
    pub fn ask<R: Wait>(&self, rt: &R, host: u8, number: u64) -> Result<(), LinkFault> {
        self.add(rt, host, Aside::Question, number)
    }

    /// Answers a question of a host. `LinkFault` if no connection to it is open or it fails. The call may wait for
    /// another thread.
    pub fn answer<R: Wait>(&self, rt: &R, host: u8, number: u64) -> Result<(), LinkFault> {
        self.add(rt, host, Aside::Answer, number)
    }

    /// Sends a question or an answer to a host. `LinkFault` if no connection to it is open or it fails.
    fn add<R: Wait>(&self, rt: &R, host: u8, aside: Aside, number: u64) -> Result<(), LinkFault> {
        match self.ends.get(usize::from(host)) {
            Some(end) => end.lock(rt).add(aside, number),
            None => Err(LinkFault),
        }
    }

    /// Drops the connection to a host, if one is open. The call may wait for another thread.
    pub fn close<R: Wait>(&self, rt: &R, host: u8) {
        if let Some(end) = self.ends.get(usize::from(host)) {
            end.lock(rt).close();
        }
    }

    /// Whether a connection to a host is open at the time of the call. The call may wait for another thread.
    pub fn is_open<R: Wait>(&self, rt: &R, host: u8) -> bool {
        match self.ends.get(usize::from(host)) {
            Some(end) => end.lock(rt).is_open(),
            None => false,
        }
    }
}
