//! The sending end to one other host.

ghost use Rattle.std.specs.Prelude.{◌≡◌, ◌≢◌, Err, IfErr, IfSome, IsErr, IsSome, None, OnErr, OnOk, is_some};
ghost use Rattle.rvm_frame.specs.Grammar.{HasSpelling, sent, spelling};
ghost use Rattle.rvm_link.specs.Streams.{Adds, Begins, GoesOn, hello_frame, record_of};

use crate::error::SendError;
use crate::made::{Made, Origin};
use crate::stream::{Aside, Stream};
use rvm_refusal::LinkFault;
use std::io::Write;

/// The stream to another host, while there is a connection to it.
#[derive(Drop)]
pub(crate) struct Route<L: Origin, W: Write + Drop> {
    stream: Option<Stream<L, W>>,
}

impl<L: Origin, W: Write + Drop> Route<L, W> {
    /// A route without a connection.
    pub(crate) fn new() -> Route<L, W>
        ensures { result.stream ≡ None }
    {
        Route { stream: None }
    }

    /// Begins a stream of this version on a connection to a host, which takes the place of the old connection. If the
    /// new one fails or has no such stream, it is dropped.
    pub(crate) fn open(&mut self, version: u32, host: u8, output: W) -> Result<(), SendError>
        ensures opened { OnOk result (IsSome self.new.stream) }
        ensures begun { OnOk result (IfSome self.new.stream (Begins version host (W.contents output))) }
        ensures lost { OnErr result (self.new.stream ≡ None) }
        ensures spelled { IfErr result (λ e. e ≡ SendError.BadFrame
            → HasSpelling (sent version (hello_frame version)) → ⊥) }
    {
        self.stream = None;
        self.stream = Some(Stream::begin(version, host, output)?);
        Ok(())
    }

    /// Sends a whole frame that was made here, in a stream of this version. `LinkFault` if there is no connection or it
    /// fails; then it is dropped. `BadFrame`, and nothing is sent, if the frame has no spelling.
    pub(crate) fn send(&mut self, version: u32, made: &Made<L>) -> Result<(), SendError>
        ensures sent { OnOk result (IfSome self.old.stream (λ old. IfSome self.new.stream
            (GoesOn (spelling (sent version made.now)) old))) }
        ensures kept { OnOk result (IsSome self.new.stream) }
        ensures closed { self.old.stream ≡ None → IsErr result }
        ensures fault { result ≡ Err SendError.LinkFault → self.new.stream ≡ None }
        ensures unsent { IfErr result (λ e. e ≢ SendError.LinkFault → self.new.stream ≡ self.old.stream) }
        ensures spelled { IfErr result (λ e. e ≡ SendError.BadFrame → HasSpelling (sent version made.now) → ⊥) }
    {
        let Some(stream) = self.stream.take() else {
            return Err(SendError::LinkFault);
        };
        let (stream, sent) = stream.send(version, made);
        self.stream = stream;
        sent
    }

    /// Writes a question or an answer. `LinkFault` if there is no connection or it fails; then it is dropped.
    pub(crate) fn add(&mut self, aside: Aside, number: u64) -> Result<(), LinkFault>
        ensures sent { OnOk result (IfSome self.old.stream (λ old. IfSome self.new.stream
            (Adds (record_of aside number) old))) }
        ensures kept { OnOk result (IsSome self.new.stream) }
        ensures closed { self.old.stream ≡ None → IsErr result }
        ensures lost { OnErr result (self.new.stream ≡ None) }
    {
        let Some(stream) = self.stream.take() else {
            return Err(LinkFault);
        };
        self.stream = stream.add(aside, number);
        self.stays_open()
    }

    /// `LinkFault` if there is no connection.
    fn stays_open(&self) -> Result<(), LinkFault>
        ensures open { OnOk result (IsSome self.now.stream) }
        ensures closed { OnErr result (self.now.stream ≡ None) }
    {
        if self.is_open() {
            Ok(())
        } else {
            Err(LinkFault)
        }
    }

    /// Drops the connection.
    pub(crate) fn close(&mut self)
        ensures { self.new.stream ≡ None }
    {
        self.stream = None;
    }

    /// Whether there is a connection.
    pub(crate) fn is_open(&self) -> bool
        ensures { result ≡ is_some self.now.stream }
    {
        self.stream.is_some()
    }
}
