//! The most bytes of the frames that a host makes.

ghost use Rattle.std.specs.Prelude.{◌≡◌};
ghost use Rattle.rvm_message.specs.Events.{command_of};
ghost use Rattle.rvm_message.specs.Frames.{frame_heard};
ghost use Rattle.rvm_host.specs.Bounds.{IsShort, came_body, command_body, copy_body, resend_body, with_header};
ghost use Rattle.rvm_host.specs.Modes.{plain_of};

use crate::mode::Mode;
use rvm_frame::Frame;
use rvm_mem::PagedMemory;
use rvm_message::{Command, can_come};

/// The number of body bytes of an Offer.
const OFFER: usize = 3;
/// The number of body bytes of a Refuse, which is the most of any answer to an offer.
const REFUSE: usize = 2;
/// The number of body bytes of a Lost that names 4096 pages, which is the most of any answer to a state.
const LOST: usize = 2 + 2 * 4096;
/// The number of bytes of a header.
const HEADER: usize = 13;
/// The number of bytes of a header that names the hosts between which the frame goes, as in version 3.
const HEADER_WITH_HOSTS: usize = 15;

impl<M: PagedMemory + Drop> Mode<M> {
    /// The most body bytes of the frame that a command may make in this mode. With None it makes no frame; with a
    /// number it may still make none.
    pub(crate) fn command_body(&self, version: u32, command: &Command) -> Option<usize>
        ensures body { result ≡ command_body version (plain_of self.now) (command_of command.now) }
        ensures short { IsShort result }
    {
        match command {
            Command::Board(_) => None,
            Command::Begin { .. } => Some(OFFER),
            Command::Copy => self.copy_body(version),
            Command::Resend => self.resend_body(version),
            Command::Abort => Some(0),
        }
    }

    /// The most body bytes of the frame that Copy may make in this mode, as `command_body` gives them.
    fn copy_body(&self, version: u32) -> Option<usize>
        ensures body { result ≡ copy_body version (plain_of self.now) }
        ensures short { IsShort result }
    {
        match self {
            Mode::Leaving(source) => Some(source.body_bound(version)),
            _ => None,
        }
    }

    /// The most body bytes of the frame that Resend may make in this mode, as `command_body` gives them.
    fn resend_body(&self, version: u32) -> Option<usize>
        ensures body { result ≡ resend_body version (plain_of self.now) }
        ensures short { IsShort result }
    {
        match self {
            Mode::Leaving(source) => Some(source.body_bound(version)),
            Mode::Given { .. } | Mode::Held { .. } => Some(0),
            _ => None,
        }
    }
}

/// The most body bytes of the frame that may answer one that comes. With None no frame answers it; with a number one
/// may.
pub(crate) fn came_body(frame: &Frame) -> Option<usize>
    ensures body { result ≡ came_body (frame_heard frame.now) }
    ensures short { IsShort result }
{
    if !can_come(frame) {
        return None;
    }
    match frame {
        Frame::Offer { .. } => Some(REFUSE),
        Frame::State { .. } | Frame::Part { .. } => Some(LOST),
        Frame::Ready { .. } | Frame::Go { .. } => Some(0),
        _ => None,
    }
}

/// The number of bytes of a frame with this many body bytes; 0 if there is no frame.
pub(crate) fn with_header(version: u32, body: Option<usize>) -> usize
    requires { IsShort body }
    ensures { result ≡ with_header version body }
{
    match body {
        Some(body) if version == 3 => HEADER_WITH_HOSTS + body,
        Some(body) => HEADER + body,
        None => 0,
    }
}
