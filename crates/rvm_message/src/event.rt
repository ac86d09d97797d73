//! What happens at a host.

ghost use Rattle.std.specs.Prelude.{◌≡◌, true, IfOk, OnErr};
ghost use Rattle.rvm_message.specs.Events.{is_frame};

use crate::shared::Shared;
use rvm_board::BoardEvent;
use rvm_frame::Frame;
use rvm_precopy::Policy;
use std::alloc::AllocError;

/// A command to a host.
#[derive(Drop, PartialEq, Eq)]
pub enum Command {
    /// Give the guest an event.
    Board(BoardEvent),
    /// Begin a move of the guest to host `to`.
    Begin { to: u8, policy: Policy },
    /// Copy the next page, or take the next action of the move.
    Copy,
    /// Send again what the other host may not have heard: the offer, the state, Ready or Go.
    Resend,
    /// Give up the move.
    Abort,
}

/// What happens at a host.
#[derive(Drop, PartialEq, Eq)]
pub enum HostEvent {
    /// The host is given a command.
    Do(Command),
    /// A frame comes from the host with this number.
    Came(u8, Shared<Frame>),
}

impl Command {
    /// Returns a copy of this command. Takes no memory.
    pub fn copy(&self) -> Command
        ensures { result ≡ self.now }
    {
        match self {
            Command::Board(event) => Command::Board(event.copy()),
            Command::Begin { to, policy } => Command::Begin {
                to: *to,
                policy: *policy,
            },
            Command::Copy => Command::Copy,
            Command::Resend => Command::Resend,
            Command::Abort => Command::Abort,
        }
    }
}

impl HostEvent {
    /// Returns a copy of this event. The frame of an event gets one more owner, which takes no memory; fails only if it
    /// has more owners than can be counted.
    pub fn copy(&self) -> Result<HostEvent, AllocError>
        ensures copy { IfOk result (λ copy. copy ≡ self.now) }
        ensures err { OnErr result (is_frame self.now ≡ true) }
    {
        match self {
            HostEvent::Do(command) => Ok(HostEvent::Do(command.copy())),
            HostEvent::Came(from, frame) => Ok(HostEvent::Came(*from, frame.share()?)),
        }
    }
}
