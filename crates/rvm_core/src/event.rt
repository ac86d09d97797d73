//! The events of a world, and its replies.

use rvm_message::{Command, HostReply};

/// An event of a world.
#[derive(Drop)]
pub enum Event {
    /// The host with this number is given a command.
    At(u8, Command),
    /// The frame that was sent at this place, from 0, comes to its host.
    Deliver(u64),
}

/// The reply of a world to an event.
#[derive(Drop)]
pub struct WorldReply {
    pub reply: HostReply,
    /// The place of the frame that the event made, if any.
    pub frame: Option<usize>,
}
