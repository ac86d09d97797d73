//! A frame with the hosts that it goes between.

use crate::frame::Frame;

/// A frame, and the numbers of its sender and its receiver. Streams of version 3 name both; there
/// each is below 8, and they differ.
#[derive(Debug, Drop, PartialEq, Eq)]
pub struct Addressed {
    /// The number of the host that sends the frame.
    pub from: u8,
    /// The number of the host that the frame is for.
    pub to: u8,
    /// The frame itself.
    pub frame: Frame,
}

/// A frame as a stream has it: from and to, if its header names them, and the frame.
pub type Received = (Option<(u8, u8)>, Frame);
