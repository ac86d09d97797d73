//! What two hosts tell each other of themselves.

ghost use Rattle.std.specs.Prelude.{◌≡◌};
ghost use Rattle.rvm_link.specs.Facts.{facts_bytes};

use crate::message::Message;
use crate::number::number_bytes;

/// What a host tells another about itself, once each has proved that it knows the secret. Each number is drawn at
/// random, from 1 on; 0 stands for a number that is not known.
#[derive(Clone, Copy, Debug, PartialEq, Eq)]
pub struct Facts {
    /// The number of the world, which the host with the image drew; 0 if the sender does not know it.
    pub world: u64,
    /// The number of the sender's process, which it drew at its start.
    pub process: u64,
    /// The number of the receiver's process; 0 if the sender has not met it.
    pub known: u64,
}

impl Facts {
    /// The 24 bytes of these facts.
    pub(crate) fn bytes(&self) -> Message
        ensures { result ≡ facts_bytes self.now }
    {
        Message::new()
            .with(&number_bytes(self.world))
            .with(&number_bytes(self.process))
            .with(&number_bytes(self.known))
    }
}
