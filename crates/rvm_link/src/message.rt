//! Bytes that are collected piece by piece.

ghost use Rattle.std.specs.Prelude.{◌≡◌, ◌+◌, ◌≤◌, ◌++◌, [], length};

use arrayvec::ArrayVec;
use std::marker::Model;

/// The most bytes that a message holds.
const MAX_BYTES: usize = 96;

/// A message of at most 96 bytes. Contracts see it as the list of its bytes.
#[derive(Drop)]
pub(crate) struct Message {
    bytes: ArrayVec<u8, MAX_BYTES>,
}

impl Model for Message {
    ghost use Rattle.std.specs.Prelude.{List, ℕ};

    ghost Value = { List ℕ };

    ghost view = { λ s. s.bytes.items };
}

impl Message {
    /// The empty message.
    pub(crate) fn new() -> Message
        ensures { result ≡ [] }
    {
        Message {
            bytes: ArrayVec::new(),
        }
    }

    /// This message with a piece after it. Both together have at most 96 bytes.
    pub(crate) fn with(mut self, piece: &[u8]) -> Message
        requires { length self + length piece.now ≤ 96 }
        ensures { result ≡ self ++ piece.now }
    {
        let done = self.bytes.try_extend_from_slice(piece);
        let is_done = done.is_ok();
        prove!(is_done);
        self
    }

    /// The bytes of the message.
    pub(crate) fn as_slice(&self) -> &[u8]
        ensures { result.now ≡ self.now }
    {
        self.bytes.as_slice()
    }
}
