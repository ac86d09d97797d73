//! One direction of a connection between two hosts.

ghost use Rattle.std.specs.Prelude.{◌≡◌, ◌<◌, ℕ, List, Option, None, OnOk, length};
ghost use Rattle.std.specs.Io.KnownBytes.{Appends, Keeps};
ghost use Rattle.rvm_link.specs.Reads.{GivesAtMost, IsRead};
ghost use Rattle.rvm_link.specs.declared.link.LinkRead.TheVariants.{End};

use rvm_refusal::LinkFault;

/// What a read of a link gave.
#[derive(Clone, Copy, Debug, PartialEq, Eq)]
pub enum LinkRead {
    /// This many bytes, which are at the front of the buffer.
    Bytes(usize),
    /// No bytes have come yet.
    Idle,
    /// No more bytes will come: the other side has ended.
    End,
    /// The link failed.
    LinkFault,
}

/// One direction of a connection. After a fault, some of the bytes that were to be sent may have been sent.
pub trait Link {
    /// The bytes that were sent, if that is known.
    ghost contents: { Self → Option (List ℕ) } = { λ _. None };

    /// All that was sent is flushed.
    ghost is_flushed: { Self → Type 0 } = { λ _. Unit {0} };

    /// The bytes that are to come, if that is known.
    ghost remaining: { Self → Option (List ℕ) } = { λ _. None };

    /// The last read found the end. Only a read that returns `End` can show this.
    ghost has_ended: { Self → Type 0 } = { λ _. Unit {0} };

    /// Sends all of these bytes; `LinkFault` if the link fails. They may wait for more bytes or a flush.
    fn send(&mut self, bytes: &[u8]) -> Result<(), LinkFault>
        ensures { OnOk result (Appends (contents self.old) (contents self.new) bytes.now) };

    /// Flushes what was sent; `LinkFault` if the link fails.
    fn flush(&mut self) -> Result<(), LinkFault>
        ensures same { Keeps (contents self.old) (contents self.new) }
        ensures out { OnOk result (is_flushed self.new) };

    /// Reads bytes that came into the front of a buffer of any length. Returns their number, at most the buffer's
    /// length. The bytes of the buffer after them may change too.
    fn recv(&mut self, buffer: &mut [u8]) -> LinkRead
        ensures most { GivesAtMost result (length buffer.new) }
        ensures bytes { IsRead (remaining self.old) (remaining self.new) result buffer.new }
        ensures ended { result ≡ End → 0 < length buffer.new → has_ended self.new };
}
