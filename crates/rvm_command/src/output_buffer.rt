//! A buffer between what a guest sends and the writer, so that many small pieces take one write.

ghost use Rattle.std.specs.Prelude.{◌≡◌, ◌+◌, ◌<◌, ◌≤◌, ◌++◌, [], OnOk, OnErr, length};
ghost use Rattle.std.specs.Io.KnownBytes.{Appends};
ghost use Rattle.rvm_command.specs.Buffered.{GoesOut};

use arrayvec::ArrayVec;
use rvm_refusal::LinkFault;
use std::io::Write;
use std::marker::Model;

/// The most bytes that the buffer holds.
const BUFFER_SIZE: usize = 4096;

/// Bytes that the guest sent and that are not written yet, in order: at most 4096. Allocates nothing.
#[derive(Drop)]
pub(crate) struct OutputBuffer {
    bytes: ArrayVec<u8, BUFFER_SIZE>,
}

impl Model for OutputBuffer {
    ghost use Rattle.std.specs.Prelude.{List, ℕ, ◌≤◌, length};

    ghost Value = { List ℕ };

    ghost view = { λ b. b.bytes.items };

    ghost invariant = { λ b. length b.bytes.items ≤ 4096 };
}

impl OutputBuffer {
    /// A buffer that holds nothing.
    pub(crate) fn new() -> OutputBuffer
        ensures { result ≡ [] }
    {
        OutputBuffer {
            bytes: ArrayVec::new(),
        }
    }

    /// Makes room for `count` bytes, at most 4096: if there is less, writes all that is held. `LinkFault` if the write
    /// fails.
    pub(crate) fn make_room<W: Write>(
        &mut self,
        count: usize,
        writer: &mut W,
    ) -> Result<(), LinkFault>
        requires { count ≤ 4096 }
        ensures room { OnOk result (length self.new + count ≤ 4096) }
        ensures written { OnOk result (GoesOut [] self.old self.new (W.contents writer.old) (W.contents writer.new)) }
        ensures err { OnErr result (0 < length self.old) }
    {
        if self.bytes.remaining_capacity() >= count {
            return Ok(());
        }
        self.write_to(writer)
    }

    /// Appends these bytes, for which there is room.
    pub(crate) fn append(&mut self, bytes: &[u8])
        requires { length self.old + length bytes.now ≤ 4096 }
        ensures { self.new ≡ self.old ++ bytes.now }
    {
        let fits = self.bytes.try_extend_from_slice(bytes).is_ok();
        prove!(fits);
    }

    /// Writes all that is held, and then holds nothing. `LinkFault` if the write fails, which is possible only if
    /// something was held; then, too, nothing is held.
    pub(crate) fn write_to<W: Write>(&mut self, writer: &mut W) -> Result<(), LinkFault>
        ensures empty { OnOk result (self.new ≡ []) }
        ensures written { OnOk result (Appends (W.contents writer.old) (W.contents writer.new) self.old) }
        ensures err { OnErr result (0 < length self.old) }
    {
        if self.bytes.is_empty() {
            return Ok(());
        }
        let written = writer.write_all(&self.bytes);
        self.bytes.clear();
        match written {
            Ok(()) => Ok(()),
            Err(_) => Err(LinkFault),
        }
    }
}
