//! Flushes a buffer of output.

ghost use Rattle.std.specs.Prelude.{OnOk};
ghost use Rattle.std.specs.Io.Buffered.{writer_contents};
ghost use Rattle.std.specs.Io.KnownBytes.{Keeps};
ghost use Rattle.rvm_command.specs.Flushed.{is_flushed};

use rvm_refusal::LinkFault;
use std::io::{BufWriter, Write};

/// Flushes a writer, so that its buffer holds back nothing. `LinkFault` if that fails.
pub fn flush<W: Write + Drop>(writer: &mut BufWriter<W>) -> Result<(), LinkFault>
    ensures same { Keeps (writer_contents W.contents writer.old) (writer_contents W.contents writer.new) }
    ensures out { OnOk result (is_flushed writer.new) }
{
    Ok(writer.flush()?)
}
