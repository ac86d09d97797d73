//! Writing lists of numbers; `byteorder` itself writes one number.

ghost use Rattle.std.specs.Prelude.{OnOk};
ghost use Rattle.std.specs.Io.KnownBytes.{Appends};
ghost use Rattle.std.specs.List.{flat_map};
ghost use Rattle.byteorder.specs.Endian.{little_bytes};

use byteorder::{LittleEndian, WriteBytesExt};
use std::io::{self, Write};

/// Writes numbers of two bytes each. After an error some of them may have been written.
pub fn write_u16s<W: Write>(writer: &mut W, numbers: &[u16]) -> io::Result<()>
    ensures { OnOk result (Appends (W.contents writer.old) (W.contents writer.new)
        (flat_map (little_bytes 2) numbers.now)) }
{
    for n in numbers {
        writer.write_u16::<LittleEndian>(*n)?;
    }
    Ok(())
}

/// Writes numbers of four bytes each. After an error some of them may have been written.
pub fn write_u32s<W: Write>(writer: &mut W, numbers: &[u32]) -> io::Result<()>
    ensures { OnOk result (Appends (W.contents writer.old) (W.contents writer.new)
        (flat_map (little_bytes 4) numbers.now)) }
{
    for n in numbers {
        writer.write_u32::<LittleEndian>(*n)?;
    }
    Ok(())
}
