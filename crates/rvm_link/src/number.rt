//! 64-bit numbers as eight bytes.

ghost use Rattle.std.specs.Prelude.{◌≡◌, IfOk};
ghost use Rattle.std.specs.Io.KnownBytes.{Consumes};
ghost use Rattle.byteorder.specs.Endian.{little_bytes};

use byteorder::{ByteOrder, LittleEndian};
use std::io;
use std::io::Read;

/// The bytes of a number, the lowest first.
pub fn number_bytes(number: u64) -> [u8; 8]
    ensures { result ≡ little_bytes 8 number }
{
    let mut bytes = [0u8; 8];
    LittleEndian::write_u64(&mut bytes, number);
    bytes
}

/// The number with these bytes, the lowest first.
fn number_of(bytes: &[u8; 8]) -> u64
    ensures { little_bytes 8 result ≡ bytes.now }
{
    LittleEndian::read_u64(bytes)
}

/// Reads a number of eight bytes, the lowest first.
pub fn read_number<I: Read>(input: &mut I) -> io::Result<u64>
    ensures { IfOk result (λ n. Consumes (I.remaining input.old) (I.remaining input.new) (little_bytes 8 n)) }
{
    let mut bytes = [0u8; 8];
    input.read_exact(&mut bytes)?;
    Ok(number_of(&bytes))
}
