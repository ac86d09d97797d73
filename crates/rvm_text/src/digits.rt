//! Writes bytes as hexadecimal digits, as lines of scripts and their answers have them.

ghost use Rattle.std.specs.Prelude.{◌≤◌, length, OnOk};
ghost use Rattle.std.specs.Io.KnownBytes.{Appends};
ghost use Rattle.hex.specs.Hex.{encode_lower};

use hex::encode_to_slice;
use rvm_refusal::LinkFault;
use std::io::Write;

/// The most bytes that one call writes.
const MAX_BYTES: usize = 256;

/// Writes at most 256 bytes, each as two lowercase hexadecimal digits. `LinkFault` if the writer fails.
pub fn write_hex<W: Write>(writer: &mut W, bytes: &[u8]) -> Result<(), LinkFault>
    requires { length bytes.now ≤ 256 }
    ensures { OnOk result (Appends (W.contents writer.old) (W.contents writer.new) (encode_lower bytes.now)) }
{
    let mut digits = [0; 2 * MAX_BYTES];
    let digits = &mut digits[..2 * bytes.len()];
    let fits = encode_to_slice(bytes, digits).is_ok();
    prove!(fits);
    writer.write_all(digits)?;
    Ok(())
}
