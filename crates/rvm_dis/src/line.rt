//! A line of a listing.

ghost use Rattle.std.specs.Prelude.{OnOk};
ghost use Rattle.std.specs.Io.KnownBytes.{Appends};
ghost use Rattle.rvm_dis.specs.Disassembly.{line_at};
ghost use Rattle.rvm_dis.specs.Pieces.{listed};

use crate::digits::Digits;
use crate::rows::write_ins;
use rvm_refusal::LinkFault;
use std::io::Write;

/// Writes `address` and `word`, each as eight hexadecimal digits, and the text of the instruction that the word is
/// there, without a line feed, as in `80000004: 80050513  addi a0, a0, -2048`. `LinkFault` if the writer fails.
pub fn write_line<W: Write>(address: u32, word: u32, writer: &mut W) -> Result<(), LinkFault>
    ensures { OnOk result (Appends (W.contents writer.old) (W.contents writer.new)
        (line_at address word)) }
{
    write_numbers(address, word, writer)?;
    write_ins(address, word, writer)
}

/// Writes the address and the word, which stand before the text.
fn write_numbers<W: Write>(address: u32, word: u32, writer: &mut W) -> Result<(), LinkFault>
    ensures { OnOk result (Appends (W.contents writer.old) (W.contents writer.new)
        (listed address word)) }
{
    let (address, word) = (Digits(address), Digits(word));
    write!(writer, "{address}: {word}  ")?;
    Ok(())
}
