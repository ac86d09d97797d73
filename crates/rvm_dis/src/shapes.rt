//! The texts of instructions, by the shape of their operands.

ghost use Rattle.std.specs.Prelude.{◌≡◌, OnOk};
ghost use Rattle.std.specs.Io.KnownBytes.{Appends};
ghost use Rattle.rvm_text.specs.Registers.{name_of};
ghost use Rattle.rvm_dis.specs.Texts.{upper_text, jump_text, branch_text, access_text, immediate_text, shift_text, registers_text, csr_text, csr_immediate_text, load_reserved_text, atomic_text, word_text, fence_text};

use crate::digits::Digits;
use rvm_isa::{CsrNo, Imm5, Imm12, Imm20, Off13, Off21, Reg, Shamt};
use rvm_refusal::LinkFault;
use rvm_text::register_name;
use rvm_word::add_signed;
use std::fmt;
use std::io::Write;

/// The name of a register in the calling convention.
fn name(reg: Reg) -> &'static str
    ensures { result.now ≡ name_of reg }
{
    register_name(reg.bits())
}

/// A word, shown as `0x` and eight hexadecimal digits.
#[derive(Clone, Copy)]
struct Word(u32);

impl fmt::Display for Word {
    ghost use Rattle.std.specs.Prelude.{Some};
    ghost use Rattle.rvm_dis.specs.Pieces.{hex};

    ghost output = { λ word. Some (hex 8 word.0) };

    fn fmt<W: fmt::Write>(&self, f: &mut fmt::Formatter<W>) -> fmt::Result {
        write!(f, "0x{}", Digits(self.0))
    }
}

/// The number of a CSR, shown as `0x` and three hexadecimal digits.
#[derive(Clone, Copy)]
struct Csr(CsrNo);

impl fmt::Display for Csr {
    ghost use Rattle.std.specs.Prelude.{Some};
    ghost use Rattle.rvm_dis.specs.Pieces.{hex};

    ghost output = { λ csr. Some (hex 3 csr.0) };

    #[tactic(auto, using(crate::proofs::Hex::hexes))]
    fn fmt<W: fmt::Write>(&self, f: &mut fmt::Formatter<W>) -> fmt::Result {
        write!(f, "0x{:03x}", self.0.bits())
    }
}

/// The mnemonic of an atomic instruction, shown with its ordering after it: nothing, `.aq`, `.rl` or `.aqrl`.
#[derive(Clone, Copy)]
struct Ordered<'a> {
    mnemonic: &'a str,
    aq: bool,
    rl: bool,
}

impl<'a> fmt::Display for Ordered<'a> {
    ghost use Rattle.std.specs.Prelude.{Some};
    ghost use Rattle.rvm_dis.specs.Pieces.{ordered};

    ghost output = { λ o. Some (ordered o.mnemonic.now o.aq o.rl) };

    fn fmt<W: fmt::Write>(&self, f: &mut fmt::Formatter<W>) -> fmt::Result {
        let mnemonic = self.mnemonic;
        match (self.aq, self.rl) {
            (false, false) => write!(f, "{mnemonic}"),
            (true, false) => write!(f, "{mnemonic}.aq"),
            (false, true) => write!(f, "{mnemonic}.rl"),
            (true, true) => write!(f, "{mnemonic}.aqrl"),
        }
    }
}

/// Writes a mnemonic, rd and the upper 20 bits.
pub(crate) fn upper<W: Write>(
    writer: &mut W,
    mnemonic: &str,
    rd: Reg,
    imm: Imm20,
) -> Result<(), LinkFault>
    ensures { OnOk result (Appends (W.contents writer.old) (W.contents writer.new)
        (upper_text mnemonic.now rd imm)) }
{
    write!(writer, "{mnemonic} {}, 0x{:x}", name(rd), imm.bits())?;
    Ok(())
}

/// Writes a mnemonic, rd and the target of a jump that stands at `address`.
pub(crate) fn jump<W: Write>(
    writer: &mut W,
    mnemonic: &str,
    address: u32,
    rd: Reg,
    offset: Off21,
) -> Result<(), LinkFault>
    ensures { OnOk result (Appends (W.contents writer.old) (W.contents writer.new)
        (jump_text mnemonic.now address rd offset)) }
{
    let target = Word(add_signed(address, offset.value()));
    write!(writer, "{mnemonic} {}, {target}", name(rd))?;
    Ok(())
}

/// Writes a mnemonic, rs1, rs2 and the target of a branch that stands at `address`.
pub(crate) fn branch<W: Write>(
    writer: &mut W,
    mnemonic: &str,
    address: u32,
    rs1: Reg,
    rs2: Reg,
    offset: Off13,
) -> Result<(), LinkFault>
    ensures { OnOk result (Appends (W.contents writer.old) (W.contents writer.new)
        (branch_text mnemonic.now address rs1 rs2 offset)) }
{
    let (rs1, rs2) = (name(rs1), name(rs2));
    let target = Word(add_signed(address, offset.value()));
    write!(writer, "{mnemonic} {rs1}, {rs2}, {target}")?;
    Ok(())
}

/// Writes a mnemonic, the register that is loaded or stored, and an immediate before rs1 in parentheses.
pub(crate) fn access<W: Write>(
    writer: &mut W,
    mnemonic: &str,
    first: Reg,
    rs1: Reg,
    imm: Imm12,
) -> Result<(), LinkFault>
    ensures { OnOk result (Appends (W.contents writer.old) (W.contents writer.new)
        (access_text mnemonic.now first rs1 imm)) }
{
    let (first, rs1) = (name(first), name(rs1));
    write!(writer, "{mnemonic} {first}, {}({rs1})", imm.value())?;
    Ok(())
}

/// Writes a mnemonic, rd, rs1 and an immediate.
pub(crate) fn immediate<W: Write>(
    writer: &mut W,
    mnemonic: &str,
    rd: Reg,
    rs1: Reg,
    imm: Imm12,
) -> Result<(), LinkFault>
    ensures { OnOk result (Appends (W.contents writer.old) (W.contents writer.new)
        (immediate_text mnemonic.now rd rs1 imm)) }
{
    let (rd, rs1) = (name(rd), name(rs1));
    write!(writer, "{mnemonic} {rd}, {rs1}, {}", imm.value())?;
    Ok(())
}

/// Writes a mnemonic, rd, rs1 and the amount of a shift.
pub(crate) fn shift<W: Write>(
    writer: &mut W,
    mnemonic: &str,
    rd: Reg,
    rs1: Reg,
    amount: Shamt,
) -> Result<(), LinkFault>
    ensures { OnOk result (Appends (W.contents writer.old) (W.contents writer.new)
        (shift_text mnemonic.now rd rs1 amount)) }
{
    let (rd, rs1) = (name(rd), name(rs1));
    write!(writer, "{mnemonic} {rd}, {rs1}, {}", amount.bits())?;
    Ok(())
}

/// Writes a mnemonic, rd, rs1 and rs2.
pub(crate) fn registers<W: Write>(
    writer: &mut W,
    mnemonic: &str,
    rd: Reg,
    rs1: Reg,
    rs2: Reg,
) -> Result<(), LinkFault>
    ensures { OnOk result (Appends (W.contents writer.old) (W.contents writer.new)
        (registers_text mnemonic.now rd rs1 rs2)) }
{
    let (rd, rs1, rs2) = (name(rd), name(rs1), name(rs2));
    write!(writer, "{mnemonic} {rd}, {rs1}, {rs2}")?;
    Ok(())
}

/// Writes a mnemonic, rd, the number of a CSR and rs1.
pub(crate) fn csr_register<W: Write>(
    writer: &mut W,
    mnemonic: &str,
    rd: Reg,
    rs1: Reg,
    csr: CsrNo,
) -> Result<(), LinkFault>
    ensures { OnOk result (Appends (W.contents writer.old) (W.contents writer.new)
        (csr_text mnemonic.now rd rs1 csr)) }
{
    let (rd, rs1) = (name(rd), name(rs1));
    write!(writer, "{mnemonic} {rd}, {}, {rs1}", Csr(csr))?;
    Ok(())
}

/// Writes a mnemonic, rd, the number of a CSR and an immediate.
pub(crate) fn csr_immediate<W: Write>(
    writer: &mut W,
    mnemonic: &str,
    rd: Reg,
    imm: Imm5,
    csr: CsrNo,
) -> Result<(), LinkFault>
    ensures { OnOk result (Appends (W.contents writer.old) (W.contents writer.new)
        (csr_immediate_text mnemonic.now rd imm csr)) }
{
    write!(
        writer,
        "{mnemonic} {}, {}, {}",
        name(rd),
        Csr(csr),
        imm.bits()
    )?;
    Ok(())
}

/// Writes a mnemonic with its ordering, rd, and rs1 in parentheses.
pub(crate) fn load_reserved<W: Write>(
    writer: &mut W,
    mnemonic: &str,
    rd: Reg,
    rs1: Reg,
    aq: bool,
    rl: bool,
) -> Result<(), LinkFault>
    ensures { OnOk result (Appends (W.contents writer.old) (W.contents writer.new)
        (load_reserved_text mnemonic.now rd rs1 aq rl)) }
{
    let (rd, rs1) = (name(rd), name(rs1));
    let mnemonic = Ordered { mnemonic, aq, rl };
    write!(writer, "{mnemonic} {rd}, ({rs1})")?;
    Ok(())
}

/// Writes a mnemonic with its ordering, rd, rs2, and rs1 in parentheses.
pub(crate) fn atomic<W: Write>(
    writer: &mut W,
    mnemonic: &str,
    rd: Reg,
    rs1: Reg,
    rs2: Reg,
    aq: bool,
    rl: bool,
) -> Result<(), LinkFault>
    ensures { OnOk result (Appends (W.contents writer.old) (W.contents writer.new)
        (atomic_text mnemonic.now rd rs1 rs2 aq rl)) }
{
    let (rd, rs1, rs2) = (name(rd), name(rs1), name(rs2));
    let mnemonic = Ordered { mnemonic, aq, rl };
    write!(writer, "{mnemonic} {rd}, {rs2}, ({rs1})")?;
    Ok(())
}

/// Writes a mnemonic alone.
pub(crate) fn whole<W: Write>(writer: &mut W, mnemonic: &str) -> Result<(), LinkFault>
    ensures { OnOk result (Appends (W.contents writer.old) (W.contents writer.new)
        mnemonic.now) }
{
    writer.write_all(mnemonic.as_bytes())?;
    Ok(())
}

/// Writes a word as data: `.word` and eight hexadecimal digits after `0x`.
pub(crate) fn word_as_data<W: Write>(writer: &mut W, word: u32) -> Result<(), LinkFault>
    ensures { OnOk result (Appends (W.contents writer.old) (W.contents writer.new)
        (word_text word)) }
{
    write!(writer, ".word {}", Word(word))?;
    Ok(())
}

/// Writes the mnemonic of a fence if `word` is `named`, the only word that it stands for; else writes the word as data.
pub(crate) fn fence<W: Write>(
    writer: &mut W,
    mnemonic: &str,
    named: u32,
    word: u32,
) -> Result<(), LinkFault>
    ensures { OnOk result (Appends (W.contents writer.old) (W.contents writer.new)
        (fence_text mnemonic.now named word)) }
{
    if word == named {
        whole(writer, mnemonic)
    } else {
        word_as_data(writer, word)
    }
}
