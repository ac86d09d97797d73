//! The text of each row of the instruction table, by its mnemonic and the shape of its operands.

ghost use Rattle.std.specs.Prelude.{◌≡◌, OnOk};
ghost use Rattle.std.specs.Io.KnownBytes.{Appends};
ghost use Rattle.rvm_isa.specs.Words.{word_of};
ghost use Rattle.rvm_dis.specs.Disassembly.{text_at, text_of};

use crate::shapes::{
    access, atomic, branch, csr_immediate, csr_register, fence, immediate, jump, load_reserved,
    registers, shift, upper, whole, word_as_data,
};
use rvm_isa::{Ins, decode};
use rvm_refusal::LinkFault;
use std::io::Write;

/// Writes the text of the instruction that `word` is at `address`, without a line feed, in lower case: its mnemonic and
/// its operands, as in `addi a0, a0, -2048`. The target of a jump or a branch is an address of eight hexadecimal
/// digits. A word that is no instruction, and a fence that the assembler has no text for, are written as data: `.word
/// 0x00000000`. `LinkFault` if the writer fails.
pub fn write_ins<W: Write>(address: u32, word: u32, writer: &mut W) -> Result<(), LinkFault>
    ensures { OnOk result (Appends (W.contents writer.old) (W.contents writer.new)
        (text_at address word)) }
{
    match decode(word) {
        Some(ins) => write_row(address, word, &ins, writer),
        None => word_as_data(writer, word),
    }
}

/// Writes the text of `ins`, the instruction that `word` is at `address`.
#[tactic(auto, unfolding(crate::specs::Disassembly::text_of))]
fn write_row<W: Write>(address: u32, word: u32, ins: &Ins, writer: &mut W) -> Result<(), LinkFault>
    requires { word_of ins.now ≡ word }
    ensures { OnOk result (Appends (W.contents writer.old) (W.contents writer.new)
        (text_of address ins.now)) }
{
    match *ins {
        Ins::Lui { rd, imm } => upper(writer, "lui", rd, imm),
        Ins::Auipc { rd, imm } => upper(writer, "auipc", rd, imm),
        Ins::Jal { rd, offset } => jump(writer, "jal", address, rd, offset),
        Ins::Jalr { rd, rs1, imm } => access(writer, "jalr", rd, rs1, imm),
        Ins::Beq { rs1, rs2, offset } => branch(writer, "beq", address, rs1, rs2, offset),
        Ins::Bne { rs1, rs2, offset } => branch(writer, "bne", address, rs1, rs2, offset),
        Ins::Blt { rs1, rs2, offset } => branch(writer, "blt", address, rs1, rs2, offset),
        Ins::Bge { rs1, rs2, offset } => branch(writer, "bge", address, rs1, rs2, offset),
        Ins::Bltu { rs1, rs2, offset } => branch(writer, "bltu", address, rs1, rs2, offset),
        Ins::Bgeu { rs1, rs2, offset } => branch(writer, "bgeu", address, rs1, rs2, offset),
        Ins::Lb { rd, rs1, imm } => access(writer, "lb", rd, rs1, imm),
        Ins::Lh { rd, rs1, imm } => access(writer, "lh", rd, rs1, imm),
        Ins::Lw { rd, rs1, imm } => access(writer, "lw", rd, rs1, imm),
        Ins::Lbu { rd, rs1, imm } => access(writer, "lbu", rd, rs1, imm),
        Ins::Lhu { rd, rs1, imm } => access(writer, "lhu", rd, rs1, imm),
        Ins::Sb { rs1, rs2, imm } => access(writer, "sb", rs2, rs1, imm),
        Ins::Sh { rs1, rs2, imm } => access(writer, "sh", rs2, rs1, imm),
        Ins::Sw { rs1, rs2, imm } => access(writer, "sw", rs2, rs1, imm),
        Ins::Addi { rd, rs1, imm } => immediate(writer, "addi", rd, rs1, imm),
        Ins::Slti { rd, rs1, imm } => immediate(writer, "slti", rd, rs1, imm),
        Ins::Sltiu { rd, rs1, imm } => immediate(writer, "sltiu", rd, rs1, imm),
        Ins::Xori { rd, rs1, imm } => immediate(writer, "xori", rd, rs1, imm),
        Ins::Ori { rd, rs1, imm } => immediate(writer, "ori", rd, rs1, imm),
        Ins::Andi { rd, rs1, imm } => immediate(writer, "andi", rd, rs1, imm),
        Ins::Slli { rd, rs1, amount } => shift(writer, "slli", rd, rs1, amount),
        Ins::Srli { rd, rs1, amount } => shift(writer, "srli", rd, rs1, amount),
        Ins::Srai { rd, rs1, amount } => shift(writer, "srai", rd, rs1, amount),
        Ins::Add { rd, rs1, rs2 } => registers(writer, "add", rd, rs1, rs2),
        Ins::Sub { rd, rs1, rs2 } => registers(writer, "sub", rd, rs1, rs2),
        Ins::Sll { rd, rs1, rs2 } => registers(writer, "sll", rd, rs1, rs2),
        Ins::Slt { rd, rs1, rs2 } => registers(writer, "slt", rd, rs1, rs2),
        Ins::Sltu { rd, rs1, rs2 } => registers(writer, "sltu", rd, rs1, rs2),
        Ins::Xor { rd, rs1, rs2 } => registers(writer, "xor", rd, rs1, rs2),
        Ins::Srl { rd, rs1, rs2 } => registers(writer, "srl", rd, rs1, rs2),
        Ins::Sra { rd, rs1, rs2 } => registers(writer, "sra", rd, rs1, rs2),
        Ins::Or { rd, rs1, rs2 } => registers(writer, "or", rd, rs1, rs2),
        Ins::And { rd, rs1, rs2 } => registers(writer, "and", rd, rs1, rs2),
        Ins::Mul { rd, rs1, rs2 } => registers(writer, "mul", rd, rs1, rs2),
        Ins::Mulh { rd, rs1, rs2 } => registers(writer, "mulh", rd, rs1, rs2),
        Ins::Mulhsu { rd, rs1, rs2 } => registers(writer, "mulhsu", rd, rs1, rs2),
        Ins::Mulhu { rd, rs1, rs2 } => registers(writer, "mulhu", rd, rs1, rs2),
        Ins::Div { rd, rs1, rs2 } => registers(writer, "div", rd, rs1, rs2),
        Ins::Divu { rd, rs1, rs2 } => registers(writer, "divu", rd, rs1, rs2),
        Ins::Rem { rd, rs1, rs2 } => registers(writer, "rem", rd, rs1, rs2),
        Ins::Remu { rd, rs1, rs2 } => registers(writer, "remu", rd, rs1, rs2),
        Ins::Fence { .. } => fence(writer, "fence", 0x0FF0000F, word),
        Ins::FenceI { .. } => fence(writer, "fence.i", 0x0000100F, word),
        Ins::Ecall => whole(writer, "ecall"),
        Ins::Ebreak => whole(writer, "ebreak"),
        Ins::Mret => whole(writer, "mret"),
        Ins::Wfi => whole(writer, "wfi"),
        Ins::Csrrw { rd, rs1, csr } => csr_register(writer, "csrrw", rd, rs1, csr),
        Ins::Csrrs { rd, rs1, csr } => csr_register(writer, "csrrs", rd, rs1, csr),
        Ins::Csrrc { rd, rs1, csr } => csr_register(writer, "csrrc", rd, rs1, csr),
        Ins::Csrrwi { rd, imm, csr } => csr_immediate(writer, "csrrwi", rd, imm, csr),
        Ins::Csrrsi { rd, imm, csr } => csr_immediate(writer, "csrrsi", rd, imm, csr),
        Ins::Csrrci { rd, imm, csr } => csr_immediate(writer, "csrrci", rd, imm, csr),
        Ins::LrW { rd, rs1, aq, rl } => load_reserved(writer, "lr.w", rd, rs1, aq, rl),
        Ins::ScW {
            rd,
            rs1,
            rs2,
            aq,
            rl,
        } => atomic(writer, "sc.w", rd, rs1, rs2, aq, rl),
        Ins::AmoswapW {
            rd,
            rs1,
            rs2,
            aq,
            rl,
        } => atomic(writer, "amoswap.w", rd, rs1, rs2, aq, rl),
        Ins::AmoaddW {
            rd,
            rs1,
            rs2,
            aq,
            rl,
        } => atomic(writer, "amoadd.w", rd, rs1, rs2, aq, rl),
        Ins::AmoxorW {
            rd,
            rs1,
            rs2,
            aq,
            rl,
        } => atomic(writer, "amoxor.w", rd, rs1, rs2, aq, rl),
        Ins::AmoandW {
            rd,
            rs1,
            rs2,
            aq,
            rl,
        } => atomic(writer, "amoand.w", rd, rs1, rs2, aq, rl),
        Ins::AmoorW {
            rd,
            rs1,
            rs2,
            aq,
            rl,
        } => atomic(writer, "amoor.w", rd, rs1, rs2, aq, rl),
        Ins::AmominW {
            rd,
            rs1,
            rs2,
            aq,
            rl,
        } => atomic(writer, "amomin.w", rd, rs1, rs2, aq, rl),
        Ins::AmomaxW {
            rd,
            rs1,
            rs2,
            aq,
            rl,
        } => atomic(writer, "amomax.w", rd, rs1, rs2, aq, rl),
        Ins::AmominuW {
            rd,
            rs1,
            rs2,
            aq,
            rl,
        } => atomic(writer, "amominu.w", rd, rs1, rs2, aq, rl),
        Ins::AmomaxuW {
            rd,
            rs1,
            rs2,
            aq,
            rl,
        } => atomic(writer, "amomaxu.w", rd, rs1, rs2, aq, rl),
    }
}
