//! Words of each shape, put together from their fixed bits and their fields, from the lowest bit
//! up. The clauses say which part of the word each one is.

ghost use Rattle.std.specs.Prelude.{◌≡◌, ◌<◌, ◌^◌};
ghost use Rattle.rvm_word.specs.Word.{modulo};
ghost use Rattle.rvm_isa.specs.Fields as fields;

use crate::field::{CsrNo, Imm5, Imm20, Reg, Shamt};
use crate::immediate::{Imm12, Off13, Off21};

/// A word of the U format: rd and an upper immediate (LUI, AUIPC).
pub fn u_word(opcode: u32, rd: Reg, imm: Imm20) -> u32
    requires { opcode < 2 ^ 7 }
    ensures opcode { fields.opcode result ≡ opcode }
    ensures rd { fields.rd result ≡ rd }
    ensures imm { fields.u_bits result ≡ imm }
{
    opcode | rd.bits() << 7 | imm.bits() << 12
}

/// A word of the J format: rd and the offset of a jump (JAL).
pub fn j_word(opcode: u32, rd: Reg, offset: Off21) -> u32
    requires { opcode < 2 ^ 7 }
    ensures opcode { fields.opcode result ≡ opcode }
    ensures rd { fields.rd result ≡ rd }
    ensures offset { fields.j_offset result ≡ offset }
    ensures bits { fields.j_bits result ≡ modulo 21 offset }
{
    let offset = offset.bits();
    opcode
        | rd.bits() << 7
        | (offset >> 12 & 0xFF) << 12
        | (offset >> 11 & 1) << 20
        | (offset >> 1 & 0x3FF) << 21
        | offset >> 20 << 31
}

/// A word of the I format: rd, rs1 and a signed immediate.
pub fn i_word(opcode: u32, funct3: u32, rd: Reg, rs1: Reg, imm: Imm12) -> u32
    requires opcode { opcode < 2 ^ 7 }
    requires funct3 { funct3 < 2 ^ 3 }
    ensures opcode { fields.opcode result ≡ opcode }
    ensures funct3 { fields.funct3 result ≡ funct3 }
    ensures rd { fields.rd result ≡ rd }
    ensures rs1 { fields.rs1 result ≡ rs1 }
    ensures imm { fields.i_imm result ≡ imm }
    ensures bits { fields.i_bits result ≡ modulo 12 imm }
{
    opcode | rd.bits() << 7 | funct3 << 12 | rs1.bits() << 15 | imm.bits() << 20
}

/// A word of the B format: two source registers and the offset of a branch.
pub fn b_word(opcode: u32, funct3: u32, rs1: Reg, rs2: Reg, offset: Off13) -> u32
    requires opcode { opcode < 2 ^ 7 }
    requires funct3 { funct3 < 2 ^ 3 }
    ensures opcode { fields.opcode result ≡ opcode }
    ensures funct3 { fields.funct3 result ≡ funct3 }
    ensures rs1 { fields.rs1 result ≡ rs1 }
    ensures rs2 { fields.rs2 result ≡ rs2 }
    ensures offset { fields.b_offset result ≡ offset }
    ensures bits { fields.b_bits result ≡ modulo 13 offset }
{
    let offset = offset.bits();
    opcode
        | (offset >> 11 & 1) << 7
        | (offset >> 1 & 0xF) << 8
        | funct3 << 12
        | rs1.bits() << 15
        | rs2.bits() << 20
        | (offset >> 5 & 0x3F) << 25
        | offset >> 12 << 31
}

/// A word of the S format: two source registers and a signed immediate (a store).
pub fn s_word(opcode: u32, funct3: u32, rs1: Reg, rs2: Reg, imm: Imm12) -> u32
    requires opcode { opcode < 2 ^ 7 }
    requires funct3 { funct3 < 2 ^ 3 }
    ensures opcode { fields.opcode result ≡ opcode }
    ensures funct3 { fields.funct3 result ≡ funct3 }
    ensures rs1 { fields.rs1 result ≡ rs1 }
    ensures rs2 { fields.rs2 result ≡ rs2 }
    ensures imm { fields.s_imm result ≡ imm }
    ensures bits { fields.s_bits result ≡ modulo 12 imm }
{
    let imm = imm.bits();
    opcode | (imm & 0x1F) << 7 | funct3 << 12 | rs1.bits() << 15 | rs2.bits() << 20 | imm >> 5 << 25
}

/// A word of a shift by an immediate.
pub fn shift_word(opcode: u32, funct3: u32, funct7: u32, rd: Reg, rs1: Reg, amount: Shamt) -> u32
    requires opcode { opcode < 2 ^ 7 }
    requires funct3 { funct3 < 2 ^ 3 }
    requires funct7 { funct7 < 2 ^ 7 }
    ensures opcode { fields.opcode result ≡ opcode }
    ensures funct3 { fields.funct3 result ≡ funct3 }
    ensures funct7 { fields.funct7 result ≡ funct7 }
    ensures rd { fields.rd result ≡ rd }
    ensures rs1 { fields.rs1 result ≡ rs1 }
    ensures amount { fields.rs2 result ≡ amount }
{
    opcode | rd.bits() << 7 | funct3 << 12 | rs1.bits() << 15 | amount.bits() << 20 | funct7 << 25
}

/// A word of the R format: rd, rs1 and rs2.
pub fn r_word(opcode: u32, funct3: u32, funct7: u32, rd: Reg, rs1: Reg, rs2: Reg) -> u32
    requires opcode { opcode < 2 ^ 7 }
    requires funct3 { funct3 < 2 ^ 3 }
    requires funct7 { funct7 < 2 ^ 7 }
    ensures opcode { fields.opcode result ≡ opcode }
    ensures funct3 { fields.funct3 result ≡ funct3 }
    ensures funct7 { fields.funct7 result ≡ funct7 }
    ensures rd { fields.rd result ≡ rd }
    ensures rs1 { fields.rs1 result ≡ rs1 }
    ensures rs2 { fields.rs2 result ≡ rs2 }
{
    opcode | rd.bits() << 7 | funct3 << 12 | rs1.bits() << 15 | rs2.bits() << 20 | funct7 << 25
}

/// A word of a CSR instruction with a source register.
pub fn csr_word(opcode: u32, funct3: u32, rd: Reg, rs1: Reg, csr: CsrNo) -> u32
    requires opcode { opcode < 2 ^ 7 }
    requires funct3 { funct3 < 2 ^ 3 }
    ensures opcode { fields.opcode result ≡ opcode }
    ensures funct3 { fields.funct3 result ≡ funct3 }
    ensures rd { fields.rd result ≡ rd }
    ensures rs1 { fields.rs1 result ≡ rs1 }
    ensures csr { fields.csr result ≡ csr }
{
    opcode | rd.bits() << 7 | funct3 << 12 | rs1.bits() << 15 | csr.bits() << 20
}

/// A word of a CSR instruction with an immediate.
pub fn csr_imm_word(opcode: u32, funct3: u32, rd: Reg, imm: Imm5, csr: CsrNo) -> u32
    requires opcode { opcode < 2 ^ 7 }
    requires funct3 { funct3 < 2 ^ 3 }
    ensures opcode { fields.opcode result ≡ opcode }
    ensures funct3 { fields.funct3 result ≡ funct3 }
    ensures rd { fields.rd result ≡ rd }
    ensures imm { fields.rs1 result ≡ imm }
    ensures csr { fields.csr result ≡ csr }
{
    opcode | rd.bits() << 7 | funct3 << 12 | imm.bits() << 15 | csr.bits() << 20
}

/// A word of an atomic instruction: LR.W, SC.W or an AMO.
pub fn amo_word(
    opcode: u32,
    funct3: u32,
    funct5: u32,
    rd: Reg,
    rs1: Reg,
    rs2: Reg,
    aq: bool,
    rl: bool,
) -> u32
    requires opcode { opcode < 2 ^ 7 }
    requires funct3 { funct3 < 2 ^ 3 }
    requires funct5 { funct5 < 2 ^ 5 }
    ensures opcode { fields.opcode result ≡ opcode }
    ensures funct3 { fields.funct3 result ≡ funct3 }
    ensures funct5 { fields.funct5 result ≡ funct5 }
    ensures rd { fields.rd result ≡ rd }
    ensures rs1 { fields.rs1 result ≡ rs1 }
    ensures rs2 { fields.rs2 result ≡ rs2 }
    ensures aq { fields.aq result ≡ aq }
    ensures rl { fields.rl result ≡ rl }
{
    opcode
        | rd.bits() << 7
        | funct3 << 12
        | rs1.bits() << 15
        | rs2.bits() << 20
        | u32::from(rl) << 25
        | u32::from(aq) << 26
        | funct5 << 27
}
