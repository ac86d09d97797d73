//! From words to instructions. Each major opcode with several rows has its own function, named as
//! the manual names the opcode (Unprivileged ISA, "RV32/64G Instruction Set Listings").
#![tactic(auto, unfolding(crate::specs::Table::table, crate::specs::Opcodes::with_opcode, crate::specs::Words::word_of))]

ghost use Rattle.std.specs.Prelude.{◌≡◌, IfSome};
ghost use Rattle.rvm_isa.specs.Fields.{opcode};
ghost use Rattle.rvm_isa.specs.Table.{decoded};
ghost use Rattle.rvm_isa.specs.Words.{word_of};
ghost use Rattle.rvm_isa.specs.Opcodes.{with_opcode};

use crate::ins::Ins;
use crate::read::{
    aq, b_offset, csr, funct3, funct5, funct7, i_imm, imm5, imm20, j_offset, rd, rl, rs1, rs2,
    s_imm, shamt,
};

/// The instruction of a word, if the table has a row for it.
#[inline(always)]
#[tactic(auto, using(crate::proofs::Rows::opcodes), unfolding(crate::specs::Table::table, crate::specs::Opcodes::with_opcode, crate::specs::Words::word_of))]
pub fn decode(word: u32) -> Option<Ins>
    ensures row { result ≡ decoded word }
    ensures word { IfSome result (λ i. word_of i ≡ word) }
{
    let (rd, imm, offset) = (rd(word), imm20(word), j_offset(word));
    match word & 0x7F {
        0x37 => Some(Ins::Lui { rd, imm }),
        0x17 => Some(Ins::Auipc { rd, imm }),
        0x6F => Some(Ins::Jal { rd, offset }),
        0x67 => decode_jalr(word),
        0x63 => decode_branch(word),
        0x03 => decode_load(word),
        0x23 => decode_store(word),
        0x13 => decode_op_imm(word),
        0x33 => decode_op(word),
        0x0F => decode_misc_mem(word),
        0x73 => decode_system(word),
        0x2F => decode_amo(word),
        _ => None,
    }
}

#[inline(always)]
fn decode_jalr(word: u32) -> Option<Ins>
    requires { opcode word ≡ 0x67 }
    ensures row { result ≡ with_opcode 0x67 word }
    ensures word { IfSome result (λ i. word_of i ≡ word) }
{
    let (rd, rs1, imm) = (rd(word), rs1(word), i_imm(word));
    match funct3(word) {
        0 => Some(Ins::Jalr { rd, rs1, imm }),
        _ => None,
    }
}

#[inline(always)]
fn decode_branch(word: u32) -> Option<Ins>
    requires { opcode word ≡ 0x63 }
    ensures row { result ≡ with_opcode 0x63 word }
    ensures word { IfSome result (λ i. word_of i ≡ word) }
{
    let (rs1, rs2, offset) = (rs1(word), rs2(word), b_offset(word));
    match funct3(word) {
        0 => Some(Ins::Beq { rs1, rs2, offset }),
        1 => Some(Ins::Bne { rs1, rs2, offset }),
        4 => Some(Ins::Blt { rs1, rs2, offset }),
        5 => Some(Ins::Bge { rs1, rs2, offset }),
        6 => Some(Ins::Bltu { rs1, rs2, offset }),
        7 => Some(Ins::Bgeu { rs1, rs2, offset }),
        _ => None,
    }
}

#[inline(always)]
fn decode_load(word: u32) -> Option<Ins>
    requires { opcode word ≡ 0x03 }
    ensures row { result ≡ with_opcode 0x03 word }
    ensures word { IfSome result (λ i. word_of i ≡ word) }
{
    let (rd, rs1, imm) = (rd(word), rs1(word), i_imm(word));
    match funct3(word) {
        0 => Some(Ins::Lb { rd, rs1, imm }),
        1 => Some(Ins::Lh { rd, rs1, imm }),
        2 => Some(Ins::Lw { rd, rs1, imm }),
        4 => Some(Ins::Lbu { rd, rs1, imm }),
        5 => Some(Ins::Lhu { rd, rs1, imm }),
        _ => None,
    }
}

#[inline(always)]
fn decode_store(word: u32) -> Option<Ins>
    requires { opcode word ≡ 0x23 }
    ensures row { result ≡ with_opcode 0x23 word }
    ensures word { IfSome result (λ i. word_of i ≡ word) }
{
    let (rs1, rs2, imm) = (rs1(word), rs2(word), s_imm(word));
    match funct3(word) {
        0 => Some(Ins::Sb { rs1, rs2, imm }),
        1 => Some(Ins::Sh { rs1, rs2, imm }),
        2 => Some(Ins::Sw { rs1, rs2, imm }),
        _ => None,
    }
}

#[inline(always)]
fn decode_op_imm(word: u32) -> Option<Ins>
    requires { opcode word ≡ 0x13 }
    ensures row { result ≡ with_opcode 0x13 word }
    ensures word { IfSome result (λ i. word_of i ≡ word) }
{
    let (rd, rs1) = (rd(word), rs1(word));
    match funct3(word) {
        0 => Some(Ins::Addi {
            rd,
            rs1,
            imm: i_imm(word),
        }),
        1 if funct7(word) == 0x00 => Some(Ins::Slli {
            rd,
            rs1,
            amount: shamt(word),
        }),
        2 => Some(Ins::Slti {
            rd,
            rs1,
            imm: i_imm(word),
        }),
        3 => Some(Ins::Sltiu {
            rd,
            rs1,
            imm: i_imm(word),
        }),
        4 => Some(Ins::Xori {
            rd,
            rs1,
            imm: i_imm(word),
        }),
        5 if funct7(word) == 0x00 => Some(Ins::Srli {
            rd,
            rs1,
            amount: shamt(word),
        }),
        5 if funct7(word) == 0x20 => Some(Ins::Srai {
            rd,
            rs1,
            amount: shamt(word),
        }),
        6 => Some(Ins::Ori {
            rd,
            rs1,
            imm: i_imm(word),
        }),
        7 => Some(Ins::Andi {
            rd,
            rs1,
            imm: i_imm(word),
        }),
        _ => None,
    }
}

#[inline(always)]
fn decode_op(word: u32) -> Option<Ins>
    requires { opcode word ≡ 0x33 }
    ensures row { result ≡ with_opcode 0x33 word }
    ensures word { IfSome result (λ i. word_of i ≡ word) }
{
    let (rd, rs1, rs2) = (rd(word), rs1(word), rs2(word));
    match (funct3(word), funct7(word)) {
        (0, 0x00) => Some(Ins::Add { rd, rs1, rs2 }),
        (0, 0x20) => Some(Ins::Sub { rd, rs1, rs2 }),
        (1, 0x00) => Some(Ins::Sll { rd, rs1, rs2 }),
        (2, 0x00) => Some(Ins::Slt { rd, rs1, rs2 }),
        (3, 0x00) => Some(Ins::Sltu { rd, rs1, rs2 }),
        (4, 0x00) => Some(Ins::Xor { rd, rs1, rs2 }),
        (5, 0x00) => Some(Ins::Srl { rd, rs1, rs2 }),
        (5, 0x20) => Some(Ins::Sra { rd, rs1, rs2 }),
        (6, 0x00) => Some(Ins::Or { rd, rs1, rs2 }),
        (7, 0x00) => Some(Ins::And { rd, rs1, rs2 }),
        (0, 0x01) => Some(Ins::Mul { rd, rs1, rs2 }),
        (1, 0x01) => Some(Ins::Mulh { rd, rs1, rs2 }),
        (2, 0x01) => Some(Ins::Mulhsu { rd, rs1, rs2 }),
        (3, 0x01) => Some(Ins::Mulhu { rd, rs1, rs2 }),
        (4, 0x01) => Some(Ins::Div { rd, rs1, rs2 }),
        (5, 0x01) => Some(Ins::Divu { rd, rs1, rs2 }),
        (6, 0x01) => Some(Ins::Rem { rd, rs1, rs2 }),
        (7, 0x01) => Some(Ins::Remu { rd, rs1, rs2 }),
        _ => None,
    }
}

#[inline(always)]
fn decode_misc_mem(word: u32) -> Option<Ins>
    requires { opcode word ≡ 0x0F }
    ensures row { result ≡ with_opcode 0x0F word }
    ensures word { IfSome result (λ i. word_of i ≡ word) }
{
    let (rd, rs1, imm) = (rd(word), rs1(word), i_imm(word));
    match funct3(word) {
        0 => Some(Ins::Fence { rd, rs1, imm }),
        1 => Some(Ins::FenceI { rd, rs1, imm }),
        _ => None,
    }
}

#[inline(always)]
pub(crate) fn decode_system(word: u32) -> Option<Ins>
    requires { opcode word ≡ 0x73 }
    ensures row { result ≡ with_opcode 0x73 word }
    ensures word { IfSome result (λ i. word_of i ≡ word) }
{
    let (rd, rs1, imm, csr) = (rd(word), rs1(word), imm5(word), csr(word));
    match (funct3(word), word) {
        (0, 0x00000073) => Some(Ins::Ecall),
        (0, 0x00100073) => Some(Ins::Ebreak),
        (0, 0x30200073) => Some(Ins::Mret),
        (0, 0x10500073) => Some(Ins::Wfi),
        (1, _) => Some(Ins::Csrrw { rd, rs1, csr }),
        (2, _) => Some(Ins::Csrrs { rd, rs1, csr }),
        (3, _) => Some(Ins::Csrrc { rd, rs1, csr }),
        (5, _) => Some(Ins::Csrrwi { rd, imm, csr }),
        (6, _) => Some(Ins::Csrrsi { rd, imm, csr }),
        (7, _) => Some(Ins::Csrrci { rd, imm, csr }),
        _ => None,
    }
}

#[inline(always)]
fn decode_amo(word: u32) -> Option<Ins>
    requires { opcode word ≡ 0x2F }
    ensures row { result ≡ with_opcode 0x2F word }
    ensures word { IfSome result (λ i. word_of i ≡ word) }
{
    if funct3(word) != 2 {
        return None;
    }
    let (rd, rs1, rs2, aq, rl) = (rd(word), rs1(word), rs2(word), aq(word), rl(word));
    match funct5(word) {
        0x02 if rs2.bits() == 0 => Some(Ins::LrW { rd, rs1, aq, rl }),
        0x03 => Some(Ins::ScW {
            rd,
            rs1,
            rs2,
            aq,
            rl,
        }),
        0x01 => Some(Ins::AmoswapW {
            rd,
            rs1,
            rs2,
            aq,
            rl,
        }),
        0x00 => Some(Ins::AmoaddW {
            rd,
            rs1,
            rs2,
            aq,
            rl,
        }),
        0x04 => Some(Ins::AmoxorW {
            rd,
            rs1,
            rs2,
            aq,
            rl,
        }),
        0x0C => Some(Ins::AmoandW {
            rd,
            rs1,
            rs2,
            aq,
            rl,
        }),
        0x08 => Some(Ins::AmoorW {
            rd,
            rs1,
            rs2,
            aq,
            rl,
        }),
        0x10 => Some(Ins::AmominW {
            rd,
            rs1,
            rs2,
            aq,
            rl,
        }),
        0x14 => Some(Ins::AmomaxW {
            rd,
            rs1,
            rs2,
            aq,
            rl,
        }),
        0x18 => Some(Ins::AmominuW {
            rd,
            rs1,
            rs2,
            aq,
            rl,
        }),
        0x1C => Some(Ins::AmomaxuW {
            rd,
            rs1,
            rs2,
            aq,
            rl,
        }),
        _ => None,
    }
}
