//! The fields of a word (Unprivileged ISA, "Base Instruction Formats" and "Immediate Encoding
//! Variants"), each read with shifts and masks and without a branch.

ghost use Rattle.std.specs.Prelude.{◌≡◌};
ghost use Rattle.rvm_word.specs.Word.{modulo};
ghost use Rattle.rvm_isa.specs.Fields as fields;

use crate::field::{CsrNo, Imm5, Imm20, Reg, Shamt};
use crate::immediate::{Imm12, Off13, Off21};
use rvm_word::sra;

/// The destination register, bits 11 to 7.
#[inline(always)]
pub fn rd(word: u32) -> Reg
    ensures { result ≡ fields.rd word }
{
    Reg::new(word >> 7 & 0x1F)
}

/// The first source register, bits 19 to 15.
#[inline(always)]
pub fn rs1(word: u32) -> Reg
    ensures { result ≡ fields.rs1 word }
{
    Reg::new(word >> 15 & 0x1F)
}

/// The second source register, bits 24 to 20.
#[inline(always)]
pub fn rs2(word: u32) -> Reg
    ensures { result ≡ fields.rs2 word }
{
    Reg::new(word >> 20 & 0x1F)
}

/// The amount of a shift by an immediate, bits 24 to 20, at the place of rs2.
#[inline(always)]
pub fn shamt(word: u32) -> Shamt
    ensures { result ≡ fields.rs2 word }
{
    Shamt::new(word >> 20 & 0x1F)
}

/// The immediate of a CSR instruction, bits 19 to 15, at the place of rs1.
#[inline(always)]
pub fn imm5(word: u32) -> Imm5
    ensures { result ≡ fields.rs1 word }
{
    Imm5::new(word >> 15 & 0x1F)
}

/// The number of a control and status register, bits 31 to 20.
#[inline(always)]
pub fn csr(word: u32) -> CsrNo
    ensures { result ≡ fields.csr word }
{
    CsrNo::new(word >> 20)
}

/// The upper immediate of the U format, bits 31 to 12.
#[inline(always)]
pub fn imm20(word: u32) -> Imm20
    ensures { result ≡ fields.u_bits word }
{
    Imm20::new(word >> 12)
}

/// The immediate of the I format, sign-extended.
#[inline(always)]
pub fn i_imm(word: u32) -> Imm12
    ensures value { result ≡ fields.i_imm word }
    ensures bits { modulo 12 result ≡ fields.i_bits word }
{
    Imm12::from_bits(word >> 20)
}

/// The immediate of the S format, sign-extended.
#[inline(always)]
pub fn s_imm(word: u32) -> Imm12
    ensures value { result ≡ fields.s_imm word }
    ensures bits { modulo 12 result ≡ fields.s_bits word }
{
    Imm12::from_bits(((word >> 7 & 0x1F) << 20 | word >> 25 << 25) >> 20)
}

/// The offset of a branch, of the B format, in bytes. The sign and bits 10 to 5 of it stand together in the word, so one
/// shift brings them to their place.
#[inline(always)]
#[tactic(auto, using(crate::proofs::Offsets::offsets))]
pub fn b_offset(word: u32) -> Off13
    ensures value { result ≡ fields.b_offset word }
    ensures bits { modulo 13 result ≡ fields.b_bits word }
{
    let top = sra(word, 20) & 0xFFFF_F7E0;
    let low = (word >> 7 & 0x1E) + ((word & 0x80) << 4);
    Off13::of_word(top + low)
}

/// The offset of a jump, of the J format, in bytes.
#[inline(always)]
pub fn j_offset(word: u32) -> Off21
    ensures value { result ≡ fields.j_offset word }
    ensures bits { modulo 21 result ≡ fields.j_bits word }
{
    Off21::from_bits(
        ((word >> 21 & 0x3FF) << 12
            | (word >> 20 & 1) << 22
            | (word >> 12 & 0xFF) << 23
            | word >> 31 << 31)
            >> 11,
    )
}

/// The function field of three bits, 14 to 12.
#[inline(always)]
pub fn funct3(word: u32) -> u32
    ensures { result ≡ fields.funct3 word }
{
    word >> 12 & 7
}

/// The function field of an atomic instruction, bits 31 to 27.
#[inline(always)]
pub fn funct5(word: u32) -> u32
    ensures { result ≡ fields.funct5 word }
{
    word >> 27
}

/// The function field of seven bits, 31 to 25.
#[inline(always)]
pub fn funct7(word: u32) -> u32
    ensures { result ≡ fields.funct7 word }
{
    word >> 25
}

/// Whether an atomic instruction acquires, bit 26.
#[inline(always)]
pub fn aq(word: u32) -> bool
    ensures { result ≡ fields.aq word }
{
    word >> 26 & 1 == 1
}

/// Whether an atomic instruction releases, bit 25.
#[inline(always)]
pub fn rl(word: u32) -> bool
    ensures { result ≡ fields.rl word }
{
    word >> 25 & 1 == 1
}
