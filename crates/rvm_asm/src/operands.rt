//! Reads the operands of instructions, by their shape. A function that finds other tokens than it reads fails with
//! `BadToken`; one that reads an expression also with `UnknownName`, and with `OutOfReach` if the value is outside the
//! range of its field.

ghost use Rattle.std.specs.Prelude.{◌≡◌, ◌<◌, ◌^◌, IfOk};
ghost use Rattle.rvm_text.specs.Tokens.{lexemes_of};
ghost use Rattle.rvm_asm.specs.Operands.{signed_field, offset_field, last_below, distance};
ghost use Rattle.rvm_asm.specs.Operands.{last_target, last_immediate, upper_at, jump_at};
ghost use Rattle.rvm_asm.specs.Operands.{branch_at, address_at, immediate_at, shift_at};
ghost use Rattle.rvm_asm.specs.Operands.{registers_at, two_registers_at, csr_register_at};
ghost use Rattle.rvm_asm.specs.Operands.{csr_immediate_at, load_reserved_at, atomic_at};
ghost use Rattle.rvm_asm.specs.LineViews.{names_of};

use crate::csrs::csr_comma;
use crate::faults::Fault;
use crate::reading::{last_address, last_register, register_comma};
use crate::symbols::Symbols;
use crate::values::{fits_signed, last_value, value};
use rvm_isa::{CsrNo, Imm5, Imm12, Imm20, Off13, Off21, Reg, Shamt};
use rvm_text::Token;

/// A value as a signed immediate of 12 bits. `OutOfReach` if it does not fit.
pub fn immediate(value: u32) -> Result<Imm12, Fault>
    ensures { result ≡ signed_field 12 value }
{
    if fits_signed(12, value) {
        Ok(Imm12::from_bits(value % (1 << 12)))
    } else {
        Err(Fault::OutOfReach)
    }
}

/// The distance from `place` to `target`, modulo 2^32.
pub fn distance(target: u32, place: u64) -> u32
    ensures { result ≡ distance target place }
{
    target.wrapping_sub((place % (1 << 32)) as u32)
}

/// A distance as the offset of a branch, a signed number of 13 bits. `OutOfReach` if it is odd or does not fit.
fn branch_offset(distance: u32) -> Result<Off13, Fault>
    ensures { result ≡ offset_field 13 distance }
{
    if distance % 2 == 0 && fits_signed(13, distance) {
        Ok(Off13::from_bits(distance % (1 << 13)))
    } else {
        Err(Fault::OutOfReach)
    }
}

/// A distance as the offset of a jump, a signed number of 21 bits. `OutOfReach` if it is odd or does not fit.
fn jump_offset(distance: u32) -> Result<Off21, Fault>
    ensures { result ≡ offset_field 21 distance }
{
    if distance % 2 == 0 && fits_signed(21, distance) {
        Ok(Off21::from_bits(distance % (1 << 21)))
    } else {
        Err(Fault::OutOfReach)
    }
}

/// Reads the target of a branch that stands at `place`, and nothing after it. Returns the offset from the branch to it.
#[tactic(auto, unfolding(crate::specs::Operands::last_target))]
pub fn last_branch(symbols: &Symbols, place: u64, tokens: &[Token]) -> Result<Off13, Fault>
    ensures { result ≡ last_target (names_of symbols.now) 13 place (lexemes_of tokens.now) }
{
    let target = last_value(symbols, tokens)?;
    branch_offset(distance(target, place))
}

/// Reads the target of a jump that stands at `place`, and nothing after it. Returns the offset from the jump to it.
#[tactic(auto, unfolding(crate::specs::Operands::last_target))]
pub fn last_jump(symbols: &Symbols, place: u64, tokens: &[Token]) -> Result<Off21, Fault>
    ensures { result ≡ last_target (names_of symbols.now) 21 place (lexemes_of tokens.now) }
{
    let target = last_value(symbols, tokens)?;
    jump_offset(distance(target, place))
}

/// Reads an immediate, and nothing after it.
#[tactic(auto, unfolding(crate::specs::Operands::last_immediate))]
fn last_immediate(symbols: &Symbols, tokens: &[Token]) -> Result<Imm12, Fault>
    ensures { result ≡ last_immediate (names_of symbols.now) (lexemes_of tokens.now) }
{
    let value = last_value(symbols, tokens)?;
    immediate(value)
}

/// Reads a number below 32, and nothing after it.
#[tactic(auto, unfolding(crate::specs::Operands::last_below))]
fn last_below_32(symbols: &Symbols, tokens: &[Token]) -> Result<u32, Fault>
    ensures value { result ≡ last_below (names_of symbols.now) 32 (lexemes_of tokens.now) }
    ensures below { IfOk result (λ n. n < 32) }
{
    let value = last_value(symbols, tokens)?;
    if value < 32 {
        Ok(value)
    } else {
        Err(Fault::OutOfReach)
    }
}

/// Reads the upper 20 bits of a word as a number below 2^20, and nothing after it.
#[tactic(auto, unfolding(crate::specs::Operands::last_below))]
fn last_upper_bits(symbols: &Symbols, tokens: &[Token]) -> Result<Imm20, Fault>
    ensures { result ≡ last_below (names_of symbols.now) (2 ^ 20) (lexemes_of tokens.now) }
{
    let value = last_value(symbols, tokens)?;
    if value < 1 << 20 {
        Ok(Imm20::new(value))
    } else {
        Err(Fault::OutOfReach)
    }
}

/// Reads rd and the upper 20 bits.
pub fn upper(symbols: &Symbols, tokens: &[Token]) -> Result<(Reg, Imm20), Fault>
    ensures { result ≡ upper_at (names_of symbols.now) (lexemes_of tokens.now) }
{
    let (rd, rest) = register_comma(tokens)?;
    let imm = last_upper_bits(symbols, rest)?;
    Ok((Reg::new(rd), imm))
}

/// Reads rd and a target. Returns rd and the offset from `place` to the target.
pub fn jump(symbols: &Symbols, place: u64, tokens: &[Token]) -> Result<(Reg, Off21), Fault>
    ensures { result ≡ jump_at (names_of symbols.now) place (lexemes_of tokens.now) }
{
    let (rd, rest) = register_comma(tokens)?;
    let offset = last_jump(symbols, place, rest)?;
    Ok((Reg::new(rd), offset))
}

/// Reads rs1, rs2 and a target. Returns the registers and the offset from `place` to the target.
pub fn branch(symbols: &Symbols, place: u64, tokens: &[Token]) -> Result<(Reg, Reg, Off13), Fault>
    ensures { result ≡ branch_at (names_of symbols.now) place (lexemes_of tokens.now) }
{
    let (rs1, rest) = register_comma(tokens)?;
    let (rs2, rest) = register_comma(rest)?;
    let offset = last_branch(symbols, place, rest)?;
    Ok((Reg::new(rs1), Reg::new(rs2), offset))
}

/// Reads a register, and an address as an immediate and rs1 in parentheses. Returns the register, rs1 and the
/// immediate.
pub fn address(symbols: &Symbols, tokens: &[Token]) -> Result<(Reg, Reg, Imm12), Fault>
    ensures { result ≡ address_at (names_of symbols.now) (lexemes_of tokens.now) }
{
    let (register, rest) = register_comma(tokens)?;
    let (value, rest) = value(symbols, rest)?;
    let imm = immediate(value)?;
    let rs1 = last_address(rest)?;
    Ok((Reg::new(register), rs1, imm))
}

/// Reads rd, rs1 and an immediate.
pub fn with_immediate(symbols: &Symbols, tokens: &[Token]) -> Result<(Reg, Reg, Imm12), Fault>
    ensures { result ≡ immediate_at (names_of symbols.now) (lexemes_of tokens.now) }
{
    let (rd, rest) = register_comma(tokens)?;
    let (rs1, rest) = register_comma(rest)?;
    let imm = last_immediate(symbols, rest)?;
    Ok((Reg::new(rd), Reg::new(rs1), imm))
}

/// Reads rd, rs1 and an amount below 32.
pub fn shift(symbols: &Symbols, tokens: &[Token]) -> Result<(Reg, Reg, Shamt), Fault>
    ensures { result ≡ shift_at (names_of symbols.now) (lexemes_of tokens.now) }
{
    let (rd, rest) = register_comma(tokens)?;
    let (rs1, rest) = register_comma(rest)?;
    let amount = last_below_32(symbols, rest)?;
    Ok((Reg::new(rd), Reg::new(rs1), Shamt::new(amount)))
}

/// Reads rd, rs1 and rs2.
pub fn registers(tokens: &[Token]) -> Result<(Reg, Reg, Reg), Fault>
    ensures { result ≡ registers_at (lexemes_of tokens.now) }
{
    let (rd, rest) = register_comma(tokens)?;
    let (rs1, rest) = register_comma(rest)?;
    let rs2 = last_register(rest)?;
    Ok((Reg::new(rd), Reg::new(rs1), rs2))
}

/// Reads rd and another register.
pub fn two_registers(tokens: &[Token]) -> Result<(Reg, Reg), Fault>
    ensures { result ≡ two_registers_at (lexemes_of tokens.now) }
{
    let (rd, rest) = register_comma(tokens)?;
    let rs = last_register(rest)?;
    Ok((Reg::new(rd), rs))
}

/// Reads rd, a control and status register, and rs1.
pub fn csr_register(tokens: &[Token]) -> Result<(Reg, CsrNo, Reg), Fault>
    ensures { result ≡ csr_register_at (lexemes_of tokens.now) }
{
    let (rd, rest) = register_comma(tokens)?;
    let (csr, rest) = csr_comma(rest)?;
    let rs1 = last_register(rest)?;
    Ok((Reg::new(rd), CsrNo::new(csr), rs1))
}

/// Reads rd, a control and status register, and an immediate below 32.
pub fn csr_immediate(symbols: &Symbols, tokens: &[Token]) -> Result<(Reg, CsrNo, Imm5), Fault>
    ensures { result ≡ csr_immediate_at (names_of symbols.now) (lexemes_of tokens.now) }
{
    let (rd, rest) = register_comma(tokens)?;
    let (csr, rest) = csr_comma(rest)?;
    let imm = last_below_32(symbols, rest)?;
    Ok((Reg::new(rd), CsrNo::new(csr), Imm5::new(imm)))
}

/// Reads rd, and rs1 in parentheses.
pub fn load_reserved(tokens: &[Token]) -> Result<(Reg, Reg), Fault>
    ensures { result ≡ load_reserved_at (lexemes_of tokens.now) }
{
    let (rd, rest) = register_comma(tokens)?;
    let rs1 = last_address(rest)?;
    Ok((Reg::new(rd), rs1))
}

/// Reads rd, rs2, and rs1 in parentheses. Returns them in this order.
pub fn atomic(tokens: &[Token]) -> Result<(Reg, Reg, Reg), Fault>
    ensures { result ≡ atomic_at (lexemes_of tokens.now) }
{
    let (rd, rest) = register_comma(tokens)?;
    let (rs2, rest) = register_comma(rest)?;
    let rs1 = last_address(rest)?;
    Ok((Reg::new(rd), Reg::new(rs2), rs1))
}
