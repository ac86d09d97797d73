//! The words of instructions.

ghost use Rattle.std.specs.Prelude.{◌≡◌, ◌≤◌, ◌<◌};
ghost use Rattle.rvm_isa.specs.Words.{word_of};
ghost use Rattle.rvm_text.specs.Tokens.{lexemes_of};
ghost use Rattle.rvm_asm.specs.Values.{high};
ghost use Rattle.rvm_asm.specs.Instructions.{instruction_at, low_field, li_at, li_words, li_size};
ghost use Rattle.rvm_asm.specs.Instructions.{la_at, call_at};
ghost use Rattle.rvm_asm.specs.LineViews.{names_of};

use crate::faults::Fault;
use crate::operands::{
    address, atomic, branch, csr_immediate, csr_register, distance, jump, load_reserved, registers,
    shift, upper, with_immediate,
};
use crate::operations::Operation;
use crate::reading::{end, register_comma};
use crate::symbols::Symbols;
use crate::values::{fits_signed, high, last_value, low};
use rvm_isa::{Imm12, Imm20, Ins, Reg, encode};
use rvm_text::Token;

/// The one or two words that a line makes. The one at the lower address is first.
#[derive(Clone, Copy)]
pub enum Words {
    One(u32),
    Two(u32, u32),
}

impl Operation {
    /// Reads the operands of this instruction on a line that stands at `place`. Returns the instruction, or the fault
    /// of an operand.
    pub fn read(self, symbols: &Symbols, place: u64, tokens: &[Token]) -> Result<Ins, Fault>
        ensures { result ≡ instruction_at (names_of symbols.now) place self
            (lexemes_of tokens.now) }
    {
        match self {
            Operation::Jump => {
                let (rd, offset) = jump(symbols, place, tokens)?;
                Ok(Ins::Jal { rd, offset })
            }
            Operation::Upper(operation) => {
                let (rd, imm) = upper(symbols, tokens)?;
                Ok(operation.ins(rd, imm))
            }
            Operation::Branch(operation) => {
                let (rs1, rs2, offset) = branch(symbols, place, tokens)?;
                Ok(operation.ins(rs1, rs2, offset))
            }
            Operation::Load(operation) => {
                let (rd, rs1, imm) = address(symbols, tokens)?;
                Ok(operation.ins(rd, rs1, imm))
            }
            Operation::Store(operation) => {
                let (rs2, rs1, imm) = address(symbols, tokens)?;
                Ok(operation.ins(rs1, rs2, imm))
            }
            Operation::Immediate(operation) => {
                let (rd, rs1, imm) = with_immediate(symbols, tokens)?;
                Ok(operation.ins(rd, rs1, imm))
            }
            Operation::Shift(operation) => {
                let (rd, rs1, amount) = shift(symbols, tokens)?;
                Ok(operation.ins(rd, rs1, amount))
            }
            Operation::Register(operation) => {
                let (rd, rs1, rs2) = registers(tokens)?;
                Ok(operation.ins(rd, rs1, rs2))
            }
            Operation::Whole(operation) => {
                end(tokens)?;
                Ok(operation.ins())
            }
            Operation::Csr(operation) => {
                let (rd, csr, rs1) = csr_register(tokens)?;
                Ok(operation.ins(rd, rs1, csr))
            }
            Operation::CsrImmediate(operation) => {
                let (rd, csr, imm) = csr_immediate(symbols, tokens)?;
                Ok(operation.ins(rd, imm, csr))
            }
            Operation::LoadReserved(order) => {
                let (rd, rs1) = load_reserved(tokens)?;
                Ok(Ins::LrW {
                    rd,
                    rs1,
                    aq: order.aq,
                    rl: order.rl,
                })
            }
            Operation::Atomic(operation, order) => {
                let (rd, rs2, rs1) = atomic(tokens)?;
                Ok(operation.ins(order, rd, rs1, rs2))
            }
        }
    }
}

/// The lower 12 bits of a value, as an immediate.
fn low_immediate(value: u32) -> Imm12
    ensures { result ≡ low_field value }
{
    Imm12::from_bits(value % (1 << 12))
}

fn lui(rd: Reg, value: u32) -> u32
    ensures { result ≡ word_of (Ins.Lui rd (high value)) }
{
    encode(&Ins::Lui {
        rd,
        imm: Imm20::new(high(value)),
    })
}

fn auipc(rd: Reg, value: u32) -> u32
    ensures { result ≡ word_of (Ins.Auipc rd (high value)) }
{
    encode(&Ins::Auipc {
        rd,
        imm: Imm20::new(high(value)),
    })
}

fn addi(rd: Reg, rs1: Reg, value: u32) -> u32
    ensures { result ≡ word_of (Ins.Addi rd rs1 (low_field value)) }
{
    encode(&Ins::Addi {
        rd,
        rs1,
        imm: low_immediate(value),
    })
}

fn jalr(rd: Reg, rs1: Reg, value: u32) -> u32
    ensures { result ≡ word_of (Ins.Jalr rd rs1 (low_field value)) }
{
    encode(&Ins::Jalr {
        rd,
        rs1,
        imm: low_immediate(value),
    })
}

/// Reads the operands of `li` or `la`: a register and a value.
#[tactic(auto, unfolding(crate::specs::Instructions::li_at))]
pub fn register_and_value(symbols: &Symbols, tokens: &[Token]) -> Result<(Reg, u32), Fault>
    ensures { result ≡ li_at (names_of symbols.now) (lexemes_of tokens.now) }
{
    let (rd, rest) = register_comma(tokens)?;
    let value = last_value(symbols, rest)?;
    Ok((Reg::new(rd), value))
}

/// The words of `li`: `addi` alone if it can load the value, `lui` alone if the lower 12 bits are zero, else both.
pub fn li(rd: Reg, value: u32) -> Words
    ensures { result ≡ li_words rd value }
{
    if fits_signed(12, value) {
        Words::One(addi(rd, Reg::new(0), value))
    } else if low(value) == 0 {
        Words::One(lui(rd, value))
    } else {
        Words::Two(lui(rd, value), addi(rd, rd, value))
    }
}

/// The size in bytes of the words of `li`: 4 or 8.
pub fn li_size(value: u32) -> u64
    ensures value { result ≡ li_size value }
    ensures few { result ≤ 8 }
{
    if fits_signed(12, value) || low(value) == 0 {
        4
    } else {
        8
    }
}

/// The words of `la` at `place`: `auipc` and `addi`.
pub fn la(symbols: &Symbols, place: u64, tokens: &[Token]) -> Result<Words, Fault>
    ensures { result ≡ la_at (names_of symbols.now) place (lexemes_of tokens.now) }
{
    let (rd, target) = register_and_value(symbols, tokens)?;
    let distance = distance(target, place);
    Ok(Words::Two(auipc(rd, distance), addi(rd, rd, distance)))
}

/// The words of `call` at `place`: `auipc` and `jalr`, with the return address in ra.
pub fn call(symbols: &Symbols, place: u64, tokens: &[Token]) -> Result<Words, Fault>
    ensures { result ≡ call_at (names_of symbols.now) place (lexemes_of tokens.now) }
{
    let target = last_value(symbols, tokens)?;
    let distance = distance(target, place);
    let link = Reg::new(1);
    Ok(Words::Two(auipc(link, distance), jalr(link, link, distance)))
}
