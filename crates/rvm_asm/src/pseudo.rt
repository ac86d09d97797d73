//! The pseudo-instructions of one word (Unprivileged ISA, "RISC-V Assembly Programmer's
//! Handbook").

ghost use Rattle.std.specs.Prelude.{◌≡◌};
ghost use Rattle.rvm_text.specs.Tokens.{lexemes_of};
ghost use Rattle.rvm_asm.specs.Instructions.{no_names, pseudo_at};
ghost use Rattle.rvm_asm.specs.LineViews.{names_of};

use crate::csrs::{csr_comma, last_csr};
use crate::faults::Fault;
use crate::operands::{last_branch, last_jump, two_registers};
use crate::reading::{end, last_register, register_comma};
use crate::symbols::Symbols;
use rvm_isa::{CsrNo, Imm12, Ins, Reg};
use rvm_text::Token;

/// The name of a pseudo-instruction. It stands for an instruction, some operands of which it fixes.
#[derive(Clone, Copy)]
pub enum Pseudo {
    Nop,
    Mv,
    Not,
    Neg,
    Seqz,
    Snez,
    Beqz,
    Bnez,
    J,
    Jr,
    Ret,
    Csrr,
    Csrw,
}

impl Pseudo {
    /// Reads the operands of this pseudo-instruction on a line that stands at `place`. Returns the instruction that it
    /// stands for, or the fault of an operand.
    pub fn read(self, symbols: &Symbols, place: u64, tokens: &[Token]) -> Result<Ins, Fault>
        ensures { result ≡ pseudo_at (names_of symbols.now) place self (lexemes_of tokens.now) }
    {
        match self {
            Pseudo::Nop => nop(tokens),
            Pseudo::Mv => mv(tokens),
            Pseudo::Not => not(tokens),
            Pseudo::Neg => neg(tokens),
            Pseudo::Seqz => seqz(tokens),
            Pseudo::Snez => snez(tokens),
            Pseudo::Beqz => beqz(symbols, place, tokens),
            Pseudo::Bnez => bnez(symbols, place, tokens),
            Pseudo::J => j(symbols, place, tokens),
            Pseudo::Jr => jr(tokens),
            Pseudo::Ret => ret(tokens),
            Pseudo::Csrr => csrr(tokens),
            Pseudo::Csrw => csrw(tokens),
        }
    }
}

/// The register x0.
fn zero() -> Reg
    ensures { result ≡ 0 }
{
    Reg::new(0)
}

/// `nop` is `addi zero, zero, 0`.
fn nop(tokens: &[Token]) -> Result<Ins, Fault>
    ensures { result ≡ pseudo_at no_names 0 Pseudo.Nop (lexemes_of tokens.now) }
{
    end(tokens)?;
    Ok(Ins::Addi {
        rd: zero(),
        rs1: zero(),
        imm: Imm12::new(0),
    })
}

/// `mv rd, rs` is `addi rd, rs, 0`.
fn mv(tokens: &[Token]) -> Result<Ins, Fault>
    ensures { result ≡ pseudo_at no_names 0 Pseudo.Mv (lexemes_of tokens.now) }
{
    let (rd, rs) = two_registers(tokens)?;
    Ok(Ins::Addi {
        rd,
        rs1: rs,
        imm: Imm12::new(0),
    })
}

/// `not rd, rs` is `xori rd, rs, -1`.
fn not(tokens: &[Token]) -> Result<Ins, Fault>
    ensures { result ≡ pseudo_at no_names 0 Pseudo.Not (lexemes_of tokens.now) }
{
    let (rd, rs) = two_registers(tokens)?;
    Ok(Ins::Xori {
        rd,
        rs1: rs,
        imm: Imm12::new(-1),
    })
}

/// `neg rd, rs` is `sub rd, zero, rs`.
fn neg(tokens: &[Token]) -> Result<Ins, Fault>
    ensures { result ≡ pseudo_at no_names 0 Pseudo.Neg (lexemes_of tokens.now) }
{
    let (rd, rs) = two_registers(tokens)?;
    Ok(Ins::Sub {
        rd,
        rs1: zero(),
        rs2: rs,
    })
}

/// `seqz rd, rs` is `sltiu rd, rs, 1`.
fn seqz(tokens: &[Token]) -> Result<Ins, Fault>
    ensures { result ≡ pseudo_at no_names 0 Pseudo.Seqz (lexemes_of tokens.now) }
{
    let (rd, rs) = two_registers(tokens)?;
    Ok(Ins::Sltiu {
        rd,
        rs1: rs,
        imm: Imm12::new(1),
    })
}

/// `snez rd, rs` is `sltu rd, zero, rs`.
fn snez(tokens: &[Token]) -> Result<Ins, Fault>
    ensures { result ≡ pseudo_at no_names 0 Pseudo.Snez (lexemes_of tokens.now) }
{
    let (rd, rs) = two_registers(tokens)?;
    Ok(Ins::Sltu {
        rd,
        rs1: zero(),
        rs2: rs,
    })
}

/// `beqz rs, target` is `beq rs, zero, target`.
fn beqz(symbols: &Symbols, place: u64, tokens: &[Token]) -> Result<Ins, Fault>
    ensures { result ≡ pseudo_at (names_of symbols.now) place Pseudo.Beqz (lexemes_of tokens.now) }
{
    let (rs1, rest) = register_comma(tokens)?;
    let offset = last_branch(symbols, place, rest)?;
    let rs1 = Reg::new(rs1);
    Ok(Ins::Beq {
        rs1,
        rs2: zero(),
        offset,
    })
}

/// `bnez rs, target` is `bne rs, zero, target`.
fn bnez(symbols: &Symbols, place: u64, tokens: &[Token]) -> Result<Ins, Fault>
    ensures { result ≡ pseudo_at (names_of symbols.now) place Pseudo.Bnez (lexemes_of tokens.now) }
{
    let (rs1, rest) = register_comma(tokens)?;
    let offset = last_branch(symbols, place, rest)?;
    let rs1 = Reg::new(rs1);
    Ok(Ins::Bne {
        rs1,
        rs2: zero(),
        offset,
    })
}

/// `j target` is `jal zero, target`.
fn j(symbols: &Symbols, place: u64, tokens: &[Token]) -> Result<Ins, Fault>
    ensures { result ≡ pseudo_at (names_of symbols.now) place Pseudo.J (lexemes_of tokens.now) }
{
    let offset = last_jump(symbols, place, tokens)?;
    Ok(Ins::Jal { rd: zero(), offset })
}

/// `jr rs` is `jalr zero, 0(rs)`.
fn jr(tokens: &[Token]) -> Result<Ins, Fault>
    ensures { result ≡ pseudo_at no_names 0 Pseudo.Jr (lexemes_of tokens.now) }
{
    let rs1 = last_register(tokens)?;
    Ok(Ins::Jalr {
        rd: zero(),
        rs1,
        imm: Imm12::new(0),
    })
}

/// `ret` is `jalr zero, 0(ra)`.
fn ret(tokens: &[Token]) -> Result<Ins, Fault>
    ensures { result ≡ pseudo_at no_names 0 Pseudo.Ret (lexemes_of tokens.now) }
{
    end(tokens)?;
    Ok(Ins::Jalr {
        rd: zero(),
        rs1: Reg::new(1),
        imm: Imm12::new(0),
    })
}

/// `csrr rd, csr` is `csrrs rd, csr, zero`.
fn csrr(tokens: &[Token]) -> Result<Ins, Fault>
    ensures { result ≡ pseudo_at no_names 0 Pseudo.Csrr (lexemes_of tokens.now) }
{
    let (rd, rest) = register_comma(tokens)?;
    let csr = last_csr(rest)?;
    Ok(Ins::Csrrs {
        rd: Reg::new(rd),
        rs1: zero(),
        csr,
    })
}

/// `csrw csr, rs` is `csrrw zero, csr, rs`.
fn csrw(tokens: &[Token]) -> Result<Ins, Fault>
    ensures { result ≡ pseudo_at no_names 0 Pseudo.Csrw (lexemes_of tokens.now) }
{
    let (csr, rest) = csr_comma(tokens)?;
    let rs1 = last_register(rest)?;
    Ok(Ins::Csrrw {
        rd: zero(),
        rs1,
        csr: CsrNo::new(csr),
    })
}
