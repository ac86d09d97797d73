//! A trap or an interrupt that the guest has no handler for, and its text.

ghost use Rattle.std.specs.Prelude.{◌≡◌, OnOk, Some};
ghost use Rattle.std.specs.Io.KnownBytes.{Appends};
ghost use Rattle.rvm_command.specs.FaultTexts.{exception_name, fault_head, fault_text, interrupt_name, word_tail};

use rvm_csr::{Cause, Exception, Interrupt};
use rvm_dis::{Digits, write_ins};
use rvm_refusal::LinkFault;
use std::fmt;
use std::io::Write;

/// A trap or an interrupt that the guest has no handler for: the next step of the same hart trapped too.
#[derive(Clone, Copy, Debug, PartialEq, Eq)]
pub struct Fault {
    /// The hart that trapped or was interrupted.
    pub hart: u32,
    /// Why it did.
    pub cause: Cause,
    /// The address of the instruction that trapped, or before which the interrupt was taken.
    pub pc: u32,
    /// `mtval` after it.
    pub value: u32,
    /// The word at that address, if it is the address of a word of RAM.
    pub word: Option<u32>,
}

/// `fault: hart H CAUSE at PC value MTVAL`, with no instruction.
impl fmt::Display for Fault {
    ghost use Rattle.std.specs.Prelude.{Some};
    ghost use Rattle.rvm_command.specs.FaultTexts.{fault_head};

    ghost output = { λ f. Some (fault_head f) };

    fn fmt<W: fmt::Write>(&self, f: &mut fmt::Formatter<W>) -> fmt::Result {
        let hart = self.hart;
        let cause = InWords(self.cause);
        let (pc, value) = (Digits(self.pc), Digits(self.value));
        write!(f, "fault: hart {hart} {cause} at {pc} value {value}")
    }
}

/// A cause, shown as `cause N (NAME)` or `interrupt N (NAME)`.
#[derive(Clone, Copy)]
struct InWords(Cause);

impl fmt::Display for InWords {
    ghost use Rattle.std.specs.Prelude.{Some};
    ghost use Rattle.rvm_command.specs.FaultTexts.{cause_text};

    ghost output = { λ c. Some (cause_text c.0) };

    fn fmt<W: fmt::Write>(&self, f: &mut fmt::Formatter<W>) -> fmt::Result {
        match self.0 {
            Cause::Exception(e) => write!(f, "cause {} ({})", e.code(), exception_name(e)),
            Cause::Interrupt(i) => write!(f, "interrupt {} ({})", i.code(), interrupt_name(i)),
        }
    }
}

/// The name of an exception (Privileged ISA, "Machine Cause (mcause) Register").
fn exception_name(exception: Exception) -> &'static str
    ensures { result.now ≡ exception_name exception }
{
    match exception {
        Exception::InstructionAddressMisaligned => "instruction address misaligned",
        Exception::InstructionAccessFault => "instruction access fault",
        Exception::IllegalInstruction => "illegal instruction",
        Exception::Breakpoint => "breakpoint",
        Exception::LoadAddressMisaligned => "load address misaligned",
        Exception::LoadAccessFault => "load access fault",
        Exception::StoreAddressMisaligned => "store address misaligned",
        Exception::StoreAccessFault => "store access fault",
        Exception::EnvironmentCall => "environment call from M-mode",
    }
}

/// The name of an interrupt, from the same table.
fn interrupt_name(interrupt: Interrupt) -> &'static str
    ensures { result.now ≡ interrupt_name interrupt }
{
    match interrupt {
        Interrupt::Software => "machine software interrupt",
        Interrupt::Timer => "machine timer interrupt",
        Interrupt::External => "machine external interrupt",
    }
}

/// Writes a fault with the instruction at its address, if there is one, as in `fault: hart 0 cause 7 (store access
/// fault) at 80000040 value 10000000: sb a4, 0(a5)`, without a line feed. `LinkFault` if the write fails.
pub(crate) fn write_fault<W: Write>(fault: &Fault, writer: &mut W) -> Result<(), LinkFault>
    ensures { OnOk result (Appends (W.contents writer.old) (W.contents writer.new) (fault_text fault.now)) }
{
    write_head(fault, writer)?;
    write_tail(fault.pc, fault.word, writer)
}

/// Writes a fault without its instruction.
fn write_head<W: Write>(fault: &Fault, writer: &mut W) -> Result<(), LinkFault>
    ensures { OnOk result (Appends (W.contents writer.old) (W.contents writer.new) (fault_head fault.now)) }
{
    write!(writer, "{fault}")?;
    Ok(())
}

/// Writes the instruction that `word` is at `address`, if there is one, after a colon.
fn write_tail<W: Write>(address: u32, word: Option<u32>, writer: &mut W) -> Result<(), LinkFault>
    ensures { OnOk result (Appends (W.contents writer.old) (W.contents writer.new) (word_tail address word)) }
{
    match word {
        Some(word) => write_word(address, word, writer),
        None => Ok(()),
    }
}

/// Writes the instruction that `word` is at `address`, after a colon.
fn write_word<W: Write>(address: u32, word: u32, writer: &mut W) -> Result<(), LinkFault>
    ensures { OnOk result (Appends (W.contents writer.old) (W.contents writer.new) (word_tail address (Some word))) }
{
    write!(writer, ": ")?;
    write_ins(address, word, writer)
}
