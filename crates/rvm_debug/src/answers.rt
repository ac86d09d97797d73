//! The texts of answers.

ghost use Rattle.std.specs.Prelude.{◌≡◌, ◌+◌, ◌*◌, ◌<◌, ◌≤◌, length, slice_index, codes, ◌++◌, OnOk};
ghost use Rattle.std.specs.Io.KnownBytes.{Appends};
ghost use Rattle.rvm_text.specs.Registers.{name_of};
ghost use Rattle.rvm_dis.specs.Disassembly.{line_at};
ghost use Rattle.rvm_debug.specs.Answers.{address_of, bytes_text, four_text, memory_text, output_text, is_refused, registers_text, reply_text, row_text, step_text, two_text};

use rvm_board::{BoardEvent, BoardReply};
use rvm_dis::{Digits, write_line};
use rvm_refusal::{LinkFault, Refusal};
use rvm_text::{register_name, write_hex};
use std::fmt;
use std::io::Write;

/// The most bytes of RAM that a line shows.
const ROW_SIZE: usize = 16;

/// A register, shown as `NAME=VVVVVVVV`.
#[derive(Clone, Copy)]
struct Named {
    name: &'static str,
    value: u32,
}

impl fmt::Display for Named {
    ghost use Rattle.std.specs.Prelude.{Some};
    ghost use Rattle.rvm_debug.specs.Answers.{register_text};

    ghost output = { λ r. Some (register_text r.name.now r.value) };

    fn fmt<W: fmt::Write>(&self, f: &mut fmt::Formatter<W>) -> fmt::Result {
        write!(f, "{}={}", self.name, Digits(self.value))
    }
}

/// An answer, shown in words. Bytes, registers and words of RAM are shown as nothing.
#[derive(Clone, Copy)]
pub struct InWords<'a>(pub &'a BoardReply);

impl<'a> fmt::Display for InWords<'a> {
    ghost use Rattle.std.specs.Prelude.{Some};
    ghost use Rattle.rvm_debug.specs.Answers.{reply_word};

    ghost output = { λ words. Some (reply_word words.0.now) };

    fn fmt<W: fmt::Write>(&self, f: &mut fmt::Formatter<W>) -> fmt::Result {
        match self.0 {
            BoardReply::Retired => f.write_str("retired"),
            BoardReply::Trapped(exception) => write!(f, "trapped {}", exception.code()),
            BoardReply::Interrupted(interrupt) => write!(f, "interrupted {}", interrupt.code()),
            BoardReply::Halted(status) => write!(f, "halted {status}"),
            BoardReply::Break(address) => write!(f, "break {}", Digits(*address)),
            BoardReply::Done => f.write_str("done"),
            BoardReply::Refused(why) => write!(f, "{}", Refusal::from(*why)),
            BoardReply::Bytes(_) | BoardReply::Regs(_) | BoardReply::Line { .. } => Ok(()),
        }
    }
}

/// Whether an answer is a refusal.
pub fn is_refused(reply: &BoardReply) -> bool
    ensures { result ≡ is_refused reply.now }
{
    matches!(reply, BoardReply::Refused(_))
}

/// Writes how many steps a hart made and what the last one did; if that was refused, writes the refusal alone.
/// `LinkFault` if the writer fails.
pub fn write_steps<W: Write>(
    writer: &mut W,
    hart: u32,
    count: u32,
    last: &BoardReply,
) -> Result<(), LinkFault>
    ensures { OnOk result (Appends (W.contents writer.old) (W.contents writer.new)
        (step_text hart count last.now)) }
{
    if is_refused(last) {
        writeln!(writer, "{}", InWords(last))?;
    } else {
        writeln!(writer, "step {hart} {count}: {}", InWords(last))?;
    }
    Ok(())
}

/// The address of the bytes that an event asks for, if it asks for bytes of RAM.
pub fn address_of(event: &BoardEvent) -> Option<u32>
    ensures { result ≡ address_of event.now }
{
    match event {
        BoardEvent::Mem { address, .. } => Some(*address),
        _ => None,
    }
}

/// Writes the answer to an event that is no step. `address` is what `address_of` returned for the event: bytes are
/// shown as RAM from there on, or, without an address, as bytes that the guest sent. `LinkFault` if the writer fails.
pub fn write_reply<W: Write>(
    writer: &mut W,
    address: Option<u32>,
    reply: &BoardReply,
) -> Result<(), LinkFault>
    ensures { OnOk result (Appends (W.contents writer.old) (W.contents writer.new)
        (reply_text address reply.now)) }
{
    match reply {
        BoardReply::Bytes(bytes) => write_bytes(writer, address, bytes.as_slice()),
        BoardReply::Regs(registers) => write_registers(writer, registers),
        BoardReply::Line { address, word } => write_word(writer, *address, *word),
        _ => {
            writeln!(writer, "{}", InWords(reply))?;
            Ok(())
        }
    }
}

/// Writes bytes of RAM from an address on, or bytes that the guest sent.
fn write_bytes<W: Write>(
    writer: &mut W,
    address: Option<u32>,
    bytes: &[u8],
) -> Result<(), LinkFault>
    requires { length bytes.now ≤ 256 }
    ensures { OnOk result (Appends (W.contents writer.old) (W.contents writer.new)
        (bytes_text address bytes.now)) }
{
    match address {
        Some(address) => write_memory(writer, address, bytes),
        None => write_output(writer, bytes),
    }
}

/// Writes bytes that the guest sent.
fn write_output<W: Write>(writer: &mut W, bytes: &[u8]) -> Result<(), LinkFault>
    requires { length bytes.now ≤ 256 }
    ensures { OnOk result (Appends (W.contents writer.old) (W.contents writer.new)
        (output_text bytes.now)) }
{
    if bytes.is_empty() {
        writeln!(writer, "out 0")?;
        return Ok(());
    }
    write!(writer, "out {} ", bytes.len())?;
    write_hex(writer, bytes)?;
    writeln!(writer)?;
    Ok(())
}

/// Writes bytes of RAM from an address on.
#[tactic(auto, using(crate::proofs::Writing::rows))]
fn write_memory<W: Write>(writer: &mut W, address: u32, bytes: &[u8]) -> Result<(), LinkFault>
    requires { length bytes.now ≤ 256 }
    ensures { OnOk result (Appends (W.contents writer.old) (W.contents writer.new)
        (memory_text address bytes.now)) }
{
    for row in 0..bytes.len().div_ceil(ROW_SIZE) {
        write_row(writer, address, bytes, row)?;
    }
    Ok(())
}

/// Writes the row with this index of bytes of RAM from an address on: at most 16 bytes.
fn write_row<W: Write>(
    writer: &mut W,
    address: u32,
    bytes: &[u8],
    row: usize,
) -> Result<(), LinkFault>
    requires bound { length bytes.now ≤ 256 }
    requires within { 16 * row ≤ length bytes.now }
    ensures { OnOk result (Appends (W.contents writer.old) (W.contents writer.new)
        (row_text address bytes.now row)) }
{
    let from = ROW_SIZE * row;
    let to = bytes.len().min(from + ROW_SIZE);
    write!(writer, "{}: ", Digits(address.wrapping_add(from as u32)))?;
    write_hex(writer, &bytes[from..to])?;
    writeln!(writer)?;
    Ok(())
}

/// Writes x0 to x31 and pc.
#[tactic(auto, using(crate::proofs::Writing::rows))]
fn write_registers<W: Write>(writer: &mut W, registers: &[u32; 33]) -> Result<(), LinkFault>
    ensures { OnOk result (Appends (W.contents writer.old) (W.contents writer.new)
        (registers_text registers.now)) }
{
    for row in 0..8 {
        write_four(writer, registers, 4 * row)?;
    }
    writeln!(writer, "pc={}", Digits(registers[32]))?;
    Ok(())
}

/// Writes four registers from `first` on, in a line.
fn write_four<W: Write>(
    writer: &mut W,
    registers: &[u32; 33],
    first: usize,
) -> Result<(), LinkFault>
    requires { first ≤ 28 }
    ensures { OnOk result (Appends (W.contents writer.old) (W.contents writer.new)
        (four_text registers.now first)) }
{
    write_two(writer, registers, first)?;
    write!(writer, " ")?;
    write_two(writer, registers, first + 2)?;
    writeln!(writer)?;
    Ok(())
}

/// Writes two registers from `first` on.
fn write_two<W: Write>(writer: &mut W, registers: &[u32; 33], first: usize) -> Result<(), LinkFault>
    requires { first ≤ 30 }
    ensures { OnOk result (Appends (W.contents writer.old) (W.contents writer.new)
        (two_text registers.now first)) }
{
    let a = register(registers, first);
    let b = register(registers, first + 1);
    write!(writer, "{a} {b}")?;
    Ok(())
}

/// A register by its number, with its name.
fn register(registers: &[u32; 33], number: usize) -> Named
    requires { number < 32 }
    ensures name { result.name.now ≡ name_of number }
    ensures value { result.value ≡ slice_index registers.now number }
{
    Named {
        name: register_name(number as u32),
        value: registers[number],
    }
}

/// Writes a word of RAM and the text of its instruction.
fn write_word<W: Write>(writer: &mut W, address: u32, word: u32) -> Result<(), LinkFault>
    ensures { OnOk result (Appends (W.contents writer.old) (W.contents writer.new)
        (line_at address word ++ codes "\n")) }
{
    write_line(address, word, writer)?;
    writeln!(writer)?;
    Ok(())
}
