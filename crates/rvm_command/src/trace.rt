//! A line of the trace of a run, which shows one step of a hart:
//!
//! ```text
//! 8 0 80000020: 00a12623  sw a0, 12(sp)  [800ffffc]=00000007
//! ```
//!
//! The turn and the number of the hart, in decimal; then, as `rvmove dis` lists them, the address, the word and the text
//! of the instruction at pc before the step, or `--------` in place of the word and its text if there is no word of RAM
//! at pc. What follows is set off by two spaces each.
//!
//! If the instruction retired, what it wrote:
//! - a register other than x0, by its name in the calling convention, with its value after the step, also if that is
//!   the value that it had before;
//! - what a store wrote, in RAM or a device: the address, and as many digits as bytes were stored;
//! - for an `sc.w` that stored its word, rd and then that word. One that failed shows rd alone, and one whose rd is x0
//!   shows nothing, since no register says whether it stored;
//! - for an AMO, rd with the old word, and then the new word, which is read from RAM after the step.
//!
//! A CSR or a device that an instruction changes in another way than by a store is not shown.
//!
//! If it did not retire, the answer to the step in the words of `rvmove debug`. After `trapped C`, the instruction wrote
//! nothing. After `interrupted C` and `break A`, it was not executed: it comes again. `halted S` ends the step of the
//! store to the halt word, and each later one.

ghost use Rattle.std.specs.Prelude.{◌≡◌, ◌<◌, length, OnOk};
ghost use Rattle.std.specs.Io.KnownBytes.{Appends};
ghost use Rattle.rvm_command.specs.WordAt.{word_at};
ghost use Rattle.rvm_command.specs.Trace.{before_of, destination, instruction_text, line_of, outcome_text, register_text, registers_of, shown, stored_by, stored_conditional, stored_part, turn_text, writes_of, writes_of_word, written_text};

use rvm_board::{BoardEvent, BoardReply, Debugged};
use rvm_debug::InWords;
use rvm_dis::{Digits, write_line};
use rvm_hart::PC;
use rvm_isa::{Imm12, Ins, Reg, decode};
use rvm_mem::Memory;
use rvm_refusal::LinkFault;
use rvm_text::register_name;
use rvm_word::add_signed;
use std::fmt;
use std::io::Write;

/// What a trace shows of a hart before its step.
#[derive(Clone, Copy)]
pub(crate) struct Before {
    /// Registers x0 to x31, then pc.
    registers: [u32; 33],
    /// The word of RAM at pc, if pc is a multiple of four in RAM.
    word: Option<u32>,
}

/// How many bytes a store writes.
#[derive(Clone, Copy)]
enum Size {
    /// One.
    Byte,
    /// Two.
    Half,
    /// Four.
    Word,
}

/// What an instruction writes if it retires, by its fields.
#[derive(Clone, Copy)]
enum Writes {
    /// No register and no RAM.
    Nothing,
    /// rd.
    Register(Reg),
    /// The lowest bytes of rs2, at the sum of rs1 and the immediate.
    Store {
        size: Size,
        rs1: Reg,
        rs2: Reg,
        imm: Imm12,
    },
    /// rd, and rs2 at rs1 if rd gets 0.
    Conditional {
        rd: Reg,
        rs1: Reg,
        rs2: Reg,
    },
    /// rd, and a new word at rs1.
    Exchange {
        rd: Reg,
        rs1: Reg,
    },
}

/// The lowest byte of a number, shown as two hexadecimal digits.
#[derive(Clone, Copy)]
struct LowByte(u32);

impl fmt::Display for LowByte {
    ghost use Rattle.std.specs.Prelude.{Some};
    ghost use Rattle.rvm_dis.specs.Pieces.{hex_digits};

    ghost output = { λ byte. Some (hex_digits 2 byte.0) };

    #[tactic(auto, using(crate::proofs::Tracing::low_digits))]
    fn fmt<W: fmt::Write>(&self, f: &mut fmt::Formatter<W>) -> fmt::Result {
        let number = self.0;
        write!(f, "{:02x}", number % 0x100)
    }
}

/// The lowest bytes of a value, shown as two hexadecimal digits each.
#[derive(Clone, Copy)]
struct LowBytes {
    size: Size,
    value: u32,
}

impl fmt::Display for LowBytes {
    ghost use Rattle.std.specs.Prelude.{Some};
    ghost use Rattle.rvm_command.specs.Trace.{digits_of};

    ghost output = { λ bytes. Some (digits_of bytes.size bytes.value) };

    #[tactic(auto, using(crate::proofs::Tracing::low_digits))]
    fn fmt<W: fmt::Write>(&self, f: &mut fmt::Formatter<W>) -> fmt::Result {
        let value = self.value;
        match self.size {
            Size::Byte => write!(f, "{}", LowByte(value)),
            Size::Half => write!(f, "{}{}", LowByte(value / 0x100), LowByte(value)),
            Size::Word => write!(f, "{}", Digits(value)),
        }
    }
}

/// Bytes that a step stored at an address: the lowest ones of a value.
#[derive(Clone, Copy)]
struct Stored {
    address: u32,
    size: Size,
    value: u32,
}

/// `[AAAAAAAA]=VV`, with two digits for each byte.
impl fmt::Display for Stored {
    ghost use Rattle.std.specs.Prelude.{Some};
    ghost use Rattle.rvm_command.specs.Trace.{stored_text};

    ghost output = { λ s. Some (stored_text s) };

    fn fmt<W: fmt::Write>(&self, f: &mut fmt::Formatter<W>) -> fmt::Result {
        let bytes = LowBytes {
            size: self.size,
            value: self.value,
        };
        write!(f, "[{}]={bytes}", Digits(self.address))
    }
}

/// What a trace shows of a hart, to be taken before its step.
#[tactic(auto, unfolding(crate::specs::Trace::before_of))]
pub(crate) fn look<M: Memory>(guest: &mut Debugged<M>, hart: u32) -> Before
    requires { hart < length guest.old.guest.board.harts }
    ensures seen { result ≡ before_of hart guest.old.guest }
    ensures guest { guest.new ≡ guest.old }
{
    let pc = guest.pc(hart);
    let registers = registers_of(guest, hart);
    let word = word_at(guest, pc);
    Before { registers, word }
}

/// Registers x0 to x31 of a hart, then pc.
fn registers_of<M: Memory>(guest: &mut Debugged<M>, hart: u32) -> [u32; 33]
    requires { hart < length guest.old.guest.board.harts }
    ensures registers { result ≡ registers_of hart guest.old.guest }
    ensures guest { guest.new ≡ guest.old }
{
    match guest.apply(BoardEvent::Regs(hart)) {
        BoardReply::Regs(registers) => registers,
        // never, since there is such a hart
        _ => [0; 33],
    }
}

/// The word of RAM at an address, if that is a multiple of four in RAM.
pub(crate) fn word_at<M: Memory>(guest: &mut Debugged<M>, address: u32) -> Option<u32>
    ensures word { result ≡ word_at address guest.old.guest }
    ensures guest { guest.new ≡ guest.old }
{
    match guest.apply(BoardEvent::Dis(address)) {
        BoardReply::Line { word, .. } => Some(word),
        _ => None,
    }
}

/// Writes the line of a step, with its line feed: of turn `turn`, by a hart that stood as `before` says. `reply` is the
/// answer to the step, and `guest` is as the step left it. `LinkFault` if the writer fails.
#[tactic(auto, unfolding(crate::specs::Trace::line_of))]
pub(crate) fn write_step<M: Memory, W: Write>(
    guest: &mut Debugged<M>,
    turn: u32,
    hart: u32,
    before: &Before,
    reply: &BoardReply,
    writer: &mut W,
) -> Result<(), LinkFault>
    requires { hart < length guest.old.guest.board.harts }
    ensures text { OnOk result (Appends (W.contents writer.old) (W.contents writer.new)
        (line_of turn hart before.now guest.old.guest reply.now)) }
    ensures guest { guest.new ≡ guest.old }
{
    write_turn(
        turn,
        hart,
        before.registers[PC as usize],
        before.word,
        writer,
    )?;
    write_outcome(guest, hart, before, reply, writer)?;
    writeln!(writer)?;
    Ok(())
}

/// Writes the turn and the hart, and the instruction at pc.
#[tactic(auto, unfolding(crate::specs::Trace::turn_text))]
fn write_turn<W: Write>(
    turn: u32,
    hart: u32,
    pc: u32,
    word: Option<u32>,
    writer: &mut W,
) -> Result<(), LinkFault>
    ensures { OnOk result (Appends (W.contents writer.old) (W.contents writer.new)
        (turn_text turn hart pc word)) }
{
    write!(writer, "{turn} {hart} ")?;
    write_instruction(pc, word, writer)
}

/// Writes the address, the word there and its text; without a word, the address and dashes.
#[tactic(auto, unfolding(crate::specs::Trace::instruction_text))]
fn write_instruction<W: Write>(pc: u32, word: Option<u32>, writer: &mut W) -> Result<(), LinkFault>
    ensures { OnOk result (Appends (W.contents writer.old) (W.contents writer.new)
        (instruction_text pc word)) }
{
    match word {
        Some(word) => write_line(pc, word, writer),
        None => {
            write!(writer, "{}: --------", Digits(pc))?;
            Ok(())
        }
    }
}

/// Writes what a retired instruction wrote, or what became of the step.
#[tactic(auto, unfolding(crate::specs::Trace::outcome_text))]
fn write_outcome<M: Memory, W: Write>(
    guest: &mut Debugged<M>,
    hart: u32,
    before: &Before,
    reply: &BoardReply,
    writer: &mut W,
) -> Result<(), LinkFault>
    requires { hart < length guest.old.guest.board.harts }
    ensures text { OnOk result (Appends (W.contents writer.old) (W.contents writer.new)
        (outcome_text hart before.now guest.old.guest reply.now)) }
    ensures guest { guest.new ≡ guest.old }
{
    match reply {
        BoardReply::Retired => write_written(guest, hart, before, writer),
        _ => {
            write!(writer, "  {}", InWords(reply))?;
            Ok(())
        }
    }
}

/// Writes what a retired instruction wrote.
#[tactic(auto, unfolding(crate::specs::Trace::written_text))]
fn write_written<M: Memory, W: Write>(
    guest: &mut Debugged<M>,
    hart: u32,
    before: &Before,
    writer: &mut W,
) -> Result<(), LinkFault>
    requires { hart < length guest.old.guest.board.harts }
    ensures text { OnOk result (Appends (W.contents writer.old) (W.contents writer.new)
        (written_text (writes_of_word before.now.word) before.now.registers hart guest.old.guest)) }
    ensures guest { guest.new ≡ guest.old }
{
    let writes = writes_of_word(before.word);
    let now = registers_of(guest, hart);
    let rd = destination(&writes);
    let stored = stored_by(guest, writes, &before.registers, &now);
    write_register(rd, &now, writer)?;
    write_stored(stored, writer)
}

/// What the instruction that a word is writes if it retires; nothing if there is no word, or it is no instruction.
#[tactic(auto, unfolding(crate::specs::Trace::writes_of_word))]
fn writes_of_word(word: Option<u32>) -> Writes
    ensures { result ≡ writes_of_word word }
{
    let Some(word) = word else {
        return Writes::Nothing;
    };
    match decode(word) {
        Some(ins) => writes_of(ins),
        None => Writes::Nothing,
    }
}

/// What an instruction writes if it retires.
#[tactic(auto, unfolding(crate::specs::Trace::writes_of))]
fn writes_of(ins: Ins) -> Writes
    ensures { result ≡ writes_of ins }
{
    match ins {
        Ins::Lui { rd, .. } => Writes::Register(rd),
        Ins::Auipc { rd, .. } => Writes::Register(rd),
        Ins::Jal { rd, .. } => Writes::Register(rd),
        Ins::Jalr { rd, .. } => Writes::Register(rd),
        Ins::Lb { rd, .. } => Writes::Register(rd),
        Ins::Lh { rd, .. } => Writes::Register(rd),
        Ins::Lw { rd, .. } => Writes::Register(rd),
        Ins::Lbu { rd, .. } => Writes::Register(rd),
        Ins::Lhu { rd, .. } => Writes::Register(rd),
        Ins::Sb { rs1, rs2, imm } => Writes::Store {
            size: Size::Byte,
            rs1,
            rs2,
            imm,
        },
        Ins::Sh { rs1, rs2, imm } => Writes::Store {
            size: Size::Half,
            rs1,
            rs2,
            imm,
        },
        Ins::Sw { rs1, rs2, imm } => Writes::Store {
            size: Size::Word,
            rs1,
            rs2,
            imm,
        },
        Ins::Addi { rd, .. } => Writes::Register(rd),
        Ins::Slti { rd, .. } => Writes::Register(rd),
        Ins::Sltiu { rd, .. } => Writes::Register(rd),
        Ins::Xori { rd, .. } => Writes::Register(rd),
        Ins::Ori { rd, .. } => Writes::Register(rd),
        Ins::Andi { rd, .. } => Writes::Register(rd),
        Ins::Slli { rd, .. } => Writes::Register(rd),
        Ins::Srli { rd, .. } => Writes::Register(rd),
        Ins::Srai { rd, .. } => Writes::Register(rd),
        Ins::Add { rd, .. } => Writes::Register(rd),
        Ins::Sub { rd, .. } => Writes::Register(rd),
        Ins::Sll { rd, .. } => Writes::Register(rd),
        Ins::Slt { rd, .. } => Writes::Register(rd),
        Ins::Sltu { rd, .. } => Writes::Register(rd),
        Ins::Xor { rd, .. } => Writes::Register(rd),
        Ins::Srl { rd, .. } => Writes::Register(rd),
        Ins::Sra { rd, .. } => Writes::Register(rd),
        Ins::Or { rd, .. } => Writes::Register(rd),
        Ins::And { rd, .. } => Writes::Register(rd),
        Ins::Mul { rd, .. } => Writes::Register(rd),
        Ins::Mulh { rd, .. } => Writes::Register(rd),
        Ins::Mulhsu { rd, .. } => Writes::Register(rd),
        Ins::Mulhu { rd, .. } => Writes::Register(rd),
        Ins::Div { rd, .. } => Writes::Register(rd),
        Ins::Divu { rd, .. } => Writes::Register(rd),
        Ins::Rem { rd, .. } => Writes::Register(rd),
        Ins::Remu { rd, .. } => Writes::Register(rd),
        Ins::Csrrw { rd, .. } => Writes::Register(rd),
        Ins::Csrrs { rd, .. } => Writes::Register(rd),
        Ins::Csrrc { rd, .. } => Writes::Register(rd),
        Ins::Csrrwi { rd, .. } => Writes::Register(rd),
        Ins::Csrrsi { rd, .. } => Writes::Register(rd),
        Ins::Csrrci { rd, .. } => Writes::Register(rd),
        Ins::LrW { rd, .. } => Writes::Register(rd),
        Ins::ScW { rd, rs1, rs2, .. } => Writes::Conditional { rd, rs1, rs2 },
        Ins::AmoswapW { rd, rs1, .. } => Writes::Exchange { rd, rs1 },
        Ins::AmoaddW { rd, rs1, .. } => Writes::Exchange { rd, rs1 },
        Ins::AmoxorW { rd, rs1, .. } => Writes::Exchange { rd, rs1 },
        Ins::AmoandW { rd, rs1, .. } => Writes::Exchange { rd, rs1 },
        Ins::AmoorW { rd, rs1, .. } => Writes::Exchange { rd, rs1 },
        Ins::AmominW { rd, rs1, .. } => Writes::Exchange { rd, rs1 },
        Ins::AmomaxW { rd, rs1, .. } => Writes::Exchange { rd, rs1 },
        Ins::AmominuW { rd, rs1, .. } => Writes::Exchange { rd, rs1 },
        Ins::AmomaxuW { rd, rs1, .. } => Writes::Exchange { rd, rs1 },
        Ins::Beq { .. }
        | Ins::Bne { .. }
        | Ins::Blt { .. }
        | Ins::Bge { .. }
        | Ins::Bltu { .. }
        | Ins::Bgeu { .. }
        | Ins::Fence { .. }
        | Ins::FenceI { .. }
        | Ins::Ecall
        | Ins::Ebreak
        | Ins::Mret
        | Ins::Wfi => Writes::Nothing,
    }
}

/// The register that an instruction writes, or x0.
#[tactic(auto, unfolding(crate::specs::Trace::destination))]
fn destination(writes: &Writes) -> Reg
    ensures { result ≡ destination writes.now }
{
    match writes {
        Writes::Nothing | Writes::Store { .. } => Reg::new(0),
        Writes::Register(rd) => *rd,
        Writes::Conditional { rd, .. } => *rd,
        Writes::Exchange { rd, .. } => *rd,
    }
}

/// What a retired instruction stored, by the registers before its step and after it.
#[tactic(auto, unfolding(crate::specs::Trace::stored_by))]
fn stored_by<M: Memory>(
    guest: &mut Debugged<M>,
    writes: Writes,
    before: &[u32; 33],
    now: &[u32; 33],
) -> Option<Stored>
    ensures stored { result ≡ stored_by writes before.now now.now guest.old.guest }
    ensures guest { guest.new ≡ guest.old }
{
    match writes {
        Writes::Nothing | Writes::Register(_) => None,
        Writes::Store {
            size,
            rs1,
            rs2,
            imm,
        } => Some(Stored {
            address: add_signed(before[rs1.index()], imm.value()),
            size,
            value: before[rs2.index()],
        }),
        Writes::Conditional { rd, rs1, rs2 } => stored_conditional(
            rd,
            now[rd.index()],
            before[rs1.index()],
            before[rs2.index()],
        ),
        Writes::Exchange { rs1, .. } => stored_word(guest, before[rs1.index()]),
    }
}

/// The word of an `sc.w` at an address, which was stored if rd, unless it is x0, became 0.
fn stored_conditional(rd: Reg, became: u32, address: u32, value: u32) -> Option<Stored>
    ensures { result ≡ stored_conditional rd became address value }
{
    if rd.bits() == 0 || became != 0 {
        return None;
    }
    Some(Stored {
        address,
        size: Size::Word,
        value,
    })
}

/// The word at an address, if that is a multiple of four in RAM, as stored there.
fn stored_word<M: Memory>(guest: &mut Debugged<M>, address: u32) -> Option<Stored>
    ensures stored { result ≡ stored_part address (word_at address guest.old.guest) }
    ensures guest { guest.new ≡ guest.old }
{
    match word_at(guest, address) {
        Some(value) => Some(Stored {
            address,
            size: Size::Word,
            value,
        }),
        None => None,
    }
}

/// Writes a register and its value, unless it is x0.
#[tactic(auto, unfolding(crate::specs::Trace::register_text))]
fn write_register<W: Write>(rd: Reg, now: &[u32; 33], writer: &mut W) -> Result<(), LinkFault>
    ensures { OnOk result (Appends (W.contents writer.old) (W.contents writer.new)
        (register_text rd now.now)) }
{
    if rd.bits() == 0 {
        return Ok(());
    }
    let name = register_name(rd.bits());
    let value = Digits(now[rd.index()]);
    write!(writer, "  {name}={value}")?;
    Ok(())
}

/// Writes what was stored, if anything was.
#[tactic(auto, unfolding(crate::specs::Trace::shown))]
fn write_stored<W: Write>(stored: Option<Stored>, writer: &mut W) -> Result<(), LinkFault>
    ensures { OnOk result (Appends (W.contents writer.old) (W.contents writer.new)
        (shown stored)) }
{
    match stored {
        Some(stored) => {
            write!(writer, "  {stored}")?;
            Ok(())
        }
        None => Ok(()),
    }
}
