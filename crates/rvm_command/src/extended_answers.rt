//! The texts of the answers that an extended session has beside those of a script.

ghost use Rattle.std.specs.Prelude.{◌≡◌, ◌<◌, ◌≤◌, length, codes, ◌++◌, OnOk};
ghost use Rattle.std.specs.Io.KnownBytes.{Appends};
ghost use Rattle.hex.specs.Hex.{encode_lower};
ghost use Rattle.rvm_csr.specs.Table.{value_of};
ghost use Rattle.rvm_hart.specs.Bus.{mip_of};
ghost use Rattle.rvm_board.specs.Board.{hart_at};
ghost use Rattle.rvm_board.specs.Guest.{Guest};
ghost use Rattle.rvm_board.specs.Snapshot.{state_in};
ghost use Rattle.rvm_command.specs.ExtendedScript.{found_text};
ghost use Rattle.rvm_command.specs.FaultTexts.{fault_text};
ghost use Rattle.rvm_source.specs.Looks.{IsSnapshotOf};
ghost use Rattle.rvm_command.specs.ExtendedAnswers.{console_text, counters_text, csrs_answer, csrs_text, devices_text, halted_text, handling_text, hart_line, hart_lines, number_text, queue_text, setup_text, timer_text, turns_text};

use crate::fault::{Fault, write_fault};
use crate::find_fault::Search;
use rvm_board::{BoardRefusal, BoardReply, HartPart, Snapshot, Stop};
use rvm_csr::{Csr, CsrFile, Interrupts};
use rvm_debug::write_reply;
use rvm_dev::DeviceFields;
use rvm_dis::Digits;
use rvm_refusal::LinkFault;
use rvm_text::write_hex;
use rvm_word::{high_half, low_half};
use std::fmt;
use std::io::Write;

/// The most bytes that are written at once as hexadecimal digits.
const PIECE_SIZE: usize = 256;

/// A register, shown as `NAME=VVVVVVVV`.
#[derive(Clone, Copy)]
struct Named {
    name: &'static str,
    value: u32,
}

impl fmt::Display for Named {
    ghost use Rattle.std.specs.Prelude.{Some};
    ghost use Rattle.rvm_debug.specs.Answers.{register_text};

    ghost output = { λ r. Some (register_text r.name.now r.value) };

    fn fmt<W: fmt::Write>(&self, f: &mut fmt::Formatter<W>) -> fmt::Result {
        write!(f, "{}={}", self.name, Digits(self.value))
    }
}

/// A 64-bit number, shown as 16 hexadecimal digits.
#[derive(Clone, Copy)]
struct LongDigits(u64);

impl fmt::Display for LongDigits {
    ghost use Rattle.std.specs.Prelude.{Some};
    ghost use Rattle.rvm_command.specs.ExtendedAnswers.{long_digits};

    ghost output = { λ number. Some (long_digits number.0) };

    fn fmt<W: fmt::Write>(&self, f: &mut fmt::Formatter<W>) -> fmt::Result {
        let number = self.0;
        write!(
            f,
            "{}{}",
            Digits(high_half(number)),
            Digits(low_half(number))
        )
    }
}

/// A bit, shown as 0 or 1.
#[derive(Clone, Copy)]
struct Flag(bool);

impl fmt::Display for Flag {
    ghost use Rattle.std.specs.Prelude.{Some};
    ghost use Rattle.rvm_command.specs.ExtendedAnswers.{flag};

    ghost output = { λ f. Some (flag f.0) };

    fn fmt<W: fmt::Write>(&self, f: &mut fmt::Formatter<W>) -> fmt::Result {
        if self.0 {
            f.write_str("1")
        } else {
            f.write_str("0")
        }
    }
}

/// The control and status registers of a hart, and the interrupts that are pending at it.
#[derive(Drop)]
struct HartCsrs {
    csrs: CsrFile,
    mip: Interrupts,
}

impl HartCsrs {
    /// A register with its name, and with the value that a read of it gives now.
    fn named(&self, name: &'static str, csr: Csr) -> Named
        ensures name { result.name.now ≡ name.now }
        ensures value { result.value ≡ value_of csr self.now.mip self.now.csrs }
    {
        Named {
            name,
            value: self.csrs.value_of(csr, self.mip),
        }
    }
}

/// Writes the control and status registers of a hart of the guest that a snapshot is of; if there is no such hart,
/// writes that `BadHart` refuses it. `LinkFault` if the writer fails.
pub fn write_csrs<W: Write>(writer: &mut W, snapshot: &Snapshot, hart: u32) -> Result<(), LinkFault>
    requires { (guest : Guest) × IsSnapshotOf guest snapshot.now }
    ensures { OnOk result ((guest : Guest) → IsSnapshotOf guest snapshot.now
        → Appends (W.contents writer.old) (W.contents writer.new) (csrs_answer hart guest)) }
{
    if hart as usize >= snapshot.harts.len() {
        return write_reply(writer, None, &BoardReply::Refused(BoardRefusal::BadHart));
    }
    write_hart_csrs(writer, &csrs_at(snapshot, hart))
}

/// The control and status registers of a hart, and the interrupts that are pending at it.
fn csrs_at(snapshot: &Snapshot, hart: u32) -> HartCsrs
    requires hart { hart < length snapshot.now.harts.items }
    requires guest { (guest : Guest) × IsSnapshotOf guest snapshot.now }
    ensures csrs { (guest : Guest) → IsSnapshotOf guest snapshot.now → result.csrs ≡ (hart_at hart guest.board).csrs }
    ensures mip { (guest : Guest) → IsSnapshotOf guest snapshot.now
        → result.mip ≡ mip_of hart guest.board.shared.devices }
{
    let part = snapshot.harts.as_slice()[hart as usize];
    let devices = snapshot.devices;
    let mip = Interrupts {
        software: part.msip,
        timer: part.mtimecmp <= devices.mtime,
        external: hart == 0 && devices.interrupt_enable && !snapshot.input.is_empty(),
    };
    HartCsrs {
        csrs: CsrFile::restored(hart, part.fields.csrs),
        mip,
    }
}

/// Writes control and status registers, four a line, and at last the hart's number.
fn write_hart_csrs<W: Write>(writer: &mut W, hart: &HartCsrs) -> Result<(), LinkFault>
    ensures { OnOk result (Appends (W.contents writer.old) (W.contents writer.new)
        (csrs_text hart.now.mip hart.now.csrs)) }
{
    write_setup(writer, hart)?;
    write_handling(writer, hart)?;
    write_counters(writer, hart)?;
    write_number(writer, hart)?;
    Ok(())
}

/// Writes the registers of trap setup, and `mip`.
fn write_setup<W: Write>(writer: &mut W, hart: &HartCsrs) -> Result<(), LinkFault>
    ensures { OnOk result (Appends (W.contents writer.old) (W.contents writer.new)
        (setup_text hart.now.mip hart.now.csrs)) }
{
    let mstatus = hart.named("mstatus", Csr::Mstatus);
    let mie = hart.named("mie", Csr::Mie);
    let mip = hart.named("mip", Csr::Mip);
    let mtvec = hart.named("mtvec", Csr::Mtvec);
    writeln!(writer, "{mstatus} {mie} {mip} {mtvec}")?;
    Ok(())
}

/// Writes the registers of trap handling.
fn write_handling<W: Write>(writer: &mut W, hart: &HartCsrs) -> Result<(), LinkFault>
    ensures { OnOk result (Appends (W.contents writer.old) (W.contents writer.new)
        (handling_text hart.now.mip hart.now.csrs)) }
{
    let mscratch = hart.named("mscratch", Csr::Mscratch);
    let mepc = hart.named("mepc", Csr::Mepc);
    let mcause = hart.named("mcause", Csr::Mcause);
    let mtval = hart.named("mtval", Csr::Mtval);
    writeln!(writer, "{mscratch} {mepc} {mcause} {mtval}")?;
    Ok(())
}

/// Writes the counters, each in two halves.
fn write_counters<W: Write>(writer: &mut W, hart: &HartCsrs) -> Result<(), LinkFault>
    ensures { OnOk result (Appends (W.contents writer.old) (W.contents writer.new)
        (counters_text hart.now.mip hart.now.csrs)) }
{
    let mcycle = hart.named("mcycle", Csr::Mcycle);
    let mcycleh = hart.named("mcycleh", Csr::Mcycleh);
    let minstret = hart.named("minstret", Csr::Minstret);
    let minstreth = hart.named("minstreth", Csr::Minstreth);
    writeln!(writer, "{mcycle} {mcycleh} {minstret} {minstreth}")?;
    Ok(())
}

/// Writes the register of the hart's number.
fn write_number<W: Write>(writer: &mut W, hart: &HartCsrs) -> Result<(), LinkFault>
    ensures { OnOk result (Appends (W.contents writer.old) (W.contents writer.new)
        (number_text hart.now.mip hart.now.csrs)) }
{
    let mhartid = hart.named("mhartid", Csr::Mhartid);
    writeln!(writer, "{mhartid}")?;
    Ok(())
}

/// Writes what the devices keep of the guest that a snapshot is of: the timer, the words of each hart, the console, and
/// the status of a board that is halted. `LinkFault` if the writer fails.
pub fn write_devices<W: Write>(writer: &mut W, snapshot: &Snapshot) -> Result<(), LinkFault>
    ensures { OnOk result (Appends (W.contents writer.old) (W.contents writer.new)
        (devices_text (state_in snapshot.now))) }
{
    let devices = snapshot.devices;
    write_timer(writer, devices.mtime)?;
    write_harts(writer, snapshot.harts.as_slice())?;
    write_queue(writer, "input", snapshot.input.as_slice())?;
    write_queue(writer, "output", snapshot.output.as_slice())?;
    write_console(writer, devices)?;
    write_halted(writer, devices.halted)?;
    Ok(())
}

/// Writes the timer.
fn write_timer<W: Write>(writer: &mut W, mtime: u64) -> Result<(), LinkFault>
    ensures { OnOk result (Appends (W.contents writer.old) (W.contents writer.new) (timer_text mtime)) }
{
    writeln!(writer, "mtime={}", LongDigits(mtime))?;
    Ok(())
}

/// Writes what the devices keep for each hart.
fn write_harts<W: Write>(writer: &mut W, harts: &[HartPart]) -> Result<(), LinkFault>
    requires { length harts.now ≤ 8 }
    ensures { OnOk result (Appends (W.contents writer.old) (W.contents writer.new)
        (hart_lines 0 harts.now)) }
{
    for hart in 0..harts.len() {
        write_hart(writer, hart, harts[hart])?;
    }
    Ok(())
}

/// Writes what the devices keep for the hart with this number.
fn write_hart<W: Write>(writer: &mut W, hart: usize, part: HartPart) -> Result<(), LinkFault>
    ensures { OnOk result (Appends (W.contents writer.old) (W.contents writer.new)
        (hart_line hart part)) }
{
    let mtimecmp = LongDigits(part.mtimecmp);
    let msip = Flag(part.msip);
    writeln!(writer, "hart {hart} mtimecmp={mtimecmp} msip={msip}")?;
    Ok(())
}

/// Writes the bytes of a queue of the console, oldest first, in a line that begins with the queue's name.
fn write_queue<W: Write>(writer: &mut W, name: &'static str, bytes: &[u8]) -> Result<(), LinkFault>
    ensures { OnOk result (Appends (W.contents writer.old) (W.contents writer.new)
        (queue_text name.now bytes.now)) }
{
    if bytes.is_empty() {
        writeln!(writer, "{name} 0")?;
        return Ok(());
    }
    write!(writer, "{name} {} ", bytes.len())?;
    write_bytes(writer, bytes)?;
    writeln!(writer)?;
    Ok(())
}

/// Writes bytes, each as two lowercase hexadecimal digits.
fn write_bytes<W: Write>(writer: &mut W, bytes: &[u8]) -> Result<(), LinkFault>
    ensures { OnOk result (Appends (W.contents writer.old) (W.contents writer.new)
        (encode_lower bytes.now)) }
{
    let mut rest = bytes;
    while rest.len() > PIECE_SIZE {
        let (piece, behind) = rest.split_at(PIECE_SIZE);
        write_hex(writer, piece)?;
        rest = behind;
    }
    write_hex(writer, rest)
}

/// Writes whether input interrupts, and whether output was lost.
fn write_console<W: Write>(writer: &mut W, devices: DeviceFields) -> Result<(), LinkFault>
    ensures { OnOk result (Appends (W.contents writer.old) (W.contents writer.new)
        (console_text devices)) }
{
    let enable = Flag(devices.interrupt_enable);
    let overrun = Flag(devices.overrun);
    writeln!(writer, "interrupt_enable={enable} overrun={overrun}")?;
    Ok(())
}

/// Writes the status of a board that is halted; nothing if it is not.
fn write_halted<W: Write>(writer: &mut W, halted: Option<u8>) -> Result<(), LinkFault>
    ensures { OnOk result (Appends (W.contents writer.old) (W.contents writer.new)
        (halted_text halted)) }
{
    if let Some(status) = halted {
        writeln!(writer, "halted {status}")?;
    }
    Ok(())
}

/// What ended turns, the last of which was of hart `hart`, shown in words.
#[derive(Clone, Copy)]
struct Stopped {
    hart: u32,
    stop: Option<Stop>,
}

impl fmt::Display for Stopped {
    ghost use Rattle.std.specs.Prelude.{Some};
    ghost use Rattle.rvm_command.specs.ExtendedAnswers.{stop_text};

    ghost output = { λ s. Some (stop_text s.hart s.stop) };

    fn fmt<W: fmt::Write>(&self, f: &mut fmt::Formatter<W>) -> fmt::Result {
        let hart = self.hart;
        match self.stop {
            None => f.write_str("done"),
            Some(Stop::Break(address)) => write!(f, "hart {hart} break {}", Digits(address)),
            Some(Stop::Halted(status)) => write!(f, "halted {status}"),
        }
    }
}

/// Writes how many turns were made, the last of them by hart `hart`, and what ended them. `LinkFault` if the writer
/// fails.
pub fn write_turns<W: Write>(
    writer: &mut W,
    made: u32,
    hart: u32,
    stop: Option<Stop>,
) -> Result<(), LinkFault>
    ensures { OnOk result (Appends (W.contents writer.old) (W.contents writer.new)
        (turns_text made hart stop)) }
{
    writeln!(writer, "turns {made}: {}", Stopped { hart, stop })?;
    Ok(())
}

/// Writes the fault that a search found, or else how many turns it made, the last of them by hart `hart`, and what ended
/// them. `LinkFault` if the writer fails.
pub(crate) fn write_search<W: Write>(
    writer: &mut W,
    search: Search,
    hart: u32,
) -> Result<(), LinkFault>
    ensures { OnOk result (Appends (W.contents writer.old) (W.contents writer.new)
        (found_text search.fault (turns_text search.turns.made hart search.turns.stop))) }
{
    match search.fault {
        Some(fault) => write_fault_line(writer, &fault),
        None => write_turns(writer, search.turns.made, hart, search.turns.stop),
    }
}

/// Writes a line that tells a fault.
fn write_fault_line<W: Write>(writer: &mut W, fault: &Fault) -> Result<(), LinkFault>
    ensures { OnOk result (Appends (W.contents writer.old) (W.contents writer.new)
        (fault_text fault.now ++ codes "\n")) }
{
    write_fault(fault, writer)?;
    writeln!(writer)?;
    Ok(())
}
