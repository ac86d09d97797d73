//! The events of a world as lines of a script that make them.

ghost use Rattle.std.specs.Prelude.{◌≡◌, OnOk};
ghost use Rattle.std.specs.Io.KnownBytes.{Appends};
ghost use Rattle.rvm_core.specs.EventLines.{asked_line, command_line, event_line, event_lines, is_other, named};

use crate::event::Event;
use rvm_board::BoardEvent;
use rvm_message::Command;
use rvm_refusal::LinkFault;
use rvm_text::write_hex;
use std::fmt;
use std::io::Write;

/// The letter of a host, A to H.
#[derive(Clone, Copy)]
struct Letter(u8);

impl fmt::Display for Letter {
    ghost use Rattle.std.specs.Prelude.{Some};
    ghost use Rattle.rvm_core.specs.EventLines.{letter};

    ghost output = { λ host. Some (letter host.0) };

    fn fmt<W: fmt::Write>(&self, f: &mut fmt::Formatter<W>) -> fmt::Result {
        let host = self.0;
        match host {
            0 => f.write_str("A"),
            1 => f.write_str("B"),
            2 => f.write_str("C"),
            3 => f.write_str("D"),
            4 => f.write_str("E"),
            5 => f.write_str("F"),
            6 => f.write_str("G"),
            _ => f.write_str("H"),
        }
    }
}

/// A register, x0 to x31 or pc.
#[derive(Clone, Copy)]
struct Register(u32);

impl fmt::Display for Register {
    ghost use Rattle.std.specs.Prelude.{Some};
    ghost use Rattle.rvm_core.specs.EventLines.{register};

    ghost output = { λ r. Some (register r.0) };

    fn fmt<W: fmt::Write>(&self, f: &mut fmt::Formatter<W>) -> fmt::Result {
        let number = self.0;
        if number == 32 {
            f.write_str("pc")
        } else {
            write!(f, "x{number}")
        }
    }
}

/// Writes the words of a line that ask the guest for an event.
fn write_asked<W: Write>(writer: &mut W, event: &BoardEvent) -> Result<(), LinkFault>
    ensures { OnOk result (Appends (W.contents writer.old) (W.contents writer.new) (asked_line event.now)) }
{
    match event {
        BoardEvent::Step(hart) => write!(writer, "step {hart}")?,
        BoardEvent::Input(byte) => {
            write!(writer, "input ")?;
            write_hex(writer, &[*byte])?;
        }
        BoardEvent::Drain(count) => write!(writer, "drain {count}")?,
        BoardEvent::Break(address) => write!(writer, "break {address}")?,
        BoardEvent::Clear(address) => write!(writer, "clear {address}")?,
        BoardEvent::Regs(hart) => write!(writer, "regs {hart}")?,
        BoardEvent::Mem { address, length } => write!(writer, "mem {address} {length}")?,
        BoardEvent::Dis(address) => write!(writer, "dis {address}")?,
        BoardEvent::PokeReg {
            hart,
            register,
            value,
        } => write!(writer, "reg {hart} {} {value}", Register(*register))?,
        BoardEvent::PokeMem { address, bytes } => {
            write!(writer, "poke {address} ")?;
            write_hex(writer, bytes.as_slice())?;
        }
    }
    Ok(())
}

/// Whether a move from `host` goes to the other host of two.
fn is_other(hosts: u8, host: u8, to: u8) -> bool
    ensures { result ≡ is_other hosts host to }
{
    hosts == 2 && host < 2 && to == 1 - host
}

/// The target of a move as its line names it; none if it is the other host of two.
#[derive(Clone, Copy)]
struct Target(Option<u8>);

/// The letter of the target with a space after it, or nothing.
impl fmt::Display for Target {
    ghost use Rattle.std.specs.Prelude.{Some};
    ghost use Rattle.rvm_core.specs.EventLines.{target_text};

    ghost output = { λ target. Some (target_text target.0) };

    fn fmt<W: fmt::Write>(&self, f: &mut fmt::Formatter<W>) -> fmt::Result {
        let target = self.0;
        match target {
            Some(host) => write!(f, "{} ", Letter(host)),
            None => Ok(()),
        }
    }
}

/// The target that the line of a move names.
fn named(hosts: u8, host: u8, to: u8) -> Target
    ensures { result.0 ≡ named hosts host to }
{
    if is_other(hosts, host, to) {
        Target(None)
    } else {
        Target(Some(to))
    }
}

/// Writes the words of a line that give a host, of this many, a command.
fn write_command<W: Write>(
    writer: &mut W,
    hosts: u8,
    host: u8,
    command: &Command,
) -> Result<(), LinkFault>
    ensures { OnOk result (Appends (W.contents writer.old) (W.contents writer.new)
        (command_line hosts host command.now)) }
{
    match command {
        Command::Board(event) => write_asked(writer, event)?,
        Command::Begin { to, policy } => write!(
            writer,
            "begin {}{} {} {}",
            named(hosts, host, *to),
            policy.max_rounds,
            policy.min_left,
            policy.factor
        )?,
        Command::Copy => write!(writer, "copy")?,
        Command::Resend => write!(writer, "resend")?,
        Command::Abort => write!(writer, "abort")?,
    }
    Ok(())
}

/// Writes an event of a world of this many hosts as a line. The line of a move names its target, unless that is the
/// other host of two. Fails with `LinkFault` if the writer fails.
pub fn write_event<W: Write>(writer: &mut W, hosts: u8, event: &Event) -> Result<(), LinkFault>
    ensures { OnOk result (Appends (W.contents writer.old) (W.contents writer.new)
        (event_line hosts event.now)) }
{
    match event {
        Event::At(host, command) => {
            write!(writer, "{} ", Letter(*host))?;
            write_command(writer, hosts, *host, command)?;
        }
        Event::Deliver(place) => write!(writer, "deliver {place}")?,
    }
    writeln!(writer)?;
    Ok(())
}

/// Writes events of a world of this many hosts, each as a line, as `write_event` does. Fails with `LinkFault` if the
/// writer fails.
pub fn write_events<W: Write>(writer: &mut W, hosts: u8, events: &[Event]) -> Result<(), LinkFault>
    ensures { OnOk result (Appends (W.contents writer.old) (W.contents writer.new)
        (event_lines hosts events.now)) }
{
    for event in events {
        write_event(writer, hosts, event)?;
    }
    Ok(())
}
