//! Does what a line of a world's script asks for.

ghost use Rattle.std.specs.Prelude.{◌≡◌, Some, OnErr, OnOk};
ghost use Rattle.std.specs.Io.KnownBytes.{Appends};
ghost use Rattle.rvm_board.specs.Guest.{Guest};
ghost use Rattle.rvm_board.specs.declared.event.BoardReply.TheVariants as answer;
ghost use Rattle.rvm_guest.specs.TheGuest.{board};
ghost use Rattle.rvm_message.specs.Events.{command_of};
ghost use Rattle.rvm_message.specs.Replies.{reply_of};
ghost use Rattle.rvm_precopy.specs.Policies.{policy_of};
ghost use Rattle.rvm_protocol.specs.Commands as commands;
ghost use Rattle.rvm_protocol.specs.Replies.{Answered};
ghost use Rattle.rvm_protocol.specs.Shown.{Shown};
ghost use Rattle.rvm_protocol.specs.Told.{Told};
ghost use Rattle.rvm_protocol.specs.World as protocol;
ghost use Rattle.rvm_protocol.specs.World.{reply_to, step};
ghost use Rattle.rvm_debug.specs.Runs.{HasAnswer};
ghost use Rattle.rvm_core.specs.Driving.{WasLeft};
ghost use Rattle.rvm_core.specs.Worlds.{meant, world_of};
ghost use Rattle.rvm_core.specs.declared.script_lines.LineFault.TheVariants as fault;
ghost use Rattle.rvm_core.specs.Runs.{IsAnswered, IsDone, IsInput, IsSpentAsking, IsSpentIn, IsToldOfHost, driven_text, standing};
ghost use Rattle.rvm_core.specs.WorldScript.{asked_done, done_by, guest_done, host_in, inputs, is_taken, moved, replied, target};

use crate::drive::{Driven, drive_move};
use crate::event::Event;
use crate::replies::{write_guest_reply, write_move_reply, write_steps_reply};
use crate::world::World;
use crate::world_line::{Asked, WorldLine};
use rvm_board::{BoardEvent, BoardReply};
use rvm_debug::{HexText, Line, address_of, is_refused};
use rvm_mem::PagedMemory;
use rvm_message::{Command, HostReply};
use rvm_precopy::Policy;
use rvm_refusal::LinkFault;
use std::alloc::{AllocError, Global};
use std::io::Write;

/// Why a line was not done to its end.
#[derive(Clone, Copy, Debug, PartialEq, Eq)]
pub enum LineFault {
    /// Memory ran out before the line was answered.
    OutOfMemory,
    /// The answer could not be written.
    LinkFault,
}

impl From<AllocError> for LineFault {
    ghost from_gives = { λ _ told. told ≡ fault.OutOfMemory };

    fn from(_error: AllocError) -> LineFault {
        LineFault::OutOfMemory
    }
}

impl From<LinkFault> for LineFault {
    ghost from_gives = { λ _ told. told ≡ fault.LinkFault };

    fn from(_fault: LinkFault) -> LineFault {
        LineFault::LinkFault
    }
}

/// Does what a line asks for, and writes its answer. If memory runs out, writes nothing and changes nothing, except
/// that the first events of a whole move may have been made. If the answer cannot be written, the line was done to its
/// end.
pub fn do_line<M: PagedMemory + Drop, W: Write>(
    alloc: Global,
    world: &mut World<M>,
    line: WorldLine,
    writer: &mut W,
) -> Result<(), LineFault>
    ensures done { (t : Told Guest) → Shown (world_of world.old).hosts t
        → IsDone result (done_by line.entry (standing (world_of world.old) t))
        (IsSpentIn (Some line.entry) (standing (world_of world.old) t) (world_of world.new)) (world_of world.new)
        (W.contents writer.old) (W.contents writer.new) }
    ensures answered { OnErr result (IsAnswered (Some line.entry)) }
{
    match line {
        WorldLine::Empty => Ok(()),
        WorldLine::Host { host, asked } => {
            let host = host_of(world, host);
            do_asked(alloc, world, host, asked, writer)
        }
        WorldLine::Deliver(place) => do_event(alloc, world, &Event::Deliver(place as u64), writer),
    }
}

/// The host that a line names, or the one that has the guest.
fn host_of<M: PagedMemory + Drop>(world: &World<M>, host: Option<u8>) -> u8
    ensures { (t : Told Guest) → Shown (world_of world.now).hosts t
        → result ≡ host_in host (standing (world_of world.now) t) }
{
    match host {
        Some(host) => host,
        None => world.current(),
    }
}

/// The target that the line of a move names, or the other host of two.
fn target(from: u8, to: Option<u8>) -> u8
    ensures { result ≡ target from to }
{
    match to {
        Some(to) => to,
        None => 1u8.saturating_sub(from),
    }
}

/// Does what a host is asked, and writes the answer.
fn do_asked<M: PagedMemory + Drop, W: Write>(
    alloc: Global,
    world: &mut World<M>,
    host: u8,
    asked: Asked,
    writer: &mut W,
) -> Result<(), LineFault>
    ensures done { (t : Told Guest) → IsDone result (asked_done host asked.entry (standing (world_of world.old) t))
        (IsSpentAsking host asked.entry (standing (world_of world.old) t) (world_of world.new)) (world_of world.new)
        (W.contents writer.old) (W.contents writer.new) }
    ensures answered { OnErr result (IsToldOfHost asked.entry) }
{
    match asked {
        Asked::Guest(line) => do_guest_line(alloc, world, host, line, writer),
        Asked::Begin { to, policy } => {
            let to = target(host, to);
            do_command(alloc, world, host, Command::Begin { to, policy }, writer)
        }
        Asked::Move { to, policy } => {
            let to = target(host, to);
            do_move(alloc, world, host, to, policy, writer)
        }
        Asked::Copy => do_command(alloc, world, host, Command::Copy, writer),
        Asked::Resend => do_command(alloc, world, host, Command::Resend, writer),
        Asked::Abort => do_command(alloc, world, host, Command::Abort, writer),
    }
}

/// Gives a host a command of a move, and writes its reply.
fn do_command<M: PagedMemory + Drop, W: Write>(
    alloc: Global,
    world: &mut World<M>,
    host: u8,
    command: Command,
    writer: &mut W,
) -> Result<(), LineFault>
    ensures { (t : Told Guest) → IsDone result
        (replied (protocol.At host (command_of command)) (standing (world_of world.old) t))
        (world_of world.new ≡ world_of world.old) (world_of world.new)
        (W.contents writer.old) (W.contents writer.new) }
{
    do_event(alloc, world, &Event::At(host, command), writer)
}

/// Makes an event of a move or delivers a frame, and writes the reply.
fn do_event<M: PagedMemory + Drop, W: Write>(
    alloc: Global,
    world: &mut World<M>,
    event: &Event,
    writer: &mut W,
) -> Result<(), LineFault>
    ensures { (t : Told Guest) → IsDone result (replied (meant event.now) (standing (world_of world.old) t))
        (world_of world.new ≡ world_of world.old) (world_of world.new)
        (W.contents writer.old) (W.contents writer.new) }
{
    let made = world.apply(alloc, event)?;
    Ok(write_move_reply(writer, &made.reply, made.frame)?)
}

/// Moves the guest of host `from`, and writes how the move ended.
fn do_move<M: PagedMemory + Drop, W: Write>(
    alloc: Global,
    world: &mut World<M>,
    from: u8,
    to: u8,
    policy: Policy,
    writer: &mut W,
) -> Result<(), LineFault>
    ensures { (t : Told Guest) → IsDone result (moved from to policy (standing (world_of world.old) t))
        (WasLeft (world_of world.old) (world_of world.new) from to (policy_of policy)) (world_of world.new)
        (W.contents writer.old) (W.contents writer.new) }
{
    world.reached();
    let driven = drive_move(alloc, world, from, to, policy)?;
    Ok(write_driven(writer, driven)?)
}

/// Writes how a move ended.
fn write_driven<W: Write>(writer: &mut W, driven: Driven) -> Result<(), LinkFault>
    ensures { OnOk result (Appends (W.contents writer.old) (W.contents writer.new) (driven_text driven)) }
{
    match driven {
        Driven::Moved(number, events) => writeln!(writer, "moved {number} events {events}")?,
        Driven::Declined(limit) => writeln!(writer, "declined {limit}")?,
        Driven::Refused(why) => write_move_reply(writer, &HostReply::Refused(why), None)?,
    }
    Ok(())
}

/// Does what a line for the guest asks for, and writes the answer.
fn do_guest_line<M: PagedMemory + Drop, W: Write>(
    alloc: Global,
    world: &mut World<M>,
    host: u8,
    line: Line,
    writer: &mut W,
) -> Result<(), LineFault>
    ensures done { (t : Told Guest) → IsDone result (guest_done host line.entry (standing (world_of world.old) t))
        ⊥ (world_of world.new)
        (W.contents writer.old) (W.contents writer.new) }
    ensures answered { OnErr result (HasAnswer line.entry) }
{
    Ok(ask_guest(alloc, world, host, line, writer)?)
}

/// Does what a line for the guest asks for, and writes the answer. Takes no memory.
fn ask_guest<M: PagedMemory + Drop, W: Write>(
    alloc: Global,
    world: &mut World<M>,
    host: u8,
    line: Line,
    writer: &mut W,
) -> Result<(), LinkFault>
    ensures text { (t : Told Guest) → OnOk result (Appends (W.contents writer.old) (W.contents writer.new)
        (guest_done host line.entry (standing (world_of world.old) t)).text) }
    ensures world { (t : Told Guest) → world_of world.new
        ≡ (guest_done host line.entry (standing (world_of world.old) t)).standing.world }
    ensures answered { OnErr result (HasAnswer line.entry) }
{
    match line {
        Line::Empty => Ok(()),
        Line::Steps { hart, count } => {
            let steps = world.steps(alloc, host, hart, count);
            write_steps_reply(writer, hart, steps.count, &steps.last)
        }
        Line::Input(bytes) => {
            let reply = input(alloc, world, host, bytes);
            write_guest_reply(writer, None, &reply)
        }
        Line::Ask(event) => {
            let address = address_of(&event);
            let reply = ask(alloc, world, host, event);
            write_guest_reply(writer, address, &reply)
        }
    }
}

/// Gives the console bytes of input, up to the first that is not taken; returns the reply to the last one given, or
/// Done if there are no bytes. Takes no memory.
fn input<M: PagedMemory + Drop>(
    alloc: Global,
    world: &mut World<M>,
    host: u8,
    bytes: HexText,
) -> HostReply
    ensures { (t : Told Guest) → IsInput
        (inputs host bytes.entry (Answered answer.Done) (standing (world_of world.old) t))
        (world_of world.new) (reply_of result) }
{
    let mut left = bytes;
    let mut last = HostReply::Board(BoardReply::Done);
    while let Some((byte, behind)) = left.split_first() {
        last = ask(alloc, world, host, BoardEvent::Input(byte));
        if !is_taken(&last) {
            return last;
        }
        left = behind;
    }
    last
}

/// Whether the reply says that a byte was taken.
fn is_taken(reply: &HostReply) -> bool
    ensures { result ≡ is_taken (reply_of reply.now) }
{
    match reply {
        HostReply::Board(answer) => !is_refused(answer),
        _ => false,
    }
}

/// Gives the guest at a host an event, and returns the reply. Takes no memory.
fn ask<M: PagedMemory + Drop>(
    alloc: Global,
    world: &mut World<M>,
    host: u8,
    event: BoardEvent,
) -> HostReply
    ensures reply { reply_of result
        ≡ reply_to board (world_of world.old) (protocol.At host (commands.Board event)) }
    ensures next { world_of world.new
        ≡ step board (world_of world.old) (protocol.At host (commands.Board event)) }
{
    match world.apply(alloc, &Event::At(host, Command::Board(event))) {
        Ok(made) => made.reply,
        Err(_) => unreachable!(),
    }
}
