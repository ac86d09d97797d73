//! The loop of `rvmove run`: turns of the harts, input to the guest, and what it sends.

ghost use Rattle.std.specs.Prelude.{◌≡◌, ◌<◌, ◌≤◌, ◌+◌, ◌-◌, ◌%◌, ◌∷◌, ◌++◌, [], OnOk, OnErr, IfOk, IsTrue, drop, length, true};
ghost use Rattle.std.specs.Io.KnownBytes.{Appends};
ghost use Rattle.rvm_mem.specs.Pages.{mark_all};
ghost use Rattle.rvm_board.specs.declared.event.BoardEvent.TheVariants.{Drain};
ghost use Rattle.rvm_board.specs.Computing.{Compute};
ghost use Rattle.rvm_board.specs.Turns.{TakesTurns};
ghost use Rattle.rvm_board.specs.WhileFull.{turns_while};
ghost use Rattle.rvm_command.specs.Buffered.{GoesOut};
ghost use Rattle.rvm_command.specs.Run.{IsAfter, IsPartWay, after, drains, left, offers, ran, run_from};
ghost use Rattle.rvm_command.specs.Slices.{GoesOn, rest_of_run, status_of, takes_none};

use crate::fault::Fault;
use crate::output_buffer::OutputBuffer;
use rvm_board::{DRAIN_EVERY, DRAIN_SIZE, Debugged, Order, Stop, Turns};
use rvm_mem::Memory;
use rvm_refusal::LinkFault;
use std::io::Write;

/// The number of turns after which what was taken is written at the latest. `run` has no clock; this many turns take
/// about a millisecond.
pub(crate) const WRITE_EVERY: u32 = 65_536;

/// How a run ended.
#[derive(Clone, Copy, Debug, PartialEq, Eq)]
pub enum Ended {
    /// The guest halted the board with this status.
    HaltedWith(u8),
    /// All turns that were asked for were made.
    StepsSpent,
    /// The guest has no handler for a trap or an interrupt.
    Fault(Fault),
}

/// Makes `steps` turns, or fewer if the guest halts the board. Returns how the run ended. In turn t the next byte of
/// `input`, if one is left, comes to the console, or is kept for later if 16 bytes wait there; then hart t modulo the
/// number of harts takes a step. What the guest sent is taken after every 64 turns, when the board is halted, and at
/// the end. A hart that stops at a breakpoint has had its turn.
///
/// What was taken is written in pieces of up to 4096 bytes: if fewer than 256 more would fit, after every 65,536 turns,
/// when the board is halted, and at the end. The writer is not flushed.
///
/// `LinkFault` if the writer fails, which is possible only if there was something to write. The guest is then what the
/// first events of the run left, up to some event. Of the piece whose write failed, any part may have been written; the
/// pieces before it were written, and nothing after it was.
pub fn run<M: Memory, W: Write>(
    guest: &mut Debugged<M>,
    steps: u32,
    input: &[u8],
    writer: &mut W,
) -> Result<Ended, LinkFault>
    ensures written { OnOk result (Appends (W.contents writer.old) (W.contents writer.new)
        (ran steps input.now guest.old.guest).written) }
    ensures guest { OnOk result (guest.new.guest ≡ (ran steps input.now guest.old.guest).guest) }
    ensures dirty { OnOk result (guest.new.dirty
        ≡ mark_all (ran steps input.now guest.old.guest).pages guest.old.dirty) }
    ensures ended { IfOk result (λ e. e ≡ (ran steps input.now guest.old.guest).ended) }
    ensures err { OnErr result (0 < length (ran steps input.now guest.old.guest).written) }
    ensures part { OnErr result
        (IsPartWay (run_from steps 0 input.now guest.old.guest).events guest.old guest.new) }
{
    let mut next = 0;
    let mut turn = 0;
    let mut buffer = OutputBuffer::new();
    while turn < steps {
        let slice = make_turns(guest, turn, steps, input, next);
        turn += slice.made;
        next = slice.next;
        if let Some(status) = slice.status {
            drain(guest, &mut buffer, true, writer)?;
            return Ok(Ended::HaltedWith(status));
        }
        if turn % DRAIN_EVERY == 0 {
            drain(guest, &mut buffer, turn % WRITE_EVERY == 0, writer)?;
        }
    }
    drain(guest, &mut buffer, true, writer)?;
    Ok(Ended::StepsSpent)
}

/// Consecutive turns, after which the run drains its guest and offers it input.
#[derive(Clone, Copy)]
struct Slice {
    /// How many turns were made.
    made: u32,
    /// The index of the byte of input that is offered next.
    next: usize,
    /// The status of the board, if it is halted.
    status: Option<u8>,
}

/// Offers a byte of input and makes turns, from turn `turn` on, at most up to the next drain that finds something, or
/// up to the next write.
#[inline]
fn make_turns<M: Memory>(
    guest: &mut Debugged<M>,
    turn: u32,
    steps: u32,
    input: &[u8],
    next: usize,
) -> Slice
    requires turn { turn < steps }
    requires next { next ≤ length input.now }
    ensures run { GoesOn (run_from (steps - turn) turn (drop next input.now) guest.old.guest)
        (rest_of_run result.status (steps - turn - result.made) (turn + result.made)
        (drop result.next input.now) guest.new.guest) guest.old guest.new }
    ensures some { 0 < result.made }
    ensures within { turn + result.made ≤ steps }
    ensures next { result.next ≤ length input.now }
{
    let next = feed(guest, input, next);
    let is_more = next < input.len();
    let first = turn % guest.harts();
    let made = compute(guest, is_more, first, ahead(turn, steps));
    if made > 0 {
        return Slice {
            made,
            next,
            status: None,
        };
    }
    let count = (DRAIN_EVERY - turn % DRAIN_EVERY).min(steps - turn);
    let turns = take_turns(guest, is_more, first, count);
    Slice {
        made: turns.made,
        next,
        status: status_of(turns.stop),
    }
}

/// How many turns may be made from turn `turn` on with no drain between them, if none has anything to take: all up to
/// the next write. None but directly after a drain, so that a guest that often does more than compute is asked once
/// for each drain.
#[inline(always)]
fn ahead(turn: u32, steps: u32) -> u32
    requires { turn < steps }
    ensures { turn + result ≤ steps }
{
    if turn % DRAIN_EVERY > 0 {
        return 0;
    }
    (WRITE_EVERY - turn % WRITE_EVERY).min(steps - turn)
}

/// Makes at most `count` turns that neither send anything nor take any input, the first by hart `first`, if nothing
/// that the guest sent waits and no byte can come. Returns how many were made.
#[inline(always)]
fn compute<M: Memory>(guest: &mut Debugged<M>, is_more: bool, first: u32, count: u32) -> u32
    requires { first < length guest.old.guest.board.harts }
    ensures made { result ≤ count }
    ensures computes { Compute (length guest.old.guest.board.harts) result first guest.old guest.new }
    ensures input { 0 < result → takes_none is_more guest.old.guest ≡ true }
    ensures output { 0 < result → length guest.old.guest.board.shared.devices.output ≡ 0 }
{
    if count == 0 || guest.waiting() > 0 || (is_more && !guest.input_is_full()) {
        return 0;
    }
    guest.compute(first, count)
}

/// The status of the board, if the turns stopped because it is halted.
#[inline]
fn status_of(stop: Option<Stop>) -> Option<u8>
    ensures { result ≡ status_of stop }
{
    match stop {
        Some(Stop::Halted(status)) => Some(status),
        _ => None,
    }
}

/// Makes at most `count` turns, the first by hart `first`. If there is more input, they end once the console has room
/// for a byte of it.
#[inline]
fn take_turns<M: Memory>(guest: &mut Debugged<M>, is_more: bool, first: u32, count: u32) -> Turns
    requires { first < length guest.old.guest.board.harts }
    ensures { TakesTurns (turns_while (takes_none is_more) count first guest.old.guest)
        guest.old guest.new result }
{
    if is_more {
        guest.turns_while_full(first, count)
    } else {
        guest.turns(Order::RoundRobin, first, count)
    }
}

/// Offers the guest the byte of `input` at index `next`, if there is one. Returns the index of the byte to offer after
/// that: the same if the console had no room.
#[inline(always)]
pub(crate) fn feed<M: Memory>(guest: &mut Debugged<M>, input: &[u8], next: usize) -> usize
    requires { next ≤ length input.now }
    ensures fed { IsAfter (offers (drop next input.now)) guest.old guest.new }
    ensures left { drop result input.now ≡ left (drop next input.now) guest.old.guest }
    ensures within { result ≤ length input.now }
{
    if next >= input.len() {
        return next;
    }
    match guest.input(input[next]) {
        Ok(()) => next + 1,
        Err(_) => next,
    }
}

/// Takes all that the guest sent, if it sent anything. If a write `is_due`, writes all that is held. `LinkFault` if a
/// write fails.
#[inline(always)]
pub(crate) fn drain<M: Memory, W: Write>(
    guest: &mut Debugged<M>,
    buffer: &mut OutputBuffer,
    is_due: bool,
    writer: &mut W,
) -> Result<(), LinkFault>
    ensures written { OnOk result (GoesOut (after (drains guest.old.guest) guest.old.guest).bytes
        buffer.old buffer.new (W.contents writer.old) (W.contents writer.new)) }
    ensures empty { OnOk result (IsTrue is_due → buffer.new ≡ []) }
    ensures guest { OnOk result (IsAfter (drains guest.old.guest) guest.old guest.new) }
    ensures err { OnErr result
        (0 < length (buffer.old ++ (after (drains guest.old.guest) guest.old.guest).bytes)) }
    ensures part { OnErr result (IsPartWay (drains guest.old.guest) guest.old guest.new) }
{
    if guest.waiting() == 0 && !is_due {
        return Ok(());
    }
    drain_and_write(guest, buffer, is_due, writer)
}

/// Takes all that the guest sent. If a write `is_due`, writes all that is held. `LinkFault` if a write fails.
#[cold]
#[inline(never)]
fn drain_and_write<M: Memory, W: Write>(
    guest: &mut Debugged<M>,
    buffer: &mut OutputBuffer,
    is_due: bool,
    writer: &mut W,
) -> Result<(), LinkFault>
    ensures written { OnOk result (GoesOut (after (drains guest.old.guest) guest.old.guest).bytes
        buffer.old buffer.new (W.contents writer.old) (W.contents writer.new)) }
    ensures empty { OnOk result (IsTrue is_due → buffer.new ≡ []) }
    ensures guest { OnOk result (IsAfter (drains guest.old.guest) guest.old guest.new) }
    ensures err { OnErr result
        (0 < length (buffer.old ++ (after (drains guest.old.guest) guest.old.guest).bytes)) }
    ensures part { OnErr result (IsPartWay (drains guest.old.guest) guest.old guest.new) }
{
    drain_all(guest, buffer, writer)?;
    if is_due {
        buffer.write_to(writer)?;
    }
    Ok(())
}

/// Takes all that the guest sent. Writes what is held whenever the buffer has no room for another drain.
fn drain_all<M: Memory, W: Write>(
    guest: &mut Debugged<M>,
    buffer: &mut OutputBuffer,
    writer: &mut W,
) -> Result<(), LinkFault>
    ensures written { OnOk result (GoesOut (after (drains guest.old.guest) guest.old.guest).bytes
        buffer.old buffer.new (W.contents writer.old) (W.contents writer.new)) }
    ensures guest { OnOk result (IsAfter (drains guest.old.guest) guest.old guest.new) }
    ensures err { OnErr result
        (0 < length (buffer.old ++ (after (drains guest.old.guest) guest.old.guest).bytes)) }
    ensures part { OnErr result (IsPartWay (drains guest.old.guest) guest.old guest.new) }
{
    while guest.waiting() > 0 {
        buffer.make_room(DRAIN_SIZE as usize, writer)?;
        drain_once(guest, buffer);
    }
    Ok(())
}

/// Takes the oldest bytes that the guest sent, at most 256, into a buffer that has room for them.
fn drain_once<M: Memory>(guest: &mut Debugged<M>, buffer: &mut OutputBuffer)
    requires { length buffer.old + 256 ≤ 4096 }
    ensures bytes { buffer.new
        ≡ buffer.old ++ (after (Drain 256 ∷ []) guest.old.guest).bytes }
    ensures guest { IsAfter (Drain 256 ∷ []) guest.old guest.new }
{
    let mut bytes = [0; DRAIN_SIZE as usize];
    let count = guest.drain(&mut bytes);
    buffer.append(&bytes[..count]);
}
