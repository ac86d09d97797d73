//! What a line of an extended session does.

ghost use Rattle.std.specs.Prelude.{◌≡◌, ◌+◌, ◌%◌, ◌^◌, ◌<◌, ◌≤◌, length, IfOk, OnErr, OnOk};
ghost use Rattle.std.specs.Io.KnownBytes.{Appends};
ghost use Rattle.rvm_mem.specs.Pages.{mark_all};
ghost use Rattle.rvm_board.specs.State.{state_of};
ghost use Rattle.rvm_command.specs.ExtendedAnswers.{csrs_answer, devices_text};
ghost use Rattle.rvm_command.specs.ExtendedRuns.{IsAnswered};
ghost use Rattle.rvm_command.specs.ExtendedScript.{extended_done_by, find_done, turns_done};

use crate::extended_answers::{write_csrs, write_devices, write_search, write_turns};
use crate::extended_line::ExtendedLine;
use crate::find_fault::find_fault;
use rvm_board::{Debugged, Order};
use rvm_debug::do_line;
use rvm_mem::Memory;
use rvm_refusal::LinkFault;
use std::io::Write;

/// Does what a line asks for after `turns` turns, and writes its answer. Returns how many turns there are then.
/// `LinkFault` if the writer fails; the line is done even then. An empty line has no answer, so that it cannot fail.
pub fn do_extended_line<M: Memory, W: Write>(
    board: &mut Debugged<M>,
    turns: u64,
    line: ExtendedLine,
    writer: &mut W,
) -> Result<u64, LinkFault>
    requires { turns ≤ 2 ^ 63 }
    ensures text { OnOk result (Appends (W.contents writer.old) (W.contents writer.new)
        (extended_done_by line.entry turns board.old.guest).replied.text) }
    ensures turns { IfOk result (λ t. t ≡ (extended_done_by line.entry turns board.old.guest).turns) }
    ensures within { IfOk result (λ t. t ≤ turns + 2 ^ 32) }
    ensures guest { board.new.guest ≡ (extended_done_by line.entry turns board.old.guest).replied.guest }
    ensures dirty { board.new.dirty
        ≡ mark_all (extended_done_by line.entry turns board.old.guest).replied.pages board.old.dirty }
    ensures answered { OnErr result (IsAnswered line.entry) }
{
    match line {
        ExtendedLine::Plain(line) => {
            do_line(board, line, writer)?;
            Ok(turns)
        }
        ExtendedLine::Csrs(hart) => {
            show_csrs(board, hart, writer)?;
            Ok(turns)
        }
        ExtendedLine::Devices => {
            show_devices(board, writer)?;
            Ok(turns)
        }
        ExtendedLine::Turns(count) => make_turns(board, turns, count, writer),
        ExtendedLine::FindFault(count) => search(board, turns, count, writer),
    }
}

/// Writes the control and status registers of a hart; if there is no such hart, writes that `BadHart` refuses it.
/// `LinkFault` if the writer fails.
fn show_csrs<M: Memory, W: Write>(
    board: &Debugged<M>,
    hart: u32,
    writer: &mut W,
) -> Result<(), LinkFault>
    ensures { OnOk result (Appends (W.contents writer.old) (W.contents writer.new)
        (csrs_answer hart board.now.guest)) }
{
    write_csrs(writer, &board.snapshot(), hart)
}

/// Writes what the devices keep: the timer, the words of each hart, the console, and the status of a board that is
/// halted. `LinkFault` if the writer fails.
fn show_devices<M: Memory, W: Write>(board: &Debugged<M>, writer: &mut W) -> Result<(), LinkFault>
    ensures { OnOk result (Appends (W.contents writer.old) (W.contents writer.new)
        (devices_text (state_of board.now.guest))) }
{
    write_devices(writer, &board.snapshot())
}

/// Makes at most `count` turns of the harts in their order, from turn `turns` on, and writes how they ended. Returns
/// how many turns there are then. `LinkFault` if the writer fails; the turns are made even then.
fn make_turns<M: Memory, W: Write>(
    board: &mut Debugged<M>,
    turns: u64,
    count: u32,
    writer: &mut W,
) -> Result<u64, LinkFault>
    requires { turns ≤ 2 ^ 63 }
    ensures text { OnOk result (Appends (W.contents writer.old) (W.contents writer.new)
        (turns_done count turns board.old.guest).replied.text) }
    ensures turns { IfOk result (λ t. t ≡ (turns_done count turns board.old.guest).turns) }
    ensures within { IfOk result (λ t. t ≤ turns + 2 ^ 32) }
    ensures guest { board.new.guest ≡ (turns_done count turns board.old.guest).replied.guest }
    ensures dirty { board.new.dirty
        ≡ mark_all (turns_done count turns board.old.guest).replied.pages board.old.dirty }
{
    let harts = board.harts();
    let made = board.turns(Order::RoundRobin, hart_of_turn(turns, harts), count);
    let after = turns + u64::from(made.made);
    let last = hart_of_turn(after.saturating_sub(1), harts);
    write_turns(writer, made.made, last, made.stop)?;
    Ok(after)
}

/// Makes at most `count` turns of the harts in their order, from turn `turns` on, up to the first fault that they show,
/// and writes that fault, or else how they ended. Returns how many turns there are then. `LinkFault` if the writer fails;
/// the turns are made even then.
fn search<M: Memory, W: Write>(
    board: &mut Debugged<M>,
    turns: u64,
    count: u32,
    writer: &mut W,
) -> Result<u64, LinkFault>
    requires { turns ≤ 2 ^ 63 }
    ensures text { OnOk result (Appends (W.contents writer.old) (W.contents writer.new)
        (find_done count turns board.old.guest).replied.text) }
    ensures turns { IfOk result (λ t. t ≡ (find_done count turns board.old.guest).turns) }
    ensures within { IfOk result (λ t. t ≤ turns + 2 ^ 32) }
    ensures guest { board.new.guest ≡ (find_done count turns board.old.guest).replied.guest }
    ensures dirty { board.new.dirty
        ≡ mark_all (find_done count turns board.old.guest).replied.pages board.old.dirty }
{
    let harts = board.harts();
    let found = find_fault(board, turns, count);
    let after = turns + u64::from(found.turns.made);
    let last = hart_of_turn(after.saturating_sub(1), harts);
    write_search(writer, found, last)?;
    Ok(after)
}

/// The hart that takes turn `turn`, of this many harts.
pub(crate) fn hart_of_turn(turn: u64, harts: u32) -> u32
    requires { 0 < harts }
    ensures hart { result ≡ turn % harts }
    ensures within { result < harts }
{
    (turn % u64::from(harts)) as u32
}
