//! What a line of a script does.

ghost use Rattle.std.specs.Prelude.{◌≡◌, OnErr, OnOk};
ghost use Rattle.std.specs.Io.KnownBytes.{Appends};
ghost use Rattle.rvm_mem.specs.Pages.{mark_all};
ghost use Rattle.rvm_debug.specs.Runs.{HasAnswer};
ghost use Rattle.rvm_debug.specs.Script.{done_by, inputs, stepped};

use crate::answers::{address_of, is_refused, write_reply, write_steps};
use crate::hex_text::HexText;
use crate::line::Line;
use rvm_board::{BoardEvent, BoardRefusal, BoardReply, Debugged, Order};
use rvm_mem::Memory;
use rvm_refusal::LinkFault;
use std::io::Write;

/// How steps of a hart ended.
#[derive(Drop)]
struct Steps {
    /// The number of steps, including one that was refused.
    count: u32,
    /// The answer to the last step.
    last: BoardReply,
}

/// Does what a line asks for, and writes its answer. `LinkFault` if the writer fails; the line is done even then. An
/// empty line has no answer, so that it cannot fail.
pub fn do_line<M: Memory, W: Write>(
    board: &mut Debugged<M>,
    line: Line,
    writer: &mut W,
) -> Result<(), LinkFault>
    ensures text { OnOk result (Appends (W.contents writer.old) (W.contents writer.new)
        (done_by line.entry board.old.guest).text) }
    ensures guest { board.new.guest ≡ (done_by line.entry board.old.guest).guest }
    ensures dirty { board.new.dirty
        ≡ mark_all (done_by line.entry board.old.guest).pages board.old.dirty }
    ensures answered { OnErr result (HasAnswer line.entry) }
{
    match line {
        Line::Empty => Ok(()),
        Line::Steps { hart, count } => {
            let steps = step(board, hart, count);
            write_steps(writer, hart, steps.count, &steps.last)
        }
        Line::Input(bytes) => {
            let reply = input(board, bytes);
            write_reply(writer, None, &reply)
        }
        Line::Ask(event) => {
            let address = address_of(&event);
            let reply = board.apply(event);
            write_reply(writer, address, &reply)
        }
    }
}

/// Makes at most `count` steps of a hart. Ends early if the hart stops at a breakpoint, if the board is halted, or if
/// there is no such hart.
fn step<M: Memory>(board: &mut Debugged<M>, hart: u32, count: u32) -> Steps
    ensures count { result.count ≡ (stepped hart count board.old.guest).count }
    ensures last { result.last ≡ (stepped hart count board.old.guest).reply }
    ensures guest { board.new.guest ≡ (stepped hart count board.old.guest).guest }
    ensures dirty { board.new.dirty
        ≡ mark_all (stepped hart count board.old.guest).pages board.old.dirty }
{
    let Some(before_last) = count.checked_sub(1) else {
        return Steps {
            count: 0,
            last: BoardReply::Retired,
        };
    };
    if hart >= board.harts() {
        return Steps {
            count: 1,
            last: BoardReply::Refused(BoardRefusal::BadHart),
        };
    }
    let turns = board.turns(Order::Alone, hart, before_last);
    match turns.stop {
        Some(stop) => Steps {
            count: turns.made,
            last: stop.reply(),
        },
        None => Steps {
            count,
            last: board.apply(BoardEvent::Step(hart)),
        },
    }
}

/// Sends bytes to the console, up to the first that is refused. Returns the refusal, or `Done`.
fn input<M: Memory>(board: &mut Debugged<M>, bytes: HexText) -> BoardReply
    ensures reply { result ≡ (inputs bytes.entry board.old.guest).reply }
    ensures guest { board.new.guest ≡ (inputs bytes.entry board.old.guest).guest }
    ensures dirty { board.new.dirty
        ≡ mark_all (inputs bytes.entry board.old.guest).pages board.old.dirty }
{
    let mut left = bytes;
    while let Some((byte, behind)) = left.split_first() {
        let reply = board.apply(BoardEvent::Input(byte));
        if is_refused(&reply) {
            return reply;
        }
        left = behind;
    }
    BoardReply::Done
}
