//! An extended session: its lines in order.

ghost use Rattle.std.specs.Prelude.{◌≡◌, ◌⊎◌, ◌^◌, ◌<◌, ◌≤◌, length, Err, IfErr, IfOk, IfSome, ◌+◌};
ghost use Rattle.rvm_debug.specs.declared.script.ScriptError.TheVariants.{OutOfMemory, TooLong};
ghost use Rattle.rvm_debug.specs.Words.{lines};
ghost use Rattle.rvm_debug.specs.Runs.{IsLineError, IsUnread};
ghost use Rattle.rvm_command.specs.ExtendedLines.{extended_line_of};
ghost use Rattle.rvm_command.specs.ExtendedRuns.{IsLineOf, IsSession};

use crate::extended_line::ExtendedLine;
use crate::extended_lines::do_extended_line;
use rvm_board::Debugged;
use rvm_debug::{MAX_SCRIPT_SIZE, ScriptError, read_script, split_line};
use rvm_mem::Memory;
use rvm_refusal::LinkFault;
use std::alloc::Global;
use std::io::{Read, Write};

/// Does what each line of an extended session asks for, in order, and writes the answers. The session is all that
/// `reader` gives. It is read as a whole before the first line is done.
///
/// `TooLong` if the session has more than 2^26 bytes, and `OutOfMemory` if memory runs out: then nothing was written,
/// and the board is unchanged. `BadToken` at the first line that is not in the grammar: the lines before it were done,
/// and their answers are written. `LinkFault` if a read or a write fails. After a failed read, no line was done. After
/// a failed write, each line up to the one whose answer was being written was done to its end, and part of the answers
/// may have been written.
pub fn run_session<M: Memory, R: Read, W: Write>(
    alloc: Global,
    board: &mut Debugged<M>,
    reader: &mut R,
    writer: &mut W,
) -> Result<(), ScriptError>
    ensures run { IfSome (R.remaining reader.old) (λ script.
        IsSession result (lines script) board.old board.new
        (W.contents writer.old) (W.contents writer.new)) }
    ensures long { IfSome (R.remaining reader.old) (λ script. 2 ^ 26 < length script
        → IsUnread result × (board.new ≡ board.old)
        × (W.contents writer.new ≡ W.contents writer.old)) }
    ensures too_long { result ≡ Err TooLong
        → IfSome (R.remaining reader.old) (λ script. 2 ^ 26 < length script) }
    ensures unread { (result ≡ Err TooLong) ⊎ (result ≡ Err OutOfMemory)
        → (board.new ≡ board.old) × (W.contents writer.new ≡ W.contents writer.old) }
{
    match read_script(alloc, reader) {
        Ok(script) => {
            // for the proof
            if script.len() > MAX_SCRIPT_SIZE {
                return Err(ScriptError::TooLong);
            }
            run_lines(board, &script, writer)
        }
        Err(error) => Err(error),
    }
}

/// Does what each line asks for, in order, and writes the answers. Ends at the first line that fails.
fn run_lines<M: Memory, W: Write>(
    board: &mut Debugged<M>,
    script: &[u8],
    writer: &mut W,
) -> Result<(), ScriptError>
    requires { length script.now ≤ 2 ^ 26 }
    ensures run { IsSession result (lines script.now) board.old board.new
        (W.contents writer.old) (W.contents writer.new) }
    ensures refused { IfErr result IsLineError }
{
    let mut number = 0;
    let mut turns = 0;
    let mut rest = script;
    while !rest.is_empty() {
        let (line, behind) = split_line(rest);
        number += 1;
        match run_line(board, number, turns, line, writer) {
            Ok(after) => turns = after,
            Err(error) => return Err(error),
        }
        rest = behind;
    }
    Ok(())
}

/// Does what the line with this number asks for after `turns` turns, and writes its answer. Returns how many turns
/// there are then.
fn run_line<M: Memory, W: Write>(
    board: &mut Debugged<M>,
    number: usize,
    turns: u64,
    line: &[u8],
    writer: &mut W,
) -> Result<u64, ScriptError>
    requires { turns ≤ 2 ^ 63 }
    ensures run { IsLineOf result number turns (extended_line_of line.now) board.old board.new
        (W.contents writer.old) (W.contents writer.new) }
    ensures within { IfOk result (λ t. t ≤ turns + 2 ^ 32) }
    ensures refused { IfErr result IsLineError }
{
    let Some(line) = ExtendedLine::read(line) else {
        return Err(ScriptError::BadToken(number));
    };
    match do_extended_line(board, turns, line, writer) {
        Ok(after) => Ok(after),
        Err(LinkFault) => Err(ScriptError::LinkFault),
    }
}
