//! A script: its lines in order.

ghost use Rattle.std.specs.Prelude.{◌≡◌, ◌⊎◌, ◌∷◌, ◌^◌, ◌<◌, ◌≤◌, length, IfOk, IfErr, IfSome};
ghost use Rattle.rvm_debug.specs.declared.script.ScriptError.TheVariants.{OutOfMemory, TooLong};
ghost use Rattle.rvm_debug.specs.Words.{lines};
ghost use Rattle.rvm_debug.specs.Lines.{line_of};
ghost use Rattle.rvm_debug.specs.Runs.{IsRun, IsUnread, IsReadError, IsLineError, IsLineRun, refusal_of_error};

use crate::line::Line;
use crate::lines::do_line;
use rvm_board::Debugged;
use rvm_mem::Memory;
use rvm_refusal::{LinkFault, Refusal};
use std::alloc::Global;
use std::io::{ErrorKind, Read, Write};
use thiserror::Error;

/// The most bytes of a script.
pub const MAX_SCRIPT_SIZE: usize = 1 << 26;

/// Why a script was not begun, or ended before its end.
#[derive(Clone, Copy, Debug, PartialEq, Eq, Error)]
pub enum ScriptError {
    /// Memory ran out while the script was read.
    #[error("memory ran out")]
    OutOfMemory,
    /// The script has more than 2^26 bytes.
    #[error("the script has more than 2^26 bytes")]
    TooLong,
    /// The line with this number, counted from 1, is not in the grammar.
    #[error("line {0} is not in the grammar")]
    BadToken(usize),
    /// A read or a write failed; a part of what was to be written may have gone out.
    #[error("a read or a write failed")]
    LinkFault,
}

impl From<ScriptError> for Refusal {
    ghost from_gives = { λ error refusal. refusal ≡ refusal_of_error error };

    fn from(error: ScriptError) -> Refusal {
        match error {
            ScriptError::OutOfMemory => Refusal::OutOfMemory,
            ScriptError::TooLong => Refusal::TooLong,
            ScriptError::BadToken(_) => Refusal::BadToken,
            ScriptError::LinkFault => Refusal::LinkFault,
        }
    }
}

/// Does what each line of a script asks for, in order, and writes the answers. The script is all that `reader` gives.
/// It is read as a whole before the first line is done.
///
/// `TooLong` if the script has more than 2^26 bytes, and `OutOfMemory` if memory runs out: then nothing was written,
/// and the board is unchanged. `BadToken` at the first line that is not in the grammar: the lines before it were done,
/// and their answers are written. `LinkFault` if a read or a write fails. After a failed read, no line was done. After
/// a failed write, each line up to the one whose answer was being written was done to its end, and part of the answers
/// may have been written.
pub fn run_script<M: Memory, R: Read, W: Write>(
    alloc: Global,
    board: &mut Debugged<M>,
    reader: &mut R,
    writer: &mut W,
) -> Result<(), ScriptError>
    ensures run { IfSome (R.remaining reader.old) (λ script.
        IsRun result (lines script) board.old board.new
        (W.contents writer.old) (W.contents writer.new)) }
    ensures long { IfSome (R.remaining reader.old) (λ script. 2 ^ 26 < length script
        → IsUnread result × (board.new ≡ board.old)
        × (W.contents writer.new ≡ W.contents writer.old)) }
    ensures too_long { result ≡ Err TooLong
        → IfSome (R.remaining reader.old) (λ script. 2 ^ 26 < length script) }
    ensures unread { (result ≡ Err TooLong) ⊎ (result ≡ Err OutOfMemory)
        → (board.new ≡ board.old) × (W.contents writer.new ≡ W.contents writer.old) }
{
    match read_script(alloc, reader) {
        Ok(script) => run_lines(board, &script, writer),
        Err(error) => Err(error),
    }
}

/// All that a reader gives, at most the bytes of a script.
///
/// `TooLong` if it gives more than 2^26 bytes, `OutOfMemory` if memory runs out, and `LinkFault` if a read fails.
pub fn read_script<R: Read>(alloc: Global, reader: &mut R) -> Result<Vec<u8>, ScriptError>
    ensures bytes { IfOk result (λ v. IfSome (R.remaining reader.old) (λ script.
        (v.items ≡ script) × (length script ≤ 2 ^ 26))) }
    ensures refused { IfErr result (λ e. IsReadError (R.remaining reader.old) e) }
{
    let mut bytes = Vec::new(alloc);
    let mut limited = reader.take(MAX_SCRIPT_SIZE as u64 + 1);
    if let Err(error) = limited.read_to_end(&mut bytes) {
        if error.kind() == ErrorKind::OutOfMemory {
            return Err(ScriptError::OutOfMemory);
        }
        return Err(ScriptError::LinkFault);
    }
    if bytes.len() > MAX_SCRIPT_SIZE {
        return Err(ScriptError::TooLong);
    }
    Ok(bytes)
}

/// Does what each line of a script asks for, in order, and writes the answers. Ends at the first line that fails.
fn run_lines<M: Memory, W: Write>(
    board: &mut Debugged<M>,
    script: &[u8],
    writer: &mut W,
) -> Result<(), ScriptError>
    ensures run { IsRun result (lines script.now) board.old board.new
        (W.contents writer.old) (W.contents writer.new) }
    ensures refused { IfErr result IsLineError }
{
    let mut number = 0;
    let mut rest = script;
    while !rest.is_empty() {
        let (line, behind) = split_line(rest);
        number += 1;
        if let Err(error) = run_line(board, number, line, writer) {
            return Err(error);
        }
        rest = behind;
    }
    Ok(())
}

/// Does what the line with this number asks for, and writes its answer.
fn run_line<M: Memory, W: Write>(
    board: &mut Debugged<M>,
    number: usize,
    line: &[u8],
    writer: &mut W,
) -> Result<(), ScriptError>
    ensures run { IsLineRun result number (line_of line.now) board.old board.new
        (W.contents writer.old) (W.contents writer.new) }
    ensures refused { IfErr result IsLineError }
{
    let Some(line) = Line::read(line) else {
        return Err(ScriptError::BadToken(number));
    };
    match do_line(board, line, writer) {
        Ok(()) => Ok(()),
        Err(LinkFault) => Err(ScriptError::LinkFault),
    }
}

/// The first line of `bytes`, which are at least one, without its line feed; and the bytes after that line feed.
#[tactic(auto, using(crate::proofs::Reading::line_reading))]
pub fn split_line(bytes: &[u8]) -> (&[u8], &[u8])
    requires { 0 < length bytes.now }
    ensures lines { lines bytes.now ≡ result.0.now ∷ lines result.1.now }
    ensures shorter { length result.1.now < length bytes.now }
{
    for (at, b) in bytes.iter().enumerate() {
        if *b == b'\n' {
            return (&bytes[..at], &bytes[at + 1..]);
        }
    }
    (bytes, &bytes[bytes.len()..])
}
