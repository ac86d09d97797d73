//! Runs the script of a world, line by line.

ghost use Rattle.std.specs.Prelude.{◌≡◌, ◌⊎◌, ◌^◌, ◌<◌, length, Err, IfErr, IfSome};
ghost use Rattle.rvm_board.specs.Guest.{Guest};
ghost use Rattle.rvm_protocol.specs.Shown.{Shown};
ghost use Rattle.rvm_protocol.specs.Told.{Told};
ghost use Rattle.rvm_debug.specs.Words.{lines};
ghost use Rattle.rvm_core.specs.NeverMoved.{NeverMoved};
ghost use Rattle.rvm_core.specs.Worlds.{world_of};
ghost use Rattle.rvm_core.specs.WorldLines.{world_line_of};
ghost use Rattle.rvm_core.specs.declared.script.WorldScriptError.TheVariants.{OutOfMemory, TooLong};
ghost use Rattle.rvm_core.specs.Runs.{IsLineError, IsLineRun, IsUnread, IsWorldRun, standing};

use crate::script_lines::{LineFault, do_line};
use crate::world::World;
use crate::world_line::WorldLine;
use rvm_debug::{ScriptError, read_script, split_line};
use rvm_mem::PagedMemory;
use std::alloc::Global;
use std::io::{Read, Write};
use thiserror::Error;

/// Why the script of a world was not begun, or stopped before its end.
#[derive(Clone, Copy, Debug, PartialEq, Eq, Error)]
pub enum WorldScriptError {
    /// Memory ran out while the script was read.
    #[error("out of memory")]
    OutOfMemory,
    /// Memory ran out in the line with this number, counted from 1.
    #[error("out of memory in line {0}")]
    LineOutOfMemory(usize),
    /// The script has more than 2^26 bytes.
    #[error("the script has more than 2^26 bytes")]
    TooLong,
    /// The line with this number, counted from 1, is not in the grammar.
    #[error("line {0} is not in the grammar")]
    BadToken(usize),
    /// A read or a write failed; part of an answer may have been written.
    #[error("a read or a write failed")]
    LinkFault,
}

/// Does what each line of a script asks for, in order, and writes the answers. The script is all that `reader` gives,
/// and is read before the first answer is written. A line without a letter goes to the host that has the guest: in a
/// new world the first host, in any other the one that its modes show.
///
/// Fails with `TooLong` if the script has more than 2^26 bytes, and with `OutOfMemory` if memory runs out while it is
/// read: then nothing was written, and the world is unchanged. Fails with `BadToken` at the first line that is not in
/// the grammar: the answers of the lines before it are written, and the world is as they left it. Fails with
/// `LineOutOfMemory` at a line for which memory runs out: the same holds, but if the line is a whole move, its first
/// events may have been made; a line for the guest takes no memory. Fails with `LinkFault` if a read or a write
/// fails. If a read failed, no line was done; if a write failed, each line up to the one whose answer was not written
/// was done to its end, and no other line was begun.
#[tactic(auto, using(crate::proofs::NeverMoving::never_moved))]
pub fn run_world_script<M: PagedMemory + Drop, R: Read, W: Write>(
    alloc: Global,
    world: &mut World<M>,
    reader: &mut R,
    writer: &mut W,
) -> Result<(), WorldScriptError>
    ensures run { IfSome (R.remaining reader.old) (λ script.
        (t : Told Guest) → Shown (world_of world.old).hosts t
        → IsWorldRun result (lines script) (record { world = world_of world.old; told = t }) (world_of world.new)
        (W.contents writer.old) (W.contents writer.new)) }
    ensures long { IfSome (R.remaining reader.old) (λ script. 2 ^ 26 < length script
        → IsUnread result × (world.new ≡ world.old)
        × (W.contents writer.new ≡ W.contents writer.old)) }
    ensures too_long { result ≡ Err TooLong
        → IfSome (R.remaining reader.old) (λ script. 2 ^ 26 < length script) }
    ensures unread { (result ≡ Err TooLong) ⊎ (result ≡ Err OutOfMemory)
        → (world.new ≡ world.old) × (W.contents writer.new ≡ W.contents writer.old) }
    // The guest never moved, also in a script that ends early.
    ensures never_moved { NeverMoved (world_of world.old) (world_of world.new) }
{
    world.reached();
    match read_script(alloc, reader) {
        Ok(script) => run_lines(alloc, world, &script, writer),
        Err(ScriptError::OutOfMemory) => Err(WorldScriptError::OutOfMemory),
        Err(ScriptError::TooLong) => Err(WorldScriptError::TooLong),
        Err(_) => Err(WorldScriptError::LinkFault),
    }
}

/// Does what each line of a script that was read asks for, in order, and writes the answers. Fails at a line as
/// `run_world_script` does.
fn run_lines<M: PagedMemory + Drop, W: Write>(
    alloc: Global,
    world: &mut World<M>,
    script: &[u8],
    writer: &mut W,
) -> Result<(), WorldScriptError>
    ensures run { (t : Told Guest) → Shown (world_of world.old).hosts t
        → IsWorldRun result (lines script.now) (standing (world_of world.old) t) (world_of world.new)
        (W.contents writer.old) (W.contents writer.new) }
    ensures refused { IfErr result IsLineError }
{
    world.reached();
    let mut number = 0;
    let mut rest = script;
    while !rest.is_empty() {
        let (line, behind) = split_line(rest);
        number += 1;
        if let Err(error) = run_line(alloc, world, number, line, writer) {
            return Err(error);
        }
        rest = behind;
    }
    Ok(())
}

/// Does what the line with this number asks for, and writes its answer. Fails as `run_world_script` does at a line.
fn run_line<M: PagedMemory + Drop, W: Write>(
    alloc: Global,
    world: &mut World<M>,
    number: usize,
    line: &[u8],
    writer: &mut W,
) -> Result<(), WorldScriptError>
    ensures run { (t : Told Guest) → Shown (world_of world.old).hosts t
        → IsLineRun result number (world_line_of (world_of world.old).count line.now)
        (standing (world_of world.old) t) (world_of world.new)
        (W.contents writer.old) (W.contents writer.new) }
    ensures refused { IfErr result IsLineError }
{
    let Some(line) = WorldLine::read(line, world.hosts()) else {
        return Err(WorldScriptError::BadToken(number));
    };
    match do_line(alloc, world, line, writer) {
        Ok(()) => Ok(()),
        Err(LineFault::OutOfMemory) => Err(WorldScriptError::LineOutOfMemory(number)),
        Err(LineFault::LinkFault) => Err(WorldScriptError::LinkFault),
    }
}
