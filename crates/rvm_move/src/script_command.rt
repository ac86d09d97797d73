//! `rvmove script`: answers a script for hosts between which a guest moves.

ghost use Rattle.std.specs.Prelude.{◌≡◌, ◌⊎◌, None, Result, IfOk, IfErr, OnOk, false};
ghost use Rattle.std.specs.Io.Buffered.{writer_contents};
ghost use Rattle.rvm_command.specs.declared.refused.Refused.{Refused};
ghost use Rattle.rvm_command.specs.Command.{image_of};
ghost use Rattle.rvm_command.specs.Ends.{HasStatus, IsLoadable};
ghost use Rattle.rvm_command.specs.Flushed.{is_flushed};
ghost use Rattle.rvm_command.specs.Refusals.{IsTold, refused};
ghost use Rattle.rvm_board.specs.Guest.{Guest};
ghost use Rattle.rvm_protocol.specs.Shown.{Shown};
ghost use Rattle.rvm_protocol.specs.Told.{Told};
ghost use Rattle.rvm_refusal.specs.declared.refusal.Refusal.{Refusal};
ghost use Rattle.rvm_core.specs.Worlds.{is_sized, world_of};
ghost use Rattle.rvm_move.specs.ScriptEnds.{IsScriptEnd, IsWorldScriptEndOf};
ghost use Rattle.rvm_move.specs.FirstWorld.{limits_of, version_asked};
ghost use Rattle.rvm_core.specs.declared.script.WorldScriptError.TheVariants as error;
ghost use Rattle.rvm_core.specs.Runs.{standing};

use crate::first_world::load_world;
use crate::script_refused::refused_of;
use rvm_arguments::ScriptArguments;
use rvm_command::flush::flush;
use rvm_command::refused::{Refused, tell};
use rvm_core::{World, WorldScriptError, run_world_script};
use rvm_mem::PagedMemory;
use rvm_refusal::LinkFault;
use std::alloc::Global;
use std::io::{BufWriter, Read, Write};

/// Loads the guest of the file `image` into the first host of a world, does what each line of `script` asks for, and
/// writes the answers to `output`. Each host takes guests of up to 4096 pages.
///
/// Returns the status: 0, or 1 if it was refused; then `errors` gets the refusal in one line, and else nothing. These
/// refusals leave `output` unchanged: the fault of the file, `OutsideRam` if the image does not lie in RAM, `BadSize`
/// if this many hosts do not speak the version of the stream, `TooLong` if the script has more than 2^26 bytes, and
/// `OutOfMemory` at no line. `BadToken` comes with the number of the first line that is not in the grammar, and
/// `OutOfMemory` with the number of a line for which memory ran out, each after the answers to the lines before it.
/// `LinkFault` says that a read failed, or a write to `output`; then a part of the answers may have been written. With
/// the status 0, and after a refusal at a line, `output` is flushed. No clause says when a reader or a writer fails.
/// The error `LinkFault` says that a write to `errors` failed.
pub fn script_command<M: PagedMemory + Drop, R: Read, O: Write + Drop, E: Write>(
    alloc: Global,
    arguments: &ScriptArguments,
    image: &[u8],
    script: &mut R,
    output: &mut BufWriter<O>,
    errors: &mut E,
) -> Result<u8, LinkFault>
    ensures status { IfOk result (λ status. HasStatus status
        (λ end. IsScriptEnd arguments.now image.now (R.remaining script.old) end
        (writer_contents O.contents output.old) (writer_contents O.contents output.new))
        (E.contents errors.old) (E.contents errors.new)) }
    ensures out { IfOk result (λ status. status ≡ 0 → is_flushed output.new) }
    ensures lines { IfOk result (λ status. status ≡ 1 → is_flushed output.new
        ⊎ ((r : Refusal) × IsTold (refused r) (E.contents errors.old) (E.contents errors.new))) }
    ensures output { (end : Result (Unit {0}) Refused)
        × IsScriptEnd arguments.now image.now (R.remaining script.old) end
        (writer_contents O.contents output.old) (writer_contents O.contents output.new) }
    ensures unloadable { IsLoadable (image_of arguments.now.guest.raw image.now) arguments.now.guest.pages
        ⊎ (writer_contents O.contents output.new ≡ writer_contents O.contents output.old) }
    ensures size { is_sized (version_asked arguments.now) (limits_of arguments.now.hosts) ≡ false
        → writer_contents O.contents output.new ≡ writer_contents O.contents output.old }
{
    match answer_image::<M, R, O>(alloc, arguments, image, script, output) {
        Ok(()) => Ok(0),
        Err(refused) => tell(refused, errors),
    }
}

/// Makes the world and answers the script, or says why it was refused.
#[tactic(auto, using(crate::proofs::ScriptEnded::answered_first, crate::proofs::ScriptEnded::not_begun_at_no_line))]
fn answer_image<M: PagedMemory + Drop, R: Read, O: Write + Drop>(
    alloc: Global,
    arguments: &ScriptArguments,
    image: &[u8],
    script: &mut R,
    output: &mut BufWriter<O>,
) -> Result<(), Refused>
    ensures end { IsScriptEnd arguments.now image.now (R.remaining script.old) result
        (writer_contents O.contents output.old) (writer_contents O.contents output.new) }
    ensures out { OnOk result (is_flushed output.new) }
    ensures lines { IfErr result (λ r. is_flushed output.new ⊎ (r.line ≡ None)) }
    ensures unloadable { IsLoadable (image_of arguments.now.guest.raw image.now) arguments.now.guest.pages
        ⊎ (writer_contents O.contents output.new ≡ writer_contents O.contents output.old) }
    ensures size { is_sized (version_asked arguments.now) (limits_of arguments.now.hosts) ≡ false
        → writer_contents O.contents output.new ≡ writer_contents O.contents output.old }
{
    let mut world = load_world::<M>(alloc, arguments, image)?;
    match answer(alloc, &mut world, script, output) {
        Ok(()) => Ok(()),
        Err(error) => Err(refused_of(error)),
    }
}

/// Answers a script, and flushes the answers.
#[tactic(auto, using(crate::proofs::ScriptEnded::script_ended, crate::proofs::ScriptEnded::link_failed))]
fn answer<M: PagedMemory + Drop, R: Read, O: Write + Drop>(
    alloc: Global,
    world: &mut World<M>,
    script: &mut R,
    output: &mut BufWriter<O>,
) -> Result<(), WorldScriptError>
    ensures end { (t : Told Guest) → Shown (world_of world.old).hosts t
        → IsWorldScriptEndOf (R.remaining script.old) (standing (world_of world.old) t) result
        (writer_contents O.contents output.old) (writer_contents O.contents output.new) }
    ensures out { OnOk result (is_flushed output.new) }
    ensures lines { IfErr result (λ e. is_flushed output.new ⊎ (e ≡ error.LinkFault)) }
{
    let answered = run_world_script(alloc, world, script, output);
    match flush(output) {
        Ok(()) => answered,
        Err(LinkFault) => Err(WorldScriptError::LinkFault),
    }
}
