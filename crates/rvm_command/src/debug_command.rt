//! `rvmove debug`: answers a debugger's script, or an extended session.

ghost use Rattle.std.specs.Prelude.{◌≡◌, ◌⊎◌, ◌<◌, ◌^◌, None, Result, IfOk, IfErr, IfSome, OnOk, length};
ghost use Rattle.std.specs.Io.Buffered.{writer_contents};
ghost use Rattle.rvm_command.specs.declared.refused.Refused.{Refused};
ghost use Rattle.rvm_command.specs.Command.{image_of};
ghost use Rattle.rvm_command.specs.Ends.{HasStatus, IsDebugEnd, IsLoadable, IsSessionEndOf};
ghost use Rattle.rvm_command.specs.ExtendedRuns.{IsRunOf};
ghost use Rattle.rvm_command.specs.Flushed.{is_flushed};
ghost use Rattle.rvm_command.specs.Refusals.{IsTold, refused};
ghost use Rattle.rvm_refusal.specs.declared.refusal.Refusal.{Refusal};
ghost use Rattle.rvm_debug.specs.Words.{lines};
ghost use Rattle.rvm_debug.specs.declared.script.ScriptError.TheVariants as script;

use crate::extended_script::run_session;
use crate::flush::flush;
use crate::guest::load_guest;
use crate::refused::{Refused, tell};
use rvm_arguments::DebugArguments;
use rvm_board::Debugged;
use rvm_debug::{ScriptError, run_script};
use rvm_mem::{Memory, PagedMemory};
use rvm_refusal::LinkFault;
use std::alloc::Global;
use std::io::{BufWriter, Read, Write};

/// Loads the guest of the file `image`, does what each line of the script in `reader` asks for, and writes the answers
/// to `output`. An extended session has more kinds of lines than a script.
///
/// Returns the status: 0, or 1 if it was refused; then `errors` gets the refusal in one line, and else nothing. These
/// refusals leave `output` unchanged: the fault of the file, `OutsideRam` if the image does not lie in RAM, `TooLong`
/// if the script has more than 2^26 bytes, and `OutOfMemory`. `BadToken` comes with the number of the first line that
/// is not in the grammar, after the answers to the lines before it. `LinkFault` says that a read failed, or a write to
/// `output`; then a part of the answers may have been written. With the status 0, and after a refusal at a line,
/// `output` is flushed. No clause says when a reader or a writer fails. The error `LinkFault` says that a write to
/// `errors` failed.
pub fn debug_command<M: PagedMemory + Drop, R: Read, O: Write + Drop, E: Write>(
    alloc: Global,
    arguments: &DebugArguments,
    image: &[u8],
    reader: &mut R,
    output: &mut BufWriter<O>,
    errors: &mut E,
) -> Result<u8, LinkFault>
    ensures status { IfOk result (λ status. HasStatus status
        (λ end. IsDebugEnd arguments.now image.now (R.remaining reader.old) end
        (writer_contents O.contents output.old) (writer_contents O.contents output.new))
        (E.contents errors.old) (E.contents errors.new)) }
    ensures out { IfOk result (λ status. status ≡ 0 → is_flushed output.new) }
    ensures lines { IfOk result (λ status. status ≡ 1 → is_flushed output.new
        ⊎ ((r : Refusal) × IsTold (refused r) (E.contents errors.old) (E.contents errors.new))) }
    ensures output { (end : Result (Unit {0}) Refused)
        × IsDebugEnd arguments.now image.now (R.remaining reader.old) end
        (writer_contents O.contents output.old) (writer_contents O.contents output.new) }
    ensures unloadable { IsLoadable (image_of arguments.now.guest.raw image.now) arguments.now.guest.pages
        ⊎ (writer_contents O.contents output.new ≡ writer_contents O.contents output.old) }
{
    match debug::<M, R, O>(alloc, arguments, image, reader, output) {
        Ok(()) => Ok(0),
        Err(refused) => tell(refused, errors),
    }
}

/// Loads the guest and answers the script, or says why it was refused.
#[tactic(auto, using(crate::proofs::Refusals::not_loaded_at_no_line))]
fn debug<M: PagedMemory + Drop, R: Read, O: Write + Drop>(
    alloc: Global,
    arguments: &DebugArguments,
    image: &[u8],
    reader: &mut R,
    output: &mut BufWriter<O>,
) -> Result<(), Refused>
    ensures end { IsDebugEnd arguments.now image.now (R.remaining reader.old) result
        (writer_contents O.contents output.old) (writer_contents O.contents output.new) }
    ensures out { OnOk result (is_flushed output.new) }
    ensures lines { IfErr result (λ r. is_flushed output.new ⊎ (r.line ≡ None)) }
    ensures unloadable { IsLoadable (image_of arguments.now.guest.raw image.now) arguments.now.guest.pages
        ⊎ (writer_contents O.contents output.new ≡ writer_contents O.contents output.old) }
{
    let mut guest = load_guest::<M>(alloc, &arguments.guest, image)?;
    answer(alloc, &mut guest, arguments.extended, reader, output)?;
    Ok(())
}

/// Answers an extended session, or else a script, and flushes the answers. Fails as `run_session` and `run_script` do,
/// and with `LinkFault` if the answers cannot be flushed.
#[tactic(auto, using(crate::proofs::SessionsEnded::either_ended, crate::proofs::SessionsEnded::either_failed))]
pub fn answer<M: Memory, R: Read, O: Write + Drop>(
    alloc: Global,
    guest: &mut Debugged<M>,
    extended: bool,
    reader: &mut R,
    output: &mut BufWriter<O>,
) -> Result<(), ScriptError>
    ensures end { IsSessionEndOf extended (R.remaining reader.old) guest.old.guest result
        (writer_contents O.contents output.old) (writer_contents O.contents output.new) }
    ensures out { OnOk result (is_flushed output.new) }
    ensures lines { IfErr result (λ e. is_flushed output.new ⊎ (e ≡ script.LinkFault)) }
{
    let answered = answer_lines(alloc, guest, extended, reader, output);
    match flush(output) {
        Ok(()) => answered,
        Err(LinkFault) => Err(ScriptError::LinkFault),
    }
}

/// Answers an extended session, or else a script.
fn answer_lines<M: Memory, R: Read, O: Write + Drop>(
    alloc: Global,
    guest: &mut Debugged<M>,
    extended: bool,
    reader: &mut R,
    output: &mut BufWriter<O>,
) -> Result<(), ScriptError>
    ensures run { IfSome (R.remaining reader.old) (λ s. IsRunOf extended result (lines s) guest.old guest.new
        (writer_contents O.contents output.old) (writer_contents O.contents output.new)) }
    ensures too_long { result ≡ Err script.TooLong → IfSome (R.remaining reader.old) (λ s. 2 ^ 26 < length s) }
{
    if extended {
        run_session(alloc, guest, reader, output)
    } else {
        run_script(alloc, guest, reader, output)
    }
}
