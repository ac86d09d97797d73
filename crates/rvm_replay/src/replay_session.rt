//! `rvmove replay` with a script: a session of the debugger with the guest that is at the host of a journal after what
//! the host did.

ghost use Rattle.std.specs.Prelude.{◌≡◌, List, ℕ, IfOk, OnErr, OnOk, Some, option_map};
ghost use Rattle.std.specs.Io.Buffered.{writer_contents};
ghost use Rattle.std.specs.Io.KnownBytes.{Appends};
ghost use Rattle.rvm_command.specs.Flushed.{is_flushed};
ghost use Rattle.rvm_board.specs.Guest.{GuestState};
ghost use Rattle.rvm_journal.specs.Whole.{IsJournal};
ghost use Rattle.rvm_replay.specs.Replays.{HasAnswerStatus, HasSessionStatus, IsUntold, no_guest_line};

use crate::hosts::host_of_journal;
use crate::report::report_fault;
use rvm_board::Debugged;
use rvm_command::debug_command::answer;
use rvm_command::refused::{Refused, tell};
use rvm_mem::PagedMemory;
use rvm_refusal::LinkFault;
use std::alloc::Global;
use std::io::{BufRead, BufWriter, Read, Write};

/// Makes the host of a journal anew, which is read from `journal`, has it do again what the journal tells, or only the first
/// `until` events, and hands the guest that is then at the host to the debugger: does what each line of the extended session in
/// `reader` asks for, and writes the answers to `output`. What the guest sent before is not written. `name` is the journal's
/// file; `image` is the file of the image with which the host began, and is not used if it began without a guest.
///
/// Returns the status: 0 if all lines were answered, and then `output` is flushed, and `errors` gets nothing; 1 if the
/// journal is refused, if no guest is at the host, if the session is refused, or if a read or a write to `output` fails,
/// and then `errors` says why. The error `LinkFault` says that a write to `errors` failed.
pub fn replay_session<M: PagedMemory + Drop, I: BufRead + Drop, R: Read, O: Write + Drop, E: Write>(
    alloc: Global,
    name: &str,
    journal: I,
    image: &[u8],
    until: Option<u64>,
    reader: &mut R,
    output: &mut BufWriter<O>,
    errors: &mut E,
) -> Result<u8, LinkFault>
    ensures status { IfOk result (λ status. (text : List ℕ) × IsJournal (I.remaining journal) text
        × HasSessionStatus status name.now until text image.now (R.remaining reader.old)
        (writer_contents O.contents output.old) (writer_contents O.contents output.new)
        (E.contents errors.old) (E.contents errors.new)) }
    ensures out { IfOk result (λ status. status ≡ 0 → is_flushed output.new) }
    ensures untold { OnErr result ((text : List ℕ) × IsJournal (I.remaining journal) text
        × IsUntold (λ status before after. HasSessionStatus status name.now until text
        image.now (R.remaining reader.old) (writer_contents O.contents output.old)
        (writer_contents O.contents output.new) before after)) }
{
    match host_of_journal::<M, (), I>(alloc, journal, image, until) {
        Ok(done) => session_at(alloc, name, done.guest, done.count, reader, output, errors),
        Err(fault) => {
            report_fault(name, fault, errors)?;
            Ok(1)
        }
    }
}

/// Answers a session for the guest that is at a host after this many events, or reports that none is there. Returns the
/// status.
fn session_at<M: PagedMemory + Drop, R: Read, O: Write + Drop, E: Write>(
    alloc: Global,
    name: &str,
    guest: Option<Debugged<M>>,
    count: u64,
    reader: &mut R,
    output: &mut BufWriter<O>,
    errors: &mut E,
) -> Result<u8, LinkFault>
    ensures status { IfOk result (λ status. HasAnswerStatus status name.now
        (option_map (λ (g : GuestState). g.guest) guest) count (R.remaining reader.old)
        (writer_contents O.contents output.old) (writer_contents O.contents output.new)
        (E.contents errors.old) (E.contents errors.new)) }
    ensures out { IfOk result (λ status. status ≡ 0 → is_flushed output.new) }
    ensures untold { OnErr result (IsUntold (λ status before after. HasAnswerStatus status name.now (option_map (λ (g : GuestState). g.guest) guest)
        count (R.remaining reader.old) (writer_contents O.contents output.old)
        (writer_contents O.contents output.new) before after)) }
{
    match guest {
        Some(guest) => session_of(alloc, guest, reader, output, errors),
        None => {
            report_no_guest(name, count, errors)?;
            Ok(1)
        }
    }
}

/// Reports that no guest is at a host after this many events.
fn report_no_guest<E: Write>(name: &str, count: u64, errors: &mut E) -> Result<(), LinkFault>
    ensures { OnOk result (Appends (E.contents errors.old) (E.contents errors.new) (no_guest_line name.now count)) }
{
    writeln!(errors, "{name}: no guest is here after {count} events")?;
    Ok(())
}

/// Answers a session for a guest, or reports why it is refused. Returns the status.
fn session_of<M: PagedMemory + Drop, R: Read, O: Write + Drop, E: Write>(
    alloc: Global,
    guest: Debugged<M>,
    reader: &mut R,
    output: &mut BufWriter<O>,
    errors: &mut E,
) -> Result<u8, LinkFault>
    ensures status { (name : List ℕ) (count : ℕ) → IfOk result (λ status. HasAnswerStatus status name (Some guest.guest)
        count (R.remaining reader.old) (writer_contents O.contents output.old) (writer_contents O.contents output.new)
        (E.contents errors.old) (E.contents errors.new)) }
    ensures out { IfOk result (λ status. status ≡ 0 → is_flushed output.new) }
    ensures untold { (name : List ℕ) (count : ℕ) → OnErr result (IsUntold (λ status before after. HasAnswerStatus status
        name (Some guest.guest) count (R.remaining reader.old) (writer_contents O.contents output.old)
        (writer_contents O.contents output.new) before after)) }
{
    let mut guest = guest;
    let answered = answer(alloc, &mut guest, true, reader, output);
    drop(guest);
    match answered {
        Ok(()) => Ok(0),
        Err(why) => {
            let _status = tell(Refused::from(why), errors)?;
            Ok(1)
        }
    }
}
