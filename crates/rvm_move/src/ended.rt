//! How a move ended, as text.

ghost use Rattle.std.specs.Prelude.{◌≡◌, ◌≢◌, ◌⊎◌, ◌↔◌, None, IfOk, OnErr, OnOk};
ghost use Rattle.std.specs.Io.KnownBytes.{Appends};
ghost use Rattle.rvm_recorder.specs.Replay.{IsReplay};
ghost use Rattle.rvm_move.specs.Ended.{IsFailureOf, IsSound, IsToldOf, end_line, ended_of, failure_line, first_fault, line_or, move_status, refusal_of_end, words_of};

use crate::answers::write_answers;
use crate::moving::Moved;
use rvm_arguments::StatusOf;
use rvm_cell::{TurnsEnd, WorkEnd};
use rvm_command::run::Ended;
use rvm_command::run_command::tell_run_end;
use rvm_mem::PagedMemory;
use rvm_recorder::CloseKind;
use rvm_refusal::{LinkFault, Refusal};
use std::alloc::Global;
use std::io::Write;

/// The refusal with which a worker ended, if it ended with one of the list.
fn refusal_of_end(end: WorkEnd) -> Option<Refusal>
    ensures { result ≡ refusal_of_end end }
{
    match end {
        WorkEnd::OutOfMemory => Some(Refusal::OutOfMemory),
        WorkEnd::RecorderFull(_) => Some(Refusal::RecorderFull),
        WorkEnd::OutOfRange => Some(Refusal::OutOfRange),
        WorkEnd::LinkFault => Some(Refusal::LinkFault),
        WorkEnd::BadFrame => Some(Refusal::BadFrame),
        WorkEnd::TooLong => Some(Refusal::TooLong),
        WorkEnd::Failed => Some(Refusal::Failed),
        WorkEnd::Done
        | WorkEnd::LinkEnded
        | WorkEnd::GivenUp
        | WorkEnd::Stopped
        | WorkEnd::GuestStopped
        | WorkEnd::NoThread => None,
    }
}

/// The words for a worker's end that is no refusal of the list: the guest stopped, the system started no thread, or the
/// worker was stopped at its gate.
fn words_of(end: WorkEnd) -> &'static str
    ensures { result.now ≡ words_of end }
{
    match end {
        WorkEnd::GuestStopped => "guest stopped between hosts",
        WorkEnd::NoThread => "no thread was had for the workers at the other host",
        _ => "the gate let no further call pass",
    }
}

/// Writes why a worker failed: a refusal of the list, or in words.
fn write_end<E: Write>(errors: &mut E, end: WorkEnd) -> Result<(), LinkFault>
    ensures { OnOk result (Appends (E.contents errors.old) (E.contents errors.new)
        (line_or (refusal_of_end end) (words_of end))) }
{
    match refusal_of_end(end) {
        Some(refusal) => writeln!(errors, "{refusal}")?,
        None => writeln!(errors, "{}", words_of(end))?,
    }
    Ok(())
}

/// Reports why the move failed, if it did: the first end of a worker with which it fails, else the first host's fault,
/// else the second's. Returns the status: 0, or 1 if it failed. `LinkFault` if the report cannot be written.
pub(crate) fn tell_failure<M: PagedMemory + Drop, E: Write>(
    moved: &Moved<M>,
    errors: &mut E,
) -> Result<u8, LinkFault>
    ensures status { IfOk result (λ status. (status ≡ 0) ⊎ (status ≡ 1)) }
    ensures sound { IfOk result (λ status. status ≡ 0
        ↔ IsSound moved.now.ends moved.now.a.fault moved.now.b.fault) }
    ensures silent { IfOk result (λ status. status ≡ 0 → E.contents errors.new ≡ E.contents errors.old) }
    ensures told { OnOk result (Appends (E.contents errors.old) (E.contents errors.new)
        (failure_line moved.now.ends moved.now.a.fault moved.now.b.fault)) }
    ensures untold { OnErr result (IsSound moved.now.ends moved.now.a.fault moved.now.b.fault → ⊥) }
{
    if let Some(end) = moved.ends.failure() {
        write_end(errors, end)?;
        return Ok(1);
    }
    match first_fault(moved.a.fault, moved.b.fault) {
        None => Ok(0),
        Some(kind) => {
            writeln!(errors, "{}", Refusal::from(kind))?;
            Ok(1)
        }
    }
}

/// The first of two faults, if there is one.
fn first_fault(a: Option<CloseKind>, b: Option<CloseKind>) -> Option<CloseKind>
    ensures first { result ≡ first_fault a b }
    ensures none { result ≡ None ↔ ((a ≡ None) × (b ≡ None)) }
{
    match a {
        Some(_) => a,
        None => b,
    }
}

/// How the turns of a guest that moved ended, in the terms of a run.
fn ended_of(end: TurnsEnd) -> Ended
    ensures { result ≡ ended_of end }
{
    match end {
        TurnsEnd::Halted(status) => Ended::HaltedWith(status),
        TurnsEnd::StepsSpent => Ended::StepsSpent,
    }
}

/// Reports how the turns of a guest ended, if a `verdict` on that is asked for. Returns the status. `LinkFault` if the
/// report cannot be written.
fn tell_turns<E: Write>(
    harts: Result<TurnsEnd, WorkEnd>,
    verdict: bool,
    errors: &mut E,
) -> Result<u8, LinkFault>
    ensures { IfOk result (λ status. IfOk harts (λ end. (status ≡ move_status verdict end)
        × Appends (E.contents errors.old) (E.contents errors.new) (end_line verdict end))) }
{
    let Ok(end) = harts else {
        return Ok(0);
    };
    if verdict {
        tell_run_end(ended_of(end), StatusOf::Verdict, errors)
    } else {
        Ok(0)
    }
}

/// Writes the replies of both hosts, the first one's before the second's, and then reports why the move failed, if it
/// did, or how the guest's turns ended, if a `verdict` on that is asked for. Returns the status: 1 if the move failed,
/// else the status of that end. `LinkFault` if a write fails.
pub(crate) fn tell_moved<M: PagedMemory + Drop, E: Write>(
    alloc: Global,
    moved: &Moved<M>,
    verdict: bool,
    errors: &mut E,
) -> Result<u8, LinkFault>
    ensures told { IfOk result (λ status. status ≢ 1 → IsToldOf verdict status moved.now.ends moved.now.a.fault
        moved.now.b.fault moved.now.a.recorded.journal moved.now.b.recorded.journal
        (E.contents errors.old) (E.contents errors.new)) }
    ensures failed { IfOk result (λ status. status ≡ 1
        → IsFailureOf moved.now.ends moved.now.a.fault moved.now.b.fault moved.now.a.recorded.journal
        moved.now.b.recorded.journal (E.contents errors.old) (E.contents errors.new)) }
    ensures replay { IsReplay moved.now.a.recorded.journal.opening moved.now.a.recorded.journal.entries
        × IsReplay moved.now.b.recorded.journal.opening moved.now.b.recorded.journal.entries }
{
    let a = moved.a.recorded.journal().items();
    let b = moved.b.recorded.journal().items();
    write_answers(alloc, errors, a)?;
    write_answers(alloc, errors, b)?;
    let failure = tell_failure(moved, errors)?;
    if failure != 0 {
        return Ok(failure);
    }
    tell_turns(moved.ends.harts, verdict, errors)
}
