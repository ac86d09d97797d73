//! `rvmove run`: runs the guest of an image, or a saved guest, and reports how that ended.

ghost use Rattle.std.specs.Prelude.{◌≡◌, ◌≤◌, ◌⊎◌, ◌++◌, ℕ, [], true, List, None, Result, OnErr, OnOk, IfErr, IfOk, codes, length};
ghost use Rattle.std.specs.Io.KnownBytes.{Appends, Keeps};
ghost use Rattle.rvm_arguments.specs.declared.arguments.StatusOf.TheVariants as tells;
ghost use Rattle.rvm_command.specs.declared.refused.Refused.{Refused};
ghost use Rattle.rvm_command.specs.Refusals.{refused};
ghost use Rattle.rvm_command.specs.declared.run.Ended.{Ended};
ghost use Rattle.rvm_refusal.specs.declared.refusal.Refusal.TheVariants.{OutOfMemory};
ghost use Rattle.rvm_guest.specs.Pages.{count_of};
ghost use Rattle.rvm_command.specs.Saved.{IsSavedGuest};
ghost use Rattle.rvm_command.specs.Command.{end_text, guest_of, image_of};
ghost use Rattle.rvm_command.specs.Ends.{CanBegin, CanRun, CanRunSaved, IsFaultOf, IsFileRefusal, IsImageRunEnd, IsLoadable, IsRunEnd, IsSavedRunEnd, IsTraced, RunHasStatus, Writes, run_status};
ghost use Rattle.rvm_asm.specs.Images.{Piece};
ghost use Rattle.rvm_command.specs.Counting.{AreRuns, Covers, is_counted, wants_counts};
ghost use Rattle.rvm_command.specs.Reports.{report_text};
ghost use Rattle.rvm_command.specs.SymbolLines.{refused_line};
ghost use Rattle.rvm_command.specs.Watched.{HasRun, run_with, traced_of};

use crate::coverage::Counts;
use crate::fault::write_fault;
use crate::guest::{image_of, load_guest};
use crate::refused::{Refused, tell};
use crate::report::{Kept, write_report};
use crate::restore::{is_saved, restore_guest};
use crate::run::Ended;
use crate::saved_fault::SaveFault;
use crate::symbols::check_symbols;
use crate::watched::run_asked;
use rvm_arguments::{
    GuestArguments, Report, ReportArguments, RunArguments, StatusOf, TraceArguments,
};
use rvm_board::Debugged;
use rvm_mem::{Memory, PAGE_SIZE, PagedMemory};
use rvm_refusal::{LinkFault, Refusal};
use std::alloc::Global;
use std::io::Write;

/// The number of words of a page.
const PAGE_WORDS: u32 = PAGE_SIZE / 4;

/// The verdict on a guest that halted with a status other than 0.
const FAILED: u8 = 3;

/// The status if all steps were spent: as the verdict, and in place of the guest's own status.
const SPENT: u8 = 4;

/// The status if the run ended at a fault: as the verdict, and in place of the guest's own status.
const FAULTED: u8 = 5;

/// The files that a run writes beside its output.
#[derive(Drop)]
pub struct RunFiles<T, R> {
    /// Gets the lines of the trace, if one is asked for.
    pub trace: T,
    /// Gets the report, if one is asked for.
    pub report: R,
}

/// Runs the guest of the file `image`, whose console gets `input`. A file that begins with a byte 0 is read as a saved
/// guest, unless the arguments say that it is plain bytes. What the guest sends goes to `output`, the lines of the steps
/// that `arguments.trace` asks for to `files.trace`, and after the last turn what `arguments.report` asks for to
/// `files.report`. `symbols` is the file of the symbols of a profile, and empty if no profile is asked for.
///
/// Returns the status: what `arguments.status` asks for, or 1 if the run was refused. `errors` gets one line: how the
/// run ended, or the refusal. `BadToken` with the number of the first line of `symbols` that is refused, the fault of
/// the file, `OutsideRam` if the image does not lie in RAM, and `OutOfMemory` leave `output` and `files` unchanged, but
/// that memory may also run out as the guest is saved after its last turn. Then, and with `LinkFault`, which says that a
/// write to one of them failed, a part of what the guest sent, of the trace and of the report may have been written. No
/// clause says when a writer fails. The error `LinkFault` says that a write to `errors` failed.
pub fn run_command<M: PagedMemory + Drop, O: Write, T: Write, R: Write, E: Write>(
    alloc: Global,
    arguments: &RunArguments,
    image: &[u8],
    input: &[u8],
    symbols: &[u8],
    output: &mut O,
    files: &mut RunFiles<T, R>,
    errors: &mut E,
) -> Result<u8, LinkFault>
    ensures status { IfOk result (λ status. RunHasStatus arguments.now.status status
        (λ end. IsRunEnd arguments.now image.now input.now symbols.now end
        (O.contents output.old) (O.contents output.new)
        (T.contents files.old.trace) (T.contents files.new.trace)
        (R.contents files.old.report) (R.contents files.new.report))
        (E.contents errors.old) (E.contents errors.new)) }
    ensures output { (end : Result Ended Refused) × IsRunEnd arguments.now image.now input.now symbols.now end
        (O.contents output.old) (O.contents output.new) (T.contents files.old.trace) (T.contents files.new.trace)
        (R.contents files.old.report) (R.contents files.new.report) }
    ensures unbegun { CanBegin arguments.now image.now symbols.now
        ⊎ ((O.contents output.new ≡ O.contents output.old)
        × (T.contents files.new.trace ≡ T.contents files.old.trace)
        × (R.contents files.new.report ≡ R.contents files.old.report)) }
{
    match run_file::<M, O, T, R>(alloc, arguments, image, input, symbols, output, files) {
        Ok(ended) => tell_run_end(ended, arguments.status, errors),
        Err(refused) => tell(refused, errors),
    }
}

/// Writes to `errors` how a run ended, in one line, and returns the status that was asked for. `LinkFault` if the write
/// fails.
pub fn tell_run_end<E: Write>(
    ended: Ended,
    asked: StatusOf,
    errors: &mut E,
) -> Result<u8, LinkFault>
    ensures { IfOk result (λ status. (status ≡ run_status asked ended)
        × Appends (E.contents errors.old) (E.contents errors.new) (end_text ended ++ codes "\n")) }
{
    write_end(&ended, errors)?;
    writeln!(errors)?;
    Ok(run_status(asked, ended))
}

/// Writes how a run ended, without a line feed: `halted S`, `steps spent`, or the fault. `LinkFault` if the write
/// fails.
fn write_end<E: Write>(ended: &Ended, errors: &mut E) -> Result<(), LinkFault>
    ensures { OnOk result (Appends (E.contents errors.old) (E.contents errors.new) (end_text ended.now)) }
{
    match ended {
        Ended::HaltedWith(status) => write!(errors, "halted {status}")?,
        Ended::StepsSpent => write!(errors, "steps spent")?,
        Ended::Fault(fault) => write_fault(fault, errors)?,
    }
    Ok(())
}

/// The status of a run that ended so, by what `asked` says that it tells.
fn run_status(asked: StatusOf, ended: Ended) -> u8
    ensures { result ≡ run_status asked ended }
{
    match asked {
        StatusOf::Command => 0,
        StatusOf::Verdict => verdict(ended),
        StatusOf::Guest => guest_status(ended),
    }
}

/// The verdict on a run: 0 if the guest halted with 0, 3 if with another status, 4 if all steps were spent, 5 if it
/// ended at a fault.
pub(crate) fn verdict(ended: Ended) -> u8
    ensures { result ≡ run_status tells.Verdict ended }
{
    match ended {
        Ended::HaltedWith(0) => 0,
        Ended::HaltedWith(_) => FAILED,
        Ended::StepsSpent => SPENT,
        Ended::Fault(_) => FAULTED,
    }
}

/// The status with which the guest halted; 4 if all steps were spent, 5 if the run ended at a fault.
fn guest_status(ended: Ended) -> u8
    ensures { result ≡ run_status tells.Guest ended }
{
    match ended {
        Ended::HaltedWith(status) => status,
        Ended::StepsSpent => SPENT,
        Ended::Fault(_) => FAULTED,
    }
}

/// Runs the guest of a file, which is a saved guest or an image. Returns how the run ended, or why it was refused.
#[tactic(auto, using(crate::proofs::SavedRuns::ended_saved, crate::proofs::SavedRuns::ended_image, crate::proofs::SavedRuns::begins_saved, crate::proofs::SavedRuns::begins_image))]
fn run_file<M: PagedMemory + Drop, O: Write, T: Write, R: Write>(
    alloc: Global,
    arguments: &RunArguments,
    image: &[u8],
    input: &[u8],
    symbols: &[u8],
    output: &mut O,
    files: &mut RunFiles<T, R>,
) -> Result<Ended, Refused>
    ensures end { IsRunEnd arguments.now image.now input.now symbols.now result
        (O.contents output.old) (O.contents output.new) (T.contents files.old.trace) (T.contents files.new.trace)
        (R.contents files.old.report) (R.contents files.new.report) }
    ensures unbegun { CanBegin arguments.now image.now symbols.now
        ⊎ ((O.contents output.new ≡ O.contents output.old)
        × (T.contents files.new.trace ≡ T.contents files.old.trace)
        × (R.contents files.new.report ≡ R.contents files.old.report)) }
{
    if is_saved(arguments.guest.raw, image) {
        run_saved::<M, O, T, R>(alloc, arguments, image, input, symbols, output, files)
    } else {
        run_image::<M, O, T, R>(alloc, arguments, image, input, symbols, output, files)
    }
}

/// Checks the symbols, reads the saved guest and runs it. Returns how the run ended, or why it was refused.
fn run_saved<M: PagedMemory + Drop, O: Write, T: Write, R: Write>(
    alloc: Global,
    arguments: &RunArguments,
    file: &[u8],
    input: &[u8],
    symbols: &[u8],
    output: &mut O,
    files: &mut RunFiles<T, R>,
) -> Result<Ended, Refused>
    ensures end { IsSavedRunEnd arguments.now file.now input.now symbols.now result
        (O.contents output.old) (O.contents output.new) (T.contents files.old.trace) (T.contents files.new.trace)
        (R.contents files.old.report) (R.contents files.new.report) }
    ensures unbegun { CanRunSaved file.now symbols.now
        ⊎ ((O.contents output.new ≡ O.contents output.old)
        × (T.contents files.new.trace ≡ T.contents files.old.trace)
        × (R.contents files.new.report ≡ R.contents files.old.report)) }
{
    check_symbols(symbols)?;
    run_checked_saved::<M, O, T, R>(alloc, arguments, file, input, symbols, output, files)
}

/// Reads the saved guest and runs it, by symbols that are good. Returns how the run ended, or why it was refused.
#[tactic(auto, using(crate::proofs::SavedRuns::not_read))]
fn run_checked_saved<M: PagedMemory + Drop, O: Write, T: Write, R: Write>(
    alloc: Global,
    arguments: &RunArguments,
    file: &[u8],
    input: &[u8],
    symbols: &[u8],
    output: &mut O,
    files: &mut RunFiles<T, R>,
) -> Result<Ended, Refused>
    requires { refused_line symbols.now ≡ None }
    ensures end { IsSavedRunEnd arguments.now file.now input.now symbols.now result
        (O.contents output.old) (O.contents output.new) (T.contents files.old.trace) (T.contents files.new.trace)
        (R.contents files.old.report) (R.contents files.new.report) }
    ensures unbegun { CanRunSaved file.now symbols.now
        ⊎ ((O.contents output.new ≡ O.contents output.old)
        × (T.contents files.new.trace ≡ T.contents files.old.trace)
        × (R.contents files.new.report ≡ R.contents files.old.report)) }
{
    let mut guest = restore_guest::<M>(alloc, file)?;
    run_restored(
        alloc, &mut guest, arguments, file, input, symbols, output, files,
    )
}

/// Runs a guest that was read from a file. Returns how the run ended, or why it was refused.
#[tactic(auto, using(crate::proofs::SavedRuns::broken, crate::proofs::SavedRuns::no_room))]
fn run_restored<M: PagedMemory, O: Write, T: Write, R: Write>(
    alloc: Global,
    guest: &mut Debugged<M>,
    arguments: &RunArguments,
    file: &[u8],
    input: &[u8],
    symbols: &[u8],
    output: &mut O,
    files: &mut RunFiles<T, R>,
) -> Result<Ended, Refused>
    requires symbols { refused_line symbols.now ≡ None }
    requires saved { IsSavedGuest file.now guest.old.guest }
    ensures end { IsSavedRunEnd arguments.now file.now input.now symbols.now result
        (O.contents output.old) (O.contents output.new) (T.contents files.old.trace) (T.contents files.new.trace)
        (R.contents files.old.report) (R.contents files.new.report) }
{
    let mut kept = keep_none(alloc, arguments, guest)?;
    Ok(run_to_report(
        alloc, guest, arguments, input, symbols, &mut kept, output, files,
    )?)
}

/// What is kept of a run of a guest that has no image, before its first turn. Refuses with `OutOfMemory`.
#[tactic(auto, using(crate::proofs::Covering::nothing_counted, crate::proofs::Covering::no_test))]
fn keep_none<M: Memory>(
    alloc: Global,
    arguments: &RunArguments,
    guest: &Debugged<M>,
) -> Result<Kept, Refused>
    ensures kept { IfOk result (λ k. is_counted arguments.now.report ≡ true
        → Covers (count_of guest.now.guest) k.counts k.segments.items []) }
    ensures counts { IfOk result (λ k. AreRuns k.counts []) }
    ensures refused { IfErr result (λ r. r ≡ refused OutOfMemory) }
{
    if !is_counted(&arguments.report) {
        return Ok(Kept {
            segments: Vec::new(alloc),
            counts: Counts::none(alloc),
        });
    }
    keep_counts(alloc, guest)
}

/// A number for each word of RAM, and no segment. Refuses with `OutOfMemory`.
#[tactic(auto, using(crate::proofs::Covering::none_ran))]
fn keep_counts<M: Memory>(alloc: Global, guest: &Debugged<M>) -> Result<Kept, Refused>
    ensures kept { IfOk result (λ k. Covers (count_of guest.now.guest) k.counts k.segments.items []) }
    ensures counts { IfOk result (λ k. AreRuns k.counts []) }
    ensures refused { IfErr result (λ r. r ≡ refused OutOfMemory) }
{
    let pages = page_count(guest);
    match Counts::new(alloc, PAGE_WORDS * pages) {
        Ok(counts) => Ok(Kept {
            segments: Vec::new(alloc),
            counts,
        }),
        Err(_) => Err(Refused::from(Refusal::OutOfMemory)),
    }
}

/// The number of pages of a guest's RAM.
#[tactic(auto, using(crate::proofs::SavedRuns::few_pages))]
fn page_count<M: Memory>(guest: &Debugged<M>) -> u32
    ensures count { result ≡ count_of guest.now.guest }
    ensures few { result ≤ 4096 }
{
    guest.memory().len() / PAGE_SIZE
}

/// Checks the symbols, loads the guest and runs it. Returns how the run ended, or why it was refused.
fn run_image<M: PagedMemory + Drop, O: Write, T: Write, R: Write>(
    alloc: Global,
    arguments: &RunArguments,
    image: &[u8],
    input: &[u8],
    symbols: &[u8],
    output: &mut O,
    files: &mut RunFiles<T, R>,
) -> Result<Ended, Refused>
    ensures end { IsImageRunEnd arguments.now image.now input.now symbols.now result
        (O.contents output.old) (O.contents output.new) (T.contents files.old.trace) (T.contents files.new.trace)
        (R.contents files.old.report) (R.contents files.new.report) }
    ensures unbegun { CanRun arguments.now image.now symbols.now
        ⊎ ((O.contents output.new ≡ O.contents output.old)
        × (T.contents files.new.trace ≡ T.contents files.old.trace)
        × (R.contents files.new.report ≡ R.contents files.old.report)) }
{
    check_symbols(symbols)?;
    run_checked::<M, O, T, R>(alloc, arguments, image, input, symbols, output, files)
}

/// Loads the guest and runs it, by symbols that are good. Returns how the run ended, or why it was refused.
fn run_checked<M: PagedMemory + Drop, O: Write, T: Write, R: Write>(
    alloc: Global,
    arguments: &RunArguments,
    image: &[u8],
    input: &[u8],
    symbols: &[u8],
    output: &mut O,
    files: &mut RunFiles<T, R>,
) -> Result<Ended, Refused>
    requires { refused_line symbols.now ≡ None }
    ensures end { IsImageRunEnd arguments.now image.now input.now symbols.now result
        (O.contents output.old) (O.contents output.new) (T.contents files.old.trace) (T.contents files.new.trace)
        (R.contents files.old.report) (R.contents files.new.report) }
    ensures unbegun { CanRun arguments.now image.now symbols.now
        ⊎ ((O.contents output.new ≡ O.contents output.old)
        × (T.contents files.new.trace ≡ T.contents files.old.trace)
        × (R.contents files.new.report ≡ R.contents files.old.report)) }
{
    let mut guest = load_guest::<M>(alloc, &arguments.guest, image)?;
    run_loaded(
        alloc, &mut guest, arguments, image, input, symbols, output, files,
    )
}

/// Runs a guest that was loaded. Returns how the run ended, or why it was refused.
#[tactic(auto, using(crate::proofs::SavedRuns::broken))]
fn run_loaded<M: PagedMemory, O: Write, T: Write, R: Write>(
    alloc: Global,
    guest: &mut Debugged<M>,
    arguments: &RunArguments,
    image: &[u8],
    input: &[u8],
    symbols: &[u8],
    output: &mut O,
    files: &mut RunFiles<T, R>,
) -> Result<Ended, Refused>
    requires begun { CanRun arguments.now image.now symbols.now }
    requires guest { IfOk (image_of arguments.now.guest.raw image.now) (λ i.
        guest.old.guest ≡ guest_of arguments.now.guest.harts arguments.now.guest.pages i.0 i.1) }
    ensures end { IsImageRunEnd arguments.now image.now input.now symbols.now result
        (O.contents output.old) (O.contents output.new) (T.contents files.old.trace) (T.contents files.new.trace)
        (R.contents files.old.report) (R.contents files.new.report) }
{
    let mut kept = keep(alloc, arguments, image)?;
    Ok(run_to_report(
        alloc, guest, arguments, input, symbols, &mut kept, output, files,
    )?)
}

/// What is kept of a run for the report that is asked for, before its first turn. Refuses with `OutOfMemory`.
#[tactic(auto, using(crate::proofs::Covering::nothing_counted, crate::proofs::Covering::no_test))]
fn keep(alloc: Global, arguments: &RunArguments, image: &[u8]) -> Result<Kept, Refused>
    requires { IsLoadable (image_of arguments.now.guest.raw image.now) arguments.now.guest.pages }
    ensures kept { IfOk result (λ k. is_counted arguments.now.report ≡ true →
        IfOk (image_of arguments.now.guest.raw image.now) (λ i.
        Covers arguments.now.guest.pages k.counts k.segments.items i.1)) }
    ensures counts { IfOk result (λ k. AreRuns k.counts []) }
    ensures refused { IfErr result (IsFileRefusal (image_of arguments.now.guest.raw image.now)) }
{
    if !is_counted(&arguments.report) {
        return Ok(Kept {
            segments: Vec::new(alloc),
            counts: Counts::none(alloc),
        });
    }
    keep_words(alloc, &arguments.guest, image)
}

/// The segments of an image, and a number for each word of RAM. Refuses with `OutOfMemory`.
#[tactic(auto, using(crate::proofs::Covering::keeps, crate::proofs::Covering::none_ran))]
fn keep_words(alloc: Global, guest: &GuestArguments, image: &[u8]) -> Result<Kept, Refused>
    requires { IsLoadable (image_of guest.now.raw image.now) guest.now.pages }
    ensures kept { IfOk result (λ k. IfOk (image_of guest.now.raw image.now) (λ i.
        Covers guest.now.pages k.counts k.segments.items i.1)) }
    ensures counts { IfOk result (λ k. AreRuns k.counts []) }
    ensures refused { IfErr result (IsFileRefusal (image_of guest.now.raw image.now)) }
{
    let pages = guest.pages;
    let program = image_of(alloc, guest.raw, image)?;
    match Counts::new(alloc, PAGE_WORDS * pages) {
        Ok(counts) => Ok(Kept {
            segments: program.segments,
            counts,
        }),
        Err(_) => Err(Refused::from(Refusal::OutOfMemory)),
    }
}

/// Whether the report on a run wants to know how often words ran, if one is asked for.
fn is_counted(asked: &Option<ReportArguments>) -> bool
    ensures { result ≡ is_counted asked.now }
{
    match asked {
        Some(asked) => wants_counts(asked.report),
        None => false,
    }
}

/// Whether a report wants to know how often words ran.
fn wants_counts(report: Report) -> bool
    ensures { result ≡ wants_counts report.entry }
{
    match report {
        Report::Signature(_) | Report::SavedGuest => false,
        Report::Coverage | Report::Profile { .. } => true,
    }
}

/// Runs a guest as the arguments ask for, and writes the report, if it has one. `LinkFault` if a
/// write fails, `OutOfMemory` only if the guest is saved.
#[tactic(auto, using(crate::proofs::Covering::report_is))]
fn run_to_report<M: PagedMemory, O: Write, T: Write, R: Write>(
    alloc: Global,
    guest: &mut Debugged<M>,
    arguments: &RunArguments,
    input: &[u8],
    symbols: &[u8],
    kept: &mut Kept,
    output: &mut O,
    files: &mut RunFiles<T, R>,
) -> Result<Ended, SaveFault>
    requires counts { AreRuns kept.old.counts [] }
    ensures run { IfOk result (λ end. HasRun (run_with arguments.now.seed arguments.now.stop_at_fault (traced_of arguments.now.trace)
        arguments.now.steps input.now guest.old.guest) end guest.old guest.new
        (O.contents output.old) (O.contents output.new)
        (T.contents files.old.trace) (T.contents files.new.trace)) }
    ensures report { OnOk result ((pages : ℕ) (pieces : List Piece)
        → (is_counted arguments.now.report ≡ true
        → Covers pages kept.old.counts kept.old.segments.items pieces)
        → Appends (R.contents files.old.report) (R.contents files.new.report)
        (report_text arguments.now.report pages pieces symbols.now
        (run_with arguments.now.seed arguments.now.stop_at_fault (traced_of arguments.now.trace) arguments.now.steps input.now
        guest.old.guest))) }
    ensures some { OnErr result (Writes (run_with arguments.now.seed arguments.now.stop_at_fault (traced_of arguments.now.trace)
        arguments.now.steps input.now guest.old.guest) arguments.now.trace arguments.now.report) }
    ensures fault { IfErr result (IsFaultOf arguments.now.report) }
{
    let ended = match run_to_end(
        guest,
        arguments,
        input,
        &mut kept.counts,
        output,
        &mut files.trace,
    ) {
        Ok(ended) => ended,
        Err(_) => return Err(SaveFault::LinkFault),
    };
    let report = &mut files.report;
    match write_report(alloc, guest, &arguments.report, symbols, kept, report) {
        Ok(()) => Ok(ended),
        Err(fault) => Err(fault),
    }
}

/// Runs a guest as the arguments ask for, and flushes its trace, if it has one. `LinkFault` if a write fails.
#[tactic(auto, using(crate::proofs::Flushing::flushed, crate::proofs::Flushing::writes))]
fn run_to_end<M: Memory, O: Write, T: Write>(
    guest: &mut Debugged<M>,
    arguments: &RunArguments,
    input: &[u8],
    counts: &mut Counts,
    output: &mut O,
    trace: &mut T,
) -> Result<Ended, LinkFault>
    requires { AreRuns counts.old [] }
    ensures counted { IfOk result (λ end. AreRuns counts.new (run_with arguments.now.seed arguments.now.stop_at_fault
        (traced_of arguments.now.trace) arguments.now.steps input.now guest.old.guest).steps) }
    ensures count { length counts.new ≡ length counts.old }
    ensures run { IfOk result (λ end. HasRun (run_with arguments.now.seed arguments.now.stop_at_fault (traced_of arguments.now.trace)
        arguments.now.steps input.now guest.old.guest) end guest.old guest.new
        (O.contents output.old) (O.contents output.new) (T.contents trace.old) (T.contents trace.new)) }
    ensures some { OnErr result (Writes (run_with arguments.now.seed arguments.now.stop_at_fault (traced_of arguments.now.trace)
        arguments.now.steps input.now guest.old.guest) arguments.now.trace arguments.now.report) }
{
    let ended = run_asked(guest, arguments, input, counts, output, trace)?;
    flush_trace(&arguments.trace, trace)?;
    Ok(ended)
}

/// Flushes a trace, if there is one. `LinkFault` if that fails.
fn flush_trace<T: Write>(asked: &Option<TraceArguments>, trace: &mut T) -> Result<(), LinkFault>
    ensures same { Keeps (T.contents trace.old) (T.contents trace.new) }
    ensures traced { OnErr result (IsTraced asked.now) }
{
    match asked {
        Some(_) => Ok(trace.flush()?),
        None => Ok(()),
    }
}
