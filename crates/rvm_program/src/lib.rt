//! The program as a function: it reads the words of a command line and the files that they name, and does the command.
//! It prints to the writers that it is given, and returns the status.
//!
//! Stands on the commands, on `rvm_files` and on `clap`, and reaches files through the runtime or another `NamedFiles`
//! alone, so that another program can call what `rvmove` does.
//!
//! To be read in this order: `perform`, `commands`, `orders`, `journals`; `system`, `descriptors`, `words`.
#![tactic(auto)]

ghost use Rattle.std.specs.Prelude.{◌≡◌, ◌≢◌, ◌⊎◌, ◌<◌, None, IfErr, IfOk, OnErr, map};
ghost use Rattle.clap.specs.Words.{kind_of};
ghost use Rattle.clap.specs.declared.error.kind.ErrorKind.TheVariants as kind;
ghost use Rattle.rvm_program.specs.Ended.{HasEnded, HostEnded, IsUnbegun, IsUntold, ToTell, written};
ghost use Rattle.rvm_files.specs.Files.{IsUnread};
ghost use Rattle.rvm_program.specs.Performed.{AreFaulty, AreJudged, ArePassingOn, AskForOpen, HasEndedEither, HasEndedSo, HasFailed, HasFailedEither, HasFailedSo, IsEndedSo, IsJudged, IsPassingOn, IsRefusedSo, IsShown, MayBeOpen};

mod commands;
mod descriptors;
mod journals;
mod orders;
mod system;
mod words;

use clap::Error;
use commands::Told;
pub use descriptors::{Descriptors, take_descriptors};
use rvm_arguments::{Arguments, CommandLine, HostArguments};
use rvm_command::refused::{Refused, tell};
pub use rvm_command_line::VERSION;
use rvm_command_line::parse_args;
pub use rvm_files::{FileFault, MAX_FILE_SIZE, MAX_JOURNAL_SIZE, NamedFiles};
use rvm_files::{HostFiles, explain_report, find_for_host, pass_on, write_found};
use rvm_mem::PagedMemory;
use rvm_refusal::Refusal;
use std::convert::AsStr;
use std::io::{Read, Write};
use std::net::Net;
use std::sync::Wait;
use std::thread::Threads;
pub use system::System;
pub use words::{WordsFault, take_words, tell_words_fault, texts};

/// The status if a write to standard error failed, so that the report of how the command ended is missing.
const UNTOLD: u8 = 1;

/// The status of a command that was refused.
const REFUSED: u8 = 1;

/// The size in bytes of the buffer for the report of how a command ended. It grows if a report is longer.
const REPORT_SIZE: usize = 256;

/// Does what the words of a command line ask for. The first word is the program's name. Returns the status: 0 if it was
/// done; 1 if it was refused, or if a write to `errors` failed, so that the report of how it ended is missing; 2 for a
/// fault of the command line, which writes nothing to `output`; 3 if `tell` lost an answer of a host, or if what was cut
/// off from journals may explain that they have no order. If the status of a run tells how it ended (`StatusOf`), it may
/// be any number; with a verdict, that of a move may also be 3 or 4, and that of a host 3. `input` is standard input,
/// `output` and `errors` are standard output and standard error. The memory of each guest is an `M`. A guest moves by
/// threads, which may wait for one another, and over TCP. The files are those of the runtime. So is the standard input of
/// `host --input -` and of `run --input -`, which a thread of its own reads until the process ends.
///
/// At most one byte more is read of a file than it may have. An image of plain bytes may have as many bytes as RAM; with
/// more it is refused with `OutsideRam`. An ELF file, what `dis` lists, an assembly text and each other file of `host`
/// may have `MAX_FILE_SIZE` bytes; with more they are refused with `TooLong`. So is a journal with more than
/// `MAX_JOURNAL_SIZE` if `--chart` or `--turns` is given; else it is read line by line, however long it is. `run`
/// reads at most one byte for the console for each turn; it refuses with `TooLong` if these would be more than
/// `MAX_FILE_SIZE` bytes.
pub fn perform<
    M: PagedMemory + Drop + Send + 'static,
    Rt: System + Net + Threads + Wait + 'static,
    S: AsStr,
    I: Read,
    O: Write,
    E: Write,
>(rt: &Rt, words: &[S], input: &mut I, output: &mut O, errors: &mut E) -> u8
where
    Rt::Stream: Send,
    Rt::Listener: Send + Sync,
    Rt::File: Send,
    ensures status { 3 < result → AreJudged (map S.text words.now) }
    ensures lost { result ≡ 3 → AskForOpen (map S.text words.now) ⊎ AreJudged (map S.text words.now) }
    ensures fault { result ≡ 2 → (O.contents output.new ≡ O.contents output.old) ⊎ (ArePassingOn (map S.text words.now)
        × IsEndedSo (λ name. None) (λ name. None) (map S.text words.now) 2 (I.remaining input.old)
        (written (O.contents output.old) (O.contents output.new))
        (written (E.contents errors.old) (E.contents errors.new))) }
    ensures done { result ≡ 0 → IsShown (map S.text words.now) (written (E.contents errors.old) (E.contents errors.new))
        ⊎ IsEndedSo (λ name. None) (λ name. None) (map S.text words.now) 0 (I.remaining input.old)
        (written (O.contents output.old) (O.contents output.new))
        (written (E.contents errors.old) (E.contents errors.new)) }
    ensures others { 2 < result → IsEndedSo (λ name. None) (λ name. None) (map S.text words.now) result (I.remaining input.old)
        (written (O.contents output.old) (O.contents output.new))
        (written (E.contents errors.old) (E.contents errors.new)) }
    ensures refused { result ≡ 1 → IsRefusedSo (λ name. None) (λ name. None) (map S.text words.now)
        (I.remaining input.old) (written (O.contents output.old) (O.contents output.new))
        (written (E.contents errors.old) (E.contents errors.new)) }
    ensures faulty { AreFaulty (map S.text words.now) → result ≡ 2 }
{
    perform_over::<M, Rt, HostFiles<'_, Rt>, S, I, O, E>(
        rt,
        &HostFiles::new(rt),
        words,
        input,
        output,
        errors,
    )
}

/// Does what `perform` does, over any files.
pub fn perform_over<
    M: PagedMemory + Drop + Send + 'static,
    Rt: System + Net + Threads + Wait + 'static,
    F: NamedFiles,
    S: AsStr,
    I: Read,
    O: Write,
    E: Write,
>(rt: &Rt, files: &F, words: &[S], input: &mut I, output: &mut O, errors: &mut E) -> u8
where
    Rt::Stream: Send,
    Rt::Listener: Send + Sync,
    Rt::File: Send,
    ensures status { 3 < result → AreJudged (map S.text words.now) }
    ensures lost { result ≡ 3 → AskForOpen (map S.text words.now) ⊎ AreJudged (map S.text words.now) }
    ensures fault { result ≡ 2 → (O.contents output.new ≡ O.contents output.old) ⊎ (ArePassingOn (map S.text words.now)
        × IsEndedSo (F.bytes_of files.now) (F.created_of files.now) (map S.text words.now) 2 (I.remaining input.old)
        (written (O.contents output.old) (O.contents output.new))
        (written (E.contents errors.old) (E.contents errors.new))) }
    ensures done { result ≡ 0 → IsShown (map S.text words.now) (written (E.contents errors.old) (E.contents errors.new))
        ⊎ IsEndedSo (F.bytes_of files.now) (F.created_of files.now) (map S.text words.now) 0 (I.remaining input.old)
        (written (O.contents output.old) (O.contents output.new))
        (written (E.contents errors.old) (E.contents errors.new)) }
    ensures others { 2 < result → IsEndedSo (F.bytes_of files.now) (F.created_of files.now) (map S.text words.now) result (I.remaining input.old)
        (written (O.contents output.old) (O.contents output.new))
        (written (E.contents errors.old) (E.contents errors.new)) }
    ensures refused { result ≡ 1 → IsRefusedSo (F.bytes_of files.now) (F.created_of files.now) (map S.text words.now)
        (I.remaining input.old) (written (O.contents output.old) (O.contents output.new))
        (written (E.contents errors.old) (E.contents errors.new)) }
    ensures faulty { AreFaulty (map S.text words.now) → result ≡ 2 }
{
    match parse_args(rt.alloc(), words) {
        Ok(line) => do_line::<M, Rt, F, I, O, E>(rt, files, &line, input, output, errors),
        Err(error) => explain(&error, output, errors),
    }
}

/// Does what a command line asks for, and explains its refusal if that is asked for.
fn do_line<
    M: PagedMemory + Drop + Send + 'static,
    Rt: System + Net + Threads + Wait + 'static,
    F: NamedFiles,
    I: Read,
    O: Write,
    E: Write,
>(rt: &Rt, files: &F, line: &CommandLine, input: &mut I, output: &mut O, errors: &mut E) -> u8
where
    Rt::Stream: Send,
    Rt::Listener: Send + Sync,
    Rt::File: Send,
    ensures status { 3 < result → IsJudged line.now.arguments }
    ensures lost { result ≡ 3 → MayBeOpen line.now.arguments ⊎ IsJudged line.now.arguments }
    ensures passed { result ≡ 2 → IsPassingOn line.now.arguments }
    ensures others { 1 < result → HasEndedSo (F.bytes_of files.now) (F.created_of files.now) line.now result (I.remaining input.old)
        (written (O.contents output.old) (O.contents output.new))
        (written (E.contents errors.old) (E.contents errors.new)) }
    ensures done { result ≡ 0 → HasEndedSo (F.bytes_of files.now) (F.created_of files.now) line.now 0 (I.remaining input.old)
        (written (O.contents output.old) (O.contents output.new))
        (written (E.contents errors.old) (E.contents errors.new)) }
    ensures refused { result ≡ 1 → HasFailedSo (F.bytes_of files.now) (F.created_of files.now) line.now
        (I.remaining input.old) (written (O.contents output.old) (O.contents output.new))
        (written (E.contents errors.old) (E.contents errors.new)) }
{
    let arguments = &line.arguments;
    if !line.explain {
        return do_command::<M, Rt, F, I, O, E>(rt, files, arguments, input, output, errors);
    }
    match arguments {
        Arguments::Tell(_) => {
            do_command::<M, Rt, F, I, O, E>(rt, files, arguments, input, output, errors)
        }
        Arguments::Host(arguments) => {
            do_host::<M, Rt, F, O, E>(rt, files, arguments, output, errors)
        }
        _ => do_explained::<M, Rt, F, I, O, E>(rt, files, arguments, input, output, errors),
    }
}

/// Does a command that reports only how it ended, and explains its refusal. The report is kept in memory until then. If
/// there is no memory for it, nothing is explained.
fn do_explained<
    M: PagedMemory + Drop + Send + 'static,
    Rt: System + Net + Threads + Wait + 'static,
    F: NamedFiles,
    I: Read,
    O: Write,
    E: Write,
>(rt: &Rt, files: &F, arguments: &Arguments, input: &mut I, output: &mut O, errors: &mut E) -> u8
where
    Rt::Stream: Send,
    Rt::Listener: Send + Sync,
    Rt::File: Send,
    ensures status { 3 < result → IsJudged arguments.now }
    ensures lost { result ≡ 3 → MayBeOpen arguments.now ⊎ IsJudged arguments.now }
    ensures passed { result ≡ 2 → IsPassingOn arguments.now }
    ensures others { 1 < result → HasEndedEither (F.bytes_of files.now) (F.created_of files.now) arguments.now result
        (I.remaining input.old) (written (O.contents output.old) (O.contents output.new))
        (written (E.contents errors.old) (E.contents errors.new)) }
    ensures done { result ≡ 0 → HasEndedEither (F.bytes_of files.now) (F.created_of files.now) arguments.now 0
        (I.remaining input.old) (written (O.contents output.old) (O.contents output.new))
        (written (E.contents errors.old) (E.contents errors.new)) }
    ensures refused { result ≡ 1 → HasFailedEither (F.bytes_of files.now) (F.created_of files.now) arguments.now
        (I.remaining input.old) (written (O.contents output.old) (O.contents output.new))
        (written (E.contents errors.old) (E.contents errors.new)) }
{
    let Ok(mut report) = Vec::with_capacity(rt.alloc(), REPORT_SIZE) else {
        return do_command::<M, Rt, F, I, O, E>(rt, files, arguments, input, output, errors);
    };
    let status = do_command::<M, Rt, F, I, O, Vec<u8>>(
        rt,
        files,
        arguments,
        input,
        output,
        &mut report,
    );
    if pass_on(&report, errors).is_err() {
        return UNTOLD;
    }
    if status == REFUSED {
        let _unexplained = explain_report(files, rt.alloc(), arguments, &report, errors);
    }
    status
}

/// Works at a host, and says after it what was wrong with the files that it was given if it did not begin. A host writes to
/// `errors` as it works.
fn do_host<
    M: PagedMemory + Drop + Send + 'static,
    Rt: System + Net + Threads + Wait + 'static,
    F: NamedFiles,
    O: Write,
    E: Write,
>(rt: &Rt, files: &F, arguments: &HostArguments, output: &mut O, errors: &mut E) -> u8
where
    Rt::Stream: Send,
    Rt::Listener: Send + Sync,
    Rt::File: Send,
    ensures ended { HostEnded (F.bytes_of files.now) arguments.now result
        (written (O.contents output.old) (O.contents output.new)) }
{
    let found = find_for_host(files, rt.alloc(), arguments);
    let status = work_as_host::<M, Rt, F, O, E>(rt, files, arguments, output, errors);
    if let Some(found) = found {
        if status == REFUSED {
            let _unexplained = write_found(&found, errors);
        }
    }
    status
}

/// Works at a host. Returns the status: that of `commands::host`, or `UNTOLD` if it failed to report how it ended.
#[tactic(auto, using(crate::proofs::Explained::host_has_ended))]
fn work_as_host<
    M: PagedMemory + Drop + Send + 'static,
    Rt: System + Net + Threads + Wait + 'static,
    F: NamedFiles,
    O: Write,
    E: Write,
>(rt: &Rt, files: &F, arguments: &HostArguments, output: &mut O, errors: &mut E) -> u8
where
    Rt::Stream: Send,
    Rt::Listener: Send + Sync,
    Rt::File: Send,
    ensures ended { HostEnded (F.bytes_of files.now) arguments.now result
        (written (O.contents output.old) (O.contents output.new)) }
{
    status_of(commands::host::<M, Rt, F, O, E>(rt, files, arguments, output, errors))
}

/// Does what a command line asks for. Returns the status: 0 if it was done, 1 if it was refused or a write to `errors`
/// failed, 3 if `tell` lost an answer of a host; or, for a run, a move or a host whose status tells how it ended, that
/// status.
fn do_command<
    M: PagedMemory + Drop + Send + 'static,
    Rt: System + Net + Threads + Wait + 'static,
    F: NamedFiles,
    I: Read,
    O: Write,
    E: Write,
>(rt: &Rt, files: &F, arguments: &Arguments, input: &mut I, output: &mut O, errors: &mut E) -> u8
where
    Rt::Stream: Send,
    Rt::Listener: Send + Sync,
    Rt::File: Send,
    ensures status { 3 < result → IsJudged arguments.now }
    ensures lost { result ≡ 3 → MayBeOpen arguments.now ⊎ IsJudged arguments.now }
    ensures passed { result ≡ 2 → IsPassingOn arguments.now }
    ensures others { 1 < result → HasEnded (F.bytes_of files.now) (F.created_of files.now) arguments.now result (I.remaining input.old)
        (written (O.contents output.old) (O.contents output.new))
        (written (E.contents errors.old) (E.contents errors.new)) }
    ensures done { result ≡ 0 → HasEnded (F.bytes_of files.now) (F.created_of files.now) arguments.now 0 (I.remaining input.old)
        (written (O.contents output.old) (O.contents output.new))
        (written (E.contents errors.old) (E.contents errors.new)) }
    ensures refused { result ≡ 1 → HasFailed (F.bytes_of files.now) (F.created_of files.now) arguments.now
        (I.remaining input.old) (written (O.contents output.old) (O.contents output.new))
        (written (E.contents errors.old) (E.contents errors.new)) }
{
    status_of(tell_end::<M, Rt, F, I, O, E>(rt, files, arguments, input, output, errors))
}

/// The status of a command: the one that it returned, or `UNTOLD` if it failed to report how it ended.
fn status_of(told: Told) -> u8
    ensures told { IfOk told (λ status. result ≡ status) }
    ensures untold { IfErr told (λ fault. result ≡ 1) }
{
    told.unwrap_or(UNTOLD)
}

/// Does what a command line asks for. If the command did not begin, reports the refusal in `errors`, and returns the
/// status 1. `LinkFault` if a write to `errors` fails.
fn tell_end<
    M: PagedMemory + Drop + Send + 'static,
    Rt: System + Net + Threads + Wait + 'static,
    F: NamedFiles,
    I: Read,
    O: Write,
    E: Write,
>(rt: &Rt, files: &F, arguments: &Arguments, input: &mut I, output: &mut O, errors: &mut E) -> Told
where
    Rt::Stream: Send,
    Rt::Listener: Send + Sync,
    Rt::File: Send,
    ensures told { IfOk result (λ status. HasEnded (F.bytes_of files.now) (F.created_of files.now) arguments.now
        status (I.remaining input.old) (written (O.contents output.old) (O.contents output.new))
        (written (E.contents errors.old) (E.contents errors.new))
        ⊎ IsUnbegun (F.bytes_of files.now) arguments.now status (written (E.contents errors.old) (E.contents errors.new))) }
    ensures untold { OnErr result (IsUntold (F.bytes_of files.now) (F.created_of files.now) arguments.now
        (I.remaining input.old) (written (O.contents output.old) (O.contents output.new))) }
{
    match begin::<M, Rt, F, I, O, E>(rt, files, arguments, input, output, errors) {
        Ok(told) => told,
        Err(refusal) => tell(Refused::from(refusal), errors),
    }
}

/// Calls the command of a command line. Fails with a refusal if a file cannot be opened or read, if a file has more
/// bytes than it may have, or if memory runs out.
fn begin<
    M: PagedMemory + Drop + Send + 'static,
    Rt: System + Net + Threads + Wait + 'static,
    F: NamedFiles,
    I: Read,
    O: Write,
    E: Write,
>(
    rt: &Rt,
    files: &F,
    arguments: &Arguments,
    input: &mut I,
    output: &mut O,
    errors: &mut E,
) -> Result<Told, Refusal>
where
    Rt::Stream: Send,
    Rt::Listener: Send + Sync,
    Rt::File: Send,
    ensures ended { IfOk result (λ told. IfOk told (λ status. HasEnded (F.bytes_of files.now) (F.created_of files.now) arguments.now status
        (I.remaining input.old) (written (O.contents output.old) (O.contents output.new))
        (written (E.contents errors.old) (E.contents errors.new)))) }
    ensures untold { IfOk result (λ told. OnErr told (ToTell (λ status errors.
        HasEnded (F.bytes_of files.now) (F.created_of files.now) arguments.now status (I.remaining input.old)
        (written (O.contents output.old) (O.contents output.new)) errors))) }
    ensures unbegun { IfErr result (λ r. IsUnread (F.bytes_of files.now) arguments.now r
        × (E.contents errors.new ≡ E.contents errors.old)) }
{
    match arguments {
        Arguments::Run(arguments) => commands::run::<M, F, O, E>(
            rt.alloc(),
            files,
            arguments,
            output,
            errors,
        ),
        Arguments::Live(arguments) => Ok(commands::live::<M, Rt, F, O, E>(
            rt, files, arguments, output, errors,
        )),
        Arguments::Orders(arguments) => orders::run_orders::<M, F, O, E>(
            rt.alloc(),
            files,
            arguments,
            output,
            errors,
        ),
        Arguments::Asm(arguments) => commands::asm(rt.alloc(), files, arguments, errors),
        Arguments::Dis(arguments) => commands::dis(rt.alloc(), files, arguments, output, errors),
        Arguments::Debug(arguments) => commands::debug::<M, F, I, O, E>(
            rt.alloc(),
            files,
            arguments,
            input,
            output,
            errors,
        ),
        Arguments::Script(arguments) => commands::script::<M, F, O, E>(
            rt.alloc(),
            files,
            arguments,
            output,
            errors,
        ),
        Arguments::Move(arguments) => commands::move_guest::<M, Rt, F, O, E>(
            rt, files, arguments, output, errors,
        ),
        Arguments::Audit(arguments) => commands::audit::<M, Rt, F, O, E>(
            rt, files, arguments, output, errors,
        ),
        Arguments::Host(arguments) => Ok(commands::host::<M, Rt, F, O, E>(
            rt, files, arguments, output, errors,
        )),
        Arguments::Tell(arguments) => Ok(commands::tell(rt, arguments, input, output, errors)),
        Arguments::Replay(arguments) => Ok(journals::replay::<M, F, I, O, E>(
            rt.alloc(),
            files,
            arguments,
            input,
            output,
            errors,
        )),
        Arguments::ReplayTurns(arguments) => Ok(journals::replay_turns::<M, F, I, O, _, E>(
            rt.alloc(),
            files,
            arguments,
            input,
            output,
            &mut rt.progress(),
            errors,
        )),
        Arguments::AuditJournals(arguments) => Ok(journals::audit_journals::<M, F, O, _, E>(
            rt.alloc(),
            files,
            arguments,
            output,
            &mut rt.progress(),
            errors,
        )),
    }
}

/// Reports the fault of a command line in `errors`, and returns the status 2; or writes the help or the version that it
/// asks for to `output`, and returns the status 0. `clap` says which.
fn explain<O: Write, E: Write>(error: &Error, output: &mut O, errors: &mut E) -> u8
    ensures status { (result ≡ 0) ⊎ (result ≡ 2) }
    ensures shown { (kind_of error.now ≡ kind.DisplayHelp) ⊎ (kind_of error.now ≡ kind.DisplayVersion) → result ≡ 0 }
    ensures others { kind_of error.now ≢ kind.DisplayHelp → kind_of error.now ≢ kind.DisplayVersion → result ≡ 2 }
    ensures fault { result ≡ 2 → O.contents output.new ≡ O.contents output.old }
    ensures quiet { result ≡ 0 → E.contents errors.new ≡ E.contents errors.old }
{
    if error.use_stderr() {
        let _ = write!(errors, "{error}");
        2
    } else {
        let _ = write!(output, "{error}");
        0
    }
}
