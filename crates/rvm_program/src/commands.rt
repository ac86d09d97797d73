//! The commands over files. Each reads or opens the files that the command line names, in their order there, calls the
//! command over values, and returns what that returns. It fails with a refusal if a file cannot be opened or read, if a
//! file has more bytes than it may have, or if memory runs out; all other refusals are reported by the command over
//! values.

ghost use Rattle.std.specs.Prelude.{◌≡◌, ◌≢◌, ◌⊎◌, None, Option, Result, IfErr, IfOk, OnErr, true};
ghost use Rattle.either.specs.Either.{either};
ghost use Rattle.rvm_arguments.specs.declared.arguments.Arguments.TheVariants as asks;
ghost use Rattle.rvm_refusal.specs.declared.refusal.Refusal.TheVariants as refusal;
ghost use Rattle.std.specs.Io.Buffered.{writer_contents};
ghost use Rattle.std.specs.Io.KnownBytes.{Appends};
ghost use Rattle.rvm_command.specs.declared.refused.Refused.{Refused};
ghost use Rattle.rvm_command.specs.declared.run.Ended.{Ended};
ghost use Rattle.rvm_command.specs.Ends.{RunHasStatus};
ghost use Rattle.rvm_station.specs.declared.host_harts.HartsEnd.{HartsEnd};
ghost use Rattle.rvm_host_command.specs.Hosted.{IsHostedTo};
ghost use Rattle.rvm_host_command.specs.Live.{IsLiveEnd, IsLiveTo};
ghost use Rattle.rvm_program.specs.Ended.{AsmEnded, AuditEnded, DebugEnded, DisEnded, HasRunTo, HostEnded, IsNamedFile, LiveEnded, MoveEnded, RunEnded, ScriptEnded, TellEnded, ToTell, report_name, trace_name, written};
ghost use Rattle.rvm_files.specs.Files.{IsFile, IsFileRefusal, IsFirst, IsFirstInput, IsImage, IsInput, IsLong, IsLongInput, IsLongSymbols, IsRefusedFile, IsUnread, file_text, max_size, symbols_name};

use crate::system::System;
use either::Either;
use rvm_arguments::{
    AsmArguments, DebugArguments, DisArguments, GuestArguments, HostArguments, LiveArguments,
    MoveArguments, Report, ReportArguments, RunArguments, ScriptArguments, TellArguments,
    TraceArguments,
};
use rvm_command::asm_command::asm_command;
use rvm_command::debug_command::debug_command;
use rvm_command::dis_command::dis_command;
use rvm_command::run_command::{RunFiles, run_command};
use rvm_files::{
    MAX_FILE_SIZE, NamedFiles, begin_image, check_image, keep_apart, keep_read, read_beginning,
    read_image, read_whole, refusal_of,
};
use rvm_host_command::host_command::{HostBytes, host_command};
use rvm_host_command::live_command::live_command;
use rvm_host_command::tell_command::{LOST, connect_to, tell_command};
use rvm_mem::PagedMemory;
use rvm_move::audit_command::audit_command;
use rvm_move::move_command::move_command;
use rvm_move::script_command::script_command;
use rvm_refusal::{LinkFault, Refusal};
use rvm_station::{InputQueue, read_input as read_console_input};
use std::alloc::{AllocError, Global};
use std::io::{BufRead, BufReader, BufWriter, Read, Sink, Write};
use std::net::{Net, OpenStream};
use std::sync::{Arc, Wait};
use std::thread::Threads;
use std::time::Clock;
use std::{io, thread};

/// What a command over values returns: its status, or `LinkFault` if a write to standard error failed, so that the
/// report of how the command ended is missing.
pub(crate) type Told = Result<u8, LinkFault>;

/// The name of a file that stands for standard input.
pub(crate) const STANDARD_INPUT: &str = "-";

/// Reads the image and the bytes for the console, and runs the guest.
pub(crate) fn run<M: PagedMemory + Drop, F: NamedFiles, O: Write, E: Write>(
    alloc: Global,
    files: &F,
    arguments: &RunArguments,
    output: &mut O,
    errors: &mut E,
) -> Result<Told, Refusal>
    ensures ended { IfOk result (λ told. IfOk told (λ status. RunEnded (F.bytes_of files.now) (F.created_of files.now)
        arguments.now status (written (O.contents output.old) (O.contents output.new))
        (written (E.contents errors.old) (E.contents errors.new)))) }
    ensures untold { IfOk result (λ told. OnErr told (ToTell (λ status errors. RunEnded (F.bytes_of files.now)
        (F.created_of files.now) arguments.now status (written (O.contents output.old) (O.contents output.new)) errors))) }
    ensures unbegun { IfErr result (λ r. IsUnread (F.bytes_of files.now) (asks.Run arguments.now) r
        × (O.contents output.new ≡ O.contents output.old)
        × (E.contents errors.new ≡ E.contents errors.old)) }
{
    let image = begin_image(files, alloc, &arguments.guest)?;
    let input = read_input(files, alloc, arguments.input, arguments.steps)?;
    let symbols = read_symbols(files, alloc, &arguments.report)?;
    check_image(&arguments.guest, &image)?;
    let read = RunRead {
        image: &image,
        input: &input,
        symbols: &symbols,
    };
    run_read::<M, F, O, E>(alloc, files, arguments, &read, output, errors)
}

/// What the files of a run hold that it reads.
#[derive(Clone, Copy)]
struct RunRead<'r> {
    image: &'r [u8],
    input: &'r [u8],
    symbols: &'r [u8],
}

/// Runs a guest of which all was read. Creates or empties the files of its trace and of its report, if it has them. Fails
/// with a refusal if one of these cannot be created, or if memory runs out.
fn run_read<M: PagedMemory + Drop, F: NamedFiles, O: Write, E: Write>(
    alloc: Global,
    files: &F,
    arguments: &RunArguments,
    read: &RunRead<'_>,
    output: &mut O,
    errors: &mut E,
) -> Result<Told, Refusal>
    ensures told { IfOk result (λ told. IfOk told (λ status. RunHasStatus arguments.now.status status
        (λ end. HasRunTo (F.created_of files.now) arguments.now read.now.image.now read.now.input.now
        read.now.symbols.now end (written (O.contents output.old) (O.contents output.new)))
        (E.contents errors.old) (E.contents errors.new))) }
    ensures end { IfOk result (λ told. (end : Result Ended Refused) × HasRunTo (F.created_of files.now) arguments.now
        read.now.image.now read.now.input.now read.now.symbols.now end
        (written (O.contents output.old) (O.contents output.new))) }
    ensures refused { IfErr result (λ r. IsFileRefusal r × (O.contents output.new ≡ O.contents output.old)
        × (E.contents errors.new ≡ E.contents errors.old)) }
{
    let mut written = create_files(alloc, files, arguments, read)?;
    Ok(run_command::<M, O, _, _, E>(
        alloc,
        arguments,
        read.image,
        read.input,
        read.symbols,
        output,
        &mut written,
        errors,
    ))
}

/// Creates or empties the files of the trace and of the report of a run, if it has them. Fails with a refusal if one of
/// these cannot be created, if it may be a file that was read, or if memory runs out.
fn create_files<F: NamedFiles>(
    alloc: Global,
    files: &F,
    arguments: &RunArguments,
    read: &RunRead<'_>,
) -> Result<
    RunFiles<Either<BufWriter<F::Created>, Sink>, Either<BufWriter<F::Created>, Sink>>,
    Refusal,
>
    ensures trace { IfOk result (λ f. IsNamedFile (F.created_of files.now) (trace_name arguments.now.trace)
        (either (writer_contents F.Created.contents) (λ s. None) f.trace)) }
    ensures report { IfOk result (λ f. IsNamedFile (F.created_of files.now) (report_name arguments.now.report)
        (either (writer_contents F.Created.contents) (λ s. None) f.report)) }
    ensures refused { IfErr result IsFileRefusal }
{
    let trace = trace_name(&arguments.trace);
    let report = report_name(&arguments.report);
    keep_all_read(files, alloc, trace, read)?;
    keep_all_read(files, alloc, report, read)?;
    let trace = create_named(alloc, files, trace)?;
    let report = create_named(alloc, files, report)?;
    Ok(RunFiles { trace, report })
}

/// Refuses with `LinkFault` a file that a run is to write, if there is one and it may be one of those that were read.
fn keep_all_read<F: NamedFiles>(
    files: &F,
    alloc: Global,
    name: Option<&str>,
    read: &RunRead<'_>,
) -> Result<(), Refusal>
    ensures refused { IfErr result IsFileRefusal }
{
    let Some(name) = name else {
        return Ok(());
    };
    keep_read(files, alloc, name, read.image)?;
    keep_read(files, alloc, name, read.input)?;
    keep_read(files, alloc, name, read.symbols)
}

/// The name of the file of a trace, if there is one.
fn trace_name<'a>(trace: &Option<TraceArguments<'a>>) -> Option<&'a str>
    ensures { result ≡ trace_name trace.now }
{
    match trace {
        Some(trace) => Some(trace.file),
        None => None,
    }
}

/// The name of the file of a report, if there is one.
fn report_name<'a>(report: &Option<ReportArguments<'a>>) -> Option<&'a str>
    ensures { result ≡ report_name report.now }
{
    match report {
        Some(report) => Some(report.file),
        None => None,
    }
}

/// A buffer in front of the file with this name, which is created or emptied. Without a name, what is written goes
/// nowhere.
fn create_named<F: NamedFiles>(
    alloc: Global,
    files: &F,
    name: Option<&str>,
) -> Result<Either<BufWriter<F::Created>, Sink>, Refusal>
    ensures named { IfOk result (λ w. IsNamedFile (F.created_of files.now) name.entry
        (either (writer_contents F.Created.contents) (λ s. None) w)) }
    ensures refused { IfErr result IsFileRefusal }
{
    match name {
        Some(name) => Ok(Either::Left(buffered(alloc, files.create(name)?)?)),
        None => Ok(Either::Right(io::sink())),
    }
}

/// The bytes for the console: the first bytes of a file, at most one for each turn, or none if no file is named.
/// `TooLong` if these would be more than `MAX_FILE_SIZE` bytes.
pub(crate) fn read_input<F: NamedFiles>(
    files: &F,
    alloc: Global,
    name: Option<&str>,
    turns: u32,
) -> Result<Vec<u8>, Refusal>
    ensures given { IfOk result (λ v. IsFirstInput (F.bytes_of files.now) name.entry turns v.items) }
    ensures refused { IfErr result (λ r. IsFileRefusal r ⊎ IsLongInput (F.bytes_of files.now) name.entry r) }
{
    match name {
        Some(file) => read_console(files, alloc, file, turns),
        None => Ok(Vec::new(alloc)),
    }
}

/// All bytes of the file of the symbols of a report; none if it has no symbols.
fn read_symbols<F: NamedFiles>(
    files: &F,
    alloc: Global,
    report: &Option<ReportArguments>,
) -> Result<Vec<u8>, Refusal>
    ensures given { IfOk result (λ v. IsInput (F.bytes_of files.now) (symbols_name report.now) v.items) }
    ensures refused { IfErr result (λ r. IsFileRefusal r ⊎ IsLongSymbols (F.bytes_of files.now) report.now r) }
{
    match report {
        Some(
            ReportArguments {
                report: Report::Profile { symbols },
                ..
            },
        ) => read_whole(files, alloc, symbols),
        _ => Ok(Vec::new(alloc)),
    }
}

/// The first bytes of a file, at most one for each turn. `TooLong` if these would be more than `MAX_FILE_SIZE` bytes.
fn read_console<F: NamedFiles>(
    files: &F,
    alloc: Global,
    file: &str,
    turns: u32,
) -> Result<Vec<u8>, Refusal>
    ensures first { IfOk result (λ v. IsFirst (F.bytes_of files.now file.now) turns v.items) }
    ensures refused { IfErr result (λ r. IsFileRefusal r
        ⊎ IsLong (F.bytes_of files.now file.now) max_size refusal.TooLong r) }
{
    if turns > MAX_FILE_SIZE {
        return read_whole(files, alloc, file);
    }
    read_beginning(files, alloc, file, u64::from(turns))
}

/// Reads the text, opens the output file, and assembles. Refuses with `LinkFault` an output file that has the bytes of
/// the text: it may be the text under another name.
pub(crate) fn asm<F: NamedFiles, E: Write>(
    alloc: Global,
    files: &F,
    arguments: &AsmArguments,
    errors: &mut E,
) -> Result<Told, Refusal>
    ensures ended { IfOk result (λ told. IfOk told (λ status. AsmEnded (F.bytes_of files.now) (F.created_of files.now)
        arguments.now status
        (written (E.contents errors.old) (E.contents errors.new)))) }
    ensures untold { IfOk result (λ told. OnErr told (ToTell (λ status errors. AsmEnded (F.bytes_of files.now)
        (F.created_of files.now) arguments.now status errors))) }
    ensures unbegun { IfErr result (λ r. IsUnread (F.bytes_of files.now) (asks.Asm arguments.now) r
        × (E.contents errors.new ≡ E.contents errors.old)) }
{
    let source = read_whole(files, alloc, arguments.source)?;
    keep_apart(files, alloc, arguments.output, &source)?;
    let mut file = files.create(arguments.output)?;
    Ok(asm_command(alloc, &source, &mut file, errors))
}

/// Reads the image, and writes its lines.
pub(crate) fn dis<F: NamedFiles, O: Write, E: Write>(
    alloc: Global,
    files: &F,
    arguments: &DisArguments,
    output: &mut O,
    errors: &mut E,
) -> Result<Told, Refusal>
    ensures ended { IfOk result (λ told. IfOk told (λ status. DisEnded (F.bytes_of files.now) arguments.now status
        (O.contents output.old) (written (E.contents errors.old) (E.contents errors.new)))) }
    ensures untold { IfOk result (λ told. OnErr told (ToTell (λ status errors. DisEnded (F.bytes_of files.now)
        arguments.now status (O.contents output.old) errors))) }
    ensures unbegun { IfErr result (λ r. IsUnread (F.bytes_of files.now) (asks.Dis arguments.now) r
        × (E.contents errors.new ≡ E.contents errors.old)) }
{
    let image = read_whole(files, alloc, arguments.image)?;
    let mut output = buffered(alloc, output)?;
    Ok(dis_command(alloc, arguments, &image, &mut output, errors))
}

/// Reads the image, and answers the script, or the extended session, that standard input gives.
pub(crate) fn debug<M: PagedMemory + Drop, F: NamedFiles, I: Read, O: Write, E: Write>(
    alloc: Global,
    files: &F,
    arguments: &DebugArguments,
    input: &mut I,
    output: &mut O,
    errors: &mut E,
) -> Result<Told, Refusal>
    ensures ended { IfOk result (λ told. IfOk told (λ status. DebugEnded (F.bytes_of files.now) arguments.now status
        (I.remaining input.old) (O.contents output.old) (written (E.contents errors.old) (E.contents errors.new)))) }
    ensures untold { IfOk result (λ told. OnErr told (ToTell (λ status errors. DebugEnded (F.bytes_of files.now)
        arguments.now status (I.remaining input.old) (O.contents output.old) errors))) }
    ensures unbegun { IfErr result (λ r. IsUnread (F.bytes_of files.now) (asks.Debug arguments.now) r
        × (E.contents errors.new ≡ E.contents errors.old)) }
{
    let image = read_image(files, alloc, &arguments.guest)?;
    let mut output = buffered(alloc, output)?;
    Ok(debug_command::<M, _, _, E>(alloc, arguments, &image, input, &mut output, errors))
}

/// Reads the image, opens the script, and answers it.
pub(crate) fn script<M: PagedMemory + Drop, F: NamedFiles, O: Write, E: Write>(
    alloc: Global,
    files: &F,
    arguments: &ScriptArguments,
    output: &mut O,
    errors: &mut E,
) -> Result<Told, Refusal>
    ensures ended { IfOk result (λ told. IfOk told (λ status. ScriptEnded (F.bytes_of files.now) arguments.now status
        (O.contents output.old) (written (E.contents errors.old) (E.contents errors.new)))) }
    ensures untold { IfOk result (λ told. OnErr told (ToTell (λ status errors. ScriptEnded (F.bytes_of files.now)
        arguments.now status (O.contents output.old) errors))) }
    ensures unbegun { IfErr result (λ r. IsUnread (F.bytes_of files.now) (asks.Script arguments.now) r
        × (E.contents errors.new ≡ E.contents errors.old)) }
{
    let image = begin_image(files, alloc, &arguments.guest)?;
    let mut script = files.open(arguments.script)?;
    check_image(&arguments.guest, &image)?;
    let mut output = buffered(alloc, output)?;
    Ok(script_command::<M, _, _, E>(alloc, arguments, &image, &mut script, &mut output, errors))
}

/// Reads the image, and moves its guest.
pub(crate) fn move_guest<
    M: PagedMemory + Drop + Send + 'static,
    Rt: AllocGlobal + Net + Threads + Wait + Clock + Sync,
    F: NamedFiles,
    O: Write,
    E: Write,
>(
    rt: &Rt,
    files: &F,
    arguments: &MoveArguments,
    output: &mut O,
    errors: &mut E,
) -> Result<Told, Refusal>
where
    Rt::Stream: Send,
    ensures ended { IfOk result (λ told. IfOk told (λ status. MoveEnded (F.bytes_of files.now) arguments.now status
        (written (O.contents output.old) (O.contents output.new))
        (written (E.contents errors.old) (E.contents errors.new)))) }
    ensures untold { IfOk result (λ told. OnErr told (ToTell (λ status errors. MoveEnded (F.bytes_of files.now)
        arguments.now status (written (O.contents output.old) (O.contents output.new)) errors))) }
    ensures unbegun { IfErr result (λ r. IsUnread (F.bytes_of files.now) (asks.Move arguments.now) r
        × (O.contents output.new ≡ O.contents output.old)
        × (E.contents errors.new ≡ E.contents errors.old)) }
{
    let image = read_image(files, rt.alloc(), &arguments.guest)?;
    Ok(move_command::<M, O, E, Rt>(rt, rt.alloc(), arguments, &image, output, errors))
}

/// Reads the image, moves its guest, and writes an order of what both hosts did.
pub(crate) fn audit<
    M: PagedMemory + Drop + Send,
    Rt: AllocGlobal + Net + Threads + Wait + Clock + Sync,
    F: NamedFiles,
    O: Write,
    E: Write,
>(
    rt: &Rt,
    files: &F,
    arguments: &MoveArguments,
    output: &mut O,
    errors: &mut E,
) -> Result<Told, Refusal>
where
    Rt::Stream: Send,
    ensures ended { IfOk result (λ told. IfOk told (λ status. AuditEnded (F.bytes_of files.now) arguments.now status
        (O.contents output.old) (written (E.contents errors.old) (E.contents errors.new)))) }
    ensures untold { IfOk result (λ told. OnErr told (ToTell (λ status errors. AuditEnded (F.bytes_of files.now)
        arguments.now status (O.contents output.old) errors))) }
    ensures unbegun { IfErr result (λ r. IsUnread (F.bytes_of files.now) (asks.Audit arguments.now) r
        × (E.contents errors.new ≡ E.contents errors.old)) }
{
    let image = read_image(files, rt.alloc(), &arguments.guest)?;
    let mut output = buffered(rt.alloc(), output)?;
    Ok(audit_command::<M, _, E, Rt>(rt, rt.alloc(), arguments, &image, &mut output, errors))
}

/// Reads the files of a host, and runs the host. If a file is refused, writes its name and the refusal to `errors`, and
/// returns the status 1.
#[tactic(auto, using(crate::proofs::Ended::host_ended))]
pub(crate) fn host<
    M: PagedMemory + Drop + Send,
    Rt: System + Net + Threads + Wait + 'static,
    F: NamedFiles,
    O: Write,
    E: Write,
>(rt: &Rt, files: &F, arguments: &HostArguments, output: &mut O, errors: &mut E) -> Told
where
    Rt::Stream: Send,
    Rt::Listener: Send + Sync,
    Rt::File: Send,
    ensures ended { IfOk result (λ status. HostEnded (F.bytes_of files.now) arguments.now status
        (written (O.contents output.old) (O.contents output.new))) }
{
    match read_host(rt, files, arguments) {
        Ok(read) => work_at_host::<M, Rt, O, E>(rt, arguments, &read, output, errors),
        Err((path, why)) => tell_file(path, why, errors),
    }
}

/// Runs a host whose files are read.
fn work_at_host<
    M: PagedMemory + Drop + Send,
    Rt: System + Net + Threads + Wait + 'static,
    O: Write,
    E: Write,
>(rt: &Rt, arguments: &HostArguments, read: &HostFiles, output: &mut O, errors: &mut E) -> Told
where
    Rt::Stream: Send,
    Rt::Listener: Send + Sync,
    Rt::File: Send,
    ensures status { IfOk result (λ status. (status ≡ 0) ⊎ (status ≡ 1)
        ⊎ ((status ≡ 3) × (arguments.now.verdict ≡ true))) }
    ensures done { IfOk result (λ status. status ≢ 1 → IsHostedTo arguments.now read.now.peers.items
        read.now.image.items status (O.contents output.old) (O.contents output.new)) }
{
    let bytes = HostBytes {
        peers: read.peers.as_slice(),
        image: read.image.as_slice(),
        secret: read.secret.as_deref(),
    };
    host_command::<M, O, E, Rt>(
        rt,
        rt.alloc(),
        arguments,
        &bytes,
        &read.input,
        output,
        errors,
    )
}

/// What the files of a host hold.
#[derive(Drop)]
struct HostFiles {
    peers: Vec<u8>,
    image: Vec<u8>,
    secret: Option<Vec<u8>>,
    input: Arc<InputQueue>,
}

/// Reads the files of a host. Fails with the name of the first file that is refused, and the refusal.
fn read_host<'a, Rt: System + Threads + Wait + 'static, F: NamedFiles>(
    rt: &Rt,
    files: &F,
    arguments: &HostArguments<'a>,
) -> Result<HostFiles, (&'a str, Refusal)>
    ensures peers { IfOk result (λ r. IsFile (F.bytes_of files.now arguments.now.peers.now) r.peers.items) }
    ensures image { IfOk result (λ r. IsImage (F.bytes_of files.now) arguments.now.guest r.image.items) }
{
    let image = match &arguments.guest {
        Some(guest) => read_told_image(files, rt.alloc(), guest)?,
        None => Vec::new(rt.alloc()),
    };
    let secret = match arguments.secret {
        Some(path) => Some(read_told(files, rt.alloc(), path)?),
        None => None,
    };
    let read = HostFiles {
        peers: read_told(files, rt.alloc(), arguments.peers)?,
        image,
        secret,
        input: console_input(rt, files, arguments.input, arguments.peers)?,
    };
    for bytes in [
        read.peers.as_slice(),
        read.image.as_slice(),
        read.secret.as_deref().unwrap_or(&[]),
    ] {
        keep_from_journal(files, rt.alloc(), arguments.journal, bytes)?;
    }
    Ok(read)
}

/// Refuses the file of a journal, if one is kept and that may be a file with these bytes, which were read. Fails with its
/// name and the refusal.
fn keep_from_journal<'a, F: NamedFiles>(
    files: &F,
    alloc: Global,
    journal: Option<&'a str>,
    bytes: &[u8],
) -> Result<(), (&'a str, Refusal)> {
    let Some(path) = journal else {
        return Ok(());
    };
    match keep_read(files, alloc, path, bytes) {
        Ok(()) => Ok(()),
        Err(why) => Err((path, why)),
    }
}

/// Reads the files of a live run, and runs its guest. If a file is refused, writes its name and the refusal to `errors`, and
/// returns the status 1.
#[tactic(auto, using(crate::proofs::Ended::live_ended))]
pub(crate) fn live<
    M: PagedMemory + Drop,
    Rt: System + Threads + Wait + 'static,
    F: NamedFiles,
    O: Write,
    E: Write,
>(rt: &Rt, files: &F, arguments: &LiveArguments, output: &mut O, errors: &mut E) -> Told
    ensures ended { IfOk result (λ status. LiveEnded (F.bytes_of files.now) arguments.now status
        (written (O.contents output.old) (O.contents output.new))) }
    ensures untold { OnErr result (ToTell (λ status errors. LiveEnded (F.bytes_of files.now) arguments.now status
        (written (O.contents output.old) (O.contents output.new)))) }
{
    match read_live(rt, files, arguments) {
        Ok(read) => run_live::<M, Rt, O, E>(rt, arguments, &read, output, errors),
        Err((path, why)) => tell_file(path, why, errors),
    }
}

/// Runs the guest of a live run whose files are read.
fn run_live<M: PagedMemory + Drop, Rt: System + Wait, O: Write, E: Write>(
    rt: &Rt,
    arguments: &LiveArguments,
    read: &LiveFiles,
    output: &mut O,
    errors: &mut E,
) -> Told
    ensures status { IfOk result (λ status. IsLiveTo arguments.now read.now.image.items status
        (O.contents output.old) (O.contents output.new)) }
    ensures output { (end : Option HartsEnd) × IsLiveEnd arguments.now read.now.image.items end
        (O.contents output.old) (O.contents output.new) }
{
    live_command::<M, O, E, Rt>(
        rt,
        rt.alloc(),
        arguments,
        read.image.as_slice(),
        &read.input,
        output,
        errors,
    )
}

/// What the files of a live run hold.
#[derive(Drop)]
struct LiveFiles {
    image: Vec<u8>,
    input: Arc<InputQueue>,
}

/// Reads the files of a live run. Fails with the name of the first file that is refused, and the refusal.
fn read_live<'a, Rt: System + Threads + Wait + 'static, F: NamedFiles>(
    rt: &Rt,
    files: &F,
    arguments: &LiveArguments<'a>,
) -> Result<LiveFiles, (&'a str, Refusal)>
    ensures image { IfOk result (λ r. IsFile (F.bytes_of files.now arguments.now.guest.image.now) r.image.items) }
{
    let image = read_told_image(files, rt.alloc(), &arguments.guest)?;
    keep_from_journal(files, rt.alloc(), arguments.journal, &image)?;
    let input = console_input(rt, files, arguments.input, arguments.guest.image)?;
    Ok(LiveFiles { image, input })
}

/// The input of the guest's console: the bytes of a file, or those of standard input as they come, or none if `input`
/// is `None`. Fails with the name of the file, or with `name` if there is none, and the refusal.
fn console_input<'a, Rt: System + Threads + Wait + 'static, F: NamedFiles>(
    rt: &Rt,
    files: &F,
    input: Option<&'a str>,
    name: &'a str,
) -> Result<Arc<InputQueue>, (&'a str, Refusal)> {
    let path = input.unwrap_or(name);
    let queue = match input {
        None => queued(rt, &[]),
        Some(STANDARD_INPUT) => live_input(rt),
        Some(path) => queued(rt, &read_told(files, rt.alloc(), path)?),
    };
    match queue {
        Ok(queue) => Ok(queue),
        Err(_) => Err((path, Refusal::OutOfMemory)),
    }
}

/// The input of a guest's console, with these bytes.
fn queued<Rt: System>(rt: &Rt, bytes: &[u8]) -> Result<Arc<InputQueue>, AllocError> {
    Ok(Arc::new(rt.alloc(), InputQueue::with(rt.alloc(), bytes)?)?)
}

/// The input of a guest's console, which gets what comes from standard input. A thread of its own reads it, since only
/// the end of the process ends a read.
fn live_input<Rt: System + Threads + Wait + 'static>(
    rt: &Rt,
) -> Result<Arc<InputQueue>, AllocError> {
    let queue = Arc::new(rt.alloc(), InputQueue::new(rt.alloc()))?;
    read_beside(rt, rt.live_input(), Arc::try_clone(&queue)?)?;
    Ok(queue)
}

/// Starts a thread that reads bytes into the input of a guest's console. It ends with the process at the latest.
fn read_beside<Rt: Threads + Wait + Copy + Send + 'static, I: Read + Drop + Send + 'static>(
    rt: &Rt,
    reader: I,
    queue: Arc<InputQueue>,
) -> Result<(), AllocError> {
    let runtime = *rt;
    let begun = thread::spawn(rt, move || {
        let mut reader = reader;
        read_console_input(&runtime, &mut reader, &queue);
    });
    match begun {
        Ok(_reads_on) => Ok(()),
        Err(_) => Err(AllocError),
    }
}

/// All bytes of a file. Fails with its name and the refusal.
pub(crate) fn read_told<'a, F: NamedFiles>(
    files: &F,
    alloc: Global,
    path: &'a str,
) -> Result<Vec<u8>, (&'a str, Refusal)>
    ensures bytes { IfOk result (λ v. IsFile (F.bytes_of files.now path.now) v.items) }
    ensures refused { IfErr result (λ e. IsRefusedFile (F.bytes_of files.now e.0.now) e.1) }
{
    match read_whole(files, alloc, path) {
        Ok(bytes) => Ok(bytes),
        Err(why) => Err((path, why)),
    }
}

/// Reports that a file with this name was refused, in one line. Returns the status 1.
pub(crate) fn tell_file<E: Write>(path: &str, why: Refusal, errors: &mut E) -> Told
    ensures { IfOk result (λ status. (status ≡ 1)
        × Appends (E.contents errors.old) (E.contents errors.new) (file_text path.now why)) }
{
    writeln!(errors, "{path}: {why}")?;
    Ok(1)
}

/// All bytes of the file of an image. Fails with its name and the refusal.
fn read_told_image<'a, F: NamedFiles>(
    files: &F,
    alloc: Global,
    guest: &GuestArguments<'a>,
) -> Result<Vec<u8>, (&'a str, Refusal)>
    ensures { IfOk result (λ v. IsFile (F.bytes_of files.now guest.now.image.now) v.items) }
{
    match read_image(files, alloc, guest) {
        Ok(bytes) => Ok(bytes),
        Err(why) => Err((guest.image, why)),
    }
}

/// Tells a host a line, or each line of standard input, and writes its answers. Returns the status: 0 if all that was
/// asked happened, 1 if something did not, 3 if an answer was lost. Reports in `errors` if the host cannot be reached,
/// and if an answer was lost. How far a move has come is shown while it goes on.
pub(crate) fn tell<Rt: System + Net, I: Read, O: Write, E: Write>(
    rt: &Rt,
    arguments: &TellArguments,
    input: &mut I,
    output: &mut O,
    errors: &mut E,
) -> Told
    ensures { IfOk result TellEnded }
{
    let stream = match connect_to(rt, arguments.control) {
        Ok(stream) => stream,
        Err(error) => {
            writeln!(errors, "{}: {error}", arguments.control)?;
            return Ok(1);
        }
    };
    let status = match arguments.line {
        Some(line) => {
            let mut line = line.as_bytes();
            tell_command(rt.alloc(), stream, &mut line, output, &mut rt.progress())
        }
        None => {
            let mut lines = BufReader::new(rt.alloc(), input)?;
            tell_command(rt.alloc(), stream, &mut lines, output, &mut rt.progress())
        }
    };
    if status == LOST {
        writeln!(
            errors,
            "an answer of {} was lost: ask for its status",
            arguments.control
        )?;
    }
    Ok(status)
}

/// An empty buffer in front of a writer.
#[tactic(auto, using(crate::proofs::Buffers::nothing_held))]
pub(crate) fn buffered<W: Write + Drop>(alloc: Global, writer: W) -> Result<BufWriter<W>, Refusal>
    ensures empty { IfOk result (λ b. writer_contents W.contents b ≡ W.contents writer) }
    ensures refused { IfErr result IsFileRefusal }
{
    match BufWriter::new(alloc, writer) {
        Ok(buffer) => Ok(buffer),
        Err(error) => Err(refusal_of(error)),
    }
}
