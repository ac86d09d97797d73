//! The commands over journals of hosts. Each reads the files that the command line names, in their order there but the
//! image first, and calls the command over values. If a file is refused, each writes its name and the refusal.

ghost use Rattle.std.specs.Prelude.{◌≡◌, ◌∷◌, ◌++◌, [], List, None, Option, Some, ℕ, IfErr, IfOk, OnErr, OnOk, length, map};
ghost use Rattle.std.specs.Io.Buffered.{reader_remaining};
ghost use Rattle.rvm_journal.specs.Whole.{IsJournal};
ghost use Rattle.rvm_refusal.specs.declared.refusal.Refusal.TheVariants.{OutOfMemory};
ghost use Rattle.rvm_replay.specs.Journals.{AreTexts, JournalText, known_in};
ghost use Rattle.rvm_replay.specs.Replays.{HasReplayStatus};
ghost use Rattle.rvm_program.specs.Ended.{AreGiven, AreTurnsMade, IsAnswerEnd, IsAuditEnd, IsDrawnEnd, IsFileOrNone, IsReplayed, IsTurnsAnswerEnd, JournalsEnded, ReplayEnded, ToTell, TurnsEnded, text_of, written};
ghost use Rattle.rvm_files.specs.Files.{IsCreated, IsFile, IsFileRefusal, IsOpened, IsRefusedFile, Named};

use crate::commands::{STANDARD_INPUT, Told, buffered, read_told, tell_file};
use rvm_arguments::{AuditJournalsArguments, ReplayArguments, ReplayTurnsArguments};
use rvm_command::refused::{Refused, tell};
use rvm_files::{MAX_JOURNAL_SIZE, NamedFiles, keep_read, read_file, refusal_of};
use rvm_mem::PagedMemory;
use rvm_refusal::Refusal;
use rvm_replay::audit::{AuditText, audit_journals as audit_files};
use rvm_replay::replay_command::replay_command;
use rvm_replay::replay_session::replay_session;
use rvm_replay::turn_session::{replay_turns as replay_files, slices_of};
use std::alloc::Global;
use std::io::{BufRead, BufReader, Read, Write};

/// Opens a journal, reads the image with which its host began, and has the host do again what the journal tells. If a file is
/// refused, writes its name and the refusal to `errors`, and returns the status 1.
pub(crate) fn replay<M: PagedMemory + Drop, F: NamedFiles, I: Read, O: Write, E: Write>(
    alloc: Global,
    files: &F,
    arguments: &ReplayArguments,
    input: &mut I,
    output: &mut O,
    errors: &mut E,
) -> Told
    ensures ended { IfOk result (λ status. ReplayEnded (F.bytes_of files.now) arguments.now status
        (I.remaining input.old) (written (O.contents output.old) (O.contents output.new))
        (written (E.contents errors.old) (E.contents errors.new))) }
    ensures untold { OnErr result (ToTell (λ status errors. ReplayEnded (F.bytes_of files.now) arguments.now status
        (I.remaining input.old) (written (O.contents output.old) (O.contents output.new)) errors)) }
{
    match open_replayed(alloc, files, arguments) {
        Ok(opened) => replay_opened::<M, F, _, I, O, E>(
            alloc, files, arguments, opened, input, output, errors,
        ),
        Err((path, why)) => tell_file(path, why, errors),
    }
}

/// Has the host of a journal do again what the journal tells, and writes what its guest sent; or answers the session that
/// is named, for the guest that is then at the host.
fn replay_opened<
    M: PagedMemory + Drop,
    F: NamedFiles,
    J: BufRead + Drop,
    I: Read,
    O: Write,
    E: Write,
>(
    alloc: Global,
    files: &F,
    arguments: &ReplayArguments,
    opened: ReplayFiles<J>,
    input: &mut I,
    output: &mut O,
    errors: &mut E,
) -> Told
    ensures ended { IfOk result (λ status. (journal : List ℕ) × IsJournal (J.remaining opened.journal) journal
        × IsReplayed (F.bytes_of files.now) arguments.now status journal opened.image.items (I.remaining input.old)
        (written (O.contents output.old) (O.contents output.new))
        (written (E.contents errors.old) (E.contents errors.new))) }
    ensures untold { OnErr result ((journal : List ℕ) × IsJournal (J.remaining opened.journal) journal
        × ToTell (λ status errors. IsReplayed (F.bytes_of files.now) arguments.now status journal opened.image.items
        (I.remaining input.old) (written (O.contents output.old) (O.contents output.new)) errors)) }
{
    let Some(script) = arguments.script else {
        return show_replay::<M, J, O, E>(alloc, arguments, opened, output, errors);
    };
    if script == STANDARD_INPUT {
        return answer_replay::<M, J, I, O, E>(alloc, arguments, opened, input, output, errors);
    }
    match files.open(script) {
        Ok(mut script) => answer_replay::<M, J, F::Opened, O, E>(
            alloc,
            arguments,
            opened,
            &mut script,
            output,
            errors,
        ),
        Err(why) => tell_file(script, why, errors),
    }
}

/// Has the host of a journal do again what the journal tells, and writes what its guest sent.
fn show_replay<M: PagedMemory + Drop, J: BufRead + Drop, O: Write, E: Write>(
    alloc: Global,
    arguments: &ReplayArguments,
    opened: ReplayFiles<J>,
    output: &mut O,
    errors: &mut E,
) -> Told
    ensures ended { IfOk result (λ status. (journal : List ℕ) × IsJournal (J.remaining opened.journal) journal
        × HasReplayStatus status arguments.now.journal.now arguments.now.until journal opened.image.items
        (O.contents output.old) (O.contents output.new) (E.contents errors.old) (E.contents errors.new)) }
    ensures untold { OnErr result ((journal : List ℕ) × IsJournal (J.remaining opened.journal) journal
        × ToTell (λ status errors. HasReplayStatus status arguments.now.journal.now arguments.now.until journal
        opened.image.items (O.contents output.old) (O.contents output.new) errors.before errors.after)) }
{
    replay_command::<M, J, O, E>(
        alloc,
        arguments.journal,
        opened.journal,
        &opened.image,
        arguments.until,
        output,
        errors,
    )
}

/// Answers a session for the guest that is at the host of a journal, to a buffer in front of `output`.
fn answer_replay<M: PagedMemory + Drop, J: BufRead + Drop, R: Read, O: Write, E: Write>(
    alloc: Global,
    arguments: &ReplayArguments,
    opened: ReplayFiles<J>,
    session: &mut R,
    output: &mut O,
    errors: &mut E,
) -> Told
    ensures ended { (files : Named) → IfOk result (λ status. (journal : List ℕ)
        × IsJournal (J.remaining opened.journal) journal × IsAnswerEnd status files arguments.now
        journal opened.image.items (R.remaining session.old) (O.contents output.old)
        (written (E.contents errors.old) (E.contents errors.new))) }
    ensures untold { (files : Named) → OnErr result ((journal : List ℕ)
        × IsJournal (J.remaining opened.journal) journal × ToTell (λ status errors. IsAnswerEnd status files arguments.now
        journal opened.image.items (R.remaining session.old) (O.contents output.old) errors)) }
{
    match buffered(alloc, output) {
        Ok(mut output) => replay_session::<M, J, R, _, E>(
            alloc,
            arguments.journal,
            opened.journal,
            &opened.image,
            arguments.until,
            session,
            &mut output,
            errors,
        ),
        Err(why) => tell(Refused::from(why), errors),
    }
}

/// The files of a replay.
#[derive(Drop)]
struct ReplayFiles<J: Drop> {
    /// What reads the journal.
    journal: J,
    /// All bytes of the image.
    image: Vec<u8>,
}

/// Reads the image of a replay, and opens the journal. Fails with the name of the first file that is refused, and the refusal.
fn open_replayed<'a, F: NamedFiles>(
    alloc: Global,
    files: &F,
    arguments: &ReplayArguments<'a>,
) -> Result<ReplayFiles<BufReader<F::Opened>>, (&'a str, Refusal)>
    ensures journal { IfOk result (λ r. IsOpened (F.bytes_of files.now arguments.now.journal.now)
        (reader_remaining F.Opened.remaining r.journal)) }
    ensures image { IfOk result (λ r. IsFileOrNone (F.bytes_of files.now) arguments.now.image r.image.items) }
    ensures refused { IfErr result (λ e. IsRefusedFile (F.bytes_of files.now e.0.now) e.1) }
{
    let image = read_named(alloc, files, arguments.image)?;
    Ok(ReplayFiles {
        journal: open_journal(alloc, files, arguments.journal)?,
        image,
    })
}

/// Opens a journal for buffered reading. Fails with its name and the refusal.
fn open_journal<'a, F: NamedFiles>(
    alloc: Global,
    files: &F,
    path: &'a str,
) -> Result<BufReader<F::Opened>, (&'a str, Refusal)>
    ensures opened { IfOk result (λ r. IsOpened (F.bytes_of files.now path.now) (reader_remaining F.Opened.remaining r)) }
    ensures refused { IfErr result (λ e. IsRefusedFile (F.bytes_of files.now e.0.now) e.1) }
{
    match files.open(path) {
        Ok(file) => match BufReader::new(alloc, file) {
            Ok(reader) => Ok(reader),
            Err(error) => Err((path, refusal_of(error))),
        },
        Err(why) => Err((path, why)),
    }
}

/// All bytes of a file, or none if no file is named. Fails with its name and the refusal.
fn read_named<'a, F: NamedFiles>(
    alloc: Global,
    files: &F,
    name: Option<&'a str>,
) -> Result<Vec<u8>, (&'a str, Refusal)>
    ensures bytes { IfOk result (λ bytes. IsFileOrNone (F.bytes_of files.now) name.entry bytes.items) }
    ensures refused { IfErr result (λ e. IsRefusedFile (F.bytes_of files.now e.0.now) e.1) }
{
    match name {
        Some(name) => read_told(files, alloc, name),
        None => Ok(Vec::new(alloc)),
    }
}

/// Reads the journals of the hosts of a world and the image of its guest, and answers the session that is named for the guest
/// as it was after a turn. If a file is refused, writes its name and the refusal to `errors`, and returns the status 1.
pub(crate) fn replay_turns<
    M: PagedMemory + Drop,
    F: NamedFiles,
    I: Read,
    O: Write,
    P: Write,
    E: Write,
>(
    alloc: Global,
    files: &F,
    arguments: &ReplayTurnsArguments,
    input: &mut I,
    output: &mut O,
    progress: &mut P,
    errors: &mut E,
) -> Told
    ensures ended { IfOk result (λ status. TurnsEnded (F.bytes_of files.now) arguments.now status (I.remaining input.old)
        (O.contents output.old) (written (E.contents errors.old) (E.contents errors.new))) }
    ensures untold { OnErr result (ToTell (λ status errors. TurnsEnded (F.bytes_of files.now) arguments.now status
        (I.remaining input.old) (O.contents output.old) errors)) }
{
    match read_audited(alloc, files, arguments.image, arguments.journals.as_slice()) {
        Ok(read) => replay_turns_read::<M, F, I, O, P, E>(
            alloc, files, arguments, &read, input, output, progress, errors,
        ),
        Err((path, why)) => tell_file(path, why, errors),
    }
}

/// Answers the session that is named for the guest of journals that were read, as it was after a turn.
fn replay_turns_read<M: PagedMemory + Drop, F: NamedFiles, I: Read, O: Write, P: Write, E: Write>(
    alloc: Global,
    files: &F,
    arguments: &ReplayTurnsArguments,
    read: &AuditFiles,
    input: &mut I,
    output: &mut O,
    progress: &mut P,
    errors: &mut E,
) -> Told
    requires { length arguments.now.journals.items ≡ length read.now.journals.items }
    ensures ended { IfOk result (λ status. (journals : List JournalText)
        × AreTexts arguments.now.journals.items (known_in read.now.journals.items) journals
        × AreTurnsMade (F.bytes_of files.now) arguments.now status
        journals read.now.image.items (I.remaining input.old) (O.contents output.old)
        (written (E.contents errors.old) (E.contents errors.new))) }
    ensures untold { OnErr result ((journals : List JournalText)
        × AreTexts arguments.now.journals.items (known_in read.now.journals.items) journals
        × ToTell (λ status errors. AreTurnsMade (F.bytes_of files.now) arguments.now status
        journals read.now.image.items (I.remaining input.old) (O.contents output.old) errors)) }
{
    if arguments.script == STANDARD_INPUT {
        return answer_turns::<M, I, O, P, E>(
            alloc, arguments, read, input, output, progress, errors,
        );
    }
    match files.open(arguments.script) {
        Ok(mut script) => answer_turns::<M, F::Opened, O, P, E>(
            alloc,
            arguments,
            read,
            &mut script,
            output,
            progress,
            errors,
        ),
        Err(why) => tell_file(arguments.script, why, errors),
    }
}

/// Answers a session for the guest of journals as it was after a turn, to a buffer in front of `output`.
fn answer_turns<M: PagedMemory + Drop, R: Read, O: Write, P: Write, E: Write>(
    alloc: Global,
    arguments: &ReplayTurnsArguments,
    read: &AuditFiles,
    session: &mut R,
    output: &mut O,
    progress: &mut P,
    errors: &mut E,
) -> Told
    requires { length arguments.now.journals.items ≡ length read.now.journals.items }
    ensures ended { (files : Named) → IfOk result (λ status. (journals : List JournalText)
        × AreTexts arguments.now.journals.items (known_in read.now.journals.items) journals
        × IsTurnsAnswerEnd status files arguments.now
        journals read.now.image.items (R.remaining session.old) (O.contents output.old)
        (written (E.contents errors.old) (E.contents errors.new))) }
    ensures untold { (files : Named) → OnErr result ((journals : List JournalText)
        × AreTexts arguments.now.journals.items (known_in read.now.journals.items) journals
        × ToTell (λ status errors. IsTurnsAnswerEnd status files arguments.now
        journals read.now.image.items (R.remaining session.old) (O.contents output.old) errors)) }
{
    match buffered(alloc, output) {
        Ok(mut output) => replay_files::<M, R, _, P, E>(
            alloc,
            arguments.journals.as_slice(),
            read.journals.as_slice(),
            &read.image,
            arguments.turns,
            session,
            &mut output,
            progress,
            errors,
        ),
        Err(why) => tell(Refused::from(why), errors),
    }
}

/// Audits the journals of the hosts of a world, and writes what is asked for: a chart to its file, or else the order or a
/// summary to `output`. If a file is refused, writes its name and the refusal to `errors`, and returns the status 1.
pub(crate) fn audit_journals<M: PagedMemory + Drop, F: NamedFiles, O: Write, P: Write, E: Write>(
    alloc: Global,
    files: &F,
    arguments: &AuditJournalsArguments,
    output: &mut O,
    progress: &mut P,
    errors: &mut E,
) -> Told
    ensures ended { IfOk result (λ status. JournalsEnded (F.bytes_of files.now) (F.created_of files.now) arguments.now
        status (O.contents output.old) (written (E.contents errors.old) (E.contents errors.new))) }
    ensures untold { OnErr result (ToTell (λ status errors. JournalsEnded (F.bytes_of files.now) (F.created_of files.now)
        arguments.now status (O.contents output.old) errors)) }
{
    match arguments.chart {
        Some(chart) => draw_journals::<M, F, P, E>(
            alloc, files, arguments, chart, progress, errors,
        ),
        None => show_journals::<M, F, O, P, E>(alloc, files, arguments, output, progress, errors),
    }
}

/// Audits journals that are read line by line, and writes the order or a summary to `output`.
fn show_journals<M: PagedMemory + Drop, F: NamedFiles, O: Write, P: Write, E: Write>(
    alloc: Global,
    files: &F,
    arguments: &AuditJournalsArguments,
    output: &mut O,
    progress: &mut P,
    errors: &mut E,
) -> Told
    requires { arguments.now.chart ≡ None }
    ensures ended { IfOk result (λ status. JournalsEnded (F.bytes_of files.now) (F.created_of files.now) arguments.now
        status (O.contents output.old) (written (E.contents errors.old) (E.contents errors.new))) }
    ensures untold { OnErr result (ToTell (λ status errors. JournalsEnded (F.bytes_of files.now) (F.created_of files.now)
        arguments.now status (O.contents output.old) errors)) }
{
    match open_audited(alloc, files, arguments.image, arguments.journals.as_slice()) {
        Ok(opened) => audit_inputs::<M, _, O, P, E>(
            alloc,
            arguments.journals.as_slice(),
            opened.journals,
            &opened.image,
            text_of(arguments.order),
            output,
            progress,
            errors,
        ),
        Err((path, why)) => tell_file(path, why, errors),
    }
}

/// Audits journals that are read whole, and writes a chart to the file with this name, which is created or emptied.
fn draw_journals<M: PagedMemory + Drop, F: NamedFiles, P: Write, E: Write>(
    alloc: Global,
    files: &F,
    arguments: &AuditJournalsArguments,
    chart: &str,
    progress: &mut P,
    errors: &mut E,
) -> Told
    requires { arguments.now.chart ≡ Some chart }
    ensures ended { (output : Option (List ℕ)) → IfOk result (λ status. JournalsEnded (F.bytes_of files.now)
        (F.created_of files.now) arguments.now status output (written (E.contents errors.old) (E.contents errors.new))) }
    ensures untold { (output : Option (List ℕ)) → OnErr result (ToTell (λ status errors. JournalsEnded
        (F.bytes_of files.now) (F.created_of files.now) arguments.now status output errors)) }
{
    match read_audited(alloc, files, arguments.image, arguments.journals.as_slice()) {
        Ok(read) => draw_audit::<M, F, P, E>(
            alloc,
            files,
            arguments.journals.as_slice(),
            chart,
            &read,
            progress,
            errors,
        ),
        Err((path, why)) => tell_file(path, why, errors),
    }
}

/// Audits journals that were read, and writes a chart to the file with this name. If the file is refused, writes its name and
/// the refusal to `errors`, and returns the status 1.
fn draw_audit<M: PagedMemory + Drop, F: NamedFiles, P: Write, E: Write>(
    alloc: Global,
    files: &F,
    names: &[&str],
    chart: &str,
    read: &AuditFiles,
    progress: &mut P,
    errors: &mut E,
) -> Told
    requires { length names.now ≡ length read.now.journals.items }
    ensures ended { IfOk result (λ status. (journals : List JournalText)
        × AreTexts names.now (known_in read.now.journals.items) journals
        × IsDrawnEnd (F.bytes_of files.now) (F.created_of files.now) chart.now status
        journals read.now.image.items (written (E.contents errors.old) (E.contents errors.new))) }
    ensures untold { OnErr result ((journals : List JournalText)
        × AreTexts names.now (known_in read.now.journals.items) journals
        × ToTell (λ status errors. IsDrawnEnd (F.bytes_of files.now) (F.created_of files.now)
        chart.now status journals read.now.image.items errors)) }
{
    let Ok(slices) = slices_of(alloc, read.journals.as_slice()) else {
        return tell(Refused::from(Refusal::OutOfMemory), errors);
    };
    match create_chart(alloc, files, chart, read) {
        Ok(mut file) => audit_inputs::<M, &[u8], F::Created, P, E>(
            alloc,
            names,
            slices,
            &read.image,
            AuditText::Chart,
            &mut file,
            progress,
            errors,
        ),
        Err(why) => tell_file(chart, why, errors),
    }
}

/// Creates or empties the file of a chart. Refuses with `LinkFault` one that may be a file that was read.
fn create_chart<F: NamedFiles>(
    alloc: Global,
    files: &F,
    chart: &str,
    read: &AuditFiles,
) -> Result<F::Created, Refusal>
    ensures created { IfOk result (λ file. IsCreated (F.created_of files.now chart.now) (F.Created.contents file)) }
    ensures refused { IfErr result IsFileRefusal }
{
    keep_read(files, alloc, chart, &read.image)?;
    for journal in read.journals.iter() {
        keep_begun(files, alloc, chart, journal)?;
    }
    files.create(chart)
}

/// Refuses with `LinkFault` a file that is to be written, keeps its bytes, and begins with these, which were read of a journal:
/// it may be the file of that journal, under another name, to which a host has written more.
fn keep_begun<F: NamedFiles>(
    files: &F,
    alloc: Global,
    path: &str,
    bytes: &[u8],
) -> Result<(), Refusal>
    ensures refused { IfErr result IsFileRefusal }
{
    let Some(file) = files.open_kept(path) else {
        return Ok(());
    };
    if begins(alloc, file, bytes)? {
        return Err(Refusal::LinkFault);
    }
    Ok(())
}

/// Whether these are some bytes, and a reader gives them first.
fn begins<R: Read + Drop>(alloc: Global, mut reader: R, bytes: &[u8]) -> Result<bool, Refusal>
    ensures refused { IfErr result IsFileRefusal }
{
    let mut begun = Vec::new(alloc);
    let mut limited = (&mut reader).take(bytes.len() as u64);
    match limited.read_to_end(&mut begun) {
        Ok(_) => Ok(!bytes.is_empty() && begun.as_slice() == bytes),
        Err(error) => Err(refusal_of(error)),
    }
}

/// The files of an audit of journals that are read line by line.
#[derive(Drop)]
struct OpenFiles<J: Drop> {
    /// What reads the journals.
    journals: Vec<J>,
    /// All bytes of the image.
    image: Vec<u8>,
}

/// Reads the image of an audit, and opens the journals. Fails with the name of the first file that is refused, and the
/// refusal.
fn open_audited<'a, F: NamedFiles>(
    alloc: Global,
    files: &F,
    image: &'a str,
    journals: &[&'a str],
) -> Result<OpenFiles<BufReader<F::Opened>>, (&'a str, Refusal)>
    ensures journals { IfOk result (λ r. AreGiven (F.bytes_of files.now) journals.now
        (map (reader_remaining F.Opened.remaining) r.journals.items)) }
    ensures image { IfOk result (λ r. IsFile (F.bytes_of files.now image.now) r.image.items) }
    ensures refused { IfErr result (λ e. IsRefusedFile (F.bytes_of files.now e.0.now) e.1) }
{
    let image = read_told(files, alloc, image)?;
    let mut opened = Vec::new(alloc);
    for index in 0..journals.len() {
        let journal = open_journal(alloc, files, journals[index])?;
        keep_told(&mut opened, journal, journals[index])?;
    }
    Ok(OpenFiles {
        journals: opened,
        image,
    })
}

/// What the files of an audit of journals hold.
#[derive(Drop)]
struct AuditFiles {
    journals: Vec<Vec<u8>>,
    image: Vec<u8>,
}

/// Reads the files of an audit: an image, and journals. Fails with the name of the first file that is refused, and the
/// refusal.
fn read_audited<'a, F: NamedFiles>(
    alloc: Global,
    files: &F,
    image: &'a str,
    journals: &[&'a str],
) -> Result<AuditFiles, (&'a str, Refusal)>
    ensures journals { IfOk result (λ r. AreGiven (F.bytes_of files.now) journals.now (known_in r.journals.items)) }
    ensures image { IfOk result (λ r. IsFile (F.bytes_of files.now image.now) r.image.items) }
    ensures refused { IfErr result (λ e. IsRefusedFile (F.bytes_of files.now e.0.now) e.1) }
{
    let image = read_told(files, alloc, image)?;
    let mut read = Vec::new(alloc);
    for index in 0..journals.len() {
        let journal = read_journal(files, alloc, journals[index])?;
        keep_told(&mut read, journal, journals[index])?;
    }
    Ok(AuditFiles {
        journals: read,
        image,
    })
}

/// All bytes of a journal. Fails with its name and the refusal.
fn read_journal<'a, F: NamedFiles>(
    files: &F,
    alloc: Global,
    path: &'a str,
) -> Result<Vec<u8>, (&'a str, Refusal)>
    ensures bytes { IfOk result (λ v. IsFile (F.bytes_of files.now path.now) v.items) }
    ensures refused { IfErr result (λ e. IsRefusedFile (F.bytes_of files.now e.0.now) e.1) }
{
    match read_file(files, alloc, path, MAX_JOURNAL_SIZE, Refusal::TooLong) {
        Ok(bytes) => Ok(bytes),
        Err(why) => Err((path, why)),
    }
}

/// Keeps what was opened or read of one more file. Fails with its name if memory runs out.
fn keep_told<'a, T: Drop>(all: &mut Vec<T>, one: T, path: &'a str) -> Result<(), (&'a str, Refusal)>
    ensures kept { OnOk result (all.new.items ≡ all.old.items ++ one ∷ []) }
    ensures memory { IfErr result (λ e. e.1 ≡ OutOfMemory) }
{
    match all.push(one) {
        Ok(()) => Ok(()),
        Err(_) => Err((path, Refusal::OutOfMemory)),
    }
}

/// Audits journals that are read from `inputs`, and writes what is asked for to a buffer in front of `output`.
fn audit_inputs<M: PagedMemory + Drop, J: BufRead + Drop, O: Write, P: Write, E: Write>(
    alloc: Global,
    names: &[&str],
    inputs: Vec<J>,
    image: &[u8],
    text: AuditText,
    output: &mut O,
    progress: &mut P,
    errors: &mut E,
) -> Told
    requires { length names.now ≡ length inputs.items }
    ensures audited { (files : Named) → IfOk result (λ status. (journals : List JournalText)
        × AreTexts names.now (map J.remaining inputs.items) journals × IsAuditEnd status files journals
        image.now text (O.contents output.old) (written (E.contents errors.old) (E.contents errors.new))) }
    ensures untold { (files : Named) → OnErr result ((journals : List JournalText)
        × AreTexts names.now (map J.remaining inputs.items) journals × ToTell (λ status errors. IsAuditEnd status
        files journals image.now text (O.contents output.old) errors)) }
{
    match buffered(alloc, output) {
        Ok(mut output) => audit_files::<M, J, _, P, E>(
            alloc,
            names,
            inputs,
            image,
            text,
            &mut output,
            progress,
            errors,
        ),
        Err(why) => tell(Refused::from(why), errors),
    }
}

/// What an audit of journals writes.
fn text_of(order: bool) -> AuditText
    ensures { result ≡ text_of order }
{
    if order {
        AuditText::Order
    } else {
        AuditText::Summary
    }
}
