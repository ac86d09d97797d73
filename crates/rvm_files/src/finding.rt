//! Finds what is wrong with the files that a command line names, after its command was refused. The files are read
//! again, and only those that keep their bytes: what a device or a pipe gave is gone.

ghost use Rattle.std.specs.Prelude.{◌≡◌, ◌+◌, ◌≤◌, IfOk, IfSome, length, true};
ghost use Rattle.std.specs.Str.{IsValidUpTo};
ghost use Rattle.rvm_files.specs.declared.defect.Defect.TheVariants.{SameBytes};
ghost use Rattle.rvm_files.specs.Files.{IsFile, IsFirst};
ghost use Rattle.rvm_files.specs.Found.{HasLine, IsFileDefect, IsLongDefect, IsTrue, IsTrueOf, IsUnreadDefect};
ghost use Rattle.rvm_files.specs.SavedFaults.{BeginsSaved};

use crate::defect::Defect;
use crate::file_fault::FileFault;
use crate::files::{MAX_FILE_SIZE, MAX_JOURNAL_SIZE, NamedFiles, keep_apart, read_first};
use crate::found::Found;
use crate::headers::elf_fault;
use crate::image_parts::outside_part;
use crate::images::image_limit;
use crate::line_fault::{LineDefect, LineFault, line_defect};
use crate::refusal_report::RefusalReport;
use crate::saved_fault::SavedFault;
use rvm_arguments::{
    Arguments, AsmArguments, AuditJournalsArguments, DisArguments, GuestArguments, HostArguments,
    LiveArguments, OrdersArguments, ReplayArguments, ReplayTurnsArguments, Report, ReportArguments,
    RunArguments, ScriptArguments,
};
use rvm_asm::{AsmError, assemble};
use rvm_elf::read_image;
use rvm_refusal::Refusal;
use std::alloc::Global;
use std::str;

/// The name of a file that stands for standard input.
const STANDARD_INPUT: &str = "-";

/// The files of a command that was refused, and its report. A host has no such report.
#[derive(Drop)]
pub(crate) struct Refusing<'b, F> {
    pub(crate) files: &'b F,
    pub(crate) alloc: Global,
    pub(crate) report: Option<RefusalReport<'b>>,
}

impl<'b, F: NamedFiles> Refusing<'b, F> {
    /// The first thing wrong with what a command line names, in the order in which its command reads it, for which the
    /// command may be refused as it was.
    pub(crate) fn find<'a>(&self, arguments: &Arguments<'a>) -> Option<Found<'a>>
        ensures { IfSome result (IsTrue (F.bytes_of self.now.files.now)) }
    {
        match arguments {
            Arguments::Run(run) => self.find_in_run(run),
            Arguments::Live(live) => self.find_in_live(live),
            Arguments::Orders(orders) => self.find_in_orders(orders),
            Arguments::Asm(asm) => self.find_in_asm(asm),
            Arguments::Dis(dis) => self.find_in_dis(dis),
            Arguments::Debug(debug) => self.find_in_guest(&debug.guest),
            Arguments::Script(script) => self.find_in_script(script),
            Arguments::Move(moved) => self.find_in_guest(&moved.guest),
            Arguments::Audit(moved) => self.find_in_guest(&moved.guest),
            Arguments::Host(host) => self.find_in_host(host),
            Arguments::Tell(_) => None,
            Arguments::Replay(replay) => self.find_in_replay(replay),
            Arguments::ReplayTurns(replay) => self.find_in_replay_turns(replay),
            Arguments::AuditJournals(audit) => self.find_in_audit(audit),
        }
    }

    /// What is wrong with the files of `run`.
    fn find_in_run<'a>(&self, run: &RunArguments<'a>) -> Option<Found<'a>>
        ensures { IfSome result (IsTrue (F.bytes_of self.now.files.now)) }
    {
        if let Some(found) = self.find_in_image(&run.guest) {
            return Some(found);
        }
        if let Some(found) = self.find_in_input(run.input, run.steps) {
            return Some(found);
        }
        if let Some(found) = self.find_in_symbols(run) {
            return Some(found);
        }
        if let Some(found) = self.find_in_outputs(run) {
            return Some(found);
        }
        self.find_in_first_guest(&run.guest)
    }

    /// What is wrong with the files of a live run, in the order in which it reads them.
    fn find_in_live<'a>(&self, live: &LiveArguments<'a>) -> Option<Found<'a>>
        ensures { IfSome result (IsTrue (F.bytes_of self.now.files.now)) }
    {
        if let Some(found) = self.find_in_image(&live.guest) {
            return Some(found);
        }
        if let Some(found) = self.find_in_typed(live.input) {
            return Some(found);
        }
        if let Some(found) = self.find_in_log(live.journal) {
            return Some(found);
        }
        self.find_in_first_guest(&live.guest)
    }

    /// What is wrong with the files of `run --orders`.
    fn find_in_orders<'a>(&self, orders: &OrdersArguments<'a>) -> Option<Found<'a>>
        ensures { IfSome result (IsTrue (F.bytes_of self.now.files.now)) }
    {
        if let Some(found) = self.find_in_image(&orders.guest) {
            return Some(found);
        }
        if let Some(found) = self.find_in_input(orders.input, orders.steps) {
            return Some(found);
        }
        self.find_outside(&orders.guest)
    }

    /// What is wrong with the file of the bytes for the console of a run of at most this many turns, if it has one.
    #[tactic(auto, using(crate::proofs::Told::unreadable_is_true))]
    fn find_in_input<'a>(&self, input: Option<&'a str>, turns: u32) -> Option<Found<'a>>
        ensures { IfSome result (IsTrue (F.bytes_of self.now.files.now)) }
    {
        let file = input?;
        if turns > MAX_FILE_SIZE {
            return self.find_in_file(file, MAX_FILE_SIZE);
        }
        self.found(file, unreadable(self.files, self.alloc, file, turns))
    }

    /// What is wrong with the file of the symbols of `run`, if it has one.
    fn find_in_symbols<'a>(&self, run: &RunArguments<'a>) -> Option<Found<'a>>
        ensures { IfSome result (IsTrue (F.bytes_of self.now.files.now)) }
    {
        match run.report {
            Some(
                ReportArguments {
                    report: Report::Profile { symbols },
                    ..
                },
            ) => self.find_in_file(symbols, MAX_FILE_SIZE),
            _ => None,
        }
    }

    /// What is wrong with the files that `run` writes, if it writes any.
    fn find_in_outputs<'a>(&self, run: &RunArguments<'a>) -> Option<Found<'a>>
        ensures { IfSome result (IsTrue (F.bytes_of self.now.files.now)) }
    {
        if let Some(trace) = &run.trace {
            if let Some(found) = self.find_in_output(trace.file) {
                return Some(found);
            }
        }
        match &run.report {
            Some(report) => self.find_in_output(report.file),
            None => None,
        }
    }

    /// What is wrong with the files of `asm`.
    fn find_in_asm<'a>(&self, asm: &AsmArguments<'a>) -> Option<Found<'a>>
        ensures { IfSome result (IsTrue (F.bytes_of self.now.files.now)) }
    {
        if let Some(found) = self.find_in_file(asm.source, MAX_FILE_SIZE) {
            return Some(found);
        }
        if let Some(found) = self.find_same(asm) {
            return Some(found);
        }
        if let Some(found) = self.find_in_output(asm.output) {
            return Some(found);
        }
        self.find_in_text(asm.source)
    }

    /// What is wrong with the image of `dis`.
    fn find_in_dis<'a>(&self, dis: &DisArguments<'a>) -> Option<Found<'a>>
        ensures { IfSome result (IsTrue (F.bytes_of self.now.files.now)) }
    {
        if let Some(found) = self.find_in_file(dis.image, MAX_FILE_SIZE) {
            return Some(found);
        }
        if dis.raw {
            return None;
        }
        self.find_in_elf(dis.image)
    }

    /// What is wrong with the image of a guest, and with nothing else.
    fn find_in_guest<'a>(&self, guest: &GuestArguments<'a>) -> Option<Found<'a>>
        ensures { IfSome result (IsTrue (F.bytes_of self.now.files.now)) }
    {
        if let Some(found) = self.find_in_image(guest) {
            return Some(found);
        }
        self.find_outside(guest)
    }

    /// What is wrong with the files of `script`, or with its hosts.
    fn find_in_script<'a>(&self, script: &ScriptArguments<'a>) -> Option<Found<'a>>
        ensures { IfSome result (IsTrue (F.bytes_of self.now.files.now)) }
    {
        if let Some(found) = self.find_in_image(&script.guest) {
            return Some(found);
        }
        if let Some(found) = self.find_in_file(script.script, MAX_FILE_SIZE) {
            return Some(found);
        }
        if let Some(found) = self.find_outside(&script.guest) {
            return Some(found);
        }
        if let Some(found) = self.find_streams(script) {
            return Some(found);
        }
        self.find_script_line(script.script)
    }

    /// What is wrong with the files of `host`, in the order in which it reads them.
    pub(crate) fn find_in_host<'a>(&self, host: &HostArguments<'a>) -> Option<Found<'a>>
        ensures { IfSome result (IsTrue (F.bytes_of self.now.files.now)) }
    {
        if let Some(guest) = &host.guest {
            if let Some(found) = self.find_in_image(guest) {
                return Some(found);
            }
            if let Some(found) = self.find_in_first_guest(guest) {
                return Some(found);
            }
        }
        if let Some(found) = self.find_in_optional(host.secret) {
            return Some(found);
        }
        if let Some(found) = self.find_in_file(host.peers, MAX_FILE_SIZE) {
            return Some(found);
        }
        if let Some(found) = self.find_in_typed(host.input) {
            return Some(found);
        }
        self.find_in_log(host.journal)
    }

    /// What is wrong with a file that is read whole, if one is named, and not standard input.
    fn find_in_typed<'a>(&self, input: Option<&'a str>) -> Option<Found<'a>>
        ensures { IfSome result (IsTrue (F.bytes_of self.now.files.now)) }
    {
        match input {
            Some(STANDARD_INPUT) => None,
            input => self.find_in_optional(input),
        }
    }

    /// What is wrong with the file of a journal, if one is kept. The file is not made.
    #[tactic(auto, using(crate::proofs::Told::fault_is_true))]
    fn find_in_log<'a>(&self, journal: Option<&'a str>) -> Option<Found<'a>>
        ensures { IfSome result (IsTrue (F.bytes_of self.now.files.now)) }
    {
        let file = journal?;
        match self.files.write_fault(file) {
            Some(fault) => self.found(file, Some(Defect::File(fault))),
            None => None,
        }
    }

    /// What is wrong with the files of `replay`, in the order in which it reads them.
    fn find_in_replay<'a>(&self, replay: &ReplayArguments<'a>) -> Option<Found<'a>>
        ensures { IfSome result (IsTrue (F.bytes_of self.now.files.now)) }
    {
        if let Some(found) = self.find_in_optional(replay.image) {
            return Some(found);
        }
        if let Some(found) = self.find_in_file(replay.journal, MAX_JOURNAL_SIZE) {
            return Some(found);
        }
        self.find_in_typed(replay.script)
    }

    /// What is wrong with the files of `replay --turns`, in the order in which it reads them.
    fn find_in_replay_turns<'a>(&self, replay: &ReplayTurnsArguments<'a>) -> Option<Found<'a>>
        ensures { IfSome result (IsTrue (F.bytes_of self.now.files.now)) }
    {
        if let Some(found) = self.find_in_file(replay.image, MAX_FILE_SIZE) {
            return Some(found);
        }
        if let Some(found) = self.find_in_journals(replay.journals.as_slice()) {
            return Some(found);
        }
        self.find_in_typed(Some(replay.script))
    }

    /// What is wrong with the files of `audit-journals`.
    fn find_in_audit<'a>(&self, audit: &AuditJournalsArguments<'a>) -> Option<Found<'a>>
        ensures { IfSome result (IsTrue (F.bytes_of self.now.files.now)) }
    {
        if let Some(found) = self.find_in_file(audit.image, MAX_FILE_SIZE) {
            return Some(found);
        }
        self.find_in_journals(audit.journals.as_slice())
    }

    /// What is wrong with the first of these journals with which something is.
    fn find_in_journals<'a>(&self, journals: &[&'a str]) -> Option<Found<'a>>
        ensures { IfSome result (IsTrue (F.bytes_of self.now.files.now)) }
    {
        for index in 0..journals.len() {
            if let Some(found) = self.find_in_file(journals[index], MAX_JOURNAL_SIZE) {
                return Some(found);
            }
        }
        None
    }

    /// Whether the command may be refused with this refusal for this file. A host may be, with whatever refusal.
    fn may_be(&self, refusal: Refusal, file: &str) -> bool {
        match self.report {
            Some(report) => report.is_of(refusal, file),
            None => true,
        }
    }

    /// A file and what is wrong with it, if something is for which the command may be refused as it was.
    fn found<'a>(&self, file: &'a str, defect: Option<Defect>) -> Option<Found<'a>>
        requires { IfSome defect (λ c. IfSome (F.bytes_of self.now.files.now file.now) (λ all. IsTrueOf all c)) }
        ensures { IfSome result (IsTrue (F.bytes_of self.now.files.now)) }
    {
        let defect = defect?;
        if self.may_be(defect.refusal(), file) {
            Some(Found::File { file, defect })
        } else {
            None
        }
    }

    /// What is wrong with a file that is read whole, if one is named.
    fn find_in_optional<'a>(&self, file: Option<&'a str>) -> Option<Found<'a>>
        ensures { IfSome result (IsTrue (F.bytes_of self.now.files.now)) }
    {
        self.find_in_file(file?, MAX_FILE_SIZE)
    }

    /// What is wrong with a file that is read whole: it cannot be read, or has more than `limit` bytes.
    #[tactic(auto, using(crate::proofs::Told::unread_is_true))]
    fn find_in_file<'a>(&self, file: &'a str, limit: u32) -> Option<Found<'a>>
        ensures { IfSome result (IsTrue (F.bytes_of self.now.files.now)) }
    {
        let long = Defect::TooLong(limit);
        self.found(file, unread(self.files, self.alloc, file, limit, long))
    }

    /// What is wrong with the file of an image: it cannot be read, or has too many bytes.
    #[tactic(auto, using(crate::proofs::Told::unread_is_true))]
    fn find_in_image<'a>(&self, guest: &GuestArguments<'a>) -> Option<Found<'a>>
        ensures { IfSome result (IsTrue (F.bytes_of self.now.files.now)) }
    {
        let limit = image_limit(guest);
        let long = long_defect(guest.raw, limit);
        self.found(
            guest.image,
            unread(self.files, self.alloc, guest.image, limit, long),
        )
    }

    /// What is wrong with the image of a guest: its file is no ELF file for the board, or it does not lie in RAM.
    #[tactic(auto, using(crate::proofs::Told::bytes_are_true))]
    fn find_outside<'a>(&self, guest: &GuestArguments<'a>) -> Option<Found<'a>>
        ensures { IfSome result (IsTrue (F.bytes_of self.now.files.now)) }
    {
        if guest.raw {
            return None;
        }
        let Some(file) = whole_again(self.files, self.alloc, guest.image) else {
            return None;
        };
        self.found(
            guest.image,
            image_defect(self.alloc, &file, 4096 * guest.pages),
        )
    }

    /// What is wrong with the guest that a file has: with the saved guest, if it is read as one, else with the image.
    #[tactic(auto, using(crate::proofs::Told::begins_as_saved))]
    fn find_in_first_guest<'a>(&self, guest: &GuestArguments<'a>) -> Option<Found<'a>>
        ensures { IfSome result (IsTrue (F.bytes_of self.now.files.now)) }
    {
        if guest.raw {
            return None;
        }
        let Some(file) = whole_again(self.files, self.alloc, guest.image) else {
            return None;
        };
        if begins_saved(&file) {
            self.find_in_saved(guest.image)
        } else {
            self.find_outside(guest)
        }
    }

    /// What is wrong with a saved guest, as the report has it. A host has no such report, so nothing is found of it.
    fn find_in_saved<'a>(&self, file: &'a str) -> Option<Found<'a>>
        requires { IfSome (F.bytes_of self.now.files.now file.now) BeginsSaved }
        ensures { IfSome result (IsTrue (F.bytes_of self.now.files.now)) }
    {
        let _report = self.report?;
        for fault in [
            SavedFault::CutOff,
            SavedFault::NoFrame,
            SavedFault::LongFrame,
        ] {
            if let Some(found) = self.found(file, Some(Defect::Saved(fault))) {
                return Some(found);
            }
        }
        None
    }

    /// What is wrong with an ELF file.
    #[tactic(auto, using(crate::proofs::Told::bytes_are_true))]
    fn find_in_elf<'a>(&self, image: &'a str) -> Option<Found<'a>>
        ensures { IfSome result (IsTrue (F.bytes_of self.now.files.now)) }
    {
        let Some(file) = whole_again(self.files, self.alloc, image) else {
            return None;
        };
        self.found(image, elf_defect(&file))
    }

    /// What is wrong with a file that is written: it cannot be. It is looked at only if that may be the cause, and then is
    /// made if it is not there, as its command does.
    #[tactic(auto, using(crate::proofs::Told::fault_is_true))]
    fn find_in_output<'a>(&self, file: &'a str) -> Option<Found<'a>>
        ensures { IfSome result (IsTrue (F.bytes_of self.now.files.now)) }
    {
        if !self.may_be(Refusal::LinkFault, file) {
            return None;
        }
        match unwritable(self.files, file) {
            Some(fault) => self.found(file, Some(Defect::File(fault))),
            None => None,
        }
    }

    /// Whether the output file of `asm` has the bytes of the text.
    #[tactic(auto, using(crate::proofs::Told::same_is_true))]
    fn find_same<'a>(&self, asm: &AsmArguments<'a>) -> Option<Found<'a>>
        ensures { IfSome result (IsTrue (F.bytes_of self.now.files.now)) }
    {
        let Some(text) = whole_again(self.files, self.alloc, asm.source) else {
            return None;
        };
        self.found(
            asm.output,
            same_defect(self.files, self.alloc, asm.output, &text),
        )
    }

    /// What is wrong with an assembly text: the line at which it is refused, or its size.
    #[tactic(auto, using(crate::proofs::Told::bytes_are_true, crate::proofs::Told::line_is_true))]
    fn find_in_text<'a>(&self, file: &'a str) -> Option<Found<'a>>
        ensures { IfSome result (IsTrue (F.bytes_of self.now.files.now)) }
    {
        let Some(text) = whole_again(self.files, self.alloc, file) else {
            return None;
        };
        match text_line(self.alloc, &text) {
            Some(line) => self.found_line(file, line),
            None => self.found(file, text_size(self.alloc, &text)),
        }
    }

    /// A file and what is wrong with one of its lines, if the report is of that line.
    fn found_line<'a>(&self, file: &'a str, line: LineDefect) -> Option<Found<'a>>
        requires { IfSome (F.bytes_of self.now.files.now file.now) (λ all. HasLine all line) }
        ensures { IfSome result (IsTrue (F.bytes_of self.now.files.now)) }
    {
        let report = self.report?;
        if report.line_of(line.fault.refusal()) == Some(line.number) {
            Some(Found::Line { file, line })
        } else {
            None
        }
    }

    /// The line of a script that is refused.
    #[tactic(auto, using(crate::proofs::Told::line_is_true))]
    fn find_script_line<'a>(&self, file: &'a str) -> Option<Found<'a>>
        ensures { IfSome result (IsTrue (F.bytes_of self.now.files.now)) }
    {
        let number = self.report?.line_of(Refusal::BadToken)?;
        let Some(script) = whole_again(self.files, self.alloc, file) else {
            return None;
        };
        let line = script_line(self.alloc, &script, number)?;
        Some(Found::Line { file, line })
    }

    /// Whether the hosts of `script` do not speak the version of the streams.
    fn find_streams<'a>(&self, script: &ScriptArguments<'a>) -> Option<Found<'a>>
        ensures { IfSome result (IsTrue (F.bytes_of self.now.files.now)) }
    {
        let report = self.report?;
        match script.stream {
            Some(1 | 2) if script.hosts > 2 && report.is(Refusal::BadSize) => Some(Found::Streams),
            _ => None,
        }
    }
}

/// The defect of an image with more bytes than it may have: of plain bytes, or of an ELF file.
fn long_defect(raw: bool, limit: u32) -> Defect
    ensures { IsLongDefect limit result }
{
    if raw {
        Defect::LongImage(limit)
    } else {
        Defect::TooLong(limit)
    }
}

/// Why a file cannot be written, if it cannot. It is made if it is not there.
fn unwritable<F: NamedFiles>(files: &F, path: &str) -> Option<FileFault> {
    match files.write_fault(path) {
        Some(fault) => Some(fault),
        None => files.make_fault(path),
    }
}

/// Why the first `limit` bytes of a file cannot be read, if they cannot.
fn unreadable<F: NamedFiles>(files: &F, alloc: Global, path: &str, limit: u32) -> Option<Defect>
    ensures { IfSome result IsFileDefect }
{
    match read_again(files, alloc, path, limit) {
        Ok(_) => None,
        Err(fault) => Some(Defect::File(fault)),
    }
}

/// Why a file is not read: it cannot be, or it has more than `limit` bytes, which is the defect `long`.
#[tactic(auto, using(crate::proofs::Reading::longer))]
fn unread<F: NamedFiles>(
    files: &F,
    alloc: Global,
    path: &str,
    limit: u32,
    long: Defect,
) -> Option<Defect>
    ensures { IfSome result (IsUnreadDefect (F.bytes_of files.now path.now) limit long) }
{
    match read_again(files, alloc, path, limit) {
        Ok(Some(bytes)) if bytes.len() > limit as usize => Some(long),
        Ok(_) => None,
        Err(fault) => Some(Defect::File(fault)),
    }
}

/// The first bytes of a file, at most `limit` and one more, if the file keeps its bytes. Fails with what is wrong with
/// the file, if the system says so.
fn read_again<F: NamedFiles>(
    files: &F,
    alloc: Global,
    path: &str,
    limit: u32,
) -> Result<Option<Vec<u8>>, FileFault>
    ensures { IfOk result (λ read. IfSome read (λ v. IsFirst (F.bytes_of files.now path.now) (limit + 1) v.items)) }
{
    if let Some(fault) = files.read_fault(path) {
        return Err(fault);
    }
    let Some(mut file) = files.open_kept(path) else {
        return Ok(None);
    };
    match read_first(alloc, &mut file, u64::from(limit) + 1) {
        Ok(bytes) => Ok(Some(bytes)),
        Err(Refusal::OutOfMemory) => Err(FileFault::OutOfMemory),
        Err(_) => Err(FileFault::Other),
    }
}

/// All bytes of a file, if it keeps them, can be read and has at most `MAX_FILE_SIZE`.
#[tactic(auto, using(crate::proofs::Reading::whole))]
fn whole_again<F: NamedFiles>(files: &F, alloc: Global, path: &str) -> Option<Vec<u8>>
    ensures { IfSome result (λ v. IsFile (F.bytes_of files.now path.now) v.items) }
{
    let Some(mut file) = files.open_kept(path) else {
        return None;
    };
    let Ok(bytes) = read_first(alloc, &mut file, u64::from(MAX_FILE_SIZE) + 1) else {
        return None;
    };
    if bytes.len() > MAX_FILE_SIZE as usize {
        return None;
    }
    Some(bytes)
}

/// Whether a file begins as a saved guest does, with a byte 0.
fn begins_saved(file: &[u8]) -> bool
    ensures { result ≡ true → BeginsSaved file.now }
{
    match file {
        [0, ..] => true,
        _ => false,
    }
}

/// What is wrong with the bytes of an ELF file whose image is to lie in a RAM of `ram_size` bytes.
fn image_defect(alloc: Global, file: &[u8], ram_size: u32) -> Option<Defect>
    ensures { IfSome result (IsTrueOf file.now) }
{
    if let Some(defect) = elf_defect(file) {
        return Some(defect);
    }
    match read_image(alloc, file) {
        Ok(image) => match outside_part(&image, ram_size) {
            Some(part) => Some(Defect::Outside(part)),
            None => None,
        },
        Err(_) => None,
    }
}

/// What is wrong with the bytes of an ELF file.
fn elf_defect(file: &[u8]) -> Option<Defect>
    ensures { IfSome result (IsTrueOf file.now) }
{
    match elf_fault(file) {
        Some(fault) => Some(Defect::Elf(fault)),
        None => None,
    }
}

/// Whether a file that is to be written has the bytes of the text that it is to be made of.
fn same_defect<F: NamedFiles>(files: &F, alloc: Global, output: &str, text: &[u8]) -> Option<Defect>
    ensures { IfSome result (λ defect. defect ≡ SameBytes) }
{
    match keep_apart(files, alloc, output, text) {
        Err(Refusal::LinkFault) => Some(Defect::SameBytes),
        _ => None,
    }
}

/// The line at which an assembly text is refused, if it is at one.
#[tactic(auto, using(crate::proofs::Told::same_text))]
fn text_line(alloc: Global, source: &[u8]) -> Option<LineDefect>
    ensures { IfSome result (HasLine source.now) }
{
    match str::from_utf8(source) {
        Ok(text) => faulty_line(alloc, text),
        Err(error) => bad_byte_line(alloc, source, error.valid_up_to()),
    }
}

/// The line of an assembly text that has a fault, if one has.
#[tactic(auto, using(crate::proofs::Told::line_of_text))]
fn faulty_line(alloc: Global, text: &str) -> Option<LineDefect>
    ensures { IfSome result (HasLine text.now) }
{
    match assemble(alloc, text) {
        Err(AsmError::Line(number, fault)) => {
            line_defect(alloc, text, number, LineFault::Assembly(fault))
        }
        _ => None,
    }
}

/// The line of the first byte that is no UTF-8, up to that byte, which stands at `end`.
#[tactic(auto, using(crate::proofs::Told::line_of_first))]
fn bad_byte_line(alloc: Global, source: &[u8], end: usize) -> Option<LineDefect>
    requires bytes { end ≤ length source.now }
    requires first { IsValidUpTo source.now end }
    ensures { IfSome result (HasLine source.now) }
{
    let before = &source[..end];
    let number = newlines(before) + 1;
    match str::from_utf8(before) {
        Ok(text) => line_defect(alloc, text, number, LineFault::NotText),
        Err(_) => None,
    }
}

/// How many ends of lines there are among these bytes.
fn newlines(bytes: &[u8]) -> usize
    ensures { result ≤ length bytes.now }
{
    bytes.iter().filter(|byte| **byte == b'\n').count()
}

/// Why an assembly text without a fault in a line is refused, if it is.
fn text_size(alloc: Global, source: &[u8]) -> Option<Defect>
    ensures { IfSome result (IsTrueOf source.now) }
{
    let text = str::from_utf8(source).ok()?;
    match assemble(alloc, text) {
        Err(AsmError::TooLarge) => Some(Defect::LargeText),
        Err(AsmError::TooMany) => Some(Defect::ScatteredText),
        _ => None,
    }
}

/// The line of a script with this number, which is refused.
#[tactic(auto, using(crate::proofs::Told::same_text, crate::proofs::Told::line_of_text))]
fn script_line(alloc: Global, script: &[u8], number: usize) -> Option<LineDefect>
    ensures { IfSome result (HasLine script.now) }
{
    match str::from_utf8(script) {
        Ok(text) => line_defect(alloc, text, number, LineFault::Script),
        Err(_) => None,
    }
}
