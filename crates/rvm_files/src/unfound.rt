//! What is said of a refusal if nothing is found to be wrong with the files.

ghost use Rattle.std.specs.Prelude.{◌≡◌};
ghost use Rattle.rvm_files.specs.Reports.{unfound_words};

use crate::refusal_report::RefusalReport;
use rvm_arguments::Arguments;
use rvm_refusal::Refusal;

/// What may have failed if nothing is found to be wrong with the files.
#[derive(Clone, Copy, Debug)]
pub(crate) enum Unfound {
    /// It is not known.
    Cause,
    /// Memory ran out.
    Memory,
    /// A line of a text that is not UTF-8, or cannot be read again.
    Line,
    /// A line of the symbols of a profile.
    Symbols,
    /// The journals of hosts that have no order.
    Journals,
    /// The bytes of a saved guest.
    SavedGuest,
    /// A line of standard input.
    InputLine,
    /// A line of the session of a replay.
    SessionLine,
    /// The length of standard input.
    LongInput,
    /// A write of `run`.
    RunWrite,
    /// A write of `asm`.
    AsmWrite,
    /// A read or a write of `debug`.
    DebugStream,
    /// A connection between the hosts of `move` or `audit`, or a write of theirs.
    MoveStream,
    /// A write of another command.
    Write,
}

impl Unfound {
    /// What may have failed if a command reported this refusal, and nothing is found to be wrong with its files.
    pub(crate) fn of(report: &RefusalReport<'_>, arguments: &Arguments) -> Unfound {
        if report.has(Refusal::OutOfMemory) {
            return Unfound::Memory;
        }
        if report.is(Refusal::LinkFault) {
            return unwritten(arguments);
        }
        if report.line_of(Refusal::BadToken).is_some() {
            return unkept(arguments);
        }
        if report.is(Refusal::TooLong) {
            return too_long(arguments);
        }
        if report.has(Refusal::NoOrder) {
            return unordered(arguments);
        }
        if report.is(Refusal::BadFrame) || report.is(Refusal::Truncated) {
            return unrestored(arguments);
        }
        Unfound::Cause
    }

    /// What is said.
    pub(crate) fn words(self) -> &'static str
        ensures { result.now ≡ unfound_words self }
    {
        match self {
            Unfound::Cause =>
                "nothing wrong was found with the files; a device or a pipe is not read again",
            Unfound::Memory => "memory ran out: give this process more",
            Unfound::Line =>
                "this is no line of a text of its kind (docs/ASSEMBLY.md, docs/SCRIPTS.md); it is not shown, since the text is not UTF-8, or cannot be read again",
            Unfound::Symbols =>
                "the symbols: this is no line that nm -n prints, or its address is below the one before it",
            Unfound::Journals => "no order: give the journals of all hosts, each to its last line",
            Unfound::SavedGuest =>
                "IMAGE: if it begins with a byte 0, it is read as a saved guest, and was cut off or changed; plain bytes want --raw",
            Unfound::InputLine => "standard input: this is no line of a script (docs/SCRIPTS.md)",
            Unfound::SessionLine => "the session: this is no line of one (docs/SCRIPTS.md)",
            Unfound::LongInput => "standard input: this has more than 67108864 bytes",
            Unfound::RunWrite =>
                "nothing wrong was found with the files: a write to standard output, or to a file that the run writes, may have failed",
            Unfound::AsmWrite =>
                "nothing wrong was found with the files: a write to OUT may have failed",
            Unfound::DebugStream =>
                "nothing wrong was found with the files: a read of standard input, or a write to standard output, may have failed",
            Unfound::MoveStream =>
                "nothing wrong was found with the files: a connection over loopback, or a write to standard output, may have failed",
            Unfound::Write =>
                "nothing wrong was found with the files: a write to standard output may have failed",
        }
    }
}

/// What is not kept of a line that is refused.
fn unkept(arguments: &Arguments) -> Unfound {
    match arguments {
        Arguments::Debug(_) => Unfound::InputLine,
        Arguments::Run(_) => Unfound::Symbols,
        Arguments::Replay(_) | Arguments::ReplayTurns(_) => Unfound::SessionLine,
        _ => Unfound::Line,
    }
}

/// What has too many bytes, though no file has.
fn too_long(arguments: &Arguments) -> Unfound {
    match arguments {
        Arguments::Debug(_) => Unfound::LongInput,
        _ => Unfound::Cause,
    }
}

/// What has no order.
fn unordered(arguments: &Arguments) -> Unfound {
    match arguments {
        Arguments::ReplayTurns(_) | Arguments::AuditJournals(_) => Unfound::Journals,
        _ => Unfound::Cause,
    }
}

/// What ends too early, or has a frame that may not stand there.
fn unrestored(arguments: &Arguments) -> Unfound {
    match arguments {
        Arguments::Run(_) | Arguments::Live(_) => Unfound::SavedGuest,
        _ => Unfound::Cause,
    }
}

/// Which read or write may have failed.
fn unwritten(arguments: &Arguments) -> Unfound {
    match arguments {
        Arguments::Run(_) | Arguments::Live(_) => Unfound::RunWrite,
        Arguments::Asm(_) => Unfound::AsmWrite,
        Arguments::Debug(_) => Unfound::DebugStream,
        Arguments::Move(_) | Arguments::Audit(_) => Unfound::MoveStream,
        _ => Unfound::Write,
    }
}
