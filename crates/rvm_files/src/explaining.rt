//! Explains the refusal of a command: after its report comes a line that says what is wrong, where, and what to do.
//!
//! To be read after `refusal_report`, `finding` and `unfound`.

ghost use Rattle.std.specs.Prelude.{◌++◌, IfSome, OnOk, codes};
ghost use Rattle.std.specs.Io.KnownBytes.{Appends};
ghost use Rattle.rvm_files.specs.Found.{IsExplanation, IsTrue};
ghost use Rattle.rvm_files.specs.Reports.{GoesOut, unfound_words};

use crate::files::NamedFiles;
use crate::finding::Refusing;
use crate::found::{Found, write_found};
use crate::refusal_report::RefusalReport;
use crate::unfound::Unfound;
use rvm_arguments::{Arguments, HostArguments};
use rvm_refusal::LinkFault;
use std::alloc::Global;
use std::io::Write;

/// Writes a report to `errors`. `LinkFault` if the write fails.
pub fn pass_on<E: Write>(report: &[u8], errors: &mut E) -> Result<(), LinkFault>
    ensures { OnOk result (GoesOut report.now (E.contents errors.old) (E.contents errors.new)) }
{
    if report.is_empty() {
        return Ok(());
    }
    match errors.write_all(report) {
        Ok(()) => Ok(()),
        Err(_) => Err(LinkFault),
    }
}

/// Explains the report of a command that was refused: writes what is wrong with what the command line names, or that
/// nothing was found. Writes nothing if the report is of no refusal. `LinkFault` if a write fails.
pub fn explain_report<F: NamedFiles, E: Write>(
    files: &F,
    alloc: Global,
    arguments: &Arguments,
    report: &[u8],
    errors: &mut E,
) -> Result<(), LinkFault>
    ensures { OnOk result (IsExplanation (F.bytes_of files.now) report.now (E.contents errors.old) (E.contents errors.new)) }
{
    let Some(report) = RefusalReport::of(report) else {
        return Ok(());
    };
    let refusing = Refusing {
        files,
        alloc,
        report: Some(report),
    };
    match refusing.find(arguments) {
        Some(found) => write_found(&found, errors),
        None => write_unfound(Unfound::of(&report, arguments), errors),
    }
}

/// What is wrong with the files that a host is given. It is looked for before the host begins, since its files may be
/// others once it ends.
pub fn find_for_host<'a, F: NamedFiles>(
    files: &F,
    alloc: Global,
    arguments: &HostArguments<'a>,
) -> Option<Found<'a>>
    ensures { IfSome result (IsTrue (F.bytes_of files.now)) }
{
    let refusing = Refusing {
        files,
        alloc,
        report: None,
    };
    refusing.find_in_host(arguments)
}

/// Writes that nothing is found to be wrong with the files, and what else may have failed. `LinkFault` if the write
/// fails.
fn write_unfound<E: Write>(unfound: Unfound, errors: &mut E) -> Result<(), LinkFault>
    ensures { OnOk result (Appends (E.contents errors.old) (E.contents errors.new)
        (unfound_words unfound ++ codes "\n")) }
{
    writeln!(errors, "{}", unfound.words())?;
    Ok(())
}
