//! What is reported of a run once it has ended.
//!
//! A signature has a line for each word of a range of RAM, as the run left it: its eight hexadecimal digits, in lower case.
//! A coverage has the lines that `rvmove dis` lists of the image, each after a number: how often that word ran. A
//! profile has a line for each symbol of a file: how many steps ran a word of it, and its name. A saved guest is the frames
//! that a move sends of the guest as the run left it.

ghost use Rattle.std.specs.Prelude.{◌≡◌, true, Some, IfErr, OnErr, OnOk};
ghost use Rattle.std.specs.Io.KnownBytes.{Appends};
ghost use Rattle.rvm_command.specs.Ends.{IsFaultOf, IsReported};
ghost use Rattle.rvm_asm.specs.Images.{pieces_of};
ghost use Rattle.rvm_command.specs.Counting.{is_listing, written_report, written_text};
ghost use Rattle.rvm_command.specs.Reports.{signature, word_row};
ghost use Rattle.rvm_command.specs.Saved.{saved_bytes};

use crate::coverage::{Counts, write_coverage};
use crate::profile::write_profile;
use crate::save::save_guest;
use crate::saved_fault::SaveFault;
use crate::trace::word_at;
use rvm_arguments::{Report, ReportArguments, WordRange};
use rvm_asm::Segment;
use rvm_board::Debugged;
use rvm_dis::Digits;
use rvm_mem::{Memory, PagedMemory};
use rvm_refusal::LinkFault;
use std::alloc::Global;
use std::io::Write;

/// What is kept of a run for the report on it.
#[derive(Drop)]
pub(crate) struct Kept {
    /// The segments of the image, if they are listed.
    pub(crate) segments: Vec<Segment>,
    /// How often each word of RAM ran, if that is counted.
    pub(crate) counts: Counts,
}

/// Writes the report on a run that left this guest, if one is asked for, and flushes it. `LinkFault` if that fails, which
/// is possible only if one is asked for; `OutOfMemory` only if the guest is saved.
pub(crate) fn write_report<M: PagedMemory, W: Write>(
    alloc: Global,
    guest: &mut Debugged<M>,
    asked: &Option<ReportArguments>,
    symbols: &[u8],
    kept: &Kept,
    writer: &mut W,
) -> Result<(), SaveFault>
    ensures text { OnOk result (Appends (W.contents writer.old) (W.contents writer.new)
        (written_text asked.now (pieces_of kept.now.segments.items) symbols.now kept.now.counts guest.old.guest)) }
    ensures guest { guest.new ≡ guest.old }
    ensures some { OnErr result (IsReported asked.now) }
    ensures fault { IfErr result (IsFaultOf asked.now) }
{
    match asked {
        Some(asked) => write_flushed(alloc, guest, asked, symbols, kept, writer),
        None => Ok(()),
    }
}

/// Writes a report, and flushes it. `LinkFault` if that fails, `OutOfMemory` only if the guest is saved.
fn write_flushed<M: PagedMemory, W: Write>(
    alloc: Global,
    guest: &mut Debugged<M>,
    asked: &ReportArguments,
    symbols: &[u8],
    kept: &Kept,
    writer: &mut W,
) -> Result<(), SaveFault>
    ensures text { OnOk result (Appends (W.contents writer.old) (W.contents writer.new)
        (written_report asked.now.report (pieces_of kept.now.segments.items) symbols.now kept.now.counts
        guest.old.guest)) }
    ensures guest { guest.new ≡ guest.old }
    ensures fault { IfErr result (IsFaultOf (Some asked.now)) }
{
    if let Report::SavedGuest = asked.report {
        return write_guest(alloc, guest, writer);
    }
    match write_listing(guest, asked.report, symbols, kept, writer) {
        Ok(()) => Ok(()),
        Err(_) => Err(SaveFault::LinkFault),
    }
}

/// Writes a guest as a saved guest, and flushes it. `LinkFault` if that fails, `OutOfMemory` if memory runs out.
#[tactic(auto, using(crate::proofs::Refusals::appends_kept))]
fn write_guest<M: PagedMemory, W: Write>(
    alloc: Global,
    guest: &Debugged<M>,
    writer: &mut W,
) -> Result<(), SaveFault>
    ensures { OnOk result (Appends (W.contents writer.old) (W.contents writer.new)
        (saved_bytes guest.now.guest)) }
{
    save_guest(alloc, guest, writer)?;
    Ok(writer.flush()?)
}

/// Writes a report that is no saved guest, and flushes it. `LinkFault` if that fails.
#[tactic(auto, using(crate::proofs::Refusals::appends_kept))]
fn write_listing<M: Memory, W: Write>(
    guest: &mut Debugged<M>,
    report: Report,
    symbols: &[u8],
    kept: &Kept,
    writer: &mut W,
) -> Result<(), LinkFault>
    requires { is_listing report ≡ true }
    ensures text { OnOk result (Appends (W.contents writer.old) (W.contents writer.new)
        (written_report report.entry (pieces_of kept.now.segments.items) symbols.now kept.now.counts guest.old.guest)) }
    ensures guest { guest.new ≡ guest.old }
{
    write_reported(guest, report, symbols, kept, writer)?;
    Ok(writer.flush()?)
}

/// Writes a report that is no saved guest. `LinkFault` if a write fails.
fn write_reported<M: Memory, W: Write>(
    guest: &mut Debugged<M>,
    report: Report,
    symbols: &[u8],
    kept: &Kept,
    writer: &mut W,
) -> Result<(), LinkFault>
    requires { is_listing report ≡ true }
    ensures text { OnOk result (Appends (W.contents writer.old) (W.contents writer.new)
        (written_report report.entry (pieces_of kept.now.segments.items) symbols.now kept.now.counts guest.old.guest)) }
    ensures guest { guest.new ≡ guest.old }
{
    match report {
        Report::Signature(range) => write_signature(guest, range, writer),
        Report::Coverage => write_coverage(&kept.segments, &kept.counts, writer),
        Report::Profile { .. } => write_profile(symbols, &kept.counts, writer),
        Report::SavedGuest => unreachable!(),
    }
}

/// Writes the lines of the words of a range; an address with no word of RAM has none. `LinkFault` if a write fails.
fn write_signature<M: Memory, W: Write>(
    guest: &mut Debugged<M>,
    range: WordRange,
    writer: &mut W,
) -> Result<(), LinkFault>
    ensures text { OnOk result (Appends (W.contents writer.old) (W.contents writer.new)
        (signature range guest.old.guest)) }
    ensures guest { guest.new ≡ guest.old }
{
    let mut address = range.from;
    let mut left = range.length / 4;
    while left > 0 {
        let word = word_at(guest, address);
        write_row(word, writer)?;
        address = address.wrapping_add(4);
        left -= 1;
    }
    Ok(())
}

/// Writes the line of a word, if there is one.
fn write_row<W: Write>(word: Option<u32>, writer: &mut W) -> Result<(), LinkFault>
    ensures { OnOk result (Appends (W.contents writer.old) (W.contents writer.new) (word_row word)) }
{
    match word {
        Some(word) => {
            writeln!(writer, "{}", Digits(word))?;
            Ok(())
        }
        None => Ok(()),
    }
}
