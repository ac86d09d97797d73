//! What may be said of journals that were cut.

ghost use Rattle.std.specs.Prelude.{◌≡◌, ◌≤◌, IfOk, false, length, true};
ghost use Rattle.rvm_audit.specs.Audits.{histories_of};
ghost use Rattle.rvm_audit.specs.Cuts.{AreContradicted, AreExplained};
ghost use Rattle.rvm_audit.specs.Outlines.{AreOutlinesOf, outlines_in};

use crate::outline::{Outline, are_outlines_contradictory};
use rvm_mem::PagedMemory;
use rvm_recorder::Journal;
use std::alloc::{AllocError, Global};

/// Whether journals contradict one another, of which those that `cuts` marks may have lost entries at their end: then
/// they have no order, however these went on. If they do not, all their entries stand in one sequence in which each
/// frame that came was made before, or by an entry that may be among those that were lost.
///
/// It takes each journal as far as it can go. An entry that says that a frame came is passed once the host that it came
/// from has made the frame, or has a journal that was cut and is at its end. The journals contradict one another if one
/// of them cannot be taken to its end so. It needs time for each item, however many entries that has, and keeps the
/// frames of the journals once more, but no events.
pub fn are_contradictory<M: PagedMemory + Drop>(
    alloc: Global,
    journals: &[&Journal<M>],
    cuts: &[bool],
) -> Result<bool, AllocError>
    requires few { length journals.now ≤ 8 }
    requires long { length cuts.now ≡ length journals.now }
    ensures found { IfOk result (λ found. found ≡ true → AreContradicted (histories_of journals.now) cuts.now) }
    ensures none { IfOk result (λ found. found ≡ false → AreExplained (histories_of journals.now) cuts.now) }
{
    let outlines = outlines_of(alloc, journals)?;
    let references = references_to(alloc, outlines.as_slice())?;
    are_outlines_contradictory(alloc, references.as_slice(), cuts)
}

/// References to these outlines.
fn references_to(alloc: Global, outlines: &[Outline]) -> Result<Vec<&Outline>, AllocError>
    ensures { IfOk result (λ all. outlines_in all.items ≡ outlines.now) }
{
    let mut all = Vec::new(alloc);
    for host in 0..outlines.len() {
        all.push(&outlines[host])?;
    }
    Ok(all)
}

/// What is kept of each of these journals if only their frames are.
fn outlines_of<M: PagedMemory + Drop>(
    alloc: Global,
    journals: &[&Journal<M>],
) -> Result<Vec<Outline>, AllocError>
    ensures { IfOk result (λ outlines. AreOutlinesOf (histories_of journals.now) outlines.items) }
{
    let mut outlines = Vec::new(alloc);
    for host in 0..journals.len() {
        outlines.push(Outline::of_journal(alloc, journals[host])?)?;
    }
    Ok(outlines)
}
