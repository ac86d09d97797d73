//! `rvmove replay`: the host of a journal does again what the journal tells.

ghost use Rattle.std.specs.Prelude.{List, ℕ, IfOk, OnErr};
ghost use Rattle.rvm_journal.specs.Whole.{IsJournal};
ghost use Rattle.rvm_replay.specs.Replays.{HasReplayStatus, HasShownStatus, IsUntold};

use crate::console_of_journal::Console;
use crate::hosts::host_of_journal;
use crate::report::report_fault;
use rvm_command::refused::{Refused, tell};
use rvm_mem::PagedMemory;
use rvm_refusal::LinkFault;
use std::alloc::Global;
use std::io::{BufRead, Write};

/// Makes the host of a journal anew, which is read from `journal`, has it do again what the journal tells, and writes to
/// `output` what the guest sent while it was there. `name` is the journal's file; `image` is the file of the image with which
/// the host began, empty if none is named, and is not used if it began without a guest. With `until`, only this many events
/// are done, from the first on, and lines after the one that tells the last of them are not read.
///
/// Returns the status: 0 if all of it was done, and then `errors` gets `replayed N events`; 1 if the journal is refused,
/// for its header, its image, a line that is looked at or a read that fails, or if a write to `output` fails, and then `errors`
/// says why. The error `LinkFault` says that a write to `errors` failed.
pub fn replay_command<M: PagedMemory + Drop, I: BufRead + Drop, O: Write, E: Write>(
    alloc: Global,
    name: &str,
    journal: I,
    image: &[u8],
    until: Option<u64>,
    output: &mut O,
    errors: &mut E,
) -> Result<u8, LinkFault>
    ensures status { IfOk result (λ status. (text : List ℕ) × IsJournal (I.remaining journal) text
        × HasReplayStatus status name.now until text image.now (O.contents output.old) (O.contents output.new)
        (E.contents errors.old) (E.contents errors.new)) }
    ensures untold { OnErr result ((text : List ℕ) × IsJournal (I.remaining journal) text
        × IsUntold (λ status before after. HasReplayStatus status name.now until text image.now
        (O.contents output.old) (O.contents output.new) before after)) }
{
    match host_of_journal::<M, Console, I>(alloc, journal, image, until) {
        Ok(done) => {
            let status = show(&done.observer, done.count, output, errors);
            drop(done);
            status
        }
        Err(fault) => {
            report_fault(name, fault, errors)?;
            Ok(1)
        }
    }
}

/// Writes what a guest sent, and reports how many events its host did, or that a write failed. Returns the status.
fn show<O: Write, E: Write>(
    console: &Console,
    count: u64,
    output: &mut O,
    errors: &mut E,
) -> Result<u8, LinkFault>
    ensures status { IfOk result (λ status. HasShownStatus status console.now.bytes.items count
        (O.contents output.old) (O.contents output.new) (E.contents errors.old) (E.contents errors.new)) }
    ensures untold { OnErr result (IsUntold (λ status before after. HasShownStatus status console.now.bytes.items count
        (O.contents output.old) (O.contents output.new) before after)) }
{
    match output.write_all(console.bytes.as_slice()) {
        Ok(()) => {
            writeln!(errors, "replayed {count} events")?;
            Ok(0)
        }
        Err(_) => {
            let _status = tell(Refused::from(LinkFault), errors)?;
            Ok(1)
        }
    }
}
