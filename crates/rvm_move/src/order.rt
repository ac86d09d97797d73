//! Writes the order of two journals.

ghost use Rattle.std.specs.Prelude.{◌≡◌, ◌⊎◌, IfOk, OnErr, OnOk};
ghost use Rattle.std.specs.Io.KnownBytes.{Appends};
ghost use Rattle.std.specs.Io.Buffered.{writer_contents};
ghost use Rattle.rvm_command.specs.Flushed.{is_flushed};
ghost use Rattle.rvm_core.specs.EventLines.{event_lines};
ghost use Rattle.rvm_move.specs.Ended.{IsUntold};
ghost use Rattle.rvm_move.specs.Orders.{IsUnordered, IsWritten};

use rvm_audit::{Order, audit_in_runs, write_order as write_order_lines};
use rvm_command::flush::flush;
use rvm_command::refused::{Refused, tell};
use rvm_mem::PagedMemory;
use rvm_recorder::Journal;
use rvm_refusal::{LinkFault, Refusal};
use std::alloc::Global;
use std::io::{BufWriter, Write};

/// The number of hosts of a move.
const HOSTS: u8 = 2;

/// Writes an order of two journals and flushes it, or reports why it was not written. Returns the status, 0 or 1.
/// `LinkFault` if the report cannot be written.
#[tactic(auto, using(crate::proofs::Orders::written, crate::proofs::Unordered::no_write, crate::proofs::Unordered::no_order, crate::proofs::Untold::no_write, crate::proofs::Untold::no_order))]
pub(crate) fn write_order<M: PagedMemory + Drop, O: Write + Drop, E: Write>(
    alloc: Global,
    first: &Journal<M>,
    second: &Journal<M>,
    output: &mut BufWriter<O>,
    errors: &mut E,
) -> Result<u8, LinkFault>
    ensures status { IfOk result (λ status. (status ≡ 0) ⊎ (status ≡ 1)) }
    ensures order { IfOk result (λ status. status ≡ 0 → IsWritten first.now second.now
        (writer_contents O.contents output.old) (writer_contents O.contents output.new)) }
    ensures out { IfOk result (λ status. status ≡ 0 → is_flushed output.new) }
    ensures silent { IfOk result (λ status. status ≡ 0 → E.contents errors.new ≡ E.contents errors.old) }
    ensures failed { IfOk result (λ status. status ≡ 1
        → IsUnordered first.now second.now (E.contents errors.old) (E.contents errors.new)) }
    ensures untold { OnErr result (IsUntold (IsUnordered first.now second.now)) }
{
    first.know_answers();
    second.know_answers();
    match audit_in_runs(alloc, first, second) {
        Ok(order) => match write_whole(output, &order) {
            Ok(()) => Ok(0),
            Err(fault) => tell(Refused::from(fault), errors),
        },
        Err(error) => tell(Refused::from(Refusal::from(error)), errors),
    }
}

/// Writes the events of an order, and flushes them.
fn write_whole<O: Write + Drop>(output: &mut BufWriter<O>, order: &Order) -> Result<(), LinkFault>
    ensures written { OnOk result (Appends (writer_contents O.contents output.old)
        (writer_contents O.contents output.new) (event_lines 2 order.now)) }
    ensures out { OnOk result (is_flushed output.new) }
{
    write_order_lines(output, HOSTS, order)?;
    flush(output)
}
