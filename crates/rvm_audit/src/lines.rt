//! The events of an order as lines.

ghost use Rattle.std.specs.Prelude.{OnOk};
ghost use Rattle.std.specs.Io.KnownBytes.{Appends};
ghost use Rattle.rvm_core.specs.EventLines.{event_lines};

use crate::placed::Order;
use rvm_core::write_event;
use rvm_refusal::LinkFault;
use std::io::Write;

/// Writes the events of an order of the journals of this many hosts, each as a line, as `write_event` does. Fails with
/// `LinkFault` if the writer fails.
#[tactic(auto, using(crate::proofs::OrderLines::no_lines, crate::proofs::OrderLines::line_more, crate::proofs::OrderLines::all_lines))]
pub fn write_order<W: Write>(writer: &mut W, hosts: u8, order: &Order) -> Result<(), LinkFault>
    ensures { OnOk result (Appends (W.contents writer.old) (W.contents writer.new) (event_lines hosts order.now)) }
{
    let mut left = order.events();
    while let Some(event) = left.next() {
        write_event(writer, hosts, &event)?;
    }
    Ok(())
}
