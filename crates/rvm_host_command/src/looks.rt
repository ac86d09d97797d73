//! Looks at the guest of a host, for which operators ask: they change nothing.

ghost use Rattle.std.specs.Io.KnownBytes.{Appends};
ghost use Rattle.std.specs.Prelude.{◌≡◌, if◌then◌else◌, length, nat_lt, IfOk};
ghost use Rattle.rvm_command.specs.ExtendedLines.{extended_line_of};
ghost use Rattle.rvm_host_command.specs.Looks.{AreCsrsTold, AreDevicesTold, IsFurtherTold, refusal_text, unlettered};

use crate::answers::{Outcome, refuse};
use rvm_board::Snapshot;
use rvm_command::extended_answers::{write_csrs, write_devices};
use rvm_command::extended_line::ExtendedLine;
use rvm_core::write_guest_reply;
use rvm_message::{HostRefusal, HostReply};
use rvm_refusal::{LinkFault, Refusal};
use rvm_station::{Access, Hosting};
use std::io::Write;

/// A line that begins with this letter of a host and a space, without both; each other line as it is.
pub(crate) fn unlettered(letter: u8, line: &[u8]) -> &[u8]
    ensures { result.now ≡ unlettered letter line.now }
{
    match line {
        [first, second, behind @ ..] if *first == letter && *second == b' ' => behind,
        _ => line,
    }
}

/// Does what a line asks for that is none of a script, and writes the answer: it may ask for the control and status
/// registers of a hart, or for what the devices keep. The other lines of an extended session are refused, since a host
/// makes the turns of its guest by itself.
pub(crate) fn answer_further<L: Hosting, A: Access<L>, O: Write>(
    access: &A,
    line: &[u8],
    output: &mut O,
) -> Result<Outcome, LinkFault>
    ensures { IfOk result (λ outcome. IsFurtherTold L.showed (extended_line_of line.now) outcome
        (O.contents output.old) (O.contents output.new)) }
{
    let Some(line) = ExtendedLine::read(line) else {
        return refuse(output, Refusal::BadToken);
    };
    match line {
        ExtendedLine::Csrs(hart) => answer_csrs(access, hart, output),
        ExtendedLine::Devices => answer_devices(access, output),
        ExtendedLine::Plain(_) | ExtendedLine::Turns(_) | ExtendedLine::FindFault(_) => {
            refuse(output, Refusal::BadToken)
        }
    }
}

/// Writes the control and status registers of a hart of the guest, or why they are not shown. The guest stays as it is.
#[tactic(auto, using(crate::proofs::Looking::csrs_refused, crate::proofs::Looking::guest_of_look))]
fn answer_csrs<L: Hosting, A: Access<L>, O: Write>(
    access: &A,
    hart: u32,
    output: &mut O,
) -> Result<Outcome, LinkFault>
    ensures { IfOk result (λ outcome. AreCsrsTold L.showed hart outcome (O.contents output.old) (O.contents output.new)) }
{
    match access.snapshot() {
        Ok(snapshot) => {
            write_csrs(output, &snapshot, hart)?;
            Ok(outcome_at(&snapshot, hart))
        }
        Err(why) => refuse_look(output, why),
    }
}

/// Whether a guest has this hart, by its snapshot.
fn outcome_at(snapshot: &Snapshot, hart: u32) -> Outcome
    ensures { result ≡ if nat_lt hart (length snapshot.now.harts.items) then Outcome.Done else Outcome.Refused }
{
    if (hart as usize) < snapshot.harts.len() {
        Outcome::Done
    } else {
        Outcome::Refused
    }
}

/// Writes what the devices of the guest keep, or why that is not shown. The guest stays as it is.
#[tactic(auto, using(crate::proofs::Looking::devices_told, crate::proofs::Looking::devices_refused))]
fn answer_devices<L: Hosting, A: Access<L>, O: Write>(
    access: &A,
    output: &mut O,
) -> Result<Outcome, LinkFault>
    ensures { IfOk result (λ outcome. AreDevicesTold L.showed outcome (O.contents output.old) (O.contents output.new)) }
{
    match access.snapshot() {
        Ok(snapshot) => {
            write_devices(output, &snapshot)?;
            Ok(Outcome::Done)
        }
        Err(why) => refuse_look(output, why),
    }
}

/// Writes why the host shows nothing of its guest, as it is written of an event of the guest that is refused.
fn refuse_look<O: Write>(output: &mut O, why: HostRefusal) -> Result<Outcome, LinkFault>
    ensures refused { IfOk result (λ outcome. outcome ≡ Outcome.Refused) }
    ensures told { IfOk result (λ outcome. Appends (O.contents output.old) (O.contents output.new) (refusal_text why)) }
{
    write_guest_reply(output, None, &HostReply::Refused(why))?;
    Ok(Outcome::Refused)
}
