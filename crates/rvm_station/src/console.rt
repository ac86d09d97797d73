//! Writes what the guest sends.

ghost use Rattle.std.specs.Prelude.{IfOk, OnOk};
ghost use Rattle.rvm_station.specs.Console.{IsShown};

use crate::access::Access;
use crate::origin::Hosting;
use crate::station::Station;
use rvm_board::{BoardEvent, BoardReply, DRAIN_SIZE};
use rvm_message::{Command, HostReply};
use rvm_refusal::LinkFault;
use std::io::Write;
use std::sync::Wait;

/// Writes what the guest sent, until a drain takes nothing, and flushes it. `LinkFault` if it cannot be written. Holds
/// the console until then, so that a mover can wait for it.
#[tactic(auto, using(crate::proofs::Shown::none_shown, crate::proofs::Shown::shown_kept, crate::proofs::Shown::shown_more))]
pub(crate) fn show<L: Hosting, A: Access<L>, W: Write + Drop, O: Write, R: Wait>(
    rt: &R,
    station: &Station<L, W>,
    access: &mut A,
    output: &mut O,
) -> Result<(), LinkFault>
    ensures { OnOk result (IsShown L.gave (A.asked access.old) (A.asked access.new)
        (O.contents output.old) (O.contents output.new)) }
{
    let _held = station.console.lock(rt);
    for _drain in rt.forever() {
        let is_some = show_some(rt, station, access, output)?;
        if !is_some {
            output.flush()?;
            return Ok(());
        }
    }
    unreachable!()
}

/// Writes what one drain takes. Returns whether it took any bytes; it takes none if memory runs out or the guest does
/// not run here.
#[tactic(auto, using(crate::proofs::Shown::no_bytes_shown, crate::proofs::Shown::nothing_shown, crate::proofs::Shown::one_shown))]
fn show_some<L: Hosting, A: Access<L>, W: Write + Drop, O: Write, R: Wait>(
    rt: &R,
    station: &Station<L, W>,
    access: &mut A,
    output: &mut O,
) -> Result<bool, LinkFault>
    ensures { OnOk result (IsShown L.gave (A.asked access.old) (A.asked access.new)
        (O.contents output.old) (O.contents output.new)) }
{
    let command = Command::Board(BoardEvent::Drain(DRAIN_SIZE));
    let Ok(reply) = station.obey(rt, access, &command) else {
        return Ok(false);
    };
    let HostReply::Board(BoardReply::Bytes(bytes)) = reply else {
        return Ok(false);
    };
    output.write_all(bytes.as_slice())?;
    Ok(!bytes.as_slice().is_empty())
}
