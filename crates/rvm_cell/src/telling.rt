//! A call at a gate, and the frame that it makes.

ghost use Rattle.std.specs.Prelude.{◌≡◌, ◌+◌, ◌-◌, ◌^◌, true, min, IfErr, IfOk, OnErr, OnOk};
ghost use Rattle.rvm_cell.specs.Endings.{is_uncalled};
ghost use Rattle.rvm_cell.specs.Work.{IsCall};

use crate::caller::Caller;
use crate::end::WorkEnd;
use crate::gate::{Gate, Watch};
use rvm_frame::Addressed;
use rvm_link::{Link, Outgoing, SendError};
use rvm_mem::PagedMemory;
use rvm_message::{HostEvent, HostReply};
use rvm_recorder::{Seating, SharedHost};
use std::alloc::Global;
use std::sync::Wait;

/// A host, and the end at which its frames are sent.
#[derive(Drop)]
pub struct Side<'s, L: Seating, M: PagedMemory + Drop, K: Link + Drop> {
    pub host: &'s SharedHost<L, M>,
    pub outgoing: &'s Outgoing<K>,
}

/// The reply to a call, and whether the frame that it made was sent.
#[derive(Drop)]
pub(crate) struct Called {
    pub(crate) reply: HostReply,
    pub(crate) sent: Result<(), SendError>,
}

/// Makes a call once the gate lets it pass, sends the frame that it makes, and tells the gate. An error says that no
/// call was made.
pub(crate) fn tell<L: Seating, M: PagedMemory + Drop, K: Link + Drop, G: Gate, R: Wait>(
    rt: &R,
    alloc: Global,
    side: &Side<'_, L, M, K>,
    caller: &mut Caller<L>,
    watch: &mut Watch<'_, G>,
    event: HostEvent,
) -> Result<Called, WorkEnd>
    ensures start { caller.new.start ≡ caller.old.start }
    ensures call { IfOk result (λ c. IsCall caller.old.seat event caller.old.receipts
        caller.new.seat caller.new.receipts c.reply) }
    ensures err { OnErr result (caller.new ≡ caller.old) }
    ensures uncalled { IfErr result (λ e. is_uncalled e ≡ true) }
    ensures passed { OnOk result (G.has_passed watch.old.gate.now watch.old.worker watch.old.calls) }
    ensures heard { OnOk result (G.has_heard watch.old.gate.now watch.old.worker watch.old.calls) }
    ensures counted { OnOk result (watch.new.calls ≡ min (watch.old.calls + 1) (2 ^ 32 - 1)) }
{
    watch.before()?;
    let (reply, frame) = caller.call(rt, alloc, side.host, event)?;
    let sent = send(rt, side.outgoing, frame);
    watch.after();
    Ok(Called { reply, sent })
}

/// Sends a frame, if there is one.
fn send<K: Link + Drop, R: Wait>(
    rt: &R,
    outgoing: &Outgoing<K>,
    frame: Option<Addressed>,
) -> Result<(), SendError> {
    match frame {
        None => Ok(()),
        Some(addressed) => outgoing.send(rt, &addressed),
    }
}
