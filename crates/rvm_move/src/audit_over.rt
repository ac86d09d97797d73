//! Audits a move, and hands out both hosts.

ghost use Rattle.std.specs.Prelude.{◌≡◌, ◌⊎◌, ◌↔◌, None, IfOk, IfSome, IsSome, OnErr, OnOk};
ghost use Rattle.std.specs.Io.Buffered.{writer_contents};
ghost use Rattle.rvm_command.specs.Command.{image_of};
ghost use Rattle.rvm_command.specs.Ends.{IsLoadable};
ghost use Rattle.rvm_command.specs.Flushed.{is_flushed};
ghost use Rattle.rvm_command.specs.Refusals.{IsTold};
ghost use Rattle.rvm_move.specs.Ended.{IsMade, IsSound, IsUntold};
ghost use Rattle.rvm_move.specs.Opening.{AreOpened};
ghost use Rattle.rvm_move.specs.Orders.{HasNoOrder, IsNotAudited, IsWritten};

use crate::ended::tell_failure;
use crate::move_command::move_image;
use crate::moving::Moved;
use crate::order::write_order;
use rvm_arguments::MoveArguments;
use rvm_command::refused::{Refused, tell};
use rvm_mem::PagedMemory;
use rvm_recorder::Recorded;
use rvm_refusal::LinkFault;
use std::alloc::Global;
use std::io;
use std::io::{BufWriter, Write};
use std::net::Net;
use std::sync::Wait;
use std::thread::Threads;
use std::time::Clock;

/// What an audit leaves: the status, and both hosts, closed, if it is 0.
#[derive(Drop)]
pub struct Audited<M: PagedMemory + Drop> {
    pub status: u8,
    pub hosts: Option<(Recorded<M>, Recorded<M>)>,
}

/// Does what `audit_command` does, and returns the status with both hosts, closed, if it is 0: the order that was
/// written is an order of their journals. The error `LinkFault` says that a write to `errors` failed.
pub fn audit_over<
    M: PagedMemory + Drop + Send,
    O: Write + Drop,
    E: Write,
    R: Net + Threads + Wait + Clock + Sync,
>(
    rt: &R,
    alloc: Global,
    arguments: &MoveArguments,
    image: &[u8],
    output: &mut BufWriter<O>,
    errors: &mut E,
) -> Result<Audited<M>, LinkFault>
where
    R::Stream: Send,
    ensures status { IfOk result (λ a. (a.status ≡ 0) ⊎ (a.status ≡ 1)) }
    ensures hosts { IfOk result (λ a. a.status ≡ 0 ↔ IsSome a.hosts) }
    ensures opened { IfOk result (λ a. IfSome a.hosts (λ h.
        AreOpened arguments.now image.now h.0.journal.opening h.1.journal.opening)) }
    ensures made { IfOk result (λ a. IfSome a.hosts (λ h.
        IsMade arguments.now h.0.journal.entries h.1.journal.entries None None)) }
    ensures order { IfOk result (λ a. IfSome a.hosts (λ h.
        IsWritten h.0.journal h.1.journal (writer_contents O.contents output.old)
        (writer_contents O.contents output.new))) }
    ensures out { IfOk result (λ a. a.status ≡ 0 → is_flushed output.new) }
    ensures silent { IfOk result (λ a. a.status ≡ 0 → E.contents errors.new ≡ E.contents errors.old) }
    ensures failed { IfOk result (λ a. a.status ≡ 1
        → IsNotAudited arguments.now image.now (E.contents errors.old) (E.contents errors.new)) }
    ensures untold { OnErr result (IsUntold (IsNotAudited arguments.now image.now)) }
    ensures unloadable { IsLoadable (image_of arguments.now.guest.raw image.now) arguments.now.guest.pages
        ⊎ (writer_contents O.contents output.new ≡ writer_contents O.contents output.old) }
{
    match move_image::<M, _, R>(rt, alloc, arguments, image, &mut io::sink()) {
        Ok(moved) => audit_moved(alloc, moved, output, errors),
        Err(refused) => no_hosts(refused, errors),
    }
}

/// Reports a refusal. Returns the status, which is 1, without hosts.
fn no_hosts<M: PagedMemory + Drop, E: Write>(
    refused: Refused,
    errors: &mut E,
) -> Result<Audited<M>, LinkFault>
    ensures none { IfOk result (λ a. (a.status ≡ 1) × (a.hosts ≡ None)) }
    ensures told { OnOk result (IsTold refused (E.contents errors.old) (E.contents errors.new)) }
{
    let status = tell(refused, errors)?;
    Ok(Audited {
        status,
        hosts: None,
    })
}

/// Writes the order of what both hosts of a move did, and hands both out, unless the move or the order failed.
fn audit_moved<M: PagedMemory + Drop, O: Write + Drop, E: Write>(
    alloc: Global,
    moved: Moved<M>,
    output: &mut BufWriter<O>,
    errors: &mut E,
) -> Result<Audited<M>, LinkFault>
    ensures status { IfOk result (λ a. (a.status ≡ 0) ⊎ (a.status ≡ 1)) }
    ensures hosts { IfOk result (λ a. a.status ≡ 0 ↔ IsSome a.hosts) }
    ensures same { IfOk result (λ a. IfSome a.hosts (λ h. (h.0 ≡ moved.a.recorded) × (h.1 ≡ moved.b.recorded))) }
    ensures sound { IfOk result (λ a. a.status ≡ 0 → IsSound moved.ends moved.a.fault moved.b.fault) }
    ensures order { IfOk result (λ a. IfSome a.hosts (λ h.
        IsWritten h.0.journal h.1.journal (writer_contents O.contents output.old)
        (writer_contents O.contents output.new))) }
    ensures out { IfOk result (λ a. a.status ≡ 0 → is_flushed output.new) }
    ensures silent { IfOk result (λ a. a.status ≡ 0 → E.contents errors.new ≡ E.contents errors.old) }
    ensures failed { IfOk result (λ a. a.status ≡ 1 → HasNoOrder moved.ends moved.a.fault moved.b.fault
        moved.a.recorded.journal moved.b.recorded.journal (E.contents errors.old) (E.contents errors.new)) }
    ensures untold { OnErr result (IsUntold (HasNoOrder moved.ends moved.a.fault moved.b.fault
        moved.a.recorded.journal moved.b.recorded.journal)) }
{
    match write_audit(alloc, &moved, output, errors) {
        Ok(0) => Ok(Audited {
            status: 0,
            hosts: Some((moved.a.recorded, moved.b.recorded)),
        }),
        Ok(status) => {
            drop(moved);
            Ok(Audited {
                status,
                hosts: None,
            })
        }
        Err(fault) => {
            drop(moved);
            Err(fault)
        }
    }
}

/// Reports why a move failed, if it did; else writes the order of what both hosts did, or reports why there is none.
/// Returns the status, 0 or 1.
fn write_audit<M: PagedMemory + Drop, O: Write + Drop, E: Write>(
    alloc: Global,
    moved: &Moved<M>,
    output: &mut BufWriter<O>,
    errors: &mut E,
) -> Result<u8, LinkFault>
    ensures status { IfOk result (λ status. (status ≡ 0) ⊎ (status ≡ 1)) }
    ensures sound { IfOk result (λ status. status ≡ 0
        → IsSound moved.now.ends moved.now.a.fault moved.now.b.fault) }
    ensures silent { IfOk result (λ status. status ≡ 0 → E.contents errors.new ≡ E.contents errors.old) }
    ensures failed { IfOk result (λ status. status ≡ 1 → HasNoOrder moved.now.ends moved.now.a.fault
        moved.now.b.fault moved.now.a.recorded.journal moved.now.b.recorded.journal
        (E.contents errors.old) (E.contents errors.new)) }
    ensures untold { OnErr result (IsUntold (HasNoOrder moved.now.ends moved.now.a.fault moved.now.b.fault
        moved.now.a.recorded.journal moved.now.b.recorded.journal)) }
    ensures order { IfOk result (λ status. status ≡ 0
        → IsWritten moved.now.a.recorded.journal moved.now.b.recorded.journal
        (writer_contents O.contents output.old) (writer_contents O.contents output.new)) }
    ensures out { IfOk result (λ status. status ≡ 0 → is_flushed output.new) }
{
    let status = tell_failure(moved, errors)?;
    if status != 0 {
        return Ok(status);
    }
    let (a, b) = (moved.a.recorded.journal(), moved.b.recorded.journal());
    write_order(alloc, a, b, output, errors)
}
