//! `rvmove audit`: writes one order of what both hosts of a move did, as a script.

ghost use Rattle.std.specs.Prelude.{◌≡◌, ◌⊎◌, IfOk, OnErr};
ghost use Rattle.std.specs.Io.Buffered.{writer_contents};
ghost use Rattle.rvm_command.specs.Command.{image_of};
ghost use Rattle.rvm_command.specs.Ends.{IsLoadable};
ghost use Rattle.rvm_command.specs.Flushed.{is_flushed};
ghost use Rattle.rvm_move.specs.Ended.{IsUntold};
ghost use Rattle.rvm_move.specs.Orders.{IsAudited, IsNotAudited};

use crate::audit_over::audit_over;
use rvm_arguments::MoveArguments;
use rvm_audit::the_guest_of_an_order_never_moves;
use rvm_mem::PagedMemory;
use rvm_refusal::LinkFault;
use std::alloc::Global;
use std::io::{BufWriter, Write};
use std::net::Net;
use std::sync::Wait;
use std::thread::Threads;
use std::time::Clock;

/// Moves the guest of an image as `move_command` does, and writes one order of what both hosts did to `output`: a
/// script that `rvmove script` takes with the same image. What the guest sends is written nowhere.
///
/// Returns the status. It is 0 if the order was written: then nothing is written to `errors`, and `output` is flushed.
/// It is 1 if the image was refused, the move failed, or there is no order; then `errors` says why, with `LinkFault` if
/// a write to `output` failed or no connection can be made. The error `LinkFault` says that a write to `errors` failed.
/// It may wait for other threads, and starts three.
pub fn audit_command<
    M: PagedMemory + Drop + Send,
    O: Write + Drop,
    E: Write,
    R: Net + Threads + Wait + Clock + Sync,
>(
    rt: &R,
    alloc: Global,
    arguments: &MoveArguments,
    image: &[u8],
    output: &mut BufWriter<O>,
    errors: &mut E,
) -> Result<u8, LinkFault>
where
    R::Stream: Send,
    ensures status { IfOk result (λ status. (status ≡ 0) ⊎ (status ≡ 1)) }
    ensures order { IfOk result (λ status. status ≡ 0 → IsAudited arguments.now image.now
        (writer_contents O.contents output.old) (writer_contents O.contents output.new)) }
    ensures out { IfOk result (λ status. status ≡ 0 → is_flushed output.new) }
    ensures silent { IfOk result (λ status. status ≡ 0 → E.contents errors.new ≡ E.contents errors.old) }
    ensures failed { IfOk result (λ status. status ≡ 1
        → IsNotAudited arguments.now image.now (E.contents errors.old) (E.contents errors.new)) }
    ensures untold { OnErr result (IsUntold (IsNotAudited arguments.now image.now)) }
    ensures unloadable { IsLoadable (image_of arguments.now.guest.raw image.now) arguments.now.guest.pages
        ⊎ (writer_contents O.contents output.new ≡ writer_contents O.contents output.old) }
{
    let audited = audit_over::<M, O, E, R>(rt, alloc, arguments, image, output, errors)?;
    let status = audited.status;
    the_guest_of_an_order_never_moves();
    drop(audited);
    Ok(status)
}
