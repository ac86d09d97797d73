//! `rvmove move`: moves a guest between two hosts in this process, over TCP.

ghost use Rattle.std.specs.Prelude.{◌≡◌, ◌≢◌, ◌⊎◌, ℕ, IfErr, IfOk, OnErr};
ghost use Rattle.rvm_command.specs.Command.{image_of};
ghost use Rattle.rvm_command.specs.Ends.{IsLoadable};
ghost use Rattle.rvm_move.specs.Hosts.{IsFirstEnd, IsSecondEnd};
ghost use Rattle.rvm_move.specs.Runs.{IsEndRun};
ghost use Rattle.rvm_move.specs.Ended.{IsMoveRefusal, IsMoved, IsNotMoved, IsUntold};
ghost use Rattle.rvm_move.specs.Opening.{AreOpened};
ghost use Rattle.rvm_move.specs.Plans.{plan_of};
ghost use Rattle.rvm_refusal.specs.declared.refusal.Refusal.TheVariants as refusal;

use crate::hosts::Links;
use crate::move_over::{move_recorded, plan_of, tell_end};
use crate::moving::Moved;
use crate::opening::new_hosts;
use crate::socket::{Socket, connect};
use rvm_arguments::MoveArguments;
use rvm_cell::{Gate, Worker};
use rvm_command::refused::Refused;
use rvm_mem::PagedMemory;
use rvm_refusal::{LinkFault, Refusal};
use std::alloc::Global;
use std::io::Write;
use std::net::Net;
use std::sync::Wait;
use std::thread::Threads;
use std::time::Clock;

/// A gate that lets each call pass.
#[derive(Drop)]
pub struct OpenGate;

impl Gate for OpenGate {
    fn before(&self, _worker: Worker, _call: u32) -> bool {
        true
    }

    fn after(&self, _worker: Worker, _call: u32) {}
}

/// Moves the guest of an image as `move_over` does, over two TCP connections of this machine, one in each direction.
/// Returns the status that `move_over` returns: 1, after it reported `LinkFault`, also if the connections cannot be
/// made; then nothing was run. The error `LinkFault` says that a write to `errors` failed.
pub fn move_command<
    M: PagedMemory + Drop + Send + 'static,
    O: Write,
    E: Write,
    R: Net + Threads + Wait + Clock + Sync,
>(
    rt: &R,
    alloc: Global,
    arguments: &MoveArguments,
    image: &[u8],
    output: &mut O,
    errors: &mut E,
) -> Result<u8, LinkFault>
where
    R::Stream: Send,
    ensures moved { IfOk result (λ status. status ≢ 1 → IsMoved arguments.now image.now status
        (E.contents errors.old) (E.contents errors.new) (O.contents output.old) (O.contents output.new)) }
    ensures failed { IfOk result (λ status. status ≡ 1
        → IsNotMoved arguments.now image.now (E.contents errors.old) (E.contents errors.new)) }
    ensures untold { OnErr result (IsUntold (λ before after.
        ((status : ℕ) × IsMoved arguments.now image.now status before after (O.contents output.old) (O.contents output.new))
        ⊎ IsNotMoved arguments.now image.now before after)) }
    ensures unloadable { IsLoadable (image_of arguments.now.guest.raw image.now) arguments.now.guest.pages
        ⊎ (O.contents output.new ≡ O.contents output.old) }
{
    let moved = move_image::<M, O, R>(rt, alloc, arguments, image, output);
    tell_end(rt, alloc, moved, arguments.verdict, errors)
}

/// Moves the guest of an image over TCP. Returns both hosts and how the workers ended, or why the move did not begin.
#[tactic(auto, using(crate::proofs::MovesTold::opened))]
pub(crate) fn move_image<
    M: PagedMemory + Drop + Send,
    O: Write,
    R: Net + Threads + Wait + Clock + Sync,
>(
    rt: &R,
    alloc: Global,
    arguments: &MoveArguments,
    image: &[u8],
    output: &mut O,
) -> Result<Moved<M>, Refused>
where
    R::Stream: Send,
    ensures opened { IfOk result (λ m. AreOpened arguments.now image.now
        m.a.recorded.journal.opening m.b.recorded.journal.opening) }
    ensures a { IfOk result (λ m. IsFirstEnd (plan_of arguments.now).policy m.ends m.a.fault
        m.a.recorded.journal.entries) }
    ensures b { IfOk result (λ m. IsSecondEnd m.ends m.b.fault m.b.recorded.journal.entries) }
    ensures run { IfOk result (λ m. IsEndRun m.ends m.a.fault m.b.fault m.a.recorded.journal.entries
        m.b.recorded.journal.entries (O.contents output.old) (O.contents output.new)
        arguments.now.guest.harts arguments.now.steps) }
    ensures refused { IfErr result (IsMoveRefusal arguments.now image.now) }
    ensures unloadable { IsLoadable (image_of arguments.now.guest.raw image.now) arguments.now.guest.pages
        ⊎ (O.contents output.new ≡ O.contents output.old) }
{
    let recorded = new_hosts::<M>(alloc, arguments, image)?;
    match connect_both(rt, alloc) {
        Ok(links) => {
            let plan = plan_of(arguments);
            move_recorded(rt, alloc, recorded, links, &OpenGate, &plan, output)
        }
        Err(refusal) => {
            drop(recorded);
            Err(Refused::from(refusal))
        }
    }
}

/// Makes a TCP connection of this machine from each side to the other. Returns the links of both hosts. `LinkFault` if
/// one cannot be made; `OutOfMemory` if there is no memory for its buffer.
pub fn connect_both<R: Net>(
    rt: &R,
    alloc: Global,
) -> Result<(Links<Socket<R::Stream>>, Links<Socket<R::Stream>>), Refusal>
    ensures { IfErr result (λ r. (r ≡ refusal.LinkFault) ⊎ (r ≡ refusal.OutOfMemory)) }
{
    let (from_a, to_b) = connect(rt, alloc)?;
    let (from_b, to_a) = connect(rt, alloc)?;
    Ok((
        Links {
            sending: from_a,
            receiving: to_a,
        },
        Links {
            sending: from_b,
            receiving: to_b,
        },
    ))
}
