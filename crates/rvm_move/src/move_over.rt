//! Moves a guest over links that are handed in.

ghost use Rattle.std.specs.Prelude.{◌≡◌, ◌≢◌, ◌⊎◌, ℕ, [], IfErr, IfOk, OnErr};
ghost use Rattle.std.specs.Result.{IsOkAnd};
ghost use Rattle.rvm_command.specs.Command.{image_of};
ghost use Rattle.rvm_command.specs.Ends.{IsLoadable};
ghost use Rattle.rvm_command.specs.Refusals.{IsTold, refused};
ghost use Rattle.rvm_refusal.specs.declared.refusal.Refusal.TheVariants as refusal;
ghost use Rattle.rvm_move.specs.Hosts.{IsFirstEnd, IsSecondEnd};
ghost use Rattle.rvm_move.specs.Runs.{IsEndRun};
ghost use Rattle.rvm_move.specs.Ended.{IsFailureOf, IsMoved, IsNotMoved, IsToldOf, IsUntold};
ghost use Rattle.rvm_recorder.specs.Replay.{IsReplay};
ghost use Rattle.rvm_move.specs.Plans.{plan_of};

use crate::ended::tell_moved;
use crate::hosts::Links;
use crate::moving::{Moved, SEATS_AT_A, SEATS_AT_B, move_guest};
use crate::opening::new_hosts;
use crate::plan::Plan;
use rvm_arguments::MoveArguments;
use rvm_cell::Gate;
use rvm_command::refused::{Refused, tell};
use rvm_link::Link;
use rvm_mem::PagedMemory;
use rvm_precopy::Policy;
use rvm_recorder::Recorded;
use rvm_refusal::{LinkFault, Refusal};
use std::alloc::Global;
use std::io::Write;
use std::marker::Brand;
use std::sync::Wait;
use std::sync::ledger::Blank;
use std::thread;
use std::thread::Threads;
use std::time::Clock;

/// Moves the guest of the file `image` from the first host to the second one while it runs. Each side has a link that
/// sends its frames, and one that receives the other side's. What the guest sends goes to `output`. When all is over,
/// the replies of both hosts to the commands of the move and to frames go to `errors`, the first host's before the
/// second's, and after them, if `arguments.verdict` asks for that, how the guest's turns ended.
///
/// Returns the status. It is 1 if the image was refused, which leaves `output` unchanged, or the move failed; then the
/// last line of `errors` says why. Else it is 0, or, if a verdict was asked for, the verdict that `run` returns: 0, 3
/// or 4. The error `LinkFault` says that a write to `errors` failed.
///
/// It may wait for other threads: it starts three, and, when these have ended, one for which it does not wait, and
/// which frees what both hosts keep.
pub fn move_over<
    M: PagedMemory + Drop + Send + 'static,
    K: Link + Drop + Send,
    G: Gate + Sync,
    O: Write,
    E: Write,
    R: Threads + Wait + Clock + Sync,
>(
    rt: &R,
    alloc: Global,
    arguments: &MoveArguments,
    image: &[u8],
    links: (Links<K>, Links<K>),
    gate: &G,
    output: &mut O,
    errors: &mut E,
) -> Result<u8, LinkFault>
    ensures moved { IfOk result (λ status. status ≢ 1 → IsMoved arguments.now image.now status
        (E.contents errors.old) (E.contents errors.new) (O.contents output.old) (O.contents output.new)) }
    ensures failed { IfOk result (λ status. status ≡ 1
        → IsNotMoved arguments.now image.now (E.contents errors.old) (E.contents errors.new)) }
    ensures untold { OnErr result (IsUntold (λ before after.
        ((status : ℕ) × IsMoved arguments.now image.now status before after (O.contents output.old) (O.contents output.new))
        ⊎ IsNotMoved arguments.now image.now before after)) }
    ensures unloadable { IsLoadable (image_of arguments.now.guest.raw image.now) arguments.now.guest.pages
        ⊎ (O.contents output.new ≡ O.contents output.old) }
{
    match new_hosts::<M>(alloc, arguments, image) {
        Ok(recorded) => {
            let plan = plan_of(arguments);
            let moved = move_recorded(rt, alloc, recorded, links, gate, &plan, output);
            tell_end(rt, alloc, moved, arguments.verdict, errors)
        }
        Err(refused) => tell(refused, errors),
    }
}

/// The plan that the arguments of a move ask for.
pub fn plan_of(arguments: &MoveArguments) -> Plan
    ensures { result ≡ plan_of arguments.now }
{
    Plan {
        harts: arguments.guest.harts,
        steps: arguments.steps,
        policy: Policy {
            max_rounds: arguments.rounds,
            min_left: arguments.left,
            factor: arguments.factor,
        },
        bandwidth: arguments.bandwidth,
        version: arguments.stream,
    }
}

/// Writes the replies of both hosts of a move, and reports why it failed, or how the turns ended, if a `verdict` is
/// asked for; or reports why the move did not begin. Returns the status. `LinkFault` if a write fails.
pub(crate) fn tell_end<M: PagedMemory + Drop + Send + 'static, E: Write, R: Threads>(
    rt: &R,
    alloc: Global,
    moved: Result<Moved<M>, Refused>,
    verdict: bool,
    errors: &mut E,
) -> Result<u8, LinkFault>
    ensures told { IfOk result (λ status. status ≢ 1 → IsOkAnd moved (λ m. IsToldOf verdict status m.ends m.a.fault m.b.fault
        m.a.recorded.journal m.b.recorded.journal (E.contents errors.old) (E.contents errors.new))) }
    ensures failed { IfOk result (λ status. IfOk moved (λ m. status ≡ 1 → IsFailureOf m.ends m.a.fault m.b.fault
        m.a.recorded.journal m.b.recorded.journal (E.contents errors.old) (E.contents errors.new))) }
    ensures refused { IfOk result (λ status. IfErr moved (λ r.
        IsTold r (E.contents errors.old) (E.contents errors.new))) }
    ensures replays { IfOk moved (λ m. IsReplay m.a.recorded.journal.opening m.a.recorded.journal.entries
        × IsReplay m.b.recorded.journal.opening m.b.recorded.journal.entries) }
{
    match moved {
        Ok(moved) => {
            let told = tell_moved(alloc, &moved, verdict, errors);
            give_back(rt, moved);
            told
        }
        Err(refused) => tell(refused, errors),
    }
}

/// Frees what both hosts keep, in a thread of its own, so that whoever has the status need not wait for that.
fn give_back<M: PagedMemory + Drop + Send + 'static, R: Threads>(rt: &R, moved: Moved<M>) {
    let Moved { a, b, ends: _ } = moved;
    drop(thread::spawn(rt, move || {
        drop(a);
        drop(b);
    }));
}

/// Moves the guest of the first host to the second one, both with empty journals. `OutOfMemory` if memory ran out
/// before the move began.
pub(crate) fn move_recorded<
    M: PagedMemory + Drop + Send,
    K: Link + Drop + Send,
    G: Gate + Sync,
    O: Write,
    R: Threads + Wait + Clock + Sync,
>(
    rt: &R,
    alloc: Global,
    recorded: (Recorded<M>, Recorded<M>),
    links: (Links<K>, Links<K>),
    gate: &G,
    plan: &Plan,
    output: &mut O,
) -> Result<Moved<M>, Refused>
    requires { (recorded.0.journal.entries ≡ []) × (recorded.1.journal.entries ≡ []) }
    ensures opening { IfOk result (λ m. (m.a.recorded.journal.opening ≡ recorded.0.journal.opening)
        × (m.b.recorded.journal.opening ≡ recorded.1.journal.opening)) }
    ensures a { IfOk result (λ m. IsFirstEnd plan.now.policy m.ends m.a.fault m.a.recorded.journal.entries) }
    ensures b { IfOk result (λ m. IsSecondEnd m.ends m.b.fault m.b.recorded.journal.entries) }
    ensures run { IfOk result (λ m. IsEndRun m.ends m.a.fault m.b.fault m.a.recorded.journal.entries
        m.b.recorded.journal.entries (O.contents output.old) (O.contents output.new) plan.now.harts plan.now.steps) }
    ensures refused { IfErr result (λ r. r ≡ refused refusal.OutOfMemory) }
{
    let blanks = (
        Blank::new(u64::from(SEATS_AT_A)),
        Blank::new(u64::from(SEATS_AT_B)),
    );
    match move_guest::<Brand, Brand, M, K, G, O, R>(
        rt, alloc, blanks, recorded, links, gate, plan, output,
    ) {
        Ok(moved) => Ok(moved),
        Err(_) => Err(Refused::from(Refusal::OutOfMemory)),
    }
}
