//! The copier: it moves the guest to another host.

ghost use Rattle.std.specs.Prelude.{◌≡◌, true, None, IfErr, IfOk, IsSomeAnd};
ghost use Rattle.rvm_recorder.specs.Runs.{all_of};
ghost use Rattle.rvm_cell.specs.Copiers.{HasTried, IsCopied, IsNext, copies_on, is_given};
ghost use Rattle.rvm_cell.specs.Endings.{IsCopierEnd, is_uncalled};
ghost use Rattle.rvm_cell.specs.Work.{IsWork};

use crate::copying::Copying;
use crate::end::{WorkEnd, Worked};
use crate::gate::{Gate, Watch, Worker};
use crate::next::{LONG_PAUSE, Next, SHORT_PAUSE, after_copy, is_gone, says_no_move};
use crate::telling::Side;
use rvm_link::{Link, SendError};
use rvm_mem::PagedMemory;
use rvm_message::Command;
use rvm_precopy::Policy;
use rvm_recorder::{Seat, Seating};
use rvm_station::CopyPace;
use std::alloc::Global;
use std::sync::Wait;
use std::thread;
use std::time::{Clock, Duration};

/// The number of consecutive waits after which the copier gives up the move; also how often at most it asks for the
/// last frame again, and how often it tries to give up the move when memory runs out.
const TRIES: u32 = 1000;

/// How a copier copies a guest.
#[derive(Clone, Copy, Debug, PartialEq, Eq)]
pub struct CopyPlan {
    pub policy: Policy,
    /// The most megabytes of pages, each of 1000000 bytes, that are copied in a second while the guest runs, if there is a
    /// limit.
    pub bandwidth: Option<u32>,
}

/// Sleeps for this many milliseconds.
fn pause<R: Clock>(rt: &R, millis: u32) {
    thread::sleep(rt, Duration::from_millis(u64::from(millis)));
}

/// Moves the guest of this side's host to another one. It begins the move and copies until the guest is given up here;
/// then it has the last frame sent again until the other side has the guest. It gives up the move if it waits too long
/// before that, or if a frame cannot be sent. If memory runs out or the journal is full, it also closes the end at
/// which frames are sent.
pub fn copier_worker<L: Seating, M: PagedMemory + Drop, K: Link + Drop, G: Gate, R: Wait + Clock>(
    rt: &R,
    alloc: Global,
    side: &Side<'_, L, M, K>,
    seat: Seat<L>,
    gate: &G,
    to: u8,
    plan: CopyPlan,
) -> Worked<L>
    ensures work { IsWork seat result.seat (all_of result.receipts.items) }
    ensures copied { IsCopied to plan.policy result.end (all_of result.receipts.items) }
{
    let mut copying = Copying::new(alloc, seat, to, plan.policy);
    let mut watch = Watch::new(gate, Worker::Copier);
    let mut pace = CopyPace::new(plan.bandwidth);
    let end = make_calls(rt, alloc, side, &mut copying, &mut watch, &mut pace);
    if end.is_short_of_room() {
        side.outgoing.close(rt);
    }
    copying.end(end)
}

/// Makes the calls of the copier, from Begin on.
#[tactic(auto, using(crate::proofs::Endings::uncalled_copier))]
fn make_calls<L: Seating, M: PagedMemory + Drop, K: Link + Drop, G: Gate, R: Wait + Clock>(
    rt: &R,
    alloc: Global,
    side: &Side<'_, L, M, K>,
    copying: &mut Copying<L>,
    watch: &mut Watch<'_, G>,
    pace: &mut CopyPace,
) -> WorkEnd
    requires { copying.old.last ≡ None }
    ensures same { copying.new ≡ record copying.old { last = copying.new.last; refused = copying.new.refused } }
    ensures end { IsCopierEnd result copying.new.last }
    ensures out { result ≡ WorkEnd.OutOfMemory → HasTried copying.new.last copying.new.refused }
{
    match copy_guest(rt, alloc, side, copying, watch, pace) {
        Ok(Next::Done) => WorkEnd::Done,
        Ok(Next::Resend) => resend(rt, alloc, side, copying, watch),
        Ok(_) => give_up(rt, alloc, side, copying, watch),
        Err(WorkEnd::OutOfMemory) => abort_without_memory(rt, alloc, side, copying, watch),
        Err(end) => end,
    }
}

/// Begins the move and copies, until the next thing to do is another one.
fn copy_guest<L: Seating, M: PagedMemory + Drop, K: Link + Drop, G: Gate, R: Wait + Clock>(
    rt: &R,
    alloc: Global,
    side: &Side<'_, L, M, K>,
    copying: &mut Copying<L>,
    watch: &mut Watch<'_, G>,
    pace: &mut CopyPace,
) -> Result<Next, WorkEnd>
    requires { copying.old.last ≡ None }
    ensures same { copying.new ≡ record copying.old { last = copying.new.last; refused = copying.new.refused } }
    ensures next { IfOk result (λ n. IsNext n copying.new.last) }
    ensures uncalled { IfErr result (λ e. is_uncalled e ≡ true) }
{
    let told = copying.begin(rt, alloc, side, watch)?;
    match told.sent {
        Ok(()) => copy_until(rt, alloc, side, copying, watch, pace),
        Err(SendError::OutOfMemory) => Err(WorkEnd::OutOfMemory),
        Err(_) => Ok(Next::GiveUp),
    }
}

/// Copies at this pace until the next thing to do is another one. After `TRIES` consecutive pauses, it is to give up the
/// move.
fn copy_until<L: Seating, M: PagedMemory + Drop, K: Link + Drop, G: Gate, R: Wait + Clock>(
    rt: &R,
    alloc: Global,
    side: &Side<'_, L, M, K>,
    copying: &mut Copying<L>,
    watch: &mut Watch<'_, G>,
    pace: &mut CopyPace,
) -> Result<Next, WorkEnd>
    requires { IsSomeAnd copying.old.last (λ x. copies_on x ≡ true) }
    ensures same { copying.new ≡ record copying.old { last = copying.new.last; refused = copying.new.refused } }
    ensures next { IfOk result (λ n. IsNext n copying.new.last) }
    ensures uncalled { IfErr result (λ e. is_uncalled e ≡ true) }
{
    let mut pauses = 0;
    for _copy in 0..u64::MAX {
        match copy(rt, alloc, side, copying, watch, pace)? {
            Next::Copy => pauses = 0,
            Next::Wait(millis) => {
                pause(rt, millis);
                pauses += 1;
                if pauses >= TRIES {
                    return Ok(Next::GiveUp);
                }
            }
            next => return Ok(next),
        }
    }
    Ok(Next::GiveUp)
}

/// Asks for one copy, and keeps the pace. Returns what the copier does next.
#[tactic(auto, using(crate::proofs::Copiers::copy_asked, crate::proofs::Copiers::next_told))]
fn copy<L: Seating, M: PagedMemory + Drop, K: Link + Drop, G: Gate, R: Wait + Clock>(
    rt: &R,
    alloc: Global,
    side: &Side<'_, L, M, K>,
    copying: &mut Copying<L>,
    watch: &mut Watch<'_, G>,
    pace: &mut CopyPace,
) -> Result<Next, WorkEnd>
    requires { IsSomeAnd copying.old.last (λ x. copies_on x ≡ true) }
    ensures same { copying.new ≡ record copying.old { last = copying.new.last; refused = copying.new.refused } }
    ensures next { IfOk result (λ n. IsNext n copying.new.last) }
    ensures uncalled { IfErr result (λ e. is_uncalled e ≡ true) }
{
    let told = copying.ask(rt, alloc, side, watch, Command::Copy)?;
    match told.sent {
        Ok(()) => {
            pace.keep(rt, &told.reply);
            Ok(after_copy(&told.reply))
        }
        Err(SendError::OutOfMemory) => Err(WorkEnd::OutOfMemory),
        Err(_) => Ok(Next::GiveUp),
    }
}

/// Has the last frame sent again until no move is left here, at most `TRIES` times; `LinkFault` if a move is still left
/// then.
#[tactic(auto, using(crate::proofs::Endings::uncalled_copier, crate::proofs::Copiers::again_asked, crate::proofs::Copiers::left_told, crate::proofs::Copiers::tried_given))]
fn resend<L: Seating, M: PagedMemory + Drop, K: Link + Drop, G: Gate, R: Wait + Clock>(
    rt: &R,
    alloc: Global,
    side: &Side<'_, L, M, K>,
    copying: &mut Copying<L>,
    watch: &mut Watch<'_, G>,
) -> WorkEnd
    requires { IsSomeAnd copying.old.last (λ x. is_given x ≡ true) }
    ensures same { copying.new ≡ record copying.old { last = copying.new.last; refused = copying.new.refused } }
    ensures end { IsCopierEnd result copying.new.last }
    ensures out { result ≡ WorkEnd.OutOfMemory → HasTried copying.new.last copying.new.refused }
{
    for _try in 0..TRIES {
        pause(rt, LONG_PAUSE);
        match copying.ask(rt, alloc, side, watch, Command::Resend) {
            Err(end) => return end,
            Ok(told) => {
                if says_no_move(&told.reply) {
                    return WorkEnd::Done;
                }
            }
        }
    }
    WorkEnd::LinkFault
}

/// Gives up the move, unless the guest was given up in the meantime: then has the last frame sent again.
#[tactic(auto, using(crate::proofs::Endings::uncalled_copier))]
fn give_up<L: Seating, M: PagedMemory + Drop, K: Link + Drop, G: Gate, R: Wait + Clock>(
    rt: &R,
    alloc: Global,
    side: &Side<'_, L, M, K>,
    copying: &mut Copying<L>,
    watch: &mut Watch<'_, G>,
) -> WorkEnd
    ensures same { copying.new ≡ record copying.old { last = copying.new.last; refused = copying.new.refused } }
    ensures end { IsCopierEnd result copying.new.last }
    ensures out { result ≡ WorkEnd.OutOfMemory → HasTried copying.new.last copying.new.refused }
{
    match copying.ask(rt, alloc, side, watch, Command::Abort) {
        Err(WorkEnd::OutOfMemory) => abort_without_memory(rt, alloc, side, copying, watch),
        Err(end) => end,
        Ok(told) => {
            if is_gone(&told.reply) {
                resend(rt, alloc, side, copying, watch)
            } else {
                WorkEnd::GivenUp
            }
        }
    }
}

/// Tries to give up the move after memory ran out, at most `TRIES` times.
#[tactic(auto, using(crate::proofs::Endings::uncalled_copier, crate::proofs::Copiers::tried_once, crate::proofs::Copiers::tried_often))]
fn abort_without_memory<
    L: Seating,
    M: PagedMemory + Drop,
    K: Link + Drop,
    G: Gate,
    R: Wait + Clock,
>(
    rt: &R,
    alloc: Global,
    side: &Side<'_, L, M, K>,
    copying: &mut Copying<L>,
    watch: &mut Watch<'_, G>,
) -> WorkEnd
    ensures same { copying.new ≡ record copying.old { last = copying.new.last; refused = copying.new.refused } }
    ensures end { IsCopierEnd result copying.new.last }
    ensures out { result ≡ WorkEnd.OutOfMemory → HasTried copying.new.last copying.new.refused }
{
    for _try in 0..TRIES {
        match copying.ask(rt, alloc, side, watch, Command::Abort) {
            Err(WorkEnd::OutOfMemory) => pause(rt, SHORT_PAUSE),
            Err(end) => return end,
            Ok(_) => return WorkEnd::OutOfMemory,
        }
    }
    WorkEnd::OutOfMemory
}
