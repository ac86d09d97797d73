//! The threads of a move.

ghost use Rattle.std.specs.Prelude.{◌≢◌, Err};
ghost use Rattle.rvm_recorder.specs.Runs.{all_of};
ghost use Rattle.rvm_cell.specs.Calls.{IsRun};
ghost use Rattle.rvm_move.specs.Hosts.{AreCarried, IsReceivedAtB};
ghost use Rattle.rvm_move.specs.Runs.{AreOfOne};
ghost use Rattle.rvm_cell.specs.Copiers.{IsCopied};
ghost use Rattle.rvm_cell.specs.Heard.{IsReceived};
ghost use Rattle.rvm_cell.specs.declared.end.WorkEnd.TheVariants.{LinkFault};

use crate::beside::beside;
use crate::plan::Plan;
use crate::turns::Turns;
use rvm_cell::{
    CopyPlan, Gate, HartsWorked, Hosts, Side, WorkEnd, Worked, Worker, copier_worker,
    receiver_worker,
};
use rvm_link::{Link, Outgoing};
use rvm_mem::PagedMemory;
use rvm_recorder::{Seat, Seating, SharedHost};
use rvm_station::take_back;
use std::alloc::Global;
use std::io::Write;
use std::sync::Wait;
use std::sync::atomic::{AtomicBool, Ordering};
use std::thread;
use std::thread::Threads;
use std::time::{Clock, Duration};

/// The number of the host from which the guest moves.
pub(crate) const A: u8 = 0;

/// The number of the host to which the guest moves.
pub(crate) const B: u8 = 1;

/// The most looks without a pause whether a thread has begun.
const SOON: u32 = 10_000;

/// The most looks after these, a millisecond apart.
const LATER: u32 = 2_000;

/// What the workers at host A take with them.
#[derive(Drop)]
pub(crate) struct TakenAtA<L: Seating, K: Link + Drop> {
    pub(crate) copier: Seat<L>,
    pub(crate) receiver: Seat<L>,
    pub(crate) receiving: K,
    pub(crate) plan: CopyPlan,
}

/// What the worker at host B takes with it.
#[derive(Drop)]
pub(crate) struct TakenAtB<N: Seating, K: Link + Drop> {
    pub(crate) receiver: Seat<N>,
    pub(crate) receiving: K,
}

/// What the workers that move the guest take with them.
#[derive(Drop)]
pub(crate) struct Taken<L: Seating, N: Seating, K: Link + Drop> {
    pub(crate) at_a: TakenAtA<L, K>,
    pub(crate) at_b: TakenAtB<N, K>,
}

/// What the workers that move the guest give back.
#[derive(Drop)]
pub(crate) struct Carried<L: Seating, N: Seating> {
    pub(crate) copier: Worked<L>,
    pub(crate) receiver_a: Worked<L>,
    pub(crate) receiver_b: Worked<N>,
}

/// Copies the guest of host A to host B.
fn copy<L: Seating, M: PagedMemory + Drop, K: Link + Drop, G: Gate, R: Wait + Clock>(
    rt: &R,
    alloc: Global,
    host: &SharedHost<L, M>,
    outgoing: &Outgoing<K>,
    seat: Seat<L>,
    gate: &G,
    plan: CopyPlan,
) -> Worked<L>
    ensures { IsCopied 1 plan.policy result.end (all_of result.receipts.items) }
{
    copier_worker(rt, alloc, &Side { host, outgoing }, seat, gate, B, plan)
}

/// Hears the other side. The link is dropped when the receiver ends, so that whoever sends on it need not wait.
#[tactic(auto, using(crate::proofs::Told::received))]
fn hear<L: Seating, M: PagedMemory + Drop, K: Link + Drop, G: Gate, R: Wait>(
    rt: &R,
    alloc: Global,
    host: &SharedHost<L, M>,
    outgoing: &Outgoing<K>,
    seat: Seat<L>,
    gate: &G,
    worker: Worker,
    from: u8,
    to: u8,
    receiving: K,
) -> Worked<L>
    ensures { IsReceived from to (K.remaining receiving) result.end (all_of result.receipts.items) }
{
    let mut link = receiving;
    let side = Side { host, outgoing };
    receiver_worker(rt, alloc, &side, seat, gate, worker, from, to, &mut link)
}

/// Copies the guest of host A, and hears host B at the same time. The first seat is the copier's. If the system cannot
/// start a thread for the receiver, it hears only after the copier, which nobody answers, has given up.
fn copy_and_hear<
    L: Seating + Send + Sync,
    M: PagedMemory + Drop + Send,
    K: Link + Drop + Send,
    G: Gate + Sync,
    R: Threads + Wait + Clock + Sync,
>(
    rt: &R,
    alloc: Global,
    host: &SharedHost<L, M>,
    outgoing: &Outgoing<K>,
    seats: (Seat<L>, Seat<L>),
    gate: &G,
    plan: CopyPlan,
    receiving: K,
) -> (Worked<L>, Worked<L>)
    ensures copier { IsCopied 1 plan.policy result.0.end (all_of result.0.receipts.items) }
    ensures receiver { IsReceived 1 0 (K.remaining receiving) result.1.end (all_of result.1.receipts.items) }
{
    let (copier, receiver) = seats;
    let (heard, copied) = thread::join(
        rt,
        move || -> Worked<L>
            ensures { IsReceived 1 0 (K.remaining receiving) result.end (all_of result.receipts.items) }
        {
            hear(
                rt,
                alloc,
                host,
                outgoing,
                receiver,
                gate,
                Worker::ReceiverAtA,
                B,
                A,
                receiving,
            )
        },
        move || -> Worked<L>
            ensures { IsCopied 1 plan.policy result.end (all_of result.receipts.items) }
        { copy(rt, alloc, host, outgoing, copier, gate, plan) },
    );
    (copied, heard)
}

/// Does the work at host A. When both workers have ended, closes the end at which its frames are sent.
fn work_at_a<
    L: Seating + Send + Sync,
    M: PagedMemory + Drop + Send,
    K: Link + Drop + Send,
    G: Gate + Sync,
    R: Threads + Wait + Clock + Sync,
>(
    rt: &R,
    alloc: Global,
    host: &SharedHost<L, M>,
    outgoing: &Outgoing<K>,
    taken: TakenAtA<L, K>,
    gate: &G,
) -> (Worked<L>, Worked<L>)
    ensures copier { IsCopied 1 taken.plan.policy result.0.end (all_of result.0.receipts.items) }
    ensures receiver { IsReceived 1 0 (K.remaining taken.receiving) result.1.end (all_of result.1.receipts.items) }
{
    let TakenAtA {
        copier,
        receiver,
        receiving,
        plan,
    } = taken;
    let seats = (copier, receiver);
    let worked = copy_and_hear(rt, alloc, host, outgoing, seats, gate, plan, receiving);
    outgoing.close(rt);
    worked
}

/// Waits until the thread of the workers at host A has begun, for some two seconds. Returns whether it has.
fn has_begun<R: Clock>(rt: &R, begun: &AtomicBool) -> bool {
    for look in 0..SOON + LATER {
        if begun.load(Ordering::Relaxed) {
            return true;
        }
        if look < SOON {
            thread::yield_now();
        } else {
            thread::sleep(rt, Duration::from_millis(1));
        }
    }
    false
}

/// Hears host A at host B. When the receiver has ended, closes the end at which its frames are sent. If the workers at
/// host A have no thread to begin in, it hears nothing, and ends with `NoThread`.
fn work_at_b<L: Seating, M: PagedMemory + Drop, K: Link + Drop, G: Gate, R: Wait + Clock>(
    rt: &R,
    alloc: Global,
    host: &SharedHost<L, M>,
    outgoing: &Outgoing<K>,
    taken: TakenAtB<L, K>,
    gate: &G,
    begun: &AtomicBool,
) -> Worked<L>
    ensures { IsReceivedAtB (K.remaining taken.receiving) result.end (all_of result.receipts.items) }
{
    let TakenAtB {
        receiver,
        receiving,
    } = taken;
    if !has_begun(rt, begun) {
        outgoing.close(rt);
        return Worked {
            seat: receiver,
            receipts: Vec::new(alloc),
            end: WorkEnd::NoThread,
        };
    }
    let worked = hear(
        rt,
        alloc,
        host,
        outgoing,
        receiver,
        gate,
        Worker::ReceiverAtB,
        A,
        B,
        receiving,
    );
    outgoing.close(rt);
    worked
}

/// Moves the guest, by three threads. If `thread::join` cannot start one for the workers at host A, it calls them last;
/// without `begun`, the receiver at host B would then wait for their frames for ever.
fn carry<
    L: Seating + Send + Sync,
    N: Seating + Send + Sync,
    M: PagedMemory + Drop + Send,
    K: Link + Drop + Send,
    G: Gate + Sync,
    R: Threads + Wait + Clock + Sync,
>(
    rt: &R,
    alloc: Global,
    hosts: (&SharedHost<L, M>, &SharedHost<N, M>),
    outgoing: (&Outgoing<K>, &Outgoing<K>),
    taken: Taken<L, N, K>,
    gate: &G,
) -> Carried<L, N>
    ensures { AreCarried taken.at_a.plan.policy (K.remaining taken.at_a.receiving) (K.remaining taken.at_b.receiving)
        result.copier.end result.receiver_a.end result.receiver_b.end (all_of result.copier.receipts.items)
        (all_of result.receiver_a.receipts.items) (all_of result.receiver_b.receipts.items) }
{
    let Taken { at_a, at_b } = taken;
    let (host_a, host_b) = hosts;
    let (to_b, to_a) = outgoing;
    let begun = &AtomicBool::new(false);
    let ((copier, receiver_a), receiver_b) = thread::join(
        rt,
        move || -> (Worked<L>, Worked<L>)
            ensures copier { IsCopied 1 at_a.plan.policy result.0.end (all_of result.0.receipts.items) }
            ensures receiver { IsReceived 1 0 (K.remaining at_a.receiving) result.1.end (all_of result.1.receipts.items) }
        {
            begun.store(true, Ordering::Relaxed);
            work_at_a(rt, alloc, host_a, to_b, at_a, gate)
        },
        move || -> Worked<N>
            ensures { IsReceivedAtB (K.remaining at_b.receiving) result.end (all_of result.receipts.items) }
        { work_at_b(rt, alloc, host_b, to_a, at_b, gate, begun) },
    );
    Carried {
        copier,
        receiver_a,
        receiver_b,
    }
}

/// Makes the turns of the guest's harts in this thread, and moves the guest in three more.
#[tactic(auto, using(crate::proofs::Told::of_one))]
pub(crate) fn work<
    L: Seating + Send + Sync,
    N: Seating + Send + Sync,
    M: PagedMemory + Drop + Send,
    K: Link + Drop + Send,
    G: Gate + Sync,
    W: Write,
    R: Threads + Wait + Clock + Sync,
>(
    rt: &R,
    alloc: Global,
    hosts: (&SharedHost<L, M>, &SharedHost<N, M>),
    outgoing: (&Outgoing<K>, &Outgoing<K>),
    taken: Taken<L, N, K>,
    hart_seats: (Seat<L>, Seat<N>),
    gate: &G,
    plan: &Plan,
    writer: &mut W,
) -> (Carried<L, N>, HartsWorked<L, N>)
    ensures run { IsRun (all_of result.1.receipts.0.items) (all_of result.1.receipts.1.items) (W.contents writer.old)
        (W.contents writer.new) (result.1.end ≢ Err LinkFault) plan.now.harts plan.now.steps result.1.end }
    ensures one { AreOfOne (all_of result.1.receipts.0.items) × AreOfOne (all_of result.1.receipts.1.items) }
    ensures carried { AreCarried taken.at_a.plan.policy (K.remaining taken.at_a.receiving) (K.remaining taken.at_b.receiving)
        result.0.copier.end result.0.receiver_a.end result.0.receiver_b.end (all_of result.0.copier.receipts.items)
        (all_of result.0.receiver_a.receipts.items) (all_of result.0.receiver_b.receipts.items) }
{
    let turns = Turns {
        rt,
        alloc,
        hosts: Hosts {
            a: hosts.0,
            b: hosts.1,
        },
        seats: hart_seats,
        gate,
        plan: *plan,
        writer,
    };
    let (carried, (turned, writer)) = beside(
        rt,
        move || -> Carried<L, N>
            ensures { AreCarried taken.at_a.plan.policy (K.remaining taken.at_a.receiving)
                (K.remaining taken.at_b.receiving) result.copier.end result.receiver_a.end result.receiver_b.end
                (all_of result.copier.receipts.items) (all_of result.receiver_a.receipts.items)
                (all_of result.receiver_b.receipts.items) }
        { carry(rt, alloc, hosts, outgoing, taken, gate) },
        turns,
    );
    take_back(writer);
    (carried, turned)
}
