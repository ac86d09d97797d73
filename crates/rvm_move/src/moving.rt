//! A move from its beginning to its end.

ghost use Rattle.std.specs.Prelude.{◌≡◌, ◌≢◌, ◌++◌, [], None, Err, vec_len, IfOk};
ghost use Rattle.rvm_recorder.specs.Runs.{all_of};
ghost use Rattle.rvm_cell.specs.Calls.{IsRun};
ghost use Rattle.rvm_move.specs.Hosts.{AreAll, AreCarried, IsFirstEnd, IsSecondEnd};
ghost use Rattle.rvm_move.specs.Runs.{AreOfOne, IsEndRun};
ghost use Rattle.rvm_cell.specs.declared.end.WorkEnd.TheVariants.{LinkFault};

use crate::ends::Ends;
use crate::hosts::{HostEnd, Links, OpenHost, Returned, close_host, open_host};
use crate::plan::Plan;
use crate::threads::{Carried, Taken, TakenAtA, TakenAtB, work};
use rvm_cell::{CopyPlan, Gate, HartsWorked};
use rvm_link::Link;
use rvm_mem::PagedMemory;
use rvm_recorder::{Recorded, Seat, Seating};
use std::alloc::{AllocError, Global};
use std::io::Write;
use std::sync::Wait;
use std::sync::ledger::Blank;
use std::thread::Threads;
use std::time::Clock;

/// The number of seats at host A: the hart worker's, the copier's and the receiver's.
pub const SEATS_AT_A: u32 = 3;

/// The number of seats at host B: the hart worker's and the receiver's.
pub const SEATS_AT_B: u32 = 2;

/// What a move leaves: both hosts, and how its workers ended.
#[derive(Drop)]
pub struct Moved<M: PagedMemory + Drop> {
    pub a: HostEnd<M>,
    pub b: HostEnd<M>,
    pub ends: Ends,
}

/// Moves the guest of the first host to the second one while it runs. What the guest sends goes to `writer`. Returns
/// both hosts and how the workers ended, when all have ended: the one that makes the turns, the copier, and a receiver
/// at each host. `AllocError` if memory runs out before they begin: then nothing was sent but Hello. It may wait for
/// other threads, and starts three.
pub fn move_guest<
    L: Seating + Send + Sync,
    N: Seating + Send + Sync,
    M: PagedMemory + Drop + Send,
    K: Link + Drop + Send,
    G: Gate + Sync,
    W: Write,
    R: Threads + Wait + Clock + Sync,
>(
    rt: &R,
    alloc: Global,
    blanks: (Blank, Blank),
    recorded: (Recorded<M>, Recorded<M>),
    links: (Links<K>, Links<K>),
    gate: &G,
    plan: &Plan,
    writer: &mut W,
) -> Result<Moved<M>, AllocError>
    requires ledger_a { (blanks.0.name ≡ L.name) × (blanks.0.parts ≡ L.parts) × (L.seats ≡ L.parts) }
    requires ledger_b { (blanks.1.name ≡ N.name) × (blanks.1.parts ≡ N.parts) × (N.seats ≡ N.parts) }
    requires seats { (blanks.0.parts ≡ 3) × (blanks.1.parts ≡ 2) }
    requires empty { (recorded.0.journal.entries ≡ []) × (recorded.1.journal.entries ≡ []) }
    requires opening { (recorded.0.journal.opening ≡ L.opening) × (recorded.1.journal.opening ≡ N.opening) }
    requires capacity { (recorded.0.capacity ≡ L.capacity) × (recorded.1.capacity ≡ N.capacity) }
    ensures opening { IfOk result (λ m. (m.a.recorded.journal.opening ≡ recorded.0.journal.opening)
        × (m.b.recorded.journal.opening ≡ recorded.1.journal.opening)) }
    ensures a { IfOk result (λ m. IsFirstEnd plan.now.policy m.ends m.a.fault m.a.recorded.journal.entries) }
    ensures b { IfOk result (λ m. IsSecondEnd m.ends m.b.fault m.b.recorded.journal.entries) }
    ensures run { IfOk result (λ m. IsEndRun m.ends m.a.fault m.b.fault m.a.recorded.journal.entries
        m.b.recorded.journal.entries (W.contents writer.old) (W.contents writer.new) plan.now.harts plan.now.steps) }
{
    let (blank_a, blank_b) = blanks;
    let (recorded_a, recorded_b) = recorded;
    let (links_a, links_b) = links;
    let version = plan.version;
    let (open_a, seats_a) = open_host::<L, M, K>(
        alloc,
        blank_a,
        recorded_a,
        SEATS_AT_A,
        version,
        links_a.sending,
    )?;
    let (open_b, seats_b) = open_host::<N, M, K>(
        alloc,
        blank_b,
        recorded_b,
        SEATS_AT_B,
        version,
        links_b.sending,
    )?;
    let receiving = (links_a.receiving, links_b.receiving);
    let (carried, turned) = seat_and_work(
        rt,
        alloc,
        (&open_a, &open_b),
        seats_a,
        seats_b,
        receiving,
        gate,
        plan,
        writer,
    );
    Ok(close_both(rt, alloc, open_a, open_b, carried, turned))
}

/// Gives each worker its seats, and has all workers work to their end.
fn seat_and_work<
    L: Seating + Send + Sync,
    N: Seating + Send + Sync,
    M: PagedMemory + Drop + Send,
    K: Link + Drop + Send,
    G: Gate + Sync,
    W: Write,
    R: Threads + Wait + Clock + Sync,
>(
    rt: &R,
    alloc: Global,
    hosts: (&OpenHost<L, M, K>, &OpenHost<N, M, K>),
    seats_a: Vec<Seat<L>>,
    seats_b: Vec<Seat<N>>,
    receiving: (K, K),
    gate: &G,
    plan: &Plan,
    writer: &mut W,
) -> (Carried<L, N>, HartsWorked<L, N>)
    requires seats { (vec_len seats_a ≡ 3) × (vec_len seats_b ≡ 2) }
    requires version { (hosts.0.now.outgoing.version ≡ plan.now.version)
        × (hosts.1.now.outgoing.version ≡ plan.now.version) }
    ensures run { IsRun (all_of result.1.receipts.0.items) (all_of result.1.receipts.1.items) (W.contents writer.old)
        (W.contents writer.new) (result.1.end ≢ Err LinkFault) plan.now.harts plan.now.steps result.1.end }
    ensures one { AreOfOne (all_of result.1.receipts.0.items) × AreOfOne (all_of result.1.receipts.1.items) }
    ensures carried { AreCarried plan.now.policy (K.remaining receiving.0) (K.remaining receiving.1)
        result.0.copier.end result.0.receiver_a.end result.0.receiver_b.end (all_of result.0.copier.receipts.items)
        (all_of result.0.receiver_a.receipts.items) (all_of result.0.receiver_b.receipts.items) }
{
    let (mut seats_a, mut seats_b) = (seats_a, seats_b);
    let (Some(receiver_a), Some(copier), Some(harts_a)) = (
        seats_a.pop(),
        seats_a.pop(),
        seats_a.pop(),
    ) else {
        unreachable!()
    };
    let (Some(receiver_b), Some(harts_b)) = (seats_b.pop(), seats_b.pop()) else {
        unreachable!()
    };
    let (from_b, from_a) = receiving;
    let (host_a, host_b) = hosts;
    let taken = Taken {
        at_a: TakenAtA {
            copier,
            receiver: receiver_a,
            receiving: from_b,
            plan: CopyPlan {
                policy: plan.policy,
                bandwidth: plan.bandwidth,
            },
        },
        at_b: TakenAtB {
            receiver: receiver_b,
            receiving: from_a,
        },
    };
    work(
        rt,
        alloc,
        (&host_a.host, &host_b.host),
        (&host_a.outgoing, &host_b.outgoing),
        taken,
        (harts_a, harts_b),
        gate,
        plan,
        writer,
    )
}

/// Closes both hosts with what their workers gave back.
#[tactic(auto, using(crate::proofs::Told::all_of_three, crate::proofs::Told::all_of_two))]
fn close_both<L: Seating, N: Seating, M: PagedMemory + Drop, K: Link + Drop, R: Wait>(
    rt: &R,
    alloc: Global,
    open_a: OpenHost<L, M, K>,
    open_b: OpenHost<N, M, K>,
    carried: Carried<L, N>,
    turned: HartsWorked<L, N>,
) -> Moved<M>
    requires seats { (L.seats ≡ L.parts) × (N.seats ≡ N.parts) }
    ensures opening { (result.a.recorded.journal.opening ≡ L.opening) × (result.b.recorded.journal.opening ≡ N.opening) }
    ensures harts { result.ends.harts ≡ turned.end }
    ensures copier { result.ends.copier ≡ carried.copier.end }
    ensures receivers { (result.ends.receiver_a ≡ carried.receiver_a.end)
        × (result.ends.receiver_b ≡ carried.receiver_b.end) }
    ensures told_a { result.a.fault ≡ None → AreAll result.a.recorded.journal.entries
        (all_of turned.receipts.0.items ++ (all_of carried.copier.receipts.items ++ all_of carried.receiver_a.receipts.items)) }
    ensures told_b { result.b.fault ≡ None → AreAll result.b.recorded.journal.entries
        (all_of turned.receipts.1.items ++ all_of carried.receiver_b.receipts.items) }
{
    let Carried {
        copier,
        receiver_a,
        receiver_b,
    } = carried;
    let HartsWorked {
        seats: (harts_a, harts_b),
        receipts: (turns_at_a, turns_at_b),
        end,
    } = turned;
    let ends = Ends {
        harts: end,
        copier: copier.end,
        receiver_a: receiver_a.end,
        receiver_b: receiver_b.end,
    };
    let mut from_a = Returned::new(alloc);
    from_a.add(harts_a, turns_at_a);
    from_a.add(copier.seat, copier.receipts);
    from_a.add(receiver_a.seat, receiver_a.receipts);
    let mut from_b = Returned::new(alloc);
    from_b.add(harts_b, turns_at_b);
    from_b.add(receiver_b.seat, receiver_b.receipts);
    Moved {
        a: close_host(rt, alloc, open_a, from_a),
        b: close_host(rt, alloc, open_b, from_b),
        ends,
    }
}
