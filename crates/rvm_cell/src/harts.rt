//! The hart worker: it makes the turns of the guest's harts, wherever the guest is.

ghost use Rattle.std.specs.Prelude.{◌≡◌, ◌≢◌, true, false, [], ◌∷◌, OnOk, IfOk, IfErr, Ok, Err, ⊤};
ghost use Rattle.std.specs.Io.KnownBytes.{Appends};
ghost use Rattle.rvm_recorder.specs.Runs.{all_of};
ghost use Rattle.rvm_cell.specs.Work.{IsWork};
ghost use Rattle.rvm_cell.specs.Calls.{HasRun, IsRun, Written};
ghost use Rattle.rvm_cell.specs.Turns.{Dry, fails_running};

use crate::caller::Caller;
use crate::end::WorkEnd;
use crate::gate::{Gate, Watch, Worker};
use crate::pair::{Hosts, Pair};
use crate::slices::until_drain;
use rvm_board::{DRAIN_EVERY, View};
use rvm_mem::PagedMemory;
use rvm_recorder::{ReceiptItem, Seat, Seating};
use rvm_station::Then;
use std::alloc::Global;
use std::io::Write;
use std::sync::Wait;
use std::time::Clock;

/// How a run of a guest's turns came to its end.
#[derive(Clone, Copy, Debug, PartialEq, Eq)]
pub enum TurnsEnd {
    /// The guest halted its board with this status.
    Halted(u8),
    /// All turns were made that were asked for.
    StepsSpent,
}

/// What the hart worker gives back: its seats at both hosts, the receipts of its calls at each in order, and how the
/// turns came to their end, or why they did not.
#[derive(Drop)]
pub struct HartsWorked<A: Seating, B: Seating> {
    pub seats: (Seat<A>, Seat<B>),
    pub receipts: (Vec<ReceiptItem>, Vec<ReceiptItem>),
    pub end: Result<TurnsEnd, WorkEnd>,
}

/// Makes `steps` turns, or fewer if the guest halts its board: in turn t, hart t modulo `harts` takes a step. Writes
/// what the guest sent after every 64 turns, when the board is halted, and at the end.
///
/// If one host refuses a call, since the guest is not there or is paused there, makes it at the other; while both
/// refuse it, tries it again each millisecond, and ends with `GuestStopped` after 30,000 tries. Each byte that a drain
/// takes is written once and in order, unless the writer fails, which ends the worker with `LinkFault`. The worker asks
/// for nothing but steps, and drains of up to 256 bytes. If the turns come to their end, the last call is a drain that
/// finds nothing.
pub fn hart_worker<
    A: Seating,
    B: Seating,
    M: PagedMemory + Drop,
    W: Write,
    G: Gate,
    R: Wait + Clock,
>(
    rt: &R,
    alloc: Global,
    hosts: &Hosts<'_, A, B, M>,
    seats: (Seat<A>, Seat<B>),
    gate: &G,
    writer: &mut W,
    harts: u32,
    steps: u32,
) -> HartsWorked<A, B>
    ensures at_a { IsWork seats.0 result.seats.0 (all_of result.receipts.0.items) }
    ensures at_b { IsWork seats.1 result.seats.1 (all_of result.receipts.1.items) }
    ensures run { IsRun (all_of result.receipts.0.items) (all_of result.receipts.1.items) (W.contents writer.old)
        (W.contents writer.new) (result.end ≢ Err WorkEnd.LinkFault) harts steps result.end }
    ensures fails { IfErr result.end (λ e. fails_running e ≡ true) }
{
    let (a, b) = seats;
    let mut pair = Pair {
        at_a: Caller::new(alloc, a),
        at_b: Caller::new(alloc, b),
        is_at_a: true,
        taken: View::empty(),
    };
    let mut watch = Watch::new(gate, Worker::Harts);
    let end = run(
        rt, alloc, hosts, &mut pair, &mut watch, writer, harts, steps,
    );
    give_back(pair, end)
}

/// What the hart worker gives back that ends with `end`.
fn give_back<A: Seating, B: Seating>(
    pair: Pair<A, B>,
    end: Result<TurnsEnd, WorkEnd>,
) -> HartsWorked<A, B>
    ensures at_a { IsWork pair.at_a.start result.seats.0 (all_of result.receipts.0.items) }
    ensures at_b { IsWork pair.at_b.start result.seats.1 (all_of result.receipts.1.items) }
    ensures receipts { (all_of result.receipts.0.items ≡ pair.at_a.receipts)
        × (all_of result.receipts.1.items ≡ pair.at_b.receipts) }
    ensures end { result.end ≡ end }
{
    let Pair {
        at_a,
        at_b,
        is_at_a: _,
        taken: _,
    } = pair;
    let (a, from_a) = at_a.into_parts();
    let (b, from_b) = at_b.into_parts();
    HartsWorked {
        seats: (a, b),
        receipts: (from_a, from_b),
        end,
    }
}

/// Makes the turns of a run, and writes what the guest sends.
#[tactic(auto, using(crate::proofs::Calls::has_begun, crate::proofs::Failing::calling_fails))]
fn run<A: Seating, B: Seating, M: PagedMemory + Drop, W: Write, G: Gate, R: Wait + Clock>(
    rt: &R,
    alloc: Global,
    hosts: &Hosts<'_, A, B, M>,
    pair: &mut Pair<A, B>,
    watch: &mut Watch<'_, G>,
    writer: &mut W,
    harts: u32,
    steps: u32,
) -> Result<TurnsEnd, WorkEnd>
    ensures run { IfOk result (λ end. HasRun (pair.old.at_a, pair.old.at_b) (pair.new.at_a, pair.new.at_b)
        (W.contents writer.old) (W.contents writer.new) harts steps (Ok end)) }
    ensures err { IfErr result (λ e. HasRun (pair.old.at_a, pair.old.at_b) (pair.new.at_a, pair.new.at_b)
        (W.contents writer.old) (W.contents writer.new) harts steps (Err e)) }
    ensures fails { IfErr result (λ e. fails_running e ≡ true) }
{
    let mut turn = 0;
    while turn < steps {
        let n = until_drain(turn, steps);
        let slice = pair.turns(rt, alloc, hosts, watch, turn, harts, n)?;
        turn += slice.made;
        if let Then::Halted(status) = slice.then {
            drain(rt, alloc, hosts, pair, watch, writer)?;
            return Ok(TurnsEnd::Halted(status));
        }
        if turn % DRAIN_EVERY == 0 {
            drain(rt, alloc, hosts, pair, watch, writer)?;
        }
    }
    drain(rt, alloc, hosts, pair, watch, writer)?;
    Ok(TurnsEnd::StepsSpent)
}

/// Writes what the guest sent, until nothing is left.
#[tactic(auto, using(crate::proofs::Calls::written_none, crate::proofs::Calls::written_next, crate::proofs::Calls::written_dry, crate::proofs::Calls::written_still_err, crate::proofs::Calls::written_failed_err, crate::proofs::Failing::calling_fails, crate::proofs::Failing::writer_fails))]
fn drain<A: Seating, B: Seating, M: PagedMemory + Drop, W: Write, G: Gate, R: Wait + Clock>(
    rt: &R,
    alloc: Global,
    hosts: &Hosts<'_, A, B, M>,
    pair: &mut Pair<A, B>,
    watch: &mut Watch<'_, G>,
    writer: &mut W,
) -> Result<(), WorkEnd>
    ensures written { OnOk result (Written (pair.old.at_a, pair.old.at_b) (pair.new.at_a, pair.new.at_b)
        (W.contents writer.old) (W.contents writer.new) ⊤ (Dry ∷ []) true) }
    ensures err { IfErr result (λ e. Written (pair.old.at_a, pair.old.at_b) (pair.new.at_a, pair.new.at_b)
        (W.contents writer.old) (W.contents writer.new) (e ≢ WorkEnd.LinkFault) [] false) }
    ensures fails { IfErr result (λ e. fails_running e ≡ true) }
{
    for _drain in 0..u64::MAX {
        if !pair.sent_by_guest(rt, alloc, hosts, watch)? {
            return Ok(());
        }
        write(writer, pair.taken.as_slice())?;
    }
    Err(WorkEnd::GuestStopped)
}

/// Writes what a drain took. `LinkFault` if the writer fails.
fn write<W: Write>(writer: &mut W, bytes: &[u8]) -> Result<(), WorkEnd>
    ensures written { OnOk result (Appends (W.contents writer.old) (W.contents writer.new) bytes.now) }
    ensures fault { IfErr result (λ e. e ≡ WorkEnd.LinkFault) }
{
    writer.write_all(bytes).map_err(|_| WorkEnd::LinkFault)
}
