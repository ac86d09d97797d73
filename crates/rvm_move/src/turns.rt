//! The turns of the guest's harts, as the task of a thread beside others.

ghost use Rattle.std.specs.Prelude.{◌≡◌, ◌≢◌, Err, ⊤};
ghost use Rattle.rvm_recorder.specs.Runs.{all_of};
ghost use Rattle.rvm_cell.specs.Calls.{IsRun};
ghost use Rattle.rvm_cell.specs.Work.{IsWork};
ghost use Rattle.rvm_cell.specs.declared.end.WorkEnd.TheVariants.{LinkFault};

use crate::plan::Plan;
use rvm_cell::{Gate, HartsWorked, Hosts, hart_worker};
use rvm_mem::PagedMemory;
use rvm_recorder::{Seat, Seating};
use rvm_station::Task;
use std::alloc::Global;
use std::io::Write;
use std::sync::Wait;
use std::time::Clock;

/// The task of making the turns of the guest's harts, with a seat at each host.
#[derive(Drop)]
pub(crate) struct Turns<
    't,
    A: Seating,
    B: Seating,
    M: PagedMemory + Drop,
    G: Gate,
    W: Write,
    R: Wait + Clock,
> {
    pub(crate) rt: &'t R,
    pub(crate) alloc: Global,
    pub(crate) hosts: Hosts<'t, A, B, M>,
    pub(crate) seats: (Seat<A>, Seat<B>),
    pub(crate) gate: &'t G,
    pub(crate) plan: Plan,
    pub(crate) writer: &'t mut W,
}

impl<'t, A: Seating, B: Seating, M: PagedMemory + Drop, G: Gate, W: Write, R: Wait + Clock> Task
    for Turns<'t, A, B, M, G, W, R> {
    type Output = (HartsWorked<A, B>, &'t mut W);

    ghost can_run = { λ _. ⊤ };

    ghost gives = { λ t r. (r.1.ghost_name ≡ t.writer.ghost_name)
        × IsRun (all_of r.0.receipts.0.items) (all_of r.0.receipts.1.items) (W.contents t.writer.now) (W.contents r.1.now)
        (r.0.end ≢ Err LinkFault) t.plan.harts t.plan.steps r.0.end × IsWork t.seats.0 r.0.seats.0 (all_of r.0.receipts.0.items)
        × IsWork t.seats.1 r.0.seats.1 (all_of r.0.receipts.1.items) };

    fn run(self) -> (HartsWorked<A, B>, &'t mut W) {
        let Turns {
            rt,
            alloc,
            hosts,
            seats,
            gate,
            plan,
            writer,
        } = self;
        let worked = hart_worker(
            rt, alloc, &hosts, seats, gate, writer, plan.harts, plan.steps,
        );
        (worked, writer)
    }
}
