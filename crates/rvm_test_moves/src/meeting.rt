//! Two workers that wait for one another.

use crate::asked::LOOP;
use crate::counting::CountingGate;
use crate::ended::{MoveResult, print_no_connection};
use rvm_cell::{Gate, Worker};
use rvm_move::connect_both;
use std::net::Net;
use std::sync::Wait;
use std::sync::atomic::{AtomicBool, Ordering};
use std::thread;
use std::thread::Threads;
use std::time::{Clock, Duration};

/// The milliseconds that a worker waits for the other.
const PATIENCE: u32 = 10000;

/// The most calls that the hart worker makes: a slice of 64 turns is one.
const FEW: u32 = 10000;

/// A gate at which the worker of the harts and the copier meet, and which counts all calls.
#[derive(Drop)]
struct Meeting<C: Clock + Drop> {
    clock: C,
    counts: CountingGate,
    harts: AtomicBool,
    copier: AtomicBool,
}

impl<C: Clock + Drop> Meeting<C> {
    /// Waits until a flag is raised. Returns whether it was in time.
    fn wait_for(&self, flag: &AtomicBool) -> bool {
        for _ in 0..PATIENCE {
            if flag.load(Ordering::SeqCst) {
                return true;
            }
            thread::sleep(&self.clock, Duration::from_millis(1));
        }
        false
    }
}

impl<C: Clock + Drop> Gate for Meeting<C> {
    fn before(&self, worker: Worker, call: u32) -> bool {
        let _passes = self.counts.before(worker, call);
        match worker {
            Worker::Harts => {
                if call != 1 {
                    return true;
                }
                self.harts.store(true, Ordering::SeqCst);
                self.wait_for(&self.copier)
            }
            Worker::Copier => {
                if call != 1 {
                    return true;
                }
                self.copier.store(true, Ordering::SeqCst);
                self.wait_for(&self.harts)
            }
            _ => true,
        }
    }

    fn after(&self, worker: Worker, call: u32) {
        self.counts.after(worker, call);
    }
}

/// Moves a guest past such a gate, and prints what became of it.
pub fn meet<R: AllocGlobal + Print + Net + Threads + Wait + Clock + Sync>(
    rt: &R,
) -> anyhow::Result<()>
where
    R::Stream: Send,
{
    let gate = Meeting {
        clock: rt,
        counts: CountingGate::new(),
        harts: AtomicBool::new(false),
        copier: AtomicBool::new(false),
    };
    match connect_both(rt, rt.alloc()) {
        Ok(links) => {
            print_end(rt, &MoveResult::over_links(rt, LOOP, 1, links, &gate))?;
            print_gate(rt, &gate)
        }
        Err(_) => print_no_connection(rt),
    }
}

/// Prints what became of the move.
fn print_end<R: Print>(rt: &R, ended: &MoveResult) -> anyhow::Result<()> {
    let good = ended.status == Ok(0);
    let moved = ended.has("finished");
    println!(rt; "two workers meet: status 0 {good}, moved {moved}")?;
    Ok(())
}

/// Prints what the gate saw.
fn print_gate<R: Print, C: Clock + Drop>(rt: &R, gate: &Meeting<C>) -> anyhow::Result<()> {
    let met = gate.harts.load(Ordering::SeqCst) && gate.copier.load(Ordering::SeqCst);
    let counted = gate.counts.has_counted();
    let few = gate.counts.calls(Worker::Harts) < FEW;
    println!(rt;
        "both were at the gate {met}, each call by its number {counted}, slices as one {few}"
    )?;
    Ok(())
}
