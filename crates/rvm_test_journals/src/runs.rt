//! Two journals of steps among which frames come, put in order several times, so that the time that one order takes is
//! the difference between many times and few.

use crate::asked::came;
use crate::orders::{BEGIN, COPIES, Pair, made};
use rvm_audit::audit_in_runs;
use rvm_frame::Addressed;
use rvm_message::{Command, HostEvent};
use rvm_paged::PagedRam;
use rvm_precopy::Policy;
use rvm_recorder::Recorded;
use std::alloc::Global;

/// The number of steps of a slice.
const SLICE: u32 = 64;

/// How many entries each journal takes.
const ENTRIES: u32 = 1048576;

/// The command that moves the guest back.
const BACK: Command = Command::Begin {
    to: 0,
    policy: Policy {
        max_rounds: 3,
        min_left: 1,
        factor: 3,
    },
};

/// What is recorded, and how often it is put in order.
#[derive(Clone, Copy)]
pub struct Plan {
    /// Whether the order is a list of events, and not kept in runs.
    pub is_list: bool,
    /// The number of steps that are made at each host.
    pub steps: u32,
    /// The number of offers among the steps of each host, each of which comes to the other host, and is accepted there.
    pub offers: u32,
    pub times: u32,
}

impl Pair {
    /// Has the guest make its steps at host A among offers, moves it to host B, and does the same there.
    fn play_runs(&mut self, alloc: Global, plan: Plan) -> Option<()> {
        offer_among_steps(alloc, plan, &mut self.a, &mut self.b, 0, BEGIN)?;
        self.go_over(alloc)?;
        offer_among_steps(alloc, plan, &mut self.b, &mut self.a, 1, BACK)
    }

    /// Has host B accept the offer once more, and host A hear of it, and moves the guest.
    fn go_over(&mut self, alloc: Global) -> Option<()> {
        self.play(alloc, HostEvent::Do(Command::Resend))?;
        for _ in 0..COPIES {
            self.play(alloc, HostEvent::Do(Command::Copy))?;
        }
        Some(())
    }

    /// Puts both journals in order this many times. Returns the number of events, or 0 if they are kept in runs.
    fn order_again(&self, alloc: Global, plan: Plan) -> Option<u64> {
        let mut count: u64 = 0;
        for _ in 0..plan.times {
            count = self.order_once(alloc, plan)?;
        }
        Some(count)
    }

    /// Puts both journals in order. Returns the number of events, or 0 if they are kept in runs.
    fn order_once(&self, alloc: Global, plan: Plan) -> Option<u64> {
        if plan.is_list {
            return Some(self.order(alloc).ok()?.len() as u64);
        }
        drop(audit_in_runs(alloc, self.a.journal(), self.b.journal()).ok()?);
        Some(0)
    }

    /// Plays a plan, and puts both journals in order.
    fn order_of_runs(&mut self, alloc: Global, plan: Plan) -> Option<u64> {
        self.play_runs(alloc, plan)?;
        self.order_again(alloc, plan)
    }
}

/// Has a host make its steps and offer its guest again and again, and gives each offer to the other host.
fn offer_among_steps(
    alloc: Global,
    plan: Plan,
    from: &mut Recorded<PagedRam>,
    to: &mut Recorded<PagedRam>,
    id: u8,
    begin: Command,
) -> Option<()> {
    let mut offer = made(from, alloc, HostEvent::Do(begin))?;
    let (mut turn, mut due): (u32, u64) = (0, 0);
    for _ in 0..plan.steps / SLICE {
        step(alloc, from, turn)?;
        turn = turn.wrapping_add(SLICE);
        due = due.wrapping_add(u64::from(plan.offers) * u64::from(SLICE));
        if due >= u64::from(plan.steps) {
            due -= u64::from(plan.steps);
            come(alloc, to, id, offer)?;
            offer = made(from, alloc, HostEvent::Do(Command::Resend))?;
        }
    }
    come(alloc, to, id, offer)
}

/// Records a slice, and a drain that finds nothing.
fn step(alloc: Global, host: &mut Recorded<PagedRam>, turn: u32) -> Option<()> {
    drop(host.record_slice(alloc, turn, 1, SLICE).ok()?);
    let _place = host.record_dry(256)?;
    Some(())
}

/// Gives a host a frame that comes from another one.
fn come(
    alloc: Global,
    host: &mut Recorded<PagedRam>,
    from: u8,
    frame: Option<Addressed>,
) -> Option<()> {
    let frame = frame?.frame;
    drop(made(host, alloc, came(alloc, from, frame)?)?);
    Some(())
}

/// Puts two journals of steps and offers in order, and prints the number of events.
pub fn order_runs<R: AllocGlobal + Print>(rt: &R, plan: Plan) -> Option<()> {
    let count = count_events(rt.alloc(), plan)?;
    println!(rt; "{count} events").ok()
}

/// The number of events in the order of such journals.
fn count_events(alloc: Global, plan: Plan) -> Option<u64> {
    let mut pair = Pair::new(alloc, ENTRIES, 1, false)?;
    let count = pair.order_of_runs(alloc, plan);
    drop(pair);
    count
}
