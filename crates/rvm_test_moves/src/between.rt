//! A guest between hosts: how often and for how long its turns are tried, by a clock that counts.

ghost use Rattle.std.specs.Prelude.{◌≡◌, []};

use crate::asked::{LOOP, STEPS, to_move};
use rvm_cell::{Hosts, TurnsEnd, WorkEnd, hart_worker};
use rvm_frame::Frame;
use rvm_message::{Command, HostEvent, Shared};
use rvm_move::{OpenGate, new_hosts};
use rvm_paged::PagedRam;
use rvm_precopy::Policy;
use rvm_recorder::{Recorded, Seat, Seating, SharedHost, share};
use std::io;
use std::marker::Brand;
use std::sync::Wait;
use std::sync::atomic::{AtomicU32, Ordering};
use std::sync::ledger::Blank;
use std::time::{Clock, Duration};

/// The most frames that follow from one command.
const FRAMES: u32 = 8;

/// The number of Copy commands of a move: four pages are copied, the round ends, the guest is paused, and its state is
/// sent.
const COPIES: u32 = 7;

/// One round, since no hart steps.
const POLICY: Policy = Policy {
    max_rounds: 3,
    min_left: 1,
    factor: 3,
};

/// A clock that does not wait, but counts the waits of one millisecond and all others.
#[derive(Drop)]
struct Counting<'r, R: Wait> {
    rt: &'r R,
    short: AtomicU32,
    others: AtomicU32,
}

impl<R: Wait> Wait for Counting<'_, R> {}

impl<R: Wait> Clock for Counting<'_, R> {
    fn monotonic(&self) -> io::Result<Duration> {
        Ok(Duration::ZERO)
    }

    fn since_1970(&self) -> io::Result<Duration> {
        Ok(Duration::ZERO)
    }

    fn sleep(&self, duration: Duration) {
        let count = if duration == Duration::from_millis(1) {
            &self.short
        } else {
            &self.others
        };
        let more = count.load(Ordering::SeqCst).wrapping_add(1);
        count.store(more, Ordering::SeqCst);
    }
}

/// One of two hosts, a seat at it, and the number of the other host.
#[derive(Drop)]
struct Party<'h, L: Seating> {
    host: &'h SharedHost<L, PagedRam>,
    seat: Seat<L>,
    other: u8,
}

impl<L: Seating> Party<'_, L> {
    /// Makes a call. Returns the frame that the host makes, if it makes one.
    fn call<R: AllocGlobal + Wait>(&mut self, rt: &R, event: HostEvent) -> Option<Option<Frame>> {
        match self.host.call(rt, rt.alloc(), &mut self.seat, event) {
            Ok((receipt, made)) => {
                drop(receipt);
                Some(made.map(|addressed| addressed.frame))
            }
            Err(refused) => {
                drop(refused);
                None
            }
        }
    }

    /// Gives the host a command. Returns the frame that the host makes, if it makes one.
    fn ask<R: AllocGlobal + Wait>(&mut self, rt: &R, command: Command) -> Option<Option<Frame>> {
        self.call(rt, HostEvent::Do(command))
    }

    /// Gives the host a frame of the other one. Returns the frame that this host makes, if it makes one.
    fn hear<R: AllocGlobal + Wait>(&mut self, rt: &R, frame: Frame) -> Option<Option<Frame>> {
        let frame = Shared::new(rt.alloc(), frame).ok()?;
        self.call(rt, HostEvent::Came(self.other, frame))
    }

    /// Offers the guest to the other host.
    fn offer<N: Seating, R: AllocGlobal + Wait>(
        &mut self,
        rt: &R,
        target: &mut Party<'_, N>,
    ) -> Option<()> {
        let begin = Command::Begin {
            to: self.other,
            policy: POLICY,
        };
        let offer = self.ask(rt, begin)?;
        pass(rt, offer, target, self)
    }

    /// Moves the guest to the other host.
    fn move_to<N: Seating, R: AllocGlobal + Wait>(
        &mut self,
        rt: &R,
        target: &mut Party<'_, N>,
    ) -> Option<()> {
        self.offer(rt, target)?;
        for _copy in 0..COPIES {
            let frame = self.ask(rt, Command::Copy)?;
            pass(rt, frame, target, self)?;
        }
        Some(())
    }

    /// Offers the guest to the other host, and copies until it is paused; none of the copies comes to the other host.
    fn pause_before<N: Seating, R: AllocGlobal + Wait>(
        &mut self,
        rt: &R,
        target: &mut Party<'_, N>,
    ) -> Option<()> {
        self.offer(rt, target)?;
        for _copy in 0..COPIES {
            drop(self.ask(rt, Command::Copy)?);
        }
        Some(())
    }
}

/// Gives a host a frame, the other one the frame that is made of it, and so on.
fn pass<L: Seating, N: Seating, R: AllocGlobal + Wait>(
    rt: &R,
    frame: Option<Frame>,
    to: &mut Party<'_, L>,
    back: &mut Party<'_, N>,
) -> Option<()> {
    let mut frame = frame;
    for _frame in 0..FRAMES {
        let Some(there) = frame else {
            return Some(());
        };
        let Some(answer) = to.hear(rt, there)? else {
            return Some(());
        };
        frame = back.hear(rt, answer)?;
    }
    Some(())
}

/// How the worker of the harts ended, and how often it waited: for a millisecond, and otherwise.
#[derive(Clone, Copy)]
struct Tries {
    end: Result<TurnsEnd, WorkEnd>,
    short: u32,
    others: u32,
}

/// Makes turns of a guest that came to a host and is paused there, and prints how they are tried.
pub fn try_turns<R: AllocGlobal + Print + Wait>(rt: &R) -> anyhow::Result<()> {
    match tried(rt) {
        Some(Tries { end, short, others }) => println!(rt;
            "a paused guest: {end:?}, waits of 1 ms {short}, others {others}"
        )?,
        None => println!(rt; "a paused guest: no host")?,
    }
    Ok(())
}

/// How the turns of such a guest are tried.
fn tried<R: AllocGlobal + Wait>(rt: &R) -> Option<Tries> {
    match new_hosts::<PagedRam>(rt.alloc(), &to_move(STEPS, 1), LOOP) {
        Ok((a, b)) => tried_at::<Brand, Brand, R>(rt, (Blank::new(2), Blank::new(2)), a, b),
        Err(_) => None,
    }
}

/// Does the same with these hosts.
fn tried_at<L: Seating, N: Seating, R: AllocGlobal + Wait>(
    rt: &R,
    blanks: (Blank, Blank),
    a: Recorded<PagedRam>,
    b: Recorded<PagedRam>,
) -> Option<Tries>
    requires ledger_a { (blanks.0.name ≡ L.name) × (blanks.0.parts ≡ L.parts) × (L.seats ≡ L.parts) }
    requires ledger_b { (blanks.1.name ≡ N.name) × (blanks.1.parts ≡ N.parts) × (N.seats ≡ N.parts) }
    requires seats { (blanks.0.parts ≡ 2) × (blanks.1.parts ≡ 2) }
    requires empty { (a.journal.entries ≡ []) × (b.journal.entries ≡ []) }
    requires opening { (a.journal.opening ≡ L.opening) × (b.journal.opening ≡ N.opening) }
    requires capacity { (a.capacity ≡ L.capacity) × (b.capacity ≡ N.capacity) }
{
    let (first, second) = blanks;
    match share::<L, PagedRam>(rt.alloc(), first, a, 2) {
        Ok((host, seats)) => {
            let tried = tried_beside::<L, N, R>(rt, &host, seats, second, b);
            drop(host);
            tried
        }
        Err((_, _, recorded)) => {
            drop(recorded);
            drop(b);
            None
        }
    }
}

/// Does the same with the first host, which is shared, and the second one.
fn tried_beside<L: Seating, N: Seating, R: AllocGlobal + Wait>(
    rt: &R,
    first: &SharedHost<L, PagedRam>,
    seats: Vec<Seat<L>>,
    blank: Blank,
    recorded: Recorded<PagedRam>,
) -> Option<Tries>
    requires ledger { (blank.name ≡ N.name) × (blank.parts ≡ N.parts) × (N.seats ≡ N.parts) }
    requires seats { blank.parts ≡ 2 }
    requires empty { recorded.journal.entries ≡ [] }
    requires opening { recorded.journal.opening ≡ N.opening }
    requires capacity { recorded.capacity ≡ N.capacity }
{
    match share::<N, PagedRam>(rt.alloc(), blank, recorded, 2) {
        Ok((host, more)) => {
            let hosts = Hosts { a: first, b: &host };
            let tried = tried_by(rt, &hosts, seats, more);
            drop(host);
            tried
        }
        Err((_, _, recorded)) => {
            drop(recorded);
            None
        }
    }
}

/// Does the same with two seats at each host.
fn tried_by<L: Seating, N: Seating, R: AllocGlobal + Wait>(
    rt: &R,
    hosts: &Hosts<'_, L, N, PagedRam>,
    at_a: Vec<Seat<L>>,
    at_b: Vec<Seat<N>>,
) -> Option<Tries> {
    let (mut at_a, mut at_b) = (at_a, at_b);
    let (Some(carrier_a), Some(harts_a)) = (at_a.pop(), at_a.pop()) else {
        return None;
    };
    let (Some(carrier_b), Some(harts_b)) = (at_b.pop(), at_b.pop()) else {
        return None;
    };
    let mut a = Party {
        host: hosts.a,
        seat: carrier_a,
        other: 1,
    };
    let mut b = Party {
        host: hosts.b,
        seat: carrier_b,
        other: 0,
    };
    a.move_to(rt, &mut b)?;
    b.pause_before(rt, &mut a)?;
    Some(turned(rt, hosts, (harts_a, harts_b)))
}

/// Makes turns of the guest with these seats. Returns how they were tried.
fn turned<L: Seating, N: Seating, R: AllocGlobal + Wait>(
    rt: &R,
    hosts: &Hosts<'_, L, N, PagedRam>,
    seats: (Seat<L>, Seat<N>),
) -> Tries {
    let clock = Counting {
        rt,
        short: AtomicU32::new(0),
        others: AtomicU32::new(0),
    };
    let mut sink = io::sink();
    let worked = hart_worker(
        &clock,
        rt.alloc(),
        hosts,
        seats,
        &OpenGate,
        &mut sink,
        1,
        STEPS,
    );
    Tries {
        end: worked.end,
        short: clock.short.load(Ordering::SeqCst),
        others: clock.others.load(Ordering::SeqCst),
    }
}
