//! How often a copier waits and for how long, by a clock that counts, and at which the other host answers.

ghost use Rattle.std.specs.Prelude.{◌≡◌, []};

use crate::asked::{LOOP, STEPS, to_move};
use rvm_cell::{CopyPlan, Side, WorkEnd, copier_worker};
use rvm_frame::Frame;
use rvm_link::{Link, LinkRead, Outgoing};
use rvm_message::{HostEvent, Shared};
use rvm_move::{OpenGate, new_hosts, plan_of};
use rvm_paged::PagedRam;
use rvm_recorder::{Recorded, Seat, Seating, SharedHost, share};
use rvm_refusal::LinkFault;
use std::alloc::Global;
use std::io;
use std::marker::Brand;
use std::sync::atomic::{AtomicU32, Ordering};
use std::sync::ledger::Blank;
use std::sync::{Mutex, Wait};
use std::time::{Clock, Duration};

/// A link that takes the bytes of this many sends, and gives none.
#[derive(Drop)]
struct Silent {
    sends: u32,
}

impl Link for Silent {
    fn send(&mut self, _bytes: &[u8]) -> Result<(), LinkFault> {
        if self.sends == 0 {
            return Err(LinkFault);
        }
        self.sends -= 1;
        Ok(())
    }

    fn flush(&mut self) -> Result<(), LinkFault> {
        Ok(())
    }

    fn recv(&mut self, _buffer: &mut [u8]) -> LinkRead {
        LinkRead::Idle
    }
}

/// When the other host answers: it accepts the move at this wait of one millisecond, and is ready at this wait of ten,
/// both counted from 1; at 0 it does not. And how often something can be sent to it, and how many megabytes of pages may be
/// copied in a second.
#[derive(Clone, Copy)]
struct Answers {
    accepts: u32,
    is_ready: u32,
    sends: u32,
    bandwidth: Option<u32>,
}

/// A clock that does not wait, but counts the waits of one millisecond, of ten, and all others, and at which the other
/// host answers.
#[derive(Drop)]
struct CountingClock<'h, L: Seating, R: Wait> {
    rt: &'h R,
    alloc: Global,
    host: &'h SharedHost<L, PagedRam>,
    seat: Mutex<Seat<L>>,
    answers: Answers,
    short: AtomicU32,
    long: AtomicU32,
    others: AtomicU32,
}

/// Adds one to a count. Returns the new count.
fn counted(count: &AtomicU32) -> u32 {
    let more = count.load(Ordering::SeqCst).wrapping_add(1);
    count.store(more, Ordering::SeqCst);
    more
}

impl<L: Seating, R: Wait> CountingClock<'_, L, R> {
    /// Gives the host a frame of the other one.
    fn answer(&self, frame: Frame) {
        let Ok(frame) = Shared::new(self.alloc, frame) else {
            return;
        };
        let mut seat = self.seat.lock(self.rt);
        let _answered = self
            .host
            .call(self.rt, self.alloc, &mut *seat, HostEvent::Came(1, frame));
    }
}

impl<L: Seating, R: Wait> Wait for CountingClock<'_, L, R> {}

impl<L: Seating, R: Wait> Clock for CountingClock<'_, L, R> {
    fn monotonic(&self) -> io::Result<Duration> {
        Ok(Duration::ZERO)
    }

    fn since_1970(&self) -> io::Result<Duration> {
        Ok(Duration::ZERO)
    }

    fn sleep(&self, duration: Duration) {
        if duration == Duration::from_millis(1) {
            if counted(&self.short) == self.answers.accepts {
                self.answer(Frame::Accept { move_number: 1 });
            }
        } else if duration == Duration::from_millis(10) {
            if counted(&self.long) == self.answers.is_ready {
                self.answer(Frame::Ready { move_number: 1 });
            }
        } else {
            let _others = counted(&self.others);
        }
    }
}

/// How a copier ended, and how often it waited: for a millisecond, for ten, and otherwise.
#[derive(Clone, Copy)]
struct CopierEnd {
    end: WorkEnd,
    short: u32,
    long: u32,
    others: u32,
}

/// Copies a guest to hosts that answer in several ways, and prints how the copier waits and ends.
pub fn wait_for_answers<R: AllocGlobal + Print + Wait>(rt: &R) -> anyhow::Result<()> {
    print_waits(rt, "nobody answers", answering(0, 0, u32::MAX))?;
    print_waits(
        rt,
        "accepted at the 999th wait",
        answering(999, 0, u32::MAX),
    )?;
    print_waits(
        rt,
        "ready, and Go is not answered",
        answering(1, 1, u32::MAX),
    )?;
    print_waits(rt, "an offer that cannot be sent", answering(1, 1, 1))?;
    print_waits(rt, "a page that cannot be sent", answering(1, 1, 3))?;
    let slow = Answers {
        bandwidth: Some(1),
        ..answering(1, 1, u32::MAX)
    };
    print_waits(rt, "ready, and a megabyte a second", slow)
}

/// The move is accepted and ready at these waits, and something can be sent `sends` times.
fn answering(accepts: u32, is_ready: u32, sends: u32) -> Answers {
    Answers {
        accepts,
        is_ready,
        sends,
        bandwidth: None,
    }
}

/// Prints how a copier waits that is answered so.
fn print_waits<R: AllocGlobal + Print + Wait>(
    rt: &R,
    name: &str,
    answers: Answers,
) -> anyhow::Result<()> {
    match waited(rt, answers) {
        Some(
            CopierEnd {
                end,
                short,
                long,
                others,
            },
        ) => println!(rt;
            "{name}: {end:?}, waits of 1 ms {short}, of 10 ms {long}, others {others}"
        )?,
        None => println!(rt; "{name}: no host")?,
    }
    Ok(())
}

/// How a copier of a new host waits.
fn waited<R: AllocGlobal + Wait>(rt: &R, answers: Answers) -> Option<CopierEnd> {
    match new_hosts::<PagedRam>(rt.alloc(), &to_move(STEPS, 1), LOOP) {
        Ok((a, b)) => {
            drop(b);
            waited_at::<Brand, R>(rt, Blank::new(2), a, answers)
        }
        Err(_) => None,
    }
}

/// How a copier of this host waits.
fn waited_at<L: Seating, R: AllocGlobal + Wait>(
    rt: &R,
    blank: Blank,
    recorded: Recorded<PagedRam>,
    answers: Answers,
) -> Option<CopierEnd>
    requires ledger { (blank.name ≡ L.name) × (blank.parts ≡ L.parts) × (L.seats ≡ L.parts) }
    requires seats { blank.parts ≡ 2 }
    requires empty { recorded.journal.entries ≡ [] }
    requires opening { recorded.journal.opening ≡ L.opening }
    requires capacity { recorded.capacity ≡ L.capacity }
{
    match share::<L, PagedRam>(rt.alloc(), blank, recorded, 2) {
        Ok((host, seats)) => {
            let waited = waited_by(rt, &host, seats, answers);
            drop(host);
            waited
        }
        Err((_, _, recorded)) => {
            drop(recorded);
            None
        }
    }
}

/// How a copier waits that has one seat, while the other host answers by the other seat.
fn waited_by<L: Seating, R: AllocGlobal + Wait>(
    rt: &R,
    host: &SharedHost<L, PagedRam>,
    seats: Vec<Seat<L>>,
    answers: Answers,
) -> Option<CopierEnd> {
    let mut seats = seats;
    let (Some(copier), Some(receiver)) = (seats.pop(), seats.pop()) else {
        return None;
    };
    let clock = CountingClock {
        rt,
        alloc: rt.alloc(),
        host,
        seat: Mutex::new(receiver),
        answers,
        short: AtomicU32::new(0),
        long: AtomicU32::new(0),
        others: AtomicU32::new(0),
    };
    let end = copied_by(&clock, host, copier);
    Some(CopierEnd {
        end,
        short: clock.short.load(Ordering::SeqCst),
        long: clock.long.load(Ordering::SeqCst),
        others: clock.others.load(Ordering::SeqCst),
    })
}

/// How a copier ends that has this seat, by such a clock.
fn copied_by<L: Seating, R: Wait>(
    clock: &CountingClock<'_, L, R>,
    host: &SharedHost<L, PagedRam>,
    seat: Seat<L>,
) -> WorkEnd {
    let link = Silent {
        sends: clock.answers.sends,
    };
    let Ok(outgoing) = Outgoing::open(clock.alloc, link, 1) else {
        drop(seat);
        return WorkEnd::OutOfMemory;
    };
    let side = Side {
        host,
        outgoing: &outgoing,
    };
    let plan = CopyPlan {
        policy: plan_of(&to_move(STEPS, 1)).policy,
        bandwidth: clock.answers.bandwidth,
    };
    copier_worker(clock, clock.alloc, &side, seat, &OpenGate, 1, plan).end
}
