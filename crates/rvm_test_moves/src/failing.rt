//! Links that fail.

use crate::asked::POINTS;
use crate::counting::CountingGate;
use crate::ended::MoveResult;
use rvm_cell::Worker;
use rvm_link::{Link, LinkRead};
use rvm_move::{Links, connect_both};
use rvm_refusal::LinkFault;
use std::alloc::Global;
use std::net::Net;
use std::sync::Wait;
use std::thread::Threads;
use std::time::Clock;

/// The calls that the hart worker has made when it gives up: 30000 tries, each at both hosts.
const TRIED: u32 = 60000;

/// A link that sends this many times and then fails.
#[derive(Drop)]
struct Failing<K: Link + Drop> {
    link: K,
    left: u32,
}

impl<K: Link + Drop> Link for Failing<K> {
    fn send(&mut self, bytes: &[u8]) -> Result<(), LinkFault> {
        if self.left == 0 {
            return Err(LinkFault);
        }
        self.left -= 1;
        self.link.send(bytes)
    }

    fn flush(&mut self) -> Result<(), LinkFault> {
        self.link.flush()
    }

    fn recv(&mut self, buffer: &mut [u8]) -> LinkRead {
        self.link.recv(buffer)
    }
}

/// Links of which the sending one fails after this many sends.
fn failing_links<K: Link + Drop>(links: Links<K>, left: u32) -> Links<Failing<K>> {
    let Links { sending, receiving } = links;
    Links {
        sending: Failing {
            link: sending,
            left,
        },
        receiving: Failing {
            link: receiving,
            left: u32::MAX,
        },
    }
}

/// Moves a guest while one side's link fails from its k-th send on.
pub fn break_links<R: AllocGlobal + Print + Net + Threads + Wait + Clock + Sync>(
    rt: &R,
) -> anyhow::Result<()>
where
    R::Stream: Send,
{
    for k in 0..12 {
        break_link(rt, "A", k, k, u32::MAX)?;
        break_link(rt, "B", k, u32::MAX, k)?;
    }
    Ok(())
}

/// Moves a guest while A and B each send at most this many times, and prints whether the end is allowed for the side
/// that fails.
fn break_link<R: AllocGlobal + Print + Net + Threads + Wait + Clock + Sync>(
    rt: &R,
    side: &str,
    k: u32,
    at_a: u32,
    at_b: u32,
) -> anyhow::Result<()>
where
    R::Stream: Send,
{
    let allowed = match connect_both(rt, rt.alloc()) {
        Ok((a, b)) => {
            let links = (failing_links(a, at_a), failing_links(b, at_b));
            let gate = CountingGate::new();
            let ended = MoveResult::over_links(rt, POINTS, 1, links, &gate);
            is_allowed(rt.alloc(), &ended, gate.calls(Worker::Harts))
        }
        Err(_) => false,
    };
    print_end(rt, side, k, allowed)
}

/// Prints whether the end is allowed if a side sends this many times.
fn print_end<R: Print>(rt: &R, side: &str, k: u32, allowed: bool) -> anyhow::Result<()> {
    println!(rt; "{side} sends {k} times, then fails: end allowed {allowed}")?;
    Ok(())
}

/// Whether an end is allowed: no commit and no start, the whole output of a run, since the guest came to its end at
/// host A, and the status 0; a commit, a start and that output; or a commit alone and the status 1, since the worker
/// gave up after it had tried the turns too often, or all turns had been made and the last frame was sent again in
/// vain.
fn is_allowed(alloc: Global, ended: &MoveResult, calls: u32) -> bool {
    let is_started = ended.has("started");
    let is_as_run = ended.is_as_run(alloc, POINTS);
    if !ended.has("committed 1") {
        return !is_started && is_as_run && ended.status == Ok(0);
    }
    if is_started {
        is_as_run
    } else {
        let has_stopped = ended.has("guest stopped between hosts") && calls >= TRIED;
        ended.status == Ok(1) && (has_stopped || ended.has("refused 31 LinkFault"))
    }
}
