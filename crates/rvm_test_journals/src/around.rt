//! One order of the journals of three hosts, between which a guest moves on.

use crate::asked::{came, host_among};
use crate::orders::{COPIES, POLICY, made};
use rvm_audit::{Audit, audit_all};
use rvm_core::Event;
use rvm_frame::Addressed;
use rvm_message::{Command, HostEvent};
use rvm_paged::PagedRam;
use rvm_recorder::{Journal, Recorded};
use std::alloc::Global;

/// The number of hosts.
const HOSTS: u8 = 3;

/// The most frames that follow from one command.
const FRAMES: u32 = 8;

/// How many entries each journal takes.
const ENTRIES: u32 = 100;

/// The most events that are counted.
const EVENTS: u32 = 100;

/// Moves the guest of host A to host B, and from there to host C, and puts their journals in order. Those of B and C
/// alone have no order, since what host A recorded is missing.
pub fn order_three_journals<R: AllocGlobal + Print>(rt: &R) -> Option<()> {
    let alloc = rt.alloc();
    let mut hosts = Vec::new(alloc);
    let told = tell_order(rt, alloc, &mut hosts);
    drop(hosts);
    told
}

/// Makes the hosts, moves the guest, puts the journals in order, and prints what came of it.
fn tell_order<R: AllocGlobal + Print>(
    rt: &R,
    alloc: Global,
    hosts: &mut Vec<Recorded<PagedRam>>,
) -> Option<()> {
    for id in 0..HOSTS {
        hosts.reserve(1).ok()?;
        hosts.push(new_host(alloc, id)?).ok()?;
    }
    move_guest(hosts, alloc, 0, 1)?;
    move_guest(hosts, alloc, 1, 2)?;
    let [a, b, c] = hosts.as_slice() else {
        return None;
    };
    let (events, deliveries) = tally(alloc, &[a.journal(), b.journal(), c.journal()])?;
    println!(rt;
        "a guest moves from A to B and on to C: {events} events, {deliveries} deliveries"
    ).ok()?;
    let is_whole = tally(alloc, &[b.journal(), c.journal()]).is_some();
    println!(rt; "without the journal of A they have an order {is_whole}").ok()
}

/// A host among three, with an empty journal.
fn new_host(alloc: Global, id: u8) -> Option<Recorded<PagedRam>> {
    let host = host_among(alloc, id, HOSTS, 1, 3)?;
    Recorded::new(alloc, host, ENTRIES).ok()
}

/// Moves the guest from one host to another.
fn move_guest(hosts: &mut Vec<Recorded<PagedRam>>, alloc: Global, from: u8, to: u8) -> Option<()> {
    let begin = Command::Begin { to, policy: POLICY };
    play(hosts, alloc, from, begin)?;
    for _ in 0..COPIES {
        play(hosts, alloc, from, Command::Copy)?;
    }
    Some(())
}

/// Gives a host a command, and each host the frames that follow from it.
fn play(
    hosts: &mut Vec<Recorded<PagedRam>>,
    alloc: Global,
    host: u8,
    command: Command,
) -> Option<()> {
    let mut next = at(hosts, alloc, host, HostEvent::Do(command))?;
    for _ in 0..FRAMES {
        let Some(Addressed { from, to, frame }) = next else {
            return Some(());
        };
        next = at(hosts, alloc, to, came(alloc, from, frame)?)?;
    }
    drop(next);
    None
}

/// Records an event of a host. Returns the frame that was made, if one was.
fn at(
    hosts: &mut Vec<Recorded<PagedRam>>,
    alloc: Global,
    host: u8,
    event: HostEvent,
) -> Option<Option<Addressed>> {
    match hosts.get_mut(usize::from(host)) {
        Some(host) => made(host, alloc, event),
        None => None,
    }
}

/// The number of events in the order of these journals, and of the deliveries among them; none if they have no order.
fn tally(alloc: Global, journals: &[&Journal<PagedRam>]) -> Option<(u32, u32)> {
    if journals.len() > usize::from(HOSTS) {
        return None;
    }
    let Audit::Order(order) = audit_all(alloc, journals).ok()? else {
        return None;
    };
    let mut left = order.events();
    let (mut events, mut deliveries) = (0u32, 0u32);
    for _ in 0..EVENTS {
        let Some(event) = left.next() else {
            break;
        };
        events = events.wrapping_add(1);
        if let Event::Deliver(_) = event {
            deliveries = deliveries.wrapping_add(1);
        }
    }
    Some((events, deliveries))
}
