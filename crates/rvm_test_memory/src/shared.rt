//! Calls of a host whose events are recorded, and that is shared.

ghost use Rattle.std.specs.Prelude.{◌≡◌, [], IfSome};

use crate::heap::Heap;
use crate::single::guest;
use crate::trial::{Trial, Tried, print_tried};
use rvm_host::Host;
use rvm_mem::FlatMemory;
use rvm_message::{Command, HostEvent};
use rvm_precopy::Policy;
use rvm_recorder::{
    CloseError, CloseKind, ReceiptItem, RecordError, Recorded, Seat, Seating, ShareError,
    SharedHost, close, share,
};
use std::alloc::Global;
use std::marker::Brand;
use std::sync::Wait;
use std::sync::ledger::Blank;

/// How many entries a journal takes.
const CAPACITY: u32 = 100;

/// The event of the calls: it begins a move, and a frame is made.
const BEGIN: HostEvent = HostEvent::Do(Command::Begin {
    to: 1,
    policy: Policy {
        max_rounds: 1,
        min_left: 1,
        factor: 3,
    },
});

/// The first of two hosts with a guest, and an empty journal.
fn recorded(alloc: Global) -> Option<Recorded<FlatMemory>>
    ensures { IfSome result (λ r. r.journal.entries ≡ []) }
{
    let host = Host::with_version(Some(guest(alloc)?), 0, 2, 4096, 1).ok()?;
    Recorded::new(alloc, host, CAPACITY).ok()
}

/// Makes each of the calls.
pub fn try_calls<R: AllocGlobal + Print + Wait>(rt: &R, heap: &mut Heap) -> Option<()> {
    print_tried(rt, heap, "record", &mut Record)?;
    print_tried(rt, heap, "share", &mut Share)?;
    print_tried(rt, heap, "call", &mut Call { rt })?;
    print_tried(rt, heap, "close", &mut Close { rt })
}

/// Whether memory ran out, and the event came back.
fn is_handed_back(why: RecordError, event: &HostEvent) -> bool {
    why == RecordError::OutOfMemory && *event == BEGIN
}

/// The trial of recording an event. If memory runs out, the event comes back, and the journal is as it was.
#[derive(Drop)]
struct Record;

impl Trial for Record {
    fn attempt(&mut self, alloc: Global, heap: &mut Heap, room: usize) -> Tried {
        let Some(mut recorded) = recorded(alloc) else {
            return Tried::Wrong;
        };
        if heap.leave(alloc, room).is_none() {
            drop(recorded);
            return Tried::Wrong;
        }
        let told = recorded.record(alloc, BEGIN);
        heap.release();
        let count = recorded.count();
        drop(recorded);
        match told {
            Ok(answer) => {
                drop(answer);
                Tried::Made
            }
            Err((why, event)) => Tried::refused(is_handed_back(why, &event) && count == 0),
        }
    }
}

/// The trial of sharing a host between two seats. If memory runs out, the host comes back.
#[derive(Drop)]
struct Share;

impl Trial for Share {
    fn attempt(&mut self, alloc: Global, heap: &mut Heap, room: usize) -> Tried {
        share_new(alloc, heap, room)
    }
}

/// Does the same with a new host.
fn share_new(alloc: Global, heap: &mut Heap, room: usize) -> Tried {
    match recorded(alloc) {
        Some(recorded) => shared_in::<Brand>(alloc, heap, room, Blank::new(2), recorded),
        None => Tried::Wrong,
    }
}

/// Does the same with this ledger.
fn shared_in<L: Seating>(
    alloc: Global,
    heap: &mut Heap,
    room: usize,
    blank: Blank,
    recorded: Recorded<FlatMemory>,
) -> Tried
    requires ledger { (blank.name ≡ L.name) × (blank.parts ≡ L.parts) × (L.seats ≡ L.parts) }
    requires seats { blank.parts ≡ 2 }
    requires empty { recorded.journal.entries ≡ [] }
    requires opening { recorded.journal.opening ≡ L.opening }
    requires capacity { recorded.capacity ≡ L.capacity }
{
    if heap.leave(alloc, room).is_none() {
        drop(recorded);
        return Tried::Wrong;
    }
    let shared = share::<L, FlatMemory>(alloc, blank, recorded, 2);
    heap.release();
    match shared {
        Ok((host, seats)) => {
            drop(host);
            drop(seats);
            Tried::Made
        }
        Err((why, _, recorded)) => {
            let count = recorded.count();
            drop(recorded);
            Tried::refused(why == ShareError::OutOfMemory && count == 0)
        }
    }
}

/// The trial of calling a shared host. If memory runs out, the event comes back.
#[derive(Drop)]
struct Call<'r, R: Wait> {
    rt: &'r R,
}

impl<R: Wait> Trial for Call<'_, R> {
    fn attempt(&mut self, alloc: Global, heap: &mut Heap, room: usize) -> Tried {
        call_new(self.rt, alloc, heap, room)
    }
}

/// Does the same with a new host.
fn call_new<R: Wait>(rt: &R, alloc: Global, heap: &mut Heap, room: usize) -> Tried {
    match recorded(alloc) {
        Some(recorded) => called_in::<Brand, R>(rt, alloc, heap, room, Blank::new(2), recorded),
        None => Tried::Wrong,
    }
}

/// Does the same with this ledger.
fn called_in<L: Seating, R: Wait>(
    rt: &R,
    alloc: Global,
    heap: &mut Heap,
    room: usize,
    blank: Blank,
    recorded: Recorded<FlatMemory>,
) -> Tried
    requires ledger { (blank.name ≡ L.name) × (blank.parts ≡ L.parts) × (L.seats ≡ L.parts) }
    requires seats { blank.parts ≡ 2 }
    requires empty { recorded.journal.entries ≡ [] }
    requires opening { recorded.journal.opening ≡ L.opening }
    requires capacity { recorded.capacity ≡ L.capacity }
{
    match share::<L, FlatMemory>(alloc, blank, recorded, 2) {
        Ok((host, seats)) => {
            let mut seats = seats;
            let tried = match seats.get_mut(0) {
                Some(seat) => called(rt, alloc, heap, room, &host, seat),
                None => Tried::Wrong,
            };
            drop(host);
            drop(seats);
            tried
        }
        Err(refused) => {
            drop(refused);
            Tried::Wrong
        }
    }
}

/// Does the same with this host.
fn called<L: Seating, R: Wait>(
    rt: &R,
    alloc: Global,
    heap: &mut Heap,
    room: usize,
    host: &SharedHost<L, FlatMemory>,
    seat: &mut Seat<L>,
) -> Tried {
    if heap.leave(alloc, room).is_none() {
        return Tried::Wrong;
    }
    let told = host.call(rt, alloc, seat, BEGIN);
    heap.release();
    match told {
        Ok(answer) => {
            drop(answer);
            Tried::Made
        }
        Err((why, event)) => Tried::refused(is_handed_back(why, &event)),
    }
}

/// The trial of closing a host. If memory runs out, it comes back with its seats and receipts.
#[derive(Drop)]
struct Close<'r, R: Wait> {
    rt: &'r R,
}

impl<R: Wait> Trial for Close<'_, R> {
    fn attempt(&mut self, alloc: Global, heap: &mut Heap, room: usize) -> Tried {
        close_new(self.rt, alloc, heap, room)
    }
}

/// Does the same with a new host.
fn close_new<R: Wait>(rt: &R, alloc: Global, heap: &mut Heap, room: usize) -> Tried {
    match recorded(alloc) {
        Some(recorded) => closed_in::<Brand, R>(rt, alloc, heap, room, Blank::new(2), recorded),
        None => Tried::Wrong,
    }
}

/// Does the same with this ledger, after one call.
fn closed_in<L: Seating, R: Wait>(
    rt: &R,
    alloc: Global,
    heap: &mut Heap,
    room: usize,
    blank: Blank,
    recorded: Recorded<FlatMemory>,
) -> Tried
    requires ledger { (blank.name ≡ L.name) × (blank.parts ≡ L.parts) × (L.seats ≡ L.parts) }
    requires seats { blank.parts ≡ 2 }
    requires empty { recorded.journal.entries ≡ [] }
    requires opening { recorded.journal.opening ≡ L.opening }
    requires capacity { recorded.capacity ≡ L.capacity }
{
    match share::<L, FlatMemory>(alloc, blank, recorded, 2) {
        Ok((host, seats)) => {
            let mut seats = seats;
            match call_once(rt, alloc, &host, seats.as_mut_slice()) {
                Some(receipts) => closed(rt, alloc, heap, room, host, seats, receipts),
                None => {
                    drop(host);
                    drop(seats);
                    Tried::Wrong
                }
            }
        }
        Err(refused) => {
            drop(refused);
            Tried::Wrong
        }
    }
}

/// Makes one call from the first of these seats. Returns its receipt.
fn call_once<L: Seating, R: Wait>(
    rt: &R,
    alloc: Global,
    host: &SharedHost<L, FlatMemory>,
    seats: &mut [Seat<L>],
) -> Option<Vec<ReceiptItem>> {
    let seat = seats.get_mut(0)?;
    let (receipt, frame) = host.call(rt, alloc, seat, BEGIN).ok()?;
    drop(frame);
    let mut receipts = Vec::new(alloc);
    receipts.push(ReceiptItem::One(receipt)).ok()?;
    Some(receipts)
}

/// Does the same with this host, these seats and receipts.
fn closed<L: Seating, R: Wait>(
    rt: &R,
    alloc: Global,
    heap: &mut Heap,
    room: usize,
    host: SharedHost<L, FlatMemory>,
    seats: Vec<Seat<L>>,
    receipts: Vec<ReceiptItem>,
) -> Tried
    requires { L.seats ≡ L.parts }
{
    if heap.leave(alloc, room).is_none() {
        drop(host);
        drop(seats);
        drop(receipts);
        return Tried::Wrong;
    }
    let closed = close(rt, alloc, host, seats, receipts);
    heap.release();
    match closed {
        Ok(recorded) => {
            drop(recorded);
            Tried::Made
        }
        Err(error) => told_of(error),
    }
}

/// What became of closing a host that came back: whether memory ran out, and its seats and its receipt came back too.
fn told_of<L: Seating>(error: CloseError<L, FlatMemory>) -> Tried {
    let is_refused = error.kind == CloseKind::OutOfMemory
        && error.seats.len() == 2
        && error.receipts.len() == 1;
    drop(error);
    Tried::refused(is_refused)
}
