//! Hosts that two seats call.

ghost use Rattle.std.specs.Prelude.{◌≡◌, []};

use crate::asked::{board, came, recorded};
use crate::orders::{BEGIN, COPIES};
use rvm_board::{BoardEvent, BoardReply};
use rvm_frame::{Addressed, Frame};
use rvm_message::{Command, HostEvent, HostReply};
use rvm_paged::PagedRam;
use rvm_recorder::{
    CloseError, CloseKind, Receipt, ReceiptItem, RecordError, Recorded, Seat, Seating, SharedHost,
    close, share,
};
use std::alloc::Global;
use std::marker::Brand;
use std::sync::Wait;
use std::sync::ledger::Blank;

/// Writes 7 to the register t0.
const POKE: BoardEvent = BoardEvent::PokeReg {
    hart: 0,
    register: 5,
    value: 7,
};

/// What is tried with a shared host.
#[derive(Clone, Copy)]
enum Trial {
    Poke,
    Fill,
    Miss,
    Move,
}

/// Has one seat write to a register, and the other one read it.
pub fn write_and_read<R: AllocGlobal + Print + Wait>(rt: &R) -> Option<()> {
    share_new(rt, 100, 2, Trial::Poke)
}

/// Fills a journal, which then hands an event back, and closes the host with all receipts.
pub fn fill_a_journal<R: AllocGlobal + Print + Wait>(rt: &R) -> Option<()> {
    share_new(rt, 1, 2, Trial::Fill)
}

/// Tries to close a host without a receipt, and without its seat, and prints which place is missed.
pub fn miss_places<R: AllocGlobal + Print + Wait>(rt: &R) -> Option<()> {
    share_new(rt, 2, 1, Trial::Miss)
}

/// Counts the frames that calls hand out: those of a move at its source.
pub fn hand_out_frames<R: AllocGlobal + Print + Wait>(rt: &R) -> Option<()> {
    share_new(rt, 100, 2, Trial::Move)
}

/// Shares a new host, whose journal takes this many entries, between this many seats, and does this with it.
fn share_new<R: AllocGlobal + Print + Wait>(
    rt: &R,
    capacity: u32,
    seats: u32,
    trial: Trial,
) -> Option<()> {
    let host = recorded(rt.alloc(), 0, 1, capacity)?;
    share_and_try::<Brand, R>(rt, Blank::new(u64::from(seats)), host, seats, trial)
}

/// Shares a host between this many seats, and does this with it.
fn share_and_try<L: Seating, R: AllocGlobal + Print + Wait>(
    rt: &R,
    blank: Blank,
    recorded: Recorded<PagedRam>,
    seats: u32,
    trial: Trial,
) -> Option<()>
    requires ledger { (blank.name ≡ L.name) × (blank.parts ≡ L.parts) × (L.seats ≡ L.parts) }
    requires seats { blank.parts ≡ seats }
    requires empty { recorded.journal.entries ≡ [] }
    requires opening { recorded.journal.opening ≡ L.opening }
    requires capacity { recorded.capacity ≡ L.capacity }
{
    let (host, seats) = share_host::<L>(rt.alloc(), blank, recorded, seats)?;
    match trial {
        Trial::Poke | Trial::Move => tell_and_drop(rt, host, seats, trial),
        Trial::Fill => fill_and_close(rt, host, seats),
        Trial::Miss => call_and_miss(rt, host, seats),
    }
}

/// Tells what the calls of these seats answer.
fn tell_and_drop<L: Seating, R: AllocGlobal + Print + Wait>(
    rt: &R,
    host: SharedHost<L, PagedRam>,
    seats: Vec<Seat<L>>,
    trial: Trial,
) -> Option<()> {
    let mut seats = seats;
    let done = match trial {
        Trial::Poke => poke_and_tell(rt, &host, seats.as_mut_slice()),
        _ => tell_frames(rt, &host, seats.as_mut_slice()),
    };
    drop(host);
    drop(seats);
    done
}

/// Prints how many frames the calls of a move hand out: the offer, four pages, the end of their round and the state.
fn tell_frames<L: Seating, R: AllocGlobal + Print + Wait>(
    rt: &R,
    host: &SharedHost<L, PagedRam>,
    seats: &mut [Seat<L>],
) -> Option<()> {
    let seat = seats.get_mut(0)?;
    let accept = Frame::Accept { move_number: 1 };
    let mut frames = frames_of(rt, host, seat, HostEvent::Do(BEGIN))?;
    frames = frames.wrapping_add(frames_of(rt, host, seat, came(rt.alloc(), 1, accept)?)?);
    for _ in 0..COPIES {
        frames = frames.wrapping_add(frames_of(rt, host, seat, HostEvent::Do(Command::Copy))?);
    }
    println!(rt; "a move at its source hands out {frames} frames").ok()
}

/// Makes a call. Returns how many frames it hands out, 0 or 1.
fn frames_of<L: Seating, R: AllocGlobal + Wait>(
    rt: &R,
    host: &SharedHost<L, PagedRam>,
    seat: &mut Seat<L>,
    event: HostEvent,
) -> Option<u32> {
    let (receipt, frame) = call(rt, host, seat, event)?;
    drop(receipt);
    Some(u32::from(frame.is_some()))
}

/// Pokes a register from the first of these seats, and prints what the second sees.
fn poke_and_tell<L: Seating, R: AllocGlobal + Print + Wait>(
    rt: &R,
    host: &SharedHost<L, PagedRam>,
    seats: &mut [Seat<L>],
) -> Option<()> {
    let (poked, _) = place_and_t0(rt, host, seats, 0, POKE)?;
    let (seen, t0) = place_and_t0(rt, host, seats, 1, BoardEvent::Regs(0))?;
    let is_later = seen > poked;
    println!(rt; "one seat writes 7, the other reads {t0}, at a later place {is_later}").ok()
}

/// Calls a host from one of these seats. Returns the place of the call, and the register t0 in the reply.
fn place_and_t0<L: Seating, R: AllocGlobal + Wait>(
    rt: &R,
    host: &SharedHost<L, PagedRam>,
    seats: &mut [Seat<L>],
    seat: usize,
    event: BoardEvent,
) -> Option<(u32, u32)> {
    let seat = seats.get_mut(seat)?;
    let (receipt, frame) = call(rt, host, seat, board(event))?;
    drop(frame);
    let told = (receipt.place(), t0_of(receipt.reply()));
    drop(receipt);
    Some(told)
}

/// The register t0 in a reply; 0 if it has no registers.
fn t0_of(reply: HostReply) -> u32 {
    match reply {
        HostReply::Board(BoardReply::Regs(registers)) => registers[5],
        _ => 0,
    }
}

/// Calls once more than the journal takes, and closes the host, first without its one receipt.
fn fill_and_close<L: Seating, R: AllocGlobal + Print + Wait>(
    rt: &R,
    host: SharedHost<L, PagedRam>,
    seats: Vec<Seat<L>>,
) -> Option<()>
    requires { L.seats ≡ L.parts }
{
    let mut seats = seats;
    match fill(rt, &host, seats.as_mut_slice()) {
        Some(receipt) => close_twice(rt, host, seats, receipt),
        None => {
            drop(host);
            drop(seats);
            None
        }
    }
}

/// Calls twice from the first of these seats. Returns the receipt of the one call that the journal takes.
fn fill<L: Seating, R: AllocGlobal + Print + Wait>(
    rt: &R,
    host: &SharedHost<L, PagedRam>,
    seats: &mut [Seat<L>],
) -> Option<Receipt> {
    let first = seats.get_mut(0)?;
    let (receipt, frame) = call(rt, host, first, board(BoardEvent::Step(0)))?;
    drop(frame);
    match tell_full(rt, host, first) {
        Some(()) => Some(receipt),
        None => {
            drop(receipt);
            None
        }
    }
}

/// Closes a host, first without its one receipt.
fn close_twice<L: Seating, R: AllocGlobal + Print + Wait>(
    rt: &R,
    host: SharedHost<L, PagedRam>,
    seats: Vec<Seat<L>>,
    receipt: Receipt,
) -> Option<()>
    requires { L.seats ≡ L.parts }
{
    match close_without(rt, host, seats) {
        Some(error) => close_with(rt, error, receipt),
        None => {
            drop(receipt);
            None
        }
    }
}

/// Tries to close a host without its one receipt, and prints whether place 0 is missed. Returns all that came back.
fn close_without<L: Seating, R: AllocGlobal + Print + Wait>(
    rt: &R,
    host: SharedHost<L, PagedRam>,
    seats: Vec<Seat<L>>,
) -> Option<CloseError<L, PagedRam>>
    requires { L.seats ≡ L.parts }
{
    match close_again(rt, host, seats, Vec::new(rt.alloc())) {
        Err(error) => {
            let is_missed = error.kind == CloseKind::Mismatch(0);
            println!(rt; "closed without its receipt: place 0 is missed {is_missed}").unwrap_or(());
            Some(error)
        }
        Ok(recorded) => {
            drop(recorded);
            None
        }
    }
}

/// Closes the host that came back with its receipt.
fn close_with<L: Seating, R: AllocGlobal + Print + Wait>(
    rt: &R,
    error: CloseError<L, PagedRam>,
    receipt: Receipt,
) -> Option<()>
    requires { L.seats ≡ L.parts }
{
    let CloseError {
        kind: _,
        opened,
        seats,
        receipts,
    } = error;
    match with_one_more(receipts, receipt) {
        Some(receipts) => tell_closed(rt, opened.share_again(), seats, receipts),
        None => {
            drop(opened);
            drop(seats);
            None
        }
    }
}

/// Calls a host twice from its one seat, and tries to close it without the second receipt, and then without the seat.
fn call_and_miss<L: Seating, R: AllocGlobal + Print + Wait>(
    rt: &R,
    host: SharedHost<L, PagedRam>,
    seats: Vec<Seat<L>>,
) -> Option<()>
    requires { L.seats ≡ L.parts }
{
    let mut seats = seats;
    match call_twice(rt, &host, seats.as_mut_slice()) {
        Some((first, second)) => miss_a_receipt(rt, host, seats, first, second),
        None => {
            drop(host);
            drop(seats);
            None
        }
    }
}

/// Makes two steps from the first of these seats. Returns their receipts.
fn call_twice<L: Seating, R: AllocGlobal + Wait>(
    rt: &R,
    host: &SharedHost<L, PagedRam>,
    seats: &mut [Seat<L>],
) -> Option<(Receipt, Receipt)> {
    let seat = seats.get_mut(0)?;
    let (first, frame) = call(rt, host, seat, board(BoardEvent::Step(0)))?;
    drop(frame);
    match call(rt, host, seat, board(BoardEvent::Step(0))) {
        Some((second, frame)) => {
            drop(frame);
            Some((first, second))
        }
        None => {
            drop(first);
            None
        }
    }
}

/// Tries to close a host without its second receipt, which must fail.
fn miss_a_receipt<L: Seating, R: AllocGlobal + Print + Wait>(
    rt: &R,
    host: SharedHost<L, PagedRam>,
    seats: Vec<Seat<L>>,
    first: Receipt,
    second: Receipt,
) -> Option<()>
    requires { L.seats ≡ L.parts }
{
    let Some(receipts) = with_one_more(Vec::new(rt.alloc()), first) else {
        drop(host);
        drop(seats);
        drop(second);
        return None;
    };
    match close_again(rt, host, seats, receipts) {
        Err(error) => miss_a_seat(rt, error, second),
        Ok(recorded) => {
            drop(recorded);
            drop(second);
            None
        }
    }
}

/// Tries to close the host that came back with both receipts but without its seat, which must fail as well.
fn miss_a_seat<L: Seating, R: AllocGlobal + Print + Wait>(
    rt: &R,
    error: CloseError<L, PagedRam>,
    second: Receipt,
) -> Option<()>
    requires { L.seats ≡ L.parts }
{
    let CloseError {
        kind,
        opened,
        seats,
        receipts,
    } = error;
    drop(seats);
    match with_one_more(receipts, second) {
        Some(receipts) => tell_missed(rt, kind, opened.share_again(), receipts),
        None => {
            drop(opened);
            None
        }
    }
}

/// Prints which place was missed without the second receipt, and which is without a seat.
fn tell_missed<L: Seating, R: AllocGlobal + Print + Wait>(
    rt: &R,
    kind: CloseKind,
    host: SharedHost<L, PagedRam>,
    receipts: Vec<ReceiptItem>,
) -> Option<()>
    requires { L.seats ≡ L.parts }
{
    match close_again(rt, host, Vec::new(rt.alloc()), receipts) {
        Err(error) => {
            let of_receipt = kind == CloseKind::Mismatch(1);
            let of_seat = error.kind == CloseKind::Mismatch(2);
            drop(error);
            println!(rt; "closed without its second receipt: place 1 is missed {of_receipt}").ok()?;
            println!(rt; "closed without its seat: place 2 is missed {of_seat}").ok()
        }
        Ok(recorded) => {
            drop(recorded);
            None
        }
    }
}

/// These receipts, and one more.
fn with_one_more(receipts: Vec<ReceiptItem>, receipt: Receipt) -> Option<Vec<ReceiptItem>> {
    let mut receipts = receipts;
    if receipts.reserve(1).is_err() {
        receipts.reserve(1).ok()?;
    }
    receipts.push_reserved(ReceiptItem::One(receipt));
    Some(receipts)
}

/// Closes a host, and prints how many entries its journal has.
fn tell_closed<L: Seating, R: AllocGlobal + Print + Wait>(
    rt: &R,
    host: SharedHost<L, PagedRam>,
    seats: Vec<Seat<L>>,
    receipts: Vec<ReceiptItem>,
) -> Option<()>
    requires { L.seats ≡ L.parts }
{
    match close_again(rt, host, seats, receipts) {
        Ok(recorded) => {
            let count = recorded.count();
            drop(recorded);
            println!(rt; "closed with it: {count} entry").ok()
        }
        Err(error) => {
            drop(error);
            None
        }
    }
}

/// Shares a host among this many seats.
pub fn share_host<L: Seating>(
    alloc: Global,
    blank: Blank,
    recorded: Recorded<PagedRam>,
    seats: u32,
) -> Option<(SharedHost<L, PagedRam>, Vec<Seat<L>>)>
    requires ledger { (blank.name ≡ L.name) × (blank.parts ≡ L.parts) × (L.seats ≡ L.parts) }
    requires seats { blank.parts ≡ seats }
    requires empty { recorded.journal.entries ≡ [] }
    requires opening { recorded.journal.opening ≡ L.opening }
    requires capacity { recorded.capacity ≡ L.capacity }
{
    share::<L, PagedRam>(alloc, blank, recorded, seats).ok()
}

/// Calls a host.
fn call<L: Seating, R: AllocGlobal + Wait>(
    rt: &R,
    host: &SharedHost<L, PagedRam>,
    seat: &mut Seat<L>,
    event: HostEvent,
) -> Option<(Receipt, Option<Addressed>)> {
    host.call(rt, rt.alloc(), seat, event).ok()
}

/// Prints whether a journal of one entry takes no second one, and hands its event back.
fn tell_full<L: Seating, R: AllocGlobal + Print + Wait>(
    rt: &R,
    host: &SharedHost<L, PagedRam>,
    seat: &mut Seat<L>,
) -> Option<()> {
    let is_full = match host.call(rt, rt.alloc(), seat, board(BoardEvent::Step(0))) {
        Err((RecordError::OutOfMemory, event)) => {
            is_handed_back(host.call(rt, rt.alloc(), seat, event))
        }
        answer => is_handed_back(answer),
    };
    println!(rt; "a second call: journal of 1 entry full, event handed back {is_full}").ok()
}

/// Whether a journal of one entry was full, and the event of the call came back.
fn is_handed_back(answer: Result<(Receipt, Option<Addressed>), (RecordError, HostEvent)>) -> bool {
    match answer {
        Err((RecordError::RecorderFull(1), event)) => event == board(BoardEvent::Step(0)),
        other => {
            drop(other);
            false
        }
    }
}

/// Closes a host, and repeats that if memory runs out.
fn close_again<L: Seating, R: AllocGlobal + Wait>(
    rt: &R,
    host: SharedHost<L, PagedRam>,
    seats: Vec<Seat<L>>,
    receipts: Vec<ReceiptItem>,
) -> Result<Recorded<PagedRam>, CloseError<L, PagedRam>>
    requires { L.seats ≡ L.parts }
{
    match close(rt, rt.alloc(), host, seats, receipts) {
        Err(
            CloseError {
                kind: CloseKind::OutOfMemory,
                opened,
                seats,
                receipts,
            },
        ) => close(rt, rt.alloc(), opened.share_again(), seats, receipts),
        closed => closed,
    }
}
