//! The two hosts of a move: how they are opened, shared and closed.

ghost use Rattle.std.specs.Prelude.{◌≡◌, ◌≤◌, [], ◌++◌, true, None, Some, vec_len, IfOk};
ghost use Rattle.rvm_recorder.specs.Runs.{all_of};
ghost use Rattle.rvm_move.specs.Ends.{first_fault};
ghost use Rattle.rvm_move.specs.Hosts.{AreAll};

use rvm_link::{Link, Outgoing};
use rvm_mem::PagedMemory;
use rvm_recorder::{
    CloseError, CloseKind, ReceiptItem, Recorded, Seat, Seating, ShareError, SharedHost, close,
    share,
};
use std::alloc::{AllocError, Global};
use std::sync::Wait;
use std::sync::ledger::Blank;

/// The links of one host: one that sends its frames, and one that receives the other host's.
#[derive(Drop)]
pub struct Links<K: Link + Drop> {
    pub sending: K,
    pub receiving: K,
}

/// A host after a move, and why it was not closed, if it was not.
#[derive(Drop)]
pub struct HostEnd<M: PagedMemory + Drop> {
    pub recorded: Recorded<M>,
    pub fault: Option<CloseKind>,
}

/// A host under its lock, and its open stream.
#[derive(Drop)]
pub(crate) struct OpenHost<L: Seating, M: PagedMemory + Drop, K: Link + Drop> {
    pub(crate) host: SharedHost<L, M>,
    pub(crate) outgoing: Outgoing<K>,
}

/// Shares a host among this many seats, 1 to 16, and opens its stream. Returns the host and its seats.
pub(crate) fn open_host<L: Seating, M: PagedMemory + Drop, K: Link + Drop>(
    alloc: Global,
    blank: Blank,
    recorded: Recorded<M>,
    seats: u32,
    version: u32,
    sending: K,
) -> Result<(OpenHost<L, M, K>, Vec<Seat<L>>), AllocError>
    requires ledger { (blank.name ≡ L.name) × (blank.parts ≡ L.parts) × (L.seats ≡ L.parts) }
    requires seats { blank.parts ≡ seats }
    requires few { (1 ≤ seats) × (seats ≤ 16) }
    requires empty { recorded.journal.entries ≡ [] }
    requires opening { recorded.journal.opening ≡ L.opening }
    requires capacity { recorded.capacity ≡ L.capacity }
    ensures seats { IfOk result (λ r. vec_len r.1 ≡ seats) }
    ensures version { IfOk result (λ r. r.0.outgoing.version ≡ version) }
{
    let (host, list) = match share::<L, M>(alloc, blank, recorded, seats) {
        Ok(shared) => shared,
        Err((ShareError::BadSize, ..)) => unreachable!(),
        Err((ShareError::OutOfMemory, ..)) => return Err(AllocError),
    };
    let Ok(outgoing) = Outgoing::open(alloc, sending, version) else {
        return Err(AllocError);
    };
    Ok((OpenHost { host, outgoing }, list))
}

/// The seats and receipts that workers gave back. Some are missing if memory ran out.
#[derive(Drop)]
pub(crate) struct Returned<L: Seating> {
    pub(crate) seats: Vec<Seat<L>>,
    pub(crate) receipts: Vec<ReceiptItem>,
    pub(crate) is_whole: bool,
}

impl<L: Seating> Returned<L> {
    /// The collection before any worker gave anything back.
    pub(crate) fn new(alloc: Global) -> Returned<L>
        ensures { all_of result.receipts.items ≡ [] }
    {
        Returned {
            seats: Vec::new(alloc),
            receipts: Vec::new(alloc),
            is_whole: true,
        }
    }

    /// Adds the seat and the receipts that a worker gave back. If memory runs out, it is no longer whole.
    pub(crate) fn add(&mut self, seat: Seat<L>, receipts: Vec<ReceiptItem>)
        ensures { self.new.is_whole ≡ true → (self.old.is_whole ≡ true)
            × (all_of self.new.receipts.items ≡ all_of self.old.receipts.items ++ all_of receipts.items) }
    {
        let is_seated = self.seats.push(seat).is_ok();
        let is_told = append(&mut self.receipts, receipts);
        self.is_whole = self.is_whole && is_seated && is_told;
    }
}

/// Appends receipts to others. Returns whether there was memory for that.
fn append(all: &mut Vec<ReceiptItem>, more: Vec<ReceiptItem>) -> bool
    ensures { result ≡ true → all_of all.new.items ≡ all_of all.old.items ++ all_of more.items }
{
    let mut more = more;
    all.append(&mut more).is_ok()
}

/// Closes a host whose workers have ended, with the seats and receipts that they gave back. Returns the host, with the
/// fault if it could not be closed.
pub(crate) fn close_host<L: Seating, M: PagedMemory + Drop, K: Link + Drop, R: Wait>(
    rt: &R,
    alloc: Global,
    open: OpenHost<L, M, K>,
    returned: Returned<L>,
) -> HostEnd<M>
    requires { L.seats ≡ L.parts }
    ensures opening { result.recorded.journal.opening ≡ L.opening }
    ensures told { result.fault ≡ None → (returned.is_whole ≡ true)
        × AreAll result.recorded.journal.entries (all_of returned.receipts.items) }
{
    let OpenHost { host, outgoing: _ } = open;
    let Returned {
        seats,
        receipts,
        is_whole,
    } = returned;
    match close(rt, alloc, host, seats, receipts) {
        Ok(recorded) => HostEnd {
            recorded,
            fault: first_fault(is_whole, None),
        },
        Err(error) => not_closed(error, is_whole),
    }
}

/// A host that was not closed.
fn not_closed<L: Seating, M: PagedMemory + Drop>(
    error: CloseError<L, M>,
    is_whole: bool,
) -> HostEnd<M>
    ensures opening { result.recorded.journal.opening ≡ L.opening }
    ensures first { result.fault ≡ first_fault is_whole (Some error.kind) }
    ensures some { result.fault ≡ None → ⊥ }
{
    HostEnd {
        fault: first_fault(is_whole, Some(error.kind)),
        recorded: error.opened.into_recorded(),
    }
}

/// Why a host was not closed, if it was not: out of memory if a seat or a receipt is missing, else `fault`.
fn first_fault(is_whole: bool, fault: Option<CloseKind>) -> Option<CloseKind>
    ensures first { result ≡ first_fault is_whole fault }
    ensures none { result ≡ None → (is_whole ≡ true) × (fault ≡ None) }
{
    if is_whole {
        fault
    } else {
        Some(CloseKind::OutOfMemory)
    }
}
