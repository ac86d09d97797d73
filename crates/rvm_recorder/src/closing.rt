//! The end of a shared host: its journal is compared with the receipts.

ghost use Rattle.std.specs.Prelude.{◌≡◌, ◌+◌, ◌<◌, ◌≤◌, ◌^◌, ℕ, drop, length, vec_len, IfOk, OnOk, IfErr, IfNone, IfSome, Some, None, sum_by, IsPermutation, false, true};
ghost use Rattle.std.specs.Prelude.{◌≢◌};
ghost use Rattle.std.specs.BTreeMap.{get};
ghost use Rattle.std.specs.Ordering.{nat_cmp};
ghost use Rattle.rvm_recorder.specs.Close.{IsFirstFault, IsJournal};
ghost use Rattle.rvm_recorder.specs.Runs.{all_of, calls_before, seat_in};
ghost use Rattle.rvm_recorder.specs.Telling.{AreRising, Tells, first_place};
ghost use Rattle.rvm_recorder.specs.Items.{all_of as entries_of_all};
ghost use Rattle.rvm_recorder.specs.Closing.{IsClosed, IsCloseError, close_refusal};

use crate::item::Item;
use crate::items::ReceiptItem;
use crate::left::Left;
use crate::locked::Locked;
use crate::recorded::Recorded;
use crate::seat::{Seat, Seating};
use crate::shared::SharedHost;
use rvm_mem::PagedMemory;
use rvm_refusal::Refusal;
use std::alloc::{AllocError, Global};
use std::collections::BTreeMap;
use std::sync::Wait;
use std::sync::ledger::{Book, Share};
use thiserror::Error;

/// Why a shared host was not closed.
#[derive(Clone, Copy, PartialEq, Eq, Debug, Error)]
pub enum CloseKind {
    /// Memory ran out.
    #[error("out of memory")]
    OutOfMemory,
    /// The first place of the journal that does not have exactly one right receipt, or the journal's length if a
    /// receipt is of no place of it or a seat is missing.
    #[error("the receipts do not tell place {0} of the journal")]
    Mismatch(u32),
}

impl From<CloseKind> for Refusal {
    ghost from_gives = { λ why told. told ≡ close_refusal why };

    fn from(why: CloseKind) -> Refusal {
        match why {
            CloseKind::OutOfMemory => Refusal::OutOfMemory,
            CloseKind::Mismatch(_) => Refusal::Mismatch,
        }
    }
}

/// Why a shared host was not closed, with all that was handed in: the recorded host, out of its lock, the seats,
/// and the receipts in some order.
#[derive(Drop)]
pub struct CloseError<L: Seating, M: PagedMemory + Drop> {
    pub kind: CloseKind,
    pub opened: Locked<L, M>,
    pub seats: Vec<Seat<L>>,
    pub receipts: Vec<ReceiptItem>,
}

/// Proves that the counts of all seats add up to the book's total.
fn collect<L: Seating>(book: &mut Book<L>, spare: Share<L>, seats: Vec<Seat<L>>)
    requires none { spare.parts ≡ 0 }
    requires all { vec_len seats ≡ L.parts }
    ensures sum { sum_by (λ s. s.count) seats.items ≡ book.old.total }
    ensures same { book.new.total ≡ book.old.total }
{
    let mut all = spare;
    let mut seats = seats;
    book.audit(&mut all);
    while let Some(seat) = seats.pop() {
        all.merge(seat.into_share());
    }
    book.audit(&mut all);
}

/// Whether these receipts were made after the last one of the same seat at a lower place, if there is one.
fn is_above(lasts: &BTreeMap<u32, u64>, item: &ReceiptItem) -> bool
    ensures yes { result ≡ true → (c : ℕ) → get nat_cmp lasts.now (seat_in item.now) ≡ Some c → c < calls_before item.now }
    ensures no { result ≡ false → (c : ℕ) × (get nat_cmp lasts.now (seat_in item.now) ≡ Some c) × (calls_before item.now ≤ c) }
{
    match lasts.get(&item.seat()) {
        None => true,
        Some(c) => *c < item.calls(),
    }
}

/// Notes the count of a seat's last receipt. Fails if memory runs out.
fn note(lasts: &mut BTreeMap<u32, u64>, seat: u32, count: u64) -> Result<(), AllocError>
    ensures same { OnOk result (get nat_cmp lasts.new seat ≡ Some count) }
    ensures other { OnOk result ((q : ℕ) → q ≢ seat → get nat_cmp lasts.new q ≡ get nat_cmp lasts.old q) }
{
    lasts.insert(seat, count)?;
    Ok(())
}

/// The place of the first receipt of item `k`, if there is such an item.
fn first_from(receipts: &[ReceiptItem], k: usize) -> Option<u32>
    ensures { result ≡ first_place (drop k receipts.now) }
{
    Some(receipts.get(k)?.place())
}

/// Whether `until` is the place `behind` places after `place`.
fn is_at(until: Option<u32>, place: u32, behind: u32) -> bool
    ensures yes { result ≡ true → until ≡ Some (place + behind) }
    ensures no { result ≡ false → until ≡ Some (place + behind) → ⊥ }
{
    match until {
        None => false,
        Some(until) => u64::from(until) == u64::from(place) + u64::from(behind),
    }
}

/// Counts how many of an item's receipts, from the first one on, are of the next entries that are left, and passes
/// these entries. Stops at `until`, the place of the next item.
fn tell(item: &ReceiptItem, left: &mut Left<'_>, until: Option<u32>) -> u32
    ensures { Tells item.now left.old left.new until result }
{
    let place = item.place();
    let len = item.len();
    let mut told: u32 = 0;
    while told < len {
        told += item.skip(told, left, until);
        if told == len {
            return told;
        }
        if is_at(until, place, told) {
            return told;
        }
        let Some(entry) = left.next() else {
            return told;
        };
        if !item.is_of(told, &entry) {
            return told;
        }
        told += 1;
    }
    told
}

/// The first place at which the receipts, which are sorted by place, are wrong, if there is one; the journal's length
/// if a receipt is past its end. Fails if memory runs out.
fn first_fault(
    alloc: Global,
    items: &[Item],
    receipts: &[ReceiptItem],
) -> Result<Option<usize>, AllocError>
    requires sorted { AreRising receipts.now }
    requires bound { length (entries_of_all items.now) < 2 ^ 32 }
    ensures none { IfOk result (λ o. IfNone o (IsJournal (entries_of_all items.now) (all_of receipts.now))) }
    ensures some { IfOk result (λ o. IfSome o (λ p. IsFirstFault (entries_of_all items.now) (all_of receipts.now) p)) }
{
    let mut lasts: BTreeMap<u32, u64> = BTreeMap::new(alloc);
    let mut left = Left::new(items);
    let mut place: usize = 0;
    let mut k: usize = 0;
    while k < receipts.len() {
        let item = &receipts[k];
        if item.place() as usize != place || !is_above(&lasts, item) {
            return Ok(Some(place));
        }
        let told = tell(item, &mut left, first_from(receipts, k + 1));
        place += told as usize;
        if told < item.len() {
            return Ok(Some(place));
        }
        note(&mut lasts, item.seat(), item.last_calls())?;
        k += 1;
    }
    if left.next().is_some() {
        return Ok(Some(place));
    }
    Ok(None)
}

/// Sorts receipts by place. Those of one seat are in order already, and a stable sort merges such runs.
fn sort_by_place(receipts: &mut Vec<ReceiptItem>) -> Result<(), AllocError>
    ensures sorted { OnOk result (AreRising receipts.new.items) }
    ensures same { IsPermutation receipts.old.items receipts.new.items }
{
    receipts.sort_by_key(|item| item.place())
}

/// Why a host cannot be closed, if it cannot. The receipts are sorted by place; `have` of its `want` seats are there.
fn fault_of<L: Seating, M: PagedMemory + Drop>(
    alloc: Global,
    locked: &Locked<L, M>,
    want: usize,
    have: usize,
    receipts: &[ReceiptItem],
) -> Option<CloseKind>
    requires { AreRising receipts.now }
    ensures none { IfNone result ((have ≡ want) × IsJournal locked.now.journal.entries (all_of receipts.now)) }
    ensures some { IfSome result (λ k. IsCloseError k locked.now.journal.entries want have (all_of receipts.now)) }
{
    let recorded = &locked.recorded;
    let len = recorded.count();
    match first_fault(alloc, recorded.journal().items(), receipts) {
        Err(_) => Some(CloseKind::OutOfMemory),
        Ok(Some(p)) => Some(CloseKind::Mismatch(if p < len as usize { p as u32 } else { len })),
        Ok(None) => {
            if have == want {
                None
            } else {
                Some(CloseKind::Mismatch(len))
            }
        }
    }
}

/// Sorts the receipts by place, and returns why a host cannot be closed, if it cannot.
#[tactic(auto, using(crate::proofs::Flat::all_permuted))]
fn sort_and_compare<L: Seating, M: PagedMemory + Drop>(
    alloc: Global,
    locked: &Locked<L, M>,
    want: usize,
    have: usize,
    receipts: &mut Vec<ReceiptItem>,
) -> Option<CloseKind>
    ensures same { IsPermutation receipts.old.items receipts.new.items }
    ensures all { IsPermutation (all_of receipts.old.items) (all_of receipts.new.items) }
    ensures none { IfNone result ((have ≡ want) × IsJournal locked.now.journal.entries (all_of receipts.new.items)) }
    ensures some { IfSome result (λ k. IsCloseError k locked.now.journal.entries want have (all_of receipts.new.items)) }
{
    if sort_by_place(receipts).is_err() {
        return Some(CloseKind::OutOfMemory);
    }
    fault_of(alloc, locked, want, have, receipts.as_slice())
}

/// Closes a shared host: returns its recorded host if each place of its journal has exactly one receipt, with the
/// event and the reply of that place, the receipts of each seat rise in place as they rise in count, and all seats
/// are there. Otherwise hands everything back, with `Mismatch`, or with `OutOfMemory` if memory runs out.
pub fn close<L: Seating, M: PagedMemory + Drop, R: Wait>(
    _rt: &R,
    alloc: Global,
    shared: SharedHost<L, M>,
    seats: Vec<Seat<L>>,
    receipts: Vec<ReceiptItem>,
) -> Result<Recorded<M>, CloseError<L, M>>
    requires { L.seats ≡ L.parts }
    ensures ok { IfOk result (λ r. IsClosed r.journal.entries seats.items (all_of receipts.items)) }
    ensures opening { IfOk result (λ r. r.journal.opening ≡ L.opening) }
    ensures back { IfErr result (λ e. (e.seats.items ≡ seats.items) × IsPermutation receipts.items e.receipts.items) }
    ensures fault { IfErr result (λ e. IsCloseError e.kind e.opened.journal.entries L.seats (vec_len seats)
        (all_of e.receipts.items)) }
{
    let SharedHost { lock, started: _ } = shared;
    let mut receipts = receipts;
    let locked = lock.into_inner();
    let want = locked.seats;
    if let Some(kind) = sort_and_compare(
        alloc,
        &locked,
        want as usize,
        seats.len(),
        &mut receipts,
    ) {
        return Err(CloseError {
            kind,
            opened: locked,
            seats,
            receipts,
        });
    }
    let Locked {
        recorded,
        mut book,
        spare,
        seats: _,
        has_started: _,
    } = locked;
    collect(&mut book, spare, seats);
    Ok(recorded)
}
