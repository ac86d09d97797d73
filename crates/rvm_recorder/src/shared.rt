//! A recorded host under a lock.

ghost use Rattle.std.specs.Prelude.{◌≡◌, ◌⊎◌, ◌↔◌, ◌+◌, ◌<◌, ◌≤◌, ℕ, [], length, IfNone, IfOk, IfErr, IfSome, OnOk, OnErr, Some, slice_get, vec_len, vec_capacity};
ghost use Rattle.rvm_recorder.specs.Calls.{AreOfSeat, IsReceipt, IsWhole};
ghost use Rattle.rvm_recorder.specs.declared.shared.ShareError.TheVariants.{BadSize};
ghost use Rattle.rvm_recorder.specs.Runs.{all_of};
ghost use Rattle.rvm_recorder.specs.Seats.{seat_of, share_refusal};
ghost use Rattle.rvm_recorder.specs.declared.error.SliceError.TheVariants.{OutOfRange};
ghost use Rattle.rvm_recorder.specs.Errors.{IsSized};
ghost use Rattle.rvm_message.specs.Exchanges.{dry_exchange};

use crate::error::{RecordError, SliceError};
use crate::items::ReceiptItem;
use crate::locked::Locked;
use crate::receipt::Receipt;
use crate::recorded::Recorded;
use crate::seat::{Seat, Seating};
use crate::slice::is_slice_in_range;
use rvm_frame::Addressed;
use rvm_mem::{PAGE_SIZE, PagedMemory};
use rvm_message::{Command, HostEvent};
use rvm_refusal::Refusal;
use std::alloc::Global;
use std::hint::spin_loop;
use std::sync::ledger::{Blank, Share};
use std::sync::{Condvar, Mutex, MutexGuard, Wait};
use std::time::{Clock, Duration};
use thiserror::Error;

/// The most seats of a host.
const MAX_SEATS: u32 = 16;

/// How often the lock is tried before a thread waits for it: some tens of microseconds.
const TRIES: u32 = 1000;

/// Enough bytes for the frame of a page in each version: the page, its numbers and a header.
const PAGE_FRAME: usize = PAGE_SIZE as usize + 64;

/// Room for the frame that Copy makes, in memory that has been written to, so that the system provides that memory
/// before the lock is taken. No room for any other event, or if memory runs out.
fn frame_room(alloc: Global, event: &HostEvent) -> Vec<u8>
    ensures { result.items ≡ [] }
{
    let mut room = Vec::new(alloc);
    if matches!(event, HostEvent::Do(Command::Copy)) {
        let _written = room.resize(PAGE_FRAME, 0);
        room.clear();
    }
    room
}

/// Why a host was not shared.
#[derive(Clone, Copy, PartialEq, Eq, Debug, Error)]
pub enum ShareError {
    /// The number of seats is not 1 to 16.
    #[error("a host has 1 to 16 seats")]
    BadSize,
    /// Memory ran out.
    #[error("out of memory")]
    OutOfMemory,
}

impl From<ShareError> for Refusal {
    ghost from_gives = { λ why told. told ≡ share_refusal why };

    fn from(why: ShareError) -> Refusal {
        match why {
            ShareError::BadSize => Refusal::BadSize,
            ShareError::OutOfMemory => Refusal::OutOfMemory,
        }
    }
}

/// A host that several threads call, each with a seat of its own.
#[derive(Drop)]
pub struct SharedHost<L: Seating, M: PagedMemory + Drop> {
    pub(crate) lock: Mutex<Locked<L, M>>,
    /// Wakes the threads that wait for the guest to run here.
    pub(crate) started: Condvar,
}

/// Shares a recorded host whose journal is empty: returns the shared host and its seats, 1 to 16, none of which has
/// made a call. Fails with `BadSize` for any other number of seats, and with `OutOfMemory` if memory runs out; either
/// hands back what was handed in.
pub fn share<L: Seating, M: PagedMemory + Drop>(
    alloc: Global,
    blank: Blank,
    recorded: Recorded<M>,
    seats: u32,
) -> Result<(SharedHost<L, M>, Vec<Seat<L>>), (ShareError, Blank, Recorded<M>)>
    requires ledger { (blank.name ≡ L.name) × (blank.parts ≡ L.parts) × (L.seats ≡ L.parts) }
    requires seats { blank.parts ≡ seats }
    requires empty { recorded.journal.entries ≡ [] }
    requires opening { recorded.journal.opening ≡ L.opening }
    requires capacity { recorded.capacity ≡ L.capacity }
    ensures seats { IfOk result (λ r. vec_len r.1 ≡ seats) }
    ensures fresh { IfOk result (λ r. (k : ℕ) → k < seats → slice_get r.1.items k ≡ Some (seat_of k 0)) }
    ensures few { OnOk result ((1 ≤ seats) × (seats ≤ 16)) }
    ensures size { IfErr result (λ e. (e.0 ≡ BadSize) ↔ ((seats ≡ 0) ⊎ (16 < seats))) }
    ensures back { IfErr result (λ e. (e.1 ≡ blank) × (e.2 ≡ recorded)) }
{
    if seats == 0 || seats > MAX_SEATS {
        return Err((ShareError::BadSize, blank, recorded));
    }
    let Ok(list) = Vec::with_capacity(alloc, seats as usize) else {
        return Err((ShareError::OutOfMemory, blank, recorded));
    };
    let (book, all) = blank.open::<L>();
    let (list, spare) = cut(all, list, seats);
    let locked = Locked {
        recorded,
        book,
        spare,
        seats,
        has_started: false,
    };
    Ok((
        SharedHost {
            lock: Mutex::new(locked),
            started: Condvar::new(),
        },
        list,
    ))
}

/// A seat for each part of a share, and the share without a part that remains.
fn cut<L: Seating>(all: Share<L>, list: Vec<Seat<L>>, seats: u32) -> (Vec<Seat<L>>, Share<L>)
    requires parts { all.parts ≡ seats }
    requires none { all.amount ≡ 0 }
    requires room { (list.items ≡ []) × (seats ≤ vec_capacity list) }
    ensures spare { result.1.parts ≡ 0 }
    ensures seats { vec_len result.0 ≡ seats }
    ensures fresh { (k : ℕ) → k < seats → slice_get result.0.items k ≡ Some (seat_of k 0) }
{
    let mut all = all;
    let mut list = list;
    for id in 0..seats {
        let share = all.split_off(1, 0);
        list.push_reserved(Seat {
            id,
            count: 0,
            share,
            room: None,
            slices: None,
        });
    }
    (list, all)
}

impl<L: Seating, M: PagedMemory + Drop> SharedHost<L, M> {
    /// Applies an event under the lock and records it; returns a receipt, and the frame that the host made, if any. If
    /// memory runs out or the journal is full, nothing is recorded and the event is handed back. May wait for other
    /// threads.
    pub fn call<R: Wait>(
        &self,
        rt: &R,
        alloc: Global,
        seat: &mut Seat<L>,
        event: HostEvent,
    ) -> Result<(Receipt, Option<Addressed>), (RecordError, HostEvent)>
        ensures receipt { IfOk result (λ r. IsReceipt seat.old event r.0) }
        ensures seat { OnOk result (seat.new ≡ seat_of seat.old.id (seat.old.count + 1)) }
        ensures err { OnErr result (seat.new ≡ seat.old) }
        ensures event { IfErr result (λ e. e.1 ≡ event) }
    {
        let Ok(copy) = event.copy() else {
            return Err((RecordError::OutOfMemory, event));
        };
        let Ok(room) = seat.take_room(alloc) else {
            return Err((RecordError::OutOfMemory, event));
        };
        let mut frame = frame_room(alloc, &event);
        let mut locked = self.hold(rt);
        let had_started = locked.has_started;
        let called = locked.call(alloc, seat, event, copy, room, &mut frame);
        self.wake(had_started, locked.has_started);
        called
    }

    /// Takes the lock. Other threads hold it for a few microseconds, less than it takes a thread to sleep and be
    /// woken, so this tries for a while before it waits.
    fn hold<R: Wait>(&self, rt: &R) -> MutexGuard<'_, Locked<L, M>> {
        for _try in 0..TRIES {
            if let Some(locked) = self.lock.try_lock() {
                return locked;
            }
            spin_loop();
        }
        self.lock.lock(rt)
    }

    /// Wakes those that wait, if the guest has just started to run here.
    fn wake(&self, had_started: bool, has_started: bool) {
        if has_started && !had_started {
            self.started.notify_all();
        }
    }

    /// Waits, at most for `most`, until the reply to some call is that the guest runs here. Returns whether there was
    /// such a reply, even if it was long ago.
    pub fn await_start<R: Wait + Clock>(&self, rt: &R, most: Duration) -> bool {
        let locked = self.lock.lock(rt);
        if locked.has_started {
            return true;
        }
        let (locked, _waited) = self.started.wait_timeout(rt, locked, most);
        locked.has_started
    }

    /// Records a drain of at most `bytes` bytes under the lock, if the guest runs here and the drain finds none;
    /// returns a receipt. Otherwise, or if the journal is full or memory runs out, records nothing and returns None.
    /// May wait for other threads.
    pub fn call_dry<R: Wait>(&self, rt: &R, seat: &mut Seat<L>, bytes: u32) -> Option<Receipt>
        ensures receipt { IfSome result (λ r. IsReceipt seat.old (dry_exchange bytes).event r) }
        ensures reply { IfSome result (λ r. r.reply ≡ (dry_exchange bytes).reply) }
        ensures seat { IfSome result (λ r. seat.new ≡ seat_of seat.old.id (seat.old.count + 1)) }
        ensures none { IfNone result (seat.new ≡ seat.old) }
    {
        self.hold(rt).call_dry(seat, bytes)
    }

    /// Records a slice of at most n steps, 1 to 64, under one hold of the lock, as `Recorded::record_slice` does;
    /// returns a receipt for each step. There are fewer than n only if a step ends the slice or the journal is full.
    /// On an error, nothing is recorded; memory is asked for only if the slice is in range. May wait for other
    /// threads.
    pub fn call_slice<R: Wait>(
        &self,
        rt: &R,
        alloc: Global,
        seat: &mut Seat<L>,
        turn: u32,
        harts: u32,
        n: u32,
    ) -> Result<Vec<ReceiptItem>, SliceError>
        ensures receipts { IfOk result (λ v. AreOfSeat seat.old turn harts (all_of v.items)) }
        ensures steps { IfOk result (λ v. (1 ≤ length (all_of v.items)) × (length (all_of v.items) ≤ n)) }
        ensures whole { IfOk result (λ v. IsWhole L.capacity n (all_of v.items)) }
        ensures seat { IfOk result (λ v. seat.new ≡ seat_of seat.old.id (seat.old.count + length (all_of v.items))) }
        ensures err { OnErr result (seat.new ≡ seat.old) }
        ensures range { (result ≡ Err OutOfRange) ↔ (IsSized harts n → ⊥) }
    {
        if !is_slice_in_range(harts, n) {
            return Err(SliceError::OutOfRange);
        }
        let Ok(receipts) = seat.take_slice_room(alloc) else {
            return Err(SliceError::OutOfMemory);
        };
        self.hold(rt)
            .call_slice(alloc, seat, turn, harts, n, receipts)
    }
}
