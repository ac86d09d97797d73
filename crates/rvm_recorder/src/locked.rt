//! What lies under the lock of a shared host.

ghost use Rattle.std.specs.Prelude.{◌≡◌, ◌+◌, ◌<◌, ◌≤◌, ◌^◌, [], length, IfNone, IfOk, IfErr, IfSome, None, OnOk, OnErr, vec_capacity};
ghost use Rattle.rvm_recorder.specs.Calls.{AreReceipts, IsCalled, IsSliceCalled, IsWhole, replies_of};
ghost use Rattle.rvm_recorder.specs.Runs.{all_of};
ghost use Rattle.rvm_recorder.specs.Seats.{seat_of};
ghost use Rattle.rvm_recorder.specs.Errors.{IsRecordError, IsSized, IsSliceError};
ghost use Rattle.rvm_recorder.specs.History.{count_of};
ghost use Rattle.rvm_recorder.specs.Slices.{IsSteps};
ghost use Rattle.rvm_message.specs.Exchanges.{dry_exchange};

use crate::error::{RecordError, SliceError};
use crate::items::{ReceiptItem, push_run};
use crate::receipt::Receipt;
use crate::recorded::Recorded;
use crate::seat::{Seat, Seating, keep};
use crate::shared::SharedHost;
use rvm_frame::Addressed;
use rvm_mem::PagedMemory;
use rvm_message::{Exchange, ExchangeRoom, HostEvent, HostReply};
use std::alloc::Global;
use std::marker::Model;
use std::sync::ledger::{Book, Share};
use std::sync::{Condvar, Mutex};

/// A recorded host and the ledger's book, whose total is the number of entries of the journal.
#[derive(Drop)]
pub struct Locked<L: Seating, M: PagedMemory + Drop> {
    pub(crate) recorded: Recorded<M>,
    pub(crate) book: Book<L>,
    /// A share without a part, with which `close` merges the others.
    pub(crate) spare: Share<L>,
    pub(crate) seats: u32,
    /// Whether the reply to any call was that the guest runs here.
    pub(crate) has_started: bool,
}

impl<L: Seating, M: PagedMemory + Drop> Model for Locked<L, M> {
    ghost use Rattle.std.specs.Prelude.{◌≡◌};
    ghost use Rattle.rvm_recorder.specs.History.{Recording, count_of};

    ghost Value = { Recording };

    ghost view = { λ l. l.recorded };

    ghost invariant = { λ l. (l.seats ≡ L.seats) × (l.book.total ≡ count_of l.recorded) × (l.spare.parts ≡ 0)
        × (l.recorded.journal.opening ≡ L.opening) × (l.recorded.capacity ≡ L.capacity) };
}

impl<L: Seating, M: PagedMemory + Drop> Locked<L, M> {
    /// Returns the recorded host.
    pub fn recorded(&self) -> &Recorded<M>
        ensures { result.now ≡ self.now }
    {
        &self.recorded
    }

    /// Takes the recorded host out of its lock.
    pub fn into_recorded(self) -> Recorded<M>
        ensures recorded { result ≡ self }
        ensures opening { result.journal.opening ≡ L.opening }
    {
        self.recorded
    }

    /// Shares the host again, for the same seats.
    pub fn share_again(self) -> SharedHost<L, M> {
        SharedHost {
            lock: Mutex::new(self),
            started: Condvar::new(),
        }
    }

    /// Records an event for a seat. `copy` is the same event, for the receipt, which may take `room`; the bytes of the
    /// event's frame may take `frame`.
    pub(crate) fn call(
        &mut self,
        alloc: Global,
        seat: &mut Seat<L>,
        event: HostEvent,
        copy: HostEvent,
        room: ExchangeRoom,
        frame: &mut Vec<u8>,
    ) -> Result<(Receipt, Option<Addressed>), (RecordError, HostEvent)>
        requires { copy ≡ event }
        ensures called { IfOk result (λ r. IsCalled self.old seat.old event r self.new) }
        ensures seat { OnOk result (seat.new ≡ seat_of seat.old.id (seat.old.count + 1)) }
        ensures err { OnErr result ((self.new ≡ self.old) × (seat.new ≡ seat.old)) }
        ensures event { IfErr result (λ e. e.1 ≡ event) }
        ensures fault { IfErr result (λ e. IsRecordError e.0 (count_of self.old) self.old.capacity) }
    {
        let Locked {
            recorded,
            book,
            has_started,
            ..
        } = self;
        let Seat {
            id,
            count,
            share,
            room: spare,
            slices: _,
        } = seat;
        book.audit(share);
        match recorded.record_into(alloc, event, frame) {
            Err(e) => Err(e),
            Ok((place, reply, frame)) => {
                book.add(share, 1);
                *has_started = *has_started || is_start(&reply);
                let receipt = Receipt {
                    place,
                    seat: *id,
                    count: *count,
                    exchange: keep(spare, room, copy, reply),
                };
                *count += 1;
                Ok((receipt, frame))
            }
        }
    }

    /// Records a drain of at most `bytes` bytes for a seat, as `Recorded::record_dry` does.
    pub(crate) fn call_dry(&mut self, seat: &mut Seat<L>, bytes: u32) -> Option<Receipt>
        ensures called { IfSome result (λ r. IsCalled self.old seat.old (dry_exchange bytes).event (r, None) self.new) }
        ensures reply { IfSome result (λ r. r.reply ≡ (dry_exchange bytes).reply) }
        ensures seat { IfSome result (λ r. seat.new ≡ seat_of seat.old.id (seat.old.count + 1)) }
        ensures none { IfNone result ((self.new ≡ self.old) × (seat.new ≡ seat.old)) }
    {
        let Locked { recorded, book, .. } = self;
        let Seat {
            id,
            count,
            share,
            ..
        } = seat;
        book.audit(share);
        match recorded.record_dry(bytes) {
            None => None,
            Some(place) => {
                book.add(share, 1);
                let receipt = Receipt {
                    place,
                    seat: *id,
                    count: *count,
                    exchange: Exchange::dry(bytes),
                };
                *count += 1;
                Some(receipt)
            }
        }
    }

    /// Records a slice for a seat, as `Recorded::record_slice` does. `receipts` has room for its receipts.
    pub(crate) fn call_slice(
        &mut self,
        alloc: Global,
        seat: &mut Seat<L>,
        turn: u32,
        harts: u32,
        n: u32,
        receipts: Vec<ReceiptItem>,
    ) -> Result<Vec<ReceiptItem>, SliceError>
        requires { (receipts.items ≡ []) × (64 ≤ vec_capacity receipts) }
        ensures called { IfOk result (λ v. IsSliceCalled self.old seat.old turn harts n (all_of v.items) self.new) }
        ensures whole { IfOk result (λ v. IsWhole L.capacity n (all_of v.items)) }
        ensures seat { IfOk result (λ v. seat.new ≡ seat_of seat.old.id (seat.old.count + length (all_of v.items))) }
        ensures err { OnErr result ((self.new ≡ self.old) × (seat.new ≡ seat.old)) }
        ensures fault { IfErr result (λ e. IsSliceError e harts n (count_of self.old) self.old.capacity) }
        ensures sized { OnOk result (IsSized harts n) }
    {
        let Locked { recorded, book, .. } = self;
        let Seat {
            id,
            count,
            share,
            ..
        } = seat;
        book.audit(share);
        let most = recorded.room_for_slice(alloc, harts, n)?;
        let mut receipts = receipts;
        let steps = record_receipts(recorded, *id, *count, turn, harts, most, &mut receipts);
        book.add(share, u64::from(steps));
        *count += u64::from(steps);
        Ok(receipts)
    }
}

/// Whether a reply says that the guest runs here from now on.
fn is_start(reply: &HostReply) -> bool {
    matches!(reply, HostReply::Started)
}

/// Records the steps of a slice, for which there is room, and makes a receipt for each. Returns how many were made.
fn record_receipts<M: PagedMemory + Drop>(
    recorded: &mut Recorded<M>,
    seat: u32,
    count: u64,
    turn: u32,
    harts: u32,
    most: u32,
    receipts: &mut Vec<ReceiptItem>,
) -> u32
    requires harts { 1 ≤ harts }
    requires some { (1 ≤ most) × (most ≤ 64) }
    requires reserved { most ≤ recorded.old.journal.reserved }
    requires places { count_of recorded.old + most < 2 ^ 32 }
    requires counts { count + most < 2 ^ 64 }
    requires room { (receipts.old.items ≡ []) × (most ≤ vec_capacity receipts.old) }
    ensures steps { IsSteps recorded.old turn harts most (replies_of (all_of receipts.new.items)) recorded.new }
    ensures receipts { AreReceipts (seat_of seat count) (count_of recorded.old) turn harts (all_of receipts.new.items) }
    ensures count { result ≡ length (all_of receipts.new.items) }
    ensures few { result ≤ most }
{
    let place = recorded.count();
    let mut made = 0;
    while made < most {
        let at = u64::from(turn) + u64::from(made);
        let run = recorded.record_run(at, harts, most - made);
        let calls = count + u64::from(made);
        push_run(receipts, place + made, seat, calls, at, harts, run);
        made += run.count();
        if run.ends_steps() {
            return made;
        }
    }
    made
}
