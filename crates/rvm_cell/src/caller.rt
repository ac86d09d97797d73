//! A worker's seat.

ghost use Rattle.std.specs.Prelude.{◌≡◌, ◌+◌, ◌<◌, ◌≤◌, ◌++◌, [], true, false, IfErr, IfOk, OnErr, vec_capacity, vec_len};
ghost use Rattle.rvm_recorder.specs.Runs.{all_of};
ghost use Rattle.rvm_message.specs.Exchanges.{dry_exchange};
ghost use Rattle.rvm_cell.specs.Ends.{is_short_of_room, is_unsliced};
ghost use Rattle.rvm_cell.specs.Work.{IsCall, IsSliceCall, IsWork};

use crate::end::{WorkEnd, Worked};
use crate::heap;
use crate::steps::{SliceSteps, steps_of};
use rvm_frame::Addressed;
use rvm_mem::PagedMemory;
use rvm_message::{HostEvent, HostReply};
use rvm_recorder::{ReceiptItem, Seat, Seating, SharedHost, push_receipt};
use std::alloc::Global;
use std::marker::Model;
use std::snapshot::Snapshot;
use std::sync::Wait;

/// A worker's seat at a host, with the receipts of its calls there. Contracts also see the seat as it was before the
/// first of these calls.
#[derive(Drop)]
pub struct Caller<L: Seating> {
    first: Snapshot<Seat<L>>,
    seat: Seat<L>,
    receipts: Vec<ReceiptItem>,
}

impl<L: Seating> Model for Caller<L> {
    ghost use Rattle.std.specs.Prelude.{◌≡◌};
    ghost use Rattle.rvm_recorder.specs.Runs.{all_of};
    ghost use Rattle.rvm_cell.specs.Work.{IsWork, PlainCaller};

    ghost Value = { PlainCaller };

    ghost view = { λ c. record {
      start = c.first.value;
      seat = c.seat;
      receipts = all_of c.receipts.items;
    } };

    ghost invariant = { λ c. IsWork c.first.value c.seat (all_of c.receipts.items) };
}

impl<L: Seating> Caller<L> {
    /// The caller with this seat, before its first call.
    pub fn new(alloc: Global, seat: Seat<L>) -> Caller<L>
        ensures { result ≡ record { start = seat; seat = seat; receipts = [] } }
    {
        Caller {
            first: Snapshot::of(&seat),
            seat,
            receipts: Vec::new(alloc),
        }
    }

    /// The seat, and the receipts of its calls in order.
    pub fn into_parts(self) -> (Seat<L>, Vec<ReceiptItem>)
        ensures work { IsWork self.start result.0 (all_of result.1.items) }
        ensures receipts { all_of result.1.items ≡ self.receipts }
    {
        let Caller {
            first: _,
            seat,
            receipts,
        } = self;
        (seat, receipts)
    }

    /// What a worker gives back that ends with `end`.
    pub(crate) fn end(self, end: WorkEnd) -> Worked<L>
        ensures work { IsWork self.start result.seat (all_of result.receipts.items) }
        ensures receipts { all_of result.receipts.items ≡ self.receipts }
        ensures end { result.end ≡ end }
    {
        let (seat, receipts) = self.into_parts();
        Worked {
            seat,
            receipts,
            end,
        }
    }

    /// Makes a call and keeps its receipt. Returns the reply, and the frame that the host made, if it made one. If
    /// memory runs out or the journal is full, no call is made.
    pub fn call<M: PagedMemory + Drop, R: Wait>(
        &mut self,
        rt: &R,
        alloc: Global,
        host: &SharedHost<L, M>,
        event: HostEvent,
    ) -> Result<(HostReply, Option<Addressed>), WorkEnd>
        ensures start { self.new.start ≡ self.old.start }
        ensures call { IfOk result (λ r. IsCall self.old.seat event self.old.receipts
            self.new.seat self.new.receipts r.0) }
        ensures err { OnErr result (self.new ≡ self.old) }
        ensures room { IfErr result (λ e. is_short_of_room e ≡ true) }
    {
        if self.receipts.len() % heap::CALLS_PER_BLOCK == 0 {
            heap::grow(alloc);
        }
        if self.receipts.reserve(1).is_err() {
            return Err(WorkEnd::OutOfMemory);
        }
        match host.call(rt, alloc, &mut self.seat, event) {
            Err((why, _event)) => Err(WorkEnd::from(why)),
            Ok((receipt, frame)) => {
                let reply = receipt.reply();
                push_receipt(&mut self.receipts, receipt);
                Ok((reply, frame))
            }
        }
    }

    /// Makes a drain of at most this many bytes if it finds none, and keeps its receipt. Returns whether it made the
    /// drain. If there are bytes, the guest does not run there, memory runs out or the journal is full, it makes no
    /// call.
    pub fn dry<M: PagedMemory + Drop, R: Wait>(
        &mut self,
        rt: &R,
        host: &SharedHost<L, M>,
        bytes: u32,
    ) -> bool
        ensures start { self.new.start ≡ self.old.start }
        ensures call { result ≡ true → IsCall self.old.seat (dry_exchange bytes).event self.old.receipts
            self.new.seat self.new.receipts (dry_exchange bytes).reply }
        ensures none { result ≡ false → self.new ≡ self.old }
    {
        if self.receipts.reserve(1).is_err() {
            return false;
        }
        match host.call_dry(rt, &mut self.seat, bytes) {
            None => false,
            Some(receipt) => {
                push_receipt(&mut self.receipts, receipt);
                true
            }
        }
    }

    /// Makes a slice of at most `n` steps and keeps its receipts. Returns the steps that it made. If the slice is
    /// refused or memory runs out, it makes no call.
    #[tactic(auto, using(rvm_recorder::proofs::Tellings::few_items, crate::proofs::Endings::unsliced))]
    pub fn slice<M: PagedMemory + Drop, R: Wait>(
        &mut self,
        rt: &R,
        alloc: Global,
        host: &SharedHost<L, M>,
        turn: u32,
        harts: u32,
        n: u32,
    ) -> Result<SliceSteps, WorkEnd>
        ensures start { self.new.start ≡ self.old.start }
        ensures slice { IfOk result (λ s. IsSliceCall self.old.seat L.capacity turn harts n self.old.receipts
            self.new.seat self.new.receipts s) }
        ensures within { IfOk result (λ s. s.count ≤ n) }
        ensures err { OnErr result (self.new ≡ self.old) }
        ensures refused { IfErr result (λ e. is_unsliced e ≡ true) }
    {
        if self.receipts.reserve(n as usize).is_err() {
            return Err(WorkEnd::OutOfMemory);
        }
        let receipts = host.call_slice(rt, alloc, &mut self.seat, turn, harts, n)?;
        let steps = steps_of(receipts.as_slice());
        let room = append(&mut self.receipts, receipts);
        self.seat.give_back(room);
        Ok(steps)
    }
}

/// Appends receipts to others, which have room for them. Returns the list that they stood in, now empty.
fn append(all: &mut Vec<ReceiptItem>, more: Vec<ReceiptItem>) -> Vec<ReceiptItem>
    requires { vec_len all.old + vec_len more ≤ vec_capacity all.old }
    ensures { all_of all.new.items ≡ all_of all.old.items ++ all_of more.items }
{
    let mut more = more;
    if all.append(&mut more).is_err() {
        unreachable!();
    }
    more
}
