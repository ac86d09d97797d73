//! Seats: the right to call a host, and the number of its calls.

ghost use Rattle.std.specs.Prelude.{◌≡◌, ◌≤◌, ℕ, [], IfOk, None, vec_capacity};
ghost use Rattle.rvm_host.specs.Hosts.{PlainHost, new_host};
ghost use Rattle.rvm_message.specs.Exchanges.{exchange};

use crate::items::ReceiptItem;
use crate::slice::MAX_SLICE;
use rvm_message::{Exchange, ExchangeRoom, HostEvent, HostReply};
use std::alloc::{AllocError, Global};
use std::marker::{Brand, Model};
use std::sync::ledger::{Ledger, Share};

/// The ledger of one shared host, which counts the calls of all its seats; there are `seats` of them. The host was
/// `opening` when its journal was opened, and the journal takes `capacity` entries.
pub trait Seating: Ledger {
    ghost seats: { ℕ };

    ghost opening: { PlainHost };

    ghost capacity: { ℕ };
}

impl Seating for Brand {
    ghost seats = { 0 };

    ghost opening = { new_host None 0 2 1 1 };

    ghost capacity = { 0 };
}

/// A seat: the right of one caller to call a shared host, and the number of its calls.
#[derive(Drop)]
pub struct Seat<L: Seating> {
    pub(crate) id: u32,
    pub(crate) count: u64,
    pub(crate) share: Share<L>,
    /// Room for an exchange that an earlier call did not need.
    pub(crate) room: Option<ExchangeRoom>,
    /// Room for the receipts of a slice that was given back.
    pub(crate) slices: Option<Vec<ReceiptItem>>,
}

impl<L: Seating> Model for Seat<L> {
    ghost use Rattle.std.specs.Prelude.{◌≡◌};
    ghost use Rattle.rvm_recorder.specs.Seats.{PlainSeat};

    ghost Value = { PlainSeat };

    ghost view = { λ s. record { id = s.id; count = s.count } };

    ghost invariant = { λ s. (s.share.parts ≡ 1) × (s.share.amount ≡ s.count) };
}

impl<L: Seating> Seat<L> {
    /// Returns the number of the seat among those of its host, from 0.
    pub fn id(&self) -> u32
        ensures { result ≡ self.now.id }
    {
        let _count = self.count;
        self.id
    }

    /// Takes the seat's room for an exchange, or allocates one.
    pub(crate) fn take_room(&mut self, alloc: Global) -> Result<ExchangeRoom, AllocError>
        ensures { self.new ≡ self.old }
    {
        match self.room.take() {
            Some(room) => Ok(room),
            None => ExchangeRoom::new(alloc),
        }
    }

    /// Takes the seat's room for the receipts of a slice, if it is empty and large enough, else allocates it.
    pub(crate) fn take_slice_room(&mut self, alloc: Global) -> Result<Vec<ReceiptItem>, AllocError>
        ensures same { self.new ≡ self.old }
        ensures room { IfOk result (λ v. (v.items ≡ []) × (64 ≤ vec_capacity v)) }
    {
        if let Some(room) = self.slices.take() {
            if room.is_empty() && room.capacity() >= MAX_SLICE as usize {
                return Ok(room);
            }
        }
        Vec::with_capacity(alloc, MAX_SLICE as usize)
    }

    /// Keeps the room of a slice's receipts for the next slice, once the receipts are taken out of it.
    pub fn give_back(&mut self, room: Vec<ReceiptItem>)
        ensures { self.new ≡ self.old }
    {
        self.slices = Some(room);
    }

    /// The seat's share of the ledger.
    pub(crate) fn into_share(self) -> Share<L>
        ensures parts { result.parts ≡ 1 }
        ensures amount { result.amount ≡ self.count }
    {
        let Seat {
            id: _,
            count: _,
            share,
            ..
        } = self;
        share
    }
}

/// The exchange of an event and the reply to it. If it fits in a few bytes, `room` is kept in `spare`.
pub(crate) fn keep(
    spare: &mut Option<ExchangeRoom>,
    room: ExchangeRoom,
    event: HostEvent,
    reply: HostReply,
) -> Exchange
    ensures { result ≡ exchange event reply }
{
    if Exchange::is_small(&event, &reply) {
        *spare = Some(room);
        return Exchange::small(event, &reply);
    }
    Exchange::new(room, event, reply)
}
