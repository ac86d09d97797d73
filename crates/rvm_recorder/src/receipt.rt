//! Receipts.

ghost use Rattle.std.specs.Prelude.{◌≡◌};

use rvm_message::{Exchange, HostReply};
use std::marker::Model;

/// The receipt of a call: the reply, and its place in the journal. It keeps the seat that called, how many calls that
/// seat had made before, and the event.
#[derive(Drop)]
pub struct Receipt {
    pub(crate) place: u32,
    pub(crate) seat: u32,
    pub(crate) count: u64,
    pub(crate) exchange: Exchange,
}

impl Model for Receipt {
    ghost use Rattle.rvm_recorder.specs.Receipts.{PlainReceipt};

    ghost Value = { PlainReceipt };

    ghost view = { λ r. record {
      place = r.place;
      seat = r.seat;
      count = r.count;
      event = r.exchange.event;
      reply = r.exchange.reply;
    } };
}

impl Receipt {
    /// Returns the place of the call in the journal, from 0.
    pub fn place(&self) -> u32
        ensures { result ≡ self.now.place }
    {
        self.place
    }

    /// Returns the reply to the call.
    pub fn reply(&self) -> HostReply
        ensures { result ≡ self.now.reply }
    {
        self.exchange.reply()
    }
}
