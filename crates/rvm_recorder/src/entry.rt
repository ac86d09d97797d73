//! An entry of a journal.

ghost use Rattle.std.specs.Prelude.{◌≡◌, None};
ghost use Rattle.rvm_recorder.specs.Entries.{exchange_of, silent};
ghost use Rattle.rvm_message.specs.Exchanges.{dry_exchange, step_of_hart};
ghost use Rattle.rvm_message.specs.Steps.{reply_to_step};

use crate::frame_bytes::FrameBytes;
use rvm_message::{Exchange, StepReply};
use std::marker::Model;

/// An entry of a journal: an event of a host, its reply, and the bytes of the frame that it made, if any.
#[derive(Drop)]
pub struct Entry {
    pub(crate) exchange: Exchange,
    pub(crate) frame: Option<FrameBytes>,
}

impl Model for Entry {
    ghost use Rattle.rvm_recorder.specs.Entries.{PlainEntry};

    ghost Value = { PlainEntry };

    ghost view = { λ e. record { event = e.exchange.event; reply = e.exchange.reply; frame = e.frame } };
}

impl Entry {
    /// The entry of a step of a hart. Takes no memory.
    pub(crate) fn of_step(hart: u32, reply: StepReply) -> Entry
        ensures { result ≡ silent (step_of_hart hart) (reply_to_step reply) }
    {
        Entry {
            exchange: Exchange::of_step(hart, reply),
            frame: None,
        }
    }

    /// The entry of a drain of at most `count` bytes that found none. Takes no memory.
    pub(crate) fn of_dry(count: u32) -> Entry
        ensures { result ≡ silent (dry_exchange count).event (dry_exchange count).reply }
    {
        Entry {
            exchange: Exchange::dry(count),
            frame: None,
        }
    }

    /// Returns the event and the reply.
    pub fn exchange(&self) -> &Exchange
        ensures { result.now ≡ exchange_of self.now }
    {
        &self.exchange
    }

    /// Returns the bytes of the frame that the event made, if any.
    pub fn frame(&self) -> &Option<FrameBytes>
        ensures { result.now ≡ self.now.frame }
    {
        &self.frame
    }
}
