//! Where a host began, what it made, what it gave and what it showed.

ghost use Rattle.std.specs.Prelude.{None, Result};
ghost use Rattle.rvm_board.specs.Guest.{Guest};
ghost use Rattle.rvm_host.specs.Hosts.{PlainHost, new_host};
ghost use Rattle.rvm_message.specs.declared.event.HostEvent.{HostEvent};
ghost use Rattle.rvm_message.specs.declared.reply.HostRefusal.{HostRefusal};
ghost use Rattle.rvm_message.specs.declared.reply.HostReply.{HostReply};

use rvm_link::Origin;
use std::marker::{Brand, PhantomData};

/// The host that a process began with.
pub trait Opening {
    ghost opening: { PlainHost };
}

impl Opening for Brand {
    ghost opening = { new_host None 0 2 1 3 };
}

/// A host of which contracts know the frames that it made, the replies that it gave and the guests that it showed. Code
/// that is generic over it has such a fact only from a call of the host, since nothing else states it.
pub trait Hosting: Origin {
    ghost use Rattle.rvm_station.specs.Events.{IsReply};

    /// The host gave this reply to this event.
    ghost gave: { HostEvent → HostReply → Type 0 };

    /// Some host of the protocol gives this reply to this event.
    ghost is_reply: { (event : HostEvent) → (reply : HostReply) → gave event reply → IsReply event reply };

    /// The host showed that its guest was this one, or refused to show it for this reason.
    ghost showed: { Result Guest HostRefusal → Type 0 };
}

/// The host that began with the opening of `L`.
#[derive(Drop)]
pub struct Of<L: Opening> {
    opening: PhantomData<L>,
}

impl<L: Opening> Origin for Of<L> {
    ghost use Rattle.rvm_station.specs.Events.{IsMade};

    ghost is_made = { IsMade L.opening };
}

impl<L: Opening> Hosting for Of<L> {
    ghost use Rattle.rvm_station.specs.Events.{IsAnswer, reply_in};
    ghost use Rattle.rvm_station.specs.Looks.{IsShown};

    ghost gave = { IsAnswer L.opening };

    ghost is_reply = { reply_in L.opening };

    ghost showed = { IsShown L.opening };
}
