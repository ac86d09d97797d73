//! An event of a host and the reply to it.

ghost use Rattle.std.specs.Prelude.{◌≡◌, ◌↔◌, [], true};
ghost use Rattle.rvm_message.specs.declared.event.HostEvent.TheVariants.{Came, Do};
ghost use Rattle.rvm_message.specs.Exchanges.{copied_exchange, dry_exchange, exchange, exchange_in, is_small, pair_exchange, plain_of, step_exchange, stored_exchange, tells_nothing};

use crate::event::{Command, HostEvent};
use crate::reply::HostReply;
use crate::shared::Shared;
use crate::step::StepReply;
use rvm_board::{BoardEvent, BoardReply, View};
use rvm_frame::Frame;
use std::alloc::{AllocError, Global};
use std::marker::Model;

/// An event of a host and the reply to it. The most frequent ones are kept in a few bytes: a step of a hart, a drain
/// that found nothing, a copy of a page, and a copy that came and was stored. Any other exchange is kept in a box.
#[derive(Drop)]
pub struct Exchange {
    kept: Kept,
}

/// How an exchange is kept.
#[derive(Drop)]
enum Kept {
    Step {
        hart: u32,
        reply: StepReply,
    },
    /// A drain of at most this many bytes, which found none.
    Dry(u32),
    /// Copy, which copied this page.
    Copied {
        page: u16,
        copy_number: u32,
    },
    /// A frame that came, and was stored as a copy of this page.
    Stored {
        from: u8,
        page: u16,
        copy_number: u32,
        frame: Shared<Frame>,
    },
    Other(Box<Pair>),
}

/// An event and the reply to it.
#[derive(Drop)]
struct Pair {
    event: HostEvent,
    reply: HostReply,
}

/// Room for any one exchange, allocated beforehand.
#[derive(Drop)]
pub struct ExchangeRoom {
    place: Box<Pair>,
}

/// A view of an exchange.
#[derive(Clone, Copy)]
pub enum ExchangeRef<'a> {
    /// A step of a hart.
    Step {
        hart: u32,
        reply: StepReply,
    },
    /// A drain of at most this many bytes, which found none.
    Dry(u32),
    /// Copy, which copied this page.
    Copied {
        page: u16,
        copy_number: u32,
    },
    /// A frame that came from host `from`, and was stored as a copy of this page.
    Stored {
        from: u8,
        frame: &'a Shared<Frame>,
        page: u16,
        copy_number: u32,
    },
    /// Any event and the reply to it.
    Other {
        event: &'a HostEvent,
        reply: &'a HostReply,
    },
}

impl Model for Exchange {
    ghost use Rattle.rvm_message.specs.Exchanges.{PlainExchange};

    ghost Value = { PlainExchange };

    // It comes after `Value`, since it reads a type of this crate.
    ghost use Rattle.rvm_message.specs.Exchanges.{plain_of};

    ghost view = { λ x. plain_of x.kept };
}

impl ExchangeRoom {
    /// Allocates room for one exchange; fails if memory runs out.
    pub fn new(alloc: Global) -> Result<ExchangeRoom, AllocError> {
        let blank = Pair {
            event: HostEvent::Do(Command::Copy),
            reply: HostReply::Noted,
        };
        Ok(ExchangeRoom {
            place: Box::new(alloc, blank)?,
        })
    }
}

impl Exchange {
    /// Makes the exchange of a step of this hart and the reply to it. Takes no memory.
    pub fn of_step(hart: u32, reply: StepReply) -> Exchange
        ensures { result ≡ step_exchange hart reply }
    {
        Exchange {
            kept: Kept::Step { hart, reply },
        }
    }

    /// Makes the exchange of a drain of at most `count` bytes that found none. Takes no memory.
    pub fn dry(count: u32) -> Exchange
        ensures { result ≡ dry_exchange count }
    {
        Exchange {
            kept: Kept::Dry(count),
        }
    }

    /// Whether `small` takes this event and its reply, so that they need no room: a drain that found nothing, a copy of
    /// a page, or a frame that was stored. For a step, which needs no room either, there is `of_step`.
    pub fn is_small(event: &HostEvent, reply: &HostReply) -> bool
        ensures { result ≡ is_small event.now reply.now }
    {
        match event {
            HostEvent::Do(command) => is_small_command(command, reply),
            HostEvent::Came(_, _) => matches!(reply, HostReply::Stored { .. }),
        }
    }

    /// Makes an exchange of an event and its reply for which `is_small` holds, in a few bytes. Takes no memory.
    pub fn small(event: HostEvent, reply: &HostReply) -> Exchange
        requires { is_small event reply.now ≡ true }
        ensures { result ≡ exchange event reply.now }
    {
        let kept = match event {
            HostEvent::Do(command) => kept_command(&command, reply),
            HostEvent::Came(from, frame) => kept_store(from, frame, reply),
        };
        Exchange { kept }
    }

    /// Makes an exchange of any event and the reply to it, in room allocated beforehand. Allocates nothing.
    pub fn new(room: ExchangeRoom, event: HostEvent, reply: HostReply) -> Exchange
        ensures { result ≡ exchange event reply }
    {
        if Exchange::is_small(&event, &reply) {
            return Exchange::small(event, &reply);
        }
        let mut place = room.place;
        *place = Pair { event, reply };
        Exchange {
            kept: Kept::Other(place),
        }
    }

    /// Returns a view of the event and the reply.
    pub fn look(&self) -> ExchangeRef<'_>
        ensures { exchange_in result ≡ self.now }
    {
        match &self.kept {
            Kept::Step { hart, reply } => ExchangeRef::Step {
                hart: *hart,
                reply: *reply,
            },
            Kept::Dry(count) => ExchangeRef::Dry(*count),
            Kept::Copied { page, copy_number } => ExchangeRef::Copied {
                page: *page,
                copy_number: *copy_number,
            },
            Kept::Stored {
                from,
                page,
                copy_number,
                frame,
            } => ExchangeRef::Stored {
                from: *from,
                frame,
                page: *page,
                copy_number: *copy_number,
            },
            Kept::Other(pair) => ExchangeRef::Other {
                event: &pair.event,
                reply: &pair.reply,
            },
        }
    }

    /// Returns a copy of the reply. Takes no memory.
    pub fn reply(&self) -> HostReply
        ensures { result ≡ self.now.reply }
    {
        match &self.kept {
            Kept::Step { hart: _, reply } => reply.reply(),
            Kept::Dry(_) => nothing_drained(),
            Kept::Copied { page, copy_number } => HostReply::Copied {
                page: *page,
                copy_number: *copy_number,
            },
            Kept::Stored {
                from: _,
                page,
                copy_number,
                frame: _,
            } => HostReply::Stored {
                page: *page,
                copy_number: *copy_number,
            },
            Kept::Other(pair) => pair.reply.copy(),
        }
    }

    /// Whether two exchanges have equal events and equal replies, however they are kept.
    pub fn is_same(&self, other: &Exchange) -> bool
        ensures { (result ≡ true) ↔ (self.now ≡ other.now) }
    {
        match (&self.kept, &other.kept) {
            (Kept::Other(pair), kept) => is_kept(kept, pair),
            (kept, Kept::Other(pair)) => is_kept(kept, pair),
            (
                Kept::Step { hart, reply },
                Kept::Step {
                    hart: other_hart,
                    reply: other_reply,
                },
            ) => *hart == *other_hart && *reply == *other_reply,
            (Kept::Dry(count), Kept::Dry(other)) => *count == *other,
            (
                Kept::Copied { page, copy_number },
                Kept::Copied {
                    page: other_page,
                    copy_number: other_number,
                },
            ) => *page == *other_page && *copy_number == *other_number,
            (
                Kept::Stored {
                    from,
                    page,
                    copy_number,
                    frame,
                },
                Kept::Stored {
                    from: other_from,
                    page: other_page,
                    copy_number: other_number,
                    frame: other_frame,
                },
            ) => {
                *from == *other_from
                    && *page == *other_page
                    && *copy_number == *other_number
                    && frame == other_frame
            }
            _ => false,
        }
    }
}

/// The reply to a drain that found nothing.
fn nothing_drained() -> HostReply
    ensures { result ≡ HostReply.Board (BoardReply.Bytes []) }
{
    HostReply::Board(BoardReply::Bytes(View::empty()))
}

/// Whether a command and the reply to it are small.
fn is_small_command(command: &Command, reply: &HostReply) -> bool
    ensures { result ≡ is_small (Do command.now) reply.now }
{
    match command {
        Command::Copy => matches!(reply, HostReply::Copied { .. }),
        Command::Board(event) => is_dry(event, reply),
        _ => false,
    }
}

/// Whether an event of the guest is a drain, and the reply says that it found nothing.
fn is_dry(event: &BoardEvent, reply: &HostReply) -> bool
    ensures { result ≡ is_small (Do (Command.Board event.now)) reply.now }
{
    match event {
        BoardEvent::Drain(_) => tells_nothing(reply),
        _ => false,
    }
}

/// Whether a reply is a drain's, with no bytes.
fn tells_nothing(reply: &HostReply) -> bool
    ensures { result ≡ tells_nothing reply.now }
{
    match reply {
        HostReply::Board(BoardReply::Bytes(bytes)) => bytes.as_slice().is_empty(),
        _ => false,
    }
}

/// What is kept of a small exchange of a command.
fn kept_command(command: &Command, reply: &HostReply) -> Kept
    requires { is_small (Do command.now) reply.now ≡ true }
    ensures { plain_of result ≡ exchange (Do command.now) reply.now }
{
    match command {
        Command::Copy => kept_copy(reply),
        Command::Board(event) => kept_drain(event, reply),
        _ => unreachable!(),
    }
}

/// What is kept of a drain that found nothing.
fn kept_drain(event: &BoardEvent, reply: &HostReply) -> Kept
    requires { is_small (Do (Command.Board event.now)) reply.now ≡ true }
    ensures { plain_of result ≡ exchange (Do (Command.Board event.now)) reply.now }
{
    let BoardEvent::Drain(count) = event else {
        unreachable!();
    };
    know_nothing(reply);
    Kept::Dry(*count)
}

/// Proves that the reply of a drain with no bytes equals the one that `nothing_drained` returns.
#[tactic(auto, using(crate::proofs::Dry::no_bytes))]
fn know_nothing(reply: &HostReply)
    requires { tells_nothing reply.now ≡ true }
    ensures { reply.now ≡ HostReply.Board (BoardReply.Bytes []) }
{
    let HostReply::Board(answer) = reply else {
        unreachable!();
    };
    let BoardReply::Bytes(_bytes) = answer else {
        unreachable!();
    };
}

/// What is kept of Copy that copied a page.
fn kept_copy(reply: &HostReply) -> Kept
    requires { is_small (Do Command.Copy) reply.now ≡ true }
    ensures { plain_of result ≡ exchange (Do Command.Copy) reply.now }
{
    let HostReply::Copied { page, copy_number } = reply else {
        unreachable!();
    };
    Kept::Copied {
        page: *page,
        copy_number: *copy_number,
    }
}

/// What is kept of a frame that came and was stored.
fn kept_store(from: u8, frame: Shared<Frame>, reply: &HostReply) -> Kept
    requires { is_small (Came from frame) reply.now ≡ true }
    ensures { plain_of result ≡ exchange (Came from frame) reply.now }
{
    let HostReply::Stored { page, copy_number } = reply else {
        unreachable!();
    };
    Kept::Stored {
        from,
        page: *page,
        copy_number: *copy_number,
        frame,
    }
}

/// Whether what is kept is the exchange of a pair.
fn is_kept(kept: &Kept, pair: &Pair) -> bool
    ensures { (result ≡ true) ↔ (plain_of kept.now ≡ pair_exchange pair.now) }
{
    match kept {
        Kept::Step { hart, reply } => is_step(pair, *hart, *reply),
        Kept::Dry(count) => is_dry_pair(pair, *count),
        Kept::Copied { page, copy_number } => is_copied(pair, *page, *copy_number),
        Kept::Stored {
            from,
            page,
            copy_number,
            frame,
        } => is_stored(pair, *from, frame, *page, *copy_number),
        Kept::Other(own) => is_same(&own.event, &own.reply, &pair.event, &pair.reply),
    }
}

/// Whether a pair is a step of a hart with this reply.
fn is_step(pair: &Pair, hart: u32, reply: StepReply) -> bool
    ensures { (result ≡ true) ↔ (step_exchange hart reply ≡ pair_exchange pair.now) }
{
    let event = HostEvent::Do(Command::Board(BoardEvent::Step(hart)));
    is_same(&event, &reply.reply(), &pair.event, &pair.reply)
}

/// Whether a pair is a drain of at most this many bytes that found none.
fn is_dry_pair(pair: &Pair, count: u32) -> bool
    ensures { (result ≡ true) ↔ (dry_exchange count ≡ pair_exchange pair.now) }
{
    let event = HostEvent::Do(Command::Board(BoardEvent::Drain(count)));
    is_same(&event, &nothing_drained(), &pair.event, &pair.reply)
}

/// Whether a pair is Copy, which copied this page.
fn is_copied(pair: &Pair, page: u16, copy_number: u32) -> bool
    ensures { (result ≡ true) ↔ (copied_exchange page copy_number ≡ pair_exchange pair.now) }
{
    let event = HostEvent::Do(Command::Copy);
    let reply = HostReply::Copied { page, copy_number };
    is_same(&event, &reply, &pair.event, &pair.reply)
}

/// Whether a pair is this frame from host `from`, stored as a copy of this page.
fn is_stored(pair: &Pair, from: u8, frame: &Shared<Frame>, page: u16, copy_number: u32) -> bool
    ensures { (result ≡ true) ↔ (stored_exchange from frame.now page copy_number ≡ pair_exchange pair.now) }
{
    let reply = HostReply::Stored { page, copy_number };
    match &pair.event {
        HostEvent::Came(other, came) => from == *other && frame == came && reply == pair.reply,
        HostEvent::Do(_) => false,
    }
}

/// Whether two events are equal, and so are their replies.
fn is_same(
    event: &HostEvent,
    reply: &HostReply,
    other_event: &HostEvent,
    other_reply: &HostReply,
) -> bool
    ensures { (result ≡ true) ↔ (exchange event.now reply.now ≡ exchange other_event.now other_reply.now) }
{
    event == other_event && reply == other_reply
}
