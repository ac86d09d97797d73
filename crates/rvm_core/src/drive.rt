//! A move that is driven from its beginning to its end.

ghost use Rattle.std.specs.Prelude.{◌≡◌, ◌+◌, ◌^◌, ◌<◌, ◌≤◌, ℕ, true, Ok, Err, IfOk, OnOk, OnErr};
ghost use Rattle.rvm_guest.specs.TheGuest.{board};
ghost use Rattle.rvm_message.specs.Replies.{refusal_of, reply_of};
ghost use Rattle.rvm_precopy.specs.Policies.{policy_of};
ghost use Rattle.rvm_protocol.specs.Replies.{Begun, Refused};
ghost use Rattle.rvm_protocol.specs.World.{run};
ghost use Rattle.rvm_core.specs.Driving.{DrivesTo, WasLeft};
ghost use Rattle.rvm_core.specs.NeverMoved.{NeverMoved};
ghost use Rattle.rvm_core.specs.Phases.{IsRound, IsRoundLeft, IsSent, IsSentLeft, IsState, IsStateLeft, begins_or_not, copies, deliveries, frames_told, is_copied, limit_told};
ghost use Rattle.rvm_core.specs.Worlds.{IsPartOf, world_of};

use crate::event::Event;
use crate::world::World;
use rvm_mem::{MAX_PAGES, PagedMemory};
use rvm_message::{Command, HostRefusal, HostReply};
use rvm_precopy::Policy;
use std::alloc::{AllocError, Global};

/// The number of events until the target takes the guest: the command to begin, and the deliveries of the offer and its
/// answer.
const OPENING: u32 = 3;
/// The number of frames that these events make: the offer and its answer.
const OFFER: u64 = 2;
/// The number of commands that pause the guest.
const STOP: u32 = 1;
/// The number of the last frames: Ready, Go and Started.
const CLOSING: u32 = 3;

/// How a move that was driven ended.
#[derive(Clone, Copy, Debug, PartialEq, Eq)]
pub enum Driven {
    /// The guest runs at the target: the number of the move, and the number of its events.
    Moved(u64, u32),
    /// The target declined, since it takes at most this many pages; the guest runs on where it was.
    Declined(u16),
    /// The move did not begin, for this reason.
    Refused(HostRefusal),
}

/// Moves the guest of host `from` to host `to`: each frame of the move comes once and in order, and no hart steps.
/// Returns how the move ended. If memory runs out, the world is as the events until then left it.
#[tactic(auto, using(crate::proofs::NeverMoving::never_moved))]
pub fn drive_move<M: PagedMemory + Drop>(
    alloc: Global,
    world: &mut World<M>,
    from: u8,
    to: u8,
    policy: Policy,
) -> Result<Driven, AllocError>
    ensures ends { IfOk result (λ d. DrivesTo d (world_of world.old) (world_of world.new) from to (policy_of policy)) }
    // The guest never moved, in a move that is cut off as in a whole one.
    ensures never_moved { NeverMoved (world_of world.old) (world_of world.new) }
    ensures err { OnErr result (WasLeft (world_of world.old) (world_of world.new) from to (policy_of policy)) }
{
    world.reached();
    let first = world.sent() as u64;
    let begin = world.apply(alloc, &Event::At(from, Command::Begin { to, policy }))?;
    let move_number = match move_begun(&begin.reply) {
        Ok(move_number) => move_number,
        Err(why) => return Ok(Driven::Refused(why)),
    };
    let answer = world.apply(alloc, &Event::Deliver(first))?;
    world.apply(alloc, &Event::Deliver(first + 1))?;
    if let Some(limit) = limit_told(&answer.reply) {
        return Ok(Driven::Declined(limit));
    }
    let events = send_guest(alloc, world, from, first + OFFER)?;
    Ok(Driven::Moved(move_number, events + OPENING))
}

/// Sends the guest to the target that takes it, and delivers each frame that this makes, from place `first` on; returns
/// the number of events that this took.
fn send_guest<M: PagedMemory + Drop>(
    alloc: Global,
    world: &mut World<M>,
    from: u8,
    first: u64,
) -> Result<u32, AllocError>
    requires { first < 2 ^ 63 + 2 }
    ensures sent { IfOk result (λ events. IsSent events (world_of world.old) (world_of world.new) from first) }
    ensures most { IfOk result (λ events. events < 2 ^ 16) }
    ensures left { OnErr result (IsSentLeft (world_of world.old) (world_of world.new) from first) }
{
    let round = copy_round(alloc, world, from)?;
    deliver_all(alloc, world, first, round)?;
    world.apply(alloc, &Event::At(from, Command::Copy))?;
    let state = send_state(alloc, world, from)?;
    deliver_all(alloc, world, first + round as u64, state + CLOSING)?;
    Ok(2 * (round + state) + STOP + CLOSING)
}

/// Copies pages until the round is over, and returns the number of frames that this made: those of the pages, and that
/// of the round's end.
fn copy_round<M: PagedMemory + Drop>(
    alloc: Global,
    world: &mut World<M>,
    from: u8,
) -> Result<u32, AllocError>
    ensures round { IfOk result (λ frames. IsRound frames (world_of world.old) (world_of world.new) from) }
    ensures most { IfOk result (λ frames. frames ≤ 4097) }
    ensures left { OnErr result (IsRoundLeft (world_of world.old) (world_of world.new) from) }
{
    for pages in 0..=MAX_PAGES {
        let copied = world.apply(alloc, &Event::At(from, Command::Copy))?;
        if !is_copied(&copied.reply) {
            return Ok(pages + 1);
        }
    }
    Ok(MAX_PAGES + 1)
}

/// Sends the state of the paused guest, and returns the number of frames that this made.
fn send_state<M: PagedMemory + Drop>(
    alloc: Global,
    world: &mut World<M>,
    from: u8,
) -> Result<u32, AllocError>
    ensures state { IfOk result (λ frames. IsState frames (world_of world.old) (world_of world.new) from) }
    ensures most { IfOk result (λ frames. frames < 256) }
    ensures left { OnErr result (IsStateLeft (world_of world.old) (world_of world.new) from) }
{
    let sent = world.apply(alloc, &Event::At(from, Command::Copy))?;
    let frames = frames_told(&sent.reply) as u32;
    copy_all(alloc, world, from, frames.saturating_sub(1))?;
    Ok(frames)
}

/// Gives host `from` the command Copy `count` times.
fn copy_all<M: PagedMemory + Drop>(
    alloc: Global,
    world: &mut World<M>,
    from: u8,
    count: u32,
) -> Result<(), AllocError>
    ensures made { OnOk result (world_of world.new ≡ run board (world_of world.old) (copies from count)) }
    ensures left { OnErr result (IsPartOf (copies from count) (world_of world.old) (world_of world.new)) }
{
    for _ in 0..count {
        world.apply(alloc, &Event::At(from, Command::Copy))?;
    }
    Ok(())
}

/// Delivers `count` frames that were sent, from place `first` on, to their hosts.
fn deliver_all<M: PagedMemory + Drop>(
    alloc: Global,
    world: &mut World<M>,
    first: u64,
    count: u32,
) -> Result<(), AllocError>
    requires { first + count < 2 ^ 64 }
    ensures made { OnOk result (world_of world.new ≡ run board (world_of world.old) (deliveries first count)) }
    ensures left { OnErr result (IsPartOf (deliveries first count) (world_of world.old) (world_of world.new)) }
{
    for place in 0..count {
        world.apply(alloc, &Event::Deliver(first + place as u64))?;
    }
    Ok(())
}

/// The number of the move that began, or why none did.
fn move_begun(reply: &HostReply) -> Result<u64, HostRefusal>
    requires { begins_or_not (reply_of reply.now) ≡ true }
    ensures begun { (n : ℕ) → reply_of reply.now ≡ Begun n → result ≡ Ok n }
    ensures refused { (why : HostRefusal) → reply_of reply.now ≡ Refused (refusal_of why) → result ≡ Err why }
{
    match reply {
        HostReply::Begun(move_number) => Ok(*move_number),
        HostReply::Refused(why) => Err(*why),
        _ => unreachable!(),
    }
}

/// The most pages that a target takes, if it declined.
fn limit_told(reply: &HostReply) -> Option<u16>
    ensures { result ≡ limit_told (reply_of reply.now) }
{
    match reply {
        HostReply::Declined(limit) => Some(*limit),
        _ => None,
    }
}

/// Whether the reply says that a page was copied.
fn is_copied(reply: &HostReply) -> bool
    ensures { result ≡ is_copied (reply_of reply.now) }
{
    matches!(reply, HostReply::Copied { .. })
}

/// The number of frames in which a state is sent, by the reply to the first Copy of it.
fn frames_told(reply: &HostReply) -> u8
    ensures { result ≡ frames_told (reply_of reply.now) }
{
    match reply {
        HostReply::PartSent { parts, .. } => *parts,
        _ => 1,
    }
}
