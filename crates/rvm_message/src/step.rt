//! A step of a hart, and the reply to it.

ghost use Rattle.std.specs.Prelude.{◌≡◌, ◌||◌, ℕ, length};
ghost use Rattle.rvm_board.specs.declared.event.BoardEvent.TheVariants.{Step};
ghost use Rattle.rvm_board.specs.Events.{steps_if_there};
ghost use Rattle.rvm_mem.specs.Pages.{has, mark_all};
ghost use Rattle.rvm_guest.specs.TheGuest.{board};
ghost use Rattle.rvm_message.specs.Replies.{ends_steps, reply_of};
ghost use Rattle.rvm_message.specs.Steps.{reply_to_step};

use crate::reply::{HostRefusal, HostReply};
use rvm_board::{BoardRefusal, BoardReply, Debugged};
use rvm_hart::Stepped;
use rvm_mem::{Memory, PagedMemory};

/// The reply of a host to a step of a hart. It takes a few bytes, whereas a `HostReply` has room for all that a board
/// can answer.
#[derive(Clone, Copy, Debug, PartialEq, Eq)]
pub enum StepReply {
    /// The hart took a step.
    Stepped(Stepped),
    /// The hart stopped at the breakpoint at this address instead.
    Break(u32),
    /// The board has no such hart.
    BadHart,
    /// The host refused the step.
    Refused(HostRefusal),
}

impl StepReply {
    /// Returns this reply as a `HostReply`.
    pub fn reply(self) -> HostReply
        ensures { result ≡ reply_to_step self }
    {
        match self {
            StepReply::Stepped(stepped) => HostReply::Board(BoardReply::of_step(stepped)),
            StepReply::Break(address) => HostReply::Board(BoardReply::Break(address)),
            StepReply::BadHart => HostReply::Board(BoardReply::Refused(BoardRefusal::BadHart)),
            StepReply::Refused(why) => HostReply::Refused(why),
        }
    }

    /// Whether consecutive steps end with this reply: the hart stopped at a breakpoint, the board is halted, there is
    /// no such hart, or the host refused the step.
    pub fn ends_steps(self) -> bool
        ensures { result ≡ ends_steps (reply_of (reply_to_step self)) }
    {
        match self {
            StepReply::Stepped(Stepped::Halted(_)) => true,
            StepReply::Stepped(_) => false,
            StepReply::Break(_) | StepReply::BadHart | StepReply::Refused(_) => true,
        }
    }
}

/// Gives a guest the event of a step of a hart, as `apply_event` does, and returns the reply. Takes no memory.
pub fn step_guest<M: PagedMemory>(guest: &mut Debugged<M>, hart: u32) -> StepReply
    ensures reply { reply_to_step result ≡ HostReply.Board (board.answer guest.old.guest (Step hart)) }
    ensures next { guest.new.guest ≡ board.next guest.old.guest (Step hart) }
    ensures log { (p : ℕ) → has p guest.new.dirty
        ≡ (has p guest.old.dirty || board.wrote guest.old.guest (Step hart) p) }
    ensures size { length guest.new.dirty ≡ length guest.old.dirty }
{
    let _size = guest.memory().len();
    step_if_there(guest, hart)
}

/// Gives a guest the event of a step of a hart, if the board has that hart; else only returns `BadHart`.
#[inline(always)]
fn step_if_there<M: PagedMemory>(guest: &mut Debugged<M>, hart: u32) -> StepReply
    ensures guest { guest.new.guest ≡ (steps_if_there hart guest.old.guest).guest }
    ensures dirty { guest.new.dirty ≡ mark_all (steps_if_there hart guest.old.guest).pages guest.old.dirty }
    ensures reply { reply_to_step result ≡ HostReply.Board (steps_if_there hart guest.old.guest).reply }
{
    if hart >= guest.harts() {
        return StepReply::BadHart;
    }
    let pc = guest.pc(hart);
    match guest.step(hart) {
        Some(stepped) => StepReply::Stepped(stepped),
        None => StepReply::Break(pc),
    }
}
