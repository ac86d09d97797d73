//! Slices of turns at a host under a lock.

ghost use Rattle.std.specs.Prelude.{◌≤◌, ◌<◌};
ghost use Rattle.rvm_station.specs.Events.{IsAnswer};
ghost use Rattle.rvm_station.specs.Halts.{HaltsSo, IsOfStep};
ghost use Rattle.rvm_message.specs.Steps.{reply_to_step};

use crate::log::EventLog;
use crate::origin::Opening;
use crate::reached::Reached;
use crate::turn::Then;
use rvm_board::DRAIN_SIZE;
use rvm_hart::Stepped;
use rvm_mem::PagedMemory;
use rvm_message::StepReply;

/// What a slice of turns did.
#[derive(Clone, Copy, Debug, PartialEq, Eq)]
pub struct Slice {
    /// How many turns were made.
    pub made: u32,
    pub then: Then,
    /// Whether a drain may find bytes that the guest sent. It is refused where no guest runs.
    pub has_output: bool,
}

/// Makes consecutive turns of the harts, at most `count`, from turn `turn` on, while the guest runs here and is not
/// halted.
pub(crate) fn make_slice<L: Opening, M: PagedMemory + Drop, J: EventLog + Drop>(
    reached: &mut Reached<L, M, J>,
    turn: u64,
    count: u32,
) -> Slice
    ensures most { result.made ≤ count }
    ensures halted { HaltsSo (IsAnswer L.opening) result.then }
{
    let (made, then) = match reached.harts() {
        Some(harts) => make_turns(reached, turn, harts, count),
        None => (0, Then::Elsewhere),
    };
    Slice {
        made,
        then,
        has_output: then != Then::Elsewhere && !reached.finds_nothing(DRAIN_SIZE),
    }
}

/// Makes at most `count` turns of this many harts. Returns how many it made, and what comes after them.
fn make_turns<L: Opening, M: PagedMemory + Drop, J: EventLog + Drop>(
    reached: &mut Reached<L, M, J>,
    turn: u64,
    harts: u32,
    count: u32,
) -> (u32, Then)
    requires { 0 < harts }
    ensures most { result.0 ≤ count }
    ensures halted { HaltsSo (IsAnswer L.opening) result.1 }
{
    let mut made = 0;
    while made < count {
        let at = turn.wrapping_add(u64::from(made));
        let retired = reached.retire(at, harts, count - made);
        made += retired.count;
        if made == count {
            break;
        }
        let reply = match retired.last {
            Some(stepped) => StepReply::Stepped(stepped),
            None => reached.step(turn.wrapping_add(u64::from(made)), harts),
        };
        match then_of::<L>(reply) {
            Then::GoOn => made += 1,
            then => return (made, then),
        }
    }
    (made, Then::GoOn)
}

/// What comes after this reply to a step. A hart that stops at a breakpoint has had its turn.
fn then_of<L: Opening>(reply: StepReply) -> Then
    requires { IsOfStep (IsAnswer L.opening) (reply_to_step reply) }
    ensures { HaltsSo (IsAnswer L.opening) result }
{
    match reply {
        StepReply::Stepped(Stepped::Halted(status)) => Then::Halted(status),
        StepReply::Refused(_) => Then::Elsewhere,
        StepReply::Stepped(_) | StepReply::Break(_) | StepReply::BadHart => Then::GoOn,
    }
}
