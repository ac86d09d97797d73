//! Slices of turns.

ghost use Rattle.std.specs.Prelude.{◌≡◌, ◌≢◌, ◌≤◌, ◌<◌, ◌+◌, ◌-◌, ◌%◌, min};
ghost use Rattle.rvm_cell.specs.Turns.{after_answer, after_step, turns_of};
ghost use Rattle.rvm_station.specs.declared.turn.Then.TheVariants.{Elsewhere};

use crate::steps::SliceSteps;
use rvm_board::{BoardReply, DRAIN_EVERY};
use rvm_message::{HostRefusal, HostReply};
use rvm_station::Then;

/// How many turns a slice made, and what comes after them.
#[derive(Clone, Copy)]
pub(crate) struct MadeTurns {
    pub(crate) made: u32,
    pub(crate) then: Then,
}

/// The number of turns up to the next drain, which comes after every 64 turns and after the last of `steps`.
pub(crate) fn until_drain(turn: u32, steps: u32) -> u32
    requires { turn < steps }
    ensures count { result ≡ min (64 - turn % 64) (steps - turn) }
    ensures some { 1 ≤ result }
    ensures within { turn + result ≤ steps }
{
    (DRAIN_EVERY - turn % DRAIN_EVERY).min(steps - turn)
}

/// What comes after the board's answer to a step. A hart that stops at a breakpoint has had its turn.
fn after_answer(answer: &BoardReply) -> Then
    ensures { result ≡ after_answer answer.now }
{
    match answer {
        BoardReply::Halted(status) => Then::Halted(*status),
        _ => Then::GoOn,
    }
}

/// What comes after the reply to a step. If the step is refused since the guest is not here or is paused here, the
/// other host is to make it.
pub(crate) fn after_step(reply: &HostReply) -> Then
    ensures { result ≡ after_step reply.now }
{
    match reply {
        HostReply::Board(answer) => after_answer(answer),
        HostReply::Refused(HostRefusal::NotHere | HostRefusal::Paused) => Then::Elsewhere,
        _ => Then::GoOn,
    }
}

/// The turns of a slice of these steps. A last step that the other host is to make was no turn.
pub(crate) fn made_by(steps: SliceSteps) -> MadeTurns
    ensures then { result.then ≡ steps.then }
    ensures made { result.made ≡ turns_of result.then steps.count }
    ensures within { result.made ≤ steps.count }
    ensures some { result.then ≢ Elsewhere → 1 ≤ result.made }
{
    let count = steps.count;
    match steps.then {
        Then::Elsewhere => MadeTurns {
            made: count - 1,
            then: Then::Elsewhere,
        },
        then => MadeTurns { made: count, then },
    }
}
