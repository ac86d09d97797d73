//! A search for the first fault that turns of the harts show: turn by turn, and slower than turns alone.

ghost use Rattle.std.specs.Prelude.{◌≡◌, ◌^◌, ◌<◌, ◌≤◌, ◌||◌, None, is_some, get_or, length, slice_set};
ghost use Rattle.rvm_mem.specs.Pages.{mark_all};
ghost use Rattle.rvm_board.specs.Events.{steps};
ghost use Rattle.rvm_board.specs.Turns.{TakesTurns, stop_in};
ghost use Rattle.rvm_command.specs.ExtendedScript.{fault_in_turns, fault_shown, turns_from};
ghost use Rattle.rvm_command.specs.Faults.{fault_of, shown};
ghost use Rattle.rvm_command.specs.Turns.{taken_by};
ghost use Rattle.rvm_command.specs.Watched.{turns_until};

use crate::extended_lines::hart_of_turn;
use crate::fault::Fault;
use crate::latest_traps::LatestTraps;
use crate::watched::reply_of;
use rvm_board::{BoardReply, Debugged, Stop, Turns};
use rvm_mem::Memory;

/// How a search ended.
#[derive(Clone, Copy)]
pub(crate) struct Search {
    /// How many turns were made, and what ended them, if they ended early without a fault.
    pub(crate) turns: Turns,
    /// The fault that the last turn showed, if it showed one.
    pub(crate) fault: Option<Fault>,
}

/// Makes at most `count` turns of the harts in their order, from turn `turn` on. Ends early after a turn that shows a
/// fault among these turns, in which a hart stopped at a breakpoint, or which halted the board or found it halted.
pub(crate) fn find_fault<M: Memory>(board: &mut Debugged<M>, turn: u64, count: u32) -> Search
    requires { turn ≤ 2 ^ 63 }
    ensures turns { TakesTurns (turns_from (turns_until (fault_in_turns count turn board.old.guest) count) turn
        board.old.guest) board.old board.new result.turns }
    ensures fault { result.fault ≡ fault_shown (fault_in_turns count turn board.old.guest) }
{
    let harts = board.harts();
    let mut traps = LatestTraps::new();
    let mut made = 0;
    while made < count {
        let hart = hart_of_turn(turn + u64::from(made), harts);
        let taken = take_turn(board, hart, &mut traps);
        made += 1;
        if taken.ends() {
            return taken.as_last_of(made);
        }
    }
    Search {
        turns: Turns {
            made: count,
            stop: None,
        },
        fault: None,
    }
}

/// What a turn of a search came to.
#[derive(Clone, Copy)]
struct Turn {
    /// What ends turns with this one, if it does: a breakpoint, or a halted board.
    stop: Option<Stop>,
    /// The fault that it shows, if it shows one.
    fault: Option<Fault>,
}

impl Turn {
    /// Whether the search ends with this turn.
    fn ends(self) -> bool
        ensures { result ≡ is_some self.stop || is_some self.fault }
    {
        self.stop.is_some() || self.fault.is_some()
    }

    /// The search that made this many turns, of which this one was the last.
    fn as_last_of(self, made: u32) -> Search
        ensures { result ≡ record { turns = record { made = made; stop = self.stop }; fault = self.fault } }
    {
        Search {
            turns: Turns {
                made,
                stop: self.stop,
            },
            fault: self.fault,
        }
    }
}

/// Makes a turn of a hart, and notes its trap, if it trapped or was interrupted.
fn take_turn<M: Memory>(board: &mut Debugged<M>, hart: u32, traps: &mut LatestTraps) -> Turn
    requires { hart < length board.old.guest.board.harts }
    ensures guest { board.new.guest ≡ (steps hart board.old.guest).guest }
    ensures dirty { board.new.dirty ≡ mark_all (steps hart board.old.guest).pages board.old.dirty }
    ensures stop { result.stop ≡ stop_in (steps hart board.old.guest).reply }
    ensures fault { result.fault ≡ shown (steps hart board.old.guest).reply (get_or traps.old hart None) }
    ensures noted { traps.new ≡ slice_set traps.old hart (fault_of (taken_by hart board.old.guest)) }
{
    let pc = board.pc(hart);
    let reply = reply_of(pc, board.step(hart));
    Turn {
        stop: stop_in(&reply),
        fault: traps.note(board, hart, pc, &reply),
    }
}

/// What ends turns with this answer to a step, if it does.
fn stop_in(reply: &BoardReply) -> Option<Stop>
    ensures { result ≡ stop_in reply.now }
{
    match reply {
        BoardReply::Break(address) => Some(Stop::Break(*address)),
        BoardReply::Halted(status) => Some(Stop::Halted(*status)),
        _ => None,
    }
}
