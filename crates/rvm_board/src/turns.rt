//! Consecutive turns of harts: the loop of a run, and of a script's steps.

ghost use Rattle.std.specs.Prelude.{◌≡◌, ◌<◌, ◌≤◌, ◌+◌, ◌-◌, ◌%◌, [], None, false, true, length, get_or};
ghost use Rattle.std.specs.List.{list_any};
ghost use Rattle.rvm_mem.specs.Pages.{mark_all};
ghost use Rattle.rvm_hart.specs.Running.{ends_so};
ghost use Rattle.rvm_hart.specs.Straight as straight;
ghost use Rattle.rvm_board.specs.Board.{machine_at};
ghost use Rattle.rvm_board.specs.Computing.{Compute};
ghost use Rattle.rvm_board.specs.Events.{pc_of, reply_of, step_reply, steps};
ghost use Rattle.rvm_board.specs.Guest.{is_in};
ghost use Rattle.rvm_board.specs.Marks.{gone, none_stops};
ghost use Rattle.rvm_board.specs.Turns.{TakesTurns, after_turns, next_hart, reply_of_stop, stop_in};
ghost use Rattle.rvm_board.specs.declared.turns.Order.TheVariants.{Alone, RoundRobin};

use crate::debugged::Debugged;
use crate::event::BoardReply;
use crate::rounds::Rounds;
use rvm_hart::Stepped;
use rvm_mem::Memory;

/// The number of turns that a run makes between two drains of what the guest sent.
pub const DRAIN_EVERY: u32 = 64;

/// The most bytes that a drain of a run takes.
pub const DRAIN_SIZE: u32 = 256;

/// The numbers of the loops that each have a copy of the straight path, as `Hart::run_straight` says.
const IN_TURNS: u8 = 0;

const IN_WATCHED_TURNS: u8 = 1;

const IN_ROUNDS: u8 = 2;

const IN_WATCHED_ROUNDS: u8 = 3;

pub(crate) const WHILE_FULL: u8 = 4;

pub(crate) const IN_RETIRING: u8 = 5;

pub(crate) const IN_RETIRING_ROUNDS: u8 = 6;

const IN_STRAIGHT_ROUNDS: u8 = 7;

pub(crate) const IN_COMPUTING_ROUNDS: u8 = 8;

pub(crate) const IN_COMPUTING: u8 = 9;

/// Which hart has the next turn.
#[derive(Clone, Copy, Debug, PartialEq, Eq)]
pub enum Order {
    /// The same hart.
    Alone,
    /// The hart with the next number; after the last hart, hart 0.
    RoundRobin,
}

/// What ends consecutive turns.
#[derive(Clone, Copy, Debug, PartialEq, Eq)]
pub enum Stop {
    /// A hart stopped at the breakpoint at this address instead of its step.
    Break(u32),
    /// The board is halted with this status.
    Halted(u8),
}

/// How consecutive turns ended.
#[derive(Clone, Copy, Debug, PartialEq, Eq)]
pub struct Turns {
    /// The number of turns that were made, with the one that ended them.
    pub made: u32,
    /// What ended the turns, if the last one stopped or halted.
    pub stop: Option<Stop>,
}

/// How a loop of turns ended. It counts the turns that are left, since a second number in the loop costs each turn four
/// host instructions more.
#[derive(Clone, Copy)]
struct Ended {
    left: u32,
    stop: Option<Stop>,
}

/// How turns of a hart ended that cannot stop at a breakpoint.
#[derive(Clone, Copy)]
struct HartTurns {
    made: u32,
    /// The status that the board is halted with, if the last turn halted it or found it halted.
    halted: Option<u8>,
}

impl<M: Memory> Debugged<M> {
    /// Makes at most `count` turns, from the turn of hart `first` on: in its turn a hart takes a step, or stops at a
    /// breakpoint instead. Ends early after a turn in which a hart stopped, or which halted the board or found it
    /// halted. Takes no memory.
    pub fn turns(&mut self, order: Order, first: u32, count: u32) -> Turns
        requires { first < length self.old.guest.board.harts }
        ensures { TakesTurns (after_turns order count first self.old.guest) self.old self.new result }
    {
        let ended = self.turns_in_a_loop(order, first, count);
        Turns {
            made: count - ended.left,
            stop: ended.stop,
        }
    }

    /// Makes these turns in the loop with the fewest tests.
    #[inline]
    #[tactic(auto, using(crate::proofs::Turning::one_hart))]
    fn turns_in_a_loop(&mut self, order: Order, first: u32, count: u32) -> Ended
        requires { first < length self.old.guest.board.harts }
        ensures turns { TakesTurns (after_turns order count first self.old.guest) self.old self.new
            (record { made = count - result.left; stop = result.stop }) }
        ensures left { result.left ≤ count }
    {
        match order {
            Order::RoundRobin if self.harts() > 1 => self.turns_of_harts(first, count),
            _ if self.breakpoints.is_empty() => self.turns_unwatched(first, count),
            _ => self.turns_watched(first, count),
        }
    }

    /// Makes turns of one hart of a guest without breakpoints.
    #[inline(never)]
    fn turns_unwatched(&mut self, hart: u32, count: u32) -> Ended
        requires hart { hart < length self.old.guest.board.harts }
        requires breakpoints { self.old.guest.breakpoints ≡ [] }
        ensures turns { TakesTurns (after_turns Alone count hart self.old.guest) self.old self.new
            (record { made = count - result.left; stop = result.stop }) }
        ensures left { result.left ≤ count }
    {
        self.turns_of_hart::<IN_TURNS>(hart, count, false)
    }

    /// Makes turns of one hart of a guest that may have breakpoints.
    #[inline(never)]
    fn turns_watched(&mut self, hart: u32, count: u32) -> Ended
        requires { hart < length self.old.guest.board.harts }
        ensures turns { TakesTurns (after_turns Alone count hart self.old.guest) self.old self.new
            (record { made = count - result.left; stop = result.stop }) }
        ensures left { result.left ≤ count }
    {
        self.turns_of_hart::<IN_WATCHED_TURNS>(hart, count, true)
    }

    /// Makes turns of one hart: all before one in which it may stop, then that one, and so on.
    #[inline(always)]
    fn turns_of_hart<const LOOP: u8>(&mut self, hart: u32, count: u32, watched: bool) -> Ended
        requires hart { hart < length self.old.guest.board.harts }
        requires watched { watched ≡ false → self.old.guest.breakpoints ≡ [] }
        ensures turns { TakesTurns (after_turns Alone count hart self.old.guest) self.old self.new
            (record { made = count - result.left; stop = result.stop }) }
        ensures left { result.left ≤ count }
    {
        let mut left = count;
        while left > 0 {
            let ran = self.run_turns::<LOOP>(hart, left, watched);
            left -= ran.made;
            if let Some(status) = ran.halted {
                return Ended {
                    left,
                    stop: Some(Stop::Halted(status)),
                };
            }
            if left == 0 {
                return Ended {
                    left: 0,
                    stop: None,
                };
            }
            left -= 1;
            let pc = self.pc(hart);
            if let Some(stop) = stop_of(pc, self.step_at_a_mark(hart)) {
                return Ended {
                    left,
                    stop: Some(stop),
                };
            }
        }
        Ended {
            left: 0,
            stop: None,
        }
    }

    /// Makes at most `count` turns of a hart that do not stop. Ends early after one that halts the board or finds it
    /// halted, or, if `watched`, before one in which the hart may stop. Makes none if the hart stands at a breakpoint.
    #[inline(always)]
    #[tactic(auto, using(crate::proofs::Marking::none_at_a_mark))]
    fn run_turns<const LOOP: u8>(&mut self, hart: u32, count: u32, watched: bool) -> HartTurns
        requires hart { hart < length self.old.guest.board.harts }
        requires watched { watched ≡ false → self.old.guest.breakpoints ≡ [] }
        ensures made { result.made ≤ count }
        ensures stand { 0 < result.made → get_or self.old.guest.stopped hart false ≡ false }
        ensures guest { self.new.guest ≡ gone hart result.made self.old.guest }
        ensures dirty { self.new.dirty ≡ mark_all
            (straight.steps result.made (machine_at hart self.old.guest.board)).pages self.old.dirty }
        ensures stops { none_stops self.old.guest.breakpoints result.made
            (machine_at hart self.old.guest.board) ≡ true }
        ensures ends { ends_so result.halted result.made (machine_at hart self.old.guest.board) ≡ true }
    {
        let stands = self.stopped[hart as usize];
        let most = if stands { 0 } else { count };
        let marks = self.breakpoints.marks();
        let ran = self.board.run::<LOOP>(hart, most, marks, watched);
        HartTurns {
            made: most - ran.left,
            halted: ran.halted,
        }
    }

    /// Makes turns of the harts in their order.
    #[inline]
    fn turns_of_harts(&mut self, first: u32, count: u32) -> Ended
        requires { first < length self.old.guest.board.harts }
        ensures turns { TakesTurns (after_turns RoundRobin count first self.old.guest) self.old self.new
            (record { made = count - result.left; stop = result.stop }) }
        ensures left { result.left ≤ count }
    {
        if !self.breakpoints.is_empty() || any(&self.stopped) {
            return self.turns_or_stops(first, count);
        }
        self.turns_in_rounds(first, count)
    }

    /// Makes turns of the harts in their order, none of which can stop: all before one that leaves the straight path,
    /// then that one and those up to the last hart, and so on.
    #[inline(never)]
    fn turns_in_rounds(&mut self, first: u32, count: u32) -> Ended
        requires first { first < length self.old.guest.board.harts }
        requires breakpoints { self.old.guest.breakpoints ≡ [] }
        requires stopped { list_any (λ s. s) self.old.guest.stopped ≡ false }
        ensures turns { TakesTurns (after_turns RoundRobin count first self.old.guest) self.old self.new
            (record { made = count - result.left; stop = result.stop }) }
        ensures left { result.left ≤ count }
    {
        let harts = self.harts();
        let mut hart = first;
        let mut left = count;
        while left > 0 {
            let rounds = self.straight_rounds::<IN_STRAIGHT_ROUNDS>(hart, left);
            left = rounds.left;
            if left == 0 {
                return Ended {
                    left: 0,
                    stop: None,
                };
            }
            let turns = left.min(harts - rounds.hart);
            left -= turns;
            let ended = self.turns_in_a_row(rounds.hart, rounds.hart + turns);
            if ended.stop.is_some() {
                return Ended {
                    left: left + ended.left,
                    stop: ended.stop,
                };
            }
            hart = 0;
        }
        Ended {
            left: 0,
            stop: None,
        }
    }

    /// Makes one turn of each hart from `first` to the one before `end`, none of which can stop.
    #[inline(always)]
    fn turns_in_a_row(&mut self, first: u32, end: u32) -> Ended
        requires first { first ≤ end }
        requires end { end ≤ length self.old.guest.board.harts }
        requires breakpoints { self.old.guest.breakpoints ≡ [] }
        requires stopped { list_any (λ s. s) self.old.guest.stopped ≡ false }
        ensures turns { TakesTurns (after_turns RoundRobin (end - first) first self.old.guest) self.old self.new
            (record { made = end - first - result.left; stop = result.stop }) }
        ensures left { result.left ≤ end - first }
        ensures breakpoints { self.new.guest.breakpoints ≡ self.old.guest.breakpoints }
        ensures stopped { self.new.guest.stopped ≡ self.old.guest.stopped }
    {
        let mut hart = first;
        while hart < end {
            if let Some(stop) = stop_of(0, Some(self.turn_of::<IN_ROUNDS>(hart))) {
                return Ended {
                    left: end - hart - 1,
                    stop: Some(stop),
                };
            }
            hart += 1;
        }
        Ended {
            left: 0,
            stop: None,
        }
    }

    /// Makes at most `count` turns of the harts in their order on the straight path, none of which can stop.
    #[inline(always)]
    pub(crate) fn straight_rounds<const LOOP: u8>(&mut self, first: u32, count: u32) -> Rounds
        requires first { first < length self.old.guest.board.harts }
        requires breakpoints { self.old.guest.breakpoints ≡ [] }
        requires stopped { list_any (λ s. s) self.old.guest.stopped ≡ false }
        ensures left { result.left ≤ count }
        ensures inside { result.hart < length self.new.guest.board.harts }
        ensures hart { result.hart
            ≡ (first + (count - result.left)) % length self.old.guest.board.harts }
        ensures computes { Compute (length self.old.guest.board.harts) (count - result.left) first self.old self.new }
        ensures breakpoints { self.new.guest.breakpoints ≡ self.old.guest.breakpoints }
        ensures stopped { self.new.guest.stopped ≡ self.old.guest.stopped }
    {
        self.board.run_rounds::<LOOP>(first, count)
    }

    /// Makes turns of the harts in their order, any of which may stop.
    #[cold]
    #[inline(never)]
    fn turns_or_stops(&mut self, first: u32, count: u32) -> Ended
        requires { first < length self.old.guest.board.harts }
        ensures turns { TakesTurns (after_turns RoundRobin count first self.old.guest) self.old self.new
            (record { made = count - result.left; stop = result.stop }) }
        ensures left { result.left ≤ count }
    {
        let harts = self.harts();
        let mut hart = first;
        let mut left = count;
        while left > 0 {
            left -= 1;
            let pc = self.pc(hart);
            if let Some(stop) = stop_of(pc, self.turn_or_stop::<IN_WATCHED_ROUNDS>(hart)) {
                return Ended {
                    left,
                    stop: Some(stop),
                };
            }
            hart = Order::RoundRobin.next(hart, harts);
        }
        Ended {
            left: 0,
            stop: None,
        }
    }

    /// Makes at most `count` turns of a hart on the straight path. If `watched`, ends before one in which the hart may
    /// stop. Makes none if the hart stands at a breakpoint. Returns how many were made.
    #[inline(always)]
    #[tactic(auto, using(crate::proofs::Marking::none_at_a_mark))]
    pub(crate) fn straight_turns<const LOOP: u8>(
        &mut self,
        hart: u32,
        count: u32,
        watched: bool,
    ) -> u32
        requires hart { hart < length self.old.guest.board.harts }
        requires watched { watched ≡ false → self.old.guest.breakpoints ≡ [] }
        ensures made { result ≤ count }
        ensures stand { 0 < result → get_or self.old.guest.stopped hart false ≡ false }
        ensures guest { self.new.guest ≡ gone hart result self.old.guest }
        ensures dirty { self.new.dirty ≡ mark_all
            (straight.steps result (machine_at hart self.old.guest.board)).pages self.old.dirty }
        ensures retired { (straight.steps result (machine_at hart self.old.guest.board)).retired ≡ true }
        ensures stops { none_stops self.old.guest.breakpoints result
            (machine_at hart self.old.guest.board) ≡ true }
        ensures devices { straight.DevicesStay result (machine_at hart self.old.guest.board) }
    {
        let stands = self.stopped[hart as usize];
        let most = if stands { 0 } else { count };
        let marks = self.breakpoints.marks();
        let left = self.board.run_straight::<LOOP>(hart, most, marks, watched);
        most - left
    }

    /// Makes a turn of a hart. Returns none if the hart stopped at a breakpoint instead of stepping.
    #[inline(always)]
    pub(crate) fn turn_or_stop<const LOOP: u8>(&mut self, hart: u32) -> Option<Stepped>
        requires { hart < length self.old.guest.board.harts }
        ensures guest { self.new.guest ≡ (steps hart self.old.guest).guest }
        ensures dirty { self.new.dirty ≡ mark_all (steps hart self.old.guest).pages self.old.dirty }
        ensures answer { step_reply (pc_of hart self.old.guest) result
            ≡ (steps hart self.old.guest).reply }
    {
        if self.may_stop(hart) {
            return self.step_at_a_mark(hart);
        }
        Some(self.turn_of::<LOOP>(hart))
    }

    /// Makes a turn of a hart that may stop, which is rare.
    #[cold]
    #[inline(never)]
    fn step_at_a_mark(&mut self, hart: u32) -> Option<Stepped>
        requires { hart < length self.old.guest.board.harts }
        ensures guest { self.new.guest ≡ (steps hart self.old.guest).guest }
        ensures dirty { self.new.dirty ≡ mark_all (steps hart self.old.guest).pages self.old.dirty }
        ensures answer { step_reply (pc_of hart self.old.guest) result
            ≡ (steps hart self.old.guest).reply }
    {
        self.step(hart)
    }

    /// Makes one step of a hart that cannot stop instead, on the straight path if possible.
    #[inline(always)]
    pub(crate) fn turn_of<const LOOP: u8>(&mut self, hart: u32) -> Stepped
        requires hart { hart < length self.old.guest.board.harts }
        requires breakpoints { is_in (pc_of hart self.old.guest) self.old.guest.breakpoints ≡ false }
        requires stopped { get_or self.old.guest.stopped hart false ≡ false }
        ensures guest { self.new.guest ≡ (steps hart self.old.guest).guest }
        ensures dirty { self.new.dirty ≡ mark_all (steps hart self.old.guest).pages self.old.dirty }
        ensures answer { reply_of result ≡ (steps hart self.old.guest).reply }
        ensures breakpoints { self.new.guest.breakpoints ≡ self.old.guest.breakpoints }
        ensures stopped { self.new.guest.stopped ≡ self.old.guest.stopped }
    {
        self.board.step_straight::<LOOP>(hart)
    }

    /// Makes one step of a hart that cannot stop instead.
    #[inline(always)]
    pub(crate) fn step_on(&mut self, hart: u32) -> Stepped
        requires hart { hart < length self.old.guest.board.harts }
        requires breakpoints { is_in (pc_of hart self.old.guest) self.old.guest.breakpoints ≡ false }
        requires stopped { get_or self.old.guest.stopped hart false ≡ false }
        ensures guest { self.new.guest ≡ (steps hart self.old.guest).guest }
        ensures dirty { self.new.dirty ≡ mark_all (steps hart self.old.guest).pages self.old.dirty }
        ensures answer { reply_of result ≡ (steps hart self.old.guest).reply }
        ensures breakpoints { self.new.guest.breakpoints ≡ self.old.guest.breakpoints }
        ensures stopped { self.new.guest.stopped ≡ self.old.guest.stopped }
    {
        self.board.step(hart)
    }
}

impl Stop {
    /// The answer to the step that ended the turns.
    pub fn reply(self) -> BoardReply
        ensures { result ≡ reply_of_stop self }
    {
        match self {
            Stop::Break(address) => BoardReply::Break(address),
            Stop::Halted(status) => BoardReply::Halted(status),
        }
    }
}

impl Order {
    /// The hart that has the turn after hart `hart`, on a board of `harts` harts.
    #[inline(always)]
    pub(crate) fn next(self, hart: u32, harts: u32) -> u32
        requires within { hart < harts }
        requires bound { harts ≤ 8 }
        ensures next { result ≡ next_hart self harts hart }
        ensures below { result < harts }
    {
        match self {
            Order::Alone => hart,
            Order::RoundRobin if hart + 1 == harts => 0,
            Order::RoundRobin => hart + 1,
        }
    }
}

/// What ended the turns with a turn of a hart at `pc`, if it did. No step stands for a stop at a breakpoint.
#[inline(always)]
pub(crate) fn stop_of(pc: u32, step: Option<Stepped>) -> Option<Stop>
    ensures { result ≡ stop_in (step_reply pc step) }
{
    match step {
        None => Some(Stop::Break(pc)),
        Some(Stepped::Halted(status)) => Some(Stop::Halted(status)),
        Some(_) => None,
    }
}

/// Whether any of these is true.
pub(crate) fn any(flags: &[bool]) -> bool
    ensures { result ≡ list_any (λ flag. flag) flags.now }
{
    flags.iter().any(|flag| *flag)
}
