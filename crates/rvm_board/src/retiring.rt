//! Steps of harts in turn, as long as each retires an instruction: the loop of a slice.

ghost use Rattle.std.specs.Prelude.{◌≡◌, ◌<◌, ◌≤◌, ◌+◌, ◌-◌, ◌%◌, [], false, true, length};
ghost use Rattle.std.specs.List.{list_any};
ghost use Rattle.rvm_board.specs.Computing.{Compute};
ghost use Rattle.rvm_board.specs.Events.{reply_of};
ghost use Rattle.rvm_board.specs.Retiring.{RetiresThen};
ghost use Rattle.rvm_board.specs.declared.event.BoardReply.TheVariants as reply;

use crate::debugged::Debugged;
use crate::rounds::Rounds;
use crate::turns::{IN_RETIRING, IN_RETIRING_ROUNDS, Order, any};
use rvm_hart::Stepped;
use rvm_mem::Memory;

/// How steps of harts in turn ended.
#[derive(Clone, Copy, Debug, PartialEq, Eq)]
pub struct Retired {
    /// The number of steps that retired an instruction.
    pub count: u32,
    /// What the step after these did, if one was made: it retired none.
    pub last: Option<Stepped>,
}

/// No step was made.
pub const NO_STEPS: Retired = Retired {
    count: 0,
    last: None,
};

impl<M: Memory> Debugged<M> {
    /// Makes at most `count` steps of the board's `harts` harts in turn, from turn `turn` on, up to the first that does
    /// not retire an instruction. Makes no step if the board has another number of harts, if a breakpoint is set, or if
    /// a hart stands at one. Takes no memory.
    pub fn retire(&mut self, turn: u64, harts: u32, count: u32) -> Retired
        ensures { RetiresThen harts turn count self.old self.new result }
    {
        if harts != self.harts() || !self.breakpoints.is_empty() || any(&self.stopped) {
            return NO_STEPS;
        }
        if harts == 1 {
            return self.retire_hart_0(turn, count);
        }
        self.retire_in_turn(turn, count)
    }

    /// Makes steps of the only hart, which cannot stop at a breakpoint, so that no turn need be assigned to a hart.
    #[inline(never)]
    fn retire_hart_0(&mut self, turn: u64, count: u32) -> Retired
        requires harts { length self.old.guest.board.harts ≡ 1 }
        requires breakpoints { self.old.guest.breakpoints ≡ [] }
        requires stopped { list_any (λ s. s) self.old.guest.stopped ≡ false }
        ensures { RetiresThen 1 turn count self.old self.new result }
    {
        let mut left = count;
        while left > 0 {
            left -= self.straight_turns::<IN_RETIRING>(0, left, false);
            if left == 0 {
                return Retired { count, last: None };
            }
            left -= 1;
            let stepped = self.step_on(0);
            if !has_retired(stepped) {
                return Retired {
                    count: count - left - 1,
                    last: Some(stepped),
                };
            }
        }
        Retired { count, last: None }
    }

    /// Makes steps of the harts in turn, none of which can stop at a breakpoint.
    #[inline(never)]
    fn retire_in_turn(&mut self, turn: u64, count: u32) -> Retired
        requires breakpoints { self.old.guest.breakpoints ≡ [] }
        requires stopped { list_any (λ s. s) self.old.guest.stopped ≡ false }
        ensures { RetiresThen (length self.old.guest.board.harts) turn count self.old self.new result }
    {
        let harts = self.harts();
        let mut hart = (turn % u64::from(harts)) as u32;
        let mut left = count;
        while left > 0 {
            let rounds = self.rounds_of_all(hart, left);
            left = rounds.left;
            if left == 0 {
                return Retired { count, last: None };
            }
            left -= 1;
            let stepped = self.turn_of::<IN_RETIRING_ROUNDS>(rounds.hart);
            if !has_retired(stepped) {
                return Retired {
                    count: count - left - 1,
                    last: Some(stepped),
                };
            }
            hart = Order::RoundRobin.next(rounds.hart, harts);
        }
        Retired { count, last: None }
    }

    /// Makes turns of the harts on the straight path, if hart 0 has the first: one that left the path is likely not the
    /// only one of its round.
    #[inline(always)]
    fn rounds_of_all(&mut self, first: u32, count: u32) -> Rounds
        requires first { first < length self.old.guest.board.harts }
        requires breakpoints { self.old.guest.breakpoints ≡ [] }
        requires stopped { list_any (λ s. s) self.old.guest.stopped ≡ false }
        ensures left { result.left ≤ count }
        ensures inside { result.hart < length self.new.guest.board.harts }
        ensures hart { result.hart
            ≡ (first + (count - result.left)) % length self.old.guest.board.harts }
        ensures computes { Compute (length self.old.guest.board.harts) (count - result.left) first self.old self.new }
        ensures breakpoints { self.new.guest.breakpoints ≡ self.old.guest.breakpoints }
        ensures stopped { self.new.guest.stopped ≡ self.old.guest.stopped }
    {
        if first > 0 {
            return Rounds {
                left: count,
                hart: first,
            };
        }
        self.compute_in_rounds(0, count)
    }
}

/// Whether a step retired an instruction.
#[inline(always)]
fn has_retired(stepped: Stepped) -> bool
    ensures { result ≡ true → reply_of stepped ≡ reply.Retired }
{
    matches!(stepped, Stepped::Retired)
}
