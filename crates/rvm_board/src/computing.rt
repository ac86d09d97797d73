//! Turns of harts that compute: they reach registers, RAM and reservations alone.

ghost use Rattle.std.specs.Prelude.{◌≡◌, ◌<◌, ◌≤◌, ◌+◌, ◌-◌, ◌%◌, [], false, length};
ghost use Rattle.std.specs.List.{list_any};
ghost use Rattle.rvm_board.specs.Computing.{Compute};

use crate::debugged::Debugged;
use crate::rounds::Rounds;
use crate::turns::{IN_COMPUTING, IN_COMPUTING_ROUNDS, any};
use rvm_mem::Memory;

impl<M: Memory> Debugged<M> {
    /// Makes at most `count` turns of the harts in their order, from the turn of hart `first` on, as long as each runs
    /// an instruction that reaches registers, RAM and reservations alone. No such turn changes what waits in the
    /// console, so nothing need be looked at between them. On a board of several harts, makes none if `first` is not 0,
    /// and ends after the turn of the last hart where fewer than a turn of each are left. Makes none if a breakpoint is
    /// set or a hart stands at one. Returns how many were made. Takes no memory.
    #[tactic(auto, using(crate::proofs::Alone::computes_alone))]
    pub fn compute(&mut self, first: u32, count: u32) -> u32
        requires { first < length self.old.guest.board.harts }
        ensures made { result ≤ count }
        ensures computes { Compute (length self.old.guest.board.harts) result first self.old self.new }
    {
        if !self.breakpoints.is_empty() || any(&self.stopped) {
            return 0;
        }
        if self.harts() == 1 {
            return self.compute_alone(count);
        }
        count - self.compute_in_rounds(first, count).left
    }

    /// Makes turns of the only hart on the straight path, none of which can stop.
    #[inline(never)]
    fn compute_alone(&mut self, count: u32) -> u32
        requires harts { length self.old.guest.board.harts ≡ 1 }
        requires breakpoints { self.old.guest.breakpoints ≡ [] }
        requires stopped { list_any (λ s. s) self.old.guest.stopped ≡ false }
        ensures made { result ≤ count }
        ensures computes { Compute 1 result 0 self.old self.new }
    {
        let mut left = count;
        while left > 0 {
            let made = self.straight_turns::<IN_COMPUTING>(0, left, false);
            if made == 0 {
                return count - left;
            }
            left -= made;
        }
        count
    }

    /// Makes turns of the harts in their order on the straight path, none of which can stop.
    #[inline(never)]
    pub(crate) fn compute_in_rounds(&mut self, first: u32, count: u32) -> Rounds
        requires first { first < length self.old.guest.board.harts }
        requires breakpoints { self.old.guest.breakpoints ≡ [] }
        requires stopped { list_any (λ s. s) self.old.guest.stopped ≡ false }
        ensures left { result.left ≤ count }
        ensures inside { result.hart < length self.new.guest.board.harts }
        ensures hart { result.hart
            ≡ (first + (count - result.left)) % length self.old.guest.board.harts }
        ensures computes { Compute (length self.old.guest.board.harts) (count - result.left) first self.old self.new }
        ensures breakpoints { self.new.guest.breakpoints ≡ self.old.guest.breakpoints }
        ensures stopped { self.new.guest.stopped ≡ self.old.guest.stopped }
    {
        self.straight_rounds::<IN_COMPUTING_ROUNDS>(first, count)
    }
}
