//! Turns while the guest leaves its input waiting.

ghost use Rattle.std.specs.Prelude.{◌≡◌, ◌<◌, length};
ghost use Rattle.rvm_board.specs.Turns.{TakesTurns};
ghost use Rattle.rvm_board.specs.WhileFull.{is_full, turns_while};

use crate::debugged::Debugged;
use crate::turns::{Order, Turns, WHILE_FULL, stop_of};
use rvm_mem::Memory;

impl<M: Memory> Debugged<M> {
    /// Makes at most `count` turns of the harts in their order, from the turn of hart `first` on,
    /// as `turns` does. Ends also after a turn that leaves fewer than 16 bytes waiting for the
    /// guest, so that another byte can come. Takes no memory.
    #[inline(never)]
    pub fn turns_while_full(&mut self, first: u32, count: u32) -> Turns
        requires { first < length self.old.guest.board.harts }
        ensures { TakesTurns (turns_while is_full count first self.old.guest) self.old self.new result }
    {
        let harts = self.harts();
        let mut hart = first;
        let mut left = count;
        while left > 0 {
            left -= 1;
            let pc = self.pc(hart);
            if let Some(stop) = stop_of(pc, self.turn_or_stop::<WHILE_FULL>(hart)) {
                return Turns {
                    made: count - left,
                    stop: Some(stop),
                };
            }
            if !self.input_is_full() {
                return Turns {
                    made: count - left,
                    stop: None,
                };
            }
            hart = Order::RoundRobin.next(hart, harts);
        }
        Turns {
            made: count,
            stop: None,
        }
    }

    /// Whether 16 bytes wait for the guest, so that no more can come.
    #[inline(always)]
    pub fn input_is_full(&self) -> bool
        ensures { result ≡ is_full self.now.guest }
    {
        self.board.devices().input_is_full()
    }
}
