//! Turns of a hart.

ghost use Rattle.rvm_board.specs.Turns.{TakesTurns};
ghost use Rattle.rvm_message.specs.Turns.{guest_turned};

use rvm_board::{Debugged, Order, Turns};
use rvm_mem::Memory;

/// The result of turns if no turn was made.
pub const NO_TURNS: Turns = Turns {
    made: 0,
    stop: None,
};

/// Makes at most `count` consecutive turns of a hart of a guest, as `Debugged::turns` does; none if the board has no
/// such hart. Takes no memory.
pub fn turn_guest<M: Memory>(guest: &mut Debugged<M>, hart: u32, count: u32) -> Turns
    ensures { TakesTurns (guest_turned hart count guest.old.guest) guest.old guest.new result }
{
    if hart >= guest.harts() {
        return NO_TURNS;
    }
    guest.turns(Order::Alone, hart, count)
}
