//! An event of a host's guest.

ghost use Rattle.std.specs.Prelude.{◌≡◌, ◌||◌, ℕ, length};
ghost use Rattle.rvm_mem.specs.Pages.{has};
ghost use Rattle.rvm_guest.specs.TheGuest.{board};

use rvm_board::{BoardEvent, BoardReply, Debugged};
use rvm_mem::{Memory, PagedMemory};

/// Gives a guest an event and returns the answer. Adds the pages that the event writes to the guest's dirty log. Takes
/// no memory.
pub fn apply_event<M: PagedMemory>(guest: &mut Debugged<M>, event: &BoardEvent) -> BoardReply
    ensures reply { result ≡ board.answer guest.old.guest event.now }
    ensures next { guest.new.guest ≡ board.next guest.old.guest event.now }
    ensures log { (p : ℕ) → has p guest.new.dirty
        ≡ (has p guest.old.dirty || board.wrote guest.old.guest event.now p) }
    ensures size { length guest.new.dirty ≡ length guest.old.dirty }
{
    let _size = guest.memory().len();
    guest.apply(event.copy())
}
