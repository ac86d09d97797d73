//! What holds of every event.

ghost use Rattle.rvm_board.specs.declared.event.BoardEvent.{BoardEvent};
ghost use Rattle.rvm_board.specs.Guest.{Guest};
ghost use Rattle.rvm_board.specs.Events.{answered};
ghost use Rattle.rvm_board.specs.Kept.{Keeps};

/// An event changes no page that it does not add to the dirty log. It keeps the size of RAM, the number of harts, the
/// number of harts that devices, reservations and stops are for, each hart's number, and that a hart has 32 registers,
/// of which x0 is 0.
pub fn an_event_keeps_other_pages_and_sizes()
    ensures { (e : BoardEvent) (g : Guest) → Keeps (answered e g) g }
{}
