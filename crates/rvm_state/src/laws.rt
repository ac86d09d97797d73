//! Laws of the encoding of guests.

ghost use Rattle.std.specs.Prelude.{◌≡◌, ◌<◌, ℕ, List, Some, length};
ghost use Rattle.rvm_board.specs.Guest.{Guest};
ghost use Rattle.rvm_state.specs.Formats.{state};
ghost use Rattle.rvm_board.specs.State.{state_of};
ghost use Rattle.rvm_state.specs.Spelling.{HasSpelling, Spells, spelling};

/// Bytes and a RAM are the encoding of at most one guest.
pub fn no_two_guests_have_one_spelling()
    ensures { (bytes ram : List ℕ) (g h : Guest)
        → Spells bytes ram g → Spells bytes ram h → g ≡ h }
{}

/// The bytes that are written for a guest are, with its RAM, its encoding.
pub fn what_is_written_spells_the_guest()
    ensures { (g : Guest) → 0 < length g.board.shared.bytes → HasSpelling g
        → Spells (spelling g) g.board.shared.bytes g }
{}

/// The values of a guest are read back from the bytes that are written for it.
pub fn what_is_written_is_read_back()
    ensures { (g : Guest) → HasSpelling g
        → (state (length g.board.shared.bytes)).read (spelling g) ≡ Some (state_of g) }
{}
