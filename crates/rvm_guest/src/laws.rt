//! Laws of the debugged board as a guest of the protocol of live migration.

ghost use Rattle.std.specs.Prelude.{◌≡◌, ℕ, ◌*◌, ◌/◌, ◌%◌, ◌<◌, ◌==◌, true, if◌then◌else◌, List, [], Some, None, drop, get_or, length, replicate, slice_set, take};
ghost use Rattle.std.specs.Int.{div_ceil};
ghost use Rattle.rvm_mem.specs.Bytes.{replaced};
ghost use Rattle.rvm_mem.specs.Pages.{page_of};
ghost use Rattle.rvm_codec.specs.Exact.{IsBytes};
ghost use Rattle.rvm_frame.specs.Bodies.{state};
ghost use Rattle.rvm_board.specs.declared.event.BoardEvent.{BoardEvent};
ghost use Rattle.rvm_board.specs.declared.turns.Order.{Order};
ghost use Rattle.rvm_board.specs.Guest.{Guest};
ghost use Rattle.rvm_board.specs.Turns.{after_turns};
ghost use Rattle.rvm_state.specs.Spelling.{HasSpelling, Spells, spelling};
ghost use Rattle.rvm_guest.specs.Body.{body_of, build};
ghost use Rattle.rvm_guest.specs.Events.{AreTurns, steps_in};
ghost use Rattle.rvm_guest.specs.Pages.{after, pages_in, zeros};
ghost use Rattle.rvm_guest.specs.Pieces.{cut};
ghost use Rattle.rvm_guest.specs.TheGuest.{board};
ghost use Rattle.rvm_guest.specs.Valid.{is_valid};
ghost use Rattle.rvm_protocol.specs.Guest.{IsGuest};

/// The debugged board is a guest that can move: all that the protocol asks of a guest holds of it.
pub fn the_board_is_a_guest()
    ensures { IsGuest board }
{}

/// Each event of a valid guest leaves a valid guest.
pub fn each_event_leaves_a_valid_guest()
    ensures { (g : Guest) (e : BoardEvent) → is_valid g ≡ true → is_valid (after g e) ≡ true }
{}

/// If its bytes determine a guest, as those of each guest that a host has do, its state is these bytes.
pub fn a_state_is_the_bytes_of_its_guest()
    ensures { (g : Guest) → HasSpelling g → body_of g ≡ spelling g }
{}

/// Bytes and the pages of a RAM build the guest that they spell, if it has this many harts; they build none if they
/// spell none.
pub fn bytes_build_the_guest_that_they_spell()
    ensures spelled { (harts : ℕ) (bytes ram : List ℕ) (g : Guest) → length ram % 4096 ≡ 0
        → Spells bytes ram g
        → build harts bytes (pages_in ram) ≡ (if length g.board.harts == harts then Some g else None) }
    ensures none { (harts : ℕ) (bytes ram : List ℕ) → length ram % 4096 ≡ 0 → 0 < length ram
        → IsBytes bytes → ((g : Guest) → Spells bytes ram g → ⊥)
        → build harts bytes (pages_in ram) ≡ None }
{}

/// The pages of a RAM are those of the memory: each page is the 4096 bytes that the RAM has for its number; a RAM of
/// zeros has pages of zeros; and 4096 bytes put over one page replace that page alone.
pub fn pages_are_those_of_the_memory()
    ensures bytes { (page : ℕ) (ram : List ℕ) → page < length ram / 4096
        → get_or (pages_in ram) page zeros ≡ page_of page ram }
    ensures blank { (count : ℕ) → pages_in (replicate (4096 * count) 0) ≡ replicate count zeros }
    ensures put { (page : ℕ) (new ram : List ℕ) → length ram % 4096 ≡ 0 → length new ≡ 4096
        → page < length ram / 4096
        → pages_in (replaced (4096 * page) new ram) ≡ slice_set (pages_in ram) page new }
{}

/// A state is cut into as few pieces as possible: each is 4096 bytes of the body of its State frame, and the last one
/// is what is left.
pub fn a_piece_is_4096_bytes_of_a_state()
    ensures count { (numbers body : List ℕ)
        → length (cut numbers body) ≡ div_ceil (length (state.write (numbers, body))) 4096 }
    ensures bytes { (numbers body : List ℕ) (place : ℕ) → place < length (cut numbers body)
        → get_or (cut numbers body) place []
        ≡ take 4096 (drop (4096 * place) (state.write (numbers, body))) }
{}

/// Turns that begin with a hart of the guest are steps: they leave the guest that the events of these steps leave, are
/// as many, and write the same pages.
pub fn turns_are_steps()
    ensures { (order : Order) (n h : ℕ) (g : Guest) → h < length g.board.harts
        → AreTurns (steps_in order n h g) (after_turns order n h g) g }
{}
