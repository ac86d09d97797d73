//! Laws of all runs, each the contract of a function with an empty body.

ghost use Rattle.std.specs.Prelude.{ℕ};
ghost use Rattle.rvm_protocol.specs.Course.{RunsNeverMove, RunsNeverMoveFromAnyWorld, RunsTellTheirPast};
ghost use Rattle.rvm_protocol.specs.DrivenMove.{ADrivenMoveArrives, ATooLargeGuestIsDeclined};
ghost use Rattle.rvm_protocol.specs.DrivenMove.{DriveCount};
ghost use Rattle.rvm_protocol.specs.FewCopies.{CopiesAreBounded, CopiesAreTold};
ghost use Rattle.rvm_protocol.specs.FrameCauses.{FramesFollowTheirCauses};
ghost use Rattle.rvm_protocol.specs.FrameContents.{FramesCarryTheGuest};
ghost use Rattle.rvm_protocol.specs.FreshCopies.{NoStalePage};
ghost use Rattle.rvm_protocol.specs.Guest.{Guest, IsGuest};
ghost use Rattle.rvm_protocol.specs.LastRound.{LastRoundsCopyWhatIsLeft};
ghost use Rattle.rvm_protocol.specs.RoundCopies.{RoundsCopyWhatIsNotWrittenAgain, RoundsTellTheirCopies};
ghost use Rattle.rvm_protocol.specs.OneGuest.{AlwaysOneGuest, OneGuestFromAnyWorld};

/// The guest at the current host, and each answer that it gave, are those of one guest that never moves, for every list
/// of events over the hosts of a world, with frames lost, repeated and reordered. The replies tell whether its next
/// event is answered or refused; a commit hands over exactly that guest; and no two hosts would answer an event. This
/// holds from a new world, and from any later one by what its modes show.
pub fn the_guest_is_the_one_that_never_moves<S, P, E, A, B>()
    ensures always { (m : Guest S P E A B) → IsGuest m → AlwaysOneGuest m }
    ensures from_any_world { (m : Guest S P E A B) → IsGuest m → OneGuestFromAnyWorld m }
{}

/// The law of the guest that never moves holds in each state of a run, and so do the laws below. After each of its
/// first events, no two hosts would answer, an event that commits hands the guest over, no page is forgotten, a frame
/// that is made carries the guest, and few copies were made. The entries so far have the cause of each Ready, Go and
/// Started, and a Copied for each copy.
pub fn a_run_keeps_the_laws_in_each_state<S, P, E, A, B>()
    ensures always { (m : Guest S P E A B) → IsGuest m → RunsNeverMove m }
    ensures from_any_world { (m : Guest S P E A B) → IsGuest m → RunsNeverMoveFromAnyWorld m }
    ensures past { (m : Guest S P E A B) → IsGuest m → RunsTellTheirPast m }
{}

/// While a source copies, no page is forgotten. The copies that a state names, and all later ones of its move, equal
/// the paused pages.
pub fn a_state_names_only_fresh_copies<S, P, E, A, B>()
    ensures always { (m : Guest S P E A B) → IsGuest m → NoStalePage m }
{}

/// Every Ready, Go or Started of a move was made at or after that move's first ReadySent, Committed or StartedHere
/// reply, respectively.
pub fn frames_follow_their_causes<S, P, E, A, B>()
    ensures always { (m : Guest S P E A B) → IsGuest m → FramesFollowTheirCauses m }
{}

/// Each frame carries what the guest has when the frame is made: a Page the bytes of a page, a Zero a page of zeros, a
/// State the state, and a Part a piece of the state.
pub fn frames_carry_the_guest<S, P, E, A, B>()
    ensures always { (m : Guest S P E A B) → IsGuest m → FramesCarryTheGuest m }
{}

/// Each whole round copies exactly those of its pages that were not in the dirty log when the round first looked at
/// their block of 64 pages.
pub fn a_round_copies_what_is_not_written_again<S, P, E, A, B>()
    ensures always { (m : Guest S P E A B) → IsGuest m → (version n : ℕ) → RoundsCopyWhatIsNotWrittenAgain m version n }
{}

/// The reply at the end of each round tells how many of its replies were copies, how many of its pages had none, and
/// how many pages are in the dirty log.
pub fn a_round_tells_its_copies<S, P, E, A, B>()
    ensures always { (m : Guest S P E A B) → IsGuest m → (version n : ℕ) → RoundsTellTheirCopies m version n }
{}

/// Once the guest is paused, each page that is to be sent or to be fixed is copied, and no other.
pub fn a_last_round_copies_what_is_left<S, P, E, A, B>()
    ensures always { (m : Guest S P E A B) (version self count limit partner n : ℕ)
        → LastRoundsCopyWhatIsLeft m version self count limit partner n }
{}

/// Before it stops, a move makes at most as many copies as its policy's most rounds times its guest's pages. Its source
/// gave the reply Copied for each copy.
pub fn copies_are_bounded<S, P, E, A, B>()
    ensures always { (m : Guest S P E A B) → IsGuest m → CopiesAreBounded m }
    ensures told { (m : Guest S P E A B) → CopiesAreTold m }
{}

/// A driven move of a guest of n pages to another host that takes it, from a world of any run, is answered as planned,
/// the last two times by StartedHere and Finished, and the guest stands unchanged at its target. The move has 2 n + 11
/// events, or 2 n + 9 and two for each part if its state is sent in parts. A host that takes fewer pages declines the
/// guest, which runs on at its source.
pub fn a_driven_move_arrives<S, P, E, A, B>()
    ensures always { (m : Guest S P E A B) → IsGuest m → ADrivenMoveArrives m }
    ensures declined { (m : Guest S P E A B) → IsGuest m → ATooLargeGuestIsDeclined m }
    ensures count { DriveCount E }
{}
