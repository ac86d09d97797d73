//! The lists that a source keeps are the protocol's sets and tables, and each of its actions is the protocol's.

ghost use Rattle.std.specs.Prelude.{◌≡◌, ◌<◌, ℕ, true, false, List, Bool, None, length, get_or, replicate};
ghost use Rattle.rvm_mem.specs.Pages.{has};
ghost use Rattle.rvm_protocol.specs.Guest.{Guest};
ghost use Rattle.rvm_precopy.specs.Coverage.{Covers, CoversLast};
ghost use Rattle.rvm_precopy.specs.Plans.{IsPlanOf, Plan, last_found, last_next_of, lost, next_of, opened};
ghost use Rattle.rvm_precopy.specs.Ties.{TheFirstRoundIsTheProtocols, TheNextPageIsTheProtocols, ACopyIsTheProtocols, TheStopRuleIsTheProtocols, TheEndOfARoundIsTheProtocols, ThePauseIsTheProtocols, TheLastPageIsTheProtocols, ALastCopyIsTheProtocols, TheNumbersAreTheProtocols};

/// The first round begins as the protocol's does.
pub fn the_first_round_is_the_protocols<S, P, E, A, B>()
    ensures { (m : Guest S P E A B) → TheFirstRoundIsTheProtocols m }
{}

/// The page that a round copies next is the protocol's.
pub fn the_next_page_is_the_protocols<S, P, E, A, B>()
    ensures { (m : Guest S P E A B) → TheNextPageIsTheProtocols m }
{}

/// A copy leaves what the protocol's copy leaves.
pub fn a_copy_is_the_protocols<S, P, E, A, B>()
    ensures { (m : Guest S P E A B) → ACopyIsTheProtocols m }
{}

/// The stop rule says yes if and only if the protocol's does.
pub fn the_stop_rule_is_the_protocols<S, P, E, A, B>()
    ensures { (m : Guest S P E A B) → TheStopRuleIsTheProtocols m }
{}

/// The end of a round leaves what the protocol's leaves, whatever the stop rule says.
pub fn the_end_of_a_round_is_the_protocols<S, P, E, A, B>()
    ensures { (m : Guest S P E A B) → TheEndOfARoundIsTheProtocols m }
{}

/// The pause leaves what the protocol's leaves.
pub fn the_pause_is_the_protocols<S, P, E, A, B>()
    ensures { (m : Guest S P E A B) → ThePauseIsTheProtocols m }
{}

/// The page of the paused guest that is copied next is the protocol's.
pub fn the_last_page_is_the_protocols<S, P, E, A, B>()
    ensures { (m : Guest S P E A B) → TheLastPageIsTheProtocols m }
{}

/// A copy of the paused guest leaves what the protocol's leaves.
pub fn a_last_copy_is_the_protocols<S, P, E, A, B>()
    ensures { (m : Guest S P E A B) → ALastCopyIsTheProtocols m }
{}

/// The numbers of the newest copies are the protocol's.
pub fn the_numbers_are_the_protocols<S, P, E, A, B>()
    ensures { (m : Guest S P E A B) → TheNumbersAreTheProtocols m }
{}

/// No page is forgotten: each has a copy, is still to be looked at in this round, or is in the dirty log.
pub fn no_page_is_forgotten()
    ensures opened { (n : ℕ) (r : Plan) → Covers (replicate n false) (opened r) }
    ensures turn { (log : List Bool) (r : Plan) → IsPlanOf (length log) r → r.stop ≡ false
        → Covers log r → Covers (next_of log r).log (next_of log r).plan }
    ensures written { (log more : List Bool) (r : Plan)
        → ((p : ℕ) → has p log ≡ true → has p more ≡ true) → Covers log r → Covers more r }
    ensures pause { (log : List Bool) (r : Plan) → IsPlanOf (length log) r → r.stop ≡ true
        → Covers log r → CoversLast (next_of log r).plan }
{}

/// No page of a paused guest is forgotten: when no page is left to be copied, each has a copy.
pub fn no_page_of_a_paused_guest_is_forgotten()
    ensures turn { (r : Plan) → IsPlanOf (length r.to_send) r → CoversLast r
        → CoversLast (last_next_of r).plan }
    ensures lost { (pages : List Bool) (r : Plan) → CoversLast r → CoversLast (lost pages r) }
    ensures all { (r : Plan) → CoversLast r → last_found r ≡ None
        → (p : ℕ) → p < length r.to_send → 0 < get_or r.newest p 0 }
{}
