//! Laws of interleavings, orders and dead ends. Each is the contract of a function with an empty body.

ghost use Rattle.std.specs.Prelude.{◌≡◌, ◌<◌, ◌≤◌, ◌++◌, ℕ, List, Bool, true, length};
ghost use Rattle.rvm_board.specs.Guest.{GuestState};
ghost use Rattle.rvm_guest.specs.TheGuest.{board};
ghost use Rattle.rvm_guest.specs.Valid.{is_valid};
ghost use Rattle.rvm_audit.specs.Cuts.{Completes, Contradicts, IsContradiction, IsExplanation};
ghost use Rattle.rvm_audit.specs.Hosts.{HostEntry};
ghost use Rattle.rvm_audit.specs.Orders.{IsClosed, IsDeadEnd, IsInterleaving, IsOrder, IsStuck, Journals, cut};
ghost use Rattle.rvm_audit.specs.Worlds.{AreNew, AreOneHistory, IsWorldRun, accepted_entries};
ghost use Rattle.rvm_protocol.specs.World.{new_world};
ghost use Rattle.rvm_core.specs.declared.event.Event.{Event};

/// An interleaving is an order: if hosts acted each by itself, any sequence of their entries in which each frame that
/// came was made before, by the host that it names, is the sequence of an order of their journals.
pub fn interleavings_are_orders()
    ensures { (j : Journals) (sequence : List HostEntry) → IsInterleaving j sequence
        → (events : List Event) × (order : IsOrder j events) × (order.sequence ≡ sequence) }
{}

/// An order of the journals of the hosts of a new world is a run of the protocol: what is seen in it are the entries of
/// the journals; it ends where their replays end; in each of its states the guest is the guest of one board that never
/// moves; and the frames are those of its moves.
pub fn the_guest_of_an_order_never_moves()
    ensures { (version origin : ℕ) (g : GuestState) (limits : ℕ → ℕ) (j : Journals) (events : List Event)
        → is_valid g.guest ≡ true → AreNew version origin g limits j.openings → IsOrder j events
        → IsWorldRun (new_world board version origin g.guest j.openings.count limits) origin g.guest j events }
{}

/// An interleaving of what the hosts of a new world did, each by itself, is a run of the protocol in the same sequence:
/// the guest of all these hosts never moved.
pub fn interleavings_are_runs_of_one_world()
    ensures { (version origin : ℕ) (g : GuestState) (limits : ℕ → ℕ) (j : Journals) (sequence : List HostEntry)
        → is_valid g.guest ≡ true → AreNew version origin g limits j.openings → IsInterleaving j sequence
        → (events : List Event)
        × (r : IsWorldRun (new_world board version origin g.guest j.openings.count limits) origin g.guest j events)
        × (r.sequence ≡ sequence) }
{}

/// Any two orders of the same journals have the same answered events of the guest, at the same hosts and in the same
/// order: the guest, its answers and its console are those of any order that is found. If the journals are cut, the
/// answered events of an order of the cut ones are the beginning of those of any order of the whole ones.
pub fn every_order_has_one_guest()
    ensures accepted { (version origin : ℕ) (g : GuestState) (limits : ℕ → ℕ) (j : Journals) (events others : List Event)
        → is_valid g.guest ≡ true → AreNew version origin g limits j.openings → (a : IsOrder j events)
        → (b : IsOrder j others) → accepted_entries a.sequence ≡ accepted_entries b.sequence }
    ensures cuts { (version origin : ℕ) (g : GuestState) (limits : ℕ → ℕ) (j : Journals) (places : ℕ → ℕ)
        (events others : List Event) → is_valid g.guest ≡ true → AreNew version origin g limits j.openings
        → (a : IsOrder (cut places j) events) → (b : IsOrder j others)
        → (rest : List HostEntry) × (accepted_entries b.sequence ≡ accepted_entries a.sequence ++ rest) }
    ensures guest { (version origin : ℕ) (g : GuestState) (limits : ℕ → ℕ) (j : Journals) (events others : List Event)
        → is_valid g.guest ≡ true → AreNew version origin g limits j.openings → IsOrder j events → IsOrder j others
        → AreOneHistory (new_world board version origin g.guest j.openings.count limits) events others }
{}

/// Journals have no order if there is a dead end: places from which none of them can go on, and one of them is not at
/// its end.
pub fn dead_ends_have_no_order()
    ensures { (j : Journals) (places : ℕ → ℕ) (events : List Event) → IsDeadEnd j places → IsOrder j events → ⊥ }
{}

/// If hosts that wait only for one another are stuck, no order takes more of their entries. Two dead ends to which
/// orders lead are therefore at the same places, whatever the sequences of the orders.
pub fn dead_ends_are_greatest()
    ensures greatest { (j : Journals) (places reached : ℕ → ℕ) (members : ℕ → Bool) (events : List Event)
        → IsClosed j places members
        → ((x : ℕ) → x < j.openings.count → members x ≡ true → IsStuck j places x)
        → IsOrder (cut reached j) events
        → (x : ℕ) → x < j.openings.count → members x ≡ true → reached x ≤ length (j.entries x) → reached x ≤ places x }
    ensures one { (j : Journals) (places others : ℕ → ℕ) (events other_events : List Event) → IsDeadEnd j places
        → IsDeadEnd j others → IsOrder (cut places j) events → IsOrder (cut others j) other_events
        → (x : ℕ) → x < j.openings.count → places x ≡ others x }
{}

/// Journals that contradict one another have no order, however those of them that were cut went on.
pub fn contradictions_stay()
    ensures { (j whole : Journals) (is_cut : ℕ → Bool) (places : ℕ → ℕ) (members : ℕ → Bool) (events : List Event)
        → Contradicts j is_cut places members → Completes j is_cut whole → IsOrder whole events → ⊥ }
{}

/// What is left of an order of journals that complete cut ones, once the entries that were cut off are left out, is an
/// explanation of the cut ones.
pub fn orders_explain_cut_journals()
    ensures { (j whole : Journals) (is_cut : ℕ → Bool) (events : List Event)
        → Completes j is_cut whole → IsOrder whole events
        → (sequence : List HostEntry) × IsExplanation j is_cut sequence }
{}

/// Journals that contradict one another have no explanation.
pub fn contradictory_journals_have_no_explanation()
    ensures { (j : Journals) (is_cut : ℕ → Bool) (sequence : List HostEntry)
        → IsContradiction j is_cut → IsExplanation j is_cut sequence → ⊥ }
{}
