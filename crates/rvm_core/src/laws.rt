//! Laws of scripts whose lines are those of events.

ghost use Rattle.std.specs.Prelude.{◌≡◌, ℕ, ◌≤◌, List, [], ◌∷◌, map, Some, None};
ghost use Rattle.rvm_core.specs.EventLines.{event_line, event_lines};
ghost use Rattle.rvm_core.specs.Sayable.{AreSayable, IsSayable, line_making};
ghost use Rattle.rvm_debug.specs.Words.{lines};
ghost use Rattle.rvm_core.specs.declared.event.Event.{Event};
ghost use Rattle.rvm_core.specs.Worlds.{meant};
ghost use Rattle.rvm_core.specs.WorldLines.{world_line_of};
ghost use Rattle.rvm_core.specs.WorldScript.{Standing, after, after_all, done_by, world_script_of};

/// The text of an event is one line, which is read as the line that makes the event; and that line makes that event and
/// no other, wherever in a script it stands.
pub fn a_line_of_an_event_makes_it()
    ensures read { (hosts : ℕ) (e : Event) → hosts ≤ 8 → IsSayable hosts e
        → map (world_line_of hosts) (lines (event_line hosts e)) ≡ Some (line_making hosts e) ∷ [] }
    ensures made { (hosts : ℕ) (e : Event) (s : Standing)
        → (done_by (line_making hosts e) s).standing ≡ after s (meant e) }
{}

/// The lines of events are a script that is done to its end, and makes these events in their order, and no other.
pub fn the_lines_of_events_make_them()
    ensures { (es : List Event) (s : Standing) → s.world.count ≤ 8 → AreSayable s.world.count es
        → let a = world_script_of (lines (event_lines s.world.count es)) 1 s in
        (a.standing ≡ after_all s (map meant es)) × (a.end ≡ None) }
{}
