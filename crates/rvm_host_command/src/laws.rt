//! Laws of host processes. Each is the contract of a function with an empty body.

ghost use Rattle.std.specs.Prelude.{◌≡◌, ℕ, List, true};
ghost use Rattle.rvm_host.specs.Hosts.{PlainHost};
ghost use Rattle.rvm_board.specs.Guest.{GuestState};
ghost use Rattle.rvm_guest.specs.TheGuest.{board};
ghost use Rattle.rvm_guest.specs.Valid.{is_valid};
ghost use Rattle.rvm_audit.specs.Hosts.{Openings};
ghost use Rattle.rvm_audit.specs.Worlds.{AreNew};
ghost use Rattle.rvm_host_command.specs.Processes.{AreOneWorld, AreProcesses, ProcessEvent};
ghost use Rattle.rvm_protocol.specs.World.{new_world};

/// Host processes are hosts of one world. Suppose that events led each host of a new world, in a process of its own, to
/// its state now, and that all these events can be put into one sequence in which each frame that came had been sent
/// before. Then a run of the world leads to these hosts, and in each state of that run the guest is the guest of one
/// board that never moves.
pub fn processes_are_hosts_of_one_world()
    ensures { (version origin : ℕ) (g : GuestState) (limits : ℕ → ℕ) (openings : Openings) (now : ℕ → PlainHost)
        (sequence : List ProcessEvent) → is_valid g.guest ≡ true → AreNew version origin g limits openings
        → AreProcesses (new_world board version origin g.guest openings.count limits) openings now sequence
        → AreOneWorld (new_world board version origin g.guest openings.count limits) origin g.guest now sequence }
{}
