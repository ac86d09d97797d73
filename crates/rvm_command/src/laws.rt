//! Laws of runs, and of what the commands write.

ghost use Rattle.rvm_command.specs.RunsJoined.{RunsJoin};
ghost use Rattle.rvm_command.specs.TraceLaw.{ShowsTheRegister};

/// A step whose instruction retires changes no register but the one that its line of a trace shows.
pub fn a_line_shows_the_register_that_changes()
    ensures { ShowsTheRegister }
{}

/// A run of harts in turn and without input that is broken off after a multiple of 64 turns and of the number of harts, before
/// a halt, and goes on with the guest that it left, is as if it had not been broken off.
pub fn a_run_may_be_broken_off()
    ensures { RunsJoin }
{}
