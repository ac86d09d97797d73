//! The commands of scripts.

ghost use Rattle.std.specs.Prelude.{◌≡◌};
ghost use Rattle.rvm_debug.specs.Lines.{command_of};

/// A command of a script, which the first word of a line names.
#[derive(Clone, Copy)]
pub enum Command {
    Step,
    Input,
    Drain,
    Break,
    Clear,
    Regs,
    Mem,
    Dis,
    Reg,
    Poke,
}

impl Command {
    /// The command that a word names, or `None` if it names none.
    #[tactic(auto, unfolding(crate::specs::Lines::command_of))]
    pub fn named(word: &[u8]) -> Option<Command>
        ensures { result ≡ command_of word.now }
    {
        match word {
            b"step" => Some(Command::Step),
            b"input" => Some(Command::Input),
            b"drain" => Some(Command::Drain),
            b"break" => Some(Command::Break),
            b"clear" => Some(Command::Clear),
            b"regs" => Some(Command::Regs),
            b"mem" => Some(Command::Mem),
            b"dis" => Some(Command::Dis),
            b"reg" => Some(Command::Reg),
            b"poke" => Some(Command::Poke),
            _ => None,
        }
    }
}
