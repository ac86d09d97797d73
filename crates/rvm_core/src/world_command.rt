//! The commands of a move.

ghost use Rattle.std.specs.Prelude.{◌≡◌};
ghost use Rattle.rvm_core.specs.WorldLines.{world_command_of};

/// A command of a move, as the first word of its line names it.
#[derive(Clone, Copy)]
pub enum WorldCommand {
    Begin,
    Move,
    Copy,
    Resend,
    Abort,
}

impl WorldCommand {
    /// Returns the command that a word names; None if it names none.
    #[tactic(auto, unfolding(crate::specs::WorldLines::world_command_of))]
    pub fn named(word: &[u8]) -> Option<WorldCommand>
        ensures { result ≡ world_command_of word.now }
    {
        if word == b"begin".as_slice() {
            Some(WorldCommand::Begin)
        } else if word == b"move".as_slice() {
            Some(WorldCommand::Move)
        } else if word == b"copy".as_slice() {
            Some(WorldCommand::Copy)
        } else if word == b"resend".as_slice() {
            Some(WorldCommand::Resend)
        } else if word == b"abort".as_slice() {
            Some(WorldCommand::Abort)
        } else {
            None
        }
    }
}
