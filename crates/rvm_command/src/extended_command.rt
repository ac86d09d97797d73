//! The commands that an extended session has beside those of scripts.

ghost use Rattle.std.specs.Prelude.{◌≡◌};
ghost use Rattle.rvm_command.specs.ExtendedLines.{extended_command_of};

/// A command that scripts do not have, which the first word of a line names.
#[derive(Clone, Copy)]
pub enum ExtendedCommand {
    Csrs,
    Devices,
    Turns,
    FindFault,
}

impl ExtendedCommand {
    /// The command that a word names, or `None` if it names none of these.
    #[tactic(auto, unfolding(crate::specs::ExtendedLines::extended_command_of))]
    pub fn named(word: &[u8]) -> Option<ExtendedCommand>
        ensures { result ≡ extended_command_of word.now }
    {
        if word == b"csrs".as_slice() {
            Some(ExtendedCommand::Csrs)
        } else if word == b"devices".as_slice() {
            Some(ExtendedCommand::Devices)
        } else if word == b"turns".as_slice() {
            Some(ExtendedCommand::Turns)
        } else if word == b"find-fault".as_slice() {
            Some(ExtendedCommand::FindFault)
        } else {
            None
        }
    }
}
