//! What a line of an extended session asks for.

ghost use Rattle.std.specs.Prelude.{◌≡◌};
ghost use Rattle.rvm_command.specs.ExtendedLines.{devices_line, extended_commanded, extended_line_of, further, number_of_turns};

use crate::extended_command::ExtendedCommand;
use rvm_debug::{Line, Words, one_number, without_return};

/// The most turns that a line may ask for.
const MAX_TURNS: u32 = 1_000_000;

/// What a line of an extended session asks for.
#[derive(Drop)]
pub enum ExtendedLine<'a> {
    /// What a line of a script asks for.
    Plain(Line<'a>),
    /// The control and status registers of a hart.
    Csrs(u32),
    /// What the devices keep.
    Devices,
    /// At most this many turns of the harts in their order, 1 to 1000000.
    Turns(u32),
    /// At most this many turns, 1 to 1000000, up to the first fault that they show.
    FindFault(u32),
}

impl<'a> ExtendedLine<'a> {
    /// What a line asks for, which comes without its line feed; `None` if it is not in the grammar. Each line of a
    /// script asks for what it asks for there.
    #[tactic(auto, unfolding(crate::specs::ExtendedLines::extended_line_of))]
    pub fn read(line: &'a [u8]) -> Option<ExtendedLine<'a>>
        ensures { result ≡ extended_line_of line.now }
    {
        match Line::read(line) {
            Some(plain) => Some(ExtendedLine::Plain(plain)),
            None => further(Words::new(without_return(line))),
        }
    }
}

/// What the words of a line ask for that no script asks for.
fn further<'a>(words: Words<'a>) -> Option<ExtendedLine<'a>>
    ensures { result ≡ further words.entry }
{
    let mut words = words;
    let name = words.next()?;
    commanded(ExtendedCommand::named(name)?, words)
}

/// What a command asks for, with the words after its name.
fn commanded<'a>(command: ExtendedCommand, words: Words<'a>) -> Option<ExtendedLine<'a>>
    ensures { result ≡ extended_commanded command words.entry }
{
    match command {
        ExtendedCommand::Csrs => Some(ExtendedLine::Csrs(one_number(words)?)),
        ExtendedCommand::Devices => devices(words),
        ExtendedCommand::Turns => Some(ExtendedLine::Turns(number_of_turns(words)?)),
        ExtendedCommand::FindFault => Some(ExtendedLine::FindFault(number_of_turns(words)?)),
    }
}

/// Reads the words after the name of `devices`: none.
fn devices<'a>(words: Words<'a>) -> Option<ExtendedLine<'a>>
    ensures { result ≡ devices_line words.entry }
{
    if words.is_empty() {
        Some(ExtendedLine::Devices)
    } else {
        None
    }
}

/// Reads the words after the name of `turns N` or `find-fault N`.
fn number_of_turns<'a>(words: Words<'a>) -> Option<u32>
    ensures { result ≡ number_of_turns words.entry }
{
    let count = one_number(words)?;
    if 1 <= count && count <= MAX_TURNS {
        Some(count)
    } else {
        None
    }
}
