//! What a line of a script asks for.

ghost use Rattle.std.specs.Prelude.{◌≡◌, MatchOption, Some, None};
ghost use Rattle.rvm_debug.specs.Words.{words, without_return};
ghost use Rattle.rvm_debug.specs.Lines.{asked, command_of, commanded, count_of, line_of, mem_line, one_hex, one_number, only, poke_line, reg_line, statement, step_line};

use crate::command::Command;
use crate::hex_text::HexText;
use crate::words::{Words, numeral, register_number};
use rvm_board::BoardEvent;

/// The most steps that a line may ask for.
const MAX_STEPS: u32 = 1_000_000;

/// What a line asks for.
#[derive(Drop)]
pub enum Line<'a> {
    /// Nothing: the line is blank or a comment.
    Empty,
    /// `count` steps of a hart, 1 to 1000000.
    Steps { hart: u32, count: u32 },
    /// Bytes that come to the console.
    Input(HexText<'a>),
    /// One event.
    Ask(BoardEvent),
}

impl<'a> Line<'a> {
    /// What a line asks for, which comes without its line feed; `None` if it is not in the grammar.
    #[tactic(auto, unfolding(crate::specs::Lines::line_of))]
    pub fn read(line: &'a [u8]) -> Option<Line<'a>>
        ensures { result ≡ line_of line.now }
    {
        asked(Words::new(without_return(line)))
    }

    /// What a command asks for, by its name and the words after it; `None` if they are not in the grammar.
    pub fn named(name: &[u8], words: Words<'a>) -> Option<Line<'a>>
        ensures { result ≡ statement (command_of name.now) words.entry }
    {
        commanded(Command::named(name)?, words)
    }
}

/// A line without the carriage return at its end, if it has one.
#[tactic(auto, using(crate::proofs::Reading::short_line))]
pub fn without_return(line: &[u8]) -> &[u8]
    ensures { result.now ≡ without_return line.now }
{
    match line {
        [before @ .., last] if *last == b'\r' => before,
        _ => line,
    }
}

/// What the words of a line ask for.
fn asked<'a>(words: Words<'a>) -> Option<Line<'a>>
    ensures { result ≡ asked words.entry }
{
    let mut words = words;
    match words.next() {
        None | Some([b'#', ..]) => Some(Line::Empty),
        Some(name) => Line::named(name, words),
    }
}

/// What a command asks for with the words after its name.
fn commanded<'a>(command: Command, words: Words<'a>) -> Option<Line<'a>>
    ensures { result ≡ commanded command words.entry }
{
    match command {
        Command::Step => step(words),
        Command::Input => Some(Line::Input(one_hex(words)?)),
        Command::Drain => Some(Line::Ask(BoardEvent::Drain(one_number(words)?))),
        Command::Break => Some(Line::Ask(BoardEvent::Break(one_number(words)?))),
        Command::Clear => Some(Line::Ask(BoardEvent::Clear(one_number(words)?))),
        Command::Regs => Some(Line::Ask(BoardEvent::Regs(one_number(words)?))),
        Command::Mem => mem(words),
        Command::Dis => Some(Line::Ask(BoardEvent::Dis(one_number(words)?))),
        Command::Reg => reg(words),
        Command::Poke => poke(words),
    }
}

/// Reads the words after the name of `step H [N]`.
fn step<'a>(words: Words<'a>) -> Option<Line<'a>>
    ensures { result ≡ step_line words.entry }
{
    let mut words = words;
    let hart = numeral(words.next()?)?;
    let count = count(words)?;
    if 1 <= count && count <= MAX_STEPS {
        Some(Line::Steps { hart, count })
    } else {
        None
    }
}

/// The number of steps that a line asks for: one if no word is left.
fn count(words: Words) -> Option<u32>
    ensures { result ≡ count_of words.entry }
{
    if words.is_empty() {
        Some(1)
    } else {
        one_number(words)
    }
}

/// Reads the words after the name of `mem ADDR LEN`.
fn mem<'a>(words: Words<'a>) -> Option<Line<'a>>
    ensures { result ≡ mem_line words.entry }
{
    let mut words = words;
    let address = numeral(words.next()?)?;
    let length = one_number(words)?;
    Some(Line::Ask(BoardEvent::Mem { address, length }))
}

/// Reads the words after the name of `reg H NAME VALUE`.
fn reg<'a>(words: Words<'a>) -> Option<Line<'a>>
    ensures { result ≡ reg_line words.entry }
{
    let mut words = words;
    let hart = numeral(words.next()?)?;
    let register = register_number(words.next()?)?;
    let value = one_number(words)?;
    Some(Line::Ask(BoardEvent::PokeReg {
        hart,
        register,
        value,
    }))
}

/// Reads the words after the name of `poke ADDR HEX`, with 1 to 256 bytes.
fn poke<'a>(words: Words<'a>) -> Option<Line<'a>>
    ensures { result ≡ poke_line words.entry }
{
    let mut words = words;
    let address = numeral(words.next()?)?;
    let bytes = one_hex(words)?.view()?;
    Some(Line::Ask(BoardEvent::PokeMem { address, bytes }))
}

/// The number that the only word spells; `None` if there is no word or a second one, or the word spells no number.
pub fn one_number(words: Words) -> Option<u32>
    ensures { result ≡ one_number words.entry }
{
    numeral(only(words)?)
}

/// The bytes of the only word; `None` if there is no word or a second one, or the word spells no bytes.
fn one_hex<'a>(words: Words<'a>) -> Option<HexText<'a>>
    ensures { result ≡ one_hex words.entry }
{
    HexText::new(only(words)?)
}

/// The only word; `None` if there is no word or a second one.
fn only<'a>(words: Words<'a>) -> Option<&'a [u8]>
    ensures { MatchOption result (only words.entry ≡ None)
        (λ word. only words.entry ≡ Some word.now) }
{
    let mut words = words;
    let word = words.next()?;
    match words.next() {
        None => Some(word),
        Some(_) => None,
    }
}
