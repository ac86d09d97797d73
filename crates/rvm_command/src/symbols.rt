//! The symbols of an image, in the order of their addresses, as `nm -n` prints them.

ghost use Rattle.std.specs.Prelude.{◌≡◌, ◌∷◌, [], None, MatchOption, OnOk, IfErr};
ghost use Rattle.rvm_command.specs.Ends.{IsSymbolRefusal};
ghost use Rattle.rvm_command.specs.SymbolLines.{line_told, lowest_after, refused_line, symbol_at, symbols_of, told_by};
ghost use Rattle.rvm_command.specs.Symbols.{address_of, is_kind};

use crate::refused::Refused;
use rvm_debug::{Words, split_line, without_return};
use rvm_refusal::Refusal;
use rvm_text::digit_value;
use std::marker::Model;

/// A symbol: the address from which on it has the words of RAM, and its name.
#[derive(Drop)]
pub(crate) struct Symbol<'a> {
    pub(crate) address: u32,
    pub(crate) name: &'a [u8],
}

impl<'a> Model for Symbol<'a> {
    ghost use Rattle.rvm_command.specs.Symbols.{Symbol as PlainSymbol};

    ghost Value = { PlainSymbol };

    ghost view = { λ s. record { address = s.address; name = s.name.now } };
}

/// What a line tells.
#[derive(Drop)]
pub(crate) enum Told<'a> {
    /// A symbol.
    Symbol(Symbol<'a>),
    /// Nothing: the line is blank, or has a symbol without an address.
    Nothing,
    /// It is no line of a file of symbols.
    Fault,
}

/// The symbols that the lines of a file tell and that are still to be read.
#[derive(Drop)]
pub(crate) struct Symbols<'a> {
    rest: &'a [u8],
}

impl<'a> Model for Symbols<'a> {
    ghost use Rattle.std.specs.Prelude.{List};
    ghost use Rattle.rvm_command.specs.Symbols.{Symbol as PlainSymbol};
    ghost use Rattle.rvm_command.specs.SymbolLines.{symbols_of};

    ghost Value = { List PlainSymbol };

    ghost view = { λ s. symbols_of s.rest.now };
}

impl<'a> Symbols<'a> {
    /// The symbols that the lines of a file tell.
    pub(crate) fn new(file: &'a [u8]) -> Symbols<'a>
        ensures { result ≡ symbols_of file.now }
    {
        Symbols { rest: file }
    }

    /// Takes the next symbol, if there is one.
    pub(crate) fn next(&mut self) -> Option<Symbol<'a>>
        ensures { MatchOption result (self.old ≡ []) (λ symbol. self.old ≡ symbol ∷ self.new) }
    {
        let (symbol, rest) = first_symbol(self.rest);
        self.rest = rest;
        symbol
    }
}

/// The first symbol that the lines of a file tell, if there is one, and what stands after its line.
fn first_symbol<'a>(file: &'a [u8]) -> (Option<Symbol<'a>>, &'a [u8])
    ensures { MatchOption result.0 (symbols_of file.now ≡ [])
        (λ symbol. symbols_of file.now ≡ symbol ∷ symbols_of result.1.now) }
{
    let mut rest = file;
    while !rest.is_empty() {
        let (line, behind) = split_line(rest);
        rest = behind;
        if let Told::Symbol(symbol) = told_by(line) {
            return (Some(symbol), rest);
        }
    }
    (None, rest)
}

/// Refuses a file of symbols with `BadToken` at its first line that is no line of such a file, or whose symbol has a
/// lower address than the one before it.
pub fn check_symbols(file: &[u8]) -> Result<(), Refused>
    ensures good { OnOk result (refused_line file.now ≡ None) }
    ensures refused { IfErr result (IsSymbolRefusal file.now) }
{
    match refused_line(file) {
        Some(line) => Err(Refused {
            line: Some(line),
            refusal: Refusal::BadToken,
        }),
        None => Ok(()),
    }
}

/// The number, counted from 1, of the first line of a file of symbols that is refused, if one is: it is no line of such
/// a file, or its symbol has a lower address than the one before it.
fn refused_line(file: &[u8]) -> Option<usize>
    ensures { result ≡ refused_line file.now }
{
    let mut rest = file;
    let mut number = 0;
    let mut lowest = 0;
    while !rest.is_empty() {
        let (line, behind) = split_line(rest);
        number += 1;
        let Some(next) = lowest_after(lowest, line) else {
            return Some(number);
        };
        lowest = next;
        rest = behind;
    }
    None
}

/// The lowest address that a symbol may have after a line, by the lowest that it may have in it; none if the line is
/// refused.
fn lowest_after(lowest: u32, line: &[u8]) -> Option<u32>
    ensures { result ≡ lowest_after lowest (line_told line.now) }
{
    match told_by(line) {
        Told::Symbol(symbol) if lowest <= symbol.address => Some(symbol.address),
        Told::Nothing => Some(lowest),
        _ => None,
    }
}

/// What a line tells, which comes without its line feed.
#[tactic(auto, unfolding(crate::specs::SymbolLines::line_told))]
fn told_by<'a>(line: &'a [u8]) -> Told<'a>
    ensures { result ≡ line_told line.now }
{
    words_told(Words::new(without_return(line)))
}

/// What the words of a line tell.
fn words_told<'a>(words: Words<'a>) -> Told<'a>
    ensures { result ≡ told_by words.entry }
{
    let mut words = words;
    let Some(first) = words.next() else {
        return Told::Nothing;
    };
    let Some(second) = words.next() else {
        return Told::Fault;
    };
    match words.next() {
        None if is_kind(first) => Told::Nothing,
        Some(name) if is_kind(second) && words.is_empty() => symbol_at(address_of(first), name),
        _ => Told::Fault,
    }
}

/// The symbol of this name at an address; a fault if there is no address.
fn symbol_at<'a>(address: Option<u32>, name: &'a [u8]) -> Told<'a>
    ensures { result ≡ symbol_at address name.now }
{
    match address {
        Some(address) => Told::Symbol(Symbol { address, name }),
        None => Told::Fault,
    }
}

/// Whether a word is the letter of a kind of symbols: one byte.
fn is_kind(word: &[u8]) -> bool
    ensures { result ≡ is_kind word.now }
{
    word.len() == 1
}

/// The address that a word of eight hexadecimal digits spells; `None` for any other word.
#[tactic(auto, unfolding(crate::specs::Symbols::address_of), using(crate::proofs::SymbolReading::eight_digits))]
fn address_of(word: &[u8]) -> Option<u32>
    ensures { result ≡ address_of word.now }
{
    if word.len() != 8 {
        return None;
    }
    let mut address = 0u32;
    for b in word {
        let digit = digit_value(*b);
        if digit >= 16 {
            return None;
        }
        address = address.checked_mul(16)?.checked_add(u32::from(digit))?;
    }
    Some(address)
}
