//! The words of a line, and the numbers and registers that words name.

ghost use Rattle.std.specs.Prelude.{◌≡◌, ◌∷◌, [], ◌<◌, ◌≤◌, take, drop, length, false, ◌↔◌, IsTrue, MatchOption};
ghost use Rattle.rvm_text.specs.Bytes.{is_space};
ghost use Rattle.rvm_debug.specs.Words.{begins_blank, words};
ghost use Rattle.rvm_debug.specs.Lines.{numeral, register_in};

use rvm_hart::PC;
use rvm_text::{number, register};
use std::marker::Model;

/// The words of a line that are still to be read.
#[derive(Drop)]
pub struct Words<'a> {
    rest: &'a [u8],
}

impl<'a> Model for Words<'a> {
    ghost use Rattle.std.specs.Prelude.{List, ℕ};
    ghost use Rattle.rvm_debug.specs.Words.{words};

    ghost Value = { List (List ℕ) };

    ghost view = { λ w. words w.rest.now };
}

impl<'a> Words<'a> {
    /// The words of a line: spaces and tabs separate them.
    pub fn new(line: &'a [u8]) -> Words<'a>
        ensures { result ≡ words line.now }
    {
        Words { rest: line }
    }

    /// Whether no word is left.
    #[tactic(auto, using(crate::proofs::Reading::reading))]
    pub fn is_empty(&self) -> bool
        ensures { IsTrue result ↔ (self.now ≡ []) }
    {
        behind_blanks(self.rest).is_empty()
    }

    /// Takes the next word, if there is one.
    #[tactic(auto, using(crate::proofs::Reading::reading))]
    pub fn next(&mut self) -> Option<&'a [u8]>
        ensures { MatchOption result (self.old ≡ [])
            (λ word. self.old ≡ word.now ∷ self.new) }
    {
        let rest = behind_blanks(self.rest);
        if rest.is_empty() {
            return None;
        }
        let length = word_length(rest);
        self.rest = &rest[length..];
        Some(&rest[..length])
    }
}

/// Bytes without the spaces and tabs before them.
#[tactic(auto, using(crate::proofs::Reading::reading))]
fn behind_blanks(bytes: &[u8]) -> &[u8]
    ensures words { words result.now ≡ words bytes.now }
    ensures begins { begins_blank result.now ≡ false }
{
    let mut rest = bytes;
    while let [first, behind @ ..] = rest
        && is_blank(*first)
    {
        rest = behind;
    }
    rest
}

/// The length of the word with which the bytes begin.
#[tactic(auto, using(crate::proofs::Reading::reading))]
fn word_length(bytes: &[u8]) -> usize
    requires some { 0 < length bytes.now }
    requires begins { begins_blank bytes.now ≡ false }
    ensures within { result ≤ length bytes.now }
    ensures word { words bytes.now ≡ take result bytes.now ∷ words (drop result bytes.now) }
{
    for (at, b) in bytes.iter().enumerate() {
        if is_blank(*b) {
            return at;
        }
    }
    bytes.len()
}

/// Whether a byte is a space or a tab.
fn is_blank(b: u8) -> bool
    ensures { result ≡ is_space b }
{
    matches!(b, b' ' | b'\t')
}

/// The number that a word spells: decimal, or hexadecimal after `0x`. `None` if it spells none below 2^32.
pub fn numeral(word: &[u8]) -> Option<u32>
    ensures { result ≡ numeral word.now }
{
    match word {
        [b'0', b'b', ..] => None,
        _ => number(word),
    }
}

/// The number of the register that a word names: 0 to 31, or 32 for `pc`. `None` if it names none.
#[tactic(auto, unfolding(crate::specs::Lines::register_in))]
pub fn register_number(word: &[u8]) -> Option<u32>
    ensures { result ≡ register_in word.now }
{
    match word {
        b"pc" => Some(PC),
        _ => register(word),
    }
}
