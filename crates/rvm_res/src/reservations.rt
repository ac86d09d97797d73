//! The word that each hart has reserved, if any.

ghost use Rattle.std.specs.Prelude.{◌≡◌, ◌%◌, ◌<◌, ◌≤◌, None, length, replicate, map, is_some, count_by, get_or, slice_set};
ghost use Rattle.std.specs.List.{list_any};
ghost use Rattle.rvm_res.specs.Reservations.{held, is_of, poked, stored, released, holds, word_of, without};

use std::marker::Model;

/// The most harts that a board has.
pub const MAX_HARTS: usize = 8;

/// The word that each hart has reserved, if any.
#[derive(Drop)]
pub struct Reservations {
    words: [Option<u32>; MAX_HARTS],
    harts: usize,
    /// The number of harts that have reserved a word, so that most stores need not look at each
    /// hart.
    reserved: usize,
}

impl Model for Reservations {
    ghost use Rattle.std.specs.Prelude.{◌≡◌, ◌≤◌, List, ℕ, Option, take, is_some, count_by};

    ghost Value = { List (Option ℕ) };

    ghost view = { λ r. take r.harts r.words };

    ghost invariant = { λ r. (r.harts ≤ 8) × (r.reserved ≡ count_by is_some (take r.harts r.words)) };
}

impl Reservations {
    /// Reservations for this many harts, at most 8, none of which has reserved a word.
    #[tactic(auto, using(crate::proofs::Words::words))]
    pub fn new(harts: usize) -> Reservations
        requires { harts ≤ 8 }
        ensures { result ≡ replicate harts None }
    {
        Reservations {
            words: [None; MAX_HARTS],
            harts,
            reserved: 0,
        }
    }

    /// Ends each reservation.
    #[tactic(auto, using(crate::proofs::Words::words))]
    pub fn clear(&mut self)
        ensures { self.new ≡ replicate (length self.old) None }
    {
        self.words = [None; MAX_HARTS];
        self.reserved = 0;
    }

    /// The address of the word that hart `hart` has reserved, if any.
    #[inline]
    #[tactic(auto, using(crate::proofs::Words::words))]
    pub fn reserved(&self, hart: usize) -> Option<u32>
        requires { hart < length self.now }
        ensures { result ≡ get_or self.now hart None }
    {
        let held = &self.words;
        held[hart]
    }

    /// Sets the reservation of hart `hart`, in place of its old one.
    #[tactic(auto, using(crate::proofs::Words::words))]
    pub fn restore(&mut self, hart: usize, reserved: Option<u32>)
        requires { hart < length self.old }
        ensures { self.new ≡ slice_set self.old hart reserved }
    {
        let words = &mut self.words;
        words[hart] = reserved;
        self.reserved = count(&self.words[..self.harts]);
    }

    /// Reserves the word at an aligned address for hart `hart`, in place of its old one.
    #[inline]
    #[tactic(auto, using(crate::proofs::Words::words))]
    pub fn hold(&mut self, hart: usize, address: u32)
        requires hart { hart < length self.old }
        requires aligned { address % 4 ≡ 0 }
        ensures { self.new ≡ held hart address self.old }
    {
        if self.reserved(hart).is_none() {
            self.reserved += 1;
        }
        self.words[hart] = Some(address);
    }

    /// Notes a store of hart `hart` to the word that has the byte at an address: each other hart's
    /// reservation of that word ends.
    #[inline(always)]
    pub fn stored(&mut self, hart: usize, address: u32)
        requires { hart < length self.old }
        ensures { self.new ≡ stored hart address self.old }
    {
        if self.reserved > 0 {
            self.end_others(hart, address);
        }
    }

    /// Notes a debugger's write of the byte at an address: each reservation of its word ends.
    #[inline(always)]
    pub fn poked(&mut self, address: u32)
        ensures { self.new ≡ poked address self.old }
    {
        if self.reserved > 0 {
            self.end_all(address);
        }
    }

    /// Ends the reservation of hart `hart`. Returns whether it was for the word at an address.
    #[inline]
    #[tactic(auto, using(crate::proofs::Words::words))]
    pub fn take(&mut self, hart: usize, address: u32) -> bool
        requires hart { hart < length self.old }
        requires aligned { address % 4 ≡ 0 }
        ensures words { self.new ≡ released hart self.old }
        ensures holds { result ≡ holds hart address self.old }
    {
        let own = self.reserved(hart);
        if own.is_none() {
            return false;
        }
        self.words[hart] = None;
        self.reserved -= 1;
        own == Some(address)
    }

    /// Ends each reservation of the word that has the byte at an address.
    #[cold]
    #[inline(never)]
    #[tactic(auto, using(crate::proofs::Words::words))]
    fn end_all(&mut self, address: u32)
        ensures { self.new ≡ poked address self.old }
    {
        end_word(&mut self.words, word_of(address));
        self.reserved = count(&self.words[..self.harts]);
    }

    /// Ends the reservations that harts other than `hart` have of the word with the byte at an
    /// address.
    #[cold]
    #[inline(never)]
    fn end_others(&mut self, hart: usize, address: u32)
        requires { hart < length self.old }
        ensures { self.new ≡ stored hart address self.old }
    {
        let word = word_of(address);
        if !is_reserved(&self.words[..self.harts], word) {
            return;
        }
        let words = &mut self.words;
        let own = words[hart];
        end_word(words, word);
        words[hart] = own;
        self.reserved = count(&self.words[..self.harts]);
    }
}

/// Whether any of these reservations is for a word.
fn is_reserved(words: &[Option<u32>], word: u32) -> bool
    ensures { result ≡ list_any (is_of word) words.now }
{
    words.iter().any(|held| *held == Some(word))
}

/// The address of the aligned word that has the byte at an address.
fn word_of(address: u32) -> u32
    ensures { result ≡ word_of address }
{
    address & !3
}

/// Ends each reservation of a word.
fn end_word(words: &mut [Option<u32>], word: u32)
    ensures { words.new ≡ map (without word) words.old }
{
    for held in words.iter_mut() {
        *held = rest_of(*held, word);
    }
}

/// A reservation after a word was written: none if it was for this word.
fn rest_of(held: Option<u32>, word: u32) -> Option<u32>
    ensures { result ≡ without word held }
{
    held.filter(|held| *held != word)
}

/// The number of words that are reserved.
fn count(words: &[Option<u32>]) -> usize
    ensures { result ≡ count_by is_some words.now }
{
    words.iter().filter(|word| word.is_some()).count()
}
