//! Reads expressions. A function that finds other tokens than it reads fails with `BadToken`, and with `UnknownName` if
//! it meets a name without a value.

ghost use Rattle.std.specs.Prelude.{◌≡◌, ◌<◌, ◌≤◌, ◌*◌, ◌^◌, IfSome, Ok, length};
ghost use Rattle.rvm_text.specs.Numbers.{number_of};
ghost use Rattle.rvm_text.specs.Tokens.{lexemes_of};
ghost use Rattle.rvm_asm.specs.Grammar.{any_names, behind_value};
ghost use Rattle.rvm_asm.specs.Reading.{known};
ghost use Rattle.rvm_asm.specs.Values.{negative_at, number_at, sum_at, simple_at, high, low};
ghost use Rattle.rvm_asm.specs.Values.{Names, half_of, half_named, half_at, in_half, in_halves};
ghost use Rattle.rvm_asm.specs.Values.{value_at, last_value};
ghost use Rattle.rvm_asm.specs.Values.{fits_signed};
ghost use Rattle.rvm_asm.specs.LineViews.{names_of, seen, seen_half, seen_rest};

use crate::faults::Fault;
use crate::reading::{end, mark, next};
use crate::symbols::{Symbols, lookup};
use rvm_text::{Token, is_name, number};

/// One of the two parts of a value that an instruction can hold.
#[derive(Clone, Copy)]
pub enum Half {
    /// `%hi`: the upper 20 bits.
    High,
    /// `%lo`: the lower 12 bits.
    Low,
}

impl Half {
    /// This half of a value.
    fn of(self, value: u32) -> u32
        ensures { result ≡ half_of self value }
    {
        match self {
            Half::High => high(value),
            Half::Low => low(value),
        }
    }
}

/// The upper 20 bits of a value, plus one if its lower 12 bits are a negative signed number, modulo 2^20.
pub fn high(value: u32) -> u32
    ensures value { result ≡ high value }
    ensures below { result < 2 ^ 20 }
{
    value.wrapping_add(0x800) >> 12
}

/// The lower 12 bits of a value, sign-extended.
pub fn low(value: u32) -> u32
    ensures { result ≡ low value }
{
    let bits = value % 4096;
    if bits < 2048 {
        bits
    } else {
        bits + (u32::MAX - 4095)
    }
}

/// Whether a value, as a signed number, fits `bits` bits.
pub fn fits_signed(bits: u32, value: u32) -> bool
    requires some { 0 < bits }
    requires few { bits < 32 }
    ensures { result ≡ fits_signed bits value }
{
    let limit = 1u32 << (bits - 1);
    value < limit || value >= limit.wrapping_neg()
}

/// Reads an expression. Returns its value, modulo 2^32, and the tokens after it.
#[tactic(auto, using(crate::proofs::Expressions::fault_in_halves))]
pub fn value<'t, 'a>(
    symbols: &Symbols,
    tokens: &'t [Token<'a>],
) -> Result<(u32, &'t [Token<'a>]), Fault>
    ensures { seen result ≡ value_at (names_of symbols.now) (lexemes_of tokens.now) }
{
    let (depth, inner) = opened(tokens);
    let (whole, rest) = simple(symbols, inner)?;
    closed(tokens, depth, whole, rest)
}

/// The number of `%hi(` and `%lo(` that the tokens begin with, and the tokens after these.
#[tactic(auto, using(crate::proofs::Expressions::openings))]
fn opened<'t, 'a>(tokens: &'t [Token<'a>]) -> (usize, &'t [Token<'a>])
    ensures value { (names : Names) → value_at names (lexemes_of tokens.now)
        ≡ in_halves (lexemes_of tokens.now) result.0
        (simple_at names (lexemes_of result.1.now)) }
    ensures within { 3 * result.0 ≤ length tokens.now }
{
    let mut so_far = (0, tokens);
    while let Some((_, inner)) = half_begun(so_far.1) {
        so_far = (so_far.0 + 1, inner);
    }
    so_far
}

/// Closes the `depth` halves that `tokens` begin with, the innermost first: reads a ')' from `rest` for each, and takes
/// that half of the value.
#[tactic(auto, using(crate::proofs::Expressions::closings))]
fn closed<'t, 'a>(
    tokens: &[Token],
    depth: usize,
    value: u32,
    rest: &'t [Token<'a>],
) -> Result<(u32, &'t [Token<'a>]), Fault>
    requires { 3 * depth ≤ length tokens.now }
    ensures { seen result
        ≡ in_halves (lexemes_of tokens.now) depth (Ok (value, lexemes_of rest.now)) }
{
    let mut so_far = (value, rest);
    for index in (0..depth).rev() {
        so_far = close(&tokens[3 * index..], so_far.0, so_far.1)?;
    }
    Ok(so_far)
}

/// Closes the half that `tokens` begin with: reads a ')' from `rest`, and takes that half of the value. Does nothing if
/// `tokens` begin with no half.
fn close<'t, 'a>(
    tokens: &[Token],
    value: u32,
    rest: &'t [Token<'a>],
) -> Result<(u32, &'t [Token<'a>]), Fault>
    ensures { seen result ≡ in_half (lexemes_of tokens.now) (value, lexemes_of rest.now) }
{
    match half_begun(tokens) {
        Some((half, _)) => {
            let rest = mark(rest, b')')?;
            Ok((half.of(value), rest))
        }
        None => Ok((value, rest)),
    }
}

/// The half whose `%hi(` or `%lo(` the tokens begin with, and the tokens after it.
fn half_begun<'t, 'a>(tokens: &'t [Token<'a>]) -> Option<(Half, &'t [Token<'a>])>
    ensures half { seen_half result ≡ half_at (lexemes_of tokens.now) }
    ensures shorter { IfSome result (λ x. length x.1.now < length tokens.now) }
{
    if let Some((Token::Mark(b'%'), rest)) = next(tokens)
        && let Some((Token::Word(name), rest)) = next(rest)
        && let Some((Token::Mark(b'('), rest)) = next(rest)
    {
        return Some((half_named(name)?, rest));
    }
    None
}

/// The half with this name.
fn half_named(word: &[u8]) -> Option<Half>
    ensures { result ≡ half_named word.now }
{
    match word {
        b"hi" => Some(Half::High),
        b"lo" => Some(Half::Low),
        _ => None,
    }
}

/// Skips an expression, whether its names have values or not. Returns the tokens after it.
#[tactic(auto, using(crate::proofs::Expressions::fault_in_halves))]
pub fn expression<'t, 'a>(tokens: &'t [Token<'a>]) -> Result<&'t [Token<'a>], Fault>
    ensures { seen_rest result ≡ behind_value (lexemes_of tokens.now) }
{
    let (depth, inner) = opened(tokens);
    let (whole, rest) = simple_of_any_names(inner)?;
    let (_, rest) = closed(tokens, depth, whole, rest)?;
    Ok(rest)
}

/// Reads what `simple` reads, as if each name had the value 0.
fn simple_of_any_names<'t, 'a>(tokens: &'t [Token<'a>]) -> Result<(u32, &'t [Token<'a>]), Fault>
    ensures { seen result ≡ simple_at any_names (lexemes_of tokens.now) }
{
    match next(tokens) {
        Some((Token::Word(word), rest)) => {
            if is_name(word) {
                sum(0, rest)
            } else {
                signed_number(tokens)
            }
        }
        _ => signed_number(tokens),
    }
}

/// Reads a number, or a name and a number that is added to it or subtracted from it. Returns the value and the tokens
/// after it.
fn simple<'t, 'a>(
    symbols: &Symbols,
    tokens: &'t [Token<'a>],
) -> Result<(u32, &'t [Token<'a>]), Fault>
    ensures { seen result ≡ simple_at (names_of symbols.now) (lexemes_of tokens.now) }
{
    match next(tokens) {
        Some((Token::Word(word), rest)) => {
            if !is_name(word) {
                return signed_number(tokens);
            }
            match lookup(symbols, word) {
                Some(value) => sum(value, rest),
                None => Err(Fault::UnknownName),
            }
        }
        _ => signed_number(tokens),
    }
}

/// Adds the number after a '+', or subtracts the number after a '-', if the tokens begin so. Returns the value, modulo
/// 2^32, and the tokens after it.
fn sum<'t, 'a>(value: u32, tokens: &'t [Token<'a>]) -> Result<(u32, &'t [Token<'a>]), Fault>
    ensures { seen result ≡ sum_at value (lexemes_of tokens.now) }
{
    match next(tokens) {
        Some((Token::Mark(b'+'), rest)) => {
            let (number, rest) = signed_number(rest)?;
            Ok((value.wrapping_add(number), rest))
        }
        Some((Token::Mark(b'-'), rest)) => {
            let (number, rest) = signed_number(rest)?;
            Ok((value.wrapping_sub(number), rest))
        }
        _ => Ok((value, tokens)),
    }
}

/// Reads a number with an optional minus. Returns it modulo 2^32, and the tokens after it.
pub fn signed_number<'t, 'a>(tokens: &'t [Token<'a>]) -> Result<(u32, &'t [Token<'a>]), Fault>
    ensures { seen result ≡ number_at (lexemes_of tokens.now) }
{
    match next(tokens) {
        Some((Token::Word(word), rest)) => Ok((unsigned_number(word)?, rest)),
        Some((Token::Mark(b'-'), rest)) => negative(rest),
        _ => Err(Fault::BadToken),
    }
}

/// Reads the number after a minus, which is at most 2^31. Returns it negated, modulo 2^32, and the tokens after it.
fn negative<'t, 'a>(tokens: &'t [Token<'a>]) -> Result<(u32, &'t [Token<'a>]), Fault>
    ensures { seen result ≡ negative_at (lexemes_of tokens.now) }
{
    match next(tokens) {
        Some((Token::Word(word), rest)) => {
            let number = unsigned_number(word)?;
            if number <= 1 << 31 {
                Ok((number.wrapping_neg(), rest))
            } else {
                Err(Fault::BadToken)
            }
        }
        _ => Err(Fault::BadToken),
    }
}

/// The number that a word spells, or `BadToken` if it spells none.
fn unsigned_number(word: &[u8]) -> Result<u32, Fault>
    ensures { result ≡ known Fault.BadToken (number_of word.now) }
{
    match number(word) {
        Some(number) => Ok(number),
        None => Err(Fault::BadToken),
    }
}

/// Reads an expression, and nothing after it. Returns its value, modulo 2^32.
#[tactic(auto, unfolding(crate::specs::Values::last_value))]
pub fn last_value(symbols: &Symbols, tokens: &[Token]) -> Result<u32, Fault>
    ensures { result ≡ last_value (names_of symbols.now) (lexemes_of tokens.now) }
{
    let (value, rest) = value(symbols, tokens)?;
    end(rest)?;
    Ok(value)
}
