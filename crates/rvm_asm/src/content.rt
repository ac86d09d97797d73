//! The bytes of a line.

ghost use Rattle.std.specs.Prelude.{◌≡◌, ◌∷◌, [], ◌++◌, replicate, IfOk, OnOk};
ghost use Rattle.rvm_text.specs.Strings.{text_of};
ghost use Rattle.rvm_text.specs.Tokens.{lexemes_of};
ghost use Rattle.rvm_asm.specs.Contents.{has_width, value_of_width, value_bytes};
ghost use Rattle.rvm_asm.specs.Contents.{list_bytes, words_of, words_at, global_at, bytes_of_kind};
ghost use Rattle.rvm_asm.specs.Contents.{bytes_at};
ghost use Rattle.rvm_asm.specs.Instructions.{bytes_of};
ghost use Rattle.rvm_asm.specs.Reading.{parts};
ghost use Rattle.rvm_asm.specs.LineViews.{names_of, Gives};

use crate::faults::{Fault, LineError};
use crate::instructions::{Words, call, la, li, register_and_value};
use crate::reading::{end, first_part, last_string, name};
use crate::statements::{Code, Keyword, Width, balign, space, statement};
use crate::symbols::Symbols;
use crate::values::last_value;
use rvm_isa::encode;
use rvm_text::{Token, unescape};
use std::alloc::{AllocError, Global};

/// The bytes of the statement of a line that stands at `place`; none for an empty statement. Fails with the fault of
/// the statement, or if memory runs out.
pub fn contents(
    alloc: Global,
    symbols: &Symbols,
    place: u64,
    tokens: &[Token],
) -> Result<Vec<u8>, LineError>
    ensures { Gives result (bytes_at (names_of symbols.now) place (lexemes_of tokens.now)) }
{
    if tokens.is_empty() {
        return Ok(Vec::new(alloc));
    }
    let (keyword, operands) = statement(tokens)?;
    contents_of_kind(alloc, symbols, place, keyword, operands)
}

/// The bytes of a statement of a kind.
fn contents_of_kind(
    alloc: Global,
    symbols: &Symbols,
    place: u64,
    keyword: Keyword,
    tokens: &[Token],
) -> Result<Vec<u8>, LineError>
    ensures { Gives result (bytes_of_kind (names_of symbols.now) place keyword
        (lexemes_of tokens.now)) }
{
    match keyword {
        Keyword::Org | Keyword::Equ => Ok(Vec::new(alloc)),
        Keyword::Space => {
            let count = space(symbols, tokens)?;
            Ok(zeros(alloc, count)?)
        }
        Keyword::Balign => {
            let count = balign(symbols, place, tokens)?;
            Ok(zeros(alloc, count)?)
        }
        Keyword::List(width) => list(alloc, symbols, width, tokens),
        Keyword::Ascii => {
            let written = last_string(tokens)?;
            Ok(unescape(alloc, written)?)
        }
        Keyword::Asciz => {
            let written = last_string(tokens)?;
            Ok(zero_ended(alloc, written)?)
        }
        Keyword::Text => {
            end(tokens)?;
            Ok(Vec::new(alloc))
        }
        Keyword::Global => {
            global(tokens)?;
            Ok(Vec::new(alloc))
        }
        Keyword::Code(code) => {
            let words = words(symbols, place, code, tokens)?;
            Ok(to_bytes(alloc, words)?)
        }
    }
}

/// This many zeros.
fn zeros(alloc: Global, count: u64) -> Result<Vec<u8>, AllocError>
    ensures { IfOk result (λ v. v.items ≡ replicate count 0) }
{
    let mut bytes = Vec::new(alloc);
    bytes.resize(count as usize, 0)?;
    Ok(bytes)
}

/// The text of a string, with a zero after it.
fn zero_ended(alloc: Global, written: &[u8]) -> Result<Vec<u8>, AllocError>
    ensures { IfOk result (λ v. v.items ≡ text_of written.now ++ 0 ∷ []) }
{
    let mut bytes = unescape(alloc, written)?;
    bytes.push(0)?;
    Ok(bytes)
}

/// Checks that the tokens are a name, and nothing after it.
fn global(tokens: &[Token]) -> Result<(), Fault>
    ensures { result ≡ global_at (lexemes_of tokens.now) }
{
    let (_, rest) = name(tokens)?;
    end(rest)
}

/// The bytes of a list of values, each with its lowest byte first.
#[tactic(auto, using(crate::proofs::Parts::turns))]
fn list(
    alloc: Global,
    symbols: &Symbols,
    width: Width,
    tokens: &[Token],
) -> Result<Vec<u8>, LineError>
    ensures { Gives result (list_bytes (names_of symbols.now) width
        (parts (lexemes_of tokens.now))) }
{
    let mut bytes = Vec::new(alloc);
    let mut left = Some(tokens);
    while let Some(rest) = left {
        let (part, more) = first_part(rest);
        let value = value_of_width(symbols, width, part)?;
        append(&mut bytes, width, value)?;
        left = more;
    }
    Ok(bytes)
}

/// Reads an expression, and nothing after it. `OutOfReach` if its value does not fit the width, as an unsigned or a
/// signed number.
#[tactic(auto, unfolding(crate::specs::Contents::value_of_width))]
fn value_of_width(symbols: &Symbols, width: Width, tokens: &[Token]) -> Result<u32, Fault>
    ensures { result ≡ value_of_width (names_of symbols.now) width (lexemes_of tokens.now) }
{
    let value = last_value(symbols, tokens)?;
    if has_width(width, value) {
        Ok(value)
    } else {
        Err(Fault::OutOfReach)
    }
}

/// Whether a value, as an unsigned or a signed number, fits a width.
fn has_width(width: Width, value: u32) -> bool
    ensures { result ≡ has_width width value }
{
    match width {
        Width::Word => true,
        Width::Half => value < 1 << 16 || value >= (1u32 << 15).wrapping_neg(),
        Width::Byte => value < 1 << 8 || value >= (1u32 << 7).wrapping_neg(),
    }
}

/// Appends the bytes of a value of this width, the lowest first.
fn append(bytes: &mut Vec<u8>, width: Width, value: u32) -> Result<(), AllocError>
    ensures { OnOk result (bytes.new.items ≡ bytes.old.items ++ value_bytes width value) }
{
    let all = value.to_le_bytes();
    match width {
        Width::Word => bytes.extend_from_slice(&all[..4]),
        Width::Half => bytes.extend_from_slice(&all[..2]),
        Width::Byte => bytes.extend_from_slice(&all[..1]),
    }
}

/// The words of an instruction or a pseudo-instruction at `place`. A fault of its operands counts first; then
/// `OutOfReach` if the place is no multiple of four.
#[tactic(auto, unfolding(crate::specs::Contents::words_at))]
fn words(symbols: &Symbols, place: u64, code: Code, tokens: &[Token]) -> Result<Words, Fault>
    ensures { result ≡ words_at (names_of symbols.now) place code (lexemes_of tokens.now) }
{
    let words = words_of(symbols, place, code, tokens)?;
    if place % 4 == 0 {
        Ok(words)
    } else {
        Err(Fault::OutOfReach)
    }
}

/// The words of an instruction or a pseudo-instruction at any place.
fn words_of(symbols: &Symbols, place: u64, code: Code, tokens: &[Token]) -> Result<Words, Fault>
    ensures { result ≡ words_of (names_of symbols.now) place code (lexemes_of tokens.now) }
{
    match code {
        Code::Li => {
            let (rd, value) = register_and_value(symbols, tokens)?;
            Ok(li(rd, value))
        }
        Code::La => la(symbols, place, tokens),
        Code::Call => call(symbols, place, tokens),
        Code::Pseudo(pseudo) => {
            let ins = pseudo.read(symbols, place, tokens)?;
            Ok(Words::One(encode(&ins)))
        }
        Code::Instruction(operation) => {
            let ins = operation.read(symbols, place, tokens)?;
            Ok(Words::One(encode(&ins)))
        }
    }
}

/// The bytes of words, each word with its lowest byte first.
fn to_bytes(alloc: Global, words: Words) -> Result<Vec<u8>, AllocError>
    ensures { IfOk result (λ v. v.items ≡ bytes_of words) }
{
    let mut bytes = Vec::new(alloc);
    match words {
        Words::One(word) => bytes.extend_from_slice(&word.to_le_bytes())?,
        Words::Two(first, second) => {
            bytes.extend_from_slice(&first.to_le_bytes())?;
            bytes.extend_from_slice(&second.to_le_bytes())?;
        }
    }
    Ok(bytes)
}
