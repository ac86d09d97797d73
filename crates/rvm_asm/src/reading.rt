//! Reads single tokens. A function that finds other tokens than it reads fails with `BadToken`.

ghost use Rattle.std.specs.Prelude.{◌≡◌, ◌<◌, ◌∷◌, IfOk, IfSome, length};
ghost use Rattle.rvm_text.specs.Tokens.{lexeme_of, lexemes_of};
ghost use Rattle.rvm_asm.specs.Reading.{is_comma, parts};
ghost use Rattle.rvm_asm.specs.Reading.{uncons, mark_at, end_at, name_at, last_string};
ghost use Rattle.rvm_asm.specs.Reading.{register_at, register_comma, last_register, last_address};
ghost use Rattle.rvm_asm.specs.LineViews.{parted, seen, seen_rest, seen_bytes, seen_name};
ghost use Rattle.rvm_asm.specs.LineViews.{seen_parts};

use crate::faults::Fault;
use rvm_isa::Reg;
use rvm_text::{Token, is_name, register};

/// The first token and the tokens after it, or `None` if there is no token.
pub fn next<'t, 'a>(tokens: &'t [Token<'a>]) -> Option<(Token<'a>, &'t [Token<'a>])>
    ensures parts { parted result ≡ uncons (lexemes_of tokens.now) }
    ensures shorter { IfSome result (λ x. length x.1.now < length tokens.now) }
{
    let (first, rest) = tokens.split_first()?;
    Some((*first, rest))
}

/// Reads the mark `wanted`. Returns the tokens after it.
pub fn mark<'t, 'a>(tokens: &'t [Token<'a>], wanted: u8) -> Result<&'t [Token<'a>], Fault>
    ensures { seen_rest result ≡ mark_at wanted (lexemes_of tokens.now) }
{
    match next(tokens) {
        Some((Token::Mark(mark), rest)) => {
            if mark == wanted {
                Ok(rest)
            } else {
                Err(Fault::BadToken)
            }
        }
        _ => Err(Fault::BadToken),
    }
}

/// Whether a token is a comma.
pub fn is_comma(token: Token) -> bool
    ensures { result ≡ is_comma (lexeme_of token.entry) }
{
    matches!(token, Token::Mark(b','))
}

/// The tokens before the first comma, and the tokens after it. Without a comma: all tokens, and `None`.
#[tactic(auto, using(crate::proofs::Parts::steps))]
pub fn first_part<'t, 'a>(tokens: &'t [Token<'a>]) -> (&'t [Token<'a>], Option<&'t [Token<'a>]>)
    ensures parts { parts (lexemes_of tokens.now) ≡ lexemes_of result.0.now ∷ seen_parts result.1 }
    ensures shorter { IfSome result.1 (λ more. length more.now < length tokens.now) }
{
    for at in 0..tokens.len() {
        if is_comma(tokens[at]) {
            return (&tokens[..at], Some(&tokens[at + 1..]));
        }
    }
    (tokens, None)
}

/// Checks that no token is left.
pub fn end(tokens: &[Token]) -> Result<(), Fault>
    ensures { result ≡ end_at (lexemes_of tokens.now) }
{
    if tokens.is_empty() {
        Ok(())
    } else {
        Err(Fault::BadToken)
    }
}

/// Reads a name. Returns it and the tokens after it.
pub fn name<'t, 'a>(tokens: &'t [Token<'a>]) -> Result<(&'a [u8], &'t [Token<'a>]), Fault>
    ensures { seen_name result ≡ name_at (lexemes_of tokens.now) }
{
    match next(tokens) {
        Some((Token::Word(word), rest)) => {
            if is_name(word) {
                Ok((word, rest))
            } else {
                Err(Fault::BadToken)
            }
        }
        _ => Err(Fault::BadToken),
    }
}

/// Reads a string, and nothing after it. Returns it as it is written between its quotes.
pub fn last_string<'a>(tokens: &[Token<'a>]) -> Result<&'a [u8], Fault>
    ensures { seen_bytes result ≡ last_string (lexemes_of tokens.now) }
{
    match next(tokens) {
        Some((Token::Quoted(written), rest)) => {
            end(rest)?;
            Ok(written)
        }
        _ => Err(Fault::BadToken),
    }
}

/// Reads a register. Returns its number and the tokens after it.
pub fn register_number<'t, 'a>(tokens: &'t [Token<'a>]) -> Result<(u32, &'t [Token<'a>]), Fault>
    ensures value { seen result ≡ register_at (lexemes_of tokens.now) }
    ensures below { IfOk result (λ r. r.0 < 32) }
{
    match next(tokens) {
        Some((Token::Word(word), rest)) => match register(word) {
            Some(number) => Ok((number, rest)),
            None => Err(Fault::BadToken),
        },
        _ => Err(Fault::BadToken),
    }
}

/// Reads a register and a comma. Returns the number of the register and the tokens after the comma.
#[tactic(auto, unfolding(crate::specs::Reading::register_comma))]
pub fn register_comma<'t, 'a>(tokens: &'t [Token<'a>]) -> Result<(u32, &'t [Token<'a>]), Fault>
    ensures value { seen result ≡ register_comma (lexemes_of tokens.now) }
    ensures below { IfOk result (λ r. r.0 < 32) }
{
    let (number, rest) = register_number(tokens)?;
    let rest = mark(rest, b',')?;
    Ok((number, rest))
}

/// Reads a register, and nothing after it.
#[tactic(auto, unfolding(crate::specs::Reading::last_register))]
pub fn last_register(tokens: &[Token]) -> Result<Reg, Fault>
    ensures { result ≡ last_register (lexemes_of tokens.now) }
{
    let (number, rest) = register_number(tokens)?;
    end(rest)?;
    Ok(Reg::new(number))
}

/// Reads a register in parentheses, and nothing after it.
#[tactic(auto, unfolding(crate::specs::Reading::last_address))]
pub fn last_address(tokens: &[Token]) -> Result<Reg, Fault>
    ensures { result ≡ last_address (lexemes_of tokens.now) }
{
    let rest = mark(tokens, b'(')?;
    let (number, rest) = register_number(rest)?;
    let rest = mark(rest, b')')?;
    end(rest)?;
    Ok(Reg::new(number))
}
