//! From a line's bytes to its tokens, a byte at a time.

ghost use Rattle.std.specs.Prelude.{◌≡◌, ◌+◌, ◌<◌, ◌≤◌, ◌++◌, length, Some, None, IfOk, IfErr, option_map, slice_range, slice_index, OnOk, IsErrOf};
ghost use Rattle.rvm_text.specs.Bytes.{is_word, is_space, is_mark, is_escape};
ghost use Rattle.rvm_text.specs.Lexemes.{lexemes, after, open_at, at_end, Word};
ghost use Rattle.rvm_text.specs.Refusals.{refusal_of};
ghost use Rattle.rvm_text.specs.Tokens.{lexemes_of, is_name, mode_of, IsTextError, IsBegun, Moves, Adds};

use rvm_refusal::Refusal;
use std::alloc::{AllocError, AllocFailed, Global};
use thiserror::Error;

/// A token of a line. It borrows its bytes from the line.
#[derive(Clone, Copy)]
pub enum Token<'a> {
    /// A name or a number, as it is written.
    Word(&'a [u8]),
    /// One of `, : ( ) + - %`.
    Mark(u8),
    /// A string, as it is written between its quotes.
    Quoted(&'a [u8]),
}

/// Why a line has no tokens.
#[derive(Debug, Clone, Copy, PartialEq, Eq, Error)]
pub enum TextError {
    /// Memory ran out.
    #[error("out of memory")]
    OutOfMemory,
    /// The line with this number is not in the grammar.
    #[error("line {0} is not in the grammar")]
    BadToken(usize),
}

impl From<TextError> for Refusal {
    ghost from_gives = { λ error told. told ≡ refusal_of error };

    fn from(error: TextError) -> Refusal {
        match error {
            TextError::OutOfMemory => Refusal::OutOfMemory,
            TextError::BadToken(_) => Refusal::BadToken,
        }
    }
}

/// The state of the reading of a line, with the index at which an open word or string began.
#[derive(Clone, Copy)]
enum Mode {
    Between,
    Word(usize),
    Quoted(usize),
    Escaped(usize),
    Comment,
}

/// Why a byte can't be taken.
#[derive(Debug, Drop)]
enum Refused {
    OutOfMemory,
    BadToken,
}

impl From<AllocError> for Refused {
    ghost use Rattle.std.specs.Prelude.{◌≡◌};
    ghost use Rattle.rvm_text.specs.declared.token.Refused.TheVariants.{OutOfMemory};

    ghost from_gives = { λ _ e. e ≡ OutOfMemory };

    fn from(_error: AllocError) -> Refused {
        Refused::OutOfMemory
    }
}

impl<T: Drop> From<AllocFailed<T>> for Refused {
    ghost use Rattle.std.specs.Prelude.{◌≡◌};
    ghost use Rattle.rvm_text.specs.declared.token.Refused.TheVariants.{OutOfMemory};

    ghost from_gives = { λ _ e. e ≡ OutOfMemory };

    fn from(_error: AllocFailed<T>) -> Refused {
        Refused::OutOfMemory
    }
}

/// The tokens of a line in order, without blanks and the comment. Fails with `BadToken` and `number`, the number of the
/// line, if the line is not in the grammar, or with `OutOfMemory`.
pub fn tokens<'a>(alloc: Global, number: usize, line: &'a [u8]) -> Result<Vec<Token<'a>>, TextError>
    ensures found { IfOk result (λ v. lexemes line.now ≡ Some (lexemes_of v.items)) }
    ensures refused { IfErr result (λ e. IsTextError number line.now e) }
{
    match read(alloc, line) {
        Ok(tokens) => Ok(tokens),
        Err(Refused::OutOfMemory) => Err(TextError::OutOfMemory),
        Err(Refused::BadToken) => Err(TextError::BadToken(number)),
    }
}

/// The tokens of a line.
#[tactic(auto, unfolding(crate::specs::Lexemes::lexemes))]
fn read<'a>(alloc: Global, line: &'a [u8]) -> Result<Vec<Token<'a>>, Refused>
    ensures found { IfOk result (λ v. lexemes line.now ≡ Some (lexemes_of v.items)) }
    ensures bad { IsErrOf result Refused.BadToken → lexemes line.now ≡ None }
{
    let mut out = Vec::new(alloc);
    let mut mode = Mode::Between;
    for at in 0..line.len() {
        mode = step(&mut out, line, at, mode)?;
    }
    close(&mut out, line, mode)?;
    Ok(out)
}

/// Whether a word is a name: it has at least one byte and does not begin with a digit.
pub fn is_name(word: &[u8]) -> bool
    ensures { result ≡ is_name word.now }
{
    match word {
        [] | [b'0'..=b'9', ..] => false,
        _ => true,
    }
}

/// Whether a byte may stand in a name or a number.
fn is_word(b: u8) -> bool
    ensures { result ≡ is_word b }
{
    matches!(b, b'a'..=b'z' | b'A'..=b'Z' | b'0'..=b'9' | b'_' | b'.')
}

/// Whether a byte is a space or a tab.
fn is_space(b: u8) -> bool
    ensures { result ≡ is_space b }
{
    matches!(b, b' ' | b'\t')
}

/// Whether a byte is a mark.
fn is_mark(b: u8) -> bool
    ensures { result ≡ is_mark b }
{
    matches!(b, b',' | b':' | b'(' | b')' | b'+' | b'-' | b'%')
}

/// Whether a byte may stand after a `\` in a string.
fn is_escape(b: u8) -> bool
    ensures { result ≡ is_escape b }
{
    matches!(b, b'n' | b't' | b'0' | b'"' | b'\\')
}

/// Takes the byte at index `at` while no word, string or comment is open. Returns the state after it.
#[tactic(auto, using(crate::proofs::Lexing::steps))]
fn open<'a>(out: &mut Vec<Token<'a>>, bytes: &[u8], at: usize) -> Result<Mode, Refused>
    requires { at < length bytes.now }
    ensures ok { IfOk result (λ m. Moves bytes.now at (open_at (slice_index bytes.now at)) out.old.items out.new.items m) }
    ensures bad { IsErrOf result Refused.BadToken → open_at (slice_index bytes.now at) ≡ None }
{
    let b = bytes[at];
    if is_word(b) {
        Ok(Mode::Word(at))
    } else if is_space(b) {
        Ok(Mode::Between)
    } else if is_mark(b) {
        out.push(Token::Mark(b))?;
        Ok(Mode::Between)
    } else if b == b'"' {
        Ok(Mode::Quoted(at + 1))
    } else if b == b'#' {
        Ok(Mode::Comment)
    } else {
        Err(Refused::BadToken)
    }
}

/// Adds the word from index `from` up to index `to`.
#[tactic(auto, using(crate::proofs::Lexing::steps))]
fn push_word<'a>(
    out: &mut Vec<Token<'a>>,
    bytes: &'a [u8],
    from: usize,
    to: usize,
) -> Result<(), AllocError>
    requires order { from ≤ to }
    requires inside { to ≤ length bytes.now }
    ensures { OnOk result (Adds (Word (slice_range bytes.now from to)) out.old.items out.new.items) }
{
    out.push(Token::Word(&bytes[from..to]))?;
    Ok(())
}

/// Takes the byte at index `at`. Returns the state after it.
#[tactic(auto, using(crate::proofs::Lexing::steps))]
fn step<'a>(
    out: &mut Vec<Token<'a>>,
    bytes: &'a [u8],
    at: usize,
    mode: Mode,
) -> Result<Mode, Refused>
    requires inside { at < length bytes.now }
    requires begun { IsBegun at mode }
    ensures ok { IfOk result (λ m. Moves bytes.now at (after (mode_of bytes.now at mode) (slice_index bytes.now at)) out.old.items out.new.items m) }
    ensures bad { IsErrOf result Refused.BadToken → after (mode_of bytes.now at mode) (slice_index bytes.now at) ≡ None }
{
    let b = bytes[at];
    match mode {
        Mode::Between => open(out, bytes, at),
        Mode::Word(from) => {
            if is_word(b) {
                return Ok(mode);
            }
            push_word(out, bytes, from, at)?;
            open(out, bytes, at)
        }
        Mode::Quoted(from) => {
            if b == b'"' {
                out.push(Token::Quoted(&bytes[from..at]))?;
                Ok(Mode::Between)
            } else if b == b'\\' {
                Ok(Mode::Escaped(from))
            } else if b < 128 {
                Ok(mode)
            } else {
                Err(Refused::BadToken)
            }
        }
        Mode::Escaped(from) => {
            if is_escape(b) {
                Ok(Mode::Quoted(from))
            } else {
                Err(Refused::BadToken)
            }
        }
        Mode::Comment => {
            if b < 128 {
                Ok(mode)
            } else {
                Err(Refused::BadToken)
            }
        }
    }
}

/// Takes the end of the line, which ends an open word. `BadToken` if a string is open.
#[tactic(auto, using(crate::proofs::Lexing::steps))]
fn close<'a>(out: &mut Vec<Token<'a>>, line: &'a [u8], mode: Mode) -> Result<(), Refused>
    requires { IsBegun (length line.now) mode }
    ensures ok { OnOk result (option_map (λ ts. lexemes_of out.old.items ++ ts) (at_end (mode_of line.now (length line.now) mode)) ≡ Some (lexemes_of out.new.items)) }
    ensures bad { IsErrOf result Refused.BadToken → at_end (mode_of line.now (length line.now) mode) ≡ None }
{
    match mode {
        Mode::Word(from) => {
            push_word(out, line, from, line.len())?;
            Ok(())
        }
        Mode::Between | Mode::Comment => Ok(()),
        Mode::Quoted(_) | Mode::Escaped(_) => Err(Refused::BadToken),
    }
}
