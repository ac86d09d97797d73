//! The second pass: each name's value and each line's place.

ghost use Rattle.std.specs.Prelude.{◌≤◌, ◌^◌, IfOk, IfErr, IsSome};
ghost use Rattle.rvm_text.specs.Lexemes.{lexemes};
ghost use Rattle.rvm_text.specs.Tokens.{lexemes_of};
ghost use Rattle.rvm_asm.specs.LineViews.{names_of, definition_of};
ghost use Rattle.rvm_asm.specs.Assembly.{AreRead, IsLaid};
ghost use Rattle.rvm_asm.specs.Refusals.{IsErrorOf};
ghost use Rattle.rvm_asm.specs.Views.{line_of, lines_of, texts_of, IsDefining, IsLaying};

use crate::error::AsmError;
use crate::faults::{Fault, LineError};
use crate::line_tokens::read_line;
use crate::statements::{definition, label, next_place};
use crate::symbols::{Symbol, Symbols, insert, lookup};
use rvm_text::Token;
use std::alloc::Global;

/// The values of names, and the places of lines.
#[derive(Drop)]
pub struct Layout<'a> {
    /// The value of each name.
    pub symbols: Symbols<'a>,
    /// The place of each line, and the place after the last line.
    pub places: Vec<u64>,
}

/// Gives each name its value and each line its place, from the start of RAM on. Fails with the first line that cannot
/// be placed, counted from 1, or if memory runs out.
pub fn lay_out<'a>(alloc: Global, texts: &[&'a str]) -> Result<Layout<'a>, AsmError>
    requires { AreRead (texts_of texts.now) (lines_of (texts_of texts.now)) }
    ensures laid { IfOk result (λ l. IsLaid (lines_of (texts_of texts.now)) (names_of l.symbols)
        l.places.items) }
    ensures refused { IfErr result (λ e. IsErrorOf (lines_of (texts_of texts.now)) e) }
{
    let mut symbols = Symbols::new(alloc);
    let mut places = Vec::new(alloc);
    let mut place = 1u64 << 31;
    if let Err(_) = places.push(place) {
        return Err(AsmError::OutOfMemory);
    }
    for (index, text) in texts.iter().enumerate() {
        place = match lay_text(alloc, &mut symbols, place, text) {
            Ok(after) => after,
            Err(error) => return Err(AsmError::at(index + 1, error)),
        };
        if let Err(_) = places.push(place) {
            return Err(AsmError::OutOfMemory);
        }
    }
    Ok(Layout { symbols, places })
}

/// Adds the names that a line at `place` defines. Returns the place of the next line.
#[tactic(auto, using(crate::proofs::Lines::texts_laid))]
fn lay_text<'a>(
    alloc: Global,
    symbols: &mut Symbols<'a>,
    place: u64,
    text: &'a str,
) -> Result<u64, LineError>
    requires place { place ≤ 2 ^ 32 }
    requires read { IsSome (lexemes text.now) }
    ensures laid { IsLaying (names_of symbols.old) (names_of symbols.new) place
        (line_of text.now) result }
    ensures below { IfOk result (λ after. after ≤ 2 ^ 32) }
{
    let tokens = read_line(alloc, text)?;
    lay_line(symbols, place, &tokens)
}

/// Does what `lay_text` does, for the tokens of a line.
#[tactic(auto, using(crate::proofs::Laying::layings))]
fn lay_line<'a>(
    symbols: &mut Symbols<'a>,
    place: u64,
    tokens: &[Token<'a>],
) -> Result<u64, LineError>
    requires { place ≤ 2 ^ 32 }
    ensures laid { IsLaying (names_of symbols.old) (names_of symbols.new) place
        (lexemes_of tokens.now) result }
    ensures below { IfOk result (λ after. after ≤ 2 ^ 32) }
{
    let (label, statement) = label(place, tokens);
    let after = next_place(symbols, place, statement)?;
    let definition = definition(symbols, statement)?;
    define(symbols, label)?;
    define(symbols, definition)?;
    Ok(after)
}

/// Adds a symbol, if there is one. Fails with `Defined` if its name has a value already.
fn define<'a>(symbols: &mut Symbols<'a>, symbol: Option<Symbol<'a>>) -> Result<(), LineError>
    ensures { IsDefining (names_of symbols.old) (names_of symbols.new)
        (definition_of symbol.entry) result }
{
    let Some(symbol) = symbol else {
        return Ok(());
    };
    if let Some(_) = lookup(symbols, symbol.name) {
        return Err(LineError::Faulty(Fault::Defined));
    }
    insert(symbols, symbol)?;
    Ok(())
}
