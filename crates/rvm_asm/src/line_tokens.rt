//! Reads the tokens of lines. Each pass reads them again, so that only the tokens of one line are in memory at a time.

ghost use Rattle.std.specs.Prelude.{◌≡◌, Some, OnOk, IfOk, IfErr};
ghost use Rattle.rvm_text.specs.Lexemes.{lexemes};
ghost use Rattle.rvm_text.specs.Tokens.{lexemes_of};
ghost use Rattle.rvm_asm.specs.Assembly.{AreRead};
ghost use Rattle.rvm_asm.specs.Refusals.{IsReadError};
ghost use Rattle.rvm_asm.specs.Views.{lines_of, texts_of, IsUnreadable};

use crate::error::AsmError;
use crate::faults::{Fault, LineError};
use rvm_text::{TextError, Token, tokens};
use std::alloc::Global;

/// Checks that each line consists of tokens; an empty line has none. Fails with `BadToken` at the first line that does
/// not, counted from 1, or if memory runs out.
pub fn check_lines(alloc: Global, texts: &[&str]) -> Result<(), AsmError>
    ensures read { OnOk result (AreRead (texts_of texts.now) (lines_of (texts_of texts.now))) }
    ensures refused { IfErr result (λ e. IsReadError (texts_of texts.now) e) }
{
    for (index, text) in texts.iter().enumerate() {
        if let Err(error) = read_line(alloc, text) {
            return Err(AsmError::at(index + 1, error));
        }
    }
    Ok(())
}

/// The tokens of a line. Fails with `BadToken` if it does not consist of tokens, or if memory runs out.
pub fn read_line<'a>(alloc: Global, text: &'a str) -> Result<Vec<Token<'a>>, LineError>
    ensures read { IfOk result (λ v. lexemes text.now ≡ Some (lexemes_of v.items)) }
    ensures refused { IfErr result (λ e. IsUnreadable text.now e) }
{
    match tokens(alloc, 1, text.as_bytes()) {
        Ok(tokens) => Ok(tokens),
        Err(TextError::OutOfMemory) => Err(LineError::OutOfMemory),
        Err(TextError::BadToken(_)) => Err(LineError::Faulty(Fault::BadToken)),
    }
}
