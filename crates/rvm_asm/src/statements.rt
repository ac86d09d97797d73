//! What kind a line is, what it defines, and where the next line stands.

ghost use Rattle.std.specs.Prelude.{◌≡◌, ◌+◌, ◌≤◌, ◌<◌, ◌^◌, IfOk, option_map, count_by};
ghost use Rattle.rvm_text.specs.Tokens.{lexemes_of};
ghost use Rattle.rvm_asm.specs.Operations.{operation_of};
ghost use Rattle.rvm_asm.specs.Reading.{is_comma};
ghost use Rattle.rvm_asm.specs.Statements.{keyword_of, keyword_at, statement_at, label_of};
ghost use Rattle.rvm_asm.specs.Statements.{advanced, bytes_in, behind_string, list_size, size_of};
ghost use Rattle.rvm_asm.specs.Statements.{is_alignment, balign_at, space_at};
ghost use Rattle.rvm_asm.specs.Statements.{place_after, next_place, equ_of, equ_at};
ghost use Rattle.rvm_asm.specs.LineViews.{names_of, seen, seen_definition, definition_of};

use crate::faults::Fault;
use crate::grammar::check_grammar;
use crate::instructions::{li_size, register_and_value};
use crate::operations::{Operation, operation_named};
use crate::pseudo::Pseudo;
use crate::reading::{is_comma, last_string, mark, name, next};
use crate::symbols::{Symbol, Symbols};
use crate::values::last_value;
use crate::words::named;
use rvm_text::{Token, is_name, text_length};

/// The size of each value of a list.
#[derive(Clone, Copy)]
pub enum Width {
    Word,
    Half,
    Byte,
}

impl Width {
    /// The size in bytes: 4, 2 or 1.
    pub fn bytes(self) -> u64
        ensures value { result ≡ bytes_in self }
        ensures few { result ≤ 4 }
    {
        match self {
            Width::Word => 4,
            Width::Half => 2,
            Width::Byte => 1,
        }
    }
}

/// The kind of a statement.
#[derive(Clone, Copy)]
pub enum Keyword {
    Org,
    Space,
    Balign,
    Equ,
    List(Width),
    Ascii,
    Asciz,
    Text,
    Global,
    Code(Code),
}

/// The kind of a statement that makes instructions.
#[derive(Clone, Copy)]
pub enum Code {
    Li,
    La,
    Call,
    Pseudo(Pseudo),
    Instruction(Operation),
}

/// The directives.
const DIRECTIVES: [(&str, Keyword); 12] = [
    (".org", Keyword::Org),
    (".space", Keyword::Space),
    (".balign", Keyword::Balign),
    (".equ", Keyword::Equ),
    (".word", Keyword::List(Width::Word)),
    (".half", Keyword::List(Width::Half)),
    (".byte", Keyword::List(Width::Byte)),
    (".ascii", Keyword::Ascii),
    (".asciz", Keyword::Asciz),
    (".text", Keyword::Text),
    (".globl", Keyword::Global),
    (".global", Keyword::Global),
];

/// The pseudo-instructions.
const PSEUDO_INSTRUCTIONS: [(&str, Keyword); 16] = [
    ("nop", Keyword::Code(Code::Pseudo(Pseudo::Nop))),
    ("mv", Keyword::Code(Code::Pseudo(Pseudo::Mv))),
    ("not", Keyword::Code(Code::Pseudo(Pseudo::Not))),
    ("neg", Keyword::Code(Code::Pseudo(Pseudo::Neg))),
    ("seqz", Keyword::Code(Code::Pseudo(Pseudo::Seqz))),
    ("snez", Keyword::Code(Code::Pseudo(Pseudo::Snez))),
    ("beqz", Keyword::Code(Code::Pseudo(Pseudo::Beqz))),
    ("bnez", Keyword::Code(Code::Pseudo(Pseudo::Bnez))),
    ("j", Keyword::Code(Code::Pseudo(Pseudo::J))),
    ("jr", Keyword::Code(Code::Pseudo(Pseudo::Jr))),
    ("ret", Keyword::Code(Code::Pseudo(Pseudo::Ret))),
    ("csrr", Keyword::Code(Code::Pseudo(Pseudo::Csrr))),
    ("csrw", Keyword::Code(Code::Pseudo(Pseudo::Csrw))),
    ("li", Keyword::Code(Code::Li)),
    ("la", Keyword::Code(Code::La)),
    ("call", Keyword::Code(Code::Call)),
];

/// The kind of statement that a word names, or `None` if it names none.
#[tactic(auto, unfolding(crate::specs::Statements::keyword_of, crate::specs::Statements::directives, crate::specs::Statements::pseudo_instructions))]
fn keyword_named(word: &[u8]) -> Option<Keyword>
    ensures { result ≡ keyword_of word.now }
{
    named(&DIRECTIVES, word)
        .or(named(&PSEUDO_INSTRUCTIONS, word))
        .or(instruction_named(word))
}

/// The kind of statement of the instruction that a word names, or `None` if it names none.
fn instruction_named(word: &[u8]) -> Option<Keyword>
    ensures { result ≡ option_map (λ o. Keyword.Code (Code.Instruction o)) (operation_of word.now) }
{
    let operation = operation_named(word)?;
    Some(Keyword::Code(Code::Instruction(operation)))
}

/// The kind of statement that the first word names, and the tokens after it.
fn split_keyword<'t, 'a>(tokens: &'t [Token<'a>]) -> Result<(Keyword, &'t [Token<'a>]), Fault>
    ensures { seen result ≡ keyword_at (lexemes_of tokens.now) }
{
    match next(tokens) {
        Some((Token::Word(word), rest)) => match keyword_named(word) {
            Some(keyword) => Ok((keyword, rest)),
            None => Err(Fault::BadToken),
        },
        _ => Err(Fault::BadToken),
    }
}

/// The kind of a statement, and its operands. `BadToken` if it is not in the grammar.
pub fn statement<'t, 'a>(tokens: &'t [Token<'a>]) -> Result<(Keyword, &'t [Token<'a>]), Fault>
    ensures { seen result ≡ statement_at (lexemes_of tokens.now) }
{
    let (keyword, operands) = split_keyword(tokens)?;
    check_grammar(keyword, operands)?;
    Ok((keyword, operands))
}

/// The label of a line that stands at a place, if it has one, and the statement after it.
pub fn label<'t, 'a>(place: u64, tokens: &'t [Token<'a>]) -> (Option<Symbol<'a>>, &'t [Token<'a>])
    ensures { (definition_of result.0, lexemes_of result.1.now)
        ≡ label_of place (lexemes_of tokens.now) }
{
    if let Some((Token::Word(name), rest)) = next(tokens)
        && is_name(name)
        && let Some((Token::Mark(b':'), rest)) = next(rest)
    {
        let value = (place % (1 << 32)) as u32;
        return (Some(Symbol { name, value }), rest);
    }
    (None, tokens)
}

/// The place `size` bytes after `place`. `OutOfReach` if it is above 2^32.
fn advance(place: u64, size: u64) -> Result<u64, Fault>
    requires { place ≤ 2 ^ 32 }
    ensures value { result ≡ advanced place size }
    ensures below { IfOk result (λ after. after ≤ 2 ^ 32) }
{
    if size <= (1 << 32) - place {
        Ok(place + size)
    } else {
        Err(Fault::OutOfReach)
    }
}

/// The place after a list of values of this width that stands at `place`.
fn advance_list(place: u64, width: Width, tokens: &[Token]) -> Result<u64, Fault>
    requires { place ≤ 2 ^ 32 }
    ensures value { result ≡ advanced place (list_size width (lexemes_of tokens.now)) }
    ensures below { IfOk result (λ after. after ≤ 2 ^ 32) }
{
    let bytes = width.bytes();
    match bytes.checked_mul(commas(tokens)) {
        Some(size) if size <= 1 << 32 => advance(place, size + bytes),
        _ => Err(Fault::OutOfReach),
    }
}

/// The number of commas among tokens.
#[tactic(auto, using(crate::proofs::Lists::commas))]
fn commas(tokens: &[Token]) -> u64
    ensures { result ≡ count_by is_comma (lexemes_of tokens.now) }
{
    tokens.iter().filter(|token| is_comma(**token)).count() as u64
}

/// Whether a number is a power of two from 1 to 4096.
fn is_alignment(number: u32) -> bool
    ensures { result ≡ is_alignment number }
{
    matches!(
        number,
        1 | 2 | 4 | 8 | 16 | 32 | 64 | 128 | 256 | 512 | 1024 | 2048 | 4096
    )
}

/// The number of zeros that a line of `.balign` at `place` makes. `OutOfReach` if its operand is no power of two from 1
/// to 4096.
#[tactic(auto, unfolding(crate::specs::Statements::balign_at))]
pub fn balign(symbols: &Symbols, place: u64, tokens: &[Token]) -> Result<u64, Fault>
    ensures value { result ≡ balign_at (names_of symbols.now) place (lexemes_of tokens.now) }
    ensures few { IfOk result (λ zeros. zeros < 2 ^ 24) }
{
    let number = last_value(symbols, tokens)?;
    if !is_alignment(number) {
        return Err(Fault::OutOfReach);
    }
    let number = u64::from(number);
    Ok((number - place % number) % number)
}

/// The number of zeros that a line of `.space` makes. `OutOfReach` if it is above 2^24.
#[tactic(auto, unfolding(crate::specs::Statements::space_at))]
pub fn space(symbols: &Symbols, tokens: &[Token]) -> Result<u64, Fault>
    ensures value { result ≡ space_at (names_of symbols.now) (lexemes_of tokens.now) }
    ensures few { IfOk result (λ zeros. zeros ≤ 2 ^ 24) }
{
    let zeros = last_value(symbols, tokens)?;
    if zeros <= 1 << 24 {
        Ok(u64::from(zeros))
    } else {
        Err(Fault::OutOfReach)
    }
}

/// The place after the text of a string that stands at `place`, and `more` bytes after it.
fn advance_string(place: u64, more: u64, tokens: &[Token]) -> Result<u64, Fault>
    requires place { place ≤ 2 ^ 32 }
    requires more { more ≤ 1 }
    ensures value { result ≡ behind_string place more (lexemes_of tokens.now) }
    ensures below { IfOk result (λ after. after ≤ 2 ^ 32) }
{
    let written = last_string(tokens)?;
    advance(place, text_length(written) as u64 + more)
}

/// The place of the line after a statement of this kind at `place`.
fn place_after(
    symbols: &Symbols,
    place: u64,
    keyword: Keyword,
    tokens: &[Token],
) -> Result<u64, Fault>
    requires { place ≤ 2 ^ 32 }
    ensures value { result ≡ place_after (names_of symbols.now) place keyword
        (lexemes_of tokens.now) }
    ensures below { IfOk result (λ after. after ≤ 2 ^ 32) }
{
    match keyword {
        Keyword::Org => Ok(u64::from(last_value(symbols, tokens)?)),
        Keyword::Space => advance(place, space(symbols, tokens)?),
        Keyword::Balign => advance(place, balign(symbols, place, tokens)?),
        Keyword::Equ | Keyword::Text | Keyword::Global => Ok(place),
        Keyword::List(width) => advance_list(place, width, tokens),
        Keyword::Ascii => advance_string(place, 0, tokens),
        Keyword::Asciz => advance_string(place, 1, tokens),
        Keyword::Code(code) => advance(place, size(symbols, code, tokens)?),
    }
}

/// The size in bytes of the words of an instruction or a pseudo-instruction.
fn size(symbols: &Symbols, code: Code, tokens: &[Token]) -> Result<u64, Fault>
    ensures { result ≡ size_of (names_of symbols.now) code (lexemes_of tokens.now) }
{
    match code {
        Code::Li => {
            let (_, value) = register_and_value(symbols, tokens)?;
            Ok(li_size(value))
        }
        Code::La | Code::Call => Ok(8),
        Code::Pseudo(_) | Code::Instruction(_) => Ok(4),
    }
}

/// The place of the next line after one at `place` that has this statement. `symbols` has the names of earlier lines.
/// Fails with the fault of the statement, or with `OutOfReach` if the place would be above 2^32.
pub fn next_place(symbols: &Symbols, place: u64, tokens: &[Token]) -> Result<u64, Fault>
    requires { place ≤ 2 ^ 32 }
    ensures value { result ≡ next_place (names_of symbols.now) place (lexemes_of tokens.now) }
    ensures below { IfOk result (λ after. after ≤ 2 ^ 32) }
{
    if tokens.is_empty() {
        return Ok(place);
    }
    let (keyword, operands) = statement(tokens)?;
    place_after(symbols, place, keyword, operands)
}

/// The name that a line of `.equ` defines, with its value.
fn equ<'a>(symbols: &Symbols, tokens: &[Token<'a>]) -> Result<Option<Symbol<'a>>, Fault>
    ensures { seen_definition result
        ≡ equ_of (names_of symbols.now) Keyword.Equ (lexemes_of tokens.now) }
{
    let (name, rest) = name(tokens)?;
    let rest = mark(rest, b',')?;
    let value = last_value(symbols, rest)?;
    Ok(Some(Symbol { name, value }))
}

/// The name that a statement defines, which only `.equ` does, with the value of its expression. `symbols` has the names
/// of earlier lines.
pub fn definition<'a>(symbols: &Symbols, tokens: &[Token<'a>]) -> Result<Option<Symbol<'a>>, Fault>
    ensures { seen_definition result ≡ equ_at (names_of symbols.now) (lexemes_of tokens.now) }
{
    if tokens.is_empty() {
        return Ok(None);
    }
    let (keyword, operands) = statement(tokens)?;
    match keyword {
        Keyword::Equ => equ(symbols, operands),
        _ => Ok(None),
    }
}
