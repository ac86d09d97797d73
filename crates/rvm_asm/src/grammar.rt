//! The grammar of statements: the operands of each kind by their shapes.

ghost use Rattle.std.specs.Prelude.{◌≡◌};
ghost use Rattle.rvm_text.specs.Tokens.{lexemes_of};
ghost use Rattle.rvm_asm.specs.Grammar.{behind_base, behind_text, behind};
ghost use Rattle.rvm_asm.specs.Grammar.{operands_at, expression_at, expressions_at};
ghost use Rattle.rvm_asm.specs.Grammar.{shapes_of_operation, shapes_of_pseudo, shapes_of_code};
ghost use Rattle.rvm_asm.specs.Grammar.{grammar_at};
ghost use Rattle.rvm_asm.specs.Reading.{parts};
ghost use Rattle.rvm_asm.specs.LineViews.{seen_rest};

use crate::csrs::csr_word;
use crate::faults::Fault;
use crate::operations::Operation;
use crate::pseudo::Pseudo;
use crate::reading::{end, first_part, mark, name, next, register_number};
use crate::statements::{Code, Keyword};
use crate::values::expression;
use rvm_text::Token;

/// The shape of an operand.
#[derive(Clone, Copy)]
pub enum Operand {
    /// The name of a register.
    Register,
    /// A register in parentheses.
    Base,
    /// An expression.
    Value,
    /// An expression, and a register in parentheses after it.
    Address,
    /// The name or the number of a control and status register.
    Csr,
    /// A name.
    Name,
    /// A string.
    Text,
}

impl Operand {
    /// Skips an operand of this shape. Returns the tokens after it, or `BadToken`.
    #[tactic(auto, unfolding(crate::specs::Grammar::behind))]
    fn skip<'t, 'a>(self, tokens: &'t [Token<'a>]) -> Result<&'t [Token<'a>], Fault>
        ensures { seen_rest result ≡ behind self (lexemes_of tokens.now) }
    {
        match self {
            Operand::Register => {
                let (_, rest) = register_number(tokens)?;
                Ok(rest)
            }
            Operand::Base => skip_base(tokens),
            Operand::Value => expression(tokens),
            Operand::Address => {
                let rest = expression(tokens)?;
                skip_base(rest)
            }
            Operand::Csr => {
                let (_, rest) = csr_word(tokens)?;
                Ok(rest)
            }
            Operand::Name => {
                let (_, rest) = name(tokens)?;
                Ok(rest)
            }
            Operand::Text => skip_text(tokens),
        }
    }
}

/// Skips a register in parentheses. Returns the tokens after it.
fn skip_base<'t, 'a>(tokens: &'t [Token<'a>]) -> Result<&'t [Token<'a>], Fault>
    ensures { seen_rest result ≡ behind_base (lexemes_of tokens.now) }
{
    let rest = mark(tokens, b'(')?;
    let (_, rest) = register_number(rest)?;
    mark(rest, b')')
}

/// Skips a string. Returns the tokens after it.
fn skip_text<'t, 'a>(tokens: &'t [Token<'a>]) -> Result<&'t [Token<'a>], Fault>
    ensures { seen_rest result ≡ behind_text (lexemes_of tokens.now) }
{
    match next(tokens) {
        Some((Token::Quoted(_), rest)) => Ok(rest),
        _ => Err(Fault::BadToken),
    }
}

/// Checks that the tokens are operands of these shapes, with commas between them and nothing after them.
#[tactic(auto, using(crate::proofs::Shapes::no_comma), unfolding(crate::specs::Grammar::more_operands_at))]
fn check_operands(shapes: &[Operand], tokens: &[Token]) -> Result<(), Fault>
    ensures { result ≡ operands_at shapes.now (lexemes_of tokens.now) }
{
    let Some((first, others)) = shapes.split_first() else {
        return end(tokens);
    };
    let mut rest = first.skip(tokens)?;
    for shape in others {
        rest = shape.skip(mark(rest, b',')?)?;
    }
    end(rest)
}

/// Checks that the tokens are one or more expressions with commas between them.
#[tactic(auto, unfolding(crate::specs::Grammar::expressions_at))]
fn check_expressions(tokens: &[Token]) -> Result<(), Fault>
    ensures { result ≡ expressions_at (parts (lexemes_of tokens.now)) }
{
    let mut left = Some(tokens);
    while let Some(rest) = left {
        let (part, more) = first_part(rest);
        check_expression(part)?;
        left = more;
    }
    Ok(())
}

/// Checks that the tokens are an expression, and nothing after it.
fn check_expression(tokens: &[Token]) -> Result<(), Fault>
    ensures { result ≡ expression_at (lexemes_of tokens.now) }
{
    let rest = expression(tokens)?;
    end(rest)
}

impl Operation {
    /// The shapes of its operands.
    fn shapes(self) -> &'static [Operand]
        ensures { result.now ≡ shapes_of_operation self }
    {
        match self {
            Operation::Jump | Operation::Upper(_) => &[Operand::Register, Operand::Value],
            Operation::Branch(_) | Operation::Immediate(_) | Operation::Shift(_) => {
                &[Operand::Register, Operand::Register, Operand::Value]
            }
            Operation::Load(_) | Operation::Store(_) => &[Operand::Register, Operand::Address],
            Operation::Register(_) => { &[Operand::Register, Operand::Register, Operand::Register] }
            Operation::Whole(_) => &[],
            Operation::Csr(_) => &[Operand::Register, Operand::Csr, Operand::Register],
            Operation::CsrImmediate(_) => &[Operand::Register, Operand::Csr, Operand::Value],
            Operation::LoadReserved(_) => &[Operand::Register, Operand::Base],
            Operation::Atomic(_, _) => &[Operand::Register, Operand::Register, Operand::Base],
        }
    }
}

impl Pseudo {
    /// The shapes of its operands.
    fn shapes(self) -> &'static [Operand]
        ensures { result.now ≡ shapes_of_pseudo self }
    {
        match self {
            Pseudo::Nop | Pseudo::Ret => &[],
            Pseudo::Mv | Pseudo::Not | Pseudo::Neg | Pseudo::Seqz | Pseudo::Snez => {
                &[Operand::Register, Operand::Register]
            }
            Pseudo::Beqz | Pseudo::Bnez => &[Operand::Register, Operand::Value],
            Pseudo::J => &[Operand::Value],
            Pseudo::Jr => &[Operand::Register],
            Pseudo::Csrr => &[Operand::Register, Operand::Csr],
            Pseudo::Csrw => &[Operand::Csr, Operand::Register],
        }
    }
}

impl Code {
    /// The shapes of its operands.
    fn shapes(self) -> &'static [Operand]
        ensures { result.now ≡ shapes_of_code self }
    {
        match self {
            Code::Li | Code::La => &[Operand::Register, Operand::Value],
            Code::Call => &[Operand::Value],
            Code::Pseudo(pseudo) => pseudo.shapes(),
            Code::Instruction(operation) => operation.shapes(),
        }
    }
}

/// Checks that the tokens are the operands of a statement of this kind. `BadToken` if they are not.
#[tactic(auto, unfolding(crate::specs::Grammar::grammar_at))]
pub fn check_grammar(keyword: Keyword, tokens: &[Token]) -> Result<(), Fault>
    ensures { result ≡ grammar_at keyword (lexemes_of tokens.now) }
{
    match keyword {
        Keyword::Org | Keyword::Space | Keyword::Balign => {
            check_operands(&[Operand::Value], tokens)
        }
        Keyword::Equ => check_operands(&[Operand::Name, Operand::Value], tokens),
        Keyword::List(_) => check_expressions(tokens),
        Keyword::Ascii | Keyword::Asciz => check_operands(&[Operand::Text], tokens),
        Keyword::Text => check_operands(&[], tokens),
        Keyword::Global => check_operands(&[Operand::Name], tokens),
        Keyword::Code(code) => check_operands(code.shapes(), tokens),
    }
}
