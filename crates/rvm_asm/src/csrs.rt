//! The names of the control and status registers (Privileged ISA, "CSR Listing").

ghost use Rattle.std.specs.Prelude.{◌≡◌, ◌<◌, ◌^◌, IfOk};
ghost use Rattle.rvm_text.specs.Tokens.{lexemes_of};
ghost use Rattle.rvm_asm.specs.Csrs.{csr_of, csr_number, csr_word_at, csr_at, csr_comma};
ghost use Rattle.rvm_asm.specs.Csrs.{last_csr};
ghost use Rattle.rvm_asm.specs.Words.{named};
ghost use Rattle.rvm_asm.specs.LineViews.{seen};

use crate::faults::Fault;
use crate::reading::{end, mark, next};
use crate::values::signed_number;
use crate::words::named;
use rvm_isa::CsrNo;
use rvm_text::Token;

/// Reads the name of a control and status register, or a number with an optional minus. Returns the number and the
/// tokens after it; `BadToken` if the tokens begin with neither.
pub fn csr_word<'t, 'a>(tokens: &'t [Token<'a>]) -> Result<(u32, &'t [Token<'a>]), Fault>
    ensures { seen result ≡ csr_word_at (lexemes_of tokens.now) }
{
    match next(tokens) {
        Some((Token::Word(word), rest)) => match csr_named(word) {
            Some(number) => Ok((number, rest)),
            None => signed_number(tokens),
        },
        _ => signed_number(tokens),
    }
}

/// Reads a control and status register: its name, or a number below 4096. Returns the number and the tokens after it;
/// `OutOfReach` for a larger number.
fn csr<'t, 'a>(tokens: &'t [Token<'a>]) -> Result<(u32, &'t [Token<'a>]), Fault>
    ensures value { seen result ≡ csr_at (lexemes_of tokens.now) }
    ensures below { IfOk result (λ r. r.0 < 2 ^ 12) }
{
    let (number, rest) = csr_word(tokens)?;
    Ok((number_below(number)?, rest))
}

/// The number, if it is below 4096; else `OutOfReach`.
fn number_below(number: u32) -> Result<u32, Fault>
    ensures value { result ≡ csr_number number }
    ensures below { IfOk result (λ n. n < 2 ^ 12) }
{
    if number < 4096 {
        Ok(number)
    } else {
        Err(Fault::OutOfReach)
    }
}

/// Reads a control and status register and a comma. Returns the register's number and the tokens after the comma.
#[tactic(auto, unfolding(crate::specs::Csrs::csr_comma))]
pub fn csr_comma<'t, 'a>(tokens: &'t [Token<'a>]) -> Result<(u32, &'t [Token<'a>]), Fault>
    ensures value { seen result ≡ csr_comma (lexemes_of tokens.now) }
    ensures below { IfOk result (λ r. r.0 < 2 ^ 12) }
{
    let (number, rest) = csr(tokens)?;
    let rest = mark(rest, b',')?;
    Ok((number, rest))
}

/// Reads a control and status register, and nothing after it.
#[tactic(auto, unfolding(crate::specs::Csrs::last_csr))]
pub fn last_csr(tokens: &[Token]) -> Result<CsrNo, Fault>
    ensures { result ≡ last_csr (lexemes_of tokens.now) }
{
    let (number, rest) = csr(tokens)?;
    end(rest)?;
    Ok(CsrNo::new(number))
}

/// The control and status registers by name, with their numbers.
const CSRS: [(&str, u32); 107] = [
    ("mstatus", 0x300),
    ("misa", 0x301),
    ("mie", 0x304),
    ("mtvec", 0x305),
    ("mstatush", 0x310),
    ("mcountinhibit", 0x320),
    ("mscratch", 0x340),
    ("mepc", 0x341),
    ("mcause", 0x342),
    ("mtval", 0x343),
    ("mip", 0x344),
    ("mcycle", 0xB00),
    ("minstret", 0xB02),
    ("mcycleh", 0xB80),
    ("minstreth", 0xB82),
    ("mvendorid", 0xF11),
    ("marchid", 0xF12),
    ("mimpid", 0xF13),
    ("mhartid", 0xF14),
    ("mconfigptr", 0xF15),
    ("mhpmevent3", 0x323),
    ("mhpmevent4", 0x324),
    ("mhpmevent5", 0x325),
    ("mhpmevent6", 0x326),
    ("mhpmevent7", 0x327),
    ("mhpmevent8", 0x328),
    ("mhpmevent9", 0x329),
    ("mhpmevent10", 0x32A),
    ("mhpmevent11", 0x32B),
    ("mhpmevent12", 0x32C),
    ("mhpmevent13", 0x32D),
    ("mhpmevent14", 0x32E),
    ("mhpmevent15", 0x32F),
    ("mhpmevent16", 0x330),
    ("mhpmevent17", 0x331),
    ("mhpmevent18", 0x332),
    ("mhpmevent19", 0x333),
    ("mhpmevent20", 0x334),
    ("mhpmevent21", 0x335),
    ("mhpmevent22", 0x336),
    ("mhpmevent23", 0x337),
    ("mhpmevent24", 0x338),
    ("mhpmevent25", 0x339),
    ("mhpmevent26", 0x33A),
    ("mhpmevent27", 0x33B),
    ("mhpmevent28", 0x33C),
    ("mhpmevent29", 0x33D),
    ("mhpmevent30", 0x33E),
    ("mhpmevent31", 0x33F),
    ("mhpmcounter3", 0xB03),
    ("mhpmcounter4", 0xB04),
    ("mhpmcounter5", 0xB05),
    ("mhpmcounter6", 0xB06),
    ("mhpmcounter7", 0xB07),
    ("mhpmcounter8", 0xB08),
    ("mhpmcounter9", 0xB09),
    ("mhpmcounter10", 0xB0A),
    ("mhpmcounter11", 0xB0B),
    ("mhpmcounter12", 0xB0C),
    ("mhpmcounter13", 0xB0D),
    ("mhpmcounter14", 0xB0E),
    ("mhpmcounter15", 0xB0F),
    ("mhpmcounter16", 0xB10),
    ("mhpmcounter17", 0xB11),
    ("mhpmcounter18", 0xB12),
    ("mhpmcounter19", 0xB13),
    ("mhpmcounter20", 0xB14),
    ("mhpmcounter21", 0xB15),
    ("mhpmcounter22", 0xB16),
    ("mhpmcounter23", 0xB17),
    ("mhpmcounter24", 0xB18),
    ("mhpmcounter25", 0xB19),
    ("mhpmcounter26", 0xB1A),
    ("mhpmcounter27", 0xB1B),
    ("mhpmcounter28", 0xB1C),
    ("mhpmcounter29", 0xB1D),
    ("mhpmcounter30", 0xB1E),
    ("mhpmcounter31", 0xB1F),
    ("mhpmcounter3h", 0xB83),
    ("mhpmcounter4h", 0xB84),
    ("mhpmcounter5h", 0xB85),
    ("mhpmcounter6h", 0xB86),
    ("mhpmcounter7h", 0xB87),
    ("mhpmcounter8h", 0xB88),
    ("mhpmcounter9h", 0xB89),
    ("mhpmcounter10h", 0xB8A),
    ("mhpmcounter11h", 0xB8B),
    ("mhpmcounter12h", 0xB8C),
    ("mhpmcounter13h", 0xB8D),
    ("mhpmcounter14h", 0xB8E),
    ("mhpmcounter15h", 0xB8F),
    ("mhpmcounter16h", 0xB90),
    ("mhpmcounter17h", 0xB91),
    ("mhpmcounter18h", 0xB92),
    ("mhpmcounter19h", 0xB93),
    ("mhpmcounter20h", 0xB94),
    ("mhpmcounter21h", 0xB95),
    ("mhpmcounter22h", 0xB96),
    ("mhpmcounter23h", 0xB97),
    ("mhpmcounter24h", 0xB98),
    ("mhpmcounter25h", 0xB99),
    ("mhpmcounter26h", 0xB9A),
    ("mhpmcounter27h", 0xB9B),
    ("mhpmcounter28h", 0xB9C),
    ("mhpmcounter29h", 0xB9D),
    ("mhpmcounter30h", 0xB9E),
    ("mhpmcounter31h", 0xB9F),
];

/// The number of the register that a word names, or `None` if it names none.
#[tactic(auto, unfolding(crate::specs::Csrs::csr_of, crate::specs::Csrs::csr_numbers))]
fn csr_named(word: &[u8]) -> Option<u32>
    ensures { result ≡ csr_of word.now }
{
    named(&CSRS, word)
}
