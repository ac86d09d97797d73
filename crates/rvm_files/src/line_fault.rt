//! What is wrong with a line of a text.

ghost use Rattle.std.specs.Prelude.{◌≡◌, ◌≤◌, [], IfOk, IfSome, get_or, length, map, take};
ghost use Rattle.rvm_files.specs.declared.line_fault.LineFault.TheVariants.{Assembly};
ghost use Rattle.std.specs.Str.Lines.{lines};
ghost use Rattle.rvm_files.specs.LineFaults.{IsLineOf, line_of, line_refusal, line_words, printable, shown};

use arrayvec::ArrayVec;
use rvm_asm::Fault;
use rvm_refusal::Refusal;
use std::alloc::{AllocError, Global};

/// The most bytes of a line that a report shows.
pub const EXCERPT_SIZE: usize = 80;

/// What is wrong with a line.
#[derive(Clone, Copy, Debug)]
pub enum LineFault {
    /// The line of an assembly text has this fault.
    Assembly(Fault),
    /// The line of an assembly text is not UTF-8.
    NotText,
    /// The line of a script is not in its grammar.
    Script,
}

impl LineFault {
    /// What the fault is called in a report.
    pub(crate) fn words(self) -> &'static str
        ensures { result.now ≡ line_words self }
    {
        match self {
            LineFault::Assembly(fault) => assembly_words(fault),
            LineFault::NotText => "this is not UTF-8",
            LineFault::Script => "this is no line of a script (docs/SCRIPTS.md)",
        }
    }

    /// The refusal of a text with a line that has this fault.
    pub(crate) fn refusal(self) -> Refusal
        ensures { result ≡ line_refusal self }
    {
        match self {
            LineFault::Assembly(fault) => Refusal::from(fault),
            _ => Refusal::BadToken,
        }
    }
}

/// What a fault of a line of an assembly text is called in a report.
fn assembly_words(fault: Fault) -> &'static str
    ensures { result.now ≡ line_words (Assembly fault) }
{
    match fault {
        Fault::BadToken => "this is no line of the language (docs/ASSEMBLY.md)",
        Fault::UnknownName => "a name has no value here (docs/ASSEMBLY.md)",
        Fault::OutOfReach => "a value is out of range, or a place not aligned (docs/ASSEMBLY.md)",
        Fault::Defined => "a name is given twice",
        Fault::Overlap => "a byte is placed twice",
    }
}

/// A line that is refused.
#[derive(Debug, Drop)]
pub struct LineDefect {
    /// The number of the line, counted from 1.
    pub number: usize,
    /// What a report shows of the line.
    pub text: ArrayVec<u8, EXCERPT_SIZE>,
    /// What is wrong with the line.
    pub fault: LineFault,
}

/// What a report shows of a line: its first `EXCERPT_SIZE` bytes, with a dot for each that is no printable ASCII
/// character, so that no line changes how a terminal works.
fn excerpt(line: &[u8]) -> ArrayVec<u8, EXCERPT_SIZE>
    ensures { result.items ≡ shown line.now }
{
    printable_bytes(first_bytes(line))
}

/// The first `EXCERPT_SIZE` bytes of a line, or all if it has no more.
#[tactic(auto, using(crate::proofs::Lines::few_bytes))]
fn first_bytes(line: &[u8]) -> &[u8]
    ensures first { result.now ≡ take 80 line.now }
    ensures few { length result.now ≤ 80 }
{
    if line.len() > EXCERPT_SIZE {
        return &line[..EXCERPT_SIZE];
    }
    line
}

/// At most `EXCERPT_SIZE` bytes, with a dot for each that is no printable ASCII character.
fn printable_bytes(bytes: &[u8]) -> ArrayVec<u8, EXCERPT_SIZE>
    requires { length bytes.now ≤ 80 }
    ensures { result.items ≡ map printable bytes.now }
{
    let mut text: ArrayVec<u8, EXCERPT_SIZE> = ArrayVec::new();
    for index in 0..bytes.len() {
        text.push(printable(bytes[index]));
    }
    text
}

/// The line of a text with a number, counted from 1, and what is wrong with it. If there is no such line, it is empty.
/// `None` if memory runs out.
pub(crate) fn line_defect(
    alloc: Global,
    text: &str,
    number: usize,
    fault: LineFault,
) -> Option<LineDefect>
    ensures { IfSome result (IsLineOf text.now number fault) }
{
    let line = line_at(alloc, text, number)?;
    Some(LineDefect {
        number,
        text: excerpt(line.as_bytes()),
        fault,
    })
}

/// The line of a text with a number, counted from 1, or an empty one if there is none. `None` if memory runs out.
fn line_at<'a>(alloc: Global, text: &'a str, number: usize) -> Option<&'a str>
    ensures { IfSome result (λ line. line.now ≡ line_of text.now number) }
{
    match split(alloc, text) {
        Ok(lines) => Some(line_in(&lines, number.saturating_sub(1))),
        Err(_) => None,
    }
}

/// The lines of a text.
fn split(alloc: Global, text: &str) -> Result<Vec<&str>, AllocError>
    ensures { IfOk result (λ v. map (λ x. x.now) v.items ≡ lines text.now) }
{
    text.lines().collect(alloc)
}

/// The line with an index, or an empty one if there is none.
fn line_in<'a>(lines: &[&'a str], index: usize) -> &'a str
    ensures { result.now ≡ get_or (map (λ x. x.now) lines.now) index [] }
{
    if index < lines.len() {
        lines[index]
    } else {
        ""
    }
}

/// A byte, or a dot if it is no printable ASCII character.
fn printable(byte: u8) -> u8
    ensures { result ≡ printable byte }
{
    if (32..127).contains(&byte) {
        byte
    } else {
        b'.'
    }
}
