//! From text to an image.

ghost use Rattle.std.specs.Prelude.{◌≡◌, IfOk, IfErr, OnOk, All, map};
ghost use Rattle.std.specs.Str.Lines.{lines};
ghost use Rattle.rvm_asm.specs.LineViews.{names_of};
ghost use Rattle.rvm_asm.specs.Assembly.{entry_of, AreRead, IsAssemblyOf, IsAssembly};
ghost use Rattle.rvm_asm.specs.Refusals.{AreFew, IsErrorOf, IsError, IsSmall};
ghost use Rattle.rvm_asm.specs.Views.{lines_of, texts_of, HasNoZeros};
ghost use Rattle.rvm_asm.specs.Images.{IsRising, pieces_of};

use crate::error::AsmError;
use crate::filling::fill;
use crate::image::Image;
use crate::layout::lay_out;
use crate::line_tokens::check_lines;
use crate::placing::place_lines;
use crate::symbols::{Symbols, lookup};
use std::alloc::{AllocError, Global};

/// Assembles a text into an image. Lines end with a line feed; a carriage return before it is not part of the line.
/// `Line` gives the number of a line with a fault, counted from 1, and the fault. If no line has a fault, and all lines
/// together have more than 2^24 bytes, fails with `TooMany` if these make more than 16 segments, else with `TooLarge`.
/// `OutOfMemory` if memory runs out.
pub fn assemble(alloc: Global, text: &str) -> Result<Image, AsmError>
    ensures image { IfOk result (λ v. IsAssembly text.now v.entry (pieces_of v.segments.items)) }
    ensures rising { IfOk result (λ v. IsRising (pieces_of v.segments.items)) }
    ensures zeros { IfOk result (λ v. All HasNoZeros v.segments.items) }
    ensures small { OnOk result (IsSmall text.now) }
    ensures refused { IfErr result (λ e. IsError text.now e) }
{
    let texts = split(alloc, text)?;
    check_lines(alloc, &texts)?;
    assemble_lines(alloc, &texts)
}

/// The lines of a text.
fn split(alloc: Global, text: &str) -> Result<Vec<&str>, AllocError>
    ensures { IfOk result (λ v. map (λ x. x.now) v.items ≡ lines text.now) }
{
    text.lines().collect(alloc)
}

/// The image of lines, each of which consists of tokens.
fn assemble_lines(alloc: Global, texts: &[&str]) -> Result<Image, AsmError>
    requires { AreRead (texts_of texts.now) (lines_of (texts_of texts.now)) }
    ensures image { IfOk result (λ v. IsAssemblyOf (lines_of (texts_of texts.now)) v.entry
        (pieces_of v.segments.items)) }
    ensures rising { IfOk result (λ v. IsRising (pieces_of v.segments.items)) }
    ensures zeros { IfOk result (λ v. All HasNoZeros v.segments.items) }
    ensures few { OnOk result (AreFew (lines_of (texts_of texts.now))) }
    ensures refused { IfErr result (λ e. IsErrorOf (lines_of (texts_of texts.now)) e) }
{
    let layout = lay_out(alloc, texts)?;
    let extents = place_lines(alloc, texts, &layout.symbols, &layout.places)?;
    let segments = fill(alloc, texts, &layout.symbols, &layout.places, extents)?;
    let entry = entry(&layout.symbols);
    Ok(Image { entry, segments })
}

/// The address at which a program begins: the value of `_start` if it is defined, else the start of RAM.
fn entry(symbols: &Symbols) -> u32
    ensures { result ≡ entry_of (names_of symbols.now) }
{
    lookup(symbols, "_start".as_bytes()).unwrap_or(1 << 31)
}
