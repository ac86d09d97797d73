//! `rvmove asm`: assembles a text into an ELF file.

ghost use Rattle.std.specs.Prelude.{◌≡◌, ◌==◌, ◌≤◌, ◌⊎◌, List, ℕ, Result, IfOk, IfErr, count_by, length};
ghost use Rattle.rvm_asm.specs.Images.{pieces_of};
ghost use Rattle.rvm_elf.specs.Spelling.{file_of};
ghost use Rattle.rvm_refusal.specs.declared.refusal.Refusal.TheVariants.{BadToken};
ghost use Rattle.rvm_command.specs.declared.refused.Refused.{Refused};
ghost use Rattle.rvm_command.specs.Assembled.{IsFileOf};
ghost use Rattle.rvm_command.specs.Ends.{HasStatus, IsAsmEnd, IsTextRefusal, IsUnwritable, line_of_byte};
ghost use Rattle.rvm_command.specs.Refusals.{refused_at};

use crate::refused::{Refused, tell};
use rvm_asm::{Image, assemble};
use rvm_elf::{WriteError, write_image};
use rvm_refusal::{LinkFault, Refusal};
use std::alloc::Global;
use std::io::Write;
use std::str;

/// Assembles `source` into an ELF file, which goes to `output`.
///
/// Returns the status: 0, or 1 if it was refused; then `errors` gets the refusal in one line, with the line of the text
/// if it stands at one, and else nothing. A text that is refused leaves `output` unchanged; after a refusal with
/// `LinkFault`, since a write to `output` failed, a part of the file may have been written. No clause says when a
/// writer fails. The error `LinkFault` says that a write to `errors` failed.
pub fn asm_command<O: Write, E: Write>(
    alloc: Global,
    source: &[u8],
    output: &mut O,
    errors: &mut E,
) -> Result<u8, LinkFault>
    ensures status { IfOk result (λ status. HasStatus status
        (λ end. IsAsmEnd source.now end (O.contents output.old) (O.contents output.new))
        (E.contents errors.old) (E.contents errors.new)) }
    ensures output { (end : Result (Unit {0}) Refused) × IsAsmEnd source.now end
        (O.contents output.old) (O.contents output.new) }
    ensures refused { (O.contents output.new ≡ O.contents output.old)
        ⊎ ((file : List ℕ) × IsFileOf source.now file) }
{
    match assemble_to(alloc, source, output) {
        Ok(()) => Ok(0),
        Err(refused) => tell(refused, errors),
    }
}

/// Writes the ELF file of a text, or says why there is none.
fn assemble_to<O: Write>(alloc: Global, source: &[u8], output: &mut O) -> Result<(), Refused>
    ensures end { IsAsmEnd source.now result (O.contents output.old) (O.contents output.new) }
    ensures refused { (O.contents output.new ≡ O.contents output.old)
        ⊎ ((file : List ℕ) × IsFileOf source.now file) }
{
    let file = assembled(alloc, source)?;
    match output.write_all(&file) {
        Ok(()) => Ok(()),
        Err(_) => Err(Refused::from(LinkFault)),
    }
}

/// The ELF file of a text, or why there is none.
fn assembled(alloc: Global, source: &[u8]) -> Result<Vec<u8>, Refused>
    ensures file { IfOk result (λ v. IsFileOf source.now v.items) }
    ensures refused { IfErr result (IsTextRefusal source.now) }
{
    let text = match str::from_utf8(source) {
        Ok(text) => text,
        Err(error) => return Err(not_text(source, error.valid_up_to())),
    };
    let image = assemble(alloc, text)?;
    match written(alloc, &image) {
        Ok(file) => Ok(file),
        Err(error) => Err(Refused::from(error)),
    }
}

/// The ELF file of an image, or why it has none.
#[tactic(auto, using(crate::proofs::Refusals::image_unwritable))]
fn written(alloc: Global, image: &Image) -> Result<Vec<u8>, WriteError>
    ensures file { IfOk result (λ v. v.items ≡ file_of image.now.entry (pieces_of image.now.segments.items)) }
    ensures refused { IfErr result (IsUnwritable (pieces_of image.now.segments.items)) }
{
    write_image(alloc, image)
}

/// The refusal of a text that is no UTF-8 from this byte on: `BadToken` at the line of the byte.
fn not_text(source: &[u8], at: usize) -> Refused
    requires { at ≤ length source.now }
    ensures { result ≡ refused_at (line_of_byte at source.now) BadToken }
{
    Refused {
        line: Some(line_feeds(&source[..at]) + 1),
        refusal: Refusal::BadToken,
    }
}

/// The number of line feeds among bytes.
fn line_feeds(bytes: &[u8]) -> usize
    ensures count { result ≡ count_by (λ b. b == 10) bytes.now }
    ensures few { result ≤ length bytes.now }
{
    bytes.iter().filter(|byte| **byte == b'\n').count()
}
