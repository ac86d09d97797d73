//! The last pass: the bytes of each line in the segments of an image.

ghost use Rattle.std.specs.Prelude.{◌≡◌, ◌<◌, length, All, IfOk};
ghost use Rattle.rvm_asm.specs.LineViews.{names_of};
ghost use Rattle.rvm_asm.specs.Images.{IsRising, pieces_of};
ghost use Rattle.rvm_asm.specs.Assembly.{AreRead, BytesOf, IsLaid, IsImage};
ghost use Rattle.rvm_asm.specs.Views.{line_bytes, lines_of, texts_of, ArePlaced, HasNoZeros};

use crate::extents::Extents;
use crate::image::Segment;
use crate::placing;
use crate::segments::append;
use crate::symbols::Symbols;
use std::alloc::{AllocError, Global};

/// Makes the segments of lines whose extents are known. Extents that touch become one segment. Fails only if memory
/// runs out.
pub fn fill(
    alloc: Global,
    texts: &[&str],
    symbols: &Symbols,
    places: &[u64],
    extents: Extents,
) -> Result<Vec<Segment>, AllocError>
    requires read { AreRead (texts_of texts.now) (lines_of (texts_of texts.now)) }
    requires laid { IsLaid (lines_of (texts_of texts.now)) (names_of symbols.now) places.now }
    requires placed { ArePlaced (lines_of (texts_of texts.now)) (names_of symbols.now) places.now
        (length (lines_of (texts_of texts.now))) extents }
    ensures image { IfOk result (λ v. IsImage (lines_of (texts_of texts.now)) (names_of symbols.now)
        places.now (pieces_of v.items)) }
    ensures rising { IfOk result (λ v. IsRising (pieces_of v.items)) }
    ensures zeros { IfOk result (λ v. All HasNoZeros v.items) }
{
    let mut segments = Vec::new(alloc);
    for (address, extent) in extents {
        let bytes = line_bytes(alloc, texts, symbols, places, extent.line)?;
        append(&mut segments, address, bytes)?;
    }
    Ok(segments)
}

/// The bytes of a line. The line has no fault, so this fails only if memory runs out.
fn line_bytes(
    alloc: Global,
    texts: &[&str],
    symbols: &Symbols,
    places: &[u64],
    line: usize,
) -> Result<Vec<u8>, AllocError>
    requires inside { line < length texts.now }
    requires read { AreRead (texts_of texts.now) (lines_of (texts_of texts.now)) }
    requires laid { IsLaid (lines_of (texts_of texts.now)) (names_of symbols.now) places.now }
    requires sound { BytesOf (lines_of (texts_of texts.now)) (names_of symbols.now) places.now line
        (line_bytes (lines_of (texts_of texts.now)) (names_of symbols.now) places.now line) }
    ensures { IfOk result (λ v. v.items
        ≡ line_bytes (lines_of (texts_of texts.now)) (names_of symbols.now) places.now line) }
{
    match placing::line_bytes(alloc, texts[line], symbols, places[line]) {
        Ok(bytes) => Ok(bytes),
        Err(_) => Err(AllocError),
    }
}
