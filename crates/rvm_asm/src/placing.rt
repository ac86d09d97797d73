//! The third pass: where the bytes of each line stand.

ghost use Rattle.std.specs.Prelude.{◌≡◌, ◌+◌, ◌<◌, ◌≤◌, ◌^◌, ℕ, List, length, slice_index, IfOk, IfErr, OnOk, IsSome};
ghost use Rattle.rvm_text.specs.Lexemes.{lexemes};
ghost use Rattle.rvm_asm.specs.Contents.{bytes_at};
ghost use Rattle.rvm_asm.specs.LineViews.{names_of, Gives};
ghost use Rattle.rvm_asm.specs.Assembly.{line_at, statement_of, AreRead, IsLaid};
ghost use Rattle.rvm_asm.specs.Refusals.{count_at, count_to, error_at, IsErrorOf, IsSizeError};
ghost use Rattle.rvm_asm.specs.Views.{extent_pieces, line_of, lines_of, texts_of, ArePlaced, Holds, IsRoom};

use crate::content::contents;
use crate::error::AsmError;
use crate::extents::{Extents, are_many, claim};
use crate::faults::LineError;
use crate::image::MAX_BYTES;
use crate::line_tokens::read_line;
use crate::statements::label;
use crate::symbols::Symbols;
use std::alloc::Global;

/// Finds where the bytes of all lines stand. Fails with the first line that has a fault, counted from 1, or if memory
/// runs out. If no line has a fault, and all lines together have more than 2^24 bytes, fails with `TooMany` if these
/// make more than 16 segments, else with `TooLarge`.
pub fn place_lines(
    alloc: Global,
    texts: &[&str],
    symbols: &Symbols,
    places: &[u64],
) -> Result<Extents, AsmError>
    requires read { AreRead (texts_of texts.now) (lines_of (texts_of texts.now)) }
    requires laid { IsLaid (lines_of (texts_of texts.now)) (names_of symbols.now) places.now }
    ensures placed { IfOk result (λ v. ArePlaced (lines_of (texts_of texts.now)) (names_of symbols.now)
        places.now (length (lines_of (texts_of texts.now))) v) }
    ensures few { OnOk result (count_to (lines_of (texts_of texts.now)) (names_of symbols.now)
        places.now (length (lines_of (texts_of texts.now))) ≤ 2 ^ 24) }
    ensures refused { IfErr result (λ e. IsErrorOf (lines_of (texts_of texts.now)) e) }
{
    let mut extents = Extents::new(alloc);
    let mut room = Some(MAX_BYTES);
    for index in 0..texts.len() {
        let count = match place_line(alloc, &mut extents, texts, symbols, places, index) {
            Ok(count) => count,
            Err(error) => return Err(AsmError::at(index + 1, error)),
        };
        room = room_after(room, count);
    }
    if room.is_none() {
        return Err(size_error(&extents));
    }
    Ok(extents)
}

/// The room that is left after `count` bytes more, or `None` if they do not fit.
fn room_after(room: Option<usize>, count: usize) -> Option<usize>
    ensures { (n : ℕ) → IsRoom room n → IsRoom result (n + count) }
{
    room?.checked_sub(count)
}

/// The error of a text that has more than 2^24 bytes, in these extents.
fn size_error(extents: &Extents) -> AsmError
    ensures { (bytes : ℕ → List ℕ) → (lines : ℕ) → Holds bytes lines extents.now
        → IsSizeError (extent_pieces bytes extents.now) result }
{
    if are_many(extents) {
        AsmError::TooMany
    } else {
        AsmError::TooLarge
    }
}

/// Records where the bytes of the line with this index stand. Returns how many bytes it has.
fn place_line(
    alloc: Global,
    extents: &mut Extents,
    texts: &[&str],
    symbols: &Symbols,
    places: &[u64],
    index: usize,
) -> Result<usize, LineError>
    requires inside { index < length texts.now }
    requires read { AreRead (texts_of texts.now) (lines_of (texts_of texts.now)) }
    requires laid { IsLaid (lines_of (texts_of texts.now)) (names_of symbols.now) places.now }
    requires placed { ArePlaced (lines_of (texts_of texts.now)) (names_of symbols.now)
        places.now index extents.old }
    ensures placed { OnOk result (ArePlaced (lines_of (texts_of texts.now)) (names_of symbols.now)
        places.now (index + 1) extents.new) }
    ensures count { IfOk result (λ count. count ≡ count_at (names_of symbols.now)
        (slice_index places.now index) (line_at (lines_of (texts_of texts.now)) index)) }
    ensures refused { IfErr result (λ e. IsErrorOf (lines_of (texts_of texts.now))
        (error_at (index + 1) e)) }
{
    let place = places[index];
    let count = line_bytes(alloc, texts[index], symbols, place)?.len();
    claim(extents, index, place, count)?;
    Ok(count)
}

/// The bytes of a line that stands at `place`.
pub fn line_bytes(
    alloc: Global,
    text: &str,
    symbols: &Symbols,
    place: u64,
) -> Result<Vec<u8>, LineError>
    requires { IsSome (lexemes text.now) }
    ensures { Gives result (bytes_at (names_of symbols.now) place
        (statement_of place (line_of text.now))) }
{
    let tokens = read_line(alloc, text)?;
    let (_, statement) = label(place, &tokens);
    contents(alloc, symbols, place, statement)
}
