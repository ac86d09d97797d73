//! Segments that rise by address.

ghost use Rattle.std.specs.Prelude.{◌≡◌, ℕ, ◌+◌, ◌≤◌, ◌<◌, [], ◌∷◌, ◌++◌, length, IfOk, OnOk};
ghost use Rattle.rvm_asm.specs.Images.{piece, pieces_of};
ghost use Rattle.rvm_asm.specs.Pieces.{Joins, AreOrdered, end_of};

use crate::image::Segment;
use std::alloc::AllocError;

/// The address after the last of these bytes.
fn end(address: u32, bytes: &[u8]) -> u64
    ensures { result ≡ address + length bytes.now }
{
    u64::from(address) + bytes.len() as u64
}

/// Adds bytes after the last segment: to that segment if they begin where it ends, else as a segment of their own. If
/// memory runs out, the last segment may be lost.
pub fn append(segments: &mut Vec<Segment>, address: u32, bytes: Vec<u8>) -> Result<(), AllocError>
    requires some { 0 < length bytes.items }
    requires ordered { AreOrdered 0 0 (pieces_of segments.old.items) }
    requires behind { end_of 0 0 (pieces_of segments.old.items) ≤ address }
    ensures joined { OnOk result (Joins (pieces_of segments.old.items)
        (pieces_of segments.new.items) (piece address bytes.items)) }
    ensures ordered { OnOk result ((gap : ℕ) → gap ≤ 1
        → AreOrdered gap 0 (pieces_of segments.old.items)
        → AreOrdered gap 0 (pieces_of segments.new.items)) }
    ensures ends { OnOk result (end_of 0 0 (pieces_of segments.new.items)
        ≡ address + length bytes.items) }
{
    let Some(last) = segments.pop() else {
        push(segments, address, bytes)?;
        return Ok(());
    };
    if end(last.address, &last.bytes) == u64::from(address) {
        let last = lengthen(last, &bytes)?;
        segments.push(last)?;
        Ok(())
    } else {
        segments.push(last)?;
        push(segments, address, bytes)?;
        Ok(())
    }
}

/// Appends bytes to a segment.
fn lengthen(mut segment: Segment, bytes: &[u8]) -> Result<Segment, AllocError>
    ensures address { IfOk result (λ s. s.address ≡ segment.address) }
    ensures bytes { IfOk result (λ s. s.bytes.items ≡ segment.bytes.items ++ bytes.now) }
    ensures zeros { IfOk result (λ s. s.zeros ≡ segment.zeros) }
{
    segment.bytes.extend_from_slice(bytes)?;
    Ok(segment)
}

/// Adds a segment with these bytes, and no zeros after them.
fn push(segments: &mut Vec<Segment>, address: u32, bytes: Vec<u8>) -> Result<(), AllocError>
    ensures { OnOk result (segments.new.items
        ≡ segments.old.items ++ record { address = address; bytes = bytes; zeros = 0 } ∷ []) }
{
    segments.push(Segment {
        address,
        bytes,
        zeros: 0,
    })?;
    Ok(())
}
