//! Where the bytes of each line stand, without the bytes themselves.

ghost use Rattle.std.specs.Prelude.{◌≡◌, ℕ, ◌+◌, ◌^◌, ◌≤◌, ◌<◌, ◌⊎◌, List, length, IsTrue, IsFalse};
ghost use Rattle.rvm_asm.specs.Pieces.{IsFree, IsTaken};
ghost use Rattle.rvm_asm.specs.Refusals.{AreSeparate};
ghost use Rattle.rvm_asm.specs.Views.{extent_pieces, is_apart, Holds, IsClaim};

use crate::faults::{Fault, LineError};
use std::collections::BTreeMap;

/// The most segments of an image that can be written to a file.
const MAX_SEGMENTS: usize = 16;

/// The line whose bytes begin at an address, and the address at which they end.
#[derive(Clone, Copy)]
pub struct Extent {
    /// The line, counted from 0.
    pub line: usize,
    /// The address of the last byte.
    pub last: u32,
}

/// The extents of lines by the addresses of their first bytes, found in logarithmic time.
pub type Extents = BTreeMap<u32, Extent>;

/// Whether no byte stands from `address` to `last`. Only the last extent that begins at `last` or below can have a byte
/// there.
fn is_free(extents: &Extents, address: u32, last: u32) -> bool
    ensures free { (bytes : ℕ → List ℕ) → (lines count : ℕ) → Holds bytes lines extents.now
        → 0 < count → address + count ≡ last + 1 → IsTrue result
        → IsFree (extent_pieces bytes extents.now) address count }
    ensures taken { (bytes : ℕ → List ℕ) → (lines count : ℕ) → Holds bytes lines extents.now
        → 0 < count → address + count ≡ last + 1 → IsFalse result
        → IsTaken (extent_pieces bytes extents.now) address count }
{
    match extents.range(..=last).next_back() {
        Some((_, extent)) => extent.last < address,
        None => true,
    }
}

/// Records that the next line has `count` bytes from `place` on, if it has any. Fails with `Overlap` if a byte stands
/// there already.
pub fn claim(extents: &mut Extents, line: usize, place: u64, count: usize) -> Result<(), LineError>
    requires { (count ≡ 0) ⊎ (place + count ≤ 2 ^ 32) }
    ensures { (bytes : ℕ → List ℕ) → Holds bytes line extents.old → length (bytes line) ≡ count
        → IsClaim bytes line place extents.old extents.new result }
{
    if count == 0 {
        return Ok(());
    }
    let address = place as u32;
    let last = address + (count - 1) as u32;
    if !is_free(extents, address, last) {
        return Err(LineError::Faulty(Fault::Overlap));
    }
    extents.insert(address, Extent { line, last })?;
    Ok(())
}

/// Whether there is a gap between an extent at `address` and the one before it, whose last address is `before`. True if
/// there is none before it.
fn is_apart(before: Option<u32>, address: u32) -> bool
    ensures { result ≡ is_apart before address }
{
    match before {
        Some(last) => u64::from(last) + 1 < u64::from(address),
        None => true,
    }
}

/// Whether the extents make more than 16 segments. Extents that touch are one segment.
pub fn are_many(extents: &Extents) -> bool
    ensures { (bytes : ℕ → List ℕ) → (lines : ℕ) → Holds bytes lines extents.now
        → AreSeparate (extent_pieces bytes extents.now) result }
{
    let mut count = 0;
    let mut before = None;
    for (address, extent) in extents.iter() {
        if is_apart(before, *address) {
            if count == MAX_SEGMENTS {
                return true;
            }
            count += 1;
        }
        before = Some(extent.last);
    }
    false
}
