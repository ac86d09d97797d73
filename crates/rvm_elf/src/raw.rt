//! Images without a header.

ghost use Rattle.std.specs.Prelude.{◌≡◌, ◌∷◌, [], IfOk};
ghost use Rattle.rvm_asm.specs.Images.{piece, pieces_of};

use rvm_asm::{Image, Segment};
use rvm_hart::RAM_BASE;
use std::alloc::{AllocError, Global};

/// The image of a program whose bytes stand from the start of RAM on, and which begins there. Fails only if memory runs
/// out.
pub fn raw_image(alloc: Global, bytes: &[u8]) -> Result<Image, AllocError>
    ensures entry { IfOk result (λ v. v.entry ≡ 0x80000000) }
    ensures bytes { IfOk result
        (λ v. pieces_of v.segments.items ≡ piece 0x80000000 bytes.now ∷ []) }
{
    let mut segments = Vec::with_capacity(alloc, 1)?;
    segments.push(Segment {
        address: RAM_BASE,
        bytes: Vec::from_slice(alloc, bytes)?,
        zeros: 0,
    })?;
    Ok(Image {
        entry: RAM_BASE,
        segments,
    })
}
