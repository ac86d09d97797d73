//! The bytes of a frame, as a journal keeps them.

ghost use Rattle.std.specs.Prelude.{◌≡◌, ◌-◌, ◌≤◌, ◌++◌, true, [], drop, length, IfOk, IsOk, Some, slice_get, vec_capacity};
ghost use Rattle.rvm_frame.specs.Grammar.{sent, spelling};
ghost use Rattle.rvm_frame.specs.Pages.{zeros};
ghost use Rattle.rvm_recorder.specs.Keeping.{Fits, told};

use rvm_frame::{Addressed, Frame, append_frame};
use rvm_mem::PAGE_SIZE;
use std::alloc::{AllocError, Global};
use std::marker::Model;
use std::mem;

/// How many bytes a page has.
const PAGE: usize = PAGE_SIZE as usize;

/// The first byte if the bytes that are kept are all of the frame's.
const WHOLE: u8 = 0;

/// The first byte if a page of zeros follows the bytes that are kept.
const BEFORE_ZEROS: u8 = 1;

/// The bytes of a frame. If it is a Page of zeros, the page itself is not kept.
#[derive(Drop)]
pub struct FrameBytes {
    /// `WHOLE` or `BEFORE_ZEROS`, and the bytes that are kept.
    kept: Vec<u8>,
}

impl Model for FrameBytes {
    ghost use Rattle.std.specs.Prelude.{List, ℕ};
    ghost use Rattle.rvm_recorder.specs.Keeping.{told};

    ghost Value = { List ℕ };

    ghost view = { λ b. told b.kept.items };
}

impl FrameBytes {
    /// Allocates room for a frame of at most `most` bytes; none for 0. If the frame may be as long as a page, takes
    /// `spare` instead, provided that it is empty and large enough.
    pub(crate) fn room(
        alloc: Global,
        most: usize,
        spare: &mut Vec<u8>,
    ) -> Result<Vec<u8>, AllocError>
        ensures empty { IfOk result (λ v. v.items ≡ []) }
        ensures room { IfOk result (λ v. most ≤ vec_capacity v - 1) }
        ensures none { most ≡ 0 → IsOk result }
    {
        if most == 0 {
            return Ok(Vec::new(alloc));
        }
        if most >= PAGE && spare.is_empty() && spare.capacity() > most {
            return Ok(mem::replace(spare, Vec::new(alloc)));
        }
        let Some(count) = most.checked_add(1) else {
            return Err(AllocError);
        };
        Vec::with_capacity(alloc, count)
    }

    /// Writes the bytes of a frame into `room`, and frees what they do not need.
    pub(crate) fn of_frame(version: u32, addressed: &Addressed, room: Vec<u8>) -> FrameBytes
        requires empty { room.items ≡ [] }
        requires fits { Fits version (vec_capacity room - 1) addressed.now }
        ensures { result ≡ spelling (sent version addressed.now) }
    {
        let mut kept = room;
        kept.push_reserved(WHOLE);
        append_frame(version, addressed, &mut kept);
        if let Frame::Page { bytes, .. } = &addressed.frame {
            if bytes.is_zeros() {
                leave_out(&mut kept, bytes.as_array());
            }
        }
        kept.shrink_to_fit();
        FrameBytes { kept }
    }

    /// Returns all bytes of the frame. Fails if memory runs out.
    pub fn to_vec(&self, alloc: Global) -> Result<Vec<u8>, AllocError>
        ensures { IfOk result (λ v. v.items ≡ self.now) }
    {
        let [first, front @ ..] = self.kept.as_slice() else {
            return Ok(Vec::new(alloc));
        };
        if *first == WHOLE {
            return Vec::from_slice(alloc, front);
        }
        with_zeros(alloc, front)
    }
}

/// These bytes, followed by a page of zeros.
fn with_zeros(alloc: Global, front: &[u8]) -> Result<Vec<u8>, AllocError>
    ensures { IfOk result (λ v. v.items ≡ front.now ++ zeros) }
{
    let mut bytes = Vec::from_slice(alloc, front)?;
    bytes.extend_from_slice(&[0; PAGE])?;
    Ok(bytes)
}

/// Leaves out the last bytes if they are this page of zeros.
fn leave_out(kept: &mut Vec<u8>, page: &[u8; PAGE])
    requires first { slice_get kept.old.items 0 ≡ Some 0 }
    requires page { page.now ≡ zeros }
    ensures { told kept.new.items ≡ told kept.old.items }
{
    let front = kept.len().saturating_sub(PAGE);
    if front == 0 || !is_behind(kept.as_slice(), front, page) {
        return;
    }
    kept.truncate(front);
    kept[0] = BEFORE_ZEROS;
}

/// Whether the bytes after the first `front` are this page.
fn is_behind(bytes: &[u8], front: usize, page: &[u8; PAGE]) -> bool
    requires { front ≤ length bytes.now }
    ensures { result ≡ true → drop front bytes.now ≡ page.now }
{
    let (_, rest) = bytes.split_at(front);
    rest == page.as_slice()
}
