//! The heap of a worker's thread.

use std::alloc::{AllocError, Global};

/// The number of calls that a block has room for: each keeps a page and a little more.
pub(crate) const CALLS_PER_BLOCK: usize = 26;

/// The bytes of a block. The C library's allocator maps blocks from 128 KiB on by themselves, outside of the heap.
const BLOCK_SIZE: usize = 112 << 10;

/// Allocates a block. This is not inlined, so that the compiler does not leave it out.
#[inline(never)]
fn block(alloc: Global) -> Result<Vec<u8>, AllocError> {
    Vec::with_capacity(alloc, BLOCK_SIZE)
}

/// Grows the heap by a block, which is freed at once, so that what is kept next lies in it. The C library's allocator
/// grows the heap of a thread by the size of each request: without this, each page that is kept would cost a system
/// call.
pub(crate) fn grow(alloc: Global) {
    let _block = block(alloc);
}
