//! What a memory promises if a host copies its pages while the guest runs.

ghost use Rattle.std.specs.Prelude.{◌≡◌, ◌*◌, ◌%◌, ◌<◌, ◌≤◌, false, length, replicate, IfOk};
ghost use Rattle.rvm_mem.specs.Bytes.{replaced};
ghost use Rattle.rvm_mem.specs.Pages.{bits, count, page_of, window};

use crate::memory::{Memory, PAGE_SIZE};
use crate::page_set::PageSet;
use std::alloc::{AllocError, Global};

/// A memory whose pages are read and written whole, and whose dirty log can be looked at and taken.
/// Pages are numbered from 0; page p is the 4096 bytes from place 4096 p on. No function but
/// `zeroed` takes memory.
pub trait PagedMemory: Memory {
    /// A memory of this many pages of zeros, at most 4096, none of which is in the dirty log.
    fn zeroed(alloc: Global, pages: u32) -> Result<Self, AllocError>
    where
        Self: Sized,
        requires { pages ≤ 4096 }
        ensures bytes { IfOk result (λ m. Self.bytes m ≡ replicate (4096 * pages) 0) }
        ensures dirty { IfOk result (λ m. Self.dirty m ≡ replicate pages false) };

    /// The number of pages.
    fn pages(&self) -> u32
        ensures pages { result ≡ length (Self.dirty self.now) }
        ensures bound { result ≤ 4096 };

    /// The bytes of a page.
    fn page(&self, page: u32) -> &[u8; PAGE_SIZE as usize]
        requires { page < length (Self.dirty self.now) }
        ensures { result.now ≡ page_of page (Self.bytes self.now) };

    /// Copies the bytes of a page into an array.
    fn copy_page(&self, page: u32, into: &mut [u8; PAGE_SIZE as usize])
        requires { page < length (Self.dirty self.now) }
        ensures { into.new ≡ page_of page (Self.bytes self.now) }
    {
        *into = *self.page(page);
    }

    /// Replaces a page; the dirty log does not change.
    fn put_page(&mut self, page: u32, from: &[u8; PAGE_SIZE as usize])
        requires { page < length (Self.dirty self.old) }
        ensures bytes { Self.bytes self.new ≡ replaced (4096 * page) from.now (Self.bytes self.old) }
        ensures dirty { Self.dirty self.new ≡ Self.dirty self.old };

    /// The number whose bit i says whether page `first + i` is in the dirty log, for 64 pages from
    /// a multiple of 64 on. The bits of pages past the last are 0. The log does not change.
    fn peek_dirty(&self, first: u32) -> u64
        requires aligned { first % 64 ≡ 0 }
        ensures { result ≡ bits (window first (Self.dirty self.now)) };

    /// The number of pages in the dirty log.
    fn dirty_count(&self) -> u32
        ensures { result ≡ count (Self.dirty self.now) };

    /// Moves the dirty log into `into`, which loses its old pages; the log is then empty.
    fn take_dirty(&mut self, into: &mut PageSet)
        requires { length into.old ≡ length (Self.dirty self.old) }
        ensures taken { into.new ≡ Self.dirty self.old }
        ensures dirty { Self.dirty self.new ≡ replicate (length (Self.dirty self.old)) false }
        ensures bytes { Self.bytes self.new ≡ Self.bytes self.old };
}
