//! What has a dirty log that can be looked at and taken: a memory, or a guest with its memory.

ghost use Rattle.std.specs.Prelude.{◌≡◌, ◌%◌, List, Bool, false, length, refl, replicate};
ghost use Rattle.rvm_mem.specs.Pages.{bits, count, window};

use crate::page_set::PageSet;
use crate::paged::PagedMemory;

/// A dirty log: the set of pages that were written since the log was last taken. Taking the log
/// changes nothing else in the value, just as `PagedMemory` promises for a memory.
pub trait DirtyLog {
    /// For each page, whether it is in the dirty log.
    ghost log: { Self → List Bool };

    /// The two values differ in nothing but their logs.
    ghost beside: { Self → Self → Type 0 };

    /// Each value differs from itself in nothing but its log.
    ghost beside_same: { (x : Self) → beside x x };

    /// The number whose bit i says whether page `first + i` is in the dirty log, for 64 pages from
    /// a multiple of 64 on. The bits of pages past the last are 0. The log does not change.
    fn peek_dirty(&self, first: u32) -> u64
        requires aligned { first % 64 ≡ 0 }
        ensures { result ≡ bits (window first (log self.now)) };

    /// The number of pages in the dirty log.
    fn dirty_count(&self) -> u32
        ensures { result ≡ count (log self.now) };

    /// Moves the dirty log into `into`, which loses its old pages; the log is then empty.
    fn take_dirty(&mut self, into: &mut PageSet)
        requires { length into.old ≡ length (log self.old) }
        ensures taken { into.new ≡ log self.old }
        ensures log { log self.new ≡ replicate (length (log self.old)) false }
        ensures rest { beside self.old self.new };
}

impl<M: PagedMemory> DirtyLog for M {
    ghost log = { λ m. M.dirty m };

    ghost beside = { λ old new. M.bytes new ≡ M.bytes old };

    ghost beside_same = { λ m. refl };

    fn peek_dirty(&self, first: u32) -> u64 {
        PagedMemory::peek_dirty(self, first)
    }

    fn dirty_count(&self) -> u32 {
        PagedMemory::dirty_count(self)
    }

    fn take_dirty(&mut self, into: &mut PageSet) {
        PagedMemory::take_dirty(self, into);
    }
}
