//! What a guest's memory promises.

ghost use Rattle.std.specs.Prelude.{◌≡◌, ℕ, ◌+◌, ◌*◌, ◌/◌, ◌%◌, ◌^◌, ◌≤◌, List, Bool, IfNone, IfSome, length, nat_lt};
ghost use Rattle.rvm_mem.specs.Bytes.{load, replaced, store};
ghost use Rattle.rvm_mem.specs.Pages.{byte_pages, mark, mark_all};

/// The number of bytes of a page.
pub const PAGE_SIZE: u32 = 4096;

/// The most pages that a memory has.
pub const MAX_PAGES: u32 = 4096;

/// A guest's memory: at most 4096 whole pages, and its dirty log, the set of pages that were
/// written since the log was last taken. Numbers are little-endian (Unprivileged ISA, "Base
/// Instruction-Length Encoding" and "Memory").
///
/// A place is an offset from the first byte. The caller must see to it that each access is in
/// range, and that a load or store of a number is aligned to its size. A store changes its bytes
/// and adds their pages to the log, even if the bytes stay equal, and changes nothing else.
pub trait Memory {
    /// The bytes, in whatever form they are kept.
    ghost bytes: { Self → List ℕ };

    /// For each page, whether it is in the dirty log.
    ghost dirty: { Self → List Bool };

    /// The number of bytes.
    fn len(&self) -> u32
        ensures length { result ≡ length (bytes self.now) }
        ensures pages { result ≡ 4096 * length (dirty self.now) }
        ensures bound { result ≤ 2 ^ 24 };

    /// Whether there is a byte at a place.
    fn has(&self, at: u32) -> bool
        ensures has { result ≡ nat_lt at (length (bytes self.now)) }
        ensures pages { length (bytes self.now) ≡ 4096 * length (dirty self.now) }
        ensures bound { length (bytes self.now) ≤ 2 ^ 24 };

    /// The number in the four bytes at a place of 64 bits, or none if the place is past the end.
    fn try_load32(&self, at: u64) -> Option<u32>
        requires aligned { at % 4 ≡ 0 }
        ensures inside { IfSome result (λ n. at + 4 ≤ length (bytes self.now)) }
        ensures number { IfSome result (λ n. n ≡ load 4 at (bytes self.now)) }
        ensures outside { IfNone result (length (bytes self.now) ≤ at) }
        ensures bound { length (bytes self.now) ≤ 2 ^ 24 };

    /// The byte at a place.
    fn load8(&self, at: u32) -> u8
        requires { at + 1 ≤ length (bytes self.now) }
        ensures { result ≡ load 1 at (bytes self.now) };

    /// The number in the two bytes at a place.
    fn load16(&self, at: u32) -> u16
        requires aligned { at % 2 ≡ 0 }
        requires inside { at + 2 ≤ length (bytes self.now) }
        ensures { result ≡ load 2 at (bytes self.now) };

    /// The number in the four bytes at a place.
    fn load32(&self, at: u32) -> u32
        requires aligned { at % 4 ≡ 0 }
        requires inside { at + 4 ≤ length (bytes self.now) }
        ensures { result ≡ load 4 at (bytes self.now) };

    /// Writes a byte at a place.
    fn store8(&mut self, at: u32, value: u8)
        requires { at + 1 ≤ length (bytes self.old) }
        ensures bytes { bytes self.new ≡ store 1 at value (bytes self.old) }
        ensures dirty { dirty self.new ≡ mark (at / 4096) (dirty self.old) };

    /// Writes a number in two bytes at a place.
    fn store16(&mut self, at: u32, value: u16)
        requires aligned { at % 2 ≡ 0 }
        requires inside { at + 2 ≤ length (bytes self.old) }
        ensures bytes { bytes self.new ≡ store 2 at value (bytes self.old) }
        ensures dirty { dirty self.new ≡ mark (at / 4096) (dirty self.old) };

    /// Writes a number in four bytes at a place.
    fn store32(&mut self, at: u32, value: u32)
        requires aligned { at % 4 ≡ 0 }
        requires inside { at + 4 ≤ length (bytes self.old) }
        ensures bytes { bytes self.new ≡ store 4 at value (bytes self.old) }
        ensures dirty { dirty self.new ≡ mark (at / 4096) (dirty self.old) };

    /// Writes bytes from a place on, which need not be aligned.
    fn store_bytes(&mut self, at: u32, from: &[u8])
        requires { at + length from.now ≤ length (bytes self.old) }
        ensures bytes { bytes self.new ≡ replaced at from.now (bytes self.old) }
        ensures dirty { dirty self.new ≡ mark_all (byte_pages at (length from.now)) (dirty self.old) };
}
