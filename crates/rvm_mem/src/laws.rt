//! What holds of every store and of every write of a range.

ghost use Rattle.std.specs.Prelude.{◌≡◌, ℕ, ◌+◌, ◌/◌, ◌%◌, ◌≤◌, List, [], ◌∷◌, length};
ghost use Rattle.rvm_mem.specs.Bytes.{replaced, store};
ghost use Rattle.rvm_mem.specs.Others.{Others};
ghost use Rattle.rvm_mem.specs.Pages.{byte_pages};

/// A store does not change the length of memory.
pub fn a_store_keeps_the_length()
    ensures { (n at value : ℕ) (bytes : List ℕ) → at + n ≤ length bytes
        → length (store n at value bytes) ≡ length bytes }
{}

/// A store within one page changes no other page.
pub fn a_store_leaves_other_pages()
    ensures { (n at value : ℕ) (bytes : List ℕ) → at + n ≤ length bytes → at % 4096 + n ≤ 4096
        → Others (at / 4096 ∷ []) (store n at value bytes) bytes }
{}

/// Writing a range changes no page that has none of its bytes.
pub fn a_write_leaves_other_pages()
    ensures { (at : ℕ) (new bytes : List ℕ) → at + length new ≤ length bytes
        → Others (byte_pages at (length new)) (replaced at new bytes) bytes }
{}
