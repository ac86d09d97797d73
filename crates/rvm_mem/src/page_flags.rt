//! A flag for each page of a memory.

ghost use Rattle.std.specs.Prelude.{◌≡◌, ◌+◌, ◌*◌, ◌≤◌, ◌<◌, length, replicate, false, IfOk};
ghost use Rattle.rvm_mem.specs.Pages.{bits, byte_pages, count, mark, mark_all, window};

use crate::memory::PAGE_SIZE;
use crate::page_set::PageSet;
use crate::word;
use std::alloc::{AllocError, Global};
use std::marker::Model;

/// A flag for each page of a memory, which has at most 4096: the dirty log that a memory keeps, in
/// which a store marks its page by writing one byte.
#[derive(Drop)]
pub struct PageFlags {
    flags: Vec<bool>,
}

impl Model for PageFlags {
    ghost use Rattle.std.specs.Prelude.{◌≤◌, List, Bool, length};

    ghost Value = { List Bool };

    ghost view = { λ s. s.flags.items };

    ghost invariant = { λ s. length s.flags.items ≤ 4096 };
}

impl PageFlags {
    /// Flags for a memory of this many pages, at most 4096, none of which is marked.
    pub fn new(alloc: Global, pages: u32) -> Result<PageFlags, AllocError>
        requires { pages ≤ 4096 }
        ensures { IfOk result (λ s. s ≡ replicate pages false) }
    {
        let flags = vec![in alloc; false; pages as usize]?;
        Ok(PageFlags { flags })
    }

    /// The number of pages of the memory.
    #[inline(always)]
    pub fn pages(&self) -> u32
        ensures pages { result ≡ length self.now }
        ensures bound { result ≤ 4096 }
    {
        self.flags.len() as u32
    }

    /// Marks a page of the memory.
    #[inline(always)]
    pub fn insert(&mut self, page: u32)
        requires { page < length self.old }
        ensures { self.new ≡ mark page self.old }
    {
        self.flags[page as usize] = true;
    }

    /// Marks the page of each of this many bytes from a place on.
    #[tactic(auto, using(crate::proofs::Ranges::none_marked, crate::proofs::Ranges::more_marked))]
    pub fn insert_range(&mut self, at: u32, count: usize)
        requires { at + count ≤ 4096 * length self.old }
        ensures marks { self.new ≡ mark_all (byte_pages at count) self.old }
        ensures pages { length self.new ≡ length self.old }
    {
        let _pages = self.pages(); // for the proof
        let page_size = PAGE_SIZE as usize;
        let mut done = 0;
        while done < count {
            let place = at as usize + done;
            self.insert((place / page_size) as u32);
            done = count.min(done + page_size - place % page_size);
        }
    }

    /// The number of marked pages.
    pub fn count(&self) -> u32
        ensures count { result ≡ count self.now }
        ensures bound { result ≤ length self.now }
    {
        self.flags.iter().filter(|flag| **flag).count() as u32
    }

    /// The number whose bit i says whether page `first_page + i` is marked, for 64 pages. The bits
    /// of pages past the last are 0.
    pub fn word(&self, first_page: u32) -> u64
        ensures { result ≡ bits (window first_page self.now) }
    {
        word::word_at(&self.flags, first_page)
    }

    /// Moves the marked pages into `into`, which loses its old pages; then no page is marked.
    pub fn take(&mut self, into: &mut PageSet)
        requires { length into.old ≡ length self.old }
        ensures taken { into.new ≡ self.old }
        ensures flags { self.new ≡ replicate (length self.old) false }
    {
        into.assign(&self.flags);
        self.flags.fill(false);
    }
}
