//! A memory of pages with its dirty log.

ghost use Rattle.std.specs.Prelude.{◌≡◌, ◌*◌, ◌<◌, ◌↔◌, ◌⊎◌, false, replicate, IfOk};
ghost use Rattle.rvm_paged.specs.Refusals.{refusal_of};
ghost use Rattle.rvm_paged.specs.declared.paged_ram.PagedError.TheVariants.{BadSize};

use byteorder::{ByteOrder, LittleEndian};
use rvm_mem::{MAX_PAGES, Memory, PAGE_SIZE, PageFlags, PageSet, PagedMemory, block};
use rvm_refusal::Refusal;
use std::alloc::{AllocError, Global};
use std::marker::Model;
use thiserror::Error;

/// Why a memory was not made.
#[derive(Clone, Copy, Debug, PartialEq, Eq, Error)]
pub enum PagedError {
    /// No page, or more than 4096.
    #[error("a memory has 1 to 4096 pages")]
    BadSize,
    /// Memory ran out.
    #[error("out of memory")]
    OutOfMemory,
}

impl From<PagedError> for Refusal {
    ghost from_gives = { λ error told. told ≡ refusal_of error };

    fn from(error: PagedError) -> Refusal {
        match error {
            PagedError::BadSize => Refusal::BadSize,
            PagedError::OutOfMemory => Refusal::OutOfMemory,
        }
    }
}

/// A memory whose bytes are one block, with its dirty log.
#[derive(Drop)]
pub struct PagedRam {
    // The log comes first. With the layout of `FlatMemory`, the compiler makes runs over the two memories one function,
    // and a benchmark that compares them compares nothing.
    dirty: PageFlags,
    bytes: Vec<u8>,
}

impl Model for PagedRam {
    ghost use Rattle.std.specs.Prelude.{◌≡◌, ◌*◌, ◌≤◌, length};
    ghost use Rattle.rvm_mem.specs.Pages.{Ram};

    ghost Value = { Ram };

    ghost view = { λ m. record { bytes = m.bytes.items; dirty = m.dirty } };

    ghost invariant = { λ m. (length m.bytes.items ≡ 4096 * length m.dirty)
        × (length m.dirty ≤ 4096) };
}

impl PagedRam {
    /// A memory of this many pages of zeros, none of which is in the dirty log. `BadSize` for no page or more than
    /// 4096; `OutOfMemory` if an allocation fails.
    pub fn new(alloc: Global, pages: u32) -> Result<PagedRam, PagedError>
        ensures bytes { IfOk result (λ m. m.bytes ≡ replicate (4096 * pages) 0) }
        ensures dirty { IfOk result (λ m. m.dirty ≡ replicate pages false) }
        ensures size { (result ≡ Err BadSize) ↔ ((pages ≡ 0) ⊎ (4096 < pages)) }
    {
        if pages == 0 || pages > MAX_PAGES {
            return Err(PagedError::BadSize);
        }
        match PagedRam::zeroed(alloc, pages) {
            Ok(ram) => Ok(ram),
            Err(AllocError) => Err(PagedError::OutOfMemory),
        }
    }
}

impl Memory for PagedRam {
    ghost bytes = { λ m. m.bytes };

    ghost dirty = { λ m. m.dirty };

    #[inline(always)]
    fn len(&self) -> u32 {
        self.bytes.len() as u32
    }

    // The log's length says it: with that of the bytes, both of a fetch and of a load in one step, the compiler would
    // keep it in a register, and a step would take a host instruction more.
    #[inline(always)]
    fn has(&self, at: u32) -> bool {
        at / PAGE_SIZE < self.dirty.pages()
    }

    #[inline(always)]
    fn try_load32(&self, at: u64) -> Option<u32> {
        if at >= self.bytes.len() as u64 {
            return None;
        }
        Some(LittleEndian::read_u32(&self.bytes[at as usize..]))
    }

    #[inline(always)]
    fn load8(&self, at: u32) -> u8 {
        self.bytes[at as usize]
    }

    #[inline(always)]
    fn load16(&self, at: u32) -> u16 {
        LittleEndian::read_u16(&self.bytes[at as usize..])
    }

    #[inline(always)]
    fn load32(&self, at: u32) -> u32 {
        LittleEndian::read_u32(&self.bytes[at as usize..])
    }

    #[inline(always)]
    fn store8(&mut self, at: u32, value: u8) {
        self.bytes[at as usize] = value;
        self.dirty.insert(at / PAGE_SIZE);
    }

    #[inline(always)]
    fn store16(&mut self, at: u32, value: u16) {
        block::put16(&mut self.bytes, at as usize, value);
        self.dirty.insert(at / PAGE_SIZE);
    }

    #[inline(always)]
    fn store32(&mut self, at: u32, value: u32) {
        block::put32(&mut self.bytes, at as usize, value);
        self.dirty.insert(at / PAGE_SIZE);
    }

    fn store_bytes(&mut self, at: u32, from: &[u8]) {
        self.dirty.insert_range(at, from.len());
        block::put_bytes(&mut self.bytes, at as usize, from);
    }
}

impl PagedMemory for PagedRam {
    fn zeroed(alloc: Global, pages: u32) -> Result<PagedRam, AllocError> {
        let bytes = vec![in alloc; 0u8; pages as usize * PAGE_SIZE as usize]?;
        let dirty = PageFlags::new(alloc, pages)?;
        Ok(PagedRam { dirty, bytes })
    }

    fn pages(&self) -> u32 {
        self.dirty.pages()
    }

    fn page(&self, page: u32) -> &[u8; PAGE_SIZE as usize] {
        block::page(&self.bytes, page)
    }

    fn put_page(&mut self, page: u32, from: &[u8; PAGE_SIZE as usize]) {
        block::put_page(&mut self.bytes, page, from);
    }

    fn peek_dirty(&self, first: u32) -> u64 {
        self.dirty.word(first)
    }

    fn dirty_count(&self) -> u32 {
        self.dirty.count()
    }

    fn take_dirty(&mut self, into: &mut PageSet) {
        self.dirty.take(into);
    }
}
