//! Sets of pages.

ghost use Rattle.std.specs.Prelude.{◌≡◌, ◌+◌, ◌-◌, ◌*◌, ◌/◌, ◌^◌, ◌≤◌, ◌<◌, ℕ, min, true, false, length, replicate, slice_index_or, IfOk};
ghost use Rattle.rvm_mem.specs.Pages.{IsLowest, bit, bits, count, first, has, has_except, mark, unmark, union, window};
ghost use Rattle.rvm_mem.specs.Rows.{AreRows, flags};

use crate::word::{self, WORD_PAGES};
use std::alloc::{AllocError, Global};
use std::marker::Model;

/// A set of page numbers of a memory, which has at most 4096 pages. Page p is bit p % 64 of row p / 64, so that a loop
/// over all pages has at most 64 steps. The number of pages in the set is kept.
#[derive(Drop)]
pub struct PageSet {
    rows: Vec<u64>,
    pages: u32,
    count: u32,
}

impl Model for PageSet {
    ghost use Rattle.std.specs.Prelude.{List, Bool};
    ghost use Rattle.rvm_mem.specs.Rows.{AreCounted, flags};

    ghost Value = { List Bool };

    ghost view = { λ s. flags s.pages s.rows.items };

    ghost invariant = { λ s. AreCounted s.pages s.count s.rows.items };
}

impl PageSet {
    /// The empty set, for a memory of this many pages, at most 4096.
    pub fn new(alloc: Global, pages: u32) -> Result<PageSet, AllocError>
        requires { pages ≤ 4096 }
        ensures { IfOk result (λ s. s ≡ replicate pages false) }
    {
        let rows = vec![in alloc; 0u64; pages.div_ceil(WORD_PAGES) as usize]?;
        Ok(PageSet {
            rows,
            pages,
            count: 0,
        })
    }

    /// The number of pages of the memory.
    #[inline(always)]
    pub fn pages(&self) -> u32
        ensures pages { result ≡ length self.now }
        ensures bound { result ≤ 4096 }
    {
        self.pages
    }

    /// Whether a page is in the set; a page past the memory's end is not.
    #[inline(always)]
    pub fn contains(&self, page: u32) -> bool
        ensures { result ≡ has page self.now }
    {
        let row = row_at(&self.rows, (page / WORD_PAGES) as usize);
        has_bit(row, page % WORD_PAGES)
    }

    /// Adds a page of the memory.
    #[inline(always)]
    pub fn insert(&mut self, page: u32)
        requires { page < length self.old }
        ensures { self.new ≡ mark page self.old }
    {
        let rows = &mut self.rows;
        let row = rows[(page / WORD_PAGES) as usize];
        if has_bit(row, page % WORD_PAGES) {
            return;
        }
        rows[(page / WORD_PAGES) as usize] = row | 1 << (page % WORD_PAGES);
        self.count += 1;
    }

    /// Removes a page of the memory.
    #[inline(always)]
    pub fn remove(&mut self, page: u32)
        requires { page < length self.old }
        ensures { self.new ≡ unmark page self.old }
    {
        let rows = &mut self.rows;
        let row = rows[(page / WORD_PAGES) as usize];
        if !has_bit(row, page % WORD_PAGES) {
            return;
        }
        rows[(page / WORD_PAGES) as usize] = row & !(1 << (page % WORD_PAGES));
        self.count -= 1;
    }

    /// The number of pages in the set.
    pub fn count(&self) -> u32
        ensures count { result ≡ count self.now }
        ensures bound { result ≤ length self.now }
    {
        self.count
    }

    /// Removes every page.
    pub fn clear(&mut self)
        ensures { self.new ≡ replicate (length self.old) false }
    {
        self.rows.fill(0);
        self.count = 0;
    }

    /// Adds every page of the memory.
    pub fn fill(&mut self)
        ensures { self.new ≡ replicate (length self.old) true }
    {
        let pages = self.pages;
        let rows = &mut self.rows;
        for i in 0..rows.len() {
            rows[i] = full_row(pages - WORD_PAGES * i as u32);
        }
        self.count = pages;
    }

    /// The lowest page in the set, if there is one.
    pub fn first(&self) -> Option<u32>
        ensures { result ≡ first self.now }
    {
        for i in 0..self.rows.len() {
            let row = row_at(&self.rows, i);
            if row != 0 {
                return Some(WORD_PAGES * i as u32 + row.trailing_zeros());
            }
        }
        None
    }

    /// The lowest page in the set, from `from` to the end of its block of 64 pages, whose bit in `except` is 0. Bit i
    /// of `except` is for the i-th page of the block.
    pub fn next_except(&self, from: u32, except: u64) -> Option<u32>
        ensures { IsLowest (has_except except self.now) from (64 * (from / 64) + 64) result }
    {
        let row = row_at(&self.rows, (from / WORD_PAGES) as usize);
        let left = row & !except & (u64::MAX << (from % WORD_PAGES));
        if left == 0 {
            return None;
        }
        Some(WORD_PAGES * (from / WORD_PAGES) + left.trailing_zeros())
    }

    /// Adds the pages of another set of the same memory.
    pub fn add(&mut self, other: &PageSet)
        requires { length other.now ≡ length self.old }
        ensures { self.new ≡ union self.old other.now }
    {
        let rows = &mut self.rows;
        for i in 0..rows.len() {
            rows[i] |= other.rows[i];
        }
        self.count = ones(&self.rows);
    }

    /// Sets the set to the pages whose flags are true.
    pub(crate) fn assign(&mut self, flags: &[bool])
        requires { length flags.now ≡ length self.old }
        ensures { self.new ≡ flags.now }
    {
        let rows = &mut self.rows;
        for i in 0..rows.len() {
            rows[i] = word::word_at(flags, WORD_PAGES * i as u32);
        }
        self.count = ones(&self.rows);
    }

    /// The number whose bit i says whether page `first_page + i` is in the set, for 64 pages. The bits of pages past
    /// the last are 0.
    pub fn word(&self, first_page: u32) -> u64
        ensures { result ≡ bits (window first_page self.now) }
    {
        let row = (first_page / WORD_PAGES) as usize;
        let place = first_page % WORD_PAGES;
        let low = row_at(&self.rows, row) >> place;
        if place == 0 {
            return low;
        }
        low | row_at(&self.rows, row + 1) << (WORD_PAGES - place)
    }
}

/// The row with this index, or 0 if there is none.
#[inline(always)]
fn row_at(rows: &[u64], row: usize) -> u64
    ensures { result ≡ slice_index_or rows.now row 0 }
{
    match rows.get(row) {
        Some(row) => *row,
        None => 0,
    }
}

/// Whether a bit of a row is 1.
#[inline(always)]
fn has_bit(row: u64, place: u32) -> bool
    requires { place < 64 }
    ensures { result ≡ bit place row }
{
    row >> place & 1 == 1
}

/// A row in which the lowest `pages` bits are 1, or all 64 if there are more.
fn full_row(pages: u32) -> u64
    requires { 0 < pages }
    ensures { result ≡ 2 ^ min pages 64 - 1 }
{
    u64::MAX >> (WORD_PAGES - pages.min(WORD_PAGES))
}

/// The number of bits that are 1 in all rows.
fn ones(rows: &[u64]) -> u32
    requires { length rows.now ≤ 64 }
    ensures { (n : ℕ) → AreRows n rows.now → result ≡ count (flags n rows.now) }
{
    let mut ones = 0;
    for i in 0..rows.len() {
        ones += rows[i].count_ones();
    }
    ones
}
