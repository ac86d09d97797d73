//! Boards at reset over one page of RAM.

use rvm_board::{Board, Debugged};
use rvm_hart::RAM_BASE;
use rvm_mem::{FlatMemory, PagedMemory, write_bytes};
use std::alloc::{AllocError, Global};
use std::test::Fail;

/// A page of RAM.
pub fn page(alloc: Global) -> Result<FlatMemory, AllocError> {
    FlatMemory::zeroed(alloc, 1)
}

/// A board with one page of RAM that begins with these words.
pub fn board(alloc: Global, harts: u32, words: &[u32]) -> Result<Debugged<FlatMemory>, Fail> {
    let mut ram = page(alloc)?;
    let mut at = 0u32;
    for word in words {
        write_bytes(&mut ram, at, &word.to_le_bytes())?;
        at = at.wrapping_add(4);
    }
    match Board::new(alloc, harts, ram, RAM_BASE) {
        Ok(board) => Ok(Debugged::new(board)),
        Err((error, _)) => Err(Fail::from(error)),
    }
}
