//! A heap that is full, beside a stack that need not grow.

use std::alloc::Global;

/// The largest block that is asked for at first: 16 GiB, below what a system that counts its memory refuses at once.
const LARGEST: usize = 1 << 34;

/// The smallest size to which sizes are halved; smaller ones fall by `STEP`.
const LAST_HALF: usize = 2048;

const STEP: usize = 16;

/// The most blocks of one size.
const MOST: usize = 16384;

/// The number of blocks that are kept free for a trial while the rest is held, and their size. They are many, since the
/// C library keeps some small blocks that are given back apart, wherever they lie.
const FREE: usize = 1024;

const FREE_SIZE: usize = 65536;

/// The size of a block that lies after the free ones, so that the C library does not give them back to the system.
const LID: usize = 2048;

/// The number of pages of stack that there are before the heap is full: 1 MiB, several times what the trials take.
const STACK_PAGES: usize = 256;

const STACK_PAGE: usize = 4096;

/// The most bytes that a call may find.
pub const MOST_ROOM: usize = 65536;

/// The number of bytes of one piece, of which a call finds the last ones.
const PIECE: usize = MOST_ROOM + 4096;

/// All memory that this process can get, except that of a trial.
#[derive(Drop)]
pub struct Heap {
    /// What is held as long as the heap exists.
    held: Vec<Vec<u8>>,
    /// What is held in a trial, while a call is made.
    rest: Vec<Vec<u8>>,
}

/// Holds memory in blocks of a size until none is left.
fn hold(alloc: Global, blocks: &mut Vec<Vec<u8>>, size: usize) {
    for _ in 0..MOST {
        let Ok(block) = Vec::with_capacity(alloc, size) else {
            return;
        };
        if blocks.push(block).is_err() {
            return;
        }
    }
}

/// Holds all memory that is left, in blocks of this size and below.
fn hold_all(alloc: Global, blocks: &mut Vec<Vec<u8>>, largest: usize) {
    for half in 0..64u32 {
        let size = largest >> half;
        if size < LAST_HALF {
            break;
        }
        hold(alloc, blocks, size);
    }
    for step in 0..LAST_HALF / STEP {
        hold(alloc, blocks, LAST_HALF - step * STEP);
    }
}

/// Writes to as much stack as the trials may need, and returns whether it holds what was written. Linux extends a stack
/// when a page below it is first used, and only while the addresses below that page are free. A full heap takes them,
/// and a call that needed more stack would then be stopped by signal 11.
#[inline(never)]
fn grow_stack(byte: u8) -> bool {
    let pages = [[byte; STACK_PAGE]; STACK_PAGES];
    pages
        .iter()
        .all(|page| page.iter().all(|found| *found == byte))
}

impl Heap {
    /// Makes the stack large, and then holds all memory but that of a trial.
    pub fn new(alloc: Global) -> Option<Heap> {
        if !grow_stack(1) {
            return None;
        }
        let mut free: Vec<Vec<u8>> = Vec::with_capacity(alloc, FREE).ok()?;
        let mut held = Vec::with_capacity(alloc, MOST).ok()?;
        let rest = Vec::with_capacity(alloc, MOST).ok()?;
        for _ in 0..FREE {
            hold_one(alloc, &mut free, FREE_SIZE)?;
        }
        hold_one(alloc, &mut held, LID)?;
        hold_all(alloc, &mut held, LARGEST);
        drop(free);
        Some(Heap { held, rest })
    }

    /// Holds all that is left except this many bytes in one piece, until `release`.
    pub fn leave(&mut self, alloc: Global, room: usize) -> Option<()> {
        let piece: Vec<u8> = Vec::with_capacity(alloc, PIECE).ok()?;
        hold_all(alloc, &mut self.rest, FREE * FREE_SIZE);
        drop(piece);
        hold_one(alloc, &mut self.rest, PIECE.saturating_sub(room))
    }

    /// Gives back what `leave` holds.
    pub fn release(&mut self) {
        let _blocks = self.held.len();
        self.rest.clear();
    }
}

/// Holds one block of a size.
fn hold_one(alloc: Global, blocks: &mut Vec<Vec<u8>>, size: usize) -> Option<()> {
    let block = Vec::with_capacity(alloc, size).ok()?;
    blocks.push(block).ok()
}
