//! Calls that read and write guests and images, and that make worlds.

use crate::heap::Heap;
use crate::trial::{Trial, Tried, print_tried};
use rvm_board::{Board, Debugged};
use rvm_core::{World, WorldError};
use rvm_elf::{ReadError, read_image};
use rvm_hart::RAM_BASE;
use rvm_mem::{FlatMemory, Memory, PAGE_SIZE, PagedMemory, write_bytes};
use rvm_state::{StateFault, read_state, write_state};
use std::alloc::Global;

/// How many pages a guest has.
pub const PAGES: u32 = 4;

/// Jumps to itself.
const LOOP: u32 = 0x0000006f;

/// An executable of one part, 4 bytes at 0x80000000 (ELF-32 Object File Format, sections 1 and 2).
static IMAGE: [u8; 88] = [
    127, 69, 76, 70, 1, 1, 1, 0, 0, 0, 0, 0, 0, 0, 0, 0, //
    2, 0, 243, 0, 1, 0, 0, 0, 0, 0, 0, 128, 52, 0, 0, 0, //
    0, 0, 0, 0, 0, 0, 0, 0, 52, 0, 32, 0, 1, 0, 0, 0, //
    0, 0, 0, 0, //
    1, 0, 0, 0, 84, 0, 0, 0, 0, 0, 0, 128, 0, 0, 0, 128, //
    4, 0, 0, 0, 4, 0, 0, 0, 5, 0, 0, 0, 4, 0, 0, 0, //
    111, 0, 0, 0,
];

/// A guest of one hart and four pages that jumps to itself.
pub fn guest(alloc: Global) -> Option<Debugged<FlatMemory>> {
    let mut ram = FlatMemory::zeroed(alloc, PAGES).ok()?;
    write_bytes(&mut ram, 0, &LOOP.to_le_bytes()).ok()?;
    let board = Board::new(alloc, 1, ram, RAM_BASE).ok()?;
    Some(Debugged::new(board))
}

/// Makes each of the calls.
pub fn try_calls<R: AllocGlobal + Print>(rt: &R, heap: &mut Heap) -> Option<()> {
    print_tried(rt, heap, "World::new", &mut NewWorld)?;
    print_tried(rt, heap, "write_state", &mut WriteState)?;
    print_tried(rt, heap, "read_state", &mut ReadState)?;
    print_tried(rt, heap, "read_image", &mut ReadImage)
}

/// The trial of making a world of two hosts. If memory runs out, its guest comes back as it was.
#[derive(Drop)]
struct NewWorld;

impl Trial for NewWorld {
    fn attempt(&mut self, alloc: Global, heap: &mut Heap, room: usize) -> Tried {
        match (guest(alloc), guest(alloc)) {
            (Some(guest), Some(same)) => new_world(alloc, heap, room, guest, &same),
            _ => Tried::Wrong,
        }
    }
}

/// Does the same with this guest.
fn new_world(
    alloc: Global,
    heap: &mut Heap,
    room: usize,
    guest: Debugged<FlatMemory>,
    same: &Debugged<FlatMemory>,
) -> Tried {
    if heap.leave(alloc, room).is_none() {
        return Tried::Wrong;
    }
    let made = World::new(alloc, guest, &[4, 4]);
    heap.release();
    match made {
        Ok(world) => {
            drop(world);
            Tried::Made
        }
        Err((why, guest)) => {
            Tried::refused(why == WorldError::OutOfMemory && are_same(alloc, &guest, same))
        }
    }
}

/// Whether two guests have the same state and the same RAM.
fn are_same(alloc: Global, one: &Debugged<FlatMemory>, other: &Debugged<FlatMemory>) -> bool {
    let (Ok(first), Ok(second)) = (write_state(alloc, one), write_state(alloc, other)) else {
        return false;
    };
    first.as_slice() == second.as_slice()
        && (0..PAGES).all(|page| page_of(one.memory(), page) == page_of(other.memory(), page))
}

/// The bytes of a page.
fn page_of(ram: &FlatMemory, page: u32) -> [u8; PAGE_SIZE as usize] {
    let mut bytes = [1; PAGE_SIZE as usize];
    if page < ram.pages() {
        ram.copy_page(page, &mut bytes);
    }
    bytes
}

/// The trial of writing the state of a guest.
#[derive(Drop)]
struct WriteState;

impl Trial for WriteState {
    fn attempt(&mut self, alloc: Global, heap: &mut Heap, room: usize) -> Tried {
        let Some(guest) = guest(alloc) else {
            return Tried::Wrong;
        };
        if heap.leave(alloc, room).is_none() {
            return Tried::Wrong;
        }
        let is_written = write_state(alloc, &guest).is_ok();
        heap.release();
        if is_written {
            Tried::Made
        } else {
            Tried::Refused
        }
    }
}

/// The trial of reading the state of a guest. If memory runs out, the RAM comes back.
#[derive(Drop)]
struct ReadState;

impl Trial for ReadState {
    fn attempt(&mut self, alloc: Global, heap: &mut Heap, room: usize) -> Tried {
        let Some(guest) = guest(alloc) else {
            return Tried::Wrong;
        };
        let (Ok(bytes), Ok(ram)) = (write_state(alloc, &guest), FlatMemory::zeroed(alloc, PAGES))
        else {
            return Tried::Wrong;
        };
        if heap.leave(alloc, room).is_none() {
            return Tried::Wrong;
        }
        let read = read_state(alloc, bytes.as_slice(), ram);
        heap.release();
        match read {
            Ok(guest) => {
                drop(guest);
                Tried::Made
            }
            Err((why, ram)) => Tried::refused(why == StateFault::OutOfMemory && is_empty(&ram)),
        }
    }
}

/// Whether a RAM has four pages of zeros.
fn is_empty(ram: &FlatMemory) -> bool {
    ram.len() == PAGES * PAGE_SIZE
        && (0..PAGES).all(|page| page_of(ram, page) == [0; PAGE_SIZE as usize])
}

/// The trial of reading an image.
#[derive(Drop)]
struct ReadImage;

impl Trial for ReadImage {
    fn attempt(&mut self, alloc: Global, heap: &mut Heap, room: usize) -> Tried {
        if heap.leave(alloc, room).is_none() {
            return Tried::Wrong;
        }
        let read = read_image(alloc, &IMAGE);
        heap.release();
        match read {
            Ok(_) => Tried::Made,
            Err(ReadError::OutOfMemory) => Tried::Refused,
            Err(_) => Tried::Wrong,
        }
    }
}
