//! A linker's file is read as its tools print it, refusals come in their order, and what is loaded
//! runs.

use rvm_asm::{Image, Segment};
use rvm_board::Board;
use rvm_elf::{OutsideRam, ReadError, WriteError, load, raw_image, read_image, write_image};
use rvm_mem::{FlatMemory, PagedMemory};
use std::alloc::{AllocError, Global};
use std::test::Fail;

/// The first 168 bytes of a file of LLD 14. `llvm-readelf` prints: entry 0x80000000; a note without
/// bytes; a part of 16 bytes from place 148 at 0x80000000; one of 4 bytes from place 164 and 8
/// zeros, at virtual address 0x80002000 and physical address 0x80000010. The program sends A: lui
/// t0, 0x10000; addi t1, zero, 65; sw t1, 0(t0); jal zero, -12.
static LINKED: [u8; 168] = [
    127, 69, 76, 70, 1, 1, 1, 0, 0, 0, 0, 0, 0, 0, 0, 0, //
    2, 0, 243, 0, 1, 0, 0, 0, 0, 0, 0, 128, 52, 0, 0, 0, //
    16, 1, 0, 0, 0, 0, 0, 0, 52, 0, 32, 0, 3, 0, 40, 0, //
    7, 0, 5, 0, 4, 0, 0, 0, 0, 0, 0, 0, 0, 0, 0, 0, //
    0, 0, 0, 0, 0, 0, 0, 0, 0, 0, 0, 0, 4, 0, 0, 0, //
    0, 0, 0, 0, 1, 0, 0, 0, 148, 0, 0, 0, 0, 0, 0, 128, //
    0, 0, 0, 128, 16, 0, 0, 0, 16, 0, 0, 0, 5, 0, 0, 0, //
    4, 0, 0, 0, 1, 0, 0, 0, 164, 0, 0, 0, 0, 32, 0, 128, //
    16, 0, 0, 128, 4, 0, 0, 0, 12, 0, 0, 0, 6, 0, 0, 0, //
    1, 0, 0, 0, 183, 2, 0, 16, 19, 3, 16, 4, 35, 160, 98, 0, //
    111, 240, 95, 255, 68, 51, 34, 17,
];

/// Places in it: of the headers of both parts, and of their fields.
const FIRST: usize = 84;

const SECOND: usize = 116;

const OFFSET: usize = 4;

const BYTES: usize = 16;

const SIZE: usize = 20;

/// The file with some bytes changed.
fn changed(changes: &[(usize, u8)]) -> [u8; 168] {
    let mut file = LINKED;
    for (place, byte) in changes {
        if *place < 168 {
            file[*place] = *byte;
        }
    }
    file
}

/// A file that is cut short, and one with bytes changed: the first of its faults is reported.
#[test]
fn files_with_faults_are_refused(rt: HostRuntime) {
    let bad = Some(ReadError::BadMagic);
    let other = Some(ReadError::NotRiscV32);
    let cut = Some(ReadError::Truncated);
    let many = Some(ReadError::TooMany);
    let cut_short = [
        (0, bad),
        (3, bad),
        (4, cut),
        (51, cut),
        (52, cut),
        (147, cut),
        (148, cut),
        (167, cut),
        (168, None),
    ];
    for (count, want) in cut_short {
        assert!(rt; count <= LINKED.len());
        assert_eq!(rt;
            read_image(rt.alloc(), &LINKED[..count]).err(),
            want,
            "{count} bytes"
        );
    }
    let changes: [(&[(usize, u8)], Option<ReadError>); 24] = [
        (&[(4, 2)], other),
        (&[(5, 2)], other),
        (&[(6, 0)], other),
        (&[(16, 3)], other),
        (&[(18, 62)], other),
        (&[(42, 40)], other),
        (&[(44, 16)], cut),
        (&[(44, 17)], many),
        (&[(45, 1)], many),
        (&[(31, 0xFF)], cut),
        (&[(FIRST + BYTES, 17)], other),
        (&[(FIRST + OFFSET + 3, 0xFF)], cut),
        (&[(SECOND + BYTES, 5)], cut),
        (&[(SECOND + BYTES, 13)], other),
        // One fault before another.
        (&[(SECOND + BYTES, 5), (FIRST + BYTES, 17)], other),
        (&[(SECOND + BYTES, 13), (FIRST + OFFSET, 255)], cut),
        (&[(FIRST + BYTES, 17), (31, 0xFF)], cut),
        (&[(31, 0xFF), (44, 17)], many),
        (&[(44, 17), (18, 62)], other),
        (&[(18, 62), (0, 0)], bad),
        // What is not looked at.
        (&[(44, 0), (42, 0), (31, 0xFF)], None),
        (
            &[(FIRST, 2), (FIRST + BYTES, 17), (FIRST + OFFSET + 3, 0xFF)],
            None,
        ),
        (&[(SECOND + BYTES, 0), (SECOND + OFFSET + 3, 0xFF)], None),
        (&[(SECOND + BYTES, 5), (SECOND + SIZE, 0)], None),
    ];
    for (changes, want) in changes {
        assert_eq!(rt; read_image(rt.alloc(), &changed(changes)).err(), want);
    }
}

/// The image of some bytes at an address, and zeros after them.
fn image_of(alloc: Global, segments: &[(u32, &[u8], u32)]) -> Result<Image, AllocError> {
    let mut made = Vec::new(alloc);
    for (address, bytes, zeros) in segments {
        made.push(Segment {
            address: *address,
            bytes: Vec::from_slice(alloc, bytes)?,
            zeros: *zeros,
        })?;
    }
    Ok(Image {
        entry: 0x8000_0000,
        segments: made,
    })
}

/// Whether an image begins at the first byte of RAM, and has just these segments.
fn has(image: &Image, segments: &[(u32, &[u8], u32)]) -> bool {
    if image.entry != 0x8000_0000 || image.segments.len() != segments.len() {
        return false;
    }
    for (segment, (address, bytes, zeros)) in image.segments.iter().zip(segments.iter()) {
        if segment.address != *address
            || segment.bytes.as_slice() != *bytes
            || segment.zeros != *zeros
        {
            return false;
        }
    }
    true
}

#[test]
fn a_file_of_a_linker_is_read(rt: HostRuntime) -> Result<(), Fail> {
    let image = read_image(rt.alloc(), &LINKED)?;
    let program: (u32, &[u8], u32) = (0x8000_0000, &LINKED[148..164], 0);
    let data: (u32, &[u8], u32) = (0x8000_0010, &[0x44, 0x33, 0x22, 0x11], 8);
    assert!(rt; has(&image, &[program, data]));
    Ok(())
}

#[test]
fn a_file_of_this_program_is_read(rt: HostRuntime) -> Result<(), Fail> {
    let written = write_image(rt.alloc(), &raw_image(rt.alloc(), &[7; 36])?)?;
    assert!(rt; written.len() == 120);
    let image = read_image(rt.alloc(), &written)?;
    assert!(rt; has(&image, &[(0x8000_0000, &[7; 36], 0)]));
    Ok(())
}

#[test]
fn an_image_too_large_for_a_file_is_refused(rt: HostRuntime) -> Result<(), Fail> {
    let alloc = rt.alloc();
    let small: (u32, &[u8], u32) = (0x8000_0000, &[], 1);
    let large: (u32, &[u8], u32) = (0x8000_0000, &[0], u32::MAX);
    let many = image_of(alloc, &[small; 17])?;
    assert_eq!(rt; write_image(alloc, &many).err(), Some(WriteError::TooMany));
    let wide = image_of(alloc, &[small, large])?;
    assert_eq!(rt;
        write_image(alloc, &wide).err(),
        Some(WriteError::OutOfReach)
    );
    let empty = image_of(alloc, &[])?;
    assert_eq!(rt; write_image(alloc, &empty)?.len(), 52);
    Ok(())
}

/// A board of one hart and one page.
fn board(alloc: Global) -> Result<Board<FlatMemory>, Fail> {
    let ram = FlatMemory::zeroed(alloc, 1)?;
    match Board::new(alloc, 1, ram, 0x8000_0000) {
        Ok(board) => Ok(board),
        Err((error, _)) => Err(Fail::new(error)),
    }
}

/// What the guest of an image sends in its first three steps.
fn sent(alloc: Global, image: &Image) -> Result<u8, Fail> {
    let mut board = board(alloc)?;
    load(image, &mut board)?;
    for _ in 0..3 {
        if board.harts() > 0 {
            board.step(0);
        }
    }
    let mut bytes = [0xFF; 1];
    board.drain(&mut bytes);
    Ok(bytes[0])
}

#[test]
fn the_last_segment_decides(rt: HostRuntime) -> Result<(), Fail> {
    let alloc = rt.alloc();
    let linked = read_image(alloc, &LINKED)?;
    assert_eq!(rt; sent(alloc, &linked)?, b'A');
    let program: (u32, &[u8], u32) = (0x8000_0000, &LINKED[148..164], 0);
    // addi t1, zero, 66 in place of 65, and the same with zeros over its immediate.
    let other: (u32, &[u8], u32) = (0x8000_0004, &[0x13, 0x03, 0x20, 0x04], 0);
    let zeros: (u32, &[u8], u32) = (0x8000_0006, &[], 2);
    let changed = image_of(alloc, &[program, other])?;
    assert_eq!(rt; sent(alloc, &changed)?, b'B');
    let cleared = image_of(alloc, &[program, other, zeros])?;
    assert_eq!(rt; sent(alloc, &cleared)?, 0);
    Ok(())
}

#[test]
fn a_segment_outside_ram_is_refused(rt: HostRuntime) -> Result<(), Fail> {
    let outside = image_of(rt.alloc(), &[(0x8000_0FFF, &[1], 1)])?;
    assert_eq!(rt; load(&outside, &mut board(rt.alloc())?), Err(OutsideRam));
    Ok(())
}
