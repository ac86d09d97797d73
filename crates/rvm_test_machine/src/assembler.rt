//! Texts and the images that they stand for. Words of instructions are those of the manual's
//! formats.

use rvm_asm::{AsmError, Fault, Segment, assemble};
use std::alloc::{AllocError, Global};
use std::test::Fail;

fn is_at(segment: &Segment, address: u32, bytes: &[u8]) -> bool {
    segment.address == address && segment.bytes.as_slice() == bytes && segment.zeros == 0
}

/// Whether the segments have just these addresses and bytes.
fn are_at(segments: &[Segment], wanted: &[(u32, &[u8])]) -> bool {
    if segments.len() != wanted.len() {
        return false;
    }
    for (segment, (address, bytes)) in segments.iter().zip(wanted.iter()) {
        if !is_at(segment, *address, bytes) {
            return false;
        }
    }
    true
}

/// A text, the entry of its image, and the address and bytes of each of its segments.
struct Assembled {
    text: &'static str,
    entry: u32,
    segments: &'static [(u32, &'static [u8])],
}

static IMAGES: [Assembled; 8] = [
    // Labels of later lines have values.
    Assembled {
        text: "j end\n.word end, end - 4\n\nend:\nret",
        entry: 0x8000_0000,
        segments: &[(
            0x8000_0000,
            &[
                0x6F, 0x00, 0xC0, 0x00, // jal zero, 12
                0x0C, 0x00, 0x00, 0x80, 0x08, 0x00, 0x00, 0x80, //
                0x67, 0x80, 0x00, 0x00, // jalr zero, 0(ra)
            ],
        )],
    },
    // Bytes that touch are one segment.
    Assembled {
        text: ".word 1\n.org 0x80000010\n.byte 4\n.org 0x80000008\n.byte 3\n.org 0x80000004\n.word 2",
        entry: 0x8000_0000,
        segments: &[
            (0x8000_0000, &[1, 0, 0, 0, 2, 0, 0, 0, 3]),
            (0x8000_0010, &[4]),
        ],
    },
    // A program begins at _start, and without it at the first byte of RAM.
    Assembled {
        text: "nop\nstart: nop",
        entry: 0x8000_0000,
        segments: &[(0x8000_0000, &[0x13, 0, 0, 0, 0x13, 0, 0, 0])],
    },
    Assembled {
        text: "nop\n_start: nop",
        entry: 0x8000_0004,
        segments: &[(0x8000_0000, &[0x13, 0, 0, 0, 0x13, 0, 0, 0])],
    },
    Assembled {
        text: "",
        entry: 0x8000_0000,
        segments: &[],
    },
    // Each kind of line has its bytes.
    Assembled {
        text: ".globl _start\r\n.equ size, 3 # bytes\n_start: la a0, text\ncall _start\n\
            text: .asciz \"hi\"\n.balign 4\n.half -1, size\n.space 1\n.ascii \"a\\n\"",
        entry: 0x8000_0000,
        segments: &[(
            0x8000_0000,
            &[
                0x17, 0x05, 0x00, 0x00, 0x13, 0x05, 0x05, 0x01, // auipc a0, 0; addi a0, a0, 16
                0x97, 0x00, 0x00, 0x00, 0xE7, 0x80, 0x80, 0xFF, // auipc ra, 0; jalr ra, -8(ra)
                0x68, 0x69, 0x00, 0x00, 0xFF, 0xFF, 0x03, 0x00, 0x00, 0x61, 0x0A,
            ],
        )],
    },
    // A value is loaded by two words, or by one.
    Assembled {
        text: "li a0, 0x800",
        entry: 0x8000_0000,
        segments: &[(
            0x8000_0000,
            &[0x37, 0x15, 0x00, 0x00, 0x13, 0x05, 0x05, 0x80],
        )],
    },
    Assembled {
        text: "li a0, 2047",
        entry: 0x8000_0000,
        segments: &[(0x8000_0000, &[0x13, 0x05, 0xF0, 0x7F])],
    },
];

#[test]
fn texts_have_these_images(rt: HostRuntime) -> Result<(), Fail> {
    for wanted in IMAGES.iter() {
        let text = wanted.text;
        let image = assemble(rt.alloc(), text)?;
        assert_eq!(rt; image.entry, wanted.entry, "{text}");
        assert!(rt; are_at(&image.segments, wanted.segments), "{text}");
    }
    Ok(())
}

/// Texts, and the fault of their third line.
static FAULTS: [(&str, Fault); 16] = [
    ("here: nop\n\n.byte 256", Fault::OutOfReach),
    ("here: nop\n\nj nowhere", Fault::UnknownName),
    ("here: nop\n\nhere: nop", Fault::Defined),
    (".word 1\n.org 0x80000000\n.byte 0", Fault::Overlap),
    ("here: nop\n\naddi a0, a0", Fault::BadToken),
    ("here: nop\n\n.ascii \"a", Fault::BadToken),
    // A line that is not in the grammar is reported as such, whatever its names and values, and wherever it stands.
    ("here: nop\n\njalr a0, here, 4", Fault::BadToken),
    ("here: nop\n\njalr a0, a1, 4", Fault::BadToken),
    ("here: nop\n\nlw a0, 5000(q1)", Fault::BadToken),
    ("here: nop\n\n.word nosuch 5", Fault::BadToken),
    ("here: nop\n\n.byte 300, x y", Fault::BadToken),
    ("here: nop\n\ncsrrw a0, 5000, q1", Fault::BadToken),
    ("here: nop\n\nhere: addi a0, a0", Fault::BadToken),
    ("here: nop\n.byte 1\nlw a0, 4", Fault::BadToken),
    ("here: nop\n.org 0xFFFFFFFF\n.half 0", Fault::OutOfReach),
    (
        "here: nop\n\n.equ late, later\n.equ later, 1",
        Fault::UnknownName,
    ),
];

#[test]
fn faults_stand_at_their_line(rt: HostRuntime) {
    for (text, fault) in FAULTS.iter() {
        assert_eq!(rt;
            assemble(rt.alloc(), text).err(),
            Some(AsmError::Line(3, *fault)),
            "{text}"
        );
    }
}

/// Texts of more than 2^24 bytes, and what is wrong with them.
static LARGE: [(&str, AsmError); 6] = [
    // A fault of any line comes before the size.
    (
        ".space 0x1000000\n.byte 1\nj nowhere",
        AsmError::Line(3, Fault::UnknownName),
    ),
    (
        ".space 0x1000000\n.org 0x90000000\n.space 0x1000000\n.org 0x90000001\n.byte 1",
        AsmError::Line(5, Fault::Overlap),
    ),
    // The size is a fault of no line.
    (".space 0xFFFFFF\n.byte 1\n.byte 2", AsmError::TooLarge),
    // More than 16 segments are reported before more than 2^24 bytes.
    (
        ".space 0x1000000\n.org 0x90000000\n.byte 1\n.org 0x90000002\n.byte 2\n\
            .org 0x90000004\n.byte 3\n.org 0x90000006\n.byte 4\n.org 0x90000008\n.byte 5\n\
            .org 0x9000000A\n.byte 6\n.org 0x9000000C\n.byte 7\n.org 0x9000000E\n.byte 8\n\
            .org 0x90000010\n.byte 9\n.org 0x90000012\n.byte 10\n.org 0x90000014\n.byte 11\n\
            .org 0x90000016\n.byte 12\n.org 0x90000018\n.byte 13\n.org 0x9000001A\n.byte 14\n\
            .org 0x9000001C\n.byte 15\n.org 0x9000001E\n.byte 16",
        AsmError::TooMany,
    ),
    // A line that fills a gap makes one segment of two.
    (
        ".space 0x1000000\n.org 0x90000000\n.byte 1\n.org 0x90000002\n.byte 2\n\
            .org 0x90000004\n.byte 3\n.org 0x90000006\n.byte 4\n.org 0x90000008\n.byte 5\n\
            .org 0x9000000A\n.byte 6\n.org 0x9000000C\n.byte 7\n.org 0x9000000E\n.byte 8\n\
            .org 0x90000010\n.byte 9\n.org 0x90000012\n.byte 10\n.org 0x90000014\n.byte 11\n\
            .org 0x90000016\n.byte 12\n.org 0x90000018\n.byte 13\n.org 0x9000001A\n.byte 14\n\
            .org 0x9000001C\n.byte 15\n.org 0x9000001E\n.byte 16\n.org 0x9000000B\n.byte 0",
        AsmError::TooLarge,
    ),
    (
        ".space 0x1000000\n.org 0x90000000\n.byte 1\n.org 0x90000002\n.byte 2\n\
            .org 0x90000004\n.byte 3\n.org 0x90000006\n.byte 4\n.org 0x90000008\n.byte 5\n\
            .org 0x9000000A\n.byte 6\n.org 0x9000000C\n.byte 7\n.org 0x9000000E\n.byte 8\n\
            .org 0x90000010\n.byte 9\n.org 0x90000012\n.byte 10\n.org 0x90000014\n.byte 11\n\
            .org 0x90000016\n.byte 12\n.org 0x90000018\n.byte 13\n.org 0x9000001A\n.byte 14\n\
            .org 0x9000001C\n.byte 15",
        AsmError::TooLarge,
    ),
];

#[test]
fn faults_come_before_the_size(rt: HostRuntime) {
    for (text, error) in LARGE.iter() {
        assert_eq!(rt; assemble(rt.alloc(), text).err(), Some(*error), "{text}");
    }
}

/// Whether there is one segment, of this many bytes.
fn is_one(segments: &[Segment], size: usize) -> bool {
    segments.len() == 1 && segments.iter().all(|segment| segment.bytes.len() == size)
}

#[test]
fn texts_of_2_24_bytes_have_an_image(rt: HostRuntime) -> Result<(), Fail> {
    let image = assemble(rt.alloc(), ".space 0xFFFFFF\n.byte 1")?;
    assert!(rt; is_one(&image.segments, 1 << 24));
    Ok(())
}

/// A word whose value is a half, a million times in another.
fn nested_halves(alloc: Global) -> Result<String, AllocError> {
    let begun = "%lo(".repeat(alloc, 1_000_000)?;
    let closed = ")".repeat(alloc, 1_000_000)?;
    format!(in alloc; ".word {begun}%hi(0x12345FFF){closed}")
}

/// However deep values are nested, no stack grows with them.
#[test]
fn a_million_halves_stand_one_in_another(rt: HostRuntime) -> Result<(), Fail> {
    let text = nested_halves(rt.alloc())?;
    let image = assemble(rt.alloc(), &text)?;
    assert!(rt; are_at(&image.segments, &[(0x8000_0000, &[0x46, 0x03, 0, 0])]));
    Ok(())
}
