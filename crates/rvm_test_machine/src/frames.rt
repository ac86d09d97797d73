//! Frames in each version of a stream: read from bytes and written to the same bytes; a stream that is cut at each of its
//! bytes; the fault of bytes that are no frame; and when memory is asked for.

ghost use Rattle.std.specs.Prelude.{Some};
ghost use Rattle.rvm_frame.specs.Grammar.{HasSpelling, sent};

use rvm_frame::{
    Addressed, Frame, FrameFault, FrameReader, PageBytes, ReadFault, Received, append_frame,
    frame_bytes, frame_len, read_frame, write_frame,
};
use std::alloc::{AllocError, Global};
use std::test::Fail;

/// Of version 3, from host 0 to host 2 and back: Hello; page 2 is zero, copy 7; the only piece of a
/// state with stamp 7; ready.
static STREAM: [u8; 75] = [
    0, 0, 0, 0, 0, 0, 0, 0, 0, 4, 0, 0, 0, 3, 0, 0, 0, //
    12, 0, 2, 1, 0, 0, 0, 0, 0, 0, 0, 6, 0, 0, 0, 2, 0, 7, 0, 0, 0, //
    13, 0, 2, 1, 0, 0, 0, 0, 0, 0, 0, 7, 0, 0, 0, 7, 0, 0, 0, 0, 1, 9, //
    8, 2, 0, 1, 0, 0, 0, 0, 0, 0, 0, 0, 0, 0, 0,
];

/// Its frames, each with from and to.
const STREAM_FRAMES: &str = "\
None Hello { version: 3 }
Some((0, 2)) Zero { move_number: 1, page: 2, copy_number: 7 }
Some((0, 2)) Part { move_number: 1, stamp: 7, part: 0, parts: 1, bytes: Items { items: [9] } }
Some((2, 0)) Ready { move_number: 1 }
";

/// A frame and its hosts as a line of text.
fn words(alloc: Global, received: &Received) -> Result<String, AllocError> {
    format!(in alloc; "{:?} {:?}\n", received.0, received.1)
}

/// Feeds a whole piece, and appends each frame that ends in it to `frames`, one a line.
fn feed_piece(
    alloc: Global,
    reader: &mut FrameReader,
    piece: &[u8],
    frames: &mut String,
) -> Result<(), Fail> {
    let mut rest = piece;
    for _ in 0..5 {
        let (taken, received) = reader.feed(alloc, rest)?;
        rest = &rest[taken..];
        if let Some(received) = received {
            let line = words(alloc, &received)?;
            frames.push_str(line.as_str())?;
        }
    }
    Ok(())
}

/// The frames of a stream that comes in two pieces.
fn frames_of(alloc: Global, front: &[u8], back: &[u8]) -> Result<String, Fail> {
    let mut reader = FrameReader::new(alloc);
    let mut frames = String::new(alloc);
    feed_piece(alloc, &mut reader, front, &mut frames)?;
    feed_piece(alloc, &mut reader, back, &mut frames)?;
    Ok(frames)
}

#[test]
fn a_stream_may_be_cut_anywhere(rt: HostRuntime) -> Result<(), Fail> {
    let stream = STREAM.as_slice();
    for cut in 0..=stream.len() {
        let (front, back) = stream.split_at(cut);
        let frames = frames_of(rt.alloc(), front, back)?;
        assert_eq!(rt; frames.as_str(), STREAM_FRAMES, "cut at {cut}");
    }
    Ok(())
}

/// The fault of bytes after Hello of a version, in one piece, or None if there is none. It is found before any memory
/// is asked for, so that the result is the same if memory runs out.
fn fault(alloc: Global, version: u8, bytes: &[u8]) -> Result<Option<FrameFault>, FrameFault> {
    let hello = [0, 0, 0, 0, 0, 0, 0, 0, 0, 4, 0, 0, 0, version, 0, 0, 0];
    let mut reader = FrameReader::new(alloc);
    reader.feed(alloc, &hello)?;
    Ok(reader.feed(alloc, bytes).err())
}

const BAD: FrameFault = FrameFault::BadFrame;

/// Versions, bytes after Hello, and their fault.
static REFUSED: [(u8, &[u8], FrameFault); 14] = [
    // A kind of another version; a second Hello.
    (1, &[12], BAD),
    (1, &[13], BAD),
    (2, &[7], BAD),
    (3, &[7], BAD),
    (2, &[0], BAD),
    // A body of 8195 bytes is too long in version 2; in version 1 it is no Page's.
    (
        2,
        &[4, 1, 0, 0, 0, 0, 0, 0, 0, 3, 32, 0, 0],
        FrameFault::TooLong,
    ),
    (1, &[4, 1, 0, 0, 0, 0, 0, 0, 0, 3, 32, 0, 0], BAD),
    // Zero with the length of a Page.
    (2, &[12, 1, 0, 0, 0, 0, 0, 0, 0, 6, 16, 0, 0], BAD),
    // From host 2 to itself, and to host 8.
    (3, &[8, 2, 2, 1, 0, 0, 0, 0, 0, 0, 0, 0, 0, 0, 0], BAD),
    (3, &[8, 2, 8, 1, 0, 0, 0, 0, 0, 0, 0, 0, 0, 0, 0], BAD),
    // The pages 3 and 3 are lost; page 4096 is zero.
    (
        1,
        &[6, 1, 0, 0, 0, 0, 0, 0, 0, 6, 0, 0, 0, 2, 0, 3, 0, 3, 0],
        BAD,
    ),
    (
        2,
        &[12, 1, 0, 0, 0, 0, 0, 0, 0, 6, 0, 0, 0, 0, 16, 3, 0, 0, 0],
        BAD,
    ),
    // Piece 1 of one, and a piece of one byte that is not the last.
    (
        2,
        &[13, 1, 0, 0, 0, 0, 0, 0, 0, 7, 0, 0, 0, 5, 0, 0, 0, 1, 1, 9],
        BAD,
    ),
    (
        2,
        &[13, 1, 0, 0, 0, 0, 0, 0, 0, 7, 0, 0, 0, 5, 0, 0, 0, 0, 2, 9],
        BAD,
    ),
];

#[test]
fn bytes_of_no_frame_are_refused_before_memory_is(rt: HostRuntime) -> Result<(), Fail> {
    for (version, bytes, wanted) in REFUSED.iter() {
        assert_eq!(rt;
            fault(rt.alloc(), *version, bytes)?,
            Some(*wanted),
            "{bytes:?}"
        );
    }
    assert!(rt;
        matches!(
            read_frame(rt.alloc(), 1, REFUSED[10].1),
            Err(ReadFault::BadFrame)
        )
    );
    Ok(())
}

/// Versions, bytes in hexadecimal, from and to and the frame that they spell.
static KINDS: [(u32, &str, &str); 18] = [
    (
        1,
        "01010000000000000003000000040001",
        "None Offer { move_number: 1, pages: 4, harts: 1 }",
    ),
    (
        2,
        "02ffffffffffffffff00000000",
        "None Accept { move_number: 18446744073709551615 }",
    ),
    (
        1,
        "03feffffffffffffff020000000010",
        "None Refuse { move_number: 18446744073709551614, limit: 4096 }",
    ),
    (
        2,
        "05010000000000000008000000010002000001ffff",
        "None RoundEnd { move_number: 1, round: 1, sent: 2, skipped: 256, left: 65535 }",
    ),
    (
        1,
        "0601000000000000000400000001000300",
        "None Lost { move_number: 1, pages: Items { items: [3] } }",
    ),
    (
        3,
        "06070001000000000000000600000002000300ff0f",
        "Some((7, 0)) Lost { move_number: 1, pages: Items { items: [3, 4095] } }",
    ),
    (
        1,
        "07010000000000000007000000010007000000ff",
        "None State { move_number: 1, copy_numbers: Items { items: [7] }, state: Items { items: [255] } }",
    ),
    (
        1,
        "08010000000000000000000000",
        "None Ready { move_number: 1 }",
    ),
    (
        2,
        "08010000000000000000000000",
        "None Ready { move_number: 1 }",
    ),
    (
        3,
        "080001010000000000000000000000",
        "Some((0, 1)) Ready { move_number: 1 }",
    ),
    (
        1,
        "09000100000000000000000000",
        "None Go { move_number: 256 }",
    ),
    (
        2,
        "0a020000000000000000000000",
        "None Started { move_number: 2 }",
    ),
    (
        3,
        "0a0100020000000000000000000000",
        "Some((1, 0)) Started { move_number: 2 }",
    ),
    (
        1,
        "0b030000000000000000000000",
        "None Abort { move_number: 3 }",
    ),
    (
        2,
        "0c010000000000000006000000020003000000",
        "None Zero { move_number: 1, page: 2, copy_number: 3 }",
    ),
    (
        3,
        "0c0007010000000000000006000000020003000000",
        "Some((0, 7)) Zero { move_number: 1, page: 2, copy_number: 3 }",
    ),
    (
        2,
        "0d0100000000000000080000000700000005060809",
        "None Part { move_number: 1, stamp: 7, part: 5, parts: 6, bytes: Items { items: [8, 9] } }",
    ),
    (
        3,
        "0d020101000000000000000700000000000001000109",
        "Some((2, 1)) Part { move_number: 1, stamp: 16777216, part: 0, parts: 1, bytes: Items { items: [9] } }",
    ),
];

/// The frame that bytes are, and its hosts, as text.
fn read_words(alloc: Global, version: u32, bytes: &[u8]) -> Result<String, Fail> {
    let received = read_frame(alloc, version, bytes)?;
    Ok(words(alloc, &received)?)
}

#[test]
fn each_kind_is_read_by_its_bytes(rt: HostRuntime) -> Result<(), Fail> {
    let alloc = rt.alloc();
    for (version, digits, wanted) in KINDS.iter() {
        let bytes = hex::decode(alloc, digits)?;
        assert_eq!(rt;
            read_words(alloc, *version, &bytes)?.as_str().trim_end(),
            *wanted
        );
    }
    Ok(())
}

/// The bytes of a frame, if all writers write the same; else none.
fn written(alloc: Global, version: u32, addressed: &Addressed) -> Result<Vec<u8>, Fail>
    requires { HasSpelling (sent version addressed.now) }
{
    let bytes = frame_bytes(alloc, version, addressed)?;
    let mut appended = Vec::with_capacity(alloc, frame_len(version, addressed))?;
    append_frame(version, addressed, &mut appended);
    let mut written = Vec::new(alloc);
    if write_frame(version, addressed, &mut written).is_err() {
        written.clear();
        write_frame(version, addressed, &mut written)?;
    }
    if appended.as_slice() != bytes.as_slice() || written.as_slice() != bytes.as_slice() {
        appended.clear();
        return Ok(appended);
    }
    Ok(bytes)
}

#[test]
fn hello_is_written_by_its_bytes(rt: HostRuntime) -> Result<(), Fail> {
    let hello = Addressed {
        from: 0,
        to: 2,
        frame: Frame::Hello { version: 3 },
    };
    assert!(rt; written(rt.alloc(), 3, &hello)?.as_slice() == &STREAM[..17]);
    Ok(())
}

#[test]
fn a_page_of_zeros_is_written_by_its_bytes(rt: HostRuntime) -> Result<(), Fail> {
    let zero = Addressed {
        from: 0,
        to: 2,
        frame: Frame::Zero {
            move_number: 1,
            page: 2,
            copy_number: 7,
        },
    };
    assert!(rt; written(rt.alloc(), 3, &zero)?.as_slice() == &STREAM[17..38]);
    assert!(rt; written(rt.alloc(), 2, &zero)?.len() == 19);
    Ok(())
}

/// The bytes of the copy of a Page in a stream of version 1.
fn written_page(alloc: Global) -> Result<Vec<u8>, Fail> {
    let page = Frame::Page {
        move_number: 18446744073709551615,
        page: 2,
        copy_number: 7,
        bytes: PageBytes::from_slice(alloc, &[9; 4096])?,
    };
    let page = Addressed {
        from: 0,
        to: 1,
        frame: page.copy(alloc)?,
    };
    written(alloc, 1, &page)
}

#[test]
fn a_frame_is_copied_written_and_read(rt: HostRuntime) -> Result<(), Fail> {
    let alloc = rt.alloc();
    let bytes = written_page(alloc)?;
    assert_eq!(rt; bytes.len(), 4115);
    let (hosts, frame) = read_frame(alloc, 1, bytes.as_slice())?;
    assert_eq!(rt; hosts, None);
    assert_eq!(rt; frame.move_number(), 18446744073709551615);
    Ok(())
}

/// A reader after Hello of version 1 and the header of a Page.
fn at_a_page(alloc: Global) -> Result<FrameReader, FrameFault> {
    let mut reader = FrameReader::new(alloc);
    reader.feed(alloc, &[0, 0, 0, 0, 0, 0, 0, 0, 0, 4, 0, 0, 0, 1, 0, 0, 0])?;
    reader.feed(alloc, &[4, 1, 0, 0, 0, 0, 0, 0, 0, 6, 16, 0, 0])?;
    Ok(reader)
}

#[test]
fn a_page_takes_memory_once(rt: HostRuntime) -> Result<(), Fail> {
    let alloc = rt.alloc();
    let mut reader = at_a_page(alloc)?;
    // From here on no call takes memory, so none fails, whichever allocation does.
    reader.feed(alloc, &[2, 0, 7, 0, 0, 0])?;
    reader.feed(alloc, &[9; 4000])?;
    let (taken, received) = reader.feed(alloc, &[9; 96])?;
    assert_eq!(rt; taken, 96);
    assert!(rt; matches!(received, Some((None, Frame::Page { page: 2, .. }))));
    Ok(())
}
