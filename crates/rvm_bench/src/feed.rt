//! Measures how long a reader takes for a stream of frames, and how long a copy of as many bytes takes.

use rvm_frame::{FrameFault, FrameReader};
use std::alloc::Global;
use std::time::Instant;

/// The most bytes that the reader gets at a time.
const PIECE: usize = 4096;

/// Copies a stream, and gives the copy to a reader piece by piece. Prints how many frames were read, and how many
/// microseconds the reading and the copying took.
pub fn feed(rt: &HostRuntime, stream: &[u8]) -> anyhow::Result<()> {
    let mut copy = Vec::with_capacity(rt.alloc(), stream.len())?;
    copy.extend_from_slice(stream)?;
    copy.clear();
    let begun = Instant::now(rt)?;
    copy.extend_from_slice(stream)?;
    let copied = begun.elapsed(rt)?.as_micros();
    let begun = Instant::now(rt)?;
    let frames = read_stream(rt.alloc(), copy.as_slice())?;
    let read = begun.elapsed(rt)?.as_micros();
    println!(rt; "{frames} frames read in {read} us, copied in {copied} us")?;
    Ok(())
}

/// The number of frames in a stream.
fn read_stream(alloc: Global, stream: &[u8]) -> Result<u32, FrameFault> {
    let mut reader = FrameReader::new(alloc);
    let mut frames: u32 = 0;
    for piece in stream.chunks(PIECE) {
        frames = frames.saturating_add(read_piece(alloc, &mut reader, piece)?);
    }
    Ok(frames)
}

/// The number of frames that end in a piece.
fn read_piece(alloc: Global, reader: &mut FrameReader, piece: &[u8]) -> Result<u32, FrameFault> {
    let mut rest = piece;
    let mut frames: u32 = 0;
    for _turn in 0..piece.len() {
        if rest.is_empty() {
            return Ok(frames);
        }
        let (taken, received) = reader.feed(alloc, rest)?;
        rest = &rest[taken..];
        if received.is_some() {
            frames = frames.saturating_add(1);
        }
    }
    Ok(frames)
}
