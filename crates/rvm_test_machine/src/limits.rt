//! The longest script and the longest body of a frame, and what is one byte longer.

use crate::boards::board;
use rvm_debug::{ScriptError, run_script};
use rvm_frame::{Frame, ReadFault, read_frame};
use std::alloc::Global;
use std::io::{self, Read};
use std::test::Fail;

/// `jal zero, 0`.
const LOOP: u32 = 0x0000006F;

/// The most bytes of a script.
const MOST: u64 = 1 << 26;

/// A comment of this many bytes.
#[derive(Drop)]
struct Comment {
    left: u64,
}

impl Read for Comment {
    fn read(&mut self, bytes: &mut [u8]) -> io::Result<usize> {
        let count = bytes.len().min(self.left as usize);
        bytes[..count].fill(b'#');
        self.left = self.left.saturating_sub(count as u64);
        Ok(count)
    }
}

/// How a script ends that is a comment of this many bytes.
fn end_of(alloc: Global, bytes: u64) -> Result<Result<(), ScriptError>, Fail> {
    let mut board = board(alloc, 1, &[LOOP])?;
    let mut written = Vec::new(alloc);
    Ok(run_script(
        alloc,
        &mut board,
        &mut Comment { left: bytes },
        &mut written,
    ))
}

#[test]
fn a_script_has_at_most_2_to_the_26_bytes(rt: HostRuntime) -> Result<(), Fail> {
    assert_eq!(rt; end_of(rt.alloc(), MOST)?, Ok(()));
    assert_eq!(rt; end_of(rt.alloc(), MOST + 1)?, Err(ScriptError::TooLong));
    Ok(())
}

/// A state of one page, whose copy has number 1, with a body of this many bytes in all.
fn state(alloc: Global, body: u32) -> Result<Vec<u8>, Fail> {
    let mut bytes = Vec::with_capacity(alloc, 40_000)?;
    bytes.extend_from_slice(&[7, 1, 0, 0, 0, 0, 0, 0, 0])?;
    bytes.extend_from_slice(&body.to_le_bytes())?;
    bytes.extend_from_slice(&[1, 0, 1, 0, 0, 0])?;
    for _ in 6..body {
        bytes.push(0)?;
    }
    Ok(bytes)
}

/// How many bytes stand after the copy numbers of a state; none for another frame.
fn length(frame: &Frame) -> Option<usize> {
    match frame {
        Frame::State { state, .. } => Some(state.as_slice().len()),
        _ => None,
    }
}

#[test]
fn a_body_has_at_most_32768_bytes(rt: HostRuntime) -> Result<(), Fail> {
    let longest = state(rt.alloc(), 32768)?;
    let (_, frame) = read_frame(rt.alloc(), 1, &longest)?;
    assert_eq!(rt; length(&frame), Some(32762));
    let longer = state(rt.alloc(), 32769)?;
    assert!(rt; matches!(read_frame(rt.alloc(), 1, &longer), Err(ReadFault::TooLong)));
    Ok(())
}
