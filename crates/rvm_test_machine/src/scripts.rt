//! How a debugger's script ends whose reader or writer fails.

use crate::boards::board;
use rvm_debug::{ScriptError, run_script};
use std::io::{self, ErrorKind, Read, Write};
use std::test::Fail;

/// `jal zero, 0`.
const LOOP: u32 = 0x0000006F;

/// A reader that gives a line, and then fails.
#[derive(Drop)]
struct Failing {
    line: &'static [u8],
}

impl Read for Failing {
    fn read(&mut self, bytes: &mut [u8]) -> io::Result<usize> {
        if self.line.is_empty() {
            return Err(io::Error::from(ErrorKind::BrokenPipe));
        }
        self.line.read(bytes)
    }
}

#[test]
fn a_read_that_fails_ends_a_script(rt: HostRuntime) -> Result<(), Fail> {
    let alloc = rt.alloc();
    let mut board = board(alloc, 1, &[LOOP])?;
    let mut written = Vec::new(alloc);
    let mut failing = Failing {
        line: "step 0\n".as_bytes(),
    };
    let result = run_script(alloc, &mut board, &mut failing, &mut written);
    assert_eq!(rt; result, Err(ScriptError::LinkFault));
    assert_eq!(rt; written.len(), 0);
    Ok(())
}

#[test]
fn a_write_that_fails_ends_a_script(rt: HostRuntime) -> Result<(), Fail> {
    let alloc = rt.alloc();
    let mut board = board(alloc, 1, &[LOOP])?;
    let mut room = [0u8; 20];
    let mut script = "step 0\nstep 0\nstep 0\n".as_bytes();
    let result = run_script(alloc, &mut board, &mut script, &mut room.as_mut_slice());
    assert_eq!(rt; result, Err(ScriptError::LinkFault));
    // The guest goes on.
    let mut room = [0u8; 18];
    let mut script = "step 0".as_bytes();
    let result = run_script(alloc, &mut board, &mut script, &mut room.as_mut_slice());
    assert_eq!(rt; result, Ok(()));
    assert_eq!(rt; room.as_slice(), "step 0 1: retired\n".as_bytes());
    Ok(())
}
