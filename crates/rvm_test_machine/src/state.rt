//! The layout of the bytes of a guest after reset, one guest read and written again, and each kind of
//! refusal.

use crate::boards::{board, page};
use rvm_mem::Memory;
use rvm_state::{StateFault, read_state, write_state};
use std::alloc::{AllocError, Global};
use std::test::Fail;

/// The bytes of a board of one hart and one page after reset.
fn at_reset(alloc: Global) -> Result<Vec<u8>, Fail> {
    let guest = board(alloc, 1, &[])?;
    Ok(write_state(alloc, &guest)?)
}

/// The first 200 of these bytes, some of them changed, and others after them.
fn changed(
    alloc: Global,
    bytes: &[u8],
    changes: &[(usize, u8)],
    rest: &[u8],
) -> Result<Vec<u8>, AllocError> {
    let mut out = Vec::with_capacity(alloc, 200 + rest.len())?;
    for (place, byte) in bytes.iter().take(200).enumerate() {
        let mut byte = *byte;
        for (changed, value) in changes {
            if *changed == place {
                byte = *value;
            }
        }
        out.push(byte)?;
    }
    out.extend_from_slice(rest)?;
    Ok(out)
}

/// Whether the bytes spell a guest with one page of RAM, which is handed back if they do not.
fn is_read(alloc: Global, bytes: &[u8]) -> Result<bool, Fail> {
    match read_state(alloc, bytes, page(alloc)?) {
        Ok(_guest) => Ok(true),
        Err((StateFault::BadState, ram)) => Ok(ram.len() != 4096),
        Err((fault, _ram)) => Err(Fail::from(fault)),
    }
}

#[test]
fn one_hart_after_reset_is_204_bytes(rt: HostRuntime) -> Result<(), Fail> {
    let reset = at_reset(rt.alloc())?;
    let front = [1, 0, 0, 0, 0, 0, 0, 0, 0, 0, 0, 0, 0, 0, 0, 0, 0x80];
    assert!(rt; reset.len() == 204 && reset.starts_with(&front));
    Ok(())
}

/// Halted with 9, overrun, mtime, pc, x1, x31, mstatus, mie, mtvec, mepc, minstret, msip, a reservation, stopped.
static CHANGES: [(usize, u8); 17] = [
    (1, 1),
    (2, 9),
    (3, 1),
    (5, 7),
    (13, 4),
    (17, 11),
    (137, 31),
    (141, 0x88),
    (146, 8),
    (149, 5),
    (157, 8),
    (184, 3),
    (185, 1),
    (194, 1),
    (195, 4),
    (198, 0x80),
    (199, 1),
];

/// Two bytes of input, three of output, and the breakpoints 0x80000004 and 0x80000008.
static REST: [u8; 17] = [2, 7, 8, 3, 0, 1, 2, 3, 2, 4, 0, 0, 0x80, 8, 0, 0, 0x80];

/// The bytes that are written of a guest that was read.
fn written_again(alloc: Global, bytes: &[u8]) -> Result<Vec<u8>, Fail> {
    match read_state(alloc, bytes, page(alloc)?) {
        Ok(guest) => Ok(write_state(alloc, &guest)?),
        Err((fault, _ram)) => Err(Fail::from(fault)),
    }
}

#[test]
fn what_is_read_is_written_again(rt: HostRuntime) -> Result<(), Fail> {
    let reset = at_reset(rt.alloc())?;
    let bytes = changed(rt.alloc(), &reset, &CHANGES, &REST)?;
    assert!(rt; written_again(rt.alloc(), &bytes)?.as_slice() == bytes.as_slice());
    Ok(())
}

#[test]
fn bytes_that_spell_no_guest_are_refused(rt: HostRuntime) -> Result<(), Fail> {
    let alloc = rt.alloc();
    let bytes = at_reset(alloc)?;
    let empty = [0, 0, 0, 0];
    // No hart, a flag of 2, a status of a running board, pc, mstatus, mie, mtvec, mepc, an address
    // with no reservation, a reservation outside RAM.
    let changes = [
        (0, 0),
        (3, 2),
        (2, 1),
        (13, 2),
        (141, 1),
        (145, 1),
        (149, 2),
        (157, 1),
        (195, 4),
        (194, 1),
    ];
    for change in changes {
        let wrong = changed(alloc, bytes.as_slice(), &[change], &empty)?;
        assert!(rt; !is_read(alloc, wrong.as_slice())?);
    }
    let falling = [0, 0, 0, 2, 8, 0, 0, 0, 4, 0, 0, 0];
    let one_more = [0, 0, 0, 0, 0];
    let one_less = [0, 0, 0];
    for rest in [falling.as_slice(), one_more.as_slice(), one_less.as_slice()] {
        let wrong = changed(alloc, bytes.as_slice(), &[], rest)?;
        assert!(rt; !is_read(alloc, wrong.as_slice())?);
    }
    let right = changed(alloc, bytes.as_slice(), &[], &empty)?;
    assert!(rt; is_read(alloc, right.as_slice())?);
    Ok(())
}
