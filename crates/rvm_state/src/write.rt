//! Writes the bytes of a guest.

ghost use Rattle.std.specs.Prelude.{◌≡◌, ◌≤◌, length, IfOk, OnOk};
ghost use Rattle.rvm_state.specs.Spelling.{HasSpelling, longest, spelling};

use crate::put::{put_snapshot, snapshot_len};
use rvm_board::Debugged;
use rvm_mem::Memory;
use std::alloc::{AllocError, Global};

/// The most bytes of the encoding of a guest without its RAM: 13 for all harts together and 187 for each of at most 8,
/// then at most 16 bytes of input, 4096 of output and 64 breakpoints of four bytes, each of the three with its count.
pub const MAX_STATE_LEN: usize = 13 + 8 * 187 + (1 + 16) + (2 + 4096) + (1 + 4 * 64);

/// Returns the encoding of a guest without its RAM, at most `MAX_STATE_LEN` bytes; with the RAM it determines the
/// guest. Fails if memory runs out.
pub fn write_state<M: Memory>(alloc: Global, guest: &Debugged<M>) -> Result<Vec<u8>, AllocError>
    ensures bytes { IfOk result (λ bytes. bytes.items ≡ spelling guest.now.guest) }
    ensures size { IfOk result (λ bytes. length bytes.items ≤ longest) }
    ensures told { OnOk result (HasSpelling guest.now.guest) }
{
    let snapshot = guest.snapshot();
    let mut out = Vec::with_capacity(alloc, snapshot_len(&snapshot))?;
    put_snapshot(&mut out, &snapshot);
    Ok(out)
}
