//! Reads and writes of whole ranges of bytes.

ghost use Rattle.std.specs.Prelude.{◌≡◌, ◌+◌, ◌<◌, ◌↔◌, length, replicate, true, IsErr, OnOk, OnErr};
ghost use Rattle.rvm_mem.specs.Bytes.{slice, replaced};
ghost use Rattle.rvm_mem.specs.Pages.{byte_pages, mark_all};

use crate::memory::{Memory, PAGE_SIZE};
use rvm_refusal::Refusal;
use thiserror::Error;

/// The range is not wholly within the memory.
#[derive(Clone, Copy, Debug, PartialEq, Eq, Error)]
#[error("the range is not in memory")]
pub struct OutOfRange;

impl From<OutOfRange> for Refusal {
    ghost use Rattle.rvm_refusal.specs.declared.refusal.Refusal.TheVariants as refusal;

    ghost from_gives = { λ _ told. told ≡ refusal.OutOfRange };

    fn from(_error: OutOfRange) -> Refusal {
        Refusal::OutOfRange
    }
}

/// Reads the bytes from a place on, as many as `bytes` has room for. `OutOfRange`, and `bytes` is
/// unchanged, if they are not all in memory.
pub fn read_bytes<M: Memory>(memory: &M, at: u32, bytes: &mut [u8]) -> Result<(), OutOfRange>
    ensures read { OnOk result (bytes.new ≡ slice (length bytes.old) at (M.bytes memory.now)) }
    ensures out { IsErr result ↔ (length (M.bytes memory.now) < at + length bytes.old) }
    ensures err { OnErr result (bytes.new ≡ bytes.old) }
{
    if u64::from(memory.len()) < u64::from(at) + bytes.len() as u64 {
        return Err(OutOfRange);
    }
    for i in 0..bytes.len() {
        bytes[i] = memory.load8(at + i as u32);
    }
    Ok(())
}

/// Writes bytes from a place on, and adds the page of each to the dirty log. `OutOfRange`, and
/// nothing changes, if they do not all fit.
pub fn write_bytes<M: Memory>(memory: &mut M, at: u32, bytes: &[u8]) -> Result<(), OutOfRange>
    ensures bytes { OnOk result (M.bytes memory.new ≡ replaced at bytes.now (M.bytes memory.old)) }
    ensures dirty { OnOk result (M.dirty memory.new
        ≡ mark_all (byte_pages at (length bytes.now)) (M.dirty memory.old)) }
    ensures out { IsErr result ↔ (length (M.bytes memory.old) < at + length bytes.now) }
    ensures err { OnErr result (memory.new ≡ memory.old) }
{
    if u64::from(memory.len()) < u64::from(at) + bytes.len() as u64 {
        return Err(OutOfRange);
    }
    memory.store_bytes(at, bytes);
    Ok(())
}

/// Writes zeros over the whole memory, and adds each page to the dirty log.
#[tactic(auto, using(crate::proofs::Zeros::zeros_more, crate::proofs::Zeros::zeros_all, crate::proofs::Zeros::marked_more, crate::proofs::Zeros::marked_all))]
pub fn clear_bytes<M: Memory>(memory: &mut M)
    ensures bytes { M.bytes memory.new ≡ replicate (length (M.bytes memory.old)) 0 }
    ensures dirty { M.dirty memory.new ≡ replicate (length (M.dirty memory.old)) true }
{
    for page in 0..memory.len() / PAGE_SIZE {
        memory.store_bytes(PAGE_SIZE * page, &[0; PAGE_SIZE as usize]);
    }
}
