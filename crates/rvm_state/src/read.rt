//! Reads a guest from its bytes and its RAM.

ghost use Rattle.std.specs.Prelude.{◌≡◌, ◌↔◌, IfErr, IfOk};
ghost use Rattle.rvm_board.specs.Guest.{Guest};
ghost use Rattle.rvm_state.specs.declared.fault.StateFault.TheVariants.{BadState, OutOfMemory};
ghost use Rattle.rvm_state.specs.Spelling.{Spells};

use crate::fault::StateFault;
use crate::snapshot::snapshot_of;
use rvm_board::Debugged;
use rvm_mem::Memory;
use std::alloc::Global;

/// Returns the guest of which these bytes and this RAM are the encoding, with the dirty log of the RAM. Fails with
/// `BadState` if there is no such guest, and with `OutOfMemory` if an allocation fails; it allocates only after all
/// bytes are read and found good. Either error hands the RAM back unchanged.
pub fn read_state<M: Memory>(
    alloc: Global,
    bytes: &[u8],
    ram: M,
) -> Result<Debugged<M>, (StateFault, M)>
    ensures found { IfOk result (λ d. Spells bytes.now (M.bytes ram) d.guest) }
    ensures dirty { IfOk result (λ d. d.dirty ≡ M.dirty ram) }
    ensures bad { IfErr result
        (λ e. (e.0 ≡ BadState) ↔ ((g : Guest) → Spells bytes.now (M.bytes ram) g → ⊥)) }
    ensures memory { IfErr result
        (λ e. e.0 ≡ OutOfMemory → (g : Guest) × Spells bytes.now (M.bytes ram) g) }
    ensures ram { IfErr result (λ e. e.1 ≡ ram) }
{
    let size = ram.len();
    if size == 0 {
        return Err((StateFault::BadState, ram));
    }
    let Some(snapshot) = snapshot_of(size, bytes) else {
        return Err((StateFault::BadState, ram));
    };
    match Debugged::restore(alloc, &snapshot, ram) {
        Ok(guest) => Ok(guest),
        Err((_, ram)) => Err((StateFault::OutOfMemory, ram)),
    }
}
