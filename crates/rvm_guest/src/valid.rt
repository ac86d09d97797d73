//! Each guest that a host has is valid.

ghost use Rattle.std.specs.Prelude.{◌≡◌, true, length};
ghost use Rattle.rvm_guest.specs.Valid.{is_valid};

use rvm_board::Debugged;
use rvm_mem::Memory;

/// Proves that a guest that a host has is valid. Looks at each hart once, and takes no memory. An event leaves a valid
/// guest valid, so this need not be called again after one.
pub fn valid_guest<M: Memory>(guest: &Debugged<M>)
    ensures { is_valid guest.now.guest ≡ true }
{
    let _size = guest.memory().len();
    let snapshot = guest.snapshot();
    for part in snapshot.harts.as_slice() {
        has_registers(&part.fields.registers);
    }
}

/// Proves that the list of x1 to x31 has 31 registers.
fn has_registers(registers: &[u32; 31])
    ensures { length registers.now ≡ 31 }
{
    let _count = registers.len();
}
