//! Sets of the three machine-level interrupts, as in `mip` and `mie`.

ghost use Rattle.std.specs.Prelude.{◌≡◌};
ghost use Rattle.rvm_csr.specs.Registers.{interrupt_bits, interrupts_of};

use rvm_word::{bit, is_set};

/// One bit for each machine-level interrupt (Privileged ISA, "Machine Interrupt (mip and mie)
/// Registers").
#[derive(Clone, Copy, Debug, Default, PartialEq, Eq)]
pub struct Interrupts {
    /// Bit 3: `msip` of the hart is set.
    pub software: bool,
    /// Bit 7: `mtime` has reached `mtimecmp`.
    pub timer: bool,
    /// Bit 11: a device waits to be served.
    pub external: bool,
}

impl Interrupts {
    /// The word of `mip` or `mie` for this set.
    pub fn bits(self) -> u32
        ensures { result ≡ interrupt_bits self }
    {
        bit(1 << 3, self.software) + bit(1 << 7, self.timer) + bit(1 << 11, self.external)
    }

    /// The set of a word that is written to `mie`; the word's other bits are ignored.
    pub fn from_bits(word: u32) -> Interrupts
        ensures { result ≡ interrupts_of word }
    {
        Interrupts {
            software: is_set(word, 3),
            timer: is_set(word, 7),
            external: is_set(word, 11),
        }
    }
}
