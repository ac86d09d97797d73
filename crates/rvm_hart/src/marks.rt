//! Marks of addresses: a quick test that finds most addresses that are not in a set.

ghost use Rattle.std.specs.Prelude.{◌≡◌, false, replicate};
ghost use Rattle.rvm_hart.specs.Marks.{is_marked, marked};

use std::marker::Model;

/// The number of marks.
const MARKS: usize = 4096;

/// 4096 marks, each of which stands for all addresses with the same low 12 bits, so that one mask finds the mark of an
/// address.
#[derive(Drop)]
pub struct Marks {
    flags: [bool; MARKS],
}

impl Model for Marks {
    ghost use Rattle.std.specs.Prelude.{◌≡◌, List, Bool, length};

    ghost Value = { List Bool };

    ghost view = { λ m. m.flags };

    ghost invariant = { λ m. length m.flags ≡ 4096 };
}

impl Marks {
    /// Marks of which none is set.
    pub fn new() -> Marks
        ensures { result ≡ replicate 4096 false }
    {
        Marks {
            flags: [false; MARKS],
        }
    }

    /// Marks an address.
    pub fn add(&mut self, address: u32)
        ensures { self.new ≡ marked address self.old }
    {
        self.flags[(address % 4096) as usize] = true;
    }

    /// Whether an address has a mark.
    #[inline(always)]
    pub fn has(&self, address: u32) -> bool
        ensures { result ≡ is_marked address self.now }
    {
        self.flags[(address % 4096) as usize]
    }
}
