//! The two counters of one hart.

ghost use Rattle.std.specs.Prelude.{◌≡◌, ◌+◌, ◌%◌, ◌^◌};
ghost use Rattle.rvm_csr.specs.Counters.{counted};

use std::marker::Model;

/// `mcycle` and `minstret`. Both rise with a step that retires an instruction, so `mcycle` is kept with their
/// difference, which only other steps and writes change: a retiring step makes one addition.
#[derive(Drop)]
pub(crate) struct Counters {
    cycles: u64,
    /// The difference `mcycle - minstret`, modulo 2^64.
    unretired: u64,
}

impl Model for Counters {
    ghost use Rattle.std.specs.Prelude.{◌+◌, ◌-◌, ◌%◌, ◌^◌};
    ghost use Rattle.rvm_csr.specs.Counters.{Counts};

    ghost Value = { Counts };

    ghost view = { λ c. record {
      mcycle = c.cycles;
      minstret = (c.cycles + (2 ^ 64 - c.unretired)) % 2 ^ 64;
    } };
}

impl Counters {
    /// Counters with these values.
    pub(crate) fn new(mcycle: u64, minstret: u64) -> Counters
        ensures { result ≡ record { mcycle = mcycle; minstret = minstret } }
    {
        Counters {
            cycles: mcycle,
            unretired: mcycle.wrapping_sub(minstret),
        }
    }

    /// The value of `mcycle`.
    #[inline(always)]
    pub(crate) fn mcycle(&self) -> u64
        ensures { result ≡ self.now.mcycle }
    {
        self.cycles
    }

    /// The value of `minstret`.
    #[inline(always)]
    pub(crate) fn minstret(&self) -> u64
        ensures { result ≡ self.now.minstret }
    {
        self.cycles.wrapping_sub(self.unretired)
    }

    /// Counts one step: `cycle` says whether `mcycle` rises, `instret` whether `minstret` does. Both wrap at 2^64.
    #[inline(always)]
    pub(crate) fn tick(&mut self, cycle: bool, instret: bool)
        ensures { self.new ≡ record {
          mcycle = counted cycle self.old.mcycle;
          minstret = counted instret self.old.minstret;
        } }
    {
        if cycle {
            self.cycles = self.cycles.wrapping_add(1);
            if !instret {
                self.unretired = self.unretired.wrapping_add(1);
            }
        } else if instret {
            self.unretired = self.unretired.wrapping_sub(1);
        }
    }

    /// Counts this many steps, with each of which both counters rise. Both wrap at 2^64.
    #[inline(always)]
    pub(crate) fn tick_many(&mut self, steps: u32)
        ensures { self.new ≡ record {
          mcycle = (self.old.mcycle + steps) % 2 ^ 64;
          minstret = (self.old.minstret + steps) % 2 ^ 64;
        } }
    {
        self.cycles = self.cycles.wrapping_add(u64::from(steps));
    }
}
