//! One instruction of the straight path without its counters: a board whose harts take turns runs many of these, and
//! the counters of each hart rise once after them.

ghost use Rattle.std.specs.Prelude.{◌≡◌, ◌<◌, false, length, true};
ghost use Rattle.rvm_hart.specs.Frozen.{risen_by};
ghost use Rattle.rvm_hart.specs.Machine.{machine, with_devices};
ghost use Rattle.rvm_hart.specs.Step.{execute};
ghost use Rattle.rvm_hart.specs.Straight.{Goes, at_time, is_straight, risen};

use crate::bus::Bus;
use crate::hart::Hart;
use crate::straight::address_of;
use rvm_isa::Decoder;
use rvm_mem::Memory;

impl Hart {
    /// Runs the instruction at pc if it is on the straight path. No counter rises. Returns whether it ran; if not,
    /// nothing changes. `LOOP` is the number of the caller's loop, as in `run_straight`.
    #[inline(always)]
    pub fn row_straight<M: Memory, const LOOP: u8>(
        &mut self,
        decoder: Decoder,
        bus: &mut Bus<M>,
    ) -> bool
        requires { self.old.csrs.hart < length bus.old.shared.reservations }
        ensures goes { result ≡ true → Goes execute self.old.pc self.old bus.old self.new.pc self.new bus.new }
        ensures stays { result ≡ true → is_straight (machine self.old bus.old) ≡ true }
        ensures hart { result ≡ false → self.new ≡ self.old }
        ensures bus { result ≡ false → bus.new ≡ bus.old }
    {
        let at = self.offset();
        let fetched = bus.fetch(at);
        let Some(next) = self.straight::<M, LOOP>(decoder, fetched, at, bus) else {
            return false;
        };
        self.pc = address_of(next);
        true
    }

    /// Raises mcycle and minstret by this many steps.
    #[inline(always)]
    pub fn rise(&mut self, steps: u32)
        ensures { self.new ≡ risen_by steps self.old }
    {
        if steps == 0 {
            return;
        }
        self.csrs.tick_many(steps);
    }
}

impl<M: Memory> Bus<M> {
    /// Raises mtime by this many steps.
    #[inline(always)]
    pub fn rise(&mut self, steps: u32)
        ensures { self.new ≡ with_devices (at_time (risen steps self.old.shared.devices.mtime) self.old.shared.devices) self.old }
    {
        if steps == 0 {
            return;
        }
        self.tick_many(steps);
    }
}
