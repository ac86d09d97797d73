//! One step of a hart.

ghost use Rattle.std.specs.Prelude.{◌≡◌, ◌<◌, length, true, false, Some};
ghost use Rattle.rvm_mem.specs.Pages.{mark_all};
ghost use Rattle.rvm_csr.specs.declared.cause.Cause.TheVariants as cause;
ghost use Rattle.rvm_csr.specs.Traps.{pending};
ghost use Rattle.rvm_hart.specs.Machine.{machine};
ghost use Rattle.rvm_hart.specs.Bus.{mip_of, ram_load};
ghost use Rattle.rvm_hart.specs.declared.outcome.Stepped.TheVariants.{Retired, Trapped};
ghost use Rattle.rvm_hart.specs.Step.{Executes, execute, after_ticks, all_tick, none_retired, ticks_of, step_answer, in_handler, step};

use crate::bus::Bus;
use crate::hart::Hart;
use crate::outcome::{Stepped, Written};
use rvm_csr::{Cause, Exception, Interrupt};
use rvm_isa::decode_at_end;
use rvm_mem::Memory;

impl Hart {
    /// Makes one step: takes a pending interrupt, or else runs the instruction at pc; then the
    /// counters rise. A halted board does not change. The page that a store wrote is added to the
    /// dirty log.
    #[inline(always)]
    pub fn step<M: Memory>(&mut self, bus: &mut Bus<M>) -> Stepped
        requires reservation { self.old.csrs.hart < length bus.old.shared.reservations }
        requires devices { self.old.csrs.hart < length bus.old.shared.devices.msip }
        ensures machine { machine self.new bus.new ≡ (step (machine self.old bus.old)).machine }
        ensures dirty { bus.new.dirty
            ≡ mark_all (step (machine self.old bus.old)).pages bus.old.dirty }
        ensures answer { result ≡ (step (machine self.old bus.old)).answer }
    {
        if let Some(status) = bus.halted() {
            return Stepped::Halted(status);
        }
        if let Some(interrupt) = self.pending(bus) {
            self.enter(Cause::Interrupt(interrupt), 0, bus);
            return Stepped::Interrupted(interrupt);
        }
        self.execute(bus)
    }

    /// The interrupt that the hart takes before its next instruction, if any (Privileged ISA,
    /// "Machine Interrupt (mip and mie) Registers").
    #[inline(always)]
    pub(crate) fn pending<M: Memory>(&self, bus: &Bus<M>) -> Option<Interrupt>
        requires { self.now.csrs.hart < length bus.now.shared.devices.msip }
        ensures { result ≡ pending (mip_of self.now.csrs.hart bus.now.shared.devices) self.now.csrs }
    {
        if !self.csrs.interrupts_enabled() {
            return None;
        }
        self.csrs.pending(bus.interrupts(self.csrs.hart()))
    }

    /// Makes the step of the instruction at pc. Traps if there is no RAM at pc.
    #[inline(always)]
    fn execute<M: Memory>(&mut self, bus: &mut Bus<M>) -> Stepped
        requires reservation { self.old.csrs.hart < length bus.old.shared.reservations }
        requires devices { self.old.csrs.hart < length bus.old.shared.devices.msip }
        ensures { Executes execute self.old bus.old self.new bus.new result }
    {
        let Some(word) = bus.ram_load32(self.pc) else {
            return self.trap(Exception::InstructionAccessFault, self.pc, bus);
        };
        self.execute_word(word, bus)
    }

    /// Makes the step of the instruction at pc, whose word is `word`. Traps if the word has no row.
    #[inline(always)]
    pub(crate) fn execute_word<M: Memory>(&mut self, word: u32, bus: &mut Bus<M>) -> Stepped
        requires reservation { self.old.csrs.hart < length bus.old.shared.reservations }
        requires devices { self.old.csrs.hart < length bus.old.shared.devices.msip }
        requires word { ram_load 4 self.old.pc bus.old.shared.bytes ≡ Some word }
        ensures { Executes execute self.old bus.old self.new bus.new result }
    {
        match decode_at_end(word) {
            Some(ins) => self.apply(word, ins, bus),
            None => self.trap(Exception::IllegalInstruction, word, bus),
        }
    }

    /// Ends the step of a retired instruction that wrote no counter and no halt word: all counters
    /// rise.
    #[inline(always)]
    pub(crate) fn retire<M: Memory>(&mut self, bus: &mut Bus<M>) -> Stepped
        ensures machine { machine self.new bus.new
            ≡ after_ticks all_tick (machine self.old bus.old) }
        ensures dirty { bus.new.dirty ≡ bus.old.dirty }
        ensures answer { result ≡ Retired }
    {
        self.csrs.tick(true, true);
        bus.tick();
        Stepped::Retired
    }

    /// Ends the step of an instruction that traps; `value` goes to mtval.
    #[cold]
    #[inline(never)]
    pub(crate) fn trap<M: Memory>(
        &mut self,
        exception: Exception,
        value: u32,
        bus: &mut Bus<M>,
    ) -> Stepped
        ensures machine { machine self.new bus.new
            ≡ after_ticks none_retired (in_handler (cause.Exception exception) value (machine self.old bus.old)) }
        ensures dirty { bus.new.dirty ≡ bus.old.dirty }
        ensures answer { result ≡ Trapped exception }
    {
        self.enter(Cause::Exception(exception), value, bus);
        Stepped::Trapped(exception)
    }

    /// Ends the step of a retired instruction: all counters rise but the one of which it wrote a
    /// half. Reports `Halted` if it wrote the halt word.
    #[cold]
    #[inline(never)]
    pub(crate) fn retire_after<M: Memory>(&mut self, written: Written, bus: &mut Bus<M>) -> Stepped
        ensures machine { machine self.new bus.new
            ≡ after_ticks (ticks_of written) (machine self.old bus.old) }
        ensures dirty { bus.new.dirty ≡ bus.old.dirty }
        ensures answer { result ≡ step_answer written }
    {
        self.csrs
            .tick(written != Written::Mcycle, written != Written::Minstret);
        if written != Written::Mtime {
            bus.tick();
        }
        match written {
            Written::Halt(status) => Stepped::Halted(status),
            _ => Stepped::Retired,
        }
    }

    /// Enters the handler of a trap, with `value` in mtval, and ends the step: mcycle and mtime
    /// rise, minstret does not.
    #[cold]
    #[inline(never)]
    pub(crate) fn enter<M: Memory>(&mut self, cause: Cause, value: u32, bus: &mut Bus<M>)
        ensures machine { machine self.new bus.new
            ≡ after_ticks none_retired (in_handler cause value (machine self.old bus.old)) }
        ensures dirty { bus.new.dirty ≡ bus.old.dirty }
    {
        self.pc = self.csrs.enter_trap(cause, value, self.pc);
        self.csrs.tick(true, false);
        bus.tick();
    }
}
