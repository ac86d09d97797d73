//! Consecutive steps of a hart: on the straight path as long as possible, and each other step by itself.

ghost use Rattle.std.specs.Prelude.{◌≡◌, ◌<◌, ◌≤◌, ◌-◌, ◌&&◌, ◌%◌, length, true};
ghost use Rattle.rvm_mem.specs.Pages.{mark_all};
ghost use Rattle.rvm_hart.specs.Machine.{machine};
ghost use Rattle.rvm_hart.specs.Marks.{is_marked};
ghost use Rattle.rvm_hart.specs.Running.{ends_so, status_in};
ghost use Rattle.rvm_hart.specs.declared.outcome.Stepped.TheVariants.{Retired};
ghost use Rattle.rvm_hart.specs.Step.{Executes, after_ticks, all_tick, execute, step};
ghost use Rattle.rvm_hart.specs.Straight.{all_pass, at_pc, based, is_next, steps};

use crate::bus::Bus;
use crate::hart::Hart;
use crate::marks::Marks;
use crate::outcome::Stepped;
use crate::straight::address_of;
use rvm_csr::{Cause, Exception};
use rvm_isa::Decoder;
use rvm_mem::Memory;

/// How consecutive steps ended.
#[derive(Clone, Copy)]
pub struct Ran {
    /// The number of steps that were not made.
    pub left: u32,
    /// The status that the board is halted with, if the last step halted it or found it halted.
    pub halted: Option<u8>,
}

impl Hart {
    /// Makes at most `count` steps. Ends early after a step that halts the board or finds it halted, or, if `watched`,
    /// before a step that begins at a mark. `LOOP` is the number of the caller's loop, as in `run_straight`.
    #[inline(always)]
    pub fn run<M: Memory, const LOOP: u8>(
        &mut self,
        bus: &mut Bus<M>,
        count: u32,
        marks: &Marks,
        watched: bool,
    ) -> Ran
        requires reservation { self.old.csrs.hart < length bus.old.shared.reservations }
        requires devices { self.old.csrs.hart < length bus.old.shared.devices.msip }
        ensures left { result.left ≤ count }
        ensures machine { machine self.new bus.new
            ≡ (steps (count - result.left) (machine self.old bus.old)).machine }
        ensures dirty { bus.new.dirty
            ≡ mark_all (steps (count - result.left) (machine self.old bus.old)).pages bus.old.dirty }
        ensures pass { all_pass watched marks.now (count - result.left) (machine self.old bus.old)
            ≡ true }
        ensures ends { ends_so result.halted (count - result.left) (machine self.old bus.old) ≡ true }
    {
        let mut left = count;
        while left > 0 {
            let straight = self.run_straight::<M, LOOP>(bus, left, marks, watched);
            left = straight.left;
            if left == 0 {
                return Ran { left, halted: None };
            }
            if self.is_at_mark(marks, watched) {
                return Ran { left, halted: None };
            }
            left -= 1;
            let halted = status_in(self.step_with(straight.word, bus));
            if halted.is_some() {
                return Ran { left, halted };
            }
        }
        Ran {
            left: 0,
            halted: None,
        }
    }

    /// Whether the hart is at a mark that is watched.
    #[inline(always)]
    fn is_at_mark(&self, marks: &Marks, watched: bool) -> bool
        ensures { result ≡ (watched && is_marked self.now.pc marks.now) }
    {
        watched && marks.has(self.pc)
    }

    /// Makes one step. `word` is the word at which the straight path ended, or 0 if it is not known.
    #[inline(always)]
    #[tactic(auto, unfolding(crate::specs::Straight::is_next))]
    fn step_with<M: Memory>(&mut self, word: u32, bus: &mut Bus<M>) -> Stepped
        requires reservation { self.old.csrs.hart < length bus.old.shared.reservations }
        requires devices { self.old.csrs.hart < length bus.old.shared.devices.msip }
        requires next { is_next word (machine self.old bus.old) ≡ true }
        ensures machine { machine self.new bus.new ≡ (step (machine self.old bus.old)).machine }
        ensures dirty { bus.new.dirty
            ≡ mark_all (step (machine self.old bus.old)).pages bus.old.dirty }
        ensures answer { result ≡ (step (machine self.old bus.old)).answer }
    {
        if word == 0 {
            return self.step_apart(bus);
        }
        self.execute_word(word, bus)
    }

    /// Makes the same step as `step`, on the straight path if possible. It is for a hart that makes one step at a time.
    #[inline(always)]
    pub fn step_straight<M: Memory, const LOOP: u8>(&mut self, bus: &mut Bus<M>) -> Stepped
        requires reservation { self.old.csrs.hart < length bus.old.shared.reservations }
        requires devices { self.old.csrs.hart < length bus.old.shared.devices.msip }
        ensures machine { machine self.new bus.new ≡ (step (machine self.old bus.old)).machine }
        ensures dirty { bus.new.dirty
            ≡ mark_all (step (machine self.old bus.old)).pages bus.old.dirty }
        ensures answer { result ≡ (step (machine self.old bus.old)).answer }
    {
        if let Some(status) = bus.halted() {
            return Stepped::Halted(status);
        }
        if let Some(interrupt) = self.pending(bus) {
            self.enter(Cause::Interrupt(interrupt), 0, bus);
            return Stepped::Interrupted(interrupt);
        }
        self.execute_straight::<M, LOOP>(bus)
    }

    /// Makes the step of the instruction at pc, on the straight path if possible. Traps if there is no RAM at pc.
    #[inline(always)]
    fn execute_straight<M: Memory, const LOOP: u8>(&mut self, bus: &mut Bus<M>) -> Stepped
        requires reservation { self.old.csrs.hart < length bus.old.shared.reservations }
        requires devices { self.old.csrs.hart < length bus.old.shared.devices.msip }
        ensures { Executes execute self.old bus.old self.new bus.new result }
    {
        let at = self.offset();
        let fetched = bus.fetch(at);
        let Some(word) = fetched else {
            return self.trap(Exception::InstructionAccessFault, self.pc, bus);
        };
        if let Some(next) = self.straight::<M, LOOP>(Decoder::new(0), fetched, at, bus) {
            return self.end_straight(next, bus);
        }
        self.execute_word(word, bus)
    }

    /// Ends the step of an instruction of the straight path; the hart goes on at offset `next` of RAM.
    #[inline(always)]
    fn end_straight<M: Memory>(&mut self, next: u64, bus: &mut Bus<M>) -> Stepped
        requires { next % 4 ≡ 0 }
        ensures machine { machine self.new bus.new
            ≡ after_ticks all_tick (machine (at_pc (based next) self.old) bus.old) }
        ensures dirty { bus.new.dirty ≡ bus.old.dirty }
        ensures answer { result ≡ Retired }
    {
        self.pc = address_of(next);
        self.retire(bus)
    }

    /// Makes a step whose word is not known, which is rare.
    #[cold]
    #[inline(never)]
    fn step_apart<M: Memory>(&mut self, bus: &mut Bus<M>) -> Stepped
        requires reservation { self.old.csrs.hart < length bus.old.shared.reservations }
        requires devices { self.old.csrs.hart < length bus.old.shared.devices.msip }
        ensures machine { machine self.new bus.new ≡ (step (machine self.old bus.old)).machine }
        ensures dirty { bus.new.dirty
            ≡ mark_all (step (machine self.old bus.old)).pages bus.old.dirty }
        ensures answer { result ≡ (step (machine self.old bus.old)).answer }
    {
        self.step(bus)
    }
}

/// The status that a step reported, if it halted the board or found it halted.
#[inline(always)]
fn status_in(answer: Stepped) -> Option<u8>
    ensures { result ≡ status_in answer }
{
    match answer {
        Stepped::Halted(status) => Some(status),
        _ => None,
    }
}
