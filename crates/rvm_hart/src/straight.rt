//! The straight path: steps whose instructions reach registers, RAM and reservations alone. One loop makes them, and
//! the counters rise once after it. `at` is the offset of the current instruction in RAM, and stands for the pc that
//! the hart keeps.

ghost use Rattle.std.specs.Prelude.{◌≡◌, ◌<◌, ◌≤◌, ◌+◌, ◌%◌, ◌^◌, ◌-◌, length, true, IfNone, IfSome, Some};
ghost use Rattle.rvm_word.specs.Word.{modulo};
ghost use Rattle.rvm_hart.specs.Outcome.{done, done_with, reg};
ghost use Rattle.rvm_hart.specs.Kinds.{arithmetic, atomic, branch, even, holds, jump, load_byte, load_half, load_reserved, load_word, store_byte, store_conditional, store_half, store_word, sum};
ghost use Rattle.rvm_hart.specs.Rows.{effect, sign_extended_byte, sign_extended_half, zero_extended};
ghost use Rattle.rvm_hart.specs.Straight.{DevicesStay, Goes, IsQuiet, LeavesRest, all_pass, at_pc, based, is_next, is_offset, is_straight, stays_in_ram, steps, timed_after, went};
ghost use Rattle.rvm_hart.specs.Bus.{in_ram, ram_load};
ghost use Rattle.rvm_mem.specs.Pages.{mark_all};
ghost use Rattle.rvm_hart.specs.Step.{execute};
ghost use Rattle.rvm_hart.specs.Machine.{machine};

use crate::arithmetic::Operation;
use crate::atomics::Amo;
use crate::bus::{Bus, RAM_BASE};
use crate::hart::Hart;
use crate::jumps::Comparison;
use crate::marks::Marks;
use rvm_isa::{Decoder, Imm12, Ins, Off13, Off21, Reg, Shamt};
use rvm_mem::Memory;
use rvm_word::{add_signed, sext};

/// How steps on the straight path ended.
#[derive(Clone, Copy)]
pub struct Straight {
    /// The number of steps that were not made.
    pub left: u32,
    /// The word that the next step runs; 0, which is no instruction, if it is not known.
    pub(crate) word: u32,
}

impl Hart {
    /// Makes at most `count` steps on the straight path, and none on a halted board. Ends early before a step that
    /// leaves the path or takes an interrupt, or, if `watched`, that begins at a mark. Returns how many steps are left,
    /// and the next word if it is known.
    ///
    /// `LOOP` is the number of the caller's loop. A function of this size is inlined only if it is used once, so each
    /// hot loop has a copy of the path: inlined, a step takes 20 host instructions less.
    #[inline(always)]
    pub fn run_straight<M: Memory, const LOOP: u8>(
        &mut self,
        bus: &mut Bus<M>,
        count: u32,
        marks: &Marks,
        watched: bool,
    ) -> Straight
        requires reservation { self.old.csrs.hart < length bus.old.shared.reservations }
        requires devices { self.old.csrs.hart < length bus.old.shared.devices.msip }
        ensures left { result.left ≤ count }
        ensures machine { machine self.new bus.new
            ≡ (steps (count - result.left) (machine self.old bus.old)).machine }
        ensures dirty { bus.new.dirty
            ≡ mark_all (steps (count - result.left) (machine self.old bus.old)).pages bus.old.dirty }
        ensures retired { (steps (count - result.left) (machine self.old bus.old)).retired ≡ true }
        ensures pass { all_pass watched marks.now (count - result.left) (machine self.old bus.old) ≡ true }
        ensures next { is_next result.word (machine self.new bus.new) ≡ true }
        ensures devices { DevicesStay (count - result.left) (machine self.old bus.old) }
    {
        if bus.halted().is_some() {
            return Straight {
                left: count,
                word: 0,
            };
        }
        let quiet = self.quiet_steps(bus, count);
        let rows = self.rows_straight::<M, LOOP>(bus, quiet, marks, watched);
        let made = quiet - rows.left;
        self.count_steps(bus, made);
        Straight {
            left: count - made,
            word: rows.word,
        }
    }

    /// Raises mcycle, minstret and mtime by this many steps.
    #[inline(always)]
    fn count_steps<M: Memory>(&mut self, bus: &mut Bus<M>, steps: u32)
        ensures machine { machine self.new bus.new
            ≡ timed_after steps (machine self.old bus.old) (machine self.old bus.old) }
        ensures dirty { bus.new.dirty ≡ bus.old.dirty }
    {
        if steps == 0 {
            return;
        }
        self.csrs.tick_many(steps);
        bus.tick_many(steps);
    }

    /// The number of steps, at most `count`, that can be made before an interrupt is pending, if mtime alone changes in
    /// the devices.
    #[inline(always)]
    pub fn quiet_steps<M: Memory>(&self, bus: &Bus<M>, count: u32) -> u32
        requires { self.now.csrs.hart < length bus.now.shared.devices.msip }
        ensures within { result ≤ count }
        ensures quiet { IsQuiet result (machine self.now bus.now) }
    {
        if !self.csrs.interrupts_enabled() {
            return count;
        }
        if self.pending(bus).is_some() {
            return 0;
        }
        if !self.csrs.timer_is_enabled() {
            return count;
        }
        bus.steps_to_timer(self.csrs.hart(), count)
    }

    /// Runs at most `count` instructions of the path. Ends early before one that leaves it, or, if `watched`, that is
    /// at a mark. Returns how many are left, and the word of the one that left the path if it was fetched, else 0. No
    /// counter rises.
    #[inline(always)]
    fn rows_straight<M: Memory, const LOOP: u8>(
        &mut self,
        bus: &mut Bus<M>,
        count: u32,
        marks: &Marks,
        watched: bool,
    ) -> Straight
        requires { self.old.csrs.hart < length bus.old.shared.reservations }
        ensures left { result.left ≤ count }
        ensures word { 0 < result.word → ram_load 4 self.new.pc bus.new.shared.bytes ≡ Some result.word }
        ensures some { 0 < result.word → 0 < result.left }
        ensures went { record { machine = machine self.new bus.new; dirty = bus.new.dirty; plain = true }
            ≡ went watched marks.now (count - result.left) (machine self.old bus.old) bus.old.dirty }
        ensures csrs { self.new.csrs ≡ self.old.csrs }
        ensures devices { bus.new.shared.devices ≡ bus.old.shared.devices }
        ensures reservations { length bus.new.shared.reservations ≡ length bus.old.shared.reservations }
    {
        let mut left = count;
        let decoder = self.decoder();
        let mut at = self.offset();
        let mut word = 0;
        while left > 0 {
            if watched && marks.has(address_of(at)) {
                break;
            }
            let fetched = bus.fetch(at);
            let Some(next) = self.straight::<M, LOOP>(decoder, fetched, at, bus) else {
                if let Some(fetched) = fetched {
                    word = fetched;
                }
                break;
            };
            at = next;
            left -= 1;
        }
        self.pc = address_of(at);
        Straight { left, word }
    }

    /// A decoder for many words.
    #[inline(always)]
    pub fn decoder(&self) -> Decoder {
        Decoder::new(self.regs[0])
    }

    /// The offset of the current instruction in RAM, modulo 2 ^ 64.
    #[inline(always)]
    #[tactic(auto, unfolding(crate::specs::Straight::based, crate::specs::Straight::is_offset))]
    pub(crate) fn offset(&self) -> u64
        ensures address { based result ≡ self.now.pc }
        ensures aligned { result % 4 ≡ 0 }
        ensures one { is_offset result ≡ true }
    {
        u64::from(self.pc).wrapping_sub(u64::from(RAM_BASE))
    }

    /// Puts a value into rd.
    #[inline]
    fn put<M: Memory>(&mut self, rd: Reg, value: u32, at: u64, bus: &mut Bus<M>) -> Option<u64>
        requires at { at % 4 ≡ 0 }
        requires hart { self.old.csrs.hart < length bus.old.shared.reservations }
        ensures goes { IfSome result (λ next. Goes (done_with rd value) (based at) self.old bus.old (based next) self.new bus.new) }
        ensures rest { LeavesRest result self.old bus.old self.new bus.new }
    {
        self.regs[rd.index()] = value;
        self.regs[0] = 0;
        Some(next_of(at))
    }

    /// Puts the value of an operation on two registers into rd.
    #[inline]
    fn straight_operate<M: Memory>(
        &mut self,
        operation: Operation,
        rd: Reg,
        rs1: Reg,
        rs2: Reg,
        at: u64,
        bus: &mut Bus<M>,
    ) -> Option<u64>
        requires at { at % 4 ≡ 0 }
        requires hart { self.old.csrs.hart < length bus.old.shared.reservations }
        ensures goes { IfSome result (λ next. Goes (arithmetic operation rd (reg rs1 self.old) (reg rs2 self.old)) (based at) self.old bus.old (based next) self.new bus.new) }
        ensures rest { LeavesRest result self.old bus.old self.new bus.new }
    {
        self.put(rd, operation.of(self.get(rs1), self.get(rs2)), at, bus)
    }

    /// Puts the value of an operation on a register and a sign-extended immediate into rd.
    #[inline]
    fn straight_immediate<M: Memory>(
        &mut self,
        operation: Operation,
        rd: Reg,
        rs1: Reg,
        imm: Imm12,
        at: u64,
        bus: &mut Bus<M>,
    ) -> Option<u64>
        requires at { at % 4 ≡ 0 }
        requires hart { self.old.csrs.hart < length bus.old.shared.reservations }
        ensures goes { IfSome result (λ next. Goes (arithmetic operation rd (reg rs1 self.old) (modulo 32 imm)) (based at) self.old bus.old (based next) self.new bus.new) }
        ensures rest { LeavesRest result self.old bus.old self.new bus.new }
    {
        self.put(rd, operation.of(self.get(rs1), imm.word()), at, bus)
    }

    /// Puts a shifted register into rd.
    #[inline]
    fn straight_shift<M: Memory>(
        &mut self,
        operation: Operation,
        rd: Reg,
        rs1: Reg,
        amount: Shamt,
        at: u64,
        bus: &mut Bus<M>,
    ) -> Option<u64>
        requires at { at % 4 ≡ 0 }
        requires hart { self.old.csrs.hart < length bus.old.shared.reservations }
        ensures goes { IfSome result (λ next. Goes (arithmetic operation rd (reg rs1 self.old) amount) (based at) self.old bus.old (based next) self.new bus.new) }
        ensures rest { LeavesRest result self.old bus.old self.new bus.new }
    {
        self.put(rd, operation.of(self.get(rs1), amount.bits()), at, bus)
    }

    /// Jumps to an address (JALR); none if it is no multiple of four.
    #[inline]
    fn straight_jump<M: Memory>(
        &mut self,
        rd: Reg,
        target: u32,
        at: u64,
        bus: &mut Bus<M>,
    ) -> Option<u64>
        requires at { at % 4 ≡ 0 }
        requires hart { self.old.csrs.hart < length bus.old.shared.reservations }
        ensures goes { IfSome result (λ next. Goes (jump rd target) (based at) self.old bus.old (based next) self.new bus.new) }
        ensures rest { LeavesRest result self.old bus.old self.new bus.new }
    {
        if target % 4 != 0 {
            return None;
        }
        self.regs[rd.index()] = address_of(at).wrapping_add(4);
        self.regs[0] = 0;
        Some(u64::from(offset_of(target)))
    }

    /// Jumps by an offset (JAL); none if the target is no multiple of four.
    #[inline]
    fn straight_jump_by<M: Memory>(
        &mut self,
        rd: Reg,
        offset: Off21,
        at: u64,
        bus: &mut Bus<M>,
    ) -> Option<u64>
        requires at { at % 4 ≡ 0 }
        requires hart { self.old.csrs.hart < length bus.old.shared.reservations }
        ensures goes { IfSome result (λ next. Goes (jump rd (sum (based at) offset)) (based at) self.old bus.old (based next) self.new bus.new) }
        ensures rest { LeavesRest result self.old bus.old self.new bus.new }
    {
        let Some(target) = moved(at, offset.value()) else {
            return None;
        };
        self.regs[rd.index()] = address_of(at).wrapping_add(4);
        self.regs[0] = 0;
        Some(target)
    }

    /// Takes a branch or not; none if the target of a taken one is no multiple of four.
    #[inline]
    fn straight_branch<M: Memory>(
        &mut self,
        comparison: Comparison,
        rs1: Reg,
        rs2: Reg,
        offset: Off13,
        at: u64,
        bus: &mut Bus<M>,
    ) -> Option<u64>
        requires at { at % 4 ≡ 0 }
        requires hart { self.old.csrs.hart < length bus.old.shared.reservations }
        ensures goes { IfSome result (λ next. Goes (branch (holds comparison (reg rs1 self.old) (reg rs2 self.old)) offset) (based at) self.old bus.old (based next) self.new bus.new) }
        ensures rest { LeavesRest result self.old bus.old self.new bus.new }
    {
        if !comparison.holds(self.get(rs1), self.get(rs2)) {
            return Some(next_of(at));
        }
        let Some(next) = moved(at, offset.value()) else {
            return None;
        };
        Some(next)
    }

    /// Loads a byte, sign-extended (LB); none if it is not in RAM.
    #[inline]
    fn straight_load_signed_byte<M: Memory>(
        &mut self,
        rd: Reg,
        address: u32,
        at: u64,
        bus: &mut Bus<M>,
    ) -> Option<u64>
        requires at { at % 4 ≡ 0 }
        requires hart { self.old.csrs.hart < length bus.old.shared.reservations }
        ensures goes { IfSome result (λ next. Goes (load_byte sign_extended_byte rd address) (based at) self.old bus.old (based next) self.new bus.new) }
        ensures rest { LeavesRest result self.old bus.old self.new bus.new }
    {
        match bus.ram_byte(offset_of(address)) {
            Some(value) => self.put(rd, sext(u32::from(value), 8), at, bus),
            None => None,
        }
    }

    /// Loads a byte, zero-extended (LBU); none if it is not in RAM.
    #[inline]
    fn straight_load_byte<M: Memory>(
        &mut self,
        rd: Reg,
        address: u32,
        at: u64,
        bus: &mut Bus<M>,
    ) -> Option<u64>
        requires at { at % 4 ≡ 0 }
        requires hart { self.old.csrs.hart < length bus.old.shared.reservations }
        ensures goes { IfSome result (λ next. Goes (load_byte zero_extended rd address) (based at) self.old bus.old (based next) self.new bus.new) }
        ensures rest { LeavesRest result self.old bus.old self.new bus.new }
    {
        match bus.ram_byte(offset_of(address)) {
            Some(value) => self.put(rd, u32::from(value), at, bus),
            None => None,
        }
    }

    /// Loads two bytes, sign-extended (LH); none if they are misaligned or not in RAM.
    #[inline]
    fn straight_load_signed_half<M: Memory>(
        &mut self,
        rd: Reg,
        address: u32,
        at: u64,
        bus: &mut Bus<M>,
    ) -> Option<u64>
        requires at { at % 4 ≡ 0 }
        requires hart { self.old.csrs.hart < length bus.old.shared.reservations }
        ensures goes { IfSome result (λ next. Goes (load_half sign_extended_half rd address) (based at) self.old bus.old (based next) self.new bus.new) }
        ensures rest { LeavesRest result self.old bus.old self.new bus.new }
    {
        let place = offset_of(address);
        if place % 2 != 0 {
            return None;
        }
        match bus.ram_half(place) {
            Some(value) => self.put(rd, sext(u32::from(value), 16), at, bus),
            None => None,
        }
    }

    /// Loads two bytes, zero-extended (LHU); none if they are misaligned or not in RAM.
    #[inline]
    fn straight_load_half<M: Memory>(
        &mut self,
        rd: Reg,
        address: u32,
        at: u64,
        bus: &mut Bus<M>,
    ) -> Option<u64>
        requires at { at % 4 ≡ 0 }
        requires hart { self.old.csrs.hart < length bus.old.shared.reservations }
        ensures goes { IfSome result (λ next. Goes (load_half zero_extended rd address) (based at) self.old bus.old (based next) self.new bus.new) }
        ensures rest { LeavesRest result self.old bus.old self.new bus.new }
    {
        let place = offset_of(address);
        if place % 2 != 0 {
            return None;
        }
        match bus.ram_half(place) {
            Some(value) => self.put(rd, u32::from(value), at, bus),
            None => None,
        }
    }

    /// Loads a word (LW); none if it is misaligned or not in RAM.
    #[inline]
    fn straight_load_word<M: Memory>(
        &mut self,
        rd: Reg,
        address: u32,
        at: u64,
        bus: &mut Bus<M>,
    ) -> Option<u64>
        requires at { at % 4 ≡ 0 }
        requires hart { self.old.csrs.hart < length bus.old.shared.reservations }
        ensures goes { IfSome result (λ next. Goes (load_word rd address) (based at) self.old bus.old (based next) self.new bus.new) }
        ensures stays { IfSome result (λ next. in_ram 4 address bus.old.shared.bytes ≡ true) }
        ensures rest { LeavesRest result self.old bus.old self.new bus.new }
    {
        let place = offset_of(address);
        if place % 4 != 0 {
            return None;
        }
        match bus.ram_word(place) {
            Some(value) => self.put(rd, value, at, bus),
            None => None,
        }
    }

    /// Stores the low byte of a value; none if the address is not in RAM.
    #[inline]
    fn straight_store_byte<M: Memory>(
        &mut self,
        address: u32,
        value: u32,
        at: u64,
        bus: &mut Bus<M>,
    ) -> Option<u64>
        requires at { at % 4 ≡ 0 }
        requires hart { self.old.csrs.hart < length bus.old.shared.reservations }
        ensures goes { IfSome result (λ next. Goes (store_byte address value) (based at) self.old bus.old (based next) self.new bus.new) }
        ensures rest { LeavesRest result self.old bus.old self.new bus.new }
    {
        if !bus.store_byte(self.csrs.hart(), offset_of(address), (value & 0xFF) as u8) {
            return None;
        }
        Some(next_of(at))
    }

    /// Stores the low two bytes of a value; none if the address is misaligned or not in RAM.
    #[inline]
    fn straight_store_half<M: Memory>(
        &mut self,
        address: u32,
        value: u32,
        at: u64,
        bus: &mut Bus<M>,
    ) -> Option<u64>
        requires at { at % 4 ≡ 0 }
        requires hart { self.old.csrs.hart < length bus.old.shared.reservations }
        ensures goes { IfSome result (λ next. Goes (store_half address value) (based at) self.old bus.old (based next) self.new bus.new) }
        ensures rest { LeavesRest result self.old bus.old self.new bus.new }
    {
        let place = offset_of(address);
        if place % 2 != 0 {
            return None;
        }
        if !bus.store_half(self.csrs.hart(), place, (value & 0xFFFF) as u16) {
            return None;
        }
        Some(next_of(at))
    }

    /// Stores a word; none if the address is misaligned or not in RAM.
    #[inline]
    fn straight_store_word<M: Memory>(
        &mut self,
        address: u32,
        value: u32,
        at: u64,
        bus: &mut Bus<M>,
    ) -> Option<u64>
        requires at { at % 4 ≡ 0 }
        requires hart { self.old.csrs.hart < length bus.old.shared.reservations }
        ensures goes { IfSome result (λ next. Goes (store_word address value) (based at) self.old bus.old (based next) self.new bus.new) }
        ensures stays { IfSome result (λ next. in_ram 4 address bus.old.shared.bytes ≡ true) }
        ensures rest { LeavesRest result self.old bus.old self.new bus.new }
    {
        let place = offset_of(address);
        if place % 4 != 0 {
            return None;
        }
        if !bus.store_word(self.csrs.hart(), place, value) {
            return None;
        }
        Some(next_of(at))
    }

    /// Stores the low byte of rs2 at the sum of rs1 and the immediate (SB).
    #[inline]
    fn straight_sb<M: Memory>(
        &mut self,
        rs1: Reg,
        rs2: Reg,
        imm: Imm12,
        at: u64,
        bus: &mut Bus<M>,
    ) -> Option<u64>
        requires at { at % 4 ≡ 0 }
        requires hart { self.old.csrs.hart < length bus.old.shared.reservations }
        ensures goes { IfSome result (λ next. Goes (store_byte (sum (reg rs1 self.old) imm) (reg rs2 self.old)) (based at) self.old bus.old (based next) self.new bus.new) }
        ensures rest { LeavesRest result self.old bus.old self.new bus.new }
    {
        let address = self.plus(rs1, imm);
        let value = self.get(rs2);
        self.straight_store_byte(address, value, at, bus)
    }

    /// Stores the low two bytes of rs2 at the sum of rs1 and the immediate (SH).
    #[inline]
    fn straight_sh<M: Memory>(
        &mut self,
        rs1: Reg,
        rs2: Reg,
        imm: Imm12,
        at: u64,
        bus: &mut Bus<M>,
    ) -> Option<u64>
        requires at { at % 4 ≡ 0 }
        requires hart { self.old.csrs.hart < length bus.old.shared.reservations }
        ensures goes { IfSome result (λ next. Goes (store_half (sum (reg rs1 self.old) imm) (reg rs2 self.old)) (based at) self.old bus.old (based next) self.new bus.new) }
        ensures rest { LeavesRest result self.old bus.old self.new bus.new }
    {
        let address = self.plus(rs1, imm);
        let value = self.get(rs2);
        self.straight_store_half(address, value, at, bus)
    }

    /// Stores rs2 at the sum of rs1 and the immediate (SW).
    #[inline]
    fn straight_sw<M: Memory>(
        &mut self,
        rs1: Reg,
        rs2: Reg,
        imm: Imm12,
        at: u64,
        bus: &mut Bus<M>,
    ) -> Option<u64>
        requires at { at % 4 ≡ 0 }
        requires hart { self.old.csrs.hart < length bus.old.shared.reservations }
        ensures goes { IfSome result (λ next. Goes (store_word (sum (reg rs1 self.old) imm) (reg rs2 self.old)) (based at) self.old bus.old (based next) self.new bus.new) }
        ensures stays { IfSome result (λ next. in_ram 4 (sum (reg rs1 self.old) imm) bus.old.shared.bytes ≡ true) }
        ensures rest { LeavesRest result self.old bus.old self.new bus.new }
    {
        let address = self.plus(rs1, imm);
        let value = self.get(rs2);
        self.straight_store_word(address, value, at, bus)
    }

    /// Goes on to the next instruction (FENCE, FENCE.I, WFI).
    #[inline]
    fn straight_fence<M: Memory>(&mut self, at: u64, bus: &mut Bus<M>) -> Option<u64>
        requires at { at % 4 ≡ 0 }
        requires hart { self.old.csrs.hart < length bus.old.shared.reservations }
        ensures goes { IfSome result (λ next. Goes (done) (based at) self.old bus.old (based next) self.new bus.new) }
        ensures rest { LeavesRest result self.old bus.old self.new bus.new }
    {
        Some(next_of(at))
    }

    /// Loads a word and reserves it (LR.W); none if it is misaligned or not in RAM.
    #[inline]
    fn straight_load_reserved<M: Memory>(
        &mut self,
        rd: Reg,
        address: u32,
        at: u64,
        bus: &mut Bus<M>,
    ) -> Option<u64>
        requires at { at % 4 ≡ 0 }
        requires hart { self.old.csrs.hart < length bus.old.shared.reservations }
        ensures goes { IfSome result (λ next. Goes (load_reserved rd address) (based at) self.old bus.old (based next) self.new bus.new) }
        ensures rest { LeavesRest result self.old bus.old self.new bus.new }
    {
        if address % 4 != 0 {
            return None;
        }
        match bus.ram_load32(address) {
            Some(value) => {
                bus.hold(self.csrs.hart(), address);
                self.regs[rd.index()] = value;
                self.regs[0] = 0;
                Some(next_of(at))
            }
            None => None,
        }
    }

    /// Stores a word if the hart has reserved it (SC.W); none if it is misaligned or not in RAM.
    #[inline]
    fn straight_store_conditional<M: Memory>(
        &mut self,
        rd: Reg,
        address: u32,
        value: u32,
        at: u64,
        bus: &mut Bus<M>,
    ) -> Option<u64>
        requires at { at % 4 ≡ 0 }
        requires hart { self.old.csrs.hart < length bus.old.shared.reservations }
        ensures goes { IfSome result (λ next. Goes (store_conditional rd address value) (based at) self.old bus.old (based next) self.new bus.new) }
        ensures rest { LeavesRest result self.old bus.old self.new bus.new }
    {
        if address % 4 != 0 {
            return None;
        }
        if bus.ram_load32(address).is_none() {
            return None;
        }
        let hart = self.csrs.hart();
        if !bus.take(hart, address) {
            self.regs[rd.index()] = 1;
            self.regs[0] = 0;
            return Some(next_of(at));
        }
        self.regs[rd.index()] = 0;
        self.regs[0] = 0;
        let _ = bus.ram_store32(hart, address, value);
        Some(next_of(at))
    }

    /// Makes an AMO at an address; none if it is misaligned or not in RAM.
    #[inline]
    fn straight_exchange<M: Memory>(
        &mut self,
        operation: Amo,
        rd: Reg,
        address: u32,
        source: u32,
        at: u64,
        bus: &mut Bus<M>,
    ) -> Option<u64>
        requires at { at % 4 ≡ 0 }
        requires hart { self.old.csrs.hart < length bus.old.shared.reservations }
        ensures goes { IfSome result (λ next. Goes (atomic operation rd address source) (based at) self.old bus.old (based next) self.new bus.new) }
        ensures rest { LeavesRest result self.old bus.old self.new bus.new }
    {
        if address % 4 != 0 {
            return None;
        }
        match bus.exchange(self.csrs.hart(), operation, address, source) {
            Some(old) => {
                self.regs[rd.index()] = old;
                self.regs[0] = 0;
                Some(next_of(at))
            }
            None => None,
        }
    }

    /// Makes an AMO at the address in rs1 with the value of rs2.
    #[inline]
    fn straight_amo<M: Memory>(
        &mut self,
        operation: Amo,
        rd: Reg,
        rs1: Reg,
        rs2: Reg,
        at: u64,
        bus: &mut Bus<M>,
    ) -> Option<u64>
        requires at { at % 4 ≡ 0 }
        requires hart { self.old.csrs.hart < length bus.old.shared.reservations }
        ensures goes { IfSome result (λ next. Goes (atomic operation rd (reg rs1 self.old) (reg rs2 self.old)) (based at) self.old bus.old (based next) self.new bus.new) }
        ensures rest { LeavesRest result self.old bus.old self.new bus.new }
    {
        let address = self.get(rs1);
        let source = self.get(rs2);
        self.straight_exchange(operation, rd, address, source, at, bus)
    }

    /// Makes an SC.W at the address in rs1 with the value of rs2.
    #[inline]
    fn straight_sc<M: Memory>(
        &mut self,
        rd: Reg,
        rs1: Reg,
        rs2: Reg,
        at: u64,
        bus: &mut Bus<M>,
    ) -> Option<u64>
        requires at { at % 4 ≡ 0 }
        requires hart { self.old.csrs.hart < length bus.old.shared.reservations }
        ensures goes { IfSome result (λ next. Goes (store_conditional rd (reg rs1 self.old) (reg rs2 self.old)) (based at) self.old bus.old (based next) self.new bus.new) }
        ensures rest { LeavesRest result self.old bus.old self.new bus.new }
    {
        let address = self.get(rs1);
        let value = self.get(rs2);
        self.straight_store_conditional(rd, address, value, at, bus)
    }

    /// Applies an instruction, which was decoded from `word`. Returns the offset of the next instruction; none, and
    /// nothing changes, if this one leaves the path.
    #[inline(always)]
    #[tactic(auto, unfolding(crate::specs::Rows::effect, crate::specs::Straight::stays_in_ram))]
    fn apply_straight<M: Memory, const LOOP: u8>(
        &mut self,
        word: u32,
        ins: Ins,
        at: u64,
        bus: &mut Bus<M>,
    ) -> Option<u64>
        requires at { at % 4 ≡ 0 }
        requires hart { self.old.csrs.hart < length bus.old.shared.reservations }
        ensures goes { IfSome result (λ next. Goes (effect word ins) (based at) self.old bus.old (based next) self.new bus.new) }
        ensures stays { IfSome result (λ next. stays_in_ram ins (machine (at_pc (based at) self.old) bus.old) ≡ true) }
        ensures rest { LeavesRest result self.old bus.old self.new bus.new }
    {
        match ins {
            Ins::Lui { rd, imm } => self.put(rd, imm.bits() << 12, at, bus),
            Ins::Auipc { rd, imm } => self.put(
                rd,
                address_of(at).wrapping_add(imm.bits() << 12),
                at,
                bus,
            ),
            Ins::Jal { rd, offset } => self.straight_jump_by(rd, offset, at, bus),
            Ins::Jalr { rd, rs1, imm } => self.straight_jump(
                rd,
                add_signed(self.get(rs1), imm.value()) & !1,
                at,
                bus,
            ),
            Ins::Beq { rs1, rs2, offset } => self.straight_branch(
                Comparison::Eq,
                rs1,
                rs2,
                offset,
                at,
                bus,
            ),
            Ins::Bne { rs1, rs2, offset } => self.straight_branch(
                Comparison::Ne,
                rs1,
                rs2,
                offset,
                at,
                bus,
            ),
            Ins::Blt { rs1, rs2, offset } => self.straight_branch(
                Comparison::Lt,
                rs1,
                rs2,
                offset,
                at,
                bus,
            ),
            Ins::Bge { rs1, rs2, offset } => self.straight_branch(
                Comparison::Ge,
                rs1,
                rs2,
                offset,
                at,
                bus,
            ),
            Ins::Bltu { rs1, rs2, offset } => self.straight_branch(
                Comparison::Ltu,
                rs1,
                rs2,
                offset,
                at,
                bus,
            ),
            Ins::Bgeu { rs1, rs2, offset } => self.straight_branch(
                Comparison::Geu,
                rs1,
                rs2,
                offset,
                at,
                bus,
            ),
            Ins::Lb { rd, rs1, imm } => self.straight_load_signed_byte(
                rd,
                self.plus(rs1, imm),
                at,
                bus,
            ),
            Ins::Lh { rd, rs1, imm } => self.straight_load_signed_half(
                rd,
                self.plus(rs1, imm),
                at,
                bus,
            ),
            Ins::Lw { rd, rs1, imm } => self.straight_load_word(rd, self.plus(rs1, imm), at, bus),
            Ins::Lbu { rd, rs1, imm } => self.straight_load_byte(rd, self.plus(rs1, imm), at, bus),
            Ins::Lhu { rd, rs1, imm } => self.straight_load_half(rd, self.plus(rs1, imm), at, bus),
            Ins::Sb { rs1, rs2, imm } => self.straight_sb(rs1, rs2, imm, at, bus),
            Ins::Sh { rs1, rs2, imm } => self.straight_sh(rs1, rs2, imm, at, bus),
            Ins::Sw { rs1, rs2, imm } => self.straight_sw(rs1, rs2, imm, at, bus),
            Ins::Addi { rd, rs1, imm } => self.straight_immediate(
                Operation::Add,
                rd,
                rs1,
                imm,
                at,
                bus,
            ),
            Ins::Slti { rd, rs1, imm } => self.straight_immediate(
                Operation::Slt,
                rd,
                rs1,
                imm,
                at,
                bus,
            ),
            Ins::Sltiu { rd, rs1, imm } => self.straight_immediate(
                Operation::Sltu,
                rd,
                rs1,
                imm,
                at,
                bus,
            ),
            Ins::Xori { rd, rs1, imm } => self.straight_immediate(
                Operation::Xor,
                rd,
                rs1,
                imm,
                at,
                bus,
            ),
            Ins::Ori { rd, rs1, imm } => self.straight_immediate(
                Operation::Or,
                rd,
                rs1,
                imm,
                at,
                bus,
            ),
            Ins::Andi { rd, rs1, imm } => self.straight_immediate(
                Operation::And,
                rd,
                rs1,
                imm,
                at,
                bus,
            ),
            Ins::Slli { rd, rs1, amount } => self.straight_shift(
                Operation::Sll,
                rd,
                rs1,
                amount,
                at,
                bus,
            ),
            Ins::Srli { rd, rs1, amount } => self.straight_shift(
                Operation::Srl,
                rd,
                rs1,
                amount,
                at,
                bus,
            ),
            Ins::Srai { rd, rs1, amount } => self.straight_shift(
                Operation::Sra,
                rd,
                rs1,
                amount,
                at,
                bus,
            ),
            Ins::Add { rd, rs1, rs2 } => self.straight_operate(
                Operation::Add,
                rd,
                rs1,
                rs2,
                at,
                bus,
            ),
            Ins::Sub { rd, rs1, rs2 } => self.straight_operate(
                Operation::Sub,
                rd,
                rs1,
                rs2,
                at,
                bus,
            ),
            Ins::Sll { rd, rs1, rs2 } => self.straight_operate(
                Operation::Sll,
                rd,
                rs1,
                rs2,
                at,
                bus,
            ),
            Ins::Slt { rd, rs1, rs2 } => self.straight_operate(
                Operation::Slt,
                rd,
                rs1,
                rs2,
                at,
                bus,
            ),
            Ins::Sltu { rd, rs1, rs2 } => self.straight_operate(
                Operation::Sltu,
                rd,
                rs1,
                rs2,
                at,
                bus,
            ),
            Ins::Xor { rd, rs1, rs2 } => self.straight_operate(
                Operation::Xor,
                rd,
                rs1,
                rs2,
                at,
                bus,
            ),
            Ins::Srl { rd, rs1, rs2 } => self.straight_operate(
                Operation::Srl,
                rd,
                rs1,
                rs2,
                at,
                bus,
            ),
            Ins::Sra { rd, rs1, rs2 } => self.straight_operate(
                Operation::Sra,
                rd,
                rs1,
                rs2,
                at,
                bus,
            ),
            Ins::Or { rd, rs1, rs2 } => self.straight_operate(Operation::Or, rd, rs1, rs2, at, bus),
            Ins::And { rd, rs1, rs2 } => self.straight_operate(
                Operation::And,
                rd,
                rs1,
                rs2,
                at,
                bus,
            ),
            Ins::Mul { rd, rs1, rs2 } => self.straight_operate(
                Operation::Mul,
                rd,
                rs1,
                rs2,
                at,
                bus,
            ),
            Ins::Mulh { rd, rs1, rs2 } => self.straight_operate(
                Operation::Mulh,
                rd,
                rs1,
                rs2,
                at,
                bus,
            ),
            Ins::Mulhsu { rd, rs1, rs2 } => self.straight_operate(
                Operation::Mulhsu,
                rd,
                rs1,
                rs2,
                at,
                bus,
            ),
            Ins::Mulhu { rd, rs1, rs2 } => self.straight_operate(
                Operation::Mulhu,
                rd,
                rs1,
                rs2,
                at,
                bus,
            ),
            Ins::Div { rd, rs1, rs2 } => self.straight_operate(
                Operation::Div,
                rd,
                rs1,
                rs2,
                at,
                bus,
            ),
            Ins::Divu { rd, rs1, rs2 } => self.straight_operate(
                Operation::Divu,
                rd,
                rs1,
                rs2,
                at,
                bus,
            ),
            Ins::Rem { rd, rs1, rs2 } => self.straight_operate(
                Operation::Rem,
                rd,
                rs1,
                rs2,
                at,
                bus,
            ),
            Ins::Remu { rd, rs1, rs2 } => self.straight_operate(
                Operation::Remu,
                rd,
                rs1,
                rs2,
                at,
                bus,
            ),
            Ins::Fence { .. } | Ins::FenceI { .. } | Ins::Wfi => self.straight_fence(at, bus),
            Ins::LrW { rd, rs1, .. } => self.straight_load_reserved(rd, self.get(rs1), at, bus),
            Ins::ScW { rd, rs1, rs2, .. } => self.straight_sc(rd, rs1, rs2, at, bus),
            Ins::AmoswapW { rd, rs1, rs2, .. } => self.straight_amo(
                Amo::Swap,
                rd,
                rs1,
                rs2,
                at,
                bus,
            ),
            Ins::AmoaddW { rd, rs1, rs2, .. } => self.straight_amo(Amo::Add, rd, rs1, rs2, at, bus),
            Ins::AmoxorW { rd, rs1, rs2, .. } => self.straight_amo(Amo::Xor, rd, rs1, rs2, at, bus),
            Ins::AmoandW { rd, rs1, rs2, .. } => self.straight_amo(Amo::And, rd, rs1, rs2, at, bus),
            Ins::AmoorW { rd, rs1, rs2, .. } => self.straight_amo(Amo::Or, rd, rs1, rs2, at, bus),
            Ins::AmominW { rd, rs1, rs2, .. } => self.straight_amo(Amo::Min, rd, rs1, rs2, at, bus),
            Ins::AmomaxW { rd, rs1, rs2, .. } => self.straight_amo(Amo::Max, rd, rs1, rs2, at, bus),
            Ins::AmominuW { rd, rs1, rs2, .. } => self.straight_amo(
                Amo::Minu,
                rd,
                rs1,
                rs2,
                at,
                bus,
            ),
            Ins::AmomaxuW { rd, rs1, rs2, .. } => self.straight_amo(
                Amo::Maxu,
                rd,
                rs1,
                rs2,
                at,
                bus,
            ),
            _ => None,
        }
    }

    /// Runs the instruction at offset `at`, whose word was fetched. Returns the offset of the next instruction; none,
    /// and nothing changes, if this one leaves the path.
    #[inline(always)]
    pub(crate) fn straight<M: Memory, const LOOP: u8>(
        &mut self,
        decoder: Decoder,
        fetched: Option<u32>,
        at: u64,
        bus: &mut Bus<M>,
    ) -> Option<u64>
        requires at { at % 4 ≡ 0 }
        requires fetched { IfSome fetched (λ word. ram_load 4 (based at) bus.old.shared.bytes ≡ Some word) }
        requires hart { self.old.csrs.hart < length bus.old.shared.reservations }
        ensures goes { IfSome result (λ next. Goes (execute) (based at) self.old bus.old (based next) self.new bus.new) }
        ensures stays { IfSome result (λ next. is_straight (machine (at_pc (based at) self.old) bus.old) ≡ true) }
        ensures aligned { IfSome result (λ next. next % 4 ≡ 0) }
        ensures hart { IfNone result (self.new ≡ self.old) }
        ensures bus { IfNone result (bus.new ≡ bus.old) }
        ensures csrs { self.new.csrs ≡ self.old.csrs }
        ensures devices { bus.new.shared.devices ≡ bus.old.shared.devices }
        ensures reservations { length bus.new.shared.reservations ≡ length bus.old.shared.reservations }
    {
        let Some(word) = fetched else {
            return None;
        };
        let Some(ins) = decoder.decode(word) else {
            return None;
        };
        self.apply_straight::<M, LOOP>(word, ins, at, bus)
    }
}

/// The address of an offset in RAM, modulo 2 ^ 32.
#[inline(always)]
#[tactic(auto, unfolding(crate::specs::Straight::based))]
pub(crate) fn address_of(at: u64) -> u32
    ensures address { result ≡ based at }
    ensures aligned { at % 4 ≡ 0 → result % 4 ≡ 0 }
{
    ((at & 0xFFFF_FFFF) as u32).wrapping_add(RAM_BASE)
}

/// The offset of an address from RAM's first byte, modulo 2 ^ 32.
#[inline(always)]
#[tactic(auto, unfolding(crate::specs::Straight::based))]
pub(crate) fn offset_of(address: u32) -> u32
    ensures address { based result ≡ address }
    ensures aligned { result % 4 ≡ address % 4 }
{
    address.wrapping_sub(RAM_BASE)
}

/// The offset of the next instruction.
#[inline(always)]
#[tactic(auto, unfolding(crate::specs::Straight::based))]
fn next_of(at: u64) -> u64
    ensures address { based result ≡ (based at + 4) % 2 ^ 32 }
    ensures aligned { at % 4 ≡ 0 → result % 4 ≡ 0 }
{
    at.wrapping_add(4)
}

/// The sum of two offsets, if it is a multiple of four. It tests the second offset and not the sum, so that the path
/// need not keep both.
#[inline(always)]
#[tactic(auto, using(crate::proofs::Places::moved, crate::proofs::Places::moved_to_four), unfolding(crate::specs::Straight::based))]
fn moved(at: u64, offset: i32) -> Option<u64>
    requires { at % 4 ≡ 0 }
    ensures address { IfSome result (λ next. based next ≡ sum (based at) offset) }
    ensures target { IfSome result (λ next. sum (based at) offset % 4 ≡ 0) }
    ensures aligned { IfSome result (λ next. next % 4 ≡ 0) }
{
    let by = i64::from(offset).cast_unsigned();
    if by % 4 != 0 {
        return None;
    }
    Some(at.wrapping_add(by))
}
