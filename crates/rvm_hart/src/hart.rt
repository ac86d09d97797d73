//! A hart's registers.

ghost use Rattle.std.specs.Prelude.{◌≡◌, ◌%◌, length, drop, replicate, slice_set, ◌≤◌};
ghost use Rattle.rvm_csr.specs.Registers.{at_reset};
ghost use Rattle.rvm_csr.specs.Traps.{trap_left};
ghost use Rattle.rvm_hart.specs.Machine.{HartState};
ghost use Rattle.rvm_hart.specs.Outcome.{reg, with_result, at_next};
ghost use Rattle.rvm_hart.specs.Kinds.{sum};
ghost use Rattle.rvm_hart.specs.Pokes.{register_poked};
ghost use Rattle.rvm_hart.specs.Fields.{CanBeHeld, fields_of, with_number};

use crate::fields::HartFields;
use rvm_csr::CsrFile;
use rvm_isa::{Imm12, Reg};
use rvm_word::add_signed;
use std::marker::Model;

/// The number by which pc is set from outside; x0 to x31 have 0 to 31.
pub const PC: u32 = 32;

/// One hart: x0 to x31, pc and the control and status registers.
#[derive(Drop)]
pub struct Hart {
    pub(crate) regs: [u32; 32],
    pub(crate) pc: u32,
    pub(crate) csrs: CsrFile,
}

impl Model for Hart {
    ghost use Rattle.std.specs.Prelude.{◌≡◌, ◌%◌, slice_index};
    ghost use Rattle.rvm_hart.specs.Machine.{HartState};

    ghost Value = { HartState };

    ghost view = { λ h. record { regs = h.regs; pc = h.pc; csrs = h.csrs } };

    ghost invariant = { λ h. (h.pc % 4 ≡ 0) × (slice_index h.regs 0 ≡ 0) };
}

impl Hart {
    /// Hart `number` after reset (Privileged ISA, "Reset"): it starts at `entry` with its number in
    /// a0; its other registers are 0, and its CSRs are those of `CsrFile::new`.
    pub fn new(number: u32, entry: u32) -> Hart
        requires { entry % 4 ≡ 0 }
        ensures { result ≡ record {
          regs = slice_set (replicate 32 0) 10 number;
          pc = entry;
          csrs = at_reset number;
        } }
    {
        let mut regs = [0; 32];
        regs[10] = number;
        Hart {
            regs,
            pc: entry,
            csrs: CsrFile::new(number),
        }
    }

    /// Hart `number` with these values.
    pub fn restored(number: u32, fields: HartFields) -> Hart
        requires { CanBeHeld fields }
        ensures { result ≡ with_number number fields }
    {
        let mut regs = [0; 32];
        regs[1..].copy_from_slice(&fields.registers);
        Hart {
            regs,
            pc: fields.pc,
            csrs: CsrFile::restored(number, fields.csrs),
        }
    }

    /// The values that the hart keeps.
    pub fn fields(&self) -> HartFields
        ensures fields { result ≡ fields_of self.now }
        ensures held { CanBeHeld result }
        ensures whole { with_number self.now.csrs.hart result ≡ self.now }
    {
        HartFields {
            registers: behind_x0(&self.regs),
            pc: self.pc,
            csrs: self.csrs.fields(),
        }
    }

    /// Registers x0 to x31, in order.
    pub fn registers(&self) -> &[u32; 32]
        ensures { result.now ≡ self.now.regs }
    {
        &self.regs
    }

    /// The address of the next instruction.
    #[inline(always)]
    pub fn pc(&self) -> u32
        ensures { result ≡ self.now.pc }
    {
        self.pc
    }

    /// The value of a register.
    #[inline(always)]
    pub(crate) fn get(&self, register: Reg) -> u32
        ensures { result ≡ reg register self.now }
    {
        self.regs[register.index()]
    }

    /// The sum of a register and an immediate: the address of a load or store.
    #[inline(always)]
    pub(crate) fn plus(&self, rs1: Reg, imm: Imm12) -> u32
        ensures { result ≡ sum (reg rs1 self.now) imm }
    {
        add_signed(self.get(rs1), imm.value())
    }

    /// Writes a register and goes on to the next instruction. A write to x0 is dropped.
    #[inline(always)]
    pub(crate) fn set_result(&mut self, rd: Reg, value: u32)
        ensures { self.new ≡ with_result rd value self.old }
    {
        self.regs[rd.index()] = value;
        self.regs[0] = 0;
        self.pc = self.pc.wrapping_add(4);
    }

    /// Goes on to the next instruction.
    #[inline(always)]
    pub(crate) fn advance(&mut self)
        ensures { self.new ≡ at_next self.old }
    {
        self.pc = self.pc.wrapping_add(4);
    }

    /// Sets pc and mstatus to return from a trap (MRET).
    #[inline(never)]
    pub(crate) fn mret(&mut self)
        ensures { self.new
            ≡ record self.old { pc = self.old.csrs.mepc; csrs = trap_left self.old.csrs } }
    {
        self.pc = self.csrs.mret();
    }

    /// Sets a register from outside: x0 to x31 by 0 to 31, or pc by 32. Bits 1 and 0 of pc are
    /// cleared; a write to x0 is dropped.
    pub fn poke(&mut self, register: u32, value: u32)
        requires { register ≤ 32 }
        ensures { self.new ≡ register_poked register value self.old }
    {
        if register == PC {
            self.pc = value & !3;
        } else if register != 0 {
            self.regs[register as usize] = value;
        }
    }
}

/// Registers x1 to x31, of x0 to x31.
fn behind_x0(regs: &[u32; 32]) -> [u32; 31]
    ensures registers { result ≡ drop 1 regs.now }
    ensures length { length regs.now ≡ 32 }
{
    let mut registers = [0; 31];
    registers.copy_from_slice(&regs[1..]);
    registers
}
