//! The CSRs of one hart.

ghost use Rattle.std.specs.Prelude.{◌≡◌, ◌+◌, ◌%◌, ◌^◌, is_some, unwrap_or};
ghost use Rattle.rvm_csr.specs.Registers.{at_reset, mstatus_of};
ghost use Rattle.rvm_csr.specs.Fields.{CanBeHeld, fields_of, with_number};
ghost use Rattle.rvm_csr.specs.Table.{csr_read, csr_write, value_of, written};
ghost use Rattle.rvm_csr.specs.Traps.{trap_entered, trap_target, trap_left, pending};
ghost use Rattle.rvm_csr.specs.Counters.{ticked};

use crate::cause::{Cause, Interrupt};
use crate::counters::Counters;
use crate::fields::CsrFields;
use crate::interrupts::Interrupts;
use crate::register::{Csr, is_read_only};
use rvm_word::{bit, high_half, is_set, low_half, with_high, with_low};
use std::marker::Model;

/// The value of `misa`: 32-bit registers, and the extensions I, M and A.
const RV32IMA: u32 = 1 << 30 | 1 << 12 | 1 << 8 | 1;

/// The control and status registers of one hart.
#[derive(Drop)]
pub struct CsrFile {
    hart: u32,
    /// `mstatus.MIE`: whether interrupts are taken.
    interrupts_enabled: bool,
    /// `mstatus.MPIE`: whether they were taken before the trap.
    enabled_before: bool,
    mie: Interrupts,
    mtvec: u32,
    mscratch: u32,
    mepc: u32,
    mcause: u32,
    mtval: u32,
    counters: Counters,
}

impl Model for CsrFile {
    ghost use Rattle.rvm_csr.specs.Registers.{CsrState, IsKept};

    ghost Value = { CsrState };

    ghost use Rattle.rvm_csr.specs.File.{state_of};

    ghost view = { state_of };

    ghost invariant = { λ file. IsKept (state_of file) };
}

impl CsrFile {
    /// The CSRs of a hart after reset (Privileged ISA, "Reset"): `mhartid` is the hart's number, and all else that is
    /// kept is 0.
    pub fn new(hart: u32) -> CsrFile
        ensures { result ≡ at_reset hart }
    {
        CsrFile {
            hart,
            interrupts_enabled: false,
            enabled_before: false,
            mie: Interrupts {
                software: false,
                timer: false,
                external: false,
            },
            mtvec: 0,
            mscratch: 0,
            mepc: 0,
            mcause: 0,
            mtval: 0,
            counters: Counters::new(0, 0),
        }
    }

    /// The CSRs of hart `hart` with these values.
    pub fn restored(hart: u32, fields: CsrFields) -> CsrFile
        requires { CanBeHeld fields }
        ensures { result ≡ with_number hart fields }
    {
        CsrFile {
            hart,
            interrupts_enabled: fields.interrupts_enabled,
            enabled_before: fields.enabled_before,
            mie: fields.mie,
            mtvec: fields.mtvec,
            mscratch: fields.mscratch,
            mepc: fields.mepc,
            mcause: fields.mcause,
            mtval: fields.mtval,
            counters: Counters::new(fields.mcycle, fields.minstret),
        }
    }

    /// The values that the CSRs hold.
    pub fn fields(&self) -> CsrFields
        ensures fields { result ≡ fields_of self.now }
        ensures held { CanBeHeld result }
    {
        CsrFields {
            interrupts_enabled: self.interrupts_enabled,
            enabled_before: self.enabled_before,
            mie: self.mie,
            mtvec: self.mtvec,
            mscratch: self.mscratch,
            mepc: self.mepc,
            mcause: self.mcause,
            mtval: self.mtval,
            mcycle: self.counters.mcycle(),
            minstret: self.counters.minstret(),
        }
    }

    /// The hart's number, which `mhartid` shows.
    #[inline(always)]
    pub fn hart(&self) -> u32
        ensures { result ≡ self.now.hart }
    {
        self.hart
    }

    /// The value that an instruction reads from the CSR of this number. `mip` is what is pending at the hart now. None
    /// if the hart has no such CSR.
    #[inline]
    pub fn read(&self, number: u32, mip: Interrupts) -> Option<u32>
        ensures { result ≡ csr_read number mip self.now }
    {
        let csr = Csr::at(number)?;
        Some(self.value_of(csr, mip))
    }

    /// Writes the CSR of this number. None, and nothing changes, if the hart has no such CSR or it is read-only.
    #[inline]
    pub fn write(&mut self, number: u32, value: u32) -> Option<()>
        ensures file { self.new ≡ unwrap_or (csr_write number value self.old) self.old }
        ensures written { is_some result ≡ is_some (csr_write number value self.old) }
    {
        if is_read_only(number) {
            return None;
        }
        let csr = Csr::at(number)?;
        self.set(csr, value);
        Some(())
    }

    /// Enters a trap from the instruction at `pc`, with `value` in `mtval`. Returns the address of the handler
    /// (Privileged ISA, "Privilege and Global Interrupt-Enable Stack in mstatus register" and "Machine Trap-Vector
    /// Base-Address (mtvec) Register").
    #[inline(never)]
    pub fn enter_trap(&mut self, cause: Cause, value: u32, pc: u32) -> u32
        requires { pc % 4 ≡ 0 }
        ensures file { self.new ≡ trap_entered cause value pc self.old }
        ensures target { result ≡ trap_target cause self.old }
        ensures aligned { result % 4 ≡ 0 }
    {
        let target = self.trap_target(cause);
        self.mepc = pc;
        self.mcause = cause.number();
        self.mtval = value;
        self.enabled_before = self.interrupts_enabled;
        self.interrupts_enabled = false;
        target
    }

    /// Leaves a trap. Returns the address of the next instruction (Privileged ISA, "Trap-Return Instructions").
    pub fn mret(&mut self) -> u32
        ensures file { self.new ≡ trap_left self.old }
        ensures target { result ≡ self.old.mepc }
        ensures aligned { result % 4 ≡ 0 }
    {
        self.interrupts_enabled = self.enabled_before;
        self.enabled_before = true;
        self.mepc
    }

    /// The interrupt that the hart takes before its next instruction, if any: of those that are pending and enabled,
    /// external comes before software, software before timer. `mip` is what is pending at the hart.
    #[inline(always)]
    pub fn pending(&self, mip: Interrupts) -> Option<Interrupt>
        ensures { result ≡ pending mip self.now }
    {
        if !self.interrupts_enabled {
            None
        } else if mip.external && self.mie.external {
            Some(Interrupt::External)
        } else if mip.software && self.mie.software {
            Some(Interrupt::Software)
        } else if mip.timer && self.mie.timer {
            Some(Interrupt::Timer)
        } else {
            None
        }
    }

    /// Whether `mstatus.MIE` is set. If it is not, the hart takes no interrupt.
    #[inline(always)]
    pub fn interrupts_enabled(&self) -> bool
        ensures { result ≡ self.now.interrupts_enabled }
    {
        self.interrupts_enabled
    }

    /// Counts one step: `cycle` says whether `mcycle` rises, `instret` whether `minstret` does.
    /// Both wrap at 2^64.
    #[inline(always)]
    pub fn tick(&mut self, cycle: bool, instret: bool)
        ensures { self.new ≡ ticked cycle instret self.old }
    {
        self.counters.tick(cycle, instret);
    }

    /// Counts this many steps, each of which retired an instruction.
    #[inline(always)]
    pub fn tick_many(&mut self, steps: u32)
        ensures { self.new ≡ record self.old {
          mcycle = (self.old.mcycle + steps) % 2 ^ 64;
          minstret = (self.old.minstret + steps) % 2 ^ 64;
        } }
    {
        self.counters.tick_many(steps);
    }

    /// Whether the bit of the timer interrupt in `mie` is set.
    #[inline(always)]
    pub fn timer_is_enabled(&self) -> bool
        ensures { result ≡ self.now.mie.timer }
    {
        self.mie.timer
    }

    /// The value of a CSR as it is read. `mip` is what is pending at the hart now.
    #[inline(always)]
    pub fn value_of(&self, csr: Csr, mip: Interrupts) -> u32
        ensures { result ≡ value_of csr mip self.now }
    {
        match csr {
            Csr::Mstatus => self.mstatus(),
            Csr::Misa => RV32IMA,
            Csr::Mie => self.mie.bits(),
            Csr::Mtvec => self.mtvec,
            Csr::Mscratch => self.mscratch,
            Csr::Mepc => self.mepc,
            Csr::Mcause => self.mcause,
            Csr::Mtval => self.mtval,
            Csr::Mip => mip.bits(),
            Csr::Mcycle => low_half(self.counters.mcycle()),
            Csr::Minstret => low_half(self.counters.minstret()),
            Csr::Mcycleh => high_half(self.counters.mcycle()),
            Csr::Minstreth => high_half(self.counters.minstret()),
            Csr::Mhartid => self.hart,
            _ => 0,
        }
    }

    /// The value of `mstatus`: MIE, MPIE, and MPP, which is always 3.
    fn mstatus(&self) -> u32
        ensures { result ≡ mstatus_of self.now }
    {
        bit(1 << 3, self.interrupts_enabled) + bit(1 << 7, self.enabled_before) + (3 << 11)
    }

    /// Writes a CSR. Bits that are not writable keep their values; a CSR without writable bits ignores the write.
    #[inline(always)]
    #[tactic(auto, using(crate::proofs::Masks::and_not_2))]
    pub fn set(&mut self, csr: Csr, value: u32)
        ensures { self.new ≡ written csr value self.old }
    {
        match csr {
            Csr::Mstatus => {
                self.interrupts_enabled = is_set(value, 3);
                self.enabled_before = is_set(value, 7);
            }
            Csr::Mie => self.mie = Interrupts::from_bits(value),
            Csr::Mtvec => self.mtvec = value & !2,
            Csr::Mscratch => self.mscratch = value,
            Csr::Mepc => self.mepc = value & !3,
            Csr::Mcause => self.mcause = value,
            Csr::Mtval => self.mtval = value,
            Csr::Mcycle => {
                let counter = with_low(self.counters.mcycle(), value);
                self.set_mcycle(counter);
            }
            Csr::Minstret => {
                let counter = with_low(self.counters.minstret(), value);
                self.set_minstret(counter);
            }
            Csr::Mcycleh => {
                let counter = with_high(self.counters.mcycle(), value);
                self.set_mcycle(counter);
            }
            Csr::Minstreth => {
                let counter = with_high(self.counters.minstret(), value);
                self.set_minstret(counter);
            }
            _ => {}
        }
    }

    /// Writes `mcycle`.
    fn set_mcycle(&mut self, value: u64)
        ensures { self.new ≡ record self.old { mcycle = value } }
    {
        self.counters = Counters::new(value, self.counters.minstret());
    }

    /// Writes `minstret`.
    fn set_minstret(&mut self, value: u64)
        ensures { self.new ≡ record self.old { minstret = value } }
    {
        self.counters = Counters::new(self.counters.mcycle(), value);
    }

    /// The handler's address: the base in `mtvec`; for an interrupt in vectored mode, four bytes times its number after
    /// the base.
    fn trap_target(&self, cause: Cause) -> u32
        ensures target { result ≡ trap_target cause self.now }
        ensures aligned { result % 4 ≡ 0 }
    {
        let base = self.mtvec & !3;
        match cause {
            Cause::Interrupt(interrupt) if self.mtvec & 1 == 1 => {
                base.wrapping_add(4 * interrupt.code())
            }
            _ => base,
        }
    }
}
