//! The instructions that read and write control and status registers (Unprivileged ISA, "Zicsr").

ghost use Rattle.std.specs.Prelude.{◌≡◌, ◌<◌, length};
ghost use Rattle.rvm_csr.specs.Table.{value_of};
ghost use Rattle.rvm_hart.specs.Bus.{mip_of};
ghost use Rattle.rvm_hart.specs.Outcome.{reg};
ghost use Rattle.rvm_hart.specs.Kinds.{access_csr, changed_value, change_csr, read_csr, writes, wrote_csr};
ghost use Rattle.rvm_hart.specs.Step.{Executes};
ghost use Rattle.rvm_hart.specs.declared.csrs.CsrChange.TheVariants.{Clear, Set, Write};

use crate::bus::Bus;
use crate::hart::Hart;
use crate::outcome::{Stepped, Written};
use rvm_csr::{Csr, Exception, Interrupts, is_read_only};
use rvm_isa::{CsrNo, Imm5, Reg};
use rvm_mem::Memory;

/// How an instruction changes a control and status register.
#[derive(Clone, Copy, Debug, PartialEq, Eq)]
pub enum CsrChange {
    /// To the source.
    Write,
    /// To the old value with the source's bits set.
    Set,
    /// To the old value with the source's bits cleared.
    Clear,
}

impl CsrChange {
    /// The new value, from the old one and the source.
    #[inline]
    fn of(self, old: u32, source: u32) -> u32
        ensures { result ≡ changed_value self old source }
    {
        match self {
            CsrChange::Write => source,
            CsrChange::Set => old | source,
            CsrChange::Clear => old & !source,
        }
    }
}

/// What a write to the register of this number wrote: a counter of which it wrote a half does not rise in that step.
#[inline]
fn written_by(number: u32) -> Written
    ensures { result ≡ wrote_csr number }
{
    match number {
        0xB00 | 0xB80 => Written::Mcycle,
        0xB02 | 0xB82 => Written::Minstret,
        _ => Written::Other,
    }
}

impl CsrChange {
    /// Whether the instruction writes. It does not if it sets or clears bits and its source field is 0.
    #[inline]
    fn writes(self, field: u32) -> bool
        ensures { result ≡ writes self field }
    {
        match self {
            CsrChange::Write => true,
            CsrChange::Set | CsrChange::Clear => field != 0,
        }
    }
}

impl Hart {
    /// Puts the old value of a CSR into rd and changes the CSR by rs1 (CSRRW, CSRRS, CSRRC). `word` is the
    /// instruction's own, for mtval. Traps if there is no such CSR, or it is read-only and would be written.
    #[inline]
    pub(crate) fn change_csr<M: Memory>(
        &mut self,
        word: u32,
        change: CsrChange,
        rd: Reg,
        rs1: Reg,
        csr: CsrNo,
        bus: &mut Bus<M>,
    ) -> Stepped
        requires { self.old.csrs.hart < length bus.old.shared.devices.msip }
        ensures { Executes (access_csr word rd csr change rs1 (reg rs1 self.old))
            self.old bus.old self.new bus.new result }
    {
        let source = self.get(rs1);
        self.access_csr(word, change, rd, rs1.bits(), source, csr, bus)
    }

    /// Puts the old value of a CSR into rd and changes the CSR by the number in the field of rs1 (CSRRWI, CSRRSI,
    /// CSRRCI).
    #[inline]
    pub(crate) fn change_csr_immediate<M: Memory>(
        &mut self,
        word: u32,
        change: CsrChange,
        rd: Reg,
        imm: Imm5,
        csr: CsrNo,
        bus: &mut Bus<M>,
    ) -> Stepped
        requires { self.old.csrs.hart < length bus.old.shared.devices.msip }
        ensures { Executes (access_csr word rd csr change imm imm)
            self.old bus.old self.new bus.new result }
    {
        self.access_csr(word, change, rd, imm.bits(), imm.bits(), csr, bus)
    }

    /// Puts the old value of a CSR into rd and changes the CSR by a source, unless the change and the source field say
    /// that it is only read.
    #[inline]
    fn access_csr<M: Memory>(
        &mut self,
        word: u32,
        change: CsrChange,
        rd: Reg,
        field: u32,
        source: u32,
        csr: CsrNo,
        bus: &mut Bus<M>,
    ) -> Stepped
        requires { self.old.csrs.hart < length bus.old.shared.devices.msip }
        ensures { Executes (access_csr word rd csr change field source)
            self.old bus.old self.new bus.new result }
    {
        if !change.writes(field) {
            return self.read_csr(rd, csr, bus, word);
        }
        match change {
            CsrChange::Write => self.write_csr(rd, source, csr, bus, word),
            CsrChange::Set => self.set_csr(rd, source, csr, bus, word),
            CsrChange::Clear => self.clear_csr(rd, source, csr, bus, word),
        }
    }

    /// Puts the value of a CSR into rd. Traps if there is no such CSR.
    #[inline(never)]
    fn read_csr<M: Memory>(&mut self, rd: Reg, csr: CsrNo, bus: &mut Bus<M>, word: u32) -> Stepped
        requires { self.old.csrs.hart < length bus.old.shared.devices.msip }
        ensures { Executes (read_csr word rd csr) self.old bus.old self.new bus.new result }
    {
        let Some(register) = Csr::at(csr.bits()) else {
            return self.trap(Exception::IllegalInstruction, word, bus);
        };
        let value = self.csr_value(register, bus);
        self.set_result(rd, value);
        self.retire(bus)
    }

    /// The value of a CSR.
    #[inline(always)]
    fn csr_value<M: Memory>(&self, register: Csr, bus: &Bus<M>) -> u32
        requires { self.now.csrs.hart < length bus.now.shared.devices.msip }
        ensures { result ≡ value_of register (mip_of self.now.csrs.hart bus.now.shared.devices) self.now.csrs }
    {
        let pending = self.shown_as_pending(register, bus);
        self.csrs.value_of(register, pending)
    }

    /// The interrupts that a CSR shows as pending. Only mip shows any, so they are looked up for it alone.
    #[inline(always)]
    fn shown_as_pending<M: Memory>(&self, register: Csr, bus: &Bus<M>) -> Interrupts
        requires { self.now.csrs.hart < length bus.now.shared.devices.msip }
        ensures { value_of register result self.now.csrs
            ≡ value_of register (mip_of self.now.csrs.hart bus.now.shared.devices) self.now.csrs }
    {
        match register {
            Csr::Mip => bus.interrupts(self.csrs.hart()),
            _ => Interrupts::from_bits(0),
        }
    }

    /// Puts the old value of a CSR into rd and writes the source to it.
    #[inline(never)]
    fn write_csr<M: Memory>(
        &mut self,
        rd: Reg,
        source: u32,
        csr: CsrNo,
        bus: &mut Bus<M>,
        word: u32,
    ) -> Stepped
        requires { self.old.csrs.hart < length bus.old.shared.devices.msip }
        ensures { Executes (change_csr word rd csr Write source)
            self.old bus.old self.new bus.new result }
    {
        self.exchange_csr(CsrChange::Write, rd, source, csr, bus, word)
    }

    /// Puts the old value of a CSR into rd and sets the source's bits in it.
    #[inline(never)]
    fn set_csr<M: Memory>(
        &mut self,
        rd: Reg,
        source: u32,
        csr: CsrNo,
        bus: &mut Bus<M>,
        word: u32,
    ) -> Stepped
        requires { self.old.csrs.hart < length bus.old.shared.devices.msip }
        ensures { Executes (change_csr word rd csr Set source)
            self.old bus.old self.new bus.new result }
    {
        self.exchange_csr(CsrChange::Set, rd, source, csr, bus, word)
    }

    /// Puts the old value of a CSR into rd and clears the source's bits in it.
    #[inline(never)]
    fn clear_csr<M: Memory>(
        &mut self,
        rd: Reg,
        source: u32,
        csr: CsrNo,
        bus: &mut Bus<M>,
        word: u32,
    ) -> Stepped
        requires { self.old.csrs.hart < length bus.old.shared.devices.msip }
        ensures { Executes (change_csr word rd csr Clear source)
            self.old bus.old self.new bus.new result }
    {
        self.exchange_csr(CsrChange::Clear, rd, source, csr, bus, word)
    }

    /// Puts the old value of a CSR into rd and changes the CSR. Traps if there is no such CSR or it is read-only.
    /// Inlined for a known change, it has one jump by the register.
    #[inline(always)]
    fn exchange_csr<M: Memory>(
        &mut self,
        change: CsrChange,
        rd: Reg,
        source: u32,
        csr: CsrNo,
        bus: &mut Bus<M>,
        word: u32,
    ) -> Stepped
        requires { self.old.csrs.hart < length bus.old.shared.devices.msip }
        ensures { Executes (change_csr word rd csr change source)
            self.old bus.old self.new bus.new result }
    {
        let number = csr.bits();
        if is_read_only(number) {
            return self.trap(Exception::IllegalInstruction, word, bus);
        }
        let Some(register) = Csr::at(number) else {
            return self.trap(Exception::IllegalInstruction, word, bus);
        };
        let old = self.csr_value(register, bus);
        self.csrs.set(register, change.of(old, source));
        self.set_result(rd, old);
        match written_by(number) {
            Written::Other => self.retire(bus),
            counter => self.retire_after(counter, bus),
        }
    }
}
