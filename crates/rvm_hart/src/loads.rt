//! Loads (Unprivileged ISA, "Load and Store Instructions"). A misaligned address traps before an
//! access fault can.

ghost use Rattle.std.specs.Prelude.{◌≡◌, ◌%◌};
ghost use Rattle.rvm_hart.specs.Outcome.{reg};
ghost use Rattle.rvm_hart.specs.Kinds.{sum, load_byte, load_half, load_word};
ghost use Rattle.rvm_hart.specs.Step.{Executes};
ghost use Rattle.rvm_hart.specs.Rows.{sign_extended_byte, sign_extended_half, zero_extended};

use crate::bus::Bus;
use crate::hart::Hart;
use crate::outcome::Stepped;
use rvm_csr::Exception;
use rvm_isa::{Imm12, Reg};
use rvm_mem::Memory;
use rvm_word::sext;

impl Hart {
    /// Loads a byte of RAM, sign-extended, from the sum of rs1 and the immediate (LB).
    #[inline]
    pub(crate) fn load_signed_byte<M: Memory>(
        &mut self,
        rd: Reg,
        rs1: Reg,
        imm: Imm12,
        bus: &mut Bus<M>,
    ) -> Stepped
        ensures { Executes (load_byte sign_extended_byte rd (sum (reg rs1 self.old) imm))
            self.old bus.old self.new bus.new result }
    {
        let address = self.plus(rs1, imm);
        match bus.ram_load8(address) {
            Some(value) => {
                self.set_result(rd, sext(u32::from(value), 8));
                self.retire(bus)
            }
            None => self.trap(Exception::LoadAccessFault, address, bus),
        }
    }

    /// Loads a byte of RAM, zero-extended, from the sum of rs1 and the immediate (LBU).
    #[inline]
    pub(crate) fn load_byte<M: Memory>(
        &mut self,
        rd: Reg,
        rs1: Reg,
        imm: Imm12,
        bus: &mut Bus<M>,
    ) -> Stepped
        ensures { Executes (load_byte zero_extended rd (sum (reg rs1 self.old) imm))
            self.old bus.old self.new bus.new result }
    {
        let address = self.plus(rs1, imm);
        match bus.ram_load8(address) {
            Some(value) => {
                self.set_result(rd, u32::from(value));
                self.retire(bus)
            }
            None => self.trap(Exception::LoadAccessFault, address, bus),
        }
    }

    /// Loads two bytes of RAM, sign-extended, from the sum of rs1 and the immediate (LH).
    #[inline]
    pub(crate) fn load_signed_half<M: Memory>(
        &mut self,
        rd: Reg,
        rs1: Reg,
        imm: Imm12,
        bus: &mut Bus<M>,
    ) -> Stepped
        ensures { Executes (load_half sign_extended_half rd (sum (reg rs1 self.old) imm))
            self.old bus.old self.new bus.new result }
    {
        let address = self.plus(rs1, imm);
        if address % 2 != 0 {
            return self.trap(Exception::LoadAddressMisaligned, address, bus);
        }
        match bus.ram_load16(address) {
            Some(value) => {
                self.set_result(rd, sext(u32::from(value), 16));
                self.retire(bus)
            }
            None => self.trap(Exception::LoadAccessFault, address, bus),
        }
    }

    /// Loads two bytes of RAM, zero-extended, from the sum of rs1 and the immediate (LHU).
    #[inline]
    pub(crate) fn load_half<M: Memory>(
        &mut self,
        rd: Reg,
        rs1: Reg,
        imm: Imm12,
        bus: &mut Bus<M>,
    ) -> Stepped
        ensures { Executes (load_half zero_extended rd (sum (reg rs1 self.old) imm))
            self.old bus.old self.new bus.new result }
    {
        let address = self.plus(rs1, imm);
        if address % 2 != 0 {
            return self.trap(Exception::LoadAddressMisaligned, address, bus);
        }
        match bus.ram_load16(address) {
            Some(value) => {
                self.set_result(rd, u32::from(value));
                self.retire(bus)
            }
            None => self.trap(Exception::LoadAccessFault, address, bus),
        }
    }

    /// Loads a word of RAM or a device from the sum of rs1 and the immediate (LW).
    #[inline]
    pub(crate) fn load_word<M: Memory>(
        &mut self,
        rd: Reg,
        rs1: Reg,
        imm: Imm12,
        bus: &mut Bus<M>,
    ) -> Stepped
        ensures { Executes (load_word rd (sum (reg rs1 self.old) imm))
            self.old bus.old self.new bus.new result }
    {
        let address = self.plus(rs1, imm);
        if address % 4 != 0 {
            return self.trap(Exception::LoadAddressMisaligned, address, bus);
        }
        match bus.ram_load32(address) {
            Some(value) => {
                self.set_result(rd, value);
                self.retire(bus)
            }
            None => self.load_elsewhere(rd, address, bus),
        }
    }

    /// Loads the word at an aligned address, of RAM or a device.
    #[cold]
    #[inline(never)]
    fn load_elsewhere<M: Memory>(&mut self, rd: Reg, address: u32, bus: &mut Bus<M>) -> Stepped
        requires { address % 4 ≡ 0 }
        ensures { Executes (load_word rd address) self.old bus.old self.new bus.new result }
    {
        match bus.load32(address) {
            Some(value) => {
                self.set_result(rd, value);
                self.retire(bus)
            }
            None => self.trap(Exception::LoadAccessFault, address, bus),
        }
    }
}
