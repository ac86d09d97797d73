//! Stores (Unprivileged ISA, "Load and Store Instructions"). A misaligned address traps before an
//! access fault can.

ghost use Rattle.std.specs.Prelude.{◌≡◌, ◌%◌, ◌<◌, length};
ghost use Rattle.rvm_hart.specs.Outcome.{reg};
ghost use Rattle.rvm_hart.specs.Kinds.{sum, store_byte, store_half, store_word};
ghost use Rattle.rvm_hart.specs.Step.{Executes};

use crate::bus::Bus;
use crate::hart::Hart;
use crate::outcome::Stepped;
use rvm_csr::Exception;
use rvm_isa::{Imm12, Reg};
use rvm_mem::Memory;

impl Hart {
    /// Stores the low byte of rs2 in RAM, at the sum of rs1 and the immediate (SB).
    #[inline]
    pub(crate) fn store_byte<M: Memory>(
        &mut self,
        rs1: Reg,
        rs2: Reg,
        imm: Imm12,
        bus: &mut Bus<M>,
    ) -> Stepped
        requires { self.old.csrs.hart < length bus.old.shared.reservations }
        ensures { Executes (store_byte (sum (reg rs1 self.old) imm) (reg rs2 self.old))
            self.old bus.old self.new bus.new result }
    {
        let address = self.plus(rs1, imm);
        let value = self.get(rs2);
        if !bus.ram_store8(self.csrs.hart(), address, (value & 0xFF) as u8) {
            return self.trap(Exception::StoreAccessFault, address, bus);
        }
        self.advance();
        self.retire(bus)
    }

    /// Stores the low two bytes of rs2 in RAM, at the sum of rs1 and the immediate (SH).
    #[inline]
    pub(crate) fn store_half<M: Memory>(
        &mut self,
        rs1: Reg,
        rs2: Reg,
        imm: Imm12,
        bus: &mut Bus<M>,
    ) -> Stepped
        requires { self.old.csrs.hart < length bus.old.shared.reservations }
        ensures { Executes (store_half (sum (reg rs1 self.old) imm) (reg rs2 self.old))
            self.old bus.old self.new bus.new result }
    {
        let address = self.plus(rs1, imm);
        let value = self.get(rs2);
        if address % 2 != 0 {
            return self.trap(Exception::StoreAddressMisaligned, address, bus);
        }
        if !bus.ram_store16(self.csrs.hart(), address, (value & 0xFFFF) as u16) {
            return self.trap(Exception::StoreAccessFault, address, bus);
        }
        self.advance();
        self.retire(bus)
    }

    /// Stores rs2 in RAM or a device, at the sum of rs1 and the immediate (SW).
    #[inline]
    pub(crate) fn store_word<M: Memory>(
        &mut self,
        rs1: Reg,
        rs2: Reg,
        imm: Imm12,
        bus: &mut Bus<M>,
    ) -> Stepped
        requires { self.old.csrs.hart < length bus.old.shared.reservations }
        ensures { Executes (store_word (sum (reg rs1 self.old) imm) (reg rs2 self.old))
            self.old bus.old self.new bus.new result }
    {
        let address = self.plus(rs1, imm);
        let value = self.get(rs2);
        if address % 4 != 0 {
            return self.trap(Exception::StoreAddressMisaligned, address, bus);
        }
        if !bus.ram_store32(self.csrs.hart(), address, value) {
            return self.store_elsewhere(address, value, bus);
        }
        self.advance();
        self.retire(bus)
    }

    /// Stores a word at an aligned address, in RAM or a device.
    #[cold]
    #[inline(never)]
    fn store_elsewhere<M: Memory>(&mut self, address: u32, value: u32, bus: &mut Bus<M>) -> Stepped
        requires hart { self.old.csrs.hart < length bus.old.shared.reservations }
        requires aligned { address % 4 ≡ 0 }
        ensures { Executes (store_word address value) self.old bus.old self.new bus.new result }
    {
        match bus.store32(self.csrs.hart(), address, value) {
            Some(written) => {
                self.advance();
                self.retire_after(written, bus)
            }
            None => self.trap(Exception::StoreAccessFault, address, bus),
        }
    }
}
