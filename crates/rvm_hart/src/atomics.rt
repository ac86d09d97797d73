//! Atomic instructions (Unprivileged ISA, "A" Standard Extension). Each step is one atomic event, so aq and rl need
//! nothing more.

ghost use Rattle.std.specs.Prelude.{◌≡◌, ◌<◌, length};
ghost use Rattle.rvm_hart.specs.Outcome.{reg};
ghost use Rattle.rvm_hart.specs.Kinds.{atomic_value, atomic, load_reserved, store_conditional};
ghost use Rattle.rvm_hart.specs.Step.{Executes};

use crate::bus::Bus;
use crate::hart::Hart;
use crate::outcome::Stepped;
use rvm_csr::Exception;
use rvm_isa::Reg;
use rvm_mem::Memory;
use rvm_word::less_signed;

/// What an atomic memory operation computes, under the mnemonic of its instruction.
#[derive(Clone, Copy, Debug, PartialEq, Eq)]
pub enum Amo {
    Swap,
    Add,
    Xor,
    And,
    Or,
    Min,
    Max,
    Minu,
    Maxu,
}

impl Amo {
    /// The new word, from the old one and the value of rs2.
    #[inline]
    pub(crate) fn of(self, old: u32, source: u32) -> u32
        ensures { result ≡ atomic_value self old source }
    {
        match self {
            Amo::Swap => source,
            Amo::Add => old.wrapping_add(source),
            Amo::Xor => old ^ source,
            Amo::And => old & source,
            Amo::Or => old | source,
            Amo::Min => if less_signed(old, source) {
                old
            } else {
                source
            },
            Amo::Max => if less_signed(source, old) {
                old
            } else {
                source
            },
            Amo::Minu => if old < source { old } else { source },
            Amo::Maxu => if source < old { old } else { source },
        }
    }
}

impl Hart {
    /// Loads the word of RAM at the address in rs1 and reserves it (LR.W).
    #[inline(never)]
    pub(crate) fn load_reserved<M: Memory>(
        &mut self,
        rd: Reg,
        rs1: Reg,
        bus: &mut Bus<M>,
    ) -> Stepped
        requires { self.old.csrs.hart < length bus.old.shared.reservations }
        ensures { Executes (load_reserved rd (reg rs1 self.old)) self.old bus.old self.new bus.new result }
    {
        let address = self.get(rs1);
        if address % 4 != 0 {
            return self.trap(Exception::LoadAddressMisaligned, address, bus);
        }
        match bus.ram_load32(address) {
            Some(value) => {
                bus.hold(self.csrs.hart(), address);
                self.set_result(rd, value);
                self.retire(bus)
            }
            None => self.trap(Exception::LoadAccessFault, address, bus),
        }
    }

    /// Stores rs2 in the word of RAM at the address in rs1 if the hart has reserved this word. Puts 0 into rd if it
    /// stored, else 1. Either way the reservation ends (SC.W).
    #[inline(never)]
    pub(crate) fn store_conditional<M: Memory>(
        &mut self,
        rd: Reg,
        rs1: Reg,
        rs2: Reg,
        bus: &mut Bus<M>,
    ) -> Stepped
        requires { self.old.csrs.hart < length bus.old.shared.reservations }
        ensures { Executes (store_conditional rd (reg rs1 self.old) (reg rs2 self.old))
            self.old bus.old self.new bus.new result }
    {
        let address = self.get(rs1);
        if address % 4 != 0 {
            return self.trap(Exception::StoreAddressMisaligned, address, bus);
        }
        if bus.ram_load32(address).is_none() {
            return self.trap(Exception::StoreAccessFault, address, bus);
        }
        let hart = self.csrs.hart();
        let value = self.get(rs2);
        if !bus.take(hart, address) {
            self.set_result(rd, 1);
            return self.retire(bus);
        }
        self.set_result(rd, 0);
        let retired = self.retire(bus);
        let _ = bus.ram_store32(hart, address, value);
        retired
    }

    /// Puts the word of RAM at the address in rs1 into rd, and stores what the operation makes of that word and rs2
    /// (AMO).
    #[inline]
    pub(crate) fn amo<M: Memory>(
        &mut self,
        operation: Amo,
        rd: Reg,
        rs1: Reg,
        rs2: Reg,
        bus: &mut Bus<M>,
    ) -> Stepped
        requires { self.old.csrs.hart < length bus.old.shared.reservations }
        ensures { Executes (atomic operation rd (reg rs1 self.old) (reg rs2 self.old))
            self.old bus.old self.new bus.new result }
    {
        let address = self.get(rs1);
        let source = self.get(rs2);
        self.exchange(operation, rd, address, source, bus)
    }

    /// Makes an AMO at an address. The store comes last, so that ending reservations, which is rare, costs other steps
    /// nothing.
    #[inline(never)]
    fn exchange<M: Memory>(
        &mut self,
        operation: Amo,
        rd: Reg,
        address: u32,
        source: u32,
        bus: &mut Bus<M>,
    ) -> Stepped
        requires { self.old.csrs.hart < length bus.old.shared.reservations }
        ensures { Executes (atomic operation rd address source)
            self.old bus.old self.new bus.new result }
    {
        if address % 4 != 0 {
            return self.trap(Exception::StoreAddressMisaligned, address, bus);
        }
        match bus.ram_load32(address) {
            Some(old) => {
                self.set_result(rd, old);
                let retired = self.retire(bus);
                let _ = bus.ram_store32(self.csrs.hart(), address, operation.of(old, source));
                retired
            }
            None => self.trap(Exception::StoreAccessFault, address, bus),
        }
    }
}
