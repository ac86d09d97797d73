//! What each row of the instruction table does.

ghost use Rattle.std.specs.Prelude.{◌<◌, length};
ghost use Rattle.rvm_hart.specs.Outcome.{done_with, done};
ghost use Rattle.rvm_hart.specs.Rows.{effect, trap_return};
ghost use Rattle.rvm_hart.specs.Step.{Executes};

use crate::arithmetic::Operation;
use crate::atomics::Amo;
use crate::bus::Bus;
use crate::csrs::CsrChange;
use crate::hart::Hart;
use crate::jumps::Comparison;
use crate::outcome::Stepped;
use rvm_csr::Exception;
use rvm_isa::{Ins, Reg};
use rvm_mem::Memory;

impl Hart {
    /// Retires an instruction, with its result in rd.
    #[inline]
    fn finish_with<M: Memory>(&mut self, rd: Reg, value: u32, bus: &mut Bus<M>) -> Stepped
        ensures { Executes (done_with rd value) self.old bus.old self.new bus.new result }
    {
        self.set_result(rd, value);
        self.retire(bus)
    }

    /// Retires an instruction that does nothing but go on to the next.
    #[inline]
    fn finish<M: Memory>(&mut self, bus: &mut Bus<M>) -> Stepped
        ensures { Executes done self.old bus.old self.new bus.new result }
    {
        self.advance();
        self.retire(bus)
    }

    /// Returns from a trap and retires (MRET).
    #[inline(never)]
    fn return_from_trap<M: Memory>(&mut self, bus: &mut Bus<M>) -> Stepped
        ensures { Executes trap_return self.old bus.old self.new bus.new result }
    {
        self.mret();
        self.retire(bus)
    }

    /// Makes the step of an instruction, which was decoded from `word`.
    #[inline(always)]
    #[tactic(auto, unfolding(crate::specs::Rows::effect))]
    pub(crate) fn apply<M: Memory>(&mut self, word: u32, ins: Ins, bus: &mut Bus<M>) -> Stepped
        requires reservation { self.old.csrs.hart < length bus.old.shared.reservations }
        requires devices { self.old.csrs.hart < length bus.old.shared.devices.msip }
        ensures { Executes (effect word ins) self.old bus.old self.new bus.new result }
    {
        match ins {
            Ins::Lui { rd, imm } => self.finish_with(rd, imm.bits() << 12, bus),
            Ins::Auipc { rd, imm } => self.finish_with(
                rd,
                self.pc.wrapping_add(imm.bits() << 12),
                bus,
            ),
            Ins::Jal { rd, offset } => self.jump_to_offset(rd, offset, bus),
            Ins::Jalr { rd, rs1, imm } => self.jump_to_register(rd, rs1, imm, bus),
            Ins::Beq { rs1, rs2, offset } => self.branch(Comparison::Eq, rs1, rs2, offset, bus),
            Ins::Bne { rs1, rs2, offset } => self.branch(Comparison::Ne, rs1, rs2, offset, bus),
            Ins::Blt { rs1, rs2, offset } => self.branch(Comparison::Lt, rs1, rs2, offset, bus),
            Ins::Bge { rs1, rs2, offset } => self.branch(Comparison::Ge, rs1, rs2, offset, bus),
            Ins::Bltu { rs1, rs2, offset } => self.branch(Comparison::Ltu, rs1, rs2, offset, bus),
            Ins::Bgeu { rs1, rs2, offset } => self.branch(Comparison::Geu, rs1, rs2, offset, bus),
            Ins::Lb { rd, rs1, imm } => self.load_signed_byte(rd, rs1, imm, bus),
            Ins::Lh { rd, rs1, imm } => self.load_signed_half(rd, rs1, imm, bus),
            Ins::Lw { rd, rs1, imm } => self.load_word(rd, rs1, imm, bus),
            Ins::Lbu { rd, rs1, imm } => self.load_byte(rd, rs1, imm, bus),
            Ins::Lhu { rd, rs1, imm } => self.load_half(rd, rs1, imm, bus),
            Ins::Sb { rs1, rs2, imm } => self.store_byte(rs1, rs2, imm, bus),
            Ins::Sh { rs1, rs2, imm } => self.store_half(rs1, rs2, imm, bus),
            Ins::Sw { rs1, rs2, imm } => self.store_word(rs1, rs2, imm, bus),
            Ins::Addi { rd, rs1, imm } => self.operate_immediate(Operation::Add, rd, rs1, imm, bus),
            Ins::Slti { rd, rs1, imm } => self.operate_immediate(Operation::Slt, rd, rs1, imm, bus),
            Ins::Sltiu { rd, rs1, imm } => self.operate_immediate(
                Operation::Sltu,
                rd,
                rs1,
                imm,
                bus,
            ),
            Ins::Xori { rd, rs1, imm } => self.operate_immediate(Operation::Xor, rd, rs1, imm, bus),
            Ins::Ori { rd, rs1, imm } => self.operate_immediate(Operation::Or, rd, rs1, imm, bus),
            Ins::Andi { rd, rs1, imm } => self.operate_immediate(Operation::And, rd, rs1, imm, bus),
            Ins::Slli { rd, rs1, amount } => self.shift(Operation::Sll, rd, rs1, amount, bus),
            Ins::Srli { rd, rs1, amount } => self.shift(Operation::Srl, rd, rs1, amount, bus),
            Ins::Srai { rd, rs1, amount } => self.shift(Operation::Sra, rd, rs1, amount, bus),
            Ins::Add { rd, rs1, rs2 } => self.operate(Operation::Add, rd, rs1, rs2, bus),
            Ins::Sub { rd, rs1, rs2 } => self.operate(Operation::Sub, rd, rs1, rs2, bus),
            Ins::Sll { rd, rs1, rs2 } => self.operate(Operation::Sll, rd, rs1, rs2, bus),
            Ins::Slt { rd, rs1, rs2 } => self.operate(Operation::Slt, rd, rs1, rs2, bus),
            Ins::Sltu { rd, rs1, rs2 } => self.operate(Operation::Sltu, rd, rs1, rs2, bus),
            Ins::Xor { rd, rs1, rs2 } => self.operate(Operation::Xor, rd, rs1, rs2, bus),
            Ins::Srl { rd, rs1, rs2 } => self.operate(Operation::Srl, rd, rs1, rs2, bus),
            Ins::Sra { rd, rs1, rs2 } => self.operate(Operation::Sra, rd, rs1, rs2, bus),
            Ins::Or { rd, rs1, rs2 } => self.operate(Operation::Or, rd, rs1, rs2, bus),
            Ins::And { rd, rs1, rs2 } => self.operate(Operation::And, rd, rs1, rs2, bus),
            Ins::Mul { rd, rs1, rs2 } => self.operate(Operation::Mul, rd, rs1, rs2, bus),
            Ins::Mulh { rd, rs1, rs2 } => self.operate(Operation::Mulh, rd, rs1, rs2, bus),
            Ins::Mulhsu { rd, rs1, rs2 } => self.operate(Operation::Mulhsu, rd, rs1, rs2, bus),
            Ins::Mulhu { rd, rs1, rs2 } => self.operate(Operation::Mulhu, rd, rs1, rs2, bus),
            Ins::Div { rd, rs1, rs2 } => self.operate(Operation::Div, rd, rs1, rs2, bus),
            Ins::Divu { rd, rs1, rs2 } => self.operate(Operation::Divu, rd, rs1, rs2, bus),
            Ins::Rem { rd, rs1, rs2 } => self.operate(Operation::Rem, rd, rs1, rs2, bus),
            Ins::Remu { rd, rs1, rs2 } => self.operate(Operation::Remu, rd, rs1, rs2, bus),
            Ins::Fence { .. } | Ins::FenceI { .. } | Ins::Wfi => self.finish(bus),
            Ins::Ecall => self.trap(Exception::EnvironmentCall, 0, bus),
            Ins::Ebreak => self.trap(Exception::Breakpoint, 0, bus),
            Ins::Mret => self.return_from_trap(bus),
            Ins::Csrrw { rd, rs1, csr } => self.change_csr(
                word,
                CsrChange::Write,
                rd,
                rs1,
                csr,
                bus,
            ),
            Ins::Csrrs { rd, rs1, csr } => self.change_csr(word, CsrChange::Set, rd, rs1, csr, bus),
            Ins::Csrrc { rd, rs1, csr } => self.change_csr(
                word,
                CsrChange::Clear,
                rd,
                rs1,
                csr,
                bus,
            ),
            Ins::Csrrwi { rd, imm, csr } => self.change_csr_immediate(
                word,
                CsrChange::Write,
                rd,
                imm,
                csr,
                bus,
            ),
            Ins::Csrrsi { rd, imm, csr } => self.change_csr_immediate(
                word,
                CsrChange::Set,
                rd,
                imm,
                csr,
                bus,
            ),
            Ins::Csrrci { rd, imm, csr } => self.change_csr_immediate(
                word,
                CsrChange::Clear,
                rd,
                imm,
                csr,
                bus,
            ),
            Ins::LrW { rd, rs1, .. } => self.load_reserved(rd, rs1, bus),
            Ins::ScW { rd, rs1, rs2, .. } => self.store_conditional(rd, rs1, rs2, bus),
            Ins::AmoswapW { rd, rs1, rs2, .. } => self.amo(Amo::Swap, rd, rs1, rs2, bus),
            Ins::AmoaddW { rd, rs1, rs2, .. } => self.amo(Amo::Add, rd, rs1, rs2, bus),
            Ins::AmoxorW { rd, rs1, rs2, .. } => self.amo(Amo::Xor, rd, rs1, rs2, bus),
            Ins::AmoandW { rd, rs1, rs2, .. } => self.amo(Amo::And, rd, rs1, rs2, bus),
            Ins::AmoorW { rd, rs1, rs2, .. } => self.amo(Amo::Or, rd, rs1, rs2, bus),
            Ins::AmominW { rd, rs1, rs2, .. } => self.amo(Amo::Min, rd, rs1, rs2, bus),
            Ins::AmomaxW { rd, rs1, rs2, .. } => self.amo(Amo::Max, rd, rs1, rs2, bus),
            Ins::AmominuW { rd, rs1, rs2, .. } => self.amo(Amo::Minu, rd, rs1, rs2, bus),
            Ins::AmomaxuW { rd, rs1, rs2, .. } => self.amo(Amo::Maxu, rd, rs1, rs2, bus),
        }
    }
}
