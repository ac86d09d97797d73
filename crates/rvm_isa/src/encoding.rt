//! From instructions to words. The numbers before the fields tell the rows of a shape apart:
//! opcode, funct3, funct7 or funct5.

ghost use Rattle.std.specs.Prelude.{◌≡◌};
ghost use Rattle.rvm_isa.specs.Words.{word_of};
ghost use Rattle.rvm_isa.specs.Table.{decoded};

use crate::field::Reg;
use crate::ins::Ins;
use crate::shape::{
    amo_word, b_word, csr_imm_word, csr_word, i_word, j_word, r_word, s_word, shift_word, u_word,
};

/// The word of an instruction.
#[tactic(auto, using(crate::proofs::Rows::opcodes), unfolding(crate::specs::Opcodes::with_opcode, crate::specs::Table::table, crate::specs::Words::word_of))]
pub fn encode(ins: &Ins) -> u32
    ensures row { decoded result ≡ Some ins.now }
    ensures word { result ≡ word_of ins.now }
{
    match *ins {
        Ins::Lui { rd, imm } => u_word(0x37, rd, imm),
        Ins::Auipc { rd, imm } => u_word(0x17, rd, imm),
        Ins::Jal { rd, offset } => j_word(0x6F, rd, offset),
        Ins::Jalr { rd, rs1, imm } => i_word(0x67, 0, rd, rs1, imm),
        Ins::Beq { rs1, rs2, offset } => b_word(0x63, 0, rs1, rs2, offset),
        Ins::Bne { rs1, rs2, offset } => b_word(0x63, 1, rs1, rs2, offset),
        Ins::Blt { rs1, rs2, offset } => b_word(0x63, 4, rs1, rs2, offset),
        Ins::Bge { rs1, rs2, offset } => b_word(0x63, 5, rs1, rs2, offset),
        Ins::Bltu { rs1, rs2, offset } => b_word(0x63, 6, rs1, rs2, offset),
        Ins::Bgeu { rs1, rs2, offset } => b_word(0x63, 7, rs1, rs2, offset),
        Ins::Lb { rd, rs1, imm } => i_word(0x03, 0, rd, rs1, imm),
        Ins::Lh { rd, rs1, imm } => i_word(0x03, 1, rd, rs1, imm),
        Ins::Lw { rd, rs1, imm } => i_word(0x03, 2, rd, rs1, imm),
        Ins::Lbu { rd, rs1, imm } => i_word(0x03, 4, rd, rs1, imm),
        Ins::Lhu { rd, rs1, imm } => i_word(0x03, 5, rd, rs1, imm),
        Ins::Sb { rs1, rs2, imm } => s_word(0x23, 0, rs1, rs2, imm),
        Ins::Sh { rs1, rs2, imm } => s_word(0x23, 1, rs1, rs2, imm),
        Ins::Sw { rs1, rs2, imm } => s_word(0x23, 2, rs1, rs2, imm),
        Ins::Addi { rd, rs1, imm } => i_word(0x13, 0, rd, rs1, imm),
        Ins::Slti { rd, rs1, imm } => i_word(0x13, 2, rd, rs1, imm),
        Ins::Sltiu { rd, rs1, imm } => i_word(0x13, 3, rd, rs1, imm),
        Ins::Xori { rd, rs1, imm } => i_word(0x13, 4, rd, rs1, imm),
        Ins::Ori { rd, rs1, imm } => i_word(0x13, 6, rd, rs1, imm),
        Ins::Andi { rd, rs1, imm } => i_word(0x13, 7, rd, rs1, imm),
        Ins::Slli { rd, rs1, amount } => shift_word(0x13, 1, 0x00, rd, rs1, amount),
        Ins::Srli { rd, rs1, amount } => shift_word(0x13, 5, 0x00, rd, rs1, amount),
        Ins::Srai { rd, rs1, amount } => shift_word(0x13, 5, 0x20, rd, rs1, amount),
        Ins::Add { rd, rs1, rs2 } => r_word(0x33, 0, 0x00, rd, rs1, rs2),
        Ins::Sub { rd, rs1, rs2 } => r_word(0x33, 0, 0x20, rd, rs1, rs2),
        Ins::Sll { rd, rs1, rs2 } => r_word(0x33, 1, 0x00, rd, rs1, rs2),
        Ins::Slt { rd, rs1, rs2 } => r_word(0x33, 2, 0x00, rd, rs1, rs2),
        Ins::Sltu { rd, rs1, rs2 } => r_word(0x33, 3, 0x00, rd, rs1, rs2),
        Ins::Xor { rd, rs1, rs2 } => r_word(0x33, 4, 0x00, rd, rs1, rs2),
        Ins::Srl { rd, rs1, rs2 } => r_word(0x33, 5, 0x00, rd, rs1, rs2),
        Ins::Sra { rd, rs1, rs2 } => r_word(0x33, 5, 0x20, rd, rs1, rs2),
        Ins::Or { rd, rs1, rs2 } => r_word(0x33, 6, 0x00, rd, rs1, rs2),
        Ins::And { rd, rs1, rs2 } => r_word(0x33, 7, 0x00, rd, rs1, rs2),
        Ins::Mul { rd, rs1, rs2 } => r_word(0x33, 0, 0x01, rd, rs1, rs2),
        Ins::Mulh { rd, rs1, rs2 } => r_word(0x33, 1, 0x01, rd, rs1, rs2),
        Ins::Mulhsu { rd, rs1, rs2 } => r_word(0x33, 2, 0x01, rd, rs1, rs2),
        Ins::Mulhu { rd, rs1, rs2 } => r_word(0x33, 3, 0x01, rd, rs1, rs2),
        Ins::Div { rd, rs1, rs2 } => r_word(0x33, 4, 0x01, rd, rs1, rs2),
        Ins::Divu { rd, rs1, rs2 } => r_word(0x33, 5, 0x01, rd, rs1, rs2),
        Ins::Rem { rd, rs1, rs2 } => r_word(0x33, 6, 0x01, rd, rs1, rs2),
        Ins::Remu { rd, rs1, rs2 } => r_word(0x33, 7, 0x01, rd, rs1, rs2),
        Ins::Fence { rd, rs1, imm } => i_word(0x0F, 0, rd, rs1, imm),
        Ins::FenceI { rd, rs1, imm } => i_word(0x0F, 1, rd, rs1, imm),
        Ins::Ecall => 0x73,
        Ins::Ebreak => 0x100073,
        Ins::Mret => 0x30200073,
        Ins::Wfi => 0x10500073,
        Ins::Csrrw { rd, rs1, csr } => csr_word(0x73, 1, rd, rs1, csr),
        Ins::Csrrs { rd, rs1, csr } => csr_word(0x73, 2, rd, rs1, csr),
        Ins::Csrrc { rd, rs1, csr } => csr_word(0x73, 3, rd, rs1, csr),
        Ins::Csrrwi { rd, imm, csr } => csr_imm_word(0x73, 5, rd, imm, csr),
        Ins::Csrrsi { rd, imm, csr } => csr_imm_word(0x73, 6, rd, imm, csr),
        Ins::Csrrci { rd, imm, csr } => csr_imm_word(0x73, 7, rd, imm, csr),
        Ins::LrW { rd, rs1, aq, rl } => amo_word(0x2F, 2, 0x02, rd, rs1, Reg::new(0), aq, rl),
        Ins::ScW {
            rd,
            rs1,
            rs2,
            aq,
            rl,
        } => amo_word(0x2F, 2, 0x03, rd, rs1, rs2, aq, rl),
        Ins::AmoswapW {
            rd,
            rs1,
            rs2,
            aq,
            rl,
        } => amo_word(0x2F, 2, 0x01, rd, rs1, rs2, aq, rl),
        Ins::AmoaddW {
            rd,
            rs1,
            rs2,
            aq,
            rl,
        } => amo_word(0x2F, 2, 0x00, rd, rs1, rs2, aq, rl),
        Ins::AmoxorW {
            rd,
            rs1,
            rs2,
            aq,
            rl,
        } => amo_word(0x2F, 2, 0x04, rd, rs1, rs2, aq, rl),
        Ins::AmoandW {
            rd,
            rs1,
            rs2,
            aq,
            rl,
        } => amo_word(0x2F, 2, 0x0C, rd, rs1, rs2, aq, rl),
        Ins::AmoorW {
            rd,
            rs1,
            rs2,
            aq,
            rl,
        } => amo_word(0x2F, 2, 0x08, rd, rs1, rs2, aq, rl),
        Ins::AmominW {
            rd,
            rs1,
            rs2,
            aq,
            rl,
        } => amo_word(0x2F, 2, 0x10, rd, rs1, rs2, aq, rl),
        Ins::AmomaxW {
            rd,
            rs1,
            rs2,
            aq,
            rl,
        } => amo_word(0x2F, 2, 0x14, rd, rs1, rs2, aq, rl),
        Ins::AmominuW {
            rd,
            rs1,
            rs2,
            aq,
            rl,
        } => amo_word(0x2F, 2, 0x18, rd, rs1, rs2, aq, rl),
        Ins::AmomaxuW {
            rd,
            rs1,
            rs2,
            aq,
            rl,
        } => amo_word(0x2F, 2, 0x1C, rd, rs1, rs2, aq, rl),
    }
}

impl PartialEq for Ins {
    ghost use Rattle.std.specs.Prelude.{◌==◌};
    ghost use Rattle.std.specs.Cmp.Rules.{comparing};
    ghost use Rattle.std.proofs.Common.{rules};
    ghost use Rattle.rvm_isa.specs.Words.{word_of};

    ghost eq = { λ a b. word_of a == word_of b };

    ghost laws = { Prim.search (comparing, rules) };

    fn eq(&self, other: &Ins) -> bool {
        encode(self) == encode(other)
    }
}

impl Eq for Ins {
    ghost use Rattle.std.specs.Cmp.Rules.{comparing};
    ghost use Rattle.std.proofs.Common.{rules};

    ghost laws = { Prim.search (comparing, rules) };
}
