//! The instructions, one variant for each row of the table.

use crate::field::{CsrNo, Imm5, Imm20, Reg, Shamt};
use crate::immediate::{Imm12, Off13, Off21};

/// An instruction with its fields: of RV32IMA, Zicsr or Zifencei, or mret or wfi. Each variant has
/// the manual's mnemonic (Unprivileged ISA, "RV32/64G Instruction Set Listings").
#[derive(Clone, Copy)]
pub enum Ins {
    // Upper immediates.
    Lui {
        rd: Reg,
        imm: Imm20,
    },
    Auipc {
        rd: Reg,
        imm: Imm20,
    },

    // Jumps and branches.
    Jal {
        rd: Reg,
        offset: Off21,
    },
    Jalr {
        rd: Reg,
        rs1: Reg,
        imm: Imm12,
    },
    Beq {
        rs1: Reg,
        rs2: Reg,
        offset: Off13,
    },
    Bne {
        rs1: Reg,
        rs2: Reg,
        offset: Off13,
    },
    Blt {
        rs1: Reg,
        rs2: Reg,
        offset: Off13,
    },
    Bge {
        rs1: Reg,
        rs2: Reg,
        offset: Off13,
    },
    Bltu {
        rs1: Reg,
        rs2: Reg,
        offset: Off13,
    },
    Bgeu {
        rs1: Reg,
        rs2: Reg,
        offset: Off13,
    },

    // Loads and stores.
    Lb {
        rd: Reg,
        rs1: Reg,
        imm: Imm12,
    },
    Lh {
        rd: Reg,
        rs1: Reg,
        imm: Imm12,
    },
    Lw {
        rd: Reg,
        rs1: Reg,
        imm: Imm12,
    },
    Lbu {
        rd: Reg,
        rs1: Reg,
        imm: Imm12,
    },
    Lhu {
        rd: Reg,
        rs1: Reg,
        imm: Imm12,
    },
    Sb {
        rs1: Reg,
        rs2: Reg,
        imm: Imm12,
    },
    Sh {
        rs1: Reg,
        rs2: Reg,
        imm: Imm12,
    },
    Sw {
        rs1: Reg,
        rs2: Reg,
        imm: Imm12,
    },

    // Integer computation with an immediate.
    Addi {
        rd: Reg,
        rs1: Reg,
        imm: Imm12,
    },
    Slti {
        rd: Reg,
        rs1: Reg,
        imm: Imm12,
    },
    Sltiu {
        rd: Reg,
        rs1: Reg,
        imm: Imm12,
    },
    Xori {
        rd: Reg,
        rs1: Reg,
        imm: Imm12,
    },
    Ori {
        rd: Reg,
        rs1: Reg,
        imm: Imm12,
    },
    Andi {
        rd: Reg,
        rs1: Reg,
        imm: Imm12,
    },
    Slli {
        rd: Reg,
        rs1: Reg,
        amount: Shamt,
    },
    Srli {
        rd: Reg,
        rs1: Reg,
        amount: Shamt,
    },
    Srai {
        rd: Reg,
        rs1: Reg,
        amount: Shamt,
    },

    // Integer computation on registers.
    Add {
        rd: Reg,
        rs1: Reg,
        rs2: Reg,
    },
    Sub {
        rd: Reg,
        rs1: Reg,
        rs2: Reg,
    },
    Sll {
        rd: Reg,
        rs1: Reg,
        rs2: Reg,
    },
    Slt {
        rd: Reg,
        rs1: Reg,
        rs2: Reg,
    },
    Sltu {
        rd: Reg,
        rs1: Reg,
        rs2: Reg,
    },
    Xor {
        rd: Reg,
        rs1: Reg,
        rs2: Reg,
    },
    Srl {
        rd: Reg,
        rs1: Reg,
        rs2: Reg,
    },
    Sra {
        rd: Reg,
        rs1: Reg,
        rs2: Reg,
    },
    Or {
        rd: Reg,
        rs1: Reg,
        rs2: Reg,
    },
    And {
        rd: Reg,
        rs1: Reg,
        rs2: Reg,
    },

    // Products, quotients and remainders: "M".
    Mul {
        rd: Reg,
        rs1: Reg,
        rs2: Reg,
    },
    Mulh {
        rd: Reg,
        rs1: Reg,
        rs2: Reg,
    },
    Mulhsu {
        rd: Reg,
        rs1: Reg,
        rs2: Reg,
    },
    Mulhu {
        rd: Reg,
        rs1: Reg,
        rs2: Reg,
    },
    Div {
        rd: Reg,
        rs1: Reg,
        rs2: Reg,
    },
    Divu {
        rd: Reg,
        rs1: Reg,
        rs2: Reg,
    },
    Rem {
        rd: Reg,
        rs1: Reg,
        rs2: Reg,
    },
    Remu {
        rd: Reg,
        rs1: Reg,
        rs2: Reg,
    },

    // Order of memory accesses and of instruction fetches.
    Fence {
        rd: Reg,
        rs1: Reg,
        imm: Imm12,
    },
    FenceI {
        rd: Reg,
        rs1: Reg,
        imm: Imm12,
    },

    // The environment and machine mode.
    Ecall,
    Ebreak,
    Mret,
    Wfi,

    // Control and status registers: "Zicsr".
    Csrrw {
        rd: Reg,
        rs1: Reg,
        csr: CsrNo,
    },
    Csrrs {
        rd: Reg,
        rs1: Reg,
        csr: CsrNo,
    },
    Csrrc {
        rd: Reg,
        rs1: Reg,
        csr: CsrNo,
    },
    Csrrwi {
        rd: Reg,
        imm: Imm5,
        csr: CsrNo,
    },
    Csrrsi {
        rd: Reg,
        imm: Imm5,
        csr: CsrNo,
    },
    Csrrci {
        rd: Reg,
        imm: Imm5,
        csr: CsrNo,
    },

    // Atomic accesses of words: "A".
    LrW {
        rd: Reg,
        rs1: Reg,
        aq: bool,
        rl: bool,
    },
    ScW {
        rd: Reg,
        rs1: Reg,
        rs2: Reg,
        aq: bool,
        rl: bool,
    },
    AmoswapW {
        rd: Reg,
        rs1: Reg,
        rs2: Reg,
        aq: bool,
        rl: bool,
    },
    AmoaddW {
        rd: Reg,
        rs1: Reg,
        rs2: Reg,
        aq: bool,
        rl: bool,
    },
    AmoxorW {
        rd: Reg,
        rs1: Reg,
        rs2: Reg,
        aq: bool,
        rl: bool,
    },
    AmoandW {
        rd: Reg,
        rs1: Reg,
        rs2: Reg,
        aq: bool,
        rl: bool,
    },
    AmoorW {
        rd: Reg,
        rs1: Reg,
        rs2: Reg,
        aq: bool,
        rl: bool,
    },
    AmominW {
        rd: Reg,
        rs1: Reg,
        rs2: Reg,
        aq: bool,
        rl: bool,
    },
    AmomaxW {
        rd: Reg,
        rs1: Reg,
        rs2: Reg,
        aq: bool,
        rl: bool,
    },
    AmominuW {
        rd: Reg,
        rs1: Reg,
        rs2: Reg,
        aq: bool,
        rl: bool,
    },
    AmomaxuW {
        rd: Reg,
        rs1: Reg,
        rs2: Reg,
        aq: bool,
        rl: bool,
    },
}
