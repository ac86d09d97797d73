//! The straight path: no clause says that a step of one of its rows is made there, or that harts compute.

use crate::boards::page;
use rvm_board::{Board, Debugged};
use rvm_hart::{Marks, RAM_BASE};
use rvm_mem::{FlatMemory, write_bytes};
use std::alloc::Global;
use std::process::Abort;
use std::test::Fail;

/// The number of s0, by which the rows reach RAM.
const S0: u32 = 8;

/// A word of each row, as LLVM's assembler encodes it.
#[rattlefmt::skip]
const WORDS: [u32; 58] = [
    0x1234_5537, // lui a0, 0x12345
    0x1234_5517, // auipc a0, 0x12345
    0x0080_00EF, // jal ra, 8
    0x0044_00E7, // jalr ra, 4(s0)
    0x0000_0463, // beq x0, x0, 8
    0x0004_1463, // bne s0, x0, 8
    0x0090_4463, // blt x0, s1, 8
    0x0004_D463, // bge s1, x0, 8
    0x0080_6463, // bltu x0, s0, 8
    0x0004_7463, // bgeu s0, x0, 8
    0x0014_0503, // lb a0, 1(s0)
    0x0024_1503, // lh a0, 2(s0)
    0x0044_2503, // lw a0, 4(s0)
    0x0014_4503, // lbu a0, 1(s0)
    0x0024_5503, // lhu a0, 2(s0)
    0x0094_00A3, // sb s1, 1(s0)
    0x0094_1123, // sh s1, 2(s0)
    0x0094_2223, // sw s1, 4(s0)
    0xFFF4_8513, // addi a0, s1, -1
    0xFFF4_A513, // slti a0, s1, -1
    0xFFF4_B513, // sltiu a0, s1, -1
    0xFFF4_C513, // xori a0, s1, -1
    0xFFF4_E513, // ori a0, s1, -1
    0xFFF4_F513, // andi a0, s1, -1
    0x0034_9513, // slli a0, s1, 3
    0x0034_D513, // srli a0, s1, 3
    0x4034_D513, // srai a0, s1, 3
    0x0094_0533, // add a0, s0, s1
    0x4094_0533, // sub a0, s0, s1
    0x0094_1533, // sll a0, s0, s1
    0x0094_2533, // slt a0, s0, s1
    0x0094_3533, // sltu a0, s0, s1
    0x0094_4533, // xor a0, s0, s1
    0x0094_5533, // srl a0, s0, s1
    0x4094_5533, // sra a0, s0, s1
    0x0094_6533, // or a0, s0, s1
    0x0094_7533, // and a0, s0, s1
    0x0294_0533, // mul a0, s0, s1
    0x0294_1533, // mulh a0, s0, s1
    0x0294_2533, // mulhsu a0, s0, s1
    0x0294_3533, // mulhu a0, s0, s1
    0x0294_4533, // div a0, s0, s1
    0x0294_5533, // divu a0, s0, s1
    0x0294_6533, // rem a0, s0, s1
    0x0294_7533, // remu a0, s0, s1
    0x0FF0_000F, // fence
    0x0000_100F, // fence.i
    0x1004_252F, // lr.w a0, (s0)
    0x1894_252F, // sc.w a0, s1, (s0)
    0x0894_252F, // amoswap.w a0, s1, (s0)
    0x0094_252F, // amoadd.w a0, s1, (s0)
    0x2094_252F, // amoxor.w a0, s1, (s0)
    0x6094_252F, // amoand.w a0, s1, (s0)
    0x4094_252F, // amoor.w a0, s1, (s0)
    0x8094_252F, // amomin.w a0, s1, (s0)
    0xA094_252F, // amomax.w a0, s1, (s0)
    0xC094_252F, // amominu.w a0, s1, (s0)
    0xE094_252F, // amomaxu.w a0, s1, (s0)
];

/// `jal x0, 0`: a jump to itself.
const LOOP: u32 = 0x0000_006F;

/// A board of this many harts whose next instruction is this word. The s0 of hart 0 is the middle of the page.
fn board(alloc: Global, harts: u32, word: u32) -> Result<Board<FlatMemory>, Fail> {
    let mut ram = page(alloc)?;
    write_bytes(&mut ram, 0, &word.to_le_bytes())?;
    match Board::new(alloc, harts, ram, RAM_BASE) {
        Ok(made) => {
            let mut board = made;
            board.poke_reg(0, S0, RAM_BASE + 0x800)?;
            Ok(board)
        }
        Err((error, _)) => Err(Fail::from(error)),
    }
}

#[test]
fn each_row_of_the_straight_path_is_made_there(rt: HostRuntime) -> Result<(), Fail> {
    for word in &WORDS {
        let mut board = board(rt.alloc(), 1, *word)?;
        assert!(rt; board.harts() == 1);
        assert_eq!(rt; board.run_straight::<0>(0, 1, &Marks::new(), false), 0);
    }
    Ok(())
}

#[test]
fn harts_that_compute_make_all_turns(rt: HostRuntime) -> Result<(), Fail> {
    for harts in [1, 2, 4, 8] {
        let mut guest = Debugged::new(board(rt.alloc(), harts, LOOP)?);
        assert!(rt; guest.harts() == harts);
        assert_eq!(rt; guest.compute(0, 1000), 1000);
    }
    Ok(())
}
