//! The texts are those that other assemblers (`llvm-mc` and GNU `as`) turn into these words: a check of the definitions,
//! which the contracts stand on.

use rvm_dis::write_ins;
use rvm_refusal::LinkFault;
use std::test::Fail;

/// Words at 0x80000000, and their texts.
static WORDS: [(u32, &str); 168] = [
    // One word of each row, as LLVM's assembler has it.
    (0x100001B7, "lui gp, 0x10000"),
    (0xFFFFF517, "auipc a0, 0xfffff"),
    (0xFFDFF0EF, "jal ra, 0x7ffffffc"),
    (0xFFFC08E7, "jalr a7, -1(s8)"),
    (0x106F8063, "beq t6, t1, 0x80000100"),
    (0x41469063, "bne a3, s4, 0x80000400"),
    (0x002DC463, "blt s11, sp, 0x80000008"),
    (0x8104D063, "bge s1, a6, 0x7ffff000"),
    (0x7FEBEFE3, "bltu s7, t5, 0x80000ffe"),
    (0xFEC2FFE3, "bgeu t0, a2, 0x7ffffffe"),
    (0xFFFD0983, "lb s3, -1(s10)"),
    (0x00541083, "lh ra, 5(s0)"),
    (0x064B2783, "lw a5, 100(s6)"),
    (0xFB324E83, "lbu t4, -77(tp)"),
    (0x80095583, "lhu a1, -2048(s2)"),
    (0x7F900FA3, "sb s9, 2047(zero)"),
    (0x00771023, "sh t2, 0(a4)"),
    (0xFF5E2FA3, "sw s5, -1(t3)"),
    (0x00550193, "addi gp, a0, 5"),
    (0x064C2893, "slti a7, s8, 100"),
    (0xFB333F93, "sltiu t6, t1, -77"),
    (0x800A4693, "xori a3, s4, -2048"),
    (0x7FF16D93, "ori s11, sp, 2047"),
    (0x00087493, "andi s1, a6, 0"),
    (0x000F1B93, "slli s7, t5, 0"),
    (0x01F65293, "srli t0, a2, 31"),
    (0x407D5993, "srai s3, s10, 7"),
    (0x00F400B3, "add ra, s0, a5"),
    (0x404E8B33, "sub s6, t4, tp"),
    (0x019915B3, "sll a1, s2, s9"),
    (0x00E3A033, "slt zero, t2, a4"),
    (0x003E3AB3, "sltu s5, t3, gp"),
    (0x0188C533, "xor a0, a7, s8"),
    (0x00D35FB3, "srl t6, t1, a3"),
    (0x402DDA33, "sra s4, s11, sp"),
    (0x017864B3, "or s1, a6, s7"),
    (0x00C2FF33, "and t5, t0, a2"),
    (0x021D09B3, "mul s3, s10, ra"),
    (0x03679433, "mulh s0, a5, s6"),
    (0x02B22EB3, "mulhsu t4, tp, a1"),
    (0x020CB933, "mulhu s2, s9, zero"),
    (0x035743B3, "div t2, a4, s5"),
    (0x02A1DE33, "divu t3, gp, a0"),
    (0x03FC68B3, "rem a7, s8, t6"),
    (0x0346F333, "remu t1, a3, s4"),
    (0x0FF0000F, "fence"),
    (0x0000100F, "fence.i"),
    (0x00000073, "ecall"),
    (0x00100073, "ebreak"),
    (0x30200073, "mret"),
    (0x10500073, "wfi"),
    (0x30511DF3, "csrrw s11, 0x305, sp"),
    (0x001824F3, "csrrs s1, 0x001, a6"),
    (0xF14F3BF3, "csrrc s7, 0xf14, t5"),
    (0x300052F3, "csrrwi t0, 0x300, 0"),
    (0x7FFFE673, "csrrsi a2, 0x7ff, 31"),
    (0xC004F9F3, "csrrci s3, 0xc00, 9"),
    (0x1400AD2F, "lr.w.aq s10, (ra)"),
    (0x1AFB242F, "sc.w.rl s0, a5, (s6)"),
    (0x0E45AEAF, "amoswap.w.aqrl t4, tp, (a1)"),
    (0x0190292F, "amoadd.w s2, s9, (zero)"),
    (0x24EAA3AF, "amoxor.w.aq t2, a4, (s5)"),
    (0x62352E2F, "amoand.w.rl t3, gp, (a0)"),
    (0x478FA8AF, "amoor.w.aqrl a7, s8, (t6)"),
    (0x80DA232F, "amomin.w t1, a3, (s4)"),
    (0xA424ADAF, "amomax.w.aq s11, sp, (s1)"),
    (0xC37F282F, "amominu.w.rl a6, s7, (t5)"),
    (0xE6C9A2AF, "amomaxu.w.aqrl t0, a2, (s3)"),
    // Each row as the GNU assembler has it, with as many bits set and clear as it may have. The two fences with registers
    // have no text.
    (0x9A5C39B7, "lui s3, 0x9a5c3"),
    (0x9A5C3997, "auipc s3, 0x9a5c3"),
    (0xB2E699EF, "jal s3, 0x7ff6932e"),
    (0x9B5689E7, "jalr s3, -1611(a3)"),
    (0xE5868B63, "beq a3, s8, 0x7ffff656"),
    (0xE5869B63, "bne a3, s8, 0x7ffff656"),
    (0xE586CB63, "blt a3, s8, 0x7ffff656"),
    (0xE586DB63, "bge a3, s8, 0x7ffff656"),
    (0xE586EB63, "bltu a3, s8, 0x7ffff656"),
    (0xE586FB63, "bgeu a3, s8, 0x7ffff656"),
    (0x9B568983, "lb s3, -1611(a3)"),
    (0x9B569983, "lh s3, -1611(a3)"),
    (0x9B56A983, "lw s3, -1611(a3)"),
    (0x9B56C983, "lbu s3, -1611(a3)"),
    (0x9B56D983, "lhu s3, -1611(a3)"),
    (0x9B868AA3, "sb s8, -1611(a3)"),
    (0x9B869AA3, "sh s8, -1611(a3)"),
    (0x9B86AAA3, "sw s8, -1611(a3)"),
    (0x9B568993, "addi s3, a3, -1611"),
    (0x9B56A993, "slti s3, a3, -1611"),
    (0x9B56B993, "sltiu s3, a3, -1611"),
    (0x9B56C993, "xori s3, a3, -1611"),
    (0x9B56E993, "ori s3, a3, -1611"),
    (0x9B56F993, "andi s3, a3, -1611"),
    (0x01669993, "slli s3, a3, 22"),
    (0x0166D993, "srli s3, a3, 22"),
    (0x4166D993, "srai s3, a3, 22"),
    (0x018689B3, "add s3, a3, s8"),
    (0x418689B3, "sub s3, a3, s8"),
    (0x018699B3, "sll s3, a3, s8"),
    (0x0186A9B3, "slt s3, a3, s8"),
    (0x0186B9B3, "sltu s3, a3, s8"),
    (0x0186C9B3, "xor s3, a3, s8"),
    (0x0186D9B3, "srl s3, a3, s8"),
    (0x4186D9B3, "sra s3, a3, s8"),
    (0x0186E9B3, "or s3, a3, s8"),
    (0x0186F9B3, "and s3, a3, s8"),
    (0x038689B3, "mul s3, a3, s8"),
    (0x038699B3, "mulh s3, a3, s8"),
    (0x0386A9B3, "mulhsu s3, a3, s8"),
    (0x0386B9B3, "mulhu s3, a3, s8"),
    (0x0386C9B3, "div s3, a3, s8"),
    (0x0386D9B3, "divu s3, a3, s8"),
    (0x0386E9B3, "rem s3, a3, s8"),
    (0x0386F9B3, "remu s3, a3, s8"),
    (0x9B56898F, ".word 0x9b56898f"),
    (0x9B56998F, ".word 0x9b56998f"),
    (0x00000073, "ecall"),
    (0x00100073, "ebreak"),
    (0x30200073, "mret"),
    (0x10500073, "wfi"),
    (0xB1A699F3, "csrrw s3, 0xb1a, a3"),
    (0xB1A6A9F3, "csrrs s3, 0xb1a, a3"),
    (0xB1A6B9F3, "csrrc s3, 0xb1a, a3"),
    (0xB1AB59F3, "csrrwi s3, 0xb1a, 22"),
    (0xB1AB69F3, "csrrsi s3, 0xb1a, 22"),
    (0xB1AB79F3, "csrrci s3, 0xb1a, 22"),
    (0x1406A9AF, "lr.w.aq s3, (a3)"),
    (0x1986A9AF, "sc.w s3, s8, (a3)"),
    (0x0986A9AF, "amoswap.w s3, s8, (a3)"),
    (0x0186A9AF, "amoadd.w s3, s8, (a3)"),
    (0x2186A9AF, "amoxor.w s3, s8, (a3)"),
    (0x6186A9AF, "amoand.w s3, s8, (a3)"),
    (0x4186A9AF, "amoor.w s3, s8, (a3)"),
    (0x8186A9AF, "amomin.w s3, s8, (a3)"),
    (0xA186A9AF, "amomax.w s3, s8, (a3)"),
    (0xC186A9AF, "amominu.w s3, s8, (a3)"),
    (0xE186A9AF, "amomaxu.w s3, s8, (a3)"),
    (0x4D5960EF, "jal ra, 0x80096cd4"),
    (0x1A1116E3, "bne sp, ra, 0x800009ac"),
    (0x52112AA3, "sw ra, 1333(sp)"),
    (0x123450B7, "lui ra, 0x12345"),
    (0x40915093, "srai ra, sp, 9"),
    (0x300110F3, "csrrw ra, 0x300, sp"),
    (0x120120AF, "lr.w.rl ra, (sp)"),
    (0xE61120AF, "amomaxu.w.aqrl ra, ra, (sp)"),
    // No row; a fence of writes alone, one with total store ordering, and a fence.i with an immediate; a shift by 32.
    (0x00000000, ".word 0x00000000"),
    (0xFFFFFFFF, ".word 0xffffffff"),
    (0x0110000F, ".word 0x0110000f"),
    (0x8330000F, ".word 0x8330000f"),
    (0x0010100F, ".word 0x0010100f"),
    (0x02051513, ".word 0x02051513"),
    // lr.w with a second source, slli with a bit above its amount
    (0x1010202F, ".word 0x1010202f"),
    (0x02001013, ".word 0x02001013"),
    // or with the bit that turns add into sub, ecall with a destination
    (0x40006033, ".word 0x40006033"),
    (0x000000F3, ".word 0x000000f3"),
    // funct3 without a row: jalr, branch, load, store, fence, system, atomic
    (0x00001067, ".word 0x00001067"),
    (0x00002063, ".word 0x00002063"),
    (0x00003003, ".word 0x00003003"),
    (0x00003023, ".word 0x00003023"),
    (0x0000200F, ".word 0x0000200f"),
    (0x00004073, ".word 0x00004073"),
    (0x0000302F, ".word 0x0000302f"),
    // an atomic's funct5 without a row; sret; sfence.vma
    (0x2800202F, ".word 0x2800202f"),
    (0x10200073, ".word 0x10200073"),
    (0x12000073, ".word 0x12000073"),
    // addiw, flw, fadd.s, and the compressed c.li a0, 0
    (0x0000001B, ".word 0x0000001b"),
    (0x00002007, ".word 0x00002007"),
    (0x00000053, ".word 0x00000053"),
    (0x00004501, ".word 0x00004501"),
];

#[test]
fn each_row_and_other_words_have_their_texts(rt: HostRuntime) -> Result<(), Fail> {
    let mut written = Vec::new(rt.alloc());
    for (word, text) in WORDS.iter() {
        written.clear();
        if write_ins(0x80000000, *word, &mut written).is_err() {
            written.clear();
            write_ins(0x80000000, *word, &mut written)?;
        }
        assert!(rt; written.as_slice() == text.as_bytes(), "at {text}");
    }
    Ok(())
}

/// The first text also shows that a target is found modulo 2^32.
#[test]
fn a_slice_is_written_as_far_as_it_has_room(rt: HostRuntime) -> Result<(), Fail> {
    let mut text = [0; 24];
    let mut room = text.as_mut_slice();
    write_ins(0xFFFFFFFC, 0x008000EF, &mut room)?;
    assert!(rt; &text[..18] == b"jal ra, 0x00000004".as_slice());
    let mut little = [0; 4];
    let mut room = little.as_mut_slice();
    assert_eq!(rt; write_ins(0, 0x00000073, &mut room), Err(LinkFault));
    Ok(())
}
