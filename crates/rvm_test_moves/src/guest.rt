//! A guest that counts, and what it sends.

use rvm_command::asm_command::asm_command;
use std::alloc::Global;
use std::io::Write;

/// How many numbers the guest sends.
pub const COUNT: u32 = 400;

/// Sends the numbers from 0 on, four hexadecimal digits and a line feed each, pauses after each, and halts.
const SOURCE: &str = "\
.equ transmit, 0x10000000
.equ halt, 0x00100000
_start:
    li s0, 0
    li s1, transmit
    li s2, 400
next:
    li t0, 16
digit:
    addi t0, t0, -4
    srl t1, s0, t0
    andi t1, t1, 15
    li t2, 10
    blt t1, t2, low
    addi t1, t1, 39
low:
    addi t1, t1, 48
    sw t1, 0(s1)
    bnez t0, digit
    li t1, 10
    sw t1, 0(s1)
    li t0, 30000
wait:
    addi t0, t0, -1
    bnez t0, wait
    addi s0, s0, 1
    bne s0, s2, next
    li t1, halt
    sw zero, 0(t1)
";

/// The image of the guest.
pub fn counting_image(alloc: Global) -> anyhow::Result<Vec<u8>> {
    let mut image = Vec::new(alloc);
    let mut errors = Vec::new(alloc);
    let _status = asm_command(alloc, SOURCE.as_bytes(), &mut image, &mut errors)?;
    Ok(image)
}

/// The bytes that the guest sends.
pub fn numbers(alloc: Global) -> anyhow::Result<Vec<u8>> {
    let mut sent = Vec::new(alloc);
    for number in 0..COUNT {
        writeln!(sent, "{number:04x}")?;
    }
    Ok(sent)
}
