//! The commands when a write fails.

use rvm_arguments::{DebugArguments, GuestArguments, RunArguments, StatusOf};
use rvm_command::asm_command::asm_command;
use rvm_command::debug_command::debug_command;
use rvm_command::run_command::{RunFiles, run_command};
use rvm_paged::PagedRam;
use rvm_refusal::LinkFault;
use std::alloc::{AllocError, Global};
use std::io;
use std::io::{BufWriter, Sink, Write};
use std::test::Fail;

/// Sends A without end: lui t0, 0x10000; addi t1, a0, 65; sw t1, 0(t0); jal zero, -4.
static LETTERS: [u32; 4] = [0x1000_02B7, 0x0415_0313, 0x0062_A023, 0xFFDF_F06F];

/// Sends A and halts: lui t0, 0x10000; addi t1, a0, 65; sw t1, 0(t0); lui t2, 0x100; sw zero, 0(t2).
static LETTER: [u32; 5] = [
    0x1000_02B7,
    0x0415_0313,
    0x0062_A023,
    0x0010_03B7,
    0x0003_A023,
];

/// Sends the low byte of each number from 10,000 down to 1, and halts: lui t0, 0x10000; lui t2, 2;
/// addi t2, t2, 1808; sw t2, 0(t0); addi t2, t2, -1; bne t2, zero, -8; lui t1, 0x100;
/// sw zero, 0(t1).
static MANY_BYTES: [u32; 8] = [
    0x1000_02B7,
    0x0000_23B7,
    0x7103_8393,
    0x0072_A023,
    0xFFF3_8393,
    0xFE03_9CE3,
    0x0010_0337,
    0x0003_2023,
];

/// Sends A, makes 200,000 turns, sends A again, and halts: lui t0, 0x10000; addi t1, a0, 65;
/// sw t1, 0(t0); lui t2, 24; addi t2, t2, 1696; addi t2, t2, -1; bne t2, zero, -4; sw t1, 0(t0);
/// lui t2, 0x100; sw zero, 0(t2).
static LETTERS_APART: [u32; 10] = [
    0x1000_02B7,
    0x0415_0313,
    0x0062_A023,
    0x0001_83B7,
    0x6A03_8393,
    0xFFF3_8393,
    0xFE03_9EE3,
    0x0062_A023,
    0x0010_03B7,
    0x0003_A023,
];

const REFUSAL: &str = "refused 31 LinkFault\n";

/// A writer that takes this many bytes, and then fails.
#[derive(Drop)]
struct Narrow {
    room: usize,
}

impl Write for Narrow {
    fn write(&mut self, buf: &[u8]) -> io::Result<usize> {
        if self.room == 0 {
            return Err(io::Error::from_raw_os_error(5));
        }
        let taken = self.room.min(buf.len());
        self.room -= taken;
        Ok(taken)
    }

    fn flush(&mut self) -> io::Result<()> {
        Ok(())
    }
}

/// A writer that counts its writes, and keeps what was written.
#[derive(Drop)]
struct Counted {
    writes: u32,
    bytes: Vec<u8>,
}

impl Write for Counted {
    fn write(&mut self, buf: &[u8]) -> io::Result<usize> {
        self.writes = self.writes.saturating_add(1);
        self.bytes.write(buf)
    }

    fn flush(&mut self) -> io::Result<()> {
        Ok(())
    }
}

/// Plain bytes, on one hart with one page of RAM.
fn guest() -> GuestArguments<'static> {
    GuestArguments {
        image: "guest.bin",
        raw: true,
        harts: 1,
        pages: 1,
    }
}

/// No files beside the output: what would go to one goes nowhere.
fn no_files() -> RunFiles<Sink, Sink> {
    RunFiles {
        trace: io::sink(),
        report: io::sink(),
    }
}

/// The bytes of words, as an image has them.
fn bytes_of(alloc: Global, words: &[u32]) -> Result<Vec<u8>, AllocError> {
    let mut bytes = Vec::new(alloc);
    for word in words {
        bytes.extend_from_slice(&word.to_le_bytes())?;
    }
    Ok(bytes)
}

#[test]
fn a_run_writes_in_large_pieces_and_before_it_ends(rt: HostRuntime) -> Result<(), Fail> {
    let alloc = rt.alloc();
    let arguments = RunArguments {
        guest: guest(),
        input: None,
        steps: 1_000_000,
        status: StatusOf::Command,
        stop_at_fault: false,
        trace: None,
        report: None,
        seed: None,
    };
    let mut falling = Vec::new(alloc);
    for number in (1..=10_000u32).rev() {
        falling.push((number % 256) as u8)?;
    }
    // Two pieces of 3841 to 4096 bytes and the rest; and a letter that does not wait for the next one.
    for (words, bytes, writes) in [
        (MANY_BYTES.as_slice(), falling.as_slice(), 3),
        (LETTERS_APART.as_slice(), b"AA".as_slice(), 2),
    ] {
        let image = bytes_of(alloc, words)?;
        let mut output = Counted {
            writes: 0,
            bytes: Vec::new(alloc),
        };
        let mut errors = Vec::new(alloc);
        let status = run_command::<PagedRam, _, _, _, _>(
            alloc,
            &arguments,
            &image,
            &[],
            &[],
            &mut output,
            &mut no_files(),
            &mut errors,
        );
        assert_eq!(rt; errors.as_slice(), "halted 0\n".as_bytes());
        assert_eq!(rt; output.bytes.as_slice(), bytes);
        assert_eq!(rt; output.writes, writes);
        assert_eq!(rt; status, Ok(0));
    }
    Ok(())
}

#[test]
fn a_failed_write_of_a_run_is_told(rt: HostRuntime) -> Result<(), Fail> {
    let alloc = rt.alloc();
    let arguments = RunArguments {
        guest: guest(),
        input: None,
        steps: 1000,
        status: StatusOf::Command,
        stop_at_fault: false,
        trace: None,
        report: None,
        seed: None,
    };
    let letters = bytes_of(alloc, &LETTERS)?;
    // The output fails in the middle of a piece, or at once.
    for room in [40, 0] {
        let (mut output, mut errors) = (Narrow { room }, Vec::new(alloc));
        let status = run_command::<PagedRam, _, _, _, _>(
            alloc,
            &arguments,
            &letters,
            &[],
            &[],
            &mut output,
            &mut no_files(),
            &mut errors,
        );
        assert_eq!(rt; errors.as_slice(), REFUSAL.as_bytes());
        assert_eq!(rt; output.room, 0);
        assert_eq!(rt; status, Ok(1));
    }
    // The report of the end can fail too.
    let letter = bytes_of(alloc, &LETTER)?;
    let (mut output, mut errors) = (Vec::new(alloc), Narrow { room: 3 });
    let status = run_command::<PagedRam, _, _, _, _>(
        alloc,
        &arguments,
        &letter,
        &[],
        &[],
        &mut output,
        &mut no_files(),
        &mut errors,
    );
    assert_eq!(rt; output.as_slice(), "A".as_bytes());
    assert_eq!(rt; status, Err(LinkFault));
    Ok(())
}

#[test]
fn a_failed_write_of_an_answer_is_told(rt: HostRuntime) -> Result<(), Fail> {
    let alloc = rt.alloc();
    let image = bytes_of(alloc, &LETTERS)?;
    // The output fails while answers are written, or only when those that were held back are flushed.
    for capacity in [0, 8192] {
        let mut output = BufWriter::with_capacity(alloc, capacity, Narrow { room: 10 })?;
        let mut errors = Vec::new(alloc);
        let mut reader = "regs 0\n".as_bytes();
        let status = debug_command::<PagedRam, _, _, _>(
            alloc,
            &DebugArguments {
                guest: guest(),
                extended: false,
            },
            &image,
            &mut reader,
            &mut output,
            &mut errors,
        );
        assert_eq!(rt; errors.as_slice(), REFUSAL.as_bytes());
        assert_eq!(rt; status, Ok(1));
    }
    Ok(())
}

#[test]
fn a_failed_write_of_a_file_is_told(rt: HostRuntime) {
    let (mut output, mut errors) = (Narrow { room: 10 }, Vec::new(rt.alloc()));
    let status = asm_command(rt.alloc(), b"nop\n", &mut output, &mut errors);
    assert_eq!(rt; errors.as_slice(), REFUSAL.as_bytes());
    assert_eq!(rt; status, Ok(1));
}
