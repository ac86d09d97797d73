//! Where the fields of an ELF file stand (System V ABI, "Object Files"). All are little-endian.

ghost use Rattle.std.specs.Prelude.{◌≡◌, ◌+◌, ◌≤◌, length};
ghost use Rattle.rvm_elf.specs.File.{field, header_at};

use byteorder::{ByteOrder, LittleEndian};

/// The size of the ELF header in bytes.
pub const HEADER_SIZE: usize = 52;

/// The size of a program header in bytes.
pub const PROGRAM_HEADER_SIZE: usize = 32;

/// The most program headers that a file may have.
pub const MAX_HEADERS: usize = 16;

/// The type of an executable file.
pub const ET_EXEC: u16 = 2;

/// The number of the machine RISC-V.
pub const EM_RISCV: u16 = 243;

/// The type of a program header whose part of the program is loaded.
pub const PT_LOAD: u32 = 1;

// Offsets in the ELF header, in bytes.
/// The offset of the class, 1 for 32-bit, in the ELF header.
pub const EI_CLASS: usize = 4;

/// The offset of the byte order, 1 for little-endian, in the ELF header.
pub const EI_DATA: usize = 5;

/// The offset of the version in the ELF header.
pub const EI_VERSION: usize = 6;

/// The offset of the file's type in the ELF header.
pub const E_TYPE: usize = 16;

/// The offset of the machine in the ELF header.
pub const E_MACHINE: usize = 18;

/// The offset of the entry in the ELF header.
pub const E_ENTRY: usize = 24;

/// The offset of the offset of the program headers in the ELF header.
pub const E_PHOFF: usize = 28;

/// The offset of the size of a program header in the ELF header.
pub const E_PHENTSIZE: usize = 42;

/// The offset of the number of program headers in the ELF header.
pub const E_PHNUM: usize = 44;

// Offsets in a program header, in bytes. The type has the offset 0.
const P_OFFSET: usize = 4;

const P_PADDR: usize = 12;

const P_FILESZ: usize = 16;

const P_MEMSZ: usize = 20;

/// A program header, without the fields that are not used.
#[derive(Clone, Copy)]
pub struct ProgramHeader {
    pub p_type: u32,
    pub p_offset: u32,
    pub p_paddr: u32,
    pub p_filesz: u32,
    pub p_memsz: u32,
}

/// The little-endian 16-bit number at the offset `at`.
pub fn u16_at(file: &[u8], at: usize) -> u16
    requires { at + 2 ≤ length file.now }
    ensures { result ≡ field 2 at file.now }
{
    LittleEndian::read_u16(&file[at..])
}

/// The little-endian 32-bit number at the offset `at`.
pub fn u32_at(file: &[u8], at: usize) -> u32
    requires { at + 4 ≤ length file.now }
    ensures { result ≡ field 4 at file.now }
{
    LittleEndian::read_u32(&file[at..])
}

/// The program header at the offset `at`.
pub fn header_at(file: &[u8], at: usize) -> ProgramHeader
    requires { at + 32 ≤ length file.now }
    ensures { result ≡ header_at at file.now }
{
    ProgramHeader {
        p_type: u32_at(file, at),
        p_offset: u32_at(file, at + P_OFFSET),
        p_paddr: u32_at(file, at + P_PADDR),
        p_filesz: u32_at(file, at + P_FILESZ),
        p_memsz: u32_at(file, at + P_MEMSZ),
    }
}
