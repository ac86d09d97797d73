//! What is wrong with an ELF file: which field of its header, or which of its program headers.

ghost use Rattle.std.specs.Prelude.{◌≡◌, ◌≢◌, ◌+◌, ◌*◌, ◌≤◌, ◌<◌, length};
ghost use Rattle.rvm_elf.specs.File.{field, is_elf};
ghost use Rattle.rvm_files.specs.ElfFaults.{AreHeaderFaults, IsElfFault, IsHeaderFault, IsHeaderSizeFault, IsIdentityFault, IsKindFault, IsTableFault, elf_after, elf_before, elf_error, elf_number};

use byteorder::{ByteOrder, LittleEndian};
use rvm_elf::ReadError;
use std::fmt;

/// The size of the ELF header in bytes.
const HEADER_SIZE: usize = 52;

/// The size of a program header in bytes.
const PROGRAM_HEADER_SIZE: usize = 32;

/// The most program headers that a file may have.
const MAX_HEADERS: u16 = 16;

/// The first thing that is wrong with an ELF file of a program for the board.
#[derive(Clone, Copy, Debug)]
pub enum ElfFault {
    /// The file does not begin with the four magic bytes.
    NoMagic,
    /// The file has this number of bytes, fewer than an ELF header.
    ShortHeader(usize),
    /// The file has this class, and not 1, that of 32-bit machines.
    Class(u8),
    /// The file has this byte order, and not 1, little-endian.
    ByteOrder(u8),
    /// The file has this version of the format, and not 1.
    Version(u8),
    /// The file is for the machine with this number, and not for 243, RISC-V.
    Machine(u16),
    /// The file is of kind 1 (`e_type`), an object file.
    Object,
    /// The file is of kind 3, a library, or a program for any address.
    Shared,
    /// The file is of this kind, and not 2, a program that is linked to its addresses.
    Kind(u16),
    /// The program headers have this number of bytes each, and not 32.
    HeaderSize(u16),
    /// There are this many program headers, more than 16.
    TooMany(u16),
    /// The program headers go past the end of the file.
    ShortTable,
    /// The program header with this index, counted from 0, names more bytes in the file than in memory.
    MoreBytes(u16),
    /// The bytes that the program header with this index names, counted from 0, go past the end of the file.
    ShortSegment(u16),
}

impl ElfFault {
    /// The error of a file that has this fault.
    pub(crate) fn error(self) -> ReadError
        ensures { result ≡ elf_error self }
    {
        match self {
            ElfFault::NoMagic => ReadError::BadMagic,
            ElfFault::ShortHeader(_) => ReadError::Truncated,
            ElfFault::TooMany(_) => ReadError::TooMany,
            ElfFault::ShortTable => ReadError::Truncated,
            ElfFault::ShortSegment(_) => ReadError::Truncated,
            _ => ReadError::NotRiscV32,
        }
    }

    /// The words of a report before the number that it names, or all of them if it names none.
    fn before(self) -> &'static str
        ensures { result.now ≡ elf_before self }
    {
        match self {
            ElfFault::NoMagic =>
                "this is no ELF file: assemble or link it, or give --raw for plain bytes",
            ElfFault::ShortHeader(_) => "this has ",
            ElfFault::Class(_) => "this is not for 32-bit machines (class ",
            ElfFault::ByteOrder(_) => "this is not little-endian (byte order ",
            ElfFault::Version(_) => "this has version ",
            ElfFault::Machine(_) => "this is for machine ",
            ElfFault::Object => "this is an object file: link it (docs/BOARD.md)",
            ElfFault::Shared =>
                "this is a library, or a program for any address: link it without -shared and -pie (docs/BOARD.md)",
            ElfFault::Kind(_) => "this has type ",
            ElfFault::HeaderSize(_) => "this has program headers of ",
            ElfFault::TooMany(_) => "this has ",
            ElfFault::ShortTable => "this ends before its program headers do: it was cut off",
            ElfFault::MoreBytes(_) => "program header ",
            ElfFault::ShortSegment(_) => "this ends before the bytes of program header ",
        }
    }

    /// The number that a report names, if it names one.
    fn number(self) -> Option<usize>
        ensures { result ≡ elf_number self }
    {
        match self {
            ElfFault::ShortHeader(size) => Some(size),
            ElfFault::Class(byte) | ElfFault::ByteOrder(byte) | ElfFault::Version(byte) => {
                Some(usize::from(byte))
            }
            ElfFault::Machine(field)
            | ElfFault::Kind(field)
            | ElfFault::HeaderSize(field)
            | ElfFault::TooMany(field) => Some(usize::from(field)),
            ElfFault::MoreBytes(index) | ElfFault::ShortSegment(index) => {
                Some(usize::from(index))
            }
            _ => None,
        }
    }

    /// The words of a report after the number that it names.
    fn after(self) -> &'static str
        ensures { result.now ≡ elf_after self }
    {
        match self {
            ElfFault::ShortHeader(_) => " bytes, and an ELF header has 52: it was cut off",
            ElfFault::Class(_) => "): build it for 32-bit RISC-V",
            ElfFault::ByteOrder(_) => "): build it for 32-bit RISC-V",
            ElfFault::Version(_) => " of the format, and not 1",
            ElfFault::Machine(_) => ", and not for 243, RISC-V",
            ElfFault::Kind(_) => ", and a program has 2: link it (docs/BOARD.md)",
            ElfFault::HeaderSize(_) => " bytes, and not of 32",
            ElfFault::TooMany(_) => " program headers, and at most 16 are read",
            ElfFault::MoreBytes(_) => " (from 0) is larger in the file than in memory",
            ElfFault::ShortSegment(_) => " (from 0): it was cut off",
            _ => "",
        }
    }
}

/// The first thing that is wrong with an ELF file, if something is. The machine is looked at before the type.
pub(crate) fn elf_fault(file: &[u8]) -> Option<ElfFault>
    ensures { IsElfFault file.now result }
{
    if !is_elf(file) {
        return Some(ElfFault::NoMagic);
    }
    if file.len() < HEADER_SIZE {
        return Some(ElfFault::ShortHeader(file.len()));
    }
    if let Some(fault) = identity_fault(file) {
        return Some(fault);
    }
    table_fault(file)
}

/// Whether a file begins with the four magic bytes.
fn is_elf(file: &[u8]) -> bool
    ensures { result ≡ is_elf file.now }
{
    matches!(file, [0x7F, b'E', b'L', b'F', ..])
}

/// What is wrong with the fields that say what kind of a program a file is for, if something is.
fn identity_fault(file: &[u8]) -> Option<ElfFault>
    requires { 52 ≤ length file.now }
    ensures { IsIdentityFault file.now result }
{
    if file[4] != 1 {
        return Some(ElfFault::Class(file[4]));
    }
    if file[5] != 1 {
        return Some(ElfFault::ByteOrder(file[5]));
    }
    if file[6] != 1 {
        return Some(ElfFault::Version(file[6]));
    }
    let machine = u16_at(file, 18);
    if machine != 243 {
        return Some(ElfFault::Machine(machine));
    }
    let kind = u16_at(file, 16);
    if kind != 2 {
        return Some(kind_fault(kind));
    }
    header_size_fault(file)
}

/// The fault of a file of this kind, which is no program.
fn kind_fault(kind: u16) -> ElfFault
    requires { kind ≢ 2 }
    ensures { IsKindFault kind result }
{
    match kind {
        1 => ElfFault::Object,
        3 => ElfFault::Shared,
        _ => ElfFault::Kind(kind),
    }
}

/// What is wrong with the size of program headers, if there are any and something is.
fn header_size_fault(file: &[u8]) -> Option<ElfFault>
    requires { 52 ≤ length file.now }
    ensures { IsHeaderSizeFault file.now result }
{
    let size = u16_at(file, 42);
    if u16_at(file, 44) != 0 && size as usize != PROGRAM_HEADER_SIZE {
        return Some(ElfFault::HeaderSize(size));
    }
    None
}

/// What is wrong with the program headers, if something is.
fn table_fault(file: &[u8]) -> Option<ElfFault>
    requires { 52 ≤ length file.now }
    ensures { IsTableFault file.now result }
{
    let count = u16_at(file, 44);
    if count > MAX_HEADERS {
        return Some(ElfFault::TooMany(count));
    }
    let first = u32_at(file, 28) as usize;
    if count > 0 && first + PROGRAM_HEADER_SIZE * count as usize > file.len() {
        return Some(ElfFault::ShortTable);
    }
    first_header_fault(file, first, count)
}

/// The first thing that is wrong with `count` program headers from the offset `first` on, if something is.
fn first_header_fault(file: &[u8], first: usize, count: u16) -> Option<ElfFault>
    requires { 0 < count → first + 32 * count ≤ length file.now }
    ensures { AreHeaderFaults file.now first count result }
{
    for index in 0..count {
        let at = first + PROGRAM_HEADER_SIZE * index as usize;
        if let Some(fault) = header_fault(file, at, index) {
            return Some(fault);
        }
    }
    None
}

/// What is wrong with the program header at the offset `at`, whose index is `index`, if its part is loaded and something
/// is.
fn header_fault(file: &[u8], at: usize, index: u16) -> Option<ElfFault>
    requires { at + 32 ≤ length file.now }
    ensures { IsHeaderFault file.now at index result }
{
    let memory = u32_at(file, at + 20);
    if u32_at(file, at) != 1 || memory == 0 {
        return None;
    }
    let size = u32_at(file, at + 16);
    if size > memory {
        return Some(ElfFault::MoreBytes(index));
    }
    let end = u32_at(file, at + 4) as usize + size as usize;
    if size > 0 && end > file.len() {
        return Some(ElfFault::ShortSegment(index));
    }
    None
}

/// The little-endian 16-bit number at the offset `at`.
fn u16_at(file: &[u8], at: usize) -> u16
    requires { at + 2 ≤ length file.now }
    ensures { result ≡ field 2 at file.now }
{
    LittleEndian::read_u16(&file[at..])
}

/// The little-endian 32-bit number at the offset `at`.
fn u32_at(file: &[u8], at: usize) -> u32
    requires { at + 4 ≤ length file.now }
    ensures { result ≡ field 4 at file.now }
{
    LittleEndian::read_u32(&file[at..])
}

/// What a report says of the file.
impl fmt::Display for ElfFault {
    ghost use Rattle.std.specs.Prelude.{Some};
    ghost use Rattle.rvm_files.specs.ElfFaults.{elf_text};

    ghost output = { λ f. Some (elf_text f) };

    fn fmt<W: fmt::Write>(&self, f: &mut fmt::Formatter<W>) -> fmt::Result {
        let before = self.before();
        match self.number() {
            Some(number) => write!(f, "{before}{number}{}", self.after()),
            None => write!(f, "{before}"),
        }
    }
}
