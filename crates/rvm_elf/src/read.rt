//! Reads ELF files.

ghost use Rattle.std.specs.Prelude.{◌≡◌, ◌+◌, ◌*◌, ◌++◌, ◌≤◌, ◌<◌, IfOk, OnOk, IfErr, length, option_map, slice_range};
ghost use Rattle.std.specs.Option.{option_to_list};
ghost use Rattle.rvm_asm.specs.Images.{piece_of, pieces_of};
ghost use Rattle.rvm_elf.specs.File.{is_elf, is_riscv32, is_loaded, header_checked, headers_checked, piece_of_header, pieces_from, checked, meaning, Refuses, e_phnum, e_phoff};

use crate::error::ReadError;
use crate::layout::{
    E_ENTRY, E_MACHINE, E_PHENTSIZE, E_PHNUM, E_PHOFF, E_TYPE, EI_CLASS, EI_DATA, EI_VERSION,
    EM_RISCV, ET_EXEC, HEADER_SIZE, MAX_HEADERS, PROGRAM_HEADER_SIZE, PT_LOAD, ProgramHeader,
    header_at, u16_at, u32_at,
};
use rvm_asm::{Image, Segment};
use std::alloc::{AllocError, Global};

/// The image of an ELF file: its entry, and in order a segment for each program header of a loaded part that has bytes
/// or zeros, at its physical address. The whole file is checked before any memory is allocated. The first of these
/// faults is returned: `BadMagic` if the file does not begin with the magic bytes of ELF; `Truncated` if it has fewer
/// than 52 bytes; `NotRiscV32` if it is not 32-bit, little-endian, of version 1, executable and for RISC-V, or has
/// program headers of another size than 32 bytes; `TooMany` if it has more than 16 program headers; `Truncated` if
/// these go past the end of the file; then, for each such program header in order, `NotRiscV32` if it names more bytes
/// in the file than in memory, and `Truncated` if its bytes go past the end of the file. `OutOfMemory` if memory runs
/// out.
#[tactic(auto, unfolding(crate::specs::File::meaning))]
pub fn read_image(alloc: Global, file: &[u8]) -> Result<Image, ReadError>
    ensures image { IfOk result
        (λ v. meaning file.now ≡ Ok (v.entry, pieces_of v.segments.items)) }
    ensures refused { IfErr result (λ e. Refuses e (meaning file.now)) }
{
    check(file)?;
    let first = u32_at(file, E_PHOFF) as usize;
    let count = u16_at(file, E_PHNUM) as usize;
    let segments = segments(alloc, file, first, count)?;
    Ok(Image {
        entry: u32_at(file, E_ENTRY),
        segments,
    })
}

/// Checks a file. Fails with its first fault.
#[tactic(auto, unfolding(crate::specs::File::checked))]
fn check(file: &[u8]) -> Result<(), ReadError>
    ensures fault { result ≡ checked file.now }
    ensures size { OnOk result (52 ≤ length file.now) }
    ensures table { OnOk result
        (0 < e_phnum file.now → e_phoff file.now + 32 * e_phnum file.now ≤ length file.now) }
    ensures headers { OnOk result
        (headers_checked (e_phnum file.now) (e_phoff file.now) file.now ≡ Ok tt) }
{
    if !is_elf(file) {
        return Err(ReadError::BadMagic);
    }
    if file.len() < HEADER_SIZE {
        return Err(ReadError::Truncated);
    }
    if !is_riscv32(file) {
        return Err(ReadError::NotRiscV32);
    }
    let count = u16_at(file, E_PHNUM) as usize;
    if count > MAX_HEADERS {
        return Err(ReadError::TooMany);
    }
    let first = u32_at(file, E_PHOFF) as usize;
    if count > 0 && first + PROGRAM_HEADER_SIZE * count > file.len() {
        return Err(ReadError::Truncated);
    }
    check_headers(file, first, count)
}

/// Whether the file begins with the four magic bytes.
fn is_elf(file: &[u8]) -> bool
    ensures { result ≡ is_elf file.now }
{
    matches!(file, [0x7F, b'E', b'L', b'F', ..])
}

/// Whether the file is a 32-bit little-endian executable of version 1 for RISC-V, whose program headers, if it has any,
/// have 32 bytes.
fn is_riscv32(file: &[u8]) -> bool
    requires { 52 ≤ length file.now }
    ensures { result ≡ is_riscv32 file.now }
{
    file[EI_CLASS] == 1
        && file[EI_DATA] == 1
        && file[EI_VERSION] == 1
        && u16_at(file, E_TYPE) == ET_EXEC
        && u16_at(file, E_MACHINE) == EM_RISCV
        && (u16_at(file, E_PHNUM) == 0 || u16_at(file, E_PHENTSIZE) as usize == PROGRAM_HEADER_SIZE)
}

/// Checks `count` program headers from the offset `first` on. Fails with their first fault.
fn check_headers(file: &[u8], first: usize, count: usize) -> Result<(), ReadError>
    requires { 0 < count → first + 32 * count ≤ length file.now }
    ensures { result ≡ headers_checked count first file.now }
{
    for i in 0..count {
        check_header(file, &header_at(file, first + PROGRAM_HEADER_SIZE * i))?;
    }
    Ok(())
}

/// Whether the header names a loaded part of the program that has bytes or zeros.
fn is_loaded(header: &ProgramHeader) -> bool
    ensures { result ≡ is_loaded header.now }
{
    header.p_type == PT_LOAD && header.p_memsz > 0
}

/// Checks a program header, if its part is loaded. Fails with its fault.
fn check_header(file: &[u8], header: &ProgramHeader) -> Result<(), ReadError>
    ensures { result ≡ header_checked header.now file.now }
{
    if !is_loaded(header) {
        return Ok(());
    }
    if header.p_filesz > header.p_memsz {
        return Err(ReadError::NotRiscV32);
    }
    let end = header.p_offset as usize + header.p_filesz as usize;
    if header.p_filesz > 0 && end > file.len() {
        return Err(ReadError::Truncated);
    }
    Ok(())
}

/// The segments of `count` program headers from the offset `first` on.
fn segments(
    alloc: Global,
    file: &[u8],
    first: usize,
    count: usize,
) -> Result<Vec<Segment>, AllocError>
    requires inside { 0 < count → first + 32 * count ≤ length file.now }
    requires checked { headers_checked count first file.now ≡ Ok tt }
    ensures { IfOk result (λ v. pieces_of v.items ≡ pieces_from count first file.now) }
{
    let mut segments = Vec::new(alloc);
    for i in 0..count {
        let header = header_at(file, first + PROGRAM_HEADER_SIZE * i);
        add_segment(alloc, &mut segments, file, &header)?;
    }
    Ok(segments)
}

/// Appends the segment of a header to the others, if its part is loaded.
fn add_segment(
    alloc: Global,
    segments: &mut Vec<Segment>,
    file: &[u8],
    header: &ProgramHeader,
) -> Result<(), AllocError>
    requires { header_checked header.now file.now ≡ Ok tt }
    ensures { OnOk result (pieces_of segments.new.items
        ≡ pieces_of segments.old.items ++ option_to_list (piece_of_header header.now file.now)) }
{
    if let Some(segment) = segment(alloc, file, header)? {
        segments.push(segment)?;
    }
    Ok(())
}

/// The segment of a header, if its part is loaded.
fn segment(
    alloc: Global,
    file: &[u8],
    header: &ProgramHeader,
) -> Result<Option<Segment>, AllocError>
    requires { header_checked header.now file.now ≡ Ok tt }
    ensures { IfOk result
        (λ s. option_map piece_of s ≡ piece_of_header header.now file.now) }
{
    if !is_loaded(header) {
        return Ok(None);
    }
    Ok(Some(Segment {
        address: header.p_paddr,
        bytes: Vec::from_slice(alloc, bytes_of(file, header))?,
        zeros: header.p_memsz - header.p_filesz,
    }))
}

/// The bytes of the file that a header names.
fn bytes_of<'a>(file: &'a [u8], header: &ProgramHeader) -> &'a [u8]
    requires { 0 < header.now.p_filesz
        → header.now.p_offset + header.now.p_filesz ≤ length file.now }
    ensures { result.now ≡ slice_range file.now header.now.p_offset (header.now.p_offset + header.now.p_filesz) }
{
    if header.p_filesz == 0 {
        return &[];
    }
    let first = header.p_offset as usize;
    &file[first..first + header.p_filesz as usize]
}
