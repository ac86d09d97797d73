//! Writes ELF files.

ghost use Rattle.std.specs.Prelude.{◌≡◌, ◌+◌, ◌*◌, ◌^◌, ◌<◌, ◌≤◌, ◌++◌, ◌↔◌, true, false, nat_le, if◌then◌else◌, IfOk, length, vec_len, vec_capacity};
ghost use Rattle.rvm_asm.specs.Images.{piece_of, pieces_of};
ghost use Rattle.rvm_elf.specs.declared.error.WriteError.TheVariants.{TooMany, OutOfReach};
ghost use Rattle.rvm_elf.specs.Spelling.{all_bytes, is_small, are_small, in_reach, elf_header, program_header, program_headers, file_of};

use crate::error::WriteError;
use crate::layout::{EM_RISCV, ET_EXEC, HEADER_SIZE, MAX_HEADERS, PROGRAM_HEADER_SIZE, PT_LOAD};
use rvm_asm::{Image, MAX_BYTES, Segment};
use rvm_codec::{append_bytes, append_u16s, append_u32s};
use std::alloc::Global;

/// The first 16 bytes of a file: the magic bytes, 32-bit, little-endian, version 1.
const IDENT: [u8; 16] = [0x7F, b'E', b'L', b'F', 1, 1, 1, 0, 0, 0, 0, 0, 0, 0, 0, 0];

/// The version of the format.
const EV_CURRENT: u32 = 1;

/// The flags of a part of the program that may be read, written and executed.
const READ_WRITE_EXECUTE: u32 = 7;

/// The ELF file of an image: the ELF header, a program header for each segment, whose address is its virtual and its
/// physical address, and then the bytes of all segments in order. Fails with `TooMany` if there are more than 16
/// segments; else with `OutOfReach` if all segments together have more than 2^24 bytes, or if the bytes and zeros of
/// one segment are 2^32 or more. `OutOfMemory` if memory runs out.
#[tactic(auto, unfolding(crate::specs::Spelling::file_of))]
pub fn write_image(alloc: Global, image: &Image) -> Result<Vec<u8>, WriteError>
    ensures file { IfOk result
        (λ v. v.items ≡ file_of image.now.entry (pieces_of image.now.segments.items)) }
    ensures many { (result ≡ Err TooMany) ↔ (16 < length image.now.segments.items) }
    ensures reach { (result ≡ Err OutOfReach)
        ↔ ((length image.now.segments.items ≤ 16) × (in_reach (pieces_of image.now.segments.items) ≡ false)) }
{
    let segments = image.segments.as_slice();
    if segments.len() > MAX_HEADERS {
        return Err(WriteError::TooMany);
    }
    let Some(count) = count_bytes(segments) else {
        return Err(WriteError::OutOfReach);
    };
    if !are_small(segments) {
        return Err(WriteError::OutOfReach);
    }
    let first = HEADER_SIZE + PROGRAM_HEADER_SIZE * segments.len();
    let mut file = Vec::with_capacity(alloc, first + count)?;
    append_elf_header(&mut file, image.entry, segments.len() as u16);
    append_program_headers(&mut file, first, segments);
    append_all_bytes(&mut file, segments);
    Ok(file)
}

/// The number of bytes of all segments together, or `None` if it is above 2^24.
fn count_bytes(segments: &[Segment]) -> Option<usize>
    ensures { result
        ≡ (if nat_le (length (all_bytes (pieces_of segments.now))) (2 ^ 24) then Some (length (all_bytes (pieces_of segments.now))) else None) }
{
    let mut count = 0;
    for segment in segments {
        count += segment.bytes.len();
        if count > MAX_BYTES {
            return None;
        }
    }
    Some(count)
}

/// Whether each segment has fewer than 2^32 bytes and zeros.
fn are_small(segments: &[Segment]) -> bool
    ensures { result ≡ are_small (pieces_of segments.now) }
{
    for segment in segments {
        if !is_small(segment) {
            return false;
        }
    }
    true
}

/// Whether a segment has fewer than 2^32 bytes and zeros.
fn is_small(segment: &Segment) -> bool
    ensures { result ≡ is_small (piece_of segment.now) }
{
    segment.bytes.len() as u64 + u64::from(segment.zeros) <= u64::from(u32::MAX)
}

/// Appends the ELF header of a file with `count` program headers.
fn append_elf_header(file: &mut Vec<u8>, entry: u32, count: u16)
    requires { vec_len file.old + 52 ≤ vec_capacity file.old }
    ensures items { file.new.items ≡ file.old.items ++ elf_header entry count }
    ensures len { vec_len file.new ≡ vec_len file.old + 52 }
    ensures capacity { vec_capacity file.old ≤ vec_capacity file.new }
{
    append_bytes(file, &IDENT);
    append_u16s(file, &[ET_EXEC, EM_RISCV]);
    append_u32s(file, &[EV_CURRENT, entry, HEADER_SIZE as u32, 0, 0]);
    append_u16s(
        file,
        &[
            HEADER_SIZE as u16,
            PROGRAM_HEADER_SIZE as u16,
            count,
            0,
            0,
            0,
        ],
    );
}

/// Appends a program header for each segment. The bytes of the first segment stand at the offset `first`.
fn append_program_headers(file: &mut Vec<u8>, first: usize, segments: &[Segment])
    requires room { vec_len file.old + 32 * length segments.now ≤ vec_capacity file.old }
    requires small { are_small (pieces_of segments.now) ≡ true }
    requires reach { first + length (all_bytes (pieces_of segments.now)) < 2 ^ 32 }
    ensures items { file.new.items
        ≡ file.old.items ++ program_headers first (pieces_of segments.now) }
    ensures len { vec_len file.new ≡ vec_len file.old + 32 * length segments.now }
    ensures capacity { vec_capacity file.old ≤ vec_capacity file.new }
{
    let mut offset = first;
    for segment in segments {
        append_program_header(file, offset as u32, segment);
        offset += segment.bytes.len();
    }
}

/// Appends the program header of a segment whose bytes stand at `offset`.
fn append_program_header(file: &mut Vec<u8>, offset: u32, segment: &Segment)
    requires room { vec_len file.old + 32 ≤ vec_capacity file.old }
    requires small { is_small (piece_of segment.now) ≡ true }
    ensures items { file.new.items
        ≡ file.old.items ++ program_header offset (piece_of segment.now) }
    ensures len { vec_len file.new ≡ vec_len file.old + 32 }
    ensures capacity { vec_capacity file.old ≤ vec_capacity file.new }
{
    let count = segment.bytes.len() as u32;
    append_u32s(
        file,
        &[
            PT_LOAD,
            offset,
            segment.address,
            segment.address,
            count,
            count + segment.zeros,
            READ_WRITE_EXECUTE,
            1,
        ],
    );
}

/// Appends the bytes of the segments in order.
fn append_all_bytes(file: &mut Vec<u8>, segments: &[Segment])
    requires { vec_len file.old + length (all_bytes (pieces_of segments.now))
        ≤ vec_capacity file.old }
    ensures { file.new.items ≡ file.old.items ++ all_bytes (pieces_of segments.now) }
{
    for segment in segments {
        append_bytes(file, &segment.bytes);
    }
}
