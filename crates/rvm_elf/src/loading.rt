//! Loads an image into a board.

ghost use Rattle.std.specs.Prelude.{◌≡◌, ◌+◌, ◌-◌, ◌%◌, ◌^◌, ◌<◌, ◌≤◌, ◌↔◌, true, false, length, map, replicate, IsErr, OnOk, OnErr};
ghost use Rattle.rvm_mem.specs.Bytes.{replaced};
ghost use Rattle.rvm_hart.specs.Bus.{in_ram, ram_base};
ghost use Rattle.rvm_asm.specs.Images.{piece_of, pieces_of};
ghost use Rattle.rvm_elf.specs.Load.{is_within, piece_fits, pieces_fit, fits, at_entry, loaded};
ghost use Rattle.rvm_elf.specs.Placing.{with_ram, with_harts, IsBlank, placed, placed_all};

use rvm_asm::{Image, Segment};
use rvm_board::{Board, VIEW_SIZE};
use rvm_hart::{PC, RAM_BASE};
use rvm_mem::Memory;
use rvm_refusal::Refusal;
use thiserror::Error;

/// The error of an image whose entry is no multiple of four in RAM, or a segment of which does not lie in RAM.
#[derive(Clone, Copy, Debug, PartialEq, Eq, Error)]
#[error("the image does not lie in RAM")]
pub struct OutsideRam;

impl From<OutsideRam> for Refusal {
    ghost use Rattle.rvm_refusal.specs.declared.refusal.Refusal.TheVariants as refusal;

    ghost from_gives = { λ _ told. told ≡ refusal.OutsideRam };

    fn from(_error: OutsideRam) -> Refusal {
        Refusal::OutsideRam
    }
}

/// Loads an image into a board. RAM gets the bytes and zeros of the segments in order, so that a later segment
/// overwrites an earlier one, and zeros elsewhere. Each page is put into the dirty log, each hart's pc becomes the
/// entry, and all reservations are removed; nothing else changes. Allocates no memory. Fails with `OutsideRam`, and
/// changes nothing, if the entry is no multiple of four in RAM, or if a segment that has a byte or a zero does not lie
/// in RAM as a whole.
#[tactic(auto, using(crate::proofs::Loaded::all_placed))]
pub fn load<M: Memory>(image: &Image, board: &mut Board<M>) -> Result<(), OutsideRam>
    ensures plain { OnOk result (board.new.plain
        ≡ loaded image.now.entry (pieces_of image.now.segments.items) board.old.plain) }
    ensures dirty { OnOk result (board.new.dirty ≡ replicate (length board.old.dirty) true) }
    ensures outside { IsErr result
        ↔ (fits image.now.entry (pieces_of image.now.segments.items) (length board.old.plain.shared.bytes) ≡ false) }
    ensures err { OnErr result (board.new ≡ board.old) }
{
    if !fits(image, board.ram_size()) {
        return Err(OutsideRam);
    }
    board.clear();
    write_segments(board, &image.segments);
    set_entries(board, image.entry);
    Ok(())
}

/// Whether the entry is a multiple of four in a RAM of `ram_size` bytes, and each segment that has a byte or a zero
/// lies in it.
fn fits(image: &Image, ram_size: u32) -> bool
    ensures { result ≡ fits image.now.entry (pieces_of image.now.segments.items) ram_size }
{
    image.entry % 4 == 0
        && is_within(image.entry, 1, ram_size)
        && segments_fit(&image.segments, ram_size)
}

/// Whether `count` bytes from `address` on lie in a RAM of `ram_size` bytes.
fn is_within(address: u32, count: u64, ram_size: u32) -> bool
    requires { count < 2 ^ 63 + 2 ^ 32 }
    ensures { result ≡ is_within count address ram_size }
{
    let base = u64::from(RAM_BASE);
    let first = u64::from(address);
    first >= base && first + count <= base + u64::from(ram_size)
}

/// Whether each segment that has a byte or a zero lies in a RAM of `ram_size` bytes.
fn segments_fit(segments: &[Segment], ram_size: u32) -> bool
    ensures { result ≡ pieces_fit (pieces_of segments.now) ram_size }
{
    for segment in segments {
        if !segment_fits(segment, ram_size) {
            return false;
        }
    }
    true
}

/// Whether a segment has neither bytes nor zeros, or lies in a RAM of `ram_size` bytes.
fn segment_fits(segment: &Segment, ram_size: u32) -> bool
    ensures { result ≡ piece_fits (piece_of segment.now) ram_size }
{
    let count = segment.bytes.len() as u64 + u64::from(segment.zeros);
    count == 0 || is_within(segment.address, count, ram_size)
}

/// Writes the segments in order.
fn write_segments<M: Memory>(board: &mut Board<M>, segments: &[Segment])
    requires blank { IsBlank board.old }
    requires inside { pieces_fit (pieces_of segments.now) (length board.old.plain.shared.bytes) ≡ true }
    ensures { board.new
        ≡ with_ram (placed_all (pieces_of segments.now) board.old.plain.shared.bytes) board.old }
{
    for segment in segments {
        write_segment(board, segment);
    }
}

/// Writes a segment's bytes, and its zeros after them.
fn write_segment<M: Memory>(board: &mut Board<M>, segment: &Segment)
    requires blank { IsBlank board.old }
    requires inside { piece_fits (piece_of segment.now) (length board.old.plain.shared.bytes) ≡ true }
    ensures { board.new
        ≡ with_ram (placed (piece_of segment.now) board.old.plain.shared.bytes) board.old }
{
    if segment.bytes.is_empty() && segment.zeros == 0 {
        return;
    }
    write_bytes(board, segment.address, &segment.bytes);
    write_zeros(
        board,
        segment.address + segment.bytes.len() as u32,
        segment.zeros as usize,
    );
}

/// Writes bytes from an address on, at most `VIEW_SIZE` at once.
fn write_bytes<M: Memory>(board: &mut Board<M>, address: u32, bytes: &[u8])
    requires blank { IsBlank board.old }
    requires inside { in_ram (length bytes.now) address board.old.plain.shared.bytes ≡ true }
    ensures { board.new
        ≡ with_ram (replaced (address - ram_base) bytes.now board.old.plain.shared.bytes) board.old }
{
    let mut done = 0;
    while done < bytes.len() {
        let end = (done + VIEW_SIZE).min(bytes.len());
        poke(board, address + done as u32, &bytes[done..end]);
        done = end;
    }
}

/// Writes this many zeros from an address on, at most `VIEW_SIZE` at once.
fn write_zeros<M: Memory>(board: &mut Board<M>, address: u32, count: usize)
    requires blank { IsBlank board.old }
    requires inside { in_ram count address board.old.plain.shared.bytes ≡ true }
    ensures { board.new
        ≡ with_ram (replaced (address - ram_base) (replicate count 0) board.old.plain.shared.bytes) board.old }
{
    let mut done = 0;
    while done < count {
        let more = (count - done).min(VIEW_SIZE);
        poke_zeros(board, address + done as u32, more);
        done += more;
    }
}

/// Writes 1 to 256 zeros from an address on.
fn poke_zeros<M: Memory>(board: &mut Board<M>, address: u32, count: usize)
    requires blank { IsBlank board.old }
    requires some { 0 < count }
    requires few { count ≤ 256 }
    requires inside { in_ram count address board.old.plain.shared.bytes ≡ true }
    ensures { board.new
        ≡ with_ram (replaced (address - ram_base) (replicate count 0) board.old.plain.shared.bytes) board.old }
{
    let zeros = [0; VIEW_SIZE];
    poke(board, address, &zeros[..count]);
}

/// Writes 1 to 256 bytes from an address on. No hart has a reservation, and each page is in the dirty log, so that only
/// RAM changes.
fn poke<M: Memory>(board: &mut Board<M>, address: u32, bytes: &[u8])
    requires blank { IsBlank board.old }
    requires some { 0 < length bytes.now }
    requires few { length bytes.now ≤ 256 }
    requires inside { in_ram (length bytes.now) address board.old.plain.shared.bytes ≡ true }
    ensures { board.new
        ≡ with_ram (replaced (address - ram_base) bytes.now board.old.plain.shared.bytes) board.old }
{
    let is_written = board.poke_mem(address, bytes).is_ok();
    prove!(is_written);
}

/// Sets the pc of each hart to the entry.
fn set_entries<M: Memory>(board: &mut Board<M>, entry: u32)
    requires { entry % 4 ≡ 0 }
    ensures { board.new ≡ with_harts (map (at_entry entry) board.old.plain.harts) board.old }
{
    for hart in 0..board.harts() {
        let is_set = board.poke_reg(hart, PC, entry).is_ok();
        prove!(is_set);
    }
}
