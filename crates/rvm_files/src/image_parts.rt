//! Which part of an image does not lie in RAM.

ghost use Rattle.std.specs.Prelude.{◌≡◌, ◌+◌, ◌^◌, ◌<◌, true, IfSome, IsNone};
ghost use Rattle.rvm_asm.specs.Images.{piece_of, pieces_of, size};
ghost use Rattle.rvm_elf.specs.Load.{is_within, piece_fits, pieces_fit};
ghost use Rattle.rvm_files.specs.Outsides.{IsFirstOutside, IsOutside, entry_fits, entry_part, last_byte, segment_part};

use rvm_asm::{Image, Segment};
use rvm_dis::Digits;
use rvm_hart::RAM_BASE;
use std::fmt;

/// The part of an image that does not lie in RAM.
#[derive(Clone, Copy, Debug)]
pub enum Outside {
    /// The first segment that does not lie in RAM as a whole begins below RAM.
    Below {
        /// The number of the segment, counted from 1.
        number: usize,
        /// The address of its first byte.
        address: u32,
    },
    /// The first segment that does not lie in RAM as a whole ends after RAM.
    Above {
        /// The number of the segment, counted from 1.
        number: usize,
        /// The address of its first byte.
        address: u32,
        /// How many bytes it has, with its zeros.
        size: u64,
        /// The address of the last byte of RAM.
        last: u32,
    },
    /// The program begins at an address that is no multiple of four in RAM; all segments lie there.
    Entry {
        /// The address.
        entry: u32,
        /// The address of the last byte of RAM.
        last: u32,
    },
}

/// The first segment of an image that does not lie in a RAM of `ram_size` bytes, or, if all do, the entry if it is no
/// multiple of four there. `None` if the image can be loaded.
pub(crate) fn outside_part(image: &Image, ram_size: u32) -> Option<Outside>
    ensures { IsOutside image.now.entry (pieces_of image.now.segments.items) ram_size result }
{
    match outside_segment(&image.segments, ram_size) {
        Some(index) => Some(segment_part(&image.segments[index], index + 1, ram_size)),
        None => entry_part(image.entry, ram_size),
    }
}

/// A segment that does not lie in a RAM of `ram_size` bytes, and has this number.
fn segment_part(segment: &Segment, number: usize, ram_size: u32) -> Outside
    ensures { result ≡ segment_part (piece_of segment.now) number ram_size }
{
    let address = segment.address;
    if address < RAM_BASE {
        return Outside::Below { number, address };
    }
    Outside::Above {
        number,
        address,
        size: size_of(segment),
        last: last_byte(ram_size),
    }
}

/// The entry, if it is no multiple of four in a RAM of `ram_size` bytes.
fn entry_part(entry: u32, ram_size: u32) -> Option<Outside>
    ensures { result ≡ entry_part entry ram_size }
{
    if entry_fits(entry, ram_size) {
        return None;
    }
    Some(Outside::Entry {
        entry,
        last: last_byte(ram_size),
    })
}

/// The index of the first segment that has a byte or a zero and does not lie in a RAM of `ram_size` bytes, if one does
/// not.
fn outside_segment(segments: &[Segment], ram_size: u32) -> Option<usize>
    ensures index { IfSome result (λ i. IsFirstOutside (pieces_of segments.now) ram_size i) }
    ensures inside { IsNone result → pieces_fit (pieces_of segments.now) ram_size ≡ true }
{
    for index in 0..segments.len() {
        if !segment_fits(&segments[index], ram_size) {
            return Some(index);
        }
    }
    None
}

/// How many bytes a segment has, with its zeros.
fn size_of(segment: &Segment) -> u64
    ensures size { result ≡ size (piece_of segment.now) }
    ensures below { result < 2 ^ 63 + 2 ^ 32 }
{
    segment.bytes.len() as u64 + u64::from(segment.zeros)
}

/// Whether a segment has neither bytes nor zeros, or lies in a RAM of `ram_size` bytes.
fn segment_fits(segment: &Segment, ram_size: u32) -> bool
    ensures { result ≡ piece_fits (piece_of segment.now) ram_size }
{
    let size = size_of(segment);
    size == 0 || is_within(segment.address, size, ram_size)
}

/// Whether an entry is a multiple of four in a RAM of `ram_size` bytes.
fn entry_fits(entry: u32, ram_size: u32) -> bool
    ensures { result ≡ entry_fits entry ram_size }
{
    entry % 4 == 0 && is_within(entry, 1, ram_size)
}

/// Whether `count` bytes from `address` on lie in a RAM of `ram_size` bytes.
fn is_within(address: u32, count: u64, ram_size: u32) -> bool
    requires { count < 2 ^ 63 + 2 ^ 32 }
    ensures { result ≡ is_within count address ram_size }
{
    let base = u64::from(RAM_BASE);
    let first = u64::from(address);
    first >= base && first + count <= base + u64::from(ram_size)
}

/// A segment, shown as `segment N at ADDRESS`.
#[derive(Clone, Copy)]
struct Place {
    number: usize,
    address: u32,
}

impl fmt::Display for Place {
    ghost use Rattle.std.specs.Prelude.{Some};
    ghost use Rattle.rvm_files.specs.Outsides.{place_text};

    ghost output = { λ p. Some (place_text p.number p.address) };

    #[tactic(auto, unfolding(crate::specs::Outsides::place_text))]
    fn fmt<W: fmt::Write>(&self, f: &mut fmt::Formatter<W>) -> fmt::Result {
        let number = self.number;
        let at = Digits(self.address);
        write!(f, "segment {number} at {at}")
    }
}

/// An entry, shown as `the program begins at ADDRESS, no multiple of four in RAM`.
#[derive(Clone, Copy)]
struct Begins(u32);

impl fmt::Display for Begins {
    ghost use Rattle.std.specs.Prelude.{Some};
    ghost use Rattle.rvm_files.specs.Outsides.{begins_text};

    ghost output = { λ b. Some (begins_text b.0) };

    #[tactic(auto, unfolding(crate::specs::Outsides::begins_text))]
    fn fmt<W: fmt::Write>(&self, f: &mut fmt::Formatter<W>) -> fmt::Result {
        let at = Digits(self.0);
        write!(f, "the program begins at {at}, no multiple of four in RAM")
    }
}

/// The end of RAM, shown as `RAM ends at ADDRESS`.
#[derive(Clone, Copy)]
struct Ends(u32);

impl fmt::Display for Ends {
    ghost use Rattle.std.specs.Prelude.{Some};
    ghost use Rattle.rvm_files.specs.Outsides.{ends_text};

    ghost output = { λ e. Some (ends_text e.0) };

    #[tactic(auto, unfolding(crate::specs::Outsides::ends_text))]
    fn fmt<W: fmt::Write>(&self, f: &mut fmt::Formatter<W>) -> fmt::Result {
        let last = Digits(self.0);
        write!(f, "RAM ends at {last}, which --pages sets")
    }
}

/// What a report says of a part of an image.
impl fmt::Display for Outside {
    ghost use Rattle.std.specs.Prelude.{Some};
    ghost use Rattle.rvm_files.specs.Outsides.{outside_text};

    ghost output = { λ o. Some (outside_text o) };

    fn fmt<W: fmt::Write>(&self, f: &mut fmt::Formatter<W>) -> fmt::Result {
        match *self {
            Outside::Below { number, address } => {
                write!(
                    f,
                    "{}: RAM begins at 80000000 (docs/BOARD.md)",
                    Place { number, address }
                )
            }
            Outside::Above {
                number,
                address,
                size,
                last,
            } => write!(
                f,
                "{} has {size} bytes: {}",
                Place { number, address },
                Ends(last)
            ),
            Outside::Entry { entry, last } => { write!(f, "{}: {}", Begins(entry), Ends(last)) }
        }
    }
}

/// The address of the last byte of a RAM of `ram_size` bytes.
fn last_byte(ram_size: u32) -> u32
    ensures { result ≡ last_byte ram_size }
{
    RAM_BASE.wrapping_add(ram_size).wrapping_sub(1)
}
