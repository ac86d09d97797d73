//! Where a program begins, and its bytes.

/// The most bytes that a program may have, without the zeros after its segments.
pub const MAX_BYTES: usize = 1 << 24;

/// Bytes from an address on, and zeros after them.
#[derive(Drop)]
pub struct Segment {
    /// The address of the first byte.
    pub address: u32,
    /// The bytes from that address on.
    pub bytes: Vec<u8>,
    /// How many zeros stand after the bytes.
    pub zeros: u32,
}

/// A program. If two segments have a byte at one address, the later segment counts.
#[derive(Drop)]
pub struct Image {
    /// The address at which all harts begin.
    pub entry: u32,
    /// The segments, in any order.
    pub segments: Vec<Segment>,
}
