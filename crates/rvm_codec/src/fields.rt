//! Fields at the front of bytes. Each is returned with the bytes after it; None if there are too
//! few bytes.

ghost use Rattle.std.specs.Prelude.{◌≡◌, IfSome, length, option_map};
ghost use Rattle.rvm_codec.specs.Codec.{any, bytes_at, flag, number};
ghost use Rattle.rvm_codec.specs.Numbers.{within};

use byteorder::{ByteOrder, LittleEndian};

/// Reads a byte.
#[tactic(auto, unfolding(crate::specs::Numbers::number_at))]
pub fn u8_at(bytes: &[u8]) -> Option<(u8, &[u8])>
    ensures { option_map (λ x. (x.0, x.1.now)) result ≡ (any 1).read bytes.now }
{
    match bytes {
        [] => None,
        [byte, rest @ ..] => Some((*byte, rest)),
    }
}

/// Reads a number of two bytes.
#[tactic(auto, unfolding(crate::specs::Numbers::number_at))]
pub fn u16_at(bytes: &[u8]) -> Option<(u16, &[u8])>
    ensures { option_map (λ x. (x.0, x.1.now)) result ≡ (any 2).read bytes.now }
{
    if bytes.len() < 2 {
        return None;
    }
    Some((LittleEndian::read_u16(bytes), &bytes[2..]))
}

/// Reads a number of four bytes.
#[tactic(auto, unfolding(crate::specs::Numbers::number_at))]
pub fn u32_at(bytes: &[u8]) -> Option<(u32, &[u8])>
    ensures { option_map (λ x. (x.0, x.1.now)) result ≡ (any 4).read bytes.now }
{
    if bytes.len() < 4 {
        return None;
    }
    Some((LittleEndian::read_u32(bytes), &bytes[4..]))
}

/// Reads a number of eight bytes.
#[tactic(auto, unfolding(crate::specs::Numbers::number_at))]
pub fn u64_at(bytes: &[u8]) -> Option<(u64, &[u8])>
    ensures { option_map (λ x. (x.0, x.1.now)) result ≡ (any 8).read bytes.now }
{
    if bytes.len() < 8 {
        return None;
    }
    Some((LittleEndian::read_u64(bytes), &bytes[8..]))
}

/// Reads a byte from `low` to `high`; None if it is another one.
pub fn u8_within(low: u8, high: u8, bytes: &[u8]) -> Option<(u8, &[u8])>
    ensures { option_map (λ x. (x.0, x.1.now)) result
        ≡ (number 1 (within low high)).read bytes.now }
{
    let (n, rest) = u8_at(bytes)?;
    if low <= n && n <= high {
        Some((n, rest))
    } else {
        None
    }
}

/// Reads a number of two bytes from `low` to `high`; None if it is another one.
pub fn u16_within(low: u16, high: u16, bytes: &[u8]) -> Option<(u16, &[u8])>
    ensures { option_map (λ x. (x.0, x.1.now)) result
        ≡ (number 2 (within low high)).read bytes.now }
{
    let (n, rest) = u16_at(bytes)?;
    if low <= n && n <= high {
        Some((n, rest))
    } else {
        None
    }
}

/// Reads a number of four bytes from `low` to `high`; None if it is another one.
pub fn u32_within(low: u32, high: u32, bytes: &[u8]) -> Option<(u32, &[u8])>
    ensures { option_map (λ x. (x.0, x.1.now)) result
        ≡ (number 4 (within low high)).read bytes.now }
{
    let (n, rest) = u32_at(bytes)?;
    if low <= n && n <= high {
        Some((n, rest))
    } else {
        None
    }
}

/// Reads a flag, a byte that is 0 or 1; None if it is another one.
pub fn flag_at(bytes: &[u8]) -> Option<(bool, &[u8])>
    ensures { option_map (λ x. (x.0, x.1.now)) result ≡ flag.read bytes.now }
{
    let (n, rest) = u8_within(0, 1, bytes)?;
    Some((n == 1, rest))
}

/// Splits off the first `count` bytes.
pub fn bytes_at(count: usize, bytes: &[u8]) -> Option<(&[u8], &[u8])>
    ensures value { option_map (λ x. (x.0.now, x.1.now)) result ≡ bytes_at count bytes.now }
    ensures length { IfSome result (λ x. length x.0.now ≡ count) }
{
    if bytes.len() < count {
        return None;
    }
    Some(bytes.split_at(count))
}
