//! Lists of numbers at the front of bytes.

ghost use Rattle.std.specs.Prelude.{◌≡◌, ◌≤◌, option_map};
ghost use Rattle.rvm_codec.specs.Codec.{number, read_each};
ghost use Rattle.rvm_codec.specs.Numbers.{rise_from, within};

use crate::fields::{u16_within, u32_within};
use arrayvec::ArrayVec;

/// Reads `count` numbers of two bytes, each from `low` to `high`. Returns them and the bytes after
/// them; None if there are too few bytes or a number is another one.
pub fn u16s_within<const CAP: usize>(
    count: usize,
    low: u16,
    high: u16,
    bytes: &[u8],
) -> Option<(ArrayVec<u16, CAP>, &[u8])>
    requires { count ≤ CAP }
    ensures { option_map (λ x. (x.0.items, x.1.now)) result
        ≡ read_each (number 2 (within low high)).read count bytes.now }
{
    let mut numbers = ArrayVec::new();
    let mut rest = bytes;
    for _ in 0..count {
        match u16_within(low, high, rest) {
            None => return None,
            Some((n, behind)) => {
                numbers.push(n);
                rest = behind;
            }
        }
    }
    Some((numbers, rest))
}

/// Reads `count` numbers of four bytes, each from `low` to `high`. Returns them and the bytes after
/// them; None if there are too few bytes or a number is another one.
pub fn u32s_within<const CAP: usize>(
    count: usize,
    low: u32,
    high: u32,
    bytes: &[u8],
) -> Option<(ArrayVec<u32, CAP>, &[u8])>
    requires { count ≤ CAP }
    ensures { option_map (λ x. (x.0.items, x.1.now)) result
        ≡ read_each (number 4 (within low high)).read count bytes.now }
{
    let mut numbers = ArrayVec::new();
    let mut rest = bytes;
    for _ in 0..count {
        match u32_within(low, high, rest) {
            None => return None,
            Some((n, behind)) => {
                numbers.push(n);
                rest = behind;
            }
        }
    }
    Some((numbers, rest))
}

/// Whether the numbers rise strictly.
pub fn u16s_rise(numbers: &[u16]) -> bool
    ensures { result ≡ rise_from 0 numbers.now }
{
    let mut low = 0u32;
    for n in numbers {
        let n = u32::from(*n);
        if n < low {
            return false;
        }
        low = n + 1;
    }
    true
}

/// Whether the numbers rise strictly.
pub fn u32s_rise(numbers: &[u32]) -> bool
    ensures { result ≡ rise_from 0 numbers.now }
{
    let mut low = 0u64;
    for n in numbers {
        let n = u64::from(*n);
        if n < low {
            return false;
        }
        low = n + 1;
    }
    true
}
