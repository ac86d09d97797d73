//! Bits of a word, and the halves of a 64-bit number, as 32-bit registers show them.

ghost use Rattle.std.specs.Prelude.{◌≡◌, ◌<◌};
ghost use Rattle.rvm_word.specs.Bits.{bit, is_set, low_half, high_half, with_low, with_high};

/// The weight of a bit if it is set, else 0.
#[inline(always)]
pub fn bit(weight: u32, set: bool) -> u32
    ensures { result ≡ bit weight set }
{
    if set { weight } else { 0 }
}

/// Whether a bit of a word is set; bit 0 has the least weight.
#[inline(always)]
pub fn is_set(word: u32, bit: u32) -> bool
    requires { bit < 32 }
    ensures { result ≡ is_set bit word }
{
    word >> bit & 1 == 1
}

/// Bits 31 to 0 of a number.
#[inline(always)]
pub fn low_half(number: u64) -> u32
    ensures { result ≡ low_half number }
{
    (number & 0xFFFF_FFFF) as u32
}

/// Bits 63 to 32 of a number.
#[inline(always)]
pub fn high_half(number: u64) -> u32
    ensures { result ≡ high_half number }
{
    (number >> 32) as u32
}

/// The number with its low half replaced by `value`.
#[inline(always)]
pub fn with_low(number: u64, value: u32) -> u64
    ensures { result ≡ with_low value number }
{
    (number >> 32 << 32) | u64::from(value)
}

/// The number with its high half replaced by `value`.
#[inline(always)]
pub fn with_high(number: u64, value: u32) -> u64
    ensures { result ≡ with_high value number }
{
    u64::from(value) << 32 | (number & 0xFFFF_FFFF)
}
