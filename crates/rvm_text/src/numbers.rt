//! The numbers that words spell.

ghost use Rattle.std.specs.Prelude.{◌≡◌, ◌≤◌};
ghost use Rattle.rvm_text.specs.Numbers.{digit_value, number_in, number_of};

/// The number that a word spells: hexadecimal after `0x`, binary after `0b`, else decimal. `None` if it spells none
/// below 2^32.
pub fn number(word: &[u8]) -> Option<u32>
    ensures { result ≡ number_of word.now }
{
    match word {
        [b'0', b'x', digits @ ..] => number_in(16, digits),
        [b'0', b'b', digits @ ..] => number_in(2, digits),
        _ => number_in(10, word),
    }
}

/// The number that digits of this radix, at most 16, spell. `None` if there are none, another byte is among them, or
/// the number is 2^32 or more.
fn number_in(radix: u32, digits: &[u8]) -> Option<u32>
    requires { radix ≤ 16 }
    ensures { result ≡ number_in radix digits.now }
{
    if digits.is_empty() {
        return None;
    }
    let mut number = 0u32;
    for b in digits {
        let digit = u32::from(digit_value(*b));
        if digit >= radix {
            return None;
        }
        number = number.checked_mul(radix)?.checked_add(digit)?;
    }
    Some(number)
}

/// The value of a hexadecimal digit in lower or upper case; 16 if the byte is no digit.
pub fn digit_value(b: u8) -> u8
    ensures { result ≡ digit_value b }
{
    match b {
        b'0'..=b'9' => b - b'0',
        b'a'..=b'f' => b - b'a' + 10,
        b'A'..=b'F' => b - b'A' + 10,
        _ => 16,
    }
}
