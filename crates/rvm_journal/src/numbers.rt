//! Numbers among the words of a line.

ghost use Rattle.std.specs.Prelude.{◌≡◌, ◌≤◌, IfSome, MatchOption, None, Some};
ghost use Rattle.rvm_journal.specs.Numbers.{field, long_in, ranged};

use rvm_debug::Words;

/// The number after the word `name`, if it is in this range; takes both words.
pub(crate) fn field(words: &mut Words<'_>, name: &[u8], low: u64, high: u64) -> Option<u64>
    ensures number { MatchOption result (field name.now low high words.old ≡ None)
        (λ number. field name.now low high words.old ≡ Some (number, words.new)) }
    ensures range { IfSome result (λ number. (low ≤ number) × (number ≤ high)) }
{
    let word = words.next()?;
    let number = words.next()?;
    if word != name {
        return None;
    }
    ranged(number, low, high)
}

/// The number of a word of decimal digits, if it is in this range.
pub(crate) fn ranged(word: &[u8], low: u64, high: u64) -> Option<u64>
    ensures number { result ≡ ranged low high word.now }
    ensures range { IfSome result (λ number. (low ≤ number) × (number ≤ high)) }
{
    let number = long_in(word)?;
    if low <= number && number <= high {
        Some(number)
    } else {
        None
    }
}

/// The number of a word of decimal digits, if it is below 2^64.
#[tactic(auto, unfolding(crate::specs::Numbers::long_in))]
fn long_in(word: &[u8]) -> Option<u64>
    ensures { result ≡ long_in word.now }
{
    if word.is_empty() {
        return None;
    }
    let mut number = 0u64;
    for digit in word {
        if !digit.is_ascii_digit() {
            return None;
        }
        number = number
            .checked_mul(10)?
            .checked_add(u64::from(*digit - b'0'))?;
    }
    Some(number)
}
