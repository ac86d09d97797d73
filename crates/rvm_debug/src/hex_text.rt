//! Bytes that are written as pairs of hexadecimal digits.

ghost use Rattle.std.specs.Prelude.{◌≡◌, ◌∷◌, [], ◌<◌, MatchOption};
ghost use Rattle.std.specs.List.{list_all};
ghost use Rattle.rvm_debug.specs.HexBytes.{hex_of, is_hex_digit, small};

use arrayvec::ArrayVec;
use rvm_board::{VIEW_SIZE, View};
use rvm_text::digit_value;
use std::marker::Model;

/// Bytes that are written as two hexadecimal digits each.
#[derive(Drop)]
pub struct HexText<'a> {
    digits: &'a [u8],
}

impl<'a> Model for HexText<'a> {
    ghost use Rattle.std.specs.Prelude.{List, ℕ, IsTrue};
    ghost use Rattle.std.specs.List.{list_all};
    ghost use Rattle.rvm_debug.specs.HexBytes.{bytes_in, is_hex_digit};

    ghost Value = { List ℕ };

    ghost view = { λ h. bytes_in h.digits.now };

    ghost invariant = { λ h. IsTrue (list_all is_hex_digit h.digits.now) };
}

impl<'a> HexText<'a> {
    /// The bytes of a word that consists of digits, an even number and at least two; `None` for any other word.
    #[tactic(auto, unfolding(crate::specs::HexBytes::hex_of))]
    pub fn new(word: &'a [u8]) -> Option<HexText<'a>>
        ensures { result ≡ hex_of word.now }
    {
        if are_hex_digits(word) && word.len() % 2 == 0 && word.len() != 0 {
            Some(HexText { digits: word })
        } else {
            None
        }
    }

    /// The first byte and those after it, if there is one.
    #[tactic(auto, unfolding(crate::specs::HexBytes::bytes_in))]
    pub fn split_first(self) -> Option<(u8, HexText<'a>)>
        ensures { MatchOption result (self.entry ≡ []) (λ p. self.entry ≡ p.0 ∷ p.1) }
    {
        match self.digits {
            [high, low, behind @ ..] => {
                let byte = digit_value(*high) * 16 + digit_value(*low);
                Some((byte, HexText { digits: behind }))
            }
            _ => None,
        }
    }

    /// The bytes as a `View`, or `None` if there are more than 256.
    pub fn view(self) -> Option<View>
        ensures { result ≡ small self.entry }
    {
        let mut bytes: ArrayVec<u8, VIEW_SIZE> = ArrayVec::new();
        let mut left = self;
        while let Some((byte, behind)) = left.split_first() {
            if bytes.try_push(byte).is_err() {
                return None;
            }
            left = behind;
        }
        View::new(&bytes)
    }
}

/// Whether all bytes are hexadecimal digits.
fn are_hex_digits(word: &[u8]) -> bool
    ensures { result ≡ list_all is_hex_digit word.now }
{
    word.iter().all(|b| digit_value(*b) < 16)
}
