//! Numbers, shown in hexadecimal.

use std::fmt;

/// A number, shown as eight hexadecimal digits.
#[derive(Clone, Copy)]
pub struct Digits(pub u32);

impl fmt::Display for Digits {
    ghost use Rattle.std.specs.Prelude.{Some};
    ghost use Rattle.rvm_dis.specs.Pieces.{hex_digits};

    ghost output = { λ number. Some (hex_digits 8 number.0) };

    #[tactic(auto, using(crate::proofs::Hex::hexes))]
    fn fmt<W: fmt::Write>(&self, f: &mut fmt::Formatter<W>) -> fmt::Result {
        let number = self.0;
        write!(f, "{number:08x}")
    }
}
